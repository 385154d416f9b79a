//! The command that prints the part of a text.

use app_part::{PartTexts, read_part, read_part_keeping};
use app_program::{RunFault, write_whole};
use app_serve::End;
use app_words::OrderFault;
use std::fs;
use std::io::{self, Eprint};

fn print<R: Print>(rt: &R, text: &[u8]) -> Result<(), RunFault> {
    Ok(write_whole(&mut io::writer(rt), text)?)
}

/// Prints lines on standard error.
fn tell<R: Eprint>(rt: &R, told: &[u8]) {
    if let Ok(told) = std::str::from_utf8(told) {
        let _told = rt.eprint(told);
    }
}

/// Prints a part, and on standard error what was left out; or only what was left out.
fn print_part<R: Print + Eprint>(rt: &R, made: &PartTexts, list: bool) -> Result<(), RunFault> {
    if list {
        return print(rt, made.told.as_slice());
    }
    print(rt, made.text.as_slice())?;
    tell(rt, made.told.as_slice());
    Ok(())
}

/// Reads a text, and prints the part of it that is a scene and what was left out, or with `list`
/// only what was left out.
fn plain_part<R: AllocGlobal + Input + Print + Eprint>(rt: &R, list: bool) -> Result<(), End> {
    let made = read_part(rt.alloc(), &mut rt.reader())?;
    print_part(rt, &made, list)?;
    Ok(())
}

/// Reads a file of names.
fn names_in(rt: &HostRuntime, file: &str) -> Result<Vec<u8>, End> {
    match fs::read(rt, file) {
        Ok(names) => Ok(names),
        Err(error) => match error.kind() {
            io::ErrorKind::OutOfMemory => Err(End::from(OrderFault::Memory)),
            _ => Err(End::NoNames),
        },
    }
}

/// Does the same as `part` without a file, unless the part lacks a name of that file.
fn part_keeping(rt: &HostRuntime, list: bool, file: &str) -> Result<(), End> {
    let names = names_in(rt, file)?;
    let kept = read_part_keeping(rt.alloc(), &mut rt.reader(), names.as_slice())?;
    if let Some(lost) = &kept.lost {
        let _told = rt.eprintln("refused NameLost");
        tell(rt, lost.as_slice());
        return Err(End::NameLost);
    }
    print_part(rt, &kept.texts, list)?;
    Ok(())
}

/// Reads a text, and prints the part of it that is a scene and what was left out, or with `list`
/// only what was left out. Fails if a file of names is given, and the part lacks one of them.
pub fn part(rt: &HostRuntime, list: bool, file: Option<&str>) -> Result<(), End> {
    match file {
        Some(file) => part_keeping(rt, list, file),
        None => plain_part(rt, list),
    }
}
