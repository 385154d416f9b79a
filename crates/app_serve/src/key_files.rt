//! The files of keys.

ghost use Rattle.std.specs.Prelude.{◌<◌};

use crate::end::End;
use app_program::{RunFault, StreamFault, read_whole};
use app_words::OrderFault;
use share_key_files::{key_of_file, keys_of_file, write_key};
use share_keys::{Key, Keys};
use std::alloc::{AllocError, Global};
use std::fs::{self, File, OpenOptions};
use std::io::{self, Write};
use std::os::unix::fs::{MetadataExt, OpenOptionsExt};
use std::random::RandomSource;

/// The bits of a file's mode by which others than its owner may do something with it.
const OTHERS: u32 = 0o077;

/// The bytes of a file that only its owner may use. Fails with `KeyFileOpen` if the file can't be
/// opened or read, and with `KeyFileShared` if others may use it.
fn private_bytes(rt: &HostRuntime, path: &str) -> Result<Vec<u8>, End> {
    let Ok(mut file) = File::open(rt, path) else {
        return Err(End::KeyFileOpen);
    };
    match file.metadata() {
        Ok(found) if found.mode() & OTHERS != 0 => return Err(End::KeyFileShared),
        Ok(_) => {}
        Err(_) => return Err(End::KeyFileOpen),
    }
    match read_whole(rt.alloc(), &mut file) {
        Ok(bytes) => Ok(bytes),
        Err(StreamFault::Memory) => Err(End::from(OrderFault::Memory)),
        Err(StreamFault::Device) => Err(End::KeyFileOpen),
    }
}

/// Returns the bytes of the file of a login. Fails with `KeyFileOpen`, `KeyFileShared` or `Memory`.
pub fn login_bytes(rt: &HostRuntime, path: &str) -> Result<Vec<u8>, End> {
    private_bytes(rt, path)
}

/// Returns the keys of a host's file. Fails with `KeyFileOpen`, `KeyFileShared`, `KeyFile` or
/// `Memory`.
pub fn host_keys(rt: &HostRuntime, path: &str) -> Result<Keys, End> {
    let bytes = private_bytes(rt, path)?;
    match keys_of_file(bytes.as_slice()) {
        Ok(keys) => Ok(keys),
        Err(fault) => Err(End::KeyFile(fault)),
    }
}

/// Returns the key of a viewer's file. Fails with `KeyFileOpen`, `KeyFileShared`, `KeyFile`,
/// `Memory`, or with `WrongViewer` if the key is another viewer's.
pub fn viewer_key(rt: &HostRuntime, path: &str, who: u8) -> Result<Key, End> {
    let bytes = private_bytes(rt, path)?;
    match key_of_file(bytes.as_slice()) {
        Ok(found) if found.who == who => Ok(found.key),
        Ok(_) => Err(End::WrongViewer),
        Err(fault) => Err(End::KeyFile(fault)),
    }
}

/// Draws bytes by the system's source of random ones. Fails with `Device`.
pub fn drawn_bytes<R: RandomSource>(rt: &R) -> Result<[u8; 32], End> {
    let mut bytes = [0; 32];
    match rt.fill_bytes(&mut bytes) {
        Ok(()) => Ok(bytes),
        Err(_) => Err(End::from(RunFault::Device)),
    }
}

/// The texts of a host's file and of each viewer's, in the order of the viewers.
#[derive(Drop)]
struct KeyTexts {
    host: Vec<u8>,
    viewers: Vec<Vec<u8>>,
}

fn push_line(texts: &mut KeyTexts, alloc: Global, who: u8, key: &Key) -> Result<(), AllocError>
    requires { who < 64 }
{
    write_key(who, key, &mut texts.host)?;
    let mut line = Vec::new(alloc);
    write_key(who, key, &mut line)?;
    Ok(texts.viewers.push(line)?)
}

/// Draws the keys of viewers, and returns the texts of their files.
fn drawn_texts(rt: &HostRuntime, viewers: u8) -> Result<KeyTexts, End> {
    let mut texts = KeyTexts {
        host: Vec::new(rt.alloc()),
        viewers: Vec::new(rt.alloc()),
    };
    for who in 0..viewers.min(64) {
        let key = Key {
            bytes: drawn_bytes(rt)?,
        };
        if push_line(&mut texts, rt.alloc(), who, &key).is_err() {
            return Err(End::from(OrderFault::Memory));
        }
    }
    Ok(texts)
}

/// Returns the name of the host's file in a folder, or of a viewer's.
fn name_in(alloc: Global, folder: &str, who: Option<usize>) -> Result<String, End> {
    let name = match who {
        None => format!(in alloc; "{folder}/host.keys"),
        Some(who) => format!(in alloc; "{folder}/viewer-{who}.key"),
    };
    match name {
        Ok(name) => Ok(name),
        Err(_) => Err(End::from(OrderFault::Memory)),
    }
}

/// Makes a file that only its owner may use, with these bytes. Fails with `KeyFileThere` if there
/// is one of this name, and with `Device`.
fn make_private(rt: &HostRuntime, path: &str, bytes: &[u8]) -> Result<(), End> {
    let made = OpenOptions::new()
        .write(true)
        .create_new(true)
        .mode(0o600)
        .open(rt, path);
    match made {
        Ok(mut file) => match file.write_all(bytes) {
            Ok(()) => Ok(()),
            Err(_) => Err(End::from(RunFault::Device)),
        },
        Err(error) => match error.kind() {
            io::ErrorKind::AlreadyExists => Err(End::KeyFileThere),
            _ => Err(End::from(RunFault::Device)),
        },
    }
}

/// Fails with `KeyFileThere` if there is something of this name.
fn is_missing(rt: &HostRuntime, path: &str) -> Result<(), End> {
    match fs::symlink_metadata(rt, path) {
        Ok(_) => Err(End::KeyFileThere),
        Err(_) => Ok(()),
    }
}

/// Fails with `KeyFileThere` if one of the files is in the folder.
fn are_missing(rt: &HostRuntime, folder: &str, viewers: usize) -> Result<(), End> {
    is_missing(rt, name_in(rt.alloc(), folder, None)?.as_str())?;
    for who in 0..viewers {
        is_missing(rt, name_in(rt.alloc(), folder, Some(who))?.as_str())?;
    }
    Ok(())
}

/// Makes the files of a host's and of its viewers' keys, drawn at random, in a folder.
///
/// Fails with `KeyFileThere` if one of them is there, and nothing is made; with `Device`, and files
/// may then be there; or with `Memory`.
pub fn make_keys(rt: &HostRuntime, viewers: u8, folder: &str) -> Result<(), End> {
    let texts = drawn_texts(rt, viewers)?;
    are_missing(rt, folder, texts.viewers.len())?;
    for (who, text) in texts.viewers.iter().enumerate() {
        let name = name_in(rt.alloc(), folder, Some(who))?;
        make_private(rt, name.as_str(), text.as_slice())?;
    }
    let name = name_in(rt.alloc(), folder, None)?;
    make_private(rt, name.as_str(), texts.host.as_slice())
}
