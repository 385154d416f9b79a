//! The entries of a log as the lines of a job.

ghost use Rattle.std.specs.Prelude.{◌≡◌, ◌∷◌, ◌++◌, [], OnOk, decimal};
ghost use Rattle.app_logs.specs.Steps.{clock_line, down_digit, line_of, point_line, step_line};
ghost use Rattle.app_logs.specs.Steps.{steps_text, vector_words};
ghost use Rattle.x3d_numerals.specs.NumberText.{number_text};

use share_entries::{Entry, Source};
use std::alloc::AllocError;
use x3d_numerals::push_number;
use x3d_values::{Pointer, Vec3};

fn push_clock(time: i64, out: &mut Vec<u8>) -> Result<(), AllocError>
    ensures { OnOk result (out.new.items ≡ out.old.items ++ clock_line time) }
{
    out.extend_from_slice(b"clock ")?;
    push_number(time, out)?;
    out.extend_from_slice(b"\n")
}

/// Appends a space and a number of millionths, in units.
fn push_word(number: i64, out: &mut Vec<u8>) -> Result<(), AllocError>
    ensures { OnOk result (out.new.items ≡ out.old.items ++ 32 ∷ number_text number) }
{
    out.push(b' ')?;
    push_number(number, out)
}

fn push_vector(v: Vec3, out: &mut Vec<u8>) -> Result<(), AllocError>
    ensures { OnOk result (out.new.items ≡ out.old.items ++ vector_words v) }
{
    push_word(v.x, out)?;
    push_word(v.y, out)?;
    push_word(v.z, out)
}

/// Returns the digit that says whether a button is down.
fn down_digit(down: bool) -> u8
    ensures { result ≡ down_digit down }
{
    if down { b'1' } else { b'0' }
}

/// Appends the number of a viewer, and whether its button is down.
fn push_hand(who: u8, down: bool, out: &mut Vec<u8>) -> Result<(), AllocError>
    ensures { OnOk result
        (out.new.items ≡ out.old.items ++ decimal who ++ 32 ∷ down_digit down ∷ []) }
{
    let mut buffer = itoa::Buffer::new();
    out.extend_from_slice(buffer.format(who).as_bytes())?;
    out.extend_from_slice(&[b' ', down_digit(down)])
}

fn push_point(pointer: Pointer, out: &mut Vec<u8>) -> Result<(), AllocError>
    ensures { OnOk result (out.new.items ≡ out.old.items ++ point_line pointer) }
{
    out.extend_from_slice(b"point ")?;
    push_hand(pointer.who(), pointer.is_down(), out)?;
    push_vector(pointer.ray().origin(), out)?;
    push_vector(pointer.ray().dir(), out)?;
    out.extend_from_slice(b"\n")
}

fn push_step(entry: &Entry, out: &mut Vec<u8>) -> Result<(), AllocError>
    ensures { OnOk result (out.new.items ≡ out.old.items ++ step_line entry.now) }
{
    match entry.source() {
        Source::Clock => push_clock(entry.time(), out),
        Source::Offer(offer) => push_point(offer.pointer(), out),
    }
}

/// Appends a line for each entry, in order. On an error, some lines may be appended.
pub(crate) fn push_steps(entries: &[Entry], out: &mut Vec<u8>) -> Result<(), AllocError>
    ensures { OnOk result (out.new.items ≡ out.old.items ++ steps_text entries.now) }
{
    for entry in entries {
        push_step(entry, out)?;
    }
    Ok(())
}
