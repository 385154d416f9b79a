//! Large texts, made of parts that are repeated.

use std::alloc::{AllocError, Global};

/// How often a part is repeated, and the part. Repetitions are numbered from 1; `%` becomes the
/// number, and `~` the number before it.
pub(super) struct Part(pub u32, pub &'static str);

fn push_number(out: &mut Vec<u8>, number: u32) -> Result<(), AllocError> {
    out.extend_from_slice(itoa::Buffer::new().format(number).as_bytes())
}

/// Appends a byte of a part, in the repetition of this number.
fn push_byte(out: &mut Vec<u8>, number: u32, byte: u8) -> Result<(), AllocError> {
    match byte {
        b'%' => push_number(out, number),
        b'~' => push_number(out, number.saturating_sub(1)),
        plain => Ok(out.push(plain)?),
    }
}

fn push_part(out: &mut Vec<u8>, part: &Part) -> Result<(), AllocError> {
    for before in 0..part.0 {
        for byte in part.1.as_bytes() {
            push_byte(out, before + 1, *byte)?;
        }
    }
    Ok(())
}

fn push_parts(out: &mut Vec<u8>, parts: &[Part]) -> Result<(), AllocError> {
    for part in parts {
        push_part(out, part)?;
    }
    Ok(())
}

/// Returns the text of these parts.
pub(super) fn made(alloc: Global, parts: &[Part]) -> Result<Vec<u8>, AllocError> {
    let mut out = Vec::new(alloc);
    push_parts(&mut out, parts)?;
    Ok(out)
}
