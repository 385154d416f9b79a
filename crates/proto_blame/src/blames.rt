//! Blames: lines as texts.

ghost use Rattle.std.specs.Prelude.{◌≡◌, IfOk};
ghost use Rattle.proto_blame.specs.Blames as spec;

use itoa::Buffer;
use std::alloc::{AllocError, Global};
use x3d_lists::Text;

/// Returns the blame of a line, if it isn't 0.
pub(crate) fn blame(alloc: Global, line: u32) -> Result<Option<Text>, AllocError>
    ensures { IfOk result (λ m. m ≡ spec.blame line) }
{
    if line == 0 {
        return Ok(None);
    }
    let mut digits = Buffer::new();
    let text = Text::from_str(alloc, digits.format(line))?;
    Ok(Some(text))
}

fn with_digit(line: u32, digit: u8) -> u32
    ensures { result ≡ spec.with_digit line digit }
{
    ((line as u64 * 10 + (digit % 16) as u64) % (1 << 32)) as u32
}

/// Returns the line of a blame.
pub(crate) fn line_in(text: &[u8]) -> u32
    ensures { result ≡ spec.line_in text.now }
{
    let mut line = 0;
    for digit in text {
        line = with_digit(line, *digit);
    }
    line
}
