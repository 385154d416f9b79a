//! Spaces for the statements that are left out.

ghost use Rattle.std.specs.Prelude.{◌≡◌, map};
ghost use Rattle.std.specs.List.{fold};
ghost use Rattle.classic_lenient.specs.Blanks as spec;

use crate::scan::Unread;

fn spaced(byte: u8) -> u8
    ensures { result ≡ spec.spaced byte }
{
    if byte == b'\n' { b'\n' } else { b' ' }
}

/// Makes spaces of all bytes but line ends.
fn space(bytes: &mut [u8])
    ensures { bytes.new ≡ map spec.spaced bytes.old }
{
    for byte in bytes.iter_mut() {
        *byte = spaced(*byte);
    }
}

/// Makes spaces of the bytes of a statement, if they are in the text.
fn blank(text: &mut [u8], unread: &Unread)
    ensures { text.new ≡ spec.blank text.old unread.now }
{
    let (start, end) = (unread.start as usize, unread.end as usize);
    if start <= end && end <= text.len() {
        space(&mut text[start..end]);
    }
}

/// Makes spaces of the bytes of all these statements.
pub(crate) fn blank_all(text: &mut [u8], unread: &[Unread])
    ensures { text.new ≡ fold spec.blank text.old unread.now }
{
    for one in unread {
        blank(text, one);
    }
}
