//! One line of a key file.

ghost use Rattle.std.specs.Prelude.{◌≡◌, ◌<◌, IfSome};
ghost use Rattle.share_key_files.specs.Files as spec;

use crate::fault::KeyFault;
use share_keys::{Keys, ViewerKey, key_of};

/// What a line of a key file says.
#[derive(Clone, Copy)]
pub enum KeyLine {
    /// Nothing: the line is empty or begins with `#`.
    Skipped,
    Key(ViewerKey),
    Bad,
}

fn is_skipped(line: &[u8]) -> bool
    ensures { result ≡ spec.is_skipped line.now }
{
    match line {
        [] => true,
        [first, ..] => *first == b'#',
    }
}

fn said_by(key: Option<ViewerKey>) -> KeyLine
    ensures { result ≡ spec.said_by key }
{
    match key {
        Some(key) => KeyLine::Key(key),
        None => KeyLine::Bad,
    }
}

/// Returns what a line says.
pub(crate) fn line_of(line: &[u8]) -> KeyLine
    ensures { result ≡ spec.line_of line.now }
{
    if is_skipped(line) {
        KeyLine::Skipped
    } else {
        said_by(key_of(line))
    }
}
