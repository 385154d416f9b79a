//! The keys of a file.

ghost use Rattle.std.specs.Prelude.{◌≡◌, IfOk, None};
ghost use Rattle.std.specs.Result.{result_map_both};
ghost use Rattle.std.specs.Str.Lines.{lines};
ghost use Rattle.share_keys.specs.Table.{no_keys};
ghost use Rattle.share_key_files.specs.Files as spec;

use crate::fault::{KeyFault, KeyFileFault};
use crate::line::{KeyLine, line_of};
use share_keys::{Keys, ViewerKey};
use share_rules::cut_line;

/// Puts what a line says into a host's keys.
fn take_line(keys: &mut Keys, line: KeyLine) -> Result<(), KeyFault>
    ensures { result_map_both (λ _. keys.new) (λ e. e) result ≡ spec.with_line keys.old line }
{
    match line {
        KeyLine::Skipped => Ok(()),
        KeyLine::Bad => Err(KeyFault::BadLine),
        KeyLine::Key(found) => put_new(keys, found),
    }
}

/// Gives a viewer a key, if it has none.
fn put_new(keys: &mut Keys, found: ViewerKey) -> Result<(), KeyFault>
    ensures { result_map_both (λ _. keys.new) (λ e. e) result
        ≡ spec.with_new keys.old found }
{
    if keys.get(found.who).is_some() {
        return Err(KeyFault::ViewerTwice);
    }
    keys.put(found.who, found.key);
    Ok(())
}

/// Returns the one key that a viewer's file has, after this one or none, and what a line says.
fn take_only(found: Option<ViewerKey>, line: KeyLine) -> Result<Option<ViewerKey>, KeyFault>
    ensures { result ≡ spec.with_only found line }
{
    match line {
        KeyLine::Skipped => Ok(found),
        KeyLine::Bad => Err(KeyFault::BadLine),
        KeyLine::Key(key) => match found {
            None => Ok(Some(key)),
            Some(_) => Err(KeyFault::TooManyKeys),
        },
    }
}

/// Returns the keys of a host's key file. Each line is a viewer's number from 0 to 63, a space, and
/// the viewer's key in 64 hexadecimal digits. Empty lines and lines that begin with `#` are
/// skipped. A line ends at LF or CR LF.
///
/// Fails with the first line that is of another form (`BadLine`) or has a second key of a viewer
/// (`ViewerTwice`), and with `NoKeys` if no line has a key.
pub fn keys_of_file(bytes: &[u8]) -> Result<Keys, KeyFileFault>
    ensures exact { result ≡ spec.keys_from 0 no_keys (lines bytes.now) }
    ensures found { IfOk result (λ keys. spec.IsKeyFile bytes.now keys) }
{
    let mut keys = Keys::none();
    let mut rest = bytes;
    let mut line = 0;
    while !rest.is_empty() {
        let (text, behind) = cut_line(rest);
        line += 1;
        if let Err(kind) = take_line(&mut keys, line_of(text)) {
            return Err(KeyFileFault { line, kind });
        }
        rest = behind;
    }
    if keys.has_any() {
        Ok(keys)
    } else {
        let kind = KeyFault::NoKeys;
        Err(KeyFileFault { line, kind })
    }
}

/// Returns the key of a viewer's key file: one line as a host's file has them. Empty lines and
/// lines that begin with `#` are skipped.
///
/// Fails with the first line that is of another form (`BadLine`) or has a second key
/// (`TooManyKeys`), and with `NoKeys` if no line has a key.
pub fn key_of_file(bytes: &[u8]) -> Result<ViewerKey, KeyFileFault>
    ensures exact { result ≡ spec.key_from 0 None (lines bytes.now) }
{
    let mut found = None;
    let mut rest = bytes;
    let mut line = 0;
    while !rest.is_empty() {
        let (text, behind) = cut_line(rest);
        line += 1;
        found = match take_only(found, line_of(text)) {
            Ok(only) => only,
            Err(kind) => return Err(KeyFileFault { line, kind }),
        };
        rest = behind;
    }
    match found {
        Some(key) => Ok(key),
        None => {
            let kind = KeyFault::NoKeys;
            Err(KeyFileFault { line, kind })
        }
    }
}
