//! The line of a key.

ghost use Rattle.std.specs.Prelude.{◌≡◌, ◌<◌, ◌++◌, ◌∷◌, [], OnOk};
ghost use Rattle.x3d_lists.specs.Extends.{Extends};
ghost use Rattle.hex.specs.Hex.{encode_lower};
ghost use Rattle.share_keys.specs.Keys.{written};
ghost use Rattle.share_key_files.specs.Files as spec;

use hex::encode_to_slice;
use share_keys::Key;
use std::alloc::AllocError;

/// Appends a viewer's number in decimal digits.
fn push_number(who: u8, out: &mut Vec<u8>) -> Result<(), AllocError>
    requires { who < 64 }
    ensures ok { OnOk result (out.new.items ≡ out.old.items ++ written who) }
    ensures kept { Extends out.old.items out.new.items }
{
    if who >= 10 {
        out.push(b'0' + who / 10)?;
    }
    out.push(b'0' + who % 10)?;
    Ok(())
}

/// Returns the bytes of a key in 64 hexadecimal digits.
fn digits_of(key: &Key) -> [u8; 64]
    ensures { result ≡ encode_lower key.now.bytes }
{
    let mut digits = [0; 64];
    let _fits = encode_to_slice(key.bytes.as_slice(), &mut digits);
    digits
}

/// Appends the line of a viewer's key, which `key_of` reads, with its LF. Fails if memory is
/// refused; a part of the line may then be appended.
pub fn write_key(who: u8, key: &Key, out: &mut Vec<u8>) -> Result<(), AllocError>
    requires { who < 64 }
    ensures ok { OnOk result
        (out.new.items ≡ out.old.items ++ spec.key_text who key.now ++ 10 ∷ []) }
    ensures kept { Extends out.old.items out.new.items }
{
    push_number(who, out)?;
    out.push(b' ')?;
    out.extend_from_slice(digits_of(key).as_slice())?;
    out.push(b'\n')?;
    Ok(())
}

/// A line that `write_key` appends is the line of that viewer's key: `key_of` reads it back.
pub fn written_keys_are_read()
    ensures { spec.LinesAreRead }
{}
