//! What is printed of an instance.

ghost use Rattle.std.specs.Prelude.{◌≡◌, ◌++◌, codes, decimal};

use arrayvec::ArrayString;
use itoa::Buffer;

/// Returns `in the instance on line N`.
pub fn instance_words(line: u32) -> ArrayString<64>
    ensures { result.bytes ≡ codes "in the instance on line " ++ decimal line }
{
    let mut text = ArrayString::new();
    text.push_str("in the instance on line ");
    let mut digits = Buffer::new();
    text.push_str(digits.format(line));
    text
}
