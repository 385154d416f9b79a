//! The name of a world.

ghost use Rattle.std.specs.Prelude.{◌≡◌, ◌≤◌, ◌-◌, ◌++◌, IsTrue, length, replicate, take, drop};
ghost use Rattle.std.specs.List.{list_all};
ghost use Rattle.share_session.specs.Names as spec;

use std::marker::Model;

/// The longest name of a world, in bytes.
const MAX_NAME: usize = 64;

/// The name of a world: at most 64 letters, digits, `-`, `_` and `.`. A host that has one world
/// answers to the empty name.
#[derive(Clone, Copy, PartialEq, Eq)]
pub struct WorldName {
    len: u8,
    bytes: [u8; MAX_NAME],
}

impl Model for WorldName {
    ghost use Rattle.std.specs.Prelude.{IsTrue};
    ghost use Rattle.share_session.specs.Names.{NameView, is_name};

    ghost Value = { NameView };

    ghost view = { λ n. record { len = n.len; bytes = n.bytes } };

    ghost invariant = { λ n. IsTrue (is_name n.len n.bytes) };

    ghost inverse = { λ n. record { len = n.len; bytes = n.bytes } };
}

/// Reports whether a name may have this byte: a letter or a digit of ASCII, `-`, `.` or `_`.
pub fn is_name_byte(byte: u8) -> bool
    ensures { result ≡ spec.is_name_byte byte }
{
    byte >= b'0' && byte <= b'9'
        || byte >= b'A' && byte <= b'Z'
        || byte >= b'a' && byte <= b'z'
        || byte == b'-'
        || byte == b'.'
        || byte == b'_'
}

fn are_name_bytes(bytes: &[u8]) -> bool
    ensures { result ≡ list_all spec.is_name_byte bytes.now }
{
    bytes.iter().all(|byte| is_name_byte(*byte))
}

fn are_zeros(bytes: &[u8]) -> bool
    ensures { result ≡ list_all spec.is_zero_byte bytes.now }
{
    bytes.iter().all(|byte| *byte == 0)
}

/// Copies the text to the front.
fn put_front(all: &mut [u8; MAX_NAME], text: &[u8])
    requires { length text.now ≤ 64 }
    ensures { all.new ≡ text.now ++ drop (length text.now) all.old }
{
    all[..text.len()].copy_from_slice(text);
}

/// Returns the text padded with zeros to 64 bytes.
fn padded(text: &[u8]) -> [u8; MAX_NAME]
    requires { length text.now ≤ 64 }
    ensures { result ≡ text.now ++ replicate (64 - length text.now) 0 }
{
    let mut all = [0; MAX_NAME];
    put_front(&mut all, text);
    all
}

/// Reports whether bytes are a name of this length and zeros after it.
pub(crate) fn is_name(len: u8, bytes: &[u8; MAX_NAME]) -> bool
    ensures { result ≡ spec.is_name len bytes.now }
{
    if len > 64 {
        return false;
    }
    let (front, rest) = bytes.split_at(len as usize);
    are_name_bytes(front) && are_zeros(rest)
}

impl WorldName {
    /// Returns the name that a text is, or `None` if it is longer than 64 bytes or has a byte that
    /// a name may not have.
    pub fn new(text: &[u8]) -> Option<WorldName>
        ensures { result ≡ spec.name_of text.now }
    {
        if text.len() <= MAX_NAME && are_name_bytes(text) {
            Some(WorldName {
                len: text.len() as u8,
                bytes: padded(text),
            })
        } else {
            None
        }
    }

    /// Makes a name of its length and its bytes with zeros after them.
    pub(crate) fn of(len: u8, bytes: [u8; MAX_NAME]) -> WorldName
        requires { IsTrue (spec.is_name len bytes) }
        ensures { result ≡ record { len = len; bytes = bytes } }
    {
        WorldName { len, bytes }
    }

    /// Returns the bytes of the name.
    pub fn text(&self) -> &[u8]
        ensures { result.now ≡ take self.now.len self.now.bytes }
    {
        &self.bytes[..self.len as usize]
    }

    /// Returns the length of the name, at most 64.
    pub(crate) fn len(&self) -> u8
        ensures { result ≡ self.now.len }
    {
        self.len
    }

    /// Returns the bytes of the name with zeros after them.
    pub(crate) fn bytes(&self) -> &[u8; MAX_NAME]
        ensures value { result.now ≡ self.now.bytes }
        ensures fits { IsTrue (spec.is_name self.now.len self.now.bytes) }
    {
        &self.bytes
    }
}
