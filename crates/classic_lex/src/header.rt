//! The head of a text: its size, its encoding and its first line.

ghost use Rattle.std.specs.Prelude.{◌≡◌, ◌≤◌, length, IfOk, IfSome, OnOk};
ghost use Rattle.std.specs.Str.{is_utf8};
ghost use Rattle.classic_lex.specs.Header as spec;
ghost use Rattle.classic_lex.specs.Tokens.{HasVersion};
ghost use Rattle.classic_lex.specs.declared.versions.Version.{Version};

use crate::classes::{Digits, run_len};
use crate::fault::{LexFault, LexFaultKind};
use crate::versions::Version;
use classic_bytes::is_space;

/// The largest number of bytes of a text: 16 MiB.
pub const MAX_LEN: usize = 16_777_216;

const BYTE_ORDER_MARK: &[u8; 3] = b"\xef\xbb\xbf";

/// Returns the number of bytes of the byte order mark at the front; 0 if there is none.
#[tactic(auto, unfolding(crate::specs::Header::mark_len))]
pub(crate) fn mark_len(text: &[u8]) -> usize
    ensures value { result ≡ spec.mark_len text.now }
    ensures within { result ≤ length text.now }
{
    if text.starts_with(BYTE_ORDER_MARK) {
        3
    } else {
        0
    }
}

fn is_text(bytes: &[u8]) -> bool
    ensures { result ≡ is_utf8 bytes.now }
{
    match std::str::from_utf8(bytes) {
        Ok(_) => true,
        Err(_) => false,
    }
}

/// Returns the number of bytes of digits, a point and digits at the front, if they are there.
#[tactic(auto, unfolding(crate::specs::Header::number_len))]
fn number_len(text: &[u8]) -> Option<usize>
    ensures value { result ≡ spec.number_len text.now }
    ensures within { IfSome result (λ n. n ≤ length text.now) }
{
    let whole = run_len::<Digits>(text);
    match &text[whole..] {
        [] => None,
        [b, behind @ ..] => {
            let fraction = run_len::<Digits>(behind);
            if *b == b'.' && whole > 0 && fraction > 0 {
                Some(whole + 1 + fraction)
            } else {
                None
            }
        }
    }
}

/// Reports whether the text after the version begins with ` utf8` and then white space or the end.
#[tactic(auto, unfolding(crate::specs::Header::ends_header))]
fn ends_header(text: &[u8]) -> bool
    ensures { result ≡ spec.ends_header text.now }
{
    if !text.starts_with(b" utf8") {
        return false;
    }
    match &text[5..] {
        [] => true,
        [b, ..] => is_space(*b),
    }
}

#[tactic(auto, unfolding(crate::specs::Header::version_named))]
fn version_named(name: &[u8]) -> Result<Version, LexFaultKind>
    ensures { result ≡ spec.version_named name.now }
{
    match name {
        b"3.0" => Ok(Version::V3_0),
        b"3.1" => Ok(Version::V3_1),
        b"3.2" => Ok(Version::V3_2),
        b"3.3" => Ok(Version::V3_3),
        b"4.0" => Ok(Version::V4_0),
        _ => Err(LexFaultKind::BadVersion),
    }
}

#[tactic(auto, unfolding(crate::specs::Header::version_at))]
fn version_at(text: &[u8]) -> Result<Version, LexFaultKind>
    ensures { result ≡ spec.version_at text.now }
{
    let Some(len) = number_len(text) else {
        return Err(LexFaultKind::NoHeader);
    };
    if !ends_header(&text[len..]) {
        return Err(LexFaultKind::NoHeader);
    }
    version_named(&text[..len])
}

#[tactic(auto, unfolding(crate::specs::Header::header))]
fn header(text: &[u8]) -> Result<Version, LexFaultKind>
    ensures { result ≡ spec.header text.now }
{
    if !text.starts_with(b"#X3D V") {
        return Err(LexFaultKind::NoHeader);
    }
    version_at(&text[6..])
}

#[tactic(auto, unfolding(crate::specs::Header::version_of))]
fn head_version(text: &[u8]) -> Result<Version, LexFault>
    ensures exact { result ≡ spec.version_of text.now }
    ensures size { OnOk result (length text.now ≤ spec.max_len) }
{
    if text.len() > MAX_LEN {
        return Err(at_head(LexFaultKind::TooLong));
    }
    if !is_text(text) {
        return Err(at_head(LexFaultKind::NotUtf8));
    }
    match header(&text[mark_len(text)..]) {
        Ok(version) => Ok(version),
        Err(kind) => Err(at_head(kind)),
    }
}

/// Returns the version that a text's header names. Fails with `TooLong`, `NotUtf8`, `NoHeader` or
/// `BadVersion` on line 1, tested in this order.
pub fn version(text: &[u8]) -> Result<Version, LexFault>
    ensures exact { result ≡ spec.version_of text.now }
    // The version returned is exactly the one that the header names.
    ensures found { IfOk result (λ version. HasVersion text.now version) }
    ensures only { (version : Version) → HasVersion text.now version → result ≡ Ok version }
    ensures size { OnOk result (length text.now ≤ spec.max_len) }
{
    head_version(text)
}

fn at_head(kind: LexFaultKind) -> LexFault
    ensures { result ≡ spec.at_head kind }
{
    LexFault { kind, line: 1 }
}
