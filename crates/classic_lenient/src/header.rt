//! The header of VRML 97.

ghost use Rattle.std.specs.Prelude.{◌≡◌, ◌≤◌, ◌+◌, length, IfOk};
ghost use Rattle.classic_lex.specs.Header.{mark_len};
ghost use Rattle.classic_lenient.specs.VrmlHeader as spec;

use std::alloc::{AllocError, Global};

const BYTE_ORDER_MARK: &[u8; 3] = b"\xef\xbb\xbf";

/// Returns the number of bytes of the byte order mark at the front; 0 if there is none.
#[tactic(auto, unfolding(classic_lex::specs::Header::mark_len))]
fn mark_len(text: &[u8]) -> usize
    ensures value { result ≡ mark_len text.now }
    ensures within { result ≤ length text.now }
{
    if text.starts_with(BYTE_ORDER_MARK) {
        3
    } else {
        0
    }
}

/// Returns the text with the header of X3D 3.0 instead of the 15 bytes after the mark.
fn relabelled(alloc: Global, text: &[u8], mark: usize) -> Result<Vec<u8>, AllocError>
    requires { mark + 15 ≤ length text.now }
    ensures { IfOk result (λ v. v.items ≡ spec.relabelled mark text.now) }
{
    let mut made = Vec::new(alloc);
    made.extend_from_slice(&text[..mark])?;
    made.extend_from_slice(b"#X3D V3.0 utf8 ")?;
    made.extend_from_slice(&text[mark + 15..])?;
    Ok(made)
}

/// Returns a text, under a header of X3D 3.0 if it had that of VRML 97.
pub fn as_x3d(alloc: Global, text: &[u8]) -> Result<Vec<u8>, AllocError>
    ensures { IfOk result (λ v. v.items ≡ spec.as_x3d text.now) }
{
    let mark = mark_len(text);
    if text[mark..].starts_with(b"#VRML V2.0 utf8") {
        return relabelled(alloc, text, mark);
    }
    Ok(Vec::from_slice(alloc, text)?)
}
