//! From a text to its document, without the statements that are left out.

ghost use Rattle.std.specs.Prelude.{◌≡◌, ◌⊎◌, IfOk, IfErr, map};
ghost use Rattle.classic_text.specs.Reading.{memory};
ghost use Rattle.classic_lenient.specs.Pieces.{piece_of};
ghost use Rattle.classic_lenient.specs.Scan as scan;
ghost use Rattle.classic_lenient.specs.Lenient.{IsLenient, IsMended, IsPlaced, IsUnmended};
ghost use Rattle.classic_lenient.specs.Lenient.{IsUnreadable, says_memory};
ghost use Rattle.classic_lenient.specs.VrmlHeader.{as_x3d};

use crate::blanks::blank_all;
use crate::header::as_x3d;
use crate::pieces::pieces_of;
use crate::scan::{Unread, unread_in};
use classic_lex::{Token, lex};
use classic_text::{ReadFault, ReadFaultKind, read};
use classic_tree::Document;
use std::alloc::{AllocError, Global};
use x3d_values::Items;

/// A document, and the statements of its text that were left out.
#[derive(Drop)]
pub struct Lenient {
    pub document: Document,
    pub unread: Items<Unread>,
}

fn no_memory() -> ReadFault
    ensures { result ≡ memory }
{
    ReadFault {
        kind: ReadFaultKind::Memory,
        line: 0,
    }
}

fn is_memory(kind: ReadFaultKind) -> bool
    ensures { result ≡ says_memory kind }
{
    matches!(kind, ReadFaultKind::Memory)
}

/// Returns the statements that are left out, given the tokens of their text.
fn unread_of(alloc: Global, text: &[u8], tokens: &[Token]) -> Result<Items<Unread>, AllocError>
    ensures { IfOk result (λ r. r ≡ scan.unread_in (map (piece_of text.now) tokens.now)) }
{
    let pieces = pieces_of(alloc, text, tokens)?;
    unread_in(alloc, pieces.as_slice())
}

/// Returns the statements of a text that are left out.
fn placed(alloc: Global, text: &[u8]) -> Result<Items<Unread>, ReadFault>
    ensures found { IfOk result (IsPlaced text.now) }
    ensures refused { IfErr result (λ fault. (fault ≡ memory) ⊎ IsUnmended text.now fault) }
{
    let tokens = lex(alloc, text)?;
    match unread_of(alloc, text, tokens.as_slice()) {
        Ok(unread) => Ok(unread),
        Err(_refused) => Err(no_memory()),
    }
}

/// Reads a text in which statements are left out.
fn mended(alloc: Global, mut text: Vec<u8>) -> Result<Lenient, ReadFault>
    ensures read { IfOk result (IsMended text.items) }
    ensures refused { IfErr result (λ fault. (fault ≡ memory) ⊎ IsUnmended text.items fault) }
{
    let unread = placed(alloc, text.as_slice())?;
    blank_all(&mut text, unread.as_slice());
    let document = read(alloc, text.as_slice());
    match document {
        Ok(document) => Ok(Lenient { document, unread }),
        Err(fault) => {
            drop(unread);
            Err(fault)
        }
    }
}

/// Reads a text that has no document, under a header of X3D.
fn mended_text(alloc: Global, text: &[u8]) -> Result<Lenient, ReadFault>
    ensures read { IfOk result (IsMended (as_x3d text.now)) }
    ensures refused { IfErr result
        (λ fault. (fault ≡ memory) ⊎ IsUnmended (as_x3d text.now) fault) }
{
    match as_x3d(alloc, text) {
        Ok(text) => mended(alloc, text),
        Err(_refused) => Err(no_memory()),
    }
}

/// Returns the document of a text, and the statements that were left out of it: EXTERNPROTO,
/// IMPORT, EXPORT, UNIT, and declarations whose type is not one that is read. The header of VRML 97
/// is read as that of X3D 3.0. A text that `read` takes is read as a whole.
///
/// Fails with the first fault of the text without those statements, or with `Memory` if memory runs
/// out.
pub fn read_lenient(alloc: Global, text: &[u8]) -> Result<Lenient, ReadFault>
    ensures read { IfOk result (IsLenient text.now) }
    ensures refused { IfErr result (λ fault. (fault ≡ memory) ⊎ IsUnreadable text.now fault) }
{
    match read(alloc, text) {
        Ok(document) => Ok(Lenient {
            document,
            unread: Items::new(alloc),
        }),
        Err(fault) => {
            if is_memory(fault.kind) {
                return Err(no_memory());
            }
            mended_text(alloc, text)
        }
    }
}
