//! The tree of a text in which each part has a place of its own.

ghost use Rattle.std.specs.Prelude.{◌≡◌, ◌++◌, IfOk, IfErr, IfSome};
ghost use Rattle.std.specs.Str.{bytes_eq};
ghost use Rattle.app_jobs.specs.declared.fault.JobFault.TheVariants.{Memory};
ghost use Rattle.classic_lenient.specs.Lenient.{IsLenient};
ghost use Rattle.classic_tree.specs.Writing.{document_text};
ghost use Rattle.app_part.specs.Apart as spec;
ghost use Rattle.app_part.specs.Whole.{says_memory};

use crate::apart::{Apart, apart_of};
use crate::tries::text_of;
use app_jobs::JobFault;
use classic_lenient::{Lenient, as_x3d, read_lenient};
use classic_tree::Document;
use std::alloc::{AllocError, Global};

/// The tree of a text with the places of its parts, the text that has them as lines, and the line
/// of each place.
#[derive(Drop)]
pub struct Placed {
    pub lenient: Lenient,
    pub source: Vec<u8>,
    pub lines: Vec<u32>,
}

pub(crate) fn is_memory(fault: JobFault) -> bool
    ensures { result ≡ says_memory fault }
{
    matches!(fault, JobFault::Memory)
}

/// Reports whether two documents have the same text.
fn are_same(alloc: Global, one: &Document, other: &Document) -> Result<bool, AllocError>
    ensures { IfOk result
        (λ same. same ≡ bytes_eq (document_text one.now) (document_text other.now)) }
{
    let first = text_of(alloc, one)?;
    let second = text_of(alloc, other)?;
    Ok(first.as_slice() == second.as_slice())
}

/// Returns a text with its tokens apart, unless it has no tokens.
fn apart_if(alloc: Global, text: &[u8]) -> Result<Option<Apart>, AllocError>
    ensures { IfOk result (λ r. IfSome r (spec.IsApart text.now)) }
{
    match apart_of(alloc, text) {
        Ok(made) => Ok(Some(made)),
        Err(fault) => {
            if is_memory(fault) {
                return Err(AllocError);
            }
            Ok(None)
        }
    }
}

/// Reads a text, unless it is no document.
fn read_if(alloc: Global, text: &[u8]) -> Result<Option<Lenient>, AllocError>
    ensures { IfOk result (λ r. IfSome r (IsLenient text.now)) }
{
    match read_lenient(alloc, text) {
        Ok(lenient) => Ok(Some(lenient)),
        Err(fault) => {
            if is_memory(JobFault::from(fault)) {
                return Err(AllocError);
            }
            Ok(None)
        }
    }
}

/// Returns the tree of a text whose tokens are apart, unless its document is another.
fn numbered_as(
    alloc: Global,
    made: Apart,
    document: &Document,
) -> Result<Option<Placed>, AllocError>
    ensures { IfOk result (λ r. IfSome r (spec.IsOfApart made document.now)) }
{
    let Some(lenient) = read_if(alloc, made.text.as_slice())? else {
        drop(made);
        return Ok(None);
    };
    if !are_same(alloc, &lenient.document, document)? {
        drop(lenient);
        drop(made);
        return Ok(None);
    }
    Ok(Some(Placed {
        lenient,
        source: made.text,
        lines: made.lines,
    }))
}

/// Returns the tree of a text with its tokens apart, unless its document is another.
fn numbered(alloc: Global, text: &[u8], document: &Document) -> Result<Option<Placed>, AllocError>
    ensures { IfOk result (λ r. IfSome r (spec.IsNumberedAs text.now document.now)) }
{
    let Some(made) = apart_if(alloc, text)? else {
        return Ok(None);
    };
    numbered_as(alloc, made, document)
}

/// Returns the tree of a text, which was read as `lenient`, with the places of its parts. Fails if
/// memory runs out.
pub(crate) fn placed_of(alloc: Global, text: &[u8], lenient: Lenient) -> Result<Placed, AllocError>
    ensures { IfOk result (spec.IsPlaced text.now lenient) }
{
    let Ok(source) = as_x3d(alloc, text) else {
        drop(lenient);
        return Err(AllocError);
    };
    match numbered(alloc, source.as_slice(), &lenient.document) {
        Ok(Some(made)) => {
            drop(source);
            drop(lenient);
            Ok(made)
        }
        Ok(None) => Ok(Placed {
            lenient,
            source,
            lines: Vec::new(alloc),
        }),
        Err(refused) => {
            drop(source);
            drop(lenient);
            Err(refused)
        }
    }
}
