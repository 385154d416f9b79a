//! One try: the part of a document without what is refused, and whether it is a scene.

ghost use Rattle.std.specs.Prelude.{◌≡◌, ◌⊎◌, [], IfOk, IfErr, OnOk};
ghost use Rattle.app_jobs.specs.declared.fault.JobFault.TheVariants.{Memory};
ghost use Rattle.app_part.specs.Parts as spec;
ghost use Rattle.app_part.specs.Judging.{IsToldBad};
ghost use Rattle.classic_tree.specs.Writing.{document_text};

use crate::judging::{Refused, judged};
use app_jobs::JobFault;
use classic_part::{Note, part_of};
use classic_tree::{Document, write};
use std::alloc::{AllocError, Global};
use x3d_values::Items;

/// A part that is a scene: its text, and the notes on what was left out.
#[derive(Drop)]
pub(crate) struct Made {
    pub text: Vec<u8>,
    pub left: Items<Note>,
}

/// Returns what stays of a document without what is refused, and appends the notes on what goes.
fn settled(
    alloc: Global,
    document: &Document,
    refused: &[u32],
    left: &mut Items<Note>,
) -> Result<Document, AllocError>
    requires { left.old ≡ [] }
    ensures { IfOk result (spec.IsPart document.now refused.now left.new) }
{
    let round = part_of(alloc, document, refused, left)?;
    Ok(round.document)
}

/// Returns the text of a document.
pub(crate) fn text_of(alloc: Global, document: &Document) -> Result<Vec<u8>, AllocError>
    ensures { IfOk result (λ v. v.items ≡ document_text document.now) }
{
    let mut text = Vec::new(alloc);
    write(document, &mut text)?;
    Ok(text)
}

fn without_blames(alloc: Global, fault: JobFault) -> Refused
    ensures { result.fault ≡ fault }
{
    Refused {
        fault,
        blames: Items::new(alloc),
    }
}

/// Returns the text of a document that is a scene.
fn text_if_good(alloc: Global, document: Document) -> Result<Vec<u8>, Refused>
    ensures text { IfOk result (λ v. v.items ≡ document_text document) }
    ensures good { OnOk result (spec.IsGood document) }
    ensures bad { IfErr result
        (λ r. (r.fault ≡ Memory) ⊎ IsToldBad document r.fault r.blames) }
{
    let Ok(text) = text_of(alloc, &document) else {
        drop(document);
        return Err(without_blames(alloc, JobFault::Memory));
    };
    match judged(alloc, document) {
        Ok(()) => Ok(text),
        Err(refused) => {
            drop(text);
            Err(refused)
        }
    }
}

/// Returns the part of a document without what begins at refused places, if that is a scene. Fails
/// with what is at fault in that part.
pub(crate) fn tried(alloc: Global, document: &Document, refused: &[u32]) -> Result<Made, Refused>
    ensures made { IfOk result (λ m. spec.IsMade document.now refused.now m.text.items m.left) }
    ensures refused { IfErr result
        (λ r. (r.fault ≡ Memory)
        ⊎ spec.IsTurnedDown document.now refused.now r.fault r.blames) }
{
    let mut left = Items::new(alloc);
    let Ok(part) = settled(alloc, document, refused, &mut left) else {
        drop(left);
        return Err(without_blames(alloc, JobFault::Memory));
    };
    match text_if_good(alloc, part) {
        Ok(text) => Ok(Made { text, left }),
        Err(refused) => {
            drop(left);
            Err(refused)
        }
    }
}
