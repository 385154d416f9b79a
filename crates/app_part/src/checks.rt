//! Whether the text of a part is a scene, and which faults are answered.

ghost use Rattle.std.specs.Prelude.{◌≡◌, ◌⊎◌, true, false, IfOk, IfErr, OnOk};
ghost use Rattle.std.specs.Str.{bytes_eq};
ghost use Rattle.classic_tree.specs.Writing.{document_text};
ghost use Rattle.app_jobs.specs.declared.fault.JobFault.TheVariants.{Memory};
ghost use Rattle.app_part.specs.Mends.{is_limit};
ghost use Rattle.app_part.specs.Parts as spec;
ghost use Rattle.app_part.specs.Whole as whole;

use crate::mends::is_limit;
use crate::part::ScenePart;
use crate::tries::text_of;
use app_jobs::JobFault;
use app_program::open_document;
use classic_text::read;
use classic_tree::Document;
use proto_flat::{ExpandFault, ExpandFaultKind};
use std::alloc::{AllocError, Global};

/// Returns the fault of a text whose part is no scene as a text.
fn no_text() -> JobFault
    ensures { result ≡ spec.no_text }
{
    JobFault::Expand(ExpandFault {
        kind: ExpandFaultKind::TooLarge,
        line: 0,
    })
}

/// Returns the answer for the fault of the text of a part: the fault if it is a limit.
fn answer(fault: JobFault) -> JobFault
    ensures { ((result ≡ fault) × (is_limit fault ≡ true))
        ⊎ ((result ≡ spec.no_text) × (is_limit fault ≡ false)) }
{
    if is_limit(&fault) {
        return fault;
    }
    no_text()
}

/// Tells whether a document is a scene.
fn judged(alloc: Global, document: Document) -> Result<(), JobFault>
    ensures good { OnOk result (spec.IsGood document) }
    ensures bad { IfErr result (λ f. (f ≡ Memory) ⊎ spec.IsBad document f) }
{
    match open_document(alloc, document) {
        Ok(opened) => {
            drop(opened);
            Ok(())
        }
        Err(fault) => Err(fault),
    }
}

/// Tells whether a document is a scene. Fails with the answer for its fault.
fn answered(alloc: Global, document: Document) -> Result<(), JobFault>
    ensures good { OnOk result (spec.IsGood document) }
    ensures bad { IfErr result (λ f. (f ≡ Memory) ⊎ whole.IsAnswer (spec.IsBad document) f) }
{
    match judged(alloc, document) {
        Ok(()) => Ok(()),
        Err(fault) => Err(answer(fault)),
    }
}

/// Reports whether this is the text of a document.
fn is_text_of(alloc: Global, document: &Document, text: &[u8]) -> Result<bool, AllocError>
    ensures { IfOk result (λ same. same ≡ bytes_eq (document_text document.now) text.now) }
{
    let written = text_of(alloc, document)?;
    Ok(written.as_slice() == text)
}

/// Tells whether a document is a scene, and whether this is its text.
fn judged_as(alloc: Global, document: Document, text: &[u8]) -> Result<(), JobFault>
    ensures same { OnOk result (document_text document ≡ text.now) }
    ensures good { OnOk result (spec.IsGood document) }
    ensures bad { IfErr result (λ f. (f ≡ Memory) ⊎ (whole.IsAnother document text.now f
        ⊎ whole.IsAnswer (spec.IsBad document) f)) }
{
    let Ok(same) = is_text_of(alloc, &document, text) else {
        drop(document);
        return Err(JobFault::Memory);
    };
    if !same {
        drop(document);
        return Err(no_text());
    }
    answered(alloc, document)
}

/// Tells whether a text is a scene that stays the same when it is read and written again.
fn judged_text(alloc: Global, text: &[u8]) -> Result<(), JobFault>
    ensures good { OnOk result (whole.IsScene text.now) }
    ensures refused { IfErr result (λ f. (f ≡ Memory) ⊎ whole.IsNoPartsText text.now f) }
{
    match read(alloc, text) {
        Ok(document) => judged_as(alloc, document, text),
        Err(fault) => Err(answer(JobFault::from(fault))),
    }
}

/// Returns a part whose text is a scene.
pub(crate) fn checked(alloc: Global, part: ScenePart) -> Result<ScenePart, JobFault>
    ensures same { IfOk result (λ p. p ≡ part) }
    ensures good { IfOk result (λ p. whole.IsScene p.text.items) }
    ensures refused { IfErr result
        (λ f. (f ≡ Memory) ⊎ whole.IsNoPartsText part.text.items f) }
{
    match judged_text(alloc, part.text.as_slice()) {
        Ok(()) => Ok(part),
        Err(fault) => {
            drop(part);
            Err(fault)
        }
    }
}
