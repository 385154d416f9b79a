//! The part of a text that the core can run, and what was left out.

ghost use Rattle.std.specs.Prelude.{◌≡◌, IfOk, IfErr};
ghost use Rattle.app_jobs.specs.declared.fault.JobFault.TheVariants.{Memory};
ghost use Rattle.embed_parts.specs.Parts as spec;

use crate::notes::left_numbers;
use app_jobs::JobFault;
use app_part::{ScenePart, ordered, part_of_text, told_text};
use std::alloc::Global;

/// The text of a part, a line for each thing that was left out with a last line of counts, and two
/// numbers for each: its line and its kind.
#[derive(Drop)]
pub struct EmbeddedPart {
    pub(crate) text: Vec<u8>,
    pub(crate) told: Vec<u8>,
    pub(crate) notes: Vec<i64>,
}

/// Returns the text of a part, with the lines and numbers of what was left out.
fn with_notes(alloc: Global, part: ScenePart) -> Result<EmbeddedPart, JobFault>
    ensures told { IfOk result (spec.IsTold part) }
    ensures refused { IfErr result (λ fault. fault ≡ Memory) }
{
    let Ok(notes) = left_numbers(alloc, &part) else {
        drop(part);
        return Err(JobFault::Memory);
    };
    let Ok(told) = told_text(alloc, &part) else {
        drop(notes);
        drop(part);
        return Err(JobFault::Memory);
    };
    Ok(EmbeddedPart {
        text: part.text,
        told,
        notes,
    })
}

/// Returns the same, with the notes in the order of their places.
fn told_in_order(alloc: Global, part: ScenePart) -> Result<EmbeddedPart, JobFault>
    ensures made { IfOk result (spec.IsToldInOrder part) }
    ensures refused { IfErr result (λ fault. fault ≡ Memory) }
{
    let part = ordered(part)?;
    with_notes(alloc, part)
}

impl EmbeddedPart {
    ghost use Rattle.std.specs.Prelude.{◌≡◌};
    ghost use Rattle.embed_parts.specs.Parts.{IsOpened};

    /// Returns the part of a text that is a scene, as `check` takes it, with what was left out of
    /// the text.
    ///
    /// Fails with the fault of `part_of_text` of app_part.
    pub fn open(alloc: Global, text: &[u8]) -> Result<EmbeddedPart, JobFault>
        ensures { IsOpened text.now result }
    {
        let part = part_of_text(alloc, text)?;
        told_in_order(alloc, part)
    }

    /// Returns the text of the part.
    pub fn text(&self) -> &[u8]
        ensures { result.now ≡ self.now.text.items }
    {
        self.text.as_slice()
    }

    /// Returns the lines on what was left out, with a last line of counts.
    pub fn told(&self) -> &[u8]
        ensures { result.now ≡ self.now.told.items }
    {
        self.told.as_slice()
    }

    /// Returns the line and the kind of each thing that was left out.
    pub fn notes(&self) -> &[i64]
        ensures { result.now ≡ self.now.notes.items }
    {
        self.notes.as_slice()
    }
}
