//! The part of what a reader gives.

ghost use Rattle.std.specs.Prelude.{◌≡◌, ◌⊎◌, option_map, IfOk, IfErr};
ghost use Rattle.app_jobs.specs.declared.fault.JobFault.TheVariants.{Memory};
ghost use Rattle.app_program.specs.Opening.{IsDeviceOrMemory};
ghost use Rattle.app_part.specs.Streams as spec;
ghost use Rattle.app_part.specs.Whole.{IsRefused};

use crate::kept::lost_text;
use crate::list::told_text;
use crate::order::ordered;
use crate::part::{ScenePart, part_of_text};
use app_jobs::JobFault;
use app_program::read_whole;
use std::alloc::Global;
use std::io::Read;

/// The text of a part, and the lines on what was left out.
#[derive(Drop)]
pub struct PartTexts {
    pub text: Vec<u8>,
    pub told: Vec<u8>,
}

/// The texts of a part, and of the first name that it lacks, if it lacks one, the name and the line
/// on what it went with.
#[derive(Drop)]
pub struct KeptTexts {
    pub texts: PartTexts,
    pub lost: Option<Vec<u8>>,
}

/// Returns the text of a part with the lines on what was left out.
fn with_told(alloc: Global, part: ScenePart) -> Result<PartTexts, JobFault>
    ensures texts { IfOk result (spec.AreShown part) }
    ensures refused { IfErr result (λ f. f ≡ Memory) }
{
    let Ok(told) = told_text(alloc, &part) else {
        drop(part);
        return Err(JobFault::Memory);
    };
    Ok(PartTexts {
        text: part.text,
        told,
    })
}

/// Returns the part of these bytes, with the notes in the order of their places.
fn ordered_part(alloc: Global, bytes: &[u8]) -> Result<ScenePart, JobFault>
    ensures part { IfOk result (spec.IsOrderedPart bytes.now) }
    ensures refused { IfErr result (IsRefused bytes.now) }
{
    let part = part_of_text(alloc, bytes)?;
    let shown = ordered(part)?;
    Ok(shown)
}

/// Returns the text of the part of these bytes, with the lines on what was left out.
fn texts_of(alloc: Global, bytes: &[u8]) -> Result<PartTexts, JobFault>
    ensures texts { IfOk result (spec.ArePartTexts bytes.now) }
    ensures refused { IfErr result (IsRefused bytes.now) }
{
    let part = ordered_part(alloc, bytes)?;
    with_told(alloc, part)
}

/// Returns the texts of a part, with what is said of the first name that it lacks.
fn with_lost(alloc: Global, part: ScenePart, lost: Option<Vec<u8>>) -> Result<KeptTexts, JobFault>
    ensures texts { IfOk result (λ k. spec.AreShown part k.texts) }
    ensures lost { IfOk result (λ k. option_map (λ v. v.items) k.lost
        ≡ option_map (λ v. v.items) lost) }
{
    match with_told(alloc, part) {
        Ok(texts) => Ok(KeptTexts { texts, lost }),
        Err(fault) => {
            drop(lost);
            Err(fault)
        }
    }
}

/// Returns the texts of the part of these bytes, with what is said of the first name, one a line,
/// that it lacks.
fn kept_texts_of(alloc: Global, bytes: &[u8], names: &[u8]) -> Result<KeptTexts, JobFault>
    ensures texts { IfOk result (spec.AreKeptTexts bytes.now names.now) }
{
    let part = ordered_part(alloc, bytes)?;
    match lost_text(alloc, &part, names) {
        Ok(lost) => with_lost(alloc, part, lost),
        Err(fault) => {
            drop(part);
            Err(fault)
        }
    }
}

/// Reads a text to its end, and returns the part of it that is a scene, as `check` takes it, with
/// the lines on what was left out.
///
/// Fails with `Device` if the reader fails or has no end, with `Memory` if memory is refused, or
/// with the fault of `part_of_text`.
pub fn read_part<R: Read>(alloc: Global, reader: &mut R) -> Result<PartTexts, JobFault>
    ensures texts { IfOk result
        (spec.IsPartRead (R.remaining reader.old) (R.remaining reader.new)) }
    ensures refused { IfErr result (λ f. IsDeviceOrMemory f
        ⊎ spec.HasNoPartRead (R.remaining reader.old) (R.remaining reader.new) f) }
{
    let bytes = read_whole(alloc, reader)?;
    texts_of(alloc, bytes.as_slice())
}

/// Like `read_part`, for a text in whose part nodes of these names, one a line, have to stay.
pub fn read_part_keeping<R: Read>(
    alloc: Global,
    reader: &mut R,
    names: &[u8],
) -> Result<KeptTexts, JobFault>
    ensures texts { IfOk result
        (spec.IsKeptRead (R.remaining reader.old) (R.remaining reader.new) names.now) }
{
    let bytes = read_whole(alloc, reader)?;
    kept_texts_of(alloc, bytes.as_slice(), names)
}
