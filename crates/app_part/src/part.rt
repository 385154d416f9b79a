//! The part of a text that is a scene.

ghost use Rattle.std.specs.Prelude.{◌≡◌, ◌⊎◌, ◌++◌, ◌∷◌, [], Err, IfOk, IfErr, OnOk};
ghost use Rattle.app_jobs.specs.declared.fault.JobFault.TheVariants.{Memory};
ghost use Rattle.app_program.specs.Opening.{opened};
ghost use Rattle.app_part.specs.Mends.{place, places};
ghost use Rattle.app_part.specs.Parts as spec;
ghost use Rattle.app_part.specs.Whole as whole;

use crate::bare::all_statements;
use crate::checks::checked;
use crate::judging::Refused;
use crate::mends::{is_limit, mends as mend};
use crate::places::{Placed, is_memory, placed_of};
use crate::tries::{Made, text_of, tried};
use app_jobs::JobFault;
use app_program::open_scene;
use classic_lenient::{Lenient, Unread, as_x3d, read_lenient};
use classic_part::Note;
use classic_text::read;
use classic_tree::Document;
use scene_faults::Blame;
use std::alloc::{AllocError, Global};
use x3d_values::Items;

/// How often what is at fault is left out.
const MAX_TRIES: u32 = 65_536;

/// The part of a text that is a scene, and what was left out: statements that aren't read, the
/// notes on nodes, fields and the like, and what was at fault. Each has a place: the line in
/// `source`, the text with its tokens apart. `lines` has the lines of places.
#[derive(Drop)]
pub struct ScenePart {
    pub text: Vec<u8>,
    pub source: Vec<u8>,
    pub lines: Vec<u32>,
    pub unread: Items<Unread>,
    pub left: Items<Note>,
    pub blames: Items<Blame>,
}

/// What goes of a document, and where that begins.
#[derive(Drop)]
pub(crate) struct Mends {
    pub refused: Items<u32>,
    pub blames: Items<Blame>,
}

/// Leaves out what a blame is of.
fn push_blame(mends: &mut Mends, blame: Blame) -> Result<(), AllocError>
    ensures left { OnOk result (mends.new.blames ≡ mends.old.blames ++ blame ∷ []) }
    ensures places { OnOk result (mends.new.refused ≡ mends.old.refused ++ place blame ∷ []) }
{
    mends.refused.push(blame.line)?;
    mends.blames.push(blame)
}

fn push_blames(mends: &mut Mends, blames: &[Blame]) -> Result<(), AllocError>
    ensures left { OnOk result (mends.new.blames ≡ mends.old.blames ++ blames.now) }
    ensures places { OnOk result (mends.new.refused ≡ mends.old.refused ++ places blames.now) }
{
    for blame in blames {
        push_blame(mends, *blame)?;
    }
    Ok(())
}

/// Leaves out what is at fault, and reports whether that was found. Fails with the first fault if
/// that is a limit.
fn leave_out(alloc: Global, mends: &mut Mends, refused: Refused) -> Result<bool, JobFault>
    ensures left { IfOk result
        (whole.IsLeft mends.old mends.new refused.fault refused.blames) }
    ensures refused { IfErr result (λ f. (f ≡ Memory) ⊎ whole.IsLast refused.fault f) }
{
    let Refused { fault, blames } = refused;
    let Some(more) = mend(alloc, mends.refused.as_slice(), &fault, blames)? else {
        if is_limit(&fault) {
            return Err(fault);
        }
        return Ok(false);
    };
    let pushed = push_blames(mends, more.as_slice());
    drop(more);
    pushed?;
    Ok(true)
}

/// Returns the part of a document without all its statements.
fn bare(alloc: Global, document: &Document, mends: &mut Mends) -> Result<Made, JobFault>
    ensures left { OnOk result (whole.IsBare document.now mends.old mends.new) }
    ensures made { IfOk result
        (λ m. spec.IsMade document.now mends.new.refused m.text.items m.left) }
    ensures refused { IfErr result (λ f. f ≡ Memory) }
{
    let all = all_statements(alloc, document)?;
    let pushed = push_blames(mends, all.as_slice());
    drop(all);
    pushed?;
    match tried(alloc, document, mends.refused.as_slice()) {
        Ok(made) => Ok(made),
        Err(refused) => {
            let Refused { fault, blames } = refused;
            drop(blames);
            Err(fault)
        }
    }
}

/// Returns the part of a document that is a scene: without what is at fault, or at last without all
/// its statements. Fails with a limit that the part passes.
fn mended(alloc: Global, document: &Document, mends: &mut Mends) -> Result<Made, JobFault>
    requires { whole.IsMending document.now 0 mends.old }
    ensures made { IfOk result (λ m. whole.IsMended document.now mends.new m) }
    ensures refused { IfErr result (whole.IsUnmended document.now) }
{
    let mut tries = 0;
    while tries < MAX_TRIES {
        match tried(alloc, document, mends.refused.as_slice()) {
            Ok(made) => return Ok(made),
            Err(refused) => {
                let more = leave_out(alloc, mends, refused)?;
                if !more {
                    return bare(alloc, document, mends);
                }
                tries += 1;
            }
        }
    }
    bare(alloc, document, mends)
}

/// Returns the part of the tree of a text.
fn part_of_tree(alloc: Global, placed: Placed) -> Result<ScenePart, JobFault>
    ensures made { IfOk result (whole.IsPartOf placed) }
    ensures refused { IfErr result (whole.IsUnmended placed.lenient.document) }
{
    let mut mends = Mends {
        refused: Items::new(alloc),
        blames: Items::new(alloc),
    };
    let Placed {
        lenient,
        source,
        lines,
    } = placed;
    let Lenient { document, unread } = lenient;
    let made = mended(alloc, &document, &mut mends);
    drop(document);
    let Mends { refused, blames } = mends;
    drop(refused);
    match made {
        Ok(Made { text, left }) => Ok(ScenePart {
            text,
            source,
            lines,
            unread,
            left,
            blames,
        }),
        Err(fault) => {
            drop(source);
            drop(lines);
            drop(unread);
            drop(blames);
            Err(fault)
        }
    }
}

/// Returns the part of a text, which was read.
fn part_of_lenient(alloc: Global, text: &[u8], lenient: Lenient) -> Result<ScenePart, JobFault>
    ensures made { IfOk result (whole.IsPartOfLenient text.now lenient) }
    ensures refused { IfErr result (whole.HasNoPartOf text.now lenient) }
{
    let placed = placed_of(alloc, text, lenient)?;
    part_of_tree(alloc, placed)
}

/// Returns the part of a text that is no scene, for the fault `first`.
fn lesser_part(alloc: Global, text: &[u8], first: JobFault) -> Result<ScenePart, JobFault>
    ensures made { IfOk result (λ p. opened text.now ≡ Err first
        → whole.IsLessPart text.now p) }
    ensures refused { IfErr result (λ f. opened text.now ≡ Err first → whole.IsRefused text.now f) }
{
    match read_lenient(alloc, text) {
        Ok(lenient) => part_of_lenient(alloc, text, lenient),
        Err(fault) => Err(JobFault::from(fault)),
    }
}

/// Returns the text of a document, of which nothing is left out.
fn written_part(alloc: Global, text: &[u8]) -> Result<ScenePart, JobFault>
    ensures made { IfOk result (whole.IsWhole text.now) }
    ensures refused { IfErr result (λ f. (f ≡ Memory) ⊎ whole.IsUnread text.now f) }
{
    let document = read(alloc, text)?;
    let written = text_of(alloc, &document);
    drop(document);
    let written = written?;
    let Ok(source) = as_x3d(alloc, text) else {
        drop(written);
        return Err(JobFault::Memory);
    };
    Ok(ScenePart {
        text: written,
        source,
        lines: Vec::new(alloc),
        unread: Items::new(alloc),
        left: Items::new(alloc),
        blames: Items::new(alloc),
    })
}

/// Returns the part of a text.
fn draft(alloc: Global, text: &[u8]) -> Result<ScenePart, JobFault>
    ensures made { IfOk result (whole.IsPartOfText text.now) }
    ensures refused { IfErr result (whole.IsRefused text.now) }
{
    match open_scene(alloc, text) {
        Ok(opened) => {
            drop(opened);
            written_part(alloc, text)
        }
        Err(fault) => {
            if is_memory(fault) {
                return Err(JobFault::Memory);
            }
            lesser_part(alloc, text, fault)
        }
    }
}

/// Returns the part of a text that is a scene, as `check` takes it, and what was left out of it. A
/// scene is its own part.
///
/// Fails with the first fault of the text if it is no document even without the statements that
/// aren't read; with a limit that the part passes; with `TooLarge` on line 0 if the text of the
/// part is read as another, which no text is known for; or with `Memory` if memory runs out.
pub fn part_of_text(alloc: Global, text: &[u8]) -> Result<ScenePart, JobFault>
    ensures made { IfOk result (whole.IsPartOfText text.now) }
    ensures good { IfOk result (λ p. whole.IsScene p.text.items) }
    ensures refused { IfErr result (whole.IsRefused text.now) }
{
    let part = draft(alloc, text)?;
    checked(alloc, part)
}
