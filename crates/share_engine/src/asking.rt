//! One request to an engine, and what its answer says.

ghost use Rattle.std.specs.Prelude.{◌≡◌, ◌⊎◌, List, ℕ, Option, Some, None, Ok, Err, IfOk, IfSome, MatchOption};
ghost use Rattle.std.specs.Option.{option_map, ok_or};
ghost use Rattle.x3d_lists.specs.Answers.{Gives};
ghost use Rattle.share_entries.specs.declared.start.Start.{Start};
ghost use Rattle.share_entries.specs.Entry.{EntryView};
ghost use Rattle.share_etcd.specs.declared.outcome.Outcome.TheVariants.{Stored, Refused};
ghost use Rattle.share_etcd.specs.Answers.{document, outcome_of as spec_outcome_of};
ghost use Rattle.share_etcd.specs.Contents.{contents_of as spec_contents_of, opening_of as spec_opening_of};
ghost use Rattle.share_etcd.specs.Keys.{text_of};
ghost use Rattle.share_etcd.specs.Requests.{opening_text, reading_text};
ghost use Rattle.share_etcd.specs.Views.{contents_view, opening_view};
ghost use Rattle.share_engine.specs.declared.fault.ReadingFault.TheVariants.{Malformed, Memory};
ghost use Rattle.share_engine.specs.Exchanges.{grown};
ghost use Rattle.share_engine.specs.Faults.{revision_of as spec_revision_of};
ghost use Rattle.share_engine.specs.Keys.{Held, HasFrom, Always, IsKept, AfterOpening, AfterReading, outcome_in};

use crate::engine::{Engine, EngineFault};
use crate::fault::ReadingFault;
use share_etcd::{
    AnswerFault, Contents, Opening, Outcome, contents_of, opening_bytes, opening_of, outcome_of,
    reading_bytes,
};
use share_session::WorldName;
use std::alloc::Global;

/// Returns the revision of what was done, and `None` if nothing was.
fn revision_of(outcome: Outcome) -> Result<Option<u64>, ReadingFault>
    ensures exact { result ≡ spec_revision_of outcome }
    ensures refused { IfOk result (λ o. MatchOption o (outcome ≡ Refused) (λ _. Unit {0})) }
    ensures stored { IfOk result (λ o. IfSome o (λ revision. outcome ≡ Stored revision)) }
{
    match outcome {
        Outcome::Stored { revision } => Ok(Some(revision)),
        Outcome::Refused => Ok(None),
        Outcome::Malformed => Err(ReadingFault::Malformed),
    }
}

/// Reads the answer to a making, an append or a base.
fn stored_in(alloc: Global, answer: &[u8]) -> Result<Option<u64>, ReadingFault>
    ensures exact { (result ≡ Err Memory)
        ⊎ (result ≡ spec_revision_of (spec_outcome_of (document answer.now))) }
    ensures refused { IfOk result (λ o. MatchOption o
        (spec_outcome_of (document answer.now) ≡ Refused) (λ _. Unit {0})) }
    ensures stored { IfOk result (λ o. IfSome o (λ revision.
        spec_outcome_of (document answer.now) ≡ Stored revision)) }
{
    match outcome_of(alloc, answer) {
        Ok(outcome) => revision_of(outcome),
        Err(_) => Err(ReadingFault::Memory),
    }
}

/// Asks for a making, an append or a base. Returns the revision at which it was done, and `None` if
/// it was refused. After any fault it may have been done.
pub(crate) fn ask_for<E: Engine>(
    alloc: Global,
    engine: &mut E,
    body: &[u8],
    answer: &mut Vec<u8>,
) -> Result<Option<u64>, ReadingFault>
    ensures stays { (world run : List ℕ) (start : Start) (known : Held)
        → IsKept world run start (E.told engine.old) known
        → IsKept world run start (E.told engine.new) known }
    ensures stored { IfOk result (λ o. IfSome o (λ revision. (said : Option (List ℕ))
        × (E.told engine.new
        ≡ grown (E.told engine.old) (record { asked = body.now; answer = said }))
        × (outcome_in said ≡ Stored revision))) }
    ensures refused { IfOk result (λ o. MatchOption o ((said : Option (List ℕ))
        × (E.told engine.new
        ≡ grown (E.told engine.old) (record { asked = body.now; answer = said }))
        × (outcome_in said ≡ Refused)) (λ _. Unit {0})) }
{
    match engine.ask(body, answer) {
        Ok(()) => stored_in(alloc, answer),
        Err(EngineFault::Silent) => Err(ReadingFault::Silent),
        Err(EngineFault::Memory) => Err(ReadingFault::Memory),
    }
}

/// Reads the answer to a reading from this number on.
fn contents_in(
    alloc: Global,
    name: &WorldName,
    first: u64,
    answer: &[u8],
) -> Result<Option<Contents>, ReadingFault>
    ensures exact { Gives Memory (option_map contents_view) result
        (ok_or (spec_contents_of (text_of name.now) first (document answer.now)) Malformed) }
    ensures found { IfOk result (λ o. spec_contents_of (text_of name.now) first
        (document answer.now) ≡ Some (option_map contents_view o)) }
{
    match contents_of(alloc, name, first, answer) {
        Ok(contents) => Ok(contents),
        Err(AnswerFault::Malformed) => Err(ReadingFault::Malformed),
        Err(AnswerFault::Memory) => Err(ReadingFault::Memory),
    }
}

/// Asks for a reading by this request.
fn ask_contents<E: Engine>(
    alloc: Global,
    engine: &mut E,
    name: &WorldName,
    first: u64,
    body: &[u8],
) -> Result<Option<Contents>, ReadingFault>
    requires { body.now ≡ reading_text (text_of name.now) first }
    ensures stays { (run : List ℕ) (start : Start) (known : Held)
        → IsKept (text_of name.now) run start (E.told engine.old) known
        → IsKept (text_of name.now) run start (E.told engine.new) known }
    ensures read { IfOk result (λ o. IfSome o (λ c. (run : List ℕ) (start : Start)
        (known : List EntryView)
        → Always (text_of name.now) run (E.told engine.old) (HasFrom run start known)
        → Always (text_of name.now) run (E.told engine.new)
        (AfterReading run start first (contents_view c) known))) }
{
    let mut answer = Vec::new(alloc);
    match engine.ask(body, &mut answer) {
        Ok(()) => contents_in(alloc, name, first, &answer),
        Err(EngineFault::Silent) => Err(ReadingFault::Silent),
        Err(EngineFault::Memory) => Err(ReadingFault::Memory),
    }
}

/// Reads a world's keys, and its frames from this number on. `None`: there is no such world.
pub(crate) fn read_from<E: Engine>(
    alloc: Global,
    engine: &mut E,
    name: &WorldName,
    first: u64,
) -> Result<Option<Contents>, ReadingFault>
    ensures stays { (run : List ℕ) (start : Start) (known : Held)
        → IsKept (text_of name.now) run start (E.told engine.old) known
        → IsKept (text_of name.now) run start (E.told engine.new) known }
    ensures read { IfOk result (λ o. IfSome o (λ c. (run : List ℕ) (start : Start)
        (known : List EntryView)
        → Always (text_of name.now) run (E.told engine.old) (HasFrom run start known)
        → Always (text_of name.now) run (E.told engine.new)
        (AfterReading run start first (contents_view c) known))) }
{
    match reading_bytes(alloc, name, first) {
        Ok(body) => ask_contents(alloc, engine, name, first, &body),
        Err(_) => Err(ReadingFault::Memory),
    }
}

/// Reads the answer to an opening.
fn opening_in(
    alloc: Global,
    name: &WorldName,
    answer: &[u8],
) -> Result<Option<Opening>, ReadingFault>
    ensures exact { Gives Memory (option_map opening_view) result
        (ok_or (spec_opening_of (text_of name.now) (document answer.now)) Malformed) }
    ensures found { IfOk result (λ o. spec_opening_of (text_of name.now)
        (document answer.now) ≡ Some (option_map opening_view o)) }
{
    match opening_of(alloc, name, answer) {
        Ok(opening) => Ok(opening),
        Err(AnswerFault::Malformed) => Err(ReadingFault::Malformed),
        Err(AnswerFault::Memory) => Err(ReadingFault::Memory),
    }
}

/// Asks for an opening by this request.
fn ask_opening<E: Engine>(
    alloc: Global,
    engine: &mut E,
    name: &WorldName,
    body: &[u8],
) -> Result<Option<Opening>, ReadingFault>
    requires { body.now ≡ opening_text (text_of name.now) }
    ensures { IfOk result (λ o. IfSome o (λ found. (run : List ℕ)
        → Always (text_of name.now) run (E.told engine.new)
        (AfterOpening run (opening_view found)))) }
{
    let mut answer = Vec::new(alloc);
    match engine.ask(body, &mut answer) {
        Ok(()) => opening_in(alloc, name, &answer),
        Err(EngineFault::Silent) => Err(ReadingFault::Silent),
        Err(EngineFault::Memory) => Err(ReadingFault::Memory),
    }
}

/// Reads a world's keys, its base with the snapshot there, and its first frames. `None`: there is
/// no such world.
pub(crate) fn open<E: Engine>(
    alloc: Global,
    engine: &mut E,
    name: &WorldName,
) -> Result<Option<Opening>, ReadingFault>
    ensures { IfOk result (λ o. IfSome o (λ found. (run : List ℕ)
        → Always (text_of name.now) run (E.told engine.new)
        (AfterOpening run (opening_view found)))) }
{
    match opening_bytes(alloc, name) {
        Ok(body) => ask_opening(alloc, engine, name, &body),
        Err(_) => Err(ReadingFault::Memory),
    }
}
