//! What a viewer of a run does with a message.

ghost use Rattle.std.specs.Prelude.{◌≡◌, if◌then◌else◌};
ghost use Rattle.share_session.specs.Heard.{as_body};
ghost use Rattle.share_runs.specs.declared.step.RunStep.TheVariants as step;
ghost use Rattle.share_runs.specs.Steps as spec;

use crate::known::KnownList;
use share_entries::Chain;
use share_session::{Body2, Input2, Message2, Session, follows, next_chain};

/// What a viewer of a run does with a message.
#[derive(Clone, Copy, Debug, PartialEq, Eq)]
pub enum RunStep {
    /// It hears it.
    HandOn,
    /// It hears it: the next input of its list.
    Next,
    /// It may hear it later: an input that comes before others that it lacks.
    Hold,
    /// It hears it: a piece of a snapshot from which it may start.
    Gather,
    /// It doesn't hear it.
    Drop,
    /// It doesn't hear it: it was said in another session.
    OtherRun,
    /// It ends: the input is of another list.
    OtherList,
}

fn after_step(chain: &Chain, known: &Option<Chain>) -> RunStep
    ensures { result ≡ spec.after_step chain.now known.now }
{
    match known {
        None => RunStep::Next,
        Some(known) => {
            if *chain == *known {
                RunStep::HandOn
            } else {
                RunStep::OtherList
            }
        }
    }
}

fn held_if(early: bool) -> RunStep
    ensures { result ≡ (if early then step.Hold else step.Drop) }
{
    if early { RunStep::Hold } else { RunStep::Drop }
}

fn input_step(early: bool, before: &Option<Chain>, after: &Option<Chain>, input: &Input2) -> RunStep
    ensures { result ≡ spec.input_step early before.now after.now input.now }
{
    let Some(chain) = before else {
        return held_if(early);
    };
    if follows(chain, input) {
        after_step(&next_chain(&input.chain, input), after)
    } else {
        RunStep::OtherList
    }
}

fn piece_step(known: &Option<Chain>, chain: &Chain) -> RunStep
    ensures { result ≡ spec.piece_step known.now chain.now }
{
    match known {
        None => RunStep::Gather,
        Some(known) => {
            if *chain == *known {
                RunStep::HandOn
            } else {
                RunStep::Drop
            }
        }
    }
}

fn body_step(known: &KnownList, body: &Body2) -> RunStep
    ensures { result ≡ spec.body_step known.now body.now }
{
    match body {
        Body2::Input(input) => {
            let number = input.number.get();
            let early = known.is_early(number);
            let before = known.chain_in(number - 1);
            let after = known.chain_in(number);
            input_step(early, &before, &after, input)
        }
        Body2::Piece(piece) => {
            let head = piece.head();
            piece_step(&known.chain_at(head.applied), &head.chain)
        }
        _ => RunStep::HandOn,
    }
}

fn said_step(known: &KnownList, body: &Body2) -> RunStep
    ensures { result ≡ spec.said_step known.now body.now (as_body body.now) }
{
    match body.as_body() {
        None => RunStep::Drop,
        Some(_) => body_step(known, body),
    }
}

/// Returns what a viewer in this session does with a message. One of another session is
/// `OtherRun`. An input whose chain isn't the one that is known there, or after which another chain
/// is known, is `OtherList`.
pub fn step_for(session: &Session, known: &KnownList, message: &Message2) -> RunStep
    ensures { result ≡ spec.step_of session.now known.now message.now }
{
    let Message2::Said(other, body) = message else {
        return RunStep::Drop;
    };
    if *other == *session {
        said_step(known, body)
    } else {
        RunStep::OtherRun
    }
}
