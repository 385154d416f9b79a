//! The test of the chain at a viewer.

ghost use Rattle.std.specs.Prelude.{◌≡◌};
ghost use Rattle.share_entries.specs.Chain.{link};
ghost use Rattle.share_session.specs.Follows as spec;

use crate::message::Input2;
use crate::prefix::Prefix;
use share_entries::{Chain, link};

/// Reports whether an input comes after a list with this chain.
pub fn follows(chain: &Chain, input: &Input2) -> bool
    ensures { result ≡ spec.follows chain.now input.now }
{
    input.chain == *chain
}

/// Returns the chain after an input, which is applied after a list with this chain.
pub fn next_chain(chain: &Chain, input: &Input2) -> Chain
    ensures { result ≡ link chain.now input.now.entry }
{
    link(chain, &input.entry)
}

fn is_next(prefix: &Prefix, input: &Input2) -> bool
    ensures { result ≡ spec.is_next prefix.now input.now }
{
    input.number.get() - 1 == prefix.applied
}

fn extended(prefix: &Prefix, input: &Input2) -> Prefix
    ensures { result ≡ spec.extended prefix.now input.now }
{
    Prefix {
        applied: input.number.get(),
        chain: next_chain(&prefix.chain, input),
    }
}

/// Returns what a viewer has applied after an input comes. The next input is applied if it follows;
/// `None` if it is of another list. Any other input changes nothing.
pub fn taken(prefix: &Prefix, input: &Input2) -> Option<Prefix>
    ensures { result ≡ spec.taken prefix.now input.now }
{
    if !is_next(prefix, input) {
        return Some(*prefix);
    }
    if follows(&prefix.chain, input) {
        Some(extended(prefix, input))
    } else {
        None
    }
}

/// Over one log the test of the chain never fails, whichever inputs of it come, in whatever order
/// and however often; and what a viewer has applied are the log's first entries.
pub fn never_fails()
    ensures { spec.NeverFails }
{}

/// Two viewers with one chain at one number have applied the same entries, and are in one run, or
/// two texts have a SHA-256 that begins with the same 16 bytes.
pub fn chains_agree()
    ensures { spec.ChainsAgree }
{}
