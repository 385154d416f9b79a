//! Where the entries of a log begin.

ghost use Rattle.std.specs.Prelude.{◌≡◌, ◌<◌, ◌^◌, Some};
ghost use Rattle.share_entries.specs.declared.head.Head.{Head as AHead};
ghost use Rattle.share_entries.specs.Start.{start_of};

use crate::base::Base;
use crate::chain::Chain;
use crate::head::Head;

/// Where the entries of a log begin: how many are below them, and the chain there.
#[derive(Clone, Copy, Debug, PartialEq, Eq)]
pub struct Start {
    pub below: u64,
    pub chain: Chain,
}

/// Returns where a log goes on from a base.
pub fn start_at(base: &Base) -> Start
    ensures value { (head : AHead) → result ≡ start_of head (Some base.now) }
    ensures low { result.below < 2 ^ 48 }
{
    Start {
        below: base.number(),
        chain: base.chain(),
    }
}

/// Returns where the entries of a log with this head begin: at its base, if it has one, else at its
/// run.
pub fn start_of(head: &Head, base: &Option<Base>) -> Start
    ensures value { result ≡ start_of head.now base.now }
    ensures low { result.below < 2 ^ 48 }
{
    match base {
        Some(base) => start_at(base),
        None => Start {
            below: 0,
            chain: head.run,
        },
    }
}
