//! A host that begins with entries that are stored.

ghost use Rattle.std.specs.Prelude.{◌≡◌, ◌≤◌, IfErr, IfOk, length};
ghost use Rattle.x3d_values.specs.Ranges.{max_inputs, max_viewers};
ghost use Rattle.share_law.specs.Parts.{part_of};
ghost use Rattle.laws_hosts.specs.Log.{host_of};
ghost use Rattle.share_logged.specs.Logged.{logged};
ghost use Rattle.share_logged.specs.Resuming.{WhyNot};
ghost use Rattle.share_pending.specs.Waiting.{waiting_after};
ghost use Rattle.share_pending.specs.Written.{IsAhead};

use crate::kept::{keep_all, none_kept};
use crate::waiting::Waiting;
use share_core::Host;
use share_entries::Entry;
use share_logged::{ResumeFault, resume};
use std::alloc::Global;

/// A host, and what of it isn't stored.
#[derive(Drop)]
pub struct Resumed {
    pub host: Host,
    pub waiting: Waiting,
}

/// Returns what waits after these entries: nothing.
fn waiting_after(alloc: Global, viewers: u8, entries: &[Entry], count: u64) -> Waiting
    requires viewers { viewers ≤ max_viewers }
    requires count { count ≤ max_inputs }
    ensures { result ≡ waiting_after viewers entries.now count }
{
    let mut kept = none_kept(viewers);
    keep_all(&mut kept, entries);
    Waiting {
        stored: count,
        kept,
        appending: Vec::new(alloc),
        reached: count,
        token: 0,
        pending: Vec::new(alloc),
    }
}

/// Creates the host of a scene with this mark that the entries of a log make, like `resume` of
/// share_logged. All of them are stored.
pub fn begin(
    alloc: Global,
    mark: [u8; 32],
    viewers: u8,
    entries: &[Entry],
) -> Result<Resumed, ResumeFault>
    requires some { 1 ≤ viewers }
    requires most { viewers ≤ max_viewers }
    ensures host { IfOk result (λ r. r.host ≡ record {
      mark = mark;
      part = part_of (host_of viewers (logged entries.now) 1);
    }) }
    ensures waiting { IfOk result (λ r.
        r.waiting ≡ waiting_after viewers entries.now (length entries.now)) }
    // The host is ahead of just these entries.
    ensures log { IfOk result (λ r. IsAhead viewers entries.now r.host.part r.waiting) }
    ensures why { IfErr result (λ fault. WhyNot viewers entries.now fault) }
{
    let hosting = resume(alloc, mark, viewers, entries)?;
    let host = hosting.into_host();
    let waiting = waiting_after(alloc, viewers, entries, host.len());
    Ok(Resumed { host, waiting })
}
