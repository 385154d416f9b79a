//! A host reads on in its log, and takes what other hosts have stored.

ghost use Rattle.std.specs.Prelude.{◌≡◌, ◌++◌, ◌≤◌, IfOk, IsTrue, List, OnErr, ⊤};
ghost use Rattle.share_entries.specs.Entry.{EntryView};
ghost use Rattle.x3d_values.specs.Ranges.{max_viewers};
ghost use Rattle.share_store.specs.OneLog.{Last};
ghost use Rattle.share_logged.specs.Making.{IsOfLog};
ghost use Rattle.app_standby.specs.Origins.{IsNowFrom};
ghost use Rattle.app_standby.specs.State.{IsMarked};
ghost use Rattle.app_standby.specs.Steps.{Goes, moment};

use crate::fault::SharedFault;
use crate::origin::{Origin, begin};
use crate::pace::{Pace, must_read};
use crate::state::Now;
use share_entries::Entry;
use share_logged::{Learns, LoggedFault, LoggedHost, ResumeFault, follow};
use share_store::{Log, ReadFault, Remembers};
use share_turns::TurnFault;
use std::alloc::Global;

/// Reads on, and returns the entries that the handle then knows besides those that it knew.
fn read_new<L: Log>(alloc: Global, log: &mut L) -> Result<Vec<Entry>, ReadFault>
    ensures read { IfOk result (λ new. IsTrue (L.is_clean log.new)
        → L.known log.new ≡ L.known log.old ++ new.items) }
    ensures refused { OnErr result (IsTrue (L.is_clean log.new)
        → L.known log.new ≡ L.known log.old) }
    ensures clean { IsTrue (L.is_clean log.new) → IsTrue (L.is_clean log.old) }
    ensures lasts { Last (L.may_leave log.old) (L.known log.old) → IsTrue (L.is_clean log.new)
        → Last (L.may_leave log.new) (L.known log.new) }
{
    let mut new = Vec::new(alloc);
    log.read_on(&mut new)?;
    Ok(new)
}

/// Returns the host of all entries: of those below the base and those that the log knows. `new` are
/// those that it didn't know before.
fn host_with<L: Remembers>(
    alloc: Global,
    origin: &Origin,
    now: Now,
    new: &[Entry],
    log: &L,
) -> Result<LoggedHost, ResumeFault>
    requires some { 1 ≤ origin.now.viewers }
    requires most { origin.now.viewers ≤ max_viewers }
    ensures mark { IfOk result (λ h. IsMarked origin.now.mark now → h.mark ≡ origin.now.mark) }
    ensures log { IfOk result (λ h. (known below : List EntryView) → IsTrue (L.is_clean log.now)
        → L.known log.now ≡ known ++ new.now → IsNowFrom origin.now below known now
        → IsOfLog origin.now.viewers (below ++ L.known log.now) h.part) }
{
    match now {
        Now::Hosting(hosting) => follow(hosting, new),
        Now::Behind => begin(alloc, origin, log.entries()),
    }
}

/// Lets the port learn new entries of other hosts, if there are any, and notes that these were
/// heard.
fn learn_new<P: Learns>(new: &[Entry], pace: &mut Pace, port: &mut P) -> Result<(), SharedFault>
    ensures told { P.told port.new ≡ P.told port.old }
{
    if new.is_empty() {
        return Ok(());
    }
    pace.hear(new);
    match port.learn(new) {
        Ok(()) => Ok(()),
        Err(_failed) => Err(SharedFault::Turn(LoggedFault::Turn(TurnFault::Port))),
    }
}

/// Reads on. If the log answers there is a host after it, of the entries below the origin's base
/// and all that the log knows, and the port has learned the new ones; if it is silent all is as
/// before.
///
/// Fails with `Read`, `Resume`, or with `Turn` if the port didn't learn the entries; the host is
/// then dropped.
pub fn read<L: Remembers, P: Learns>(
    alloc: Global,
    origin: &Origin,
    now: Now,
    pace: &mut Pace,
    log: &mut L,
    port: &mut P,
) -> Result<Now, SharedFault>
    requires some { 1 ≤ origin.now.viewers }
    requires most { origin.now.viewers ≤ max_viewers }
    ensures mark { IfOk result
        (λ after. IsMarked origin.now.mark now → IsMarked origin.now.mark after) }
    ensures goes { IfOk result (λ after. (below : List EntryView)
        → Goes origin.now.mark origin.now.viewers
        (moment (below ++ L.known log.old) (L.is_clean log.old) (P.told port.old))
        (moment (below ++ L.known log.new) (L.is_clean log.new) (P.told port.new))
        (IsNowFrom origin.now below (L.known log.old) now)
        (IsNowFrom origin.now below (L.known log.new) after)) }
    ensures ended { OnErr result ((below : List EntryView)
        → Goes origin.now.mark origin.now.viewers
        (moment (below ++ L.known log.old) (L.is_clean log.old) (P.told port.old))
        (moment (below ++ L.known log.new) (L.is_clean log.new) (P.told port.new))
        (IsNowFrom origin.now below (L.known log.old) now) ⊤) }
    ensures lasts { Last (L.may_leave log.old) (L.known log.old) → IsTrue (L.is_clean log.new)
        → Last (L.may_leave log.new) (L.known log.new) }
{
    pace.since = 0;
    match read_new(alloc, log) {
        Ok(new) => {
            let hosting = host_with(alloc, origin, now, &new, log)?;
            learn_new(&new, pace, port)?;
            Ok(Now::Hosting(hosting))
        }
        Err(ReadFault::Silent) => Ok(now),
        Err(fault) => Err(SharedFault::Read(fault)),
    }
}

/// Reads on if there is no host, if the log takes no appends, or if it is time to.
pub(crate) fn keep_up<L: Remembers, P: Learns>(
    alloc: Global,
    origin: &Origin,
    now: Now,
    pace: &mut Pace,
    log: &mut L,
    port: &mut P,
) -> Result<Now, SharedFault>
    requires some { 1 ≤ origin.now.viewers }
    requires most { origin.now.viewers ≤ max_viewers }
    ensures goes { IfOk result (λ after. (below : List EntryView)
        → Goes origin.now.mark origin.now.viewers
        (moment (below ++ L.known log.old) (L.is_clean log.old) (P.told port.old))
        (moment (below ++ L.known log.new) (L.is_clean log.new) (P.told port.new))
        (IsNowFrom origin.now below (L.known log.old) now)
        (IsNowFrom origin.now below (L.known log.new) after)) }
    ensures ended { OnErr result ((below : List EntryView)
        → Goes origin.now.mark origin.now.viewers
        (moment (below ++ L.known log.old) (L.is_clean log.old) (P.told port.old))
        (moment (below ++ L.known log.new) (L.is_clean log.new) (P.told port.new))
        (IsNowFrom origin.now below (L.known log.old) now) ⊤) }
    ensures lasts { Last (L.may_leave log.old) (L.known log.old) → IsTrue (L.is_clean log.new)
        → Last (L.may_leave log.new) (L.known log.new) }
{
    if !must_read(
        now.is_hosting() && log.takes_appends(),
        pace.since,
        pace.silent,
    ) {
        return Ok(now);
    }
    read(alloc, origin, now, pace, log, port)
}
