//! How the port of a host begins.

ghost use Rattle.std.specs.Prelude.{◌≡◌, ◌++◌, ℕ, List, IfOk, false, length};
ghost use Rattle.share_entries.specs.Entry.{EntryView};
ghost use Rattle.share_logged.specs.Bases.{IsBaseOf};
ghost use Rattle.share_welcomes.specs.Laws.{IsLearnedOf};
ghost use Rattle.share_welcomes.specs.Learned.{base_learned, learned_more, none_learned};
ghost use Rattle.share_welcomes.specs.Versions.{is_two};

use super::HostPort;
use crate::host_run::HostRun;
use crate::learned::Learned;
use crate::versions::Versions;
use share_entries::{Base, Entry};
use std::alloc::{AllocError, Global};

impl<P: Drop> HostPort<P> {
    /// Returns the port of a host that begins with these entries of its run's log. The numbers of
    /// its peers are below `peers`; another peer is answered in version 1. Fails if memory is
    /// refused.
    pub fn begin(
        alloc: Global,
        port: P,
        run: HostRun,
        peers: usize,
        entries: &[Entry],
    ) -> Result<HostPort<P>, AllocError>
        ensures port { IfOk result (λ p. p.port ≡ port) }
        ensures run { IfOk result (λ p. p.run ≡ run) }
        ensures learned { IfOk result
            (λ p. p.learned ≡ learned_more (none_learned run.run) entries.now) }
        ensures log { IfOk result (λ p. IsLearnedOf entries.now p.learned) }
        ensures versions { IfOk result (λ p. (peer : ℕ) → is_two p.versions peer ≡ false) }
        ensures peers { IfOk result (λ p. length p.versions ≡ peers) }
    {
        HostPort::with(
            alloc,
            port,
            run,
            peers,
            Learned::none(alloc, run.run),
            entries,
        )
    }

    /// Returns the port of a host that begins with a base of its run's log and the entries after
    /// it, like `begin`.
    pub fn begin_from(
        alloc: Global,
        port: P,
        run: HostRun,
        peers: usize,
        base: &Base,
        entries: &[Entry],
    ) -> Result<HostPort<P>, AllocError>
        ensures port { IfOk result (λ p. p.port ≡ port) }
        ensures run { IfOk result (λ p. p.run ≡ run) }
        ensures learned { IfOk result
            (λ p. p.learned ≡ learned_more (base_learned run.run base.now) entries.now) }
        ensures log { IfOk result (λ p. (viewers : ℕ) (below : List EntryView)
            → IsBaseOf run.run viewers below base.now
            → IsLearnedOf (below ++ entries.now) p.learned) }
        ensures versions { IfOk result (λ p. (peer : ℕ) → is_two p.versions peer ≡ false) }
        ensures peers { IfOk result (λ p. length p.versions ≡ peers) }
    {
        let known = Learned::from_base(alloc, run.run, base);
        HostPort::with(alloc, port, run, peers, known, entries)
    }

    /// Returns the port of a host that knows this of its run's log, and learns the entries after
    /// it.
    fn with(
        alloc: Global,
        port: P,
        run: HostRun,
        peers: usize,
        known: Learned,
        entries: &[Entry],
    ) -> Result<HostPort<P>, AllocError>
        ensures port { IfOk result (λ p. p.port ≡ port) }
        ensures run { IfOk result (λ p. p.run ≡ run) }
        ensures learned { IfOk result (λ p. p.learned ≡ learned_more known entries.now) }
        ensures versions { IfOk result (λ p. (peer : ℕ) → is_two p.versions peer ≡ false) }
        ensures peers { IfOk result (λ p. length p.versions ≡ peers) }
    {
        let mut learned = known;
        learned.learn(entries)?;
        let versions = Versions::unheard(alloc, peers)?;
        Ok(HostPort {
            port,
            run,
            learned,
            versions,
            failed: 0,
        })
    }
}
