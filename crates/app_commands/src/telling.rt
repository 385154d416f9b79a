//! A port that reports events on standard error.

ghost use Rattle.std.specs.Prelude.{◌≡◌};

use crate::note::Note;
use crate::watch::{Counts, Watch};
use share_entries::Entry;
use share_logged::Learns;
use share_turns::{Port, PortFault, RECEIVED};
use std::io::Eprint;

/// A port that watches its datagrams, and reports events on standard error if it is verbose. A
/// standard error that fails doesn't affect the run.
#[derive(Drop)]
pub struct TellingPort<P, R> {
    port: P,
    rt: R,
    verbose: bool,
    watch: Watch,
}

impl<P, R: Eprint> TellingPort<P, R> {
    ghost use Rattle.std.specs.Prelude.{◌≡◌};

    /// Returns a port over `port`, which reports what `watch` notes if `verbose` is set.
    pub fn new(port: P, rt: R, verbose: bool, watch: Watch) -> TellingPort<P, R>
        ensures { result.port ≡ port }
    {
        TellingPort {
            port,
            rt,
            verbose,
            watch,
        }
    }

    /// Returns the inner port.
    pub fn port(&self) -> &P
        ensures { result.now ≡ self.now.port }
    {
        &self.port
    }

    /// Returns how much passed; nothing is counted unless the port is verbose.
    pub fn counts(&self) -> Counts {
        self.watch.counts()
    }

    fn tell(&self, note: Option<Note>) {
        if let Some(note) = note {
            let _told = self.rt.eprintln(note);
        }
    }
}

impl<P: Port, R: Eprint> Port for TellingPort<P, R> {
    ghost failure_count = { λ p. P.failure_count p.port };

    ghost rested = { λ p. P.rested p.port };

    fn send(&mut self, to: u16, bytes: &[u8]) -> Result<(), PortFault> {
        if self.verbose {
            self.watch.goes(bytes);
        }
        self.port.send(to, bytes)
    }

    fn receive(&mut self, into: &mut [u8; RECEIVED]) -> Result<Option<(u16, usize)>, PortFault> {
        match self.port.receive(into)? {
            Some((from, count)) => {
                if self.verbose {
                    let note = self.watch.comes(from, &into[..count]);
                    self.tell(note);
                }
                Ok(Some((from, count)))
            }
            None => Ok(None),
        }
    }

    fn failures(&self) -> u64 {
        self.port.failures()
    }

    fn rest(&mut self, is_new: bool) -> u64 {
        if self.verbose {
            let note = self.watch.rests();
            self.tell(note);
        }
        self.port.rest(is_new)
    }

    fn wait(&mut self, millis: u32) {
        self.port.wait(millis);
    }
}

impl<P: Learns, R: Eprint> Learns for TellingPort<P, R> {
    fn learn(&mut self, entries: &[Entry]) -> Result<(), PortFault> {
        self.port.learn(entries)
    }

    fn drop_below(&mut self, floor: u64) {
        self.port.drop_below(floor);
    }
}
