//! What is seen of a run at a port: which viewers come, what is refused and why, and how much
//! passes.

use crate::brief::{Brief, Came, brief_of, how_came};
use crate::note::{Note, PeerName, Refusal};
use std::fmt;
use x3d_values::MAX_VIEWERS;

/// After this many turns without an answer, a second or two, a viewer reports that.
const SILENT: u32 = 20;

/// One place for each viewer.
const PLACES: usize = MAX_VIEWERS as usize;

/// How much passed. Each count stops at 2^64 - 1.
#[derive(Clone, Copy)]
pub struct Counts {
    pub turns: u64,
    /// How many datagrams were received.
    pub received: u64,
    pub sent: u64,
    /// How many offers were numbered; counted at a host.
    pub points: u64,
}

impl fmt::Display for Counts {
    fn fmt<W: fmt::Write>(&self, f: &mut fmt::Formatter<W>) -> fmt::Result {
        write!(
            f,
            "{} turns, {} datagrams received, {} sent",
            self.turns, self.received, self.sent
        )
    }
}

/// The peer that has the port.
#[derive(Clone, Copy)]
pub enum Peer {
    /// A host of this many viewers.
    Host(u8),
    /// A viewer with this boot.
    Viewer(u32),
}

/// How long a viewer has waited for a first answer of a host.
#[derive(Clone, Copy, PartialEq, Eq)]
enum Wait {
    /// Nothing of its scene has come in this many turns, and it hasn't asked.
    Idle(u32),
    /// It has asked, and a host hasn't answered in this many turns.
    Asking(u32),
    /// A host has answered, or it was reported that none did.
    Over,
}

/// What was seen of a run of the scene with this mark.
#[derive(Clone, Copy)]
pub struct Watch {
    mark: [u8; 32],
    peer: Peer,
    has_numbers: bool,
    heard: [bool; PLACES],
    /// The highest boot of each viewer's offers; and the boot and the count of the last ack that
    /// was sent to each viewer.
    boots: [u32; PLACES],
    acked: [(u32, u32); PLACES],
    /// The number that a viewer last asked from, and whether the note of a floor above it was made.
    asked: u64,
    is_behind: bool,
    wait: Wait,
    told: [bool; 5],
    counts: Counts,
}

impl Watch {
    /// Returns a watch that has seen nothing, for a run of the scene with this mark. Peers are
    /// numbers of a table of addresses if `has_numbers` is set, and else ports.
    pub fn new(mark: [u8; 32], peer: Peer, has_numbers: bool) -> Watch {
        Watch {
            mark,
            peer,
            has_numbers,
            heard: [false; PLACES],
            boots: [0; PLACES],
            acked: [(0, 0); PLACES],
            asked: 1,
            is_behind: false,
            wait: Wait::Idle(0),
            told: [false; 5],
            counts: Counts {
                turns: 0,
                received: 0,
                sent: 0,
                points: 0,
            },
        }
    }

    /// Returns how much passed until now.
    pub fn counts(&self) -> Counts {
        self.counts
    }

    /// Reports whether an offer's boot is below an earlier one of the viewer; else records it as
    /// the highest.
    fn is_old(&mut self, who: u8, boot: u32) -> bool {
        match self.boots.get_mut(who as usize) {
            Some(highest) if boot < *highest => true,
            Some(highest) => {
                *highest = boot;
                false
            }
            None => false,
        }
    }

    /// Returns why a host of `viewers` viewers drops what a datagram of its scene says.
    fn host_refusal(&mut self, brief: Brief, viewers: u8) -> Option<Refusal> {
        match brief {
            Brief::Ask { who, .. } | Brief::Offer { who, .. } if who >= viewers => {
                Some(Refusal::BadViewer)
            }
            Brief::Offer { who, boot, .. } if self.is_old(who, boot) => Some(Refusal::OldBoot),
            _ => None,
        }
    }

    /// Returns why the bytes of a datagram are dropped.
    fn refusal(&mut self, bytes: &[u8]) -> Option<Refusal> {
        let brief = match how_came(bytes, &self.mark) {
            Came::Foreign => return Some(Refusal::Foreign),
            Came::Elsewhere => return Some(Refusal::WrongScene),
            Came::OtherRun => return Some(Refusal::OtherRun),
            Came::Hello => return None,
            Came::Here(brief) => brief,
        };
        match (self.peer, brief) {
            (Peer::Host(viewers), brief) => self.host_refusal(brief, viewers),
            (Peer::Viewer(own), Brief::Ack { boot, .. }) if boot > own => Some(Refusal::OldBoot),
            _ => None,
        }
    }

    fn name_of(&self, peer: u16) -> PeerName {
        if self.has_numbers {
            PeerName::Number(peer)
        } else {
            PeerName::Port(peer)
        }
    }

    /// Returns the note of a refusal, if it is the first for this reason.
    fn dropped(&mut self, why: Refusal, peer: u16) -> Option<Note> {
        let told = self.told.get_mut(why.place())?;
        if *told {
            return None;
        }
        *told = true;
        Some(Note::Dropped(why, self.name_of(peer)))
    }

    /// Returns the note of the viewer that sent these bytes to a host, if the host first hears of
    /// it.
    fn first_heard(&mut self, bytes: &[u8], peer: u16) -> Option<Note> {
        let Peer::Host(_) = self.peer else {
            return None;
        };
        let who = match brief_of(bytes) {
            Brief::Ask { who, .. } | Brief::Offer { who, .. } => who,
            _ => return None,
        };
        let heard = self.heard.get_mut(who as usize)?;
        if *heard {
            return None;
        }
        *heard = true;
        Some(Note::Viewer(who, self.name_of(peer)))
    }

    /// Returns the note of a floor that is above what a viewer asks from, if it is the first one.
    fn floor_above(&mut self, floor: u64) -> Option<Note> {
        if self.is_behind || floor <= self.asked {
            return None;
        }
        self.is_behind = true;
        Some(Note::Behind(floor))
    }

    /// Records what may be an answer of a host. A viewer that hasn't asked waits for pieces.
    fn hears(&mut self, bytes: &[u8]) {
        let Came::Here(brief) = how_came(bytes, &self.mark) else {
            return;
        };
        match (brief, self.wait) {
            (Brief::Input { .. } | Brief::Ack { .. } | Brief::Floor { .. }, _) => {
                self.wait = Wait::Over;
            }
            (_, Wait::Idle(_)) => self.wait = Wait::Idle(0),
            _ => {}
        }
    }

    /// Returns the note that a datagram causes which isn't dropped.
    fn heard_from(&mut self, peer: u16, bytes: &[u8]) -> Option<Note> {
        match (self.peer, brief_of(bytes)) {
            (Peer::Viewer(_), Brief::Floor { number }) => self.floor_above(number),
            _ => self.first_heard(bytes, peer),
        }
    }

    /// Records a datagram from a peer, and returns the note that it causes.
    pub fn comes(&mut self, peer: u16, bytes: &[u8]) -> Option<Note> {
        self.counts.received = self.counts.received.saturating_add(1);
        self.hears(bytes);
        match self.refusal(bytes) {
            Some(why) => self.dropped(why, peer),
            None => self.heard_from(peer, bytes),
        }
    }

    /// Records an ack that is sent, which may say that more offers of a viewer are numbered than
    /// before.
    fn acks(&mut self, who: u8, boot: u32, count: u32) {
        let Some(acked) = self.acked.get_mut(who as usize) else {
            return;
        };
        let before = if acked.0 == boot { acked.1 } else { 0 };
        *acked = (boot, count);
        let more = u64::from(count.saturating_sub(before));
        self.counts.points = self.counts.points.saturating_add(more);
    }

    /// Records a datagram that is sent.
    pub fn goes(&mut self, bytes: &[u8]) {
        self.counts.sent = self.counts.sent.saturating_add(1);
        match brief_of(bytes) {
            Brief::Ack { who, boot, count } => self.acks(who, boot, count),
            Brief::Ask { next, .. } => self.asks(next),
            _ => {}
        }
    }

    /// Records an ask of a viewer that is sent.
    fn asks(&mut self, next: u64) {
        self.asked = next;
        if let Wait::Idle(_) = self.wait {
            self.wait = Wait::Asking(0);
        }
    }

    /// Returns the note that a viewer which has waited for this many turns waits for one more, and
    /// `wait`, how it then waits.
    fn waits(&mut self, turns: u32, wait: Wait) -> Option<Note> {
        if turns < SILENT {
            self.wait = wait;
            return None;
        }
        self.wait = Wait::Over;
        Some(Note::NoAnswer)
    }

    /// Records the end of a turn, and returns the note that it causes.
    pub fn rests(&mut self) -> Option<Note> {
        self.counts.turns = self.counts.turns.saturating_add(1);
        match (self.peer, self.wait) {
            (Peer::Viewer(_), Wait::Idle(turns)) => {
                let turns = turns.saturating_add(1);
                self.waits(turns, Wait::Idle(turns))
            }
            (Peer::Viewer(_), Wait::Asking(turns)) => {
                let turns = turns.saturating_add(1);
                self.waits(turns, Wait::Asking(turns))
            }
            _ => None,
        }
    }
}
