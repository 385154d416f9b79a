//! Events of a run, in words.

use std::fmt;

/// Why a datagram is dropped, in the order of the tests.
#[derive(Clone, Copy, PartialEq, Eq)]
pub enum Refusal {
    Foreign,
    WrongScene,
    OtherRun,
    BadViewer,
    OldBoot,
}

impl Refusal {
    /// Returns its place in that order.
    pub(crate) fn place(self) -> usize {
        match self {
            Refusal::Foreign => 0,
            Refusal::WrongScene => 1,
            Refusal::OtherRun => 2,
            Refusal::BadViewer => 3,
            Refusal::OldBoot => 4,
        }
    }

    fn words(self) -> &'static str {
        match self {
            Refusal::Foreign => "not a datagram of a shared world",
            Refusal::WrongScene => "another scene",
            Refusal::OtherRun => "another run",
            Refusal::BadViewer => "no such viewer",
            Refusal::OldBoot => "an old boot",
        }
    }
}

/// How a peer is named.
#[derive(Clone, Copy, PartialEq, Eq)]
pub enum PeerName {
    /// By its port on this machine.
    Port(u16),
    /// By its number in a table of addresses.
    Number(u16),
}

impl fmt::Display for PeerName {
    fn fmt<W: fmt::Write>(&self, f: &mut fmt::Formatter<W>) -> fmt::Result {
        match self {
            PeerName::Port(port) => write!(f, "port {port}"),
            PeerName::Number(number) => write!(f, "peer {number}"),
        }
    }
}

/// An event of a run.
#[derive(Clone, Copy, PartialEq, Eq)]
pub enum Note {
    /// A host first hears of this viewer.
    Viewer(u8, PeerName),
    /// A datagram of this peer is dropped, the first for this reason.
    Dropped(Refusal, PeerName),
    /// No host has answered a viewer yet.
    NoAnswer,
    /// The host dropped the inputs below this number, and a viewer lacks some of them.
    Behind(u64),
}

impl fmt::Display for Note {
    fn fmt<W: fmt::Write>(&self, f: &mut fmt::Formatter<W>) -> fmt::Result {
        match self {
            Note::Viewer(who, peer) => write!(f, "viewer {who} at {peer}"),
            Note::Dropped(why, peer) => write!(f, "dropped from {peer}: {}", why.words()),
            Note::NoAnswer => write!(f, "no answer yet"),
            Note::Behind(floor) => {
                write!(f, "the host dropped the inputs below {floor}: use --join")
            }
        }
    }
}
