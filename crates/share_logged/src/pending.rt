//! What a turn has numbered and not yet stored, and who waits for an answer.

ghost use Rattle.std.specs.Prelude.{◌≡◌, ◌+◌, ◌++◌, ◌<◌, ◌≤◌, [], ◌∷◌, Ok, OnErr, Err, IsTrue};
ghost use Rattle.std.specs.Prelude.{is_err, length, pos, ◌≤ℤ◌};
ghost use Rattle.share_law.specs.Network.{HostTook};
ghost use Rattle.share_law.specs.Steps.{says_memory};
ghost use Rattle.share_turns.specs.HostTurn.{listed};
ghost use Rattle.share_turns.specs.declared.fault.TurnFault.TheVariants.{Memory};
ghost use Rattle.share_logged.specs.Notes.{last_after, max_answers, max_numbered, noted};

use crate::entries::Entries;
use arrayvec::ArrayVec;
use share_entries::Entry;
use share_law::{HostFault, HostReply};
use share_turns::{TurnFault, after_refusal};

/// The largest number of answers of a turn: one for each datagram.
const ANSWERS: usize = 64;

/// A datagram that was taken: where its answers go, and what they are.
#[derive(Clone, Copy, Debug)]
pub(crate) struct Note {
    pub(crate) to: u16,
    pub(crate) sender: Option<u8>,
    pub(crate) reply: HostReply,
}

/// The note that fills an unused place.
impl Default for Note {
    fn default() -> Note {
        Note {
            to: 0,
            sender: None,
            reply: HostReply::NothingToDo,
        }
    }
}

/// The entries that a turn has numbered, which are not yet stored, and the datagrams that wait for
/// answers.
#[derive(Drop)]
pub(crate) struct Pending {
    /// The time of the last input in microseconds, or 0.
    pub(crate) last: i64,
    pub(crate) entries: Entries,
    pub(crate) notes: ArrayVec<Note, ANSWERS>,
}

impl Pending {
    ghost use Rattle.std.specs.Prelude.{◌≡◌, ◌++◌, ◌<◌, [], Err, OnErr, is_err, length, pos};
    ghost use Rattle.std.specs.Prelude.{◌≤ℤ◌};
    ghost use Rattle.share_law.specs.Network.{HostTook};
    ghost use Rattle.share_law.specs.Steps.{says_memory};
    ghost use Rattle.share_turns.specs.HostTurn.{listed};
    ghost use Rattle.share_turns.specs.declared.fault.TurnFault.TheVariants.{Memory};
    ghost use Rattle.share_logged.specs.Notes.{last_after, max_answers, max_numbered, noted};

    /// Returns what a turn begins with, after an input at time `last`.
    pub(crate) fn after(last: i64) -> Pending
        ensures last { result.last ≡ last }
        ensures entries { result.entries ≡ [] }
        ensures notes { result.notes.items ≡ [] }
    {
        Pending {
            last,
            entries: Entries::none(),
            notes: ArrayVec::new(),
        }
    }

    /// Adds the entry of an input, if one was numbered.
    pub(crate) fn add(&mut self, entry: Option<Entry>)
        requires room { length self.old.entries < max_numbered }
        requires from { pos 0 ≤ℤ self.old.last }
        ensures entries { self.new.entries ≡ self.old.entries ++ listed entry }
        ensures last { self.new.last ≡ last_after self.old.last (listed entry) }
        ensures from { pos 0 ≤ℤ self.new.last }
        ensures notes { self.new.notes.items ≡ self.old.notes.items }
    {
        let Some(entry) = entry else {
            return;
        };
        self.last = entry.time();
        self.entries.push(entry);
    }

    /// Notes what a datagram is answered. Fails with `Memory` if memory was refused to its offer.
    pub(crate) fn note(
        &mut self,
        to: u16,
        sender: Option<u8>,
        answer: Result<HostReply, HostFault>,
    ) -> Result<(), TurnFault>
        requires room { length self.old.notes.items < max_answers }
        ensures notes { self.new.notes.items ≡ self.old.notes.items ++ noted to sender answer }
        ensures entries { self.new.entries ≡ self.old.entries }
        ensures last { self.new.last ≡ self.old.last }
        ensures refused { is_err result ≡ says_memory (HostTook answer) }
        ensures fault { OnErr result (result ≡ Err Memory) }
    {
        match answer {
            Ok(reply) => {
                self.notes.push(Note { to, sender, reply });
                Ok(())
            }
            Err(fault) => after_refusal(fault),
        }
    }
}
