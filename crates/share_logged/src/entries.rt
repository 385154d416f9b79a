//! The entries that a turn has numbered.

ghost use Rattle.std.specs.Prelude.{◌≡◌, ◌++◌, ◌∷◌, ◌<◌, ◌≤◌, [], length};
ghost use Rattle.share_logged.specs.Notes.{max_numbered};

use share_entries::{Entry, Source};
use std::marker::Model;

/// The largest number of entries of a turn: its clock, and one for each datagram.
const ENTRIES: usize = 65;

/// At most 65 entries, in order.
#[derive(Drop)]
pub(crate) struct Entries {
    places: [Entry; ENTRIES],
    count: usize,
}

impl Model for Entries {
    ghost use Rattle.std.specs.Prelude.{◌≡◌, ◌≤◌, List, length, take};
    ghost use Rattle.share_entries.specs.Entry.{EntryView};
    ghost use Rattle.share_logged.specs.Notes.{max_numbered};

    ghost Value = { List EntryView };

    ghost view = { λ e. take e.count e.places };

    ghost invariant = { λ e. (e.count ≤ max_numbered) × (length e.places ≡ max_numbered) };
}

impl Entries {
    ghost use Rattle.std.specs.Prelude.{◌≡◌, ◌++◌, ◌∷◌, ◌<◌, ◌≤◌, [], length};
    ghost use Rattle.share_logged.specs.Notes.{max_numbered};

    pub(crate) fn none() -> Entries
        ensures { result ≡ [] }
    {
        Entries {
            places: [Entry::new(1, Source::Clock); ENTRIES],
            count: 0,
        }
    }

    pub(crate) fn push(&mut self, entry: Entry)
        requires { length self.old < max_numbered }
        ensures { self.new ≡ self.old ++ entry ∷ [] }
    {
        self.places[self.count] = entry;
        self.count += 1;
    }

    pub(crate) fn as_slice(&self) -> &[Entry]
        ensures items { result.now ≡ self.now }
        ensures most { length result.now ≤ max_numbered }
    {
        &self.places[..self.count]
    }
}
