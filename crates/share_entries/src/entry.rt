//! An entry of a world's log.

ghost use Rattle.std.specs.Prelude.{◌≡◌, IsTrue};
ghost use Rattle.x3d_values.specs.Ranges.{is_input_time};

use share_wire::Offer;
use std::marker::Model;

/// What an input came from: a clock, or a viewer's offer of a pointer.
#[derive(Clone, Copy, PartialEq, Eq)]
pub enum Source {
    Clock,
    Offer(Offer),
}

/// An input of a log, and which offer it was. Its number is its place in the log, counted from 1.
/// Its time is 1 to `MAX_TIME` microseconds.
#[derive(Clone, Copy, PartialEq, Eq)]
pub struct Entry {
    time: i64,
    source: Source,
}

impl Model for Entry {
    ghost use Rattle.std.specs.Prelude.{IsTrue};
    ghost use Rattle.x3d_values.specs.Ranges.{is_input_time};
    ghost use Rattle.share_entries.specs.Entry.{EntryView};

    ghost Value = { EntryView };

    ghost view = { λ e. record { time = e.time; source = e.source } };

    ghost invariant = { λ e. IsTrue (is_input_time e.time) };

    ghost inverse = { λ e. record { time = e.time; source = e.source } };
}

impl Entry {
    /// Makes an entry. The caller checks the time with `is_input_time`.
    pub fn new(time: i64, source: Source) -> Entry
        requires { IsTrue (is_input_time time) }
        ensures { result ≡ record { time = time; source = source } }
    {
        Entry { time, source }
    }

    /// Returns the time in microseconds, 1 to `MAX_TIME`.
    pub fn time(&self) -> i64
        ensures value { result ≡ self.now.time }
        ensures fits { IsTrue (is_input_time result) }
    {
        self.time
    }

    /// Returns what the input came from.
    pub fn source(&self) -> Source
        ensures { result ≡ self.now.source }
    {
        self.source
    }
}
