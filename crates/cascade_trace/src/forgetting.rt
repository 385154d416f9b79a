//! Drops the entries of inputs below a number.

ghost use Rattle.std.specs.Prelude.{◌≡◌, count_by, length, pos, take};
ghost use Rattle.cascade_trace.specs.Staying.{entries_from, input_after, last_input, last_time, time_after, values_from};
ghost use Rattle.cascade_trace.specs.Since.{takes_value};

use crate::lines::{Moment, moment_of};
use crate::since::takes_value;
use crate::trace::{Entry, EntryKind, EntryList};
use x3d_values::Value;

/// Returns the number of the last input, once an entry is passed.
fn input_after(input: u64, entry: &Entry) -> u64
    ensures { result ≡ input_after input entry.now }
{
    match entry.kind {
        EntryKind::Input => entry.input,
        _ => input,
    }
}

/// Keeps of the entries those of inputs from `below` on, and drops the others.
pub(crate) fn keep_entries(entries: &mut Vec<Entry>, below: u64)
    ensures { entries.new.items ≡ entries_from below entries.old.items 0 }
{
    let mut input = 0;
    let mut kept = 0;
    for place in 0..entries.len() {
        let entry = entries[place];
        input = input_after(input, &entry);
        if below <= input {
            entries[kept] = entry;
            kept += 1;
        }
    }
    entries.truncate(kept);
}

/// Keeps of the separate values those of entries of inputs from `below` on, and drops the others.
/// There must be one value for each entry that takes one.
pub(crate) fn keep_values(values: &mut Vec<Value>, entries: &[Entry], below: u64)
    requires { count_by takes_value entries.now ≡ length values.old.items }
    ensures { values.new.items ≡ values_from below entries.now 0 values.old.items }
{
    let mut input = 0;
    let mut kept = 0;
    let mut passed = 0;
    for entry in entries {
        input = input_after(input, entry);
        if takes_value(entry) {
            if below <= input {
                values.swap(kept, passed);
                kept += 1;
            }
            passed += 1;
        }
    }
    values.truncate(kept);
}

/// Returns the input of the next entries, once an entry is passed.
#[tactic(auto, using(crate::proofs::Traces::passed))]
fn moment_after(moment: Moment, entry: Entry) -> Moment
    ensures input { result.input ≡ input_after moment.input entry }
    ensures time { result.time ≡ time_after moment.time entry }
{
    match entry.kind {
        EntryKind::Input => moment_of(entry),
        _ => moment,
    }
}

/// Returns the input of the last entries.
pub(crate) fn last_moment(entries: &[Entry]) -> Moment
    ensures input { result.input ≡ last_input entries.now 0 }
    ensures time { result.time ≡ last_time entries.now (pos 0) }
{
    let mut moment = Moment { input: 0, time: 0 };
    for entry in entries {
        moment = moment_after(moment, *entry);
    }
    moment
}

impl EntryList {
    ghost use Rattle.std.specs.Prelude.{◌≡◌};
    ghost use Rattle.cascade_trace.specs.Forgetting.{lines_from};
    ghost use Rattle.cascade_trace.specs.Since.{IsCounted, IsInOrder};
    ghost use Rattle.cascade_trace.specs.Trace.{IsOpen, kept_lines};

    /// Goes on with an input whose entry is the last one.
    #[tactic(auto, using(crate::proofs::Traces::passed))]
    fn resume(&mut self, last: Moment)
        ensures { self.new ≡ record self.old { input = last.input; time = last.time } }
    {
        self.input = last.input;
        self.time = last.time;
    }

    /// Drops the lines of inputs below a number. Takes no memory.
    pub(crate) fn forget(&mut self, below: u64)
        requires counted { IsCounted self.old }
        requires in_order { IsInOrder self.old }
        ensures open { IsOpen self.new }
        ensures counted { IsCounted self.new }
        ensures in_order { IsInOrder self.new }
        ensures lines { kept_lines self.new ≡ lines_from below (kept_lines self.old) }
    {
        keep_values(&mut self.values, &self.entries, below);
        keep_entries(&mut self.entries, below);
        let last = last_moment(&self.entries);
        self.resume(last);
    }
}
