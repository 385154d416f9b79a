//! The trace as it is kept: 24 bytes for each event, and the number and the time of an input once
//! for all its events.

ghost use Rattle.std.specs.Prelude.{◌≡◌, ◌++◌, [], ◌∷◌, ◌&&◌, nat_lt, OnErr, OnOk};
ghost use Rattle.cascade_trace.specs.Trace.{IsWhole, entry_of, input_entry, plain_entry, whole_of};

use crate::lines::{WritesLines, lines_in, write_lines};
use crate::passing::{TestsLines, all_pass};
use crate::since::{start_of, write_lines_at};
use scene_core::End;
use std::alloc::{AllocError, Global};
use std::marker::Model;
use x3d_values::{Value, clone_value};

/// An event that was sent.
#[derive(Drop)]
pub struct TraceLine {
    /// The number of the input.
    pub input: u64,
    /// In microseconds.
    pub time: i64,
    /// The output.
    pub source: End,
    pub value: Value,
}

/// The kind of an entry.
#[derive(Clone, Copy)]
pub enum EntryKind {
    /// An input, for the events after it: its number is in `input`, its time in `word`.
    Input,
    /// The value TRUE.
    True,
    /// The value FALSE.
    False,
    /// An integer.
    Whole,
    /// A number of millionths.
    Number,
    /// A time.
    Time,
    /// An event whose value is the next of the separately kept values.
    Other,
}

/// An event, or the input of the events after it.
#[derive(Clone, Copy)]
pub struct Entry {
    /// 0 for an event.
    pub input: u64,
    pub node: u32,
    pub field: u16,
    pub kind: EntryKind,
    pub word: i64,
}

const _: () = prove!(size_of::<Entry>() == 24);

/// The entries of a trace, and the values that are kept separately.
#[derive(Drop)]
pub struct EntryList {
    /// The number and the time of the input of the next events.
    pub input: u64,
    pub time: i64,
    /// Whether each input's number is above the numbers before it.
    pub in_order: bool,
    pub entries: Vec<Entry>,
    pub values: Vec<Value>,
}

/// Returns the entry of an output.
#[tactic(auto, using(crate::proofs::Traces::passed))]
fn entry_of(source: End, kind: EntryKind, word: i64) -> Entry
    ensures { result ≡ entry_of source kind word }
{
    Entry {
        input: 0,
        node: source.node,
        field: source.field,
        kind,
        word,
    }
}

/// Returns the entry of an input.
#[tactic(auto, using(crate::proofs::Traces::passed))]
fn input_entry(input: u64, time: i64) -> Entry
    ensures { result ≡ input_entry input time }
{
    Entry {
        input,
        node: 0,
        field: 0,
        kind: EntryKind::Input,
        word: time,
    }
}

/// Returns the entry of an integer.
#[tactic(auto, using(crate::proofs::Traces::passed))]
fn whole_entry(source: End, number: i32) -> Entry
    ensures entry { result ≡ entry_of source EntryKind.Whole number }
    ensures whole { whole_of number ≡ number }
{
    entry_of(source, EntryKind::Whole, i64::from(number))
}

/// Returns the entry of a value that needs no separate place, or `None` for other values.
#[tactic(auto, using(crate::proofs::Traces::passed))]
fn plain_entry(source: End, value: &Value) -> Option<Entry>
    ensures entry { result ≡ plain_entry source value.now }
    ensures whole { IsWhole value.now }
{
    match value {
        Value::SFBool(true) => Some(entry_of(source, EntryKind::True, 0)),
        Value::SFBool(false) => Some(entry_of(source, EntryKind::False, 0)),
        Value::SFInt32(number) => Some(whole_entry(source, *number)),
        Value::SFFloat(number) => Some(entry_of(source, EntryKind::Number, *number)),
        Value::SFTime(time) => Some(entry_of(source, EntryKind::Time, *time)),
        _ => None,
    }
}

/// Reports whether the numbers of all inputs rise, `next` included.
fn follows(in_order: bool, last: u64, next: u64) -> bool
    ensures { result ≡ (in_order && nat_lt last next) }
{
    in_order && last < next
}

impl EntryList {
    ghost use Rattle.std.specs.Prelude.{◌≡◌, ◌++◌, [], ◌∷◌, OnOk, pos};
    ghost use Rattle.std.specs.List.{flat_map};
    ghost use Rattle.x3d_lists.specs.Extends.{Extends};
    ghost use Rattle.cascade_trace.specs.Since.{IsCounted, IsInOrder, IsSilent};
    ghost use Rattle.cascade_trace.specs.Trace.{IsOpen, kept_lines, line};

    /// Sets the input of the next events.
    fn begin(&mut self, input: u64, time: i64) -> Result<(), AllocError>
        requires open { IsOpen self.old }
        requires counted { IsCounted self.old }
        requires in_order { IsInOrder self.old }
        ensures open { IsOpen self.new }
        ensures counted { IsCounted self.new }
        ensures in_order { IsInOrder self.new }
        ensures lines { kept_lines self.new ≡ kept_lines self.old }
        ensures input { OnOk result (self.new.input ≡ input) }
        ensures time { OnOk result (self.new.time ≡ time) }
    {
        if input == self.input && time == self.time {
            return Ok(());
        }
        self.entries.push(input_entry(input, time))?;
        let in_order = follows(self.in_order, self.input, input);
        self.in_order = in_order;
        self.input = input;
        self.time = time;
        Ok(())
    }

    /// Appends an event of the current input.
    fn event(&mut self, alloc: Global, source: End, value: &Value) -> Result<(), AllocError>
        requires open { IsOpen self.old }
        requires counted { IsCounted self.old }
        requires in_order { IsInOrder self.old }
        ensures open { IsOpen self.new }
        ensures counted { IsCounted self.new }
        ensures in_order { IsInOrder self.new }
        ensures lines { OnOk result (kept_lines self.new
            ≡ kept_lines self.old ++ line self.old.input self.old.time source value.now ∷ []) }
    {
        if let Some(plain) = plain_entry(source, value) {
            self.entries.push(plain)?;
            return Ok(());
        }
        let copy = clone_value(alloc, value)?;
        let other = entry_of(source, EntryKind::Other, 0);
        push_both(&mut self.entries, &mut self.values, other, copy)?;
        Ok(())
    }

    /// Writes the lines for a writer that writes nothing for inputs below `first`. On `AllocError`,
    /// `out` may hold a part of them.
    fn write_from<W: WritesLines>(
        &self,
        first: u64,
        writer: &mut W,
        out: &mut Vec<u8>,
    ) -> Result<(), AllocError>
        requires counted { IsCounted self.now }
        requires in_order { IsInOrder self.now }
        requires silent { IsSilent (W.text writer.old) first }
        ensures ok { OnOk result
            (out.new.items ≡ out.old.items ++ flat_map (W.text writer.old) (kept_lines self.now)) }
        ensures kept { Extends out.old.items out.new.items }
    {
        if !self.in_order {
            return write_lines(writer, &self.entries, &self.values, out);
        }
        if self.input < first {
            return Ok(());
        }
        match start_of(&self.entries, first) {
            Some(at) => write_lines_at(writer, at, &self.entries, &self.values, out),
            None => write_lines(writer, &self.entries, &self.values, out),
        }
    }
}

/// Appends an entry and a value. On `AllocError` both lists are unchanged.
fn push_both(
    entries: &mut Vec<Entry>,
    values: &mut Vec<Value>,
    entry: Entry,
    value: Value,
) -> Result<(), AllocError>
    ensures entries { OnOk result (entries.new.items ≡ entries.old.items ++ entry ∷ []) }
    ensures values { OnOk result (values.new.items ≡ values.old.items ++ value ∷ []) }
    ensures same_entries { OnErr result (entries.new.items ≡ entries.old.items) }
    ensures same_values { OnErr result (values.new.items ≡ values.old.items) }
{
    let many = values.len();
    values.push(value)?;
    if entries.push(entry).is_err() {
        values.truncate(many);
        return Err(AllocError);
    }
    Ok(())
}

/// All events that were sent, in order.
#[derive(Drop)]
pub struct Trace {
    kept: EntryList,
}

impl Model for Trace {
    ghost use Rattle.std.specs.Prelude.{List};
    ghost use Rattle.cascade_trace.specs.declared.trace.TraceLine.{TraceLine};
    ghost use Rattle.cascade_trace.specs.Since.{IsCounted, IsInOrder};
    ghost use Rattle.cascade_trace.specs.Trace.{IsOpen, kept_lines};

    ghost Value = { List TraceLine };

    ghost view = { λ t. kept_lines t.kept };

    ghost invariant = { λ t. IsOpen t.kept × IsCounted t.kept × IsInOrder t.kept };
}

impl Trace {
    ghost use Rattle.std.specs.Prelude.{◌≡◌, ◌++◌, [], ◌∷◌, OnErr, OnOk, length};
    ghost use Rattle.std.specs.List.{flat_map, list_all};
    ghost use Rattle.cascade_trace.specs.Forgetting.{lines_from};
    ghost use Rattle.cascade_trace.specs.Since.{IsSilent};
    ghost use Rattle.cascade_trace.specs.Trace.{line};

    /// Makes a trace without events.
    pub fn new(alloc: Global) -> Trace
        ensures { result ≡ [] }
    {
        Trace {
            kept: EntryList {
                input: 0,
                time: 0,
                in_order: true,
                entries: Vec::new(alloc),
                values: Vec::new(alloc),
            },
        }
    }

    /// Appends an event of the input of this number and time, in microseconds. Fails with
    /// `AllocError` if memory runs out.
    pub fn push(
        &mut self,
        alloc: Global,
        input: u64,
        time: i64,
        source: End,
        value: &Value,
    ) -> Result<(), AllocError>
        ensures { OnOk result (self.new ≡ self.old ++ line input time source value.now ∷ []) }
    {
        self.kept.begin(input, time)?;
        self.kept.event(alloc, source, value)?;
        Ok(())
    }

    /// Returns the number of lines.
    pub fn len(&self) -> u64
        ensures { result ≡ length self.now }
    {
        lines_in(&self.kept.entries) as u64
    }

    /// Drops the lines of inputs with a number below `below`. Takes no memory.
    pub fn forget(&mut self, below: u64)
        ensures { self.new ≡ lines_from below self.old }
    {
        self.kept.forget(below);
    }

    /// Reports whether every line passes a test.
    pub fn all_pass<T: TestsLines>(&self, test: &T) -> bool
        ensures { result ≡ list_all (T.passing test.now) self.now }
    {
        all_pass(test, &self.kept.entries, &self.kept.values)
    }

    /// Writes the lines in order. On `AllocError` the buffer is unchanged.
    pub fn write<W: WritesLines>(&self, writer: &mut W, out: &mut Vec<u8>) -> Result<(), AllocError>
        ensures ok { OnOk result
            (out.new.items ≡ out.old.items ++ flat_map (W.text writer.old) self.now) }
        ensures err { OnErr result (out.new.items ≡ out.old.items) }
    {
        let len = out.len();
        let written = write_lines(writer, &self.kept.entries, &self.kept.values, out);
        if written.is_err() {
            out.truncate(len);
        }
        written
    }

    /// Does the same for a writer that writes nothing for inputs below `first`. If the numbers of
    /// the inputs rise, it starts at the last input whose number is at most `first`.
    pub fn write_from<W: WritesLines>(
        &self,
        first: u64,
        writer: &mut W,
        out: &mut Vec<u8>,
    ) -> Result<(), AllocError>
        requires silent { IsSilent (W.text writer.old) first }
        ensures ok { OnOk result
            (out.new.items ≡ out.old.items ++ flat_map (W.text writer.old) self.now) }
        ensures err { OnErr result (out.new.items ≡ out.old.items) }
    {
        let len = out.len();
        let written = self.kept.write_from(first, writer, out);
        if written.is_err() {
            out.truncate(len);
        }
        written
    }
}
