//! The lines of a trace, written one after another.

ghost use Rattle.std.specs.Prelude.{◌≡◌, ◌++◌, [], ◌∷◌, ℕ, List, IfOk, OnOk, count_by, drop, pos, slice_get};
ghost use Rattle.std.specs.List.{flat_map};
ghost use Rattle.std.specs.Option.{option_map_or};
ghost use Rattle.x3d_lists.specs.Extends.{Extends};
ghost use Rattle.cascade_trace.specs.Trace.{end_of, line, lines_of, plain_value, tells_line, whole_of};
ghost use Rattle.cascade_trace.specs.declared.trace.Entry.{Entry as EntryView};
ghost use Rattle.cascade_trace.specs.declared.trace.TraceLine.{TraceLine as LineView};

use crate::trace::{Entry, EntryKind};
use scene_core::End;
use std::alloc::AllocError;
use x3d_values::Value;

/// The least 32-bit integer.
const LEAST: i64 = -2_147_483_648;

/// The greatest 32-bit integer.
const GREATEST: i64 = 2_147_483_647;

/// The parts of a line other than the value.
#[derive(Clone, Copy)]
pub struct LineHead {
    /// The number of the input.
    pub input: u64,
    /// In microseconds.
    pub time: i64,
    /// The output.
    pub source: End,
}

/// The number and the time of an input.
#[derive(Clone, Copy, PartialEq, Eq)]
pub(crate) struct Moment {
    pub input: u64,
    pub time: i64,
}

/// A writer of the lines of a trace.
pub trait WritesLines {
    /// The bytes of a line.
    ghost text: { Self → LineView → List ℕ };

    /// Appends the bytes of a line. On `AllocError`, `out` may hold a part of them.
    fn write_line(
        &mut self,
        head: LineHead,
        value: &Value,
        out: &mut Vec<u8>,
    ) -> Result<(), AllocError>
        ensures ok { OnOk result (out.new.items
            ≡ out.old.items ++ text self.old (line head.input head.time head.source value.now)) }
        // Each line is written by the same rule, whatever was written before.
        ensures same { text self.new ≡ text self.old }
        ensures kept { Extends out.old.items out.new.items };
}

/// Returns the 32-bit integer that is nearest to a word.
fn whole_of(word: i64) -> i32
    ensures { result ≡ whole_of word }
{
    word.clamp(LEAST, GREATEST) as i32
}

/// Returns the value that an entry of this kind holds itself. Returns `None` if the entry is an
/// input or its value is kept separately.
pub(crate) fn plain_value(kind: EntryKind, word: i64) -> Option<Value>
    ensures { result ≡ plain_value kind word }
{
    match kind {
        EntryKind::True => Some(Value::SFBool(true)),
        EntryKind::False => Some(Value::SFBool(false)),
        EntryKind::Whole => Some(Value::SFInt32(whole_of(word))),
        EntryKind::Number => Some(Value::SFFloat(word)),
        EntryKind::Time => Some(Value::SFTime(word)),
        EntryKind::Input | EntryKind::Other => None,
    }
}

/// Returns the input that an entry records.
#[tactic(auto, using(crate::proofs::Traces::passed))]
pub(crate) fn moment_of(entry: Entry) -> Moment
    ensures { result ≡ record { input = entry.input; time = entry.word } }
{
    Moment {
        input: entry.input,
        time: entry.word,
    }
}

/// Returns the parts of an entry's line other than the value, at an input.
#[tactic(auto, using(crate::proofs::Traces::passed))]
pub(crate) fn head_of(moment: Moment, entry: Entry) -> LineHead
    ensures { result
        ≡ record { input = moment.input; time = moment.time; source = end_of entry } }
{
    LineHead {
        input: moment.input,
        time: moment.time,
        source: End {
            node: entry.node,
            field: entry.field,
        },
    }
}

/// Writes the line of an event whose entry holds the value. On `AllocError`, `out` may hold a part
/// of it.
fn write_plain<W: WritesLines>(
    writer: &mut W,
    head: LineHead,
    entry: Entry,
    out: &mut Vec<u8>,
) -> Result<(), AllocError>
    ensures ok { OnOk result (out.new.items
        ≡ out.old.items ++ option_map_or
        (λ v. W.text writer.old (line head.input head.time head.source v))
        (plain_value entry.kind entry.word) []) }
    ensures same { W.text writer.new ≡ W.text writer.old }
    ensures kept { Extends out.old.items out.new.items }
{
    match plain_value(entry.kind, entry.word) {
        Some(value) => {
            let written = writer.write_line(head, &value, out);
            drop(value);
            written
        }
        None => Ok(()),
    }
}

/// Writes the line of an event whose value is the first of `values`, if there is one. Returns the
/// remaining values. On `AllocError`, `out` may hold a part of the line.
fn write_aside<'a, W: WritesLines>(
    writer: &mut W,
    head: LineHead,
    values: &'a [Value],
    out: &mut Vec<u8>,
) -> Result<&'a [Value], AllocError>
    ensures ok { OnOk result (out.new.items
        ≡ out.old.items ++ option_map_or
        (λ v. W.text writer.old (line head.input head.time head.source v))
        (slice_get values.now 0) []) }
    ensures left { IfOk result (λ left. left.now ≡ drop 1 values.now) }
    ensures same { W.text writer.new ≡ W.text writer.old }
    ensures kept { Extends out.old.items out.new.items }
{
    match values {
        [] => Ok(values),
        [value, left @ ..] => {
            writer.write_line(head, value, out)?;
            Ok(left)
        }
    }
}

/// Writes the line of an entry, if it has one. Returns the remaining values. On `AllocError`, `out`
/// may hold a part of the line.
fn write_entry<'a, W: WritesLines>(
    writer: &mut W,
    moment: &mut Moment,
    entry: Entry,
    values: &'a [Value],
    out: &mut Vec<u8>,
) -> Result<&'a [Value], AllocError>
    ensures told { (es : List EntryView)
        → IfOk result (λ left. out.new.items
        ++ flat_map (W.text writer.old)
        (lines_of es moment.new.input moment.new.time left.now)
        ≡ out.old.items
        ++ flat_map (W.text writer.old)
        (lines_of (entry ∷ es) moment.old.input moment.old.time values.now)) }
    ensures same { W.text writer.new ≡ W.text writer.old }
    ensures kept { Extends out.old.items out.new.items }
{
    let head = head_of(*moment, entry);
    match entry.kind {
        EntryKind::Input => {
            *moment = moment_of(entry);
            Ok(values)
        }
        EntryKind::Other => write_aside(writer, head, values, out),
        _ => {
            write_plain(writer, head, entry, out)?;
            Ok(values)
        }
    }
}

/// Writes the lines of entries, taking from `values` those that are kept separately. On
/// `AllocError`, `out` may hold a part of the lines.
#[tactic(auto, unfolding(crate::specs::Trace::lines_of))]
pub(crate) fn write_lines<W: WritesLines>(
    writer: &mut W,
    entries: &[Entry],
    values: &[Value],
    out: &mut Vec<u8>,
) -> Result<(), AllocError>
    ensures ok { OnOk result (out.new.items
        ≡ out.old.items
        ++ flat_map (W.text writer.old) (lines_of entries.now 0 (pos 0) values.now)) }
    ensures kept { Extends out.old.items out.new.items }
{
    let mut moment = Moment { input: 0, time: 0 };
    let mut left = values;
    for entry in entries {
        left = write_entry(writer, &mut moment, *entry, left, out)?;
    }
    Ok(())
}

/// Reports whether an entry is an event.
fn tells_line(entry: &Entry) -> bool
    ensures { result ≡ tells_line entry.now }
{
    !matches!(entry.kind, EntryKind::Input)
}

/// Returns the number of entries that are events.
pub(crate) fn lines_in(entries: &[Entry]) -> usize
    ensures { result ≡ count_by tells_line entries.now }
{
    entries.iter().filter(|entry| tells_line(entry)).count()
}
