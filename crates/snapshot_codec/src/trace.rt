//! The events that were sent, as bytes.

ghost use Rattle.std.specs.Prelude.{◌≡◌, ◌++◌, ◌∷◌, [], ℕ, List, Option, OnErr, OnOk};
ghost use Rattle.std.specs.Option.{option_map};
ghost use Rattle.std.specs.Int.{w64};
ghost use Rattle.byte_codec.specs.Codec.{number_text, many_at};
ghost use Rattle.x3d_values.specs.declared.field_type.FieldType.{FieldType as AFieldType};
ghost use Rattle.snapshot_codec.specs.declared.trace.TraceEntry.{TraceEntry as AnEntry};
ghost use Rattle.snapshot_codec.specs.Reads.{ReadsPart, behind};
ghost use Rattle.snapshot_codec.specs.Trace.{moment_codec, sent_at_codec, typed_codec, entry_codec, trace_codec, entry_text};

use crate::fault::PartFault;
use crate::input_number::{Numbers, input_of};
use crate::numbers::{bytes_16, bytes_32, bytes_64, low_32_bytes, push_u64, signed_bytes};
use crate::value::{push_value, value_of};
use byte_codec::{i64_of, u16_of, u32_of, u64_of};
use std::alloc::{AllocError, Global};
use x3d_values::{FieldType, Items, Value, push_pieces};

/// The latest time, in microseconds.
const LATEST: i64 = x3d_values::MAX_TIME;

/// When and where an event was sent.
#[derive(Clone, Copy, PartialEq, Eq)]
pub struct SentAt {
    /// The number of the input.
    pub input: u64,
    /// In microseconds, 0 to 10^18.
    pub time: i64,
    /// The number of the node.
    pub node: u32,
    /// The number of the output among the fields of the node.
    pub field: u16,
}

/// An event that was sent.
#[derive(Drop)]
pub struct TraceEntry {
    pub sent: SentAt,
    pub value: Value,
}

/// The outputs of a scene.
pub trait Outputs {
    ghost types: { Self → ℕ → ℕ → Option AFieldType };

    /// Returns the type of the events that a node sends by its field of that number, or `None` if
    /// it sends none.
    fn output_type(&self, node: u32, field: u16) -> Option<FieldType>
        ensures { result ≡ types self.now node field };
}

/// A sink for the events of a trace as they are read.
pub trait TakesEntries {
    ghost entries: { Self → List AnEntry };

    /// Appends the event.
    fn take_entry(&mut self, entry: TraceEntry) -> Result<(), AllocError>
        ensures { OnOk result (entries self.new ≡ entries self.old ++ entry ∷ []) };
}

impl TakesEntries for Items<TraceEntry> {
    ghost entries = { λ entries. entries };

    fn take_entry(&mut self, entry: TraceEntry) -> Result<(), AllocError> {
        self.push(entry)
    }
}

/// Reads a time of 0 to 10^18 microseconds.
pub(crate) fn moment_of(bytes: &[u8]) -> Option<(i64, &[u8])>
    ensures { option_map (λ x. (x.0, x.1.now)) result ≡ moment_codec.read bytes.now }
{
    let Some((time, rest)) = i64_of(bytes) else {
        return None;
    };
    if time >= 0 && time <= LATEST {
        Some((time, rest))
    } else {
        None
    }
}

#[tactic(auto, unfolding(crate::specs::Trace::sent_at_codec))]
fn sent_at_of(numbers: Numbers, bytes: &[u8]) -> Option<(SentAt, &[u8])>
    ensures { option_map (λ x. (x.0, x.1.now)) result ≡ (sent_at_codec numbers).read bytes.now }
{
    let Some((input, rest)) = input_of(numbers, bytes) else {
        return None;
    };
    let Some((time, rest)) = moment_of(rest) else {
        return None;
    };
    let Some((node, rest)) = u32_of(rest) else {
        return None;
    };
    let Some((field, rest)) = u16_of(rest) else {
        return None;
    };
    let sent = SentAt {
        input,
        time,
        node,
        field,
    };
    Some((sent, rest))
}

fn typed_of(
    alloc: Global,
    field_type: Option<FieldType>,
    bytes: &[u8],
) -> Result<(Value, &[u8]), PartFault>
    ensures { ReadsPart (λ x. (x.0, x.1.now)) result ((typed_codec field_type).read bytes.now) }
{
    match field_type {
        Some(field_type) => value_of(alloc, field_type, bytes),
        None => Err(PartFault::NotCanonical),
    }
}

/// Reads an event: the input's number in 32 or 64 bits, the time i64 (0 to 10^18), the node u32,
/// the field u16, and a value of the field's type. Returns it with the rest of the bytes. Returns
/// `NotCanonical` if the bytes don't encode one or the field sends no events, and `Memory` if
/// memory runs out.
#[tactic(auto, unfolding(crate::specs::Trace::entry_codec))]
pub fn entry_of<'a, O: Outputs>(
    alloc: Global,
    numbers: Numbers,
    outputs: &O,
    bytes: &'a [u8],
) -> Result<(TraceEntry, &'a [u8]), PartFault>
    ensures { ReadsPart (λ x. (x.0, x.1.now)) result
        ((entry_codec numbers (O.types outputs.now)).read bytes.now) }
{
    let Some((sent, rest)) = sent_at_of(numbers, bytes) else {
        return Err(PartFault::NotCanonical);
    };
    let field_type = outputs.output_type(sent.node, sent.field);
    let (value, rest) = typed_of(alloc, field_type, rest)?;
    Ok((TraceEntry { sent, value }, rest))
}

fn entries_of<'a, O: Outputs, T: TakesEntries>(
    alloc: Global,
    numbers: Numbers,
    outputs: &O,
    count: u64,
    bytes: &'a [u8],
    taker: &mut T,
) -> Result<&'a [u8], PartFault>
    ensures { ReadsPart (λ rest. (T.entries taker.new, rest.now)) result
        (behind (T.entries taker.old)
        (many_at (entry_codec numbers (O.types outputs.now)) count bytes.now)) }
{
    let mut rest = bytes;
    for _ in 0..count {
        let (entry, after) = entry_of(alloc, numbers, outputs, rest)?;
        taker.take_entry(entry)?;
        rest = after;
    }
    Ok(rest)
}

/// Reads a trace: a u64 count and that many events. Hands the events to `taker` in order and
/// returns the rest of the bytes. Returns `NotCanonical` if the bytes don't encode one, and
/// `Memory` if memory runs out. On an error, `taker` may hold some of the events.
pub fn trace_of<'a, O: Outputs, T: TakesEntries>(
    alloc: Global,
    numbers: Numbers,
    outputs: &O,
    bytes: &'a [u8],
    taker: &mut T,
) -> Result<&'a [u8], PartFault>
    ensures { ReadsPart (λ rest. (T.entries taker.new, rest.now)) result
        (behind (T.entries taker.old)
        ((trace_codec numbers (O.types outputs.now)).read bytes.now)) }
{
    let Some((count, rest)) = u64_of(bytes) else {
        return Err(PartFault::NotCanonical);
    };
    entries_of(alloc, numbers, outputs, count, rest, taker)
}

fn push_sent_at(numbers: Numbers, sent: SentAt, out: &mut Vec<u8>) -> Result<(), AllocError>
    ensures ok { OnOk result (out.new.items ≡ out.old.items ++ (sent_at_codec numbers).write sent) }
    ensures err { OnErr result (out.new.items ≡ out.old.items) }
{
    let time = signed_bytes(&sent.time);
    let node = bytes_32(sent.node);
    let field = bytes_16(sent.field);
    match numbers {
        Numbers::Short => push_pieces(&[&low_32_bytes(sent.input), &time, &node, &field], out),
        Numbers::Long => push_pieces(&[&bytes_64(sent.input), &time, &node, &field], out),
    }
}

/// Appends an event; of a short number of its input, the lowest 32 bits. On `AllocError` the buffer
/// is unchanged.
pub fn push_entry(
    numbers: Numbers,
    sent: SentAt,
    value: &Value,
    out: &mut Vec<u8>,
) -> Result<(), AllocError>
    ensures ok { OnOk result (out.new.items ≡ out.old.items ++ entry_text numbers sent value.now) }
    ensures err { OnErr result (out.new.items ≡ out.old.items) }
{
    let len = out.len();
    push_sent_at(numbers, sent, out)?;
    let pushed = push_value(value, out);
    if pushed.is_err() {
        out.truncate(len);
    }
    pushed
}

/// Appends the number of events of a trace. The events are appended after it, one by one. On
/// `AllocError` the buffer is unchanged.
pub fn push_entry_count(count: u64, out: &mut Vec<u8>) -> Result<(), AllocError>
    ensures ok { OnOk result (out.new.items ≡ out.old.items ++ number_text w64 count) }
    ensures err { OnErr result (out.new.items ≡ out.old.items) }
{
    push_u64(count, out)
}
