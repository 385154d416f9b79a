//! The trace as bytes.

ghost use Rattle.std.specs.Prelude.{◌≡◌, ◌++◌, List, OnOk};
ghost use Rattle.x3d_lists.specs.Extends.{Extends};
ghost use Rattle.scene_core.specs.Scene.{shapes_of};
ghost use Rattle.scene_core.specs.Shape.{Shape, row_entry};
ghost use Rattle.snapshot_codec.specs.Reads.{ReadsPart};
ghost use Rattle.snapshot_core.specs.WorldCodec.{sent_type, output_type, lines_codec};

use crate::version::Version;
use cascade_core::{LineHead, Trace, WritesLines};
use scene_core::{End, NodeField, Scene};
use snapshot_codec::{
    Outputs, PartFault, SentAt, TakesEntries, TraceEntry, push_entry, push_entry_count, trace_of,
};
use std::alloc::{AllocError, Global};
use x3d_values::{FieldType, Value};

/// Returns the type of the events that a field sends, if it sends any.
fn sent_type(row: NodeField<'_>) -> Option<FieldType>
    ensures { result ≡ sent_type (row_entry row.entry) }
{
    if row.access.sends() {
        Some(row.field_type)
    } else {
        None
    }
}

/// The outputs of a scene.
#[derive(Clone, Copy)]
struct SceneOutputs<'a> {
    scene: &'a Scene,
}

impl<'a> Outputs for SceneOutputs<'a> {
    ghost use Rattle.scene_core.specs.Scene.{shapes_of};
    ghost use Rattle.snapshot_core.specs.WorldCodec.{output_type};

    ghost types = { λ outputs. output_type (shapes_of outputs.scene.now) };

    fn output_type(&self, node: u32, field: u16) -> Option<FieldType> {
        let row = self.scene.row(node, field)?;
        sent_type(row)
    }
}

/// A trace that is being read.
#[derive(Drop)]
struct ReadTrace {
    alloc: Global,
    trace: Trace,
}

impl TakesEntries for ReadTrace {
    ghost use Rattle.std.specs.Prelude.{map};
    ghost use Rattle.snapshot_core.specs.WorldCodec.{entry_of};

    ghost entries = { λ read. map entry_of read.trace };

    fn take_entry(&mut self, entry: TraceEntry) -> Result<(), AllocError> {
        let sent = entry.sent;
        let source = End {
            node: sent.node,
            field: sent.field,
        };
        let pushed = self
            .trace
            .push(self.alloc, sent.input, sent.time, source, &entry.value);
        drop(entry);
        pushed
    }
}

/// Reads the trace of the scene, in a snapshot of this version. Returns it with the rest of the
/// bytes.
pub(crate) fn lines_of<'a>(
    alloc: Global,
    version: Version,
    scene: &Scene,
    bytes: &'a [u8],
) -> Result<(Trace, &'a [u8]), PartFault>
    ensures { ReadsPart (λ x. (x.0, x.1.now)) result
        ((lines_codec version (shapes_of scene.now)).read bytes.now) }
{
    let outputs = SceneOutputs { scene };
    let mut read = ReadTrace {
        alloc,
        trace: Trace::new(alloc),
    };
    match trace_of(alloc, version.numbers(), &outputs, bytes, &mut read) {
        Ok(rest) => Ok((read.trace, rest)),
        Err(fault) => {
            drop(read);
            Err(fault)
        }
    }
}

/// A writer of lines as bytes, for a snapshot of a version.
#[derive(Clone, Copy)]
struct LineBytes {
    version: Version,
}

impl WritesLines for LineBytes {
    ghost use Rattle.snapshot_core.specs.WorldCodec.{line_text};

    ghost text = { λ bytes line. line_text bytes.version line };

    fn write_line(
        &mut self,
        head: LineHead,
        value: &Value,
        out: &mut Vec<u8>,
    ) -> Result<(), AllocError> {
        let sent = SentAt {
            input: head.input,
            time: head.time,
            node: head.source.node,
            field: head.source.field,
        };
        push_entry(self.version.numbers(), sent, value, out)
    }
}

/// Appends a trace, for a snapshot of this version. On `AllocError`, `out` may hold a part of it.
pub(crate) fn push_lines(
    version: Version,
    trace: &Trace,
    out: &mut Vec<u8>,
) -> Result<(), AllocError>
    ensures ok { (shapes : List Shape) → OnOk result (out.new.items
        ≡ out.old.items ++ (lines_codec version shapes).write trace.now) }
    ensures kept { Extends out.old.items out.new.items }
{
    push_entry_count(trace.len(), out)?;
    trace.write(&mut LineBytes { version }, out)?;
    Ok(())
}
