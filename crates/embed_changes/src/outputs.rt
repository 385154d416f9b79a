//! The outputs that sent after an input, each once.

ghost use Rattle.std.specs.Prelude.{◌≡◌, List, OnOk};
ghost use Rattle.std.specs.List.{flat_map, fold};
ghost use Rattle.embed_changes.specs.OutputBytes.{bytes_after, output_bytes};
ghost use Rattle.embed_changes.specs.Outputs.{noted, outputs_after};
ghost use Rattle.scene_core.specs.declared.scene.End.{End as EndView};

use crate::output_bytes::{output_at, push_output};
use cascade_trace::{LineHead, SentBits, Trace, WritesLines};
use scene_core::End;
use std::alloc::{AllocError, Global};
use x3d_values::Value;

/// The number of bytes of an output.
const SIZE: usize = 7;

/// Writes the outputs of lines of inputs after `since`.
#[derive(Drop)]
struct OutputsAfter {
    since: u64,
}

impl WritesLines for OutputsAfter {
    ghost text = { λ w. bytes_after w.since };

    fn write_line(
        &mut self,
        head: LineHead,
        _value: &Value,
        out: &mut Vec<u8>,
    ) -> Result<(), AllocError> {
        if head.input <= self.since {
            return Ok(());
        }
        push_output(head.source, out)
    }
}

/// Notes an output, unless it is noted already.
fn note(marks: &mut SentBits, source: End) -> Result<(), AllocError>
    ensures { OnOk result (marks.new ≡ noted marks.old source) }
{
    if marks.contains(source) {
        return Ok(());
    }
    marks.push(source)
}

/// Notes the outputs of these bytes. Bytes of anything else are answered as if memory ran out: the
/// trace writes none.
fn note_all(bytes: &[u8], marks: &mut SentBits) -> Result<(), AllocError>
    ensures { (outputs : List EndView) → bytes.now ≡ flat_map output_bytes outputs
        → OnOk result (marks.new ≡ fold noted marks.old outputs) }
{
    let mut rest = bytes;
    for _output in 0..bytes.len() / SIZE {
        let Some((source, after)) = output_at(rest) else {
            return Err(AllocError);
        };
        note(marks, source)?;
        rest = after;
    }
    if rest.is_empty() {
        Ok(())
    } else {
        Err(AllocError)
    }
}

/// Leaves in `marks` the outputs of the lines of inputs after `since`, each once, in the order of
/// their first lines. Takes time for these lines and those of one input before them.
pub(crate) fn note_after(
    alloc: Global,
    trace: &Trace,
    since: u64,
    marks: &mut SentBits,
) -> Result<(), AllocError>
    ensures { OnOk result (marks.new ≡ outputs_after since trace.now) }
{
    marks.clear();
    let mut bytes = Vec::new(alloc);
    trace.write_from(since, &mut OutputsAfter { since }, &mut bytes)?;
    note_all(&bytes, marks)
}
