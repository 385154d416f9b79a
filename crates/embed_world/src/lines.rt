//! The lines of a trace from an input on.

ghost use Rattle.std.specs.Prelude.{◌≡◌, ◌++◌, [], ◌∷◌, OnErr, OnOk};
ghost use Rattle.std.specs.List.{flat_map};
ghost use Rattle.x3d_lists.specs.Extends.{Extends};
ghost use Rattle.cascade_trace.specs.LineText.{line_text, stamp_text};
ghost use Rattle.cascade_trace.specs.Trace.{line};
ghost use Rattle.x3d_values.specs.ValueText.{value_text};
ghost use Rattle.embed_world.specs.Lines.{change_text, from_on, place_text};

use cascade_trace::{LineHead, Trace, WritesLines, push_source};
use itoa::Buffer;
use scene_core::{End, Scene};
use std::alloc::AllocError;
use x3d_numerals::push_number;
use x3d_values::{Value, show_value};

/// Appends the number and the time of an input. On an error, part of it may be appended.
#[tactic(auto, unfolding(cascade_trace::specs::LineText::stamp_text))]
fn push_stamp(head: LineHead, out: &mut Vec<u8>) -> Result<(), AllocError>
    ensures ok { OnOk result (out.new.items ≡ out.old.items ++ stamp_text head.input head.time) }
    ensures kept { Extends out.old.items out.new.items }
{
    let mut buffer = Buffer::new();
    out.extend_from_slice(buffer.format(head.input).as_bytes())?;
    out.push(b' ')?;
    push_number(head.time, out)?;
    out.push(b' ')?;
    Ok(())
}

/// Appends the number of a node and that of its field. On an error, part of them may be appended.
#[tactic(auto, unfolding(crate::specs::Lines::place_text))]
fn push_place(source: End, out: &mut Vec<u8>) -> Result<(), AllocError>
    ensures ok { OnOk result (out.new.items ≡ out.old.items ++ place_text source) }
    ensures kept { Extends out.old.items out.new.items }
{
    let mut node = Buffer::new();
    out.extend_from_slice(node.format(source.node).as_bytes())?;
    out.push(b' ')?;
    let mut field = Buffer::new();
    out.extend_from_slice(field.format(source.field).as_bytes())
}

/// Appends a space, a value and a line feed. On an error, part of them may be appended.
fn push_end(value: &Value, out: &mut Vec<u8>) -> Result<(), AllocError>
    ensures ok { OnOk result (out.new.items
        ≡ out.old.items ++ 32 ∷ value_text value.now ++ 10 ∷ []) }
    ensures kept { Extends out.old.items out.new.items }
{
    out.push(b' ')?;
    show_value(value, out)?;
    out.push(b'\n')?;
    Ok(())
}

/// Appends the line of an event. On an error, part of it may be appended.
#[tactic(auto, unfolding(cascade_trace::specs::LineText::line_text))]
fn push_line(
    scene: &Scene,
    head: LineHead,
    value: &Value,
    out: &mut Vec<u8>,
) -> Result<(), AllocError>
    ensures ok { OnOk result (out.new.items
        ≡ out.old.items
        ++ line_text scene.now (line head.input head.time head.source value.now)) }
    ensures kept { Extends out.old.items out.new.items }
{
    push_stamp(head, out)?;
    push_source(scene, head.source, out)?;
    push_end(value, out)
}

/// Appends the line of an event by numbers. On an error, part of it may be appended.
#[tactic(auto, unfolding(crate::specs::Lines::change_text))]
fn push_change(head: LineHead, value: &Value, out: &mut Vec<u8>) -> Result<(), AllocError>
    ensures ok { OnOk result (out.new.items
        ≡ out.old.items ++ change_text (line head.input head.time head.source value.now)) }
    ensures kept { Extends out.old.items out.new.items }
{
    push_stamp(head, out)?;
    push_place(head.source, out)?;
    push_end(value, out)
}

/// Writes lines in the form of a world's trace.
#[derive(Drop)]
struct LinesFrom<'a> {
    scene: &'a Scene,
    first: u64,
}

impl<'a> WritesLines for LinesFrom<'a> {
    ghost text = { λ w. from_on (line_text w.scene.now) w.first };

    fn write_line(
        &mut self,
        head: LineHead,
        value: &Value,
        out: &mut Vec<u8>,
    ) -> Result<(), AllocError> {
        if head.input < self.first {
            return Ok(());
        }
        push_line(self.scene, head, value, out)
    }
}

/// Writes lines with the numbers of nodes and fields.
#[derive(Drop)]
struct ChangesFrom {
    first: u64,
}

impl WritesLines for ChangesFrom {
    ghost text = { λ w. from_on change_text w.first };

    fn write_line(
        &mut self,
        head: LineHead,
        value: &Value,
        out: &mut Vec<u8>,
    ) -> Result<(), AllocError> {
        if head.input < self.first {
            return Ok(());
        }
        push_change(head, value, out)
    }
}

/// Appends the lines of a trace of inputs from the number `first` on, in the form of the trace's
/// text: `<input> <seconds> <label>.<field> <value>`. Fails only if memory runs out; the buffer is
/// then unchanged.
pub fn push_lines(
    scene: &Scene,
    trace: &Trace,
    first: u64,
    out: &mut Vec<u8>,
) -> Result<(), AllocError>
    ensures ok { OnOk result (out.new.items
        ≡ out.old.items ++ flat_map (from_on (line_text scene.now) first) trace.now) }
    ensures err { OnErr result (out.new.items ≡ out.old.items) }
{
    let mut lines = LinesFrom { scene, first };
    trace.write_from(first, &mut lines, out)
}

/// Appends the lines of inputs from the number `first` on, by numbers: `<input> <seconds> <node>
/// <field> <value>`. Fails only if memory runs out; the buffer is then unchanged.
pub fn push_changes(trace: &Trace, first: u64, out: &mut Vec<u8>) -> Result<(), AllocError>
    ensures ok { OnOk result (out.new.items
        ≡ out.old.items ++ flat_map (from_on change_text first) trace.now) }
    ensures err { OnErr result (out.new.items ≡ out.old.items) }
{
    let mut changes = ChangesFrom { first };
    trace.write_from(first, &mut changes, out)
}
