//! The text of a trace.

ghost use Rattle.std.specs.Prelude.{◌≡◌, ◌++◌, [], ◌∷◌, OnErr, OnOk};
ghost use Rattle.std.specs.List.{flat_map};
ghost use Rattle.x3d_lists.specs.Extends.{Extends};
ghost use Rattle.cascade_trace.specs.LineText.{line_text, source_text, stamp_text};
ghost use Rattle.x3d_values.specs.ValueText.{value_text};

use crate::labels::SourceTexts;
use crate::lines::{LineHead, Moment, WritesLines};
use crate::trace::Trace;
use itoa::Buffer;
use scene_core::{End, Scene};
use std::alloc::{AllocError, Global};
use std::marker::Model;
use x3d_numerals::push_number;
use x3d_values::{Value, show_value};

/// The bytes reserved for a line in advance. The buffer grows if lines are longer.
const LINE_ROOM: usize = 32;

/// Appends the number and the time of an input. On `AllocError`, `out` may hold a part of them.
#[tactic(auto, unfolding(crate::specs::LineText::stamp_text))]
fn push_stamp(moment: Moment, out: &mut Vec<u8>) -> Result<(), AllocError>
    ensures ok { OnOk result (out.new.items
        ≡ out.old.items ++ stamp_text moment.input moment.time) }
    ensures kept { Extends out.old.items out.new.items }
{
    let mut buffer = Buffer::new();
    out.extend_from_slice(buffer.format(moment.input).as_bytes())?;
    out.push(b' ')?;
    push_number(moment.time, out)?;
    out.push(b' ')?;
    Ok(())
}

/// Appends the value of an event and a line feed. On `AllocError`, `out` may hold a part of them.
fn push_end(value: &Value, out: &mut Vec<u8>) -> Result<(), AllocError>
    ensures ok { OnOk result (out.new.items ≡ out.old.items ++ value_text value.now ++ 10 ∷ []) }
    ensures kept { Extends out.old.items out.new.items }
{
    show_value(value, out)?;
    out.push(b'\n')?;
    Ok(())
}

/// Appends the line of an event. On `AllocError`, `out` may hold a part of it.
fn push_line(
    stamp: &[u8],
    heads: &mut SourceTexts<'_>,
    source: End,
    value: &Value,
    out: &mut Vec<u8>,
) -> Result<(), AllocError>
    ensures ok { OnOk result (out.new.items ≡ out.old.items ++ stamp.now
        ++ source_text heads.old source ++ 32 ∷ value_text value.now ++ 10 ∷ []) }
    ensures same { heads.new ≡ heads.old }
    ensures kept { Extends out.old.items out.new.items }
{
    out.extend_from_slice(stamp)?;
    heads.push(source, out)?;
    push_end(value, out)
}

/// The text of an input's number and time, which many lines share.
#[derive(Drop)]
struct Stamp {
    moment: Option<Moment>,
    text: Vec<u8>,
}

impl Model for Stamp {
    ghost use Rattle.std.specs.Prelude.{◌≡◌, IfSome, Option};
    ghost use Rattle.cascade_trace.specs.LineText.{stamp_text};
    ghost use Rattle.cascade_trace.specs.declared.lines.Moment.{Moment};

    ghost Value = { Option Moment };

    ghost view = { λ s. s.moment };

    ghost invariant = { λ s. IfSome s.moment (λ m. s.text.items ≡ stamp_text m.input m.time) };
}

impl Stamp {
    ghost use Rattle.std.specs.Prelude.{◌≡◌, IfSome, None, OnOk, Some};
    ghost use Rattle.cascade_trace.specs.LineText.{stamp_text};

    /// Makes a stamp without a text.
    fn new(alloc: Global) -> Stamp
        ensures { result ≡ None }
    {
        Stamp {
            moment: None,
            text: Vec::new(alloc),
        }
    }

    /// Sets the input of the following lines.
    fn set(&mut self, moment: Moment) -> Result<(), AllocError>
        ensures { OnOk result (self.new ≡ Some moment) }
    {
        if self.moment == Some(moment) {
            return Ok(());
        }
        self.moment = None;
        self.text.clear();
        push_stamp(moment, &mut self.text)?;
        self.moment = Some(moment);
        Ok(())
    }

    fn as_slice(&self) -> &[u8]
        ensures { IfSome self.now (λ m. result.now ≡ stamp_text m.input m.time) }
    {
        &self.text
    }
}

/// Writes lines as texts.
#[derive(Drop)]
struct LineTexts<'a> {
    heads: SourceTexts<'a>,
    stamp: Stamp,
}

impl<'a> WritesLines for LineTexts<'a> {
    ghost text = { λ lines. line_text lines.heads };

    #[tactic(auto, unfolding(crate::specs::LineText::line_text))]
    fn write_line(
        &mut self,
        head: LineHead,
        value: &Value,
        out: &mut Vec<u8>,
    ) -> Result<(), AllocError> {
        let moment = Moment {
            input: head.input,
            time: head.time,
        };
        self.stamp.set(moment)?;
        let stamp = self.stamp.as_slice();
        push_line(stamp, &mut self.heads, head.source, value, out)
    }
}

/// Appends the text of a trace: for each event a line `<input> <seconds> <label>.<field> <value>`.
/// On `AllocError` the buffer is unchanged.
pub fn push_trace(scene: &Scene, trace: &Trace, out: &mut Vec<u8>) -> Result<(), AllocError>
    ensures ok { OnOk result (out.new.items
        ≡ out.old.items ++ flat_map (line_text scene.now) trace.now) }
    ensures err { OnErr result (out.new.items ≡ out.old.items) }
{
    let alloc = *out.allocator();
    out.reserve((trace.len() as usize).saturating_mul(LINE_ROOM))?;
    let mut lines = LineTexts {
        heads: SourceTexts::new(alloc, scene)?,
        stamp: Stamp::new(alloc),
    };
    trace.write(&mut lines, out)
}
