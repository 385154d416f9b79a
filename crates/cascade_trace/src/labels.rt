//! The texts of outputs, each followed by a space. Each text is made once and kept in one buffer.

ghost use Rattle.std.specs.Prelude.{◌≡◌, ◌-◌, ◌≤◌, ◌++◌, All, IfSome, OnOk, Some, drop, length, slice_get, take, true};
ghost use Rattle.x3d_lists.specs.Extends.{Extends};
ghost use Rattle.cascade_trace.specs.Ends.{same_end};
ghost use Rattle.cascade_trace.specs.LineText.{head_text, source_text};
ghost use Rattle.cascade_trace.specs.Spans.{IsHead};

use crate::places::{place_of, push_starts, same_end};
use scene_core::{End, Scene};
use std::alloc::{AllocError, Global};
use std::marker::Model;

/// The place of an output's text in a buffer.
#[derive(Clone, Copy)]
pub struct Span {
    pub source: End,
    pub start: usize,
    pub end: usize,
}

/// Appends the label of a node, a dot and the name of its field. On `AllocError`, `out` may hold a
/// part of them.
#[tactic(auto, unfolding(crate::specs::LineText::source_text))]
pub fn push_source(scene: &Scene, source: End, out: &mut Vec<u8>) -> Result<(), AllocError>
    ensures ok { OnOk result (out.new.items ≡ out.old.items ++ source_text scene.now source) }
    ensures kept { Extends out.old.items out.new.items }
{
    scene.label(source.node, out)?;
    out.push(b'.')?;
    out.extend_from_slice(scene.field_name(source).as_bytes())
}

/// Appends the text of an output and a space. On `AllocError`, `out` may hold a part of them.
fn push_head(scene: &Scene, source: End, out: &mut Vec<u8>) -> Result<(), AllocError>
    ensures ok { OnOk result (out.new.items ≡ out.old.items ++ head_text scene.now source) }
    ensures kept { Extends out.old.items out.new.items }
{
    push_source(scene, source, out)?;
    out.push(b' ')?;
    Ok(())
}

/// Returns the span of that number, if it belongs to this output.
fn span_at(spans: &[Span], number: usize, source: End) -> Option<Span>
    ensures among { IfSome result (λ span. slice_get spans.now number ≡ Some span) }
    ensures source { IfSome result (λ span. same_end span.source source ≡ true) }
{
    let Some(span) = spans.get(number) else {
        return None;
    };
    if !same_end(span.source, source) {
        return None;
    }
    Some(*span)
}

/// Returns the part of the buffer that a span covers.
fn part_of(text: &[u8], span: Span) -> &[u8]
    requires ordered { span.start ≤ span.end }
    requires within { span.end ≤ length text.now }
    ensures { result.now ≡ take (span.end - span.start) (drop span.start text.now) }
{
    &text[span.start..span.end]
}

/// Returns the text of an output, if the span of that number belongs to it.
fn text_at<'a>(
    scene: &Scene,
    spans: &[Span],
    text: &'a [u8],
    number: usize,
    source: End,
) -> Option<&'a [u8]>
    requires { All (IsHead scene.now text.now) spans.now }
    ensures { IfSome result (λ found. found.now ≡ head_text scene.now source) }
{
    let Some(span) = span_at(spans, number, source) else {
        return None;
    };
    Some(part_of(text, span))
}

/// Appends the text of an output to the buffer, and its span to the spans. On `AllocError`, `text`
/// may hold a part of the text.
fn push_span(
    scene: &Scene,
    spans: &mut Vec<Span>,
    text: &mut Vec<u8>,
    source: End,
) -> Result<(), AllocError>
    requires { All (IsHead scene.now text.old.items) spans.old.items }
    ensures { All (IsHead scene.now text.new.items) spans.new.items }
{
    let start = text.len();
    push_head(scene, source, text)?;
    let end = text.len();
    spans.push(Span { source, start, end })?;
    Ok(())
}

/// The texts of a scene's outputs, each made when it is first requested.
#[derive(Drop)]
pub struct SourceTexts<'a> {
    scene: &'a Scene,
    /// Where the places of each node's outputs start, followed by where those of the last node end.
    starts: Vec<usize>,
    /// The number of each output's span, by the place of the output, once its text is made.
    numbers: Vec<u32>,
    spans: Vec<Span>,
    text: Vec<u8>,
}

impl<'a> Model for SourceTexts<'a> {
    ghost use Rattle.std.specs.Prelude.{All};
    ghost use Rattle.scene_core.specs.Scene.{SceneView};
    ghost use Rattle.cascade_trace.specs.Spans.{IsHead};

    ghost Value = { SceneView };

    ghost view = { λ s. s.scene.now };

    ghost invariant = { λ s. All (IsHead s.scene.now s.text.items) s.spans.items };
}

impl<'a> SourceTexts<'a> {
    ghost use Rattle.std.specs.Prelude.{◌≡◌, ◌++◌, IfOk, IfSome, OnOk};
    ghost use Rattle.x3d_lists.specs.Extends.{Extends};
    ghost use Rattle.cascade_trace.specs.LineText.{head_text};

    /// Makes an object without any texts. Fails with `AllocError` if memory runs out.
    pub fn new(alloc: Global, scene: &'a Scene) -> Result<SourceTexts<'a>, AllocError>
        ensures { IfOk result (λ texts. texts ≡ scene.now) }
    {
        let mut starts = Vec::new(alloc);
        let mut places = Vec::new(alloc);
        push_starts(scene, &mut starts, &mut places)?;
        let numbers = vec![in alloc; 0; places.len()]?;
        Ok(SourceTexts {
            scene,
            starts,
            numbers,
            spans: Vec::new(alloc),
            text: Vec::new(alloc),
        })
    }

    /// Returns the text of an output, if it has been made.
    fn get(&self, source: End) -> Option<&[u8]>
        ensures { IfSome result (λ text. text.now ≡ head_text self.now source) }
    {
        let Some(place) = place_of(&self.starts, source) else {
            return None;
        };
        let Some(number) = self.numbers.get(place) else {
            return None;
        };
        let number = *number as usize;
        text_at(self.scene, &self.spans, &self.text, number, source)
    }

    /// Makes the text of an output, if the output has a place.
    fn make(&mut self, source: End) -> Result<(), AllocError>
        ensures { self.new ≡ self.old }
    {
        let Some(place) = place_of(&self.starts, source) else {
            return Ok(());
        };
        let number = u32::try_from(self.spans.len()).unwrap_or(0);
        push_span(self.scene, &mut self.spans, &mut self.text, source)?;
        if place < self.numbers.len() {
            self.numbers[place] = number;
        }
        Ok(())
    }

    /// Appends the text of an output and a space. On `AllocError`, `out` may hold a part of them.
    pub fn push(&mut self, source: End, out: &mut Vec<u8>) -> Result<(), AllocError>
        ensures ok { OnOk result (out.new.items ≡ out.old.items ++ head_text self.old source) }
        ensures same { self.new ≡ self.old }
        ensures kept { Extends out.old.items out.new.items }
    {
        if let Some(text) = self.get(source) {
            return out.extend_from_slice(text);
        }
        self.make(source)?;
        push_head(self.scene, source, out)
    }
}
