//! The texts of a world.

ghost use Rattle.std.specs.Prelude.{◌≡◌, [], OnErr};
ghost use Rattle.x3d_lists.specs.Answers.{Gives};
ghost use Rattle.embed_world.specs.Looks as spec;
ghost use Rattle.embed_world.specs.declared.fault.LookFault.TheVariants.{Memory};

use crate::fault::LookFault;
use crate::lines::{push_changes, push_lines};
use crate::lists::value_fault;
use crate::world::EmbeddedWorld;
use cascade_core::{Stage, TextFault};
use embed_changes::value_now;
use scene_core::{End, Scene};
use script_boxes::StockScript;
use x3d_values::show_value;

/// Writes the lines of the trace of inputs from a number on to an empty text.
pub fn write_trace(
    stage: &Stage<StockScript>,
    first: u64,
    out: &mut Vec<u8>,
) -> Result<(), LookFault>
    requires empty { out.old.items ≡ [] }
    ensures is { Gives Memory (λ _. out.new.items) result (spec.trace_from stage.now first) }
    ensures err { OnErr result (out.new.items ≡ []) }
{
    let Some(world) = stage.world() else {
        return Err(LookFault::Spoiled);
    };
    push_lines(stage.scene(), &world.trace, first, out)?;
    Ok(())
}

/// Writes the same lines with numbers to an empty text.
pub fn write_changes(
    stage: &Stage<StockScript>,
    first: u64,
    out: &mut Vec<u8>,
) -> Result<(), LookFault>
    requires empty { out.old.items ≡ [] }
    ensures is { Gives Memory (λ _. out.new.items) result (spec.changes_from stage.now first) }
    ensures err { OnErr result (out.new.items ≡ []) }
{
    let Some(world) = stage.world() else {
        return Err(LookFault::Spoiled);
    };
    push_changes(&world.trace, first, out)?;
    Ok(())
}

/// Writes the current scene to an empty text.
pub fn write_scene(stage: &Stage<StockScript>, out: &mut Vec<u8>) -> Result<(), LookFault>
    requires empty { out.old.items ≡ [] }
    ensures is { Gives Memory (λ _. out.new.items) result (spec.scene_now stage.now) }
    ensures err { OnErr result (out.new.items ≡ []) }
{
    match stage.scene_text(out) {
        Ok(()) => Ok(()),
        Err(TextFault::Spoiled) => Err(LookFault::Spoiled),
        Err(TextFault::Memory) => Err(LookFault::Memory),
    }
}

/// Writes the word for a node's type to an empty text.
pub fn write_type(scene: &Scene, node: u32, out: &mut Vec<u8>) -> Result<(), LookFault>
    requires empty { out.old.items ≡ [] }
    ensures is { Gives Memory (λ _. out.new.items) result (spec.type_in scene.now node) }
    ensures err { OnErr result (out.new.items ≡ []) }
{
    let Some(node_type) = scene.type_at(node) else {
        return Err(LookFault::NoSuchNode);
    };
    out.extend_from_slice(node_type.name().as_bytes())?;
    Ok(())
}

/// Writes the label of a node to an empty text.
pub fn write_label(scene: &Scene, node: u32, out: &mut Vec<u8>) -> Result<(), LookFault>
    requires empty { out.old.items ≡ [] }
    ensures is { Gives Memory (λ _. out.new.items) result (spec.label_in scene.now node) }
    ensures err { OnErr result (out.new.items ≡ []) }
{
    let Some(_node_type) = scene.type_at(node) else {
        return Err(LookFault::NoSuchNode);
    };
    scene.label(node, out)?;
    Ok(())
}

/// Writes the name of a field to an empty text.
pub fn write_field(scene: &Scene, node: u32, field: u16, out: &mut Vec<u8>) -> Result<(), LookFault>
    requires empty { out.old.items ≡ [] }
    ensures is { Gives Memory (λ _. out.new.items) result (spec.field_in scene.now node field) }
    ensures err { OnErr result (out.new.items ≡ []) }
{
    if u32::from(field) < scene.field_count(node) {
        out.extend_from_slice(scene.field_name(End { node, field }).as_bytes())?;
        return Ok(());
    }
    Err(LookFault::NoSuchField)
}

/// Writes the current value of a field to an empty text.
pub fn write_value(
    stage: &Stage<StockScript>,
    node: u32,
    field: u16,
    out: &mut Vec<u8>,
) -> Result<(), LookFault>
    requires empty { out.old.items ≡ [] }
    ensures is { Gives Memory (λ _. out.new.items) result (spec.value_in stage.now node field) }
    ensures err { OnErr result (out.new.items ≡ []) }
{
    let Some(world) = stage.world() else {
        return Err(LookFault::Spoiled);
    };
    let Some(value) = value_now(stage.scene(), world.fields.as_slice(), node, field) else {
        return Err(value_fault(stage.scene(), node, field));
    };
    show_value(value, out)?;
    Ok(())
}

impl EmbeddedWorld {
    ghost use Rattle.embed_world.specs.Calls.{Makes};
    ghost use Rattle.embed_world.specs.Looks as spec;

    /// Makes the lines of the trace of inputs from the number `first` on: `<input> <seconds>
    /// <label>.<field> <value>`. From 0 on it is the whole trace. Fails with `Spoiled` or `Memory`.
    pub fn make_trace(&mut self, first: u64) -> Result<(), LookFault>
        ensures { Makes (spec.trace_from self.old.stage first) self.old result self.new }
    {
        self.text.clear();
        write_trace(&self.stage, first, &mut self.text)
    }

    /// Makes the same lines with numbers: `<input> <seconds> <node> <field> <value>`. Fails with
    /// `Spoiled` or `Memory`.
    pub fn make_changes(&mut self, first: u64) -> Result<(), LookFault>
        ensures { Makes (spec.changes_from self.old.stage first) self.old result self.new }
    {
        self.text.clear();
        write_changes(&self.stage, first, &mut self.text)
    }

    /// Makes the text of the current scene. Fails with `Spoiled` or `Memory`.
    pub fn make_scene(&mut self) -> Result<(), LookFault>
        ensures { Makes (spec.scene_now self.old.stage) self.old result self.new }
    {
        self.text.clear();
        write_scene(&self.stage, &mut self.text)
    }

    /// Makes the word for a node's type, such as `Transform`. Fails with `NoSuchNode` or `Memory`.
    pub fn make_type(&mut self, node: u32) -> Result<(), LookFault>
        ensures { Makes (spec.type_in self.old.stage.scene node) self.old result self.new }
    {
        self.text.clear();
        write_type(self.stage.scene(), node, &mut self.text)
    }

    /// Makes the label of a node, which no other node has: its DEF name if that is unique, or else
    /// `N` and its number. Fails with `NoSuchNode` or `Memory`.
    pub fn make_label(&mut self, node: u32) -> Result<(), LookFault>
        ensures { Makes (spec.label_in self.old.stage.scene node) self.old result self.new }
    {
        self.text.clear();
        write_label(self.stage.scene(), node, &mut self.text)
    }

    /// Makes the name of a field, such as `translation`. Fails with `NoSuchField` or `Memory`.
    pub fn make_field_name(&mut self, node: u32, field: u16) -> Result<(), LookFault>
        ensures { Makes (spec.field_in self.old.stage.scene node field) self.old result self.new }
    {
        self.text.clear();
        write_field(self.stage.scene(), node, field, &mut self.text)
    }

    /// Makes the text of a field's current value, such as `0 1.5 0`. A node has no text. Fails with
    /// `Spoiled`, `NoSuchField`, `NoValue` or `Memory`.
    pub fn make_value(&mut self, node: u32, field: u16) -> Result<(), LookFault>
        ensures { Makes (spec.value_in self.old.stage node field) self.old result self.new }
    {
        self.text.clear();
        write_value(&self.stage, node, field, &mut self.text)
    }
}
