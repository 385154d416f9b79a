//! The numbers of a world.

ghost use Rattle.std.specs.Prelude.{◌≡◌, [], OnErr};
ghost use Rattle.x3d_lists.specs.Answers.{Gives};
ghost use Rattle.embed_world.specs.Looks as spec;
ghost use Rattle.embed_world.specs.declared.fault.LookFault.TheVariants.{Memory};

use crate::fault::LookFault;
use crate::meet::met_by;
use crate::world::EmbeddedWorld;
use cascade_core::Stage;
use embed_changes::{push_nodes, push_numbers, value_now};
use embed_scene::push_scripts;
use scene_core::Scene;
use script_boxes::StockScript;
use std::alloc::Global;
use x3d_values::Ray;

/// Where a ray enters a box: at `n / m` of the way along its direction. `m` is above 0.
#[derive(Clone, Copy)]
pub struct ListEntry {
    pub n: u64,
    pub m: u64,
}

/// Writes the roots to an empty list.
pub fn write_roots(scene: &Scene, out: &mut Vec<i64>) -> Result<(), LookFault>
    requires empty { out.old.items ≡ [] }
    ensures is { Gives Memory (λ _. out.new.items) result (spec.roots_in scene.now) }
    ensures err { OnErr result (out.new.items ≡ []) }
{
    let Ok(()) = push_nodes(scene.roots(), out) else {
        out.clear();
        return Err(LookFault::Memory);
    };
    Ok(())
}

/// Writes the list `children` of a node to an empty list.
pub fn write_children(scene: &Scene, node: u32, out: &mut Vec<i64>) -> Result<(), LookFault>
    requires empty { out.old.items ≡ [] }
    ensures is { Gives Memory (λ _. out.new.items) result (spec.children_in scene.now node) }
    ensures err { OnErr result (out.new.items ≡ []) }
{
    let Some(_node_type) = scene.type_at(node) else {
        return Err(LookFault::NoSuchNode);
    };
    let Ok(()) = push_nodes(scene.children(node), out) else {
        out.clear();
        return Err(LookFault::Memory);
    };
    Ok(())
}

/// Returns why a field has no value: there is no such field, or it only sends or takes events.
pub(crate) fn value_fault(scene: &Scene, node: u32, field: u16) -> LookFault
    ensures { result ≡ spec.value_fault scene.now node field }
{
    if u32::from(field) < scene.field_count(node) {
        return LookFault::NoValue;
    }
    LookFault::NoSuchField
}

/// Writes the node and the kind of each script to an empty list.
pub fn write_scripts(alloc: Global, scene: &Scene, out: &mut Vec<i64>) -> Result<(), LookFault>
    requires empty { out.old.items ≡ [] }
    ensures is { Gives Memory (λ _. out.new.items) result (spec.scripts_listed scene.now) }
    ensures err { OnErr result (out.new.items ≡ []) }
{
    let Ok(()) = push_scripts(alloc, scene, out) else {
        out.clear();
        return Err(LookFault::Memory);
    };
    Ok(())
}

/// Writes the numbers of a field's current value to an empty list.
pub fn write_numbers(
    stage: &Stage<StockScript>,
    node: u32,
    field: u16,
    out: &mut Vec<i64>,
) -> Result<(), LookFault>
    requires empty { out.old.items ≡ [] }
    ensures is { Gives Memory (λ _. out.new.items) result (spec.numbers_in stage.now node field) }
    ensures err { OnErr result (out.new.items ≡ []) }
{
    let Some(world) = stage.world() else {
        return Err(LookFault::Spoiled);
    };
    let Some(value) = value_now(stage.scene(), world.fields.as_slice(), node, field) else {
        return Err(value_fault(stage.scene(), node, field));
    };
    let Ok(()) = push_numbers(value, out) else {
        out.clear();
        return Err(LookFault::Memory);
    };
    Ok(())
}

/// Writes the sensors that concern what a ray meets to an empty list, and returns where that is.
pub fn write_sensors(
    stage: &Stage<StockScript>,
    ray: Ray,
    out: &mut Vec<i64>,
) -> Result<Option<ListEntry>, LookFault>
    requires empty { out.old.items ≡ [] }
    ensures is { Gives Memory (λ met. (met, out.new.items)) result (spec.meeting_in stage.now ray) }
    ensures err { OnErr result (out.new.items ≡ []) }
{
    let Some(world) = stage.world() else {
        return Err(LookFault::Spoiled);
    };
    let Some(met) = met_by(stage.scene(), world.fields.as_slice(), ray) else {
        return Ok(None);
    };
    let Ok(()) = push_nodes(met.sensors.as_slice(), out) else {
        out.clear();
        return Err(LookFault::Memory);
    };
    Ok(Some(ListEntry {
        n: met.hit.n,
        m: met.hit.m,
    }))
}

impl EmbeddedWorld {
    ghost use Rattle.embed_world.specs.Calls.{Lists, Meets};
    ghost use Rattle.embed_world.specs.Looks as spec;

    /// Lists the roots of the scene by their numbers. Fails with `Memory`; the list is then empty.
    pub fn list_roots(&mut self) -> Result<(), LookFault>
        ensures { Lists (spec.roots_in self.old.stage.scene) self.old result self.new }
    {
        self.numbers.clear();
        write_roots(self.stage.scene(), &mut self.numbers)
    }

    /// Lists the nodes in the field `children` of a node. The list is empty if the node has no such
    /// field. Fails with `NoSuchNode` or `Memory`.
    pub fn list_children(&mut self, node: u32) -> Result<(), LookFault>
        ensures { Lists (spec.children_in self.old.stage.scene node) self.old result self.new }
    {
        self.numbers.clear();
        write_children(self.stage.scene(), node, &mut self.numbers)
    }

    /// Lists the numbers of a field's current value: truths as 1 and 0, integers, millionths and
    /// microseconds unchanged, vectors and colors part by part, nodes as their numbers. A text has
    /// none. Fails with `Spoiled`, `NoSuchField`, `NoValue` or `Memory`.
    pub fn list_value(&mut self, node: u32, field: u16) -> Result<(), LookFault>
        ensures { Lists (spec.numbers_in self.old.stage node field) self.old result self.new }
    {
        self.numbers.clear();
        write_numbers(&self.stage, node, field, &mut self.numbers)
    }

    /// Lists the node and the kind of each script that the scene runs, in the order of their
    /// numbers. Fails with `Memory`.
    pub fn list_scripts(&mut self) -> Result<(), LookFault>
        ensures { Lists (spec.scripts_listed self.old.stage.scene) self.old result self.new }
    {
        self.numbers.clear();
        let alloc = self.stage.allocator();
        write_scripts(alloc, self.stage.scene(), &mut self.numbers)
    }

    /// Returns where a ray would enter the box that it hits first, if it hits one, and lists the
    /// sensors that the hit concerns: the enabled pointing sensors in the lowest list along its
    /// path that has one. Fails with `Spoiled` or `Memory`.
    pub fn list_sensors(&mut self, ray: Ray) -> Result<Option<ListEntry>, LookFault>
        ensures { Meets (spec.meeting_in self.old.stage ray) self.old result self.new }
    {
        self.numbers.clear();
        write_sensors(&self.stage, ray, &mut self.numbers)
    }
}
