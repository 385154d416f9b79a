//! What a Script that isn't run does at an event.

ghost use Rattle.std.specs.Prelude.{◌≡◌, [], OnOk, option_map, slice_get};
ghost use Rattle.react_core.specs.Access.{names_nodes};
ghost use Rattle.scene_core.specs.Scene.{rows_at};
ghost use Rattle.scene_core.specs.Shape.{row_entry};
ghost use Rattle.cascade_world.specs.Access.{is_set};
ghost use Rattle.cascade_world.specs.Answers.{answered, not_run};

use crate::world::WorldData;
use react_core::Outbox;
use scene_core::{End, NodeField, Scene};
use std::alloc::{AllocError, Global};
use x3d_values::Value;

fn names_nodes(value: &Value) -> bool
    ensures { result ≡ names_nodes value.now }
{
    matches!(value, Value::SFNode(_) | Value::MFNode(_))
}

/// Reports whether an event with this value sets the field that it comes to: an inputOutput field
/// of the value's type that is not a node field.
fn is_set(field: Option<NodeField<'_>>, value: &Value) -> bool
    ensures { result ≡ is_set value.now (option_map row_entry field.entry) }
{
    match field {
        Some(row) => {
            row.access.is_exposed() && row.field_type == value.field_type() && !names_nodes(value)
        }
        None => false,
    }
}

impl WorldData {
    /// Handles an event at a Script that isn't run: sets and sends one of its inputOutput fields.
    pub(crate) fn set_script(
        &mut self,
        alloc: Global,
        scene: &Scene,
        target: End,
        value: &Value,
        out: &mut Outbox,
    ) -> Result<(), AllocError>
        requires empty { out.old.items ≡ [] }
        ensures world { OnOk result (self.new
            ≡ answered self.old
            (not_run self.old target value.now
            (slice_get (rows_at scene.now target.node) target.field)
            (slice_get self.old.fields target.node))) }
        ensures replies { OnOk result (out.new.items
            ≡ (not_run self.old target value.now
            (slice_get (rows_at scene.now target.node) target.field)
            (slice_get self.old.fields target.node)).replies) }
    {
        if !is_set(scene.row(target.node, target.field), value) {
            return Ok(());
        }
        self.fields.keep(alloc, target, value, out)
    }
}
