//! What nodes keep before any event.

ghost use Rattle.std.specs.Prelude.{◌≡◌, IfOk, None, map};
ghost use Rattle.std.specs.List.{zip};
ghost use Rattle.std.specs.Option.{option_map, option_map_or};
ghost use Rattle.scene_core.specs.Scene as spec;
ghost use Rattle.scene_core.specs.Scene.{shape_of};
ghost use Rattle.scene_core.specs.Shape.{row_entry, rows_of};

use crate::row::{NodeField, count_by, row_by};
use crate::scene::SceneNode;
use std::alloc::{AllocError, Global};
use x3d_lists::Items;
use x3d_values::{Duplicate, Fields, Position, Value};

/// Returns what each node keeps, by node number.
pub(crate) fn state_of(alloc: Global, nodes: &[SceneNode]) -> Result<Vec<Fields>, AllocError>
    ensures { IfOk result (λ fields. fields.items ≡ map spec.fields_of nodes.now) }
{
    let mut state = Vec::with_capacity(alloc, nodes.len())?;
    for node in nodes {
        state.push(fields_kept(alloc, node)?)?;
    }
    Ok(state)
}

/// Returns what a node keeps of a field. Returns `None` if there is no field.
fn kept(
    alloc: Global,
    row: Option<NodeField<'_>>,
    value: &Option<Value>,
) -> Result<Option<Value>, AllocError>
    ensures { IfOk result (λ copy. copy
        ≡ option_map_or (λ e. spec.kept e value.now) (option_map row_entry row.entry) None) }
{
    let Some(row) = row else {
        return Ok(None);
    };
    if row.access.is_kept(row.field_type) {
        value.duplicate(alloc)
    } else {
        Ok(None)
    }
}

/// Returns what is kept of each field, in the order of the fields.
fn values_kept(alloc: Global, node: &SceneNode) -> Result<Items<Option<Value>>, AllocError>
    ensures { IfOk result (λ all. all
        ≡ map (λ p. spec.kept p.0 p.1) (zip (rows_of (shape_of node.now)) node.now.values)) }
{
    let declared = node.declared.as_slice();
    let values = node.values.as_slice();
    let count = count_by(node.node_type, declared) as usize;
    let mut made = Items::from_vec(Vec::with_capacity(alloc, values.len())?);
    for number in 0..count.min(values.len()) {
        let row = row_by(node.node_type, declared, number as u16);
        let Ok(copy) = kept(alloc, row, &values[number]) else {
            drop(made);
            return Err(AllocError);
        };
        let Ok(()) = made.push(copy) else {
            drop(made);
            return Err(AllocError);
        };
    }
    Ok(made)
}

fn fields_kept(alloc: Global, node: &SceneNode) -> Result<Fields, AllocError>
    ensures { IfOk result (λ fields. fields ≡ spec.fields_of node.now) }
{
    Ok(Fields {
        values: values_kept(alloc, node)?,
        position: Position { at: None },
    })
}
