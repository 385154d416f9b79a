//! The nodes in the node fields of a node.

ghost use Rattle.std.specs.Prelude.{◌≡◌, ◌+◌, ◌<◌, ◌++◌, ◌^◌, OnOk, length, map};
ghost use Rattle.std.specs.Option.{option_copied};
ghost use Rattle.x3d_values.specs.Tables.{entry};
ghost use Rattle.scene_core.specs.Parts as spec;
ghost use Rattle.scene_core.specs.Shape.{declaration_entry};

use crate::given::{all_given, given};
use crate::row::numbered_fields;
use classic_tree::{Declaration, RawValue};
use proto_flat::{FlatField, FlatNode};
use std::alloc::{AllocError, Global};
use x3d_values::{Field, FieldType, fields_of};

/// Returns the nodes in a value, by their numbers, in its order.
pub fn inner_nodes(value: &RawValue<u32>) -> &[u32]
    ensures { result.now ≡ spec.inner_nodes value.now }
{
    match value {
        RawValue::Node(node) => std::slice::from_ref(node),
        RawValue::NodeList(nodes) => nodes.as_slice(),
        _ => &[],
    }
}

/// Appends the nodes in the node fields of a node: first the fields of its type in table order,
/// then the fields that it declares.
pub(crate) fn push_parts(
    alloc: Global,
    node: &FlatNode,
    out: &mut Vec<u32>,
) -> Result<(), AllocError>
    ensures { OnOk result (out.new.items ≡ out.old.items ++ spec.parts node.now) }
{
    let fields = node.fields.as_slice();
    let rows = fields_of(node.node_type);
    push_parts_from(fields, 0, rows, out)?;
    let interface = numbered_fields(node.node_type, node.interface.as_slice());
    push_declared_parts(alloc, fields, rows.len(), interface, out)
}

/// Appends the nodes in a field of type `field_type` to which a node gives `field`.
fn push_given(
    field_type: FieldType,
    field: Option<&FlatField>,
    out: &mut Vec<u32>,
) -> Result<(), AllocError>
    ensures { OnOk result
        (out.new.items ≡ out.old.items ++ spec.parts_in field_type (option_copied field.entry)) }
{
    if !field_type.holds_nodes() {
        return Ok(());
    }
    let Some(field) = field else {
        return Ok(());
    };
    out.extend_from_slice(inner_nodes(&field.value))
}

fn push_parts_from(
    fields: &[FlatField],
    number: usize,
    rows: &[Field],
    out: &mut Vec<u32>,
) -> Result<(), AllocError>
    requires { number + length rows.now < 2 ^ 16 }
    ensures { OnOk result
        (out.new.items ≡ out.old.items ++ spec.parts_from fields.now number (map entry rows.now)) }
{
    match rows {
        [] => Ok(()),
        [row, others @ ..] => {
            push_given(row.field_type, given(fields, number), out)?;
            push_parts_from(fields, number + 1, others, out)
        }
    }
}

/// Appends the nodes in the declared fields, which are numbered from `number` on.
fn push_declared_parts(
    alloc: Global,
    fields: &[FlatField],
    number: usize,
    interface: &[Declaration<u32>],
    out: &mut Vec<u32>,
) -> Result<(), AllocError>
    ensures { OnOk result
        (out.new.items ≡ out.old.items
        ++ spec.parts_from fields.now number (map declaration_entry interface.now)) }
{
    let given = all_given(alloc, fields, number, interface.len())?;
    for i in 0..interface.len() {
        push_given(interface[i].field_type, given[i], out)?;
    }
    Ok(())
}
