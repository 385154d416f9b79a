//! Which fields an event sets.

ghost use Rattle.std.specs.Prelude.{◌≡◌};
ghost use Rattle.react_core.specs.Access.{is_kept, names_nodes};

use x3d_values::{NodeType, Value, field_at};

fn names_nodes(value: &Value) -> bool
    ensures { result ≡ names_nodes value.now }
{
    matches!(value, Value::SFNode(_) | Value::MFNode(_))
}

/// Reports whether the event sets a field: an inputOutput field of the value's type that isn't a
/// node field.
pub fn is_kept(node_type: NodeType, input: u16, value: &Value) -> bool
    ensures { result ≡ is_kept node_type input value.now }
{
    match field_at(node_type, input) {
        Some(row) => {
            row.access.is_exposed() && row.field_type == value.field_type() && !names_nodes(value)
        }
        None => false,
    }
}
