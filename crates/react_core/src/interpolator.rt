//! Interpolators (ISO/IEC 19775-1, interpolation component).

ghost use Rattle.std.specs.Prelude.{◌≡◌, ◌≢◌, [], IfOk, IsOk, OnOk, OnErr};
ghost use Rattle.std.specs.Option.{option_copied};
ghost use Rattle.x3d_values.specs.declared.node_type.NodeType.TheVariants.{CoordinateInterpolator};
ghost use Rattle.react_core.specs.Reaction.{interpolator, interpolator_value, stored};
ghost use Rattle.react_core.specs.Stored.{numbers_of};

use crate::interpolation::interpolate;
use crate::numbers::{KEY, KEY_VALUE, SET_FRACTION, VALUE_CHANGED};
use crate::outbox::{Outbox, SentEvent};
use crate::stored::{number_of, numbers_of};
use std::alloc::{AllocError, Global};
use x3d_values::{Fields, Items, NodeType, Value};

fn stored_keys(fields: &Fields) -> Option<&Items<i64>>
    ensures { option_copied result ≡ stored numbers_of fields.now KEY }
{
    numbers_of(fields.value(KEY)?)
}

/// Returns the value of an interpolator for the fraction in `value`.
fn interpolator_value(
    alloc: Global,
    node_type: NodeType,
    fields: &Fields,
    value: &Value,
) -> Result<Option<Value>, AllocError>
    ensures value { IfOk result
        (λ changed. changed ≡ interpolator_value node_type fields.now value.now) }
    ensures no_memory { node_type ≢ CoordinateInterpolator → IsOk result }
{
    let Some(fraction) = number_of(value) else {
        return Ok(None);
    };
    let Some(keys) = stored_keys(fields) else {
        return Ok(None);
    };
    let Some(values) = fields.value(KEY_VALUE) else {
        return Ok(None);
    };
    let changed = interpolate(alloc, node_type, keys.as_slice(), values, fraction)?;
    Ok(changed)
}

/// Puts what an interpolator sends at an event into the outbox. Only a CoordinateInterpolator takes
/// memory; fails if that memory is refused, and then sends nothing.
pub fn interpolator(
    alloc: Global,
    node_type: NodeType,
    fields: &Fields,
    input: u16,
    value: &Value,
    out: &mut Outbox,
) -> Result<(), AllocError>
    requires empty { out.old.items ≡ [] }
    ensures fields { (interpolator node_type fields.now input value.now).fields ≡ fields.now }
    ensures replies { OnOk result
        (out.new.items ≡ (interpolator node_type fields.now input value.now).replies) }
    ensures refused_replies { OnErr result (out.new.items ≡ []) }
    ensures no_memory { node_type ≢ CoordinateInterpolator → IsOk result }
{
    if input != SET_FRACTION {
        return Ok(());
    }
    if let Some(changed) = interpolator_value(alloc, node_type, fields, value)? {
        out.push(SentEvent {
            field: VALUE_CHANGED,
            value: changed,
        });
    }
    Ok(())
}
