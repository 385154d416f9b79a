//! Copies of values, without allocation if the value needs none.

ghost use Rattle.std.specs.Prelude.{◌≡◌, IsTrue, IfOk, IsOk};
ghost use Rattle.react_core.specs.Stored.{is_plain, plain_of};

use std::alloc::{AllocError, Global};
use x3d_values::{Value, clone_value};

/// Returns the copy of a value that is neither a string nor a list.
fn plain_copy(value: &Value) -> Option<Value>
    ensures { result ≡ plain_of value.now }
{
    match value {
        Value::SFBool(truth) => Some(Value::SFBool(*truth)),
        Value::SFInt32(number) => Some(Value::SFInt32(*number)),
        Value::SFFloat(number) => Some(Value::SFFloat(*number)),
        Value::SFTime(time) => Some(Value::SFTime(*time)),
        Value::SFVec2f(vector) => Some(Value::SFVec2f(*vector)),
        Value::SFVec3f(vector) => Some(Value::SFVec3f(*vector)),
        Value::SFColor(color) => Some(Value::SFColor(*color)),
        Value::SFNode(node) => Some(Value::SFNode(*node)),
        Value::SFString(_)
        | Value::MFBool(_)
        | Value::MFInt32(_)
        | Value::MFFloat(_)
        | Value::MFTime(_)
        | Value::MFString(_)
        | Value::MFVec2f(_)
        | Value::MFVec3f(_)
        | Value::MFColor(_)
        | Value::MFNode(_) => None,
    }
}

/// Returns a copy that equals the value. Only strings and lists take memory; fails if that memory
/// is refused.
pub fn copy_of(alloc: Global, value: &Value) -> Result<Value, AllocError>
    ensures copy { IfOk result (λ copy. copy ≡ value.now) }
    ensures no_memory { IsTrue (is_plain value.now) → IsOk result }
{
    match plain_copy(value) {
        Some(copy) => Ok(copy),
        None => clone_value(alloc, value),
    }
}
