//! Which events scripts take.

ghost use Rattle.std.specs.Prelude.{◌≡◌, slice_get};
ghost use Rattle.script_host.specs.Events.{number_fits, event_fits, takes_event};

use crate::kinds::inputs;
use x3d_values::{FieldType, Kind, coordinate_fits};

/// The largest absolute value of a time, in microseconds.
const MAX_TIME: u64 = x3d_values::MAX_TIME as u64;

fn number_fits(field_type: FieldType, number: i64) -> bool
    ensures { result ≡ number_fits field_type number }
{
    match field_type {
        FieldType::SFBool => number == 0 || number == 1,
        FieldType::SFFloat => coordinate_fits(number),
        FieldType::SFTime => number.unsigned_abs() <= MAX_TIME,
        _ => false,
    }
}

fn event_fits(field_type: FieldType, event: [i64; 3]) -> bool
    ensures { result ≡ event_fits field_type event }
{
    let [first, second, third] = event;
    number_fits(field_type, first) && second == 0 && third == 0
}

/// Reports whether an event is a value of the type of input `input`. An input that the kind doesn't
/// have takes any event.
pub fn takes_event(kind: Kind, input: u32, event: [i64; 3]) -> bool
    ensures { result ≡ takes_event kind input event }
{
    match inputs(kind).get(input as usize) {
        Some(field) => event_fits(field.field_type, event),
        None => true,
    }
}
