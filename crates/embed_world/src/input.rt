//! The inputs of a world.

ghost use Rattle.std.specs.Prelude.{◌≡◌};
ghost use Rattle.embed_world.specs.Pointing as spec;

use crate::world::EmbeddedWorld;
use cascade_core::{ApplyFault, Work};
use x3d_values::{
    Cause, Pointer, Stamped, Vec3, is_input_number, is_input_time, is_viewer, ray_of,
};

/// Returns the pointer of viewer `who`, 0 to 63. `None` if the viewer's number, a coordinate or the
/// direction is out of its range.
pub fn pointer_of(who: u8, down: bool, origin: Vec3, dir: Vec3) -> Option<Pointer>
    ensures { result ≡ spec.pointer_of who down (spec.ray_of origin dir) }
{
    let Some(ray) = ray_of(origin, dir) else {
        return None;
    };
    if !is_viewer(who) {
        return None;
    }
    Some(Pointer::new(who, down, ray))
}

/// Returns the input with this number, at this time. `None` unless the number is 1 to 2^48 - 1 and
/// the time is 1 to 10^18 microseconds.
pub fn stamped(number: u64, time: i64, cause: Cause) -> Option<Stamped>
    ensures { result ≡ spec.stamped number time cause }
{
    if !is_input_number(number) {
        return None;
    }
    if !is_input_time(time) {
        return None;
    }
    Some(Stamped::new(number, time, cause))
}

impl EmbeddedWorld {
    ghost use Rattle.embed_world.specs.Calls.{Applies};

    /// Applies the next input, as `Stage::apply` of cascade_core does.
    pub fn apply(&mut self, input: &Stamped) -> Result<Work, ApplyFault>
        ensures { Applies self.old input.now result self.new }
    {
        self.stage.apply(input)
    }
}
