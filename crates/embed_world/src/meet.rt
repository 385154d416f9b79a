//! What a ray would meet.

ghost use Rattle.std.specs.Prelude.{◌≡◌, IfSome};
ghost use Rattle.std.specs.Option.{option_map};
ghost use Rattle.pick_core.specs.Sensors.{sensors_of as sensors_in};
ghost use Rattle.embed_world.specs.Meeting.{hit_by};

use arrayvec::ArrayVec;
use pick_core::{Hit, pick, sensors_of};
use scene_core::Scene;
use x3d_values::{Fields, MAX_SENSORS, Ray};

/// The box that a ray hits first, and the sensors that the hit concerns, by their numbers.
#[derive(Drop)]
pub struct Meeting {
    pub hit: Hit,
    pub sensors: ArrayVec<u32, MAX_SENSORS>,
}

/// Returns what a ray meets, if `state` holds what each node of the scene keeps. `None` if the ray
/// hits no box. Needs no memory.
pub fn met_by(scene: &Scene, state: &[Fields], ray: Ray) -> Option<Meeting>
    ensures hit { option_map (λ m. m.hit) result ≡ hit_by scene.now state.now ray }
    ensures sensors { IfSome result (λ m. m.sensors.items
        ≡ sensors_in scene.now state.now m.hit.path) }
{
    let Some(hit) = pick(scene, state, ray) else {
        return None;
    };
    let sensors = sensors_of(scene, state, &hit);
    Some(Meeting { hit, sensors })
}
