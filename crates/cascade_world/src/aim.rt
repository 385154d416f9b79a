//! Where a viewer points: the sensors that the viewer's ray is inside of, and the viewer's button.

ghost use Rattle.std.specs.Prelude.{◌≡◌, ◌<◌, ◌≤◌, pos, map, length, take, None};
ghost use Rattle.std.specs.Option.{option_copied, option_map};
ghost use Rattle.x3d_values.specs.Ranges.{max_sensors};
ghost use Rattle.sensor_plane.specs.Paths.{list_path};
ghost use Rattle.pick_core.specs.Sites.{rows_of};
ghost use Rattle.cascade_world.specs.Answers.{pointer_at};
ghost use Rattle.cascade_world.specs.Insides.{contact_by, contact_in, contact_of, inside_at, inside_by, insides as insides_of, place_in, seen};

use crate::world::{Live, WorldData};
use arrayvec::ArrayVec;
use pick_core::{BoxCache, Hit, Path, local_point, sensor_depth, sensors_of};
use scene_core::Scene;
use sensor_plane::{Contact, ListPath, SensorPointer};
use x3d_values::{Fields, MAX_SENSORS, Pointer, Ray, Vec3};

/// A sensor that a pointer is inside of: the place of the hit in the sensor's coordinates, in
/// millionths, and the number of positions of the hit's path that lead to the list that holds the
/// sensor.
#[derive(Clone, Copy)]
pub struct Inside {
    pub sensor: u32,
    pub point: Vec3,
    pub depth: Option<usize>,
}

/// The content of an unused place.
impl Default for Inside {
    ghost is_default = { λ inside. inside
        ≡ record {
          sensor = 0;
          point = record { x = pos 0; y = pos 0; z = pos 0 };
          depth = None;
        } };

    fn default() -> Inside {
        Inside {
            sensor: 0,
            point: Vec3 { x: 0, y: 0, z: 0 },
            depth: None,
        }
    }
}

/// The sensors that a ray is inside of, in number order, and the path of the hit, if the ray hits a
/// box.
#[derive(Drop)]
pub struct SensorsHit {
    pub path: Option<Path>,
    pub sensors: ArrayVec<Inside, MAX_SENSORS>,
}

/// What stays fixed while a viewer's input is handled.
#[derive(Drop)]
pub struct AimedAt {
    pub pointer: Pointer,
    /// Whether the viewer's button was down before this input.
    pub before: bool,
    /// The sensors that the viewer's ray is inside of.
    pub inside: SensorsHit,
}

/// A sensor that a pointer concerns. `tracked` is where the viewer's ray meets the plane in which
/// the viewer drags that sensor, in the sensor's coordinates in millionths, if it does.
#[derive(Clone, Copy)]
pub struct Concerned {
    pub sensor: u32,
    pub tracked: Option<Vec3>,
}

/// Returns the entry of the sensor, if the pointer is inside it.
#[tactic(auto, unfolding(crate::specs::Insides::inside_at))]
pub fn inside_at(inside: &[Inside], sensor: u32) -> Option<&Inside>
    ensures { option_copied result ≡ inside_at inside.now sensor }
{
    match inside {
        [] => None,
        [first, others @ ..] => {
            if first.sensor == sensor {
                return Some(first);
            }
            inside_at(others, sensor)
        }
    }
}

/// Returns the path made of a hit's first `depth` positions, if it can be kept.
fn way_of(path: &Path, depth: usize) -> Option<ListPath>
    ensures { result ≡ list_path (take depth path.now) }
{
    let positions = path.as_slice();
    ListPath::new(&positions[..depth.min(positions.len())])
}

/// Returns the place of a hit inside a sensor, and the path to the list that holds the sensor: the
/// first `depth` positions of the hit's path. Returns `None` if that path can't be kept.
fn contact_by(path: &Path, inside: &Inside, depth: usize) -> Option<Contact>
    ensures { result ≡ contact_by path.now inside.now depth }
{
    let Some(way) = way_of(path, depth) else {
        return None;
    };
    Some(Contact {
        point: inside.point,
        path: way,
    })
}

/// Does the same with the sensor's own depth. Returns `None` if it has none.
fn contact_of(path: &Path, inside: &Inside) -> Option<Contact>
    ensures { result ≡ contact_of (Some path.now) inside.now }
{
    let Some(depth) = inside.depth else {
        return None;
    };
    contact_by(path, inside, depth)
}

impl SensorsHit {
    ghost use Rattle.std.specs.Prelude.{◌≡◌};
    ghost use Rattle.cascade_world.specs.Insides.{contact_in, place_in, seen};

    /// Returns the place of the pointer in the sensor's coordinates, in millionths, if it is inside
    /// the sensor.
    pub fn place(&self, sensor: u32) -> Option<Vec3>
        ensures { result ≡ place_in (seen self.now) sensor }
    {
        let Some(inside) = inside_at(self.sensors.as_slice(), sensor) else {
            return None;
        };
        Some(inside.point)
    }

    /// Returns that place and the path to the list that holds the sensor, if the pointer is inside
    /// the sensor and the path can be kept.
    pub fn contact(&self, sensor: u32) -> Option<Contact>
        ensures { result ≡ contact_in (seen self.now) sensor }
    {
        let Some(inside) = inside_at(self.sensors.as_slice(), sensor) else {
            return None;
        };
        let Some(path) = &self.path else {
            return None;
        };
        contact_of(path, inside)
    }
}

impl AimedAt {
    ghost use Rattle.std.specs.Prelude.{◌≡◌, IsTrue};
    ghost use Rattle.x3d_values.specs.Ranges.{is_viewer};
    ghost use Rattle.cascade_world.specs.Answers.{pointer_at};
    ghost use Rattle.cascade_world.specs.Insides.{seen};

    /// Returns the pointer as the sensor sees it.
    pub fn at(&self, concerned: Concerned) -> SensorPointer
        ensures viewer { IsTrue (is_viewer result.who) }
        ensures value { result
            ≡ pointer_at self.now.pointer self.now.before (seen self.now.inside) concerned.tracked
            concerned.sensor }
    {
        SensorPointer {
            who: self.pointer.who(),
            before: self.before,
            down: self.pointer.is_down(),
            place: self.inside.place(concerned.sensor),
            contact: self.inside.contact(concerned.sensor),
            tracked: concerned.tracked,
        }
    }
}

/// Returns how a hit is inside its sensors.
fn sensors_inside(
    scene: &Scene,
    state: &[Fields],
    hit: &Hit,
    ray: Ray,
    sensors: &[u32],
) -> ArrayVec<Inside, MAX_SENSORS>
    requires within { 0 < hit.now.m }
    requires few { length sensors.now ≤ max_sensors }
    ensures { result.items ≡ map (inside_by scene.now state.now ray hit.now) sensors.now }
{
    let mut inside = ArrayVec::new();
    for sensor in sensors {
        inside.push(Inside {
            sensor: *sensor,
            point: local_point(scene, state, hit, ray, *sensor),
            depth: sensor_depth(scene, hit.path.as_slice(), *sensor),
        });
    }
    inside
}

/// Returns the sensors that a ray is inside of, with the place of the hit in each. There are none
/// if the ray hits no box.
#[tactic(auto, unfolding(crate::specs::Insides::insides))]
pub fn insides(scene: &Scene, state: &[Fields], boxes: &BoxCache, ray: Ray) -> SensorsHit
    requires boxes { boxes.now ≡ rows_of scene.now state.now }
    ensures { seen result ≡ insides_of scene.now state.now ray }
{
    let Some(hit) = boxes.pick(ray) else {
        return SensorsHit {
            path: None,
            sensors: ArrayVec::new(),
        };
    };
    let sensors = sensors_of(scene, state, &hit);
    let sensors = sensors_inside(scene, state, &hit, ray, sensors.as_slice());
    SensorsHit {
        path: Some(hit.path),
        sensors,
    }
}

impl WorldData {
    ghost use Rattle.std.specs.Prelude.{◌≡◌, IsTrue, slice_set};
    ghost use Rattle.x3d_values.specs.Ranges.{is_viewer};
    ghost use Rattle.cascade_world.specs.Pointer.{is_down};

    /// Reports whether a viewer's button is down.
    pub fn is_down(&self, who: u8) -> bool
        requires { IsTrue (is_viewer who) }
        ensures { result ≡ is_down self.now who }
    {
        self.buttons[who as usize]
    }
}

impl Live {
    ghost use Rattle.std.specs.Prelude.{◌≡◌};
    ghost use Rattle.cascade_world.specs.World.{with_button};

    /// Sets a viewer's button to the state in its pointer.
    pub fn set_button(&mut self, pointer: Pointer)
        ensures { self.new ≡ with_button self.old pointer }
    {
        self.world.buttons[pointer.who() as usize] = pointer.is_down();
    }
}
