//! What a ray hits in a scene, which sensor the hit concerns, and where it is for that sensor.

use super::{Row, all_hold};
use app_program::open_scene;
use pick_core::{BoxCache, Hit, local_point, pick, sensors_of};
use scene_core::Scene;
use std::alloc::{AllocError, Global};
use std::process::Abort;
use x3d_values::{Fields, Ray, Value, Vec3};

/// A scene, the path of the box that is hit, its distance, and the point of the hit for the sensor.
struct Picked(&'static str, &'static [usize], u64, Vec3);

/// Returns the ray from 10 0 20 in direction 0 0 -1.
fn ray() -> Ray {
    let origin = Vec3 {
        x: 10_000_000,
        y: 0,
        z: 20_000_000,
    };
    let dir = Vec3 {
        x: 0,
        y: 0,
        z: -1_000_000,
    };
    Ray::new(origin, dir)
}

impl Picked {
    /// Reports whether this is the expected hit, and concerns the sensor, node 0.
    fn is_hit(&self, scene: &Scene, state: &[Fields], hit: &Hit) -> bool {
        if hit.m == 0 {
            return false;
        }
        let path = hit.path.as_slice() == self.1;
        let way = Some(hit.n) == hit.m.checked_mul(self.2);
        let sensors = sensors_of(scene, state, hit);
        let local = local_point(scene, state, hit, ray(), 0);
        path && way && sensors.as_slice() == [0].as_slice() && local == self.3
    }

    /// Like `is_hit`, if something is hit.
    fn is_the_hit(&self, scene: &Scene, state: &[Fields], hit: Option<Hit>) -> bool {
        match hit {
            Some(hit) => self.is_hit(scene, state, &hit),
            None => false,
        }
    }
}

/// Moves the Transform, which is node 3, to the origin.
fn move_away(scene: &Scene, state: &mut [Fields]) {
    let Some(row) = scene.field_named(3, "translation") else {
        return;
    };
    if let Some(fields) = state.get_mut(3) {
        fields.set(row.number, Value::SFVec3f(Vec3 { x: 0, y: 0, z: 0 }));
    }
}

/// Returns the boxes of another state, which are then renewed to this one.
fn renewed(alloc: Global, scene: &Scene, state: &[Fields]) -> Option<BoxCache> {
    let Ok(mut other) = scene.state(alloc) else {
        return None;
    };
    move_away(scene, other.as_mut_slice());
    let made = BoxCache::new(alloc, scene, other.as_slice());
    drop(other);
    let Ok(mut cache) = made else {
        return None;
    };
    cache.renew_all(scene, state);
    Some(cache)
}

impl Picked {
    /// Reports whether the expected hit is found in cached boxes.
    fn is_kept(&self, scene: &Scene, state: &[Fields], cache: Option<BoxCache>) -> bool {
        let Some(cache) = cache else {
            return false;
        };
        let hit = cache.pick(ray());
        drop(cache);
        self.is_the_hit(scene, state, hit)
    }

    /// Reports whether the expected hit is found by a walk through the scene, in its cached boxes,
    /// and in those of another state that are renewed to this one.
    fn is_picked(&self, alloc: Global, scene: &Scene, state: &[Fields]) -> bool {
        let walked = self.is_the_hit(scene, state, pick(scene, state, ray()));
        let cache = BoxCache::new(alloc, scene, state).ok();
        let kept = self.is_kept(scene, state, cache);
        walked && kept && self.is_kept(scene, state, renewed(alloc, scene, state))
    }

    fn is_picked_in(&self, alloc: Global, scene: &Scene) -> bool {
        let Ok(state) = scene.state(alloc) else {
            return false;
        };
        let picked = self.is_picked(alloc, scene, state.as_slice());
        drop(state);
        picked
    }
}

impl Row for Picked {
    fn holds(&self, alloc: Global) -> Result<bool, AllocError> {
        let Ok(opened) = open_scene(alloc, self.0.as_bytes()) else {
            return Ok(false);
        };
        let picked = self.is_picked_in(alloc, &opened.scene);
        drop(opened);
        Ok(picked)
    }
}

static PICKED: [Picked; 3] = [
    Picked(
        "#X3D V3.0 utf8
Transform { translation 10 0 0 scale 2 2 2
children [ DEF S TouchSensor {} Shape { geometry Box {} } ] }",
        &[0, 1],
        18,
        Vec3 {
            x: 0,
            y: 0,
            z: 1_000_000,
        },
    ),
    Picked(
        "#X3D V3.0 utf8
Transform { translation 10 0 0 scale 2 2 0
children [ DEF S TouchSensor {} Shape { geometry Box {} } ] }",
        &[0, 1],
        20,
        Vec3 { x: 0, y: 0, z: 0 },
    ),
    // the first of two equal hits
    Picked(
        "#X3D V3.0 utf8
DEF X Transform { translation 10 0 0 scale 2 2 2
children [ DEF S TouchSensor {} Shape { geometry Box {} } ] }
USE X",
        &[0, 1],
        18,
        Vec3 {
            x: 0,
            y: 0,
            z: 1_000_000,
        },
    ),
];

#[test]
fn pick_through_transform(rt: HostRuntime) {
    all_hold(&rt, rt.alloc(), &PICKED);
}
