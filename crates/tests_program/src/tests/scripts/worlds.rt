//! Stages whose boxes log what is done with them.

ghost use Rattle.std.specs.Prelude.{◌≡◌, IfOk};
ghost use Rattle.cascade_core.specs.Apply.{opening};
ghost use Rattle.cascade_core.specs.Held.{Running};

use super::probe::{Log, Made, Probe, boxes_made};
use app_program::{OpenedScene, attach, open_scene};
use cascade_core::{LoadFault, Stage, State, Trace, Watched, WorldData};
use scene_core::Scene;
use sensor_core::TimeState;
use sensor_plane::PointingSlot;
use std::alloc::Global;
use x3d_values::{Cause, MAX_VIEWERS, Stamped, is_input_number, is_input_time};

/// Two counters from 5 in steps of 2, which a clock drives every two seconds, and a box.
pub(super) const COUNTERS: &str = "#X3D V3.0 utf8
DEF T TimeSensor { cycleInterval 2 loop TRUE startTime 1 } DEF B BooleanTrigger {}
DEF C Script { url \"x3dshare:counter\" inputOnly SFBool tick field SFInt32 start 5
field SFInt32 step 2 outputOnly SFInt32 count }
DEF D Script { url \"x3dshare:counter\" inputOnly SFBool tick field SFInt32 start 5
field SFInt32 step 2 outputOnly SFInt32 count }
ROUTE T.cycleTime TO B.set_triggerTime
ROUTE B.triggerTrue TO C.tick ROUTE B.triggerTrue TO D.tick
Shape { geometry Box {} }";

/// Returns the stage of a scene with these boxes as 1, 2 and so on, after input 0.
pub(super) fn stage_of<'a>(
    alloc: Global,
    text: &[u8],
    boxes: &[Made],
    log: &'a Log,
) -> Result<Stage<Probe<'a>>, LoadFault>
    ensures { IfOk result (λ stage. stage.held ≡ Running (opening stage.scene stage.routes)) }
{
    let boxes = boxes_made(alloc, boxes, log)?;
    let Ok(opened) = open_scene(alloc, text) else {
        drop(boxes);
        return Err(LoadFault::Memory);
    };
    let OpenedScene { scene, routes } = opened;
    let Ok(scripts) = attach(alloc, &scene, boxes) else {
        drop(routes);
        drop(scene);
        return Err(LoadFault::Memory);
    };
    Stage::load(alloc, scene, routes, scripts)
}

/// Returns the clock of this number at this many seconds.
pub(super) fn clock(number: u64, seconds: u32) -> Option<Stamped> {
    let time = i64::from(seconds) * 1_000_000;
    if !is_input_number(number) {
        return None;
    }
    if !is_input_time(time) {
        return None;
    }
    Some(Stamped::new(number, time, Cause::Clock))
}

/// Returns the pointing state of each node before any viewer points, or `None` if memory is
/// refused.
fn pointing_of(alloc: Global, scene: &Scene) -> Option<Watched<PointingSlot>> {
    let Ok(count) = scene.count() else {
        return None;
    };
    let mut slots = Vec::new(alloc);
    let mut pushed = true;
    for node in 0..count {
        pushed &= match PointingSlot::of(alloc, scene.node_type(node)) {
            Ok(slot) => slots.push(slot).is_ok(),
            Err(_) => false,
        };
    }
    let pointing = Watched::from_vec(slots);
    if pushed {
        Some(pointing)
    } else {
        drop(pointing);
        None
    }
}

/// Returns the world of a scene in which nothing has happened and no node sent anything.
pub(super) fn untold(alloc: Global, scene: &Scene) -> Option<WorldData> {
    let Ok(fields) = scene.state(alloc) else {
        return None;
    };
    let count = fields.len();
    let Ok(sensors) = vec![in alloc; TimeState::inactive(); count] else {
        drop(fields);
        return None;
    };
    let Some(pointing) = pointing_of(alloc, scene) else {
        drop(sensors);
        drop(fields);
        return None;
    };
    Some(WorldData {
        applied: 0,
        last_time: 0,
        fields: State::from_vec(fields),
        sensors: Watched::from_vec(sensors),
        pointing,
        buttons: [false; MAX_VIEWERS as usize],
        trace: Trace::new(alloc),
    })
}
