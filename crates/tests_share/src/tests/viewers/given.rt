//! What tests start from: a viewer that has applied clocks, with its snapshot.

ghost use Rattle.std.specs.Prelude.{◌≡◌, IfOk};
ghost use Rattle.cascade_core.specs.Apply.{opening};
ghost use Rattle.cascade_core.specs.Held.{Running};
ghost use Rattle.cascade_core.specs.Scripts.{scripts_in};
ghost use Rattle.script_running.specs.Scripts.{script_list};
ghost use Rattle.script_host.specs.Attaching.{Fits};

use app_program::{OpenedScene, RunFault, attach, open_scene};
use cascade_core::{LoadFault, Stage};
use laws_calls::start_viewer;
use scene_core::Scene;
use script_boxes::{StockScript, boxes_of};
use script_host::Scripts;
use script_running::script_list;
use share_core::Viewer;
use share_law::{SnapFault, TakeFault, Taken};
use share_wire::{Body, Message, Packet, encode};
use std::alloc::Global;
use std::process::Abort;
use x3d_values::{Cause, Point, Stamped, Vec3, is_input_number, is_input_time};

pub(super) const MARK: [u8; 32] = *b"abcdefghijklmnopqrstuvwxyzABCDEF";

/// empty-scene
pub(super) const EMPTY: &str = "#X3D V3.0 utf8\n";

/// scene A
pub(super) const CLOCKED: &str = "#X3D V3.0 utf8
DEF T TimeSensor { cycleInterval 2 loop TRUE startTime 1 } DEF B BooleanTrigger {}
DEF G BooleanToggle {} ROUTE T.cycleTime TO B.set_triggerTime
ROUTE B.triggerTrue TO G.set_boolean";

/// A counter from 5 in steps of 2, which a clock drives every two seconds.
pub(super) const COUNTED: &str = "#X3D V3.0 utf8
DEF T TimeSensor { cycleInterval 2 loop TRUE startTime 1 } DEF B BooleanTrigger {}
DEF C Script { url \"x3dshare:counter\" inputOnly SFBool tick field SFInt32 start 5
field SFInt32 step 2 outputOnly SFInt32 count }
ROUTE T.cycleTime TO B.set_triggerTime ROUTE B.triggerTrue TO C.tick";

/// Returns boxes of the stock for the scripts of a scene.
fn stock_of(alloc: Global, scene: &Scene) -> Result<Scripts<StockScript>, RunFault>
    ensures fits { IfOk result (λ scripts. Fits (script_list scene.now) scripts) }
    ensures fresh { IfOk result (λ scripts. scripts ≡ scripts_in scene.now) }
{
    let specs = script_list(alloc, scene)?;
    let boxes = boxes_of(alloc, specs.as_slice())?;
    attach(alloc, scene, boxes)
}

/// Returns the stage of a scene before any input.
fn stage_of(alloc: Global, opened: OpenedScene) -> Result<Stage<StockScript>, LoadFault>
    ensures { IfOk result (λ stage. stage.held ≡ Running (opening stage.scene stage.routes)) }
{
    let Ok(scripts) = stock_of(alloc, &opened.scene) else {
        drop(opened);
        return Err(LoadFault::Memory);
    };
    Stage::load(alloc, opened.scene, opened.routes, scripts)
}

/// Returns the stage of the scene with this text.
pub(super) fn stage_in(alloc: Global, text: &str) -> Option<Stage<StockScript>> {
    let Ok(opened) = open_scene(alloc, text.as_bytes()) else {
        return None;
    };
    stage_of(alloc, opened).ok()
}

/// Returns viewer 0 of a scene, as its boot 1.
pub(super) fn viewer_of(alloc: Global, text: &str) -> Result<Viewer<StockScript>, LoadFault> {
    let Ok(opened) = open_scene(alloc, text.as_bytes()) else {
        return Err(LoadFault::Memory);
    };
    let stage = stage_of(alloc, opened)?;
    Ok(start_viewer(stage, MARK, 0, 1))
}

/// Returns the clock of this number, at as many seconds.
pub(super) fn clock_at(number: u32) -> Option<Stamped> {
    let time = i64::from(number) * 1_000_000;
    let number = u64::from(number);
    if !is_input_number(number) {
        return None;
    }
    if !is_input_time(time) {
        return None;
    }
    Some(Stamped::new(number, time, Cause::Clock))
}

/// Returns the datagram of that clock.
pub(super) fn clock_packet(number: u32) -> Option<Packet> {
    let body = Body::Input(clock_at(number)?);
    Some(encode(&Message { mark: MARK, body }))
}

/// Gives a viewer the clock of this number.
pub(super) fn take_clock(
    viewer: &mut Viewer<StockScript>,
    number: u32,
) -> Option<Result<Taken, TakeFault>> {
    let packet = clock_packet(number)?;
    Some(viewer.take(packet.as_slice()))
}

/// Rewinds the viewer to this snapshot, as its next boot.
pub(super) fn go_back(viewer: &mut Viewer<StockScript>, shot: &[u8]) -> Result<u64, SnapFault> {
    let boot = viewer.boot().saturating_add(1);
    viewer.rewind(shot, boot)
}

/// A viewer points from the origin in direction 0 0 1, with its button down.
pub(super) const POINT: Point = Point {
    down: true,
    origin: Vec3 { x: 0, y: 0, z: 0 },
    dir: Vec3 { x: 0, y: 0, z: 1 },
};

/// Reports whether a viewer applies the clocks of the numbers from 1 on as they arrive.
fn applies_clocks(viewer: &mut Viewer<StockScript>, count: u32) -> bool {
    for number in 1..=count {
        if take_clock(viewer, number) != Some(Ok(Taken::Applied(1))) {
            return false;
        }
    }
    true
}

/// A trial with a viewer.
pub(super) trait Trial {
    /// Reports whether the trial has the expected result.
    fn holds(&self, alloc: Global, viewer: &mut Viewer<StockScript>, shot: &[u8]) -> bool;
}

fn is_tried<T: Trial>(
    alloc: Global,
    viewer: &mut Viewer<StockScript>,
    clocks: u32,
    shot: &mut Vec<u8>,
    trial: &T,
) -> bool {
    applies_clocks(viewer, clocks)
        && viewer.snapshot(shot).is_ok()
        && trial.holds(alloc, viewer, shot.as_slice())
}

/// Runs a trial with viewer 0 of a scene, which has applied `clocks` clocks as its boot 1, and with
/// its snapshot.
pub(super) fn try_on<T: Trial>(rt: &impl Abort, alloc: Global, text: &str, clocks: u32, trial: &T) {
    let Ok(mut viewer) = viewer_of(alloc, text) else {
        panic!(rt; "there is no viewer");
    };
    let mut shot = Vec::new(alloc);
    let holds = is_tried(alloc, &mut viewer, clocks, &mut shot, trial);
    viewer.close();
    drop(shot);
    assert!(rt; holds);
}
