//! Snapshots as bytes: `save` writes version 3, and each version can be loaded.

ghost use Rattle.std.specs.Prelude.{◌≡◌, IfOk};
ghost use Rattle.cascade_core.specs.Scripts.{scripts_in};
ghost use Rattle.script_running.specs.Scripts.{script_list};
ghost use Rattle.script_host.specs.Attaching.{Fits};

use crate::tests::stored::{CLOCKED, DRAGGING, EMPTY, EVERYTHING, OPENING, Stored};
use app_commands::{SharedJob, shared_job};
use app_jobs::JobInputs;
use app_program::{RunFault, attach};
use app_words::Order;
use cascade_core::Stage;
use scene_core::Scene;
use script_boxes::{StockScript, boxes_of};
use script_host::Scripts;
use script_running::script_list;
use snapshot_core::{Saved, SnapFault, load_into, save};
use std::alloc::Global;
use std::process::Abort;

/// Returns boxes of the stock for the scripts of a scene.
fn scripts_of(alloc: Global, scene: &Scene) -> Result<Scripts<StockScript>, RunFault>
    ensures fits { IfOk result (λ scripts. Fits (script_list scene.now) scripts) }
    ensures fresh { IfOk result (λ scripts. scripts ≡ scripts_in scene.now) }
{
    let specs = script_list(alloc, scene)?;
    let boxes = boxes_of(alloc, specs.as_slice())?;
    attach(alloc, scene, boxes)
}

/// A stage before any input, with the inputs that follow, and the mark of its scene.
#[derive(Drop)]
struct Begun {
    stage: Stage<StockScript>,
    inputs: JobInputs,
    mark: [u8; 32],
}

/// Returns what a job begins with, or `None` if memory is refused.
fn begin(alloc: Global, job: &str) -> Option<Begun> {
    let Ok(job) = shared_job(alloc, job.as_bytes(), &Order::Run { no_trace: false }) else {
        return None;
    };
    let SharedJob {
        inputs,
        mark,
        scene,
        routes,
    } = job;
    let Ok(scripts) = scripts_of(alloc, &scene) else {
        drop(routes);
        drop(scene);
        drop(inputs);
        return None;
    };
    match Stage::load(alloc, scene, routes, scripts) {
        Ok(stage) => Some(Begun {
            stage,
            inputs,
            mark,
        }),
        Err(_refused) => {
            drop(inputs);
            None
        }
    }
}

fn applies_all(stage: &mut Stage<StockScript>, inputs: &JobInputs) -> bool {
    for input in inputs.as_slice() {
        if stage.apply(input).is_err() {
            return false;
        }
    }
    true
}

/// Reports whether the snapshot of a stage, of boot 1, has these bytes.
fn is_saved(alloc: Global, stage: &Stage<StockScript>, mark: &[u8; 32], shot: &[u8]) -> bool {
    let mut out = Vec::new(alloc);
    let saved = save(stage, mark, 1, &mut out).is_ok();
    let same = out.as_slice() == shot;
    drop(out);
    saved && same
}

/// Reports whether two stages have the same routes and the same texts.
fn are_alike(alloc: Global, one: &Stage<StockScript>, other: &Stage<StockScript>) -> bool {
    let mut first = Vec::new(alloc);
    let mut second = Vec::new(alloc);
    let pushed = one.texts(&mut first).is_ok() & other.texts(&mut second).is_ok();
    let same = first.as_slice() == second.as_slice();
    drop(second);
    drop(first);
    pushed && same && one.routes() == other.routes()
}

/// Reports whether a stage loads a snapshot of boot 1 as boot 2, then has the texts of a stage that
/// applied all inputs, and is saved as the same bytes.
fn is_loaded(alloc: Global, one: &Begun, other: &mut Begun, stored: &Stored, shot: &[u8]) -> bool {
    let saved = Saved {
        boot: 1,
        applied: stored.applied,
    };
    load_into(&mut other.stage, &other.mark, 2, shot) == Ok(saved)
        && are_alike(alloc, &one.stage, &other.stage)
        && is_saved(alloc, &other.stage, &other.mark, stored.shot)
}

/// Like `is_loaded`, for the snapshot of an older version, if there is one.
fn is_old_loaded(
    alloc: Global,
    one: &Begun,
    other: &mut Begun,
    stored: &Stored,
    old: Option<&[u8]>,
) -> bool {
    match old {
        Some(old) => is_loaded(alloc, one, other, stored, old),
        None => true,
    }
}

/// Reports whether a stage that applies all inputs is saved as the snapshot of version 3, and the
/// snapshots of all versions are loaded.
fn are_exact(alloc: Global, one: &mut Begun, other: &mut Begun, stored: &Stored) -> bool {
    applies_all(&mut one.stage, &one.inputs)
        && is_saved(alloc, &one.stage, &one.mark, stored.shot)
        && is_old_loaded(alloc, one, other, stored, stored.one)
        && is_old_loaded(alloc, one, other, stored, stored.two)
        && is_loaded(alloc, one, other, stored, stored.shot)
}

fn end(begun: Begun) {
    let Begun { stage, inputs, .. } = begun;
    drop(inputs);
    stage.close();
}

fn holds(rt: &impl Abort, alloc: Global, stored: &Stored) {
    let Some(mut one) = begin(alloc, stored.job) else {
        panic!(rt; "there is no stage");
    };
    let Some(mut other) = begin(alloc, stored.job) else {
        panic!(rt; "there is no other stage");
    };
    let exact = are_exact(alloc, &mut one, &mut other, stored);
    end(other);
    end(one);
    assert!(rt; exact);
}

#[test]
fn a_scene_without_nodes(rt: HostRuntime) {
    holds(&rt, rt.alloc(), &EMPTY);
}

#[test]
fn old_snapshot_loads(rt: HostRuntime) {
    holds(&rt, rt.alloc(), &OPENING);
    holds(&rt, rt.alloc(), &CLOCKED);
}

#[test]
fn each_kind_of_state_and_field(rt: HostRuntime) {
    holds(&rt, rt.alloc(), &EVERYTHING);
}

#[test]
fn a_drag_in_progress(rt: HostRuntime) {
    holds(&rt, rt.alloc(), &DRAGGING);
}

/// Reports whether there is a snapshot of this number of bytes.
fn has_size(shot: Option<&[u8]>, len: usize) -> bool {
    match shot {
        Some(shot) => shot.len() == len,
        None => false,
    }
}

/// Reports whether the snapshots of versions 1, 2 and 3 have these numbers of bytes.
fn have_sizes(stored: &Stored, one: usize, two: usize, newest: usize) -> bool {
    has_size(stored.one, one) && has_size(stored.two, two) && stored.shot.len() == newest
}

#[test]
fn sizes(rt: HostRuntime) {
    assert!(&rt; have_sizes(&EMPTY, 95, 101, 105));
    assert!(&rt; have_sizes(&OPENING, 147, 153, 157));
    assert!(&rt; have_sizes(&CLOCKED, 308, 314, 346));
}

/// Returns the fault of a snapshot of version 1 in which these bits of byte `at` are flipped. If
/// its version is then 3, only the digest is wrong.
fn flip_fault(at: usize, bits: u8) -> SnapFault {
    match at {
        0..=3 => SnapFault::BadMagic,
        4 if bits != 2 => SnapFault::BadVersion,
        5..=36 => SnapFault::WrongScene,
        _ => SnapFault::BadDigest,
    }
}

fn flip(bytes: &mut [u8], at: usize, bits: u8) {
    if let Some(byte) = bytes.get_mut(at) {
        *byte ^= bits;
    }
}

/// Reports whether each flip of a bit of byte `at` is refused.
fn refuses_byte(begun: &mut Begun, shot: &mut [u8], at: usize) -> bool {
    for bits in [1, 2, 4, 8, 16, 32, 64, 128] {
        flip(shot, at, bits);
        let answer = load_into(&mut begun.stage, &begun.mark, 2, shot);
        flip(shot, at, bits);
        if answer != Err(flip_fault(at, bits)) {
            return false;
        }
    }
    true
}

/// Reports whether each flip of a bit of a snapshot is refused. The unchanged snapshot must then be
/// loaded.
fn refuses_flips(begun: &mut Begun, shot: &mut [u8]) -> bool {
    for at in 0..shot.len() {
        if !refuses_byte(begun, shot, at) {
            return false;
        }
    }
    load_into(&mut begun.stage, &begun.mark, 2, shot).is_ok()
}

/// Like `refuses_flips`, for the snapshot of version 1.
fn is_unflipped(alloc: Global, begun: &mut Begun, stored: &Stored) -> bool {
    let Some(old) = stored.one else {
        return false;
    };
    let Ok(mut shot) = old.to_vec(alloc) else {
        return false;
    };
    let refused = refuses_flips(begun, shot.as_mut_slice());
    drop(shot);
    refused
}

fn flips(rt: &impl Abort, alloc: Global, stored: &Stored) {
    let Some(mut begun) = begin(alloc, stored.job) else {
        panic!(rt; "there is no stage");
    };
    let refused = is_unflipped(alloc, &mut begun, stored);
    end(begun);
    assert!(rt; refused);
}

#[test]
fn flipped_snapshot_bit(rt: HostRuntime) {
    flips(&rt, rt.alloc(), &OPENING);
    flips(&rt, rt.alloc(), &CLOCKED);
}
