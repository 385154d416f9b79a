//! Snapshots in the middle of a drag: their sizes, altered ones, and a viewer that goes on from
//! one.

use super::given::{MARK, Trial, go_back, try_on};
use super::snapshots::{Alterations, DIGEST, NOT_CANONICAL, Size, alter, fault_of};
use script_boxes::StockScript;
use share_core::Viewer;
use share_law::{SnapFault, Taken};
use share_wire::{Body, Message, Packet, encode};
use snapshot_core::scene_mark;
use std::alloc::{AllocError, Global};
use std::process::Abort;
use x3d_values::{Cause, Pointer, Ray, Stamped, Vec3, is_input_number, is_input_time, is_viewer};

/// A PlaneSensor of a box in the first of two groups; the sensor is node 0.
const DRAGGED: &str = "#X3D V3.0 utf8
Group { children [ DEF D PlaneSensor {} Shape { geometry Box {} } ] } Group {}";

/// A TouchSensor instead of the PlaneSensor.
const TOUCHED: &str = "#X3D V3.0 utf8
Group { children [ DEF S TouchSensor {} Shape { geometry Box {} } ] } Group {}";

/// A viewer, whether its button is down, and where its ray in direction 0 0 -1 begins: x and y, in
/// halves.
struct Aim(u8, bool, i8, i8);

/// Viewer 63 moves over the box, presses it at 0.5 0.5, and drags it to 2 1. Then viewer 1 moves
/// over the box with its button down. After these four, viewer 63 drags to -1.5 0, and releases the
/// button.
static AIMS: [Aim; 6] = [
    Aim(63, false, 0, 0),
    Aim(63, true, 1, 1),
    Aim(63, true, 4, 2),
    Aim(1, true, 0, 0),
    Aim(63, true, -3, 0),
    Aim(63, false, -3, 0),
];

/// How many of them are before the middle of the drag.
const BEFORE: usize = 4;

fn halves(count: i8) -> i64 {
    i64::from(count) * 500_000
}

impl Aim {
    fn ray(&self) -> Option<Ray> {
        let origin = Vec3 {
            x: halves(self.2),
            y: halves(self.3),
            z: 20_000_000,
        };
        let dir = Vec3 {
            x: 0,
            y: 0,
            z: -1_000_000,
        };
        if !origin.fits() {
            return None;
        }
        if !dir.fits() || dir.is_zero() {
            return None;
        }
        Some(Ray::new(origin, dir))
    }

    /// Returns the input of this number, at as many microseconds.
    fn input(&self, number: u64) -> Option<Stamped> {
        let ray = self.ray()?;
        let time = i64::try_from(number).ok()?;
        if !is_viewer(self.0) {
            return None;
        }
        if !is_input_number(number) {
            return None;
        }
        if !is_input_time(time) {
            return None;
        }
        let pointer = Pointer::new(self.0, self.1, ray);
        Some(Stamped::new(number, time, Cause::Pointer(pointer)))
    }

    fn packet(&self, number: u64) -> Option<Packet> {
        let body = Body::Input(self.input(number)?);
        Some(encode(&Message { mark: MARK, body }))
    }
}

/// Reports whether a viewer applies these aims one by one, as the inputs after those it has
/// applied.
fn applies(viewer: &mut Viewer<StockScript>, aims: &[Aim]) -> bool {
    for aim in aims {
        let number = viewer.applied().saturating_add(1);
        let Some(packet) = aim.packet(number) else {
            return false;
        };
        if viewer.take(packet.as_slice()) != Ok(Taken::Applied(1)) {
            return false;
        }
    }
    true
}

/// Reports whether a viewer applies these aims, and its snapshot is then written.
fn snaps(viewer: &mut Viewer<StockScript>, aims: &[Aim], out: &mut Vec<u8>) -> bool {
    applies(viewer, aims) && viewer.snapshot(out).is_ok()
}

/// A trial with a viewer in the middle of a drag, and with its snapshot.
struct Dragging<T>(T);

impl<T: Trial> Trial for Dragging<T> {
    fn holds(&self, alloc: Global, viewer: &mut Viewer<StockScript>, _shot: &[u8]) -> bool {
        let mut shot = Vec::new(alloc);
        let snapped = snaps(viewer, &AIMS[..BEFORE], &mut shot);
        let holds = snapped && self.0.holds(alloc, viewer, shot.as_slice());
        drop(shot);
        holds
    }
}

#[test]
fn a_snapshot_of_a_drag_has_413_bytes(rt: HostRuntime) {
    try_on(&rt, rt.alloc(), DRAGGED, 0, &Dragging(Size(413)));
}

/// Reports whether the viewer goes to the end of the drag, back to its middle, and to its end
/// again, with the same bytes both times except for its boot.
fn goes_on(
    viewer: &mut Viewer<StockScript>,
    shot: &[u8],
    once: &mut Vec<u8>,
    again: &mut Vec<u8>,
    out: &mut Vec<u8>,
) -> bool {
    snaps(viewer, &AIMS[BEFORE..], once)
        && go_back(viewer, shot) == Ok(4)
        && snaps(viewer, &AIMS[BEFORE..], again)
        && alter(once.as_slice(), 40, 2, out).is_ok()
        && out.as_slice() == again.as_slice()
}

/// Asserts `goes_on`.
struct GoesOn;

impl Trial for GoesOn {
    fn holds(&self, alloc: Global, viewer: &mut Viewer<StockScript>, shot: &[u8]) -> bool {
        let mut once = Vec::new(alloc);
        let mut again = Vec::new(alloc);
        let mut out = Vec::new(alloc);
        let same = goes_on(viewer, shot, &mut once, &mut again, &mut out);
        drop(out);
        drop(again);
        drop(once);
        same
    }
}

#[test]
fn a_drag_goes_on_from_a_snapshot(rt: HostRuntime) {
    try_on(&rt, rt.alloc(), DRAGGED, 0, &Dragging(GoesOn));
}

/// Alterations of the snapshot in the middle of a drag.
static DRAGS: Dragging<Alterations> = Dragging(Alterations(&[
    // another viewer drags; there is no viewer 64; and if no viewer drags, nothing of a drag is
    // kept
    (127, 62, None),
    (127, 64, NOT_CANONICAL),
    (127, 255, NOT_CANONICAL),
    // viewer 63 is over the box as well, or its button is up
    (119, 128, None),
    (181, 0, None),
    // the press, or the translation, is further out than coordinates can be
    (128, 128, NOT_CANONICAL),
    (152, 128, NOT_CANONICAL),
    // the path has no position, two, or 65
    (176, 0, NOT_CANONICAL),
    (176, 2, NOT_CANONICAL),
    (176, 65, NOT_CANONICAL),
    // the path leads to the other group, which has no sensor, or nowhere
    (180, 1, NOT_CANONICAL),
    (180, 2, NOT_CANONICAL),
    (177, 1, NOT_CANONICAL),
    // the snapshot is of version 1, which has no PlaneSensor, or of version 2
    (4, 1, NOT_CANONICAL),
    (4, 2, NOT_CANONICAL),
]));

#[test]
fn a_drag_that_no_world_has_is_refused(rt: HostRuntime) {
    try_on(&rt, rt.alloc(), DRAGGED, 0, &DRAGS);
}

/// Writes a snapshot before any input as version 1 would have it: with only the last 32 bits of how
/// many inputs were applied, and the last 16 of the set of viewers that begins at this byte, and of
/// the set of buttons after its presser.
fn write_old(shot: &[u8], over: usize, out: &mut Vec<u8>) -> Result<(), AllocError> {
    out.clear();
    for (at, byte) in shot
        .iter()
        .enumerate()
        .take(shot.len().saturating_sub(DIGEST))
    {
        match (at, at.wrapping_sub(over)) {
            (41..=44, _) | (_, 0..=5 | 9..=14) => {}
            _ => out.push(if at == 4 { 1 } else { *byte })?,
        }
    }
    let digest = scene_mark(out.as_slice());
    out.extend_from_slice(&digest)
}

/// Where a set of viewers begins, and the fault with which the snapshot of version 1 is refused, if
/// any.
struct Old(usize, Option<SnapFault>);

impl Trial for Old {
    fn holds(&self, alloc: Global, viewer: &mut Viewer<StockScript>, shot: &[u8]) -> bool {
        let mut out = Vec::new(alloc);
        let written = write_old(shot, self.0, &mut out).is_ok();
        let fault = fault_of(viewer, out.as_slice());
        drop(out);
        written && fault == self.1
    }
}

/// A TouchSensor of version 1 is loaded.
#[test]
fn version_1_has_no_plane_sensor(rt: HostRuntime) {
    try_on(&rt, rt.alloc(), TOUCHED, 0, &Old(62, None));
    try_on(&rt, rt.alloc(), DRAGGED, 0, &Old(119, NOT_CANONICAL));
}
