//! The state of a PlaneSensor: the viewers over it, and its drag.

ghost use Rattle.std.specs.Prelude.{◌≡◌, ◌++◌, Some, None, if◌then◌else◌, OnErr, OnOk};
ghost use Rattle.std.specs.Option.{option_map};
ghost use Rattle.sensor_plane.specs.Paths.{path_fits};
ghost use Rattle.sensor_plane.specs.PlaneParts.{plane_of_parts};
ghost use Rattle.snapshot_core.specs.Beside.{drag_in, drag_bytes, plane_in, plane_bytes, drags_codec, plane_text, plane_state, plane_part};

use crate::version::Version;
use sensor_plane::{Drag, ListPath, PlaneParts, PlaneState, PointingState};
use snapshot_codec::{
    Drag as DragBytes, Path, Plane as PlaneBytes, plane_of as plane_bytes_of,
    push_plane as push_plane_bytes,
};
use std::alloc::AllocError;

// ---- reading

fn drag_in(drag: &DragBytes) -> Option<Drag>
    ensures { result ≡ (if path_fits drag.now.path then Some (drag_in drag.now) else None) }
{
    let Some(path) = ListPath::from_u32(drag.path.as_slice()) else {
        return None;
    };
    Some(Drag {
        presser: drag.presser,
        start: drag.start,
        last: drag.last,
        path,
    })
}

fn pressed_in(over: u64, drag: &DragBytes) -> Option<PlaneState>
    ensures { result ≡ plane_of_parts (record { over = over; drag = Some (drag_in drag.now) }) }
{
    let Some(drag) = drag_in(drag) else {
        return None;
    };
    let drag = Some(drag);
    PlaneState::from_parts(PlaneParts { over, drag })
}

fn plane_in(plane: &PlaneBytes) -> Option<PlaneState>
    ensures { result ≡ plane_in plane.now }
{
    match &plane.drag {
        Some(drag) => pressed_in(plane.over, drag),
        None => PlaneState::from_parts(PlaneParts {
            over: plane.over,
            drag: None,
        }),
    }
}

/// Reads the viewers over a PlaneSensor, and its drag.
#[tactic(auto, unfolding(crate::specs::Beside::drags_codec))]
fn drags_of(bytes: &[u8]) -> Option<(PlaneState, &[u8])>
    ensures { option_map (λ x. (x.0, x.1.now)) result ≡ drags_codec.read bytes.now }
{
    let Some((plane, rest)) = plane_bytes_of(bytes) else {
        return None;
    };
    let state = plane_in(&plane)?;
    Some((state, rest))
}

fn plane_state_of(bytes: &[u8]) -> Option<(PointingState, &[u8])>
    ensures { option_map (λ x. (x.0, x.1.now)) result ≡ plane_state.read bytes.now }
{
    let Some((plane, rest)) = drags_of(bytes) else {
        return None;
    };
    Some((PointingState::Plane(plane), rest))
}

/// Reads the state of a PlaneSensor, in a snapshot of this version.
#[tactic(auto, unfolding(crate::specs::Beside::plane_part))]
pub(crate) fn plane_of(version: Version, bytes: &[u8]) -> Option<(PointingState, &[u8])>
    ensures { option_map (λ x. (x.0, x.1.now)) result ≡ (plane_part version).read bytes.now }
{
    match version {
        Version::One => None,
        Version::Two | Version::Three => plane_state_of(bytes),
    }
}

// ---- writing

fn drag_bytes(drag: &Drag) -> DragBytes
    ensures { result ≡ drag_bytes drag.now }
{
    DragBytes {
        presser: drag.presser,
        start: drag.start,
        last: drag.last,
        path: Path::new(drag.path.as_slice()),
    }
}

fn held_bytes(drag: &Option<Drag>) -> Option<DragBytes>
    ensures { result ≡ option_map drag_bytes drag.now }
{
    match drag {
        Some(drag) => Some(drag_bytes(drag)),
        None => None,
    }
}

#[tactic(auto, unfolding(sensor_plane::specs::PlaneParts::parts_of_plane))]
fn plane_bytes(plane: &PlaneState) -> PlaneBytes
    ensures { result ≡ plane_bytes plane.now }
{
    let parts = plane.parts();
    PlaneBytes {
        over: parts.over,
        drag: held_bytes(&parts.drag),
    }
}

#[tactic(auto, unfolding(crate::specs::Beside::drags_codec))]
fn push_drags(plane: &PlaneState, out: &mut Vec<u8>) -> Result<(), AllocError>
    ensures ok { OnOk result (out.new.items ≡ out.old.items ++ drags_codec.write plane.now) }
    ensures err { OnErr result (out.new.items ≡ out.old.items) }
{
    push_plane_bytes(&plane_bytes(plane), out)
}

fn push_plane_state(state: &PointingState, out: &mut Vec<u8>) -> Result<(), AllocError>
    ensures ok { OnOk result (out.new.items ≡ out.old.items ++ plane_text state.now) }
    ensures err { OnErr result (out.new.items ≡ out.old.items) }
{
    match state {
        PointingState::Plane(plane) => push_drags(plane, out),
        _ => Ok(()),
    }
}

/// Appends the state of a PlaneSensor, for a snapshot of this version. On `AllocError` the buffer
/// is unchanged.
#[tactic(auto, unfolding(crate::specs::Beside::plane_part))]
pub(crate) fn push_plane(
    version: Version,
    state: &PointingState,
    out: &mut Vec<u8>,
) -> Result<(), AllocError>
    ensures ok { OnOk result
        (out.new.items ≡ out.old.items ++ (plane_part version).write state.now) }
    ensures err { OnErr result (out.new.items ≡ out.old.items) }
{
    match version {
        Version::One => Ok(()),
        Version::Two | Version::Three => push_plane_state(state, out),
    }
}
