//! The state of a node that viewers point at.

ghost use Rattle.std.specs.Prelude.{◌≡◌, ◌++◌, OnErr, OnOk};
ghost use Rattle.std.specs.Option.{option_map};
ghost use Rattle.snapshot_core.specs.Beside.{touch_bytes, pointers_codec, touch_text, touch_part, pointing_part};

use crate::dragging::{plane_of, push_plane};
use crate::version::Version;
use sensor_core::{TouchParts, TouchState};
use sensor_plane::PointingState;
use snapshot_codec::{Touch, push_touch, touch_of};
use std::alloc::AllocError;
use x3d_values::NodeType;

/// Reads the viewers over a TouchSensor, and the viewer that presses it.
#[tactic(auto, unfolding(crate::specs::Beside::pointers_codec))]
fn pointers_of(version: Version, bytes: &[u8]) -> Option<(TouchState, &[u8])>
    ensures { option_map (λ x. (x.0, x.1.now)) result ≡ (pointers_codec version).read bytes.now }
{
    let Some((touch, rest)) = touch_of(version.viewers(), bytes) else {
        return None;
    };
    let state = TouchState::from_parts(TouchParts {
        over: touch.over,
        presser: touch.presser,
    })?;
    Some((state, rest))
}

#[tactic(auto, unfolding(crate::specs::Beside::touch_part))]
fn touch_state_of(version: Version, bytes: &[u8]) -> Option<(PointingState, &[u8])>
    ensures { option_map (λ x. (x.0, x.1.now)) result ≡ (touch_part version).read bytes.now }
{
    let Some((touch, rest)) = pointers_of(version, bytes) else {
        return None;
    };
    Some((PointingState::Touch(touch), rest))
}

#[tactic(auto, unfolding(sensor_core::specs::Parts::parts_of_touch))]
fn touch_bytes(touch: &TouchState) -> Touch
    ensures { result ≡ touch_bytes touch.now }
{
    let parts = touch.parts();
    Touch {
        over: parts.over,
        presser: parts.presser,
    }
}

#[tactic(auto, unfolding(crate::specs::Beside::pointers_codec))]
fn push_pointers(version: Version, touch: &TouchState, out: &mut Vec<u8>) -> Result<(), AllocError>
    ensures ok { OnOk result
        (out.new.items ≡ out.old.items ++ (pointers_codec version).write touch.now) }
    ensures err { OnErr result (out.new.items ≡ out.old.items) }
{
    push_touch(version.viewers(), touch_bytes(touch), out)
}

fn push_touch_state(
    version: Version,
    state: &PointingState,
    out: &mut Vec<u8>,
) -> Result<(), AllocError>
    ensures ok { OnOk result (out.new.items ≡ out.old.items ++ touch_text version state.now) }
    ensures err { OnErr result (out.new.items ≡ out.old.items) }
{
    match state {
        PointingState::Touch(touch) => push_pointers(version, touch, out),
        _ => Ok(()),
    }
}

/// Reads the pointing state of a node of this type.
#[tactic(auto, unfolding(crate::specs::Beside::pointing_part))]
pub(crate) fn pointing_of(
    version: Version,
    node_type: NodeType,
    bytes: &[u8],
) -> Option<(PointingState, &[u8])>
    ensures { option_map (λ x. (x.0, x.1.now)) result
        ≡ (pointing_part version node_type).read bytes.now }
{
    match node_type {
        NodeType::TouchSensor => touch_state_of(version, bytes),
        NodeType::PlaneSensor => plane_of(version, bytes),
        _ => Some((PointingState::NoSensor, bytes)),
    }
}

/// Appends the pointing state of a node of this type. On `AllocError` the buffer is unchanged.
#[tactic(auto, unfolding(crate::specs::Beside::pointing_part, crate::specs::Beside::touch_part))]
pub(crate) fn push_pointing(
    version: Version,
    node_type: NodeType,
    state: &PointingState,
    out: &mut Vec<u8>,
) -> Result<(), AllocError>
    ensures ok { OnOk result
        (out.new.items ≡ out.old.items ++ (pointing_part version node_type).write state.now) }
    ensures err { OnErr result (out.new.items ≡ out.old.items) }
{
    match node_type {
        NodeType::TouchSensor => push_touch_state(version, state, out),
        NodeType::PlaneSensor => push_plane(version, state, out),
        _ => Ok(()),
    }
}
