//! The part of a node after its fields.

ghost use Rattle.std.specs.Prelude.{◌≡◌, ◌++◌, IsTrue, OnErr, OnOk};
ghost use Rattle.std.specs.Option.{option_map};
ghost use Rattle.x3d_lists.specs.Extends.{Extends};
ghost use Rattle.snapshot_codec.specs.Parts.{cycle_fits, cycle_codec};
ghost use Rattle.snapshot_core.specs.Beside.{time_part, position_part, beside_codec};

use crate::pointing::{pointing_of, push_pointing};
use crate::version::Version;
use sensor_core::TimeState;
use sensor_plane::PointingState;
use snapshot_codec::{cycle_of, position_of, push_cycle, push_position};
use std::alloc::AllocError;
use x3d_values::{NodeType, Position};

/// The state of a node other than the values of its fields: the cycle of a TimeSensor, what a
/// TouchSensor or a PlaneSensor keeps of the viewers that point, and the position of the value that
/// a sequencer sent last. A node of another type keeps none of these.
#[derive(Clone, Copy)]
pub struct Beside {
    pub time: TimeState,
    pub pointing: PointingState,
    pub position: Position,
}

fn state_of(cycle: Option<u64>) -> TimeState
    requires { IsTrue (cycle_fits cycle) }
    ensures { result ≡ cycle }
{
    match cycle {
        Some(number) => TimeState::active(number),
        None => TimeState::inactive(),
    }
}

/// Reads a TimeSensor's cycle.
fn time_state_of(bytes: &[u8]) -> Option<(TimeState, &[u8])>
    ensures { option_map (λ x. (x.0, x.1.now)) result ≡ cycle_codec.read bytes.now }
{
    let Some((cycle, rest)) = cycle_of(bytes) else {
        return None;
    };
    Some((state_of(cycle), rest))
}

#[tactic(auto, unfolding(crate::specs::Beside::time_part))]
fn time_of(node_type: NodeType, bytes: &[u8]) -> Option<(TimeState, &[u8])>
    ensures { option_map (λ x. (x.0, x.1.now)) result ≡ (time_part node_type).read bytes.now }
{
    match node_type {
        NodeType::TimeSensor => time_state_of(bytes),
        _ => Some((TimeState::inactive(), bytes)),
    }
}

#[tactic(auto, unfolding(crate::specs::Beside::time_part))]
fn push_time(node_type: NodeType, time: TimeState, out: &mut Vec<u8>) -> Result<(), AllocError>
    ensures ok { OnOk result (out.new.items ≡ out.old.items ++ (time_part node_type).write time) }
    ensures err { OnErr result (out.new.items ≡ out.old.items) }
{
    match node_type {
        NodeType::TimeSensor => push_cycle(time.cycle(), out),
        _ => Ok(()),
    }
}

#[tactic(auto, unfolding(crate::specs::Beside::position_part))]
fn place_of(node_type: NodeType, bytes: &[u8]) -> Option<(Position, &[u8])>
    ensures { option_map (λ x. (x.0, x.1.now)) result ≡ (position_part node_type).read bytes.now }
{
    match node_type {
        NodeType::BooleanSequencer => position_of(bytes),
        NodeType::IntegerSequencer => position_of(bytes),
        _ => Some((Position { at: None }, bytes)),
    }
}

#[tactic(auto, unfolding(crate::specs::Beside::position_part))]
fn push_place(node_type: NodeType, position: Position, out: &mut Vec<u8>) -> Result<(), AllocError>
    ensures ok { OnOk result
        (out.new.items ≡ out.old.items ++ (position_part node_type).write position) }
    ensures err { OnErr result (out.new.items ≡ out.old.items) }
{
    match node_type {
        NodeType::BooleanSequencer => push_position(position, out),
        NodeType::IntegerSequencer => push_position(position, out),
        _ => Ok(()),
    }
}

/// Reads the part after the fields of a node of this type, in a snapshot of this version. Returns
/// it with the rest of the bytes, or `None` if the bytes don't encode one.
#[tactic(auto, unfolding(crate::specs::Beside::beside_codec))]
pub fn beside_of(version: Version, node_type: NodeType, bytes: &[u8]) -> Option<(Beside, &[u8])>
    ensures { option_map (λ x. (x.0, x.1.now)) result
        ≡ (beside_codec version node_type).read bytes.now }
{
    let Some((time, rest)) = time_of(node_type, bytes) else {
        return None;
    };
    let Some((pointing, rest)) = pointing_of(version, node_type, rest) else {
        return None;
    };
    let Some((position, rest)) = place_of(node_type, rest) else {
        return None;
    };
    let beside = Beside {
        time,
        pointing,
        position,
    };
    Some((beside, rest))
}

/// Appends the part after the fields of a node of this type, for a snapshot of this version. On
/// `AllocError`, `out` may hold a part of it.
#[tactic(auto, unfolding(crate::specs::Beside::beside_codec))]
pub fn push_beside(
    version: Version,
    node_type: NodeType,
    beside: &Beside,
    out: &mut Vec<u8>,
) -> Result<(), AllocError>
    ensures ok { OnOk result
        (out.new.items ≡ out.old.items ++ (beside_codec version node_type).write beside.now) }
    ensures kept { Extends out.old.items out.new.items }
{
    push_time(node_type, beside.time, out)?;
    push_pointing(version, node_type, &beside.pointing, out)?;
    push_place(node_type, beside.position, out)?;
    Ok(())
}
