//! A whole world, with its boot.

ghost use Rattle.std.specs.Prelude.{◌≡◌, ◌++◌, OnOk, length};
ghost use Rattle.x3d_lists.specs.Extends.{Extends};
ghost use Rattle.byte_codec.specs.Codec.{whole};
ghost use Rattle.cascade_core.specs.Scripts.{kinds_in};
ghost use Rattle.snapshot_codec.specs.Reads.{ReadsPart};
ghost use Rattle.snapshot_core.specs.Shot.{body_codec};
ghost use Rattle.snapshot_core.specs.WorldCodec.{booted, parts_codec, world_with};

use crate::buttons::{buttons_of, push_buttons};
use crate::lines::{lines_of, push_lines};
use crate::nodes::{NodeLists, nodes_of, push_nodes};
use crate::opening::none_left;
use crate::states::{push_states, states_of};
use crate::version::Version;
use cascade_core::{State, Trace, Watched, WorldData};
use scene_core::Scene;
use sensor_core::VIEWERS;
use snapshot_codec::{PartFault, Progress, progress_of, push_progress};
use std::alloc::{AllocError, Global};
use x3d_values::Items;

/// The parts of a world other than its progress.
#[derive(Drop)]
pub(crate) struct WorldParts {
    pub nodes: NodeLists,
    pub buttons: [bool; VIEWERS],
    pub states: Items<Items<i64>>,
    pub trace: Trace,
}

/// A boot, and the world that was read with it: its data, and the states of its scripts.
#[derive(Drop)]
pub(crate) struct Found {
    pub boot: u32,
    pub world: WorldData,
    pub states: Items<Items<i64>>,
}

/// Reads the parts of a world of the scene, which runs `scripts` scripts, in a snapshot of this
/// version. Returns them with the rest of the bytes.
#[tactic(auto, unfolding(crate::specs::WorldCodec::parts_codec))]
fn parts_of<'a>(
    alloc: Global,
    version: Version,
    scene: &Scene,
    scripts: usize,
    bytes: &'a [u8],
) -> Result<(WorldParts, &'a [u8]), PartFault>
    requires { scripts ≡ length (kinds_in scene.now) }
    ensures { ReadsPart (λ x. (x.0, x.1.now)) result
        ((parts_codec version scene.now).read bytes.now) }
{
    let (nodes, rest) = nodes_of(alloc, version, scene, bytes)?;
    let Some(read) = buttons_of(version, rest) else {
        drop(nodes);
        return Err(PartFault::NotCanonical);
    };
    let (buttons, rest) = read;
    let (states, rest) = match states_of(alloc, scripts, rest) {
        Ok(read) => read,
        Err(fault) => {
            drop(nodes);
            return Err(fault);
        }
    };
    let (trace, rest) = match lines_of(alloc, version, scene, rest) {
        Ok(read) => read,
        Err(fault) => {
            drop(nodes);
            drop(states);
            return Err(fault);
        }
    };
    let parts = WorldParts {
        nodes,
        buttons,
        states,
        trace,
    };
    Ok((parts, rest))
}

/// Makes a world of its progress and these parts.
fn found_with(progress: Progress, parts: WorldParts) -> Found
    ensures { booted result ≡ (progress.boot, world_with progress parts) }
{
    let WorldParts {
        nodes,
        buttons,
        states,
        trace,
    } = parts;
    let world = WorldData {
        applied: progress.applied,
        last_time: progress.last_time,
        fields: State::from_vec(nodes.fields.into_vec()),
        sensors: Watched::from_vec(nodes.sensors.into_vec()),
        pointing: Watched::from_vec(nodes.pointing.into_vec()),
        buttons,
        trace,
    };
    Found {
        boot: progress.boot,
        world,
        states,
    }
}

/// Reads a boot and a world of the scene. Returns them with the rest of the bytes.
fn world_of<'a>(
    alloc: Global,
    version: Version,
    scene: &Scene,
    scripts: usize,
    bytes: &'a [u8],
) -> Result<(Found, &'a [u8]), PartFault>
    requires { scripts ≡ length (kinds_in scene.now) }
    ensures { ReadsPart (λ x. (booted x.0, x.1.now)) result
        ((body_codec version scene.now).read bytes.now) }
{
    let Some((progress, rest)) = progress_of(version.numbers(), bytes) else {
        return Err(PartFault::NotCanonical);
    };
    let (parts, rest) = parts_of(alloc, version, scene, scripts, rest)?;
    Ok((found_with(progress, parts), rest))
}

/// Reads the boot and the world of the scene, which runs `scripts` scripts, in a snapshot of this
/// version. Returns `NotCanonical` unless they take up all of the bytes, and `Memory` if memory
/// runs out.
pub(crate) fn body_of(
    alloc: Global,
    version: Version,
    scene: &Scene,
    scripts: usize,
    bytes: &[u8],
) -> Result<Found, PartFault>
    requires { scripts ≡ length (kinds_in scene.now) }
    ensures { ReadsPart booted result (whole ((body_codec version scene.now).read bytes.now)) }
{
    let (found, rest) = world_of(alloc, version, scene, scripts, bytes)?;
    if let Err(fault) = none_left(rest) {
        drop(found);
        return Err(fault);
    }
    Ok(found)
}

/// Appends a boot and a world of the scene with the states of its scripts, for a snapshot of this
/// version. On `AllocError`, `out` may hold a part of them.
pub(crate) fn push_body(
    version: Version,
    scene: &Scene,
    world: &WorldData,
    states: &[Items<i64>],
    boot: u32,
    out: &mut Vec<u8>,
) -> Result<(), AllocError>
    ensures ok { OnOk result (out.new.items
        ≡ out.old.items
        ++ (body_codec version scene.now).write
        (boot, record { world = world.now; states = states.now })) }
    ensures kept { Extends out.old.items out.new.items }
{
    let progress = Progress {
        boot,
        applied: world.applied,
        last_time: world.last_time,
    };
    push_progress(version.numbers(), progress, out)?;
    push_nodes(version, scene, world, out)?;
    push_buttons(version, &world.buttons, out)?;
    push_states(states, out)?;
    push_lines(version, &world.trace, out)?;
    Ok(())
}
