//! The world of a snapshot.

ghost use Rattle.std.specs.Prelude.{◌≡◌, ◌⊎◌, Err, None, Ok, Result, length};
ghost use Rattle.std.specs.Result.{result_map_both};
ghost use Rattle.cascade_core.specs.Held.{spoiled};
ghost use Rattle.cascade_core.specs.Scripts.{kinds_in};
ghost use Rattle.snapshot_core.specs.Opening.{fault_before, found_body, version_in};
ghost use Rattle.snapshot_core.specs.Loading.{behind_head, load_outcome, loaded, loaded_body, with_states};
ghost use Rattle.snapshot_core.specs.WorldCodec.{booted};

use crate::fault::{SnapFault, fault_of};
use crate::opening::{body_in, is_older};
use crate::version::{Version, version_in};
use crate::world::{Found, body_of};
use cascade_core::Stage;
use scene_core::Scene;
use script_host::{Behaviour, StateFault};
use snapshot_codec::PartFault;
use std::alloc::Global;

/// The boot of a snapshot, and the number of inputs applied to its world.
#[derive(Clone, Copy, PartialEq, Eq)]
pub struct Saved {
    pub boot: u32,
    /// Up to 2^48 - 1.
    pub applied: u64,
}

/// Reads the boot and the world from the body of a snapshot of this version, for a viewer that
/// starts again as `boot`. The scene runs `scripts` scripts.
fn loaded_body(
    alloc: Global,
    version: Version,
    scene: &Scene,
    scripts: usize,
    boot: u32,
    body: &[u8],
) -> Result<Found, SnapFault>
    requires { scripts ≡ length (kinds_in scene.now) }
    ensures { (loaded_body version scene.now boot body.now
        ≡ result_map_both booted (λ fault. fault) result)
        ⊎ (result ≡ Err SnapFault.Memory) }
{
    match body_of(alloc, version, scene, scripts, body) {
        Ok(found) => {
            if is_older(found.boot, boot) {
                Ok(found)
            } else {
                drop(found);
                Err(SnapFault::BootNotNew)
            }
        }
        Err(PartFault::NotCanonical) => Err(SnapFault::NotCanonical),
        Err(PartFault::Memory) => Err(SnapFault::Memory),
    }
}

/// Reads the boot and the world of a snapshot, of the version that it names, for a viewer that
/// starts again as `boot`. The scene runs `scripts` scripts; their states aren't checked.
fn behind_head(
    alloc: Global,
    scene: &Scene,
    scripts: usize,
    mark: &[u8; 32],
    boot: u32,
    bytes: &[u8],
) -> Result<Found, SnapFault>
    requires { scripts ≡ length (kinds_in scene.now) }
    ensures { (behind_head (version_in bytes.now) scene.now boot (found_body mark.now bytes.now)
        ≡ result_map_both booted (λ fault. fault) result)
        ⊎ ((result ≡ Err SnapFault.Memory) × (fault_before mark.now bytes.now ≡ None)) }
{
    match body_in(mark, bytes) {
        Ok(body) => loaded_body(alloc, version_in(bytes), scene, scripts, boot, body),
        Err(fault) => Err(fault_of(fault)),
    }
}

/// Puts a world that was read into a stage, if it has a state for each script.
fn put<B: Behaviour>(stage: &mut Stage<B>, found: Found) -> Result<Saved, SnapFault>
    ensures { (load_outcome stage.old (with_states stage.old.scene (Ok (booted found)))
        ≡ (result, stage.new))
        ⊎ ((result ≡ Err SnapFault.Memory) × (stage.new ≡ spoiled stage.old)) }
{
    let Found {
        boot,
        world,
        states,
    } = found;
    let applied = world.applied;
    match stage.install(world, states.as_slice()) {
        Ok(()) => {
            drop(states);
            Ok(Saved { boot, applied })
        }
        Err(StateFault::StateLength) => {
            drop(states);
            Err(SnapFault::ScriptState)
        }
        Err(StateFault::StateRange) => {
            drop(states);
            Err(SnapFault::ScriptState)
        }
        Err(StateFault::Memory) => {
            drop(states);
            Err(SnapFault::Memory)
        }
    }
}

/// Puts the world of a snapshot into a stage; a spoiled stage is repaired by this. The snapshot
/// must be of the scene with this mark, of a version that can be read and of a boot below `boot`.
/// The first fault that holds is returned: `Short`, `BadMagic`, `BadVersion`, `WrongScene`,
/// `BadDigest`, `NotCanonical` (also if bytes are left over), `BootNotNew`, `ScriptState` (there
/// isn't a fitting state for each script). The stage is then unchanged. `Memory` is returned if
/// memory runs out, which only happens after the head and the digest are checked; the stage is then
/// spoiled.
#[tactic(auto, unfolding(crate::specs::Loading::loaded))]
pub fn load_into<B: Behaviour>(
    stage: &mut Stage<B>,
    mark: &[u8; 32],
    boot: u32,
    bytes: &[u8],
) -> Result<Saved, SnapFault>
    ensures { (load_outcome stage.old (loaded mark.now stage.old.scene boot bytes.now)
        ≡ (result, stage.new))
        ⊎ ((result ≡ Err SnapFault.Memory) × (stage.new ≡ spoiled stage.old)
        × (fault_before mark.now bytes.now ≡ None)) }
{
    let alloc = stage.allocator();
    let scripts = stage.script_count();
    match behind_head(alloc, stage.scene(), scripts, mark, boot, bytes) {
        Ok(found) => put(stage, found),
        Err(SnapFault::Memory) => {
            stage.spoil();
            Err(SnapFault::Memory)
        }
        Err(fault) => Err(fault),
    }
}
