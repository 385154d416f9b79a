//! The snapshot of a world.

ghost use Rattle.std.specs.Prelude.{◌≡◌, ◌++◌, Err, OnErr, OnOk};
ghost use Rattle.x3d_lists.specs.Extends.{Extends};
ghost use Rattle.cascade_core.specs.Held.{IfRunning, IfSpoiled};
ghost use Rattle.snapshot_core.specs.Shot.{shot};

use crate::fault::SaveFault;
use crate::version::newest;
use crate::world::push_body;
use cascade_core::{Stage, WorldData};
use scene_core::Scene;
use script_host::Behaviour;
use snapshot_codec::{push_digest, push_front};
use std::alloc::AllocError;
use x3d_values::Items;

/// Appends the newest version's snapshot of a world with the states of its scripts. On
/// `AllocError`, `out` may hold a part of it.
fn push_shot(
    scene: &Scene,
    world: &WorldData,
    states: &[Items<i64>],
    mark: &[u8; 32],
    boot: u32,
    out: &mut Vec<u8>,
) -> Result<(), AllocError>
    ensures ok { OnOk result (out.new.items
        ≡ out.old.items
        ++ shot mark.now boot scene.now (record { world = world.now; states = states.now })) }
    ensures kept { Extends out.old.items out.new.items }
{
    let from = out.len();
    let version = newest();
    push_front(version.number(), mark, out)?;
    push_body(version, scene, world, states, boot, out)?;
    push_digest(from, out)
}

/// Appends the newest version's snapshot of a stage's world, with the mark of its scene and a boot.
/// Returns `Spoiled` if the stage is spoiled, and `Memory` if memory runs out; the buffer is then
/// unchanged.
pub fn save<B: Behaviour>(
    stage: &Stage<B>,
    mark: &[u8; 32],
    boot: u32,
    out: &mut Vec<u8>,
) -> Result<(), SaveFault>
    ensures spoiled { IfSpoiled stage.now.held
        ((result ≡ Err SaveFault.Spoiled) × (out.new.items ≡ out.old.items)) }
    ensures ok { IfRunning stage.now.held (λ w.
        OnOk result (out.new.items ≡ out.old.items ++ shot mark.now boot stage.now.scene w)) }
    ensures err { IfRunning stage.now.held (λ w.
        OnErr result ((result ≡ Err SaveFault.Memory) × (out.new.items ≡ out.old.items))) }
{
    let Some(world) = stage.world() else {
        return Err(SaveFault::Spoiled);
    };
    let mut states = Vec::new(stage.allocator());
    if stage.script_states(&mut states).is_err() {
        drop(states);
        return Err(SaveFault::Memory);
    }
    let len = out.len();
    let pushed = push_shot(stage.scene(), world, &states, mark, boot, out);
    drop(states);
    if pushed.is_err() {
        out.truncate(len);
        return Err(SaveFault::Memory);
    }
    Ok(())
}
