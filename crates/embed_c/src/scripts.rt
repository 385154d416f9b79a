//! The scripts of a world.

ghost use Rattle.std.specs.Prelude.{◌≡◌, Option, Some, None, length};
ghost use Rattle.cascade_core.specs.Scripts.{kinds_in};
ghost use Rattle.embed_world.specs.declared.world.EmbeddedWorld.{EmbeddedWorld as Embedded};
ghost use Rattle.embed_world.specs.Status.{Asks};
ghost use Rattle.embed_c.specs.Answers.{IsReplacing};
ghost use Rattle.embed_c.specs.Points.{kind_of};

use embed_handles::WorldHandle;
use embed_handles::world_handle::{put, take};
use embed_world::{CLOSED, DONE, RANGE, status_of_place};
use std::alloc::Global;
use x3d_values::Kind;

/// Returns the kind with this number: 0 Counter, 1 Gate, 2 Adder, 3 Batch, 4 Mover, 5 Meter.
pub(crate) fn kind_of(number: u8) -> Option<Kind>
    ensures { result ≡ kind_of number }
{
    if number == 0 {
        return Some(Kind::Counter);
    }
    if number == 1 {
        return Some(Kind::Gate);
    }
    if number == 2 {
        return Some(Kind::Adder);
    }
    if number == 3 {
        return Some(Kind::Batch);
    }
    if number == 4 {
        return Some(Kind::Mover);
    }
    if number == 5 {
        return Some(Kind::Meter);
    }
    None
}

/// Writes the number of scripts that the scene runs to `count`.
#[unsafe(no_mangle)]
pub extern "C" fn x3d_world_script_count(
    alloc: Global,
    handle: &mut WorldHandle,
    count: &mut usize,
) -> u8
    ensures kept { handle.new.world ≡ handle.old.world }
    ensures count { Asks (λ (w : Embedded). length (kinds_in w.stage.scene))
        handle.old.world result count.old count.new }
{
    let Some(world) = take(handle, alloc) else {
        return CLOSED;
    };
    *count = world.script_count();
    put(handle, alloc, world);
    DONE
}

/// Replaces the k-th script of a handle's world with a box of this kind.
fn replace(alloc: Global, handle: &mut WorldHandle, k: usize, kind: Kind) -> u8
    ensures { IsReplacing k (Some kind) handle.old.world result handle.new.world }
{
    let Some(mut world) = take(handle, alloc) else {
        return CLOSED;
    };
    let answer = world.replace_script(k, kind);
    put(handle, alloc, world);
    status_of_place(answer)
}

/// Replaces the k-th script with a new box of this kind, which goes on in its state. The world is
/// unchanged.
#[unsafe(no_mangle)]
pub extern "C" fn x3d_world_replace_script(
    alloc: Global,
    handle: &mut WorldHandle,
    k: usize,
    kind: u8,
) -> u8
    ensures { IsReplacing k (kind_of kind) handle.old.world result handle.new.world }
{
    let Some(kind) = kind_of(kind) else {
        return RANGE;
    };
    replace(alloc, handle, k, kind)
}
