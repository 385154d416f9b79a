//! Applies inputs to a world.

ghost use Rattle.std.specs.Prelude.{◌≡◌, Some, None};
ghost use Rattle.x3d_values.specs.declared.stamped.Cause.TheVariants.{Clock};
ghost use Rattle.embed_world.specs.Pointing as pointing;
ghost use Rattle.embed_c.specs.Answers.{AppliesAt, InputIsApplied};
ghost use Rattle.embed_c.specs.Points.{aimed, direction_of, origin_of, pointed};

use embed_handles::WorldHandle;
use embed_handles::world_handle::{put, take};
use embed_world::{Aim, CLOSED, DONE, RANGE, pointer_of, ray_of, stamped, status_of_apply};
use std::alloc::Global;
use x3d_values::{Cause, Ray, Stamped, Vec3};

/// What an input led to: how many outputs sent, how many routes were followed and how many scripts
/// settled.
#[derive(Clone, Copy)]
#[repr(C)]
pub struct WorkCount {
    pub sends: usize,
    pub deliveries: usize,
    pub settles: usize,
}

/// Applies an input to the world of a handle.
fn apply(alloc: Global, handle: &mut WorldHandle, input: &Stamped, work: &mut WorkCount) -> u8
    ensures { AppliesAt input.now handle.old.world result handle.new.world work.old work.new }
{
    let Some(mut world) = take(handle, alloc) else {
        return CLOSED;
    };
    let answer = world.apply(input);
    put(handle, alloc, world);
    match answer {
        Ok(done) => {
            work.sends = done.sends;
            work.deliveries = done.deliveries;
            work.settles = done.settles;
            DONE
        }
        Err(fault) => status_of_apply(fault),
    }
}

/// Applies a clock with this number, at this time in microseconds.
#[unsafe(no_mangle)]
pub extern "C" fn x3d_world_clock(
    alloc: Global,
    handle: &mut WorldHandle,
    number: u64,
    time: i64,
    work: &mut WorkCount,
) -> u8
    ensures { InputIsApplied (pointing.stamped number time Clock) handle.old.world result
        handle.new.world work.old work.new }
{
    let Some(input) = stamped(number, time, Cause::Clock) else {
        return RANGE;
    };
    apply(alloc, handle, &input, work)
}

/// Returns where the ray begins.
pub(crate) fn origin_of(aim: &Aim) -> Vec3
    ensures { result ≡ origin_of aim.now }
{
    Vec3 {
        x: aim.origin_x,
        y: aim.origin_y,
        z: aim.origin_z,
    }
}

/// Returns the direction of the ray.
pub(crate) fn direction_of(aim: &Aim) -> Vec3
    ensures { result ≡ direction_of aim.now }
{
    Vec3 {
        x: aim.direction_x,
        y: aim.direction_y,
        z: aim.direction_z,
    }
}

/// Returns the ray that a viewer points with. `None` if it is out of range.
pub(crate) fn aimed(aim: &Aim) -> Option<Ray>
    ensures { result ≡ aimed aim.now }
{
    ray_of(origin_of(aim), direction_of(aim))
}

/// Returns the pointer input of viewer `who`. `None` if a number is out of range.
fn pointed(number: u64, time: i64, who: u8, down: bool, aim: &Aim) -> Option<Stamped>
    ensures { result ≡ pointed number time who down aim.now }
{
    let Some(pointer) = pointer_of(who, down, origin_of(aim), direction_of(aim)) else {
        return None;
    };
    stamped(number, time, Cause::Pointer(pointer))
}

/// Applies a pointer of viewer `who` with this number, at this time in microseconds.
#[unsafe(no_mangle)]
pub extern "C" fn x3d_world_point(
    alloc: Global,
    handle: &mut WorldHandle,
    number: u64,
    time: i64,
    who: u8,
    down: bool,
    aim: &Aim,
    work: &mut WorkCount,
) -> u8
    ensures { InputIsApplied (pointed number time who down aim.now) handle.old.world result
        handle.new.world work.old work.new }
{
    let Some(input) = pointed(number, time, who, down, aim) else {
        return RANGE;
    };
    apply(alloc, handle, &input, work)
}
