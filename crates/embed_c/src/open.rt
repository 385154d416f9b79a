//! Opens and closes a world.

ghost use Rattle.std.specs.Prelude.{◌≡◌, ℕ, None};
ghost use Rattle.std.specs.Result.{result_map_both};
ghost use Rattle.app_program.specs.Refusal.{refusal_text, status};
ghost use Rattle.app_program.specs.declared.refusal.Failure.TheVariants.{Job};
ghost use Rattle.embed_world.specs.Calls.{IsWorldOpened};
ghost use Rattle.embed_world.specs.Status.{IsCopied};
ghost use Rattle.embed_c.specs.Answers.{Opens};

use app_jobs::JobFault;
use app_program::{Failure, refusal_line, status_of};
use embed_handles::WorldHandle;
use embed_handles::world_handle::{put, take};
use embed_world::{DONE, EmbeddedWorld, copy_text};
use std::alloc::Global;

/// Returns a world on the heap.
fn boxed(alloc: Global, text: &[u8]) -> Result<Box<EmbeddedWorld>, JobFault>
    ensures { IsWorldOpened text.now
        (result_map_both (λ b. b.value) (λ fault. fault) result) }
{
    let world = EmbeddedWorld::open(alloc, text)?;
    match Box::new(alloc, world) {
        Ok(world) => Ok(world),
        Err(_refused) => Err(JobFault::Memory),
    }
}

/// Copies the line of a refusal, and returns its status.
pub(crate) fn refuse(fault: JobFault, refusal: &mut [u8], wanted: &mut usize) -> u8
    ensures status { result ≡ status (Job fault) }
    ensures line { (copied : ℕ)
        × IsCopied (refusal_text (Job fault)) refusal.old copied wanted.new refusal.new }
{
    let failure = Failure::Job(fault);
    let line = refusal_line(&failure);
    copy_text(refusal, line.as_bytes(), wanted);
    status_of(&failure)
}

/// Frees the world of a handle, if it has one.
fn empty(alloc: Global, handle: &mut WorldHandle)
    ensures { handle.new.world ≡ None }
{
    drop(take(handle, alloc));
}

/// Opens the world of a scene's text, in place of the one that the handle had. On a refusal the
/// handle is empty, and the line of the refusal is copied.
#[unsafe(no_mangle)]
pub extern "C" fn x3d_world_open(
    alloc: Global,
    handle: &mut WorldHandle,
    text: &[u8],
    refusal: &mut [u8],
    wanted: &mut usize,
) -> u8
    ensures { Opens text.now result handle.new.world refusal.old wanted.new refusal.new }
{
    empty(alloc, handle);
    match boxed(alloc, text) {
        Ok(world) => {
            put(handle, alloc, world);
            copy_text(refusal, b"", wanted);
            DONE
        }
        Err(fault) => refuse(fault, refusal, wanted),
    }
}

/// Frees the world. Does nothing if there is none.
#[unsafe(no_mangle)]
pub extern "C" fn x3d_world_close(alloc: Global, handle: &mut WorldHandle)
    ensures { handle.new.world ≡ None }
{
    empty(alloc, handle);
}
