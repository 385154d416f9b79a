//! The part of a text that the core can run, its world, and the instance that a text is refused
//! for.

ghost use Rattle.std.specs.Prelude.{◌≡◌, None};
ghost use Rattle.std.specs.Result.{result_map_both};
ghost use Rattle.proto_blame.specs.Instance.{instance_line};
ghost use Rattle.embed_parts.specs.Instances.{TellsInstance};
ghost use Rattle.embed_parts.specs.Parts.{IsOpened};
ghost use Rattle.embed_parts.specs.declared.part.EmbeddedPart.{EmbeddedPart as Embedded};
ghost use Rattle.embed_world.specs.Status.{Copies};
ghost use Rattle.embed_c.specs.Parts.{OpensPart, OpensWorldOf};

use crate::open::{refuse, x3d_world_open};
use app_jobs::JobFault;
use embed_handles::part_handle::{put, take};
use embed_handles::{PartHandle, WorldHandle};
use embed_parts::{EmbeddedPart, text_instance};
use embed_world::{CLOSED, DONE, copy_numbers, copy_text};
use std::alloc::Global;

/// Writes the line of the instance whose braces hold the value that a text is refused for, or 0 if
/// no instance's do, to `line`.
#[unsafe(no_mangle)]
pub extern "C" fn x3d_text_instance(alloc: Global, text: &[u8], line: &mut u32) -> u8
    ensures { TellsInstance (instance_line text.now) line.old result line.new }
{
    text_instance(alloc, text, line)
}

/// Returns a part on the heap.
fn boxed(alloc: Global, text: &[u8]) -> Result<Box<EmbeddedPart>, JobFault>
    ensures { IsOpened text.now (result_map_both (λ b. b.value) (λ fault. fault) result) }
{
    let part = EmbeddedPart::open(alloc, text)?;
    match Box::new(alloc, part) {
        Ok(part) => Ok(part),
        Err(_refused) => Err(JobFault::Memory),
    }
}

/// Frees the part of a handle, if it has one.
fn empty(alloc: Global, handle: &mut PartHandle)
    ensures { handle.new.part ≡ None }
{
    drop(take(handle, alloc));
}

/// Opens the part of a text that the core can run, in place of the one that the handle had. On a
/// refusal the handle is empty, and the line of the refusal is copied.
#[unsafe(no_mangle)]
pub extern "C" fn x3d_part_open(
    alloc: Global,
    handle: &mut PartHandle,
    text: &[u8],
    refusal: &mut [u8],
    wanted: &mut usize,
) -> u8
    ensures { OpensPart text.now result handle.new.part refusal.old wanted.new refusal.new }
{
    empty(alloc, handle);
    match boxed(alloc, text) {
        Ok(part) => {
            put(handle, alloc, part);
            copy_text(refusal, b"", wanted);
            DONE
        }
        Err(fault) => refuse(fault, refusal, wanted),
    }
}

/// Frees the part. Does nothing if there is none.
#[unsafe(no_mangle)]
pub extern "C" fn x3d_part_close(alloc: Global, handle: &mut PartHandle)
    ensures { handle.new.part ≡ None }
{
    empty(alloc, handle);
}

/// Copies the text of the part, if `out` has room for it, and writes its number of bytes to
/// `wanted`.
#[unsafe(no_mangle)]
pub extern "C" fn x3d_part_copy_text(
    alloc: Global,
    handle: &mut PartHandle,
    out: &mut [u8],
    wanted: &mut usize,
) -> u8
    ensures kept { handle.new.part ≡ handle.old.part }
    ensures text { Copies (λ (p : Embedded). p.text.items) handle.old.part result out.old
        wanted.old wanted.new out.new }
{
    let Some(part) = take(handle, alloc) else {
        return CLOSED;
    };
    let status = copy_text(out, part.text(), wanted);
    put(handle, alloc, part);
    status
}

/// Copies the lines on what was left out, if `out` has room for them, and writes their number of
/// bytes to `wanted`.
#[unsafe(no_mangle)]
pub extern "C" fn x3d_part_copy_notes(
    alloc: Global,
    handle: &mut PartHandle,
    out: &mut [u8],
    wanted: &mut usize,
) -> u8
    ensures kept { handle.new.part ≡ handle.old.part }
    ensures notes { Copies (λ (p : Embedded). p.told.items) handle.old.part result out.old
        wanted.old wanted.new out.new }
{
    let Some(part) = take(handle, alloc) else {
        return CLOSED;
    };
    let status = copy_text(out, part.told(), wanted);
    put(handle, alloc, part);
    status
}

/// Copies the line and the kind of each thing that was left out, if `out` has room for them, and
/// writes how many numbers there are to `wanted`.
#[unsafe(no_mangle)]
pub extern "C" fn x3d_part_copy_numbers(
    alloc: Global,
    handle: &mut PartHandle,
    out: &mut [i64],
    wanted: &mut usize,
) -> u8
    ensures kept { handle.new.part ≡ handle.old.part }
    ensures numbers { Copies (λ (p : Embedded). p.notes.items) handle.old.part result out.old
        wanted.old wanted.new out.new }
{
    let Some(part) = take(handle, alloc) else {
        return CLOSED;
    };
    let status = copy_numbers(out, part.notes(), wanted);
    put(handle, alloc, part);
    status
}

/// Opens the world of a part, in place of the one that the handle had. On a refusal the handle is
/// empty, and the line of the refusal is copied.
#[unsafe(no_mangle)]
pub extern "C" fn x3d_world_open_part(
    alloc: Global,
    handle: &mut WorldHandle,
    part: &mut PartHandle,
    refusal: &mut [u8],
    wanted: &mut usize,
) -> u8
    ensures kept { part.new.part ≡ part.old.part }
    ensures opened { OpensWorldOf part.old.part handle.old.world result handle.new.world refusal.old
        wanted.old wanted.new refusal.new }
{
    let Some(held) = take(part, alloc) else {
        return CLOSED;
    };
    let status = x3d_world_open(alloc, handle, held.text(), refusal, wanted);
    put(part, alloc, held);
    status
}
