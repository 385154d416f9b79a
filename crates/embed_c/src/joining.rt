//! A viewer begins again in the world of a snapshot.

ghost use Rattle.std.specs.Prelude.{◌≡◌, length};
ghost use Rattle.embed_world.specs.Viewers as viewers;
ghost use Rattle.embed_world.specs.declared.viewer.EmbeddedViewer.{EmbeddedViewer as Embedded};
ghost use Rattle.embed_world.specs.Status.{AsksBy, Calls, CallsOut, status_of_save, status_of_snap, HandsOut, no_packet};
ghost use Rattle.embed_c.specs.NodeAnswers.{forgets, status_of_nothing};
ghost use Rattle.embed_world.specs.PeerStatus.{gathered_by, number_by, status_by, status_of_gather, status_of_join, status_of_size};

use embed_handles::ViewerHandle;
use embed_handles::viewer_handle::{put, take};
use embed_world::{
    CLOSED, DONE, NO_PACKET, hand_out, status_of_save, status_of_size, tell_gathered, tell_joined,
    tell_rewound,
};
use std::alloc::Global;

/// Makes the snapshot of the viewer's world, taken as its boot. It is copied like a text.
#[unsafe(no_mangle)]
pub extern "C" fn x3d_viewer_make_snapshot(alloc: Global, handle: &mut ViewerHandle) -> u8
    ensures { Calls (λ (v : Embedded). viewers.Saves v) status_of_save handle.old.viewer result
        handle.new.viewer }
{
    let Some(mut viewer) = take(handle, alloc) else {
        return CLOSED;
    };
    let answer = viewer.make_snapshot();
    put(handle, alloc, viewer);
    status_of_save(answer)
}

/// Begins again in the world of a snapshot, as another boot, and writes how many inputs that world
/// has had to `applied`.
#[unsafe(no_mangle)]
pub extern "C" fn x3d_viewer_rewind(
    alloc: Global,
    handle: &mut ViewerHandle,
    boot: u32,
    bytes: &[u8],
    applied: &mut u64,
) -> u8
    ensures { CallsOut (λ (v : Embedded). viewers.Rewinds v boot bytes.now)
        (status_by status_of_snap) number_by handle.old.viewer result handle.new.viewer
        applied.old applied.new }
{
    let Some(mut viewer) = take(handle, alloc) else {
        return CLOSED;
    };
    let answer = viewer.rewind(boot, bytes);
    put(handle, alloc, viewer);
    tell_rewound(answer, applied)
}

/// Writes how many pieces the bytes of a snapshot have to `count`: 0 if they do not begin as a
/// snapshot, or if they are more than 2^26, which the status then says.
#[unsafe(no_mangle)]
pub extern "C" fn x3d_viewer_piece_count(
    alloc: Global,
    handle: &mut ViewerHandle,
    bytes: &[u8],
    count: &mut u32,
) -> u8
    ensures kept { handle.new.viewer ≡ handle.old.viewer }
    ensures count { AsksBy (λ (v : Embedded). viewers.pieces_in bytes.now)
        (status_of_size (length bytes.now)) handle.old.viewer result count.old count.new }
{
    let Some(viewer) = take(handle, alloc) else {
        return CLOSED;
    };
    *count = viewer.piece_count(bytes);
    put(handle, alloc, viewer);
    status_of_size(bytes)
}

/// Copies the datagram of the piece with this number, from 0, of a snapshot's bytes.
#[unsafe(no_mangle)]
pub extern "C" fn x3d_viewer_piece(
    alloc: Global,
    handle: &mut ViewerHandle,
    bytes: &[u8],
    index: u32,
    out: &mut [u8],
    wanted: &mut usize,
) -> u8
    ensures kept { handle.new.viewer ≡ handle.old.viewer }
    ensures packet { HandsOut no_packet (λ (v : Embedded). viewers.piece_bytes v bytes.now index)
        handle.old.viewer result out.old wanted.old wanted.new out.new }
{
    let Some(viewer) = take(handle, alloc) else {
        return CLOSED;
    };
    let packet = viewer.piece(bytes, index);
    put(handle, alloc, viewer);
    hand_out(packet, NO_PACKET, out, wanted)
}

/// Gathers the bytes of a datagram, a piece of a snapshot, and writes what was done with it to
/// `gathered`: the piece is new (0), has come before (1), is the last (2), or is of another
/// snapshot (3).
#[unsafe(no_mangle)]
pub extern "C" fn x3d_viewer_gather(
    alloc: Global,
    handle: &mut ViewerHandle,
    bytes: &[u8],
    gathered: &mut u32,
) -> u8
    ensures { CallsOut (λ (v : Embedded). viewers.Gathers v bytes.now) (status_by status_of_gather)
        gathered_by handle.old.viewer result handle.new.viewer gathered.old gathered.new }
{
    let Some(mut viewer) = take(handle, alloc) else {
        return CLOSED;
    };
    let answer = viewer.gather(bytes);
    put(handle, alloc, viewer);
    tell_gathered(answer, gathered)
}

/// Begins again in the world of the gathered snapshot, as another boot, and writes how many inputs
/// that world has had to `applied`.
#[unsafe(no_mangle)]
pub extern "C" fn x3d_viewer_join(
    alloc: Global,
    handle: &mut ViewerHandle,
    boot: u32,
    applied: &mut u64,
) -> u8
    ensures { CallsOut (λ (v : Embedded). viewers.Joins v boot) (status_by status_of_join)
        number_by handle.old.viewer result handle.new.viewer applied.old applied.new }
{
    let Some(mut viewer) = take(handle, alloc) else {
        return CLOSED;
    };
    let answer = viewer.join(boot);
    put(handle, alloc, viewer);
    tell_joined(answer, applied)
}

/// Drops what was gathered.
#[unsafe(no_mangle)]
pub extern "C" fn x3d_viewer_forget(alloc: Global, handle: &mut ViewerHandle) -> u8
    ensures { Calls forgets status_of_nothing handle.old.viewer result handle.new.viewer }
{
    let Some(mut viewer) = take(handle, alloc) else {
        return CLOSED;
    };
    viewer.forget();
    put(handle, alloc, viewer);
    DONE
}
