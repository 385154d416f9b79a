//! A viewer of a shared world: it is opened and closed, takes datagrams and makes them.

ghost use Rattle.std.specs.Prelude.{◌≡◌, Some, None, IsTrue, length};
ghost use Rattle.std.specs.Result.{result_map_both};
ghost use Rattle.x3d_values.specs.Ranges.{is_viewer};
ghost use Rattle.share_wire.specs.Messages.{is_ordinal};
ghost use Rattle.share_law.specs.Viewer.{applied_in};
ghost use Rattle.share_core.specs.Viewer.{machine_of};
ghost use Rattle.embed_world.specs.Viewers as viewers;
ghost use Rattle.embed_world.specs.declared.viewer.EmbeddedViewer.{EmbeddedViewer as Embedded};
ghost use Rattle.embed_world.specs.Status.{Asks, CallsOut, HandsOut, no_packet};
ghost use Rattle.embed_c.specs.NodeAnswers.{ViewerOpens, ViewerOpensIf};
ghost use Rattle.embed_world.specs.PeerStatus.{number_by, status_by, status_of_offer, status_of_take, taken_by};
ghost use Rattle.embed_c.specs.Points.{aimed_point};

use crate::inputs::{direction_of, origin_of};
use crate::open::refuse;
use app_jobs::JobFault;
use embed_handles::ViewerHandle;
use embed_handles::viewer_handle::{put, take};
use embed_world::{
    Aim, CLOSED, DONE, EmbeddedViewer, NO_PACKET, RANGE, TakenAs, copy_text, hand_out, tell_offer,
    tell_taken,
};
use share_wire::{is_ordinal, is_viewer};
use std::alloc::Global;
use x3d_values::Point;

/// Returns a viewer on the heap.
fn boxed(alloc: Global, text: &[u8], who: u8, boot: u32) -> Result<Box<EmbeddedViewer>, JobFault>
    requires who { IsTrue (is_viewer who) }
    requires boot { IsTrue (is_ordinal boot) }
    ensures { viewers.IsStarted text.now who boot
        (result_map_both (λ b. b.value) (λ fault. fault) result) }
{
    let viewer = EmbeddedViewer::start(alloc, text, who, boot)?;
    match Box::new(alloc, viewer) {
        Ok(viewer) => Ok(viewer),
        Err(_refused) => Err(JobFault::Memory),
    }
}

/// Frees the viewer of a handle, if it has one.
fn empty(alloc: Global, handle: &mut ViewerHandle)
    ensures { handle.new.viewer ≡ None }
{
    drop(take(handle, alloc));
}

/// Opens the viewer of a scene's text, in place of the one that the handle had.
fn open(
    alloc: Global,
    handle: &mut ViewerHandle,
    text: &[u8],
    who: u8,
    boot: u32,
    refusal: &mut [u8],
    wanted: &mut usize,
) -> u8
    requires who { IsTrue (is_viewer who) }
    requires boot { IsTrue (is_ordinal boot) }
    ensures { ViewerOpens text.now who boot result handle.new.viewer refusal.old wanted.new
        refusal.new }
{
    empty(alloc, handle);
    match boxed(alloc, text, who, boot) {
        Ok(viewer) => {
            put(handle, alloc, viewer);
            copy_text(refusal, b"", wanted);
            DONE
        }
        Err(fault) => refuse(fault, refusal, wanted),
    }
}

/// Opens the viewer of a scene's text as this boot, 1 to 2^32 - 1, of viewer `who`, 0 to 63, in
/// place of the one that the handle had. On a refusal the handle is empty, and the line of the
/// refusal is copied.
#[unsafe(no_mangle)]
pub extern "C" fn x3d_viewer_open(
    alloc: Global,
    handle: &mut ViewerHandle,
    text: &[u8],
    who: u8,
    boot: u32,
    refusal: &mut [u8],
    wanted: &mut usize,
) -> u8
    ensures { ViewerOpensIf (is_viewer who) (is_ordinal boot) text.now who boot handle.old.viewer
        result handle.new.viewer refusal.old wanted.old wanted.new refusal.new }
{
    if !is_viewer(who) {
        return RANGE;
    }
    if !is_ordinal(boot) {
        return RANGE;
    }
    open(alloc, handle, text, who, boot, refusal, wanted)
}

/// Frees the viewer. Does nothing if there is none.
#[unsafe(no_mangle)]
pub extern "C" fn x3d_viewer_close(alloc: Global, handle: &mut ViewerHandle)
    ensures { handle.new.viewer ≡ None }
{
    empty(alloc, handle);
}

/// Writes the number of inputs that were applied, or that had been when memory ran out, to `count`.
#[unsafe(no_mangle)]
pub extern "C" fn x3d_viewer_applied(
    alloc: Global,
    handle: &mut ViewerHandle,
    count: &mut u64,
) -> u8
    ensures kept { handle.new.viewer ≡ handle.old.viewer }
    ensures count { Asks (λ (v : Embedded). applied_in (machine_of v.viewer) v.viewer.state.view)
        handle.old.viewer result count.old count.new }
{
    let Some(viewer) = take(handle, alloc) else {
        return CLOSED;
    };
    *count = viewer.applied();
    put(handle, alloc, viewer);
    DONE
}

/// Writes the viewer's boot to `boot`.
#[unsafe(no_mangle)]
pub extern "C" fn x3d_viewer_boot(alloc: Global, handle: &mut ViewerHandle, boot: &mut u32) -> u8
    ensures kept { handle.new.viewer ≡ handle.old.viewer }
    ensures boot { Asks (λ (v : Embedded). v.viewer.state.boot) handle.old.viewer result boot.old
        boot.new }
{
    let Some(viewer) = take(handle, alloc) else {
        return CLOSED;
    };
    *boot = viewer.boot();
    put(handle, alloc, viewer);
    DONE
}

/// Writes the number of offers that wait to `count`.
#[unsafe(no_mangle)]
pub extern "C" fn x3d_viewer_waiting(
    alloc: Global,
    handle: &mut ViewerHandle,
    count: &mut u32,
) -> u8
    ensures kept { handle.new.viewer ≡ handle.old.viewer }
    ensures count { Asks (λ (v : Embedded). length v.viewer.state.waiting) handle.old.viewer result
        count.old count.new }
{
    let Some(viewer) = take(handle, alloc) else {
        return CLOSED;
    };
    *count = viewer.waiting();
    put(handle, alloc, viewer);
    DONE
}

/// Takes the bytes of a datagram, and writes what the viewer did with it to `taken`.
#[unsafe(no_mangle)]
pub extern "C" fn x3d_viewer_take(
    alloc: Global,
    handle: &mut ViewerHandle,
    bytes: &[u8],
    taken: &mut TakenAs,
) -> u8
    ensures { CallsOut (λ (v : Embedded). viewers.Takes v bytes.now) (status_by status_of_take)
        taken_by handle.old.viewer result handle.new.viewer taken.old taken.new }
{
    let Some(mut viewer) = take(handle, alloc) else {
        return CLOSED;
    };
    let answer = viewer.take(bytes);
    put(handle, alloc, viewer);
    tell_taken(answer, taken)
}

/// Returns the point that the viewer points at.
fn aimed_point(down: bool, aim: &Aim) -> Point
    ensures { result ≡ aimed_point down aim.now }
{
    Point {
        down,
        origin: origin_of(aim),
        dir: direction_of(aim),
    }
}

/// Offers a point, and writes the offer's number to `number`.
fn offer(alloc: Global, handle: &mut ViewerHandle, point: Point, number: &mut u32) -> u8
    ensures { CallsOut (λ (v : Embedded). viewers.Offers v point) (status_by status_of_offer)
        number_by handle.old.viewer result handle.new.viewer number.old number.new }
{
    let Some(mut viewer) = take(handle, alloc) else {
        return CLOSED;
    };
    let answer = viewer.offer(point);
    put(handle, alloc, viewer);
    tell_offer(answer, number)
}

/// Offers what the viewer points at, with the button down or not, and writes the offer's number to
/// `number`.
#[unsafe(no_mangle)]
pub extern "C" fn x3d_viewer_offer(
    alloc: Global,
    handle: &mut ViewerHandle,
    down: bool,
    aim: &Aim,
    number: &mut u32,
) -> u8
    ensures { CallsOut (λ (v : Embedded). viewers.Offers v (aimed_point down aim.now))
        (status_by status_of_offer) number_by handle.old.viewer result handle.new.viewer
        number.old number.new }
{
    let point = aimed_point(down, aim);
    offer(alloc, handle, point, number)
}

/// Copies the datagram of the offer that waits at a place, from 0.
#[unsafe(no_mangle)]
pub extern "C" fn x3d_viewer_resend(
    alloc: Global,
    handle: &mut ViewerHandle,
    place: u32,
    out: &mut [u8],
    wanted: &mut usize,
) -> u8
    ensures kept { handle.new.viewer ≡ handle.old.viewer }
    ensures packet { HandsOut no_packet (λ (v : Embedded). viewers.offer_bytes v place)
        handle.old.viewer result out.old wanted.old wanted.new out.new }
{
    let Some(viewer) = take(handle, alloc) else {
        return CLOSED;
    };
    let packet = viewer.resend(place);
    put(handle, alloc, viewer);
    hand_out(packet, NO_PACKET, out, wanted)
}

/// Copies the datagram that asks for the inputs that the viewer lacks.
#[unsafe(no_mangle)]
pub extern "C" fn x3d_viewer_ask(
    alloc: Global,
    handle: &mut ViewerHandle,
    out: &mut [u8],
    wanted: &mut usize,
) -> u8
    ensures kept { handle.new.viewer ≡ handle.old.viewer }
    ensures packet { HandsOut no_packet (λ (v : Embedded). Some (viewers.ask_bytes v))
        handle.old.viewer result out.old wanted.old wanted.new out.new }
{
    let Some(viewer) = take(handle, alloc) else {
        return CLOSED;
    };
    let packet = viewer.ask();
    put(handle, alloc, viewer);
    hand_out(packet, NO_PACKET, out, wanted)
}
