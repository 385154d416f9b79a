//! The host of a shared world.

ghost use Rattle.std.specs.Prelude.{◌≡◌, Some, None, IfSome, length};
ghost use Rattle.embed_world.specs.Hosts as hosts;
ghost use Rattle.embed_world.specs.declared.host.EmbeddedHost.{EmbeddedHost as Embedded};
ghost use Rattle.embed_world.specs.Status.{Asks, Calls, CallsOut, Hears, out_of_range, HandsOut, no_packet};
ghost use Rattle.embed_c.specs.NodeAnswers.{HostOpens, keeps, status_of_nothing};
ghost use Rattle.embed_world.specs.PeerStatus.{number_by, replied, status_by, status_of_floor, status_of_host, status_of_number};

use embed_handles::HostHandle;
use embed_handles::host_handle::{put, take};
use embed_world::{
    CLOSED, DONE, EmbeddedHost, MEMORY, NO_PACKET, RANGE, ReplyAs, hand_out, status_of_floor,
    tell_heard, tell_number, tell_reply,
};
use std::alloc::Global;

/// Frees the host of a handle, if it has one.
fn empty(alloc: Global, handle: &mut HostHandle)
    ensures { handle.new.host ≡ None }
{
    drop(take(handle, alloc));
}

/// Returns a host on the heap, or `None` if memory runs out.
fn boxed(alloc: Global, host: EmbeddedHost) -> Option<Box<EmbeddedHost>>
    ensures { IfSome result (λ b. b.value ≡ host) }
{
    Box::new(alloc, host).ok()
}

/// Puts a host into a handle, in place of the one that it had. Leaves the handle empty if memory
/// runs out.
fn hold(alloc: Global, handle: &mut HostHandle, host: EmbeddedHost) -> u8
    ensures { HostOpens (Some host) handle.old.host result handle.new.host }
{
    empty(alloc, handle);
    let Some(host) = boxed(alloc, host) else {
        return MEMORY;
    };
    put(handle, alloc, host);
    DONE
}

/// Opens the host of a scene's text for 1 to 64 viewers, in place of the one that the handle had.
#[unsafe(no_mangle)]
pub extern "C" fn x3d_host_open(
    alloc: Global,
    handle: &mut HostHandle,
    text: &[u8],
    viewers: u8,
) -> u8
    ensures { HostOpens (hosts.started text.now viewers) handle.old.host result handle.new.host }
{
    let Some(host) = EmbeddedHost::start(alloc, text, viewers) else {
        return RANGE;
    };
    hold(alloc, handle, host)
}

/// Frees the host. Does nothing if there is none.
#[unsafe(no_mangle)]
pub extern "C" fn x3d_host_close(alloc: Global, handle: &mut HostHandle)
    ensures { handle.new.host ≡ None }
{
    empty(alloc, handle);
}

/// Numbers a clock at this time in microseconds, and writes its number to `number`.
#[unsafe(no_mangle)]
pub extern "C" fn x3d_host_clock(
    alloc: Global,
    handle: &mut HostHandle,
    time: i64,
    number: &mut u64,
) -> u8
    ensures { CallsOut (λ (h : Embedded). hosts.Clocks h time) (status_by status_of_number)
        number_by handle.old.host result handle.new.host number.old number.new }
{
    let Some(mut host) = take(handle, alloc) else {
        return CLOSED;
    };
    let answer = host.clock(time);
    put(handle, alloc, host);
    tell_number(answer, number)
}

/// Takes the bytes of a datagram, and writes what the host did with it to `reply`.
#[unsafe(no_mangle)]
pub extern "C" fn x3d_host_take(
    alloc: Global,
    handle: &mut HostHandle,
    bytes: &[u8],
    reply: &mut ReplyAs,
) -> u8
    ensures { CallsOut (λ (h : Embedded). hosts.HostTakes h bytes.now) (status_by status_of_host)
        replied handle.old.host result handle.new.host reply.old reply.new }
{
    let Some(mut host) = take(handle, alloc) else {
        return CLOSED;
    };
    let answer = host.take(bytes);
    put(handle, alloc, host);
    tell_reply(answer, reply)
}

/// Takes the bytes of a datagram that came from viewer `who`, and writes what the host did with it
/// to `reply`. An offer or an ask of another viewer is refused.
#[unsafe(no_mangle)]
pub extern "C" fn x3d_host_take_from(
    alloc: Global,
    handle: &mut HostHandle,
    who: u8,
    bytes: &[u8],
    reply: &mut ReplyAs,
) -> u8
    ensures { CallsOut (λ (h : Embedded). hosts.HostTakesFrom h who bytes.now)
        (status_by status_of_host) replied handle.old.host result handle.new.host reply.old
        reply.new }
{
    let Some(mut host) = take(handle, alloc) else {
        return CLOSED;
    };
    let answer = host.take_from(who, bytes);
    put(handle, alloc, host);
    tell_reply(answer, reply)
}

/// Writes the number that viewer `who` has asked from, 0 if it hasn't asked, to `asked`.
#[unsafe(no_mangle)]
pub extern "C" fn x3d_host_heard(
    alloc: Global,
    handle: &mut HostHandle,
    who: u8,
    asked: &mut u64,
) -> u8
    ensures kept { handle.new.host ≡ handle.old.host }
    ensures asked { Hears (λ (h : Embedded). hosts.heard_of h who) handle.old.host result asked.old
        asked.new }
{
    let Some(host) = take(handle, alloc) else {
        return CLOSED;
    };
    let found = host.heard(who);
    put(handle, alloc, host);
    tell_heard(found, asked)
}

/// Drops the inputs that every viewer that asked has, except the last `count` of them.
#[unsafe(no_mangle)]
pub extern "C" fn x3d_host_keep(alloc: Global, handle: &mut HostHandle, count: u64) -> u8
    ensures { Calls (keeps count) status_of_nothing handle.old.host result handle.new.host }
{
    let Some(mut host) = take(handle, alloc) else {
        return CLOSED;
    };
    host.keep(count);
    put(handle, alloc, host);
    DONE
}

/// Copies the datagram of the input with this number.
#[unsafe(no_mangle)]
pub extern "C" fn x3d_host_packet(
    alloc: Global,
    handle: &mut HostHandle,
    number: u64,
    out: &mut [u8],
    wanted: &mut usize,
) -> u8
    ensures kept { handle.new.host ≡ handle.old.host }
    ensures packet { HandsOut no_packet (λ (h : Embedded). hosts.input_bytes h number)
        handle.old.host result out.old wanted.old wanted.new out.new }
{
    let Some(host) = take(handle, alloc) else {
        return CLOSED;
    };
    let packet = host.packet(number);
    put(handle, alloc, host);
    hand_out(packet, NO_PACKET, out, wanted)
}

/// Copies the datagram that says how many offers of viewer `who` are numbered.
#[unsafe(no_mangle)]
pub extern "C" fn x3d_host_ack(
    alloc: Global,
    handle: &mut HostHandle,
    who: u8,
    out: &mut [u8],
    wanted: &mut usize,
) -> u8
    ensures kept { handle.new.host ≡ handle.old.host }
    ensures packet { HandsOut out_of_range (λ (h : Embedded). hosts.ack_bytes h who)
        handle.old.host result out.old wanted.old wanted.new out.new }
{
    let Some(host) = take(handle, alloc) else {
        return CLOSED;
    };
    let packet = host.ack(who);
    put(handle, alloc, host);
    hand_out(packet, RANGE, out, wanted)
}

/// Writes the floor to `number`: inputs below it have no datagrams.
#[unsafe(no_mangle)]
pub extern "C" fn x3d_host_floor(alloc: Global, handle: &mut HostHandle, number: &mut u64) -> u8
    ensures kept { handle.new.host ≡ handle.old.host }
    ensures number { Asks (λ (h : Embedded). h.host.part.floor) handle.old.host result number.old
        number.new }
{
    let Some(host) = take(handle, alloc) else {
        return CLOSED;
    };
    *number = host.floor();
    put(handle, alloc, host);
    DONE
}

/// Copies the datagram that says the floor.
#[unsafe(no_mangle)]
pub extern "C" fn x3d_host_floor_packet(
    alloc: Global,
    handle: &mut HostHandle,
    out: &mut [u8],
    wanted: &mut usize,
) -> u8
    ensures kept { handle.new.host ≡ handle.old.host }
    ensures packet { HandsOut no_packet (λ (h : Embedded). Some (hosts.floor_bytes h))
        handle.old.host result out.old wanted.old wanted.new out.new }
{
    let Some(host) = take(handle, alloc) else {
        return CLOSED;
    };
    let packet = host.floor_packet();
    put(handle, alloc, host);
    hand_out(packet, NO_PACKET, out, wanted)
}

/// Drops the inputs below this number.
#[unsafe(no_mangle)]
pub extern "C" fn x3d_host_drop_below(alloc: Global, handle: &mut HostHandle, number: u64) -> u8
    ensures { Calls (λ (h : Embedded). hosts.Drops h number) status_of_floor
        handle.old.host result handle.new.host }
{
    let Some(mut host) = take(handle, alloc) else {
        return CLOSED;
    };
    let answer = host.drop_below(number);
    put(handle, alloc, host);
    status_of_floor(answer)
}

/// Writes how many inputs are numbered to `count`.
#[unsafe(no_mangle)]
pub extern "C" fn x3d_host_count(alloc: Global, handle: &mut HostHandle, count: &mut u64) -> u8
    ensures kept { handle.new.host ≡ handle.old.host }
    ensures count { Asks (λ (h : Embedded). h.host.part.count) handle.old.host result count.old
        count.new }
{
    let Some(host) = take(handle, alloc) else {
        return CLOSED;
    };
    *count = host.count();
    put(handle, alloc, host);
    DONE
}

/// Writes how many viewers there are to `count`.
#[unsafe(no_mangle)]
pub extern "C" fn x3d_host_viewers(alloc: Global, handle: &mut HostHandle, count: &mut u32) -> u8
    ensures kept { handle.new.host ≡ handle.old.host }
    ensures count { Asks (λ (h : Embedded). length h.host.part.kept) handle.old.host result
        count.old count.new }
{
    let Some(host) = take(handle, alloc) else {
        return CLOSED;
    };
    *count = host.viewers();
    put(handle, alloc, host);
    DONE
}
