//! Each call of laws_calls once, between a host and viewer 0: it answers what the call itself does.

use super::given::{CLOCKED, MARK, POINT, Trial, try_on};
use laws_calls::{
    host_ack, host_clock, host_drop_below, host_floor_packet, host_packet, host_take,
    host_take_message, new_host, send_piece, viewer_ask, viewer_forget, viewer_gather, viewer_join,
    viewer_offer, viewer_resend, viewer_rewind, viewer_snapshot, viewer_take,
};
use script_boxes::StockScript;
use share_core::{Host, Viewer};
use share_law::{Gathered, HostReply, JoinFault, Taken};
use share_wire::decode;
use std::alloc::Global;
use std::process::Abort;

/// Numbers a clock, which the viewer applies.
fn applies_a_clock(host: &mut Host, viewer: &mut Viewer<StockScript>) -> bool {
    let numbered = host_clock(host, 1_000_000) == Ok(1);
    match host_packet(host, 1) {
        Some(input) => numbered && viewer_take(viewer, input.as_slice()) == Ok(Taken::Applied(1)),
        None => false,
    }
}

/// The viewer offers a point, which the host numbers and acknowledges.
fn offers_a_point(host: &mut Host, viewer: &mut Viewer<StockScript>) -> bool {
    let offered = viewer_offer(viewer, POINT) == Ok(1);
    let Some(offer) = viewer_resend(viewer, 0) else {
        return false;
    };
    let numbered = host_take(host, offer.as_slice()) == Ok(HostReply::Numbered(2));
    if host.viewers() < 1 {
        return false;
    }
    let ack = host_ack(host, 0);
    let noted = viewer_take(viewer, ack.as_slice()) == Ok(Taken::Noted);
    offered && numbered && noted && viewer.waiting() == 0
}

/// The viewer asks for the input that it lacks, which the host has dropped.
fn asks_below_the_floor(host: &mut Host, viewer: &mut Viewer<StockScript>) -> bool {
    let dropped = host_drop_below(host, 3) == Ok(3);
    let ask = viewer_ask(viewer);
    let Ok(message) = decode(ask.as_slice()) else {
        return false;
    };
    let below = host_take_message(host, message) == Ok(HostReply::Below(3));
    let floor = host_floor_packet(host);
    dropped && below && viewer_take(viewer, floor.as_slice()) == Ok(Taken::Behind)
}

/// The viewer gathers the one piece of a snapshot and joins with it.
fn joins(viewer: &mut Viewer<StockScript>, shot: &[u8]) -> bool {
    let Some(piece) = send_piece(MARK, shot, 0) else {
        return false;
    };
    let first = viewer_gather(viewer, piece.as_slice());
    viewer_forget(viewer);
    let none = viewer_join(viewer, 2) == Err(JoinFault::NotWhole);
    let again = viewer_gather(viewer, piece.as_slice());
    let whole = first == again && again != Ok(Gathered::Again);
    none && whole
}

/// All calls, with a snapshot of the opening world.
struct Calls;

impl Trial for Calls {
    fn holds(&self, alloc: Global, viewer: &mut Viewer<StockScript>, shot: &[u8]) -> bool {
        let mut host = new_host(alloc, MARK, 2);
        let applied = applies_a_clock(&mut host, viewer);
        let offered = offers_a_point(&mut host, viewer);
        let asked = asks_below_the_floor(&mut host, viewer);
        drop(host);
        let joined = joins(viewer, shot);
        let mut bytes = Vec::new(alloc);
        let saved = viewer_snapshot(viewer, &mut bytes) == Ok(());
        let back = viewer_rewind(viewer, bytes.as_slice(), 2) == Ok(1);
        drop(bytes);
        applied && offered && asked && joined && saved && back
    }
}

#[test]
fn each_call_answers_what_it_calls(rt: HostRuntime) {
    try_on(&rt, rt.alloc(), CLOCKED, 0, &Calls);
}
