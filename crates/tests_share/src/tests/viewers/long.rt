//! A world with more inputs than 4 bytes number: the datagrams of the long form, and a snapshot of
//! it, with which another viewer joins.

use super::given::{CLOCKED, MARK, Trial, try_on};
use script_boxes::StockScript;
use share_core::{Host, Viewer, piece_count, piece_packet};
use share_law::{Gathered, Taken};
use std::alloc::Global;
use std::process::Abort;
use x3d_values::MAX_SHORT_NUMBER;

/// The place of a datagram's tag, after its magic and its version.
const TAG: usize = 5;

/// Numbers the clock of the next second.
fn number_clock(host: &mut Host) -> Option<u64> {
    let time = host.last().saturating_add(1_000_000);
    host.clock(time).ok()
}

/// Numbers a clock, which the viewer applies. Returns the tag of its datagram.
fn one_more(host: &mut Host, viewer: &mut Viewer<StockScript>) -> Option<u8> {
    let number = number_clock(host)?;
    let packet = host.packet(number)?;
    if viewer.take(packet.as_slice()) != Ok(Taken::Applied(1)) {
        return None;
    }
    packet.as_slice().get(TAG).copied()
}

/// Numbers and applies clocks, until `count` are applied. The host drops them, and the viewer
/// forgets their lines.
fn goes_to(host: &mut Host, viewer: &mut Viewer<StockScript>, count: u64) -> bool {
    for number in 0..count {
        if number % 1024 == 0 {
            viewer.forget_all_but(2);
            let _floor = host.drop_below(number);
        }
        if host.len() < count && one_more(host, viewer) != Some(1) {
            return false;
        }
    }
    viewer.forget_all_but(2);
    viewer.applied() == count
}

/// Returns the tag of the viewer's ask.
fn asks_by(viewer: &Viewer<StockScript>) -> Option<u8> {
    viewer.ask().as_slice().get(TAG).copied()
}

/// Reports whether the trace of a viewer begins so.
fn begins(alloc: Global, viewer: &Viewer<StockScript>, with: &[u8]) -> bool {
    let mut text = Vec::new(alloc);
    let written = viewer.trace_text(&mut text).is_ok();
    let begins = text.starts_with(with);
    drop(text);
    written && begins
}

/// Reports whether the viewer joins with this snapshot, whose pieces have this tag. It drops what it
/// gathered before.
fn joins(viewer: &mut Viewer<StockScript>, shot: &[u8], tag: u8) -> bool {
    let Some(count) = piece_count(shot) else {
        return false;
    };
    let mut is_whole = false;
    for index in 0..count {
        let Some(packet) = piece_packet(MARK, shot, index) else {
            return false;
        };
        if packet.as_slice().get(TAG) != Some(&tag) {
            return false;
        }
        is_whole = viewer.gather(packet.as_slice()) == Ok(Gathered::Whole);
    }
    let boot = viewer.boot().saturating_add(1);
    is_whole && viewer.join(boot) == Ok(MAX_SHORT_NUMBER + 1)
}

/// A viewer that has applied as many inputs as 4 bytes number, and then one more.
struct Longer;

impl Trial for Longer {
    fn holds(&self, alloc: Global, viewer: &mut Viewer<StockScript>, _shot: &[u8]) -> bool {
        let mut host = Host::new(alloc, MARK, 1);
        let short = goes_to(&mut host, viewer, MAX_SHORT_NUMBER) && asks_by(viewer) == Some(3);
        let long = one_more(&mut host, viewer) == Some(9) && asks_by(viewer) == Some(10);
        viewer.forget_all_but(1);
        let line = begins(alloc, viewer, b"1048577 1048577 T.");
        let mut shot = Vec::new(alloc);
        let saved = viewer.snapshot(&mut shot).is_ok() && shot.get(4) == Some(&3);
        let joined = joins(viewer, &shot, 12) && begins(alloc, viewer, b"1048577 1048577 T.");
        drop(shot);
        let on = one_more(&mut host, viewer) == Some(9) && viewer.applied() == host.len();
        drop(host);
        short && long && line && saved && joined && on
    }
}

#[test]
fn numbers_go_on_after_those_of_4_bytes(rt: HostRuntime) {
    try_on(&rt, rt.alloc(), CLOCKED, 0, &Longer);
}
