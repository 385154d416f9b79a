//! A host that keeps its world: what it gives to a viewer that joins.

use super::given::{CLOCKED, MARK, stage_in};
use script_boxes::StockScript;
use share_entries::{Entry, Source};
use share_keeping::KeepingPort;
use share_logged::Learns;
use share_turns::{Bytes, Datagram, FakePort, Port, RECEIVED, Traffic};
use share_wire::{Ask, Body, Message, encode};
use std::alloc::Global;
use std::process::Abort;
use x3d_values::is_input_time;

/// The peer from which a viewer joins.
const PEER: u16 = 7;

type Keeping = KeepingPort<StockScript, FakePort>;

/// Returns the port of a host whose log has one clock. This call of the port below fails; none does
/// if it is 0.
fn keeping(alloc: Global, fails_at: u64) -> Option<Keeping> {
    let stage = stage_in(alloc, CLOCKED)?;
    let entries = [Entry::new(1_000_000, Source::Clock)];
    KeepingPort::begin(
        FakePort::failing_at(alloc, fails_at),
        stage,
        MARK,
        &entries,
        None,
    )
    .ok()
}

/// A viewer asks from its peer.
fn asks(port: &mut Keeping, ask: Ask) -> bool {
    let ask = encode(&Message {
        mark: MARK,
        body: Body::Ask(ask),
    });
    let datagram = Datagram {
        peer: PEER,
        bytes: Bytes::from_slice(ask.as_slice()),
    };
    let mut bytes = [0; RECEIVED];
    port.port_mut().deliver(datagram).is_ok() && port.receive(&mut bytes).is_ok()
}

fn is_given(traffic: &Traffic) -> bool {
    match traffic {
        Traffic::Sent(datagram) => datagram.peer == PEER,
        _ => false,
    }
}

/// Returns how many datagrams were sent to the viewer after a rest.
fn given_at_rest(port: &mut Keeping) -> usize {
    let _millis = port.rest(true);
    port.port()
        .traffic()
        .iter()
        .filter(|it| is_given(it))
        .count()
}

/// The snapshot has 346 bytes, so two pieces.
#[test]
fn a_viewer_joins_until_it_asks_on(rt: HostRuntime) {
    let Some(mut port) = keeping(rt.alloc(), 0) else {
        panic!(rt; "there is no port");
    };
    let before = (
        port.stage().applied(),
        port.has_joiners(),
        given_at_rest(&mut port),
    );
    let joins = asks(&mut port, Ask::new(1, 1)) && port.has_joiners();
    let given = (given_at_rest(&mut port), given_at_rest(&mut port));
    let leaves = asks(&mut port, Ask::new(1, 2)) && !port.has_joiners();
    let after = given_at_rest(&mut port);
    drop(port);
    assert!(rt; before == (1, false, 0));
    assert!(rt; joins && leaves);
    assert!(rt; given == (2, 4));
    assert!(rt; after == 4);
}

/// Call 1 of the port below receives the ask, 2 and 3 send the pieces.
#[test]
fn a_send_that_fails_ends_a_rest(rt: HostRuntime) {
    let Some(mut port) = keeping(rt.alloc(), 3) else {
        panic!(rt; "there is no port");
    };
    let joins = asks(&mut port, Ask::new(1, 1));
    let given = (
        given_at_rest(&mut port),
        port.lost(),
        given_at_rest(&mut port),
        port.lost(),
    );
    drop(port);
    assert!(rt; joins);
    assert!(rt; given == (1, 1, 3, 1));
}

#[test]
fn a_world_goes_on_with_what_is_learned(rt: HostRuntime) {
    let Some(mut port) = keeping(rt.alloc(), 0) else {
        panic!(rt; "there is no port");
    };
    let learned = port.learn(&[Entry::new(2_000_000, Source::Clock)]).is_ok();
    let applied = port.stage().applied();
    // A log has no entry before the last.
    let failed = port.learn(&[Entry::new(1_000_000, Source::Clock)]).is_err();
    let spoiled = port.learn(&[Entry::new(3_000_000, Source::Clock)]).is_err();
    let failures = port.failures();
    drop(port);
    assert!(rt; learned && applied == 2);
    assert!(rt; failed && spoiled && failures == 2);
}

/// Returns the port of a host whose log has three clocks, a second apart, with what it forgets.
fn keeping_three(alloc: Global, forget: Option<u64>) -> Option<Keeping> {
    let stage = stage_in(alloc, CLOCKED)?;
    let entries = [
        Entry::new(1_000_000, Source::Clock),
        Entry::new(2_000_000, Source::Clock),
        Entry::new(3_000_000, Source::Clock),
    ];
    let port = FakePort::failing_at(alloc, 0);
    KeepingPort::begin(port, stage, MARK, &entries, forget).ok()
}

/// A port learns the clock of a number, at as many seconds.
fn learns_clock(port: &mut Keeping, number: u32) -> bool {
    let time = i64::from(number) * 1_000_000;
    is_input_time(time) && port.learn(&[Entry::new(time, Source::Clock)]).is_ok()
}

/// Two ports learn the clocks of the numbers from 4 to `last`.
fn learn_clocks(one: &mut Keeping, other: &mut Keeping, last: u32) -> bool {
    for number in 4..=last {
        if !learns_clock(one, number) || !learns_clock(other, number) {
            return false;
        }
    }
    true
}

/// Reports whether a port has the scene of `whole`, and the end of its trace that begins with
/// `first`.
fn is_left(alloc: Global, port: &Keeping, whole: &Keeping, first: &str) -> bool {
    let mut left = Vec::new(alloc);
    let mut all = Vec::new(alloc);
    let written = port.stage().texts(&mut left).is_ok() && whole.stage().texts(&mut all).is_ok();
    let is_end = all.ends_with(&left);
    let begins = left.starts_with(first.as_bytes());
    drop(left);
    drop(all);
    written && is_end && begins
}

/// It forgets as it begins, and then at input 67, as 64 more are applied.
#[test]
fn old_lines_are_forgotten_in_portions(rt: HostRuntime) {
    let Some(mut port) = keeping_three(rt.alloc(), Some(2)) else {
        panic!(rt; "there is no port");
    };
    let Some(mut whole) = keeping_three(rt.alloc(), None) else {
        drop(port);
        panic!(rt; "there is no port that keeps all");
    };
    let all = is_left(rt.alloc(), &whole, &whole, "1 1 T");
    let begun = is_left(rt.alloc(), &port, &whole, "2 2 T");
    let learned = learn_clocks(&mut port, &mut whole, 66);
    let before = is_left(rt.alloc(), &port, &whole, "2 2 T");
    let is_due = learns_clock(&mut port, 67) && learns_clock(&mut whole, 67);
    let after = is_left(rt.alloc(), &port, &whole, "66 66 T");
    drop(port);
    drop(whole);
    assert!(rt; all && begun);
    assert!(rt; learned && before);
    assert!(rt; is_due && after);
}
