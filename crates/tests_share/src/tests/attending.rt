//! Which viewers a host counts, and that it ends without one that is silent.

ghost use Rattle.std.specs.Prelude.{◌≡◌, ◌+◌};

use share_core::Host;
use share_turns::{
    Attendance, Bytes, Datagram, FakePort, GRACE_MILLIS, Heard, HostPlan, Port, PortFault,
    RECEIVED, SILENT_MILLIS, SeriesFault, host_run,
};
use share_wire::{Ask, Body, Message, encode};
use std::alloc::Global;
use std::process::Abort;

const MARK: [u8; 32] = [7; 32];

/// Returns the record of a turn in which viewer 1 asked from number 7, and viewer 3 from 5.
fn two_asks() -> Heard {
    let mut came = Heard::nobody();
    came.hear(1, 7);
    came.hear(3, 5);
    came
}

#[test]
fn each_viewer_has_its_own_number(rt: HostRuntime) {
    let came = two_asks();
    assert!(rt; came.asked(1) == Some(7) && came.asked(3) == Some(5));
    assert!(rt; came.asked(0) == None && came.asked(64) == None && came.asked(255) == None);
    assert!(rt; came.lowest() == Some(5) && came.count() == 2);
}

#[test]
fn a_silent_viewer_is_given_up_until_it_asks_again(rt: HostRuntime) {
    let mut attendance = Attendance::new();
    assert!(rt; attendance.lowest() == None && !attendance.is_any_heard());
    attendance.note(&two_asks());
    attendance.pass(SILENT_MILLIS - 1);
    let mut later = Heard::nobody();
    later.hear(1, 2);
    attendance.note(&later);
    assert!(rt; attendance.lowest() == Some(5));
    attendance.pass(1);
    // What was heard doesn't go back.
    assert!(rt; attendance.lowest() == Some(7));
    attendance.pass(SILENT_MILLIS);
    assert!(rt; attendance.lowest() == None && attendance.is_any_heard());
    attendance.note(&two_asks());
    assert!(rt; attendance.lowest() == Some(5));
}

#[test]
fn inputs_are_dropped_once_all_came_or_some_time_has_passed(rt: HostRuntime) {
    let mut attendance = Attendance::new();
    assert!(rt; !attendance.is_open(1));
    attendance.note(&two_asks());
    assert!(rt; attendance.is_open(2) && !attendance.is_open(3));
    attendance.pass(GRACE_MILLIS - 1);
    assert!(rt; attendance.is_open(2) && !attendance.is_open(3));
    attendance.pass(1);
    assert!(rt; attendance.is_open(3));
}

/// A port in memory whose rests take this many milliseconds each.
#[derive(Drop)]
struct Slow {
    port: FakePort,
    millis: u64,
    rested: u64,
}

impl Port for Slow {
    ghost failure_count = { λ p. p.port.failed };

    ghost rested = { λ p. p.rested };

    fn send(&mut self, to: u16, bytes: &[u8]) -> Result<(), PortFault> {
        self.port.send(to, bytes)
    }

    fn receive(&mut self, into: &mut [u8; RECEIVED]) -> Result<Option<(u16, usize)>, PortFault> {
        self.port.receive(into)
    }

    fn failures(&self) -> u64 {
        self.port.failures()
    }

    fn rest(&mut self, _is_new: bool) -> u64 {
        let millis = self.millis.min(u64::MAX - self.rested);
        self.rested += millis;
        millis
    }
}

/// Returns how a host with three clocks ends that has six turns, and hears one ask of a viewer that
/// has no input. Rests take this many milliseconds each.
fn end_of(alloc: Global, millis: u64) -> Option<Result<(), SeriesFault>> {
    let mut port = FakePort::failing_at(alloc, 0);
    let ask = encode(&Message {
        mark: MARK,
        body: Body::Ask(Ask::new(0, 1)),
    });
    let bytes = Bytes::from_slice(ask.as_slice());
    let came = port.deliver(Datagram { peer: 40, bytes }).is_ok();
    let mut slow = Slow {
        port,
        millis,
        rested: 0,
    };
    let mut host = Host::new(alloc, MARK, 2);
    let plan = HostPlan {
        keep: Some(0),
        until: Some(3),
    };
    let ended = host_run(&mut host, &[1, 2, 3], &plan, 6, &mut slow);
    drop(host);
    drop(slow);
    if came { Some(ended) } else { None }
}

#[test]
fn a_host_ends_without_a_viewer_that_is_silent(rt: HostRuntime) {
    assert!(rt; end_of(rt.alloc(), SILENT_MILLIS / 5) == Some(Ok(())));
    assert!(rt; end_of(rt.alloc(), 0) == Some(Err(SeriesFault::TurnsUsedUp)));
    assert!(rt; end_of(rt.alloc(), SILENT_MILLIS / 6) == Some(Err(SeriesFault::TurnsUsedUp)));
}
