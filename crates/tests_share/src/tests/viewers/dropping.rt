//! A host's turn says from which input on the host has inputs, and a port that keeps the world hands
//! it on.

use super::given::{CLOCKED, MARK, stage_in};
use share_entries::{Entry, Source};
use share_keeping::KeepingPort;
use share_logged::{Learns, LoggedFault, LoggedHost, logged_turn, resume};
use share_store::{Log, MemoryHandle, MemoryLog};
use share_turns::{Bytes, Datagram, FakePort, Port, PortFault, RECEIVED};
use share_wire::{Ask, Body, Message, encode};
use std::alloc::Global;
use std::process::Abort;

/// A port that notes from which input on the host last said that it has inputs.
#[derive(Drop)]
struct Noting<P> {
    port: P,
    floor: u64,
}

impl<P: Port> Port for Noting<P> {
    ghost failure_count = { λ p. P.failure_count p.port };

    ghost rested = { λ p. P.rested p.port };

    fn send(&mut self, to: u16, bytes: &[u8]) -> Result<(), PortFault> {
        self.port.send(to, bytes)
    }

    fn receive(&mut self, into: &mut [u8; RECEIVED]) -> Result<Option<(u16, usize)>, PortFault> {
        self.port.receive(into)
    }

    fn failures(&self) -> u64 {
        self.port.failures()
    }

    fn rest(&mut self, is_new: bool) -> u64 {
        self.port.rest(is_new)
    }
}

impl<P: Port> Learns for Noting<P> {
    fn drop_below(&mut self, floor: u64) {
        self.floor = floor;
    }
}

fn watched(alloc: Global) -> Noting<FakePort> {
    Noting {
        port: FakePort::failing_at(alloc, 0),
        floor: 0,
    }
}

/// A viewer asks for input 3.
fn asks(port: &mut FakePort) -> bool {
    let body = Body::Ask(Ask::new(0, 3));
    let packet = encode(&Message { mark: MARK, body });
    let bytes = Bytes::from_slice(packet.as_slice());
    port.deliver(Datagram { peer: 9, bytes }).is_ok()
}

/// A turn of a host that keeps no input that all viewers have.
fn turn(
    hosting: LoggedHost,
    log: &mut MemoryLog,
    port: &mut Noting<FakePort>,
) -> Option<Result<LoggedHost, LoggedFault>> {
    let mut handle = log.handle(0);
    let mut answer = None;
    if handle.takes_appends() {
        answer = Some(logged_turn(hosting, None, Some(0), &mut handle, port));
    }
    let MemoryHandle { log: _, number: _ } = handle;
    answer
}

fn two_clocks() -> [Entry; 2] {
    [
        Entry::new(1_000_000, Source::Clock),
        Entry::new(2_000_000, Source::Clock),
    ]
}

/// The viewer has asked past both inputs.
#[test]
fn a_turn_says_which_inputs_are_left(rt: HostRuntime) {
    let alloc = rt.alloc();
    let Ok(mut log) = MemoryLog::new(alloc, 1, Vec::new(alloc)) else {
        panic!(rt; "there is no log");
    };
    let mut port = watched(alloc);
    let asked = asks(&mut port.port);
    let Ok(hosting) = resume(alloc, MARK, 1, &two_clocks()) else {
        panic!(rt; "there is no host");
    };
    let Some(Ok(after)) = turn(hosting, &mut log, &mut port) else {
        panic!(rt; "a turn ended");
    };
    let (numbered, floor) = (after.len(), port.floor);
    drop((after, port, log));
    assert!(rt; asked && numbered == 2 && floor == 3);
}

#[test]
fn a_port_that_keeps_a_world_hands_it_on(rt: HostRuntime) {
    let alloc = rt.alloc();
    let Some(stage) = stage_in(alloc, CLOCKED) else {
        panic!(rt; "there is no stage");
    };
    let Ok(mut port) = KeepingPort::begin(watched(alloc), stage, MARK, &two_clocks(), None) else {
        panic!(rt; "there is no port");
    };
    port.drop_below(2);
    let (floor, applied) = (port.port().floor, port.stage().applied());
    drop(port);
    assert!(rt; floor == 2 && applied == 2);
}
