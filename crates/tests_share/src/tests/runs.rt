//! A viewer's run: what its port hands on, and when it is over.

ghost use Rattle.std.specs.Prelude.{IsTrue};
ghost use Rattle.x3d_values.specs.Ranges.{is_input_time};
ghost use Rattle.share_wire.specs.Messages.{is_next_number};
ghost use Rattle.share_session.specs.Ranges.{is_number};

use share_entries::{Chain, Entry, Source};
use share_runs::{Arrival, ArrivalEvent, ViewPort, ViewerRun, after_event, arrive, is_over, met};
use share_session::{
    Body2, Hello, Input2, Message2, Number, Piece2, PieceHead, Run, SeatNumber, ViewerCount,
    WorldName, encode, next_chain, session_of,
};
use share_turns::{Bytes, Datagram, FakePort, Port, RECEIVED};
use share_wire::{Ask, Body, Message, decode as decode_1, encode as encode_1};
use std::alloc::AllocError;
use std::test::Fail;
use x3d_values::Stamped;

pub(super) const OWN: Run = [9; 16];

pub(super) const OTHER: Run = [8; 16];

/// A viewer that has applied an input of its run ends 10 seconds after it last heard of that run,
/// if another run's host answers it.
#[test]
fn a_run_is_over_where_another_one_answers(rt: HostRuntime) -> Result<(), Fail> {
    let Some(name) = WorldName::new(b"door") else {
        return Err(Fail::from("door is no name"));
    };
    let hello = Hello {
        mark: [7; 32],
        who: SeatNumber::new(3),
        cookie: [1; 8],
        nonce: [2; 16],
        name,
    };
    let own = hello.welcome([1; 8], OWN, ViewerCount::new(2), 0);
    let other = hello.welcome([1; 8], OTHER, ViewerCount::new(2), 0);
    let begun = Arrival {
        hello,
        age: 0,
        run: None,
        is_bound: false,
        is_other: false,
        silence: 0,
    };
    let here = after_event(&begun, &ArrivalEvent::Welcomed(own));
    assert!(rt; here.run == Some(OWN));
    let bound = after_event(&here, &ArrivalEvent::Bound);
    let waited = after_event(&bound, &ArrivalEvent::Passed(4_000));
    let told = after_event(&waited, &ArrivalEvent::Welcomed(other));
    assert!(rt; told.run == Some(OWN));
    assert!(rt; !is_over(&told));
    let late = after_event(&told, &ArrivalEvent::Passed(6_000));
    assert!(rt; is_over(&late));
    let back = after_event(&late, &ArrivalEvent::Heard);
    assert!(rt; !is_over(&back));
    Ok(())
}

pub(super) const MARK: [u8; 32] = [7; 32];

/// The port of the host.
pub(super) const HOST: u16 = 4000;

pub(super) fn hello_of(name: WorldName) -> Hello {
    Hello {
        mark: MARK,
        who: SeatNumber::new(3),
        cookie: [0; 8],
        nonce: [2; 16],
        name,
    }
}

pub(super) fn deliver(port: &mut FakePort, message: &Message2) -> Result<(), AllocError> {
    port.deliver(Datagram {
        peer: HOST,
        bytes: Bytes::from_slice(encode(message).as_slice()),
    })
}

/// A clock after a list with this chain.
pub(super) fn clock(chain: Chain, number: u64, time: i64) -> Input2
    requires number { IsTrue (is_number number) }
    requires time { IsTrue (is_input_time time) }
{
    Input2 {
        chain,
        number: Number::new(number),
        entry: Entry::new(time, Source::Clock),
    }
}

fn number_of(input: Stamped) -> u64 {
    input.number()
}

/// Returns the number of an input.
fn number_in(body: Body) -> Option<u64> {
    match body {
        Body::Input(input) => Some(number_of(input)),
        _ => None,
    }
}

/// Receives a datagram, and returns the number of its input, if it is one of version 1.
fn received<P: Port>(port: &mut P) -> Option<u64> {
    let mut bytes = [0; RECEIVED];
    let Ok(Some((_from, count))) = port.receive(&mut bytes) else {
        return None;
    };
    match decode_1(&bytes[..count]) {
        Ok(message) => number_in(message.body),
        Err(_) => None,
    }
}

/// Delivers input 2, input 1 of another run, input 1, and another input 1.
fn deliver_four(port: &mut FakePort) -> Result<(), AllocError> {
    let own = session_of(&MARK, &OWN);
    let other = session_of(&MARK, &OTHER);
    let first = clock(OWN, 1, 1_000);
    let second = clock(next_chain(&OWN, &first), 2, 2_000);
    deliver(port, &Message2::Said(own, Body2::Input(second)))?;
    deliver(port, &Message2::Said(other, Body2::Input(first)))?;
    deliver(port, &Message2::Said(own, Body2::Input(first)))?;
    deliver(
        port,
        &Message2::Said(own, Body2::Input(clock(OWN, 1, 3_000))),
    )
}

/// A viewer asks for input 1, and gets inputs 1 and 2 of its run in order. Then it ends, since
/// another input 1 came.
#[test]
fn a_viewer_hears_its_own_run_in_order(rt: HostRuntime) -> Result<(), Fail> {
    let Some(name) = WorldName::new(b"door") else {
        return Err(Fail::from("door is no name"));
    };
    let hello = hello_of(name);
    let welcome = hello.welcome([1; 8], OWN, ViewerCount::new(4), 0);
    let mut inner = FakePort::failing_at(rt.alloc(), 0);
    deliver(&mut inner, &Message2::Welcome(welcome))?;
    deliver_four(&mut inner)?;
    let Ok(Some(came)) = arrive(&mut inner, HOST, &hello) else {
        return Err(Fail::from("the viewer isn't welcomed"));
    };
    assert!(rt; came.run == OWN);
    let run = ViewerRun::new(rt.alloc(), MARK, came.run)?;
    let mut port = ViewPort::new(inner, HOST, run, met(&hello, &[5; 32], &came));
    let ask = Message {
        mark: MARK,
        body: Body::Ask(Ask::new(3, 1)),
    };
    assert!(rt; port.send(HOST, encode_1(&ask).as_slice()).is_ok());
    assert!(rt; received(&mut port) == Some(1));
    assert!(rt; received(&mut port) == Some(2));
    assert!(rt; port.others() == 1 && !port.is_other_list());
    assert!(rt; received(&mut port).is_none());
    assert!(rt; port.is_other_list() && port.failures() == 1);
    Ok(())
}

/// Sends an ask for the inputs from this number on.
fn ask_from<P: Port>(port: &mut P, next: u64) -> bool
    requires { IsTrue (is_next_number next) }
{
    let ask = Message {
        mark: MARK,
        body: Body::Ask(Ask::new(3, next)),
    };
    port.send(HOST, encode_1(&ask).as_slice()).is_ok()
}

/// A viewer that asks for input 1 while it gathers a snapshot of 5 inputs, and joins, gets input 6,
/// which comes after the snapshot's chain.
#[test]
fn a_viewer_that_joins_hears_what_comes_after_its_snapshot(rt: HostRuntime) -> Result<(), Fail> {
    let Some(name) = WorldName::new(b"door") else {
        return Err(Fail::from("door is no name"));
    };
    let hello = hello_of(name);
    let welcome = hello.welcome([1; 8], OWN, ViewerCount::new(4), 0);
    let own = session_of(&MARK, &OWN);
    let head = PieceHead {
        chain: [5; 16],
        boot: 1,
        applied: 5,
        size: 384,
        index: 0,
    };
    let piece = Piece2::new(head, &[0; 192]);
    let mut inner = FakePort::failing_at(rt.alloc(), 0);
    deliver(&mut inner, &Message2::Welcome(welcome))?;
    deliver(&mut inner, &Message2::Said(own, Body2::Piece(piece)))?;
    deliver(
        &mut inner,
        &Message2::Said(own, Body2::Input(clock([5; 16], 6, 9_000))),
    )?;
    let Ok(Some(came)) = arrive(&mut inner, HOST, &hello) else {
        return Err(Fail::from("the viewer isn't welcomed"));
    };
    let run = ViewerRun::new(rt.alloc(), MARK, came.run)?;
    let mut port = ViewPort::new(inner, HOST, run, met(&hello, &[5; 32], &came));
    assert!(rt; ask_from(&mut port, 1));
    assert!(rt; received(&mut port).is_none());
    assert!(rt; ask_from(&mut port, 6));
    assert!(rt; received(&mut port) == Some(6));
    Ok(())
}
