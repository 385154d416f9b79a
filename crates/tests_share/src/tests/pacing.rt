//! When a viewer's asks and offers are sent, by a clock that only moves when it is set.

use app_commands::{AskingPort, ExactPort, Pace, PatientPort};
use share_turns::{Bytes, Datagram, FakePort, Port, RECEIVED, Traffic};
use share_wire::{Ack, Ask, Body, Message, Packet, Piece, encode};
use std::alloc::Global;
use std::cell::Cell;
use std::io;
use std::process::Abort;
use std::time::{Clock, Duration};
use x3d_values::{Cause, Stamped};

const MARK: [u8; 32] = [7; 32];

const HOST: u16 = 5000;

#[test]
fn an_ask_waits_for_the_answer_to_the_last(rt: HostRuntime) {
    let mut pace = Pace::new();
    assert!(rt; pace.left(0) == 0 && pace.asks(1, 100, 1_000));
    // A round trip counts as 50 milliseconds until one is measured. An answer has twice that time.
    assert!(rt; pace.left(200) == 99_900 && !pace.asks(2, 200, 1_000));
    pace.comes(300);
    pace.is_answered();
    assert!(rt; pace.left(300) == 0);
    // The same ask is sent only after its pause, another at once.
    assert!(rt; !pace.asks(1, 1_099, 1_000) && pace.asks(2, 1_099, 1_000));
    pace.is_answered();
    assert!(rt; pace.asks(2, 2_099, 1_000));
}

#[test]
fn an_ask_without_an_answer_is_sent_again_and_given_twice_the_time(rt: HostRuntime) {
    let mut pace = Pace::new();
    assert!(rt; pace.asks(1, 0, 50_000) && !pace.asks(1, 99_999, 50_000));
    assert!(rt; pace.asks(1, 100_000, 50_000) && !pace.asks(1, 299_999, 50_000));
    assert!(rt; pace.asks(1, 300_000, 50_000) && pace.left(300_000) == 400_000);
    // Whatever comes is a sign of life.
    pace.comes(500_000);
    assert!(rt; pace.left(500_000) == 100_000);
    // Whatever comes, an ask is sent again after a second.
    pace.comes(1_299_999);
    assert!(rt; pace.left(1_299_999) == 1 && pace.left(1_300_000) == 0);
}

#[test]
fn the_first_input_that_was_asked_for_measures_the_round_trip(rt: HostRuntime) {
    let mut pace = Pace::new();
    assert!(rt; pace.asks(1, 0, 0));
    pace.measures(2, 15_000);
    // The same ask again, since no answer came: the measure grows by an eighth.
    assert!(rt; pace.asks(1, 100_000, 0));
    pace.measures(1, 130_000);
    pace.comes(130_000);
    assert!(rt; pace.left(130_000) == 112_500);
    pace.is_answered();
    // An ask that is answered the first time gives the round trip; 4 milliseconds are the least.
    assert!(rt; pace.asks(65, 200_000, 0));
    pace.measures(65, 200_500);
    pace.comes(200_500);
    assert!(rt; pace.left(200_500) == 4_000);
    pace.is_answered();
    // An ask that was answered and is sent again starts a new measure.
    assert!(rt; pace.asks(66, 300_000, 0));
    pace.is_answered();
    assert!(rt; pace.asks(66, 900_000, 0));
    pace.measures(66, 940_000);
    pace.comes(940_000);
    assert!(rt; pace.left(940_000) == 80_000);
}

#[test]
fn an_offer_is_sent_again_once_an_answer_could_have_come(rt: HostRuntime) {
    let mut pace = Pace::new();
    assert!(rt; pace.offers(1, 0) && !pace.offers(1, 99_999) && pace.offers(1, 100_000));
    assert!(rt; pace.offers(2, 100_001));
    // Three acks are under way.
    pace.is_answered();
    pace.is_answered();
    assert!(rt; pace.left(100_001) == 100_000);
    pace.is_answered();
    assert!(rt; pace.left(100_001) == 0);
}

/// A clock that is set by hand.
#[derive(Drop)]
struct Hand {
    time: Cell<Duration>,
}

impl Clock for Hand {
    fn monotonic(&self) -> io::Result<Duration> {
        Ok(self.time.get())
    }

    fn since_1970(&self) -> io::Result<Duration> {
        Ok(self.time.get())
    }
}

fn packet(body: Body) -> Packet {
    encode(&Message { mark: MARK, body })
}

/// Reports whether a port recorded `count` sent datagrams.
fn has_sent(port: &FakePort, count: usize) -> bool {
    let sent = port.traffic().iter();
    sent.filter(|traffic| matches!(traffic, Traffic::Sent(_)))
        .count()
        == count
}

fn deliver(alloc: Global, port: &mut FakePort, body: Body) -> bool {
    let _memory = alloc;
    let bytes = Bytes::from_slice(packet(body).as_slice());
    port.deliver(Datagram { peer: HOST, bytes }).is_ok()
}

#[test]
fn a_port_holds_back_an_ask_whose_answer_is_under_way(rt: HostRuntime) {
    let hand = Hand {
        time: Cell::new(Duration::from_millis(1)),
    };
    let mut fake = FakePort::failing_at(rt.alloc(), 0);
    let came = deliver(rt.alloc(), &mut fake, Body::Ack(Ack::new(0, 1, 0)));
    let mut port = PatientPort::new(fake, &hand);
    let ask = packet(Body::Ask(Ask::new(0, 1)));
    let more = packet(Body::Ask(Ask::new(0, 2)));
    let mut bytes = [0; RECEIVED];
    let first = port.send(HOST, ask.as_slice()).is_ok() && port.send(HOST, more.as_slice()).is_ok();
    let one = has_sent(port.port(), 1);
    let answer = port.receive(&mut bytes).is_ok() && port.send(HOST, more.as_slice()).is_ok();
    let two = has_sent(port.port(), 2);
    drop(port);
    drop(hand);
    assert!(rt; came && first && one && answer && two);
}

#[test]
fn an_exact_port_passes_over_what_is_beyond(rt: HostRuntime) {
    let mut fake = FakePort::failing_at(rt.alloc(), 0);
    let within = Body::Input(Stamped::new(5, 1, Cause::Clock));
    let beyond = Body::Input(Stamped::new(6, 2, Cause::Clock));
    // The second piece of a snapshot of 193 bytes has one.
    let piece = Body::Piece(Piece::new(1, 5, 193, 1, &[0]));
    let late = Body::Piece(Piece::new(1, 6, 193, 1, &[0]));
    let mut came = true;
    for body in [within, beyond, piece, late] {
        came = came && deliver(rt.alloc(), &mut fake, body);
    }
    let mut port = ExactPort::new(fake, Some(5));
    let mut bytes = [0; RECEIVED];
    let mut is_empty = [false; 4];
    for each in &mut is_empty {
        if let Ok(Some((_peer, count))) = port.receive(&mut bytes) {
            *each = count == 0;
        }
    }
    drop(port);
    assert!(rt; came && is_empty == [false, true, false, true]);
}

#[test]
fn a_port_counts_the_time_between_its_rests(rt: HostRuntime) {
    let hand = Hand {
        time: Cell::new(Duration::from_millis(70)),
    };
    let mut port = PatientPort::new(FakePort::failing_at(rt.alloc(), 0), &hand);
    let first = port.rest(false);
    hand.time.set(Duration::from_micros(71_999));
    let second = port.rest(false);
    hand.time.set(Duration::from_millis(2_072));
    let third = port.rest(false);
    drop(port);
    drop(hand);
    assert!(rt; (first, second, third) == (0, 1, 2_001));
}

#[test]
fn a_viewer_that_gives_repeats_its_ask_each_second(rt: HostRuntime) {
    let hand = Hand {
        time: Cell::new(Duration::from_millis(5)),
    };
    let fake = FakePort::failing_at(rt.alloc(), 0);
    let ask = packet(Body::Ask(Ask::new(0, 3)));
    let mut port = AskingPort::new(fake, &hand, HOST, ask);
    let mut sent = [false; 4];
    for (turn, (millis, count)) in [(5, 2), (1_004, 3), (1_005, 5), (1_500, 6)]
        .iter()
        .enumerate()
    {
        hand.time.set(Duration::from_millis(*millis));
        let given = port.send(HOST + 1, b"piece").is_ok();
        if let Some(each) = sent.get_mut(turn) {
            *each = given && has_sent(port.port(), *count);
        }
    }
    drop(port);
    drop(hand);
    assert!(rt; sent == [true; 4]);
}
