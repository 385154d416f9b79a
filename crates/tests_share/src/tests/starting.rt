//! How a viewer starts: the boot that it takes, and what it asks while it gathers.

use app_commands::{KnockingPort, boot_at, boot_beyond, boot_now};
use share_turns::{FakePort, Port, RECEIVED, Traffic};
use share_wire::{Ask, Body, Message, encode};
use std::cell::Cell;
use std::io;
use std::process::Abort;
use std::time::{Clock, Duration};

const HOST: u16 = 5000;

/// A clock that is set by hand. It fails until it is set.
#[derive(Drop)]
struct Hand {
    time: Cell<Option<Duration>>,
}

impl Hand {
    fn at(&self) -> io::Result<Duration> {
        match self.time.get() {
            Some(time) => Ok(time),
            None => Err(io::Error::from(io::ErrorKind::Unsupported)),
        }
    }
}

impl Clock for Hand {
    fn monotonic(&self) -> io::Result<Duration> {
        self.at()
    }

    fn since_1970(&self) -> io::Result<Duration> {
        self.at()
    }
}

#[test]
fn the_boot_of_a_viewer_is_the_seconds_since_2020(rt: HostRuntime) {
    // 2020-01-01, and 2026-11-30 at 05:00, in UTC.
    assert!(rt; boot_at(Some(1_577_836_801)) == 2 && boot_at(Some(1_577_836_803)) == 3);
    assert!(rt; boot_at(Some(1_796_014_800)) == 218_178_000);
    assert!(rt; boot_at(Some(5_872_804_095)) == 4_294_967_295);
    assert!(rt; boot_at(Some(u64::MAX)) == 4_294_967_295);
    assert!(rt; boot_at(Some(0)) == 2 && boot_at(None) == 2);
    let hand = Hand {
        time: Cell::new(None),
    };
    let without = boot_now(&hand);
    hand.time
        .set(Some(Duration::from_millis(1_577_836_809_999)));
    let with = boot_now(&hand);
    drop(hand);
    assert!(rt; (without, with) == (2, 9));
}

#[test]
fn a_viewer_takes_a_boot_above_the_kept_one(rt: HostRuntime) {
    assert!(rt; boot_beyond(0, 2) == Some(2) && boot_beyond(8, 9) == Some(9));
    assert!(rt; boot_beyond(9, 9) == Some(10) && boot_beyond(1_000, 9) == Some(1_001));
    assert!(rt; boot_beyond(4_294_967_294, 2) == Some(4_294_967_295));
    assert!(rt; boot_beyond(4_294_967_295, 2) == None);
}

/// Returns how many datagrams a port recorded as sent.
fn sent(port: &FakePort) -> usize {
    let sent = port.traffic().iter();
    sent.filter(|traffic| matches!(traffic, Traffic::Sent(_)))
        .count()
}

#[test]
fn a_viewer_that_gathers_asks_each_second_until_it_speaks(rt: HostRuntime) {
    let hand = Hand {
        time: Cell::new(None),
    };
    let ask = encode(&Message {
        mark: [7; 32],
        body: Body::Ask(Ask::new(0, 1)),
    });
    let fake = FakePort::failing_at(rt.alloc(), 0);
    let mut port = KnockingPort::new(fake, &hand, HOST, ask, true);
    let mut bytes = [0; RECEIVED];
    let mut counts = [0; 6];
    // It asks nothing while its clock fails, then at 5 and at 1,005 milliseconds.
    let times = [
        None,
        Some(5),
        Some(1_004),
        Some(1_005),
        Some(2_005),
        Some(9_000),
    ];
    for (turn, millis) in times.iter().enumerate() {
        hand.time.set(millis.map(Duration::from_millis));
        if turn == 4 {
            let _spoken = port.send(HOST, b"offer");
        }
        let _came = port.receive(&mut bytes);
        if let Some(count) = counts.get_mut(turn) {
            *count = sent(port.port());
        }
    }
    drop(port);
    drop(hand);
    assert!(rt; counts == [0, 1, 1, 2, 3, 3]);
}

#[test]
fn a_viewer_that_gathers_from_another_one_asks_nothing(rt: HostRuntime) {
    let hand = Hand {
        time: Cell::new(Some(Duration::from_millis(5))),
    };
    let ask = encode(&Message {
        mark: [7; 32],
        body: Body::Ask(Ask::new(0, 1)),
    });
    let fake = FakePort::failing_at(rt.alloc(), 0);
    let mut port = KnockingPort::new(fake, &hand, HOST, ask, false);
    let mut bytes = [0; RECEIVED];
    let _came = port.receive(&mut bytes);
    let count = sent(port.port());
    drop(port);
    drop(hand);
    assert!(rt; count == 0);
}
