//! Datagrams of version 2 by hand, each fault, and the test of the chain. Digests are those of
//! Python's hashlib.

use share_entries::{Chain, Entry, Source};
use share_session::{
    Body2, DatagramFault, Hello, Input2, Message2, Number, Prefix, Run, SeatNumber, Session,
    ViewerCount, WorldName, decode, encode, heard, is_number, lifted, session_of, taken,
};
use share_wire::{Body, Floor};
use std::test::Fail;

const MARK: [u8; 32] = [7; 32];

const RUN: Run = [9; 16];

/// The first 16 bytes of the SHA-256 of 32 bytes 7 and 16 bytes 9.
const SESSION: Session = [
    0x33, 0xa4, 0xdb, 0xd2, 0x22, 0x47, 0x18, 0xce, 0xde, 0x58, 0xa8, 0xeb, 0x44, 0x3d, 0x22, 0x5a,
];

/// The first 16 bytes of the SHA-256 of 16 bytes 9 and of the entry of a clock at 5.
const CHAIN: Chain = [
    0x69, 0x2c, 0x3c, 0x20, 0x43, 0xfb, 0x2b, 0x8a, 0x5a, 0x1c, 0x0b, 0xa0, 0x1a, 0x6f, 0xe5, 0xb5,
];

/// Input 1, a clock at 5 microseconds: `X3DS`, version 2, tag 1, the session, the chain before it,
/// the number, the time, the kind.
const CLOCK: [u8; 55] = [
    0x58, 0x33, 0x44, 0x53, 2, 1, 0x33, 0xa4, 0xdb, 0xd2, 0x22, 0x47, 0x18, 0xce, 0xde, 0x58, 0xa8,
    0xeb, 0x44, 0x3d, 0x22, 0x5a, 9, 9, 9, 9, 9, 9, 9, 9, 9, 9, 9, 9, 9, 9, 9, 9, 0, 0, 0, 0, 0, 0,
    0, 1, 0, 0, 0, 0, 0, 0, 0, 5, 0,
];

/// `X3DS`, version 2, tag 7, the mark, viewer 3, a cookie, a nonce, and the name `a-b`.
const HELLO: [u8; 128] = [
    0x58, 0x33, 0x44, 0x53, 2, 7, 7, 7, 7, 7, 7, 7, 7, 7, 7, 7, 7, 7, 7, 7, 7, 7, 7, 7, 7, 7, 7, 7,
    7, 7, 7, 7, 7, 7, 7, 7, 7, 7, 3, 1, 1, 1, 1, 1, 1, 1, 1, 2, 2, 2, 2, 2, 2, 2, 2, 2, 2, 2, 2, 2,
    2, 2, 2, 3, 0x61, 0x2d, 0x62, 0, 0, 0, 0, 0, 0, 0, 0, 0, 0, 0, 0, 0, 0, 0, 0, 0, 0, 0, 0, 0, 0,
    0, 0, 0, 0, 0, 0, 0, 0, 0, 0, 0, 0, 0, 0, 0, 0, 0, 0, 0, 0, 0, 0, 0, 0, 0, 0, 0, 0, 0, 0, 0, 0,
    0, 0, 0, 0, 0, 0, 0,
];

/// `X3DS`, version 2, tag 8, the mark, viewer 3, a cookie, a nonce, the run, 64 viewers, boot 258.
const WELCOME: [u8; 84] = [
    0x58, 0x33, 0x44, 0x53, 2, 8, 7, 7, 7, 7, 7, 7, 7, 7, 7, 7, 7, 7, 7, 7, 7, 7, 7, 7, 7, 7, 7, 7,
    7, 7, 7, 7, 7, 7, 7, 7, 7, 7, 3, 1, 1, 1, 1, 1, 1, 1, 1, 2, 2, 2, 2, 2, 2, 2, 2, 2, 2, 2, 2, 2,
    2, 2, 2, 9, 9, 9, 9, 9, 9, 9, 9, 9, 9, 9, 9, 9, 9, 9, 9, 64, 0, 0, 1, 2,
];

fn clock(number: u64, chain: Chain) -> Option<Input2> {
    if !is_number(number) {
        return None;
    }
    Some(Input2 {
        chain,
        number: Number::new(number),
        entry: Entry::new(5, Source::Clock),
    })
}

#[test]
fn an_input_has_its_bytes(rt: HostRuntime) -> Result<(), Fail> {
    let session = session_of(&MARK, &RUN);
    assert!(rt; session == SESSION);
    let Some(input) = clock(1, RUN) else {
        return Err(Fail::from("1 is no number"));
    };
    let said = Message2::Said(session, Body2::Input(input));
    assert_eq!(rt; encode(&said).as_slice(), CLOCK.as_slice());
    assert!(rt; decode(&CLOCK) == Ok(said));
    Ok(())
}

#[test]
fn a_hello_and_a_welcome_have_their_bytes(rt: HostRuntime) -> Result<(), Fail> {
    let Some(name) = WorldName::new(b"a-b") else {
        return Err(Fail::from("a-b is no name"));
    };
    assert!(rt; name.text() == b"a-b".as_slice());
    let hello = Hello {
        mark: MARK,
        who: SeatNumber::new(3),
        cookie: [1; 8],
        nonce: [2; 16],
        name,
    };
    let welcome = hello.welcome([1; 8], RUN, ViewerCount::new(64), 258);
    assert!(rt; welcome.answers(&hello));
    assert_eq!(rt;
        encode(&Message2::Hello(hello)).as_slice(),
        HELLO.as_slice()
    );
    assert_eq!(rt;
        encode(&Message2::Welcome(welcome)).as_slice(),
        WELCOME.as_slice()
    );
    assert!(rt; decode(&HELLO) == Ok(Message2::Hello(hello)));
    assert!(rt; decode(&WELCOME) == Ok(Message2::Welcome(welcome)));
    Ok(())
}

/// What becomes of a datagram in which one byte is changed.
struct Change {
    place: usize,
    byte: u8,
    fault: Option<DatagramFault>,
}

/// Of the Hello: the magic, the version, the tag (a Welcome and an offer have other lengths), the
/// viewer, the length of the name, a slash in it, a byte after it, a capital letter in it.
static HELLO_CHANGES: [Change; 11] = [
    Change {
        place: 0,
        byte: 0x59,
        fault: Some(DatagramFault::BadPacket),
    },
    Change {
        place: 4,
        byte: 1,
        fault: Some(DatagramFault::BadVersion),
    },
    Change {
        place: 5,
        byte: 0,
        fault: Some(DatagramFault::BadTag),
    },
    Change {
        place: 5,
        byte: 9,
        fault: Some(DatagramFault::BadTag),
    },
    Change {
        place: 5,
        byte: 8,
        fault: Some(DatagramFault::BadBody),
    },
    Change {
        place: 5,
        byte: 2,
        fault: Some(DatagramFault::BadBody),
    },
    Change {
        place: 38,
        byte: 64,
        fault: Some(DatagramFault::BadBody),
    },
    Change {
        place: 63,
        byte: 65,
        fault: Some(DatagramFault::BadBody),
    },
    Change {
        place: 65,
        byte: 0x2f,
        fault: Some(DatagramFault::BadBody),
    },
    Change {
        place: 67,
        byte: 1,
        fault: Some(DatagramFault::BadBody),
    },
    Change {
        place: 65,
        byte: 0x5a,
        fault: None,
    },
];

/// Of the input: its number is 0, and 2^48 + 1; its kind is 2.
static CLOCK_CHANGES: [Change; 3] = [
    Change {
        place: 45,
        byte: 0,
        fault: Some(DatagramFault::BadBody),
    },
    Change {
        place: 39,
        byte: 1,
        fault: Some(DatagramFault::BadBody),
    },
    Change {
        place: 54,
        byte: 2,
        fault: Some(DatagramFault::BadBody),
    },
];

fn fault_in(bytes: &[u8]) -> Option<DatagramFault> {
    match decode(bytes) {
        Ok(_message) => None,
        Err(fault) => Some(fault),
    }
}

fn fault_of(bytes: &mut [u8], change: &Change) -> Option<DatagramFault> {
    if let Some(place) = bytes.get_mut(change.place) {
        *place = change.byte;
    }
    fault_in(bytes)
}

#[test]
fn each_fault_is_the_first(rt: HostRuntime) -> Result<(), Fail> {
    for change in HELLO_CHANGES.iter() {
        let mut bytes = HELLO;
        assert!(rt; fault_of(bytes.as_mut_slice(), change) == change.fault);
    }
    for change in CLOCK_CHANGES.iter() {
        let mut bytes = CLOCK;
        assert!(rt; fault_of(bytes.as_mut_slice(), change) == change.fault);
    }
    assert!(rt; fault_in(&HELLO[..5]) == Some(DatagramFault::BadPacket));
    assert!(rt; fault_in(&HELLO[..127]) == Some(DatagramFault::BadBody));
    assert!(rt; fault_in(&CLOCK[..21]) == Some(DatagramFault::BadBody));
    assert_eq!(rt; DatagramFault::BadBody.name(), "BadBody");
    Ok(())
}

fn is_taken(prefix: &Prefix, input: Option<Input2>, wanted: Option<Prefix>) -> bool {
    match input {
        Some(input) => taken(prefix, &input) == wanted,
        None => false,
    }
}

#[test]
fn an_input_follows_one_chain(rt: HostRuntime) -> Result<(), Fail> {
    let start = Prefix {
        applied: 0,
        chain: RUN,
    };
    let next = Prefix {
        applied: 1,
        chain: CHAIN,
    };
    assert!(rt; is_taken(&start, clock(1, RUN), Some(next)));
    assert!(rt; is_taken(&next, clock(1, RUN), Some(next)));
    assert!(rt; is_taken(&start, clock(3, RUN), Some(start)));
    assert!(rt; is_taken(&start, clock(1, CHAIN), None));
    Ok(())
}

fn is_heard(session: &Session, number: u64) -> bool {
    match clock(number, RUN) {
        Some(input) => {
            let said = Message2::Said(SESSION, Body2::Input(input));
            heard(session, &MARK, &said).is_some()
        }
        None => false,
    }
}

#[test]
fn a_peer_hears_its_session(rt: HostRuntime) -> Result<(), Fail> {
    assert!(rt; is_heard(&SESSION, 1));
    assert!(rt; is_heard(&SESSION, (1 << 20) + 1));
    assert!(rt; is_heard(&SESSION, (1 << 48) - 1));
    assert!(rt; !is_heard(&SESSION, 1 << 48));
    assert!(rt; !is_heard(&RUN, 1));
    let floor = lifted(&Body::Floor(Floor::new(1)));
    assert!(rt; floor == Some(Body2::Floor(Number::new(1))));
    Ok(())
}
