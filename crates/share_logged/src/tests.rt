//! Turns over a log in memory.

use crate::{LoggedFault, LoggedHost, ResumeFault, follow, logged_turn, resume};
use share_entries::{Entry, Source};
use share_store::{AppendFault, Log, MemoryHandle, MemoryLog, Outcome};
use share_turns::{Bytes, Datagram, FakePort, Traffic};
use share_wire::{Ask, Body, Message, Offer, encode};
use std::alloc::Global;
use std::test::Fail;
use x3d_values::{Pointer, Vec3, ray_of};

const MARK: [u8; 32] = [7; 32];

/// A log in memory with one handle.
fn log(alloc: Global, first: Outcome) -> Result<MemoryLog, Fail> {
    let Ok(plan) = vec![in alloc; first; 1] else {
        return Err(Fail::from("memory was refused"));
    };
    match MemoryLog::new(alloc, 1, plan) {
        Ok(log) => Ok(log),
        Err(_refused) => Err(Fail::from("memory was refused")),
    }
}

/// A turn with a clock at 5 microseconds. None if the log takes no appends.
fn turn(
    hosting: LoggedHost,
    log: &mut MemoryLog,
    port: &mut FakePort,
) -> Option<Result<LoggedHost, LoggedFault>> {
    let mut handle = log.handle(0);
    let mut answer = None;
    if handle.takes_appends() {
        answer = Some(logged_turn(hosting, Some(5), None, &mut handle, port));
    }
    let MemoryHandle { log: _, number: _ } = handle;
    answer
}

fn at(z: i64) -> Vec3 {
    Vec3 { x: 0, y: 0, z }
}

fn first_offer() -> Result<Offer, Fail> {
    let Some(ray) = ray_of(at(5_000_000), at(-1_000_000)) else {
        return Err(Fail::from("this isn't a ray"));
    };
    Ok(Offer::new(1, 1, Pointer::new(0, true, ray)))
}

fn deliver(port: &mut FakePort, body: Body) -> bool {
    let packet = encode(&Message { mark: MARK, body });
    let bytes = Bytes::from_slice(packet.as_slice());
    port.deliver(Datagram { peer: 9, bytes }).is_ok()
}

fn sent(port: &FakePort) -> usize {
    let mut count: usize = 0;
    for passed in port.traffic() {
        if let Traffic::Sent(_) = passed {
            count = count.saturating_add(1);
        }
    }
    count
}

fn begin(alloc: Global, entries: &[Entry]) -> Result<LoggedHost, Fail> {
    match resume(alloc, MARK, 1, entries) {
        Ok(hosting) => Ok(hosting),
        Err(_fault) => Err(Fail::from("a log isn't taken")),
    }
}

/// A clock, an offer and an ask for both: two entries, two inputs and two acks.
#[test]
fn stores_and_then_answers(rt: HostRuntime) -> Result<(), Fail> {
    let mut log = log(rt.alloc(), Outcome::Stored)?;
    let mut port = FakePort::failing_at(rt.alloc(), 0);
    let mut is_there = deliver(&mut port, Body::Offer(first_offer()?));
    is_there &= deliver(&mut port, Body::Ask(Ask::new(0, 1)));
    assert!(rt; is_there);
    let hosting = begin(rt.alloc(), &[])?;
    let Some(Ok(after)) = turn(hosting, &mut log, &mut port) else {
        return Err(Fail::from("a turn ended"));
    };
    assert_eq!(rt; after.len(), 2);
    assert_eq!(rt; after.last(), 6);
    assert_eq!(rt; after.rested(), 0);
    assert_eq!(rt; sent(&port), 4);
    let entries = log.entries();
    assert_eq!(rt; entries.len(), 2);
    assert!(rt; entries[1] == Entry::new(6, Source::Offer(first_offer()?)));
    let again = begin(rt.alloc(), entries)?;
    assert_eq!(rt; again.len(), 2);
    Ok(())
}

#[test]
fn sends_nothing_in_doubt(rt: HostRuntime) -> Result<(), Fail> {
    let mut log = log(rt.alloc(), Outcome::InDoubtLost)?;
    let mut port = FakePort::failing_at(rt.alloc(), 0);
    assert!(rt; deliver(&mut port, Body::Ask(Ask::new(0, 1))));
    let hosting = begin(rt.alloc(), &[])?;
    let Some(Err(fault)) = turn(hosting, &mut log, &mut port) else {
        return Err(Fail::from("the log was not in doubt"));
    };
    assert!(rt; fault == LoggedFault::Log(AppendFault::InDoubt));
    assert_eq!(rt; sent(&port), 0);
    Ok(())
}

#[test]
fn names_the_entry_that_no_host_wrote(rt: HostRuntime) -> Result<(), Fail> {
    let late = Entry::new(7, Source::Offer(first_offer()?));
    let entries = [Entry::new(5, Source::Clock), late];
    let answer = resume(rt.alloc(), MARK, 1, &entries).err();
    assert!(rt; answer == Some(ResumeFault::NotALog(2)));
    Ok(())
}

/// A clock and an offer of another host, and then an entry that no host wrote there.
#[test]
fn follows_what_another_host_wrote(rt: HostRuntime) -> Result<(), Fail> {
    let clock = Entry::new(5, Source::Clock);
    let offer = Entry::new(6, Source::Offer(first_offer()?));
    let hosting = begin(rt.alloc(), &[])?;
    let Ok(after) = follow(hosting, &[clock, offer]) else {
        return Err(Fail::from("a log isn't followed"));
    };
    assert_eq!(rt; after.len(), 2);
    assert_eq!(rt; after.last(), 6);
    assert!(rt; after.mark() == MARK);
    let answer = follow(after, &[Entry::new(8, Source::Clock), offer]).err();
    assert!(rt; answer == Some(ResumeFault::NotALog(4)));
    Ok(())
}
