//! A host over a log in memory to which another host appends.

use crate::{Now, Origin, Pace, SharedPlan, act, read, shared_run};
use app_logs::Beat;
use share_entries::{Entry, Source};
use share_logged::{Learns, LoggedHost, resume};
use share_store::{Log, MemoryHandle, MemoryLog, Outcome};
use share_turns::{FakePort, HostPlan, Port, PortFault, RECEIVED};
use std::alloc::Global;
use std::test::Fail;

const MARK: [u8; 32] = [7; 32];

/// A port each of whose rests takes the same time. It counts the entries that it learns.
#[derive(Drop)]
struct Steady<P> {
    port: P,
    millis: u64,
    rested: u64,
    learned: usize,
}

impl<P: Port> Port for Steady<P> {
    ghost failure_count = { λ p. P.failure_count p.port };

    ghost rested = { λ p. p.rested };

    fn send(&mut self, to: u16, bytes: &[u8]) -> Result<(), PortFault> {
        self.port.send(to, bytes)
    }

    fn receive(&mut self, into: &mut [u8; RECEIVED]) -> Result<Option<(u16, usize)>, PortFault> {
        self.port.receive(into)
    }

    fn failures(&self) -> u64 {
        self.port.failures()
    }

    fn rest(&mut self, is_new: bool) -> u64 {
        let _inner = self.port.rest(is_new);
        let millis = self.millis.min(u64::MAX - self.rested);
        self.rested += millis;
        millis
    }
}

impl<P: Port> Learns for Steady<P> {
    fn learn(&mut self, entries: &[Entry]) -> Result<(), PortFault> {
        self.learned = self.learned.saturating_add(entries.len());
        Ok(())
    }
}

/// A log with two handles. If an outcome is given, it is that of the append of turn 1, before which
/// the host reads on: a reading has a place in the plan too.
fn log(alloc: Global, first: Option<Outcome>) -> Result<MemoryLog, Fail> {
    let mut plan = Vec::new(alloc);
    if let Some(outcome) = first {
        plan.push(Outcome::Stored)?;
        plan.push(outcome)?;
    }
    Ok(MemoryLog::new(alloc, 2, plan)?)
}

/// Appends a clock by the other host.
fn append(log: &mut MemoryLog, time: i64) -> Result<(), Fail> {
    let mut handle = log.handle(1);
    if !handle.takes_appends() || time < 1 || time > 1000 {
        return Err(Fail::from("the other host doesn't append"));
    }
    match handle.append(&[Entry::new(time, Source::Clock)]) {
        Ok(()) => Ok(()),
        Err(_fault) => Err(Fail::from("the other host doesn't append")),
    }
}

fn begin(alloc: Global) -> Result<LoggedHost, Fail> {
    match resume(alloc, MARK, 1, &[]) {
        Ok(hosting) => Ok(hosting),
        Err(_fault) => Err(Fail::from("memory was refused")),
    }
}

/// What a host does that makes no clocks of its own.
fn plan(standby: u64, turns: u64) -> SharedPlan {
    SharedPlan {
        host: HostPlan {
            keep: None,
            until: None,
        },
        beat: Beat {
            every: None,
            base: 0,
        },
        turns,
        standby,
    }
}

/// A port whose rests take 300 milliseconds.
fn port(alloc: Global) -> Steady<FakePort> {
    Steady {
        port: FakePort::failing_at(alloc, 0),
        millis: 300,
        rested: 0,
        learned: 0,
    }
}

/// Runs turns of a host that begins with an empty log, with rests of 300 milliseconds. Returns how
/// many entries the port learned.
fn run(
    alloc: Global,
    log: &mut MemoryLog,
    clocks: &[i64],
    plan: &SharedPlan,
) -> Result<usize, Fail> {
    let hosting = begin(alloc)?;
    let mut port = port(alloc);
    let origin = Origin {
        mark: MARK,
        viewers: 1,
        base: None,
    };
    let mut handle = log.handle(0);
    let ended = shared_run(
        alloc,
        &origin,
        hosting,
        clocks,
        plan,
        &mut handle,
        &mut port,
    );
    let MemoryHandle { log: _, number: _ } = handle;
    match ended {
        Ok(()) => Ok(port.learned),
        Err(_fault) => Err(Fail::from("a run ended")),
    }
}

fn has_clocks(log: &MemoryLog, times: &[i64]) -> bool {
    let entries = log.entries();
    if entries.len() != times.len() {
        return false;
    }
    for place in 0..times.len() {
        if entries[place].time() != times[place] {
            return false;
        }
    }
    true
}

/// It stands by for a second: the other host's two entries are taken in turn 1, and turn 5, at 1200
/// milliseconds, is the first after a second.
#[test]
fn follows_and_then_stands_in(rt: HostRuntime) -> Result<(), Fail> {
    let mut log = log(rt.alloc(), None)?;
    append(&mut log, 5)?;
    append(&mut log, 6)?;
    assert_eq!(rt; run(rt.alloc(), &mut log, &[5, 8, 9], &plan(1000, 4))?, 2);
    assert!(rt; has_clocks(&log, &[5, 6]));
    Ok(())
}

#[test]
fn makes_the_next_clock(rt: HostRuntime) -> Result<(), Fail> {
    let mut log = log(rt.alloc(), None)?;
    append(&mut log, 5)?;
    append(&mut log, 6)?;
    assert_eq!(rt; run(rt.alloc(), &mut log, &[5, 8, 9], &plan(1000, 5))?, 3);
    assert!(rt; has_clocks(&log, &[5, 6, 8]));
    Ok(())
}

/// Turns 1 to 4 begin at 0, 300, 600 and 900 milliseconds.
#[test]
fn makes_no_clock_before_its_time(rt: HostRuntime) -> Result<(), Fail> {
    let mut log = log(rt.alloc(), None)?;
    assert_eq!(rt; run(rt.alloc(), &mut log, &[5], &plan(1000, 4))?, 0);
    assert_eq!(rt; run(rt.alloc(), &mut log, &[5], &plan(1000, 5))?, 1);
    Ok(())
}

/// The beat of a second goes on from the other host's clock at 500 microseconds: turn 5, at 1200
/// milliseconds, makes the first.
#[test]
fn goes_on_from_the_clock_of_another(rt: HostRuntime) -> Result<(), Fail> {
    let mut log = log(rt.alloc(), None)?;
    append(&mut log, 500)?;
    let beat = Beat {
        every: Some(1000),
        base: 0,
    };
    let plan = SharedPlan { beat, ..plan(0, 5) };
    assert_eq!(rt; run(rt.alloc(), &mut log, &[], &plan)?, 2);
    assert!(rt; has_clocks(&log, &[500, 1_200_500]));
    Ok(())
}

/// The first append is refused. Turn 2 reads on, and appends again.
#[test]
fn begins_again_if_it_is_taken(rt: HostRuntime) -> Result<(), Fail> {
    let mut log = log(rt.alloc(), Some(Outcome::Taken))?;
    assert_eq!(rt; run(rt.alloc(), &mut log, &[5], &plan(0, 1))?, 0);
    assert_eq!(rt; run(rt.alloc(), &mut log, &[5], &plan(0, 2))?, 1);
    assert!(rt; has_clocks(&log, &[5]));
    Ok(())
}

#[test]
fn finds_what_was_stored_in_doubt(rt: HostRuntime) -> Result<(), Fail> {
    let mut log = log(rt.alloc(), Some(Outcome::InDoubtStored))?;
    assert_eq!(rt; run(rt.alloc(), &mut log, &[5], &plan(0, 3))?, 1);
    assert!(rt; has_clocks(&log, &[5]));
    Ok(())
}

#[test]
fn makes_a_clock_again_that_was_lost_in_doubt(rt: HostRuntime) -> Result<(), Fail> {
    let mut log = log(rt.alloc(), Some(Outcome::InDoubtLost))?;
    assert_eq!(rt; run(rt.alloc(), &mut log, &[5], &plan(0, 2))?, 1);
    assert!(rt; has_clocks(&log, &[5]));
    Ok(())
}

/// That of a log whose base stands for two clocks, at 5 and 6.
fn based(alloc: Global) -> Result<Origin, Fail> {
    let below = [Entry::new(5, Source::Clock), Entry::new(6, Source::Clock)];
    match resume(alloc, MARK, 1, &below) {
        Ok(hosting) => Ok(Origin {
            mark: MARK,
            viewers: 1,
            base: hosting.base([0; 16], [0; 32]),
        }),
        Err(_fault) => Err(Fail::from("memory was refused")),
    }
}

/// Reads on and runs a turn, in which the host makes the next of these clocks.
fn turn(
    alloc: Global,
    origin: &Origin,
    log: &mut MemoryLog,
    clocks: &[i64],
    now: Now,
) -> Result<Now, Fail> {
    if origin.viewers != 1 {
        return Err(Fail::from("the host has one viewer"));
    }
    let plan = plan(0, 1);
    let mut pace = Pace::new(plan.beat);
    let mut port = port(alloc);
    let mut handle = log.handle(0);
    match read(alloc, origin, now, &mut pace, &mut handle, &mut port) {
        Ok(kept) => match act(clocks, &plan, kept, &mut pace, &mut handle, &mut port) {
            Ok(after) => Ok(after),
            Err(_fault) => Err(Fail::from("a turn ended")),
        },
        Err(_fault) => Err(Fail::from("a turn ended")),
    }
}

fn inputs_of(now: &Now) -> Option<u64> {
    match now {
        Now::Hosting(hosting) => Some(hosting.len()),
        Now::Behind => None,
    }
}

/// The base stands for two inputs, so the clock at 8 of the other host is the third.
#[test]
fn begins_again_from_its_base(rt: HostRuntime) -> Result<(), Fail> {
    let origin = based(rt.alloc())?;
    let mut log = log(rt.alloc(), Some(Outcome::Taken))?;
    let taken = turn(rt.alloc(), &origin, &mut log, &[7], Now::Behind)?;
    assert!(rt; inputs_of(&taken).is_none());
    append(&mut log, 8)?;
    let again = turn(rt.alloc(), &origin, &mut log, &[7], taken)?;
    assert!(rt; inputs_of(&again) == Some(3));
    let on = turn(rt.alloc(), &origin, &mut log, &[7, 9], again)?;
    assert!(rt; inputs_of(&on) == Some(4));
    assert!(rt; has_clocks(&log, &[8, 9]));
    Ok(())
}
