//! The TimeSensors of the worked examples, and ticks and events computed by hand from the rules.

use super::sending::{Given, fields, is_sent, value_of};
use super::{Row, all_hold, holds};
use react_core::Outbox;
use sensor_core::{TimeFields, TimeState};
use std::alloc::Global;
use std::process::Abort;
use x3d_values::{Fields, MAX_TIME, Value};

/// An enabled sensor's cycle interval, whether it loops, its start and its stop, in microseconds.
type Setting = (i64, bool, i64, i64);

/// Sets the fields of a TimeSensor; the others have their defaults.
fn set_all(fields: &mut Fields, given: Setting) {
    fields.set(1, Value::SFTime(given.0));
    fields.set(2, Value::SFBool(true));
    fields.set(3, Value::SFBool(given.1));
    fields.set(4, Value::SFTime(0));
    fields.set(5, Value::SFTime(0));
    fields.set(6, Value::SFTime(given.2));
    fields.set(7, Value::SFTime(given.3));
}

fn timing(alloc: Global, given: Setting) -> Option<TimeFields> {
    let mut fields = fields(alloc, 14);
    set_all(&mut fields, given);
    let timing = TimeFields::from_fields(&fields);
    drop(fields);
    timing
}

fn state_of(cycle: Option<u64>) -> TimeState {
    match cycle {
        Some(cycle) if cycle < 10 => TimeState::active(cycle),
        _ => TimeState::inactive(),
    }
}

/// A sensor's setting before a tick, the cycle that runs, the time, the cycle that runs after the
/// tick, and what is sent.
struct Tick(Setting, Option<u64>, i64, Option<u64>, &'static str);

/// Reports whether the sensor sends `wanted` at a tick.
fn sends(alloc: Global, state: &mut TimeState, timing: &TimeFields, t: i64, wanted: &str) -> bool {
    let mut out = Outbox::new();
    if t >= 0 && t <= MAX_TIME && out.is_empty() {
        state.tick(timing, t, &mut out);
    }
    let sent = is_sent(alloc, &out, wanted);
    drop(out);
    sent
}

impl Row for Tick {
    fn holds(&self, alloc: Global) -> bool {
        let Some(timing) = timing(alloc, self.0) else {
            return false;
        };
        let mut state = state_of(self.1);
        let sent = sends(alloc, &mut state, &timing, self.2, self.4);
        sent && state.cycle() == self.3
    }
}

const ONCE: Setting = (1_000_000, false, 1_000_000, 0);

static ONE_CYCLE: [Tick; 4] = [
    Tick(
        ONCE,
        None,
        1_000_000,
        Some(0),
        "8 TRUE;10 1;11 0;12 0;13 1;",
    ),
    Tick(
        ONCE,
        Some(0),
        1_250_000,
        Some(0),
        "11 0.25;12 0.25;13 1.25;",
    ),
    Tick(ONCE, Some(0), 5_000_000, None, "11 1;12 1;13 5;8 FALSE;"),
    Tick(ONCE, None, 6_000_000, None, ""),
];

#[test]
fn one_cycle(rt: HostRuntime) {
    all_hold(&rt, rt.alloc(), &ONE_CYCLE);
}

const AGAIN: Setting = (2_000_000, true, 1_000_000, 0);

static TWO_CLOCKS: [Tick; 3] = [
    Tick(
        AGAIN,
        None,
        1_000_000,
        Some(0),
        "8 TRUE;10 1;11 0;12 0;13 1;",
    ),
    Tick(AGAIN, Some(0), 2_000_000, Some(0), "11 0.5;12 1;13 2;"),
    Tick(AGAIN, Some(0), 3_000_000, Some(1), "10 3;11 1;12 2;13 3;"),
];

#[test]
fn two_clocks(rt: HostRuntime) {
    all_hold(&rt, rt.alloc(), &TWO_CLOCKS);
}

static TICKS: [Tick; 18] = [
    // the start is in the future
    Tick((4, false, 9, 0), None, 8, None, ""),
    Tick(
        (4, false, 9, 0),
        None,
        10,
        Some(0),
        "8 TRUE;10 0.000009;11 0.25;12 0.000001;13 0.00001;",
    ),
    // the only cycle is over before the sensor starts
    Tick((4, false, 9, 0), None, 13, None, ""),
    // a loop starts late, in a later cycle
    Tick(
        (4, true, 9, 0),
        None,
        18,
        Some(2),
        "8 TRUE;10 0.000017;11 0.25;12 0.000009;13 0.000018;",
    ),
    // a jump over several cycles
    Tick(
        (4, true, 9, 0),
        Some(0),
        22,
        Some(3),
        "10 0.000021;11 0.25;12 0.000013;13 0.000022;",
    ),
    // the exact end of a cycle
    Tick(
        (4, true, 9, 0),
        Some(0),
        13,
        Some(1),
        "10 0.000013;11 1;12 0.000004;13 0.000013;",
    ),
    Tick(
        (4, false, 9, 0),
        Some(0),
        13,
        None,
        "11 1;12 0.000004;13 0.000013;8 FALSE;",
    ),
    Tick(
        (4, false, 9, 0),
        Some(0),
        12,
        Some(0),
        "11 0.75;12 0.000003;13 0.000012;",
    ),
    // a stop before the end, at it and after it
    Tick(
        (4, false, 9, 11),
        Some(0),
        12,
        None,
        "11 0.75;12 0.000003;13 0.000012;8 FALSE;",
    ),
    Tick(
        (4, false, 9, 13),
        Some(0),
        15,
        None,
        "11 1;12 0.000004;13 0.000015;8 FALSE;",
    ),
    Tick(
        (4, false, 9, 14),
        Some(0),
        14,
        None,
        "11 1;12 0.000004;13 0.000014;8 FALSE;",
    ),
    Tick(
        (4, true, 9, 14),
        Some(1),
        14,
        None,
        "11 0.25;12 0.000005;13 0.000014;8 FALSE;",
    ),
    // a stop that is ignored, and one that keeps a sensor from starting
    Tick(
        (4, true, 9, 9),
        None,
        9,
        Some(0),
        "8 TRUE;10 0.000009;11 0;12 0;13 0.000009;",
    ),
    Tick((4, true, 9, 10), None, 10, None, ""),
    // a start before 0, and thirds, rounded down
    Tick(
        (3, true, -4, -5),
        None,
        0,
        Some(1),
        "8 TRUE;10 -0.000001;11 0.333333;12 0.000004;13 0;",
    ),
    Tick(
        (3, true, -4, -5),
        Some(1),
        1,
        Some(1),
        "11 0.666666;12 0.000005;13 0.000001;",
    ),
    // the largest times
    Tick(
        (MAX_TIME, false, -MAX_TIME, 0),
        Some(0),
        MAX_TIME,
        None,
        "11 1;12 1000000000000;13 1000000000000;8 FALSE;",
    ),
    Tick(
        (MAX_TIME, true, -MAX_TIME, -MAX_TIME),
        Some(0),
        MAX_TIME,
        Some(2),
        "10 1000000000000;11 1;12 1000000000000;13 1000000000000;",
    ),
];

#[test]
fn ticks_by_hand(rt: HostRuntime) {
    all_hold(&rt, rt.alloc(), &TICKS);
}

/// Reports whether fields that were written are read back.
fn are_read_again(alloc: Global) -> bool {
    let Some(timing) = timing(alloc, (5, true, -1, 7)) else {
        return false;
    };
    let mut fields = fields(alloc, 14);
    timing.write_to(&mut fields);
    let again = TimeFields::from_fields(&fields);
    drop(fields);
    again == Some(timing) && timing.cycle_interval() == 5 && timing.start_time() == -1
}

#[test]
fn fields_are_written_and_read(rt: HostRuntime) {
    holds(&rt, are_read_again(rt.alloc()));
}

/// An input, its value, whether the sensor runs before, what is sent, and whether it runs
/// afterwards.
struct Change(u16, Given, bool, &'static str, bool);

/// Reports whether the sensor sends the row's text at the row's event.
fn tells(alloc: Global, state: &mut TimeState, timing: &mut TimeFields, row: &Change) -> bool {
    let mut out = Outbox::new();
    let value = value_of(row.1);
    if out.is_empty() {
        state.set(timing, row.0, &value, &mut out);
    }
    drop(value);
    let sent = is_sent(alloc, &out, row.3);
    drop(out);
    sent
}

impl Row for Change {
    fn holds(&self, alloc: Global) -> bool {
        let Some(mut timing) = timing(alloc, (4, true, 9, 0)) else {
            return false;
        };
        let mut state = state_of(self.2.then_some(0));
        let sent = tells(alloc, &mut state, &mut timing, self);
        sent && state.is_active() == self.4
    }
}

static EVENTS: [Change; 17] = [
    Change(6, Given::Time(3), true, "", true),
    Change(6, Given::Time(3), false, "6 0.000003;", false),
    Change(7, Given::Time(9), true, "", true),
    Change(7, Given::Time(10), true, "7 0.00001;", true),
    Change(7, Given::Time(9), false, "7 0.000009;", false),
    Change(1, Given::Time(7), true, "", true),
    Change(1, Given::Time(7), false, "1 0.000007;", false),
    Change(1, Given::Time(0), false, "", false),
    Change(4, Given::Time(MAX_TIME + 1), false, "", false),
    Change(5, Given::Time(1), true, "5 0.000001;", true),
    Change(3, Given::Truth(false), true, "3 FALSE;", true),
    Change(2, Given::Truth(true), true, "2 TRUE;", true),
    Change(2, Given::Truth(false), false, "2 FALSE;", false),
    Change(2, Given::Truth(false), true, "2 FALSE;8 FALSE;", false),
    Change(2, Given::Time(1), true, "", true),
    Change(8, Given::Truth(false), true, "", true),
    Change(0, Given::NoNode, true, "", true),
];

#[test]
fn events_by_hand(rt: HostRuntime) {
    all_hold(&rt, rt.alloc(), &EVENTS);
}
