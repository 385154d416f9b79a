//! Parts of a world, with their bytes by hand.

mod sensors;

use super::{Row, all_hold, holds};
use snapshot_codec::{
    HeadFault, KeptField, Numbers, Outputs, Progress, SentAt, Touch, TraceEntry, Viewers,
    kept_fields_of, open, push_cycle, push_digest, push_entry, push_entry_count, push_front,
    push_kept_fields, push_position, push_progress, push_state, push_touch, push_viewer_set,
    scene_mark, states_of, trace_of,
};
use std::alloc::Global;
use std::process::Abort;
use x3d_values::{FieldType, Items, Position, Value};

const MARK: [u8; 32] = *b"abcdefghijklmnopqrstuvwxyzABCDEF";

/// The body of the snapshot of an empty world of 16 viewers: boot 1, time 0, no buttons, no events.
const EMPTY: &[u8] = b"\x00\x00\x00\x01\x00\x00\x00\x00\x00\x00\x00\x00\x00\x00\x00\x00\
    \x00\x00\x00\x00\x00\x00\x00\x00\x00\x00";

/// Like `EMPTY`, for 64 viewers: 6 bytes more.
const EMPTY_OF_64: &[u8] = b"\x00\x00\x00\x01\x00\x00\x00\x00\
    \x00\x00\x00\x00\x00\x00\x00\x00\x00\x00\x00\x00\x00\x00\x00\x00\
    \x00\x00\x00\x00\x00\x00\x00\x00";

/// Like `EMPTY_OF_64`, with 4 bytes more for how many inputs were applied.
const EMPTY_IN_LONG: &[u8] = b"\x00\x00\x00\x01\x00\x00\x00\x00\x00\x00\x00\x00\
    \x00\x00\x00\x00\x00\x00\x00\x00\x00\x00\x00\x00\x00\x00\x00\x00\
    \x00\x00\x00\x00\x00\x00\x00\x00";

/// Appends the snapshot of an empty world. Reports whether memory is granted.
fn push_empty(version: u8, numbers: Numbers, of: Viewers, out: &mut Vec<u8>) -> bool {
    let progress = Progress {
        boot: 1,
        applied: 0,
        last_time: 0,
    };
    let front = push_front(version, &MARK, out).is_ok();
    let middle = push_progress(numbers, progress, out).is_ok();
    let viewers = push_viewer_set(of, 0, out).is_ok();
    let count = push_entry_count(0, out).is_ok();
    let digest = push_digest(0, out).is_ok();
    front & middle & viewers & count & digest
}

/// Returns why bytes are not a snapshot of a version with this body. Another body counts as another
/// digest.
fn opened(version: u8, shot: &[u8], body: &[u8]) -> Option<HeadFault> {
    match open(version, &MARK, shot) {
        Ok(found) if found == body => None,
        Ok(_) => Some(HeadFault::BadDigest),
        Err(fault) => Some(fault),
    }
}

/// A version, its numbers of inputs and its viewers, the body of the snapshot of an empty world,
/// and the length of the snapshot.
struct Empty(u8, Numbers, Viewers, &'static [u8], usize);

/// The snapshot opens to that body in its own version, and in no other.
impl Row for Empty {
    fn holds(&self, alloc: Global) -> bool {
        let mut out = Vec::new(alloc);
        let pushed = push_empty(self.0, self.1, self.2, &mut out);
        let len = out.len();
        let is_opened = opened(self.0, out.as_slice(), self.3) == None;
        let other = opened(4, out.as_slice(), self.3) == Some(HeadFault::BadVersion);
        drop(out);
        pushed && len == self.4 && is_opened && other
    }
}

static EMPTIES: [Empty; 3] = [
    Empty(1, Numbers::Short, Viewers::Sixteen, EMPTY, 95),
    Empty(2, Numbers::Short, Viewers::SixtyFour, EMPTY_OF_64, 101),
    Empty(3, Numbers::Long, Viewers::SixtyFour, EMPTY_IN_LONG, 105),
];

#[test]
fn an_empty_world_has_95_bytes_or_101_or_105(rt: HostRuntime) {
    all_hold(&rt, rt.alloc(), &EMPTIES);
}

#[test]
fn a_mark_is_the_digest_of_the_text(rt: HostRuntime) {
    let mark = scene_mark(b"abc");
    let digest = b"\xba\x78\x16\xbf\x8f\x01\xcf\xea\x41\x41\x40\xde\x5d\xae\x22\x23\
        \xb0\x03\x61\xa3\x96\x17\x7a\x9c\xb4\x10\xff\x61\xf2\x00\x15\xad";
    holds(&rt, mark.as_slice() == digest.as_slice());
}

/// No value, a time and a truth value, as bytes.
const KEPT: &[u8] = b"\x00\x00\x00\x00\x00\x00\x00\x01\x01";

/// Reports whether fields are read from these bytes, and written as the same bytes.
fn are_kept(alloc: Global) -> bool {
    let kept = [
        KeptField::Absent,
        KeptField::Interval,
        KeptField::Typed(FieldType::SFBool),
    ];
    let Ok((values, rest)) = kept_fields_of(alloc, &kept, KEPT) else {
        return false;
    };
    let mut out = Vec::new(alloc);
    let pushed = push_kept_fields(values.as_slice(), &mut out).is_ok();
    let count = values.len();
    drop(values);
    let same = out.as_slice() == KEPT;
    drop(out);
    pushed && count == 3 && rest.is_empty() && same
}

#[test]
fn fields_are_kept_or_not(rt: HostRuntime) {
    holds(&rt, are_kept(rt.alloc()));
}

/// Each node sends truth values from its field 3.
struct Switches;

impl Outputs for Switches {
    ghost use Rattle.std.specs.Prelude.{◌==◌, Some, None, if◌then◌else◌};
    ghost use Rattle.x3d_values.specs.declared.field_type.FieldType.TheVariants.{SFBool};

    ghost types = { λ _ _ field. if field == 3 then Some SFBool else None };

    fn output_type(&self, _node: u32, field: u16) -> Option<FieldType> {
        if field == 3 {
            Some(FieldType::SFBool)
        } else {
            None
        }
    }
}

/// The number of events, and one event; two states, one of two numbers and one of none; a cycle and
/// none; a touch of one of 16 viewers; no position and one.
const PARTS: &[u8] = b"\x00\x00\x00\x00\x00\x00\x00\x01\x00\x00\x00\x01\
    \x00\x00\x00\x00\x00\x0f\x42\x40\x00\x00\x00\x02\x00\x03\x01\x00\x00\x00\x02\
    \xff\xff\xff\xff\xff\xff\xff\xff\x00\x00\x00\x00\x00\x00\x00\x02\x00\x00\x00\x00\
    \x01\x00\x00\x00\x00\x00\x00\x01\x02\x00\x00\x00\x00\x00\x00\x00\x00\x00\
    \x80\x01\x0f\xff\xff\xff\xff\x00\x00\x00\x02";

const SENT: SentAt = SentAt {
    input: 1,
    time: 1_000_000,
    node: 2,
    field: 3,
};

const TOUCH: Touch = Touch {
    over: 0x8001,
    presser: Some(15),
};

fn push_cause(numbers: Numbers, sent: SentAt, out: &mut Vec<u8>) -> bool {
    let value = Value::SFBool(true);
    let pushed = push_entry(numbers, sent, &value, out).is_ok();
    drop(value);
    pushed
}

/// Appends the parts. Reports whether memory is granted.
fn push_parts(out: &mut Vec<u8>) -> bool {
    let count = push_entry_count(1, out).is_ok();
    let event = push_cause(Numbers::Short, SENT, out);
    let two = push_state(&[-1, 2], out).is_ok();
    let none = push_state(&[], out).is_ok();
    let cycle = push_cycle(Some(258), out).is_ok();
    let no_cycle = push_cycle(None, out).is_ok();
    let touch = push_touch(Viewers::Sixteen, TOUCH, out).is_ok();
    let nowhere = push_position(Position { at: None }, out).is_ok();
    let position = push_position(Position { at: Some(2) }, out).is_ok();
    count & event & two & none & cycle & no_cycle & touch & nowhere & position
}

/// Reports whether the parts are written as these bytes.
fn are_written(alloc: Global) -> bool {
    let mut out = Vec::new(alloc);
    let pushed = push_parts(&mut out);
    let same = out.as_slice() == PARTS;
    drop(out);
    pushed && same
}

/// Reports whether two states are read, with the 29 bytes of the other parts after them.
fn are_states(alloc: Global, bytes: &[u8]) -> bool {
    match states_of(alloc, 2, bytes) {
        Ok((states, rest)) => {
            let count = states.len();
            drop(states);
            count == 2 && rest.len() == 29
        }
        Err(_) => false,
    }
}

/// Reports whether the events and the states are read, the first event as it was sent.
fn are_as_sent(alloc: Global) -> bool {
    let mut entries: Items<TraceEntry> = Items::new(alloc);
    let read = match trace_of(alloc, Numbers::Short, &Switches, PARTS, &mut entries) {
        Ok(rest) => are_states(alloc, rest),
        Err(_) => false,
    };
    let first = entries.get(0).map(|entry| entry.sent);
    drop(entries);
    read && first == Some(SENT)
}

#[test]
fn parts_have_their_bytes(rt: HostRuntime) {
    holds(&rt, are_written(rt.alloc()));
    holds(&rt, are_as_sent(rt.alloc()));
}

/// The number of events, and one event, by input 2^20 + 1 in 8 bytes.
const LATE: &[u8] = b"\x00\x00\x00\x00\x00\x00\x00\x01\
    \x00\x00\x00\x00\x00\x10\x00\x01\x00\x00\x00\x00\x00\x0f\x42\x40\
    \x00\x00\x00\x02\x00\x03\x01";

const SENT_LATE: SentAt = SentAt {
    input: (1 << 20) + 1,
    time: 1_000_000,
    node: 2,
    field: 3,
};

/// Reports whether that event is written as these bytes.
fn is_written_late(alloc: Global) -> bool {
    let mut out = Vec::new(alloc);
    let count = push_entry_count(1, &mut out).is_ok();
    let event = push_cause(Numbers::Long, SENT_LATE, &mut out);
    let same = out.as_slice() == LATE;
    drop(out);
    count && event && same
}

/// Reports whether that event is read from these bytes, with none left.
fn is_read_late(alloc: Global) -> bool {
    let mut entries: Items<TraceEntry> = Items::new(alloc);
    let read = match trace_of(alloc, Numbers::Long, &Switches, LATE, &mut entries) {
        Ok(rest) => rest.is_empty(),
        Err(_) => false,
    };
    let first = entries.get(0).map(|entry| entry.sent);
    drop(entries);
    read && first == Some(SENT_LATE)
}

#[test]
fn a_late_event_has_its_bytes(rt: HostRuntime) {
    holds(&rt, is_written_late(rt.alloc()));
    holds(&rt, is_read_late(rt.alloc()));
}
