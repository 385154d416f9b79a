//! Rows of the table of reactions, by hand.

use super::sending::{Given, fields, is_sent, value_of};
use super::{Row, all_hold, list_of};
use react_core::{ArrivedEvent, Outbox, react};
use std::alloc::Global;
use std::process::Abort;
use x3d_values::{Fields, NodeType, Position, Value, Vec2, Vec3};

/// Reports whether a node sends `wanted` at one event.
pub(super) fn reacts(
    alloc: Global,
    node_type: NodeType,
    node: &mut Fields,
    input: u16,
    value: Value,
    wanted: &str,
) -> bool {
    let mut out = Outbox::new();
    let event = ArrivedEvent {
        field: input,
        value: &value,
        time: 42_000_000,
    };
    let answered = react(alloc, node_type, node, &event, &mut out).is_ok();
    drop(value);
    let sent = is_sent(alloc, &out, wanted);
    drop(out);
    answered && sent
}

/// The value of a node's field 2.
#[derive(Clone, Copy)]
enum Held {
    Int32(i32),
    Truths(&'static [bool]),
    Int32s(&'static [i32]),
    Floats(&'static [i64]),
    Pairs(&'static [Vec2]),
    Vectors(&'static [Vec3]),
}

fn held_value(alloc: Global, held: Held) -> Value {
    match held {
        Held::Int32(number) => Value::SFInt32(number),
        Held::Truths(items) => Value::MFBool(list_of(alloc, items)),
        Held::Int32s(items) => Value::MFInt32(list_of(alloc, items)),
        Held::Floats(items) => Value::MFFloat(list_of(alloc, items)),
        Held::Pairs(items) => Value::MFVec2f(list_of(alloc, items)),
        Held::Vectors(items) => Value::MFVec3f(list_of(alloc, items)),
    }
}

/// A node with its keys and its value, its position, an event, what is sent, and its position
/// afterwards.
#[derive(Clone, Copy)]
struct Keyed {
    node_type: NodeType,
    keys: &'static [i64],
    held: Held,
    at: Option<u32>,
    event: (u16, Given),
    sent: &'static str,
    then: Option<u32>,
}

impl Row for Keyed {
    fn holds(&self, alloc: Global) -> bool {
        let mut node = fields(alloc, 7);
        node.set(2, held_value(alloc, self.held));
        node.set(1, Value::MFFloat(list_of(alloc, self.keys)));
        node.position = Position { at: self.at };
        let (input, given) = self.event;
        let sent = reacts(
            alloc,
            self.node_type,
            &mut node,
            input,
            value_of(given),
            self.sent,
        );
        let then = node.position.at;
        drop(node);
        sent && then == self.then
    }
}

/// An event at an IntegerSequencer of three values: its position, the event, what is sent, and its
/// position afterwards.
struct Step(Option<u32>, u16, Given, &'static str, Option<u32>);

impl Row for Step {
    fn holds(&self, alloc: Global) -> bool {
        let row = Keyed {
            node_type: NodeType::IntegerSequencer,
            keys: &[0, 500_000, 1_000_000],
            held: Held::Int32s(&[7, 8, 9]),
            at: self.0,
            event: (self.1, self.2),
            sent: self.3,
            then: self.4,
        };
        row.holds(alloc)
    }
}

static SEQUENCE: [Step; 8] = [
    Step(None, 4, Given::Truth(true), "6 9;", Some(2)),
    Step(Some(2), 3, Given::Truth(true), "6 7;", Some(0)),
    Step(Some(0), 3, Given::Truth(false), "", Some(0)),
    Step(Some(0), 5, Given::Float(750_000), "6 8;", Some(1)),
    Step(Some(1), 3, Given::Truth(true), "6 9;", Some(2)),
    Step(Some(2), 3, Given::Truth(true), "6 7;", Some(0)),
    Step(Some(0), 5, Given::Float(-1), "6 7;", Some(0)),
    Step(Some(0), 5, Given::Truth(true), "", Some(0)),
];

/// What an IntegerSequencer of three keys sends at these events in order.
#[test]
fn sequencer(rt: HostRuntime) {
    all_hold(&rt, rt.alloc(), &SEQUENCE);
}

/// A BooleanSequencer whose position is past its end counts as one that has not begun. With fewer
/// keys than values it sends nothing and stays. An IntegerTrigger sends its number.
static HELD: [Keyed; 3] = [
    Keyed {
        node_type: NodeType::BooleanSequencer,
        keys: &[0, 1],
        held: Held::Truths(&[true, false]),
        at: Some(2),
        event: (3, Given::Truth(true)),
        sent: "6 TRUE;",
        then: Some(0),
    },
    Keyed {
        node_type: NodeType::BooleanSequencer,
        keys: &[0],
        held: Held::Truths(&[true, false]),
        at: Some(2),
        event: (3, Given::Truth(true)),
        sent: "",
        then: Some(2),
    },
    Keyed {
        node_type: NodeType::IntegerTrigger,
        keys: &[],
        held: Held::Int32(3),
        at: None,
        event: (1, Given::Truth(true)),
        sent: "3 3;",
        then: None,
    },
];

#[test]
fn sends_what_it_holds(rt: HostRuntime) {
    all_hold(&rt, rt.alloc(), &HELD);
}

/// An interpolator with keys and values, a fraction, and what is sent.
struct Between(NodeType, &'static [i64], Held, i64, &'static str);

impl Row for Between {
    fn holds(&self, alloc: Global) -> bool {
        let row = Keyed {
            node_type: self.0,
            keys: self.1,
            held: self.2,
            at: None,
            event: (3, Given::Float(self.3)),
            sent: self.4,
            then: None,
        };
        row.holds(alloc)
    }
}

pub(super) const ONE: Vec3 = Vec3 { x: 0, y: 0, z: 8 };

const OTHER: Vec3 = Vec3 {
    x: 4_000_000,
    y: -4_000_000,
    z: 8,
};

const NUMBER: NodeType = NodeType::ScalarInterpolator;

static PLACES: [Between; 17] = [
    Between(
        NUMBER,
        &[0, 500_000, 500_000, 1_000_000],
        Held::Floats(&[0, 1_000_000, 5_000_000, 6_000_000]),
        500_000,
        "4 5;",
    ),
    Between(
        NUMBER,
        &[0, 300_000, 1_000_000],
        Held::Floats(&[0, 10_000_000, 0]),
        400_000,
        "4 8.571428;",
    ),
    Between(NUMBER, &[], Held::Floats(&[]), 0, ""),
    Between(NUMBER, &[1, 0], Held::Floats(&[1, 2]), 0, ""),
    Between(NUMBER, &[0, 1], Held::Floats(&[1]), 0, ""),
    Between(
        NUMBER,
        &[0, 0, 2],
        Held::Floats(&[1, 5, 7]),
        0,
        "4 0.000001;",
    ),
    Between(
        NUMBER,
        &[0, 2, 2],
        Held::Floats(&[1, 5, 7]),
        2,
        "4 0.000007;",
    ),
    Between(NUMBER, &[0, 3], Held::Floats(&[0, -1]), 1, "4 -0.000001;"),
    Between(
        NUMBER,
        &[i64::MIN, i64::MAX],
        Held::Floats(&[i64::MAX, i64::MIN]),
        0,
        "4 -0.000001;",
    ),
    Between(NUMBER, &[0, 2], Held::Floats(&[0, 8_000_000]), 1, "4 4;"),
    Between(NUMBER, &[0, 4], Held::Vectors(&[ONE, OTHER]), 2, ""),
    Between(
        NodeType::PositionInterpolator2D,
        &[0, 4],
        Held::Pairs(&[Vec2 { x: 0, y: 10 }, Vec2 { x: 10, y: 0 }]),
        1,
        "4 0.000002 0.000007;",
    ),
    Between(
        NodeType::PositionInterpolator,
        &[0, 4],
        Held::Vectors(&[ONE, OTHER]),
        1,
        "4 1 -1 0.000008;",
    ),
    Between(
        NodeType::CoordinateInterpolator,
        &[0, 4],
        Held::Vectors(&[ONE, OTHER, OTHER, ONE]),
        2,
        "4 [2 -2 0.000008 2 -2 0.000008];",
    ),
    Between(
        NodeType::CoordinateInterpolator,
        &[0, 4],
        Held::Vectors(&[ONE, OTHER, OTHER]),
        2,
        "",
    ),
    Between(
        NodeType::CoordinateInterpolator,
        &[0, 4],
        Held::Vectors(&[]),
        2,
        "",
    ),
    Between(
        NodeType::TimeSensor,
        &[0, 4],
        Held::Vectors(&[ONE, OTHER]),
        2,
        "",
    ),
];

#[test]
fn interpolation(rt: HostRuntime) {
    all_hold(&rt, rt.alloc(), &PLACES);
}
