//! What a node passes on, or sets and sends on, at one event.

use super::reactions::reacts;
use super::sending::{Given, fields, value_of};
use super::{Row, all_hold, holds};
use std::alloc::Global;
use std::process::Abort;
use x3d_values::{NodeType, Text, Value};

/// An event at a node of seven fields, the third of which is FALSE, and what is sent.
struct Plain(NodeType, u16, Given, &'static str);

impl Row for Plain {
    fn holds(&self, alloc: Global) -> bool {
        let mut node = fields(alloc, 7);
        node.set(2, Value::SFBool(false));
        let answer = reacts(alloc, self.0, &mut node, self.1, value_of(self.2), self.3);
        drop(node);
        answer
    }
}

static PLAIN: [Plain; 19] = [
    Plain(
        NodeType::BooleanFilter,
        1,
        Given::Truth(true),
        "2 TRUE;4 FALSE;",
    ),
    Plain(
        NodeType::BooleanFilter,
        1,
        Given::Truth(false),
        "3 FALSE;4 TRUE;",
    ),
    Plain(NodeType::BooleanFilter, 2, Given::Truth(true), ""),
    Plain(NodeType::BooleanFilter, 1, Given::Time(1), ""),
    Plain(NodeType::BooleanToggle, 1, Given::Truth(true), "2 TRUE;"),
    Plain(NodeType::BooleanToggle, 1, Given::Truth(false), ""),
    Plain(NodeType::BooleanToggle, 2, Given::Truth(true), "2 TRUE;"),
    Plain(NodeType::BooleanTrigger, 1, Given::Time(7), "2 TRUE;"),
    Plain(NodeType::BooleanTrigger, 1, Given::Truth(true), ""),
    Plain(NodeType::IntegerTrigger, 1, Given::Truth(true), ""),
    Plain(NodeType::IntegerTrigger, 2, Given::Int32(5), "2 5;"),
    Plain(NodeType::TimeTrigger, 1, Given::Truth(true), "2 42;"),
    Plain(NodeType::TimeTrigger, 1, Given::Truth(false), "2 42;"),
    Plain(NodeType::TouchSensor, 2, Given::Truth(false), "2 FALSE;"),
    Plain(NodeType::TimeSensor, 2, Given::Truth(false), ""),
    Plain(NodeType::Switch, 4, Given::Int32(1), "4 1;"),
    Plain(NodeType::Switch, 4, Given::Truth(true), ""),
    Plain(NodeType::Switch, 0, Given::NoNode, ""),
    Plain(NodeType::Switch, 9, Given::Truth(true), ""),
];

#[test]
fn passes_on_truth_values_and_times(rt: HostRuntime) {
    all_hold(&rt, rt.alloc(), &PLAIN);
}

/// Reports whether a title is sent on.
fn sends_a_title(alloc: Global) -> bool {
    let Ok(title) = Text::from_str(alloc, "here") else {
        return false;
    };
    let mut node = fields(alloc, 4);
    let value = Value::SFString(title);
    let sent = reacts(
        alloc,
        NodeType::WorldInfo,
        &mut node,
        2,
        value,
        "2 \"here\";",
    );
    drop(node);
    sent
}

#[test]
fn sends_on_what_it_sets(rt: HostRuntime) {
    holds(&rt, sends_a_title(rt.alloc()));
}
