//! Growths of a reaction that are refused.

use super::reactions::ONE;
use super::sending::fields;
use super::{Row, all_hold, holds, list_of};
use react_core::{ArrivedEvent, Outbox, copy_of, react};
use std::alloc::Global;
use std::process::Abort;
use tests_memory::{Outcome, Spared, UsedUp, is_refused_until_enough};
use x3d_values::{Fields, Items, NodeType, Value};

/// An event at a node of this type. If memory is refused the node may hold the new value.
#[derive(Clone, Copy)]
struct Reaction<'a>(NodeType, u16, &'a Value);

impl<'a> Spared<Fields> for Reaction<'a> {
    fn work(&self, alloc: Global, node: &mut Fields, memory: &mut UsedUp) -> Outcome {
        let mut out = Outbox::new();
        memory.run_short();
        let event = ArrivedEvent {
            field: self.1,
            value: self.2,
            time: 0,
        };
        let answer = react(alloc, self.0, node, &event, &mut out);
        memory.come_back();
        let sent = out.len();
        drop(out);
        Outcome::of(answer.is_ok() && sent == 1, answer.is_err())
    }
}

/// Returns a list of 200 keys, or an empty list if memory is refused.
fn keys(alloc: Global) -> Value {
    match vec![in alloc; 7; 200] {
        Ok(keys) => Value::MFFloat(Items::from_vec(keys)),
        Err(_) => Value::MFFloat(Items::new(alloc)),
    }
}

/// Returns a CoordinateInterpolator of two keys with a hundred vectors each.
fn interpolator(alloc: Global) -> Option<Fields> {
    let Ok(vectors) = vec![in alloc; ONE; 200] else {
        return None;
    };
    let mut node = fields(alloc, 7);
    node.set(2, Value::MFVec3f(Items::from_vec(vectors)));
    node.set(1, Value::MFFloat(list_of(alloc, &[0, 1_000_000])));
    Some(node)
}

/// An input of a CoordinateInterpolator, and the least number of turns in which memory is refused.
/// Input 1 gets 200 keys, and any other a fraction.
struct Refused(u16, usize);

impl Row for Refused {
    fn holds(&self, alloc: Global) -> bool {
        let value = if self.0 == 1 {
            keys(alloc)
        } else {
            Value::SFFloat(500_000)
        };
        let Some(mut node) = interpolator(alloc) else {
            drop(value);
            return false;
        };
        let event = Reaction(NodeType::CoordinateInterpolator, self.0, &value);
        let refused = is_refused_until_enough(alloc, &event, &mut node, self.1);
        drop(node);
        drop(value);
        refused
    }
}

/// Setting a list copies it twice, 1,600 bytes each. A CoordinateInterpolator makes one list of
/// 2,400 bytes.
static REFUSED: [Refused; 2] = [Refused(1, 200), Refused(3, 150)];

#[test]
fn a_reaction_is_refused_until_there_is_enough(rt: HostRuntime) {
    all_hold(&rt, rt.alloc(), &REFUSED);
}

/// Copies a value.
struct Copy;

impl Spared<Value> for Copy {
    fn work(&self, alloc: Global, value: &mut Value, memory: &mut UsedUp) -> Outcome {
        memory.run_short();
        let fault = copy_of(alloc, value).err();
        memory.come_back();
        Outcome::of(fault.is_none(), fault.is_some())
    }
}

#[test]
fn a_copy_is_refused_until_there_is_enough(rt: HostRuntime) {
    let mut value = keys(rt.alloc());
    let refused = is_refused_until_enough(rt.alloc(), &Copy, &mut value, 100);
    drop(value);
    holds(&rt, refused);
}
