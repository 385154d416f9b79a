//! Values of one plain part, and what a node sends, as text.

use react_core::{Outbox, SentEvent};
use std::alloc::Global;
use x3d_values::{Fields, Items, Position, Show, Value, show_value};

/// A value of one part.
#[derive(Clone, Copy)]
pub enum Given {
    Truth(bool),
    Float(i64),
    Int32(i32),
    Time(i64),
    NoNode,
}

pub fn value_of(given: Given) -> Value {
    match given {
        Given::Truth(truth) => Value::SFBool(truth),
        Given::Float(number) => Value::SFFloat(number),
        Given::Int32(number) => Value::SFInt32(number),
        Given::Time(time) => Value::SFTime(time),
        Given::NoNode => Value::SFNode(None),
    }
}

/// Returns a node with `count` fields without values, or fewer if memory is refused.
pub fn fields(alloc: Global, count: usize) -> Fields {
    let mut values = Items::new(alloc);
    for _ in 0..count {
        let _given = values.push(None).is_ok();
    }
    Fields {
        values,
        position: Position { at: None },
    }
}

/// Reports whether `wanted` is sent: the field and the value of each reply, in order.
pub fn is_sent(alloc: Global, out: &Outbox, wanted: &str) -> bool {
    let mut text = Vec::new(alloc);
    let mut is_whole = true;
    for reply in out.as_slice() {
        is_whole &= push_reply(reply, &mut text);
    }
    let same = text.as_slice() == wanted.as_bytes();
    drop(text);
    is_whole && same
}

/// Appends the field and the value of a reply. Reports whether memory is granted.
fn push_reply(reply: &SentEvent, text: &mut Vec<u8>) -> bool {
    let field = i32::from(reply.field).show(text).is_ok();
    let space = text.extend_from_slice(b" ").is_ok();
    let value = show_value(&reply.value, text).is_ok();
    let end = text.extend_from_slice(b";").is_ok();
    field & space & value & end
}
