//! Raw values as values of a type: what no scene has, the longest list, and growths that are
//! refused. (Values of each type, and texts that are not values, are cases in cases/values.cases.)

use super::lists::words;
use super::{Row, all_hold, holds, list_of};
use classic_tree::RawValue;
use scene_values::{ValueFault, checked_rotation, typed};
use std::alloc::Global;
use std::process::Abort;
use tests_memory::{Outcome, Spared, UsedUp, is_refused_until_enough};
use x3d_values::{FieldType, Items, Text, Value};

/// The numbers of the raw values' nodes.
static NUMBERS: [u32; 3] = [10, 11, 12];

/// A raw value.
#[derive(Clone, Copy)]
enum Given {
    Run(&'static [i64]),
    List(&'static [i64]),
    Truth(bool),
    Truths(&'static [bool]),
    /// A string of this many letters.
    Word(usize),
    /// `["door" "lamp"]`
    Words,
    Node(u32),
    Nodes(&'static [u32]),
    Empty,
}

/// Returns this many letters, or fewer if memory is refused.
fn word(alloc: Global, length: usize) -> Text {
    let mut word = String::new(alloc);
    for _ in 0..length {
        let _given = word.push_str("x").is_ok();
    }
    Text::from_string(word)
}

fn raw_value(alloc: Global, given: Given) -> RawValue<u32> {
    match given {
        Given::Run(items) => RawValue::Numbers(list_of(alloc, items)),
        Given::List(items) => RawValue::NumberList(list_of(alloc, items)),
        Given::Truth(truth) => RawValue::Truth(truth),
        Given::Truths(items) => RawValue::TruthList(list_of(alloc, items)),
        Given::Word(length) => RawValue::String(word(alloc, length)),
        Given::Words => RawValue::StringList(words(alloc)),
        Given::Node(node) => RawValue::Node(node),
        Given::Nodes(items) => RawValue::NodeList(list_of(alloc, items)),
        Given::Empty => RawValue::EmptyList,
    }
}

/// A type, a raw value, and the nodes of the value, or why it is not a value.
struct Typed(FieldType, Given, Result<&'static [u32], ValueFault>);

impl Row for Typed {
    fn holds(&self, alloc: Global) -> bool {
        let raw = raw_value(alloc, self.1);
        let answer = typed(alloc, self.0, &raw, &NUMBERS);
        drop(raw);
        match answer {
            Ok(value) => {
                let same = value.field_type() == self.0 && Ok(value.nodes()) == self.2;
                drop(value);
                same
            }
            Err(fault) => self.2 == Err(fault),
        }
    }
}

/// Nodes get their numbers, a rotation is not a value, and a number can be out of range for a time.
static TYPED: [Typed; 8] = [
    Typed(FieldType::MFNode, Given::Node(1), Ok(&[11])),
    Typed(FieldType::SFNode, Given::Node(1), Ok(&[11])),
    Typed(
        FieldType::MFNode,
        Given::Nodes(&[2, 0, 3]),
        Ok(&[12, 10, 0]),
    ),
    Typed(
        FieldType::SFRotation,
        Given::Run(&[0, 0, 1_000_000, 0]),
        Err(ValueFault::WrongType),
    ),
    Typed(
        FieldType::SFRotation,
        Given::Empty,
        Err(ValueFault::WrongType),
    ),
    Typed(
        FieldType::SFTime,
        Given::Run(&[1_000_000_000_000_000_001]),
        Err(ValueFault::ValueRange),
    ),
    Typed(
        FieldType::MFTime,
        Given::Run(&[1_000_000_000_000_000_001]),
        Err(ValueFault::ValueRange),
    ),
    Typed(
        FieldType::MFTime,
        Given::List(&[0, -1_000_000_000_000_000_001]),
        Err(ValueFault::ValueRange),
    ),
];

/// Reports whether an axis may be longer than any numeral.
fn is_a_rotation(alloc: Global) -> bool {
    let raw = raw_value(alloc, Given::Run(&[2_000_000_000_000_000_000, 0, 0, 0]));
    let answer = checked_rotation(&raw, false);
    drop(raw);
    answer == Ok(())
}

#[test]
fn values_that_no_scene_has(rt: HostRuntime) {
    all_hold(&rt, rt.alloc(), &TYPED);
    holds(&rt, is_a_rotation(rt.alloc()));
}

/// Reports whether the raw value is a list of `count` vectors.
fn has_vectors(alloc: Global, raw: &RawValue<u32>, count: usize) -> bool {
    match typed(alloc, FieldType::MFVec3f, raw, &NUMBERS) {
        Ok(value) => {
            let right = match &value {
                Value::MFVec3f(vectors) => vectors.len() == count,
                _ => false,
            };
            drop(value);
            right
        }
        Err(_) => false,
    }
}

fn is_a_long_list(alloc: Global) -> bool {
    let Ok(numbers) = vec![in alloc; 1_000_000; 8_388_606] else {
        return false;
    };
    let raw = RawValue::NumberList(Items::from_vec(numbers));
    let right = has_vectors(alloc, &raw, 2_796_202);
    drop(raw);
    right
}

#[test]
fn a_list_of_eight_million_numerals(rt: HostRuntime) {
    holds(&rt, is_a_long_list(rt.alloc()));
}

/// Reads a raw value as a value of this type.
#[derive(Clone, Copy)]
struct Typing(FieldType);

impl Spared<RawValue<u32>> for Typing {
    fn work(&self, alloc: Global, raw: &mut RawValue<u32>, memory: &mut UsedUp) -> Outcome {
        memory.run_short();
        let fault = typed(alloc, self.0, raw, &NUMBERS).err();
        memory.come_back();
        Outcome::of(fault.is_none(), fault == Some(ValueFault::Memory))
    }
}

/// A type, a raw value, and the least number of turns in which memory is refused: two for a list.
struct Refused(FieldType, Given, usize);

impl Row for Refused {
    fn holds(&self, alloc: Global) -> bool {
        let mut raw = raw_value(alloc, self.1);
        let refused = is_refused_until_enough(alloc, &Typing(self.0), &mut raw, self.2);
        drop(raw);
        refused
    }
}

static REFUSED: [Refused; 15] = [
    Refused(FieldType::MFInt32, Given::List(&[0, 0, 0, 0, 0, 0]), 2),
    Refused(FieldType::MFFloat, Given::List(&[0, 0, 0, 0, 0, 0]), 2),
    Refused(FieldType::MFTime, Given::List(&[0, 0, 0, 0, 0, 0]), 2),
    Refused(FieldType::MFVec2f, Given::List(&[0, 0, 0, 0, 0, 0]), 2),
    Refused(FieldType::MFVec3f, Given::List(&[0, 0, 0, 0, 0, 0]), 2),
    Refused(FieldType::MFColor, Given::List(&[0, 0, 0, 0, 0, 0]), 2),
    Refused(FieldType::MFBool, Given::Truth(true), 2),
    Refused(FieldType::MFBool, Given::Truths(&[true, false]), 2),
    Refused(FieldType::MFNode, Given::Node(1), 2),
    Refused(FieldType::MFNode, Given::Nodes(&[2, 0]), 2),
    Refused(FieldType::SFString, Given::Word(3), 2),
    Refused(FieldType::MFString, Given::Word(3), 4),
    Refused(FieldType::MFString, Given::Words, 6),
    // the word, and then the list that has it
    Refused(FieldType::SFString, Given::Word(4096), 256),
    Refused(FieldType::MFString, Given::Word(4096), 258),
];

#[test]
fn each_refused_growth_is_answered(rt: HostRuntime) {
    all_hold(&rt, rt.alloc(), &REFUSED);
}
