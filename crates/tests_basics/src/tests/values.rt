//! Values with their bytes and their texts by hand, and the state after memory is refused.

use super::{Row, all_hold, holds};
use snapshot_codec::{PartFault, push_value, value_of};
use std::alloc::Global;
use std::process::Abort;
use tests_memory::{Outcome, Spared, UsedUp, is_refused_until_enough};
use x3d_values::{
    FieldDefault, FieldType, Value, clone_value, default_value, empty_value, show_value,
};

/// Reports whether `text` is the value's text.
pub(super) fn shows(alloc: Global, value: &Value, text: &str) -> bool {
    let mut shown = Vec::new(alloc);
    let pushed = show_value(value, &mut shown).is_ok();
    let same = shown.as_slice() == text.as_bytes();
    drop(shown);
    pushed && same
}

/// Reports whether the value has these bytes.
fn is_written(alloc: Global, value: &Value, bytes: &[u8]) -> bool {
    let mut out = Vec::new(alloc);
    let pushed = push_value(value, &mut out).is_ok();
    let same = out.as_slice() == bytes;
    drop(out);
    pushed && same
}

/// Reports whether a copy of the value is equal to it.
fn is_copied(alloc: Global, value: &Value) -> bool {
    let Ok(copy) = clone_value(alloc, value) else {
        return false;
    };
    let same = copy == *value;
    drop(copy);
    same
}

/// A type, bytes, and the text of the value that has these bytes, or `None` if no value has them.
struct Coded(FieldType, &'static [u8], Option<&'static str>);

impl Row for Coded {
    fn holds(&self, alloc: Global) -> bool {
        match value_of(alloc, self.0, self.1) {
            Ok((value, rest)) => {
                let all = rest.is_empty();
                let written = is_written(alloc, &value, self.1);
                let shown = shows(alloc, &value, self.2.unwrap_or("?"));
                let copied = is_copied(alloc, &value);
                drop(value);
                all && written && shown && copied
            }
            Err(fault) => self.2.is_none() && fault == PartFault::NotCanonical,
        }
    }
}

static VALUES: [Coded; 30] = [
    // truth values and numbers
    Coded(FieldType::SFBool, b"\x01", Some("TRUE")),
    Coded(FieldType::SFBool, b"\x00", Some("FALSE")),
    Coded(FieldType::SFInt32, b"\x80\x00\x00\x00", Some("-2147483648")),
    Coded(FieldType::SFInt32, b"\xff\xff\xff\xfe", Some("-2")),
    Coded(
        FieldType::SFFloat,
        b"\x00\x00\x00\x00\x00\x16\xe3\x60",
        Some("1.5"),
    ),
    Coded(
        FieldType::SFFloat,
        b"\xff\xff\xff\xff\xff\xf8\x5e\xe0",
        Some("-0.5"),
    ),
    Coded(
        FieldType::SFFloat,
        b"\x00\x03\x8d\x7e\xa4\xc6\x80\x00",
        Some("1000000000"),
    ),
    Coded(
        FieldType::SFTime,
        b"\xff\xff\xff\xff\xff\xff\xff\xff",
        Some("-0.000001"),
    ),
    Coded(
        FieldType::SFTime,
        b"\x00\x00\x00\x00\x00\x99\x59\xd0",
        Some("10.05"),
    ),
    // vectors and colours
    Coded(
        FieldType::SFVec2f,
        b"\x00\x00\x00\x00\x00\x00\x00\x01\xff\xff\xff\xff\xff\xff\xff\xfe",
        Some("0.000001 -0.000002"),
    ),
    Coded(
        FieldType::SFVec3f,
        b"\x00\x00\x00\x00\x00\x0f\x42\x40\x00\x00\x00\x00\x00\x00\x00\x00\
            \xff\xff\xff\xff\xff\xe1\x7b\x80",
        Some("1 0 -2"),
    ),
    Coded(
        FieldType::SFColor,
        b"\x00\x00\x00\x00\x00\x0c\x35\x00\x00\x00\x00\x00\x00\x00\x00\x00\
            \x00\x00\x00\x00\x00\x0f\x42\x40",
        Some("0.8 0 1"),
    ),
    // strings
    Coded(FieldType::SFString, b"\x00\x00\x00\x00", Some("\"\"")),
    Coded(FieldType::SFString, b"\x00\x00\x00\x02hi", Some("\"hi\"")),
    Coded(
        FieldType::SFString,
        b"\x00\x00\x00\x09a \"b\" \\ c",
        Some("\"a \\\"b\\\" \\\\ c\""),
    ),
    // lists
    Coded(
        FieldType::MFBool,
        b"\x00\x00\x00\x02\x00\x01",
        Some("[FALSE TRUE]"),
    ),
    Coded(
        FieldType::MFInt32,
        b"\x00\x00\x00\x02\xff\xff\xff\xff\x00\x00\x00\x14",
        Some("[-1 20]"),
    ),
    Coded(
        FieldType::MFFloat,
        b"\x00\x00\x00\x02\x00\x00\x00\x00\x00\x03\xd0\x90\x00\x00\x00\x00\x00\x18\x6a\x00",
        Some("[0.25 1.6]"),
    ),
    Coded(
        FieldType::MFTime,
        b"\x00\x00\x00\x01\x00\x00\x00\x00\x00\x0f\x42\x40",
        Some("[1]"),
    ),
    Coded(FieldType::MFString, b"\x00\x00\x00\x00", Some("[]")),
    Coded(
        FieldType::MFString,
        b"\x00\x00\x00\x02\x00\x00\x00\x02hi\x00\x00\x00\x00",
        Some("[\"hi\" \"\"]"),
    ),
    Coded(
        FieldType::MFVec2f,
        b"\x00\x00\x00\x02\x00\x00\x00\x00\x00\x00\x00\x00\x00\x00\x00\x00\
            \x00\x0f\x42\x40\xff\xff\xff\xff\xff\xff\xff\xff\x00\x00\x00\x00\
            \x00\x00\x00\x00",
        Some("[0 1 -0.000001 0]"),
    ),
    Coded(
        FieldType::MFVec3f,
        b"\x00\x00\x00\x01\x00\x00\x00\x00\x00\x00\x00\x00\x00\x00\x00\x00\
            \x00\x00\x00\x00\x00\x00\x00\x00\x00\x00\x00\x05",
        Some("[0 0 0.000005]"),
    ),
    Coded(
        FieldType::MFColor,
        b"\x00\x00\x00\x01\x00\x00\x00\x00\x00\x0c\x35\x00\x00\x00\x00\x00\
            \x00\x00\x00\x00\x00\x00\x00\x00\x00\x0f\x42\x40",
        Some("[0.8 0 1]"),
    ),
    // bytes that are not a value
    Coded(FieldType::SFBool, b"\x02", None),
    Coded(
        FieldType::SFFloat,
        b"\x00\x03\x8d\x7e\xa4\xc6\x80\x01",
        None,
    ),
    Coded(FieldType::SFString, b"\x00\x00\x00\x01\xff", None),
    Coded(FieldType::MFBool, b"\xff\xff\xff\xff\x01", None),
    Coded(FieldType::MFNode, b"\x00\x00\x00\x00", None),
    // a time may be larger than a number
    Coded(
        FieldType::SFTime,
        b"\x00\x03\x8d\x7e\xa4\xc6\x80\x01",
        Some("1000000000.000001"),
    ),
];

#[test]
fn values_have_their_bytes_and_texts(rt: HostRuntime) {
    all_hold(&rt, rt.alloc(), &VALUES);
}

/// The calls that take memory for a value.
#[derive(Clone, Copy)]
enum Call {
    Show,
    Write,
    Clone,
}

/// Appends the text of a value, or its bytes. If memory is refused the buffer is unchanged.
fn appends(call: Call, value: &Value, out: &mut Vec<u8>) -> bool {
    match call {
        Call::Show => show_value(value, out).is_ok(),
        _ => push_value(value, out).is_ok(),
    }
}

impl Spared<Value> for Call {
    fn work(&self, alloc: Global, value: &mut Value, memory: &mut UsedUp) -> Outcome {
        let mut out = Vec::new(alloc);
        let ready = out.push(b'x').is_ok();
        memory.run_short();
        let given = match self {
            Call::Clone => clone_value(alloc, value).err().is_none(),
            _ => appends(*self, value, &mut out),
        };
        memory.come_back();
        let same = out.as_slice() == b"x".as_slice();
        drop(out);
        Outcome::of(ready & given, same)
    }
}

/// Reports whether each of the calls is refused in at least one turn, until there is enough.
fn are_refused(alloc: Global, value: &mut Value) -> bool {
    for call in [Call::Show, Call::Write, Call::Clone] {
        if !is_refused_until_enough(alloc, &call, value, 1) {
            return false;
        }
    }
    true
}

/// Reads a value of this type from bytes.
#[derive(Clone, Copy)]
struct Reading(FieldType);

impl Spared<&'static [u8]> for Reading {
    fn work(&self, alloc: Global, bytes: &mut &'static [u8], memory: &mut UsedUp) -> Outcome {
        memory.run_short();
        let fault = value_of(alloc, self.0, bytes).err();
        memory.come_back();
        Outcome::of(fault.is_none(), fault == Some(PartFault::Memory))
    }
}

/// A type, and the bytes of a value. The bytes and the text are longer than the 24 bytes that a
/// small block holds.
struct Refused(FieldType, &'static [u8]);

impl Row for Refused {
    fn holds(&self, alloc: Global) -> bool {
        let Ok((mut value, _)) = value_of(alloc, self.0, self.1) else {
            return false;
        };
        let refused = are_refused(alloc, &mut value);
        drop(value);
        let mut bytes = self.1;
        refused && is_refused_until_enough(alloc, &Reading(self.0), &mut bytes, 1)
    }
}

static REFUSED: [Refused; 3] = [
    Refused(
        FieldType::SFString,
        b"\x00\x00\x00\x20a word of 32 letters, each of it",
    ),
    Refused(
        FieldType::MFFloat,
        b"\x00\x00\x00\x03\
            \x00\x00\x00\x00\x00\x00\x00\x07\x00\x00\x00\x00\x00\x00\x00\x08\
            \x00\x00\x00\x00\x00\x00\x00\x09",
    ),
    Refused(
        FieldType::MFString,
        b"\x00\x00\x00\x02\x00\x00\x00\x0ca long word.\x00\x00\x00\x0canother door",
    ),
];

/// The default that has words, and an empty list, which takes no memory.
struct Defaults;

impl Spared<()> for Defaults {
    fn work(&self, alloc: Global, _subject: &mut (), memory: &mut UsedUp) -> Outcome {
        memory.run_short();
        let words = default_value(alloc, FieldType::MFString, FieldDefault::ExamineAny);
        let empty = empty_value(alloc, FieldType::MFString);
        memory.come_back();
        let given = empty.is_some();
        drop(empty);
        let fault = words.err();
        Outcome::of(given && fault.is_none(), given)
    }
}

#[test]
fn a_refused_growth_is_answered(rt: HostRuntime) {
    all_hold(&rt, rt.alloc(), &REFUSED);
    holds(
        &rt,
        is_refused_until_enough(rt.alloc(), &Defaults, &mut (), 4),
    );
}
