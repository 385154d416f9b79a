//! The kinds of scripts by their words, and the fields that a Script of each kind declares.

ghost use Rattle.std.specs.Prelude.{◌≡◌, ◌≤◌, length, map};
ghost use Rattle.x3d_values.specs.Tables.{entry};
ghost use Rattle.script_host.specs.Interface.{first_kind, inputs as inputs_of, interface as interface_of, kind_named, kind_word, outputs as outputs_of};

use x3d_values::{Access, Field, FieldDefault, FieldType, Kind};

macro_rules! input {
    ($name:literal, $field_type:ident) => {
        Field {
            name: $name,
            access: Access::InputOnly,
            field_type: FieldType::$field_type,
            default: None,
            kind: None,
        }
    };
}

macro_rules! setting {
    ($name:literal, $field_type:ident) => {
        Field {
            name: $name,
            access: Access::InitializeOnly,
            field_type: FieldType::$field_type,
            default: Some(FieldDefault::Empty),
            kind: None,
        }
    };
}

macro_rules! output {
    ($name:literal, $field_type:ident) => {
        Field {
            name: $name,
            access: Access::OutputOnly,
            field_type: FieldType::$field_type,
            default: None,
            kind: None,
        }
    };
}

static KINDS: [Kind; 6] = [
    Kind::Counter,
    Kind::Gate,
    Kind::Adder,
    Kind::Batch,
    Kind::Mover,
    Kind::Meter,
];

// In each table the inputs come first and the outputs last.

static COUNTER: [Field; 4] = [
    input!("tick", SFBool),
    setting!("start", SFInt32),
    setting!("step", SFInt32),
    output!("count", SFInt32),
];

static GATE: [Field; 5] = [
    input!("open", SFBool),
    input!("pulse", SFTime),
    setting!("startOpen", SFBool),
    output!("isOpen", SFBool),
    output!("passed", SFTime),
];

static ADDER: [Field; 3] = [
    input!("a", SFFloat),
    input!("b", SFFloat),
    output!("sum", SFFloat),
];

static BATCH: [Field; 3] = [
    input!("item", SFBool),
    output!("many", SFInt32),
    output!("any", SFBool),
];

static MOVER: [Field; 4] = [
    input!("fraction", SFFloat),
    setting!("from", SFVec3f),
    setting!("to", SFVec3f),
    output!("position", SFVec3f),
];

static METER: [Field; 2] = [input!("reading", SFFloat), output!("mean", SFFloat)];

/// Returns the word by which a Script asks for the kind.
fn kind_word(kind: Kind) -> &'static str
    ensures { result.now ≡ kind_word kind }
{
    match kind {
        Kind::Counter => "counter",
        Kind::Gate => "gate",
        Kind::Adder => "adder",
        Kind::Batch => "batch",
        Kind::Mover => "mover",
        Kind::Meter => "meter",
    }
}

/// Returns the kind with that word, or `None` if the word is unknown.
pub fn kind_named(word: &str) -> Option<Kind>
    ensures { result ≡ kind_named word.now }
{
    first_kind(&KINDS, word)
}

/// Returns the first of these kinds that has the word.
fn first_kind(kinds: &[Kind], word: &str) -> Option<Kind>
    ensures { result ≡ first_kind word.now kinds.now }
{
    match kinds {
        [] => None,
        [first, others @ ..] => {
            if word == kind_word(*first) {
                Some(*first)
            } else {
                first_kind(others, word)
            }
        }
    }
}

/// Returns the fields that a Script of the kind declares: its inputs, then the fields that it is
/// given at the start, then its outputs.
pub fn interface(kind: Kind) -> &'static [Field]
    ensures { map entry result.now ≡ interface_of kind }
{
    match kind {
        Kind::Counter => &COUNTER,
        Kind::Gate => &GATE,
        Kind::Adder => &ADDER,
        Kind::Batch => &BATCH,
        Kind::Mover => &MOVER,
        Kind::Meter => &METER,
    }
}

/// Returns the inputs of a kind, in the order of their numbers.
pub fn inputs(kind: Kind) -> &'static [Field]
    ensures are { map entry result.now ≡ inputs_of kind }
    ensures few { length result.now ≤ 2 }
{
    match kind {
        Kind::Counter => &COUNTER[..1],
        Kind::Gate => &GATE[..2],
        Kind::Adder => &ADDER[..2],
        Kind::Batch => &BATCH[..1],
        Kind::Mover => &MOVER[..1],
        Kind::Meter => &METER[..1],
    }
}

/// Returns the outputs of a kind, in the order of their numbers.
pub fn outputs(kind: Kind) -> &'static [Field]
    ensures are { map entry result.now ≡ outputs_of kind }
    ensures few { length result.now ≤ 2 }
{
    match kind {
        Kind::Counter => &COUNTER[3..],
        Kind::Gate => &GATE[3..],
        Kind::Adder => &ADDER[2..],
        Kind::Batch => &BATCH[1..],
        Kind::Mover => &MOVER[3..],
        Kind::Meter => &METER[1..],
    }
}
