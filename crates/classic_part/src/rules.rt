//! What stays of nodes and fields.

ghost use Rattle.std.specs.Prelude.{◌≡◌, map};
ghost use Rattle.classic_part.specs.Rules as spec;
ghost use Rattle.classic_part.specs.Groupings.{entry};

use crate::grouping_nodes::{ChildrenField, Grouping, groupings};
use crate::index::Index;
use classic_tree::{Given, NodeText, RawValue};
use x3d_values::{FieldType, NodeType, field_of};

/// What the word before a node's braces means.
#[derive(Clone, Copy)]
pub enum Meant {
    Typed(NodeType),
    /// A grouping node outside the table: the type that it becomes, and where its children are.
    Grouped(NodeType, ChildrenField),
    Prototype,
    Nothing,
}

/// What is done with a field.
#[derive(Clone, Copy)]
pub enum FieldRule {
    Stays,
    /// It becomes `children`.
    Children,
    /// It goes, since the node's type doesn't have it.
    Unknown,
    /// It goes, since it is a rotation that turns.
    Turned,
}

/// Returns what the first row of that word means.
fn grouped(rows: &[Grouping], word: &str) -> Meant
    ensures { result ≡ spec.grouped word.now (map entry rows.now) }
{
    match rows {
        [] => Meant::Nothing,
        [row, others @ ..] => {
            if word == row.word {
                Meant::Grouped(row.becomes, row.children)
            } else {
                grouped(others, word)
            }
        }
    }
}

fn declared_or_grouped(is_declared: bool, word: &str) -> Meant
    ensures { result ≡ spec.declared_or_grouped is_declared word.now }
{
    if is_declared {
        return Meant::Prototype;
    }
    grouped(groupings(), word)
}

fn untyped(known: &Index<'_>, word: &str) -> Meant
    ensures { result ≡ spec.untyped word.now known.now.notes }
{
    match known.declares(word) {
        None => Meant::Prototype,
        Some(is_declared) => declared_or_grouped(is_declared, word),
    }
}

/// Returns what the word before a node's braces means.
pub(crate) fn meaning_of(known: &Index<'_>, word: &str) -> Meant
    ensures { result ≡ spec.meaning_of known.now word.now }
{
    match NodeType::named(word) {
        Some(node_type) => Meant::Typed(node_type),
        None => untyped(known, word),
    }
}

impl Meant {
    /// Returns the word in the part.
    pub(crate) fn word_of<'a>(self, word: &'a str) -> &'a str
        ensures { result.now ≡ spec.word_of self word.now }
    {
        match self {
            Meant::Grouped(node_type, _) => node_type.name(),
            _ => word,
        }
    }
}

fn turns_by(run: &[i64]) -> bool
    ensures { result ≡ spec.turns_by run.now }
{
    match run {
        [_, _, _, angle] => angle.unsigned_abs() != 0,
        _ => false,
    }
}

fn value_turns(value: &RawValue<NodeText>) -> bool
    ensures { result ≡ spec.value_turns value.now }
{
    match value {
        RawValue::Numbers(run) => turns_by(run.as_slice()),
        _ => false,
    }
}

/// Reports whether a value is a rotation by an angle other than 0.
pub(crate) fn turns(given: &Given<NodeText>) -> bool
    ensures { result ≡ spec.turns given.now }
{
    match given {
        Given::Value(value) => value_turns(value),
        _ => false,
    }
}

fn may_turn(field_type: FieldType, name: &str) -> bool
    ensures { result ≡ spec.may_turn field_type name.now }
{
    field_type != FieldType::SFRotation || name == "orientation"
}

fn typed_rule(node_type: NodeType, name: &str, turns: bool) -> FieldRule
    ensures { result ≡ spec.typed_rule node_type name.now turns }
{
    let Some(row) = field_of(node_type, name) else {
        return FieldRule::Unknown;
    };
    if turns && !may_turn(row.field_type, name) {
        FieldRule::Turned
    } else {
        FieldRule::Stays
    }
}

/// Returns what is done with a field of a node, given whether its value turns.
pub(crate) fn field_rule(meant: Meant, name: &str, turns: bool) -> FieldRule
    ensures { result ≡ spec.field_rule meant name.now turns }
{
    match meant {
        Meant::Typed(node_type) => typed_rule(node_type, name, turns),
        Meant::Grouped(node_type, children) => {
            if children.is_named(name) {
                return FieldRule::Children;
            }
            typed_rule(node_type, name, turns)
        }
        Meant::Prototype => FieldRule::Stays,
        Meant::Nothing => FieldRule::Unknown,
    }
}
