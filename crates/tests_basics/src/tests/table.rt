//! The table of fields against a transcription of it by hand. A line has one field, in order: the
//! node type, the field, its type, its access (io inputOutput, ini initializeOnly, in inputOnly,
//! out outputOnly), its default in the Classic encoding, and which nodes it takes.

use super::table_text::TABLE;
use super::values::shows;
use super::{Row, all_hold, holds};
use std::alloc::Global;
use std::process::Abort;
use x3d_values::{
    Access, FieldRow, FieldType, NodeKind, NodeType, default_value, field_at, field_of, fields_of,
};

/// Returns the kind of node for a letter of the table.
fn kind_of(letter: &str) -> Option<NodeKind> {
    let [letter] = letter.as_bytes() else {
        return None;
    };
    match letter {
        b'C' => Some(NodeKind::Child),
        b'A' => Some(NodeKind::Appearance),
        b'M' => Some(NodeKind::Material),
        b'T' => Some(NodeKind::Texture),
        b'G' => Some(NodeKind::Geometry),
        b'P' => Some(NodeKind::Coordinates),
        b'L' => Some(NodeKind::Colors),
        b'V' => Some(NodeKind::Normals),
        b'X' => Some(NodeKind::TextureCoordinates),
        b'F' => Some(NodeKind::FontStyle),
        b'D' => Some(NodeKind::Metadata),
        _ => None,
    }
}

fn access_of(word: &str) -> Option<Access> {
    match word {
        "io" => Some(Access::InputOutput),
        "ini" => Some(Access::InitializeOnly),
        "in" => Some(Access::InputOnly),
        "out" => Some(Access::OutputOnly),
        _ => None,
    }
}

/// Returns the first word, and the text after it.
fn cut_word(line: &str) -> (&str, &str) {
    line.split_once(' ').unwrap_or((line, ""))
}

/// Reports whether a field of this access and type holds a value.
fn holds_a_value(row: FieldRow) -> bool {
    let kept = row.access == Access::InputOutput || row.access == Access::InitializeOnly;
    kept && row.field_type != FieldType::SFRotation
}

/// Reports whether `wanted` is the text of the field's default, if the field has one. A node and a
/// list of nodes have no text.
fn is_default(alloc: Global, row: FieldRow, wanted: &str) -> bool {
    let Some(default) = row.default else {
        return !holds_a_value(row);
    };
    let Ok(Some(value)) = default_value(alloc, row.field_type, default) else {
        return false;
    };
    let wanted = if row.kind.is_some() { "" } else { wanted };
    let shown = shows(alloc, &value, wanted);
    drop(value);
    shown && holds_a_value(row)
}

/// Reports whether `said`, the rest of the line after the field's name, is right: its type, its
/// access, its default and which nodes it takes.
fn is_said(alloc: Global, row: FieldRow, said: &str) -> bool {
    let (field_type, rest) = cut_word(said);
    let (access, rest) = cut_word(rest);
    let (default, letter) = rest.split_once(" of ").unwrap_or((rest, ""));
    FieldType::named(field_type) == Some(row.field_type)
        && access_of(access) == Some(row.access)
        && kind_of(letter) == row.kind
        && is_default(alloc, row, default)
}

/// Reports whether `said` is right of the field of this number.
fn is_field(alloc: Global, node_type: NodeType, number: u16, said: &str) -> bool {
    let (name, said) = cut_word(said);
    let (Some(named), Some(row)) = (field_of(node_type, name), field_at(node_type, number)) else {
        return false;
    };
    named.number == number
        && row.number == number
        && is_said(alloc, named, said)
        && is_said(alloc, row, said)
}

/// The number of lines found until now, the node type of the last line, the number of its next
/// field, and the number of rows of the node types.
#[derive(Clone, Copy)]
struct Found {
    lines: usize,
    node_type: Option<NodeType>,
    number: u16,
    rows: usize,
}

/// Counts the line if it is the next one of the table.
fn find(alloc: Global, text: &str, found: &mut Found) {
    let (name, said) = cut_word(text);
    let Some(node_type) = NodeType::named(name) else {
        return;
    };
    if found.node_type != Some(node_type) {
        found.node_type = Some(node_type);
        found.number = 0;
        found.rows = found.rows.wrapping_add(fields_of(node_type).len());
    }
    if is_field(alloc, node_type, found.number, said) {
        found.lines = found.lines.wrapping_add(1);
    }
    found.number = found.number.wrapping_add(1);
}

/// Reports whether each line is found, and each row of the program has a line.
fn are_found(alloc: Global) -> bool {
    let mut found = Found {
        lines: 0,
        node_type: None,
        number: 0,
        rows: 0,
    };
    for text in TABLE.lines() {
        find(alloc, text, &mut found);
    }
    found.lines == 244 && found.rows == 244
}

#[test]
fn every_row_of_the_table_is_found(rt: HostRuntime) {
    holds(&rt, are_found(rt.alloc()));
}

/// A node type, and the letter of its kind.
struct Kind(&'static str, &'static str);

impl Row for Kind {
    fn holds(&self, _alloc: Global) -> bool {
        match NodeType::named(self.0) {
            Some(node_type) => Some(node_type.kind()) == kind_of(self.1),
            None => false,
        }
    }
}

static KINDS: [Kind; 24] = [
    Kind("Appearance", "A"),
    Kind("Material", "M"),
    Kind("ImageTexture", "T"),
    Kind("Box", "G"),
    Kind("Sphere", "G"),
    Kind("Cone", "G"),
    Kind("Cylinder", "G"),
    Kind("IndexedFaceSet", "G"),
    Kind("Text", "G"),
    Kind("Coordinate", "P"),
    Kind("Color", "L"),
    Kind("Normal", "V"),
    Kind("TextureCoordinate", "X"),
    Kind("FontStyle", "F"),
    Kind("MetadataString", "D"),
    Kind("MetadataInteger", "D"),
    Kind("MetadataFloat", "D"),
    Kind("MetadataSet", "D"),
    Kind("Group", "C"),
    Kind("Shape", "C"),
    Kind("TimeSensor", "C"),
    Kind("TouchSensor", "C"),
    Kind("PlaneSensor", "C"),
    Kind("Script", "C"),
];

#[test]
fn node_types_have_their_kinds(rt: HostRuntime) {
    all_hold(&rt, rt.alloc(), &KINDS);
}
