//! The names that nodes keep.

ghost use Rattle.std.specs.Prelude.{◌≡◌, ◌++◌, OnOk, IfOk, decimal};
ghost use Rattle.std.specs.List.{fold, list_all};
ghost use Rattle.std.specs.Option.{option_copied};
ghost use Rattle.std.specs.Str.{bytes_eq};
ghost use Rattle.x3d_lists.specs.Extends.{Extends};
ghost use Rattle.scene_core.specs.Scene.{label_or};
ghost use Rattle.scene_core.specs.Labels as spec;
ghost use Rattle.scene_core.specs.Labels.{known_of};

use itoa::Buffer;
use proto_flat::FlatNode;
use std::alloc::{AllocError, AllocFailed, Global};
use std::collections::BTreeMap;
use x3d_lists::{Duplicate, Text};

/// For each name, whether exactly one node has it.
#[derive(Drop)]
pub struct Marks<'a> {
    pub alone: BTreeMap<&'a str, bool>,
}

/// Returns which names belong to exactly one of the nodes in `order`.
pub(crate) fn marked<'a>(
    alloc: Global,
    nodes: &'a [FlatNode],
    order: &[u32],
) -> Result<Marks<'a>, AllocError>
    ensures { IfOk result
        (λ marks. known_of marks
        ≡ fold spec.mark spec.unknown (spec.names_of nodes.now order.now)) }
{
    let mut marks = no_marks(alloc);
    for n in order {
        if mark_at(&mut marks, nodes, *n).is_err() {
            drop(marks);
            return Err(AllocError);
        }
    }
    Ok(marks)
}

/// Returns the name that the node with number `number` keeps.
pub(crate) fn label_of(
    alloc: Global,
    marks: &Marks<'_>,
    number: usize,
    name: &Option<Text>,
) -> Result<Option<Text>, AllocError>
    ensures { IfOk result
        (λ label. label ≡ spec.label_by
        (spec.is_label (λ n. spec.known_alone (known_of marks.now n)) number) name.now) }
{
    let Some(name) = name else {
        return Ok(None);
    };
    if !is_label(marks, number, name) {
        return Ok(None);
    }
    Ok(Some(name.duplicate(alloc)?))
}

/// Reports whether a DEF name is the label of the node with number `number`.
fn is_label(marks: &Marks<'_>, number: usize, name: &Text) -> bool
    ensures { result
        ≡ spec.is_label (λ n. spec.known_alone (known_of marks.now n)) number name.now }
{
    let alone = known(marks, name).unwrap_or(false);
    (alone && !is_numbered(name.as_bytes())) || is_own_number(number, name.as_bytes())
}

/// Appends the label of node `node`, which keeps the name `name` if there is one. If memory is
/// refused, a part of the label may have been appended.
pub(crate) fn push_label(
    name: Option<&Text>,
    node: u32,
    out: &mut Vec<u8>,
) -> Result<(), AllocError>
    ensures ok { OnOk result
        (out.new.items ≡ out.old.items ++ label_or node (option_copied name.entry)) }
    ensures kept { Extends out.old.items out.new.items }
{
    if let Some(name) = name {
        return out.extend_from_slice(name.as_bytes());
    }
    out.push(b'N')?;
    let mut digits = Buffer::new();
    out.extend_from_slice(digits.format(node).as_bytes())
}

fn name_at(nodes: &[FlatNode], n: u32) -> Option<&Text>
    ensures { option_copied result ≡ spec.name_at nodes.now n }
{
    let Some(node) = nodes.get(n as usize) else {
        return None;
    };
    node.name.as_ref()
}

#[tactic(auto, unfolding(crate::specs::Labels::known_of))]
fn known(marks: &Marks<'_>, name: &Text) -> Option<bool>
    ensures { result ≡ known_of marks.now name.now }
{
    marks.alone.get(name.as_str()).copied()
}

fn no_marks<'a>(alloc: Global) -> Marks<'a>
    ensures { known_of result ≡ spec.unknown }
{
    Marks {
        alone: BTreeMap::new(alloc),
    }
}

/// Records whether exactly one node has the name. Returns the previous record.
#[tactic(auto, unfolding(crate::specs::Labels::known_of))]
fn mark_as<'a>(
    marks: &mut Marks<'a>,
    name: &'a Text,
    alone: bool,
) -> Result<Option<bool>, AllocFailed<(&'a str, bool)>>
    ensures before { IfOk result (λ before. before ≡ known_of marks.old name.now) }
    ensures marked { IfOk result
        (λ _. known_of marks.new ≡ spec.marked name.now alone (known_of marks.old)) }
{
    let before = marks.alone.insert(name.as_str(), alone)?;
    Ok(before)
}

/// Records one more node with the name. Most names are new, and need only one look-up.
#[tactic(auto, using(crate::proofs::NameLemmas::marks))]
fn mark<'a>(marks: &mut Marks<'a>, name: &'a Text) -> Result<(), AllocFailed<(&'a str, bool)>>
    ensures { IfOk result
        (λ _. known_of marks.new ≡ spec.mark (known_of marks.old) name.now) }
{
    let before = mark_as(marks, name, true)?;
    if before.is_none() {
        return Ok(());
    }
    mark_as(marks, name, false)?;
    Ok(())
}

fn mark_at<'a>(marks: &mut Marks<'a>, nodes: &'a [FlatNode], n: u32) -> Result<(), AllocError>
    ensures { IfOk result
        (λ _. known_of marks.new ≡ spec.mark_any (known_of marks.old) (spec.name_at nodes.now n)) }
{
    let Some(name) = name_at(nodes, n) else {
        return Ok(());
    };
    mark(marks, name)?;
    Ok(())
}

fn is_digit(c: u8) -> bool
    ensures { result ≡ spec.is_digit c }
{
    b'0' <= c && c <= b'9'
}

fn all_digits(text: &[u8]) -> bool
    ensures { result ≡ list_all spec.is_digit text.now }
{
    text.iter().all(|c| is_digit(*c))
}

/// Reports whether a text consists of one or more digits.
fn are_digits(text: &[u8]) -> bool
    ensures { result ≡ spec.are_digits text.now }
{
    !text.is_empty() && all_digits(text)
}

/// Reports whether a text is an `N` followed by one or more digits.
fn is_numbered(name: &[u8]) -> bool
    ensures { result ≡ spec.is_numbered name.now }
{
    match name {
        [first, rest @ ..] => {
            if *first == b'N' {
                are_digits(rest)
            } else {
                false
            }
        }
        [] => false,
    }
}

/// Reports whether a text is an `N` followed by the number `number`.
fn is_own_number(number: usize, name: &[u8]) -> bool
    ensures { result ≡ spec.is_own_number number name.now }
{
    match name {
        [first, rest @ ..] => *first == b'N' && is_decimal(number, rest),
        [] => false,
    }
}

fn is_decimal(number: usize, text: &[u8]) -> bool
    ensures { result ≡ bytes_eq text.now (decimal number) }
{
    let mut digits = Buffer::new();
    text == digits.format(number).as_bytes()
}
