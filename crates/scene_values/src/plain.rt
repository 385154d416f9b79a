//! Values without numerals: truth values, strings and nodes.

ghost use Rattle.std.specs.Prelude.{◌≡◌, [], ◌∷◌, map, IfOk};
ghost use Rattle.x3d_lists.specs.Answers.{Gives};
ghost use Rattle.scene_values.specs.Typing.{truth, truths, string, strings, called, node, nodes};

use crate::fault::ValueFault;
use classic_tree::RawValue;
use std::alloc::{AllocError, Global};
use x3d_values::{Duplicate, Items, Text};

pub(crate) fn truth(raw: &RawValue<u32>) -> Result<bool, ValueFault>
    ensures { result ≡ truth raw.now }
{
    match raw {
        RawValue::Truth(truth) => Ok(*truth),
        _ => Err(ValueFault::WrongType),
    }
}

pub(crate) fn truths(alloc: Global, raw: &RawValue<u32>) -> Result<Items<bool>, ValueFault>
    ensures { Gives ValueFault.Memory (λ v. v) result (truths raw.now) }
{
    match raw {
        RawValue::Truth(truth) => Ok(Items::from_slice(alloc, &[*truth])?),
        RawValue::TruthList(truths) => Ok(Items::from_slice(alloc, truths.as_slice())?),
        RawValue::EmptyList => Ok(Items::new(alloc)),
        _ => Err(ValueFault::WrongType),
    }
}

pub(crate) fn string(alloc: Global, raw: &RawValue<u32>) -> Result<Text, ValueFault>
    ensures { Gives ValueFault.Memory (λ v. v) result (string raw.now) }
{
    match raw {
        RawValue::String(text) => Ok(text.duplicate(alloc)?),
        _ => Err(ValueFault::WrongType),
    }
}

pub(crate) fn strings(alloc: Global, raw: &RawValue<u32>) -> Result<Items<Text>, ValueFault>
    ensures { Gives ValueFault.Memory (λ v. v) result (strings raw.now) }
{
    match raw {
        RawValue::String(text) => Ok(one_string(alloc, text)?),
        RawValue::StringList(texts) => Ok(texts.duplicate(alloc)?),
        RawValue::EmptyList => Ok(Items::new(alloc)),
        _ => Err(ValueFault::WrongType),
    }
}

fn one_string(alloc: Global, text: &Text) -> Result<Items<Text>, AllocError>
    ensures { IfOk result (λ items. items ≡ text.now ∷ []) }
{
    let mut texts = Items::new(alloc);
    texts.push(text.duplicate(alloc)?)?;
    Ok(texts)
}

/// Returns the number that node `node` of a value has in the scene: `numbers[node]`, or 0 if there
/// is no such entry.
fn called(numbers: &[u32], node: u32) -> u32
    ensures { result ≡ called numbers.now node }
{
    numbers.get(node as usize).copied().unwrap_or(0)
}

pub(crate) fn node(numbers: &[u32], raw: &RawValue<u32>) -> Result<Option<u32>, ValueFault>
    ensures { result ≡ node numbers.now raw.now }
{
    match raw {
        RawValue::Null => Ok(None),
        RawValue::Node(node) => Ok(Some(called(numbers, *node))),
        _ => Err(ValueFault::WrongType),
    }
}

pub(crate) fn nodes(
    alloc: Global,
    numbers: &[u32],
    raw: &RawValue<u32>,
) -> Result<Items<u32>, ValueFault>
    ensures { Gives ValueFault.Memory (λ v. v) result (nodes numbers.now raw.now) }
{
    match raw {
        RawValue::Node(node) => Ok(Items::from_slice(alloc, &[called(numbers, *node)])?),
        RawValue::NodeList(nodes) => Ok(all_called(alloc, numbers, nodes.as_slice())?),
        RawValue::EmptyList => Ok(Items::new(alloc)),
        _ => Err(ValueFault::WrongType),
    }
}

fn all_called(alloc: Global, numbers: &[u32], nodes: &[u32]) -> Result<Items<u32>, AllocError>
    ensures { IfOk result (λ items. items ≡ map (called numbers.now) nodes.now) }
{
    let items = nodes
        .iter()
        .map(|node| called(numbers, *node))
        .collect(alloc)?;
    Ok(Items::from_vec(items))
}
