//! Values: the number of their items, and copies of them.

ghost use Rattle.std.specs.Prelude.{◌≡◌, IfOk};
ghost use Rattle.proto_meaning.specs.Limits.{item_count};
ghost use Rattle.proto_meaning.specs.trees.Values.{plain};

use classic_tree::{NodeText, RawValue};
use std::alloc::{AllocError, Global};
use std::rc::Rc;
use x3d_lists::{Duplicate, Items};

/// Returns the number of items of a value: the length of a list or of a run of numbers; 1 for any
/// other value.
pub fn item_count<N>(value: &RawValue<N>) -> usize
    ensures { result ≡ item_count value.now }
{
    match value {
        RawValue::Null => 1,
        RawValue::Truth(_truth) => 1,
        RawValue::String(_text) => 1,
        RawValue::Numbers(numbers) => numbers.len(),
        RawValue::Node(_node) => 1,
        RawValue::EmptyList => 0,
        RawValue::TruthList(truths) => truths.len(),
        RawValue::StringList(texts) => texts.len(),
        RawValue::NumberList(numbers) => numbers.len(),
        RawValue::NodeList(nodes) => nodes.len(),
    }
}

/// Returns a copy of a value without nodes. A value that holds nodes becomes an empty list.
/// AllocError if memory runs out.
pub fn plain(alloc: Global, value: &RawValue<NodeText>) -> Result<RawValue<u32>, AllocError>
    ensures { IfOk result (λ copy. copy ≡ plain value.now) }
{
    match value {
        RawValue::Null => Ok(RawValue::Null),
        RawValue::Truth(truth) => Ok(RawValue::Truth(*truth)),
        RawValue::String(text) => Ok(RawValue::String(text.duplicate(alloc)?)),
        RawValue::Numbers(numbers) => Ok(RawValue::Numbers(Items::from_slice(
            alloc,
            numbers.as_slice(),
        )?)),
        RawValue::TruthList(truths) => Ok(RawValue::TruthList(Items::from_slice(
            alloc,
            truths.as_slice(),
        )?)),
        RawValue::StringList(texts) => Ok(RawValue::StringList(texts.duplicate(alloc)?)),
        RawValue::NumberList(numbers) => Ok(RawValue::NumberList(Items::from_slice(
            alloc,
            numbers.as_slice(),
        )?)),
        RawValue::Node(_) | RawValue::EmptyList | RawValue::NodeList(_) => {
            Ok(RawValue::EmptyList)
        }
    }
}

fn copied(alloc: Global, value: &RawValue<u32>) -> Result<RawValue<u32>, AllocError>
    ensures { IfOk result (λ copy. copy ≡ value.now) }
{
    match value {
        RawValue::Null => Ok(RawValue::Null),
        RawValue::Truth(truth) => Ok(RawValue::Truth(*truth)),
        RawValue::String(text) => Ok(RawValue::String(text.duplicate(alloc)?)),
        RawValue::Numbers(numbers) => Ok(RawValue::Numbers(Items::from_slice(
            alloc,
            numbers.as_slice(),
        )?)),
        RawValue::Node(node) => Ok(RawValue::Node(*node)),
        RawValue::EmptyList => Ok(RawValue::EmptyList),
        RawValue::TruthList(truths) => Ok(RawValue::TruthList(Items::from_slice(
            alloc,
            truths.as_slice(),
        )?)),
        RawValue::StringList(texts) => Ok(RawValue::StringList(texts.duplicate(alloc)?)),
        RawValue::NumberList(numbers) => Ok(RawValue::NumberList(Items::from_slice(
            alloc,
            numbers.as_slice(),
        )?)),
        RawValue::NodeList(nodes) => Ok(RawValue::NodeList(Items::from_slice(
            alloc,
            nodes.as_slice(),
        )?)),
    }
}

/// Returns the value itself, or a copy if another field shares it. AllocError if memory runs out.
pub fn owned(alloc: Global, value: Rc<RawValue<u32>>) -> Result<RawValue<u32>, AllocError>
    ensures { IfOk result (λ own. own ≡ value.value) }
{
    match Rc::try_unwrap(value) {
        Ok(own) => Ok(own),
        Err(shared) => copied(alloc, &shared),
    }
}
