//! Copies of values without nodes, and of routes.

ghost use Rattle.std.specs.Prelude.{◌≡◌, IfOk};
ghost use Rattle.classic_part.specs.Part.{list_of, plain};

use classic_tree::{NodeText, RawValue, RouteEnd, RouteText};
use std::alloc::{AllocError, Global};
use x3d_values::{Duplicate, Items};

/// Returns a copy of a value without nodes. A value that holds nodes becomes an empty list.
pub(crate) fn plain(
    alloc: Global,
    value: &RawValue<NodeText>,
) -> Result<RawValue<NodeText>, AllocError>
    ensures { IfOk result (λ copy. copy ≡ plain value.now) }
{
    match value {
        RawValue::Null => Ok(RawValue::Null),
        RawValue::Truth(truth) => Ok(RawValue::Truth(*truth)),
        RawValue::String(text) => Ok(RawValue::String(text.duplicate(alloc)?)),
        RawValue::Numbers(numbers) => Ok(RawValue::Numbers(Items::from_slice(
            alloc,
            numbers.as_slice(),
        )?)),
        RawValue::TruthList(truths) => Ok(RawValue::TruthList(Items::from_slice(
            alloc,
            truths.as_slice(),
        )?)),
        RawValue::StringList(texts) => Ok(RawValue::StringList(texts.duplicate(alloc)?)),
        RawValue::NumberList(numbers) => Ok(RawValue::NumberList(Items::from_slice(
            alloc,
            numbers.as_slice(),
        )?)),
        RawValue::Node(_) | RawValue::EmptyList | RawValue::NodeList(_) => {
            Ok(RawValue::EmptyList)
        }
    }
}

/// Returns the nodes as a value.
pub(crate) fn list_of(nodes: Items<NodeText>) -> RawValue<NodeText>
    ensures { result ≡ list_of nodes }
{
    if nodes.is_empty() {
        return RawValue::EmptyList;
    }
    RawValue::NodeList(nodes)
}

fn copied_end(alloc: Global, end: &RouteEnd) -> Result<RouteEnd, AllocError>
    ensures { IfOk result (λ copy. copy ≡ end.now) }
{
    let node = end.node.duplicate(alloc)?;
    let field = end.field.duplicate(alloc)?;
    Ok(RouteEnd { node, field })
}

/// Returns a copy of a route.
pub(crate) fn copied_route(alloc: Global, route: &RouteText) -> Result<RouteText, AllocError>
    ensures { IfOk result (λ copy. copy ≡ route.now) }
{
    let source = copied_end(alloc, &route.source)?;
    let target = copied_end(alloc, &route.target)?;
    Ok(RouteText {
        line: route.line,
        source,
        target,
    })
}
