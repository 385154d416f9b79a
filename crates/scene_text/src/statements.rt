//! The statements of a scene: its roots, its helpers and its routes.

ghost use Rattle.std.specs.Prelude.{◌≡◌, [], ◌∷◌, ◌++◌, IfOk, OnOk};
ghost use Rattle.scene_text.specs.Statements.{place_of, route_of, root_tree, helper_root, helpers_of, roots_of, routes_of, statements_of, switch_of};
ghost use Rattle.x3d_values.specs.Ranges.{max_depth};
ghost use Rattle.scene_text.specs.Tree.{each, node_tree};
ghost use Rattle.scene_text.specs.Views.{plan_of};

use crate::plan::{Plan, label};
use crate::tree::{node_tree, node_trees};
use classic_tree::{BodyItem, Given, NodeText, RawValue, RouteEnd, RouteText, Statement};
use scene_core::{End, Route, Scene};
use std::alloc::{AllocError, Global};
use x3d_values::{Items, MAX_DEPTH, Text};

/// Returns all statements of the scene.
#[tactic(auto, unfolding(crate::specs::Statements::statements_of))]
pub(crate) fn statements_of(alloc: Global, plan: &Plan<'_>) -> Result<Vec<Statement>, AllocError>
    ensures { IfOk result (λ made. made.items ≡ statements_of (plan_of plan.now)) }
{
    let mut seen = vec![in alloc; false; plan.scene.node_count()]?;
    let mut statements = roots_of(alloc, plan, &mut seen)?;
    if let Err(fault) = push_helpers(alloc, plan, &mut seen, &mut statements) {
        drop(statements);
        return Err(fault);
    }
    if let Err(fault) = push_routes(alloc, plan.scene, plan.routes, &mut statements) {
        drop(statements);
        return Err(fault);
    }
    Ok(statements)
}

fn place_of(alloc: Global, scene: &Scene, end: &End) -> Result<RouteEnd, AllocError>
    ensures { IfOk result (λ place. place ≡ place_of scene.now end.now) }
{
    Ok(RouteEnd {
        node: label(alloc, scene, end.node)?,
        field: Text::from_str(alloc, scene.field_name(*end))?,
    })
}

fn route_of(alloc: Global, scene: &Scene, route: &Route) -> Result<RouteText, AllocError>
    ensures { IfOk result (λ text. text ≡ route_of scene.now route.now) }
{
    Ok(RouteText {
        line: 0,
        source: place_of(alloc, scene, &route.source)?,
        target: place_of(alloc, scene, &route.target)?,
    })
}

fn push_routes(
    alloc: Global,
    scene: &Scene,
    routes: &[Route],
    out: &mut Vec<Statement>,
) -> Result<(), AllocError>
    ensures { OnOk result (out.new.items ≡ out.old.items ++ routes_of scene.now routes.now) }
{
    for route in routes {
        out.push(Statement::Route(route_of(alloc, scene, route)?))?;
    }
    Ok(())
}

/// Returns the roots. `seen` marks the nodes that have already appeared.
fn roots_of(
    alloc: Global,
    plan: &Plan<'_>,
    seen: &mut Vec<bool>,
) -> Result<Vec<Statement>, AllocError>
    ensures { IfOk result (λ made. record { seen = seen.new.items; made = made.items }
        ≡ each (root_tree (node_tree max_depth (plan_of plan.now))) seen.old.items
        plan.now.scene.now.roots) }
{
    let mut roots = Vec::new(alloc);
    for root in plan.scene.roots() {
        let tree = node_tree(alloc, plan, seen, MAX_DEPTH, *root)?;
        roots.push(Statement::Node(tree))?;
    }
    Ok(roots)
}

/// Returns a Switch with these nodes as its children.
fn switch_of(alloc: Global, children: Vec<NodeText>) -> Result<NodeText, AllocError>
    ensures { IfOk result (λ made. made ≡ switch_of children.items) }
{
    let Ok(word) = Text::from_str(alloc, "Switch") else {
        drop(children);
        return Err(AllocError);
    };
    let Ok(name) = Text::from_str(alloc, "children") else {
        drop(children);
        return Err(AllocError);
    };
    let value = RawValue::NodeList(Items::from_vec(children));
    let items = only_item(alloc, BodyItem::Field(0, name, Given::Value(value)))?;
    Ok(NodeText::Full(0, None, word, items))
}

/// Returns a list of only that item.
fn only_item(alloc: Global, item: BodyItem) -> Result<Items<BodyItem>, AllocError>
    ensures { IfOk result (λ items. items ≡ item ∷ []) }
{
    let mut items = Items::new(alloc);
    items.push(item)?;
    Ok(items)
}

/// Appends the helpers as one more root, if there are any.
#[tactic(auto, using(crate::proofs::Trees::helper_steps))]
fn push_helpers(
    alloc: Global,
    plan: &Plan<'_>,
    seen: &mut Vec<bool>,
    out: &mut Vec<Statement>,
) -> Result<(), AllocError>
    ensures { OnOk result
        (out.new.items ≡ out.old.items
        ++ helper_root (helpers_of (plan_of plan.now) seen.old.items).made) }
{
    let trees = node_trees(alloc, plan, seen, MAX_DEPTH, plan.scene.helpers())?;
    if trees.is_empty() {
        drop(trees);
        return Ok(());
    }
    out.push(Statement::Node(switch_of(alloc, trees)?))?;
    Ok(())
}
