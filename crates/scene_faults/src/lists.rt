//! Names that the lists of a text give twice: fields in the braces of a node, fields of an
//! interface, and prototypes among statements.

ghost use Rattle.std.specs.Prelude.{◌≡◌, ◌++◌, ◌∷◌, [], map, IfOk, OnOk};
ghost use Rattle.std.specs.List.{flat_map};
ghost use Rattle.std.specs.Option.{option_to_list};
ghost use Rattle.proto_flat.specs.declared.fault.ExpandFaultKind.TheVariants.{FieldTwice, ProtoTwice};
ghost use Rattle.scene_faults.specs.Texts as spec;

use crate::blame::Blame;
use crate::named::{Named, push_name, push_twice};
use classic_tree::{BodyItem, Declaration, NodeText, Statement};
use proto_flat::ExpandFaultKind;
use std::alloc::{AllocError, Global};
use x3d_lists::Items;

// ---- names of a list

#[tactic(auto, using(crate::proofs::Walks::item_names))]
fn push_item_name(alloc: Global, item: &BodyItem, out: &mut Items<Named>) -> Result<(), AllocError>
    ensures { OnOk result
        (out.new ≡ out.old ++ option_to_list (spec.item item.now).named) }
{
    match item {
        BodyItem::Field(line, name, _given) => push_name(alloc, *line, name, out),
        BodyItem::Declaration(declaration) => {
            push_name(alloc, declaration.line, &declaration.name, out)
        }
        BodyItem::Route(_route) => Ok(()),
        BodyItem::Proto(_proto) => Ok(()),
    }
}

fn item_names(alloc: Global, items: &[BodyItem]) -> Result<Items<Named>, AllocError>
    ensures { IfOk result
        (λ named. named ≡ flat_map (λ i. option_to_list (spec.item i).named) items.now) }
{
    let mut named = Items::new(alloc);
    for item in items {
        push_item_name(alloc, item, &mut named)?;
    }
    Ok(named)
}

fn push_declared_name(
    alloc: Global,
    declaration: &Declaration<NodeText>,
    out: &mut Items<Named>,
) -> Result<(), AllocError>
    ensures { OnOk result
        (out.new ≡ out.old ++ spec.declared_name declaration.now ∷ []) }
{
    push_name(alloc, declaration.line, &declaration.name, out)
}

fn declared_names(
    alloc: Global,
    interface: &[Declaration<NodeText>],
) -> Result<Items<Named>, AllocError>
    ensures { IfOk result (λ named. named ≡ map spec.declared_name interface.now) }
{
    let mut named = Items::new(alloc);
    for declaration in interface {
        push_declared_name(alloc, declaration, &mut named)?;
    }
    Ok(named)
}

#[tactic(auto, using(crate::proofs::Walks::statement_names))]
fn push_statement_name(
    alloc: Global,
    statement: &Statement,
    out: &mut Items<Named>,
) -> Result<(), AllocError>
    ensures { OnOk result
        (out.new ≡ out.old ++ option_to_list (spec.statement statement.now).named) }
{
    match statement {
        Statement::Node(_node) => Ok(()),
        Statement::Route(_route) => Ok(()),
        Statement::Proto(proto) => push_name(alloc, proto.line, &proto.name, out),
    }
}

fn statement_names(alloc: Global, statements: &[Statement]) -> Result<Items<Named>, AllocError>
    ensures { IfOk result (λ named.
        named ≡ flat_map (λ s. option_to_list (spec.statement s).named) statements.now) }
{
    let mut named = Items::new(alloc);
    for statement in statements {
        push_statement_name(alloc, statement, &mut named)?;
    }
    Ok(named)
}

// ---- names that are given twice

/// Appends the blames for fields that the braces of a node give twice.
pub(crate) fn push_fields_twice(
    alloc: Global,
    items: &[BodyItem],
    out: &mut Items<Blame>,
) -> Result<(), AllocError>
    ensures { OnOk result (out.new ≡ out.old ++ spec.twice FieldTwice []
        (flat_map (λ i. option_to_list (spec.item i).named) items.now)) }
{
    let named = item_names(alloc, items)?;
    push_twice(alloc, ExpandFaultKind::FieldTwice, named.as_slice(), out)
}

/// Appends the blames for fields that an interface declares twice.
pub(crate) fn push_declared_twice(
    alloc: Global,
    interface: &[Declaration<NodeText>],
    out: &mut Items<Blame>,
) -> Result<(), AllocError>
    ensures { OnOk result
        (out.new ≡ out.old ++ spec.twice FieldTwice [] (map spec.declared_name interface.now)) }
{
    let named = declared_names(alloc, interface)?;
    push_twice(alloc, ExpandFaultKind::FieldTwice, named.as_slice(), out)
}

/// Appends the blames for prototypes that a list of statements declares twice.
pub(crate) fn push_protos_twice(
    alloc: Global,
    statements: &[Statement],
    out: &mut Items<Blame>,
) -> Result<(), AllocError>
    ensures { OnOk result (out.new ≡ out.old ++ spec.twice ProtoTwice []
        (flat_map (λ s. option_to_list (spec.statement s).named) statements.now)) }
{
    let named = statement_names(alloc, statements)?;
    push_twice(alloc, ExpandFaultKind::ProtoTwice, named.as_slice(), out)
}
