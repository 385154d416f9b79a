//! What stays of lists of parts, in their order.

ghost use Rattle.std.specs.Prelude.{◌≡◌, ◌++◌, IfOk, OnOk};
ghost use Rattle.classic_part.specs.Part as spec;
ghost use Rattle.classic_part.specs.Part.{kept_in, notes_in};

use crate::index::Index;
use crate::leaves::push_some;
use crate::notes::Note;
use crate::rules::Meant;
use crate::walk::{declaration_part, item_part, node_part, statement_part};
use classic_tree::{BodyItem, Declaration, NodeText, Statement};
use std::alloc::{AllocError, Global};
use x3d_values::Items;

/// Returns what stays of the items between the braces of a node.
#[cycle(part)]
pub(crate) fn items_part(
    alloc: Global,
    items: &[BodyItem],
    meant: Meant,
    known: &Index<'_>,
    notes: &mut Items<Note>,
) -> Result<Items<BodyItem>, AllocError>
    ensures made { IfOk result
        (λ r. r ≡ kept_in (λ i. spec.item_part known.now i meant) items.now) }
    ensures told { OnOk result
        (notes.new ≡ notes.old ++ notes_in (λ i. spec.item_part known.now i meant) items.now) }
{
    let mut kept = Items::new(alloc);
    for item in items {
        push_some(&mut kept, item_part(alloc, item, meant, known, notes)?)?;
    }
    Ok(kept)
}

/// Returns what stays of the nodes in a field of that name.
#[cycle(part)]
pub(crate) fn nodes_part(
    alloc: Global,
    nodes: &[NodeText],
    field: &str,
    known: &Index<'_>,
    notes: &mut Items<Note>,
) -> Result<Items<NodeText>, AllocError>
    ensures made { IfOk result
        (λ r. r ≡ kept_in (λ n. spec.node_part known.now n field.now) nodes.now) }
    ensures told { OnOk result
        (notes.new ≡ notes.old
        ++ notes_in (λ n. spec.node_part known.now n field.now) nodes.now) }
{
    let mut kept = Items::new(alloc);
    for node in nodes {
        push_some(&mut kept, node_part(alloc, node, field, known, notes)?)?;
    }
    Ok(kept)
}

/// Returns what stays of the interface of a prototype.
#[cycle(part)]
pub(crate) fn declarations_part(
    alloc: Global,
    declarations: &[Declaration<NodeText>],
    known: &Index<'_>,
    notes: &mut Items<Note>,
) -> Result<Items<Declaration<NodeText>>, AllocError>
    ensures made { IfOk result
        (λ r. r ≡ kept_in (spec.declaration_part (λ field n. spec.node_part known.now n field)
        known.now) declarations.now) }
    ensures told { OnOk result
        (notes.new ≡ notes.old
        ++ notes_in (spec.declaration_part (λ field n. spec.node_part known.now n field) known.now)
        declarations.now) }
{
    let mut kept = Items::new(alloc);
    for declaration in declarations {
        push_some(
            &mut kept,
            declaration_part(alloc, declaration, known, notes)?,
        )?;
    }
    Ok(kept)
}

/// Returns what stays of the statements of a text, or of the body of a prototype.
#[cycle(part)]
pub(crate) fn statements_part(
    alloc: Global,
    statements: &[Statement],
    known: &Index<'_>,
    notes: &mut Items<Note>,
) -> Result<Items<Statement>, AllocError>
    ensures made { IfOk result (λ r. r ≡ kept_in (spec.statement_part known.now) statements.now) }
    ensures told { OnOk result
        (notes.new ≡ notes.old ++ notes_in (spec.statement_part known.now) statements.now) }
{
    let mut kept = Items::new(alloc);
    for statement in statements {
        push_some(&mut kept, statement_part(alloc, statement, known, notes)?)?;
    }
    Ok(kept)
}
