//! All statements of a document, which go at last.

ghost use Rattle.std.specs.Prelude.{◌≡◌, ◌++◌, map, IfOk, OnOk};
ghost use Rattle.app_part.specs.Statements as spec;

use classic_tree::{Document, NodeText, Statement};
use proto_flat::ExpandFaultKind;
use scene_faults::{Blame, Reason};
use std::alloc::{AllocError, Global};
use x3d_values::Items;

/// Returns the line on which a node begins.
#[tactic(auto, using(crate::proofs::Lines::node_lemmas))]
fn node_line(node: &NodeText) -> u32
    ensures { result ≡ spec.node_line node.now }
{
    match node {
        NodeText::Use(line, _name) => *line,
        NodeText::Full(line, _name, _word, _items) => *line,
    }
}

/// Returns the line on which a statement begins.
#[tactic(auto, using(crate::proofs::Lines::statement_lemmas))]
fn statement_line(statement: &Statement) -> u32
    ensures { result ≡ spec.statement_line statement.now }
{
    match statement {
        Statement::Node(node) => node_line(node),
        Statement::Route(route) => route.line,
        Statement::Proto(proto) => proto.line,
    }
}

/// Returns a statement as what is at fault.
fn of_statement(statement: &Statement) -> Blame
    ensures { result ≡ spec.of_statement statement.now }
{
    Blame {
        line: statement_line(statement),
        reason: Reason::Expand(ExpandFaultKind::TooLarge),
    }
}

fn push_statements(statements: &[Statement], out: &mut Items<Blame>) -> Result<(), AllocError>
    ensures { OnOk result (out.new ≡ out.old ++ map spec.of_statement statements.now) }
{
    for statement in statements {
        out.push(of_statement(statement))?;
    }
    Ok(())
}

/// Returns all statements of a document as what is at fault. Fails if memory runs out.
pub(crate) fn all_statements(alloc: Global, document: &Document) -> Result<Items<Blame>, AllocError>
    ensures { IfOk result (λ blames. blames ≡ spec.all_statements document.now) }
{
    let mut out = Items::new(alloc);
    push_statements(document.statements.as_slice(), &mut out)?;
    Ok(out)
}
