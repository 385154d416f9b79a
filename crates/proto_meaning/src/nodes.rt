//! Whether a body has a node.

ghost use Rattle.std.specs.Prelude.{◌≡◌};
ghost use Rattle.proto_meaning.specs.Flat as flat;
ghost use Rattle.proto_meaning.specs.Texts as spec;

use classic_tree::Statement;

#[tactic(auto, using(crate::proofs::Equations::nodes))]
fn is_node(statement: &Statement) -> bool
    ensures { result ≡ (flat.statement statement.now).0 }
{
    match statement {
        Statement::Node(_node) => true,
        Statement::Route(_route) => false,
        Statement::Proto(_proto) => false,
    }
}

/// Reports whether a statement of the body is a node.
pub fn has_node(body: &[Statement]) -> bool
    ensures { result ≡ spec.has_node body.now }
{
    body.iter().any(|statement| is_node(statement))
}
