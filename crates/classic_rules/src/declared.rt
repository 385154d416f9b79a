//! Where a field may be declared, and what may follow its name.

ghost use Rattle.std.specs.Prelude.{◌≡◌};
ghost use Rattle.x3d_values.specs.Access.{is_initial};
ghost use Rattle.classic_rules.specs.Bounds as spec;

use x3d_values::{Access, Text};

/// Where a field is declared.
#[derive(Clone, Copy)]
pub enum DeclaredIn {
    Script,
    /// The interface of a PROTO.
    Interface,
}

/// Reports whether `IS name` may appear in a declaration.
pub fn takes_is(owner: DeclaredIn) -> bool
    ensures { result ≡ spec.takes_is owner }
{
    match owner {
        DeclaredIn::Script => true,
        DeclaredIn::Interface => false,
    }
}

/// Reports whether a field of that access holds a value.
pub fn holds_value(access: Access) -> bool
    ensures { result ≡ is_initial access }
{
    match access {
        Access::InputOnly | Access::OutputOnly => false,
        Access::InputOutput | Access::InitializeOnly => true,
    }
}

/// Reports whether fields may be declared in the body of a node of that type: only in a Script.
#[tactic(auto, unfolding(crate::specs::Bounds::is_script))]
pub fn is_script(node_type: &Text) -> bool
    ensures { result ≡ spec.is_script node_type.now }
{
    node_type.as_bytes() == b"Script".as_slice()
}
