//! Fields that a Script declares.

ghost use Rattle.std.specs.Prelude.{◌≡◌, true, false};
ghost use Rattle.proto_parts.specs.Given.{has_name};
ghost use Rattle.proto_parts.specs.Inside as braces;
ghost use Rattle.proto_nodes.specs.Scripts.{MayDeclare, is_script};

use classic_tree::{Declaration, NodeText};
use proto_flat::{ExpandFault, ExpandFaultKind};
use proto_parts::{Inside, KnownField, Owner};
use x3d_lists::Text;
use x3d_values::NodeType;

/// A field that was declared, and whether its name was known before.
#[derive(Clone, Copy)]
pub struct Declared {
    pub field: KnownField,
    pub twice: bool,
}

fn is_script(owner: Owner<'_, '_>) -> bool
    ensures { result ≡ is_script owner.entry }
{
    match owner {
        Owner::Node(node_type) => node_type == NodeType::Script,
        Owner::Instance(_interface) => false,
    }
}

/// Reports whether the name was known before, or was given nothing.
fn is_free(inside: &Inside<'_, '_>, name: &Text, twice: bool) -> bool
    requires { braces.Sound inside.now }
    ensures { result ≡ true → twice ≡ false
        → has_name name.now (braces.filled_in inside.now) ≡ false }
{
    if twice {
        return true;
    }
    !inside.has(name)
}

/// Adds the field after the others. Memory if its name isn't known but was given something.
fn add<'t, 'a>(
    inside: &mut Inside<'t, 'a>,
    declaration: &'a Declaration<NodeText>,
) -> Result<Declared, ExpandFault>
    requires sound { braces.Sound inside.old }
    requires script { is_script inside.old.owner ≡ true }
    ensures { MayDeclare declaration.now inside.old result inside.new }
{
    let twice = inside.field(&declaration.name).is_some();
    if !is_free(inside, &declaration.name, twice) {
        return Err(ExpandFaultKind::Memory.on_line(0));
    }
    let field = inside.declare(declaration)?;
    Ok(Declared { field, twice })
}

/// Adds a field that a Script declares, after the fields that it has; what the field is given
/// follows later. UnknownField if the owner isn't a Script; Memory if memory runs out.
pub fn declare<'t, 'a>(
    inside: &mut Inside<'t, 'a>,
    declaration: &'a Declaration<NodeText>,
) -> Result<Declared, ExpandFault>
    requires { braces.Sound inside.old }
    ensures { MayDeclare declaration.now inside.old result inside.new }
{
    if !is_script(inside.owner) {
        return Err(ExpandFaultKind::UnknownField.on_line(declaration.line));
    }
    add(inside, declaration)
}
