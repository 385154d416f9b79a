//! The parts of a tree without nodes.

ghost use Rattle.std.specs.Prelude.{◌≡◌, ◌++◌, ◌∷◌, codes, OnOk};
ghost use Rattle.x3d_lists.specs.Extends.{Extends};
ghost use Rattle.x3d_values.specs.Names.{access_name, field_type_name};
ghost use Rattle.classic_tree.specs.Writing.{route_text, def_text};

use crate::tree::{Declaration, NodeText, RouteEnd, RouteText};
use std::alloc::AllocError;
use x3d_values::{Text, push_pieces};

fn push_def(name: &Option<Text>, out: &mut Vec<u8>) -> Result<(), AllocError>
    ensures ok { OnOk result (out.new.items ≡ out.old.items ++ def_text name.now) }
    ensures kept { Extends out.old.items out.new.items }
{
    match name {
        None => Ok(()),
        Some(name) => push_pieces(&[b"DEF ", name.as_bytes(), b" "], out),
    }
}

pub(crate) fn push_route(route: &RouteText, out: &mut Vec<u8>) -> Result<(), AllocError>
    ensures ok { OnOk result (out.new.items ≡ out.old.items ++ route_text route.now) }
    ensures kept { Extends out.old.items out.new.items }
{
    let RouteEnd { node, field } = &route.source;
    push_pieces(&[b"ROUTE ", node.as_bytes(), b".", field.as_bytes()], out)?;
    let RouteEnd { node, field } = &route.target;
    push_pieces(&[b" TO ", node.as_bytes(), b".", field.as_bytes()], out)
}

/// Appends the access, the type and the name of a declared field.
pub(crate) fn push_declared(
    declaration: &Declaration<NodeText>,
    out: &mut Vec<u8>,
) -> Result<(), AllocError>
    ensures ok { OnOk result (out.new.items ≡ out.old.items ++ access_name declaration.now.access
        ++ 32 ∷ field_type_name declaration.now.field_type ++ 32 ∷ declaration.now.name) }
    ensures kept { Extends out.old.items out.new.items }
{
    out.extend_from_slice(declaration.access.name().as_bytes())?;
    out.push(b' ')?;
    out.extend_from_slice(declaration.field_type.name().as_bytes())?;
    out.push(b' ')?;
    out.extend_from_slice(declaration.name.as_bytes())
}

/// Appends a node's DEF, its type and its opening brace.
pub(crate) fn push_head(
    name: &Option<Text>,
    node_type: &Text,
    out: &mut Vec<u8>,
) -> Result<(), AllocError>
    ensures ok { OnOk result (out.new.items ≡ out.old.items ++ def_text name.now ++ node_type.now
        ++ codes " {") }
    ensures kept { Extends out.old.items out.new.items }
{
    push_def(name, out)?;
    push_pieces(&[node_type.as_bytes(), b" {"], out)
}

pub(crate) fn push_proto_head(name: &Text, out: &mut Vec<u8>) -> Result<(), AllocError>
    ensures ok { OnOk result (out.new.items ≡ out.old.items ++ codes "PROTO " ++ name.now
        ++ codes " [") }
    ensures kept { Extends out.old.items out.new.items }
{
    push_pieces(&[b"PROTO ", name.as_bytes(), b" ["], out)
}
