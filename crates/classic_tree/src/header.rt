//! The head of a text: its header line and its header statements, one per line.

ghost use Rattle.std.specs.Prelude.{◌≡◌, ◌++◌, OnOk};
ghost use Rattle.std.specs.List.{flat_map};
ghost use Rattle.x3d_lists.specs.Extends.{Extends};
ghost use Rattle.classic_tree.specs.Writing.{header_line, profile_line, component_line, meta_line};

use crate::tree::{Document, Meta};
use classic_lex::Version;
use std::alloc::AllocError;
use x3d_values::{Show, Text, push_pieces};

fn push_header(version: Version, out: &mut Vec<u8>) -> Result<(), AllocError>
    ensures ok { OnOk result (out.new.items ≡ out.old.items ++ header_line version) }
    ensures kept { Extends out.old.items out.new.items }
{
    out.extend_from_slice(b"#X3D V")?;
    out.extend_from_slice(version.text().as_bytes())?;
    out.extend_from_slice(b" utf8\n")
}

fn push_profile(profile: &Option<Text>, out: &mut Vec<u8>) -> Result<(), AllocError>
    ensures ok { OnOk result (out.new.items ≡ out.old.items ++ profile_line profile.now) }
    ensures kept { Extends out.old.items out.new.items }
{
    match profile {
        None => Ok(()),
        Some(name) => push_pieces(&[b"PROFILE ", name.as_bytes(), b"\n"], out),
    }
}

fn push_component(component: &Text, out: &mut Vec<u8>) -> Result<(), AllocError>
    ensures ok { OnOk result (out.new.items ≡ out.old.items ++ component_line component.now) }
    ensures kept { Extends out.old.items out.new.items }
{
    push_pieces(&[b"COMPONENT ", component.as_bytes(), b"\n"], out)
}

fn push_components(components: &[Text], out: &mut Vec<u8>) -> Result<(), AllocError>
    ensures ok { OnOk result
        (out.new.items ≡ out.old.items ++ flat_map component_line components.now) }
    ensures kept { Extends out.old.items out.new.items }
{
    for component in components {
        push_component(component, out)?;
    }
    Ok(())
}

fn push_meta(meta: &Meta, out: &mut Vec<u8>) -> Result<(), AllocError>
    ensures ok { OnOk result (out.new.items ≡ out.old.items ++ meta_line meta.now) }
    ensures kept { Extends out.old.items out.new.items }
{
    out.extend_from_slice(b"META ")?;
    meta.key.show(out)?;
    out.push(b' ')?;
    meta.content.show(out)?;
    out.push(b'\n')?;
    Ok(())
}

fn push_metas(metas: &[Meta], out: &mut Vec<u8>) -> Result<(), AllocError>
    ensures ok { OnOk result (out.new.items ≡ out.old.items ++ flat_map meta_line metas.now) }
    ensures kept { Extends out.old.items out.new.items }
{
    for meta in metas {
        push_meta(meta, out)?;
    }
    Ok(())
}

/// Appends the header line and the header statements.
pub(crate) fn push_top(document: &Document, out: &mut Vec<u8>) -> Result<(), AllocError>
    ensures ok { OnOk result
        (out.new.items ≡ out.old.items
        ++ (header_line document.now.version ++ profile_line document.now.profile
        ++ flat_map component_line document.now.components
        ++ flat_map meta_line document.now.metas)) }
    ensures kept { Extends out.old.items out.new.items }
{
    push_header(document.version, out)?;
    push_profile(&document.profile, out)?;
    push_components(document.components.as_slice(), out)?;
    push_metas(document.metas.as_slice(), out)
}
