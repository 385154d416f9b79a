//! Which Scripts of a scene are run, and what they ask for.

ghost use Rattle.std.specs.Prelude.{◌≡◌, ◌++◌, [], IfOk, OnOk, length, map};
ghost use Rattle.std.specs.List.{cons_option, list_all, list_any};
ghost use Rattle.std.specs.Option.{option_copied};
ghost use Rattle.x3d_values.specs.Tables.{entry};
ghost use Rattle.script_running.specs.Scripts as spec;
ghost use Rattle.scene_core.specs.Scene.{declared_at, type_at};
ghost use Rattle.script_host.specs.Interface.{kind_named};

use crate::held::strings_named;
use crate::start::start_where;
use scene_core::{DeclaredField, Scene};
use script_host::{interface, kind_named};
use std::alloc::{AllocError, Global};
use x3d_values::{Field, Items, Kind, NodeType, ScriptSpec, Text};

/// Returns the word after the scheme `x3dshare:` in the first of these urls that has this scheme.
fn first_word(urls: &[Text]) -> Option<&str>
    ensures { option_copied result ≡ spec.first_word urls.now }
{
    match urls {
        [] => None,
        [url, others @ ..] => match url.as_str().strip_prefix("x3dshare:") {
            Some(word) => Some(word),
            None => first_word(others),
        },
    }
}

/// Returns the word by which a node asks to be run, or `None` if it doesn't ask to be run.
fn word_of(scene: &Scene, node: u32) -> Option<&str>
    ensures { option_copied result ≡ spec.word_of scene.now node }
{
    match scene.type_at(node) {
        Some(NodeType::Script) => first_word(strings_named(scene, node, "url")),
        _ => None,
    }
}

/// Reports whether a declared field has the name, the access and the type of a field of an
/// interface.
fn is_field(field: &Field, declared: &DeclaredField) -> bool
    ensures { result ≡ spec.is_field (entry field.now) declared.now }
{
    declared.name.as_str() == field.name
        && (declared.access == field.access && declared.field_type == field.field_type)
}

/// Reports whether a field of an interface is declared.
fn is_declared(field: &Field, declared: &[DeclaredField]) -> bool
    ensures { result ≡ list_any (λ d. spec.is_field (entry field.now) d) declared.now }
{
    declared.iter().any(|one| is_field(field, one))
}

/// Reports whether all of these fields of an interface are declared.
fn all_declared(fields: &[Field], declared: &[DeclaredField]) -> bool
    ensures { result ≡ list_all (λ e. list_any (λ d. spec.is_field e d) declared.now)
        (map entry fields.now) }
{
    match fields {
        [] => true,
        [field, others @ ..] => is_declared(field, declared) && all_declared(others, declared),
    }
}

/// Reports whether the declared fields are those of the kind.
fn declares(kind: Kind, declared: &[DeclaredField]) -> bool
    ensures { result ≡ spec.declares kind declared.now }
{
    let fields = interface(kind);
    declared.len() == fields.len() && all_declared(fields, declared)
}

/// Returns what a script of a known kind asks for.
fn known_spec(alloc: Global, scene: &Scene, node: u32, kind: Kind) -> Result<ScriptSpec, AllocError>
    ensures { IfOk result (λ s. s
        ≡ spec.known_spec scene.now node kind (spec.declares kind (declared_at scene.now node))) }
{
    let fits = declares(kind, scene.declared(node));
    let start = start_where(alloc, scene, node, kind, fits)?;
    Ok(ScriptSpec {
        node,
        kind: Some(kind),
        fits,
        start,
    })
}

/// Returns what a script asks for, whether or not its kind is known.
fn spec_by(
    alloc: Global,
    scene: &Scene,
    node: u32,
    kind: Option<Kind>,
) -> Result<ScriptSpec, AllocError>
    ensures { IfOk result (λ s. s ≡ spec.spec_by scene.now node kind) }
{
    match kind {
        Some(kind) => known_spec(alloc, scene, node, kind),
        None => Ok(ScriptSpec {
            node,
            kind: None,
            fits: false,
            start: Items::new(alloc),
        }),
    }
}

/// Appends what a node asks for, if it asks to be run.
fn push_script(
    alloc: Global,
    scene: &Scene,
    node: u32,
    list: &mut Vec<ScriptSpec>,
) -> Result<(), AllocError>
    ensures { OnOk result
        (list.new.items ≡ list.old.items ++ cons_option (spec.script_at scene.now node) []) }
{
    let Some(word) = word_of(scene, node) else {
        return Ok(());
    };
    list.push(spec_by(alloc, scene, node, kind_named(word))?)?;
    Ok(())
}

/// Returns what the Scripts of the scene that are run ask for, in the order of the nodes' numbers.
/// A Script is run if one of its urls begins with `x3dshare:`; the first such url names the kind.
/// Fails if memory runs out.
#[tactic(auto, unfolding(crate::specs::Scripts::script_list))]
pub fn script_list(alloc: Global, scene: &Scene) -> Result<Vec<ScriptSpec>, AllocError>
    ensures { IfOk result (λ list. list.items ≡ spec.script_list scene.now) }
{
    let count = scene.count()?;
    let mut list = Vec::new(alloc);
    for node in 0..count {
        push_script(alloc, scene, node, &mut list)?;
    }
    Ok(list)
}
