//! Writes a scene with what its nodes keep.

ghost use Rattle.std.specs.Prelude.{◌≡◌, ◌++◌, IfOk, OnOk, OnErr};
ghost use Rattle.scene_text.specs.SceneText.{scene_text};
ghost use Rattle.scene_text.specs.Places.{named};
ghost use Rattle.scene_text.specs.Statements.{scene_document, statements_of};

use crate::places::named;
use crate::plan::Plan;
use crate::statements::statements_of;
use classic_tree::{Document, Statement, write};
use scene_core::{Route, Scene};
use std::alloc::{AllocError, Global};
use x3d_values::{Duplicate, Fields, Items};

/// Appends the text of a scene with these routes, whose nodes keep these fields: the header
/// statements, the roots, a last root Switch for the helpers, and the routes. Fails if memory is
/// refused; then the buffer is unchanged.
#[tactic(auto, unfolding(crate::specs::SceneText::scene_text))]
pub fn write_scene(
    scene: &Scene,
    routes: &[Route],
    state: &[Fields],
    out: &mut Vec<u8>,
) -> Result<(), AllocError>
    ensures ok { OnOk result
        (out.new.items ≡ out.old.items ++ scene_text scene.now routes.now state.now) }
    ensures err { OnErr result (out.new.items ≡ out.old.items) }
{
    let document = scene_document(*out.allocator(), scene, routes, state)?;
    let written = write(&document, out);
    drop(document);
    written
}

/// Returns the scene as a document: the header statements as they were read, and the statements.
#[tactic(auto, unfolding(crate::specs::Statements::scene_document))]
fn scene_document(
    alloc: Global,
    scene: &Scene,
    routes: &[Route],
    state: &[Fields],
) -> Result<Document, AllocError>
    ensures { IfOk result (λ made. made ≡ scene_document scene.now routes.now state.now) }
{
    let header = scene.header();
    let profile = header.profile.duplicate(alloc)?;
    let components = header.components.duplicate(alloc)?;
    let Ok(metas) = header.metas.duplicate(alloc) else {
        drop(components);
        return Err(AllocError);
    };
    let Ok(statements) = planned_statements(alloc, scene, routes, state) else {
        drop(components);
        drop(metas);
        return Err(AllocError);
    };
    Ok(Document {
        version: header.version,
        profile,
        components,
        metas,
        statements: Items::from_vec(statements),
    })
}

/// Returns the statements of a scene. Nodes that need a DEF have one.
fn planned_statements(
    alloc: Global,
    scene: &Scene,
    routes: &[Route],
    state: &[Fields],
) -> Result<Vec<Statement>, AllocError>
    ensures { IfOk result (λ made. made.items ≡ statements_of (record {
      scene = scene.now;
      routes = routes.now;
      state = state.now;
      named = named scene.now routes.now;
    })) }
{
    let named = named(alloc, scene, routes)?;
    let plan = Plan {
        scene,
        routes,
        state,
        named: named.as_slice(),
    };
    statements_of(alloc, &plan)
}
