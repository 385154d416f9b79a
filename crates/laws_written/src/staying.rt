//! Laws of written scenes. Each is the contract of a function that does nothing.

ghost use Rattle.laws_written.specs.Ranged.{FittingAreInRange};
ghost use Rattle.laws_written.specs.Stays.{RunningWorldsStay, ScenesStay, WorldsStay};

use crate::again::{document_scenes_are_sound, scenes_again_have_room, written_scenes_are_again};
use crate::distinct::fields_are_distinct;
use crate::existing::written_scenes_exist;
use crate::limits::written_scenes_are_flat;
use crate::routes::written_routes_stay;
use crate::text_laws::{scenes_are_writable, written_scenes_spell};
use crate::typed::fitting_worlds_are_typed;
use crate::worlds::fitting_worlds_are_kept;
use laws_documents::spelled_flats_are_named;

/// What is written of a scene in a state that fits is too large, or is read as the scene with what
/// its nodes kept and its routes.
pub fn written_scenes_stay()
    ensures { ScenesStay }
{
    spelled_flats_are_named();
    scenes_are_writable();
    written_scenes_spell();
    fitting_worlds_are_kept();
    fitting_worlds_are_typed();
    fitting_worlds_are_in_range();
    fields_are_distinct();
    document_scenes_are_sound();
    written_scenes_are_flat();
    written_scenes_exist();
    written_scenes_are_again();
    scenes_again_have_room();
    written_routes_stay();
}

/// Like `written_scenes_stay`, for the scene in every world that inputs in turn lead to, and in the
/// world of every running viewer.
pub fn written_worlds_stay()
    ensures reached { WorldsStay }
    ensures running { RunningWorldsStay }
{
    written_scenes_stay();
}

/// If each value of a world is in the range of its field's type, what a node keeps of a field is in
/// the range of the field.
pub fn fitting_worlds_are_in_range()
    ensures { FittingAreInRange }
{}
