//! Laws of what nodes keep in worlds. Each is the contract of a function that does nothing.

ghost use Rattle.laws_written.specs.WorldsAgain.{RunningWorldsAreAgain, RunningWorldsAreKeptAgain};
ghost use Rattle.laws_written.specs.WorldsAgain.{WorldsAreKeptAgain, WrittenWorldsAreAgain};
ghost use Rattle.laws_written.specs.Typed.{FittingAreOfType};
ghost use Rattle.laws_written.specs.Typed.{RunningWorldsAreOfType, WorldsAreOfType};

use crate::again::{document_scenes_are_sound, values_are_kept_again, written_scenes_are_again};
use crate::distinct::fields_are_distinct;
use crate::worlds::fitting_worlds_are_kept;
use laws_documents::spelled_flats_are_named;

/// If each value of a world is in the range of its field, what a node keeps of a field has the
/// field's type.
pub fn fitting_worlds_are_typed()
    ensures { FittingAreOfType }
{}

/// What a node keeps has its field's type in every world that inputs in turn lead to in the scene
/// of a text, and in the world of every running viewer.
pub fn worlds_are_typed()
    ensures reached { WorldsAreOfType }
    ensures running { RunningWorldsAreOfType }
{}

/// The scene of what is written of such a world's scene, if there is one, is that scene with what
/// its nodes kept.
pub fn written_worlds_are_again()
    ensures reached { WrittenWorldsAreAgain }
    ensures running { RunningWorldsAreAgain }
{
    spelled_flats_are_named();
    fitting_worlds_are_kept();
    fields_are_distinct();
    document_scenes_are_sound();
    written_scenes_are_again();
}

/// What the nodes of such a world kept, they keep in the scene that is read again, before any
/// event.
pub fn worlds_are_kept_again()
    ensures reached { WorldsAreKeptAgain }
    ensures running { RunningWorldsAreKeptAgain }
{
    values_are_kept_again();
    written_worlds_are_again();
}
