//! A world as bytes, and back.

ghost use Rattle.std.specs.Prelude.{◌≡◌, [], OnErr};
ghost use Rattle.x3d_lists.specs.Answers.{Gives};
ghost use Rattle.snapshot_core.specs.declared.fault.SaveFault.TheVariants.{Memory};
ghost use Rattle.embed_world.specs.Looks.{snapshot_in};

use crate::world::EmbeddedWorld;
use cascade_core::Stage;
use script_boxes::StockScript;
use snapshot_core::{SaveFault, Saved, SnapFault, load_into, save};

/// Writes the snapshot of a stage's world, taken as this boot, to an empty text. The text is empty
/// on an error.
pub fn write_snapshot(
    stage: &Stage<StockScript>,
    mark: &[u8; 32],
    boot: u32,
    out: &mut Vec<u8>,
) -> Result<(), SaveFault>
    requires empty { out.old.items ≡ [] }
    ensures is { Gives Memory (λ _. out.new.items) result (snapshot_in stage.now mark.now boot) }
    ensures err { OnErr result (out.new.items ≡ []) }
{
    match save(stage, mark, boot, out) {
        Ok(()) => Ok(()),
        Err(SaveFault::Spoiled) => {
            out.clear();
            Err(SaveFault::Spoiled)
        }
        Err(SaveFault::Memory) => {
            out.clear();
            Err(SaveFault::Memory)
        }
    }
}

impl EmbeddedWorld {
    ghost use Rattle.embed_world.specs.Calls.{Loads, Saves};

    /// Replaces the text with the snapshot of the world, taken as this boot. Fails with `Spoiled`
    /// or `Memory`; the text is then empty.
    pub fn make_snapshot(&mut self, boot: u32) -> Result<(), SaveFault>
        ensures { Saves self.old boot result self.new }
    {
        self.text.clear();
        write_snapshot(&self.stage, &self.mark, boot, &mut self.text)
    }

    /// Replaces the world with that of a snapshot of this scene, taken as a boot below `boot`.
    /// Fails like `load_into` of snapshot_core.
    pub fn load(&mut self, boot: u32, bytes: &[u8]) -> Result<Saved, SnapFault>
        ensures { Loads self.old boot bytes.now result self.new }
    {
        load_into(&mut self.stage, &self.mark, boot, bytes)
    }
}
