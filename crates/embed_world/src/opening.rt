//! Makes a world from a scene's text.

use crate::world::EmbeddedWorld;
use app_jobs::JobFault;
use app_program::stage_of;
use embed_changes::ChangeList;
use snapshot_core::scene_mark;
use std::alloc::Global;

impl EmbeddedWorld {
    ghost use Rattle.std.specs.Prelude.{◌≡◌};
    ghost use Rattle.embed_world.specs.Calls.{IsWorldOpened};

    /// Returns the world of a scene's text before any input, with the stock scripts.
    pub fn open(alloc: Global, text: &[u8]) -> Result<EmbeddedWorld, JobFault>
        ensures { IsWorldOpened text.now result }
    {
        let stage = stage_of(alloc, text)?;
        let Ok(changed) = ChangeList::new(alloc, stage.scene()) else {
            drop(stage);
            return Err(JobFault::Memory);
        };
        Ok(EmbeddedWorld {
            stage,
            mark: scene_mark(text),
            text: Vec::new(alloc),
            numbers: Vec::new(alloc),
            changed,
        })
    }
}
