//! What a world forgets: old lines of its trace.

ghost use Rattle.std.specs.Prelude.{◌≡◌};
ghost use Rattle.embed_world.specs.Status.{status_of_forget};

use crate::status::{DONE, RANGE, SPOILED};
use crate::viewer::EmbeddedViewer;
use crate::world::EmbeddedWorld;
use cascade_core::ForgetFault;

/// The number for whether lines were forgotten, or why not.
pub fn status_of_forget(answer: Result<(), ForgetFault>) -> u8
    ensures { result ≡ status_of_forget answer }
{
    match answer {
        Ok(()) => DONE,
        Err(ForgetFault::Spoiled) => SPOILED,
        Err(ForgetFault::Ahead) => RANGE,
    }
}

impl EmbeddedWorld {
    ghost use Rattle.embed_world.specs.Calls.{Forgets};

    /// Forgets the lines of the trace of inputs with a number below `below`, as `Stage::forget` of
    /// cascade_core does.
    pub fn forget_below(&mut self, below: u64) -> Result<(), ForgetFault>
        ensures { Forgets self.old below result self.new }
    {
        self.stage.forget(below)
    }
}

impl EmbeddedViewer {
    ghost use Rattle.embed_world.specs.Viewers.{Forgets};

    /// Forgets the lines of the trace of inputs with a number below `below`, like those of a world.
    pub fn forget_below(&mut self, below: u64) -> Result<(), ForgetFault>
        ensures { Forgets self.old below result self.new }
    {
        if self.viewer.spoiled() {
            return Err(ForgetFault::Spoiled);
        }
        if below == 0 {
            return Ok(());
        }
        let (applied, gone) = (self.viewer.applied(), below - 1);
        if gone > applied {
            return Err(ForgetFault::Ahead);
        }
        self.viewer.forget_all_but(applied - gone);
        Ok(())
    }
}
