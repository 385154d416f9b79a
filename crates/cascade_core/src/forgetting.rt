//! What a stage forgets: old lines of its trace.

use crate::fault::ForgetFault;
use crate::stage::Stage;
use script_host::Behaviour;

impl<B: Behaviour> Stage<B> {
    ghost use Rattle.std.specs.Prelude.{◌≡◌, Err, IfNone, IfSome, Ok, OnOk};
    ghost use Rattle.cascade_core.specs.Forgetting.{forget_refusal, forgotten};
    ghost use Rattle.cascade_core.specs.Held.{holding};

    /// Forgets the lines of the trace of inputs with a number below `below`. Otherwise the world
    /// stays as it is, and inputs do to it what they do to the whole world. Takes no memory.
    ///
    /// Returns `Spoiled` if the stage is spoiled, or `Ahead` if `below` is above the number of the
    /// next input; the stage is then unchanged.
    pub fn forget(&mut self, below: u64) -> Result<(), ForgetFault>
        ensures done { IfNone (forget_refusal below self.old.held) ((result ≡ Ok tt)
            × (self.new ≡ holding self.old (forgotten below self.old.held))) }
        ensures refused { IfSome (forget_refusal below self.old.held) (λ fault.
            (result ≡ Err fault) × (self.new ≡ self.old)) }
    {
        if self.spoiled.is_some() {
            return Err(ForgetFault::Spoiled);
        }
        let world = &mut self.course.live.world;
        if below > 0 && below - 1 > world.applied {
            return Err(ForgetFault::Ahead);
        }
        world.trace.forget(below);
        Ok(())
    }
}
