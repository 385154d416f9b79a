//! What a stage writes: its trace, its scene, and the states of its scripts.

use crate::fault::{StatesFault, TextFault};
use crate::stage::Stage;
use cascade_trace::push_trace;
use scene_text::write_scene;
use script_host::Behaviour;
use x3d_values::Items;

impl<B: Behaviour> Stage<B> {
    ghost use Rattle.std.specs.Prelude.{◌≡◌, ◌++◌, IfErr, OnOk, OnErr, Err};
    ghost use Rattle.cascade_core.specs.Held.{IfRunning, IfSpoiled};
    ghost use Rattle.cascade_core.specs.Texts.{trace_text, scene_text, texts};

    /// Appends the text of the trace. Returns `Spoiled` if the stage is spoiled and `Memory` if
    /// memory runs out; the buffer is then unchanged.
    #[tactic(auto, unfolding(crate::specs::Texts::trace_text))]
    pub fn trace_text(&self, out: &mut Vec<u8>) -> Result<(), TextFault>
        ensures refused { IfSpoiled self.now.held (result ≡ Err TextFault.Spoiled) }
        ensures ok { IfRunning self.now.held (λ w.
            OnOk result (out.new.items ≡ out.old.items ++ trace_text self.now.scene w)) }
        ensures memory { IfRunning self.now.held (λ w.
            IfErr result (λ fault. fault ≡ TextFault.Memory)) }
        ensures err { OnErr result (out.new.items ≡ out.old.items) }
    {
        if self.spoiled.is_some() {
            return Err(TextFault::Spoiled);
        }
        push_trace(&self.routed.scene, &self.course.live.world.trace, out)?;
        Ok(())
    }

    /// Appends the text of the scene in its current state. Returns `Spoiled` if the stage is
    /// spoiled and `Memory` if memory runs out; the buffer is then unchanged.
    #[tactic(auto, unfolding(crate::specs::Texts::scene_text))]
    pub fn scene_text(&self, out: &mut Vec<u8>) -> Result<(), TextFault>
        ensures refused { IfSpoiled self.now.held (result ≡ Err TextFault.Spoiled) }
        ensures ok { IfRunning self.now.held (λ w.
            OnOk result (out.new.items
            ≡ out.old.items ++ scene_text self.now.scene self.now.routes w)) }
        ensures memory { IfRunning self.now.held (λ w.
            IfErr result (λ fault. fault ≡ TextFault.Memory)) }
        ensures err { OnErr result (out.new.items ≡ out.old.items) }
    {
        if self.spoiled.is_some() {
            return Err(TextFault::Spoiled);
        }
        let fields = self.course.live.world.fields.as_slice();
        write_scene(
            &self.routed.scene,
            self.routed.routes.as_slice(),
            fields,
            out,
        )?;
        Ok(())
    }

    /// Appends the trace and then the scene. Returns `Spoiled` if the stage is spoiled and `Memory`
    /// if memory runs out; the buffer is then unchanged.
    pub fn texts(&self, out: &mut Vec<u8>) -> Result<(), TextFault>
        ensures refused { IfSpoiled self.now.held (result ≡ Err TextFault.Spoiled) }
        ensures ok { IfRunning self.now.held (λ w. OnOk result (out.new.items
            ≡ out.old.items ++ texts self.now.scene self.now.routes w)) }
        ensures memory { IfRunning self.now.held (λ w.
            IfErr result (λ fault. fault ≡ TextFault.Memory)) }
        ensures err { OnErr result (out.new.items ≡ out.old.items) }
    {
        let len = out.len();
        self.trace_text(out)?;
        let written = self.scene_text(out);
        if written.is_err() {
            out.truncate(len);
        }
        written
    }

    /// Appends the states of the scripts in number order. Returns `Spoiled` if the stage is spoiled
    /// and `Memory` if memory runs out; the buffer is then unchanged.
    pub fn script_states(&self, out: &mut Vec<Items<i64>>) -> Result<(), StatesFault>
        ensures refused { IfSpoiled self.now.held (result ≡ Err StatesFault.Spoiled) }
        ensures ok { IfRunning self.now.held (λ w.
            OnOk result (out.new.items ≡ out.old.items ++ w.states)) }
        ensures memory { IfRunning self.now.held (λ w.
            IfErr result (λ fault. fault ≡ StatesFault.Memory)) }
        ensures err { OnErr result (out.new.items ≡ out.old.items) }
    {
        if self.spoiled.is_some() {
            return Err(StatesFault::Spoiled);
        }
        self.course.scripts.states(out)?;
        Ok(())
    }
}
