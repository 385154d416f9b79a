//! The world of a scene with its scripts, in the course of an input.

ghost use Rattle.std.specs.Prelude.{◌≡◌, [], IfOk, OnOk, is_some};
ghost use Rattle.pick_core.specs.Sites.{rows_of};
ghost use Rattle.cascade_core.specs.Course.{wiring_at, seen};
ghost use Rattle.cascade_core.specs.Cascade.{arrival, reached, received_by};
ghost use Rattle.cascade_core.specs.Sound.{HasScriptsOf};
ghost use Rattle.cascade_core.specs.Resting.{HasSameScripts, IsWorking};

use crate::boxes::deliver;
use crate::buffers::Buffers;
use crate::routed::RoutedScene;
use cascade_world::Live;
use react_core::Outbox;
use scene_core::End;
use script_host::Behaviour;
use script_running::BegunScripts;
use script_slots::DueScripts;
use std::alloc::AllocError;
use x3d_values::Value;

/// A world in the course of an input, its scripts, and which of them have received an event and
/// which were settled.
#[derive(Drop)]
pub struct Course<B: Behaviour> {
    pub live: Live,
    pub scripts: BegunScripts<B>,
    pub settling: DueScripts,
}

impl<B: Behaviour> Course<B> {
    /// Delivers an event to the script of its target. Returns whether there is a script that
    /// receives it.
    fn receive(
        &mut self,
        routed: &RoutedScene,
        target: End,
        value: &Value,
        out: &mut Outbox,
    ) -> Result<bool, AllocError>
        requires empty { out.old.items ≡ [] }
        requires has_scripts { HasScriptsOf (wiring_at routed.now) (seen self.old) }
        ensures received { IfOk result (λ received. received
            ≡ is_some (arrival (wiring_at routed.now) (seen self.old) target value.now)) }
        ensures course { OnOk result (seen self.new
            ≡ (received_by (wiring_at routed.now) (seen self.old)
            (arrival (wiring_at routed.now) (seen self.old) target value.now)).course) }
        ensures replies { OnOk result (out.new.items
            ≡ (received_by (wiring_at routed.now) (seen self.old)
            (arrival (wiring_at routed.now) (seen self.old) target value.now)).replies) }
        ensures live { self.new.live ≡ self.old.live }
        ensures scripts { HasSameScripts (seen self.old) (seen self.new) }
    {
        let Some(k) = routed.runs.script_of(target.node) else {
            return Ok(false);
        };
        let ports = routed.runs.ports(k);
        if !self.scripts.receive(k, ports, target.field, value, out) {
            return Ok(false);
        }
        self.settling.receive(k)?;
        Ok(true)
    }

    /// Delivers an event to its target, whatever has sent before: to the target's script if it
    /// receives the event, and otherwise to the node, if there is such a node.
    #[tactic(auto, unfolding(crate::specs::Cascade::reached))]
    pub(crate) fn deliver(
        &mut self,
        routed: &RoutedScene,
        buffers: &mut Buffers,
        target: End,
        value: &Value,
    ) -> Result<(), AllocError>
        requires working { IsWorking routed.now buffers.old (seen self.old) }
        ensures course { OnOk result (seen self.new
            ≡ (reached (wiring_at routed.now) (seen self.old) target value.now).course) }
        ensures replies { OnOk result (buffers.new.replies.items
            ≡ (reached (wiring_at routed.now) (seen self.old) target value.now).replies) }
        ensures boxes { OnOk result
            (buffers.new.boxes ≡ rows_of routed.now.scene self.new.live.world.fields) }
        ensures tasks { buffers.new.tasks ≡ buffers.old.tasks }
        ensures scripts { HasSameScripts (seen self.old) (seen self.new) }
    {
        if self.receive(routed, target, value, &mut buffers.replies)? {
            return Ok(());
        }
        deliver(&mut self.live, &routed.scene, buffers, target, value)
    }
}
