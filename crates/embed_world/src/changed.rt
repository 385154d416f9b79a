//! The fields that were set after an input.

ghost use Rattle.std.specs.Prelude.{◌≡◌, [], OnErr};
ghost use Rattle.x3d_lists.specs.Answers.{Gives};
ghost use Rattle.embed_world.specs.Looks as spec;
ghost use Rattle.embed_world.specs.declared.fault.LookFault.TheVariants.{Memory};

use crate::fault::LookFault;
use crate::viewer::EmbeddedViewer;
use crate::world::EmbeddedWorld;
use cascade_core::Stage;
use embed_changes::ChangeList;
use script_boxes::StockScript;

/// Lists the fields that inputs after `since` set, each once, and the numbers of their current
/// values. Both lists are empty on an error.
pub fn write_changed(
    stage: &Stage<StockScript>,
    since: u64,
    changed: &mut ChangeList,
    numbers: &mut Vec<i64>,
) -> Result<(), LookFault>
    ensures is { Gives Memory (λ _. (changed.new, numbers.new.items)) result
        (spec.changed_in stage.now since) }
    ensures no_changes { OnErr result (changed.new ≡ []) }
    ensures no_numbers { OnErr result (numbers.new.items ≡ []) }
{
    let Some(world) = stage.world() else {
        changed.clear();
        numbers.clear();
        return Err(LookFault::Spoiled);
    };
    let fields = world.fields.as_slice();
    changed.list(stage.scene(), fields, &world.trace, since, numbers)?;
    Ok(())
}

impl EmbeddedWorld {
    ghost use Rattle.embed_world.specs.Calls.{ListsChanged};
    ghost use Rattle.embed_world.specs.Looks as spec;

    /// Lists the fields that inputs after number `since` set, each once, and the numbers of their
    /// current values, as `ChangeList::list` of embed_changes does. Fails with `Spoiled` or
    /// `Memory`.
    pub fn list_changed(&mut self, since: u64) -> Result<(), LookFault>
        ensures { ListsChanged (spec.changed_in self.old.stage since) self.old result self.new }
    {
        write_changed(&self.stage, since, &mut self.changed, &mut self.numbers)
    }
}

impl EmbeddedViewer {
    ghost use Rattle.share_core.specs.Viewer.{stage_in};
    ghost use Rattle.embed_world.specs.Looks as spec;
    ghost use Rattle.embed_world.specs.Viewers.{ListsChanged};

    /// Lists the fields that inputs after number `since` set, like those of a world. Fails with
    /// `Spoiled` or `Memory`.
    pub fn list_changed(&mut self, since: u64) -> Result<(), LookFault>
        ensures { ListsChanged (spec.changed_in (stage_in self.old.viewer) since) self.old result
            self.new }
    {
        write_changed(
            self.viewer.stage(),
            since,
            &mut self.changed,
            &mut self.numbers,
        )
    }
}
