//! What is asked of a world or a viewer by a number or a name, and what C sees of the answer.

ghost use Rattle.std.specs.Prelude.{◌≡◌};
ghost use Rattle.embed_world.specs.Asked as spec;

use crate::fault::LookFault;
use crate::found::write_found;
use crate::status::{DONE, NO_SUCH_FIELD, NO_SUCH_NODE, status_of_look};
use crate::viewer::EmbeddedViewer;
use crate::world::EmbeddedWorld;
use cascade_core::Stage;
use embed_scene::{FieldAs, field_at, node_named};
use script_boxes::StockScript;

/// Returns the time of the last input in microseconds, or 0 before the first. Fails with `Spoiled`.
fn last_time(stage: &Stage<StockScript>) -> Result<i64, LookFault>
    ensures { result ≡ spec.time_in stage.now }
{
    match stage.world() {
        Some(world) => Ok(world.last_time),
        None => Err(LookFault::Spoiled),
    }
}

/// Writes the type and the access of a field, if there is one, to `told`, and returns the status.
pub fn tell_field_type(found: Option<FieldAs>, told: &mut FieldAs) -> u8
    ensures { spec.IsDescribed found told.old result told.new }
{
    write_found(found, NO_SUCH_FIELD, told)
}

/// Writes the number of a node, if there is one, to `told`, and returns the status.
pub fn tell_node(found: Option<u32>, told: &mut u32) -> u8
    ensures { spec.IsNodeTold found told.old result told.new }
{
    write_found(found, NO_SUCH_NODE, told)
}

/// Writes a time, if it was read, to `told`, and returns the status.
pub fn tell_time(answer: Result<i64, LookFault>, told: &mut i64) -> u8
    ensures status { result ≡ spec.status_of_time answer }
    ensures told { told.new ≡ spec.time_told told.old answer }
{
    match answer {
        Ok(time) => {
            *told = time;
            DONE
        }
        Err(fault) => status_of_look(Err(fault)),
    }
}

impl EmbeddedWorld {
    ghost use Rattle.std.specs.Prelude.{◌≡◌};
    ghost use Rattle.embed_scene.specs.Fields as fields;
    ghost use Rattle.embed_scene.specs.Named.{IsNodeNamed};
    ghost use Rattle.embed_world.specs.Asked.{time_in};

    /// Returns the type and the access of a node's field. `None` if there is no such field.
    pub fn field_type(&self, node: u32, field: u16) -> Option<FieldAs>
        ensures { result ≡ fields.field_at self.now.stage.scene node field }
    {
        field_at(self.stage.scene(), node, field)
    }

    /// Returns the node with this name: a DEF name that one node alone has. `None` if there is
    /// none.
    pub fn node_named(&self, name: &[u8]) -> Option<u32>
        ensures { IsNodeNamed self.now.stage.scene name.now result }
    {
        node_named(self.stage.scene(), name)
    }

    /// Returns the time of the last input in microseconds, or 0 before the first. Fails with
    /// `Spoiled`.
    pub fn time(&self) -> Result<i64, LookFault>
        ensures { result ≡ time_in self.now.stage }
    {
        last_time(&self.stage)
    }
}

impl EmbeddedViewer {
    ghost use Rattle.std.specs.Prelude.{◌≡◌};
    ghost use Rattle.embed_scene.specs.Fields as fields;
    ghost use Rattle.embed_scene.specs.Named.{IsNodeNamed};
    ghost use Rattle.embed_world.specs.Asked.{time_in};
    ghost use Rattle.share_core.specs.Viewer.{stage_in};

    /// Returns the type and the access of a node's field. `None` if there is no such field.
    pub fn field_type(&self, node: u32, field: u16) -> Option<FieldAs>
        ensures { result ≡ fields.field_at self.now.viewer.scene node field }
    {
        field_at(self.viewer.stage().scene(), node, field)
    }

    /// Returns the node with this name: a DEF name that one node alone has. `None` if there is
    /// none.
    pub fn node_named(&self, name: &[u8]) -> Option<u32>
        ensures { IsNodeNamed self.now.viewer.scene name.now result }
    {
        node_named(self.viewer.stage().scene(), name)
    }

    /// Returns the time of the last input in microseconds, or 0 before the first. Fails with
    /// `Spoiled`.
    pub fn time(&self) -> Result<i64, LookFault>
        ensures { result ≡ time_in (stage_in self.now.viewer) }
    {
        last_time(self.viewer.stage())
    }
}
