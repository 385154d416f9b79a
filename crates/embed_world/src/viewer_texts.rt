//! The texts of a viewer's world.

use crate::fault::LookFault;
use crate::shots::write_snapshot;
use crate::texts::{
    write_changes, write_field, write_label, write_scene, write_trace, write_type, write_value,
};
use crate::viewer::EmbeddedViewer;
use snapshot_core::SaveFault;

impl EmbeddedViewer {
    ghost use Rattle.share_core.specs.Viewer.{stage_in};
    ghost use Rattle.embed_world.specs.Looks as look;
    ghost use Rattle.embed_world.specs.Viewers.{Makes, Saves};

    /// Makes the lines of the trace of inputs from the number `first` on: `<input> <seconds>
    /// <label>.<field> <value>`. From 0 on it is the whole trace. Fails with `Spoiled` or `Memory`.
    pub fn make_trace(&mut self, first: u64) -> Result<(), LookFault>
        ensures { Makes (look.trace_from (stage_in self.old.viewer) first) self.old result
            self.new }
    {
        self.text.clear();
        write_trace(self.viewer.stage(), first, &mut self.text)
    }

    /// Makes the same lines with numbers: `<input> <seconds> <node> <field> <value>`. Fails with
    /// `Spoiled` or `Memory`.
    pub fn make_changes(&mut self, first: u64) -> Result<(), LookFault>
        ensures { Makes (look.changes_from (stage_in self.old.viewer) first) self.old result
            self.new }
    {
        self.text.clear();
        write_changes(self.viewer.stage(), first, &mut self.text)
    }

    /// Makes the text of the current scene. Fails with `Spoiled` or `Memory`.
    pub fn make_scene(&mut self) -> Result<(), LookFault>
        ensures { Makes (look.scene_now (stage_in self.old.viewer)) self.old result self.new }
    {
        self.text.clear();
        write_scene(self.viewer.stage(), &mut self.text)
    }

    /// Makes the word for a node's type, such as `Transform`. Fails with `NoSuchNode` or `Memory`.
    pub fn make_type(&mut self, node: u32) -> Result<(), LookFault>
        ensures { Makes (look.type_in self.old.viewer.scene node) self.old result self.new }
    {
        self.text.clear();
        write_type(self.viewer.stage().scene(), node, &mut self.text)
    }

    /// Makes the label of a node, which no other node has: its DEF name if that is unique, or else
    /// `N` and its number. Fails with `NoSuchNode` or `Memory`.
    pub fn make_label(&mut self, node: u32) -> Result<(), LookFault>
        ensures { Makes (look.label_in self.old.viewer.scene node) self.old result self.new }
    {
        self.text.clear();
        write_label(self.viewer.stage().scene(), node, &mut self.text)
    }

    /// Makes the name of a field, such as `translation`. Fails with `NoSuchField` or `Memory`.
    pub fn make_field_name(&mut self, node: u32, field: u16) -> Result<(), LookFault>
        ensures { Makes (look.field_in self.old.viewer.scene node field) self.old result self.new }
    {
        self.text.clear();
        write_field(self.viewer.stage().scene(), node, field, &mut self.text)
    }

    /// Makes the text of a field's current value, such as `0 1.5 0`. A node has no text. Fails with
    /// `Spoiled`, `NoSuchField`, `NoValue` or `Memory`.
    pub fn make_value(&mut self, node: u32, field: u16) -> Result<(), LookFault>
        ensures { Makes (look.value_in (stage_in self.old.viewer) node field) self.old result
            self.new }
    {
        self.text.clear();
        write_value(self.viewer.stage(), node, field, &mut self.text)
    }

    /// Replaces the text with the snapshot of the world, taken as the viewer's boot. Fails with
    /// `Spoiled` or `Memory`; the text is then empty.
    pub fn make_snapshot(&mut self) -> Result<(), SaveFault>
        ensures { Saves self.old result self.new }
    {
        self.text.clear();
        let mark = self.viewer.mark();
        let boot = self.viewer.boot();
        write_snapshot(self.viewer.stage(), &mark, boot, &mut self.text)
    }
}
