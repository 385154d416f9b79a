//! The numbers of a viewer's world.

use crate::fault::LookFault;
use crate::lists::{
    ListEntry, write_children, write_numbers, write_roots, write_scripts, write_sensors,
};
use crate::viewer::EmbeddedViewer;
use x3d_values::Ray;

impl EmbeddedViewer {
    ghost use Rattle.share_core.specs.Viewer.{stage_in};
    ghost use Rattle.embed_world.specs.Looks as look;
    ghost use Rattle.embed_world.specs.Viewers.{Lists, Meets};

    /// Lists the roots of the scene by their numbers. Fails with `Memory`; the list is then empty.
    pub fn list_roots(&mut self) -> Result<(), LookFault>
        ensures { Lists (look.roots_in self.old.viewer.scene) self.old result self.new }
    {
        self.numbers.clear();
        write_roots(self.viewer.stage().scene(), &mut self.numbers)
    }

    /// Lists the nodes in the field `children` of a node. The list is empty if the node has no such
    /// field. Fails with `NoSuchNode` or `Memory`.
    pub fn list_children(&mut self, node: u32) -> Result<(), LookFault>
        ensures { Lists (look.children_in self.old.viewer.scene node) self.old result self.new }
    {
        self.numbers.clear();
        write_children(self.viewer.stage().scene(), node, &mut self.numbers)
    }

    /// Lists the numbers of a field's current value, like those of a world. Fails with `Spoiled`,
    /// `NoSuchField`, `NoValue` or `Memory`.
    pub fn list_value(&mut self, node: u32, field: u16) -> Result<(), LookFault>
        ensures { Lists (look.numbers_in (stage_in self.old.viewer) node field) self.old result
            self.new }
    {
        self.numbers.clear();
        write_numbers(self.viewer.stage(), node, field, &mut self.numbers)
    }

    /// Lists the node and the kind of each script that the scene runs. Fails with `Memory`.
    pub fn list_scripts(&mut self) -> Result<(), LookFault>
        ensures { Lists (look.scripts_listed self.old.viewer.scene) self.old result self.new }
    {
        self.numbers.clear();
        let alloc = self.viewer.stage().allocator();
        write_scripts(alloc, self.viewer.stage().scene(), &mut self.numbers)
    }

    /// Returns where a ray would enter the box that it hits first, if it hits one, and lists the
    /// sensors that the hit concerns. Fails with `Spoiled` or `Memory`.
    pub fn list_sensors(&mut self, ray: Ray) -> Result<Option<ListEntry>, LookFault>
        ensures { Meets (look.meeting_in (stage_in self.old.viewer) ray) self.old result self.new }
    {
        self.numbers.clear();
        write_sensors(self.viewer.stage(), ray, &mut self.numbers)
    }
}
