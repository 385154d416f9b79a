//! Scripts that replace others.

use crate::viewer::EmbeddedViewer;
use crate::world::EmbeddedWorld;
use cascade_core::PlaceFault;
use script_boxes::blank_box;
use x3d_values::Kind;

impl EmbeddedWorld {
    ghost use Rattle.std.specs.Prelude.{◌≡◌, length};
    ghost use Rattle.cascade_core.specs.Scripts.{kinds_in};
    ghost use Rattle.embed_world.specs.Calls.{Replaces};

    /// Returns the number of scripts that the scene runs. They are numbered from 0.
    pub fn script_count(&self) -> usize
        ensures { result ≡ length (kinds_in self.now.stage.scene) }
    {
        self.stage.script_count()
    }

    /// Replaces the k-th script with a new box of this kind, which goes on in its state. The world
    /// is unchanged, whatever the answer.
    ///
    /// Fails, in this order, with `Spoiled` if memory ran out before; `NoSuchScript`; `KindDiffers`
    /// if the script is of another kind; or `Memory`.
    pub fn replace_script(&mut self, k: usize, kind: Kind) -> Result<(), PlaceFault>
        ensures { Replaces self.old k kind result self.new }
    {
        if self.stage.spoiled() {
            return Err(PlaceFault::Spoiled);
        }
        let Ok(script) = blank_box(self.stage.allocator(), kind) else {
            return Err(PlaceFault::Memory);
        };
        self.stage.replace_script(k, script)
    }
}

impl EmbeddedViewer {
    ghost use Rattle.std.specs.Prelude.{◌≡◌, length};
    ghost use Rattle.cascade_core.specs.Scripts.{kinds_in};
    ghost use Rattle.embed_world.specs.Viewers.{Replaces};

    /// Returns the number of scripts that the scene runs. They are numbered from 0.
    pub fn script_count(&self) -> usize
        ensures { result ≡ length (kinds_in self.now.viewer.scene) }
    {
        self.viewer.stage().script_count()
    }

    /// Replaces the k-th script with a new box of this kind, like that of a world.
    pub fn replace_script(&mut self, k: usize, kind: Kind) -> Result<(), PlaceFault>
        ensures { Replaces self.old k kind result self.new }
    {
        let Ok(script) = blank_box(self.viewer.stage().allocator(), kind) else {
            return Err(PlaceFault::Memory);
        };
        self.viewer.replace_script(k, script)
    }
}
