//! A world, with what was last read of it.

use crate::named::number_named;
use cascade_core::Stage;
use embed_changes::{Change, ChangeList};
use script_boxes::StockScript;

/// A stage with the stock scripts, the mark of its scene's text, and the text, the numbers and the
/// changed fields that were last read of it.
#[derive(Drop)]
pub struct EmbeddedWorld {
    pub(crate) stage: Stage<StockScript>,
    pub(crate) mark: [u8; 32],
    pub(crate) text: Vec<u8>,
    pub(crate) numbers: Vec<i64>,
    pub(crate) changed: ChangeList,
}

impl EmbeddedWorld {
    ghost use Rattle.std.specs.Prelude.{◌≡◌, length};
    ghost use Rattle.cascade_core.specs.Held.{applied_of};
    ghost use Rattle.scene_core.specs.Scene.{rows_at};
    ghost use Rattle.embed_world.specs.Names.{number_named};

    /// Returns the number of inputs that were applied, or that had been when memory ran out.
    pub fn applied(&self) -> u64
        ensures { result ≡ applied_of self.now.stage.held }
    {
        self.stage.applied()
    }

    /// Returns the number of nodes in the scene. They are numbered from 0.
    pub fn node_count(&self) -> usize
        ensures { result ≡ length self.now.stage.scene.nodes }
    {
        self.stage.scene().node_count()
    }

    /// Returns the number of fields of a node. They are numbered from 0. 0 if there is no such
    /// node.
    pub fn field_count(&self, node: u32) -> u32
        ensures { result ≡ length (rows_at self.now.stage.scene node) }
    {
        self.stage.scene().field_count(node)
    }

    /// Returns the number of a node's field with this name, of its type or declared by it. `None`
    /// if the node has no such field, there is no such node, or the bytes are not UTF-8.
    pub fn field_named(&self, node: u32, name: &[u8]) -> Option<u16>
        ensures { result ≡ number_named self.now.stage.scene node name.now }
    {
        number_named(self.stage.scene(), node, name)
    }

    /// Returns the text that was made last.
    pub fn text(&self) -> &[u8]
        ensures { result.now ≡ self.now.text.items }
    {
        self.text.as_slice()
    }

    /// Returns the numbers that were listed last.
    pub fn numbers(&self) -> &[i64]
        ensures { result.now ≡ self.now.numbers.items }
    {
        self.numbers.as_slice()
    }

    /// Returns the changed fields that were listed last.
    pub fn changed(&self) -> &[Change]
        ensures { result.now ≡ self.now.changed }
    {
        self.changed.as_slice()
    }
}
