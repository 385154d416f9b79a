//! A viewer of a shared world, with what was last read of it.

ghost use Rattle.std.specs.Prelude.{◌≡◌, IsTrue};

use crate::named::number_named;
use app_jobs::JobFault;
use app_program::stage_of;
use embed_changes::{Change, ChangeList};
use script_boxes::StockScript;
use share_core::Viewer;
use share_law::{GatherFault, Gathered, JoinFault, OfferFault, TakeFault, Taken};
use share_wire::Packet;
use snapshot_core::{SnapFault, scene_mark};
use std::alloc::Global;
use x3d_values::Point;

/// A viewer with the stock scripts, and the text, the numbers and the changed fields that were last
/// read of it.
#[derive(Drop)]
pub struct EmbeddedViewer {
    pub(crate) viewer: Viewer<StockScript>,
    pub(crate) text: Vec<u8>,
    pub(crate) numbers: Vec<i64>,
    pub(crate) changed: ChangeList,
}

impl EmbeddedViewer {
    ghost use Rattle.std.specs.Prelude.{◌≡◌, None, Some, IsTrue, length};
    ghost use Rattle.std.specs.Option.{option_map};
    ghost use Rattle.x3d_values.specs.Ranges.{is_viewer};
    ghost use Rattle.scene_core.specs.Scene.{rows_at};
    ghost use Rattle.share_wire.specs.Messages.{is_ordinal};
    ghost use Rattle.share_law.specs.Viewer.{applied_in};
    ghost use Rattle.share_core.specs.Viewer.{machine_of};
    ghost use Rattle.embed_world.specs.Names.{number_named};
    ghost use Rattle.embed_world.specs.Viewers as spec;
    ghost use Rattle.embed_world.specs.Viewers.{Gathers, IsStarted, Joins, Offers, Rewinds, Takes};

    /// Returns the viewer of a scene's text with the stock scripts, before any input, as boot
    /// `boot` of viewer number `who`. Check `who` with `is_viewer` and `boot` with `is_ordinal`.
    pub fn start(alloc: Global, text: &[u8], who: u8, boot: u32) -> Result<EmbeddedViewer, JobFault>
        requires who { IsTrue (is_viewer who) }
        requires boot { IsTrue (is_ordinal boot) }
        ensures { IsStarted text.now who boot result }
    {
        let stage = stage_of(alloc, text)?;
        let Ok(changed) = ChangeList::new(alloc, stage.scene()) else {
            drop(stage);
            return Err(JobFault::Memory);
        };
        Ok(EmbeddedViewer {
            viewer: Viewer::start(stage, scene_mark(text), who, boot),
            text: Vec::new(alloc),
            numbers: Vec::new(alloc),
            changed,
        })
    }

    /// Returns the number of inputs that were applied, or that had been when memory ran out.
    pub fn applied(&self) -> u64
        ensures { result ≡ applied_in (machine_of self.now.viewer) self.now.viewer.state.view }
    {
        self.viewer.applied()
    }

    /// Returns the viewer's boot.
    pub fn boot(&self) -> u32
        ensures { result ≡ self.now.viewer.state.boot }
    {
        self.viewer.boot()
    }

    /// Returns the number of offers that wait.
    pub fn waiting(&self) -> u32
        ensures { result ≡ length self.now.viewer.state.waiting }
    {
        self.viewer.waiting()
    }

    /// Takes the bytes of a datagram, as `Viewer::take` of share_core does.
    pub fn take(&mut self, bytes: &[u8]) -> Result<Taken, TakeFault>
        ensures { Takes self.old bytes.now result self.new }
    {
        self.viewer.take(bytes)
    }

    /// Offers a point and returns the offer's number, as `Viewer::offer` of share_core does.
    pub fn offer(&mut self, point: Point) -> Result<u32, OfferFault>
        ensures { Offers self.old point result self.new }
    {
        self.viewer.offer(point)
    }

    /// Returns the datagram of the waiting offer at a place, from 0, if there is one, as
    /// `Viewer::resend` of share_core does.
    pub fn resend(&self, place: u32) -> Option<Packet>
        ensures { option_map (λ p. p.items) result ≡ spec.offer_bytes self.now place }
    {
        self.viewer.resend(place)
    }

    /// Returns the datagram that asks for the inputs that the viewer lacks, as `Viewer::ask` of
    /// share_core does.
    pub fn ask(&self) -> Option<Packet>
        ensures { option_map (λ p. p.items) result ≡ Some (spec.ask_bytes self.now) }
    {
        Some(self.viewer.ask())
    }

    /// Begins again in the world of a snapshot, as another boot, as `Viewer::rewind` of share_core
    /// does.
    pub fn rewind(&mut self, boot: u32, bytes: &[u8]) -> Result<u64, SnapFault>
        ensures { Rewinds self.old boot bytes.now result self.new }
    {
        self.viewer.rewind(bytes, boot)
    }

    /// Gathers the bytes of a datagram, a piece of a snapshot, as `Viewer::gather` of share_core
    /// does.
    pub fn gather(&mut self, bytes: &[u8]) -> Result<Gathered, GatherFault>
        ensures { Gathers self.old bytes.now result self.new }
    {
        self.viewer.gather(bytes)
    }

    /// Begins again in the world of the snapshot that was gathered, as another boot, as
    /// `Viewer::join` of share_core does.
    pub fn join(&mut self, boot: u32) -> Result<u64, JoinFault>
        ensures { Joins self.old boot result self.new }
    {
        self.viewer.join(boot)
    }

    /// Drops what was gathered.
    pub fn forget(&mut self)
        ensures { self.new ≡ spec.forgetting self.old }
    {
        self.viewer.forget();
    }

    /// Returns the number of nodes in the scene. They are numbered from 0.
    pub fn node_count(&self) -> usize
        ensures { result ≡ length self.now.viewer.scene.nodes }
    {
        self.viewer.stage().scene().node_count()
    }

    /// Returns the number of fields of a node. They are numbered from 0. 0 if there is no such
    /// node.
    pub fn field_count(&self, node: u32) -> u32
        ensures { result ≡ length (rows_at self.now.viewer.scene node) }
    {
        self.viewer.stage().scene().field_count(node)
    }

    /// Returns the number of a node's field with this name, as for a world.
    pub fn field_named(&self, node: u32, name: &[u8]) -> Option<u16>
        ensures { result ≡ number_named self.now.viewer.scene node name.now }
    {
        number_named(self.viewer.stage().scene(), node, name)
    }

    /// Returns the text that was made last.
    pub fn text(&self) -> &[u8]
        ensures { result.now ≡ self.now.text.items }
    {
        self.text.as_slice()
    }

    /// Returns the numbers that were listed last.
    pub fn numbers(&self) -> &[i64]
        ensures { result.now ≡ self.now.numbers.items }
    {
        self.numbers.as_slice()
    }

    /// Returns the changed fields that were listed last.
    pub fn changed(&self) -> &[Change]
        ensures { result.now ≡ self.now.changed }
    {
        self.changed.as_slice()
    }
}
