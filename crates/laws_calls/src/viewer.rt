//! The calls on a viewer.

ghost use Rattle.std.specs.Prelude.{◌≡◌, IsTrue, Some};
ghost use Rattle.std.specs.Option.{option_map};
ghost use Rattle.x3d_values.specs.Ranges.{is_viewer};
ghost use Rattle.cascade_core.specs.Apply.{opening};
ghost use Rattle.cascade_core.specs.Held.{Running};
ghost use Rattle.share_wire.specs.Decoding.{decoded};
ghost use Rattle.share_wire.specs.Messages.{is_ordinal};
ghost use Rattle.share_law.specs.declared.step.Step.TheVariants.{ViewerAsk, ViewerForget};
ghost use Rattle.share_law.specs.declared.step.Step.TheVariants.{ViewerGather, ViewerJoin};
ghost use Rattle.share_law.specs.declared.step.Step.TheVariants.{ViewerOffer, ViewerResend};
ghost use Rattle.share_law.specs.declared.step.Step.TheVariants.{ViewerRewind, ViewerTake};
ghost use Rattle.share_law.specs.Network.{Collected, Forgot, Joined, Offered, Rewound, ViewerTook};
ghost use Rattle.laws_calls.specs.Begins.{IsNewViewer};
ghost use Rattle.laws_calls.specs.Moves.{ViewerMoves, ViewerMovesBy, ViewerMovesTo, ViewerSaves};
ghost use Rattle.laws_calls.specs.Moves.{ViewerSends};

use cascade_core::Stage;
use script_host::Behaviour;
use share_core::Viewer;
use share_law::{GatherFault, Gathered, JoinFault, OfferFault, TakeFault, Taken, steps_law};
use share_wire::Packet;
use snapshot_core::{SaveFault, SnapFault};
use x3d_values::Point;

/// Starts a viewer, like `Viewer::start`.
pub fn start_viewer<B: Behaviour>(stage: Stage<B>, mark: [u8; 32], who: u8, boot: u32) -> Viewer<B>
    requires who { IsTrue (is_viewer who) }
    requires boot { IsTrue (is_ordinal boot) }
    requires fresh { stage.held ≡ Running (opening stage.scene stage.routes) }
    ensures { IsNewViewer mark stage who boot result }
{
    Viewer::start(stage, mark, who, boot)
}

/// Takes the bytes of a packet, like `Viewer::take`.
pub fn viewer_take<B: Behaviour>(viewer: &mut Viewer<B>, bytes: &[u8]) -> Result<Taken, TakeFault>
    ensures { ViewerMovesBy viewer.old viewer.new (decoded bytes.now)
        (λ p. ViewerTake viewer.old.who p) (ViewerTook result) }
{
    steps_law();
    viewer.take(bytes)
}

/// Offers a point, like `Viewer::offer`.
pub fn viewer_offer<B: Behaviour>(viewer: &mut Viewer<B>, point: Point) -> Result<u32, OfferFault>
    ensures { ViewerMoves viewer.old viewer.new (ViewerOffer viewer.old.who point)
        (Offered result) }
{
    steps_law();
    viewer.offer(point)
}

/// Returns the packet of a waiting offer, like `Viewer::resend`.
pub fn viewer_resend<B: Behaviour>(viewer: &Viewer<B>, place: u32) -> Option<Packet>
    ensures { ViewerSends viewer.now (ViewerResend viewer.now.who place)
        (option_map (λ p. p.items) result) }
{
    steps_law();
    viewer.resend(place)
}

/// Returns the packet of an ask, like `Viewer::ask`.
pub fn viewer_ask<B: Behaviour>(viewer: &Viewer<B>) -> Packet
    ensures { ViewerSends viewer.now (ViewerAsk viewer.now.who) (Some result.items) }
{
    steps_law();
    viewer.ask()
}

/// Appends a snapshot, like `Viewer::snapshot`.
pub fn viewer_snapshot<B: Behaviour>(viewer: &Viewer<B>, out: &mut Vec<u8>) -> Result<(), SaveFault>
    ensures { ViewerSaves viewer.now result out.old.items out.new.items }
{
    steps_law();
    let _boot = viewer.boot();
    let saved = viewer.snapshot(out);
    let _len = out.len();
    saved
}

/// Restarts from the bytes of a snapshot, like `Viewer::rewind`.
pub fn viewer_rewind<B: Behaviour>(
    viewer: &mut Viewer<B>,
    bytes: &[u8],
    boot: u32,
) -> Result<u64, SnapFault>
    ensures { ViewerMovesTo viewer.old viewer.new bytes.now
        (λ s. ViewerRewind viewer.old.who s boot) (Rewound result) }
{
    steps_law();
    viewer.rewind(bytes, boot)
}

/// Gathers a piece of a snapshot, like `Viewer::gather`.
pub fn viewer_gather<B: Behaviour>(
    viewer: &mut Viewer<B>,
    bytes: &[u8],
) -> Result<Gathered, GatherFault>
    ensures { ViewerMovesBy viewer.old viewer.new (decoded bytes.now)
        (λ p. ViewerGather viewer.old.who p) (Collected result) }
{
    steps_law();
    viewer.gather(bytes)
}

/// Restarts from what was gathered, like `Viewer::join`.
pub fn viewer_join<B: Behaviour>(viewer: &mut Viewer<B>, boot: u32) -> Result<u64, JoinFault>
    ensures { ViewerMoves viewer.old viewer.new (ViewerJoin viewer.old.who boot) (Joined result) }
{
    steps_law();
    viewer.join(boot)
}

/// Drops what was gathered, like `Viewer::forget`.
pub fn viewer_forget<B: Behaviour>(viewer: &mut Viewer<B>)
    ensures { ViewerMoves viewer.old viewer.new (ViewerForget viewer.old.who) Forgot }
{
    steps_law();
    viewer.forget();
}
