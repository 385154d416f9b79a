//! A viewer of a shared world: it applies the host's inputs in order, and offers its points.

ghost use Rattle.std.specs.Prelude.{◌≡◌, ◌≤◌, ◌+◌, ◌^◌, if◌then◌else◌, nat_lt, None, Some};
ghost use Rattle.x3d_values.specs.Ranges.{max_inputs};

use crate::ahead::take_input;
use crate::gathering::Pieces;
use crate::waiting::Waiting;
use cascade_core::{PlaceFault, Stage, TextFault};
use script_host::Behaviour;
use share_law::{OfferFault, TakeFault, Taken};
use share_rules::Window;
use share_wire::{Ack, Ask, Body, Floor, Message, Packet, decode, encode};
use std::marker::Model;
use x3d_values::{Point, Stamped};

/// A viewer of a shared world: the mark of its scene, its stage, the inputs that arrived early, its
/// waiting offers, and the pieces of a snapshot that arrived.
#[derive(Drop)]
pub struct Viewer<B: Behaviour> {
    pub(crate) mark: [u8; 32],
    pub(crate) stage: Stage<B>,
    pub(crate) window: Window,
    pub(crate) offers: Waiting,
    pub(crate) gathering: Option<Pieces>,
}

impl<B: Behaviour> Model for Viewer<B> {
    ghost use Rattle.std.specs.Prelude.{◌≡◌, ◌≤◌, ◌+◌, ◌^◌, length};
    ghost use Rattle.x3d_values.specs.Ranges.{max_inputs};
    ghost use Rattle.cascade_core.specs.Held.{applied_of};
    ghost use Rattle.share_core.specs.Ahead.{InPlace};
    ghost use Rattle.share_core.specs.Viewer.{ViewerView, view_of};
    ghost use Rattle.share_core.specs.Waiting.{with_offers};

    ghost Value = { ViewerView };

    ghost view = { λ v. record {
      mark = v.mark;
      who = v.offers.who;
      scene = v.stage.scene;
      routes = v.stage.routes;
      state = with_offers v.offers (view_of v.stage.held v.window);
      gathering = v.gathering;
    } };

    ghost invariant = { λ v. (applied_of v.stage.held ≤ max_inputs)
        × InPlace (applied_of v.stage.held + 1) v.window × (length v.mark ≡ 32) };
}

/// Returns the answer to a floor of a viewer that has applied `applied` inputs.
fn behind(applied: u64, floor: Floor) -> Taken
    requires { applied ≤ max_inputs }
    ensures { result ≡ if nat_lt (applied + 1) floor then Taken.Behind else Taken.Noted }
{
    if floor.number() > applied + 1 {
        Taken::Behind
    } else {
        Taken::Noted
    }
}

impl<B: Behaviour> Viewer<B> {
    ghost use Rattle.std.specs.Prelude.{◌≡◌, ◌<◌, ◌++◌, ◌^◌, false, None, Some, Err, IfErr, IsSomeAnd, IsTrue, slice_get};
    ghost use Rattle.std.specs.Prelude.{OnErr, OnOk, length};
    ghost use Rattle.std.specs.Option.{option_map};
    ghost use Rattle.x3d_values.specs.Ranges.{is_viewer};
    ghost use Rattle.share_wire.specs.Datagram.{datagram};
    ghost use Rattle.share_wire.specs.Decoding.{decoded};
    ghost use Rattle.share_wire.specs.Messages.{is_ordinal};
    ghost use Rattle.share_wire.specs.declared.message.Body.TheVariants as body;
    ghost use Rattle.cascade_core.specs.Apply.{opening};
    ghost use Rattle.cascade_core.specs.Held.{Running};
    ghost use Rattle.cascade_core.specs.Installing.{RefusesBox};
    ghost use Rattle.cascade_core.specs.Scripts.{kinds_in, scripts_in};
    ghost use Rattle.cascade_core.specs.Texts.{scene_text, texts, trace_text};
    ghost use Rattle.share_law.specs.Calls.{IsTake, IsTakeOf};
    ghost use Rattle.share_law.specs.Viewer.{applied_in, begun, viewer_ask, viewer_offer};
    ghost use Rattle.share_law.specs.Viewer.{viewer_resend};
    ghost use Rattle.share_core.specs.Viewer.{IfRunning, IfSpoiled, held_in, is_spoiled, machine_of};
    ghost use Rattle.share_core.specs.Viewer.{stage_in, with_state};

    /// Starts a viewer of the scene with this mark, as boot `boot` of viewer `who`. The stage must
    /// have had no input. Test `who` with `is_viewer` and `boot` with `is_ordinal`. Takes no
    /// memory.
    pub fn start(stage: Stage<B>, mark: [u8; 32], who: u8, boot: u32) -> Viewer<B>
        requires who { IsTrue (is_viewer who) }
        requires boot { IsTrue (is_ordinal boot) }
        requires fresh { stage.held ≡ Running (opening stage.scene stage.routes) }
        ensures { result ≡ record {
          mark = mark;
          who = who;
          scene = stage.scene;
          routes = stage.routes;
          state = begun boot (opening stage.scene stage.routes);
          gathering = None;
        } }
    {
        Viewer {
            mark,
            stage,
            window: Window::new(),
            offers: Waiting::new(who, boot),
            gathering: None,
        }
    }

    /// Returns the number of applied inputs. For a spoiled viewer, counts those before memory was
    /// refused.
    pub fn applied(&self) -> u64
        ensures { result ≡ applied_in (machine_of self.now) self.now.state.view }
    {
        self.stage.applied()
    }

    /// Reports whether the viewer is spoiled: memory was refused to an input or to a rewind.
    pub fn spoiled(&self) -> bool
        ensures { result ≡ is_spoiled self.now.state.view }
    {
        self.stage.spoiled()
    }

    /// Returns the viewer's boot.
    pub fn boot(&self) -> u32
        ensures { result ≡ self.now.state.boot }
    {
        self.offers.boot()
    }

    /// Returns the mark of the viewer's scene.
    pub fn mark(&self) -> [u8; 32]
        ensures value { result ≡ self.now.mark }
        ensures bytes { length result ≡ 32 }
    {
        self.mark
    }

    /// Returns the viewer's stage, to read the world.
    pub fn stage(&self) -> &Stage<B>
        ensures { result.now ≡ stage_in self.now }
    {
        &self.stage
    }

    /// Takes the bytes of a packet.
    ///
    /// An input that was applied before is `Old`, and one after the window is `Beyond`. Any other
    /// input is kept, unless one with its number is. Then inputs are applied as long as the next
    /// one is there: `Applied` has their number, and `Held` says that there were none. An ack of
    /// this viewer is `Noted`; if it is of this boot, it drops the waiting offers up to its count.
    /// A floor is `Behind` if the host no longer has the next input, else `Noted`.
    ///
    /// Fails, in this order, with `Spoiled` if memory was refused before, `Wire` if the bytes
    /// aren't a datagram, `WrongScene` if it has another mark, or `NotForMe` for an offer, an ask,
    /// a piece or another viewer's ack. These change nothing. `TimeNotLater` reports an input that
    /// isn't later than the one before: it is dropped, and those before it stay applied. `Memory`
    /// spoils the viewer, with the inputs that it had applied.
    pub fn take(&mut self, bytes: &[u8]) -> Result<Taken, TakeFault>
        ensures others { self.new ≡ with_state self.old self.new.state }
        ensures step { IsTakeOf (machine_of self.old) self.old.mark self.old.who self.old.state
            self.old.state.view (decoded bytes.now) result self.new.state }
    {
        if self.spoiled() {
            return Err(TakeFault::Spoiled);
        }
        let message = match decode(bytes) {
            Ok(message) => message,
            Err(fault) => return Err(TakeFault::Wire(fault)),
        };
        if message.mark != self.mark {
            return Err(TakeFault::WrongScene);
        }
        self.take_body(message.body)
    }

    fn take_body(&mut self, body: Body) -> Result<Taken, TakeFault>
        requires { is_spoiled self.old.state.view ≡ false }
        ensures others { self.new ≡ with_state self.old self.new.state }
        ensures step { IsTake (machine_of self.old) self.old.who self.old.state body result
            self.new.state }
    {
        match body {
            Body::Input(input) => self.take_input(input),
            Body::Ack(ack) => self.take_ack(ack),
            Body::Floor(floor) => Ok(self.take_floor(floor)),
            Body::Offer(_) | Body::Ask(_) | Body::Piece(_) => Err(TakeFault::NotForMe),
        }
    }

    fn take_input(&mut self, input: Stamped) -> Result<Taken, TakeFault>
        requires { is_spoiled self.old.state.view ≡ false }
        ensures others { self.new ≡ with_state self.old self.new.state }
        ensures step { IsTake (machine_of self.old) self.old.who self.old.state (body.Input input)
            result self.new.state }
    {
        take_input(&mut self.stage, &mut self.window, input)
    }

    fn take_ack(&mut self, ack: Ack) -> Result<Taken, TakeFault>
        requires { is_spoiled self.old.state.view ≡ false }
        ensures others { self.new ≡ with_state self.old self.new.state }
        ensures step { IsTake (machine_of self.old) self.old.who self.old.state (body.Ack ack)
            result self.new.state }
    {
        if ack.who() != self.offers.who() {
            return Err(TakeFault::NotForMe);
        }
        self.offers.heed(ack);
        Ok(Taken::Noted)
    }

    /// Returns `Behind` if the host no longer has the next input, else `Noted`.
    fn take_floor(&self, floor: Floor) -> Taken
        requires { is_spoiled self.now.state.view ≡ false }
        ensures { IsTake (machine_of self.now) self.now.who self.now.state (body.Floor floor)
            (Ok result) self.now.state }
    {
        behind(self.stage.applied(), floor)
    }

    /// Offers a point. Returns the offer's number in this boot, from 1. Takes no memory.
    ///
    /// Fails, in this order, with `Spoiled` if memory was refused before, `ZeroRay` if the
    /// direction is 0 0 0, `PointRange` if the size of a coordinate is above 10^15 millionths,
    /// `OfferFull` if 64 offers wait, or `OffersSpent` after 2^32 - 1 offers of this boot. A
    /// failure changes nothing.
    pub fn offer(&mut self, point: Point) -> Result<u32, OfferFault>
        ensures others { self.new ≡ with_state self.old self.new.state }
        ensures step { viewer_offer self.old.state point ≡ (result, self.new.state) }
    {
        if self.spoiled() {
            return Err(OfferFault::Spoiled);
        }
        self.offers.offer(point)
    }

    /// Returns the number of waiting offers: at most 64.
    pub fn waiting(&self) -> u32
        ensures { result ≡ length self.now.state.waiting }
    {
        self.offers.len()
    }

    /// Returns the packet of the waiting offer at a place, counted from 0, if there is one. Takes
    /// no memory.
    pub fn resend(&self, place: u32) -> Option<Packet>
        ensures bytes { option_map (λ p. p.items) result
            ≡ option_map (λ body. datagram (record { mark = self.now.mark; body = body }))
            (viewer_resend self.now.who self.now.state place) }
        // The packet decodes to that offer.
        ensures again { option_map (λ p. decoded p.items) result
            ≡ option_map (λ body. Ok (record { mark = self.now.mark; body = body }))
            (viewer_resend self.now.who self.now.state place) }
    {
        let offer = self.offers.resend(place)?;
        Some(encode(&Message {
            mark: self.mark,
            body: Body::Offer(offer),
        }))
    }

    /// Returns the packet that asks for the inputs that the viewer lacks, even if the viewer is
    /// spoiled. Takes no memory.
    pub fn ask(&self) -> Packet
        ensures bytes { result.items ≡ datagram (record {
          mark = self.now.mark;
          body = viewer_ask (machine_of self.now) self.now.who self.now.state;
        }) }
        // The packet decodes to that ask.
        ensures again { decoded result.items ≡ Ok (record {
          mark = self.now.mark;
          body = viewer_ask (machine_of self.now) self.now.who self.now.state;
        }) }
    {
        encode(&Message {
            mark: self.mark,
            body: Body::Ask(Ask::new(self.offers.who(), self.stage.applied() + 1)),
        })
    }

    /// Appends the text of the current scene. Fails with `Spoiled` or `Memory`; `out` is then
    /// unchanged.
    pub fn scene_text(&self, out: &mut Vec<u8>) -> Result<(), TextFault>
        ensures refused { IfSpoiled self.now.state.view (result ≡ Err TextFault.Spoiled) }
        ensures ok { IfRunning self.now.state.view (λ w.
            OnOk result (out.new.items
            ≡ out.old.items ++ scene_text self.now.scene self.now.routes w)) }
        ensures memory { IfRunning self.now.state.view (λ w.
            IfErr result (λ fault. fault ≡ TextFault.Memory)) }
        ensures err { OnErr result (out.new.items ≡ out.old.items) }
    {
        self.stage.scene_text(out)
    }

    /// Appends the text of the trace. Fails with `Spoiled` or `Memory`; `out` is then unchanged.
    pub fn trace_text(&self, out: &mut Vec<u8>) -> Result<(), TextFault>
        ensures refused { IfSpoiled self.now.state.view (result ≡ Err TextFault.Spoiled) }
        ensures ok { IfRunning self.now.state.view (λ w.
            OnOk result (out.new.items ≡ out.old.items ++ trace_text self.now.scene w)) }
        ensures memory { IfRunning self.now.state.view (λ w.
            IfErr result (λ fault. fault ≡ TextFault.Memory)) }
        ensures err { OnErr result (out.new.items ≡ out.old.items) }
    {
        self.stage.trace_text(out)
    }

    /// Appends the trace and then the scene. Fails with `Spoiled` or `Memory`; `out` is then
    /// unchanged.
    pub fn texts(&self, out: &mut Vec<u8>) -> Result<(), TextFault>
        ensures refused { IfSpoiled self.now.state.view (result ≡ Err TextFault.Spoiled) }
        ensures ok { IfRunning self.now.state.view (λ w. OnOk result (out.new.items
            ≡ out.old.items ++ texts self.now.scene self.now.routes w)) }
        ensures memory { IfRunning self.now.state.view (λ w.
            IfErr result (λ fault. fault ≡ TextFault.Memory)) }
        ensures err { OnErr result (out.new.items ≡ out.old.items) }
    {
        self.stage.texts(out)
    }

    /// Replaces the k-th script by a box of the same kind, which takes over its state. What the
    /// viewer holds stays the same, whatever the answer. A refused box is dropped.
    ///
    /// Fails with `Spoiled` if memory was refused before, `NoSuchScript`, `KindDiffers`, or
    /// `Memory`.
    pub fn replace_script(&mut self, k: usize, script: B) -> Result<(), PlaceFault>
        ensures same { self.new ≡ self.old }
        ensures ok { OnOk result (IsSomeAnd (slice_get (kinds_in self.old.scene) k)
            (λ kind. B.kind_of script ≡ kind)) }
        ensures spoiled { IfSpoiled self.old.state.view (result ≡ Err PlaceFault.Spoiled) }
        ensures refused { IfErr result (λ fault. RefusesBox fault (held_in self.old.state.view)
            (slice_get (scripts_in self.old.scene) k) (B.kind_of script)) }
    {
        self.stage.replace_script(k, script)
    }

    /// Closes the viewer and its stage.
    pub fn close(self) {
        self.stage.close();
    }
}
