//! The offers of a viewer that wait until the host has numbered them.

ghost use Rattle.std.specs.Prelude.{◌≡◌, ◌≤◌, ◌<◌, ◌^◌, ◌++◌, ◌+◌, ◌==◌, [], ◌∷◌, List, Option};
ghost use Rattle.std.specs.Prelude.{length, IsTrue};
ghost use Rattle.std.specs.Option.{option_map};
ghost use Rattle.x3d_values.specs.Pointing.{is_ray};
ghost use Rattle.x3d_values.specs.Ranges.{is_viewer};
ghost use Rattle.x3d_values.specs.Stamp.{StampedView};
ghost use Rattle.share_wire.specs.Messages.{is_ordinal};
ghost use Rattle.share_wire.specs.declared.message.Body.TheVariants as body;
ghost use Rattle.cascade_core.specs.Course.{Scripted};
ghost use Rattle.share_law.specs.Viewer.{ViewerWorld, Running, acked, offer_refusal, viewer_offer};
ghost use Rattle.share_law.specs.Viewer.{viewer_resend};
ghost use Rattle.share_core.specs.Steps.{point_aimed};
ghost use Rattle.share_core.specs.Waiting.{with_offers};

use share_law::OfferFault;
use share_rules::{MOST_WAITING, Tally, covered_after};
use share_wire::{Ack, Offer};
use std::marker::Model;
use x3d_values::{Point, Pointer, Ray, Vec3};

/// The largest number of waiting offers.
const PLACES: usize = MOST_WAITING as usize;

/// A point that was offered.
#[derive(Clone, Copy)]
struct OfferedPoint {
    down: bool,
    ray: Ray,
}

/// The offers of one boot of a viewer, numbered from 1: how many were made, and the last of them,
/// at most `MOST_WAITING`, which wait.
#[derive(Drop)]
pub(crate) struct Waiting {
    who: u8,
    boot: u32,
    /// The number of offers that no longer wait.
    covered: u32,
    made: u32,
    /// Offer n is at place (n - 1) % `MOST_WAITING`.
    places: [OfferedPoint; PLACES],
}

impl Model for Waiting {
    ghost use Rattle.std.specs.Prelude.{◌≡◌, ◌+◌, ◌-◌, ◌%◌, ◌≤◌, ◌&&◌, IsTrue, length, map, take};
    ghost use Rattle.x3d_values.specs.Ranges.{is_viewer};
    ghost use Rattle.share_wire.specs.Messages.{is_ordinal};
    ghost use Rattle.share_rules.specs.Offers.{most_waiting};
    ghost use Rattle.share_rules.specs.Rings.{in_order};
    ghost use Rattle.share_core.specs.Steps.{point_aimed};
    ghost use Rattle.share_core.specs.Waiting.{Offers};

    ghost Value = { Offers };

    ghost view = { λ w. record {
      who = w.who;
      boot = w.boot;
      made = w.made;
      waiting = take (w.made - w.covered)
          (in_order (w.covered % most_waiting) (map point_aimed w.places));
    } };

    ghost invariant = { λ w. IsTrue (is_viewer w.who && is_ordinal w.boot)
        × (w.covered ≤ w.made) × (w.made ≤ w.covered + most_waiting)
        × (length w.places ≡ most_waiting) };
}

/// Returns a point as it is stored.
fn aim_of(point: Point) -> OfferedPoint
    requires { IsTrue (is_ray (record { origin = point.origin; dir = point.dir })) }
    ensures { point_aimed result ≡ point }
{
    OfferedPoint {
        down: point.down,
        ray: Ray::new(point.origin, point.dir),
    }
}

impl Waiting {
    ghost use Rattle.share_rules.specs.Offers.{most_waiting};

    /// Returns the offers of a new boot: none. Test `who` with `is_viewer` and `boot` with
    /// `is_ordinal`.
    pub(crate) fn new(who: u8, boot: u32) -> Waiting
        requires who { IsTrue (is_viewer who) }
        requires boot { IsTrue (is_ordinal boot) }
        ensures { result ≡ record { who = who; boot = boot; made = 0; waiting = [] } }
    {
        let origin = Vec3 { x: 0, y: 0, z: 0 };
        let dir = Vec3 { x: 0, y: 0, z: 1 };
        let aim = OfferedPoint {
            down: false,
            ray: Ray::new(origin, dir),
        };
        Waiting {
            who,
            boot,
            covered: 0,
            made: 0,
            places: [aim; PLACES],
        }
    }

    /// Returns the viewer's number.
    pub(crate) fn who(&self) -> u8
        ensures value { result ≡ self.now.who }
        ensures fits { IsTrue (is_viewer result) }
    {
        self.who
    }

    /// Returns the boot of these offers.
    pub(crate) fn boot(&self) -> u32
        ensures { result ≡ self.now.boot }
    {
        self.boot
    }

    /// Returns the number of waiting offers: at most `MOST_WAITING`.
    pub(crate) fn len(&self) -> u32
        ensures value { result ≡ length self.now.waiting }
        ensures most { result ≤ most_waiting }
    {
        self.made - self.covered
    }

    /// Returns why a running viewer can't offer this point.
    fn fault_of(&self, point: Point) -> Option<OfferFault>
        ensures { result ≡ offer_refusal self.now.made (length self.now.waiting) point }
    {
        if point.dir.is_zero() {
            Some(OfferFault::ZeroRay)
        } else if !(point.origin.fits() && point.dir.fits()) {
            Some(OfferFault::PointRange)
        } else if self.len() >= MOST_WAITING {
            Some(OfferFault::OfferFull)
        } else if self.made == u32::MAX {
            Some(OfferFault::OffersSpent)
        } else {
            None
        }
    }

    fn push(&mut self, aim: OfferedPoint)
        requires room { length self.old.waiting < most_waiting }
        requires numbers { self.old.made + 1 < 2 ^ 32 }
        ensures { self.new ≡ record {
          who = self.old.who;
          boot = self.old.boot;
          made = self.old.made + 1;
          waiting = self.old.waiting ++ point_aimed aim ∷ [];
        } }
    {
        self.places[(self.made % MOST_WAITING) as usize] = aim;
        self.made += 1;
    }

    /// Offers a point of a running viewer. Returns the offer's number in this boot, from 1.
    ///
    /// Fails, in this order, with `ZeroRay` if the direction is 0 0 0, `PointRange` if the size of
    /// a coordinate is above 10^15 millionths, `OfferFull` if `MOST_WAITING` offers wait, or
    /// `OffersSpent` after 2^32 - 1 offers of this boot. A failure changes nothing.
    pub(crate) fn offer(&mut self, point: Point) -> Result<u32, OfferFault>
        ensures who { self.new.who ≡ self.old.who }
        ensures step { (world : Scripted) (window : List (Option StampedView))
            → viewer_offer (with_offers self.old (Running world window)) point
            ≡ (result, with_offers self.new (Running world window)) }
    {
        if let Some(fault) = self.fault_of(point) {
            return Err(fault);
        }
        self.push(aim_of(point));
        Ok(self.made)
    }

    /// Returns the waiting offer at a place, counted from 0, if there is one.
    pub(crate) fn resend(&self, place: u32) -> Option<Offer>
        ensures { (view : ViewerWorld Scripted) → option_map (λ o. body.Offer o) result
            ≡ viewer_resend self.now.who (with_offers self.now view) place }
    {
        if place >= self.made - self.covered {
            return None;
        }
        let aim = self.places[((self.covered + place) % MOST_WAITING) as usize];
        let pointer = Pointer::new(self.who, aim.down, aim.ray);
        Some(Offer::new(self.boot, self.covered + place + 1, pointer))
    }

    /// Takes an ack: drops the waiting offers of this boot that the host has numbered.
    pub(crate) fn heed(&mut self, ack: Ack)
        ensures who { self.new.who ≡ self.old.who }
        ensures step { (view : ViewerWorld Scripted) → with_offers self.new view
            ≡ acked (with_offers self.old view) ack.boot ack.count }
    {
        let tally = Tally {
            boot: self.boot,
            made: self.made,
            covered: self.covered,
        };
        self.covered = covered_after(tally, ack.boot(), ack.count());
    }
}
