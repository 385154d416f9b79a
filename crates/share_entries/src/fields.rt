//! The fields of an offer, as they are written, and as they are read before their ranges are
//! checked.

ghost use Rattle.std.specs.Prelude.{◌≡◌, IsTrue};
ghost use Rattle.share_wire.specs.Datagram.{body_fits, offering_fits, pointer_fits};
ghost use Rattle.share_wire.specs.declared.message.Body.TheVariants as body;
ghost use Rattle.share_entries.specs.Entry.{fields_of, offer_codec, offer_with};

use share_wire::{Offer, is_ordinal, is_viewer};
use x3d_values::{Pointer, Ray, Vec3};

/// The fields of an offer, in any range.
#[derive(Clone, Copy)]
pub struct OfferFields {
    pub who: u8,
    pub down: bool,
    pub origin: Vec3,
    pub dir: Vec3,
    pub boot: u32,
    pub number: u32,
}

impl OfferFields {
    /// Returns the fields of an offer. They are in the ranges of an offer.
    pub fn of(offer: Offer) -> OfferFields
        ensures value { result ≡ fields_of offer }
        ensures ranges { IsTrue (body_fits (body.Offer offer)) }
        ensures fits { IsTrue (offer_codec.fits offer) }
    {
        let pointer = offer.pointer();
        OfferFields {
            who: pointer.who(),
            down: pointer.is_down(),
            origin: pointer.ray().origin(),
            dir: pointer.ray().dir(),
            boot: offer.boot(),
            number: offer.number(),
        }
    }

    /// Reports whether the fields are in the ranges of an offer.
    pub fn fit(self) -> bool
        ensures { result ≡ offering_fits (offer_with self) }
    {
        (is_ordinal(self.boot) && is_ordinal(self.number)) && self.points()
    }

    fn points(self) -> bool
        ensures { result ≡ pointer_fits (offer_with self).pointer }
    {
        is_viewer(self.who) && (self.origin.fits() && (self.dir.fits() && !self.dir.is_zero()))
    }

    /// Returns the offer with these fields.
    pub fn offer(self) -> Offer
        requires { IsTrue (offering_fits (offer_with self)) }
        ensures { result ≡ offer_with self }
    {
        let ray = Ray::new(self.origin, self.dir);
        Offer::new(
            self.boot,
            self.number,
            Pointer::new(self.who, self.down, ray),
        )
    }
}
