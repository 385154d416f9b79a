//! How much was taken of each seat.

ghost use Rattle.std.specs.Prelude.{◌≡◌};
ghost use Rattle.share_guards.specs.Seats as spec;

/// How many seats there are: one for each viewer's number.
const SEATS: usize = 64;

/// How many datagrams of a seat are taken in one turn at most.
pub const MOST_DATAGRAMS: u8 = 8;

/// How many offers of a seat are taken in one second at most.
pub const MOST_OFFERS: u8 = 64;

/// How long a second is, in milliseconds.
const SECOND: u64 = 1_000;

/// How many datagrams of each seat were taken in this turn, and how many offers in this second.
#[derive(Clone, Copy)]
pub struct Seats {
    datagrams: [u8; SEATS],
    offers: [u8; SEATS],
    /// How long this second has been, in milliseconds.
    age: u64,
}

/// Reports whether a datagram is within the limit of offers, of which `count` were taken.
fn is_within(is_offer: bool, count: u8) -> bool
    ensures { result ≡ spec.is_within is_offer count }
{
    !is_offer || count < MOST_OFFERS
}

impl Seats {
    ghost use Rattle.std.specs.Prelude.{◌≡◌};
    ghost use Rattle.share_guards.specs.Seats as spec;

    /// Returns the seats of a host that has taken nothing.
    pub fn new() -> Seats
        ensures { result ≡ spec.no_seats }
    {
        Seats {
            datagrams: [0; SEATS],
            offers: [0; SEATS],
            age: 0,
        }
    }

    /// Reports whether one more datagram of a seat, or one more offer, is within the limits.
    fn has_room(&self, who: u8, is_offer: bool) -> bool
        ensures { result ≡ spec.has_room self.now who is_offer }
    {
        let place = who as usize;
        if place >= SEATS {
            return false;
        }
        if self.datagrams[place] >= MOST_DATAGRAMS {
            return false;
        }
        is_within(is_offer, self.offers[place])
    }

    /// Counts a datagram of a seat.
    fn count(&mut self, who: u8, is_offer: bool)
        ensures { self.new ≡ spec.counted self.old who is_offer }
    {
        let place = who as usize;
        if place >= SEATS {
            return;
        }
        self.datagrams[place] = self.datagrams[place].saturating_add(1);
        if is_offer {
            self.offers[place] = self.offers[place].saturating_add(1);
        }
    }

    /// Takes a datagram of a seat, if that is within the limits. Returns whether it is.
    pub fn take(&mut self, who: u8, is_offer: bool) -> bool
        ensures value { result ≡ spec.has_room self.old who is_offer }
        ensures new { self.new ≡ spec.taken self.old who is_offer }
    {
        if !self.has_room(who, is_offer) {
            return false;
        }
        self.count(who, is_offer);
        true
    }

    /// Ends a turn, after these milliseconds.
    pub fn pass(&mut self, millis: u64)
        ensures { self.new ≡ spec.passed self.old millis }
    {
        let age = self.age.saturating_add(millis);
        self.datagrams = [0; SEATS];
        if age < SECOND {
            self.age = age;
        } else {
            self.offers = [0; SEATS];
            self.age = 0;
        }
    }
}
