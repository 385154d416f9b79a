//! The secrets that cookies are made by, which change.

ghost use Rattle.std.specs.Prelude.{◌≡◌};
ghost use Rattle.share_cookies.specs.Secrets as spec;

use crate::cookie::{Cookie, Secret, cookie_of, is_same};

/// After this many milliseconds a secret is replaced.
pub const PERIOD_MILLIS: u64 = 120_000;

/// The secret that cookies are made by, and the one before it. A cookie is known by either.
#[derive(Clone, Copy)]
pub struct Secrets {
    current: Secret,
    former: Secret,
    /// How long `current` has been the current one, in milliseconds.
    age: u64,
}

/// Returns the secrets when the current one is this old.
fn at_age(secrets: &Secrets, age: u64, fresh: Secret) -> Secrets
    ensures { result ≡ spec.at_age secrets.now age fresh }
{
    if age < PERIOD_MILLIS {
        return Secrets {
            current: secrets.current,
            former: secrets.former,
            age,
        };
    }
    if age < 2 * PERIOD_MILLIS {
        return Secrets {
            current: fresh,
            former: secrets.current,
            age: age - PERIOD_MILLIS,
        };
    }
    Secrets {
        current: fresh,
        former: fresh,
        age: 0,
    }
}

impl Secrets {
    ghost use Rattle.std.specs.Prelude.{◌≡◌, ℕ, List, false, true};
    ghost use Rattle.share_cookies.specs.Cookies.{cookie_of};
    ghost use Rattle.share_cookies.specs.Secrets as spec;

    /// Returns the secrets of a host that begins with this one, drawn at random.
    pub fn new(first: Secret) -> Secrets
        ensures { result ≡ spec.begun first }
    {
        Secrets {
            current: first,
            former: first,
            age: 0,
        }
    }

    /// Returns the cookie of a viewer at an address, which has 4 or 16 bytes, and a port.
    pub fn cookie(&self, address: &[u8], port: u16, who: u8) -> Cookie
        ensures { result ≡ cookie_of self.now.current address.now port who }
    {
        cookie_of(&self.current, address, port, who)
    }

    /// Reports whether a cookie is that of a viewer at an address and a port, by the current secret
    /// or by the one before it.
    pub fn is_known(&self, cookie: &Cookie, address: &[u8], port: u16, who: u8) -> bool
        ensures known { result ≡ true → spec.IsKnown self.now cookie.now address.now port who }
        ensures only { spec.IsKnown self.now cookie.now address.now port who → result ≡ true }
    {
        let by_current = is_same(cookie, &cookie_of(&self.current, address, port, who));
        let by_former = is_same(cookie, &cookie_of(&self.former, address, port, who));
        by_current | by_former
    }

    /// Reports whether a fresh secret is due once these milliseconds have passed.
    pub fn is_due(&self, millis: u64) -> bool
        ensures { result ≡ spec.is_due self.now millis }
    {
        PERIOD_MILLIS <= self.age.saturating_add(millis)
    }

    /// Lets milliseconds pass, after which no fresh secret is due.
    pub fn pass_early(&mut self, millis: u64)
        requires { spec.is_due self.old millis ≡ false }
        ensures { (fresh : List ℕ) → self.new ≡ spec.passed self.old millis fresh }
    {
        self.age = self.age.saturating_add(millis);
    }

    /// Lets milliseconds pass. Once the current secret is `PERIOD_MILLIS` old, `fresh` replaces it.
    pub fn pass(&mut self, millis: u64, fresh: Secret)
        ensures { self.new ≡ spec.passed self.old millis fresh }
    {
        *self = at_age(self, self.age.saturating_add(millis), fresh);
    }
}
