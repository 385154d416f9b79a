//! How a viewer meets its host, by Hellos with nonces of their own.

ghost use Rattle.std.specs.Prelude.{◌≡◌, IfOk, IfSome};
ghost use Rattle.share_turns.specs.Told.{counted};
ghost use Rattle.app_commands.specs.Welcomed as spec;

use crate::rests::millis_at;
use share_runs::{arrive, next_nonce};
use share_session::{Hello, Welcome};
use share_turns::{Port, PortFault};
use std::time::Clock;

/// The most Hellos with a nonce of their own. There are more than one a second only if other
/// datagrams come all the time.
const MAX_TRIES: u32 = 10_000;

/// What a viewer says to come into the run of its host, and for how long.
#[derive(Clone, Copy)]
pub struct Meeting {
    /// The host's port.
    pub host: u16,
    /// The first Hello.
    pub hello: Hello,
    /// A secret, by which further nonces are made.
    pub seed: [u8; 32],
    /// How long the viewer tries again, in milliseconds. The last try takes a second more.
    pub most: u64,
}

/// A Welcome, and the Hello that it answers.
#[derive(Clone, Copy)]
pub struct Met {
    pub hello: Hello,
    pub welcome: Welcome,
}

/// Reports whether a viewer that began at one time doesn't try again at another one, in
/// milliseconds of a clock. If the clock doesn't say both, it doesn't.
fn is_late(most: u64, began: Option<u64>, now: Option<u64>) -> bool
    ensures { result ≡ spec.is_late most began now }
{
    match (began, now) {
        (Some(began), Some(now)) => now.saturating_sub(began) >= most,
        _ => true,
    }
}

/// Returns the Hello with the next nonce.
fn again(hello: &Hello, seed: &[u8; 32]) -> Hello
    ensures { result ≡ spec.again hello.now seed.now }
{
    let nonce = next_nonce(seed, &hello.nonce);
    let mut made = *hello;
    made.nonce = nonce;
    made
}

/// Says Hello to a host until a Welcome answers the last Hello, with a new nonce each second, as
/// long as less than `meeting.most` milliseconds have passed by the clock. Other datagrams are
/// dropped. Returns `None` if no such Welcome came: then the host isn't there, or it speaks version
/// 1 alone.
///
/// Fails if a send or a receive fails.
pub fn meet<P: Port, C: Clock>(
    port: &mut P,
    clock: &C,
    meeting: &Meeting,
) -> Result<Option<Met>, PortFault>
    ensures met { IfOk result (λ o. IfSome o (λ m. spec.IsMet meeting.now m)) }
    ensures failures { P.failure_count port.new ≡ counted result (P.failure_count port.old) }
    ensures time { P.rested port.new ≡ P.rested port.old }
{
    let began = millis_at(clock);
    let mut hello = meeting.hello;
    for _try in 0..MAX_TRIES {
        if let Some(welcome) = arrive(port, meeting.host, &hello)? {
            return Ok(Some(Met { hello, welcome }));
        }
        if is_late(meeting.most, began, millis_at(clock)) {
            return Ok(None);
        }
        hello = again(&hello, &meeting.seed);
    }
    Ok(None)
}
