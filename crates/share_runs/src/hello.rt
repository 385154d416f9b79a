//! How a viewer comes into a run of its host.

ghost use Rattle.std.specs.Prelude.{◌≡◌, IfOk, IfSome, IsTrue};
ghost use Rattle.share_session.specs.Decoding.{decoded};
ghost use Rattle.share_session.specs.Welcomes.{answers};
ghost use Rattle.share_turns.specs.Told.{counted};
ghost use Rattle.share_runs.specs.Arrive as spec;

use crate::arrival::{Arrival, ArrivalEvent, after_event};
use crate::greetings::{Greetings, with_cookie};
use share_session::{Hello, Message2, Welcome, decode, encode};
use share_turns::{MOST, Port, PortFault, RECEIVED};

/// How often a viewer says Hello, and then waits for a Welcome for at most `WAIT` milliseconds: a
/// second in all.
const WAITS: u32 = 20;

const WAIT: u32 = 50;

/// The age of a nonce that was answered, in milliseconds: the time that `arrive` takes at most.
const ARRIVAL_MILLIS: u32 = 1_000;

fn welcome_of(hello: &Hello, message: &Message2) -> Option<Welcome>
    ensures { result ≡ spec.welcome_of hello.now message.now }
{
    match message {
        Message2::Welcome(welcome) => {
            if welcome.answers(hello) {
                Some(*welcome)
            } else {
                None
            }
        }
        _ => None,
    }
}

/// Returns the Welcome of a datagram, if it answers this Hello.
fn welcome_in(hello: &Hello, bytes: &[u8]) -> Option<Welcome>
    ensures { result ≡ spec.welcome_in hello.now (decoded bytes.now) }
{
    match decode(bytes) {
        Ok(message) => welcome_of(hello, &message),
        Err(_) => None,
    }
}

/// Receives at most `most` datagrams, until a Welcome that answers this Hello comes.
fn receive_welcome<P: Port>(
    port: &mut P,
    hello: &Hello,
    most: u32,
) -> Result<Option<Welcome>, PortFault>
    ensures answers { IfOk result (λ o. IfSome o (λ w. IsTrue (answers hello.now w))) }
    ensures failures { P.failure_count port.new ≡ counted result (P.failure_count port.old) }
    ensures time { P.rested port.new ≡ P.rested port.old }
{
    if most == 0 {
        return Ok(None);
    }
    let mut bytes = [0; RECEIVED];
    let Some((_from, count)) = port.receive(&mut bytes)? else {
        return Ok(None);
    };
    match welcome_in(hello, &bytes[..count]) {
        Some(welcome) => Ok(Some(welcome)),
        None => receive_welcome(port, hello, most - 1),
    }
}

fn say_hello<P: Port>(port: &mut P, host: u16, hello: &Hello) -> Result<(), PortFault>
    ensures failures { P.failure_count port.new ≡ counted result (P.failure_count port.old) }
    ensures time { P.rested port.new ≡ P.rested port.old }
{
    port.send(host, encode(&Message2::Hello(*hello)).as_slice())
}

/// Says Hello and waits for a Welcome, at most `waits` times.
fn await_welcome<P: Port>(
    port: &mut P,
    host: u16,
    hello: &Hello,
    waits: u32,
) -> Result<Option<Welcome>, PortFault>
    ensures answers { IfOk result (λ o. IfSome o (λ w. IsTrue (answers hello.now w))) }
    ensures failures { P.failure_count port.new ≡ counted result (P.failure_count port.old) }
    ensures time { P.rested port.new ≡ P.rested port.old }
{
    if waits == 0 {
        return Ok(None);
    }
    say_hello(port, host, hello)?;
    port.wait(WAIT);
    match receive_welcome(port, hello, MOST)? {
        Some(welcome) => Ok(Some(welcome)),
        None => await_welcome(port, host, hello, waits - 1),
    }
}

/// Says Hello to the host, twenty times in a second, until a Welcome comes that answers it. Other
/// datagrams are dropped. Returns `None` if no such Welcome came: then the host isn't there yet, or
/// it speaks version 1 alone.
///
/// Fails if a send or a receive fails.
pub fn arrive<P: Port>(port: &mut P, host: u16, hello: &Hello) -> Result<Option<Welcome>, PortFault>
    ensures answers { IfOk result (λ o. IfSome o (λ w. IsTrue (answers hello.now w))) }
    ensures failures { P.failure_count port.new ≡ counted result (P.failure_count port.old) }
    ensures time { P.rested port.new ≡ P.rested port.old }
{
    await_welcome(port, host, hello, WAITS)
}

fn begun(hello: &Hello) -> Arrival
    ensures { result ≡ spec.begun hello.now }
{
    let hello = *hello;
    Arrival {
        hello,
        age: ARRIVAL_MILLIS,
        run: None,
        is_bound: false,
        is_other: false,
        silence: 0,
    }
}

fn arrived(hello: &Hello, welcome: &Welcome) -> Arrival
    ensures { result ≡ spec.arrived hello.now welcome.now }
{
    let welcomed = after_event(&begun(hello), &ArrivalEvent::Welcomed(*welcome));
    let bound = after_event(&welcomed, &ArrivalEvent::Bound);
    with_cookie(&bound, &welcome.cookie)
}

/// Returns what a viewer knows of its run once a Welcome has answered its Hello. It is bound to
/// that run, since it asks for inputs at once. `seed` is the secret by which the Hello's nonce was
/// made.
pub fn met(hello: &Hello, seed: &[u8; 32], welcome: &Welcome) -> Greetings
    ensures { result ≡ spec.met hello.now seed.now welcome.now }
{
    let arrival = arrived(hello, welcome);
    let seed = *seed;
    Greetings {
        arrival,
        seed,
        since: 0,
        owes: welcome.cookie != hello.cookie,
        others: 0,
    }
}
