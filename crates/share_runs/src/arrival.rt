//! What a viewer knows of its run.

ghost use Rattle.std.specs.Prelude.{◌≡◌};
ghost use Rattle.share_runs.specs.Arrival as spec;

use share_session::{Hello, Run, Welcome};

/// The longest time for which a Hello may be answered, in milliseconds.
pub const MAX_AGE: u32 = 5_000;

/// The time after which a viewer ends if other runs alone answered, in milliseconds.
pub const MAX_SILENCE: u32 = 10_000;

/// What a viewer knows of its run. Times are in milliseconds and at most `MAX_SILENCE`.
#[derive(Clone, Copy)]
pub struct Arrival {
    /// What the viewer says.
    pub hello: Hello,
    /// The time since the nonce of the Hello was drawn.
    pub age: u32,
    /// The run that the viewer is in.
    pub run: Option<Run>,
    /// Whether the viewer has applied an input or made an offer in its run.
    pub is_bound: bool,
    /// Whether another run has answered since its own was heard.
    pub is_other: bool,
    /// The time since its own run was heard.
    pub silence: u32,
}

/// What happens to a viewer.
#[derive(Clone, Copy)]
pub enum ArrivalEvent {
    /// A nonce was drawn for its next Hellos.
    Drawn([u8; 16]),
    /// Milliseconds passed.
    Passed(u32),
    /// A Welcome came.
    Welcomed(Welcome),
    /// A datagram of its run came.
    Heard,
    /// It applied an input or made an offer.
    Bound,
}

pub(crate) fn later(time: u32, millis: u32) -> u32
    ensures { result ≡ spec.later time millis }
{
    let sum = u64::from(time) + u64::from(millis);
    sum.min(u64::from(MAX_SILENCE)) as u32
}

pub(crate) fn is_own(own: &Option<Run>, run: &Run) -> bool
    ensures { result ≡ spec.is_own own.now run.now }
{
    match own {
        None => false,
        Some(own) => *own == *run,
    }
}

pub(crate) fn is_taken(arrival: &Arrival, welcome: &Welcome) -> bool
    ensures { result ≡ spec.is_taken arrival.now welcome.now }
{
    arrival.age <= MAX_AGE && welcome.answers(&arrival.hello)
}

fn in_run(arrival: &Arrival, run: &Run) -> Arrival
    ensures { result ≡ spec.in_run arrival.now run.now }
{
    let mut made = *arrival;
    let run = *run;
    made.run = Some(run);
    made.is_other = false;
    made.silence = 0;
    made
}

fn among_others(arrival: &Arrival) -> Arrival
    ensures { result ≡ spec.among_others arrival.now }
{
    let mut made = *arrival;
    made.is_other = true;
    made
}

fn welcomed(arrival: &Arrival, run: &Run) -> Arrival
    ensures { result ≡ spec.welcomed arrival.now run.now }
{
    if arrival.is_bound && !is_own(&arrival.run, run) {
        among_others(arrival)
    } else {
        in_run(arrival, run)
    }
}

fn drawn(arrival: &Arrival, nonce: &[u8; 16]) -> Arrival
    ensures { result ≡ spec.drawn arrival.now nonce.now }
{
    let mut hello = arrival.hello;
    let nonce = *nonce;
    hello.nonce = nonce;
    let mut made = *arrival;
    made.hello = hello;
    made.age = 0;
    made
}

fn passed(arrival: &Arrival, millis: u32) -> Arrival
    ensures { result ≡ spec.passed arrival.now millis }
{
    let mut made = *arrival;
    made.age = later(arrival.age, millis);
    made.silence = later(arrival.silence, millis);
    made
}

/// Returns what a viewer knows after an event.
pub fn after_event(arrival: &Arrival, event: &ArrivalEvent) -> Arrival
    ensures { result ≡ spec.after_event arrival.now event.now }
{
    match event {
        ArrivalEvent::Drawn(nonce) => drawn(arrival, nonce),
        ArrivalEvent::Passed(millis) => passed(arrival, *millis),
        ArrivalEvent::Welcomed(welcome) => {
            if is_taken(arrival, welcome) {
                welcomed(arrival, &welcome.run)
            } else {
                *arrival
            }
        }
        ArrivalEvent::Heard => {
            let mut made = *arrival;
            made.is_other = false;
            made.silence = 0;
            made
        }
        ArrivalEvent::Bound => {
            let mut made = *arrival;
            made.is_bound = true;
            made
        }
    }
}

/// Reports whether the viewer's run is over: it has applied an input or made an offer, and for
/// `MAX_SILENCE` other runs alone have answered.
pub fn is_over(arrival: &Arrival) -> bool
    ensures { result ≡ spec.is_over arrival.now }
{
    arrival.is_bound && arrival.is_other && arrival.silence >= MAX_SILENCE
}

/// A viewer that has applied an input or made an offer stays in its run, whatever comes.
pub fn bound_viewers_stay()
    ensures { spec.BoundStay }
{}
