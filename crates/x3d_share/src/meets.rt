//! How a viewer comes into the run of its host.

ghost use Rattle.app_words.specs.Words.{ViewInRange};

use app_commands::{Meeting, ViewerPort, meet};
use app_program::{Failure, RunFault, ShareFault};
use app_words::ViewOrder;
use share_runs::{ViewPort, ViewerRun, met};
use share_session::{Hello, SeatNumber, Welcome, WorldName};
use share_turns::Port;
use std::alloc::Global;
use std::random::RandomSource;
use std::time::Clock;

/// For how long a viewer that may speak version 1 says Hello again, and for how long one that may
/// not, in milliseconds. The last Hello has a second more to be answered.
const MOST_MILLIS: u64 = 900;

const MOST_MILLIS_IN_RUN: u64 = 9_500;

/// What a viewer draws at random: the nonce of its first Hello, and the secret by which others are
/// made.
#[derive(Clone, Copy)]
struct Drawn {
    nonce: [u8; 16],
    seed: [u8; 32],
}

/// Fails with `Device` if the system has no random bytes.
fn draw<R: RandomSource>(rt: &R) -> Result<Drawn, Failure> {
    let mut nonce = [0; 16];
    let mut seed = [0; 32];
    if rt.fill_bytes(&mut nonce).is_err() || rt.fill_bytes(&mut seed).is_err() {
        return Err(Failure::Run(RunFault::Device));
    }
    Ok(Drawn { nonce, seed })
}

/// A world, and the peer that is its host. A host that has one world answers to the empty name.
#[derive(Clone, Copy)]
pub struct WorldAt {
    pub host: u16,
    pub world: WorldName,
}

/// The port of a viewer.
#[derive(Drop)]
pub struct MetPort<P> {
    pub port: ViewerPort<P>,
    /// The last boot that its host knows of the viewer, or 0; `None` if no host welcomed it.
    pub kept: Option<u32>,
}

/// Returns the port of a viewer that speaks version 1.
fn plain<P: Drop>(port: P) -> MetPort<P> {
    MetPort {
        port: ViewerPort::Plain(port),
        kept: None,
    }
}

/// Reports whether a viewer speaks version 2 alone.
fn demands_run(asked: &ViewOrder) -> bool {
    asked.wire == Some(2) || asked.has_key || asked.has_address || asked.has_world
}

/// Returns how a viewer of the scene with this mark meets its host.
fn meeting_of(mark: [u8; 32], asked: &ViewOrder, there: WorldAt, drawn: &Drawn) -> Meeting
    requires { ViewInRange asked.now }
{
    let nonce = drawn.nonce;
    let seed = drawn.seed;
    let hello = Hello {
        mark,
        who: SeatNumber::new(asked.who),
        cookie: [0; 8],
        nonce,
        name: there.world,
    };
    let most = if demands_run(asked) {
        MOST_MILLIS_IN_RUN
    } else {
        MOST_MILLIS
    };
    Meeting {
        host: there.host,
        hello,
        seed,
        most,
    }
}

/// Returns the port of a viewer that was welcomed to a run.
fn in_run<P: Drop>(
    alloc: Global,
    port: P,
    meeting: &Meeting,
    hello: &Hello,
    welcome: &Welcome,
) -> Result<MetPort<P>, Failure> {
    let Ok(run) = ViewerRun::new(alloc, hello.mark, welcome.run) else {
        return Err(Failure::Share(ShareFault::Memory));
    };
    let greetings = met(hello, &meeting.seed, welcome);
    Ok(MetPort {
        port: ViewerPort::InRun(ViewPort::new(port, meeting.host, run, greetings)),
        kept: Some(welcome.kept),
    })
}

/// Returns the port of a viewer that no host welcomed: by version 1, if the viewer may speak it.
fn alone<P: Drop>(port: P, asked: &ViewOrder) -> Result<MetPort<P>, Failure> {
    if demands_run(asked) {
        Err(Failure::Share(ShareFault::NoWelcome))
    } else {
        Ok(plain(port))
    }
}

/// Returns the port of a viewer of the scene with this mark, over `port`: in the run that its host,
/// `there`, welcomes it to, or by version 1.
///
/// Fails with `NoWelcome` if the viewer demands a run and no host welcomes it, with `Port` if a
/// send or a receive fails, with `Device` if the system has no random bytes, and with `Memory`.
pub fn met_port<R: AllocGlobal + RandomSource + Clock, P: Port + Drop>(
    rt: &R,
    mark: [u8; 32],
    asked: &ViewOrder,
    there: WorldAt,
    port: P,
) -> Result<MetPort<P>, Failure>
    requires { ViewInRange asked.now }
{
    if asked.wire == Some(1) {
        return Ok(plain(port));
    }
    let drawn = draw(rt)?;
    let meeting = meeting_of(mark, asked, there, &drawn);
    let mut port = port;
    match meet(&mut port, rt, &meeting) {
        Ok(Some(met)) => in_run(rt.alloc(), port, &meeting, &met.hello, &met.welcome),
        Ok(None) => alone(port, asked),
        Err(_) => Err(Failure::Share(ShareFault::Port)),
    }
}
