//! The command of a viewer, which reaches its host from a process of its own.

ghost use Rattle.app_words.specs.Words.{ViewInRange};

use crate::addresses::{hosts_of, may_all_be_reached, numbers_of};
use crate::doors::OverSocket;
use crate::ends::{tell_others, tell_port, tell_unsealed, tell_view_end};
use crate::meets::{WorldAt, met_port};
use crate::seated::{Seated, read_seated, rise};
use app_commands::{
    AddressedPort, AskingPort, ExactPort, HostsPort, KnockingPort, PatientPort, Peer, Seat,
    TellingPort, TimedPort, ViewerPort, Watch, bound, give_job, number_of, view_job,
};
use app_program::{Failure, RunFault, ShareFault, write_whole};
use app_serve::{End, Place, addresses_at, may_be_reached, viewer_key, world_of};
use app_words::{Order, OrderFault, ViewEnd, ViewOrder};
use share_keys::Key;
use share_peers::{local_address, own_address};
use share_sealed::SealedPort;
use share_session::WorldName;
use share_turns::{Port, ViewPlan};
use std::alloc::Global;
use std::io::{self, Eprint};
use std::net::SocketAddr;
use std::time::Clock;

/// How often a viewer that is done repeats its last ask. With 30 % of the datagrams lost, all of
/// them are lost once in 50,000 times.
const LAST_ASKS: u32 = 8;

/// The texts of a viewer's options, if they were given.
#[derive(Clone, Copy)]
pub struct ViewTexts<'a> {
    /// That of `--host`.
    pub host: Option<&'a str>,
    /// That of `--key`.
    pub key: Option<&'a str>,
    /// That of `--world`.
    pub world: Option<&'a str>,
}

/// How a viewer reaches its host.
#[derive(Clone, Copy)]
struct Door {
    key: Option<Key>,
    world: WorldName,
}

/// The peers that a viewer speaks to, by their numbers at its port.
#[derive(Clone, Copy)]
struct Peers {
    host: u16,
    /// The viewer that gets its snapshot, if one does.
    give: Option<u16>,
}

/// Returns what a viewer with this boot is asked to do before it gives.
fn view_plan(asked: &ViewOrder, boot: u32) -> ViewPlan {
    let until = match asked.end {
        ViewEnd::Until(until) => until,
        ViewEnd::Exactly(until) => until,
    };
    let join = if asked.join { Some(boot) } else { None };
    ViewPlan {
        until,
        forget: asked.forget,
        turns: asked.turns,
        join,
        give: None,
    }
}

/// Returns the last input that a viewer takes, if there is a last one.
fn last_input(asked: &ViewOrder) -> Option<u64> {
    match asked.end {
        ViewEnd::Until(_) => None,
        ViewEnd::Exactly(last) => Some(last),
    }
}

/// Returns the port that a viewer binds, or 0, a free one, if it asks for none.
fn own_port(asked: &ViewOrder) -> u16 {
    match asked.at {
        Some(port) => port,
        None => 0,
    }
}

fn print<R: Print>(rt: &R, text: &[u8]) -> Result<(), RunFault> {
    Ok(write_whole(&mut io::writer(rt), text)?)
}

/// Repeats a viewer's last ask, so that a host which waits for it ends even if some are lost.
fn repeat_ask<P: Port>(seat: &Seat, host: u16, port: &mut P) {
    for _ask in 0..LAST_ASKS {
        if port.send(host, seat.viewer.ask().as_slice()).is_err() {
            return;
        }
        port.wait(1);
    }
}

/// Repeats the last ask of a viewer that is done, and prints its text.
fn printed<R: Print, P: Port>(
    rt: &R,
    seat: &Seat,
    host: u16,
    text: Result<Vec<u8>, Failure>,
    port: &mut P,
) -> Result<(), Failure> {
    let text = text?;
    repeat_ask(seat, host, port);
    print(rt, text.as_slice())?;
    Ok(())
}

/// Gives the snapshot of a viewer whose text is printed, if it is asked to.
fn given<P: Port>(
    alloc: Global,
    seat: &Seat,
    asked: &ViewOrder,
    peers: Peers,
    port: &mut P,
) -> Result<(), ShareFault> {
    if let Some(to) = peers.give {
        give_job(alloc, seat, to, asked.give_turns, port)?;
    }
    Ok(())
}

/// Returns the result of a viewer's turns over a port. If the viewer's run ended, that is why.
fn ended<T: Drop, P>(done: Result<T, ShareFault>, port: &ViewerPort<P>) -> Result<T, Failure> {
    match done {
        Ok(done) => Ok(done),
        Err(fault) => Err(Failure::Share(port.failed_with(fault))),
    }
}

/// Returns how many datagrams without a right seal came to a viewer, up to 2^64 - 1.
fn unsealed_at<P: OverSocket>(port: &ViewerPort<P>) -> u64 {
    match port {
        ViewerPort::Plain(inner) => inner.unsealed(),
        ViewerPort::InRun(in_run) => in_run.port().unsealed(),
    }
}

/// Returns what is watched for a viewer with this boot.
fn watch_of(seat: &Seat, asked: &ViewOrder, boot: u32) -> Watch {
    Watch::new(seat.viewer.mark(), Peer::Viewer(boot), asked.has_address)
}

/// Runs a viewer at its port, which offers its points to a host, and prints its trace and its
/// scene. Then it gives its snapshot, if it is asked to.
fn viewed_at<R: AllocGlobal + Print + Eprint + Clock, P: Port + OverSocket + Drop>(
    rt: &R,
    viewer: &mut Seated<'_>,
    asked: &ViewOrder,
    peers: Peers,
    own: ViewerPort<P>,
) -> Result<(), Failure> {
    let plan = view_plan(asked, viewer.boot);
    let seat = &mut viewer.seat;
    let telling = TellingPort::new(own, rt, asked.verbose, watch_of(seat, asked, viewer.boot));
    let exact = ExactPort::new(telling, last_input(asked));
    let knocks = asked.join && asked.has_key;
    let knocking = KnockingPort::new(exact, rt, peers.host, seat.viewer.ask(), knocks);
    let mut port = PatientPort::new(knocking, rt);
    let text = view_job(rt.alloc(), seat, peers.host, &plan, &mut port);
    let mut port = port.into_port();
    let text = ended(text, port.port().port().port());
    let done = printed(rt, seat, peers.host, text, &mut port);
    let asking = AskingPort::new(port, rt, peers.host, seat.viewer.ask());
    let mut port = PatientPort::new(asking, rt);
    let done = match done {
        Ok(()) => {
            let given = given(rt.alloc(), seat, asked, peers, &mut port);
            ended(given, port.port().port().port().port().port())
        }
        Err(failure) => Err(failure),
    };
    let telling = port.port().port().port().port();
    let counts = telling.counts();
    tell_others(rt, asked.verbose, telling.port().others());
    tell_unsealed(rt, asked.verbose, unsealed_at(telling.port()));
    tell_view_end(rt, asked.verbose, seat.viewer.applied(), counts);
    done
}

/// Comes into the run of a viewer's host over its port, and runs the viewer.
fn met_and_viewed<P: Port + OverSocket + Drop>(
    rt: &HostRuntime,
    viewer: &mut Seated<'_>,
    asked: &ViewOrder,
    world: WorldName,
    peers: Peers,
    port: P,
) -> Result<(), Failure>
    requires { ViewInRange asked.now }
{
    let timed = TimedPort::new(port, rt);
    let host = peers.host;
    let met = met_port(
        rt,
        viewer.seat.viewer.mark(),
        asked,
        WorldAt { host, world },
        timed,
    )?;
    rise(rt.alloc(), viewer, asked, met.kept)?;
    viewed_at(rt, viewer, asked, peers, met.port)
}

/// Runs a viewer over its port, with its key if it has one, in its world.
fn sealed_and_viewed<P: Port + OverSocket + Drop>(
    rt: &HostRuntime,
    viewer: &mut Seated<'_>,
    asked: &ViewOrder,
    door: Door,
    peers: Peers,
    port: P,
) -> Result<(), Failure>
    requires { ViewInRange asked.now }
{
    let world = door.world;
    match door.key {
        Some(key) => { met_and_viewed(rt, viewer, asked, world, peers, SealedPort::new(port, key)) }
        None => met_and_viewed(rt, viewer, asked, world, peers, port),
    }
}

/// Runs a viewer whose host is at this port of 127.0.0.1.
fn viewed_here(
    rt: &HostRuntime,
    viewer: &mut Seated<'_>,
    asked: &ViewOrder,
    door: Door,
    host: u16,
) -> Result<(), Failure>
    requires { ViewInRange asked.now }
{
    let bound = bound(rt, own_port(asked))?;
    tell_port(rt, asked.verbose, number_of(&bound));
    let peers = Peers {
        host,
        give: asked.give,
    };
    sealed_and_viewed(rt, viewer, asked, door, peers, bound)
}

/// Returns the numbers of the peers of a viewer whose first host is at this address.
fn peers_at<R: Eprint>(
    port: &mut AddressedPort<R>,
    asked: &ViewOrder,
    first: &SocketAddr,
) -> Option<Peers> {
    let host = port.number_of(*first)?;
    let give = match asked.give {
        Some(give) => Some(port.number_of(local_address(first, give))?),
        None => None,
    };
    Some(Peers { host, give })
}

/// Runs a viewer whose hosts are at these addresses: one or more.
fn viewed_there(
    rt: &HostRuntime,
    viewer: &mut Seated<'_>,
    asked: &ViewOrder,
    door: Door,
    hosts: &[SocketAddr],
) -> Result<(), Failure>
    requires { ViewInRange asked.now }
{
    let Some(first) = hosts.first() else {
        return Err(Failure::Share(ShareFault::Port));
    };
    let own = own_address(first, own_port(asked));
    let mut bound = AddressedPort::bind(rt, rt.alloc(), own, asked.verbose)?;
    tell_port(rt, asked.verbose, bound.local_port());
    let numbers = numbers_of(rt.alloc(), &mut bound, hosts)?;
    let Some(peers) = peers_at(&mut bound, asked, first) else {
        return Err(Failure::Share(ShareFault::Port));
    };
    sealed_and_viewed(
        rt,
        viewer,
        asked,
        door,
        peers,
        HostsPort::new(bound, rt, numbers),
    )
}

/// Returns the key of the file that `--key` names, if it does.
fn key_of(rt: &HostRuntime, file: Option<&str>, who: u8) -> Result<Option<Key>, End> {
    match file {
        Some(file) => Ok(Some(viewer_key(rt, file, who)?)),
        None => Ok(None),
    }
}

/// Looks up the host of a viewer, reads its key, and runs it.
fn viewed(
    rt: &HostRuntime,
    viewer: &mut Seated<'_>,
    asked: &ViewOrder,
    texts: &ViewTexts<'_>,
) -> Result<(), End>
    requires { ViewInRange asked.now }
{
    let world = world_of(texts.world)?;
    let hosts = hosts_of(rt, texts.host)?;
    let key = key_of(rt, texts.key, asked.who)?;
    let door = Door { key, world };
    match (hosts, asked.port) {
        (Some(hosts), _) => {
            may_all_be_reached(&hosts, door.key.is_some(), asked.is_open)?;
            Ok(viewed_there(rt, viewer, asked, door, &hosts)?)
        }
        (None, Some(port)) => Ok(viewed_here(rt, viewer, asked, door, port)?),
        (None, None) => Err(End::from(OrderFault::Words)),
    }
}

/// Reads a job of points, runs its viewer, prints the trace and the scene, and then gives its
/// snapshot, if it is asked to.
pub fn view(
    rt: &HostRuntime,
    order: &Order,
    asked: &ViewOrder,
    texts: &ViewTexts<'_>,
) -> Result<(), End>
    requires { ViewInRange asked.now }
{
    let mut viewer = match read_seated(rt, order, asked) {
        Ok(viewer) => viewer,
        Err(fault) => return Err(End::from(fault)),
    };
    let done = viewed(rt, &mut viewer, asked, texts);
    // For the prover: an explicit call. The drop of a viewer would be proved at each exit.
    viewer.close();
    done
}
