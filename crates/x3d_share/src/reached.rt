//! A host at the socket of its place, which strangers may reach.

use crate::doors::{Door, OverSocket, Socket};
use crate::ends::tell_port;
use crate::hosts::{PORTS, Starting, run_over};
use crate::turns::HostLog;
use app_commands::{ADDRESSES, TimedPort};
use app_program::ShareFault;
use app_serve::{End, drawn_bytes};
use share_guards::{GuardedPort, Placed};
use share_keys::Keys;
use share_sealed::KeyedPort;
use share_turns::Port;

/// Returns how many peers a port has.
fn peers_at<P: OverSocket>(bound: &P) -> usize {
    if bound.has_numbers() {
        ADDRESSES as usize
    } else {
        PORTS
    }
}

/// Returns a port that answers strangers with no more bytes than they sent.
fn guarded_at<'a, P: Port + Placed + OverSocket + Drop>(
    rt: &'a HostRuntime,
    bound: P,
) -> Result<GuardedPort<TimedPort<P, &'a HostRuntime>>, End> {
    let secret = drawn_bytes(rt)?;
    let seed = drawn_bytes(rt)?;
    let peers = peers_at(&bound);
    let timed = TimedPort::new(bound, rt);
    match GuardedPort::new(rt.alloc(), timed, peers, secret, seed) {
        Ok(guarded) => Ok(guarded),
        Err(_refused) => Err(End::from(ShareFault::Memory)),
    }
}

/// Runs a host over its log at a port that answers strangers with no more bytes than they sent.
fn run_guarded<L: HostLog, P: Port + Placed + OverSocket + Drop>(
    rt: &HostRuntime,
    starting: Starting,
    verbose: bool,
    log: &mut L,
    bound: P,
) -> Result<(), End> {
    match guarded_at(rt, bound) {
        Ok(guarded) => run_over(rt, starting, verbose, log, guarded),
        Err(end) => {
            drop(starting);
            Err(end)
        }
    }
}

/// Runs a host over its log at a port that strangers reach, with its keys if it has some.
fn run_reached<L: HostLog, P: Port + Placed + OverSocket + Drop>(
    rt: &HostRuntime,
    starting: Starting,
    verbose: bool,
    log: &mut L,
    bound: P,
    keys: Option<Keys>,
) -> Result<(), End> {
    let Some(keys) = keys else {
        return run_guarded(rt, starting, verbose, log, bound);
    };
    let peers = peers_at(&bound);
    match KeyedPort::new(rt.alloc(), bound, peers, keys) {
        Ok(keyed) => run_guarded(rt, starting, verbose, log, keyed),
        Err(_refused) => {
            drop(starting);
            Err(End::from(ShareFault::Memory))
        }
    }
}

/// Runs a host over its log at a door. Only a host of this machine without keys serves all that
/// come.
pub fn run_at<L: HostLog>(
    rt: &HostRuntime,
    starting: Starting,
    verbose: bool,
    log: &mut L,
    door: Door<'_>,
) -> Result<(), End> {
    let Door { socket, keys } = door;
    tell_port(rt, verbose, socket.port());
    match (socket, keys) {
        (Socket::Local(bound), None) => run_over(rt, starting, verbose, log, bound),
        (Socket::Local(bound), keys) => run_reached(rt, starting, verbose, log, bound, keys),
        (Socket::Addressed(bound), keys) => run_reached(rt, starting, verbose, log, bound, keys),
    }
}
