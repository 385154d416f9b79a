//! The loop over the socket of all worlds.

use crate::end::End;
use crate::etcd::{EtcdWay, millis_now};
use crate::folder::Folder;
use crate::known::Served;
use crate::places::Place;
use crate::serving::Serving;
use crate::telling::tell_bound;
use crate::worlds::Worlds;
use app_program::ShareFault;
use mio::net::UdpSocket;
use mio::{Events, Interest, Poll, Token};
use share_turns::RECEIVED;
use std::alloc::Global;
use std::io::ErrorKind;
use std::net::{Ipv4Addr, SocketAddr, SocketAddrV4};
use std::time::Duration;

/// How many datagrams are received at most before worlds have their turns.
const MOST: u32 = 1_024;

/// How many milliseconds pass until the folder is read again.
const READING: u64 = 1_000;

/// What came of a receive.
enum Came {
    /// A datagram, or an error of the socket.
    One,
    /// A datagram, whose world has no room for another.
    Last,
    Nothing,
}

/// The socket of all worlds, and what waits for it.
#[derive(Drop)]
struct Gate {
    socket: UdpSocket,
    poll: Poll,
    events: Events<Global>,
    /// More datagrams may be there than were received.
    has_more: bool,
}

/// Returns the address of a place.
fn address_of(place: &Place) -> SocketAddr {
    match place {
        Place::Port(port) => SocketAddr::V4(SocketAddrV4::new(Ipv4Addr::LOCALHOST, *port)),
        Place::Address(address) => *address,
    }
}

/// Binds a socket. Fails with `Port` or `Memory`.
fn bound(rt: &HostRuntime, place: &Place) -> Result<Gate, ShareFault> {
    let Ok(mut socket) = UdpSocket::bind(rt, address_of(place)) else {
        return Err(ShareFault::Port);
    };
    let Ok(poll) = Poll::new(rt) else {
        return Err(ShareFault::Port);
    };
    let Ok(events) = Events::with_capacity(rt.alloc(), 4) else {
        return Err(ShareFault::Memory);
    };
    if poll
        .registry()
        .register(&mut socket, Token(0), Interest::READABLE)
        .is_err()
    {
        return Err(ShareFault::Port);
    }
    Ok(Gate {
        socket,
        poll,
        events,
        has_more: true,
    })
}

impl Gate {
    /// Waits until a datagram comes, or this many milliseconds have passed.
    fn wait(&mut self, millis: u64) {
        if self.has_more || millis == 0 {
            return;
        }
        let _waited = self
            .poll
            .poll(&mut self.events, Some(Duration::from_millis(millis)));
    }

    /// Receives a datagram, and hands it to its world.
    fn receive_one<'e, 'r>(
        &self,
        served: &Served<'_, 'e, 'r>,
        worlds: &mut Worlds<'e, 'r>,
    ) -> Came {
        let mut bytes = [0; RECEIVED];
        match self.socket.recv_from(&mut bytes) {
            Ok((_, from)) if from.port() == 0 => Came::One,
            Ok((count, from)) => {
                if worlds.deliver(served, from, &bytes[..count]) {
                    Came::One
                } else {
                    Came::Last
                }
            }
            Err(error) if error.kind() == ErrorKind::WouldBlock => Came::Nothing,
            Err(_) => Came::One,
        }
    }

    /// Receives datagrams until none is there, a world has no room, or as many came as come before
    /// the turns.
    fn receive<'e, 'r>(&mut self, served: &Served<'_, 'e, 'r>, worlds: &mut Worlds<'e, 'r>) {
        self.has_more = true;
        for _ in 0..MOST {
            match self.receive_one(served, worlds) {
                Came::One => {}
                Came::Last => return,
                Came::Nothing => {
                    self.has_more = false;
                    return;
                }
            }
        }
    }
}

/// The loop: the socket, the worlds, and when the folder was read.
#[derive(Drop)]
struct Turns<'e, 'r> {
    gate: Gate,
    worlds: Worlds<'e, 'r>,
    folder: Folder,
    read: u64,
}

impl<'e, 'r> Turns<'e, 'r> {
    /// Returns how many milliseconds there is nothing to do but to wait for datagrams.
    fn left(&self, now: u64) -> u64 {
        if !self.worlds.is_settled() || !self.worlds.is_looked() {
            return 0;
        }
        let left = self.read.saturating_add(READING).saturating_sub(now);
        left.min(self.worlds.wait(now))
    }

    /// Opens and closes worlds, and reads the folder if it is time.
    fn settle(&mut self, served: &Served<'_, 'e, 'r>) {
        if !self.worlds.is_settled() {
            self.worlds.settle_some(served);
        } else if self.read.saturating_add(READING) <= served.now {
            self.read = served.now;
            let _read = self.folder.read(served, &mut self.worlds);
            self.worlds.begin_looking();
        }
    }

    /// Asks etcd which worlds have changed, if it is time.
    fn look(&mut self, served: &Served<'_, 'e, 'r>) {
        if !self.worlds.is_looked() {
            self.worlds.look_some(served);
        }
    }

    /// Waits until there is something to do.
    fn wait(&mut self, now: u64) {
        let left = self.left(now);
        self.gate.wait(left);
    }

    /// Takes what came, and runs the turns of the worlds that are due.
    fn turn(&mut self, served: &Served<'_, 'e, 'r>) {
        self.gate.receive(served, &mut self.worlds);
        self.worlds.turns(served, &self.gate.socket);
        self.settle(served);
        self.look(served);
    }
}

/// Begins to serve: binds the socket, and reads the folder.
fn begun<'e, 'r>(served: &Served<'_, 'e, 'r>) -> Result<Turns<'e, 'r>, End> {
    let gate = bound(served.rt, &served.serving.place)?;
    if served.serving.verbose
        && let Ok(address) = gate.socket.local_addr()
    {
        tell_bound(served.rt, address.port());
    }
    let mut worlds = Worlds::none(served.rt.alloc());
    let mut folder = Folder::unread();
    folder.read(served, &mut worlds)?;
    Ok(Turns {
        gate,
        worlds,
        folder,
        read: served.now,
    })
}

/// Serves the worlds of a folder, whose logs are files there, or in etcd if there is a way to it.
/// Fails with `Port`, `Memory` or `NoFolder` at the start; after that it goes on until the process
/// is ended.
pub fn serve(
    rt: &HostRuntime,
    folder: &str,
    serving: &Serving,
    etcd: Option<EtcdWay<'_, '_>>,
) -> Result<(), End> {
    let mut served = Served {
        rt,
        folder,
        serving,
        etcd,
        now: millis_now(rt, 0),
    };
    let mut turns = begun(&served)?;
    for _ in 0..u64::MAX {
        turns.wait(served.now);
        served.now = millis_now(rt, served.now);
        turns.turn(&served);
    }
    drop(turns);
    Ok(())
}
