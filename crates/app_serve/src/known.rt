//! A world of the folder, which runs or was refused.

use crate::end::End;
use crate::etcd::EtcdWay;
use crate::opening::open_world;
use crate::serving::Serving;
use crate::stamps::{Stamps, stamps_of};
use crate::telling::{tell_closed, tell_opened, tell_refused};
use crate::world::World;
use app_logs::LogFault;
use app_words::OrderFault;
use mio::net::UdpSocket;
use share_session::{Session, WorldName};
use share_worlds::is_due;
use std::mem;
use std::net::SocketAddr;

/// What the process serves, and from which folder.
#[derive(Clone, Copy)]
pub struct Served<'a, 'e, 'r> {
    pub rt: &'a HostRuntime,
    pub folder: &'a str,
    pub serving: &'a Serving,
    /// The way to etcd, if the logs are there.
    pub etcd: Option<EtcdWay<'e, 'r>>,
    /// The time in milliseconds.
    pub now: u64,
}

impl Served<'_, '_, '_> {
    /// Reports whether the logs are in etcd, which didn't answer a short while ago.
    pub fn is_shut(&self) -> bool {
        match self.etcd {
            Some(way) => way.is_shut(self.now),
            None => false,
        }
    }
}

/// The most datagrams that leave after a turn.
const MOST_LEAVING: u32 = 256;

/// After this many milliseconds a world is tried again whose log didn't answer.
const AGAIN: u64 = 3_000;

/// A world of the folder, which runs or was refused.
#[derive(Drop)]
pub struct Known<'e, 'r> {
    pub name: WorldName,
    /// Its job was there when the folder was read.
    pub is_there: bool,
    /// Those of its files when it was refused.
    stamps: Option<Stamps>,
    /// When it is tried again even if its files are those.
    again: Option<u64>,
    /// It was told that its log doesn't answer, and it wasn't opened since.
    is_told: bool,
    /// A base took inputs that it lacked, so its log in etcd is opened again, and not made.
    is_overtaken: bool,
    world: Option<Box<World<'e, 'r>>>,
}

/// Reports whether a world may be opened later with the same files: its log may answer then.
fn may_pass(end: &End) -> bool {
    match end {
        End::EtcdSilent | End::InDoubt => true,
        End::Log(LogFault::Device) => true,
        // A base may have come between two readings.
        End::Log(LogFault::LogDamaged(_)) => true,
        _ => false,
    }
}

impl<'e, 'r> Known<'e, 'r> {
    /// Returns a world that wasn't opened.
    pub fn new(name: WorldName) -> Known<'e, 'r> {
        Known {
            name,
            is_there: true,
            stamps: None,
            again: None,
            is_told: false,
            is_overtaken: false,
            world: None,
        }
    }

    /// Reports whether the world runs.
    pub fn runs(&self) -> bool {
        self.world.is_some()
    }

    /// Returns the session of the world, if it runs.
    pub fn session(&self) -> Option<Session> {
        match &self.world {
            Some(world) => Some(world.session),
            None => None,
        }
    }

    /// Reports whether the world was refused, its files are still those, and it isn't time to try
    /// it again.
    fn is_unchanged(&self, found: &Option<Stamps>, now: u64) -> bool {
        self.stamps.is_some() && self.stamps == *found && !is_due(self.again, now)
    }

    /// Has a world run that was opened.
    fn enter(&mut self, served: &Served<'_, 'e, 'r>, world: World<'e, 'r>) -> Result<(), End> {
        if served.serving.verbose {
            tell_opened(served.rt, &self.name, world.log.len());
        }
        self.again = None;
        self.is_told = false;
        self.is_overtaken = false;
        match Box::new(served.rt.alloc(), world) {
            Ok(world) => {
                drop(mem::replace(&mut self.world, Some(world)));
                Ok(())
            }
            Err(_) => Err(End::from(OrderFault::Memory)),
        }
    }

    /// Opens the world, unless it was refused and its files didn't change. Fails with `EtcdSilent`
    /// if etcd isn't asked now.
    pub fn open(&mut self, served: &Served<'_, 'e, 'r>) -> Result<(), End> {
        let found = stamps_of(served.rt, served.folder, &self.name).ok();
        if self.is_unchanged(&found, served.now) {
            return Ok(());
        }
        if served.is_shut() {
            return Err(End::EtcdSilent);
        }
        self.stamps = found;
        let world = open_world(served, &self.name, !self.is_overtaken)?;
        self.enter(served, world)
    }

    /// Tells why the world ended, unless it was told that its log doesn't answer and still doesn't.
    fn tell(&mut self, served: &Served<'_, 'e, 'r>, end: &End) {
        let passes = served.etcd.is_some() && may_pass(end);
        if !passes || !self.is_told {
            tell_refused(served.rt, &self.name, end);
        }
        self.is_told = passes;
        self.again = if passes {
            Some(served.now.saturating_add(AGAIN))
        } else {
            None
        };
    }

    /// Reports whether a world that runs ended since etcd lacks its next inputs: a base may have
    /// taken them while the process was held up.
    fn lags(&self, served: &Served<'_, 'e, 'r>, end: &End) -> bool {
        served.etcd.is_some() && self.runs() && matches!(end, End::EtcdMalformed)
    }

    /// Tells why the world ended, which isn't opened again until its files change, or a few seconds
    /// have passed if its log is in etcd and didn't answer. If a base took its next inputs it is
    /// opened again at once.
    pub fn refuse(&mut self, served: &Served<'_, 'e, 'r>, end: &End) {
        self.is_overtaken = self.lags(served, end);
        if self.is_overtaken {
            self.again = Some(served.now);
        } else {
            self.tell(served, end);
        }
        drop(mem::replace(&mut self.world, None));
        self.stamps = stamps_of(served.rt, served.folder, &self.name).ok();
    }

    /// Tells that the world is closed, if it runs.
    pub fn close(&self, served: &Served<'_, 'e, 'r>) {
        if served.serving.verbose
            && let Some(world) = &self.world
        {
            tell_closed(served.rt, &self.name, world.stack.lost());
        }
    }

    /// Adds a datagram to those that the world will receive, or drops it if its log doesn't answer.
    /// Returns whether there is room for another.
    pub fn arrive(
        &mut self,
        served: &Served<'_, 'e, 'r>,
        from: SocketAddr,
        bytes: &[u8],
    ) -> Result<bool, End> {
        let Some(world) = &mut self.world else {
            return Ok(true);
        };
        if world.opens(served.now).is_some() {
            return Ok(true);
        }
        world.wake(served.rt.alloc(), served.serving, served.now)?;
        world.stack.arrive(from, bytes);
        Ok(world.stack.has_room())
    }

    /// Runs a turn of the world. Returns when it is due again.
    pub fn turn(
        &mut self,
        served: &Served<'_, 'e, 'r>,
        socket: &UdpSocket,
    ) -> Result<Option<u64>, End> {
        let Some(world) = &mut self.world else {
            return Ok(None);
        };
        world.turn(served.rt.alloc(), served.serving, served.now)?;
        send_all(world, socket);
        world.base_if_due(served, &self.name)?;
        Ok(world.moment(served.serving.every, served.now))
    }

    /// Notes the revision that the tail of its log has in etcd. Returns whether it reads on now.
    pub fn note_tail(&mut self, revision: u64) -> bool {
        match &mut self.world {
            Some(world) => world.note_tail(revision),
            None => false,
        }
    }
}

/// Sends what leaves a world. What the system doesn't take is lost.
fn send_all(world: &mut World<'_, '_>, socket: &UdpSocket) {
    for _ in 0..MOST_LEAVING {
        let Some(parcel) = world.stack.leave() else {
            return;
        };
        let _sent = socket.send_to(parcel.bytes.as_slice(), parcel.address);
    }
}
