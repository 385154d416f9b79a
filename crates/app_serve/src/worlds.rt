//! The worlds of a folder.

use crate::end::End;
use crate::etcd::EtcdWay;
use crate::known::{Known, Served};
use crate::tails::{MOST_TAILS, revisions_of};
use app_logs::LogFault;
use mio::net::UdpSocket;
use share_session::{Session, WorldName};
use share_worlds::{Directory, is_due, wait_for, world_of};
use std::alloc::{AllocError, Global};
use std::mem;
use std::net::SocketAddr;

/// The worlds of a folder, each at a place.
#[derive(Drop)]
pub struct Worlds<'e, 'r> {
    known: Vec<Option<Known<'e, 'r>>>,
    /// When each is due.
    moments: Vec<Option<u64>>,
    directory: Directory,
    /// Up to this place worlds are opened or closed since the folder was read.
    settled: usize,
    /// Up to this place etcd was asked which worlds have changed.
    looked: usize,
}

/// How many worlds are opened at most before others have their turns.
const MOST_OPENED: usize = 8;

/// Returns the first free place.
fn free_place(known: &[Option<Known<'_, '_>>]) -> Option<usize> {
    known.iter().position(|there| there.is_none())
}

impl<'e, 'r> Worlds<'e, 'r> {
    /// Returns no worlds.
    pub fn none(alloc: Global) -> Worlds<'e, 'r> {
        Worlds {
            known: Vec::new(alloc),
            moments: Vec::new(alloc),
            directory: Directory::new(alloc),
            settled: 0,
            looked: 0,
        }
    }

    /// Returns how many milliseconds no world is due, at most 1,000.
    pub fn wait(&self, now: u64) -> u64 {
        wait_for(self.moments.as_slice(), now)
    }

    /// Begins to read the folder: none of the worlds is there.
    pub fn begin_reading(&mut self) {
        for there in self.known.iter_mut() {
            if let Some(known) = there {
                known.is_there = false;
            }
        }
    }

    /// Returns a free place.
    fn place(&mut self) -> Result<usize, AllocError> {
        if let Some(place) = free_place(self.known.as_slice()) {
            return Ok(place);
        }
        let place = self.known.len();
        self.moments.push(None)?;
        self.known.push(None)?;
        Ok(place)
    }

    /// Adds a world that wasn't opened.
    fn add(&mut self, name: &WorldName) -> Result<(), AllocError> {
        let place = self.place()?;
        let Ok(number) = u32::try_from(place) else {
            return Err(AllocError);
        };
        self.directory.add_name(name, number)?;
        if let Some(there) = self.known.get_mut(place) {
            drop(mem::replace(there, Some(Known::new(*name))));
        }
        Ok(())
    }

    /// Notes that the job of a world is there.
    pub fn note(&mut self, name: &WorldName) -> Result<(), AllocError> {
        let Some(place) = self.directory.at_name(name) else {
            return self.add(name);
        };
        if let Some(Some(known)) = self.known.get_mut(place as usize) {
            known.is_there = true;
        }
        Ok(())
    }

    fn set_moment(&mut self, place: usize, moment: Option<u64>) {
        if let Some(there) = self.moments.get_mut(place) {
            *there = moment;
        }
    }

    /// Takes the session of a world out of the directory, if it runs.
    fn forget_session(&mut self, place: usize) {
        if let Some(Some(known)) = self.known.get(place)
            && let Some(session) = known.session()
        {
            self.directory.remove_session(&session);
        }
        self.set_moment(place, None);
    }

    /// Ends a world that failed.
    fn refuse(&mut self, served: &Served<'_, 'e, 'r>, place: usize, end: &End) {
        self.forget_session(place);
        if let Some(Some(known)) = self.known.get_mut(place) {
            known.refuse(served, end);
        }
    }

    /// Closes a world whose job isn't there any more.
    fn close(&mut self, served: &Served<'_, 'e, 'r>, place: usize) {
        self.forget_session(place);
        if let Some(there) = self.known.get_mut(place) {
            if let Some(known) = there {
                known.close(served);
                self.directory.remove_name(&known.name);
            }
            drop(mem::replace(there, None));
        }
    }

    /// Gives a session its place. Fails with `LogBusy` if another world has it, and with `Memory`.
    fn add_session(&mut self, session: &Session, place: usize) -> Result<(), LogFault> {
        if self.directory.at_session(session).is_some() {
            return Err(LogFault::LogBusy);
        }
        let Ok(number) = u32::try_from(place) else {
            return Err(LogFault::Memory);
        };
        match self.directory.add_session(session, number) {
            Ok(()) => Ok(()),
            Err(_) => Err(LogFault::Memory),
        }
    }

    /// Gives the session of a world that was opened its place, like `add_session`.
    fn enter(&mut self, place: usize) -> Result<(), LogFault> {
        let Some(Some(known)) = self.known.get(place) else {
            return Ok(());
        };
        let Some(session) = known.session() else {
            return Ok(());
        };
        self.add_session(&session, place)?;
        self.set_moment(place, Some(0));
        Ok(())
    }

    /// Opens a world that doesn't run.
    fn open(&mut self, served: &Served<'_, 'e, 'r>, place: usize) {
        let done = match self.known.get_mut(place) {
            Some(Some(known)) => known.open(served),
            _ => Ok(()),
        };
        if let Err(end) = done {
            self.refuse(served, place, &end);
            return;
        }
        if let Err(fault) = self.enter(place)
            && let Some(Some(known)) = self.known.get_mut(place)
        {
            known.refuse(served, &End::Log(fault));
        }
    }

    /// Opens or closes the world at a place, after the folder was read. Returns whether it was
    /// opened.
    fn settle(&mut self, served: &Served<'_, 'e, 'r>, place: usize) -> bool {
        let Some(Some(known)) = self.known.get(place) else {
            return false;
        };
        if !known.is_there {
            self.close(served, place);
            return false;
        }
        if known.runs() {
            return false;
        }
        self.open(served, place);
        true
    }

    /// Begins to open the worlds that came, and those that were refused and whose files changed,
    /// and to close those that went.
    pub fn begin_settling(&mut self) {
        self.settled = 0;
    }

    /// Reports whether all worlds are opened or closed since the folder was read.
    pub fn is_settled(&self) -> bool {
        self.settled >= self.known.len()
    }

    /// Opens or closes worlds, until all are or some were opened.
    pub fn settle_some(&mut self, served: &Served<'_, 'e, 'r>) {
        let mut opened = 0;
        for place in self.settled..self.known.len() {
            if opened >= MOST_OPENED {
                return;
            }
            if self.settle(served, place) {
                opened += 1;
            }
            self.settled = place + 1;
        }
    }

    /// Adds the worlds that run from a place on to lists of places and of names, until these have
    /// as many as are asked for at once. Returns the place after the last.
    fn list_from(
        &self,
        first: usize,
        places: &mut Vec<usize>,
        names: &mut Vec<WorldName>,
    ) -> Result<usize, AllocError> {
        for place in first..self.known.len() {
            if names.len() >= MOST_TAILS {
                return Ok(place);
            }
            if let Some(Some(known)) = self.known.get(place)
                && known.runs()
            {
                places.push(place)?;
                names.push(known.name)?;
            }
        }
        Ok(self.known.len())
    }

    /// Notes the revision that the tail of a world has in etcd. It is due if that is another one.
    fn note_tail(&mut self, place: usize, revision: u64) {
        let changed = match self.known.get_mut(place) {
            Some(Some(known)) => known.note_tail(revision),
            _ => false,
        };
        if changed {
            self.set_moment(place, Some(0));
        }
    }

    /// Asks etcd for the tails of worlds, and notes them.
    fn ask_tails(&mut self, alloc: Global, way: EtcdWay<'e, 'r>) -> Result<(), AllocError> {
        let mut places = Vec::new(alloc);
        let mut names = Vec::new(alloc);
        self.looked = self.list_from(self.looked, &mut places, &mut names)?;
        if names.is_empty() {
            return Ok(());
        }
        let mut way = way;
        let revisions = revisions_of(alloc, &mut way, names.as_slice())?;
        for (place, revision) in places.iter().zip(revisions.iter()) {
            self.note_tail(*place, *revision);
        }
        Ok(())
    }

    /// Begins to ask etcd which worlds have changed.
    pub fn begin_looking(&mut self) {
        self.looked = 0;
    }

    /// Reports whether etcd was asked for all worlds.
    pub fn is_looked(&self) -> bool {
        self.looked >= self.known.len()
    }

    /// Asks etcd which of some worlds have changed since it was asked, by one transaction, unless
    /// it isn't asked now. Without memory they count as unchanged.
    pub fn look_some(&mut self, served: &Served<'_, 'e, 'r>) {
        let Some(way) = served.etcd else {
            self.looked = self.known.len();
            return;
        };
        if way.is_shut(served.now) || self.ask_tails(served.rt.alloc(), way).is_err() {
            self.looked = self.known.len();
        }
    }

    /// Hands a datagram to its world, if there is one. Returns whether the world has room for
    /// another.
    pub fn deliver(&mut self, served: &Served<'_, 'e, 'r>, from: SocketAddr, bytes: &[u8]) -> bool {
        let Some(place) = self.directory.place_of(&world_of(bytes)) else {
            return true;
        };
        let place = place as usize;
        let done = match self.known.get_mut(place) {
            Some(Some(known)) => known.arrive(served, from, bytes),
            _ => Ok(true),
        };
        match done {
            Ok(has_room) => {
                self.set_moment(place, Some(0));
                has_room
            }
            Err(end) => {
                self.refuse(served, place, &end);
                true
            }
        }
    }

    /// Runs a turn of the world at a place.
    fn turn(&mut self, served: &Served<'_, 'e, 'r>, place: usize, socket: &UdpSocket) {
        let done = match self.known.get_mut(place) {
            Some(Some(known)) => known.turn(served, socket),
            _ => Ok(None),
        };
        match done {
            Ok(moment) => self.set_moment(place, moment),
            Err(end) => self.refuse(served, place, &end),
        }
    }

    fn is_due(&self, place: usize, now: u64) -> bool {
        match self.moments.get(place) {
            Some(moment) => is_due(*moment, now),
            None => false,
        }
    }

    /// Runs a turn of each world that is due.
    pub fn turns(&mut self, served: &Served<'_, 'e, 'r>, socket: &UdpSocket) {
        for place in 0..self.moments.len() {
            if self.is_due(place, served.now) {
                self.turn(served, place, socket);
            }
        }
    }
}
