//! The places of worlds, by session and by name.

ghost use Rattle.std.specs.Prelude.{◌≡◌, ◌≤◌, ◌-◌, ◌++◌, OnOk, OnErr, None, Some, length, replicate, drop};
ghost use Rattle.share_worlds.specs.Places as spec;

use crate::wanted::For;
use share_session::WorldName;
use std::alloc::{AllocError, Global};
use std::collections::BTreeMap;

/// The longest name of a world, in bytes.
const MAX_NAME: usize = 64;

/// The places of worlds. Each name has one place at most, and so does each session.
#[derive(Drop)]
pub struct Directory {
    sessions: BTreeMap<[u8; 16], u32>,
    names: BTreeMap<[u8; 64], u32>,
}

/// Copies the text to the front.
fn put_front(all: &mut [u8; MAX_NAME], text: &[u8])
    requires { length text.now ≤ 64 }
    ensures { all.new ≡ text.now ++ drop (length text.now) all.old }
{
    all[..text.len()].copy_from_slice(text);
}

/// Returns a text with zeros after it.
fn padded(text: &[u8]) -> [u8; MAX_NAME]
    requires { length text.now ≤ 64 }
    ensures { result ≡ text.now ++ replicate (64 - length text.now) 0 }
{
    let mut all = [0; MAX_NAME];
    put_front(&mut all, text);
    all
}

fn key_of(text: &[u8]) -> [u8; MAX_NAME]
    ensures { result ≡ spec.key_of text.now }
{
    if text.len() <= MAX_NAME {
        padded(text)
    } else {
        [0; MAX_NAME]
    }
}

/// Returns the bytes of a name with zeros after them.
fn key_by(name: &WorldName) -> [u8; MAX_NAME]
    ensures { result ≡ spec.name_key name.now }
{
    key_of(name.text())
}

impl Directory {
    /// Returns a directory without worlds.
    #[tactic(auto, unfolding(crate::specs::Places::sessions_of, crate::specs::Places::names_of))]
    pub fn new(alloc: Global) -> Directory
        ensures sessions { spec.sessions_of result ≡ spec.no_places }
        ensures names { spec.names_of result ≡ spec.no_places }
    {
        Directory {
            sessions: BTreeMap::new(alloc),
            names: BTreeMap::new(alloc),
        }
    }

    /// Returns the place of the world with this name, if there is one.
    #[tactic(auto, unfolding(crate::specs::Places::sessions_of, crate::specs::Places::names_of))]
    pub fn at_name(&self, name: &WorldName) -> Option<u32>
        ensures { result ≡ spec.names_of self.now (spec.name_key name.now) }
    {
        let key = key_by(name);
        self.names.get(&key).copied()
    }

    /// Returns the place of the world of this session, if there is one.
    #[tactic(auto, unfolding(crate::specs::Places::sessions_of, crate::specs::Places::names_of))]
    pub fn at_session(&self, session: &[u8; 16]) -> Option<u32>
        ensures { result ≡ spec.sessions_of self.now session.now }
    {
        self.sessions.get(session).copied()
    }

    /// Returns the place of the world that a datagram is for, if there is one.
    pub fn place_of(&self, wanted: &For) -> Option<u32>
        ensures { result
            ≡ spec.place_in (spec.sessions_of self.now) (spec.names_of self.now) wanted.now }
    {
        match wanted {
            For::Session(session) => self.at_session(session),
            For::Name(name) => self.at_name(name),
            For::Nothing => None,
        }
    }

    /// Gives a name a place. Fails if memory is refused; nothing changes then.
    #[tactic(auto, unfolding(crate::specs::Places::sessions_of, crate::specs::Places::names_of))]
    pub fn add_name(&mut self, name: &WorldName, place: u32) -> Result<(), AllocError>
        ensures names { OnOk result (spec.names_of self.new
            ≡ spec.with_place (spec.name_key name.now) (Some place) (spec.names_of self.old)) }
        ensures unchanged { OnErr result (spec.names_of self.new ≡ spec.names_of self.old) }
        ensures sessions { spec.sessions_of self.new ≡ spec.sessions_of self.old }
    {
        match self.names.insert(key_by(name), place) {
            Ok(_) => Ok(()),
            Err(_) => Err(AllocError),
        }
    }

    /// Gives a session a place. Fails if memory is refused; nothing changes then.
    #[tactic(auto, unfolding(crate::specs::Places::sessions_of, crate::specs::Places::names_of))]
    pub fn add_session(&mut self, session: &[u8; 16], place: u32) -> Result<(), AllocError>
        ensures sessions { OnOk result (spec.sessions_of self.new
            ≡ spec.with_place session.now (Some place) (spec.sessions_of self.old)) }
        ensures unchanged { OnErr result (spec.sessions_of self.new ≡ spec.sessions_of self.old) }
        ensures names { spec.names_of self.new ≡ spec.names_of self.old }
    {
        match self.sessions.insert(*session, place) {
            Ok(_) => Ok(()),
            Err(_) => Err(AllocError),
        }
    }

    /// Takes the place of a name away.
    #[tactic(auto, unfolding(crate::specs::Places::sessions_of, crate::specs::Places::names_of))]
    pub fn remove_name(&mut self, name: &WorldName)
        ensures names { spec.names_of self.new
            ≡ spec.with_place (spec.name_key name.now) None (spec.names_of self.old) }
        ensures sessions { spec.sessions_of self.new ≡ spec.sessions_of self.old }
    {
        let key = key_by(name);
        let _place = self.names.remove(&key);
    }

    /// Takes the place of a session away.
    #[tactic(auto, unfolding(crate::specs::Places::sessions_of, crate::specs::Places::names_of))]
    pub fn remove_session(&mut self, session: &[u8; 16])
        ensures sessions { spec.sessions_of self.new
            ≡ spec.with_place session.now None (spec.sessions_of self.old) }
        ensures names { spec.names_of self.new ≡ spec.names_of self.old }
    {
        let _place = self.sessions.remove(session);
    }
}
