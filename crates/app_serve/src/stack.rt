//! The ports of a world, one over the other.

ghost use Rattle.std.specs.Prelude.{◌≤◌, length};
ghost use Rattle.share_turns.specs.Told.{max_received};

use script_boxes::StockScript;
use share_guards::GuardedPort;
use share_keeping::KeepingPort;
use share_sealed::KeyedPort;
use share_welcomes::HostPort;
use share_worlds::{Parcel, WorldPort};
use std::net::SocketAddr;

/// The ports of a world with keys.
pub type KeyedStack = KeepingPort<StockScript, HostPort<GuardedPort<KeyedPort<WorldPort>>>>;

/// The ports of a world: without keys, or with keys, which keep it.
#[derive(Drop)]
pub enum Stack {
    Open(HostPort<GuardedPort<WorldPort>>),
    Keyed(KeyedStack),
}

/// How many bytes of a datagram are received, as a `Port` does it.
const MOST_BYTES: usize = 289;

/// Returns the bytes of a datagram that are received.
fn front_of(bytes: &[u8]) -> &[u8]
    ensures { length result.now ≤ max_received }
{
    let count = bytes.len().min(MOST_BYTES);
    &bytes[..count]
}

impl Stack {
    /// Returns the port below all others.
    fn lowest(&self) -> &WorldPort {
        match self {
            Stack::Open(port) => port.port().port(),
            Stack::Keyed(port) => port.port().port().port().port(),
        }
    }

    fn lowest_mut(&mut self) -> &mut WorldPort {
        match self {
            Stack::Open(port) => port.port_mut().port_mut(),
            Stack::Keyed(port) => port.port_mut().port_mut().port_mut().port_mut(),
        }
    }

    /// Reports whether datagrams arrived that weren't received yet.
    pub fn has_arrived(&self) -> bool {
        self.lowest().has_arrived()
    }

    /// Reports whether another datagram that arrives isn't lost.
    pub fn has_room(&self) -> bool {
        self.lowest().has_room()
    }

    /// Returns how many datagrams were lost for lack of room, up to 2^64 - 1.
    pub fn lost(&self) -> u64 {
        self.lowest().lost()
    }

    /// Reports whether viewers join, to which pieces of the world are given.
    pub fn has_joiners(&self) -> bool {
        match self {
            Stack::Open(_) => false,
            Stack::Keyed(port) => port.has_joiners(),
        }
    }

    /// Adds a datagram to those that will be received: the first 289 bytes of a longer one.
    pub fn arrive(&mut self, from: SocketAddr, bytes: &[u8]) {
        let bytes = front_of(bytes);
        self.lowest_mut().arrive(from, bytes);
    }

    /// Takes the oldest datagram that was sent.
    pub fn leave(&mut self) -> Option<Parcel> {
        self.lowest_mut().leave()
    }

    /// Lets milliseconds pass.
    pub fn pass(&mut self, millis: u64) {
        self.lowest_mut().pass(millis);
    }
}
