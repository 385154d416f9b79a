//! Datagrams in order, with addresses.

use share_turns::Bytes;
use std::alloc::Global;
use std::collections::VecDeque;
use std::marker::Model;
use std::net::SocketAddr;

/// A datagram, and the address that it came from or goes to.
#[derive(Drop)]
pub struct Parcel {
    pub address: SocketAddr,
    pub bytes: Bytes,
}

/// Datagrams in order. An empty queue has no memory.
#[derive(Drop)]
pub struct Queue {
    parcels: VecDeque<Parcel>,
    alloc: Global,
}

impl Model for Queue {
    ghost use Rattle.std.specs.Prelude.{List};
    ghost use Rattle.share_worlds.specs.declared.queue.Parcel.{Parcel as AParcel};

    ghost Value = { List AParcel };

    ghost view = { λ q. q.parcels.items };
}

impl Queue {
    ghost use Rattle.std.specs.Prelude.{◌≡◌, ◌<◌, ◌==◌, ◌++◌, [], IfNone, length, nat_lt, true, option_to_list};
    ghost use Rattle.share_worlds.specs.Queues.{pushed};

    /// Returns an empty queue.
    pub fn new(alloc: Global) -> Queue
        ensures { result ≡ [] }
    {
        Queue {
            parcels: VecDeque::new(alloc),
            alloc,
        }
    }

    /// Reports whether the queue has no datagram.
    pub fn is_empty(&self) -> bool
        ensures { result ≡ (length self.now == 0) }
    {
        self.parcels.is_empty()
    }

    /// Reports whether fewer than `most` datagrams are in the queue.
    pub fn has_room(&self, most: usize) -> bool
        ensures { result ≡ nat_lt (length self.now) most }
    {
        self.parcels.len() < most
    }

    /// Adds a datagram at the end, if fewer than `most` are in the queue. Returns whether it did;
    /// it doesn't either if memory is refused.
    pub fn push(&mut self, parcel: Parcel, most: usize) -> bool
        ensures added { self.new ≡ pushed result parcel self.old }
        ensures room { result ≡ true → length self.old < most }
    {
        if self.parcels.len() >= most {
            drop(parcel);
            return false;
        }
        self.parcels.push_back(parcel).is_ok()
    }

    /// Takes the oldest datagram, if there is one.
    pub fn pop(&mut self) -> Option<Parcel>
        ensures taken { self.old ≡ option_to_list result ++ self.new }
        ensures none { IfNone result (self.old ≡ []) }
    {
        let found = self.parcels.pop_front();
        if self.parcels.is_empty() {
            self.parcels = VecDeque::new(self.alloc);
        }
        found
    }
}
