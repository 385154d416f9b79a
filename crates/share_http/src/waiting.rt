//! How long a socket is waited for.

use mio::net::TcpStream;
use mio::{Events, Interest, Poll, Token};
use std::alloc::{AllocError, Global};
use std::io;
use std::net::Net;
use std::time::{Clock, Duration};

/// What waits for a socket.
#[derive(Drop)]
pub(crate) struct Waiting {
    poll: Poll,
    events: Events<Global>,
}

/// A time of the clock, in milliseconds.
#[derive(Clone, Copy)]
pub(crate) struct Deadline {
    at: u64,
}

/// Returns the time of the clock in milliseconds, or the last there is if it fails: then no time is
/// left.
fn millis_now<C: Clock>(clock: &C) -> u64 {
    match clock.monotonic() {
        Ok(time) => u64::try_from(time.as_millis()).unwrap_or(u64::MAX),
        Err(_) => u64::MAX,
    }
}

impl Deadline {
    /// Returns the time at which this many milliseconds will have passed.
    pub(crate) fn after<C: Clock>(clock: &C, millis: u64) -> Deadline {
        Deadline {
            at: millis_now(clock).saturating_add(millis),
        }
    }

    /// Returns this time, or that at which `millis` milliseconds will have passed if it is earlier.
    pub(crate) fn within<C: Clock>(self, clock: &C, millis: u64) -> Deadline {
        Deadline {
            at: self.at.min(millis_now(clock).saturating_add(millis)),
        }
    }

    /// Returns how many milliseconds are left.
    fn left<C: Clock>(self, clock: &C) -> u64 {
        self.at.saturating_sub(millis_now(clock))
    }
}

impl Waiting {
    /// Fails with the system's error, or that of refused memory.
    pub(crate) fn new<R: Net>(rt: &R, alloc: Global) -> Result<Option<Waiting>, AllocError> {
        let events = Events::with_capacity(alloc, 4)?;
        match Poll::new(rt) {
            Ok(poll) => Ok(Some(Waiting { poll, events })),
            Err(_) => Ok(None),
        }
    }

    /// Has a connection waited for.
    pub(crate) fn add(&self, stream: &mut TcpStream) -> io::Result<()> {
        let both = Interest::READABLE | Interest::WRITABLE;
        self.poll.registry().register(stream, Token(0), both)
    }

    /// Waits until something happens at the connection. Reports whether there was time to.
    pub(crate) fn wait<C: Clock>(&mut self, clock: &C, until: Deadline) -> bool {
        let left = until.left(clock);
        if left == 0 {
            return false;
        }
        let most = Some(Duration::from_millis(left));
        self.poll.poll(&mut self.events, most).is_ok()
    }
}
