//! A cable in memory, between a host and two viewers.

ghost use Rattle.std.specs.Prelude.{◌≡◌, ◌≤◌, length};
ghost use Rattle.share_turns.specs.Told.{one_more};

use share_turns::{Bytes, Datagram, Port, PortFault, RECEIVED};
use std::alloc::{AllocError, Global};
use std::cell::RefCell;
use std::collections::VecDeque;

/// The address of the host; viewers 0 and 1 have the next two.
pub(super) const HOST: u16 = 0;

/// The datagrams on the way to each address. On a lossy cable every fifth datagram is lost, every
/// seventh is delivered twice, and every third overtakes the one before it.
#[derive(Drop)]
pub(super) struct Cable {
    lossy: bool,
    fails_at: u64,
    /// How many sends and receives there were, at all ends.
    pub(super) calls: u64,
    sent: u64,
    waiting: [VecDeque<Datagram>; 3],
}

/// Returns a cable without datagrams. Of the calls at all its ends, counted from 1, the call of
/// number `fails_at` fails; 0 for none.
pub(super) fn laid(alloc: Global, lossy: bool, fails_at: u64) -> RefCell<Cable> {
    RefCell::new(Cable {
        lossy,
        fails_at,
        calls: 0,
        sent: 0,
        waiting: [
            VecDeque::new(alloc),
            VecDeque::new(alloc),
            VecDeque::new(alloc),
        ],
    })
}

impl Cable {
    /// Counts a call, and reports whether it fails.
    fn fails(&mut self) -> bool {
        self.calls = self.calls.saturating_add(1);
        self.calls == self.fails_at
    }

    /// Takes the first datagram to an address.
    fn next(&mut self, to: u16) -> Result<Option<Datagram>, PortFault> {
        if self.fails() {
            return Err(PortFault);
        }
        match self.waiting.get_mut(usize::from(to)) {
            Some(waiting) => Ok(waiting.pop_front()),
            None => Ok(None),
        }
    }

    /// Sends to an address. A datagram is lost if memory is refused.
    fn post(&mut self, to: u16, from: u16, bytes: &[u8]) -> Result<(), PortFault>
        requires { length bytes.now ≤ 289 }
    {
        if self.fails() {
            return Err(PortFault);
        }
        self.sent = self.sent.saturating_add(1);
        let number = if self.lossy { self.sent } else { 1 };
        if let Some(waiting) = self.waiting.get_mut(usize::from(to)) {
            let _room = bring(waiting, number, from, bytes);
        }
        Ok(())
    }
}

fn datagram(from: u16, bytes: &[u8]) -> Datagram
    requires { length bytes.now ≤ 289 }
{
    Datagram {
        peer: from,
        bytes: Bytes::from_slice(bytes),
    }
}

/// Delivers the datagram of this number, as a lossy cable does.
fn bring(
    waiting: &mut VecDeque<Datagram>,
    number: u64,
    from: u16,
    bytes: &[u8],
) -> Result<(), AllocError>
    requires { length bytes.now ≤ 289 }
{
    if number % 5 == 0 {
        return Ok(());
    }
    if number % 7 == 0 {
        waiting.push_back(datagram(from, bytes))?;
    }
    waiting.push_back(datagram(from, bytes))?;
    let count = waiting.len();
    if number % 3 == 0 && count >= 2 {
        waiting.swap(count - 2, count - 1);
    }
    Ok(())
}

/// Copies a datagram's bytes to the front, and returns its sender and its length.
fn unpacked(datagram: &Datagram, into: &mut [u8; RECEIVED]) -> (u16, usize)
    ensures { result.1 ≤ 289 }
{
    let bytes = datagram.bytes.as_slice();
    into[..bytes.len()].copy_from_slice(bytes);
    (datagram.peer, bytes.len())
}

/// An end of a cable. Its contract says nothing of its datagrams.
#[derive(Drop)]
pub(super) struct End<'a> {
    cable: &'a RefCell<Cable>,
    address: u16,
    failed: u64,
}

impl<'a> End<'a> {
    ghost use Rattle.std.specs.Prelude.{◌≡◌};
    ghost use Rattle.share_turns.specs.Told.{one_more};

    pub(super) fn new(cable: &'a RefCell<Cable>, address: u16) -> End<'a> {
        End {
            cable,
            address,
            failed: 0,
        }
    }

    fn fail(&mut self) -> PortFault
        ensures { self.new.failed ≡ one_more self.old.failed }
    {
        self.failed = self.failed.saturating_add(1);
        PortFault
    }
}

impl<'a> Port for End<'a> {
    ghost failure_count = { λ p. p.failed };

    fn send(&mut self, to: u16, bytes: &[u8]) -> Result<(), PortFault> {
        let posted = match self.cable.try_borrow_mut() {
            Ok(mut cable) => cable.post(to, self.address, bytes),
            Err(_) => Err(PortFault),
        };
        match posted {
            Ok(()) => Ok(()),
            Err(_) => Err(self.fail()),
        }
    }

    fn receive(&mut self, into: &mut [u8; RECEIVED]) -> Result<Option<(u16, usize)>, PortFault> {
        let came = match self.cable.try_borrow_mut() {
            Ok(mut cable) => cable.next(self.address),
            Err(_) => Err(PortFault),
        };
        match came {
            Ok(Some(datagram)) => {
                let came = unpacked(&datagram, into);
                drop(datagram);
                Ok(Some(came))
            }
            Ok(None) => Ok(None),
            Err(_) => Err(self.fail()),
        }
    }

    fn failures(&self) -> u64 {
        self.failed
    }
}
