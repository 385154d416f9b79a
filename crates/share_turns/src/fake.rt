//! A port in memory that records its traffic.

ghost use Rattle.std.specs.Prelude.{◌≡◌, ◌≤◌, ◌++◌, ◌∷◌, [], length, take, Some, IfOk, OnErr};
ghost use Rattle.share_turns.specs.Told.{max_received};

use crate::port::{Port, PortFault, RECEIVED};
use crate::traffic::{Bytes, Datagram, Traffic};
use std::alloc::{AllocError, Global};
use std::collections::VecDeque;

/// A port in memory. It receives what `deliver` hands to it, in that order, and `traffic` returns
/// what passed. A call that can't be recorded because memory is refused is a failure.
#[derive(Drop)]
pub struct FakePort {
    inbox: VecDeque<Datagram>,
    passed: Vec<Traffic>,
    failed: u64,
    calls: u64,
    fails_at: u64,
}

impl FakePort {
    ghost use Rattle.std.specs.Prelude.{◌≡◌, ◌++◌, ◌∷◌, [], IfOk, OnErr};
    ghost use Rattle.share_turns.specs.Told.{counted, one_more};

    /// Returns a port through which nothing has passed. Send or receive number `call`, counted from
    /// 1, fails; none fails if `call` is 0.
    pub fn failing_at(alloc: Global, call: u64) -> FakePort
        ensures passed { result.passed.items ≡ [] }
        ensures inbox { result.inbox.items ≡ [] }
        ensures failed { result.failed ≡ 0 }
        ensures fails_at { result.fails_at ≡ call }
    {
        FakePort {
            inbox: VecDeque::new(alloc),
            passed: Vec::new(alloc),
            failed: 0,
            calls: 0,
            fails_at: call,
        }
    }

    /// Adds a datagram to those that will be received. Fails if memory is refused; nothing changes
    /// then.
    pub fn deliver(&mut self, datagram: Datagram) -> Result<(), AllocError>
        ensures ok { IfOk result
            (λ _. self.new.inbox.items ≡ self.old.inbox.items ++ datagram ∷ []) }
        ensures err { OnErr result (self.new.inbox.items ≡ self.old.inbox.items) }
        ensures passed { self.new.passed ≡ self.old.passed }
        ensures failed { self.new.failed ≡ self.old.failed }
        ensures calls { self.new.calls ≡ self.old.calls }
        ensures fails_at { self.new.fails_at ≡ self.old.fails_at }
    {
        self.inbox.push_back(datagram)?;
        Ok(())
    }

    /// Returns what was received and sent, and each receive for which nothing had arrived, in
    /// order.
    pub fn traffic(&self) -> &[Traffic]
        ensures { result.now ≡ self.now.passed.items }
    {
        &self.passed
    }

    /// Counts a call, and reports whether it fails.
    fn fails(&mut self) -> bool
        ensures inbox { self.new.inbox ≡ self.old.inbox }
        ensures passed { self.new.passed ≡ self.old.passed }
        ensures failed { self.new.failed ≡ self.old.failed }
    {
        self.calls = self.calls.saturating_add(1);
        self.calls == self.fails_at
    }

    fn fail(&mut self) -> PortFault
        ensures { self.new ≡ record self.old { failed = one_more self.old.failed } }
    {
        self.failed = self.failed.saturating_add(1);
        PortFault
    }

    /// Records what passed. Fails if memory is refused.
    fn tell(&mut self, traffic: Traffic) -> Result<(), PortFault>
        ensures ok { IfOk result
            (λ _. self.new.passed.items ≡ self.old.passed.items ++ traffic ∷ []) }
        ensures err { OnErr result (self.new.passed.items ≡ self.old.passed.items) }
        ensures failed { self.new.failed ≡ counted result self.old.failed }
    {
        match self.passed.push(traffic) {
            Ok(()) => Ok(()),
            Err(_refused) => Err(self.fail()),
        }
    }
}

impl Port for FakePort {
    ghost told = { λ p. Some p.passed.items };

    ghost failure_count = { λ p. p.failed };

    fn send(&mut self, to: u16, bytes: &[u8]) -> Result<(), PortFault> {
        if self.fails() {
            return Err(self.fail());
        }
        self.tell(Traffic::Sent(Datagram {
            peer: to,
            bytes: Bytes::from_slice(bytes),
        }))
    }

    fn receive(&mut self, into: &mut [u8; RECEIVED]) -> Result<Option<(u16, usize)>, PortFault> {
        if self.fails() {
            return Err(self.fail());
        }
        let Some(datagram) = self.inbox.pop_front() else {
            self.tell(Traffic::Nothing)?;
            return Ok(None);
        };
        let count = copy_front(into, datagram.bytes.as_slice());
        let peer = datagram.peer;
        self.tell(Traffic::Received(datagram))?;
        Ok(Some((peer, count)))
    }

    fn failures(&self) -> u64 {
        self.failed
    }
}

/// Copies the bytes to the front of `into`, and returns their number.
fn copy_front(into: &mut [u8; RECEIVED], bytes: &[u8]) -> usize
    requires { length bytes.now ≤ max_received }
    ensures count { result ≡ length bytes.now }
    ensures front { take (length bytes.now) into.new ≡ bytes.now }
{
    into[..bytes.len()].copy_from_slice(bytes);
    bytes.len()
}
