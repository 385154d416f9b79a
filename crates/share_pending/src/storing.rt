//! An append begins, and its entries are stored.

ghost use Rattle.std.specs.Prelude.{◌≡◌, [], if◌then◌else◌};
ghost use Rattle.share_pending.specs.Kept.{kept_with};
ghost use Rattle.share_pending.specs.Waiting.{begins};

use crate::kept::{Kept, keep_all};
use crate::waiting::Waiting;
use share_core::Host;
use share_entries::Entry;
use std::mem;

/// Moves the entries that wait to those that are being appended, unless there are any of these or
/// none wait. Returns whether it did.
fn begin_with(appending: &mut Vec<Entry>, pending: &mut Vec<Entry>) -> bool
    ensures begins { result ≡ begins appending.old.items pending.old.items }
    ensures appending { appending.new.items
        ≡ (if result then pending.old.items else appending.old.items) }
    ensures pending { pending.new.items ≡ (if result then [] else pending.old.items) }
{
    if appending.len() > 0 {
        return false;
    }
    if pending.len() > 0 {
        mem::swap(appending, pending);
        return true;
    }
    false
}

/// Keeps the offers of the entries that were being appended, and empties their list.
fn keep_stored(kept: &mut Kept, appending: &mut Vec<Entry>)
    ensures kept { kept.new.items ≡ kept_with kept.old.items appending.old.items }
    ensures none { appending.new.items ≡ [] }
{
    keep_all(kept, appending.as_slice());
    appending.clear();
}

impl Waiting {
    ghost use Rattle.std.specs.Prelude.{◌≡◌, ◌≤◌};
    ghost use Rattle.x3d_values.specs.Ranges.{max_inputs};
    ghost use Rattle.share_pending.specs.Waiting.{begun, is_awaited, stored_by};
    ghost use Rattle.share_pending.specs.Written.{GrowsByStored, StaysAhead};

    /// Begins an append of all entries that wait, unless one is under way or none wait.
    pub fn begin_append(&mut self, host: &Host)
        ensures step { self.new ≡ begun self.old host.now.part.count }
        ensures log { StaysAhead host.now.part self.old host.now.part self.new }
    {
        if begin_with(&mut self.appending, &mut self.pending) {
            self.reached = host.len();
            self.token = self.token.saturating_add(1);
        }
    }

    /// Returns the entries that are being appended. There are none if no append is under way.
    pub fn appending(&self) -> &[Entry]
        ensures { result.now ≡ self.now.appending }
    {
        self.appending.as_slice()
    }

    /// Returns the token of the last append that began, from 1, or 0.
    pub fn token(&self) -> u32
        ensures { result ≡ self.now.token }
    {
        self.token
    }

    /// Returns the number of stored entries: at most 2^48 - 1.
    pub fn stored(&self) -> u64
        ensures value { result ≡ self.now.stored }
        ensures most { result ≤ max_inputs }
    {
        self.stored
    }

    /// Reports whether an append with this token is under way.
    pub fn awaits(&self, token: u32) -> bool
        ensures { result ≡ is_awaited self.now token }
    {
        self.appending.len() > 0 && self.token == token
    }

    /// Takes it that the append with this token has stored its entries: from now on the host shows
    /// them. Returns whether such an append was under way; if not, nothing changes. Call it only if
    /// all of them are in the log, for good.
    ///
    /// After any other answer of the log drop the host, which is ahead of it, and begin again.
    pub fn store(&mut self, host: &Host, token: u32) -> bool
        ensures answer { result ≡ is_awaited self.old token }
        ensures step { self.new ≡ stored_by self.old token }
        ensures log { GrowsByStored host.now.part self.old result self.new }
    {
        let _count = host.len();
        let is_awaited = self.awaits(token);
        if is_awaited {
            keep_stored(&mut self.kept, &mut self.appending);
            self.stored = self.reached;
        }
        is_awaited
    }
}
