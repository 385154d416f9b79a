//! A turn of a world.

use crate::alone::Alone;
use crate::end::End;
use crate::serving::Serving;
use crate::stack::Stack;
use crate::world::{Ahead, World, WorldLog};
use app_logs::LoggedHost;
use share_turns::{GRACE_MILLIS, SILENT_MILLIS};
use share_worlds::is_due;
use std::alloc::Global;
use std::mem;

/// After this many milliseconds without a turn a world rests once before it takes what arrived, so
/// that they passed before it arrived.
const LONG: u64 = 10;

/// Runs a turn over the log of a file.
fn turn_alone(
    alone: &mut Alone,
    hosting: Option<LoggedHost>,
    ahead: &Ahead<'_>,
    stack: &mut Stack,
) -> Result<Option<LoggedHost>, End> {
    match hosting {
        Some(hosting) => Ok(Some(alone.turn(hosting, ahead, stack)?)),
        None => Err(End::InDoubt),
    }
}

/// Runs a turn over the log of a world.
fn turn_over(
    log: &mut WorldLog<'_, '_>,
    hosting: Option<LoggedHost>,
    ahead: &Ahead<'_>,
    stack: &mut Stack,
) -> Result<Option<LoggedHost>, End> {
    match log {
        WorldLog::Alone(alone) => turn_alone(alone, hosting, ahead, stack),
        WorldLog::Shared(shared) => shared.turn(hosting, ahead, stack),
    }
}

impl World<'_, '_> {
    /// Runs a turn, which makes a clock if one is due and `makes` says so. The time at its end is
    /// `now`.
    fn turn_with(
        &mut self,
        alloc: Global,
        serving: &Serving,
        makes: bool,
        now: u64,
    ) -> Result<(), End> {
        let hosting = self.hosting.take();
        self.stack.pass(now.saturating_sub(self.turned));
        self.turned = now;
        let ahead = Ahead {
            alloc,
            serving,
            origin: &self.origin,
            clocks: self.clocks.as_slice(),
            makes,
            now,
        };
        match turn_over(&mut self.log, hosting, &ahead, &mut self.stack) {
            Ok(hosting) => {
                drop(mem::replace(&mut self.hosting, hosting));
                Ok(())
            }
            Err(end) => Err(end),
        }
    }

    /// Lets the time pass before something is taken, if nothing waits and it was long.
    pub fn wake(&mut self, alloc: Global, serving: &Serving, now: u64) -> Result<(), End> {
        if self.stack.has_arrived() || now.saturating_sub(self.turned) < LONG {
            return Ok(());
        }
        self.turn_with(alloc, serving, false, now)
    }

    /// Returns when the host no longer waits for viewers that it never heard.
    fn grace(&self, now: u64) -> Option<u64> {
        let Some(hosting) = &self.hosting else {
            return None;
        };
        let left = GRACE_MILLIS.saturating_sub(hosting.rested());
        if left == 0 {
            return None;
        }
        Some(now.saturating_add(left))
    }

    /// Notes when inputs may be dropped, as viewers are given up.
    fn settle(&mut self, serving: &Serving, heard: bool, now: u64) {
        if serving.keep.is_none() {
            return;
        }
        if heard {
            self.settles = Some(now.saturating_add(SILENT_MILLIS + LONG));
        } else if is_due(self.settles, now) {
            self.settles = self.grace(now);
        }
    }

    /// Runs a turn at `now`, unless its log doesn't answer. Fails with why the world ends.
    pub fn turn(&mut self, alloc: Global, serving: &Serving, now: u64) -> Result<(), End> {
        if self.opens(now).is_some() {
            return Ok(());
        }
        self.wake(alloc, serving, now)?;
        let heard = self.stack.has_arrived();
        self.turn_with(alloc, serving, true, now)?;
        self.settle(serving, heard, now);
        Ok(())
    }
}
