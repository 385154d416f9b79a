//! A world that runs.

use crate::alone::Alone;
use crate::serving::Serving;
use crate::shared::Shared;
use crate::stack::Stack;
use app_logs::{Log, LoggedHost};
use app_standby::Origin;
use share_session::Session;
use share_worlds::{Wants, moment_of};
use std::alloc::Global;

/// How many milliseconds pass until viewers that join get their next pieces.
const GIVING: u64 = 10;

/// The log of a world.
#[derive(Drop)]
pub enum WorldLog<'e, 'r> {
    /// That of a file, which no other process has.
    Alone(Alone),
    /// That of etcd, which other processes may have.
    Shared(Shared<'e, 'r>),
}

/// A world that runs. Of its job the clocks are kept that are still to be numbered, and with keys a
/// stage of its scene.
#[derive(Drop)]
pub struct World<'e, 'r> {
    pub session: Session,
    pub log: WorldLog<'e, 'r>,
    /// What its host began with, before the entries that the log's handle has.
    pub origin: Origin,
    /// The host, except after a turn that failed, or that found other entries in the log.
    pub hosting: Option<LoggedHost>,
    pub stack: Stack,
    /// The times of its job's clocks in microseconds.
    pub clocks: Vec<i64>,
    /// When it rested last, in milliseconds.
    pub turned: u64,
    /// When it may give up viewers that are silent.
    pub settles: Option<u64>,
}

/// What a turn needs to know.
#[derive(Clone, Copy)]
pub struct Ahead<'a> {
    pub alloc: Global,
    pub serving: &'a Serving,
    pub origin: &'a Origin,
    /// The times of the job's clocks in microseconds.
    pub clocks: &'a [i64],
    /// It may make a clock.
    pub makes: bool,
    /// The time at its end, in milliseconds.
    pub now: u64,
}

impl WorldLog<'_, '_> {
    /// Returns how many inputs it had when it was last read or appended to.
    pub fn len(&self) -> u64 {
        match self {
            WorldLog::Alone(alone) => alone.inputs(),
            WorldLog::Shared(shared) => shared.inputs(),
        }
    }

    /// Reports whether clocks of the job are left that are due at once.
    fn has_clocks(&self, clocks: &[i64]) -> bool {
        match self {
            WorldLog::Alone(alone) => alone.has_clocks(clocks),
            WorldLog::Shared(_) => false,
        }
    }
}

impl World<'_, '_> {
    /// Returns when the next clock is due that isn't due at once, if there is one.
    fn beat(&self, every: Option<u32>) -> Option<u64> {
        let Some(hosting) = &self.hosting else {
            return None;
        };
        match &self.log {
            WorldLog::Alone(alone) => {
                let left = alone.beat(every, hosting.rested())?;
                Some(self.turned.saturating_add(left))
            }
            WorldLog::Shared(shared) => {
                shared.beat(self.clocks.as_slice(), hosting.last(), every, self.turned)
            }
        }
    }

    /// Returns when viewers that join get their next pieces, if some join.
    fn gives(&self) -> Option<u64> {
        if self.stack.has_joiners() {
            Some(self.turned.saturating_add(GIVING))
        } else {
            None
        }
    }

    /// Returns when the world is due, if it must not read on first.
    fn own_moment(&self, every: Option<u32>) -> Option<u64> {
        moment_of(&Wants {
            has_arrived: self.stack.has_arrived(),
            has_clocks: self.log.has_clocks(self.clocks.as_slice()),
            beat: self.beat(every),
            settles: self.settles,
            gives: self.gives(),
        })
    }

    /// Returns when the log answers again, if it doesn't now.
    pub fn opens(&self, now: u64) -> Option<u64> {
        match &self.log {
            WorldLog::Alone(_) => None,
            WorldLog::Shared(shared) => shared.opens(now),
        }
    }

    /// Reports whether the log has to be read before the next turn.
    fn is_behind(&self) -> bool {
        match &self.log {
            WorldLog::Alone(_) => false,
            WorldLog::Shared(shared) => shared.is_behind(self.hosting.is_some()),
        }
    }

    /// Returns when the world is due, in milliseconds, if it isn't only once something arrives.
    pub fn moment(&self, every: Option<u32>, now: u64) -> Option<u64> {
        if let Some(opens) = self.opens(now) {
            return Some(opens);
        }
        if self.is_behind() {
            return Some(0);
        }
        self.own_moment(every)
    }

    /// Notes the revision that the tail of its log has in etcd. Returns whether it reads on now.
    pub fn note_tail(&mut self, revision: u64) -> bool {
        match &mut self.log {
            WorldLog::Alone(_) => false,
            WorldLog::Shared(shared) => shared.note_tail(revision),
        }
    }
}
