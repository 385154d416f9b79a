//! A box that counts its calls.

use script_boxes::{Counter, StockScript};
use script_host::{Behaviour, Replies, StateFault};
use std::alloc::AllocError;
use std::cell::Cell;
use x3d_values::Kind;

/// How often each call of a box was made, and how often the box was dropped.
#[derive(Clone, Copy, PartialEq, Eq)]
pub(super) struct Calls {
    pub(super) initialize: u32,
    pub(super) receive: u32,
    pub(super) settle: u32,
    pub(super) state: u32,
    pub(super) restore: u32,
    pub(super) shutdown: u32,
    pub(super) dropped: u32,
}

pub(super) const NONE: Calls = Calls {
    initialize: 0,
    receive: 0,
    settle: 0,
    state: 0,
    restore: 0,
    shutdown: 0,
    dropped: 0,
};

/// What is done with a box.
#[derive(Clone, Copy)]
enum Call {
    Initialize,
    Receive,
    Settle,
    State,
    Restore,
    Shutdown,
    Drop,
}

/// The calls of one box.
pub(super) type Count = Cell<Calls>;

fn one_more(count: u32) -> u32 {
    count.saturating_add(1)
}

fn tell(count: &Count, call: Call) {
    let mut calls = count.get();
    match call {
        Call::Initialize => calls.initialize = one_more(calls.initialize),
        Call::Receive => calls.receive = one_more(calls.receive),
        Call::Settle => calls.settle = one_more(calls.settle),
        Call::State => calls.state = one_more(calls.state),
        Call::Restore => calls.restore = one_more(calls.restore),
        Call::Shutdown => calls.shutdown = one_more(calls.shutdown),
        Call::Drop => calls.dropped = one_more(calls.dropped),
    }
    count.set(calls);
}

/// A counter from 5 in steps of 2 that counts its calls.
pub(super) struct Counted<'a> {
    script: StockScript,
    /// Whether the box answers that memory was refused when it is restored.
    refuses: bool,
    count: &'a Count,
}

impl<'a> Counted<'a> {
    pub(super) fn new(refuses: bool, count: &'a Count) -> Counted<'a> {
        Counted {
            script: StockScript::Counter(Counter::new(5, 2)),
            refuses,
            count,
        }
    }
}

impl<'a> Drop for Counted<'a> {
    fn drop(self) {
        let Counted {
            script,
            refuses: _,
            count,
        } = self;
        tell(count, Call::Drop);
        drop(script);
    }
}

impl<'a> Behaviour for Counted<'a> {
    ghost kind_of = { λ p. ⟦<StockScript as Behaviour>⟧.kind_of p.script };

    ghost numbers = { λ p. ⟦<StockScript as Behaviour>⟧.numbers p.script };

    fn kind(&self) -> Kind {
        self.script.kind()
    }

    fn initialize(&mut self) -> Replies {
        tell(self.count, Call::Initialize);
        self.script.initialize()
    }

    fn receive(&mut self, input: u32, event: [i64; 3]) -> Replies {
        tell(self.count, Call::Receive);
        self.script.receive(input, event)
    }

    fn events_processed(&mut self) -> Replies {
        tell(self.count, Call::Settle);
        self.script.events_processed()
    }

    fn shutdown(&mut self) {
        tell(self.count, Call::Shutdown);
        self.script.shutdown();
    }

    fn state(&self, out: &mut Vec<i64>) -> Result<(), AllocError> {
        tell(self.count, Call::State);
        self.script.state(out)
    }

    fn fits(&self, state: &[i64]) -> Result<(), StateFault> {
        self.script.fits(state)
    }

    fn restore(&mut self, state: &[i64]) -> Result<(), StateFault> {
        tell(self.count, Call::Restore);
        if self.refuses {
            return Err(StateFault::Memory);
        }
        self.script.restore(state)
    }
}
