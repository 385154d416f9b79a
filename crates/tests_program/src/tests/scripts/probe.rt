//! A box that counts and logs what is done with it.

use script_boxes::{Batch, Counter, Gate, StockScript};
use script_host::{Behaviour, Replies, StateFault};
use std::alloc::{AllocError, Global};
use std::cell::Cell;
use x3d_values::Kind;

/// What was done with boxes.
#[derive(Drop)]
pub(super) struct Log {
    /// Decimal digits, the newest last: 1 to 3 for a box that is initialized, 4 to 6 for one that
    /// is shut down, 7 to 9 for one that is dropped.
    ends: Cell<u64>,
    received: Cell<u32>,
    processed: Cell<u32>,
    restored: Cell<u32>,
    told: Cell<u32>,
}

impl Log {
    /// Returns an empty log.
    pub(super) fn new() -> Log {
        Log {
            ends: Cell::new(0),
            received: Cell::new(0),
            processed: Cell::new(0),
            restored: Cell::new(0),
            told: Cell::new(0),
        }
    }

    /// Returns which boxes were initialized, shut down and dropped, as digits.
    pub(super) fn get(&self) -> u64 {
        self.ends.get()
    }

    /// Returns how often boxes received an event, settled after the events of a timestamp, were
    /// restored, and returned their states.
    pub(super) fn calls(&self) -> [u32; 4] {
        [
            self.received.get(),
            self.processed.get(),
            self.restored.get(),
            self.told.get(),
        ]
    }

    fn tell(&self, digit: u64) {
        let ends = self.ends.get().saturating_mul(10);
        self.ends.set(ends.saturating_add(digit));
    }
}

/// Counts one more call.
fn count(calls: &Cell<u32>) {
    calls.set(calls.get().saturating_add(1));
}

/// A script of the stock that counts its calls. It logs its name when it is initialized, its name
/// plus 3 when it is shut down, and its name plus 6 when it is dropped.
pub(super) struct Probe<'a> {
    script: StockScript,
    /// 1, 2 or 3.
    name: u64,
    /// Whether the box answers that memory was refused when it is restored.
    refuses: bool,
    log: &'a Log,
}

/// The kind of a box.
#[derive(Clone, Copy)]
pub(super) enum Made {
    /// A counter at this count in steps of 2.
    Counter(i32),
    /// Like `Counter`, but can't be restored.
    Refusing(i32),
    Gate,
    Batch,
}

fn script_of(made: Made) -> StockScript {
    match made {
        Made::Counter(count) => StockScript::Counter(Counter::new(count, 2)),
        Made::Refusing(count) => StockScript::Counter(Counter::new(count, 2)),
        Made::Gate => StockScript::Gate(Gate::new(true)),
        Made::Batch => StockScript::Batch(Batch::new()),
    }
}

impl<'a> Probe<'a> {
    pub(super) fn new(name: u64, made: Made, log: &'a Log) -> Probe<'a> {
        Probe {
            script: script_of(made),
            name,
            refuses: matches!(made, Made::Refusing(_)),
            log,
        }
    }
}

/// Returns boxes 1, 2 and so on.
pub(super) fn boxes_made<'a>(
    alloc: Global,
    made: &[Made],
    log: &'a Log,
) -> Result<Vec<Probe<'a>>, AllocError> {
    let mut boxes = Vec::new(alloc);
    let mut name: u64 = 0;
    for one in made {
        name = name.saturating_add(1);
        boxes.push(Probe::new(name, *one, log))?;
    }
    Ok(boxes)
}

impl<'a> Drop for Probe<'a> {
    fn drop(self) {
        let Probe {
            script,
            name,
            refuses: _,
            log,
        } = self;
        log.tell(name.saturating_add(6));
        drop(script);
    }
}

impl<'a> Behaviour for Probe<'a> {
    ghost kind_of = { λ p. ⟦<StockScript as Behaviour>⟧.kind_of p.script };

    ghost numbers = { λ p. ⟦<StockScript as Behaviour>⟧.numbers p.script };

    fn kind(&self) -> Kind {
        self.script.kind()
    }

    fn initialize(&mut self) -> Replies {
        self.log.tell(self.name);
        self.script.initialize()
    }

    fn receive(&mut self, input: u32, event: [i64; 3]) -> Replies {
        count(&self.log.received);
        self.script.receive(input, event)
    }

    fn events_processed(&mut self) -> Replies {
        count(&self.log.processed);
        self.script.events_processed()
    }

    fn shutdown(&mut self) {
        self.log.tell(self.name.saturating_add(3));
        self.script.shutdown();
    }

    fn state(&self, out: &mut Vec<i64>) -> Result<(), AllocError> {
        count(&self.log.told);
        self.script.state(out)
    }

    fn fits(&self, state: &[i64]) -> Result<(), StateFault> {
        self.script.fits(state)
    }

    fn restore(&mut self, state: &[i64]) -> Result<(), StateFault> {
        count(&self.log.restored);
        if self.refuses {
            return Err(StateFault::Memory);
        }
        self.script.restore(state)
    }
}
