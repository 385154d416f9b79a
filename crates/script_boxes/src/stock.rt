//! A script of the stock, of any kind.

use crate::adder::Adder;
use crate::batch::Batch;
use crate::counter::Counter;
use crate::gate::Gate;
use crate::meter::Meter;
use crate::mover::Mover;
use script_host::{Behaviour, Replies, StateFault};
use std::alloc::AllocError;
use x3d_values::Kind;

/// A script of one of the six kinds. Each call is forwarded to the script inside.
#[derive(Drop)]
pub enum StockScript {
    Counter(Counter),
    Gate(Gate),
    Adder(Adder),
    Batch(Batch),
    Mover(Mover),
    Meter(Meter),
}

impl Behaviour for StockScript {
    ghost use Rattle.script_boxes.specs.Boxes.{stock_kind, stock_state};

    ghost kind_of = { stock_kind };

    ghost numbers = { stock_state };

    fn kind(&self) -> Kind {
        match self {
            StockScript::Counter(script) => script.kind(),
            StockScript::Gate(script) => script.kind(),
            StockScript::Adder(script) => script.kind(),
            StockScript::Batch(script) => script.kind(),
            StockScript::Mover(script) => script.kind(),
            StockScript::Meter(script) => script.kind(),
        }
    }

    fn initialize(&mut self) -> Replies {
        match self {
            StockScript::Counter(script) => script.initialize(),
            StockScript::Gate(script) => script.initialize(),
            StockScript::Adder(script) => script.initialize(),
            StockScript::Batch(script) => script.initialize(),
            StockScript::Mover(script) => script.initialize(),
            StockScript::Meter(script) => script.initialize(),
        }
    }

    fn receive(&mut self, input: u32, event: [i64; 3]) -> Replies {
        match self {
            StockScript::Counter(script) => script.receive(input, event),
            StockScript::Gate(script) => script.receive(input, event),
            StockScript::Adder(script) => script.receive(input, event),
            StockScript::Batch(script) => script.receive(input, event),
            StockScript::Mover(script) => script.receive(input, event),
            StockScript::Meter(script) => script.receive(input, event),
        }
    }

    fn events_processed(&mut self) -> Replies {
        match self {
            StockScript::Counter(script) => script.events_processed(),
            StockScript::Gate(script) => script.events_processed(),
            StockScript::Adder(script) => script.events_processed(),
            StockScript::Batch(script) => script.events_processed(),
            StockScript::Mover(script) => script.events_processed(),
            StockScript::Meter(script) => script.events_processed(),
        }
    }

    fn shutdown(&mut self) {
        match self {
            StockScript::Counter(script) => script.shutdown(),
            StockScript::Gate(script) => script.shutdown(),
            StockScript::Adder(script) => script.shutdown(),
            StockScript::Batch(script) => script.shutdown(),
            StockScript::Mover(script) => script.shutdown(),
            StockScript::Meter(script) => script.shutdown(),
        }
    }

    fn state(&self, out: &mut Vec<i64>) -> Result<(), AllocError> {
        match self {
            StockScript::Counter(script) => script.state(out),
            StockScript::Gate(script) => script.state(out),
            StockScript::Adder(script) => script.state(out),
            StockScript::Batch(script) => script.state(out),
            StockScript::Mover(script) => script.state(out),
            StockScript::Meter(script) => script.state(out),
        }
    }

    fn fits(&self, state: &[i64]) -> Result<(), StateFault> {
        match self {
            StockScript::Counter(script) => script.fits(state),
            StockScript::Gate(script) => script.fits(state),
            StockScript::Adder(script) => script.fits(state),
            StockScript::Batch(script) => script.fits(state),
            StockScript::Mover(script) => script.fits(state),
            StockScript::Meter(script) => script.fits(state),
        }
    }

    fn restore(&mut self, state: &[i64]) -> Result<(), StateFault> {
        match self {
            StockScript::Counter(script) => script.restore(state),
            StockScript::Gate(script) => script.restore(state),
            StockScript::Adder(script) => script.restore(state),
            StockScript::Batch(script) => script.restore(state),
            StockScript::Mover(script) => script.restore(state),
            StockScript::Meter(script) => script.restore(state),
        }
    }
}
