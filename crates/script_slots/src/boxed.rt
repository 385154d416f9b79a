//! A boxed script is a script: each call is forwarded to the object in the box.

use crate::behaviour::Behaviour;
use crate::fault::StateFault;
use crate::reply::Replies;
use std::alloc::AllocError;
use x3d_values::Kind;

impl Behaviour for Box<dyn Behaviour> {
    ghost kind_of = { λ b. (Behaviour-box b).kind_of b.value };

    ghost numbers = { λ b. (Behaviour-box b).numbers b.value };

    fn kind(&self) -> Kind {
        (**self).kind()
    }

    fn initialize(&mut self) -> Replies {
        (**self).initialize()
    }

    fn receive(&mut self, input: u32, event: [i64; 3]) -> Replies {
        (**self).receive(input, event)
    }

    fn events_processed(&mut self) -> Replies {
        (**self).events_processed()
    }

    fn shutdown(&mut self) {
        (**self).shutdown();
    }

    fn state(&self, out: &mut Vec<i64>) -> Result<(), AllocError> {
        (**self).state(out)
    }

    fn fits(&self, state: &[i64]) -> Result<(), StateFault> {
        (**self).fits(state)
    }

    fn restore(&mut self, state: &[i64]) -> Result<(), StateFault> {
        (**self).restore(state)
    }
}
