//! The inputs of a job.

ghost use Rattle.std.specs.Prelude.{◌≡◌};
ghost use Rattle.cascade_core.specs.InOrder.{AreInOrder};

use std::marker::Model;
use x3d_lists::Items;
use x3d_values::Stamped;

/// Inputs that a world takes from its start: numbered from 1, each later than the one before it.
#[derive(Drop)]
pub struct JobInputs {
    inputs: Items<Stamped>,
}

impl Model for JobInputs {
    ghost use Rattle.std.specs.Prelude.{List};
    ghost use Rattle.x3d_values.specs.Stamp.{StampedView};
    ghost use Rattle.cascade_core.specs.InOrder.{AreInOrder};

    ghost Value = { List StampedView };

    ghost view = { λ i. i.inputs };

    ghost invariant = { λ i. AreInOrder i.inputs };
}

impl JobInputs {
    /// Returns `inputs` as the inputs of a job. They are numbered from 1, each later than the one
    /// before.
    pub fn new(inputs: Items<Stamped>) -> JobInputs
        requires { AreInOrder inputs }
        ensures { result ≡ inputs }
    {
        JobInputs { inputs }
    }

    /// Returns the inputs as a slice, in order.
    pub fn as_slice(&self) -> &[Stamped]
        ensures value { result.now ≡ self.now }
        ensures in_order { AreInOrder self.now }
    {
        self.inputs.as_slice()
    }
}
