//! What a viewer forgets: old lines of its trace.

ghost use Rattle.std.specs.Prelude.{◌≡◌, ◌≤◌, ◌+◌, ◌-◌};
ghost use Rattle.x3d_values.specs.Ranges.{max_inputs};

use crate::viewer::Viewer;
use script_host::Behaviour;

/// Returns the number of the first of the last `last` inputs of `applied`.
fn first_of_last(applied: u64, last: u64) -> u64
    requires { applied ≤ max_inputs }
    ensures { result ≡ applied + 1 - last }
{
    (applied + 1).saturating_sub(last)
}

impl<B: Behaviour> Viewer<B> {
    ghost use Rattle.std.specs.Prelude.{◌≡◌};
    ghost use Rattle.share_core.specs.Viewer.{forgot_but, with_state};

    /// Forgets the lines of the trace of all inputs but the last `last`. Otherwise the viewer stays
    /// as it is, and goes on like one that has all lines. A spoiled viewer has no trace and stays
    /// as it is. Takes no memory.
    pub fn forget_all_but(&mut self, last: u64)
        ensures { self.new ≡ with_state self.old (forgot_but last self.old.state) }
    {
        let below = first_of_last(self.stage.applied(), last);
        let _refused_if_spoiled = self.stage.forget(below);
    }
}
