//! Laws about the scripts of all scenes, about all their calls, and about the values that they take
//! and send.

ghost use Rattle.script_running.specs.Laws.{KindsStand, SendByOutputs, ValuesReturn};

/// Proves that a script sends only by outputs of its node.
pub fn outputs_law()
    ensures { SendByOutputs }
{}

/// Proves that no call changes a kind or the number of scripts.
pub fn kinds_law()
    ensures { KindsStand }
{}

/// Proves that converting a value to its numbers and back returns the value.
pub fn values_law()
    ensures { ValuesReturn }
{}
