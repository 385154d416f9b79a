//! A call keeps the range of a script's state and of what it sends. Also which outputs of its node
//! a script sends by.

ghost use Rattle.laws_worlds.specs.Calls.{CallsFit};
ghost use Rattle.laws_worlds.specs.Nodes.{AttachedRun, OutputsTyped};

/// A script in a state of its kind, at a call that its kind takes, gets a state of its kind and
/// sends events that fit its outputs.
pub fn calls_fit()
    ensures { CallsFit }
{}

/// If a script runs, each output of its kind is an output of its node with the same type.
pub fn outputs_typed()
    ensures { OutputsTyped }
{}

/// If the attached boxes are those that a scene asks for, all its scripts run.
pub fn attached_run()
    ensures { AttachedRun }
{}
