//! What holds of all scripts.

ghost use Rattle.script_host.specs.Outputs.{SendsByOutputs};

/// Proves that a script sends only from outputs of its kind.
pub fn outputs_law()
    ensures { SendsByOutputs }
{}
