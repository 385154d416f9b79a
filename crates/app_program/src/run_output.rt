//! What a run writes.

ghost use Rattle.std.specs.Prelude.{◌≡◌};
ghost use Rattle.app_program.specs.RunOutputs.{output_without};

/// What a run writes after its inputs.
#[derive(Clone, Copy, PartialEq, Eq)]
pub enum RunOutput {
    /// The trace and then the scene.
    TraceAndScene,
    /// The scene alone. No text is made of the trace.
    SceneAlone,
}

impl RunOutput {
    /// Returns what a run with or without `--no-trace` writes.
    pub fn without(trace: bool) -> RunOutput
        ensures { result ≡ output_without trace }
    {
        if trace {
            RunOutput::SceneAlone
        } else {
            RunOutput::TraceAndScene
        }
    }
}
