//! A law of worlds. It is the contract of a function that does nothing.

ghost use Rattle.laws_worlds.specs.Traces.{InputsSendFew, OpeningsSendFew, TracesAreCounted};

/// An input adds at most one line for each output of the scene, and so does input 0. The lines of
/// all inputs that a world may have can be counted in 64 bits.
pub fn traces_are_limited()
    ensures each { InputsSendFew }
    ensures opening { OpeningsSendFew }
    ensures all { TracesAreCounted }
{}
