//! What a world's scripts ask of their boxes.

ghost use Rattle.std.specs.Prelude.{◌≡◌, ◌↔◌, length, slice_get, IsSomeAnd, IsTrue, MatchOption, None};
ghost use Rattle.script_slots.specs.Asked.{KnownBelow};

use x3d_values::ScriptSpec;

/// Returns the index of the first script whose kind is unknown, or `None` if all kinds are known.
pub fn first_unknown(specs: &[ScriptSpec]) -> Option<usize>
    ensures { MatchOption result
        (KnownBelow specs.now (length specs.now))
        (λ k. KnownBelow specs.now k × IsSomeAnd (slice_get specs.now k) (λ s. s.kind ≡ None)) }
{
    for (k, spec) in specs.iter().enumerate() {
        if spec.kind.is_none() {
            return Some(k);
        }
    }
    None
}

/// Reports whether there are as many boxes as scripts.
pub fn are_as_many(specs: &[ScriptSpec], boxes: usize) -> bool
    ensures { IsTrue result ↔ (length specs.now ≡ boxes) }
{
    specs.len() == boxes
}

/// Reports whether a state is the one in which the script starts.
pub fn starts_in(spec: &ScriptSpec, state: &[i64]) -> bool
    ensures { IsTrue result ↔ (state.now ≡ spec.now.start) }
{
    are_same(state, spec.start.as_slice())
}

fn are_same(one: &[i64], other: &[i64]) -> bool
    ensures { IsTrue result ↔ (one.now ≡ other.now) }
{
    one == other
}
