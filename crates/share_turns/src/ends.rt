//! From which number on a host keeps its inputs, and when it is done.

ghost use Rattle.std.specs.Prelude.{◌≡◌, ◌<◌, ◌+◌, ◌^◌};
ghost use Rattle.share_turns.specs.Ends.{floor_for, is_done, lacks};

/// Returns the floor of a host that keeps the last `keep` of the inputs below `lowest`: those that
/// every viewer it heard of has asked past. The floor is never below `floor`, the previous one. It
/// is at most the number of the next input, if `floor` is.
pub fn floor_for(keep: u64, lowest: u64, floor: u64, count: u64) -> u64
    requires { count + 1 < 2 ^ 64 }
    ensures { result ≡ floor_for keep lowest floor count }
{
    lowest.min(count + 1).saturating_sub(keep).max(floor)
}

/// Reports whether a viewer that the host counts lacks input `until`. `lowest` is the lowest number
/// that one of these asked from, if the host counts any.
fn lacks(until: u64, lowest: Option<u64>) -> bool
    ensures { result ≡ lacks until lowest }
{
    match lowest {
        Some(lowest) => lowest <= until,
        None => false,
    }
}

/// Reports whether a host that has numbered `count` inputs, and gives up silent viewers, is done:
/// it has heard of a viewer, `until` inputs are numbered, and no viewer that it counts lacks one of
/// them. `lowest` is the lowest number that one of these asked from, if it counts any. Without
/// `until` it is never done.
pub fn is_done(until: Option<u64>, is_any: bool, lowest: Option<u64>, count: u64) -> bool
    ensures { result ≡ is_done until is_any lowest count }
{
    match until {
        Some(until) if is_any => until <= count && !lacks(until, lowest),
        _ => false,
    }
}
