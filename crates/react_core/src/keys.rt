//! The keys of interpolators and sequencers.

ghost use Rattle.std.specs.Prelude.{◌≡◌, ◌-◌, ◌<◌, length, true, IfSome};
ghost use Rattle.react_core.specs.Keys.{are_rising, rise_from, reached, step_of, have_steps, IsKeyAt};

/// Returns the index of the last key that isn't above the fraction, or 0 if all keys are above it.
/// Returns `None` if there are no keys, or if a key is below the previous one.
///
/// Checks key by key that the keys rise, and then finds the index by binary search.
#[tactic(auto, unfolding(crate::specs::Keys::step_of))]
pub fn step_index(keys: &[i64], fraction: i64) -> Option<usize>
    ensures value { result ≡ step_of keys.now fraction }
    // The greatest index whose key isn't above the fraction.
    ensures greatest { IfSome result (IsKeyAt keys.now fraction) }
{
    if !have_steps(keys) {
        return None;
    }
    Some(reached(keys, fraction).saturating_sub(1))
}

/// Reports whether there are keys, and no key is below the previous one. Reads each key once.
pub fn have_steps(keys: &[i64]) -> bool
    ensures { result ≡ have_steps keys.now }
{
    !keys.is_empty() && are_rising(keys)
}

/// Reports whether no key is below `low` or below the previous one.
fn rise_from(mut low: i64, keys: &[i64]) -> bool
    ensures { result ≡ rise_from low keys.now }
{
    for key in keys {
        if *key < low {
            return false;
        }
        low = *key;
    }
    true
}

/// Reports whether no key is below the previous one. Reads each key once.
fn are_rising(keys: &[i64]) -> bool
    ensures { result ≡ are_rising keys.now }
{
    match keys {
        [] => true,
        [first, others @ ..] => rise_from(*first, others),
    }
}

/// Returns the number of keys that aren't above the fraction, by binary search.
fn reached(keys: &[i64], fraction: i64) -> usize
    requires { are_rising keys.now ≡ true }
    ensures count { result ≡ reached keys.now fraction }
    ensures step { 0 < length keys.now → IsKeyAt keys.now fraction (result - 1) }
{
    let mut low = 0;
    let mut high = keys.len();
    while low < high {
        let middle = low + (high - low) / 2;
        if keys[middle] <= fraction {
            low = middle + 1;
        } else {
            high = middle;
        }
    }
    low
}
