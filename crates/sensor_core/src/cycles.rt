//! The cycles of a TimeSensor, from its start on, in whole microseconds.

ghost use Rattle.std.specs.Prelude.{◌≡◌, ◌*◌, ◌/◌, ◌-◌, ◌<◌, ◌^◌, ℤ, pos, negsuc, ◌<ℤ◌, ◌≤ℤ◌, ◌-ℤ◌, int_le, unsigned_abs, Some, None, IfSome, if◌then◌else◌};
ghost use Rattle.x3d_values.specs.Ranges.{max_time};
ghost use Rattle.sensor_core.specs.Cycles.{IsNear, AreCycles, cycle_at, cycle_time, cycle_end, fraction_at, elapsed_at};

use x3d_values::MAX_TIME;

/// Returns the time from the start to `t`.
fn since(start: i64, t: i64) -> i64
    requires start { IsNear start }
    requires near { IsNear t }
    ensures value { result ≡ t -ℤ start }
    ensures early { negsuc (2 * max_time - 1) ≤ℤ result }
    ensures late { result ≤ℤ pos (2 * max_time) }
{
    t - start
}

/// Returns the number of the cycle at a time, counted from the start.
#[tactic(auto, unfolding(crate::specs::Cycles::cycle_at))]
pub fn cycle_at(start: i64, interval: i64, t: i64) -> i64
    requires cycles { AreCycles start interval }
    requires near { IsNear t }
    ensures value { result ≡ cycle_at start interval t }
    ensures fits { unsigned_abs result < 2 ^ 63 }
    ensures not_negative { start ≤ℤ t → pos 0 ≤ℤ result }
{
    since(start, t).div_euclid(interval)
}

/// Returns when the cycle at a time began.
pub fn cycle_time(start: i64, interval: i64, t: i64) -> i64
    requires cycles { AreCycles start interval }
    requires near { IsNear t }
    requires after { pos 0 ≤ℤ t }
    ensures { result ≡ cycle_time start interval t }
{
    t - since(start, t).rem_euclid(interval)
}

/// Returns the length, if that much time has passed.
fn gone_by(length: u128, elapsed: i64) -> Option<i64>
    ensures value { result ≡ (if int_le (pos length) elapsed then Some (pos length) else None) }
    ensures some { IfSome result (λ length. pos 0 ≤ℤ length) }
    ensures within { IfSome result (λ length. length ≤ℤ elapsed) }
{
    if elapsed < 0 {
        return None;
    }
    if (elapsed as u128) < length {
        return None;
    }
    Some(length as i64)
}

/// Returns the end of a cycle, if that end isn't after time `t`.
pub fn end_by(start: i64, interval: i64, cycle: u64, t: i64) -> Option<i64>
    requires cycles { AreCycles start interval }
    requires near { IsNear t }
    ensures value { result ≡ (if int_le (cycle_end start interval cycle) t
        then Some (cycle_end start interval cycle) else None) }
    ensures near { IfSome result IsNear }
{
    let length = (cycle as u128 + 1) * interval as u128;
    let length = gone_by(length, since(start, t))?;
    Some(start + length)
}

/// Returns a part of a cycle, in millionths.
fn millionths(part: u64, whole: u64) -> i64
    requires { part < whole }
    ensures { result ≡ pos (part * 1000000 / whole) }
{
    (part as u128 * 1_000_000 / whole as u128) as i64
}

/// Returns the fraction of its cycle that a time has reached, in millionths: 1 at the end of a
/// cycle.
#[tactic(auto, unfolding(crate::specs::Cycles::fraction_at))]
pub fn fraction_at(start: i64, interval: i64, x: i64) -> i64
    requires cycles { AreCycles start interval }
    requires near { IsNear x }
    ensures { result ≡ fraction_at start interval x }
{
    let rest = since(start, x).rem_euclid(interval) as u64;
    let part = millionths(rest, interval as u64);
    if x <= start {
        return part;
    }
    if rest == 0 { 1_000_000 } else { part }
}

/// Returns the time from the start to `x`, at most 10^18 microseconds.
#[tactic(auto, unfolding(crate::specs::Cycles::elapsed_at))]
pub fn elapsed_at(start: i64, x: i64) -> i64
    requires start { IsNear start }
    requires near { IsNear x }
    ensures { result ≡ elapsed_at start x }
{
    since(start, x).min(MAX_TIME)
}
