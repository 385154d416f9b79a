//! Numbers part of the way between two others.

ghost use Rattle.std.specs.Prelude.{◌≡◌, ◌<◌, ◌≤◌, ◌/◌, ◌^◌, pos, negsuc, ◌+ℤ◌, ◌≤ℤ◌};
ghost use Rattle.react_core.specs.Interpolation.{part_way};

/// Returns `from + way`, which isn't above `to`.
fn moved_up(from: i64, to: i64, way: u64) -> i64
    requires { (from +ℤ pos way) ≤ℤ to }
    ensures { result ≡ from +ℤ pos way }
{
    (from as i128 + way as i128) as i64
}

/// Returns `from - way - 1`, which isn't below `to`.
fn moved_down(from: i64, to: i64, way: u64) -> i64
    requires { to ≤ℤ (from +ℤ negsuc way) }
    ensures { result ≡ from +ℤ negsuc way }
{
    (from as i128 - way as i128 - 1) as i64
}

/// Returns `number / whole`, which fits into 64 bits. If `number` fits too, the division is one of
/// 64 bits, which is a single instruction.
fn divided(number: u128, whole: u64) -> u64
    requires is_whole { 0 < whole }
    requires fits { number / whole < 2 ^ 64 }
    ensures { result ≡ number / whole }
{
    if number <= u64::MAX as u128 {
        return number as u64 / whole;
    }
    (number / whole as u128) as u64
}

/// Returns the number at `part / whole` of the way from one number to another, rounded down.
#[tactic(auto, unfolding(crate::specs::Interpolation::part_way))]
pub fn part_way(part: u64, whole: u64, from: i64, to: i64) -> i64
    requires is_part { part ≤ whole }
    requires is_whole { 0 < whole }
    ensures { result ≡ part_way part whole from to }
{
    let product = to.abs_diff(from) as u128 * part as u128;
    if from <= to {
        moved_up(from, to, divided(product, whole))
    } else if product == 0 {
        from
    } else {
        moved_down(from, to, divided(product - 1, whole))
    }
}
