//! Arithmetic that rounds down and clamps its results.

ghost use Rattle.std.specs.Prelude.{◌≡◌, ◌≤◌, ◌<◌, ◌+ℤ◌, length, IsTrue};
ghost use Rattle.std.specs.List.{list_all};
ghost use Rattle.script_host.specs.Behaviour.{clamped, part_way, mean};
ghost use Rattle.x3d_values.specs.Ranges.{coordinate_fits};

/// The largest absolute value of a number, in millionths.
const LIMIT: i128 = x3d_values::MAX_COORDINATE as i128;

/// Returns the nearest number whose absolute value is at most 10^15.
fn clamped(number: i128) -> i64
    ensures { result ≡ clamped number }
{
    number.clamp(-LIMIT, LIMIT) as i64
}

/// Returns the sum, clamped to an absolute value of at most 10^15.
pub fn clamped_sum(a: i64, b: i64) -> i64
    ensures { result ≡ clamped (a +ℤ b) }
{
    clamped(a as i128 + b as i128)
}

/// Returns the number at a fraction, in millionths, of the way from one number to another, rounded
/// down and clamped to an absolute value of at most 10^15.
pub fn part_way(fraction: i64, from: i64, to: i64) -> i64
    ensures { result ≡ part_way fraction from to }
{
    let product = fraction as i128 * (to as i128 - from as i128);
    clamped(from as i128 + product.div_euclid(1_000_000))
}

/// Returns the mean of 1 to 8 numbers, rounded down.
pub fn mean(readings: &[i64]) -> i64
    requires some { 0 < length readings.now }
    requires few { length readings.now ≤ 8 }
    requires fit { IsTrue (list_all coordinate_fits readings.now) }
    ensures { result ≡ mean readings.now }
{
    let mut sum: i64 = 0;
    for reading in readings {
        sum += *reading;
    }
    sum.div_euclid(readings.len() as i64)
}
