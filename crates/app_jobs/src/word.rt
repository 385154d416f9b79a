//! Numbers in decimal digits.

ghost use Rattle.std.specs.Prelude.{◌≡◌, ◌<◌, IfSome};
ghost use Rattle.x3d_numerals.specs.Reading.{is_digits as are_digits, run};
ghost use Rattle.app_jobs.specs.Points as spec;
ghost use Rattle.app_jobs.specs.Schedule.{number};

use x3d_numerals::millionths;

/// All numbers of a schedule are below this limit.
const ALL_NUMBERS: u64 = 1 << 32;

/// Returns how many decimal digits the text begins with.
fn digits_len(text: &[u8]) -> usize
    ensures { result ≡ run 10 text.now }
{
    text.iter()
        .take_while(|byte| char::from(**byte).is_digit(10))
        .count()
}

/// Reports whether a text is one or more decimal digits.
fn is_digits(text: &[u8]) -> bool
    ensures { result ≡ are_digits 10 text.now }
{
    if text.is_empty() {
        return false;
    }
    digits_len(text) == text.len()
}

/// Returns a number in decimal digits, if it is below the limit.
#[tactic(auto, using(crate::proofs::Passed::passed), unfolding(crate::specs::Points::number_below))]
fn units_below(limit: u64, text: &[u8]) -> Option<u64>
    ensures value { result ≡ spec.number_below limit text.now }
    ensures below { IfSome result (λ n. n < limit) }
{
    if !is_digits(text) {
        return None;
    }
    let Ok(number) = millionths(text) else {
        return None;
    };
    if number < 0 {
        return None;
    }
    let units = number as u64 / 1_000_000;
    if units < limit { Some(units) } else { None }
}

/// Returns a number in decimal digits, if it is below a small limit.
pub fn number_below(limit: u8, text: &[u8]) -> Option<u8>
    ensures { result ≡ spec.number_below limit text.now }
{
    match units_below(u64::from(limit), text) {
        Some(number) => Some(number as u8),
        None => None,
    }
}

/// Returns a number in decimal digits, if it is below 2^32.
#[tactic(auto, unfolding(crate::specs::Schedule::number))]
pub fn number(text: &[u8]) -> Option<u32>
    ensures { result ≡ number text.now }
{
    match units_below(ALL_NUMBERS, text) {
        Some(number) => Some(number as u32),
        None => None,
    }
}
