//! The numbers of options, and whether an option was given.

ghost use Rattle.std.specs.Prelude.{◌≡◌, ◌<◌, ◌≤◌, ◌^◌, ℕ, true, false, Option, IfSome, IfNone};
ghost use Rattle.std.specs.Prelude.{option_map};
ghost use Rattle.clap.specs.Words.{first_of, rows_of, found_of};
ghost use Rattle.app_words.specs.Words.{HasNumber, HasNumberIn, IsLeftOut, MayHaveNumberIn};
ghost use Rattle.app_words.specs.Words.{is_given, is_text_given};
ghost use Rattle.app_words.specs.Words.{IsTurns, IsViewers, MayHaveBase, MayHaveForget};
ghost use Rattle.app_words.specs.Words.{MayHavePort};
ghost use Rattle.app_words.specs.Words.{MayHaveUntil};

use clap::ArgMatches;
use x3d_values::{MAX_INPUTS, MAX_VIEWERS};

/// Returns the number of an option.
fn number(matches: &ArgMatches<'_>, id: &str) -> Option<u64>
    ensures some { IfSome result (λ n. HasNumber id.now (rows_of (found_of matches.now)) n) }
    ensures none { IfNone result
        ((n : ℕ) → n < 2 ^ 64 → ¬ HasNumber id.now (rows_of (found_of matches.now)) n) }
{
    matches.get_one::<u64>(id)
}

/// Returns the number of an option, if it is from `low` to `high`. An option's default counts as
/// its number.
pub fn number_in(matches: &ArgMatches<'_>, id: &str, low: u64, high: u64) -> Option<u64>
    ensures some { IfSome result
        (λ n. HasNumberIn id.now (rows_of (found_of matches.now)) low high n) }
    ensures none { IfNone result
        ((n : ℕ) → ¬ HasNumberIn id.now (rows_of (found_of matches.now)) low high n) }
{
    match number(matches, id) {
        Some(n) if low <= n && n <= high => Some(n),
        _ => None,
    }
}

/// Reports whether an option was not given and has no default.
fn is_left_out(matches: &ArgMatches<'_>, id: &str) -> bool
    ensures yes { (result ≡ true) → IsLeftOut id.now (rows_of (found_of matches.now)) }
    ensures no { (result ≡ false) → ¬ IsLeftOut id.now (rows_of (found_of matches.now)) }
{
    matches.get_str(id).is_none()
}

/// Returns the number of an option, if it is from `low` to `high`, or `Some(None)` if the option
/// was left out and has no default.
pub fn optional_in(matches: &ArgMatches<'_>, id: &str, low: u64, high: u64) -> Option<Option<u64>>
    ensures some { IfSome result
        (λ o. MayHaveNumberIn id.now (rows_of (found_of matches.now)) low high o) }
    ensures none { IfNone result
        ((o : Option ℕ) → ¬ MayHaveNumberIn id.now (rows_of (found_of matches.now)) low high o) }
{
    if is_left_out(matches, id) {
        return Some(None);
    }
    match number_in(matches, id, low, high) {
        Some(n) => Some(Some(n)),
        None => None,
    }
}

/// Returns the number of an option whose numbers have 32 bits, if it is from `low` to `high`, or
/// `Some(None)` if the option was left out and has no default.
pub fn optional_u32_in(
    matches: &ArgMatches<'_>,
    id: &str,
    low: u32,
    high: u32,
) -> Option<Option<u32>>
    ensures some { IfSome result
        (λ o. MayHaveNumberIn id.now (rows_of (found_of matches.now)) low high o) }
    ensures none { IfNone result
        ((o : Option ℕ) → ¬ MayHaveNumberIn id.now (rows_of (found_of matches.now)) low high o) }
{
    match optional_in(matches, id, low as u64, high as u64) {
        Some(Some(n)) => Some(Some(n as u32)),
        Some(None) => Some(None),
        None => None,
    }
}

/// Reports whether an option that takes no value was given.
pub fn is_named(matches: &ArgMatches<'_>, id: &str) -> bool
    ensures { result ≡ is_given id.now (rows_of (found_of matches.now)) }
{
    matches.get_one::<bool>(id).unwrap_or(false)
}

/// Returns the text of an option, if it was given.
pub fn text_in<'a>(matches: &ArgMatches<'a>, id: &str) -> Option<&'a str>
    ensures { option_map (λ s. s.now) result ≡ first_of id.now (rows_of (found_of matches.now)) }
{
    matches.get_str(id)
}

/// Reports whether an option that takes a text was given.
pub fn is_text_given(matches: &ArgMatches<'_>, id: &str) -> bool
    ensures { result ≡ is_text_given id.now (rows_of (found_of matches.now)) }
{
    text_in(matches, id).is_some()
}

/// Returns the number of viewers of `rehearse` or `agree`.
pub fn viewers_in(found: &ArgMatches<'_>) -> Option<u8>
    ensures some { IfSome result (λ n. IsViewers (rows_of (found_of found.now)) n) }
    ensures none { IfNone result ((n : ℕ) → ¬ IsViewers (rows_of (found_of found.now)) n) }
{
    let viewers = number_in(found, "viewers", 1, MAX_VIEWERS as u64)?;
    Some(viewers as u8)
}

/// Returns the most turns that a command takes.
pub fn turns_in(found: &ArgMatches<'_>) -> Option<u32>
    ensures some { IfSome result (λ n. IsTurns (rows_of (found_of found.now)) n) }
    ensures none { IfNone result ((n : ℕ) → ¬ IsTurns (rows_of (found_of found.now)) n) }
{
    let turns = number_in(found, "turns", 1, 10_000_000)?;
    Some(turns as u32)
}

/// Returns the UDP port, 1 to 65,535, that an option names, or `Some(None)` if the option was left
/// out.
pub fn port_or_none(found: &ArgMatches<'_>, id: &str) -> Option<Option<u16>>
    ensures some { IfSome result
        (λ o. MayHaveNumberIn id.now (rows_of (found_of found.now)) 1 65535 o) }
    ensures none { IfNone result ((o : Option ℕ)
        → ¬ MayHaveNumberIn id.now (rows_of (found_of found.now)) 1 65535 o) }
{
    match optional_in(found, id, 1, 65535) {
        Some(Some(port)) => Some(Some(port as u16)),
        Some(None) => Some(None),
        None => None,
    }
}

/// Returns the port of 127.0.0.1 of a host, or `Some(None)` if it was left out.
pub fn port_in(found: &ArgMatches<'_>) -> Option<Option<u16>>
    ensures some { IfSome result (λ o. MayHavePort (rows_of (found_of found.now)) o) }
    ensures none { IfNone result
        ((o : Option ℕ) → ¬ MayHavePort (rows_of (found_of found.now)) o) }
{
    port_or_none(found, "port")
}

/// Returns the number of `--until`, or `Some(None)` if it was left out.
pub fn until_in(found: &ArgMatches<'_>) -> Option<Option<u64>>
    ensures some { IfSome result (λ o. MayHaveUntil (rows_of (found_of found.now)) o) }
    ensures none { IfNone result
        ((o : Option ℕ) → ¬ MayHaveUntil (rows_of (found_of found.now)) o) }
{
    optional_in(found, "until", 0, MAX_INPUTS)
}

/// Returns the number of `--base`, or `Some(None)` if it was left out.
pub fn base_in(found: &ArgMatches<'_>) -> Option<Option<u64>>
    ensures some { IfSome result (λ o. MayHaveBase (rows_of (found_of found.now)) o) }
    ensures none { IfNone result
        ((o : Option ℕ) → ¬ MayHaveBase (rows_of (found_of found.now)) o) }
{
    optional_in(found, "base", 100, MAX_INPUTS)
}

/// Returns the number of `--forget`, or `Some(None)` if it was left out.
pub fn forget_in(found: &ArgMatches<'_>) -> Option<Option<u64>>
    ensures some { IfSome result (λ o. MayHaveForget (rows_of (found_of found.now)) o) }
    ensures none { IfNone result
        ((o : Option ℕ) → ¬ MayHaveForget (rows_of (found_of found.now)) o) }
{
    optional_in(found, "forget", 0, MAX_INPUTS)
}
