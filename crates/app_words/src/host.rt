//! What `host` with its options asks for.

ghost use Rattle.std.specs.Prelude.{◌≡◌, ℕ, Option, IfSome, IfNone};
ghost use Rattle.clap.specs.Words.{rows_of, found_of};
ghost use Rattle.app_words.specs.Words.{AsksHost, HasKept, log_use_in, log_use_of};
ghost use Rattle.app_words.specs.Words.{MayHaveEvery, MayHaveKeep, MayHaveStandby, MayHaveTurns};
ghost use Rattle.app_words.specs.Words.{MayHaveViewers};
ghost use Rattle.app_words.specs.declared.host.Kept.{Kept as KeptOf};
ghost use Rattle.app_words.specs.declared.order.HostOrder.{HostOrder as HostOf};

use crate::numbers::{
    forget_in, is_named, is_text_given, optional_in, optional_u32_in, port_in, until_in,
};
use crate::order::{HostOrder, LogUse};
use clap::ArgMatches;
use x3d_values::{MAX_INPUTS, MAX_VIEWERS};

/// How many of the last inputs a host keeps, and how many keep their lines of the trace.
#[derive(Clone, Copy)]
pub(crate) struct Kept {
    pub(crate) keep: Option<u64>,
    pub(crate) forget: Option<u64>,
}

/// Returns the number of viewers of `host` or `serve`, or `Some(None)` if it was left out.
pub(crate) fn viewers_or_none(found: &ArgMatches<'_>) -> Option<Option<u8>>
    ensures some { IfSome result (λ o. MayHaveViewers (rows_of (found_of found.now)) o) }
    ensures none { IfNone result
        ((o : Option ℕ) → ¬ MayHaveViewers (rows_of (found_of found.now)) o) }
{
    match optional_in(found, "viewers", 1, MAX_VIEWERS as u64) {
        Some(Some(viewers)) => Some(Some(viewers as u8)),
        Some(None) => Some(None),
        None => None,
    }
}

fn turns_or_none(found: &ArgMatches<'_>) -> Option<Option<u32>>
    ensures some { IfSome result (λ o. MayHaveTurns (rows_of (found_of found.now)) o) }
    ensures none { IfNone result
        ((o : Option ℕ) → ¬ MayHaveTurns (rows_of (found_of found.now)) o) }
{
    optional_u32_in(found, "turns", 1, 10_000_000)
}

/// Returns the number of `--keep`, or `Some(None)` if it was left out.
fn keep_in(found: &ArgMatches<'_>) -> Option<Option<u64>>
    ensures some { IfSome result (λ o. MayHaveKeep (rows_of (found_of found.now)) o) }
    ensures none { IfNone result
        ((o : Option ℕ) → ¬ MayHaveKeep (rows_of (found_of found.now)) o) }
{
    optional_in(found, "keep", 0, MAX_INPUTS)
}

/// Returns the numbers of `--keep` and `--forget`, each if it was given, or `None` if one is out of
/// its range.
pub(crate) fn kept_in(found: &ArgMatches<'_>) -> Option<Kept>
    ensures some { IfSome result (λ k. HasKept (rows_of (found_of found.now)) k) }
    ensures none { IfNone result
        ((k : KeptOf) → ¬ HasKept (rows_of (found_of found.now)) k) }
{
    let Some(keep) = keep_in(found) else {
        return None;
    };
    let Some(forget) = forget_in(found) else {
        return None;
    };
    Some(Kept { keep, forget })
}

/// Returns the number of `--every`, or `Some(None)` if it was left out.
pub(crate) fn every_in(found: &ArgMatches<'_>) -> Option<Option<u32>>
    ensures some { IfSome result (λ o. MayHaveEvery (rows_of (found_of found.now)) o) }
    ensures none { IfNone result
        ((o : Option ℕ) → ¬ MayHaveEvery (rows_of (found_of found.now)) o) }
{
    optional_u32_in(found, "every", 1, 3_600_000)
}

fn standby_in(found: &ArgMatches<'_>) -> Option<Option<u32>>
    ensures some { IfSome result (λ o. MayHaveStandby (rows_of (found_of found.now)) o) }
    ensures none { IfNone result
        ((o : Option ℕ) → ¬ MayHaveStandby (rows_of (found_of found.now)) o) }
{
    optional_u32_in(found, "standby", 1, 3_600)
}

/// Returns what is done with a log, by which of `--log`, `--new-log` and `--etcd` was given, unless
/// more than one was.
fn log_use_of(goes_on: bool, makes: bool, shares: bool) -> Option<LogUse>
    ensures { result ≡ log_use_of goes_on makes shares }
{
    match (goes_on, makes, shares) {
        (false, false, false) => Some(LogUse::Without),
        (true, false, false) => Some(LogUse::GoesOn),
        (false, true, false) => Some(LogUse::Makes),
        (false, false, true) => Some(LogUse::Shares),
        _ => None,
    }
}

fn log_use_in(found: &ArgMatches<'_>) -> Option<LogUse>
    ensures { result ≡ log_use_in (rows_of (found_of found.now)) }
{
    let goes_on = is_text_given(found, "log");
    let makes = is_text_given(found, "new-log");
    let shares = is_text_given(found, "etcd");
    log_use_of(goes_on, makes, shares)
}

/// Returns what `host` is asked for, or `None` if a number is out of its range, or more than one of
/// `--log`, `--new-log` and `--etcd` was given.
pub(crate) fn host_asked(found: &ArgMatches<'_>) -> Option<HostOrder>
    ensures some { IfSome result (λ o. AsksHost (rows_of (found_of found.now)) o) }
    ensures none { IfNone result ((o : HostOf) → ¬ AsksHost (rows_of (found_of found.now)) o) }
{
    let Some(port) = port_in(found) else {
        return None;
    };
    let Some(log) = log_use_in(found) else {
        return None;
    };
    let Some(viewers) = viewers_or_none(found) else {
        return None;
    };
    let Some(turns) = turns_or_none(found) else {
        return None;
    };
    let Some(kept) = kept_in(found) else {
        return None;
    };
    let Some(every) = every_in(found) else {
        return None;
    };
    let Some(standby) = standby_in(found) else {
        return None;
    };
    let Some(until) = until_in(found) else {
        return None;
    };
    Some(HostOrder {
        port,
        has_address: is_text_given(found, "listen"),
        has_keys: is_text_given(found, "keys"),
        is_open: is_named(found, "open"),
        log,
        has_world: is_text_given(found, "world"),
        has_login: is_text_given(found, "login"),
        standby,
        viewers,
        turns,
        keep: kept.keep,
        forget: kept.forget,
        every,
        until,
        verbose: is_named(found, "verbose"),
    })
}
