//! What `view` with its options asks for.

ghost use Rattle.std.specs.Prelude.{◌≡◌, ℕ, Option, IfSome, IfNone};
ghost use Rattle.clap.specs.Words.{rows_of, found_of};
ghost use Rattle.app_words.specs.Words.{AsksView, IsEnd, end_of};
ghost use Rattle.app_words.specs.Words.{HasPorts, HasTurns, IsGiveTurns, IsWho};
ghost use Rattle.app_words.specs.Words.{MayHaveAt, MayHaveBoot, MayHaveExactly, MayHaveGive};
ghost use Rattle.app_words.specs.Words.{MayHaveWire};
ghost use Rattle.app_words.specs.declared.order.ViewEnd.{ViewEnd as EndOf};
ghost use Rattle.app_words.specs.declared.order.ViewOrder.{ViewOrder as ViewOf};
ghost use Rattle.app_words.specs.declared.view.ViewPorts.{ViewPorts as PortsOf};
ghost use Rattle.app_words.specs.declared.view.ViewTurns.{ViewTurns as TurnsOf};

use crate::numbers::{
    forget_in, is_named, is_text_given, number_in, optional_in, optional_u32_in, port_in,
    port_or_none, turns_in, until_in,
};
use crate::options::MAX_WHO;
use crate::order::{ViewEnd, ViewOrder};
use clap::ArgMatches;
use x3d_values::MAX_INPUTS;

/// The ports that `view` names.
#[derive(Clone, Copy)]
struct ViewPorts {
    host: Option<u16>,
    at: Option<u16>,
    give: Option<u16>,
}

/// How many turns `view` takes at most, and how many it gives.
#[derive(Clone, Copy)]
struct ViewTurns {
    all: u32,
    give: u32,
}

fn who_in(found: &ArgMatches<'_>) -> Option<u8>
    ensures some { IfSome result (λ n. IsWho (rows_of (found_of found.now)) n) }
    ensures none { IfNone result ((n : ℕ) → ¬ IsWho (rows_of (found_of found.now)) n) }
{
    let who = number_in(found, "who", 0, MAX_WHO as u64)?;
    Some(who as u8)
}

fn boot_in(found: &ArgMatches<'_>) -> Option<Option<u32>>
    ensures some { IfSome result (λ o. MayHaveBoot (rows_of (found_of found.now)) o) }
    ensures none { IfNone result
        ((o : Option ℕ) → ¬ MayHaveBoot (rows_of (found_of found.now)) o) }
{
    optional_u32_in(found, "boot", 1, u32::MAX)
}

fn exactly_in(found: &ArgMatches<'_>) -> Option<Option<u64>>
    ensures some { IfSome result (λ o. MayHaveExactly (rows_of (found_of found.now)) o) }
    ensures none { IfNone result
        ((o : Option ℕ) → ¬ MayHaveExactly (rows_of (found_of found.now)) o) }
{
    optional_in(found, "exactly", 0, MAX_INPUTS)
}

fn at_in(found: &ArgMatches<'_>) -> Option<Option<u16>>
    ensures some { IfSome result (λ o. MayHaveAt (rows_of (found_of found.now)) o) }
    ensures none { IfNone result
        ((o : Option ℕ) → ¬ MayHaveAt (rows_of (found_of found.now)) o) }
{
    port_or_none(found, "at")
}

fn give_in(found: &ArgMatches<'_>) -> Option<Option<u16>>
    ensures some { IfSome result (λ o. MayHaveGive (rows_of (found_of found.now)) o) }
    ensures none { IfNone result
        ((o : Option ℕ) → ¬ MayHaveGive (rows_of (found_of found.now)) o) }
{
    port_or_none(found, "give")
}

/// Returns the port of the host, the viewer's own and the one that it gives to, each if it was
/// given, or `None` if one is out of its range.
fn ports_in(found: &ArgMatches<'_>) -> Option<ViewPorts>
    ensures some { IfSome result (λ p. HasPorts (rows_of (found_of found.now)) p) }
    ensures none { IfNone result
        ((p : PortsOf) → ¬ HasPorts (rows_of (found_of found.now)) p) }
{
    let Some(host) = port_in(found) else {
        return None;
    };
    let Some(at) = at_in(found) else {
        return None;
    };
    let Some(give) = give_in(found) else {
        return None;
    };
    Some(ViewPorts { host, at, give })
}

fn give_turns_in(found: &ArgMatches<'_>) -> Option<u32>
    ensures some { IfSome result (λ n. IsGiveTurns (rows_of (found_of found.now)) n) }
    ensures none { IfNone result ((n : ℕ) → ¬ IsGiveTurns (rows_of (found_of found.now)) n) }
{
    let turns = number_in(found, "give-turns", 1, u32::MAX as u64)?;
    Some(turns as u32)
}

/// Returns the numbers of `--turns` and `--give-turns`, or `None` if one is out of its range.
fn view_turns_in(found: &ArgMatches<'_>) -> Option<ViewTurns>
    ensures some { IfSome result (λ t. HasTurns (rows_of (found_of found.now)) t) }
    ensures none { IfNone result
        ((t : TurnsOf) → ¬ HasTurns (rows_of (found_of found.now)) t) }
{
    let Some(all) = turns_in(found) else {
        return None;
    };
    let Some(give) = give_turns_in(found) else {
        return None;
    };
    Some(ViewTurns { all, give })
}

/// Returns the version of datagrams, or `Some(None)` if the option was left out.
fn wire_in(found: &ArgMatches<'_>) -> Option<Option<u8>>
    ensures some { IfSome result (λ o. MayHaveWire (rows_of (found_of found.now)) o) }
    ensures none { IfNone result
        ((o : Option ℕ) → ¬ MayHaveWire (rows_of (found_of found.now)) o) }
{
    match optional_in(found, "wire", 1, 2) {
        Some(Some(wire)) => Some(Some(wire as u8)),
        Some(None) => Some(None),
        None => None,
    }
}

/// Returns the end that `--until` and `--exactly` ask for, if exactly one of them has a number.
fn end_of(until: Option<u64>, exactly: Option<u64>) -> Option<ViewEnd>
    ensures { result ≡ end_of until exactly }
{
    match (until, exactly) {
        (Some(n), None) => Some(ViewEnd::Until(n)),
        (None, Some(n)) => Some(ViewEnd::Exactly(n)),
        (Some(_), Some(_)) => None,
        (None, None) => None,
    }
}

/// Returns the end that the matches ask for, if exactly one of `--until` and `--exactly` was given.
#[tactic(auto, using(crate::proofs::AskedLemmas::ends))]
fn end_in(found: &ArgMatches<'_>) -> Option<ViewEnd>
    ensures some { IfSome result (λ e. IsEnd (rows_of (found_of found.now)) e) }
    ensures none { IfNone result ((e : EndOf) → ¬ IsEnd (rows_of (found_of found.now)) e) }
{
    let Some(until) = until_in(found) else {
        return None;
    };
    let Some(exactly) = exactly_in(found) else {
        return None;
    };
    end_of(until, exactly)
}

/// Returns what `view` is asked for, or `None` if a number is out of its range, or not exactly one
/// of `--until` and `--exactly` was given.
pub(crate) fn view_asked(found: &ArgMatches<'_>) -> Option<ViewOrder>
    ensures some { IfSome result (λ o. AsksView (rows_of (found_of found.now)) o) }
    ensures none { IfNone result ((o : ViewOf) → ¬ AsksView (rows_of (found_of found.now)) o) }
{
    let Some(ports) = ports_in(found) else {
        return None;
    };
    let Some(who) = who_in(found) else {
        return None;
    };
    let Some(boot) = boot_in(found) else {
        return None;
    };
    let Some(end) = end_in(found) else {
        return None;
    };
    let Some(turns) = view_turns_in(found) else {
        return None;
    };
    let Some(wire) = wire_in(found) else {
        return None;
    };
    let Some(forget) = forget_in(found) else {
        return None;
    };
    Some(ViewOrder {
        port: ports.host,
        has_address: is_text_given(found, "host"),
        has_key: is_text_given(found, "key"),
        has_world: is_text_given(found, "world"),
        is_open: is_named(found, "open"),
        who,
        boot,
        end,
        turns: turns.all,
        at: ports.at,
        give: ports.give,
        give_turns: turns.give,
        wire,
        join: is_named(found, "join"),
        forget,
        verbose: is_named(found, "verbose"),
    })
}
