//! What a command with its options asks for.

ghost use Rattle.std.specs.Prelude.{◌≡◌, IfSome, IfNone, IsSomeAnd, codes, option_map};
ghost use Rattle.clap.specs.Words.{rows_of, found_of, subcommand_rows_of};
ghost use Rattle.app_words.specs.Words.{Asks, text_named};
ghost use Rattle.app_words.specs.declared.order.Order.{Order as OrderOf};

use crate::host::host_asked;
use crate::misfit::{Misfit, host_misfit, misfit_of, recall_misfit, serve_misfit};
use crate::numbers::{is_named, is_text_given, text_in, turns_in, until_in, viewers_in};
use crate::order::Order;
use crate::serve::serve_asked;
use crate::view::view_asked;
use clap::ArgMatches;

fn rehearse_in(found: &ArgMatches<'_>) -> Option<Order>
    ensures some { IfSome result (λ o. Asks o (codes "rehearse", rows_of (found_of found.now))) }
    ensures none { IfNone result
        ((o : OrderOf) → ¬ Asks o (codes "rehearse", rows_of (found_of found.now))) }
{
    let Some(viewers) = viewers_in(found) else {
        return None;
    };
    Some(Order::Rehearse { viewers })
}

fn agree_in(found: &ArgMatches<'_>) -> Option<Order>
    ensures some { IfSome result (λ o. Asks o (codes "agree", rows_of (found_of found.now))) }
    ensures none { IfNone result
        ((o : OrderOf) → ¬ Asks o (codes "agree", rows_of (found_of found.now))) }
{
    let Some(viewers) = viewers_in(found) else {
        return None;
    };
    let Some(turns) = turns_in(found) else {
        return None;
    };
    Some(Order::Agree { viewers, turns })
}

fn host_in(found: &ArgMatches<'_>) -> Option<Order>
    ensures some { IfSome result (λ o. Asks o (codes "host", rows_of (found_of found.now))) }
    ensures none { IfNone result
        ((o : OrderOf) → ¬ Asks o (codes "host", rows_of (found_of found.now))) }
{
    let Some(asked) = host_asked(found) else {
        return None;
    };
    match host_misfit(&asked) {
        None => Some(Order::Host(asked)),
        Some(_) => None,
    }
}

fn view_in(found: &ArgMatches<'_>) -> Option<Order>
    ensures some { IfSome result (λ o. Asks o (codes "view", rows_of (found_of found.now))) }
    ensures none { IfNone result
        ((o : OrderOf) → ¬ Asks o (codes "view", rows_of (found_of found.now))) }
{
    let Some(asked) = view_asked(found) else {
        return None;
    };
    match misfit_of(&asked) {
        None => Some(Order::View(asked)),
        Some(_) => None,
    }
}

fn serve_in(found: &ArgMatches<'_>) -> Option<Order>
    ensures some { IfSome result (λ o. Asks o (codes "serve", rows_of (found_of found.now))) }
    ensures none { IfNone result
        ((o : OrderOf) → ¬ Asks o (codes "serve", rows_of (found_of found.now))) }
{
    let Some(asked) = serve_asked(found) else {
        return None;
    };
    match serve_misfit(&asked) {
        None => Some(Order::Serve(asked)),
        Some(_) => None,
    }
}

fn recall_in(found: &ArgMatches<'_>) -> Option<Order>
    ensures some { IfSome result (λ o. Asks o (codes "recall", rows_of (found_of found.now))) }
    ensures none { IfNone result
        ((o : OrderOf) → ¬ Asks o (codes "recall", rows_of (found_of found.now))) }
{
    let Some(until) = until_in(found) else {
        return None;
    };
    let info = is_named(found, "info");
    let makes = is_text_given(found, "new-log");
    match recall_misfit(info, makes) {
        None => Some(Order::Recall { until, info, makes }),
        Some(_) => None,
    }
}

fn run_in(found: &ArgMatches<'_>) -> Option<Order>
    ensures some { IfSome result (λ o. Asks o (codes "run", rows_of (found_of found.now))) }
    ensures none { IfNone result
        ((o : OrderOf) → ¬ Asks o (codes "run", rows_of (found_of found.now))) }
{
    Some(Order::Run {
        no_trace: is_named(found, "no-trace"),
    })
}

fn part_in(found: &ArgMatches<'_>) -> Option<Order>
    ensures some { IfSome result (λ o. Asks o (codes "part", rows_of (found_of found.now))) }
    ensures none { IfNone result
        ((o : OrderOf) → ¬ Asks o (codes "part", rows_of (found_of found.now))) }
{
    Some(Order::Part {
        list: is_named(found, "list"),
    })
}

fn key_in(found: &ArgMatches<'_>) -> Option<Order>
    ensures some { IfSome result (λ o. Asks o (codes "key", rows_of (found_of found.now))) }
    ensures none { IfNone result
        ((o : OrderOf) → ¬ Asks o (codes "key", rows_of (found_of found.now))) }
{
    let Some(viewers) = viewers_in(found) else {
        return None;
    };
    Some(Order::Key { viewers })
}

/// Returns why the options of `view`, of `host`, of `serve` or of `recall` don't go together, if the
/// matches are of one of these and they don't.
pub fn misfit_in(matches: &ArgMatches<'_>) -> Option<Misfit> {
    match matches.subcommand()? {
        ("host", found) => match host_asked(found) {
            Some(asked) => host_misfit(&asked),
            None => Some(Misfit::TwoLogs),
        },
        ("view", found) => match view_asked(found) {
            Some(asked) => misfit_of(&asked),
            None => Some(Misfit::End),
        },
        ("serve", found) => serve_misfit(&serve_asked(found)?),
        ("recall", found) => {
            recall_misfit(is_named(found, "info"), is_text_given(found, "new-log"))
        }
        _ => None,
    }
}

/// Returns the order of the command of this name with these matches, or `None` if there is none.
fn order_of(name: &str, found: &ArgMatches<'_>) -> Option<Order>
    ensures some { IfSome result (λ o. Asks o (name.now, rows_of (found_of found.now))) }
    ensures none { IfNone result
        ((o : OrderOf) → ¬ Asks o (name.now, rows_of (found_of found.now))) }
{
    match name {
        "run" => run_in(found),
        "format" => Some(Order::Format),
        "check" => Some(Order::Check),
        "rehearse" => rehearse_in(found),
        "agree" => agree_in(found),
        "host" => host_in(found),
        "view" => view_in(found),
        "serve" => serve_in(found),
        "recall" => recall_in(found),
        "part" => part_in(found),
        "key" => key_in(found),
        _ => None,
    }
}

/// Returns the order of the subcommand that the matches have, or `None` if there is none.
pub fn order_in(matches: &ArgMatches<'_>) -> Option<Order>
    ensures some { IfSome result (λ o. IsSomeAnd (subcommand_rows_of matches.now) (Asks o)) }
    ensures none { IfNone result
        ((o : OrderOf) → ¬ IsSomeAnd (subcommand_rows_of matches.now) (Asks o)) }
{
    let (name, found) = matches.subcommand()?;
    order_of(name, found)
}

/// Returns the text that the option of this name has in the subcommand, if it was given.
pub fn text_of<'a>(matches: &ArgMatches<'a>, id: &str) -> Option<&'a str>
    ensures { option_map (λ s. s.now) result ≡ text_named id.now (subcommand_rows_of matches.now) }
{
    match matches.subcommand() {
        Some((_name, found)) => text_in(found, id),
        None => None,
    }
}
