//! What `serve` with its options asks for.

ghost use Rattle.std.specs.Prelude.{IfSome, IfNone};
ghost use Rattle.clap.specs.Words.{rows_of, found_of};
ghost use Rattle.app_words.specs.Words.{AsksServe};
ghost use Rattle.app_words.specs.declared.order.ServeOrder.{ServeOrder as ServeOf};

use crate::host::{every_in, kept_in, viewers_or_none};
use crate::numbers::{base_in, is_named, is_text_given, port_in};
use crate::order::ServeOrder;
use clap::ArgMatches;

/// Returns what `serve` is asked for, or `None` if a number is out of its range.
pub(crate) fn serve_asked(found: &ArgMatches<'_>) -> Option<ServeOrder>
    ensures some { IfSome result (λ o. AsksServe (rows_of (found_of found.now)) o) }
    ensures none { IfNone result
        ((o : ServeOf) → ¬ AsksServe (rows_of (found_of found.now)) o) }
{
    let Some(port) = port_in(found) else {
        return None;
    };
    let Some(viewers) = viewers_or_none(found) else {
        return None;
    };
    let Some(kept) = kept_in(found) else {
        return None;
    };
    let Some(base) = base_in(found) else {
        return None;
    };
    let Some(every) = every_in(found) else {
        return None;
    };
    Some(ServeOrder {
        port,
        has_address: is_text_given(found, "listen"),
        is_open: is_named(found, "open"),
        has_etcd: is_text_given(found, "etcd"),
        has_login: is_text_given(found, "login"),
        viewers,
        keep: kept.keep,
        forget: kept.forget,
        base,
        every,
        verbose: is_named(found, "verbose"),
    })
}
