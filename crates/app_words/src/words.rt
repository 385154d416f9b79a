//! What words ask for, as parsed by `clap`.

ghost use Rattle.std.specs.Prelude.{◌≡◌, ◌≢◌, ◌⊎◌, [], map, option_map};
ghost use Rattle.std.specs.Prelude.{IfOk, IfErr};
ghost use Rattle.clap.specs.Words.{fault_of, kind_of, subcommand_of};
ghost use Rattle.app_words.specs.Commands.{program};
ghost use Rattle.app_words.specs.Words.{IsText, IsRefusal, text_named};
ghost use Rattle.app_words.specs.Request.{IsRequest, RequestsNothing};
ghost use Rattle.app_faults.specs.declared.fault.OrderFault.TheVariants as fault;
ghost use Rattle.clap.specs.declared.error.kind.ErrorKind.TheVariants as error_kind;

use crate::asked::{self, order_in};
use crate::commands::program_command;
use crate::order::Request;
use app_faults::OrderFault;
use clap::Error;
use clap::error::ErrorKind;
use std::alloc::Global;

/// Returns what the words ask for. The first word is the program's own name.
///
/// Fails with `Words` if the words are not a command and not a request for help or version alone,
/// and with `Memory` if memory is refused.
pub fn request_of<'a>(alloc: Global, words: &'a [&'a str]) -> Result<Request, OrderFault>
    ensures asked { IfOk result (IsRequest (map (λ w. w.now) words.entry.now)) }
    ensures refused { IfErr result (λ f. (f ≡ fault.Memory)
        ⊎ ((f ≡ fault.Words) × RequestsNothing (map (λ w. w.now) words.entry.now))) }
{
    let command = program_command(alloc)?;
    match command.try_get_matches_from(words) {
        Ok(matches) => match order_in(&matches) {
            Some(order) => Ok(Request::Order(order)),
            None => Err(OrderFault::Words),
        },
        Err(error) => Ok(Request::Text(shown(alloc, &error)?)),
    }
}

/// Returns the text of an answer to `--help` or `--version`. Any other error of `clap` is a fault.
fn shown(alloc: Global, error: &Error) -> Result<String, OrderFault>
    ensures text { IfOk result (λ _. IsText (kind_of error.now)) }
    ensures refused { IfErr result (λ f. (f ≡ fault.Memory)
        ⊎ ((f ≡ fault.Words) × IsRefusal (kind_of error.now))) }
{
    match error.kind() {
        ErrorKind::DisplayHelp | ErrorKind::DisplayVersion => Ok(error.to_string(alloc)?),
        ErrorKind::OutOfMemory => Err(OrderFault::Memory),
        _ => Err(OrderFault::Words),
    }
}

/// Returns the fault of words that `clap` refuses, or answers with a text.
fn refusal_of(kind: ErrorKind) -> OrderFault
    ensures { (result ≡ fault.Memory)
        ⊎ ((result ≡ fault.Words) × (kind ≢ error_kind.OutOfMemory)) }
{
    match kind {
        ErrorKind::OutOfMemory => OrderFault::Memory,
        _ => OrderFault::Words,
    }
}

/// Returns the text that words give to the option of this name, if they do.
///
/// Fails with `Words` if they are not a command, and with `Memory` if memory is refused.
pub fn text_of<'a>(
    alloc: Global,
    words: &'a [&'a str],
    id: &str,
) -> Result<Option<&'a str>, OrderFault>
    ensures named { IfOk result (λ o. option_map (λ s. s.now) o
        ≡ text_named id.now (subcommand_of program (map (λ w. w.now) words.entry.now))) }
    ensures refused { IfErr result (λ f. (f ≡ fault.Memory)
        ⊎ ((f ≡ fault.Words) × (fault_of program (map (λ w. w.now) words.entry.now) ≢ []))) }
{
    let command = program_command(alloc)?;
    match command.try_get_matches_from(words) {
        Ok(matches) => Ok(asked::text_of(&matches, id)),
        Err(error) => Err(refusal_of(error.kind())),
    }
}
