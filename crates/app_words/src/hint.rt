//! What is wrong with words that are refused.

ghost use Rattle.std.specs.Prelude.{◌≡◌, IfErr};
ghost use Rattle.app_faults.specs.declared.fault.OrderFault.TheVariants as fault;

use crate::asked::misfit_in;
use crate::commands::program_command;
use app_faults::OrderFault;
use clap::Error;
use clap::error::ErrorKind;
use std::alloc::{AllocError, Global};

/// Returns the first paragraph of a text in one line, without the word that `clap` begins it with.
fn first_paragraph(alloc: Global, text: &str) -> Result<String, AllocError> {
    let mut line = String::new(alloc);
    for part in text.lines() {
        let part = part.trim();
        if part.is_empty() {
            break;
        }
        if !line.is_empty() {
            line.push_str(" ")?;
        }
        line.push_str(part.strip_prefix("error: ").unwrap_or(part))?;
    }
    Ok(line)
}

/// Returns what `clap` says of an error, in one line.
fn shown_error(alloc: Global, error: &Error) -> Result<String, OrderFault>
    ensures { IfErr result (λ f. f ≡ fault.Memory) }
{
    if error.kind() == ErrorKind::OutOfMemory {
        return Err(OrderFault::Memory);
    }
    let text = error.to_string(alloc)?;
    Ok(first_paragraph(alloc, text.as_str())?)
}

/// Returns, in one line, what is wrong with words that `request_of` refuses: the word, and what is
/// required in its place. Empty for words that it takes; of words that ask for a text among other
/// faults, the beginning of that text.
///
/// Fails with `Memory` if memory is refused.
pub fn hint_of<'a>(alloc: Global, words: &'a [&'a str]) -> Result<String, OrderFault>
    ensures { IfErr result (λ f. f ≡ fault.Memory) }
{
    let command = program_command(alloc)?;
    match command.try_get_matches_from(words) {
        Ok(matches) => match misfit_in(&matches) {
            Some(misfit) => Ok(misfit.to_string(alloc)?),
            None => Ok(String::new(alloc)),
        },
        Err(error) => shown_error(alloc, &error),
    }
}
