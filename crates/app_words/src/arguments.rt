//! An option as one of `clap`.

ghost use Rattle.std.specs.Prelude.{◌≡◌, false, pos};
ghost use Rattle.clap.specs.Words.{rule_of};
ghost use Rattle.clap.specs.declared.builder.value_parser.ValueParser.TheVariants.{Signed};
ghost use Rattle.app_words.specs.Options.{flag_rule, high_of, number_rule, ranged_rule, text_rule};

use crate::options::{FlagOption, High, NumberOption, TextOption, Unless};
use clap::builder::ValueParser;
use clap::{Arg, ArgAction};
use std::alloc::Global;
use x3d_values::MAX_INPUTS;

/// Returns the number that is the highest.
fn number_of(high: High) -> i64
    ensures { result ≡ pos (high_of high) }
{
    match high {
        High::Number(number) => number as i64,
        High::Inputs => MAX_INPUTS as i64,
    }
}

/// Returns the parser for the range of the option.
fn range_of<'a>(option: &NumberOption) -> ValueParser<'a>
    ensures { result ≡ Signed (pos option.now.low) (pos (high_of option.now.high)) }
{
    ValueParser::signed(option.low as i64, number_of(option.high))
}

/// Builds an option of `clap` with the name, the range and the help of `option`.
fn ranged_arg<'a>(alloc: Global, option: &NumberOption) -> Arg<'a>
    ensures rule { rule_of result ≡ ranged_rule option.now }
    ensures local { result.global ≡ false }
{
    Arg::new(alloc, option.name)
        .long(option.name)
        .value_parser(range_of(option))
        .value_name(option.value)
        .help(option.help)
}

/// Builds the option of `clap`, which is required or has a default where `option` says so.
pub fn number_arg<'a>(alloc: Global, option: &NumberOption) -> Arg<'a>
    ensures rule { rule_of result ≡ number_rule option.now }
    ensures local { result.global ≡ false }
{
    let arg = ranged_arg(alloc, option);
    match option.unless {
        Unless::Refused => arg.required(true),
        Unless::Has(text) => arg.default_value(text),
        Unless::Nothing => arg,
    }
}

/// Builds the option of `clap`, which takes a text.
pub fn text_arg<'a>(alloc: Global, option: &TextOption) -> Arg<'a>
    ensures rule { rule_of result ≡ text_rule option.now }
    ensures local { result.global ≡ false }
{
    let arg = Arg::new(alloc, option.name)
        .value_name(option.value)
        .help(option.help);
    if option.is_word {
        arg.required(true)
    } else {
        arg.long(option.name)
    }
}

/// Builds the option of `clap`, a flag that is set if it is given.
pub fn flag_arg<'a>(alloc: Global, option: &FlagOption) -> Arg<'a>
    ensures rule { rule_of result ≡ flag_rule option.now }
    ensures local { result.global ≡ false }
{
    let arg = Arg::new(alloc, option.name)
        .long(option.name)
        .action(ArgAction::SetTrue)
        .help(option.help);
    match option.letter {
        Some(letter) => arg.short(letter),
        None => arg,
    }
}
