//! The rules of the grammar without nodes. Each is a function that reads from the tokens.

ghost use Rattle.std.specs.Prelude.{◌≡◌};
ghost use Rattle.classic_rules.specs.Bounds.{takes_is};
ghost use Rattle.classic_text.specs.Grammar as spec;
ghost use Rattle.classic_text.specs.Grammar.{until};
ghost use Rattle.classic_text.specs.Input.{Parser, ReadsTokens, number, string, truth};
ghost use Rattle.classic_text.specs.declared.terminal.Terminal.TheVariants.{CloseBracket};

use crate::gathered::grown;
use crate::refusal::Refusal;
use crate::terminal::Terminal;
use crate::tokens::Tokens;
use classic_rules::{DeclaredIn, takes_is};
use classic_tree::{Given, NodeText, RouteEnd, RouteText};
use std::alloc::Global;
use x3d_values::{Items, Text};

#[tactic(auto, unfolding(crate::specs::Grammar::place))]
fn place(alloc: Global, tokens: &mut Tokens<'_>) -> Result<RouteEnd, Refusal>
    ensures { ReadsTokens (spec.place tokens.old) result tokens.new }
{
    let node = tokens.name(alloc)?;
    tokens.expect(Terminal::Point)?;
    let field = tokens.name(alloc)?;
    Ok(RouteEnd { node, field })
}

#[tactic(auto, unfolding(crate::specs::Grammar::route))]
pub(crate) fn route(alloc: Global, tokens: &mut Tokens<'_>) -> Result<RouteText, Refusal>
    ensures { ReadsTokens (spec.route tokens.old) result tokens.new }
{
    let line = tokens.line();
    tokens.expect(Terminal::Route)?;
    let source = place(alloc, tokens)?;
    tokens.expect(Terminal::To)?;
    let target = place(alloc, tokens)?;
    Ok(RouteText {
        line,
        source,
        target,
    })
}

/// Reads a run of numerals.
pub(crate) fn numbers(alloc: Global, tokens: &mut Tokens<'_>) -> Result<Items<i64>, Refusal>
    ensures { ReadsTokens (spec.numbers tokens.old) result tokens.new }
{
    let mut found = Items::new(alloc);
    for _turn in 0..tokens.left() {
        if !tokens.sees(Terminal::Numeral) {
            return Ok(found);
        }
        found = grown(found, tokens.number())?;
    }
    Ok(found)
}

/// The items of a bracketed list without nodes.
pub(crate) trait Listed: Drop {
    ghost parser: { Parser Self };

    fn read(alloc: Global, tokens: &mut Tokens<'_>) -> Result<Self, Refusal>
        ensures { ReadsTokens (parser tokens.old) result tokens.new };
}

impl Listed for i64 {
    ghost parser = { number };

    fn read(_alloc: Global, tokens: &mut Tokens<'_>) -> Result<i64, Refusal> {
        tokens.number()
    }
}

impl Listed for bool {
    ghost parser = { truth };

    fn read(_alloc: Global, tokens: &mut Tokens<'_>) -> Result<bool, Refusal> {
        tokens.truth()
    }
}

impl Listed for Text {
    ghost parser = { string };

    fn read(alloc: Global, tokens: &mut Tokens<'_>) -> Result<Text, Refusal> {
        tokens.string(alloc)
    }
}

/// Reads the items up to the bracket that closes the list.
pub(crate) fn all_of<T: Listed>(alloc: Global, tokens: &mut Tokens<'_>) -> Result<Items<T>, Refusal>
    ensures { ReadsTokens (until CloseBracket T.Listed.parser tokens.old) result tokens.new }
{
    let mut found = Items::new(alloc);
    for _turn in 0..tokens.left() {
        if tokens.sees(Terminal::CloseBracket) {
            tokens.advance();
            return Ok(found);
        }
        found = grown(found, T::read(alloc, tokens))?;
    }
    Err(tokens.refuse())
}

#[tactic(auto, unfolding(crate::specs::Grammar::def_name, crate::specs::Input::expect))]
pub(crate) fn def_name(alloc: Global, tokens: &mut Tokens<'_>) -> Result<Option<Text>, Refusal>
    ensures { ReadsTokens (spec.def_name tokens.old) result tokens.new }
{
    if !tokens.sees(Terminal::Def) {
        return Ok(None);
    }
    tokens.advance();
    tokens.name(alloc).map(Some)
}

#[tactic(auto, unfolding(crate::specs::Grammar::use_node))]
pub(crate) fn use_node(alloc: Global, tokens: &mut Tokens<'_>) -> Result<NodeText, Refusal>
    ensures { ReadsTokens (spec.use_node tokens.old) result tokens.new }
{
    let line = tokens.line();
    tokens.expect(Terminal::Use)?;
    Ok(NodeText::Use(line, tokens.name(alloc)?))
}

/// Reads `IS name` in a declaration, if the owner of the field allows it.
#[tactic(auto, unfolding(crate::specs::Grammar::joined, crate::specs::Grammar::what_is))]
pub(crate) fn joined(
    alloc: Global,
    tokens: &mut Tokens<'_>,
    owner: DeclaredIn,
) -> Result<Given<NodeText>, Refusal>
    ensures { ReadsTokens (spec.joined (takes_is owner) tokens.old) result tokens.new }
{
    if !takes_is(owner) {
        return Err(tokens.refuse());
    }
    tokens.expect(Terminal::Is)?;
    tokens.name(alloc).map(Given::Is)
}
