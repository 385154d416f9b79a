//! The rules of the grammar with nodes. Each is a function that reads from the tokens.

ghost use Rattle.std.specs.Prelude.{◌≡◌, false};
ghost use Rattle.classic_rules.specs.Bounds.{takes_is};
ghost use Rattle.classic_text.specs.Grammar as spec;
ghost use Rattle.classic_text.specs.Grammar.{until};
ghost use Rattle.classic_text.specs.Input.{ReadsTokens};
ghost use Rattle.classic_text.specs.declared.terminal.Terminal.TheVariants.{CloseBracket};

use crate::ahead::{begins_unread_statement, refuse_deep};
use crate::gathered::grown;
use crate::parts::{all_of, def_name, joined, numbers, route, use_node};
use crate::refusal::Refusal;
use crate::terminal::Terminal;
use crate::tokens::Tokens;
use classic_rules::{DeclaredIn, holds_value, is_script};
use classic_tree::{BodyItem, Declaration, Given, NodeText, ProtoText, RawValue, Statement};
use std::alloc::Global;
use x3d_values::{Access, Items, Text};

/// Reads a node in which nodes nest at most `depth` deep, counting the node itself.
#[cycle(nodes)]
fn one_node(alloc: Global, tokens: &mut Tokens<'_>, depth: u32) -> Result<NodeText, Refusal>
    ensures { ReadsTokens (spec.node_at depth tokens.old) result tokens.new }
{
    if depth == 0 {
        return Err(refuse_deep(tokens));
    }
    if tokens.sees(Terminal::Use) {
        return use_node(alloc, tokens);
    }
    full_node(alloc, tokens, depth - 1)
}

#[cycle(nodes)]
#[tactic(auto, unfolding(crate::specs::Grammar::full_node))]
fn full_node(alloc: Global, tokens: &mut Tokens<'_>, depth: u32) -> Result<NodeText, Refusal>
    ensures { ReadsTokens (spec.full_node
        (spec.body (spec.node_at depth) (spec.proto_at depth)) tokens.old) result tokens.new }
{
    let line = tokens.line();
    let def = def_name(alloc, tokens)?;
    let node_type = tokens.name(alloc)?;
    let script = is_script(&node_type);
    let items = body(alloc, tokens, depth, script)?;
    Ok(NodeText::Full(line, def, node_type, items))
}

#[cycle(nodes)]
fn body(
    alloc: Global,
    tokens: &mut Tokens<'_>,
    depth: u32,
    script: bool,
) -> Result<Items<BodyItem>, Refusal>
    ensures { ReadsTokens (spec.body (spec.node_at depth) (spec.proto_at depth) script tokens.old)
        result tokens.new }
{
    tokens.expect(Terminal::OpenBrace)?;
    let mut found = Items::new(alloc);
    for _turn in 0..tokens.left() {
        if tokens.sees(Terminal::CloseBrace) {
            tokens.advance();
            return Ok(found);
        }
        found = grown(found, one_item(alloc, tokens, depth, script))?;
    }
    Err(tokens.refuse())
}

#[cycle(nodes)]
#[tactic(auto, unfolding(crate::specs::Grammar::one_item, crate::specs::Grammar::other_item))]
fn one_item(
    alloc: Global,
    tokens: &mut Tokens<'_>,
    depth: u32,
    script: bool,
) -> Result<BodyItem, Refusal>
    ensures { ReadsTokens
        (spec.one_item (spec.node_at depth) (spec.proto_at depth) script tokens.old)
        result tokens.new }
{
    if tokens.sees(Terminal::Route) {
        return route(alloc, tokens).map(BodyItem::Route);
    }
    if tokens.sees(Terminal::Proto) {
        return one_proto(alloc, tokens, depth).map(BodyItem::Proto);
    }
    if tokens.sees_word(b"EXTERNPROTO") {
        return Err(Refusal::Unsupported(tokens.line()));
    }
    if script && tokens.sees(Terminal::Access) {
        return declaration(alloc, tokens, depth, DeclaredIn::Script).map(BodyItem::Declaration);
    }
    field(alloc, tokens, depth)
}

/// Reads the declaration of a field.
#[cycle(nodes)]
#[tactic(auto, unfolding(crate::specs::Grammar::declaration))]
fn declaration(
    alloc: Global,
    tokens: &mut Tokens<'_>,
    depth: u32,
    owner: DeclaredIn,
) -> Result<Declaration<NodeText>, Refusal>
    ensures { ReadsTokens (spec.declaration (spec.node_at depth) (takes_is owner) tokens.old)
        result tokens.new }
{
    let line = tokens.line();
    let access = tokens.access()?;
    let field_type = tokens.field_type()?;
    let name = tokens.name(alloc)?;
    let given = declared(alloc, tokens, depth, owner, access)?;
    Ok(Declaration {
        line,
        access,
        field_type,
        name,
        given,
    })
}

/// Reads what follows the name of a declared field: `IS name`, which an interface refuses, or else
/// a value if the field holds one.
#[cycle(nodes)]
#[tactic(auto, unfolding(crate::specs::Grammar::declared))]
fn declared(
    alloc: Global,
    tokens: &mut Tokens<'_>,
    depth: u32,
    owner: DeclaredIn,
    access: Access,
) -> Result<Given<NodeText>, Refusal>
    ensures { ReadsTokens (spec.declared (spec.node_at depth) (takes_is owner) access tokens.old)
        result tokens.new }
{
    if tokens.sees(Terminal::Is) {
        return joined(alloc, tokens, owner);
    }
    if holds_value(access) {
        return value_of(alloc, tokens, depth).map(Given::Value);
    }
    Ok(Given::Nothing)
}

#[cycle(nodes)]
fn declarations(
    alloc: Global,
    tokens: &mut Tokens<'_>,
    depth: u32,
) -> Result<Items<Declaration<NodeText>>, Refusal>
    ensures { ReadsTokens
        (until CloseBracket (spec.declaration (spec.node_at depth) false) tokens.old)
        result tokens.new }
{
    let mut found = Items::new(alloc);
    for _turn in 0..tokens.left() {
        if tokens.sees(Terminal::CloseBracket) {
            tokens.advance();
            return Ok(found);
        }
        found = grown(
            found,
            declaration(alloc, tokens, depth, DeclaredIn::Interface),
        )?;
    }
    Err(tokens.refuse())
}

/// Reads a prototype in which nodes and bodies nest at most `depth` deep.
#[cycle(nodes)]
#[tactic(auto, unfolding(crate::specs::Grammar::proto_with))]
fn one_proto(alloc: Global, tokens: &mut Tokens<'_>, depth: u32) -> Result<ProtoText, Refusal>
    ensures { ReadsTokens (spec.proto_at depth tokens.old) result tokens.new }
{
    let line = tokens.line();
    tokens.expect(Terminal::Proto)?;
    let name = tokens.name(alloc)?;
    tokens.expect(Terminal::OpenBracket)?;
    let interface = declarations(alloc, tokens, depth)?;
    let body = proto_body(alloc, tokens, depth, line)?;
    Ok(ProtoText {
        line,
        name,
        interface,
        body,
    })
}

/// Reads the body of a prototype whose first word is on that line.
#[cycle(nodes)]
fn proto_body(
    alloc: Global,
    tokens: &mut Tokens<'_>,
    depth: u32,
    line: u32,
) -> Result<Items<Statement>, Refusal>
    ensures { ReadsTokens (spec.proto_body_at depth line tokens.old) result tokens.new }
{
    if depth == 0 {
        return Err(Refusal::TooDeep(line));
    }
    tokens.expect(Terminal::OpenBrace)?;
    let mut found = Items::new(alloc);
    for _turn in 0..tokens.left() {
        if tokens.sees(Terminal::CloseBrace) {
            tokens.advance();
            return Ok(found);
        }
        found = grown(found, one_statement(alloc, tokens, depth - 1))?;
    }
    Err(tokens.refuse())
}

/// Reads a field of a node. What follows its name is `IS name` or a value, as for a field that a
/// Script declares with a value.
#[cycle(nodes)]
#[tactic(auto, unfolding(crate::specs::Grammar::field))]
fn field(alloc: Global, tokens: &mut Tokens<'_>, depth: u32) -> Result<BodyItem, Refusal>
    ensures { ReadsTokens (spec.field (spec.node_at depth) tokens.old) result tokens.new }
{
    let line = tokens.line();
    let name = tokens.name(alloc)?;
    let given = declared(
        alloc,
        tokens,
        depth,
        DeclaredIn::Script,
        Access::InputOutput,
    )?;
    Ok(BodyItem::Field(line, name, given))
}

#[cycle(nodes)]
#[tactic(auto, unfolding(crate::specs::Grammar::value))]
fn value_of(
    alloc: Global,
    tokens: &mut Tokens<'_>,
    depth: u32,
) -> Result<RawValue<NodeText>, Refusal>
    ensures { ReadsTokens (spec.value (spec.node_at depth) tokens.old) result tokens.new }
{
    match tokens.peek() {
        Terminal::Null => {
            tokens.advance();
            Ok(RawValue::Null)
        }
        Terminal::True | Terminal::False => tokens.truth().map(RawValue::Truth),
        Terminal::String => tokens.string(alloc).map(RawValue::String),
        Terminal::Numeral => numbers(alloc, tokens).map(RawValue::Numbers),
        Terminal::OpenBracket => {
            tokens.advance();
            list_of(alloc, tokens, depth)
        }
        _ => one_node(alloc, tokens, depth).map(RawValue::Node),
    }
}

/// Reads a list after its opening bracket.
#[cycle(nodes)]
#[tactic(auto, unfolding(crate::specs::Grammar::list))]
fn list_of(
    alloc: Global,
    tokens: &mut Tokens<'_>,
    depth: u32,
) -> Result<RawValue<NodeText>, Refusal>
    ensures { ReadsTokens (spec.list (spec.node_at depth) tokens.old) result tokens.new }
{
    match tokens.peek() {
        Terminal::CloseBracket => {
            tokens.advance();
            Ok(RawValue::EmptyList)
        }
        Terminal::True | Terminal::False => all_of::<bool>(alloc, tokens).map(RawValue::TruthList),
        Terminal::String => all_of::<Text>(alloc, tokens).map(RawValue::StringList),
        Terminal::Numeral => all_of::<i64>(alloc, tokens).map(RawValue::NumberList),
        _ => node_list(alloc, tokens, depth).map(RawValue::NodeList),
    }
}

#[cycle(nodes)]
fn node_list(alloc: Global, tokens: &mut Tokens<'_>, depth: u32) -> Result<Items<NodeText>, Refusal>
    ensures { ReadsTokens (until CloseBracket (spec.node_at depth) tokens.old) result tokens.new }
{
    let mut found = Items::new(alloc);
    for _turn in 0..tokens.left() {
        if tokens.sees(Terminal::CloseBracket) {
            tokens.advance();
            return Ok(found);
        }
        found = grown(found, one_node(alloc, tokens, depth))?;
    }
    Err(tokens.refuse())
}

#[cycle(nodes)]
#[tactic(auto, unfolding(crate::specs::Grammar::one_statement))]
pub(crate) fn one_statement(
    alloc: Global,
    tokens: &mut Tokens<'_>,
    depth: u32,
) -> Result<Statement, Refusal>
    ensures { ReadsTokens (spec.one_statement (spec.node_at depth) (spec.proto_at depth) tokens.old)
        result tokens.new }
{
    if tokens.sees(Terminal::Route) {
        return route(alloc, tokens).map(Statement::Route);
    }
    if tokens.sees(Terminal::Proto) {
        return one_proto(alloc, tokens, depth).map(Statement::Proto);
    }
    if begins_unread_statement(tokens) {
        return Err(Refusal::Unsupported(tokens.line()));
    }
    one_node(alloc, tokens, depth).map(Statement::Node)
}
