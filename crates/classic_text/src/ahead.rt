//! What the next token says about what follows.

ghost use Rattle.std.specs.Prelude.{◌≡◌};
ghost use Rattle.classic_text.specs.Grammar as spec;

use crate::refusal::Refusal;
use crate::terminal::Terminal;
use crate::tokens::Tokens;

#[tactic(auto, unfolding(crate::specs::Grammar::begins_node))]
fn begins_node(tokens: &Tokens<'_>) -> bool
    ensures { result ≡ spec.begins_node tokens.now }
{
    tokens.sees(Terminal::Use) || tokens.sees(Terminal::Def) || tokens.sees(Terminal::Name)
}

/// Returns the refusal if nodes may nest no deeper: `TooDeep` if a node begins here.
#[tactic(auto, unfolding(crate::specs::Grammar::deep_refusal))]
pub(crate) fn refuse_deep(tokens: &Tokens<'_>) -> Refusal
    ensures { result ≡ spec.deep_refusal tokens.now }
{
    if begins_node(tokens) {
        Refusal::TooDeep(tokens.line())
    } else {
        tokens.refuse()
    }
}

#[tactic(auto, unfolding(crate::specs::Grammar::begins_unread_statement))]
pub(crate) fn begins_unread_statement(tokens: &Tokens<'_>) -> bool
    ensures { result ≡ spec.begins_unread_statement tokens.now }
{
    tokens.sees_word(b"EXTERNPROTO")
        || tokens.sees_word(b"IMPORT")
        || tokens.sees_word(b"EXPORT")
        || tokens.sees_word(b"UNIT")
}
