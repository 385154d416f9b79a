//! A cursor over the tokens of a text.

ghost use Rattle.std.specs.Prelude.{◌≡◌, map, length, All, IsUtf8};
ghost use Rattle.classic_lex.specs.Lexed.{seen};
ghost use Rattle.classic_text.specs.Cursor.{IsPlaced};
ghost use Rattle.classic_text.specs.Input as spec;
ghost use Rattle.classic_text.specs.Input.{ReadsTokens};
ghost use Rattle.classic_text.specs.Terminal.{line};

use crate::level::has_level;
use crate::refusal::Refusal;
use crate::strings::unquoted;
use crate::terminal::{Terminal, same, terminal_of};
use classic_lex::Token;
use std::alloc::Global;
use std::marker::Model;
use x3d_values::{Access, FieldType, Text, millionths};

#[derive(Drop)]
pub(crate) struct Tokens<'a> {
    text: &'a [u8],
    rest: &'a [Token],
    /// The terminal of the next token, computed once per token.
    next: Terminal,
}

impl<'a> Model for Tokens<'a> {
    ghost use Rattle.std.specs.Prelude.{List};
    ghost use Rattle.classic_lex.specs.Lexed.{Tok};
    ghost use Rattle.classic_text.specs.Cursor.{shown, IsReady};

    ghost Value = { List Tok };

    ghost view = { shown };

    ghost invariant = { IsReady };
}

/// Returns the terminal of the first of these tokens of a text.
#[tactic(auto, unfolding(crate::specs::Input::kind))]
fn first_terminal(text: &[u8], tokens: &[Token]) -> Terminal
    requires { All (IsPlaced text.now) tokens.now }
    ensures { result ≡ spec.kind (map (seen text.now) tokens.now) }
{
    match tokens {
        [] => Terminal::End,
        [token, ..] => terminal_of(token.kind, &text[token.start as usize..token.end as usize]),
    }
}

impl<'a> Tokens<'a> {
    pub(crate) fn new(text: &'a [u8], rest: &'a [Token]) -> Tokens<'a>
        requires { All (IsPlaced text.now) rest.now }
        ensures { result ≡ map (seen text.now) rest.now }
    {
        let next = first_terminal(text, rest);
        Tokens { text, rest, next }
    }

    /// Returns the number of tokens left.
    pub(crate) fn left(&self) -> usize
        ensures { result ≡ length self.now }
    {
        self.rest.len()
    }

    #[tactic(auto, unfolding(crate::specs::Input::at_end))]
    pub(crate) fn at_end(&self) -> bool
        ensures { result ≡ spec.at_end self.now }
    {
        match self.rest {
            [] => true,
            [_, ..] => false,
        }
    }

    /// Returns the bytes of the next token in the text.
    #[tactic(auto, unfolding(crate::specs::Input::spelling))]
    fn spelling(&self) -> &'a [u8]
        ensures value { result.now ≡ spec.spelling self.now }
        ensures utf8 { IsUtf8 result.now }
    {
        match self.rest {
            [] => &[],
            [token, ..] => &self.text[token.start as usize..token.end as usize],
        }
    }

    pub(crate) fn peek(&self) -> Terminal
        ensures { result ≡ spec.kind self.now }
    {
        self.next
    }

    /// Returns the line of the next token, or 0 after the last.
    #[tactic(auto, unfolding(crate::specs::Terminal::line))]
    pub(crate) fn line(&self) -> u32
        ensures { result ≡ line self.now }
    {
        match self.rest {
            [] => 0,
            [token, ..] => token.line,
        }
    }

    #[tactic(auto, unfolding(crate::specs::Input::refusal))]
    pub(crate) fn refuse(&self) -> Refusal
        ensures { result ≡ spec.refusal self.now }
    {
        match self.rest {
            [] => Refusal::UnexpectedEnd,
            [token, ..] => Refusal::Unexpected(token.line),
        }
    }

    #[tactic(auto, unfolding(crate::specs::Input::next))]
    pub(crate) fn advance(&mut self)
        ensures { self.new ≡ spec.next self.old }
    {
        if let [_, rest @ ..] = self.rest {
            self.next = first_terminal(self.text, rest);
            self.rest = rest;
        }
    }

    #[tactic(auto, unfolding(crate::specs::Input::sees))]
    pub(crate) fn sees(&self, kind: Terminal) -> bool
        ensures { result ≡ spec.sees kind self.now }
    {
        same(self.peek(), kind)
    }

    /// Reports whether the next token is that word, reserved or not.
    #[tactic(auto, unfolding(crate::specs::Input::sees_word))]
    pub(crate) fn sees_word(&self, word: &[u8]) -> bool
        ensures { result ≡ spec.sees_word word.now self.now }
    {
        self.spelling() == word
    }

    #[tactic(auto, unfolding(crate::specs::Input::expect))]
    pub(crate) fn expect(&mut self, kind: Terminal) -> Result<(), Refusal>
        ensures { ReadsTokens (spec.expect kind self.old) result self.new }
    {
        if self.sees(kind) {
            self.advance();
            Ok(())
        } else {
            Err(self.refuse())
        }
    }

    #[tactic(auto, unfolding(crate::specs::Input::expect_word))]
    pub(crate) fn expect_word(&mut self, word: &[u8]) -> Result<(), Refusal>
        ensures { ReadsTokens (spec.expect_word word.now self.old) result self.new }
    {
        if self.sees_word(word) {
            self.advance();
            Ok(())
        } else {
            Err(self.refuse())
        }
    }

    /// Returns the next token as text.
    #[tactic(auto, unfolding(crate::specs::Input::spelling))]
    fn word(&self) -> &'a str
        ensures { result.now ≡ spec.spelling self.now }
    {
        match std::str::from_utf8(self.spelling()) {
            Ok(text) => text,
            Err(_) => unreachable!(),
        }
    }

    /// Reads a word of access.
    #[tactic(auto, unfolding(crate::specs::Input::access))]
    pub(crate) fn access(&mut self) -> Result<Access, Refusal>
        ensures { ReadsTokens (spec.access self.old) result self.new }
    {
        if !self.sees(Terminal::Access) {
            return Err(self.refuse());
        }
        match Access::named(self.word()) {
            Some(access) => {
                self.advance();
                Ok(access)
            }
            None => Err(self.refuse()),
        }
    }

    /// Reads the type of a declared field.
    #[tactic(auto, unfolding(crate::specs::Input::field_type))]
    pub(crate) fn field_type(&mut self) -> Result<FieldType, Refusal>
        ensures { ReadsTokens (spec.field_type self.old) result self.new }
    {
        if !self.sees(Terminal::Name) {
            return Err(self.refuse());
        }
        match FieldType::named(self.word()) {
            Some(field_type) => {
                self.advance();
                Ok(field_type)
            }
            None => Err(Refusal::Unsupported(self.line())),
        }
    }

    /// Returns a copy of the next token.
    fn copy(&self, alloc: Global) -> Result<Text, Refusal>
        ensures { ReadsTokens (spec.copied self.now) result self.now }
    {
        Ok(Text::from_str(alloc, self.word())?)
    }

    #[tactic(auto, unfolding(crate::specs::Input::name))]
    pub(crate) fn name(&mut self, alloc: Global) -> Result<Text, Refusal>
        ensures { ReadsTokens (spec.name self.old) result self.new }
    {
        if self.sees(Terminal::Name) {
            let name = self.copy(alloc)?;
            self.advance();
            Ok(name)
        } else {
            Err(self.refuse())
        }
    }

    /// Reads a name with a level, such as `Navigation:2`.
    #[tactic(auto, unfolding(crate::specs::Input::component_name))]
    pub(crate) fn component_name(&mut self, alloc: Global) -> Result<Text, Refusal>
        ensures { ReadsTokens (spec.component_name self.old) result self.new }
    {
        if self.sees(Terminal::Name) && has_level(self.spelling()) {
            let name = self.copy(alloc)?;
            self.advance();
            Ok(name)
        } else {
            Err(self.refuse())
        }
    }

    /// Reports whether the next token is a string. A string token has both its quotes.
    fn sees_string(&self) -> bool
        ensures { result ≡ spec.sees_string self.now }
    {
        // For the prover: what holds of each token.
        let _ = &self.rest;
        self.sees(Terminal::String)
    }

    #[tactic(auto, unfolding(crate::specs::Input::string))]
    pub(crate) fn string(&mut self, alloc: Global) -> Result<Text, Refusal>
        ensures { ReadsTokens (spec.string self.old) result self.new }
    {
        if self.sees_string() {
            let string = unquoted(alloc, self.spelling())?;
            self.advance();
            Ok(string)
        } else {
            Err(self.refuse())
        }
    }

    #[tactic(auto, unfolding(crate::specs::Input::truth))]
    pub(crate) fn truth(&mut self) -> Result<bool, Refusal>
        ensures { ReadsTokens (spec.truth self.old) result self.new }
    {
        if self.sees(Terminal::True) {
            self.advance();
            Ok(true)
        } else if self.sees(Terminal::False) {
            self.advance();
            Ok(false)
        } else {
            Err(self.refuse())
        }
    }

    #[tactic(auto, unfolding(crate::specs::Input::number))]
    pub(crate) fn number(&mut self) -> Result<i64, Refusal>
        ensures { ReadsTokens (spec.number self.old) result self.new }
    {
        if !self.sees(Terminal::Numeral) {
            return Err(self.refuse());
        }
        match millionths(self.spelling()) {
            Ok(number) => {
                self.advance();
                Ok(number)
            }
            Err(_) => Err(self.refuse()),
        }
    }
}
