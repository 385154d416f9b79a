//! Laws of tokens. Each is the contract of a function that does nothing.

ghost use Rattle.std.specs.Prelude.{◌≡◌, ℕ, All, IsUtf8, List, Ok};
ghost use Rattle.classic_lex.specs.declared.versions.Version.{Version};
ghost use Rattle.classic_lex.specs.Lexed.{Tok, lexed};
ghost use Rattle.classic_lex.specs.Tokens.{HasTokens, HasVersion};

/// The tokens that `lexed` reads are exactly those that the text has.
pub fn texts_have_the_tokens_that_are_read()
    ensures found { (text : List ℕ) (tokens : List Tok) → lexed text ≡ Ok tokens
        → HasTokens text tokens }
    ensures only { (text : List ℕ) (tokens : List Tok) → HasTokens text tokens
        → lexed text ≡ Ok tokens }
{}

/// A text has at most one version and at most one list of tokens.
pub fn texts_have_one_list_of_tokens()
    ensures version { (text : List ℕ) (some other : Version) → HasVersion text some
        → HasVersion text other → some ≡ other }
    ensures tokens { (text : List ℕ) (some others : List Tok) → HasTokens text some
        → HasTokens text others → some ≡ others }
{}

/// The bytes of each token are UTF-8.
pub fn tokens_are_utf8()
    ensures { (text : List ℕ) (tokens : List Tok) → HasTokens text tokens
        → All (λ token. IsUtf8 token.text) tokens }
{}
