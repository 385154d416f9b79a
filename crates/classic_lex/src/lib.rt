//! Splits a text of the Classic VRML encoding (ISO/IEC 19776-2) into its tokens.
//!
//! A text is UTF-8 of at most 16 MiB and begins with a header line. Outside strings, white space
//! and comments separate the tokens. Only the list of tokens takes memory.
#![tactic(auto)]

mod classes;
mod fault;
mod front;
mod header;
mod laws;
mod lexing;
mod token;
mod versions;

pub use fault::{LexFault, LexFaultKind, write_on_line};
pub use header::{MAX_LEN, version};
pub use laws::{
    texts_have_one_list_of_tokens, texts_have_the_tokens_that_are_read, tokens_are_utf8,
};
pub use lexing::{last_line, lex};
pub use token::{Token, TokenKind};
pub use versions::Version;
