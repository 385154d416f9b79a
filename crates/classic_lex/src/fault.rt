//! Why a text has no tokens.

ghost use Rattle.std.specs.Prelude.{◌≡◌};
ghost use Rattle.classic_lex.specs.FaultName.{fault_name};
ghost use Rattle.classic_lex.specs.declared.fault.LexFaultKind.TheVariants.{Memory};

use std::alloc::{AllocError, AllocFailed};
use std::{error, fmt};
use thiserror::Error;

/// Why a text has no tokens, and on which line.
#[derive(Clone, Copy, Debug, PartialEq, Eq)]
pub struct LexFault {
    pub kind: LexFaultKind,
    /// From 1, or 0 if the fault has no place in the text.
    pub line: u32,
}

/// The faults of lexing, in order of precedence. Of `OpenString` to `BadCharacter`, the first in
/// the text is reported.
#[derive(Clone, Copy, Debug, PartialEq, Eq, Error)]
pub enum LexFaultKind {
    #[error("the text is longer than 16 MiB")]
    TooLong,
    #[error("the text is not UTF-8")]
    NotUtf8,
    #[error("the first line is no X3D header")]
    NoHeader,
    /// The header names an unsupported version, such as `#X3D V2.0 utf8`.
    #[error("the header names an unknown version")]
    BadVersion,
    /// A string without its closing quote.
    #[error("a string is not closed")]
    OpenString,
    /// Bytes that begin like a numeral but don't have the form of one, such as `1.5.5`.
    #[error("a numeral is malformed")]
    BadNumeral,
    /// A numeral whose value is too large, such as `1e13`.
    #[error("a numeral is out of range")]
    NumberRange,
    /// A byte that no token begins with, such as `'`.
    #[error("no token begins with this character")]
    BadCharacter,
    #[error("memory was refused")]
    Memory,
}

impl LexFaultKind {
    /// Returns the name of the variant.
    pub fn name(self) -> &'static str
        ensures { result.now ≡ fault_name self }
    {
        match self {
            LexFaultKind::TooLong => "TooLong",
            LexFaultKind::NotUtf8 => "NotUtf8",
            LexFaultKind::NoHeader => "NoHeader",
            LexFaultKind::BadVersion => "BadVersion",
            LexFaultKind::OpenString => "OpenString",
            LexFaultKind::BadNumeral => "BadNumeral",
            LexFaultKind::NumberRange => "NumberRange",
            LexFaultKind::BadCharacter => "BadCharacter",
            LexFaultKind::Memory => "Memory",
        }
    }
}

/// Writes a fault of a text, after its line if it has one. Lines count from 1; 0 means no line.
pub fn write_on_line<K: fmt::Display, W: fmt::Write>(
    kind: &K,
    line: u32,
    f: &mut fmt::Formatter<W>,
) -> fmt::Result {
    if line > 0 {
        write!(f, "line {line}: ")?;
    }
    kind.fmt(f)
}

impl fmt::Display for LexFault {
    fn fmt<W: fmt::Write>(&self, f: &mut fmt::Formatter<W>) -> fmt::Result {
        write_on_line(&self.kind, self.line, f)
    }
}

impl error::Error for LexFault {}

impl From<AllocError> for LexFault {
    ghost from_gives = { λ _ fault. fault ≡ record { kind = Memory; line = 0 } };

    fn from(_refused: AllocError) -> LexFault {
        LexFault {
            kind: LexFaultKind::Memory,
            line: 0,
        }
    }
}

impl<T: Drop> From<AllocFailed<T>> for LexFault {
    ghost from_gives = { λ _ fault. fault ≡ record { kind = Memory; line = 0 } };

    fn from(_refused: AllocFailed<T>) -> LexFault {
        LexFault {
            kind: LexFaultKind::Memory,
            line: 0,
        }
    }
}
