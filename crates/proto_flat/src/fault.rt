//! Faults of expansion: why a document can't be expanded.

ghost use Rattle.std.specs.Prelude.{◌≡◌};
ghost use Rattle.proto_flat.specs.FaultName.{fault_name};
ghost use Rattle.proto_flat.specs.Fault.{fault, memory};

use classic_lex::write_on_line;
use std::alloc::{AllocError, AllocFailed};
use std::{error, fmt};
use thiserror::Error;

/// A fault of expansion, and the line where it was found.
#[derive(Clone, Copy, Debug, PartialEq, Eq)]
pub struct ExpandFault {
    pub kind: ExpandFaultKind,
    /// The line number, counted from 1, or 0 if the fault has no place in the text.
    pub line: u32,
}

/// The kinds of faults of expansion. The first fault in the order of the work is reported. Faults
/// of a prototype declaration are found at the declaration. The others are found as nodes are
/// inserted, in the order of the text, with an instance's values before its body. If several faults
/// are found at one place, the first of this list is reported.
#[derive(Clone, Copy, Debug, PartialEq, Eq, Error)]
pub enum ExpandFaultKind {
    #[error("the node type is unknown")]
    UnknownNode,
    #[error("the node has no such field")]
    UnknownField,
    /// A PROTO with the name of a node type, or of an earlier PROTO in the same scope.
    #[error("the name is taken")]
    ProtoTwice,
    /// A node whose type is the PROTO that contains it.
    #[error("the prototype holds an instance of itself")]
    ProtoItself,
    /// A PROTO whose body has no node.
    #[error("the prototype has no node")]
    EmptyBody,
    /// An IS outside a body, to a name that the interface lacks, or between fields that don't
    /// match.
    #[error("the field can't be joined to the interface")]
    BadIs,
    /// A USE of a name that no node finished earlier has.
    #[error("no node before has this name")]
    UseWithoutDef,
    /// A second value for a field.
    #[error("the field is given twice")]
    FieldTwice,
    /// More than 65,536 nodes, routes, or fields of one node; or more than 8,388,608 items in
    /// values or instances.
    #[error("the scene is too large")]
    TooLarge,
    #[error("memory was refused")]
    Memory,
}

impl ExpandFaultKind {
    /// Returns the name of the variant.
    pub fn name(self) -> &'static str
        ensures { result.now ≡ fault_name self }
    {
        match self {
            ExpandFaultKind::UnknownNode => "UnknownNode",
            ExpandFaultKind::UnknownField => "UnknownField",
            ExpandFaultKind::ProtoTwice => "ProtoTwice",
            ExpandFaultKind::ProtoItself => "ProtoItself",
            ExpandFaultKind::EmptyBody => "EmptyBody",
            ExpandFaultKind::BadIs => "BadIs",
            ExpandFaultKind::UseWithoutDef => "UseWithoutDef",
            ExpandFaultKind::FieldTwice => "FieldTwice",
            ExpandFaultKind::TooLarge => "TooLarge",
            ExpandFaultKind::Memory => "Memory",
        }
    }

    /// Returns the fault of this kind on line `line`.
    pub fn on_line(self, line: u32) -> ExpandFault
        ensures { result ≡ fault self line }
    {
        ExpandFault { kind: self, line }
    }
}

impl fmt::Display for ExpandFault {
    fn fmt<W: fmt::Write>(&self, f: &mut fmt::Formatter<W>) -> fmt::Result {
        write_on_line(&self.kind, self.line, f)
    }
}

impl error::Error for ExpandFault {}

impl From<AllocError> for ExpandFault {
    ghost from_gives = { λ _ e. e ≡ memory };

    fn from(_refused: AllocError) -> ExpandFault {
        ExpandFaultKind::Memory.on_line(0)
    }
}

impl<T: Drop> From<AllocFailed<T>> for ExpandFault {
    ghost from_gives = { λ _ e. e ≡ memory };

    fn from(_refused: AllocFailed<T>) -> ExpandFault {
        ExpandFaultKind::Memory.on_line(0)
    }
}
