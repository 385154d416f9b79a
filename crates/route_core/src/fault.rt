//! Faults of routes: why a document's ROUTE can't become a route of its scene.

ghost use Rattle.std.specs.Prelude.{◌≡◌};
ghost use Rattle.route_core.specs.FaultName.{fault_name};
ghost use Rattle.route_core.specs.declared.fault.RouteFaultKind.TheVariants.{Memory};

use classic_lex::write_on_line;
use std::alloc::AllocError;
use std::{error, fmt};
use thiserror::Error;

/// A fault of a route, and the line of its ROUTE.
#[derive(Clone, Copy, Debug, PartialEq, Eq)]
pub struct RouteFault {
    pub kind: RouteFaultKind,
    /// The line number, counted from 1, or 0 if the fault has no place in the text.
    pub line: u32,
}

/// The kinds of faults of routes. The first faulty route is reported: first a fault of its source,
/// then of its target, then of both together. TooMany is only reported if no route is faulty.
#[derive(Clone, Copy, Debug, PartialEq, Eq, Error)]
pub enum RouteFaultKind {
    #[error("no node of this name stands before the ROUTE")]
    NoSuchNode,
    #[error("the node has no such field")]
    NoSuchField,
    /// A source that sends nothing.
    #[error("the field is no output")]
    NotOutput,
    /// A destination that receives nothing.
    #[error("the field is no input")]
    NotInput,
    #[error("the fields have different types")]
    TypesDiffer,
    /// Nodes aren't sent.
    #[error("the fields hold nodes")]
    NodeEvent,
    /// More than 65,536 routes, not counting repeats. The fault has no place in the text.
    #[error("there are too many routes")]
    TooMany,
    #[error("memory was refused")]
    Memory,
}

impl RouteFaultKind {
    /// Returns the name of the variant.
    pub fn name(self) -> &'static str
        ensures { result.now ≡ fault_name self }
    {
        match self {
            RouteFaultKind::NoSuchNode => "NoSuchNode",
            RouteFaultKind::NoSuchField => "NoSuchField",
            RouteFaultKind::NotOutput => "NotOutput",
            RouteFaultKind::NotInput => "NotInput",
            RouteFaultKind::TypesDiffer => "TypesDiffer",
            RouteFaultKind::NodeEvent => "NodeEvent",
            RouteFaultKind::TooMany => "TooMany",
            RouteFaultKind::Memory => "Memory",
        }
    }
}

impl fmt::Display for RouteFault {
    fn fmt<W: fmt::Write>(&self, f: &mut fmt::Formatter<W>) -> fmt::Result {
        write_on_line(&self.kind, self.line, f)
    }
}

impl error::Error for RouteFault {}

impl From<AllocError> for RouteFault {
    ghost from_gives = { λ _ fault. fault ≡ record { kind = Memory; line = 0 } };

    fn from(_refused: AllocError) -> RouteFault {
        RouteFault {
            kind: RouteFaultKind::Memory,
            line: 0,
        }
    }
}
