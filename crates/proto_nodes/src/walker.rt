//! The state of a walk.

ghost use Rattle.std.specs.Prelude.{◌≡◌};
ghost use Rattle.proto_nodes.specs.Shown.{Sound, before, shown};

use proto_parts::{Branches, PutIn, Room, Scope};
use std::alloc::Global;

/// The state of a walk: how much more may be counted, what was added, the scope that is open, and
/// the branches that were made.
#[derive(Drop)]
pub struct Walker<'t, 'a> {
    pub room: Room,
    pub put: PutIn<'a>,
    pub scope: Scope<'t, 'a>,
    pub kept: Branches<'a>,
}

impl<'t, 'a> Walker<'t, 'a> {
    /// Returns the state before a document.
    pub fn new(alloc: Global) -> Walker<'t, 'a>
        ensures shown { shown result ≡ before }
        ensures sound { Sound result }
    {
        Walker {
            room: Room::new(),
            put: PutIn::new(alloc),
            scope: Scope::new(alloc),
            kept: Branches::new(alloc),
        }
    }
}
