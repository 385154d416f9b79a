//! Parts that are kept until all is done, so that no drop recurses through a long row of others.

ghost use Rattle.std.specs.Prelude.{◌≡◌, ◌++◌, IfOk};
ghost use Rattle.proto_parts.specs.Ends.{list};
ghost use Rattle.proto_parts.specs.Wires.{wires};

use crate::ends::{Ends, both};
use crate::wires::{Wires, both_wires};
use std::alloc::{AllocError, Global};
use std::rc::Rc;

/// The branches that were made. Dropping a branch drops its parts, unless something else holds
/// them, and so on down. So each branch is kept here until none is needed, and then the last is
/// dropped first.
#[derive(Drop)]
pub struct Branches<'a> {
    pub ends: Vec<Rc<Ends<'a>>>,
    pub wires: Vec<Rc<Wires<'a>>>,
}

impl<'a> Branches<'a> {
    /// Returns an empty store.
    pub fn new(alloc: Global) -> Branches<'a> {
        Branches {
            ends: Vec::new(alloc),
            wires: Vec::new(alloc),
        }
    }

    /// Returns the first ends and then the second, and keeps the branch. AllocError if memory runs
    /// out.
    pub fn both(
        &mut self,
        alloc: Global,
        first: Rc<Ends<'a>>,
        second: Rc<Ends<'a>>,
    ) -> Result<Rc<Ends<'a>>, AllocError>
        ensures { IfOk result (λ made. list made.value
            ≡ list first.entry.value ++ list second.entry.value) }
    {
        let made = both(alloc, first, second)?;
        self.ends.push(made.clone()?)?;
        Ok(made)
    }

    /// Returns the first ROUTEs and then the second, and keeps the branch. AllocError if memory
    /// runs out.
    pub fn both_wires(
        &mut self,
        alloc: Global,
        first: Rc<Wires<'a>>,
        second: Rc<Wires<'a>>,
    ) -> Result<Rc<Wires<'a>>, AllocError>
        ensures { IfOk result (λ made. wires made.value
            ≡ wires first.entry.value ++ wires second.entry.value) }
    {
        let made = both_wires(alloc, first, second)?;
        self.wires.push(made.clone()?)?;
        Ok(made)
    }

    /// Drops all branches, the last first.
    pub fn let_go(self) {
        let mut kept = self;
        for _ in 0..u64::MAX {
            if kept.wires.pop().is_none() {
                break;
            }
        }
        for _ in 0..u64::MAX {
            if kept.ends.pop().is_none() {
                break;
            }
        }
        drop(kept);
    }
}
