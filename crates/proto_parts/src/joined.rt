//! The ends of the fields of an interface.

ghost use Rattle.std.specs.Prelude.{◌≡◌, ◌++◌, [], IfOk};
ghost use Rattle.proto_parts.specs.Joined.{borrowed, ends_in, meant, owned, with_ends, with_more};

use crate::ends::Ends;
use crate::kept::Branches;
use std::alloc::{AllocError, AllocFailed, Global};
use std::collections::BTreeMap;
use std::rc::Rc;
use x3d_lists::Text;

/// The ends of each field of an interface that has ends, by the field's name.
#[derive(Drop)]
pub struct JoinedEnds<'a> {
    pub ends: BTreeMap<&'a str, Rc<Ends<'a>>>,
}

impl<'a> JoinedEnds<'a> {
    /// Returns a table in which nothing is joined.
    #[tactic(auto, unfolding(crate::specs::Joined::ends_in))]
    pub fn new(alloc: Global) -> JoinedEnds<'a>
        ensures { ends_in result ≡ (λ name. []) }
    {
        JoinedEnds {
            ends: BTreeMap::new(alloc),
        }
    }

    /// Returns the ends of the field of that name, or None if nothing is joined to it.
    #[tactic(auto, unfolding(crate::specs::Joined::ends_in))]
    pub fn get(&self, name: &str) -> Option<&Rc<Ends<'a>>>
        ensures { borrowed result ≡ ends_in self.now name.now }
    {
        self.ends.get(name)
    }

    #[tactic(auto, unfolding(crate::specs::Joined::ends_in))]
    fn insert(
        &mut self,
        name: &'a Text,
        ends: Rc<Ends<'a>>,
    ) -> Result<(), AllocFailed<(&'a str, Rc<Ends<'a>>)>>
        ensures { IfOk result (λ _. ends_in self.new
            ≡ with_ends name.now (meant ends.entry.value) (ends_in self.old)) }
    {
        self.ends.insert(name.as_str(), ends)?;
        Ok(())
    }

    /// Returns the ends of the field, and then `more`.
    fn grown(
        &self,
        alloc: Global,
        kept: &mut Branches<'a>,
        name: &str,
        more: Rc<Ends<'a>>,
    ) -> Result<Rc<Ends<'a>>, AllocError>
        ensures { IfOk result (λ made. meant made.value
            ≡ ends_in self.now name.now ++ meant more.entry.value) }
    {
        let Some(before) = self.get(name) else {
            return Ok(more);
        };
        let first = before.clone()?;
        kept.both(alloc, first, more)
    }

    /// Joins more ends, if there are any, to the field of that name, after its earlier ones.
    /// AllocError if memory runs out.
    pub fn join(
        &mut self,
        alloc: Global,
        kept: &mut Branches<'a>,
        name: &'a Text,
        more: Option<Rc<Ends<'a>>>,
    ) -> Result<(), AllocError>
        ensures { IfOk result (λ _. ends_in self.new
            ≡ with_more name.now (owned more.entry) (ends_in self.old)) }
    {
        let Some(more) = more else {
            return Ok(());
        };
        let grown = self.grown(alloc, kept, name.as_str(), more)?;
        self.insert(name, grown)?;
        Ok(())
    }
}
