//! What USE and ROUTE find by a name.

ghost use Rattle.std.specs.Prelude.{◌≡◌, ◌++◌, ◌∷◌, [], List, length, IfOk};
ghost use Rattle.proto_meaning.specs.Names as meaning;
ghost use Rattle.proto_meaning.specs.Names.{Braces, Stands};
ghost use Rattle.proto_parts.specs.Names as held;
ghost use Rattle.proto_parts.specs.Names.{Knows, begun_of, closed_of, with_entry};

use std::alloc::{AllocError, AllocFailed, Global};
use std::collections::BTreeMap;
use x3d_lists::Text;

/// Closed braces of a scope: the number of braces of the scope that were opened before them, and
/// the number of the node that they stand for.
#[derive(Clone, Copy)]
pub struct Closed {
    pub at: usize,
    pub node: u32,
}

/// The names that DEFs gave in a scope: for each name the last braces, and the last closed braces.
#[derive(Drop)]
pub struct Names<'a> {
    pub begun: BTreeMap<&'a str, usize>,
    pub closed: BTreeMap<&'a str, Closed>,
}

fn is_later(closed: Option<Closed>, at: usize) -> bool
    ensures { result ≡ held.is_later closed at }
{
    match closed {
        None => false,
        Some(closed) => at < closed.at,
    }
}

impl<'a> Names<'a> {
    /// Returns the names of a scope that begins: none.
    #[tactic(auto, unfolding(crate::specs::Names::begun_of, crate::specs::Names::closed_of))]
    pub fn new(alloc: Global) -> Names<'a>
        ensures { Knows result [] }
    {
        Names {
            begun: BTreeMap::new(alloc),
            closed: BTreeMap::new(alloc),
        }
    }

    #[tactic(auto, unfolding(crate::specs::Names::closed_of))]
    fn know_begun(&mut self, name: &'a Text, at: usize) -> Result<(), AllocFailed<(&'a str, usize)>>
        ensures begun { IfOk result (λ _. begun_of self.new
            ≡ with_entry name.now at (begun_of self.old)) }
        ensures closed { closed_of self.new ≡ closed_of self.old }
    {
        self.begun.insert(name.as_str(), at)?;
        Ok(())
    }

    #[tactic(auto, unfolding(crate::specs::Names::begun_of))]
    fn know_closed(
        &mut self,
        name: &'a Text,
        closed: Closed,
    ) -> Result<(), AllocFailed<(&'a str, Closed)>>
        ensures closed { IfOk result (λ _. closed_of self.new
            ≡ with_entry name.now closed (closed_of self.old)) }
        ensures begun { begun_of self.new ≡ begun_of self.old }
    {
        self.closed.insert(name.as_str(), closed)?;
        Ok(())
    }

    #[tactic(auto, unfolding(crate::specs::Names::closed_of))]
    fn closed(&self, name: &Text) -> Option<Closed>
        ensures { result ≡ closed_of self.now name.now }
    {
        self.closed.get(name.as_str()).copied()
    }

    #[tactic(auto, unfolding(crate::specs::Names::begun_of))]
    fn begun(&self, name: &Text) -> Option<usize>
        ensures { result ≡ begun_of self.now name.now }
    {
        self.begun.get(name.as_str()).copied()
    }

    /// Records that braces open, with the name that DEF gives them; `at` braces of the scope were
    /// opened before. AllocError if memory runs out.
    pub fn open(&mut self, name: &'a Option<Text>, at: usize) -> Result<(), AllocError>
        ensures { (braces : List Braces) → at ≡ length braces → Knows self.old braces
            → IfOk result (λ _. Knows self.new (braces ++ held.opened name.now ∷ [])) }
    {
        let Some(name) = name else {
            return Ok(());
        };
        self.know_begun(name, at)?;
        Ok(())
    }

    /// Records that the braces number `at` close, and stand for the node of that number. AllocError
    /// if memory runs out.
    pub fn close(&mut self, name: &'a Option<Text>, at: usize, node: u32) -> Result<(), AllocError>
        ensures { (before after : List Braces) (what : Stands) → at ≡ length before
            → what.node ≡ node → Knows self.old (before ++ held.opened name.now ∷ after)
            → IfOk result (λ _. Knows self.new (before ++ held.closed name.now what ∷ after)) }
    {
        let Some(name) = name else {
            return Ok(());
        };
        if is_later(self.closed(name), at) {
            return Ok(());
        }
        self.know_closed(name, Closed { at, node })?;
        Ok(())
    }

    /// Returns the number of the node that USE takes: that of the last closed braces of that name.
    pub fn used(&self, name: &Text) -> Option<u32>
        ensures { (braces : List Braces) → Knows self.now braces
            → result ≡ meaning.used name.now braces }
    {
        match self.closed(name) {
            None => None,
            Some(closed) => Some(closed.node),
        }
    }

    /// Returns the place of the braces that ROUTE names: the last of that name, closed or not.
    pub fn named(&self, name: &Text) -> Option<usize>
        ensures { (braces : List Braces) → Knows self.now braces
            → result ≡ meaning.last_from 0 name.now braces }
    {
        self.begun(name)
    }
}
