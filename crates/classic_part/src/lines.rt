//! The lines that are refused, in order.

ghost use Rattle.std.specs.Prelude.{◌≡◌, ◌==◌, ◌++◌, ◌∷◌, [], List, ℕ, true, false, IfOk, if◌then◌else◌};
ghost use Rattle.classic_part.specs.Index.{AreOf, has};

use std::alloc::{AllocError, AllocFailed, Global};
use std::collections::BTreeSet;

/// Lines in order.
#[derive(Drop)]
pub struct LineSet {
    pub lines: BTreeSet<u32>,
}

impl LineSet {
    fn new(alloc: Global) -> LineSet
        ensures { (line : ℕ) → has result line ≡ false }
    {
        LineSet {
            lines: BTreeSet::new(alloc),
        }
    }

    /// Reports whether a line is one of these.
    #[tactic(auto, unfolding(crate::specs::Index::has))]
    pub(crate) fn has(&self, line: u32) -> bool
        ensures { result ≡ has self.now line }
    {
        self.lines.contains(&line)
    }

    fn add(&mut self, line: u32) -> Result<(), AllocFailed<u32>>
        ensures { IfOk result (λ _. (other : ℕ)
            → has self.new other ≡ (if line == other then true else has self.old other)) }
    {
        self.lines.insert(line)?;
        Ok(())
    }

    /// Adds a line to those that are refused.
    fn refuse(&mut self, line: u32) -> Result<(), AllocError>
        ensures { (refused : List ℕ) → AreOf self.old refused
            → IfOk result (λ _. AreOf self.new (refused ++ line ∷ [])) }
    {
        self.add(line)?;
        Ok(())
    }

    /// Returns the lines that are refused.
    pub(crate) fn of(alloc: Global, refused: &[u32]) -> Result<LineSet, AllocError>
        ensures { IfOk result (λ lines. AreOf lines refused.now) }
    {
        let mut lines = LineSet::new(alloc);
        for line in refused {
            lines.refuse(*line)?;
        }
        Ok(lines)
    }
}
