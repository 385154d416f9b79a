//! The outputs that have sent, with a bit for each.

ghost use Rattle.std.specs.Prelude.{◌≡◌, [], length};
ghost use Rattle.cascade_trace.specs.Bits.{IsMarked, IsRising};

use crate::places::{place_of, push_starts, same_end};
use scene_core::{End, Scene};
use std::alloc::{AllocError, Global};
use std::marker::Model;

/// The outputs that have sent in the course of an input, in order.
#[derive(Drop)]
pub struct SentBits {
    /// Where the bits of each node start, followed by where those of the last node end.
    starts: Vec<usize>,
    bits: Vec<bool>,
    ends: Vec<End>,
}

impl Model for SentBits {
    ghost use Rattle.std.specs.Prelude.{List};
    ghost use Rattle.scene_core.specs.declared.scene.End.{End};
    ghost use Rattle.cascade_trace.specs.Bits.{IsTable};

    ghost Value = { List End };

    ghost view = { λ s. s.ends.items };

    ghost invariant = { λ s. IsTable s.starts.items s.bits.items s.ends.items };
}

impl SentBits {
    ghost use Rattle.std.specs.Prelude.{IfOk, ◌≡◌, ◌++◌, [], ◌∷◌, OnOk};
    ghost use Rattle.cascade_trace.specs.Ends.{has_sent};

    /// Makes the bits of a scene, of which no output has sent. Fails with `AllocError` if memory
    /// runs out.
    pub fn new(alloc: Global, scene: &Scene) -> Result<SentBits, AllocError>
        ensures { IfOk result (λ s. s ≡ []) }
    {
        let mut starts = Vec::new(alloc);
        let mut bits = Vec::new(alloc);
        push_starts(scene, &mut starts, &mut bits)?;
        Ok(SentBits {
            starts,
            bits,
            ends: Vec::new(alloc),
        })
    }

    /// Returns the outputs that have sent, in order.
    pub fn as_slice(&self) -> &[End]
        ensures { result.now ≡ self.now }
    {
        &self.ends
    }

    /// Reports whether an output has sent.
    pub fn contains(&self, source: End) -> bool
        ensures { result ≡ has_sent self.now source }
    {
        match place_of(&self.starts, source) {
            Some(place) => self.bits[place],
            None => self.ends.iter().any(|end| same_end(*end, source)),
        }
    }

    /// Records that an output has sent. Fails with `AllocError` if memory runs out.
    pub fn push(&mut self, source: End) -> Result<(), AllocError>
        ensures ok { OnOk result (self.new ≡ self.old ++ source ∷ []) }
    {
        self.ends.push(source)?;
        if let Some(place) = place_of(&self.starts, source) {
            self.bits[place] = true;
        }
        Ok(())
    }

    /// Forgets all outputs: none has sent.
    pub fn clear(&mut self)
        ensures { self.new ≡ [] }
    {
        unmark(&self.starts, &mut self.bits, &self.ends);
        self.ends.clear();
    }
}

/// Clears the bits of these outputs.
fn unmark(starts: &[usize], bits: &mut [bool], ends: &[End])
    requires rising { IsRising starts.now (length bits.old) }
    requires marked { IsMarked starts.now bits.old ends.now }
    ensures unmarked { IsMarked starts.now bits.new [] }
{
    for end in ends {
        if let Some(place) = place_of(starts, *end) {
            bits[place] = false;
        }
    }
}
