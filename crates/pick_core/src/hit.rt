//! What a ray hits.

ghost use Rattle.std.specs.Prelude.{◌≡◌, ◌≤◌, length, map};
ghost use Rattle.pick_core.specs.Trail.{positions};

use crate::trail::{DEPTH, Place};
use arrayvec::ArrayVec;
use std::marker::Model;

/// The positions, counted from 0, that lead from the roots of a scene down to a Shape. The root's
/// position comes first.
#[derive(Drop)]
pub struct Path {
    positions: ArrayVec<usize, DEPTH>,
}

impl Model for Path {
    ghost use Rattle.std.specs.Prelude.{ℕ, List};

    ghost Value = { List ℕ };

    ghost view = { λ p. p.positions.items };
}

/// A box that a ray hits, given by its path, and where the ray enters the box: at `n / m` of the
/// way along the ray's direction. `m` is above 0.
#[derive(Drop)]
pub struct Hit {
    pub path: Path,
    pub n: u64,
    pub m: u64,
}

impl Path {
    ghost use Rattle.std.specs.Prelude.{◌≡◌, ◌≤◌, length};
    ghost use Rattle.x3d_values.specs.Ranges.{max_depth};
    ghost use Rattle.pick_core.specs.Trail.{positions};

    /// Returns the positions of a trail.
    pub(crate) fn along(trail: &[Place]) -> Path
        requires { length trail.now ≤ max_depth }
        ensures { result ≡ positions trail.now }
    {
        let mut path = ArrayVec::new();
        for place in trail {
            path.push(place.position);
        }
        Path { positions: path }
    }

    /// Returns the positions, the root's first.
    pub fn as_slice(&self) -> &[usize]
        ensures { result.now ≡ self.now }
    {
        self.positions.as_slice()
    }
}
