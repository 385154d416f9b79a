//! The way from the roots of a scene down to a node.

ghost use Rattle.std.specs.Prelude.{◌≡◌};
ghost use Rattle.pick_core.specs.Trail.{carried};

use crate::motion::move_box;
use pick_rules::Bounds;
use scene_core::Scene;
use std::alloc::{AllocError, Global};
use std::marker::Model;
use x3d_lists::Items;
use x3d_values::{Fields, MAX_DEPTH};

/// A node and its position among its siblings, from 0.
#[derive(Clone, Copy, Default)]
pub struct Place {
    pub position: usize,
    pub node: u32,
}

/// The most places in a trail, which is the most nodes in a chain.
pub(crate) const DEPTH: usize = MAX_DEPTH as usize;

/// The places from a root of a scene down to a node, at most `DEPTH`.
#[derive(Drop)]
pub(crate) struct Trail {
    places: Items<Place>,
}

impl Model for Trail {
    ghost use Rattle.std.specs.Prelude.{◌≤◌, List, length};
    ghost use Rattle.x3d_values.specs.Ranges.{max_depth};
    ghost use Rattle.pick_core.specs.declared.trail.Place.{Place};

    ghost Value = { List Place };

    ghost view = { λ t. t.places };

    ghost invariant = { λ t. length t.places ≤ max_depth };
}

impl Trail {
    ghost use Rattle.std.specs.Prelude.{◌≡◌, ◌≤◌, length, IfOk};
    ghost use Rattle.x3d_values.specs.Ranges.{max_depth};

    pub(crate) fn of(alloc: Global, places: &[Place]) -> Result<Trail, AllocError>
        requires { length places.now ≤ max_depth }
        ensures { IfOk result (λ trail. trail ≡ places.now) }
    {
        Ok(Trail {
            places: Items::from_slice(alloc, places)?,
        })
    }

    pub(crate) fn as_slice(&self) -> &[Place]
        ensures value { result.now ≡ self.now }
        ensures fits { length result.now ≤ max_depth }
    {
        self.places.as_slice()
    }
}

/// Converts a box from the end of a trail to the world.
pub(crate) fn carry(scene: &Scene, state: &[Fields], trail: &[Place], bounds: Bounds) -> Bounds
    ensures { result ≡ carried scene.now state.now trail.now bounds }
{
    let mut bounds = bounds;
    let mut left = trail.len();
    while left > 0 {
        left -= 1;
        bounds = move_box(scene, state, trail[left].node, bounds);
    }
    bounds
}
