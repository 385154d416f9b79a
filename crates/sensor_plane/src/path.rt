//! The path from the roots of a scene to one of its lists.

ghost use Rattle.std.specs.Prelude.{◌≡◌, ◌≤◌, ◌^◌, ◌++◌, drop, length, nat_lt, true};
ghost use Rattle.std.specs.List.{list_all};
ghost use Rattle.sensor_plane.specs.Paths.{padded, path_fits};

use std::marker::Model;

/// The largest number of positions in a path.
pub const MAX_POSITIONS: usize = 64;

/// The path from the roots of a scene to the node whose children are in a list: at most 64
/// positions, each counted from 0, the root's first. An empty path leads to the list of the roots.
#[derive(Clone, Copy, PartialEq, Eq)]
pub struct ListPath {
    positions: [u32; 64],
    len: u8,
}

impl Model for ListPath {
    ghost use Rattle.std.specs.Prelude.{◌≡◌, ℕ, List, length, take};
    ghost use Rattle.std.proofs.Common.{ap, ◌∙◌};
    ghost use Rattle.sensor_plane.specs.Paths.{padded};

    ghost Value = { List ℕ };

    ghost view = { λ p. take p.len p.positions };

    ghost invariant = { λ p. (length (take p.len p.positions) ≡ p.len)
        × (padded (take p.len p.positions) ≡ p.positions) };

    ghost inverse = { λ ps. record { positions = padded ps; len = length ps } };

    ghost inverse_ok = { λ a h. ap (λ (n : ℕ). record a {
      positions = padded (take a.len a.positions);
      len = n;
    }) h.0 ∙ ap (λ (l : List ℕ). record a { positions = l }) h.1 };
}

impl ListPath {
    ghost use Rattle.std.specs.Prelude.{◌≡◌, ◌≤◌, length, true};
    ghost use Rattle.sensor_plane.specs.Paths.{list_path, path_fits};

    /// Returns the path with these positions. Returns `None` if there are more than 64 positions,
    /// or if one doesn't fit into 32 bits.
    pub fn new(positions: &[usize]) -> Option<ListPath>
        ensures { result ≡ list_path positions.now }
    {
        if !path_fits(positions) {
            return None;
        }
        Some(ListPath {
            positions: narrowed(positions),
            len: positions.len() as u8,
        })
    }

    /// Returns the path with these positions. Returns `None` if there are more than 64.
    pub fn from_u32(positions: &[u32]) -> Option<ListPath>
        ensures { result ≡ list_path positions.now }
    {
        if positions.len() > MAX_POSITIONS {
            return None;
        }
        Some(ListPath {
            positions: padded(positions),
            len: positions.len() as u8,
        })
    }

    /// Returns the positions, at most 64.
    pub fn as_slice(&self) -> &[u32]
        ensures value { result.now ≡ self.now }
        ensures few { length result.now ≤ 64 }
        ensures fits { path_fits result.now ≡ true }
    {
        may_be_kept(&self.positions[..self.len as usize])
    }
}

/// Returns the positions, for the prover: at most 64 positions of 32 bits fit.
fn may_be_kept(positions: &[u32]) -> &[u32]
    requires { length positions.now ≤ 64 }
    ensures value { result.now ≡ positions.now }
    ensures fits { path_fits result.now ≡ true }
{
    positions
}

fn are_short(positions: &[usize]) -> bool
    ensures { result ≡ list_all (λ p. nat_lt p (2 ^ 32)) positions.now }
{
    positions.iter().all(|position| *position < 1 << 32)
}

fn path_fits(positions: &[usize]) -> bool
    ensures { result ≡ path_fits positions.now }
{
    positions.len() <= MAX_POSITIONS && are_short(positions)
}

/// Returns the positions followed by zeros, 64 in all.
fn narrowed(positions: &[usize]) -> [u32; 64]
    requires { path_fits positions.now ≡ true }
    ensures { result ≡ padded positions.now }
{
    let mut all = [0; 64];
    for at in 0..positions.len() {
        all[at] = positions[at] as u32;
    }
    all
}

/// Writes these positions to the front.
fn put_front(all: &mut [u32; 64], positions: &[u32])
    requires { length positions.now ≤ 64 }
    ensures { all.new ≡ positions.now ++ drop (length positions.now) all.old }
{
    all[..positions.len()].copy_from_slice(positions);
}

/// Returns the positions followed by zeros, 64 in all.
fn padded(positions: &[u32]) -> [u32; 64]
    requires { length positions.now ≤ 64 }
    ensures { result ≡ padded positions.now }
{
    let mut all = [0; 64];
    put_front(&mut all, positions);
    all
}
