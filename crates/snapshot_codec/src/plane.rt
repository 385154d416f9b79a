//! The viewers over a PlaneSensor, and what is kept of a drag, as bytes.

ghost use Rattle.std.specs.Prelude.{◌≡◌, ◌++◌, ◌≤◌, length, Some, OnErr, OnOk};
ghost use Rattle.std.specs.Int.{w32};
ghost use Rattle.std.specs.Option.{option_map};
ghost use Rattle.x3d_lists.specs.Extends.{Extends};
ghost use Rattle.byte_codec.specs.Codec.{many_at, number};
ghost use Rattle.snapshot_codec.specs.Parts.{drag_behind, drag_codec, drag_text, held_codec, path_codec, path_length, plane_codec};

use crate::coded::{Coded, push_many};
use crate::numbers::push_u64;
use crate::vectors::vector3_of;
use crate::viewers::{Viewers, presser_of, viewer_set_of};
use arrayvec::ArrayVec;
use byte_codec::{byte_of, u32_of};
use std::alloc::AllocError;
use std::marker::Model;
use x3d_values::Vec3;

/// The positions that lead from the roots of a scene down to one of its lists, at most 64.
#[derive(Drop)]
pub struct Path {
    positions: ArrayVec<u32, 64>,
}

impl Model for Path {
    ghost use Rattle.std.specs.Prelude.{ℕ, List};

    ghost Value = { List ℕ };

    ghost view = { λ p. p.positions.items };
}

impl Path {
    ghost use Rattle.std.specs.Prelude.{◌≡◌, ◌≤◌, length};

    /// Makes a path of at most 64 positions.
    pub fn new(positions: &[u32]) -> Path
        requires { length positions.now ≤ 64 }
        ensures { result ≡ positions.now }
    {
        let mut all = ArrayVec::new();
        let _fits = all.try_extend_from_slice(positions);
        Path { positions: all }
    }

    /// Returns the positions, at most 64.
    pub fn as_slice(&self) -> &[u32]
        ensures value { result.now ≡ self.now }
        ensures fits { length result.now ≤ 64 }
    {
        self.positions.as_slice()
    }
}

/// What is kept while a viewer drags: the viewer that presses, where the press began, the
/// translation so far, both in millionths, and the path to the list that holds the sensor.
#[derive(Drop)]
pub struct Drag {
    pub presser: u8,
    pub start: Vec3,
    pub last: Vec3,
    pub path: Path,
}

/// The viewers over a PlaneSensor, and the drag, if a viewer presses it.
#[derive(Drop)]
pub struct Plane {
    /// Bit v is set if viewer v's pointer is over the sensor.
    pub over: u64,
    pub drag: Option<Drag>,
}

// ---- reading

fn path_length_of(bytes: &[u8]) -> Option<(u8, &[u8])>
    ensures { option_map (λ x. (x.0, x.1.now)) result ≡ path_length.read bytes.now }
{
    let Some((length, rest)) = byte_of(bytes) else {
        return None;
    };
    if length > 64 {
        return None;
    }
    Some((length, rest))
}

/// Reads `count` positions.
fn positions_of(count: u8, bytes: &[u8]) -> Option<(Path, &[u8])>
    requires { count ≤ 64 }
    ensures { option_map (λ x. (x.0, x.1.now)) result ≡ many_at (number w32) count bytes.now }
{
    let mut positions = ArrayVec::new();
    let mut rest = bytes;
    for _ in 0..count {
        let Some((position, after)) = u32_of(rest) else {
            return None;
        };
        positions.push(position);
        rest = after;
    }
    Some((Path { positions }, rest))
}

#[tactic(auto, unfolding(crate::specs::Parts::path_codec))]
fn path_of(bytes: &[u8]) -> Option<(Path, &[u8])>
    ensures { option_map (λ x. (x.0, x.1.now)) result ≡ path_codec.read bytes.now }
{
    let Some((count, rest)) = path_length_of(bytes) else {
        return None;
    };
    positions_of(count, rest)
}

#[tactic(auto, unfolding(crate::specs::Parts::held_codec))]
fn held_of(bytes: &[u8]) -> Option<((Vec3, Vec3, Path), &[u8])>
    ensures { option_map (λ x. ((x.0.0, (x.0.1, x.0.2)), x.1.now)) result
        ≡ held_codec.read bytes.now }
{
    let Some((start, rest)) = vector3_of(bytes) else {
        return None;
    };
    let Some((last, rest)) = vector3_of(rest) else {
        return None;
    };
    let Some((path, rest)) = path_of(rest) else {
        return None;
    };
    Some(((start, last, path), rest))
}

/// Reads the drag of the viewer that presses.
fn drag_by(presser: u8, bytes: &[u8]) -> Option<(Option<Drag>, &[u8])>
    ensures { option_map (λ x. (x.0, x.1.now)) result ≡ drag_behind (Some presser) bytes.now }
{
    let Some(((start, last, path), rest)) = held_of(bytes) else {
        return None;
    };
    let drag = Drag {
        presser,
        start,
        last,
        path,
    };
    Some((Some(drag), rest))
}

fn drag_behind(presser: Option<u8>, bytes: &[u8]) -> Option<(Option<Drag>, &[u8])>
    ensures { option_map (λ x. (x.0, x.1.now)) result ≡ drag_behind presser bytes.now }
{
    match presser {
        Some(presser) => drag_by(presser, bytes),
        None => Some((None, bytes)),
    }
}

#[tactic(auto, unfolding(crate::specs::Parts::drag_codec))]
fn drag_of(bytes: &[u8]) -> Option<(Option<Drag>, &[u8])>
    ensures { option_map (λ x. (x.0, x.1.now)) result ≡ drag_codec.read bytes.now }
{
    let Some((presser, rest)) = presser_of(Viewers::SixtyFour, bytes) else {
        return None;
    };
    drag_behind(presser, rest)
}

/// Reads the viewers over a PlaneSensor and its drag: the set of viewers, then a byte, 255 if no
/// viewer presses the sensor and otherwise the viewer, below 64. If a viewer presses, these follow:
/// where the press began and the last translation, three numbers each, then a byte up to 64 and
/// that many positions. Returns the parts with the rest of the bytes, or `None` if the bytes
/// don't encode them.
#[tactic(auto, unfolding(crate::specs::Parts::plane_codec))]
pub fn plane_of(bytes: &[u8]) -> Option<(Plane, &[u8])>
    ensures { option_map (λ x. (x.0, x.1.now)) result ≡ plane_codec.read bytes.now }
{
    let Some((over, rest)) = viewer_set_of(Viewers::SixtyFour, bytes) else {
        return None;
    };
    let Some((drag, rest)) = drag_of(rest) else {
        return None;
    };
    Some((Plane { over, drag }, rest))
}

// ---- writing

/// Appends a path. On `AllocError`, `out` may hold a part of it.
#[tactic(auto, unfolding(crate::specs::Parts::path_codec))]
fn push_path(path: &Path, out: &mut Vec<u8>) -> Result<(), AllocError>
    ensures ok { OnOk result (out.new.items ≡ out.old.items ++ path_codec.write path.now) }
    ensures kept { Extends out.old.items out.new.items }
{
    let positions = path.as_slice();
    out.push(positions.len() as u8)?;
    push_many(positions, out)
}

/// Appends what is kept while a viewer drags. On `AllocError`, `out` may hold a part of it.
#[tactic(auto, unfolding(crate::specs::Parts::held_codec))]
fn push_held(drag: &Drag, out: &mut Vec<u8>) -> Result<(), AllocError>
    ensures ok { OnOk result (out.new.items
        ≡ out.old.items ++ held_codec.write (drag.now.start, (drag.now.last, drag.now.path))) }
    ensures kept { Extends out.old.items out.new.items }
{
    drag.start.push_to(out)?;
    drag.last.push_to(out)?;
    push_path(&drag.path, out)
}

/// Appends a drag. On `AllocError`, `out` may hold a part of it.
#[tactic(auto, unfolding(crate::specs::Parts::presser_codec))]
fn push_drag(drag: &Option<Drag>, out: &mut Vec<u8>) -> Result<(), AllocError>
    ensures ok { OnOk result (out.new.items ≡ out.old.items ++ drag_text drag.now) }
    ensures kept { Extends out.old.items out.new.items }
{
    match drag {
        Some(drag) => {
            out.push(drag.presser)?;
            push_held(drag, out)
        }
        None => {
            out.push(255)?;
            Ok(())
        }
    }
}

fn push_parts(plane: &Plane, out: &mut Vec<u8>) -> Result<(), AllocError>
    ensures ok { OnOk result (out.new.items ≡ out.old.items ++ plane_codec.write plane.now) }
    ensures kept { Extends out.old.items out.new.items }
{
    push_u64(plane.over, out)?;
    push_drag(&plane.drag, out)
}

/// Appends the viewers over a PlaneSensor, and its drag. On `AllocError` the buffer is unchanged.
pub fn push_plane(plane: &Plane, out: &mut Vec<u8>) -> Result<(), AllocError>
    ensures ok { OnOk result (out.new.items ≡ out.old.items ++ plane_codec.write plane.now) }
    ensures err { OnErr result (out.new.items ≡ out.old.items) }
{
    let len = out.len();
    let pushed = push_parts(plane, out);
    if pushed.is_err() {
        out.truncate(len);
    }
    pushed
}
