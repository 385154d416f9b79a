//! What snapshots have of pointing sensors, with bytes by hand.

use super::super::{Row, all_hold, holds};
use arrayvec::ArrayVec;
use snapshot_codec::{
    Drag, Path, Plane, Touch, Viewers, plane_of, push_plane, push_touch, touch_of, viewer_set_of,
};
use std::alloc::Global;
use std::process::Abort;
use x3d_values::Vec3;

/// A touch with two of 64 viewers over it; the last viewer presses.
const TOUCH_OF_64: &[u8] = b"\x80\x00\x00\x00\x00\x00\x00\x01\x3f";

/// Reports whether that touch is written as these bytes and read from them.
fn is_touch_of_64(alloc: Global) -> bool {
    let touch = Touch {
        over: 1 << 63 | 1,
        presser: Some(63),
    };
    let mut out = Vec::new(alloc);
    let pushed = push_touch(Viewers::SixtyFour, touch, &mut out).is_ok();
    let same = out.as_slice() == TOUCH_OF_64;
    let read = touch_of(Viewers::SixtyFour, out.as_slice()) == Some((touch, &[]));
    drop(out);
    pushed && same && read
}

#[test]
fn a_touch_has_its_bytes(rt: HostRuntime) {
    holds(&rt, is_touch_of_64(rt.alloc()));
    let below = b"\x00\x00\x00\x00\x00\x00\x00\x00\x40";
    holds(&rt, touch_of(Viewers::SixtyFour, below).is_none());
    holds(&rt, touch_of(Viewers::Sixteen, b"\x00\x00\x10").is_none());
    holds(&rt, viewer_set_of(Viewers::SixtyFour, &[255; 7]).is_none());
}

/// Two PlaneSensors. Viewer 63 is over the first and presses it, from 1 -0.000001 0 on, with
/// translation 2 0 0, on the path to the second root and its first child. No viewer is over the
/// second.
const PLANES: &[u8] = b"\x80\x00\x00\x00\x00\x00\x00\x00\x3f\
    \x00\x00\x00\x00\x00\x0f\x42\x40\xff\xff\xff\xff\xff\xff\xff\xff\
    \x00\x00\x00\x00\x00\x00\x00\x00\x00\x00\x00\x00\x00\x1e\x84\x80\
    \x00\x00\x00\x00\x00\x00\x00\x00\x00\x00\x00\x00\x00\x00\x00\x00\
    \x02\x00\x00\x00\x01\x00\x00\x00\x00\
    \x00\x00\x00\x00\x00\x00\x00\x00\xff";

fn pressed() -> Plane {
    Plane {
        over: 1 << 63,
        drag: Some(Drag {
            presser: 63,
            start: Vec3 {
                x: 1_000_000,
                y: -1,
                z: 0,
            },
            last: Vec3 {
                x: 2_000_000,
                y: 0,
                z: 0,
            },
            path: Path::new(&[1, 0]),
        }),
    }
}

/// Reports whether the two sensors are written as these bytes.
fn are_planes(alloc: Global) -> bool {
    let mut out = Vec::new(alloc);
    let pressed = push_plane(&pressed(), &mut out).is_ok();
    let nobody = Plane {
        over: 0,
        drag: None,
    };
    let none = push_plane(&nobody, &mut out).is_ok();
    let same = out.as_slice() == PLANES;
    drop(out);
    pressed && none && same
}

/// Reports whether a viewer presses, on this path.
fn is_way(drag: &Option<Drag>, way: &[u32]) -> bool {
    match drag {
        Some(drag) => drag.path.as_slice() == way,
        None => false,
    }
}

/// Reports whether a pressed sensor is read, with `behind` bytes after it.
fn is_pressed(bytes: &[u8], behind: usize) -> bool {
    match plane_of(bytes) {
        Some((plane, rest)) => is_way(&plane.drag, &[1, 0]) && rest.len() == behind,
        None => false,
    }
}

#[test]
fn drags_have_their_bytes(rt: HostRuntime) {
    holds(&rt, are_planes(rt.alloc()));
    holds(&rt, is_pressed(PLANES, 9));
    holds(&rt, plane_of(&PLANES[..65]).is_none());
}

/// Returns the bytes of a PlaneSensor that no viewer is over, with this byte for its presser, this
/// height of the point of the press, and this number of positions. After them are as many bytes as
/// 64 positions have.
fn drag_bytes(presser: u8, height: &[u8], count: u8) -> ArrayVec<u8, 320> {
    let mut out = ArrayVec::new();
    let _over = out.try_extend_from_slice(&[0; 8]);
    let _presser = out.try_push(presser);
    let _before = out.try_extend_from_slice(&[0; 16]);
    let _height = out.try_extend_from_slice(height);
    let _last = out.try_extend_from_slice(&[0; 24]);
    let _count = out.try_push(count);
    let _positions = out.try_extend_from_slice(&[0; 256]);
    out
}

/// The arguments of `drag_bytes`, and how many bytes are left after a PlaneSensor is read from
/// them.
struct Left(u8, &'static [u8], u8, Option<usize>);

impl Row for Left {
    fn holds(&self, _alloc: Global) -> bool {
        match plane_of(drag_bytes(self.0, self.1, self.2).as_slice()) {
            Some((_plane, rest)) => self.3 == Some(rest.len()),
            None => self.3 == None,
        }
    }
}

/// 10^15, and one more.
const FAR: &[u8] = b"\x00\x03\x8d\x7e\xa4\xc6\x80\x00";

const TOO_FAR: &[u8] = b"\x00\x03\x8d\x7e\xa4\xc6\x80\x01";

static LEFT: [Left; 7] = [
    Left(255, FAR, 0, Some(305)),
    Left(63, FAR, 0, Some(256)),
    Left(64, FAR, 0, None),
    Left(254, FAR, 0, None),
    Left(0, TOO_FAR, 0, None),
    Left(0, FAR, 64, Some(0)),
    Left(0, FAR, 65, None),
];

#[test]
fn drags_are_read_in_their_ranges(rt: HostRuntime) {
    all_hold(&rt, rt.alloc(), &LEFT);
}
