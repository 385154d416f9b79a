//! Snapshots as bytes: their sizes, and damaged ones, each of which is refused.

use super::given::{CLOCKED, COUNTED, EMPTY, Trial, try_on};
use super::memory::is_unchanged;
use script_boxes::StockScript;
use share_core::Viewer;
use share_law::SnapFault;
use snapshot_core::scene_mark;
use std::alloc::{AllocError, Global};
use std::process::Abort;

/// A snapshot has this many bytes.
pub(super) struct Size(pub(super) usize);

impl Trial for Size {
    fn holds(&self, _alloc: Global, _viewer: &mut Viewer<StockScript>, shot: &[u8]) -> bool {
        shot.len() == self.0
    }
}

/// Texts, clocks, and the sizes of their snapshots.
static SIZES: [(&str, u32, Size); 4] = [
    (EMPTY, 0, Size(105)),
    (CLOCKED, 0, Size(157)),
    (CLOCKED, 1, Size(346)),
    (COUNTED, 0, Size(200)),
];

#[test]
fn snapshot_sizes(rt: HostRuntime) {
    for (text, clocks, size) in &SIZES {
        try_on(&rt, rt.alloc(), text, *clocks, size);
    }
}

/// Returns why a viewer can't begin again from these bytes, as its next boot.
pub(super) fn fault_of(viewer: &mut Viewer<StockScript>, bytes: &[u8]) -> Option<SnapFault> {
    let boot = viewer.boot().saturating_add(1);
    viewer.rewind(bytes, boot).err()
}

/// Returns the fault of a snapshot in which these bits of byte `at` are flipped. If its version is
/// then 1 or 2, only the digest is wrong.
fn flip_fault(at: usize, bits: u8) -> SnapFault {
    match at {
        0..=3 => SnapFault::BadMagic,
        4 if bits > 2 => SnapFault::BadVersion,
        5..=36 => SnapFault::WrongScene,
        _ => SnapFault::BadDigest,
    }
}

fn flip(bytes: &mut [u8], at: usize, bits: u8) {
    if let Some(byte) = bytes.get_mut(at) {
        *byte ^= bits;
    }
}

/// Reports whether each flip of a bit of byte `at` is refused.
fn refuses_byte(viewer: &mut Viewer<StockScript>, shot: &mut [u8], at: usize) -> bool {
    for bits in [1, 2, 4, 8, 16, 32, 64, 128] {
        flip(shot, at, bits);
        let fault = fault_of(viewer, shot);
        flip(shot, at, bits);
        if fault != Some(flip_fault(at, bits)) {
            return false;
        }
    }
    true
}

/// Reports whether each flip of a bit is refused. The unchanged snapshot must then be taken.
fn refuses_flips(viewer: &mut Viewer<StockScript>, shot: &mut [u8]) -> bool {
    for at in 0..shot.len() {
        if !refuses_byte(viewer, shot, at) {
            return false;
        }
    }
    fault_of(viewer, shot) == None
}

/// Flips each bit of a snapshot.
struct Flips;

impl Trial for Flips {
    fn holds(&self, alloc: Global, viewer: &mut Viewer<StockScript>, shot: &[u8]) -> bool {
        let Ok(mut copy) = shot.to_vec(alloc) else {
            return false;
        };
        let refused = refuses_flips(viewer, copy.as_mut_slice());
        drop(copy);
        refused
    }
}

#[test]
fn flipped_snapshot_bit(rt: HostRuntime) {
    try_on(&rt, rt.alloc(), CLOCKED, 0, &Flips);
}

/// Cuts a snapshot short after each byte. The rest is too short, or has another digest.
struct Cuts;

impl Trial for Cuts {
    fn holds(&self, _alloc: Global, viewer: &mut Viewer<StockScript>, shot: &[u8]) -> bool {
        for len in 0..shot.len() {
            let wanted = if len < 85 {
                SnapFault::Short
            } else {
                SnapFault::BadDigest
            };
            if fault_of(viewer, &shot[..len]) != Some(wanted) {
                return false;
            }
        }
        true
    }
}

#[test]
fn each_prefix_is_refused(rt: HostRuntime) {
    try_on(&rt, rt.alloc(), CLOCKED, 0, &Cuts);
}

/// The number of bytes of the digest.
pub(super) const DIGEST: usize = 32;

/// The place of a byte of a snapshot, its new value, and the fault with which that is refused, or
/// `None` if it is loaded.
pub(super) type Alteration = (usize, u8, Option<SnapFault>);

/// Writes a snapshot with another byte at this place, or one more byte at its end, and with the
/// right digest.
pub(super) fn alter(shot: &[u8], at: usize, new: u8, out: &mut Vec<u8>) -> Result<(), AllocError> {
    out.clear();
    out.extend_from_slice(shot)?;
    out.truncate(shot.len().saturating_sub(DIGEST));
    if at == out.len() {
        out.push(new)?;
    } else if let Some(byte) = out.get_mut(at) {
        *byte = new;
    }
    let digest = scene_mark(out.as_slice());
    out.extend_from_slice(&digest)
}

/// Reports whether each alteration is refused with its fault, or taken.
fn answers_each(
    viewer: &mut Viewer<StockScript>,
    shot: &[u8],
    alterations: &[Alteration],
    out: &mut Vec<u8>,
) -> bool {
    for (at, new, fault) in alterations {
        if alter(shot, *at, *new, out).is_err() {
            return false;
        }
        if fault_of(viewer, out.as_slice()) != *fault {
            return false;
        }
    }
    true
}

/// Alters a snapshot in each of these ways, with the right digest.
pub(super) struct Alterations(pub(super) &'static [Alteration]);

impl Trial for Alterations {
    fn holds(&self, alloc: Global, viewer: &mut Viewer<StockScript>, shot: &[u8]) -> bool {
        let mut out = Vec::new(alloc);
        let answered = answers_each(viewer, shot, self.0, &mut out);
        drop(out);
        answered
    }
}

pub(super) const NOT_CANONICAL: Option<SnapFault> = Some(SnapFault::NotCanonical);

const NO_STATE: Option<SnapFault> = Some(SnapFault::ScriptState);

/// Alterations of the snapshot before any clock.
static WORLDS: Alterations = Alterations(&[
    // 2^56 or 2^48 inputs were applied
    (41, 1, NOT_CANONICAL),
    (42, 1, NOT_CANONICAL),
    // the last time is below 0
    (49, 128, NOT_CANONICAL),
    // the length of a cycle is below 0
    (57, 128, NOT_CANONICAL),
    // a truth value is 2
    (65, 2, NOT_CANONICAL),
    // the sensor's activity is 2
    (99, 2, NOT_CANONICAL),
    // the sensor has a cycle, and isn't active
    (107, 1, NOT_CANONICAL),
    // the toggle is 2
    (108, 2, NOT_CANONICAL),
    // there is an event
    (124, 1, NOT_CANONICAL),
    // there are 2^56 events
    (117, 1, NOT_CANONICAL),
    // there is one byte more after the trace
    (125, 0, NOT_CANONICAL),
    // the boot is the one that begins
    (40, 2, Some(SnapFault::BootNotNew)),
    // the boot is another one
    (40, 0, None),
    // the first viewer's button is down, or the last one's
    (116, 1, None),
    (109, 128, None),
    // the snapshot is of version 1, for 16 viewers, or of version 2
    (4, 1, NOT_CANONICAL),
    (4, 2, NOT_CANONICAL),
    // there is no version 4
    (4, 4, Some(SnapFault::BadVersion)),
]);

/// Alterations of the snapshot after a clock: another node, field and value of its first event.
static EVENTS: Alterations = Alterations(&[
    (144, 3, NOT_CANONICAL),
    (146, 0, NOT_CANONICAL),
    (147, 2, NOT_CANONICAL),
]);

/// Alterations of the snapshot of a counter's world before any clock.
static STATES: Alterations = Alterations(&[
    // the count is above those of an SFInt32, or below
    (144, 1, NO_STATE),
    (144, 255, NO_STATE),
    // the step is above
    (155, 1, NO_STATE),
    // the state has one number, or three
    (143, 1, NOT_CANONICAL),
    (143, 3, NOT_CANONICAL),
    // the count and the step are others
    (151, 9, None),
    (159, 3, None),
]);

/// Each of these alterations of a snapshot is refused, and the viewer is unchanged: the snapshot
/// has 84 bytes, the lowest bit of its last byte is flipped, or it is of another scene.
struct Damages;

/// Reports whether the snapshots are refused with these faults.
fn refuses_damages(viewer: &mut Viewer<StockScript>, shot: &[u8], other: &mut Vec<u8>) -> bool {
    if shot.len() < 84 {
        return false;
    }
    let is_short = fault_of(viewer, &shot[..84]) == Some(SnapFault::Short);
    let altered = alter(shot, 5, b'z', other).is_ok();
    let scene = fault_of(viewer, other.as_slice()) == Some(SnapFault::WrongScene);
    other.clear();
    let copied = other.extend_from_slice(shot).is_ok();
    flip(other.as_mut_slice(), shot.len().saturating_sub(1), 1);
    let digest = fault_of(viewer, other.as_slice()) == Some(SnapFault::BadDigest);
    is_short && altered && scene && copied && digest
}

impl Trial for Damages {
    fn holds(&self, alloc: Global, viewer: &mut Viewer<StockScript>, shot: &[u8]) -> bool {
        let mut other = Vec::new(alloc);
        let refused = refuses_damages(viewer, shot, &mut other);
        drop(other);
        refused && viewer.boot() == 1 && is_unchanged(alloc, viewer, shot)
    }
}

#[test]
fn damaged_bytes(rt: HostRuntime) {
    try_on(&rt, rt.alloc(), COUNTED, 3, &Damages);
}

#[test]
fn what_no_world_has_is_refused(rt: HostRuntime) {
    try_on(&rt, rt.alloc(), CLOCKED, 0, &WORLDS);
}

#[test]
fn an_event_that_no_node_sends_is_refused(rt: HostRuntime) {
    try_on(&rt, rt.alloc(), CLOCKED, 1, &EVENTS);
}

#[test]
fn a_state_that_no_script_has_is_refused(rt: HostRuntime) {
    try_on(&rt, rt.alloc(), COUNTED, 0, &STATES);
}
