//! Sets of viewers, and the viewers over and pressing a TouchSensor, as bytes.

ghost use Rattle.std.specs.Prelude.{◌≡◌, ◌++◌, OnErr, OnOk};
ghost use Rattle.std.specs.Option.{option_map};
ghost use Rattle.snapshot_codec.specs.Parts.{viewer_count, presser_byte, viewer_set_codec, presser_codec, touch_codec};

use crate::numbers::{push_low_16, push_u64};
use byte_codec::{byte_of, u16_of, u64_of};
use std::alloc::AllocError;

/// The number of viewers that a world may have, and of the bits of a set of viewers.
#[derive(Clone, Copy, PartialEq, Eq)]
pub enum Viewers {
    Sixteen,
    SixtyFour,
}

/// The viewers over a TouchSensor, and the viewer that presses it.
#[derive(Clone, Copy, PartialEq, Eq)]
pub struct Touch {
    /// Bit v is set if viewer v's pointer is over the sensor.
    pub over: u64,
    /// The viewer that presses the sensor, if there is one.
    pub presser: Option<u8>,
}

fn viewer_count(viewers: Viewers) -> u8
    ensures { result ≡ viewer_count viewers }
{
    match viewers {
        Viewers::Sixteen => 16,
        Viewers::SixtyFour => 64,
    }
}

/// Reads a set of viewers: 16 or 64 bits, where viewer v is bit v. Returns it with the rest of the
/// bytes, or `None` if the bytes are too few.
#[tactic(auto, unfolding(crate::specs::Parts::viewer_set_codec))]
pub fn viewer_set_of(viewers: Viewers, bytes: &[u8]) -> Option<(u64, &[u8])>
    ensures { option_map (λ x. (x.0, x.1.now)) result ≡ (viewer_set_codec viewers).read bytes.now }
{
    match viewers {
        Viewers::Sixteen => {
            let Some((set, rest)) = u16_of(bytes) else {
                return None;
            };
            Some((u64::from(set), rest))
        }
        Viewers::SixtyFour => u64_of(bytes),
    }
}

/// Appends a set of viewers; for 16 viewers, the lowest 16 bits. On `AllocError` the buffer is
/// unchanged.
#[tactic(auto, unfolding(crate::specs::Parts::viewer_set_codec))]
pub fn push_viewer_set(viewers: Viewers, set: u64, out: &mut Vec<u8>) -> Result<(), AllocError>
    ensures ok { OnOk result (out.new.items
        ≡ out.old.items ++ (viewer_set_codec viewers).write set) }
    ensures err { OnErr result (out.new.items ≡ out.old.items) }
{
    match viewers {
        Viewers::Sixteen => push_low_16(set, out),
        Viewers::SixtyFour => push_u64(set, out),
    }
}

#[tactic(auto, unfolding(crate::specs::Parts::presser_codec))]
pub(crate) fn presser_of(viewers: Viewers, bytes: &[u8]) -> Option<(Option<u8>, &[u8])>
    ensures { option_map (λ x. (x.0, x.1.now)) result ≡ (presser_codec viewers).read bytes.now }
{
    let Some((number, rest)) = byte_of(bytes) else {
        return None;
    };
    if number == 255 {
        return Some((None, rest));
    }
    if number < viewer_count(viewers) {
        Some((Some(number), rest))
    } else {
        None
    }
}

fn presser_byte(presser: Option<u8>) -> u8
    ensures { result ≡ presser_byte presser }
{
    match presser {
        Some(viewer) => viewer,
        None => 255,
    }
}

/// Reads the viewers over a TouchSensor and the viewer that presses it: the set of viewers, then a
/// byte, 255 if no viewer presses the sensor and otherwise below the number of viewers. Returns
/// them with the rest of the bytes, or `None` if the bytes don't encode them.
#[tactic(auto, unfolding(crate::specs::Parts::touch_codec))]
pub fn touch_of(viewers: Viewers, bytes: &[u8]) -> Option<(Touch, &[u8])>
    ensures { option_map (λ x. (x.0, x.1.now)) result ≡ (touch_codec viewers).read bytes.now }
{
    let Some((over, rest)) = viewer_set_of(viewers, bytes) else {
        return None;
    };
    let Some((presser, rest)) = presser_of(viewers, rest) else {
        return None;
    };
    Some((Touch { over, presser }, rest))
}

/// Appends the viewers over a TouchSensor and the viewer that presses it. On `AllocError` the
/// buffer is unchanged.
#[tactic(auto, unfolding(crate::specs::Parts::touch_codec, crate::specs::Parts::presser_codec))]
pub fn push_touch(viewers: Viewers, touch: Touch, out: &mut Vec<u8>) -> Result<(), AllocError>
    ensures ok { OnOk result (out.new.items ≡ out.old.items ++ (touch_codec viewers).write touch) }
    ensures err { OnErr result (out.new.items ≡ out.old.items) }
{
    let len = out.len();
    push_viewer_set(viewers, touch.over, out)?;
    let pushed = out.extend_from_slice(&[presser_byte(touch.presser)]);
    if pushed.is_err() {
        out.truncate(len);
    }
    pushed
}
