//! The base of a file, and the frames after it.

ghost use Rattle.std.specs.Prelude.{◌≡◌, ◌≤◌};
ghost use Rattle.share_log.specs.Log.{payloads};
ghost use Rattle.share_file.specs.Entries.{base_among, behind_base, first_number, seated};

use share_entries::{Base, Head, base_of, is_base};

/// Returns the base if it keeps something of each viewer of the head. Else frame 1 is damaged.
fn seated(head: &Head, base: Option<Base>) -> Result<Option<Base>, u64>
    ensures { result ≡ seated head.now base }
{
    match base {
        Some(base) => {
            if base.kept().len() != head.viewers as usize {
                return Err(1);
            }
            Ok(Some(base))
        }
        None => Err(1),
    }
}

/// Returns the base of the frames after a head, if there is one, or the number of the frame that is
/// damaged.
pub(crate) fn base_among(head: &Head, frames: &[Vec<u8>]) -> Result<Option<Base>, u64>
    ensures { result ≡ base_among head.now (payloads frames.now) }
{
    let [first, ..] = frames else {
        return Ok(None);
    };
    if !is_base(first) {
        return Ok(None);
    }
    seated(head, base_of(first))
}

/// Returns the frames of entries, of those after a head.
pub(crate) fn behind_base(frames: &[Vec<u8>]) -> &[Vec<u8>]
    ensures { payloads result.now ≡ behind_base (payloads frames.now) }
{
    let [first, rest @ ..] = frames else {
        return frames;
    };
    if is_base(first) {
        return rest;
    }
    frames
}

/// Returns the number of the first of them, counted from the head.
pub(crate) fn first_number(frames: &[Vec<u8>]) -> u64
    ensures value { result ≡ first_number (payloads frames.now) }
    ensures low { result ≤ 2 }
{
    let [first, ..] = frames else {
        return 1;
    };
    if is_base(first) {
        return 2;
    }
    1
}
