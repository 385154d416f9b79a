//! The head of a snapshot, read without the rest.

ghost use Rattle.std.specs.Prelude.{◌≡◌, ◌<◌, ◌^◌, ℕ, List, Some, length};
ghost use Rattle.std.specs.Int.{w32};
ghost use Rattle.std.specs.Option.{option_map};
ghost use Rattle.byte_codec.specs.Codec.{pair, number};
ghost use Rattle.snapshot_codec.specs.Inputs.{input_codec};
ghost use Rattle.scene_core.specs.Scene.{SceneView};
ghost use Rattle.cascade_core.specs.Course.{Scripted};
ghost use Rattle.snapshot_core.specs.Opening.{newest, version_number};
ghost use Rattle.snapshot_core.specs.Loading.{HasSnapshot};
ghost use Rattle.snapshot_core.specs.Shot.{shot};
ghost use Rattle.snapshot_core.specs.ShotHead.{begins_as_shot, shot_head};

use crate::version::version_in;
use byte_codec::u32_of;
use snapshot_codec::{Numbers, input_of};

/// The first bytes of each snapshot.
const MAGIC: &[u8; 4] = b"X3DW";

/// The least length of a snapshot.
const LEAST: usize = 85;

/// The content of a snapshot's head.
#[derive(Clone, Copy, PartialEq, Eq)]
pub struct ShotHead {
    pub version: u8,
    /// The number of the viewer's start.
    pub boot: u32,
    /// The number of inputs applied to the snapshot's world.
    pub applied: u64,
}

fn begins_as_shot(bytes: &[u8]) -> bool
    ensures { result ≡ begins_as_shot bytes.now }
{
    bytes.len() >= LEAST
        && (&bytes[..4] == MAGIC.as_slice() && bytes[4] == version_in(bytes).number())
}

/// Reads a boot, and the number of inputs applied.
fn words_of(numbers: Numbers, bytes: &[u8]) -> Option<((u32, u64), &[u8])>
    ensures { option_map (λ r. (r.0, r.1.now)) result
        ≡ (pair (number w32) (input_codec numbers)).read bytes.now }
{
    let Some((boot, rest)) = u32_of(bytes) else {
        return None;
    };
    let Some((applied, rest)) = input_of(numbers, rest) else {
        return None;
    };
    Some(((boot, applied), rest))
}

fn head_in(bytes: &[u8]) -> Option<ShotHead>
    ensures { result ≡ shot_head bytes.now }
{
    if !begins_as_shot(bytes) {
        return None;
    }
    let version = version_in(bytes);
    let Some(((boot, applied), _rest)) = words_of(version.numbers(), &bytes[37..]) else {
        return None;
    };
    Some(ShotHead {
        version: version.number(),
        boot,
        applied,
    })
}

/// Returns the content of the head. Returns `None` if the bytes don't begin like a snapshot: at
/// least 85 bytes, `X3DW` and a version that can be read. The mark, the world and the digest are
/// not checked. Takes no memory.
pub fn shot_head(bytes: &[u8]) -> Option<ShotHead>
    ensures value { result ≡ shot_head bytes.now }
    // Each snapshot's head has its boot and the number of inputs applied to its world.
    ensures shots { (mark : List ℕ) (boot : ℕ) (scene : SceneView) (w : Scripted)
        → length mark ≡ 32 → boot < 2 ^ 32 → HasSnapshot scene w
        → bytes.now ≡ shot mark boot scene w
        → result ≡ Some (record {
          version = version_number newest;
          boot = boot;
          applied = w.world.applied;
        }) }
{
    head_in(bytes)
}
