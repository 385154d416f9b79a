//! The viewers whose buttons are down, as bytes.

ghost use Rattle.std.specs.Prelude.{◌≡◌, ◌++◌, OnErr, OnOk};
ghost use Rattle.std.specs.Option.{option_map};
ghost use Rattle.snapshot_core.specs.WorldCodec.{buttons_codec};

use crate::version::Version;
use sensor_core::{VIEWERS, number_of, over_of};
use snapshot_codec::{push_viewer_set, viewer_set_of};
use std::alloc::AllocError;

/// Reads which viewers' buttons are down. Returns them with the rest of the bytes.
#[tactic(auto, unfolding(crate::specs::WorldCodec::buttons_codec))]
pub(crate) fn buttons_of(version: Version, bytes: &[u8]) -> Option<([bool; VIEWERS], &[u8])>
    ensures { option_map (λ x. (x.0, x.1.now)) result ≡ (buttons_codec version).read bytes.now }
{
    let Some((number, rest)) = viewer_set_of(version.viewers(), bytes) else {
        return None;
    };
    Some((over_of(number), rest))
}

/// Appends which viewers' buttons are down. On `AllocError` the buffer is unchanged.
#[tactic(auto, unfolding(crate::specs::WorldCodec::buttons_codec))]
pub(crate) fn push_buttons(
    version: Version,
    buttons: &[bool; VIEWERS],
    out: &mut Vec<u8>,
) -> Result<(), AllocError>
    ensures ok { OnOk result
        (out.new.items ≡ out.old.items ++ (buttons_codec version).write buttons.now) }
    ensures err { OnErr result (out.new.items ≡ out.old.items) }
{
    push_viewer_set(version.viewers(), number_of(buttons), out)
}
