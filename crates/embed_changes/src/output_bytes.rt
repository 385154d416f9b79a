//! Outputs as bytes: the trace writes the outputs of its lines as bytes, which are read again.

ghost use Rattle.std.specs.Prelude.{◌≡◌, ◌++◌, OnOk};
ghost use Rattle.std.specs.Option.{option_map};
ghost use Rattle.embed_changes.specs.OutputBytes.{output_at, output_bytes};
ghost use Rattle.x3d_lists.specs.Extends.{Extends};

use byte_codec::{byte_of, u16_of, u32_of};
use scene_core::End;
use std::alloc::AllocError;

/// The byte before the numbers of an output.
const OUTPUT: u8 = 1;

/// Appends an output. On an error, part of it may be appended.
#[tactic(auto, unfolding(byte_codec::specs::Codec::number_text))]
fn push_places(node: u32, field: u16, out: &mut Vec<u8>) -> Result<(), AllocError>
    ensures ok { OnOk result (out.new.items
        ≡ out.old.items ++ output_bytes (record { node = node; field = field })) }
    ensures kept { Extends out.old.items out.new.items }
{
    out.push(OUTPUT)?;
    out.extend_from_slice(&node.to_be_bytes())?;
    out.extend_from_slice(&field.to_be_bytes())
}

/// Appends an output. On an error, part of it may be appended.
pub(crate) fn push_output(source: End, out: &mut Vec<u8>) -> Result<(), AllocError>
    ensures ok { OnOk result (out.new.items ≡ out.old.items ++ output_bytes source) }
    ensures kept { Extends out.old.items out.new.items }
{
    push_places(source.node, source.field, out)
}

/// Reads the output at the front of bytes, and returns the bytes after it. Returns `None` if no
/// output is there.
pub(crate) fn output_at(bytes: &[u8]) -> Option<(End, &[u8])>
    ensures { option_map (λ x. (x.0, x.1.now)) result ≡ output_at bytes.now }
{
    let Some((tag, rest)) = byte_of(bytes) else {
        return None;
    };
    if tag != OUTPUT {
        return None;
    }
    let Some((node, rest)) = u32_of(rest) else {
        return None;
    };
    let Some((field, rest)) = u16_of(rest) else {
        return None;
    };
    Some((End { node, field }, rest))
}
