//! The numbers of inputs, and how many were applied, as bytes.

ghost use Rattle.std.specs.Prelude.{◌≡◌};
ghost use Rattle.std.specs.Option.{option_map};
ghost use Rattle.snapshot_codec.specs.Inputs.{most_inputs, input_codec, applied_codec};

use byte_codec::{u32_of, u64_of};
use x3d_values::{MAX_INPUTS, MAX_SHORT_NUMBER};

/// How many bits the numbers of inputs have.
#[derive(Clone, Copy, PartialEq, Eq)]
pub enum Numbers {
    /// 32 bits, for worlds with up to 2^20 inputs.
    Short,
    /// 64 bits, for worlds with up to 2^48 - 1 inputs.
    Long,
}

fn most_inputs(numbers: Numbers) -> u64
    ensures { result ≡ most_inputs numbers }
{
    match numbers {
        Numbers::Short => MAX_SHORT_NUMBER,
        Numbers::Long => MAX_INPUTS,
    }
}

/// Reads the number of an input, in 32 or 64 bits. Returns it with the rest of the bytes, or `None`
/// if the bytes are too few.
#[tactic(auto, unfolding(crate::specs::Inputs::input_codec))]
pub fn input_of(numbers: Numbers, bytes: &[u8]) -> Option<(u64, &[u8])>
    ensures { option_map (λ x. (x.0, x.1.now)) result ≡ (input_codec numbers).read bytes.now }
{
    match numbers {
        Numbers::Short => {
            let Some((number, rest)) = u32_of(bytes) else {
                return None;
            };
            Some((u64::from(number), rest))
        }
        Numbers::Long => u64_of(bytes),
    }
}

/// Reads how many inputs were applied: up to 2^20 in 32 bits, or up to 2^48 - 1 in 64.
pub(crate) fn applied_of(numbers: Numbers, bytes: &[u8]) -> Option<(u64, &[u8])>
    ensures { option_map (λ x. (x.0, x.1.now)) result ≡ (applied_codec numbers).read bytes.now }
{
    let Some((number, rest)) = input_of(numbers, bytes) else {
        return None;
    };
    if number <= most_inputs(numbers) {
        Some((number, rest))
    } else {
        None
    }
}
