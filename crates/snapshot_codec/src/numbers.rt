//! Numbers at the end and at the front of bytes, highest byte first.

ghost use Rattle.std.specs.Prelude.{◌≡◌, ◌++◌, OnErr, OnOk};
ghost use Rattle.std.specs.Int.{w16, w32, w64, cast_unsigned};
ghost use Rattle.std.specs.Option.{option_map};
ghost use Rattle.byte_codec.specs.Codec.{number_text};
ghost use Rattle.snapshot_codec.specs.Values.{within};

use byte_codec::i64_of;
use std::alloc::AllocError;

/// Returns the bytes of a signed number. The number is a reference for the prover: by value, the
/// contract sees a 64-bit number that is read back, and `search` fails.
#[tactic(auto, unfolding(byte_codec::specs::Codec::number_text))]
pub(crate) fn signed_bytes(number: &i64) -> [u8; 8]
    ensures { result ≡ number_text w64 (cast_unsigned w64 number.now) }
{
    number.to_be_bytes()
}

#[tactic(auto, unfolding(byte_codec::specs::Codec::number_text))]
pub(crate) fn push_u32(number: u32, out: &mut Vec<u8>) -> Result<(), AllocError>
    ensures ok { OnOk result (out.new.items ≡ out.old.items ++ number_text w32 number) }
    ensures err { OnErr result (out.new.items ≡ out.old.items) }
{
    out.extend_from_slice(&number.to_be_bytes())
}

#[tactic(auto, unfolding(byte_codec::specs::Codec::number_text))]
pub(crate) fn push_u64(number: u64, out: &mut Vec<u8>) -> Result<(), AllocError>
    ensures ok { OnOk result (out.new.items ≡ out.old.items ++ number_text w64 number) }
    ensures err { OnErr result (out.new.items ≡ out.old.items) }
{
    out.extend_from_slice(&number.to_be_bytes())
}

#[tactic(auto, unfolding(byte_codec::specs::Codec::number_text))]
pub(crate) fn push_i32(signed: i32, out: &mut Vec<u8>) -> Result<(), AllocError>
    ensures ok { OnOk result (out.new.items
        ≡ out.old.items ++ number_text w32 (cast_unsigned w32 signed)) }
    ensures err { OnErr result (out.new.items ≡ out.old.items) }
{
    out.extend_from_slice(&signed.to_be_bytes())
}

#[tactic(auto, unfolding(byte_codec::specs::Codec::number_text))]
pub(crate) fn push_i64(signed: i64, out: &mut Vec<u8>) -> Result<(), AllocError>
    ensures ok { OnOk result (out.new.items
        ≡ out.old.items ++ number_text w64 (cast_unsigned w64 signed)) }
    ensures err { OnErr result (out.new.items ≡ out.old.items) }
{
    out.extend_from_slice(&signed.to_be_bytes())
}

/// Appends the count of a list in 32 bits. A list of 2^32 items or more is not read back.
#[tactic(auto, unfolding(byte_codec::specs::Codec::number_text))]
pub(crate) fn push_count(count: usize, out: &mut Vec<u8>) -> Result<(), AllocError>
    ensures ok { OnOk result (out.new.items ≡ out.old.items ++ number_text w32 count) }
    ensures err { OnErr result (out.new.items ≡ out.old.items) }
{
    let low = (count % (1 << 32)) as u32;
    out.extend_from_slice(&low.to_be_bytes())
}

/// Appends the lowest 16 bits of a number.
#[tactic(auto, unfolding(byte_codec::specs::Codec::number_text))]
pub(crate) fn push_low_16(number: u64, out: &mut Vec<u8>) -> Result<(), AllocError>
    ensures ok { OnOk result (out.new.items ≡ out.old.items ++ number_text w16 number) }
    ensures err { OnErr result (out.new.items ≡ out.old.items) }
{
    let low = (number % (1 << 16)) as u16;
    out.extend_from_slice(&low.to_be_bytes())
}

/// Returns the bytes of the lowest 32 bits of a number.
#[tactic(auto, unfolding(byte_codec::specs::Codec::number_text))]
pub(crate) fn low_32_bytes(number: u64) -> [u8; 4]
    ensures { result ≡ number_text w32 number }
{
    let low = (number % (1 << 32)) as u32;
    low.to_be_bytes()
}

#[tactic(auto, unfolding(byte_codec::specs::Codec::number_text))]
pub(crate) fn bytes_16(number: u16) -> [u8; 2]
    ensures { result ≡ number_text w16 number }
{
    number.to_be_bytes()
}

#[tactic(auto, unfolding(byte_codec::specs::Codec::number_text))]
pub(crate) fn bytes_32(number: u32) -> [u8; 4]
    ensures { result ≡ number_text w32 number }
{
    number.to_be_bytes()
}

#[tactic(auto, unfolding(byte_codec::specs::Codec::number_text))]
pub(crate) fn bytes_64(number: u64) -> [u8; 8]
    ensures { result ≡ number_text w64 number }
{
    number.to_be_bytes()
}

/// Reads a number whose size is up to `limit`.
pub(crate) fn within_of(limit: u64, bytes: &[u8]) -> Option<(i64, &[u8])>
    ensures { option_map (λ x. (x.0, x.1.now)) result ≡ (within limit).read bytes.now }
{
    let Some((number, rest)) = i64_of(bytes) else {
        return None;
    };
    if number.unsigned_abs() > limit {
        return None;
    }
    Some((number, rest))
}
