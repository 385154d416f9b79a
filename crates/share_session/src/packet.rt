//! The bytes of a datagram, appended part by part.

ghost use Rattle.std.specs.Prelude.{◌≡◌, ◌+◌, ◌≤◌, ◌++◌, length};
ghost use Rattle.std.specs.Int.{w32, w64, cast_unsigned};
ghost use Rattle.byte_codec.specs.Codec.{number_text};
ghost use Rattle.share_wire.specs.Fields.{vector};

use arrayvec::ArrayVec;
use x3d_values::Vec3;

/// The most bytes of a packet: those of the longest datagram, a piece, with room for a seal.
pub const MAX_PACKET: usize = 288;

/// A datagram of version 2.
pub type Packet2 = ArrayVec<u8, MAX_PACKET>;

pub(crate) fn push_bytes(out: &mut Packet2, bytes: &[u8])
    requires { length out.old.items + length bytes.now ≤ 288 }
    ensures { out.new.items ≡ out.old.items ++ bytes.now }
{
    let _fits = out.try_extend_from_slice(bytes);
}

/// Appends a number, highest byte first.
#[tactic(auto, unfolding(byte_codec::specs::Codec::number_text))]
pub(crate) fn push_u32(out: &mut Packet2, number: u32)
    requires { length out.old.items + 4 ≤ 288 }
    ensures text { out.new.items ≡ out.old.items ++ number_text w32 number }
    ensures len { length out.new.items ≡ length out.old.items + 4 }
{
    push_bytes(out, &number.to_be_bytes());
}

/// Appends a number, highest byte first.
#[tactic(auto, unfolding(byte_codec::specs::Codec::number_text))]
pub(crate) fn push_u64(out: &mut Packet2, number: u64)
    requires { length out.old.items + 8 ≤ 288 }
    ensures text { out.new.items ≡ out.old.items ++ number_text w64 number }
    ensures len { length out.new.items ≡ length out.old.items + 8 }
{
    push_bytes(out, &number.to_be_bytes());
}

/// Appends a number in two's complement, highest byte first.
#[tactic(auto, unfolding(byte_codec::specs::Codec::number_text))]
pub(crate) fn push_i64(out: &mut Packet2, signed: i64)
    requires { length out.old.items + 8 ≤ 288 }
    ensures text { out.new.items ≡ out.old.items ++ number_text w64 (cast_unsigned w64 signed) }
    ensures len { length out.new.items ≡ length out.old.items + 8 }
{
    push_bytes(out, &signed.to_be_bytes());
}

pub(crate) fn push_vector(out: &mut Packet2, v: Vec3)
    requires { length out.old.items + 24 ≤ 288 }
    ensures text { out.new.items ≡ out.old.items ++ vector.write v }
    ensures len { length out.new.items ≡ length out.old.items + 24 }
{
    push_i64(out, v.x);
    push_i64(out, v.y);
    push_i64(out, v.z);
}
