//! The bytes of an entry.

ghost use Rattle.std.specs.Prelude.{◌≡◌, ◌+◌, ◌≤◌, ◌++◌, List, ℕ, length, Some, IsTrue};
ghost use Rattle.std.specs.Int.{w32, w64, cast_unsigned};
ghost use Rattle.byte_codec.specs.Codec.{number_text};
ghost use Rattle.share_wire.specs.Fields.{vector};
ghost use Rattle.share_entries.specs.Entry.{offer_fields, offer_codec, entry_codec, stamp_codec, kind_of, source_text, source_fits};

use crate::entry::{Entry, Source};
use crate::fields::OfferFields;
use arrayvec::ArrayVec;
use x3d_values::Vec3;

/// The most bytes of an entry: those of a pointer.
pub const MAX_ENTRY: usize = 67;

/// The bytes of an entry.
pub type EntryBytes = ArrayVec<u8, MAX_ENTRY>;

fn push_bytes(out: &mut EntryBytes, bytes: &[u8])
    requires { length out.old.items + length bytes.now ≤ 67 }
    ensures { out.new.items ≡ out.old.items ++ bytes.now }
{
    let _fits = out.try_extend_from_slice(bytes);
}

/// Appends a number, highest byte first.
#[tactic(auto, unfolding(byte_codec::specs::Codec::number_text))]
fn push_u32(out: &mut EntryBytes, number: u32)
    requires { length out.old.items + 4 ≤ 67 }
    ensures text { out.new.items ≡ out.old.items ++ number_text w32 number }
    ensures len { length out.new.items ≡ length out.old.items + 4 }
{
    push_bytes(out, &number.to_be_bytes());
}

/// Appends a number in two's complement, highest byte first.
#[tactic(auto, unfolding(byte_codec::specs::Codec::number_text))]
fn push_i64(out: &mut EntryBytes, signed: i64)
    requires { length out.old.items + 8 ≤ 67 }
    ensures text { out.new.items ≡ out.old.items ++ number_text w64 (cast_unsigned w64 signed) }
    ensures len { length out.new.items ≡ length out.old.items + 8 }
{
    push_bytes(out, &signed.to_be_bytes());
}

fn push_vector(out: &mut EntryBytes, v: Vec3)
    requires { length out.old.items + 24 ≤ 67 }
    ensures text { out.new.items ≡ out.old.items ++ vector.write v }
    ensures len { length out.new.items ≡ length out.old.items + 24 }
{
    push_i64(out, v.x);
    push_i64(out, v.y);
    push_i64(out, v.z);
}

#[tactic(auto, unfolding(crate::specs::Entry::offer_fields))]
fn push_fields(out: &mut EntryBytes, fields: OfferFields)
    requires { length out.old.items + 58 ≤ 67 }
    ensures text { out.new.items ≡ out.old.items ++ offer_fields.write fields }
    ensures len { length out.new.items ≡ length out.old.items + 58 }
{
    push_bytes(out, &[fields.who, fields.down as u8]);
    push_vector(out, fields.origin);
    push_vector(out, fields.dir);
    push_u32(out, fields.boot);
    push_u32(out, fields.number);
}

fn kind_of(source: Source) -> u8
    ensures { result ≡ kind_of source }
{
    match source {
        Source::Clock => 0,
        Source::Offer(_) => 1,
    }
}

#[tactic(auto, unfolding(crate::specs::Entry::offer_codec))]
fn push_source(out: &mut EntryBytes, source: Source)
    requires { length out.old.items ≤ 9 }
    ensures text { out.new.items ≡ out.old.items ++ source_text source }
    ensures len { length out.new.items ≤ 67 }
    ensures fits { IsTrue (source_fits source) }
{
    match source {
        Source::Clock => {}
        Source::Offer(offer) => push_fields(out, OfferFields::of(offer)),
    }
}

#[tactic(auto, unfolding(crate::specs::Entry::stamp_codec, crate::specs::Entry::time_codec))]
fn push_stamp(out: &mut EntryBytes, time: i64, kind: u8)
    requires { length out.old.items ≤ 0 }
    ensures text { out.new.items ≡ out.old.items ++ stamp_codec.write (time, kind) }
    ensures len { length out.new.items ≤ 9 }
{
    push_i64(out, time);
    push_bytes(out, &[kind]);
}

/// Returns the bytes of an entry.
#[tactic(auto, unfolding(crate::specs::Entry::entry_codec))]
pub fn bytes_of(entry: &Entry) -> EntryBytes
    ensures text { result.items ≡ entry_codec.write entry.now }
    ensures most { length result.items ≤ 67 }
    ensures fits { IsTrue (entry_codec.fits entry.now) }
    // Whatever follows them, the entry is read from them.
    ensures again { (rest : List ℕ)
        → entry_codec.read (result.items ++ rest) ≡ Some (entry.now, rest) }
{
    let mut out = ArrayVec::new();
    push_stamp(&mut out, entry.time(), kind_of(entry.source()));
    push_source(&mut out, entry.source());
    out
}
