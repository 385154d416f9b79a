//! The entry at the front of bytes.

ghost use Rattle.std.specs.Prelude.{◌≡◌, ◌++◌, IfSome, IsTrue};
ghost use Rattle.std.specs.Option.{option_map};
ghost use Rattle.x3d_values.specs.Ranges.{is_input_time};
ghost use Rattle.share_entries.specs.Entry.{time_codec, offer_fields, offer_codec, entry_codec, source_at, stamp_codec};

use crate::entry::{Entry, Source};
use crate::fields::OfferFields;
use byte_codec::{byte_of, flag_of, i64_of, u32_of};
use share_wire::{Offer, vector_of};
use x3d_values::is_input_time;

#[tactic(auto, unfolding(crate::specs::Entry::time_codec))]
pub(crate) fn time_of(bytes: &[u8]) -> Option<(i64, &[u8])>
    ensures value { option_map (λ r. (r.0, r.1.now)) result ≡ time_codec.read bytes.now }
    ensures fits { IfSome result (λ r. IsTrue (is_input_time r.0)) }
{
    let Some((time, rest)) = i64_of(bytes) else {
        return None;
    };
    if is_input_time(time) {
        Some((time, rest))
    } else {
        None
    }
}

/// Reads a time and a kind.
#[tactic(auto, unfolding(crate::specs::Entry::stamp_codec))]
fn stamp_of(bytes: &[u8]) -> Option<((i64, u8), &[u8])>
    ensures value { option_map (λ r. (r.0, r.1.now)) result ≡ stamp_codec.read bytes.now }
    ensures fits { IfSome result (λ r. IsTrue (is_input_time r.0.0)) }
{
    let Some((time, rest)) = time_of(bytes) else {
        return None;
    };
    let Some((kind, rest)) = byte_of(rest) else {
        return None;
    };
    Some(((time, kind), rest))
}

#[tactic(auto, unfolding(crate::specs::Entry::offer_fields))]
fn fields_in(bytes: &[u8]) -> Option<(OfferFields, &[u8])>
    ensures { option_map (λ r. (r.0, r.1.now)) result ≡ offer_fields.read bytes.now }
{
    let Some((who, rest)) = byte_of(bytes) else {
        return None;
    };
    let Some((down, rest)) = flag_of(rest) else {
        return None;
    };
    let Some((origin, rest)) = vector_of(rest) else {
        return None;
    };
    let Some((dir, rest)) = vector_of(rest) else {
        return None;
    };
    let Some((boot, rest)) = u32_of(rest) else {
        return None;
    };
    let Some((number, rest)) = u32_of(rest) else {
        return None;
    };
    let fields = OfferFields {
        who,
        down,
        origin,
        dir,
        boot,
        number,
    };
    Some((fields, rest))
}

#[tactic(auto, unfolding(crate::specs::Entry::offer_codec))]
fn offer_of(bytes: &[u8]) -> Option<(Offer, &[u8])>
    ensures { option_map (λ r. (r.0, r.1.now)) result ≡ offer_codec.read bytes.now }
{
    let Some((fields, rest)) = fields_in(bytes) else {
        return None;
    };
    if !fields.fit() {
        return None;
    }
    Some((fields.offer(), rest))
}

fn source_of(kind: u8, bytes: &[u8]) -> Option<(Source, &[u8])>
    ensures { option_map (λ r. (r.0, r.1.now)) result ≡ source_at kind bytes.now }
{
    match kind {
        0 => Some((Source::Clock, bytes)),
        1 => {
            let Some((offer, rest)) = offer_of(bytes) else {
                return None;
            };
            Some((Source::Offer(offer), rest))
        }
        _ => None,
    }
}

#[tactic(auto, unfolding(crate::specs::Entry::entry_codec))]
fn first_entry(bytes: &[u8]) -> Option<(Entry, &[u8])>
    ensures { option_map (λ r. (r.0, r.1.now)) result ≡ entry_codec.read bytes.now }
{
    let Some(((time, kind), rest)) = stamp_of(bytes) else {
        return None;
    };
    let Some((source, rest)) = source_of(kind, rest) else {
        return None;
    };
    Some((Entry::new(time, source), rest))
}

/// Reads the entry at the front of bytes, and returns it with the bytes after it. Returns `None`
/// if the bytes are too few, or a field is out of its range.
pub fn entry_of(bytes: &[u8]) -> Option<(Entry, &[u8])>
    // The bytes that were read are those of the entry.
    ensures found { IfSome result (λ r. bytes.now ≡ entry_codec.write r.0 ++ r.1.now) }
    // The exact result.
    ensures exact { option_map (λ r. (r.0, r.1.now)) result ≡ entry_codec.read bytes.now }
{
    first_entry(bytes)
}
