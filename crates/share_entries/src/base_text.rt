//! The bytes of a base.

ghost use Rattle.std.specs.Prelude.{◌≡◌, ◌+◌, ◌*◌, ◌<◌, ◌^◌, ◌++◌, IfOk, IsTrue, OnOk, Some, length};
ghost use Rattle.std.specs.Int.{w64};
ghost use Rattle.std.specs.List.{flat_map};
ghost use Rattle.byte_codec.specs.Codec.{all_fit, number};
ghost use Rattle.share_entries.specs.Entry.{time_codec};
ghost use Rattle.share_entries.specs.Base.{base_in, base_text, seat_codec};

use crate::base::Base;
use crate::chain::Chain;
use crate::head::sum_of;
use share_rules::SeatCount;
use std::alloc::{AllocError, Global};
use x3d_values::push_pieces;

#[tactic(auto, unfolding(crate::specs::Base::seat_codec, byte_codec::specs::Codec::number_text))]
fn push_seat(seat: &SeatCount, out: &mut Vec<u8>) -> Result<(), AllocError>
    ensures text { OnOk result (out.new.items ≡ out.old.items ++ seat_codec.write seat.now) }
    ensures len { OnOk result (length out.new.items ≡ length out.old.items + 8) }
    ensures fits { IsTrue (seat_codec.fits seat.now) }
{
    let SeatCount { boot, count } = *seat;
    push_pieces(&[&boot.to_be_bytes(), &count.to_be_bytes()], out)
}

fn push_seats(kept: &[SeatCount], out: &mut Vec<u8>) -> Result<(), AllocError>
    ensures text { OnOk result
        (out.new.items ≡ out.old.items ++ flat_map seat_codec.write kept.now) }
    ensures len { OnOk result (length out.new.items ≡ length out.old.items + 8 * length kept.now) }
    ensures fit { OnOk result (IsTrue (all_fit seat_codec kept.now)) }
{
    for seat in kept {
        push_seat(seat, out)?;
    }
    Ok(())
}

#[tactic(auto, unfolding(byte_codec::specs::Codec::number_text))]
fn number_bytes(last: u64) -> [u8; 8]
    ensures { result ≡ (number w64).write last }
{
    last.to_be_bytes()
}

#[tactic(auto, unfolding(crate::specs::Entry::time_codec, byte_codec::specs::Codec::number_text))]
fn time_bytes(time: i64) -> [u8; 8]
    ensures { result ≡ time_codec.write time }
{
    time.to_be_bytes()
}

/// Appends what follows the viewers.
fn push_ends(
    last: &[u8; 8],
    time: &[u8; 8],
    chain: &Chain,
    snapshot: &[u8; 32],
    out: &mut Vec<u8>,
) -> Result<(), AllocError>
    ensures text { OnOk result (out.new.items
        ≡ out.old.items ++ (last.now ++ (time.now ++ (chain.now ++ snapshot.now)))) }
    ensures len { OnOk result (length out.new.items ≡ length out.old.items + 64) }
{
    push_pieces(&[last, time, chain, snapshot], out)
}

/// Returns the bytes of a base.
pub fn base_bytes(alloc: Global, base: &Base) -> Result<Vec<u8>, AllocError>
    ensures text { IfOk result (λ v. v.items ≡ base_text base.now) }
    // They fit into a frame of the log.
    ensures short { IfOk result (λ v. (0 < length v.items) × (length v.items < 2 ^ 16)) }
    // The base is read from them again.
    ensures again { IfOk result (λ v. base_in v.items ≡ Some base.now) }
{
    let mut out = Vec::new(alloc);
    let kept = base.kept();
    out.extend_from_slice(&[1, kept.len() as u8])?;
    push_seats(kept, &mut out)?;
    let last = number_bytes(base.number());
    let time = time_bytes(base.time());
    push_ends(&last, &time, &base.chain(), &base.snapshot(), &mut out)?;
    let sum = sum_of(&out);
    out.extend_from_slice(&sum)?;
    Ok(out)
}
