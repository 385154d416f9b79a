//! The parts after a node's fields, and the states of scripts, as bytes.

ghost use Rattle.std.specs.Prelude.{◌≡◌, ◌++◌, ◌<◌, ◌^◌, IfSome, OnErr, OnOk};
ghost use Rattle.std.specs.Option.{option_map};
ghost use Rattle.snapshot_codec.specs.Reads.{ReadsPart};
ghost use Rattle.snapshot_codec.specs.Parts.{cycle_in, place_number, cycle_codec, position_codec, state_codec, states_codec};

use crate::coded::{Coded, list_of, many_of, push_list};
use crate::fault::PartFault;
use crate::numbers::push_u32;
use byte_codec::{flag_of, i64_of, u32_of};
use std::alloc::{AllocError, Global};
use x3d_values::{Items, Position, push_pieces};

/// Returns the cycle that a TimeSensor runs, or `Some(None)` if it is inactive. Returns `None` if
/// the number is negative, or if it isn't 0 for an inactive sensor.
fn cycle_in(active: bool, number: i64) -> Option<Option<u64>>
    ensures { result ≡ cycle_in (active, number) }
{
    if number < 0 {
        return None;
    }
    if active {
        return Some(Some(number.unsigned_abs()));
    }
    if number.unsigned_abs() == 0 {
        Some(None)
    } else {
        None
    }
}

/// Reads the cycle that a TimeSensor runs: a byte, 1 if it is active, and an i64 from 0, the number
/// of its cycle, which is 0 if it is inactive. Returns the cycle (`None` if inactive) with the rest
/// of the bytes. Returns `None` if the bytes don't encode one.
#[tactic(auto, using(crate::proofs::Signed::passed), unfolding(crate::specs::Parts::cycle_codec))]
pub fn cycle_of(bytes: &[u8]) -> Option<(Option<u64>, &[u8])>
    ensures { option_map (λ x. (x.0, x.1.now)) result ≡ cycle_codec.read bytes.now }
{
    let Some((active, rest)) = flag_of(bytes) else {
        return None;
    };
    let Some((number, rest)) = i64_of(rest) else {
        return None;
    };
    let cycle = cycle_in(active, number)?;
    Some((cycle, rest))
}

/// Appends the cycle that a TimeSensor runs, if it is active. On `AllocError` the buffer is
/// unchanged.
#[tactic(auto, unfolding(crate::specs::Parts::cycle_codec, byte_codec::specs::Codec::number_text))]
pub fn push_cycle(cycle: Option<u64>, out: &mut Vec<u8>) -> Result<(), AllocError>
    ensures ok { OnOk result (out.new.items ≡ out.old.items ++ cycle_codec.write cycle) }
    ensures err { OnErr result (out.new.items ≡ out.old.items) }
{
    match cycle {
        Some(number) => push_pieces(&[&[1], &number.to_be_bytes()], out),
        None => push_pieces(&[&[0], &[0; 8]], out),
    }
}

/// Reads a sequencer's position: a u32, 2^32 - 1 if there is none. Returns it with the rest of the
/// bytes, or `None` if the bytes are too few.
#[tactic(auto, unfolding(crate::specs::Parts::position_codec))]
pub fn position_of(bytes: &[u8]) -> Option<(Position, &[u8])>
    ensures { option_map (λ x. (x.0, x.1.now)) result ≡ position_codec.read bytes.now }
{
    let Some((number, rest)) = u32_of(bytes) else {
        return None;
    };
    if number == u32::MAX {
        Some((Position { at: None }, rest))
    } else {
        Some((Position { at: Some(number) }, rest))
    }
}

fn place_number(at: Option<u32>) -> u32
    ensures { result ≡ place_number at }
{
    match at {
        Some(number) => number,
        None => u32::MAX,
    }
}

/// Appends a sequencer's position. On `AllocError` the buffer is unchanged.
#[tactic(auto, unfolding(crate::specs::Parts::position_codec))]
pub fn push_position(position: Position, out: &mut Vec<u8>) -> Result<(), AllocError>
    ensures ok { OnOk result (out.new.items ≡ out.old.items ++ position_codec.write position) }
    ensures err { OnErr result (out.new.items ≡ out.old.items) }
{
    push_u32(place_number(position.at), out)
}

impl Coded for Items<i64> {
    ghost codec = { state_codec };

    #[tactic(auto, unfolding(crate::specs::Parts::state_codec))]
    fn read(alloc: Global, bytes: &[u8]) -> Result<(Items<i64>, &[u8]), PartFault> {
        list_of(alloc, bytes)
    }

    #[tactic(auto, unfolding(crate::specs::Parts::state_codec))]
    fn push_to(&self, out: &mut Vec<u8>) -> Result<(), AllocError> {
        push_list(self.as_slice(), out)
    }
}

/// Reads the states of `scripts` scripts: for each a u32 count and that many i64s. Returns them
/// with the rest of the bytes. Returns `NotCanonical` if the bytes are too few, and `Memory` if
/// memory runs out.
pub fn states_of(
    alloc: Global,
    scripts: u32,
    bytes: &[u8],
) -> Result<(Items<Items<i64>>, &[u8]), PartFault>
    ensures { ReadsPart (λ x. (x.0, x.1.now)) result ((states_codec scripts).read bytes.now) }
{
    many_of(alloc, scripts, bytes)
}

/// Appends the state of one script. On `AllocError` the buffer is unchanged.
#[tactic(auto, unfolding(crate::specs::Parts::state_codec))]
pub fn push_state(numbers: &[i64], out: &mut Vec<u8>) -> Result<(), AllocError>
    ensures ok { OnOk result (out.new.items ≡ out.old.items ++ state_codec.write numbers.now) }
    ensures err { OnErr result (out.new.items ≡ out.old.items) }
{
    let len = out.len();
    let pushed = push_list(numbers, out);
    if pushed.is_err() {
        out.truncate(len);
    }
    pushed
}
