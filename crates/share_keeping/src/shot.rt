//! The snapshot that is given.

ghost use Rattle.std.specs.Prelude.{◌≡◌, IfSome, length};
ghost use Rattle.share_wire.specs.Decoding.{decoded};
ghost use Rattle.share_keeping.specs.Keeping.{IsRenewed, ready, shot_after};
ghost use Rattle.share_keeping.specs.Said.{said_in};
ghost use Rattle.share_keeping.specs.Shots as spec;

use crate::joiners::Joiners;
use crate::said::{Said, says};
use cascade_core::Stage;
use script_host::Behaviour;
use share_core::piece_count;
use snapshot_core::save;
use std::marker::Model;

/// The boot of the snapshot: a viewer that joins has a later one.
const BOOT: u32 = 1;

/// A snapshot of the world of a host.
#[derive(Drop)]
pub struct Shot {
    bytes: Vec<u8>,
    /// How many inputs its world has.
    inputs: u64,
    /// How many pieces it has: none if it has more than 2^26 bytes.
    count: u32,
}

impl Model for Shot {
    ghost use Rattle.std.specs.Prelude.{◌≡◌};
    ghost use Rattle.share_keeping.specs.Shots.{ShotView, pieces_in};

    ghost Value = { ShotView };

    ghost view = { λ s. record { bytes = s.bytes.items; inputs = s.inputs } };

    ghost invariant = { λ s. s.count ≡ pieces_in s.bytes.items };
}

fn pieces_in(bytes: &[u8]) -> u32
    ensures { result ≡ spec.pieces_in bytes.now }
{
    match piece_count(bytes) {
        Some(count) => count,
        None => 0,
    }
}

impl Shot {
    ghost use Rattle.std.specs.Prelude.{◌≡◌};
    ghost use Rattle.share_keeping.specs.Shots as spec;

    fn of(bytes: Vec<u8>, inputs: u64) -> Shot
        ensures { result ≡ record { bytes = bytes.items; inputs = inputs } }
    {
        let count = pieces_in(&bytes);
        Shot {
            bytes,
            inputs,
            count,
        }
    }

    /// Returns its bytes.
    pub fn bytes(&self) -> &[u8]
        ensures { result.now ≡ self.now.bytes }
    {
        &self.bytes
    }

    /// Returns how many inputs its world has.
    pub fn inputs(&self) -> u64
        ensures { result ≡ self.now.inputs }
    {
        self.inputs
    }

    /// Returns how many pieces it has.
    pub(crate) fn count(&self) -> u32
        ensures { result ≡ spec.pieces_in self.now.bytes }
    {
        self.count
    }
}

/// Takes a snapshot of a stage, with the mark of its scene. Returns `None` if the stage is spoiled,
/// or memory is refused.
pub(crate) fn taken<B: Behaviour>(stage: &Stage<B>, mark: &[u8; 32]) -> Option<Shot>
    ensures { IfSome result (spec.IsTaken mark.now stage.now) }
{
    let mut bytes = Vec::new(stage.allocator());
    if save(stage, mark, BOOT, &mut bytes).is_err() {
        drop(bytes);
        return None;
    }
    Some(Shot::of(bytes, stage.applied()))
}

/// Reports whether a snapshot is too old for a viewer whose host has inputs from `floor` on.
pub(crate) fn is_too_old(shot: &Option<Shot>, floor: u64) -> bool
    ensures { result ≡ spec.is_too_old shot.now floor }
{
    match shot {
        Some(shot) => floor > shot.inputs().saturating_add(1),
        None => false,
    }
}

/// Takes a snapshot if there is none, of which each viewer that joins gets the first pieces next.
pub(crate) fn renew<B: Behaviour>(
    stage: &Stage<B>,
    mark: &[u8; 32],
    shot: &mut Option<Shot>,
    joiners: &mut Joiners,
)
    ensures shot { IsRenewed mark.now stage.now shot.old shot.new }
    ensures joiners { joiners.new ≡ ready shot.old joiners.old }
{
    if shot.is_none() {
        joiners.restart();
        *shot = taken(stage, mark);
    }
}

/// Notes that a floor is sent: it ends a snapshot that is too old for a viewer that joins.
fn note_floor(to: u16, floor: u64, joiners: &Joiners, shot: &mut Option<Shot>)
    ensures { shot.new ≡ shot_after (Said.HasFrom floor) to joiners.now shot.old }
{
    if joiners.is_joined(to) && is_too_old(shot, floor) {
        *shot = None;
    }
}

/// Notes that a datagram is sent by the host of the scene with this mark.
pub(crate) fn note_sent(
    mark: &[u8; 32],
    to: u16,
    bytes: &[u8],
    joiners: &Joiners,
    shot: &mut Option<Shot>,
)
    ensures { shot.new ≡ shot_after (said_in mark.now (decoded bytes.now)) to joiners.now shot.old }
{
    match says(mark, bytes) {
        Said::HasFrom(floor) => note_floor(to, floor, joiners, shot),
        Said::Joins(_) => {}
        Said::GoesOn(_) => {}
        Said::Nothing => {}
    }
}
