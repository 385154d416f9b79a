//! A viewer's snapshot, and how a viewer begins again in the world of a snapshot, or of one that it
//! gathered in pieces.

ghost use Rattle.std.specs.Prelude.{◌≡◌, if◌then◌else◌, None, Some};
ghost use Rattle.share_law.specs.Network.{join_result};

use crate::gathering::{Pieces, gather};
use crate::viewer::Viewer;
use crate::waiting::Waiting;
use script_host::Behaviour;
use share_law::{GatherFault, Gathered, JoinFault};
use share_wire::decode;
use snapshot_core::{SaveFault, SnapFault, load_into, save};

/// Returns the pieces, unless they were joined; then drops them.
fn unless(joined: bool, pieces: Pieces) -> Option<Pieces>
    ensures { result ≡ if joined then None else Some pieces }
{
    if joined {
        drop(pieces);
        None
    } else {
        Some(pieces)
    }
}

/// Returns the answer of a join, given that of its rewind.
fn joined(rewound: Result<u64, SnapFault>) -> Result<u64, JoinFault>
    ensures { result ≡ join_result rewound }
{
    match rewound {
        Ok(applied) => Ok(applied),
        Err(fault) => Err(JoinFault::Snap(fault)),
    }
}

impl<B: Behaviour> Viewer<B> {
    ghost use Rattle.std.specs.Prelude.{◌≡◌, ◌<◌, ◌++◌, ◌^◌, None, Some, Err, OnErr, OnOk, length};
    ghost use Rattle.cascade_core.specs.Course.{Scripted};
    ghost use Rattle.share_wire.specs.Decoding.{decoded};
    ghost use Rattle.share_law.specs.Calls.{IsGatherOf, IsRewind};
    ghost use Rattle.share_law.specs.Pieces.{whole_of};
    ghost use Rattle.share_law.specs.Viewer.{Shot};
    ghost use Rattle.share_core.specs.Rewinds.{IsBegunFrom, IsJoined, IsLawfulJoin, IsRewound};
    ghost use Rattle.share_core.specs.Viewer.{IfRunning, IfSpoiled, machine_of, with_gathering};
    ghost use Rattle.share_core.specs.Viewer.{with_state};
    ghost use Rattle.snapshot_core.specs.Loading.{HasSnapshot};
    ghost use Rattle.snapshot_core.specs.Shot.{shot};

    /// Appends a snapshot of the world, with this boot. Fails with `Spoiled` if memory was refused
    /// before, or `Memory` if memory is refused; `out` is then unchanged.
    pub fn snapshot(&self, out: &mut Vec<u8>) -> Result<(), SaveFault>
        ensures spoiled { IfSpoiled self.now.state.view
            ((result ≡ Err SaveFault.Spoiled) × (out.new.items ≡ out.old.items)) }
        ensures ok { IfRunning self.now.state.view (λ w. OnOk result (out.new.items
            ≡ out.old.items ++ shot self.now.mark self.now.state.boot self.now.scene w)) }
        ensures err { IfRunning self.now.state.view (λ w. OnErr result
            ((result ≡ Err SaveFault.Memory) × (out.new.items ≡ out.old.items))) }
    {
        save(&self.stage, &self.mark, self.offers.boot(), out)
    }

    /// Restarts in the world of a snapshot, with another boot, even if the viewer is spoiled.
    /// Returns the number of inputs that this world has had. No input is kept and no offer waits
    /// then, and offers are numbered from 1 again.
    ///
    /// Fails with `BootNotNew` if `boot` isn't above the viewer's own, and then like `load_into`,
    /// which also fails with `BootNotNew` if `boot` isn't above the snapshot's. A failure changes
    /// nothing, except `Memory`: it spoils the viewer, with the inputs that it had applied.
    pub fn rewind(&mut self, bytes: &[u8], boot: u32) -> Result<u64, SnapFault>
        ensures others { self.new ≡ with_state self.old self.new.state }
        ensures step { IsRewound self.old boot bytes.now result self.new.state }
        // With the snapshot of a world that has one, this is the law's step.
        ensures law { (from : Shot Scripted) → from.boot < 2 ^ 32
            → HasSnapshot self.old.scene from.state
            → bytes.now ≡ shot self.old.mark from.boot self.old.scene from.state
            → IsRewind (machine_of self.old) self.old.state from boot result self.new.state }
    {
        self.begin_again(bytes, boot)
    }

    fn begin_again(&mut self, bytes: &[u8], boot: u32) -> Result<u64, SnapFault>
        ensures others { self.new ≡ with_state self.old self.new.state }
        ensures step { IsRewound self.old boot bytes.now result self.new.state }
        ensures mark { length self.old.mark ≡ 32 }
    {
        if boot <= self.offers.boot() {
            return Err(SnapFault::BootNotNew);
        }
        let saved = load_into(&mut self.stage, &self.mark, boot, bytes)?;
        self.window.clear();
        self.offers = Waiting::new(self.offers.who(), boot);
        Ok(saved.applied)
    }

    /// Gathers a piece of a snapshot, from the bytes of its packet, even if the viewer is spoiled.
    /// The first piece begins the gathering. Pieces belong to the same snapshot if their boot,
    /// their number of inputs and their snapshot size are the same.
    ///
    /// Fails, in this order, with `Wire` if the bytes aren't a datagram, `WrongScene` if it has
    /// another mark, `NotPiece`, or `Memory`, which only the first piece can. A failure changes
    /// nothing.
    pub fn gather(&mut self, bytes: &[u8]) -> Result<Gathered, GatherFault>
        ensures others { self.new ≡ with_gathering self.old self.new.gathering }
        ensures step { IsGatherOf self.old.mark self.old.gathering (decoded bytes.now) result
            self.new.gathering }
    {
        let message = match decode(bytes) {
            Ok(message) => message,
            Err(fault) => return Err(GatherFault::Wire(fault)),
        };
        if message.mark != self.mark {
            return Err(GatherFault::WrongScene);
        }
        gather(self.stage.allocator(), &mut self.gathering, &message.body)
    }

    /// Restarts in the world of the snapshot that was gathered, with another boot, even if the
    /// viewer is spoiled. Returns the number of inputs that this world has had. No piece is kept
    /// then.
    ///
    /// Fails with `NotWhole` if a piece is missing, and then like `rewind`. A failure keeps what
    /// was gathered.
    pub fn join(&mut self, boot: u32) -> Result<u64, JoinFault>
        ensures others { self.new
            ≡ with_gathering (with_state self.old self.new.state) self.new.gathering }
        ensures step { IsJoined self.old (whole_of self.old.gathering) boot result self.new.state
            self.new.gathering }
        // With the snapshot of a world that has one, this is the law's step.
        ensures law { IsLawfulJoin self.old boot result self.new.state self.new.gathering }
    {
        let Some(pieces) = self.gathering.take() else {
            return Err(JoinFault::NotWhole);
        };
        let answer = self.begin_from(&pieces, boot);
        self.gathering = unless(answer.is_ok(), pieces);
        answer
    }

    /// Restarts from the bytes of these pieces, if none is missing.
    fn begin_from(&mut self, pieces: &Pieces, boot: u32) -> Result<u64, JoinFault>
        ensures others { self.new ≡ with_state self.old self.new.state }
        ensures step { IsBegunFrom self.old (whole_of (Some pieces.now)) boot result
            self.new.state }
        ensures mark { length self.old.mark ≡ 32 }
    {
        let _ = &self.mark;
        let Some(bytes) = pieces.whole() else {
            return Err(JoinFault::NotWhole);
        };
        joined(self.begin_again(bytes, boot))
    }

    /// Drops what was gathered. Takes no memory.
    pub fn forget(&mut self)
        ensures { self.new ≡ with_gathering self.old None }
    {
        self.gathering = None;
    }
}
