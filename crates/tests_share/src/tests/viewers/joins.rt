//! Memory that is refused, until there is enough, to a viewer that gathers a snapshot and joins
//! with it.

use super::given::{COUNTED, MARK, POINT, Trial, go_back, try_on};
use super::memory::is_unchanged;
use script_boxes::StockScript;
use share_core::{Viewer, piece_count, piece_packet};
use share_law::{GatherFault, Gathered, JoinFault, SnapFault};
use std::alloc::Global;
use std::process::Abort;
use tests_memory::{Outcome, Spared, UsedUp, is_refused_until_enough};

/// Returns a viewer's answer to this piece of a snapshot.
fn gathers(
    viewer: &mut Viewer<StockScript>,
    shot: &[u8],
    index: u32,
) -> Option<Result<Gathered, GatherFault>> {
    let packet = piece_packet(MARK, shot, index)?;
    Some(viewer.gather(packet.as_slice()))
}

/// Reports whether a viewer that gathers all pieces of a snapshot has it in whole at the last one.
fn gathers_all(viewer: &mut Viewer<StockScript>, shot: &[u8]) -> bool {
    let Some(count) = piece_count(shot) else {
        return false;
    };
    let mut is_whole = false;
    for index in 0..count {
        is_whole = gathers(viewer, shot, index) == Some(Ok(Gathered::Whole));
    }
    is_whole
}

/// Gathers the first piece of this snapshot, which is the viewer's own. If that is refused nothing
/// is gathered, and the viewer is unchanged.
#[derive(Clone, Copy)]
struct OnePiece<'a>(&'a [u8]);

impl<'a> Spared<Viewer<StockScript>> for OnePiece<'a> {
    fn work(
        &self,
        alloc: Global,
        viewer: &mut Viewer<StockScript>,
        memory: &mut UsedUp,
    ) -> Outcome {
        viewer.forget();
        memory.run_short();
        let answer = gathers(viewer, self.0, 0);
        memory.come_back();
        let is_refused = answer == Some(Err(GatherFault::Memory));
        let again = gathers(viewer, self.0, 0);
        let stands = (again == Some(Ok(Gathered::New))) == is_refused;
        let same = is_unchanged(alloc, viewer, self.0);
        Outcome::of(answer == Some(Ok(Gathered::New)), is_refused).where_so(stands && same)
    }
}

/// A viewer with a waiting offer joins with this snapshot. If that is refused the viewer is
/// spoiled, but keeps its boot, its offer and what it gathered, and joins with that once there is
/// memory.
#[derive(Clone, Copy)]
struct Joins<'a>(&'a [u8]);

impl<'a> Spared<Viewer<StockScript>> for Joins<'a> {
    fn work(
        &self,
        _alloc: Global,
        viewer: &mut Viewer<StockScript>,
        memory: &mut UsedUp,
    ) -> Outcome {
        viewer.forget();
        let ready = go_back(viewer, self.0) == Ok(3)
            && viewer.offer(POINT) == Ok(1)
            && gathers_all(viewer, self.0);
        let boot = viewer.boot().saturating_add(1);
        memory.run_short();
        let answer = viewer.join(boot);
        memory.come_back();
        let is_refused = answer == Err(JoinFault::Snap(SnapFault::Memory));
        let stands = if is_refused {
            viewer.spoiled() && viewer.applied() == 3 && viewer.waiting() == 1
        } else {
            viewer.waiting() == 0
        };
        let later = viewer.join(boot);
        let rejoins = if is_refused {
            later == Ok(3)
        } else {
            later == Err(JoinFault::NotWhole)
        };
        Outcome::of(answer == Ok(3), is_refused).where_so(ready && stands && rejoins)
    }
}

/// Both are refused until there is enough.
struct Late;

impl Trial for Late {
    fn holds(&self, alloc: Global, viewer: &mut Viewer<StockScript>, shot: &[u8]) -> bool {
        is_refused_until_enough(alloc, &OnePiece(shot), viewer, 1)
            && is_refused_until_enough(alloc, &Joins(shot), viewer, 20)
    }
}

#[test]
fn a_late_joiner_is_refused_until_there_is_enough(rt: HostRuntime) {
    try_on(&rt, rt.alloc(), COUNTED, 3, &Late);
}
