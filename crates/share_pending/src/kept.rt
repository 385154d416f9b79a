//! What is kept of each viewer after more entries.

ghost use Rattle.std.specs.Prelude.{◌≡◌, ◌≤◌, slice_set};
ghost use Rattle.x3d_values.specs.Ranges.{max_viewers};
ghost use Rattle.share_pending.specs.Kept.{kept_by, kept_with, none_kept};

use arrayvec::ArrayVec;
use share_entries::{Entry, Source};
use share_rules::SeatCount;
use x3d_values::MAX_VIEWERS;

/// The largest number of viewers of a host.
const SEATS: usize = MAX_VIEWERS as usize;

/// What is kept of each viewer: the boot and the number of its last numbered offer.
pub(crate) type Kept = ArrayVec<SeatCount, SEATS>;

/// Returns what is kept of viewers that have offered nothing.
pub(crate) fn none_kept(viewers: u8) -> Kept
    requires { viewers ≤ max_viewers }
    ensures { result.items ≡ none_kept viewers }
{
    let mut kept = ArrayVec::from_array_in((), [SeatCount::default(); SEATS]);
    kept.truncate(viewers as usize);
    kept
}

fn set_kept(kept: &mut Kept, who: u8, now: SeatCount)
    ensures { kept.new.items ≡ slice_set kept.old.items who now }
{
    let place = who as usize;
    if place < kept.len() {
        kept.as_mut_slice()[place] = now;
    }
}

/// Keeps the offer of an entry.
fn keep_one(kept: &mut Kept, source: Source)
    ensures { kept.new.items ≡ kept_by kept.old.items source }
{
    match source {
        Source::Clock => {}
        Source::Offer(offer) => {
            let now = SeatCount {
                boot: offer.boot(),
                count: offer.number(),
            };
            set_kept(kept, offer.pointer().who(), now);
        }
    }
}

/// Keeps the offers of entries, one after another.
pub(crate) fn keep_all(kept: &mut Kept, entries: &[Entry])
    ensures { kept.new.items ≡ kept_with kept.old.items entries.now }
{
    for entry in entries {
        keep_one(kept, entry.source());
    }
}
