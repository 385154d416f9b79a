//! What a host over a shared log begins with.

ghost use Rattle.std.specs.Prelude.{◌≡◌, ◌≤◌, ◌++◌, IfOk, List};
ghost use Rattle.x3d_values.specs.Ranges.{max_viewers};
ghost use Rattle.share_entries.specs.Entry.{EntryView};
ghost use Rattle.share_logged.specs.Making.{IsOfLog};
ghost use Rattle.app_standby.specs.Origins.{IsBelow};

use share_entries::{Base, Entry};
use share_logged::{LoggedHost, ResumeFault, resume, resume_from};
use std::alloc::Global;

/// What the host of a log begins with, before the entries that a handle of the log knows.
#[derive(Drop)]
pub struct Origin {
    /// The mark of its scene.
    pub mark: [u8; 32],
    /// The number of viewers: 1 to `MAX_VIEWERS`.
    pub viewers: u8,
    /// What stands for the entries before those that a handle knows, if the log begins with a base.
    pub base: Option<Base>,
}

/// Returns the host that the entries below the base make with these ones after it.
pub(crate) fn begin(
    alloc: Global,
    origin: &Origin,
    entries: &[Entry],
) -> Result<LoggedHost, ResumeFault>
    requires some { 1 ≤ origin.now.viewers }
    requires most { origin.now.viewers ≤ max_viewers }
    ensures mark { IfOk result (λ h. h.mark ≡ origin.now.mark) }
    ensures log { IfOk result (λ h. (below : List EntryView)
        → IsBelow origin.now.viewers origin.now.base below
        → IsOfLog origin.now.viewers (below ++ entries.now) h.part) }
{
    match &origin.base {
        None => resume(alloc, origin.mark, origin.viewers, entries),
        Some(base) => resume_from(alloc, origin.mark, base, entries),
    }
}
