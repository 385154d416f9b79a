//! Whether there is a world, and making it.

ghost use Rattle.std.specs.Prelude.{◌≡◌, [], false, ℕ, List, IfOk, IfSome, IsTrue};
ghost use Rattle.share_entries.specs.Head.{is_viewer_count};
ghost use Rattle.share_etcd.specs.Keys.{text_of};
ghost use Rattle.share_etcd.specs.Views.{opening_view};
ghost use Rattle.share_engine.specs.Keys.{held, Always, IsKept, AfterOpening};
ghost use Rattle.share_engine.specs.Opening.{IsFinding, is_made};

use crate::asking::{ask_for, open};
use crate::engine::Engine;
use crate::fault::{WorldFault, world_fault};
use share_entries::Head;
use share_etcd::{Opening, making_bytes};
use share_session::WorldName;
use std::alloc::Global;

/// What there is of a world.
#[derive(Drop)]
pub(crate) enum Finding {
    /// It was made now, and its keys have this revision.
    Made { revision: u64 },
    /// It was there.
    Found(Opening),
}

/// Opens a world.
fn look<E: Engine>(
    alloc: Global,
    engine: &mut E,
    name: &WorldName,
) -> Result<Option<Opening>, WorldFault>
    ensures { IfOk result (λ o. IfSome o (λ found. (run : List ℕ)
        → Always (text_of name.now) run (E.told engine.new)
        (AfterOpening run (opening_view found)))) }
{
    match open(alloc, engine, name) {
        Ok(opening) => Ok(opening),
        Err(fault) => Err(world_fault(fault, 1)),
    }
}

/// Asks for the making of a world with this head. Returns the revision of its keys, and `None` if
/// there is one already.
fn make<E: Engine>(
    alloc: Global,
    engine: &mut E,
    name: &WorldName,
    head: &Head,
) -> Result<Option<u64>, WorldFault>
    requires { IsTrue (is_viewer_count head.now.viewers) }
    ensures { IfOk result (λ o. IfSome o (λ revision. (run : List ℕ)
        → IsKept (text_of name.now) run (record { below = 0; chain = run }) (E.told engine.new)
        (held revision revision []))) }
{
    let Ok(body) = making_bytes(alloc, name, head) else {
        return Err(WorldFault::Memory);
    };
    let mut answer = Vec::new(alloc);
    match ask_for(alloc, engine, &body, &mut answer) {
        Ok(revision) => Ok(revision),
        Err(fault) => Err(world_fault(fault, 1)),
    }
}

/// Finds a world. If there is none, makes it with this head if `makes` says so, and else fails with
/// `Malformed`.
pub(crate) fn find_or_make<E: Engine>(
    alloc: Global,
    engine: &mut E,
    name: &WorldName,
    head: &Head,
    makes: bool,
) -> Result<Finding, WorldFault>
    requires { IsTrue (is_viewer_count head.now.viewers) }
    ensures finding { IfOk result (λ f. IsFinding (text_of name.now) (E.told engine.new) f) }
    ensures found { makes ≡ false → IfOk result (λ f. is_made f ≡ false) }
{
    if let Some(opening) = look(alloc, engine, name)? {
        return Ok(Finding::Found(opening));
    }
    if !makes {
        return Err(WorldFault::Malformed);
    }
    if let Some(revision) = make(alloc, engine, name, head)? {
        return Ok(Finding::Made { revision });
    }
    // Another host was first.
    match look(alloc, engine, name)? {
        Some(opening) => Ok(Finding::Found(opening)),
        None => Err(WorldFault::Malformed),
    }
}
