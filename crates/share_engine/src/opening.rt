//! Opening the log of a world, or making it.

ghost use Rattle.std.specs.Prelude.{◌≡◌, ◌+◌, ◌<◌, ◌^◌, ◌⊎◌, [], ℕ, List, Some, None, Ok, Err, true, false, length, IfErr, IfOk, IfSome, IsTrue};
ghost use Rattle.std.specs.Option.{option_map};
ghost use Rattle.share_entries.specs.Base.{base_in};
ghost use Rattle.share_entries.specs.Head.{head_in as spec_head_in};
ghost use Rattle.share_entries.specs.Head.{is_viewer_count};
ghost use Rattle.share_entries.specs.Start.{start_of as spec_start_of};
ghost use Rattle.share_etcd.specs.Keys.{text_of};
ghost use Rattle.share_etcd.specs.Views.{based_view, contents_view, opening_view};
ghost use Rattle.share_store.specs.OneLog.{Last};
ghost use Rattle.share_engine.specs.declared.fault.WorldFault.TheVariants.{Damaged};
ghost use Rattle.share_engine.specs.Keys.{held, Always, IsKept, AfterOpening, AfterReading};
ghost use Rattle.share_engine.specs.Opening.{base_found as spec_base_found, checked, has_seats as spec_has_seats, seated as spec_seated, IsOfReading};

use crate::engine::Engine;
use crate::fault::{ReadingFault, WorldFault, world_fault};
use crate::finding::{Finding, find_or_make};
use crate::known::Known;
use crate::log::EtcdLog;
use crate::reading::{add_contents, read_all};
use share_entries::{Base, Head, Start, base_of, head_of, start_at, start_of};
use share_etcd::{Based, Contents, Opening, Revisions};
use share_session::WorldName;
use std::alloc::Global;

/// The base of a world's log, and the snapshot of the world there, whose SHA-256 the base has if a
/// host put both.
#[derive(Drop)]
pub struct WorldBase {
    pub base: Base,
    pub snapshot: Vec<u8>,
}

/// An opened log, with its head.
#[derive(Drop)]
pub struct OpenedWorld<E: Engine> {
    pub log: EtcdLog<E>,
    pub head: Head,
    /// What the log's entries go on from, if they are not all.
    pub based: Option<WorldBase>,
    /// The log was made now.
    pub is_new: bool,
}

fn has_seats(viewers: Option<u8>, head: &Head) -> bool
    ensures { result ≡ spec_has_seats viewers head.now.viewers }
{
    match viewers {
        None => true,
        Some(number) => number == head.viewers,
    }
}

/// Reads the head of a world, which must have this mark, and this number of viewers if it is given.
fn head_in(bytes: &[u8], mark: &[u8; 32], viewers: Option<u8>) -> Result<Head, WorldFault>
    ensures { result ≡ checked mark.now viewers (spec_head_in bytes.now) }
{
    let Ok(head) = head_of(bytes) else {
        return Err(WorldFault::BadHead);
    };
    if head.mark != *mark {
        return Err(WorldFault::WrongScene);
    }
    if !has_seats(viewers, &head) {
        return Err(WorldFault::WrongSeats);
    }
    Ok(head)
}

/// Returns the base that these bytes are, if it keeps something of each viewer of the head.
fn seated(head: &Head, bytes: &[u8]) -> Option<Base>
    ensures { result ≡ spec_seated head.now (base_in bytes.now) }
{
    let base = base_of(bytes)?;
    if base.kept().len() == usize::from(head.viewers) {
        Some(base)
    } else {
        None
    }
}

/// Returns the base of a world with this head, if it has one. Fails with `Damaged(1)` if it is the
/// base of no log with this head.
fn base_found(head: &Head, based: Option<Based>) -> Result<Option<WorldBase>, WorldFault>
    ensures found { IfOk result (λ w. spec_base_found head.now (option_map based_view based)
        ≡ Some (option_map (λ it. it.base) w)) }
    ensures fault { IfErr result (λ e. (e ≡ Damaged 1)
        × (spec_base_found head.now (option_map based_view based) ≡ None)) }
{
    let Some(Based { base, snapshot }) = based else {
        return Ok(None);
    };
    match seated(head, &base) {
        Some(base) => Ok(Some(WorldBase { base, snapshot })),
        None => Err(WorldFault::Damaged(1)),
    }
}

/// Returns where the entries of a log with this head begin.
fn start_with(head: &Head, based: &Option<WorldBase>) -> Start
    ensures value { result ≡ spec_start_of head.now (option_map (λ it. it.base) based.now) }
    ensures low { result.below < 2 ^ 48 }
{
    match based {
        Some(it) => start_at(&it.base),
        None => start_of(head, &None),
    }
}

/// Reads the entries of a world after this first reading, which is of those that none are known
/// before. Returns the revisions of its keys. After a failure some entries may be known.
fn read_found<E: Engine>(
    alloc: Global,
    engine: &mut E,
    name: &WorldName,
    head: &Head,
    contents: &Contents,
    known: &mut Known,
) -> Result<Revisions, ReadingFault>
    ensures start { known.new.start ≡ known.old.start }
    ensures all { IfOk result (λ r. (run : List ℕ)
        → Always (text_of name.now) run (E.told engine.old)
        (AfterReading run known.old.start (known.old.start.below + 1)
        (contents_view contents.now) [])
        → known.old.entries ≡ []
        → IsKept (text_of name.now) run known.old.start (E.told engine.new)
        (held r.head r.tail known.new.entries)) }
{
    if let Some(revisions) = add_contents(alloc, contents, known)? {
        return Ok(revisions);
    }
    read_all(alloc, engine, name, head, known)
}

/// Opens the log of a world with this head and base, whose first reading this is.
fn go_on<E: Engine>(
    alloc: Global,
    engine: E,
    name: WorldName,
    head: Head,
    based: Option<WorldBase>,
    contents: &Contents,
) -> Result<OpenedWorld<E>, WorldFault>
    requires { let start = spec_start_of head (option_map (λ it. it.base) based) in
        Always (text_of name) head.run (E.told engine)
        (AfterReading head.run start (start.below + 1) (contents_view contents.now) []) }
    ensures head { IfOk result (λ o. o.head ≡ head) }
    ensures based { IfOk result (λ o. o.based ≡ based) }
    ensures log { IfOk result (λ o. (o.log.name ≡ name) × (o.log.head ≡ head)
        × (o.log.known.start ≡ spec_start_of head (option_map (λ it. it.base) based))
        × (o.log.is_open ≡ true)) }
    ensures new { IfOk result (λ o. o.is_new ≡ false) }
    ensures fault { IfErr result IsOfReading }
{
    let mut engine = engine;
    let mut known = Known::new(alloc, start_with(&head, &based));
    match read_found(alloc, &mut engine, &name, &head, contents, &mut known) {
        Ok(revisions) => Ok(OpenedWorld {
            log: EtcdLog::new(alloc, engine, name, head, known, revisions),
            head,
            based,
            is_new: false,
        }),
        Err(fault) => {
            let next = known.next_number();
            drop(known);
            drop(based);
            drop(engine);
            Err(world_fault(fault, next))
        }
    }
}

/// Opens the log of a world with this head, which was found.
fn open_headed<E: Engine>(
    alloc: Global,
    engine: E,
    name: WorldName,
    head: Head,
    opening: Opening,
) -> Result<OpenedWorld<E>, WorldFault>
    requires { Always (text_of name) head.run (E.told engine)
        (AfterOpening head.run (opening_view opening)) }
    ensures head { IfOk result (λ o. o.head ≡ head) }
    ensures based { IfOk result (λ o. spec_base_found head (option_map based_view opening.based)
        ≡ Some (option_map (λ it. it.base) o.based)) }
    ensures log { IfOk result (λ o. (o.log.name ≡ name) × (o.log.head ≡ head)
        × (o.log.known.start ≡ spec_start_of head (option_map (λ it. it.base) o.based))
        × (o.log.is_open ≡ true)) }
    ensures new { IfOk result (λ o. o.is_new ≡ false) }
    ensures fault { IfErr result IsOfReading }
{
    let Opening { based, contents } = opening;
    match base_found(&head, based) {
        Ok(based) => {
            let opened = go_on(alloc, engine, name, head, based, &contents);
            drop(contents);
            opened
        }
        Err(fault) => {
            drop(contents);
            drop(engine);
            Err(fault)
        }
    }
}

/// Opens the log of a world that was found, if it has this mark, and this number of viewers if it
/// is given.
fn open_found<E: Engine>(
    alloc: Global,
    engine: E,
    name: WorldName,
    mark: &[u8; 32],
    viewers: Option<u8>,
    opening: Opening,
) -> Result<OpenedWorld<E>, WorldFault>
    requires { (run : List ℕ) → Always (text_of name) run (E.told engine)
        (AfterOpening run (opening_view opening)) }
    ensures head { IfOk result (λ o.
        checked mark.now viewers (spec_head_in opening.contents.head.items) ≡ Ok o.head) }
    ensures based { IfOk result (λ o. spec_base_found o.head (option_map based_view opening.based)
        ≡ Some (option_map (λ it. it.base) o.based)) }
    ensures log { IfOk result (λ o. (o.log.name ≡ name) × (o.log.head ≡ o.head)
        × (o.log.known.start ≡ spec_start_of o.head (option_map (λ it. it.base) o.based))
        × (o.log.is_open ≡ true)) }
    ensures new { IfOk result (λ o. o.is_new ≡ false) }
    // The fault is the first that the head has, or one of reading.
    ensures fault { IfErr result (λ e.
        (checked mark.now viewers (spec_head_in opening.contents.head.items) ≡ Err e)
        ⊎ IsOfReading e) }
{
    match head_in(&opening.contents.head, mark, viewers) {
        Ok(head) => open_headed(alloc, engine, name, head, opening),
        Err(fault) => {
            drop(opening);
            drop(engine);
            Err(fault)
        }
    }
}

/// Opens the log of a world that was made at this revision.
fn begin<E: Engine>(
    alloc: Global,
    engine: E,
    name: WorldName,
    head: Head,
    revision: u64,
) -> OpenedWorld<E>
    requires { IsKept (text_of name) head.run (spec_start_of head None) (E.told engine)
        (held revision revision []) }
    ensures head { result.head ≡ head }
    ensures log { (result.log.name ≡ name) × (result.log.head ≡ head)
        × (result.log.known.start ≡ spec_start_of head None) × (result.log.is_open ≡ true) }
    ensures entries { result.log.known.entries ≡ [] }
    ensures based { result.based ≡ None }
    ensures new { result.is_new ≡ true }
{
    let known = Known::new(alloc, start_of(&head, &None));
    let revisions = Revisions {
        head: revision,
        tail: revision,
    };
    OpenedWorld {
        log: EtcdLog::new(alloc, engine, name, head, known, revisions),
        head,
        based: None,
        is_new: true,
    }
}

/// Opens the log of a world. If there is none, makes it with this head if `makes` says so, and else
/// fails with `Malformed`. If there is one, it must have the head's mark, and this number of
/// viewers if it is given; it goes on with its own head, and from its base, if it has one.
///
/// Fails with the first fault. If the world was to be made, it may be there after `Silent`,
/// `Malformed` and `Memory`: open it again.
pub fn open_world<E: Engine>(
    alloc: Global,
    engine: E,
    name: WorldName,
    head: &Head,
    viewers: Option<u8>,
    makes: bool,
) -> Result<OpenedWorld<E>, WorldFault>
    requires { IsTrue (is_viewer_count head.now.viewers) }
    // The log is of this world, and takes appends.
    ensures log { IfOk result (λ o. (o.log.name ≡ name) × (o.log.head ≡ o.head)
        × IsTrue (⟦<EtcdLog<E> as share_store::Log>⟧.is_open o.log)) }
    // It starts at its base.
    ensures start { IfOk result (λ o. o.log.known.start
        ≡ spec_start_of o.head (option_map (λ it. it.base) o.based)) }
    ensures kept { IfOk result (λ o. IfSome o.based (λ it. length it.base.kept ≡ o.head.viewers)) }
    // What it knows is in the world for good.
    ensures last { IfOk result (λ o. Last (⟦<EtcdLog<E> as share_store::Log>⟧.may_leave o.log)
        (⟦<EtcdLog<E> as share_store::Log>⟧.known o.log)) }
    // A new world has the head that was given, and no entries.
    ensures new { IfOk result (λ o. IsTrue o.is_new → (o.head ≡ head.now) × (o.based ≡ None)
        × (⟦<EtcdLog<E> as share_store::Log>⟧.known o.log ≡ [])) }
    ensures found { makes ≡ false → IfOk result (λ o. o.is_new ≡ false) }
    // Another has its own, of this scene and with the number of viewers that is asked for.
    ensures mark { IfOk result (λ o. o.head.mark ≡ head.now.mark) }
    ensures seats { IfOk result (λ o. o.is_new ≡ false
        → IsTrue (spec_has_seats viewers o.head.viewers)) }
{
    let mut engine = engine;
    match find_or_make(alloc, &mut engine, &name, head, makes) {
        Ok(Finding::Made { revision }) => Ok(begin(alloc, engine, name, *head, revision)),
        Ok(Finding::Found(opening)) => {
            open_found(alloc, engine, name, &head.mark, viewers, opening)
        }
        Err(fault) => {
            drop(engine);
            Err(fault)
        }
    }
}
