//! Reading a log until all of it is known.

ghost use Rattle.std.specs.Prelude.{◌≡◌, ◌+◌, ◌<◌, ◌^◌, ◌++◌, ℕ, List, length, map, Some, Ok, IfOk, IfSome, IsTrue, MatchOption, OnErr, OnOk};
ghost use Rattle.share_entries.specs.declared.start.Start.{Start};
ghost use Rattle.share_entries.specs.Entry.{EntryView};
ghost use Rattle.share_entries.specs.Head.{head_in};
ghost use Rattle.share_etcd.specs.Keys.{text_of};
ghost use Rattle.share_etcd.specs.Views.{contents_view, frame_view};
ghost use Rattle.share_store.specs.OneLog.{Begins};
ghost use Rattle.share_engine.specs.Keys.{Held, held, HasFrom, Always, IsKept};
ghost use Rattle.share_engine.specs.Reading.{entries_from};

use crate::asking::read_from;
use crate::engine::Engine;
use crate::fault::{ReadingFault, read_fault};
use crate::known::Known;
use share_entries::{Entry, Head, head_of};
use share_etcd::{Contents, Revisions};
use share_session::WorldName;
use share_store::ReadFault;
use std::alloc::Global;

/// Reports whether a world still has this head. It may have been put again, with a base.
fn has_head(contents: &Contents, head: &Head) -> bool
    ensures { IsTrue result → head_in contents.now.head.items ≡ Ok head.now }
{
    match head_of(&contents.head) {
        Ok(found) => found == *head,
        Err(_) => false,
    }
}

/// Returns the revisions of the keys if the entries up to number `now` are all, and `None` if they
/// are not, but more than those up to `before`. Fails with `NotNext` otherwise.
fn progress(contents: &Contents, before: u64, now: u64) -> Result<Option<Revisions>, ReadingFault>
    ensures { IfOk result (λ o. MatchOption o
        ((before < now) × (now < 2 ^ 64))
        (λ r. (now ≡ contents.now.tail) × (r.head ≡ contents.now.head_revision)
        × (r.tail ≡ contents.now.tail_revision))) }
{
    if now == contents.tail {
        return Ok(Some(Revisions {
            head: contents.head_revision,
            tail: contents.tail_revision,
        }));
    }
    if before < now && now < contents.tail {
        Ok(None)
    } else {
        Err(ReadingFault::NotNext)
    }
}

/// Adds the entries of a reading to those that are known.
pub(crate) fn add_contents(
    alloc: Global,
    contents: &Contents,
    known: &mut Known,
) -> Result<Option<Revisions>, ReadingFault>
    ensures start { known.new.start ≡ known.old.start }
    ensures longer { Begins known.old.entries known.new.entries }
    ensures read { IfOk result (λ _. entries_from known.old.start known.old.entries
        (map frame_view contents.now.frames.items) ≡ Some known.new.entries) }
    ensures all { IfOk result (λ o. MatchOption o
        ((length known.old.entries < length known.new.entries)
        × (length known.new.entries < 2 ^ 64))
        (λ r. (known.old.start.below + length known.new.entries ≡ contents.now.tail)
        × (r.head ≡ contents.now.head_revision) × (r.tail ≡ contents.now.tail_revision))) }
{
    let before = known.last_number();
    known.add_frames(alloc, &contents.frames)?;
    progress(contents, before, known.last_number())
}

/// Reads once, and adds what was read. Returns the revisions of the keys if all entries are known,
/// and `None` if more were read but not all.
fn read_more<E: Engine>(
    alloc: Global,
    engine: &mut E,
    name: &WorldName,
    head: &Head,
    known: &mut Known,
) -> Result<Option<Revisions>, ReadingFault>
    ensures start { known.new.start ≡ known.old.start }
    ensures longer { Begins known.old.entries known.new.entries }
    ensures more { IfOk result (λ o. MatchOption o
        ((length known.old.entries < length known.new.entries)
        × (length known.new.entries < 2 ^ 64)) (λ _. Unit {0})) }
    ensures stays { (run : List ℕ) (start : Start) (k : Held)
        → IsKept (text_of name.now) run start (E.told engine.old) k
        → IsKept (text_of name.now) run start (E.told engine.new) k }
    ensures has { IfOk result (λ _. (run : List ℕ)
        → Always (text_of name.now) run (E.told engine.old)
        (HasFrom run known.old.start known.old.entries)
        → Always (text_of name.now) run (E.told engine.new)
        (HasFrom run known.old.start known.new.entries)) }
    ensures all { IfOk result (λ o. IfSome o (λ r. (run : List ℕ)
        → Always (text_of name.now) run (E.told engine.old)
        (HasFrom run known.old.start known.old.entries)
        → IsKept (text_of name.now) run known.old.start (E.told engine.new)
        (held r.head r.tail known.new.entries))) }
{
    let first = known.next_number();
    let Some(contents) = read_from(alloc, engine, name, first)? else {
        return Err(ReadingFault::NotNext);
    };
    if !has_head(&contents, head) {
        return Err(ReadingFault::NotNext);
    }
    add_contents(alloc, &contents, known)
}

/// Reads until all entries of the log are known. The world must have this head. Returns
/// the revisions of its keys. After a failure some more entries may be known.
pub(crate) fn read_all<E: Engine>(
    alloc: Global,
    engine: &mut E,
    name: &WorldName,
    head: &Head,
    known: &mut Known,
) -> Result<Revisions, ReadingFault>
    ensures start { known.new.start ≡ known.old.start }
    ensures longer { Begins known.old.entries known.new.entries }
    ensures stays { (run : List ℕ) (start : Start) (k : Held)
        → IsKept (text_of name.now) run start (E.told engine.old) k
        → IsKept (text_of name.now) run start (E.told engine.new) k }
    ensures all { IfOk result (λ r. (run : List ℕ)
        → Always (text_of name.now) run (E.told engine.old)
        (HasFrom run known.old.start known.old.entries)
        → IsKept (text_of name.now) run known.old.start (E.told engine.new)
        (held r.head r.tail known.new.entries)) }
{
    'reading: loop {
        if let Some(revisions) = read_more(alloc, engine, name, head, known)? {
            return Ok(revisions);
        }
    }
}

/// Reads until all entries of the log are known, and adds those that were read to `into`. After a
/// failure nothing more is known.
pub(crate) fn read_into<E: Engine>(
    alloc: Global,
    engine: &mut E,
    name: &WorldName,
    head: &Head,
    known: &mut Known,
    into: &mut Vec<Entry>,
) -> Result<Revisions, ReadFault>
    ensures start { known.new.start ≡ known.old.start }
    ensures more { OnOk result ((more : List EntryView)
        × (known.new.entries ≡ known.old.entries ++ more)
        × (into.new.items ≡ into.old.items ++ more)) }
    ensures stays { (run : List ℕ) (start : Start) (k : Held)
        → IsKept (text_of name.now) run start (E.told engine.old) k
        → IsKept (text_of name.now) run start (E.told engine.new) k }
    ensures all { IfOk result (λ r. (run : List ℕ)
        → Always (text_of name.now) run (E.told engine.old)
        (HasFrom run known.old.start known.old.entries)
        → IsKept (text_of name.now) run known.old.start (E.told engine.new)
        (held r.head r.tail known.new.entries)) }
    ensures refused { OnErr result (known.new ≡ known.old) }
    ensures kept { OnErr result (into.new.items ≡ into.old.items) }
{
    let count = known.len();
    let chain = known.chain();
    match read_all(alloc, engine, name, head, known) {
        Ok(revisions) => {
            if into.extend_from_slice(&known.entries()[count..]).is_err() {
                known.cut(count, chain);
                return Err(ReadFault::Memory);
            }
            Ok(revisions)
        }
        Err(fault) => {
            known.cut(count, chain);
            Err(read_fault(fault))
        }
    }
}
