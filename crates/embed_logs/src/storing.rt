//! Storing entries in a log that holds them in memory too.

ghost use Rattle.std.specs.Prelude.{◌≡◌, ◌<◌, ◌≤◌, ◌++◌, length, IfErr, IsTrue, OnErr, OnOk};
ghost use Rattle.share_store.specs.OneLog.{Last, max_entries};
ghost use Rattle.embed_logs.specs.Appending.{FailsWith, StaysOpen, fault_after};

use share_entries::{Entry, MAX_ENTRIES};
use share_store::{AppendFault, Log};

/// Returns the fault of an append of entries of which this many were stored before.
fn fault_after(stored: usize, fault: AppendFault) -> AppendFault
    ensures { result ≡ fault_after stored fault }
{
    if stored == 0 {
        return fault;
    }
    AppendFault::InDoubt
}

/// Stores entries that fit into one append. On an error none of them is known.
fn store<L: Log>(log: &mut L, known: &mut Vec<Entry>, entries: &[Entry]) -> Result<(), AppendFault>
    requires open { IsTrue (L.is_open log.old) }
    requires some { 0 < length entries.now }
    requires most { length entries.now ≤ max_entries }
    requires same { IsTrue (L.is_clean log.old) → L.known log.old ≡ known.old.items }
    ensures same { IsTrue (L.is_clean log.new) → L.known log.new ≡ known.new.items }
    ensures stored { OnOk result (known.new.items ≡ known.old.items ++ entries.now) }
    ensures kept { OnErr result (known.new.items ≡ known.old.items) }
    ensures open { OnOk result (IsTrue (L.is_open log.new)) }
    ensures still { IfErr result (λ fault. StaysOpen fault (IsTrue (L.is_open log.new))) }
    ensures clean { IsTrue (L.is_clean log.new) → IsTrue (L.is_clean log.old) }
    // What lasted lasts, and so does what was stored.
    ensures lasts { IsTrue (L.is_clean log.new) → Last (L.may_leave log.old) known.old.items
        → Last (L.may_leave log.new) known.new.items }
{
    let before = known.len();
    if known.extend_from_slice(entries).is_err() {
        return Err(AppendFault::Memory);
    }
    let answer = log.append(entries);
    if answer.is_err() {
        known.truncate(before);
    }
    answer
}

/// Stores entries, at most `MAX_ENTRIES` at a time. Once some are stored, each fault is `InDoubt`;
/// those that are stored are known.
pub(crate) fn store_all<L: Log>(
    log: &mut L,
    known: &mut Vec<Entry>,
    entries: &[Entry],
) -> Result<(), AppendFault>
    requires open { IsTrue (L.is_open log.old) }
    requires same { IsTrue (L.is_clean log.old) → L.known log.old ≡ known.old.items }
    ensures same { IsTrue (L.is_clean log.new) → L.known log.new ≡ known.new.items }
    ensures stored { OnOk result (known.new.items ≡ known.old.items ++ entries.now) }
    ensures open { OnOk result (IsTrue (L.is_open log.new)) }
    ensures refused { IfErr result (λ fault. FailsWith fault (IsTrue (L.is_open log.new))
        known.old.items entries.now known.new.items) }
    ensures clean { IsTrue (L.is_clean log.new) → IsTrue (L.is_clean log.old) }
    // What lasted lasts, and so does what was stored.
    ensures lasts { IsTrue (L.is_clean log.new) → Last (L.may_leave log.old) known.old.items
        → Last (L.may_leave log.new) known.new.items }
{
    let mut done = 0;
    while done < entries.len() {
        let end = (done + MAX_ENTRIES).min(entries.len());
        if let Err(fault) = store(log, known, &entries[done..end]) {
            return Err(fault_after(done, fault));
        }
        done = end;
    }
    Ok(())
}
