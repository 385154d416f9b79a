//! What a log is to the host that appends to it.

ghost use Rattle.std.specs.Prelude.{◌≡◌, ◌<◌, ◌≤◌, ◌++◌, List, Bool, false, length, IsErrOf, IsTrue, OnErr, OnOk};
ghost use Rattle.share_entries.specs.Entry.{EntryView};
ghost use Rattle.share_store.specs.OneLog.{Last, max_entries};

use crate::fault::{AppendFault, ReadFault};
use share_entries::Entry;

/// One handle of a log: a list of entries that only grows, at its end. A log may have several
/// handles, also in other processes and on other machines.
///
/// What a handle appends it has, once the answer is `Ok`, for good: whatever crashes then, the
/// entries are in the log, at the numbers after those that the handle knew. What the clauses say
/// of entries holds unless a read of the device has lied (`is_clean`).
pub trait Log {
    // The entries that this handle has read or stored, from the first of the log on.
    ghost known: { Self → List EntryView };

    // What the log may have after a crash at this moment.
    ghost may_leave: { Self → List EntryView → Type 0 };

    // The handle takes appends: it has read on since an answer was `Taken` or `InDoubt`.
    ghost is_open: { Self → Bool };

    // No read of the device has lied.
    ghost is_clean: { Self → Bool };

    /// Reports whether the handle takes appends. If not, read on.
    fn takes_appends(&self) -> bool
        ensures { result ≡ is_open self.now };

    /// Returns the number of entries that this handle has read or stored.
    fn len(&self) -> u64
        ensures { IsTrue (is_clean self.now) → result ≡ length (known self.now) };

    /// Appends entries after those that this handle knows, at least one and at most
    /// `MAX_ENTRIES`. After `Ok` they stay, whatever crashes. After any error the handle knows
    /// what it knew.
    ///
    /// Fails with `Taken`, `Memory` or `Full` if nothing was added, and with `InDoubt` if the
    /// entries may be there. After `Taken` and `InDoubt` the handle takes no append before it has
    /// read on.
    fn append(&mut self, entries: &[Entry]) -> Result<(), AppendFault>
        requires open { IsTrue (is_open self.old) }
        requires some { 0 < length entries.now }
        requires most { length entries.now ≤ max_entries }
        ensures stored { OnOk result (IsTrue (is_clean self.new)
            → known self.new ≡ known self.old ++ entries.now) }
        ensures last { OnOk result (IsTrue (is_clean self.new)
            → Last (may_leave self.new) (known self.old ++ entries.now)) }
        ensures open { OnOk result (IsTrue (is_open self.new)) }
        ensures crash { Last (may_leave self.old) (known self.old) → IsTrue (is_clean self.new)
            → Last (may_leave self.new) (known self.old) }
        ensures refused { OnErr result (IsTrue (is_clean self.new)
            → known self.new ≡ known self.old) }
        ensures taken { IsErrOf result AppendFault.Taken → is_open self.new ≡ false }
        ensures in_doubt { IsErrOf result AppendFault.InDoubt → is_open self.new ≡ false }
        ensures memory { IsErrOf result AppendFault.Memory → self.new ≡ self.old }
        ensures full { IsErrOf result AppendFault.Full → self.new ≡ self.old }
        ensures clean { IsTrue (is_clean self.new) → IsTrue (is_clean self.old) };

    /// Reads the entries after those that this handle knows, and adds them to `into`. The handle
    /// then knows them, and takes appends.
    ///
    /// Fails with `Silent` if the log doesn't answer now, `Device` if it has to be opened again, or
    /// `Memory`. After a failure the handle knows what it knew, and takes appends if it took them.
    fn read_on(&mut self, into: &mut Vec<Entry>) -> Result<(), ReadFault>
        ensures read { OnOk result (IsTrue (is_clean self.new)
            → (more : List EntryView) × (known self.new ≡ known self.old ++ more)
            × (into.new.items ≡ into.old.items ++ more)) }
        ensures open { OnOk result (IsTrue (is_open self.new)) }
        ensures last { OnOk result (IsTrue (is_clean self.new)
            → Last (may_leave self.new) (known self.new)) }
        ensures crash { Last (may_leave self.old) (known self.old) → IsTrue (is_clean self.new)
            → Last (may_leave self.new) (known self.old) }
        ensures refused { OnErr result (IsTrue (is_clean self.new)
            → known self.new ≡ known self.old) }
        ensures standing { OnErr result (is_open self.new ≡ is_open self.old) }
        ensures kept { OnErr result (into.new.items ≡ into.old.items) }
        ensures clean { IsTrue (is_clean self.new) → IsTrue (is_clean self.old) };
}

/// A handle that has what it knows in memory.
pub trait Remembers: Log {
    /// Returns the entries that this handle has read or stored, from the first of the log on.
    fn entries(&self) -> &[Entry]
        ensures { IsTrue (Self.is_clean self.now) → result.now ≡ Self.known self.now };
}
