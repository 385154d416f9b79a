//! A host that takes the entries that other hosts have stored.

ghost use Rattle.std.specs.Prelude.{◌≡◌, ◌++◌, ◌≤ℤ◌, pos, ℕ, List, IfErr, IfOk, OnOk};
ghost use Rattle.share_entries.specs.Entry.{EntryView};
ghost use Rattle.share_logged.specs.Following.{PartsMake, StopsAt};
ghost use Rattle.share_logged.specs.Making.{IsOfLog};

use crate::beginning::make;
use crate::fault::ResumeFault;
use crate::hosting::LoggedHost;
use share_core::Host;
use share_entries::Entry;

/// Numbers the inputs of entries, after one at time `last`. Returns the time of the last of them,
/// or `last` if there is none.
fn make_all(host: &mut Host, last: i64, entries: &[Entry]) -> Result<i64, ResumeFault>
    requires last { last ≡ host.old.part.last }
    requires from { pos 0 ≤ℤ last }
    ensures mark { host.new.mark ≡ host.old.mark }
    ensures made { OnOk result (PartsMake host.old.part entries.now host.new.part) }
    ensures last { IfOk result (λ time. time ≡ host.new.part.last) }
    ensures from { IfOk result (λ time. pos 0 ≤ℤ time) }
    ensures why { IfErr result (λ fault. StopsAt host.old.part entries.now fault) }
{
    let mut newest = last;
    for entry in entries {
        let number = host.len() + 1;
        make(host, newest, entry, number)?;
        newest = entry.time();
    }
    Ok(newest)
}

/// Takes entries that other hosts have stored, after those that the log had. The host then is the
/// one that the log's entries make, with these.
///
/// Fails with `NotALog` and the number of the first entry that no host of this world wrote there,
/// or with `Memory`; the host is then dropped.
pub fn follow(hosting: LoggedHost, entries: &[Entry]) -> Result<LoggedHost, ResumeFault>
    ensures mark { IfOk result (λ h. h.mark ≡ hosting.mark) }
    ensures attendance { IfOk result (λ h. h.attendance ≡ hosting.attendance) }
    ensures made { IfOk result (λ h. PartsMake hosting.part entries.now h.part) }
    ensures log { IfOk result (λ h. (viewers : ℕ) (known : List EntryView)
        → IsOfLog viewers known hosting.part → IsOfLog viewers (known ++ entries.now) h.part) }
    ensures why { IfErr result (λ fault. StopsAt hosting.part entries.now fault) }
{
    let LoggedHost {
        mut host,
        attendance,
        last,
        rested,
    } = hosting;
    let newest = make_all(&mut host, last, entries)?;
    Ok(LoggedHost {
        host,
        attendance,
        last: newest,
        rested,
    })
}
