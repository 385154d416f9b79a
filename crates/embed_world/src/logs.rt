//! A host that begins with the bytes of a log.

ghost use Rattle.std.specs.Prelude.{◌≡◌, ◌≤◌, ℕ, IfErr, IfOk};
ghost use Rattle.x3d_values.specs.Ranges.{max_viewers};
ghost use Rattle.share_logged.specs.declared.fault.ResumeFault.TheVariants as given;
ghost use Rattle.embed_entries.specs.Appends.{IsLogText, lines_from};
ghost use Rattle.embed_world.specs.Logs as spec;
ghost use Rattle.embed_world.specs.declared.log_fault.LogFault.TheVariants as why;

use crate::host::EmbeddedHost;
use crate::log_fault::LogFault;
use embed_entries::{EntriesFault, after_front, entries_from};
use share_entries::Entry;
use share_logged::ResumeFault;
use share_pending::{Resumed, begin};
use share_turns::Heard;
use snapshot_core::scene_mark;
use std::alloc::Global;
use x3d_values::MAX_VIEWERS;

fn fault_of_entries(fault: EntriesFault) -> LogFault
    ensures { result ≡ spec.fault_of_entries fault }
{
    match fault {
        EntriesFault::Gap(number) => LogFault::Gap(number),
        EntriesFault::NotAnEntry(number) => LogFault::NotALog(number),
        EntriesFault::Memory => LogFault::Memory,
    }
}

/// Reads all of the bytes as entries after their numbers, from 1 on.
fn lines_of(alloc: Global, bytes: &[u8]) -> Result<Vec<Entry>, LogFault>
    ensures read { IfOk result (λ v. bytes.now ≡ lines_from 1 v.items) }
    ensures why { IfErr result (λ fault. spec.WhyNoLines bytes.now fault) }
{
    match entries_from(alloc, 1, bytes) {
        Ok(entries) => Ok(entries),
        Err(fault) => Err(fault_of_entries(fault)),
    }
}

/// Reads the bytes of a log of the scene with this mark.
fn entries_of(alloc: Global, mark: &[u8; 32], bytes: &[u8]) -> Result<Vec<Entry>, LogFault>
    ensures read { IfOk result (λ v. IsLogText mark.now bytes.now v.items) }
    ensures why { IfErr result (λ fault. spec.WhyUnread mark.now bytes.now fault) }
{
    if bytes.is_empty() {
        return Ok(Vec::new(alloc));
    }
    let Some(lines) = after_front(bytes, mark) else {
        return Err(LogFault::WrongScene);
    };
    lines_of(alloc, lines)
}

fn fault_of(fault: ResumeFault) -> LogFault
    ensures number { (n : ℕ) → fault ≡ given.NotALog n → result ≡ why.NotALog n }
    ensures memory { fault ≡ given.Memory → result ≡ why.Memory }
{
    match fault {
        ResumeFault::NotALog(number) => LogFault::NotALog(number),
        ResumeFault::Memory => LogFault::Memory,
    }
}

/// Returns a host that begins with its log's entries.
fn host_of(resumed: Resumed) -> EmbeddedHost
    ensures { result ≡ spec.lasting_host resumed.host resumed.waiting }
{
    let Resumed { host, waiting } = resumed;
    EmbeddedHost {
        host,
        heard: Heard::nobody(),
        lasting: Some(waiting),
    }
}

/// Returns the host of the scene with this mark that the bytes of a log make.
fn host_with(
    alloc: Global,
    mark: [u8; 32],
    viewers: u8,
    bytes: &[u8],
) -> Result<EmbeddedHost, LogFault>
    requires some { 1 ≤ viewers }
    requires most { viewers ≤ max_viewers }
    ensures host { IfOk result (λ h. spec.IsResumed mark viewers bytes.now h) }
    ensures why { IfErr result (λ fault. spec.WhyNoHost mark viewers bytes.now fault) }
{
    let entries = entries_of(alloc, &mark, bytes)?;
    match begin(alloc, mark, viewers, &entries) {
        Ok(resumed) => Ok(host_of(resumed)),
        Err(fault) => Err(fault_of(fault)),
    }
}

impl EmbeddedHost {
    ghost use Rattle.embed_world.specs.Logs.{Resumes};

    /// Returns the host of a scene's text that the bytes of a log make, for 1 to `MAX_VIEWERS`
    /// viewers. A log without bytes makes a host without inputs. Does not look at the scene.
    pub fn resume(
        alloc: Global,
        text: &[u8],
        viewers: u8,
        bytes: &[u8],
    ) -> Result<EmbeddedHost, LogFault>
        ensures { Resumes text.now viewers bytes.now result }
    {
        if viewers < 1 {
            return Err(LogFault::Viewers);
        }
        if viewers > MAX_VIEWERS {
            return Err(LogFault::Viewers);
        }
        host_with(alloc, scene_mark(text), viewers, bytes)
    }
}
