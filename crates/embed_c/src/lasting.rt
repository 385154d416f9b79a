//! A host whose program has its log: it begins with the bytes of stored entries.

ghost use Rattle.std.specs.Prelude.{◌≡◌, None};
ghost use Rattle.std.specs.Result.{result_map_both};
ghost use Rattle.embed_world.specs.Lasting.{Begins};
ghost use Rattle.embed_world.specs.Logs.{Resumes};
ghost use Rattle.embed_world.specs.declared.host.EmbeddedHost.{EmbeddedHost as Embedded};
ghost use Rattle.embed_world.specs.Status.{Asks};
ghost use Rattle.embed_c.specs.LogAnswers.{AnswersAt, Appends, AppendsAt, HostResumes, is_over, left_by};

use embed_handles::HostHandle;
use embed_handles::host_handle::{put, take};
use embed_world::{
    Append, AppendFault, CLOSED, DONE, EmbeddedHost, LogFault, RANGE, answer_of, copy_text,
    status_of_answer, status_of_append, status_of_log, tell_entry,
};
use std::alloc::Global;

/// Frees the host of a handle, if it has one.
fn empty(alloc: Global, handle: &mut HostHandle)
    ensures { handle.new.host ≡ None }
{
    drop(take(handle, alloc));
}

/// Returns a host on the heap that the bytes of a log make.
fn boxed(alloc: Global, text: &[u8], viewers: u8, log: &[u8]) -> Result<Box<EmbeddedHost>, LogFault>
    ensures { Resumes text.now viewers log.now
        (result_map_both (λ b. b.value) (λ fault. fault) result) }
{
    let host = EmbeddedHost::resume(alloc, text, viewers, log)?;
    match Box::new(alloc, host) {
        Ok(host) => Ok(host),
        Err(_refused) => Err(LogFault::Memory),
    }
}

/// Opens the host of a scene's text that the bytes of a log make, in place of the one that the
/// handle had. On a refusal the handle is empty, and `entry` becomes the number of the first wrong
/// entry, if one is wrong.
#[unsafe(no_mangle)]
pub extern "C" fn x3d_host_resume(
    alloc: Global,
    handle: &mut HostHandle,
    text: &[u8],
    viewers: u8,
    log: &[u8],
    entry: &mut u64,
) -> u8
    ensures { HostResumes text.now viewers log.now result handle.new.host entry.old entry.new }
{
    empty(alloc, handle);
    match boxed(alloc, text, viewers, log) {
        Ok(host) => {
            put(handle, alloc, host);
            DONE
        }
        Err(fault) => {
            tell_entry(fault, entry);
            status_of_log(fault)
        }
    }
}

/// Copies the bytes of an append, if there is room for all of them, and writes its token.
fn copy_append(
    answer: Result<Append, AppendFault>,
    token: &mut u32,
    out: &mut [u8],
    wanted: &mut usize,
) -> u8
    ensures { AppendsAt answer token.old token.new result out.old wanted.old wanted.new out.new }
{
    match answer {
        Ok(append) => {
            *token = append.token;
            copy_text(out, append.bytes.as_slice(), wanted)
        }
        Err(fault) => status_of_append(fault),
    }
}

/// Copies the bytes of the append that is under way, and writes its token. If there is none, it
/// first begins one of all entries that wait.
#[unsafe(no_mangle)]
pub extern "C" fn x3d_host_pending(
    alloc: Global,
    handle: &mut HostHandle,
    token: &mut u32,
    out: &mut [u8],
    wanted: &mut usize,
) -> u8
    ensures { Appends Begins handle.old.host result handle.new.host token.old
        token.new out.old wanted.old wanted.new out.new }
{
    let Some(mut host) = take(handle, alloc) else {
        return CLOSED;
    };
    let answer = host.pending(alloc);
    put(handle, alloc, host);
    copy_append(answer, token, out, wanted)
}

fn is_over(answer: &Result<bool, AppendFault>) -> bool
    ensures { result ≡ is_over answer.now }
{
    match answer {
        Ok(goes_on) => !*goes_on,
        Err(_) => false,
    }
}

/// Puts a host back into an empty handle, unless it is over.
fn leave(
    alloc: Global,
    handle: &mut HostHandle,
    host: Box<EmbeddedHost>,
    answer: &Result<bool, AppendFault>,
)
    requires { handle.old.host ≡ None }
    ensures { handle.new.host ≡ left_by answer.now host.value }
{
    if is_over(answer) {
        drop(host);
        return;
    }
    put(handle, alloc, host);
}

/// Takes what the program's log answered to the append with this token: 0 if its entries are
/// stored, 1 if the log has others there, 2 if that is in doubt. After 1 and 2 the handle is empty.
#[unsafe(no_mangle)]
pub extern "C" fn x3d_host_stored(
    alloc: Global,
    handle: &mut HostHandle,
    token: u32,
    answer: u8,
) -> u8
    ensures { AnswersAt token answer handle.old.host result handle.new.host }
{
    let Some(given) = answer_of(answer) else {
        return RANGE;
    };
    let Some(mut host) = take(handle, alloc) else {
        return CLOSED;
    };
    let told = host.answer(token, given);
    leave(alloc, handle, host, &told);
    status_of_answer(told)
}

/// Writes the time of the last input in microseconds, or 0 before the first, to `time`.
#[unsafe(no_mangle)]
pub extern "C" fn x3d_host_time(alloc: Global, handle: &mut HostHandle, time: &mut i64) -> u8
    ensures kept { handle.new.host ≡ handle.old.host }
    ensures time { Asks (λ (h : Embedded). h.host.part.last) handle.old.host result time.old
        time.new }
{
    let Some(host) = take(handle, alloc) else {
        return CLOSED;
    };
    *time = host.time();
    put(handle, alloc, host);
    DONE
}
