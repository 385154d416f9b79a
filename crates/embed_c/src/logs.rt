//! A log in a file: made or opened, read, and appended to.

ghost use Rattle.std.specs.Prelude.{◌≡◌, None, length};
ghost use Rattle.std.specs.Result.{result_map_both};
ghost use Rattle.sha2.specs.Sha256.{sha256};
ghost use Rattle.embed_logs.specs.Files as files;
ghost use Rattle.embed_logs.specs.LogFaults.{status_of_log_file};
ghost use Rattle.embed_logs.specs.declared.files.LogFile.{LogFile as Embedded};
ghost use Rattle.embed_world.specs.PeerStatus.{status_by};
ghost use Rattle.embed_world.specs.Status.{Asks, Calls, Copies};
ghost use Rattle.embed_c.specs.FileAnswers.{LogMakes, LogOpens, LogReads, ReadsLog, expected_of, opened_as, seats_of};

use embed_handles::LogHandle;
use embed_handles::log_handle::{put, take};
use embed_logs::{
    LogFile, LogFileFault, OpenedFile, make_file, open_file, status_of_log_file, tell_frame,
};
use embed_world::{CLOSED, DONE, MEMORY, copy_text};
use snapshot_core::scene_mark;
use std::alloc::Global;

/// Closes the log of a handle, if it has one.
fn empty(alloc: Global, handle: &mut LogHandle)
    ensures { handle.new.log ≡ None }
{
    drop(take(handle, alloc));
}

/// Makes a log on the heap.
fn made(alloc: Global, path: &[u8], text: &[u8], viewers: u8) -> Result<Box<LogFile>, LogFileFault>
    ensures { files.MakesFile (sha256 text.now) viewers
        (result_map_both (λ b. b.value) (λ fault. fault) result) }
{
    let file = make_file(alloc, path, scene_mark(text), viewers)?;
    match Box::new(alloc, file) {
        Ok(file) => Ok(file),
        Err(_refused) => Err(LogFileFault::Memory),
    }
}

/// Makes a log of a scene's text, for 1 to 64 viewers, in the file of this name, in place of the
/// one that the handle had. On a refusal the handle is empty.
#[unsafe(no_mangle)]
pub extern "C" fn x3d_log_make(
    alloc: Global,
    handle: &mut LogHandle,
    path: &[u8],
    text: &[u8],
    viewers: u8,
) -> u8
    ensures { LogMakes text.now viewers result handle.new.log }
{
    empty(alloc, handle);
    match made(alloc, path, text, viewers) {
        Ok(file) => {
            put(handle, alloc, file);
            DONE
        }
        Err(fault) => status_of_log_file(fault),
    }
}

/// Returns the number of viewers that a log is to have: any for 0.
fn seats_of(viewers: u8) -> Option<u8>
    ensures { result ≡ seats_of viewers }
{
    if viewers == 0 { None } else { Some(viewers) }
}

/// Opens a log, and puts it on the heap; returns how many bytes were cut, too.
fn opened(
    alloc: Global,
    path: &[u8],
    text: &[u8],
    viewers: u8,
) -> Result<(Box<LogFile>, u64), LogFileFault>
    ensures { files.OpensFile (expected_of text.now viewers)
        (result_map_both (λ p. opened_as p.0.value p.1) (λ fault. fault) result) }
{
    let opened = open_file(alloc, path, scene_mark(text), seats_of(viewers))?;
    let OpenedFile { file, cut } = opened;
    match Box::new(alloc, file) {
        Ok(file) => Ok((file, cut)),
        Err(_refused) => Err(LogFileFault::Memory),
    }
}

/// Opens the log of a scene's text in the file of this name, of this number of viewers or of any if
/// that is 0, in place of the one that the handle had. Writes to `place` how many bytes were cut.
/// On a refusal the handle is empty, and `place` becomes the number of the damaged frame, if one
/// is.
#[unsafe(no_mangle)]
pub extern "C" fn x3d_log_open(
    alloc: Global,
    handle: &mut LogHandle,
    path: &[u8],
    text: &[u8],
    viewers: u8,
    place: &mut u64,
) -> u8
    ensures { LogOpens text.now viewers result handle.new.log place.old place.new }
{
    empty(alloc, handle);
    match opened(alloc, path, text, viewers) {
        Ok((file, cut)) => {
            put(handle, alloc, file);
            *place = cut;
            DONE
        }
        Err(fault) => {
            tell_frame(fault, place);
            status_of_log_file(fault)
        }
    }
}

/// Closes the log. Does nothing if there is none.
#[unsafe(no_mangle)]
pub extern "C" fn x3d_log_close(alloc: Global, handle: &mut LogHandle)
    ensures { handle.new.log ≡ None }
{
    empty(alloc, handle);
}

fn status_of_append(answer: Result<(), LogFileFault>) -> u8
    ensures { result ≡ status_by status_of_log_file answer }
{
    match answer {
        Ok(()) => DONE,
        Err(fault) => status_of_log_file(fault),
    }
}

/// Appends the bytes of entries, as `x3d_host_pending` copies them.
#[unsafe(no_mangle)]
pub extern "C" fn x3d_log_append(alloc: Global, handle: &mut LogHandle, bytes: &[u8]) -> u8
    ensures { Calls (λ (f : Embedded). files.Appends bytes.now f) (status_by status_of_log_file)
        handle.old.log result handle.new.log }
{
    let Some(mut file) = take(handle, alloc) else {
        return CLOSED;
    };
    let answer = file.append(alloc, bytes);
    put(handle, alloc, file);
    status_of_append(answer)
}

/// Copies the bytes of a log if `out` has room for them, and writes their number to `wanted`.
fn copy_log(alloc: Global, file: &LogFile, out: &mut [u8], wanted: &mut usize) -> u8
    ensures { LogReads file.now result out.old wanted.old wanted.new out.new }
{
    match file.text(alloc) {
        Ok(text) => copy_text(out, &text, wanted),
        Err(_refused) => MEMORY,
    }
}

/// Copies the bytes of all entries, as `x3d_host_resume` takes them, if `out` has room for them,
/// and writes their number to `wanted`.
#[unsafe(no_mangle)]
pub extern "C" fn x3d_log_read(
    alloc: Global,
    handle: &mut LogHandle,
    out: &mut [u8],
    wanted: &mut usize,
) -> u8
    ensures kept { handle.new.log ≡ handle.old.log }
    ensures text { ReadsLog handle.old.log result out.old wanted.old wanted.new out.new }
{
    let Some(file) = take(handle, alloc) else {
        return CLOSED;
    };
    let status = copy_log(alloc, &file, out, wanted);
    put(handle, alloc, file);
    status
}

/// Writes the number of entries.
#[unsafe(no_mangle)]
pub extern "C" fn x3d_log_count(alloc: Global, handle: &mut LogHandle, count: &mut u64) -> u8
    ensures kept { handle.new.log ≡ handle.old.log }
    ensures count { Asks (λ (f : Embedded). length f.log.entries.items) handle.old.log result
        count.old count.new }
{
    let Some(file) = take(handle, alloc) else {
        return CLOSED;
    };
    *count = file.count();
    put(handle, alloc, file);
    DONE
}

/// Writes the number of viewers.
#[unsafe(no_mangle)]
pub extern "C" fn x3d_log_viewers(alloc: Global, handle: &mut LogHandle, count: &mut u32) -> u8
    ensures kept { handle.new.log ≡ handle.old.log }
    ensures count { Asks (λ (f : Embedded). f.log.head.viewers) handle.old.log result
        count.old count.new }
{
    let Some(file) = take(handle, alloc) else {
        return CLOSED;
    };
    *count = u32::from(file.viewers());
    put(handle, alloc, file);
    DONE
}

/// Copies what names the log, 16 bytes, if `out` has room for them, and writes their number to
/// `wanted`.
#[unsafe(no_mangle)]
pub extern "C" fn x3d_log_copy_run(
    alloc: Global,
    handle: &mut LogHandle,
    out: &mut [u8],
    wanted: &mut usize,
) -> u8
    ensures kept { handle.new.log ≡ handle.old.log }
    ensures run { Copies (λ (f : Embedded). f.log.head.run) handle.old.log result out.old
        wanted.old wanted.new out.new }
{
    let Some(file) = take(handle, alloc) else {
        return CLOSED;
    };
    let run = file.run();
    put(handle, alloc, file);
    copy_text(out, &run, wanted)
}
