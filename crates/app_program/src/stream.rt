//! Reading an input whole, and writing an output whole.

ghost use Rattle.std.specs.Prelude.{◌≡◌, ◌⊎◌, ◌≤◌, ◌*◌, ◌^◌, true, false, length, IfOk, IfErr, OnOk};
ghost use Rattle.std.specs.Io.KnownBytes.{Appends, Consumes, IsAtEnd};
ghost use Rattle.app_program.specs.declared.stream.StreamFault.TheVariants.{Device, Memory};

use crate::counted::{Came, Counted};
use std::alloc::{AllocError, Global};
use std::io::{Read, Write};
use thiserror::Error;

/// The limit of reads of one call. An input without an end fails with `Device`.
pub const MAX_READS: u32 = 1 << 27;

/// How many bytes one read asks for.
const PART: usize = 4096;

/// Why an input is not read, or an output not written.
#[derive(Clone, Copy, Debug, PartialEq, Eq, Error)]
pub enum StreamFault {
    #[error("a device failed, or had no end")]
    Device,
    #[error("memory was refused")]
    Memory,
}

impl From<AllocError> for StreamFault {
    ghost from_gives = { λ _ fault. fault ≡ Memory };

    fn from(_refused: AllocError) -> StreamFault {
        StreamFault::Memory
    }
}

/// Reads to the end, and returns all bytes. An interrupted read is tried again, and counts as a
/// read.
///
/// Fails with `Device` if a read fails or if the end is not reached in `MAX_READS` reads, and with
/// `Memory` if memory is refused.
pub fn read_whole<R: Read>(alloc: Global, reader: &mut R) -> Result<Vec<u8>, StreamFault>
    ensures bytes { IfOk result
        (λ v. Consumes (R.remaining reader.old) (R.remaining reader.new) v.items) }
    ensures end { OnOk result (IsAtEnd (R.remaining reader.new)) }
    // No more bytes than `MAX_READS` reads give.
    ensures few { IfOk result (λ v. length v.items ≤ 2 ^ 27 * 4096) }
{
    let mut counted = Counted::new(reader);
    read_counted(alloc, &mut counted)
}

/// Like `read_whole`, for a reader that counts its reads.
fn read_counted<R: Read>(alloc: Global, reader: &mut Counted<'_, R>) -> Result<Vec<u8>, StreamFault>
    requires unread { reader.old.reads ≡ 0 }
    requires good { reader.old.failed ≡ false }
    requires unended { reader.old.ended ≡ false }
    ensures same_reference { reader.new.reader.ghost_name ≡ reader.old.reader.ghost_name }
    ensures bytes { IfOk result (λ v.
        Consumes (R.remaining reader.old.reader.now) (R.remaining reader.new.reader.now) v.items) }
    ensures end { OnOk result (IsAtEnd (R.remaining reader.new.reader.now)) }
    ensures long { IfOk result (λ v. length v.items ≤ reader.new.reads * 4096) }
    ensures few { reader.new.reads ≤ 2 ^ 27 }
    // The last read reached the end, and none before it failed.
    ensures ended { OnOk result (reader.new.ended ≡ true) }
    ensures good { OnOk result (reader.new.failed ≡ false) }
    // A read failed, or all reads were made and none reached the end.
    ensures device { IfErr result (λ f. f ≡ Device → (reader.new.failed ≡ true)
        ⊎ ((reader.new.reads ≡ 2 ^ 27) × (reader.new.ended ≡ false))) }
{
    read_up_to(alloc, MAX_READS, reader)
}

/// Like `read_counted`, by at most `limit` reads.
fn read_up_to<R: Read>(
    alloc: Global,
    limit: u32,
    reader: &mut Counted<'_, R>,
) -> Result<Vec<u8>, StreamFault>
    requires unread { reader.old.reads ≡ 0 }
    requires good { reader.old.failed ≡ false }
    requires unended { reader.old.ended ≡ false }
    ensures same_reference { reader.new.reader.ghost_name ≡ reader.old.reader.ghost_name }
    ensures bytes { IfOk result (λ v.
        Consumes (R.remaining reader.old.reader.now) (R.remaining reader.new.reader.now) v.items) }
    ensures end { OnOk result (IsAtEnd (R.remaining reader.new.reader.now)) }
    ensures long { IfOk result (λ v. length v.items ≤ reader.new.reads * 4096) }
    ensures few { reader.new.reads ≤ limit }
    ensures ended { OnOk result (reader.new.ended ≡ true) }
    ensures good { OnOk result (reader.new.failed ≡ false) }
    ensures device { IfErr result (λ f. f ≡ Device → (reader.new.failed ≡ true)
        ⊎ ((reader.new.reads ≡ limit) × (reader.new.ended ≡ false))) }
{
    let mut bytes = Vec::new(alloc);
    let mut part = [0u8; PART];
    while reader.reads() < limit {
        match reader.read(&mut part) {
            Came::End => return Ok(bytes),
            Came::Bytes(n) => bytes.extend_from_slice(&part[..n])?,
            Came::Interrupted => {}
            Came::Failed => return Err(StreamFault::Device),
        }
    }
    Err(StreamFault::Device)
}

/// Writes all bytes and flushes the writer. Allocates no memory. Fails with `Device` if the writer
/// fails.
pub fn write_whole<W: Write>(writer: &mut W, bytes: &[u8]) -> Result<(), StreamFault>
    ensures ok { OnOk result (Appends (W.contents writer.old) (W.contents writer.new) bytes.now) }
    ensures device { IfErr result (λ f. f ≡ Device) }
{
    let Ok(()) = writer.write_all(bytes) else {
        return Err(StreamFault::Device);
    };
    match writer.flush() {
        Ok(()) => Ok(()),
        Err(_) => Err(StreamFault::Device),
    }
}
