//! Memory that is used up, except for some bytes.

use std::alloc::{AllocError, Global};

/// The largest block that is tried, in bytes: half of what a process can address.
const LARGEST: usize = 1 << 46;

/// More blocks than are needed to take all memory.
const MOST_BLOCKS: usize = 1 << 17;

/// How many bytes come back while a test prepares; and more blocks than are needed to fill them.
const ROOM: usize = 1 << 22;

const ROOM_BLOCKS: usize = 1 << 14;

/// Blocks up to this size, in bytes, are kept apart by size when they are freed, so each of these
/// sizes is tried.
const LARGEST_SMALL: usize = 2048;

/// The step between the sizes of small blocks, in bytes.
const STEP: usize = 16;

/// The size, in bytes, of a block that is not kept apart when it is freed. The bytes to leave are
/// cut from such a block, so any request that fits in them gets them.
const COVER: usize = 2040;

/// Returns the size to try when no block of `size` bytes is left; 0 ends the search.
fn next_size(size: usize) -> usize {
    if size > LARGEST_SMALL {
        size / 2
    } else {
        size.saturating_sub(STEP)
    }
}

/// Takes all memory, in blocks of at most `largest` bytes. The blocks are never written, so they
/// cost little.
fn fill(alloc: Global, blocks: &mut Vec<Vec<u8>>, largest: usize) -> Result<(), AllocError> {
    let mut size = largest;
    for _ in 0..MOST_BLOCKS {
        if size == 0 {
            break;
        }
        match Vec::with_capacity(alloc, size) {
            Ok(block) => blocks.push(block)?,
            Err(_) => size = next_size(size),
        }
    }
    Ok(())
}

/// Takes all memory, with the room in one block.
fn take_all(blocks: &mut Vec<Vec<u8>>, room: &mut Vec<Vec<u8>>) -> Result<(), AllocError> {
    let alloc = *room.allocator();
    room.push(Vec::with_capacity(alloc, ROOM)?)?;
    fill(alloc, blocks, LARGEST)
}

/// Takes all memory except for `bytes` bytes in one piece.
fn fill_but_for(room: &mut Vec<Vec<u8>>, bytes: usize) -> Result<(), AllocError> {
    let alloc = *room.allocator();
    let piece: Vec<u8> = Vec::with_capacity(alloc, bytes.saturating_add(COVER))?;
    fill(alloc, room, ROOM)?;
    drop(piece);
    room.push(Vec::with_capacity(alloc, COVER)?)?;
    Ok(())
}

/// Memory that a test holds, so that no one else gets any. Dropping it frees the memory.
#[derive(Drop)]
pub struct UsedUp {
    blocks: Vec<Vec<u8>>,
    /// The blocks that are freed while a test prepares.
    room: Vec<Vec<u8>>,
    /// How many bytes are to be left.
    bytes: usize,
    /// Whether that many bytes were left at each call.
    is_exact: bool,
}

impl UsedUp {
    /// Takes all memory. Fails if memory is refused for the lists of blocks.
    pub fn new(alloc: Global) -> Result<UsedUp, AllocError> {
        let mut blocks = Vec::with_capacity(alloc, MOST_BLOCKS)?;
        let mut room = Vec::with_capacity(alloc, ROOM_BLOCKS)?;
        take_all(&mut blocks, &mut room)?;
        Ok(UsedUp {
            blocks,
            room,
            bytes: 0,
            is_exact: true,
        })
    }

    /// Takes all memory except for `bytes` bytes in one piece, a multiple of 16. Each granted
    /// growth is cut from that piece: its size plus 8 bytes, rounded up to a multiple of 16. Fails
    /// if memory is refused for the lists of blocks.
    pub fn but_for(alloc: Global, bytes: usize) -> Result<UsedUp, AllocError> {
        let mut used_up = UsedUp::new(alloc)?;
        used_up.leave(bytes);
        Ok(used_up)
    }

    /// Frees four mebibytes.
    pub fn come_back(&mut self) {
        self.room.clear();
    }

    /// Takes all memory again, except for the bytes to leave.
    pub fn run_short(&mut self) {
        self.come_back();
        self.is_exact &= fill_but_for(&mut self.room, self.bytes).is_ok();
    }

    /// Takes all memory again, except for `bytes` bytes.
    pub(crate) fn leave(&mut self, bytes: usize) {
        self.bytes = bytes;
        self.run_short();
    }

    /// Frees four mebibytes; the next `run_short` leaves `bytes` bytes.
    pub(crate) fn is_to_leave(&mut self, bytes: usize) {
        self.bytes = bytes;
        self.come_back();
    }

    /// Frees all blocks and takes all memory again. The room is then in one piece; over many turns,
    /// small blocks that malloc keeps split it.
    pub(crate) fn take_anew(&mut self) {
        self.room.clear();
        self.blocks.clear();
        self.is_exact = take_all(&mut self.blocks, &mut self.room).is_ok();
    }

    /// Reports whether as much as intended was left each time.
    pub(crate) fn is_exact(&self) -> bool {
        self.is_exact
    }

    /// Returns how many blocks are held.
    pub fn count(&self) -> usize {
        self.blocks.len()
    }
}
