//! Makes sure of room on the stack.

/// How many bytes of the stack are touched: more than the deepest scene takes.
const ROOM: usize = 393_216;

/// The distance between touched bytes: no more than a page.
const STEP: usize = 4096;

/// Touches as much of the stack as the deepest scene takes. If the stack can't grow that far, the
/// program ends here, before it reads anything.
///
/// Always returns true. A compiler can't know that, since `number` says which byte is read. The
/// function is not inlined: in its caller, the room would be taken for as long as the caller runs.
#[inline(never)]
pub fn has_room(number: usize) -> bool {
    let mut room = [0u8; ROOM];
    for page in 0..ROOM / STEP {
        room[page * STEP] = 1;
    }
    room[number % ROOM] < 2
}
