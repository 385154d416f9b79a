//! The end of a file: the bytes from the gate after the frames on.

ghost use Rattle.std.specs.Prelude.{◌≡◌, ◌⊎◌, ◌+◌, ◌*◌, IfOk, IsTrue, not, ◌==◌, is_ok, true, false};
ghost use Rattle.share_entries.specs.declared.frame.FrameFault.TheVariants.{Memory};
ghost use Rattle.share_entries.specs.Frame.{frame_in};
ghost use Rattle.share_file.specs.Contents.{begins_shut, is_next, hides_frame};

use share_entries::{Chain, FrameFault, frame_of};
use std::alloc::{AllocError, Global};

/// Reports whether the gate is there and shut.
pub(crate) fn begins_shut(tail: &[u8]) -> bool
    ensures { result ≡ begins_shut tail.now }
{
    match tail {
        [] => false,
        [gate, ..] => *gate != 1,
    }
}

/// Reports whether the bytes are the next frame of a log.
fn is_frame(alloc: Global, chain: &Chain, first: u64, bytes: &[u8]) -> Result<bool, AllocError>
    ensures { IfOk result (λ is. is ≡ is_ok (frame_in chain.now first bytes.now)) }
{
    match frame_of(alloc, chain, first, bytes) {
        Ok(entries) => {
            drop(entries);
            Ok(true)
        }
        Err(FrameFault::Memory) => Err(AllocError),
        Err(_) => Ok(false),
    }
}

fn is_next(
    alloc: Global,
    chain: &Chain,
    first: u64,
    n: usize,
    behind: &[u8],
) -> Result<bool, AllocError>
    ensures { IfOk result (λ is. is ≡ is_next chain.now first n behind.now) }
{
    if n >= behind.len() || behind[n] != 1 {
        return Ok(false);
    }
    is_frame(alloc, chain, first, &behind[..n])
}

/// Reports whether a frame, which is the next of the log, is after the gate, and an open gate after
/// it. Fails if memory is refused.
pub(crate) fn hides_frame(
    alloc: Global,
    chain: &Chain,
    first: u64,
    tail: &[u8],
) -> Result<bool, AllocError>
    ensures { IfOk result (λ hides. hides ≡ hides_frame chain.now first tail.now) }
{
    match tail {
        [_, high, low, behind @ ..] => {
            let n = 256 * *high as usize + *low as usize;
            is_next(alloc, chain, first, n, behind)
        }
        _ => Ok(false),
    }
}
