//! What each viewer holds at the end of a rehearsal.

ghost use Rattle.std.specs.Prelude.{◌≡◌, ◌++◌, ◌∷◌, [], codes, decimal, is_ok, OnOk, false};
ghost use Rattle.cascade_core.specs.Texts.{texts};
ghost use Rattle.share_core.specs.Viewer.{IfRunning, is_spoiled};
ghost use Rattle.share_rehearsal.specs.Log.{ending_text, endings_from};

use crate::log::{push_number, push_word};
use cascade_core::TextFault;
use script_host::Behaviour;
use share_core::Viewer;
use std::alloc::AllocError;

/// Turns the result of writing a text into one that can only fail for memory.
fn written(text: Result<(), TextFault>) -> Result<(), AllocError>
    ensures { is_ok result ≡ is_ok text }
{
    match text {
        Ok(()) => Ok(()),
        Err(_fault) => Err(AllocError),
    }
}

fn push_spoiled(number: usize, out: &mut Vec<u8>) -> Result<(), AllocError>
    ensures { OnOk result (out.new.items
        ≡ out.old.items ++ codes "viewer " ++ decimal number ++ codes " spoiled" ++ 10 ∷ []) }
{
    push_number("viewer ", number, out)?;
    push_word(" spoiled\n", out)
}

fn push_place(number: usize, applied: u64, out: &mut Vec<u8>) -> Result<(), AllocError>
    ensures { OnOk result (out.new.items
        ≡ out.old.items ++ codes "viewer " ++ decimal number ++ codes " at " ++ decimal applied) }
{
    push_number("viewer ", number, out)?;
    push_number(" at ", applied as usize, out)
}

fn push_boot(boot: u32, out: &mut Vec<u8>) -> Result<(), AllocError>
    ensures { OnOk result (out.new.items
        ≡ out.old.items ++ codes " boot " ++ decimal boot ++ 10 ∷ []) }
{
    push_number(" boot ", boot as usize, out)?;
    push_word("\n", out)
}

/// Appends the trace and the scene of a running viewer, or nothing on an error.
fn push_texts<B: Behaviour>(viewer: &Viewer<B>, out: &mut Vec<u8>) -> Result<(), AllocError>
    ensures { IfRunning viewer.now.state.view (λ w. OnOk result (out.new.items
        ≡ out.old.items ++ texts viewer.now.scene viewer.now.routes w)) }
{
    written(viewer.texts(out))
}

/// Appends a line about a running viewer, then its trace and its scene.
fn push_running<B: Behaviour>(
    number: usize,
    viewer: &Viewer<B>,
    out: &mut Vec<u8>,
) -> Result<(), AllocError>
    requires { is_spoiled viewer.now.state.view ≡ false }
    ensures { OnOk result (out.new.items ≡ out.old.items ++ ending_text number viewer.now) }
{
    push_place(number, viewer.applied(), out)?;
    push_boot(viewer.boot(), out)?;
    push_texts(viewer, out)
}

/// Appends what a viewer holds at the end. On an error, part of it may be appended.
fn push_ending<B: Behaviour>(
    number: usize,
    viewer: &Viewer<B>,
    out: &mut Vec<u8>,
) -> Result<(), AllocError>
    ensures { OnOk result (out.new.items ≡ out.old.items ++ ending_text number viewer.now) }
{
    if viewer.spoiled() {
        return push_spoiled(number, out);
    }
    push_running(number, viewer, out)
}

/// Appends what each viewer holds at the end, in turn.
pub(crate) fn push_endings<B: Behaviour>(
    viewers: &[Viewer<B>],
    out: &mut Vec<u8>,
) -> Result<(), AllocError>
    ensures { OnOk result (out.new.items ≡ out.old.items ++ endings_from 0 viewers.now) }
{
    for (number, viewer) in viewers.iter().enumerate() {
        push_ending(number, viewer, out)?;
    }
    Ok(())
}
