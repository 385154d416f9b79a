//! Checks whether boxes are those that a world's scripts ask for.

ghost use Rattle.std.specs.Prelude.{◌≡◌, ◌↔◌, length, map, IsTrue, IfErr, IfOk, IsOkUnless, OnOk, MatchOption, Some, None};
ghost use Rattle.script_host.specs.Attaching.{KnownBelow, Meets, IsMismatch, Fits, Refuses};
ghost use Rattle.script_host.specs.Hosting.{fresh_record};
ghost use Rattle.script_host.specs.declared.fault.AttachFault.TheVariants.{Memory};

use crate::fault::AttachFault;
use script_slots::{Behaviour, are_as_many, first_unknown, starts_in};
use std::alloc::{AllocError, Global};
use x3d_values::{Kind, ScriptSpec};

/// Checks that the boxes are those that a world's scripts ask for. Otherwise returns the first
/// fault, or `Memory` if memory runs out.
pub fn check<B: Behaviour>(
    alloc: Global,
    specs: &[ScriptSpec],
    boxes: &[B],
) -> Result<(), AttachFault>
    ensures fits { OnOk result
        (Fits specs.now (map (fresh_record B.kind_of B.numbers) boxes.now)) }
    ensures takes { Fits specs.now (map (fresh_record B.kind_of B.numbers) boxes.now)
        → IsOkUnless result Memory }
    ensures refused { IfErr result (λ fault.
        Refuses fault specs.now (map (fresh_record B.kind_of B.numbers) boxes.now)) }
{
    if let Some(k) = first_unknown(specs) {
        return Err(AttachFault::UnknownScript(k));
    }
    if !are_as_many(specs, boxes.len()) {
        return Err(AttachFault::WrongCount);
    }
    if let Some(fault) = first_mismatch(alloc, specs, boxes)? {
        return Err(fault);
    }
    Ok(())
}

fn is_of_kind(spec: &ScriptSpec, kind: Kind) -> bool
    ensures { IsTrue result ↔ (spec.now.kind ≡ Some kind) }
{
    spec.kind == Some(kind)
}

/// Returns why the box at place `k` isn't what its script asks for, or `None` if it is. `state` is
/// scratch space.
fn mismatch<B: Behaviour>(
    k: usize,
    spec: &ScriptSpec,
    script: &B,
    state: &mut Vec<i64>,
) -> Result<Option<AttachFault>, AllocError>
    ensures { IfOk result (λ answer. MatchOption answer
        (Meets spec.now (fresh_record B.kind_of B.numbers script.now))
        (λ fault. IsMismatch fault k spec.now (fresh_record B.kind_of B.numbers script.now))) }
{
    if !is_of_kind(spec, script.kind()) {
        return Ok(Some(AttachFault::KindDiffers(k)));
    }
    if !spec.fits {
        return Ok(Some(AttachFault::InterfaceMismatch(k)));
    }
    state.clear();
    script.state(state)?;
    if starts_in(spec, state.as_slice()) {
        Ok(None)
    } else {
        Ok(Some(AttachFault::StartMismatch(k)))
    }
}

/// Returns the fault of the first box that isn't what its script asks for, if there is one.
fn first_mismatch<B: Behaviour>(
    alloc: Global,
    specs: &[ScriptSpec],
    scripts: &[B],
) -> Result<Option<AttachFault>, AllocError>
    requires count { length specs.now ≡ length scripts.now }
    requires known { KnownBelow specs.now (length specs.now) }
    ensures { IfOk result (λ answer. MatchOption answer
        (Fits specs.now (map (fresh_record B.kind_of B.numbers) scripts.now))
        (λ fault. Refuses fault specs.now (map (fresh_record B.kind_of B.numbers) scripts.now))) }
{
    let mut state = Vec::new(alloc);
    for (k, spec) in specs.iter().enumerate() {
        if let Some(fault) = mismatch(k, spec, &scripts[k], &mut state)? {
            return Ok(Some(fault));
        }
    }
    Ok(None)
}
