//! Boxes for the scripts that a scene asks for.

ghost use Rattle.std.specs.Prelude.{◌≡◌, ◌⊎◌, ◌++◌, List, [], IfOk, IfErr, None, OnOk, Some, map};
ghost use Rattle.std.specs.List.{cons_option};
ghost use Rattle.script_host.specs.Attaching.{Fits};
ghost use Rattle.script_host.specs.declared.fault.AttachFault.TheVariants.{Memory};
ghost use Rattle.script_boxes.specs.Boxes.{made, made_for, made_of, stock_for, stock_kind, stock_state, zeros};
ghost use Rattle.script_boxes.specs.Refused.{scripts_fault};
ghost use Rattle.script_boxes.specs.declared.stock.StockScript.{StockScript as Stocked};

use crate::adder::Adder;
use crate::batch::Batch;
use crate::counter::Counter;
use crate::gate::Gate;
use crate::meter::Meter;
use crate::mover::Mover;
use crate::stock::StockScript;
use script_host::{AttachFault, Behaviour, Scripts, StateFault};
use std::alloc::{AllocError, Global};
use x3d_values::{Kind, ScriptSpec, Vec3};

const ORIGIN: Vec3 = Vec3 { x: 0, y: 0, z: 0 };

/// Creates a script of the kind whose start state isn't given: all its numbers are 0, and a meter
/// has no readings. Fails only for a meter, if memory runs out.
pub fn blank_box(alloc: Global, kind: Kind) -> Result<StockScript, AllocError>
    ensures kind { IfOk result (λ script. stock_kind script ≡ kind) }
    ensures zeros { IfOk result (λ script. stock_state script ≡ zeros kind) }
{
    match kind {
        Kind::Counter => Ok(StockScript::Counter(Counter::new(0, 0))),
        Kind::Gate => Ok(StockScript::Gate(Gate::new(false))),
        Kind::Adder => Ok(StockScript::Adder(Adder::new())),
        Kind::Batch => Ok(StockScript::Batch(Batch::new())),
        Kind::Mover => Ok(StockScript::Mover(Mover::new(ORIGIN, ORIGIN))),
        Kind::Meter => Ok(StockScript::Meter(Meter::new(alloc)?)),
    }
}

/// Creates a script of the kind in state `start`, or with zeros if `start` isn't a state of the
/// kind.
fn started(alloc: Global, kind: Kind, start: &[i64]) -> Result<StockScript, AllocError>
    ensures { IfOk result (λ script. made_of script ≡ made kind start.now) }
{
    let mut script = blank_box(alloc, kind)?;
    match script.restore(start) {
        Ok(()) => Ok(script),
        Err(StateFault::StateLength) => Ok(script),
        Err(StateFault::StateRange) => Ok(script),
        Err(StateFault::Memory) => Err(AllocError),
    }
}

/// Appends the box of a script if its kind is known.
fn push_box(
    alloc: Global,
    spec: &ScriptSpec,
    boxes: &mut Vec<StockScript>,
) -> Result<(), AllocError>
    ensures { OnOk result (map made_of boxes.new.items
        ≡ map made_of boxes.old.items ++ cons_option (made_for spec.now) []) }
{
    let Some(kind) = spec.kind else {
        return Ok(());
    };
    boxes.push(started(alloc, kind, spec.start.as_slice())?)?;
    Ok(())
}

/// Creates a box for each script whose kind is known, in the script's start state. If that isn't a
/// state of its kind, the box has zeros. Fails if memory runs out.
pub fn boxes_of(alloc: Global, specs: &[ScriptSpec]) -> Result<Vec<StockScript>, AllocError>
    ensures { IfOk result (λ boxes. map made_of boxes.items ≡ stock_for specs.now) }
{
    let mut boxes = Vec::new(alloc);
    for spec in specs {
        push_box(alloc, spec, &mut boxes)?;
    }
    Ok(boxes)
}

/// Creates the scripts that are asked for, in boxes of the stock. None of them is initialized.
/// Fails with `Memory` if memory runs out, otherwise with `UnknownScript` for the first script of
/// an unknown kind. If all kinds are known, the first script that doesn't fit its kind is reported:
/// with `InterfaceMismatch` if its interface isn't that of its kind, or with `StartMismatch` if its
/// start state isn't a state of its kind.
pub fn attach_stock(
    alloc: Global,
    specs: &[ScriptSpec],
) -> Result<Scripts<StockScript>, AttachFault>
    ensures fits { IfOk result (λ scripts. Fits specs.now scripts) }
    ensures stock { IfOk result
        (λ scripts. (boxes : List Stocked) × (scripts ≡ map made_of boxes)) }
    ensures taken { OnOk result (scripts_fault specs.now ≡ None) }
    ensures refused { IfErr result
        (λ fault. (fault ≡ Memory) ⊎ (scripts_fault specs.now ≡ Some fault)) }
{
    let boxes = boxes_of(alloc, specs)?;
    Scripts::attach(alloc, specs, boxes)
}
