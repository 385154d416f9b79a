//! Which part of a text is left out for a fault.

ghost use Rattle.std.specs.Prelude.{◌≡◌, ◌∷◌, [], not, IfOk};
ghost use Rattle.std.specs.List.{list_any};
ghost use Rattle.app_part.specs.Mends as spec;

use app_jobs::JobFault;
use classic_text::ReadFaultKind;
use proto_flat::ExpandFaultKind;
use route_core::RouteFaultKind;
use scene_core::SceneFaultKind;
use scene_faults::{Blame, Reason};
use std::alloc::{AllocError, Global};
use x3d_values::Items;

fn of_expand(kind: ExpandFaultKind) -> bool
    ensures { result ≡ spec.of_expand kind }
{
    !matches!(kind, ExpandFaultKind::TooLarge | ExpandFaultKind::Memory)
}

fn of_scene(kind: SceneFaultKind) -> bool
    ensures { result ≡ spec.of_scene kind }
{
    !matches!(
        kind,
        SceneFaultKind::TooDeep | SceneFaultKind::TooMany | SceneFaultKind::Memory
    )
}

fn of_route(kind: RouteFaultKind) -> bool
    ensures { result ≡ spec.of_route kind }
{
    !matches!(kind, RouteFaultKind::TooMany | RouteFaultKind::Memory)
}

fn blame_if(is_blamed: bool, line: u32, reason: Reason) -> Option<Blame>
    ensures { result ≡ spec.blame_if is_blamed line reason }
{
    if is_blamed {
        return Some(Blame { line, reason });
    }
    None
}

/// Returns the part that is at fault, or `None` for a limit, for memory, or for a fault of reading.
fn blame_of(fault: &JobFault) -> Option<Blame>
    ensures { result ≡ spec.blame_of fault.now }
{
    match fault {
        JobFault::Expand(fault) => blame_if(
            of_expand(fault.kind),
            fault.line,
            Reason::Expand(fault.kind),
        ),
        JobFault::Scene(fault) => blame_if(
            of_scene(fault.kind),
            fault.line,
            Reason::Scene(fault.kind),
        ),
        JobFault::Route(fault) => blame_if(
            of_route(fault.kind),
            fault.line,
            Reason::Route(fault.kind),
        ),
        _ => None,
    }
}

/// Reports whether what begins at a place was left out before.
fn is_gone(refused: &[u32], at: u32) -> bool
    ensures { result ≡ spec.is_gone refused.now at }
{
    refused.iter().any(|other| *other == at)
}

fn is_any_left(refused: &[u32], blames: &[Blame]) -> bool
    ensures { result ≡ list_any (λ b. not (spec.is_gone refused.now (spec.place b))) blames.now }
{
    blames.iter().any(|blame| !is_gone(refused, blame.line))
}

/// Returns one blame as a list.
fn only(alloc: Global, blame: Blame) -> Result<Items<Blame>, AllocError>
    ensures { IfOk result (λ list. list ≡ blame ∷ []) }
{
    Items::from_slice(alloc, &[blame])
}

/// Returns what goes of a part that has this first fault, besides what begins at these
/// places, if anything is: what a node or a route alone tells, or else what the first fault is of.
/// Fails if memory runs out.
pub(crate) fn mends(
    alloc: Global,
    refused: &[u32],
    fault: &JobFault,
    blames: Items<Blame>,
) -> Result<Option<Items<Blame>>, AllocError>
    ensures { IfOk result (λ r. r ≡ spec.mends refused.now fault.now blames) }
{
    let Some(first) = blame_of(fault) else {
        drop(blames);
        return Ok(None);
    };
    if is_any_left(refused, blames.as_slice()) {
        return Ok(Some(blames));
    }
    drop(blames);
    if is_gone(refused, first.line) {
        return Ok(None);
    }
    Ok(Some(only(alloc, first)?))
}

fn is_unsupported(fault: &JobFault) -> bool
    ensures { result ≡ spec.is_unsupported fault.now }
{
    match fault {
        JobFault::Read(fault) => fault.kind == ReadFaultKind::Unsupported,
        _ => false,
    }
}

/// Reports whether a part is refused for such a fault: a limit, memory, a device, or a fault of the
/// characters or the grammar of a text.
pub(crate) fn is_limit(fault: &JobFault) -> bool
    ensures { result ≡ spec.is_limit fault.now }
{
    blame_of(fault).is_none() && !is_unsupported(fault)
}
