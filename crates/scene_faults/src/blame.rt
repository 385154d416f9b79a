//! A fault, and where it is.

ghost use Rattle.std.specs.Prelude.{◌≡◌};
ghost use Rattle.scene_faults.specs.Blame as spec;

use proto_flat::ExpandFaultKind;
use route_core::RouteFaultKind;
use scene_core::SceneFaultKind;

/// Why a part of a text is at fault.
#[derive(Clone, Copy)]
pub enum Reason {
    Expand(ExpandFaultKind),
    Scene(SceneFaultKind),
    Route(RouteFaultKind),
    /// A ROUTE has an end that is a rotation.
    Rotation,
}

/// A part of a text that is at fault, by the line on which it begins.
#[derive(Clone, Copy)]
pub struct Blame {
    pub line: u32,
    pub reason: Reason,
}

impl Reason {
    /// Returns the name of a fault, or the type of an end that is a rotation.
    pub fn name(self) -> &'static str
        ensures { result.now ≡ spec.reason_name self }
    {
        match self {
            Reason::Expand(kind) => kind.name(),
            Reason::Scene(kind) => kind.name(),
            Reason::Route(kind) => kind.name(),
            Reason::Rotation => "SFRotation",
        }
    }
}

/// Returns the blame for a fault of a part of a text.
pub(crate) fn of_expand(kind: ExpandFaultKind, line: u32) -> Blame
    ensures { result ≡ spec.of_expand kind line }
{
    Blame {
        line,
        reason: Reason::Expand(kind),
    }
}

/// Returns the blame for a fault of a field or a node.
pub(crate) fn of_scene(kind: SceneFaultKind, line: u32) -> Blame
    ensures { result ≡ spec.of_scene kind line }
{
    Blame {
        line,
        reason: Reason::Scene(kind),
    }
}

fn route_reason(kind: RouteFaultKind, turns: bool) -> Reason
    ensures { result ≡ spec.route_reason kind turns }
{
    if turns {
        return Reason::Rotation;
    }
    Reason::Route(kind)
}

/// Returns the blame for a fault of a ROUTE; `turns` if an end is a rotation.
pub(crate) fn of_route(kind: RouteFaultKind, turns: bool, line: u32) -> Blame
    ensures { result ≡ spec.of_route kind turns line }
{
    Blame {
        line,
        reason: route_reason(kind, turns),
    }
}
