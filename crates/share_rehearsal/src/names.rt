//! The names of faults in a log.

ghost use Rattle.std.specs.Prelude.{◌≡◌};
ghost use Rattle.share_rehearsal.specs.Names as spec;

use share_law::{
    FloorFault, GatherFault, HostFault, JoinFault, NumberFault, OfferFault, SaveFault, SnapFault,
    TakeFault,
};

pub(crate) fn number_name(fault: NumberFault) -> &'static str
    ensures { result.now ≡ spec.number_name fault }
{
    match fault {
        NumberFault::WorldFull => "WorldFull",
        NumberFault::TimeNotLater => "TimeNotLater",
        NumberFault::TimeRange => "TimeRange",
        NumberFault::Memory => "Memory",
    }
}

pub(crate) fn host_name(fault: HostFault) -> &'static str
    ensures { result.now ≡ spec.host_name fault }
{
    match fault {
        HostFault::Wire(fault) => fault.name(),
        HostFault::WrongScene => "WrongScene",
        HostFault::BadViewer => "BadViewer",
        HostFault::Number(fault) => number_name(fault),
    }
}

pub(crate) fn take_name(fault: TakeFault) -> &'static str
    ensures { result.now ≡ spec.take_name fault }
{
    match fault {
        TakeFault::Spoiled => "Spoiled",
        TakeFault::Wire(fault) => fault.name(),
        TakeFault::WrongScene => "WrongScene",
        TakeFault::NotForMe => "NotForMe",
        TakeFault::TimeNotLater => "TimeNotLater",
        TakeFault::Memory => "Memory",
    }
}

pub(crate) fn offer_name(fault: OfferFault) -> &'static str
    ensures { result.now ≡ spec.offer_name fault }
{
    match fault {
        OfferFault::Spoiled => "Spoiled",
        OfferFault::ZeroRay => "ZeroRay",
        OfferFault::PointRange => "PointRange",
        OfferFault::OfferFull => "OfferFull",
        OfferFault::OffersSpent => "OffersSpent",
    }
}

pub(crate) fn save_name(fault: SaveFault) -> &'static str
    ensures { result.now ≡ spec.save_name fault }
{
    match fault {
        SaveFault::Spoiled => "Spoiled",
        SaveFault::Memory => "Memory",
    }
}

pub(crate) fn snap_name(fault: SnapFault) -> &'static str
    ensures { result.now ≡ spec.snap_name fault }
{
    match fault {
        SnapFault::Short => "Short",
        SnapFault::BadMagic => "BadMagic",
        SnapFault::BadVersion => "BadVersion",
        SnapFault::WrongScene => "WrongScene",
        SnapFault::BadDigest => "BadDigest",
        SnapFault::NotCanonical => "NotCanonical",
        SnapFault::BootNotNew => "BootNotNew",
        SnapFault::ScriptState => "ScriptState",
        SnapFault::Memory => "Memory",
    }
}

pub(crate) fn floor_name(fault: FloorFault) -> &'static str
    ensures { result.now ≡ spec.floor_name fault }
{
    match fault {
        FloorFault::FloorBack => "FloorBack",
        FloorFault::FloorAhead => "FloorAhead",
    }
}

pub(crate) fn gather_name(fault: GatherFault) -> &'static str
    ensures { result.now ≡ spec.gather_name fault }
{
    match fault {
        GatherFault::Wire(fault) => fault.name(),
        GatherFault::WrongScene => "WrongScene",
        GatherFault::NotPiece => "NotPiece",
        GatherFault::Memory => "Memory",
    }
}

pub(crate) fn join_name(fault: JoinFault) -> &'static str
    ensures { result.now ≡ spec.join_name fault }
{
    match fault {
        JoinFault::NotWhole => "NotWhole",
        JoinFault::Snap(fault) => snap_name(fault),
    }
}
