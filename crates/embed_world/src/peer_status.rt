//! The numbers that C sees for what hosts and viewers answer.

ghost use Rattle.std.specs.Prelude.{◌≡◌, length};
ghost use Rattle.embed_world.specs.PeerStatus as spec;

use crate::status::{
    BAD_VERSION, DONE, MEMORY, SPOILED, TIME_NOT_LATER, WRONG_SCENE, status_of_snap,
};
use share_law::{
    FloorFault, GatherFault, HostFault, JoinFault, NumberFault, OfferFault, TakeFault,
};
use share_wire::WireFault;

/// There is no such datagram.
pub const NO_PACKET: u8 = 25;

const BAD_PACKET: u8 = 40;

const BAD_TAG: u8 = 41;

const BAD_RANGE: u8 = 42;

const ZERO_RAY: u8 = 43;

const BAD_VIEWER: u8 = 44;

const WORLD_FULL: u8 = 45;

const TIME_RANGE: u8 = 46;

const FLOOR_BACK: u8 = 47;

const FLOOR_AHEAD: u8 = 48;

const NOT_FOR_ME: u8 = 50;

const POINT_RANGE: u8 = 51;

const OFFER_FULL: u8 = 52;

const OFFERS_SPENT: u8 = 53;

const NOT_PIECE: u8 = 54;

const NOT_WHOLE: u8 = 55;

const TOO_LARGE: u8 = 56;

/// The number of bytes of the longest snapshot that has pieces.
const MAX_SIZE: usize = 1 << 26;

/// The number for why bytes are not a datagram.
pub fn status_of_wire(fault: WireFault) -> u8
    ensures { result ≡ spec.status_of_wire fault }
{
    match fault {
        WireFault::BadPacket => BAD_PACKET,
        WireFault::BadVersion => BAD_VERSION,
        WireFault::BadTag => BAD_TAG,
        WireFault::BadRange => BAD_RANGE,
        WireFault::ZeroRay => ZERO_RAY,
    }
}

/// The number for why no input was numbered.
pub fn status_of_number(fault: NumberFault) -> u8
    ensures { result ≡ spec.status_of_number fault }
{
    match fault {
        NumberFault::WorldFull => WORLD_FULL,
        NumberFault::TimeNotLater => TIME_NOT_LATER,
        NumberFault::TimeRange => TIME_RANGE,
        NumberFault::Memory => MEMORY,
    }
}

/// The number for why a host did not take a datagram.
pub fn status_of_host(fault: HostFault) -> u8
    ensures { result ≡ spec.status_of_host fault }
{
    match fault {
        HostFault::Wire(fault) => status_of_wire(fault),
        HostFault::WrongScene => WRONG_SCENE,
        HostFault::BadViewer => BAD_VIEWER,
        HostFault::Number(fault) => status_of_number(fault),
    }
}

/// The number for whether inputs were dropped, or why not.
pub fn status_of_floor(answer: Result<u64, FloorFault>) -> u8
    ensures { result ≡ spec.status_of_floor answer }
{
    match answer {
        Ok(_floor) => 0,
        Err(FloorFault::FloorBack) => FLOOR_BACK,
        Err(FloorFault::FloorAhead) => FLOOR_AHEAD,
    }
}

/// The number for why a viewer did not take a datagram.
pub fn status_of_take(fault: TakeFault) -> u8
    ensures { result ≡ spec.status_of_take fault }
{
    match fault {
        TakeFault::Spoiled => SPOILED,
        TakeFault::Wire(fault) => status_of_wire(fault),
        TakeFault::WrongScene => WRONG_SCENE,
        TakeFault::NotForMe => NOT_FOR_ME,
        TakeFault::TimeNotLater => TIME_NOT_LATER,
        TakeFault::Memory => MEMORY,
    }
}

/// The number for why a viewer did not offer a point.
pub fn status_of_offer(fault: OfferFault) -> u8
    ensures { result ≡ spec.status_of_offer fault }
{
    match fault {
        OfferFault::Spoiled => SPOILED,
        OfferFault::ZeroRay => ZERO_RAY,
        OfferFault::PointRange => POINT_RANGE,
        OfferFault::OfferFull => OFFER_FULL,
        OfferFault::OffersSpent => OFFERS_SPENT,
    }
}

/// The number for why a viewer did not gather a piece.
pub fn status_of_gather(fault: GatherFault) -> u8
    ensures { result ≡ spec.status_of_gather fault }
{
    match fault {
        GatherFault::Wire(fault) => status_of_wire(fault),
        GatherFault::WrongScene => WRONG_SCENE,
        GatherFault::NotPiece => NOT_PIECE,
        GatherFault::Memory => MEMORY,
    }
}

/// The number for why a viewer did not begin again in the snapshot that it gathered.
pub fn status_of_join(fault: JoinFault) -> u8
    ensures { result ≡ spec.status_of_join fault }
{
    match fault {
        JoinFault::NotWhole => NOT_WHOLE,
        JoinFault::Snap(fault) => status_of_snap(fault),
    }
}

/// The number for whether a snapshot of these bytes is too large for pieces.
pub fn status_of_size(bytes: &[u8]) -> u8
    ensures { result ≡ spec.status_of_size (length bytes.now) }
{
    if bytes.len() > MAX_SIZE {
        TOO_LARGE
    } else {
        DONE
    }
}
