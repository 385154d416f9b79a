//! What a datagram says, for a program that carries it.

ghost use Rattle.std.specs.Prelude.{◌≡◌};
ghost use Rattle.embed_world.specs.Datagrams as spec;
ghost use Rattle.embed_world.specs.PeerStatus.{status_by, status_of_wire};
ghost use Rattle.share_wire.specs.Decoding.{decoded};

use crate::aim::Aim;
use crate::peer_status::status_of_wire;
use crate::status::DONE;
use share_wire::{Body, decode};
use x3d_values::{Cause, Pointer, Ray};

/// The number for no viewer.
const NO_VIEWER: u8 = u8::MAX;

/// What a datagram says. `who` is the viewer that offers, asks, is acknowledged or pointed, or 255.
/// `point` is 0 without a pointer, 1 with its button up and 2 with its button down.
#[derive(Clone, Copy)]
#[repr(C)]
pub struct DatagramAs {
    pub tag: u8,
    pub who: u8,
    pub point: u8,
    pub boot: u32,
    pub number: u64,
    pub time: i64,
    pub aim: Aim,
}

/// Returns the ray of a pointer as C has it.
fn aim_of(ray: Ray) -> Aim
    ensures { result ≡ spec.aim_of ray }
{
    let origin = ray.origin();
    let dir = ray.dir();
    Aim {
        origin_x: origin.x,
        origin_y: origin.y,
        origin_z: origin.z,
        direction_x: dir.x,
        direction_y: dir.y,
        direction_z: dir.z,
    }
}

/// Returns the number that says whether a button is down.
fn point_number(down: bool) -> u8
    ensures { result ≡ spec.point_number down }
{
    if down { 2 } else { 1 }
}

/// Returns a datagram without a pointer.
fn plain(tag: u8, who: u8, boot: u32, number: u64, time: i64) -> DatagramAs
    ensures { result ≡ spec.plain tag who boot number time }
{
    DatagramAs {
        tag,
        who,
        point: 0,
        boot,
        number,
        time,
        aim: Aim {
            origin_x: 0,
            origin_y: 0,
            origin_z: 0,
            direction_x: 0,
            direction_y: 0,
            direction_z: 0,
        },
    }
}

/// Returns a datagram with a pointer.
fn pointed(tag: u8, boot: u32, number: u64, time: i64, pointer: Pointer) -> DatagramAs
    ensures { result ≡ spec.pointed tag boot number time pointer }
{
    DatagramAs {
        tag,
        who: pointer.who(),
        point: point_number(pointer.is_down()),
        boot,
        number,
        time,
        aim: aim_of(pointer.ray()),
    }
}

/// Returns the datagram of an input.
fn input_as(number: u64, time: i64, cause: Cause) -> DatagramAs
    ensures { result ≡ spec.input_as number time cause }
{
    match cause {
        Cause::Clock => plain(1, NO_VIEWER, 0, number, time),
        Cause::Pointer(pointer) => pointed(1, 0, number, time, pointer),
    }
}

fn datagram_as(body: Body) -> DatagramAs
    ensures { result ≡ spec.datagram_as body }
{
    match body {
        Body::Input(input) => input_as(input.number(), input.time(), input.cause()),
        Body::Offer(offer) => pointed(
            2,
            offer.boot(),
            u64::from(offer.number()),
            0,
            offer.pointer(),
        ),
        Body::Ask(ask) => plain(3, ask.who(), 0, ask.next(), 0),
        Body::Ack(ack) => plain(4, ack.who(), ack.boot(), u64::from(ack.count()), 0),
        Body::Floor(floor) => plain(5, NO_VIEWER, 0, floor.number(), 0),
        Body::Piece(piece) => plain(6, NO_VIEWER, piece.boot(), piece.applied(), 0),
    }
}

/// Writes what a datagram says to `told`, and returns the status. The scene's mark is not looked
/// at.
pub fn read_datagram(bytes: &[u8], told: &mut DatagramAs) -> u8
    ensures status { result ≡ status_by status_of_wire (decoded bytes.now) }
    ensures told { told.new ≡ spec.read_by told.old (decoded bytes.now) }
{
    match decode(bytes) {
        Ok(message) => {
            *told = datagram_as(message.body);
            DONE
        }
        Err(fault) => status_of_wire(fault),
    }
}
