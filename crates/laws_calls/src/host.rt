//! The calls on a host.

ghost use Rattle.std.specs.Prelude.{◌≡◌, ◌≤◌, ◌<◌, Ok, Some, length};
ghost use Rattle.std.specs.Option.{option_map};
ghost use Rattle.x3d_values.specs.Ranges.{max_viewers};
ghost use Rattle.share_wire.specs.Decoding.{decoded};
ghost use Rattle.share_law.specs.declared.step.Step.TheVariants.{HostAck, HostClock, HostDropBelow};
ghost use Rattle.share_law.specs.declared.step.Step.TheVariants.{HostFloorPacket, HostPacket};
ghost use Rattle.share_law.specs.declared.step.Step.TheVariants.{HostTake};
ghost use Rattle.share_law.specs.Network.{Clocked, Dropped, HostTook};
ghost use Rattle.laws_calls.specs.Begins.{host_before};
ghost use Rattle.laws_calls.specs.Moves.{HostMoves, HostMovesBy, HostSends};

use share_core::Host;
use share_law::{FloorFault, HostFault, HostReply, NumberFault, steps_law};
use share_wire::{Message, Packet};
use std::alloc::Global;

/// Creates a host, like `Host::new`.
pub fn new_host(alloc: Global, mark: [u8; 32], viewers: u8) -> Host
    requires some { 1 ≤ viewers }
    requires most { viewers ≤ max_viewers }
    ensures { result ≡ host_before mark viewers }
{
    Host::new(alloc, mark, viewers)
}

/// Numbers a clock input, like `Host::clock`.
pub fn host_clock(host: &mut Host, time: i64) -> Result<u64, NumberFault>
    ensures { HostMoves host.old host.new (HostClock time) (Clocked result) }
{
    steps_law();
    host.clock(time)
}

/// Takes the bytes of a packet, like `Host::take`.
pub fn host_take(host: &mut Host, bytes: &[u8]) -> Result<HostReply, HostFault>
    ensures { HostMovesBy host.old host.new (decoded bytes.now) (λ p. HostTake p)
        (HostTook result) }
{
    steps_law();
    host.take(bytes)
}

/// Takes a decoded message, like `Host::take_message`.
pub fn host_take_message(host: &mut Host, message: Message) -> Result<HostReply, HostFault>
    ensures { HostMovesBy host.old host.new (Ok message) (λ p. HostTake p) (HostTook result) }
{
    steps_law();
    host.take_message(message)
}

/// Drops the inputs below a number, like `Host::drop_below`.
pub fn host_drop_below(host: &mut Host, floor: u64) -> Result<u64, FloorFault>
    ensures { HostMoves host.old host.new (HostDropBelow floor) (Dropped result) }
{
    steps_law();
    host.drop_below(floor)
}

/// Returns the packet of an input, like `Host::packet`.
pub fn host_packet(host: &Host, number: u64) -> Option<Packet>
    ensures { HostSends host.now (HostPacket number) (option_map (λ p. p.items) result) }
{
    steps_law();
    host.packet(number)
}

/// Returns the packet of an ack, like `Host::ack`.
pub fn host_ack(host: &Host, who: u8) -> Packet
    requires { who < length host.now.part.kept }
    ensures { HostSends host.now (HostAck who) (Some result.items) }
{
    steps_law();
    host.ack(who)
}

/// Returns the packet of the floor, like `Host::floor_packet`.
pub fn host_floor_packet(host: &Host) -> Packet
    ensures { HostSends host.now HostFloorPacket (Some result.items) }
{
    steps_law();
    host.floor_packet()
}
