//! The host of a shared world.

ghost use Rattle.std.specs.Prelude.{◌≡◌, nat_eq};
ghost use Rattle.std.specs.Cmp.Lexicographic.{pointwise};
ghost use Rattle.embed_world.specs.Hosts.{is_anothers, is_other};

use crate::lasting::{Lasting, ack_by, clock_by, drop_by, keep_by, packet_by, take_by};
use share_core::Host;
use share_law::{FloorFault, HostFault, HostReply, NumberFault};
use share_turns::{Heard, hear, sender_of};
use share_wire::{Message, Packet, WireFault, decode};
use snapshot_core::scene_mark;
use std::alloc::Global;
use x3d_values::MAX_VIEWERS;

fn is_other(who: u8, sender: Option<u8>) -> bool
    ensures { result ≡ is_other who sender }
{
    match sender {
        Some(sender) => sender != who,
        None => false,
    }
}

fn is_same(mark: &[u8; 32], other: &[u8; 32]) -> bool
    ensures { result ≡ pointwise nat_eq mark.now other.now }
{
    mark == other
}

/// Reports whether a datagram is an offer or an ask, for the scene with this mark, of another
/// viewer than `who`.
fn is_anothers(mark: &[u8; 32], who: u8, read: &Result<Message, WireFault>) -> bool
    ensures { result ≡ is_anothers mark.now who read.now }
{
    match read {
        Ok(message) => {
            if is_same(&message.mark, mark) {
                is_other(who, sender_of(read))
            } else {
                false
            }
        }
        Err(_) => false,
    }
}

/// The host of a scene, with the scene's mark, and what it has heard of its viewers. A host that
/// was resumed shows what its program has stored alone.
#[derive(Drop)]
pub struct EmbeddedHost {
    pub(crate) host: Host,
    pub(crate) heard: Heard,
    /// What its program hasn't stored, if it was resumed from the bytes of a log.
    pub(crate) lasting: Option<Lasting>,
}

impl EmbeddedHost {
    ghost use Rattle.std.specs.Prelude.{◌≡◌, ℕ, List, Some, length};
    ghost use Rattle.std.specs.Option.{option_map};
    ghost use Rattle.embed_world.specs.Hosts as spec;
    ghost use Rattle.embed_world.specs.Hosts.{Clocks, Drops, HostTakes, HostTakesFrom};
    ghost use Rattle.share_wire.specs.Decoding.{decoded};

    /// Returns the host of a scene's text, for 1 to `MAX_VIEWERS` viewers, which are numbered from
    /// 0. `None` for another number of viewers. Does not look at the scene.
    pub fn start(alloc: Global, text: &[u8], viewers: u8) -> Option<EmbeddedHost>
        ensures { result ≡ spec.started text.now viewers }
    {
        if viewers < 1 {
            return None;
        }
        if viewers > MAX_VIEWERS {
            return None;
        }
        Some(EmbeddedHost {
            host: Host::new(alloc, scene_mark(text), viewers),
            heard: Heard::nobody(),
            lasting: None,
        })
    }

    /// Numbers a clock at a time in microseconds and returns its number, as `Host::clock` of
    /// share_core does.
    pub fn clock(&mut self, time: i64) -> Result<u64, NumberFault>
        ensures { Clocks self.old time result self.new }
    {
        clock_by(&mut self.host, &mut self.lasting, time)
    }

    /// Takes a datagram that was decoded.
    fn take_read(&mut self, read: Result<Message, WireFault>) -> Result<HostReply, HostFault>
        ensures { (bytes : List ℕ) → read ≡ decoded bytes
            → HostTakes self.old bytes result self.new }
    {
        hear(
            &mut self.heard,
            &read,
            &self.host.mark(),
            self.host.viewers(),
        );
        take_by(&mut self.host, &mut self.lasting, &read)
    }

    /// Takes the bytes of a datagram, as `Host::take` of share_core does.
    pub fn take(&mut self, bytes: &[u8]) -> Result<HostReply, HostFault>
        ensures { HostTakes self.old bytes.now result self.new }
    {
        self.take_read(decode(bytes))
    }

    /// Takes the bytes of a datagram that came from viewer `who`, like `take`. An offer or an ask
    /// of another viewer is refused as `BadViewer` after `WrongScene`, and nothing changes.
    pub fn take_from(&mut self, who: u8, bytes: &[u8]) -> Result<HostReply, HostFault>
        ensures { HostTakesFrom self.old who bytes.now result self.new }
    {
        let read = decode(bytes);
        if is_anothers(&self.host.mark(), who, &read) {
            return Err(HostFault::BadViewer);
        }
        self.take_read(read)
    }

    /// Returns the datagram of the input with this number, if there is one, as `Host::packet` of
    /// share_core does. A host that was resumed has one only if it is stored.
    pub fn packet(&self, number: u64) -> Option<Packet>
        ensures { option_map (λ p. p.items) result ≡ spec.input_bytes self.now number }
    {
        packet_by(&self.host, &self.lasting, number)
    }

    /// Returns the datagram that says how many offers of viewer `who` are numbered, as `Host::ack`
    /// of share_core does; of a host that was resumed, how many are stored. `None` if there is no
    /// such viewer.
    pub fn ack(&self, who: u8) -> Option<Packet>
        ensures { option_map (λ p. p.items) result ≡ spec.ack_bytes self.now who }
    {
        ack_by(&self.host, &self.lasting, who)
    }

    /// Returns the floor: inputs below it have no datagrams.
    pub fn floor(&self) -> u64
        ensures { result ≡ self.now.host.part.floor }
    {
        self.host.floor()
    }

    /// Returns the datagram that says the floor, as `Host::floor_packet` of share_core does.
    pub fn floor_packet(&self) -> Option<Packet>
        ensures { option_map (λ p. p.items) result ≡ Some (spec.floor_bytes self.now) }
    {
        Some(self.host.floor_packet())
    }

    /// Drops the inputs below `floor` and returns the floor, as `Host::drop_below` of share_core
    /// does; of a host that was resumed, stored inputs alone (`FloorAhead`).
    pub fn drop_below(&mut self, floor: u64) -> Result<u64, FloorFault>
        ensures { Drops self.old floor result self.new }
    {
        drop_by(&mut self.host, &self.lasting, floor)
    }

    /// Returns the highest number that viewer `who` has asked from, or 0 if it hasn't asked: it has
    /// all inputs below that. `None` if there is no such viewer.
    pub fn heard(&self, who: u8) -> Option<u64>
        ensures { result ≡ spec.heard_of self.now who }
    {
        let viewers = self.host.viewers();
        if who >= viewers {
            return None;
        }
        Some(self.heard.asked(who).unwrap_or(0))
    }

    /// Drops the inputs that every viewer that asked has, except the last `count` of them. Drops
    /// nothing if none has asked. A host that was resumed keeps what isn't stored.
    pub fn keep(&mut self, count: u64)
        ensures { self.new ≡ spec.keeping self.old count }
    {
        keep_by(&mut self.host, &self.lasting, &self.heard, count);
    }

    /// Returns the number of inputs that are numbered.
    pub fn count(&self) -> u64
        ensures { result ≡ self.now.host.part.count }
    {
        self.host.len()
    }

    /// Returns the number of viewers.
    pub fn viewers(&self) -> u32
        ensures { result ≡ length self.now.host.part.kept }
    {
        u32::from(self.host.viewers())
    }
}
