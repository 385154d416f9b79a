//! What is returned of an answer, besides its status.

ghost use Rattle.std.specs.Prelude.{◌≡◌};
ghost use Rattle.embed_world.specs.Status as answers;
ghost use Rattle.embed_world.specs.Status.{IsFound, IsHeard};
ghost use Rattle.embed_world.specs.PeerStatus as spec;

use crate::found::write_found;
use crate::peer_status::{
    status_of_gather, status_of_host, status_of_join, status_of_number, status_of_offer,
    status_of_take,
};
use crate::status::{DONE, NO_SUCH_FIELD, RANGE, status_of_snap};
use share_law::{
    GatherFault, Gathered, HostFault, HostReply, JoinFault, NumberFault, OfferFault, TakeFault,
    Taken,
};
use snapshot_core::SnapFault;

/// What a host did with a datagram: it asks for `count` inputs from `number` on (kind 0), the offer
/// is input `number` (1), a repeat (2), ahead (3), of an old boot (4), it asks for inputs below the
/// floor `number` (5), or there is nothing to do (6).
#[derive(Clone, Copy)]
#[repr(C)]
pub struct ReplyAs {
    pub number: u64,
    pub count: u64,
    pub kind: u32,
}

/// What a viewer did with a datagram: the input is old (kind 0), beyond the window (1) or kept (2),
/// `count` inputs were applied (3), an ack or floor was noted (4), or the viewer is below the
/// floor (5).
#[derive(Clone, Copy)]
#[repr(C)]
pub struct TakenAs {
    pub count: u64,
    pub kind: u32,
}

/// Returns a reply with this kind and these numbers.
fn plain_reply(kind: u32, number: u64, count: u64) -> ReplyAs
    ensures { result ≡ record { kind = kind; number = number; count = count } }
{
    ReplyAs {
        number,
        count,
        kind,
    }
}

fn reply_as(reply: HostReply) -> ReplyAs
    ensures { result ≡ spec.reply_as reply }
{
    match reply {
        HostReply::Asked { first, count } => plain_reply(0, first, count),
        HostReply::Numbered(number) => plain_reply(1, number, 0),
        HostReply::Repeat => plain_reply(2, 0, 0),
        HostReply::Ahead => plain_reply(3, 0, 0),
        HostReply::OldBoot => plain_reply(4, 0, 0),
        HostReply::Below(number) => plain_reply(5, number, 0),
        HostReply::NothingToDo => plain_reply(6, 0, 0),
    }
}

fn plain_taken(kind: u32, count: u64) -> TakenAs
    ensures { result ≡ record { kind = kind; count = count } }
{
    TakenAs { count, kind }
}

fn taken_as(taken: Taken) -> TakenAs
    ensures { result ≡ spec.taken_as taken }
{
    match taken {
        Taken::Old => plain_taken(0, 0),
        Taken::Beyond => plain_taken(1, 0),
        Taken::Held => plain_taken(2, 0),
        Taken::Applied(count) => plain_taken(3, count),
        Taken::Noted => plain_taken(4, 0),
        Taken::Behind => plain_taken(5, 0),
    }
}

fn gathered_as(gathered: Gathered) -> u32
    ensures { result ≡ spec.gathered_as gathered }
{
    match gathered {
        Gathered::New => 0,
        Gathered::Again => 1,
        Gathered::Whole => 2,
        Gathered::Other => 3,
    }
}

/// Writes what a host did with a datagram to `told`, and returns the status.
pub fn tell_reply(answer: Result<HostReply, HostFault>, told: &mut ReplyAs) -> u8
    ensures status { result ≡ spec.status_by spec.status_of_host answer }
    ensures told { told.new ≡ spec.replied told.old answer }
{
    match answer {
        Ok(reply) => {
            *told = reply_as(reply);
            DONE
        }
        Err(fault) => status_of_host(fault),
    }
}

/// Writes what a viewer did with a datagram to `told`, and returns the status.
pub fn tell_taken(answer: Result<Taken, TakeFault>, told: &mut TakenAs) -> u8
    ensures status { result ≡ spec.status_by spec.status_of_take answer }
    ensures told { told.new ≡ spec.taken_by told.old answer }
{
    match answer {
        Ok(taken) => {
            *told = taken_as(taken);
            DONE
        }
        Err(fault) => status_of_take(fault),
    }
}

/// Writes what a viewer did with a piece to `told`, and returns the status.
pub fn tell_gathered(answer: Result<Gathered, GatherFault>, told: &mut u32) -> u8
    ensures status { result ≡ spec.status_by spec.status_of_gather answer }
    ensures told { told.new ≡ spec.gathered_by told.old answer }
{
    match answer {
        Ok(gathered) => {
            *told = gathered_as(gathered);
            DONE
        }
        Err(fault) => status_of_gather(fault),
    }
}

/// Writes the number of an input to `told`, and returns the status.
pub fn tell_number(answer: Result<u64, NumberFault>, told: &mut u64) -> u8
    ensures status { result ≡ spec.status_by spec.status_of_number answer }
    ensures told { told.new ≡ spec.number_by told.old answer }
{
    match answer {
        Ok(number) => {
            *told = number;
            DONE
        }
        Err(fault) => status_of_number(fault),
    }
}

/// Writes the number of an offer to `told`, and returns the status.
pub fn tell_offer(answer: Result<u32, OfferFault>, told: &mut u32) -> u8
    ensures status { result ≡ spec.status_by spec.status_of_offer answer }
    ensures told { told.new ≡ spec.number_by told.old answer }
{
    match answer {
        Ok(number) => {
            *told = number;
            DONE
        }
        Err(fault) => status_of_offer(fault),
    }
}

/// Writes the number of a field, if there is one, to `told`, and returns the status.
pub fn tell_field(found: Option<u16>, told: &mut u16) -> u8
    ensures { IsFound found told.old result told.new }
{
    write_found(found, NO_SUCH_FIELD, told)
}

/// Writes the number that a viewer asked from, if there is such a viewer, to `told`, and returns
/// the status.
pub fn tell_heard(found: Option<u64>, told: &mut u64) -> u8
    ensures { IsHeard found told.old result told.new }
{
    write_found(found, RANGE, told)
}

/// Writes how many inputs the world of a snapshot has had to `told`, and returns the status.
pub fn tell_rewound(answer: Result<u64, SnapFault>, told: &mut u64) -> u8
    ensures status { result ≡ spec.status_by answers.status_of_snap answer }
    ensures told { told.new ≡ spec.number_by told.old answer }
{
    match answer {
        Ok(applied) => {
            *told = applied;
            DONE
        }
        Err(fault) => status_of_snap(fault),
    }
}

/// Writes how many inputs the world of the gathered snapshot has had to `told`, and returns the
/// status.
pub fn tell_joined(answer: Result<u64, JoinFault>, told: &mut u64) -> u8
    ensures status { result ≡ spec.status_by spec.status_of_join answer }
    ensures told { told.new ≡ spec.number_by told.old answer }
{
    match answer {
        Ok(applied) => {
            *told = applied;
            DONE
        }
        Err(fault) => status_of_join(fault),
    }
}
