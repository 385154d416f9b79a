//! A host that begins with the entries of a log.

ghost use Rattle.std.specs.Prelude.{◌≡◌, ◌≤◌, pos, ◌≤ℤ◌, IfErr, IfOk, OnOk};
ghost use Rattle.share_entries.specs.declared.entry.Source.TheVariants as source;
ghost use Rattle.share_entries.specs.declared.entry.Source.TheVariants.{Clock};
ghost use Rattle.x3d_values.specs.Ranges.{max_viewers};
ghost use Rattle.share_law.specs.Parts.{part_of};
ghost use Rattle.share_turns.specs.Attendance.{none_heard};
ghost use Rattle.laws_hosts.specs.Log.{host_of};
ghost use Rattle.share_logged.specs.Logged.{logged};
ghost use Rattle.share_logged.specs.Making.{IsLogOf};
ghost use Rattle.share_logged.specs.Resuming.{WhyNot};
ghost use Rattle.share_logged.specs.Entries.{IsMadeNot, PartMakes, PartMakesOf, after_clock};
ghost use Rattle.share_logged.specs.Entries.{after_offer};

use crate::fault::ResumeFault;
use crate::hosting::LoggedHost;
use share_core::Host;
use share_entries::{Entry, Source};
use share_law::{HostFault, HostReply, NumberFault};
use share_turns::Attendance;
use share_wire::{Body, Message, Offer};
use std::alloc::Global;

/// Goes on if the clock of an entry was numbered.
fn after_clock(answer: Result<u64, NumberFault>, number: u64) -> Result<(), ResumeFault>
    ensures { result ≡ after_clock number answer }
{
    match answer {
        Ok(_) => Ok(()),
        Err(NumberFault::Memory) => Err(ResumeFault::Memory),
        Err(_) => Err(ResumeFault::NotALog(number)),
    }
}

/// Goes on if the offer of an entry was numbered.
fn after_offer(answer: Result<HostReply, HostFault>, number: u64) -> Result<(), ResumeFault>
    ensures { result ≡ after_offer number answer }
{
    match answer {
        Ok(HostReply::Numbered(_)) => Ok(()),
        Err(HostFault::Number(NumberFault::Memory)) => Err(ResumeFault::Memory),
        _ => Err(ResumeFault::NotALog(number)),
    }
}

fn make_clock(host: &mut Host, time: i64, number: u64) -> Result<(), ResumeFault>
    ensures mark { host.new.mark ≡ host.old.mark }
    ensures made { OnOk result (PartMakesOf host.old.part time Clock host.new.part) }
    ensures refused { IfErr result (λ fault. IsMadeNot host.old.part time Clock number fault) }
{
    after_clock(host.clock(time), number)
}

fn make_offer(
    host: &mut Host,
    last: i64,
    time: i64,
    offer: Offer,
    number: u64,
) -> Result<(), ResumeFault>
    requires last { last ≡ host.old.part.last }
    requires from { pos 0 ≤ℤ last }
    ensures mark { host.new.mark ≡ host.old.mark }
    ensures made { OnOk result (PartMakesOf host.old.part time (source.Offer offer) host.new.part) }
    ensures refused { IfErr result
        (λ fault. IsMadeNot host.old.part time (source.Offer offer) number fault) }
{
    if time < 1 || time - 1 != last {
        return Err(ResumeFault::NotALog(number));
    }
    let message = Message {
        mark: host.mark(),
        body: Body::Offer(offer),
    };
    after_offer(host.take_message(message), number)
}

/// Numbers the input of an entry, after one at time `last`.
pub(crate) fn make(
    host: &mut Host,
    last: i64,
    entry: &Entry,
    number: u64,
) -> Result<(), ResumeFault>
    requires last { last ≡ host.old.part.last }
    requires from { pos 0 ≤ℤ last }
    ensures mark { host.new.mark ≡ host.old.mark }
    ensures made { OnOk result (PartMakes host.old.part entry.now host.new.part) }
    ensures refused { IfErr result
        (λ fault. IsMadeNot host.old.part entry.now.time entry.now.source number fault) }
{
    match entry.source() {
        Source::Clock => make_clock(host, entry.time(), number),
        Source::Offer(offer) => make_offer(host, last, entry.time(), offer, number),
    }
}

/// Creates the host of a scene with this mark that the entries of a log make, for 1 to
/// `MAX_VIEWERS` viewers, numbered from 0. It is the host that numbered them, with all its inputs,
/// and has heard of no viewer.
///
/// Fails with `NotALog` and the number of the first entry that no host of these viewers wrote
/// there, or with `Memory`.
pub fn resume(
    alloc: Global,
    mark: [u8; 32],
    viewers: u8,
    entries: &[Entry],
) -> Result<LoggedHost, ResumeFault>
    requires some { 1 ≤ viewers }
    requires most { viewers ≤ max_viewers }
    ensures host { IfOk result (λ h. h ≡ record {
      mark = mark;
      part = part_of (host_of viewers (logged entries.now) 1);
      attendance = none_heard;
    }) }
    ensures log { OnOk result (IsLogOf viewers entries.now) }
    ensures why { IfErr result (λ fault. WhyNot viewers entries.now fault) }
{
    let mut host = Host::new(alloc, mark, viewers);
    let mut last = 0;
    for entry in entries {
        let number = host.len() + 1;
        make(&mut host, last, entry, number)?;
        last = entry.time();
    }
    Ok(LoggedHost {
        host,
        attendance: Attendance::new(),
        last,
        rested: 0,
    })
}
