//! What a log has, in lines.

ghost use Rattle.std.specs.Prelude.{◌≡◌, ◌≤◌, ◌++◌, OnOk, decimal};
ghost use Rattle.x3d_values.specs.Ranges.{max_inputs};
ghost use Rattle.app_logs.specs.Info.{base_line, below_of, clock_count, head_text, hex_line};
ghost use Rattle.app_logs.specs.Info.{info_text, is_clock};
ghost use Rattle.app_logs.specs.Info.{is_offer_of, number_line, offer_count, offer_line, offers_text};
ghost use Rattle.app_logs.specs.Info.{sizes_text, time_line, times_text};

use crate::clocks::last_of;
use share_entries::{Base, Entry, Head, Source};
use std::alloc::{AllocError, Global};
use x3d_numerals::push_number;

/// Appends a number in decimal digits.
fn push_decimal(number: u64, out: &mut Vec<u8>) -> Result<(), AllocError>
    ensures { OnOk result (out.new.items ≡ out.old.items ++ decimal number) }
{
    let mut buffer = itoa::Buffer::new();
    out.extend_from_slice(buffer.format(number).as_bytes())
}

/// Appends a line of a name and a number.
fn push_count(name: &str, number: u64, out: &mut Vec<u8>) -> Result<(), AllocError>
    ensures { OnOk result (out.new.items ≡ out.old.items ++ number_line name.now number) }
{
    out.extend_from_slice(name.as_bytes())?;
    push_decimal(number, out)?;
    out.extend_from_slice(b"\n")
}

/// Appends a line of a name and bytes, as hexadecimal digits.
fn push_bytes(alloc: Global, name: &str, bytes: &[u8], out: &mut Vec<u8>) -> Result<(), AllocError>
    ensures { OnOk result (out.new.items ≡ out.old.items ++ hex_line name.now bytes.now) }
{
    let digits = hex::encode(alloc, bytes)?;
    out.extend_from_slice(name.as_bytes())?;
    out.extend_from_slice(digits.as_bytes())?;
    out.extend_from_slice(b"\n")
}

/// Appends a line of a name and a time, in seconds.
fn push_time(name: &str, time: i64, out: &mut Vec<u8>) -> Result<(), AllocError>
    ensures { OnOk result (out.new.items ≡ out.old.items ++ time_line name.now time) }
{
    out.extend_from_slice(name.as_bytes())?;
    push_number(time, out)?;
    out.extend_from_slice(b"\n")
}

/// Appends the times of the first and the last entry, if there is one.
#[tactic(auto, using(crate::proofs::Passed::passed))]
fn push_times(entries: &[Entry], out: &mut Vec<u8>) -> Result<(), AllocError>
    ensures { OnOk result (out.new.items ≡ out.old.items ++ times_text entries.now) }
{
    let [first, ..] = entries else {
        return Ok(());
    };
    push_time("first ", first.time(), out)?;
    push_time("last ", last_of(entries), out)
}

fn is_clock(entry: &Entry) -> bool
    ensures { result ≡ is_clock entry.now }
{
    match entry.source() {
        Source::Clock => true,
        Source::Offer(_) => false,
    }
}

/// Returns how many of the entries are clocks.
fn clock_count(entries: &[Entry]) -> usize
    ensures { result ≡ clock_count entries.now }
{
    entries.iter().filter(|entry| is_clock(entry)).count()
}

fn is_offer_of(who: u8, entry: &Entry) -> bool
    ensures { result ≡ is_offer_of who entry.now }
{
    match entry.source() {
        Source::Clock => false,
        Source::Offer(offer) => offer.pointer().who() == who,
    }
}

/// Returns how many of the entries this viewer has offered.
fn offer_count(who: u8, entries: &[Entry]) -> usize
    ensures { result ≡ offer_count who entries.now }
{
    entries
        .iter()
        .filter(|entry| is_offer_of(who, entry))
        .count()
}

/// Appends the line of a viewer.
fn push_offers(who: u8, entries: &[Entry], out: &mut Vec<u8>) -> Result<(), AllocError>
    ensures { OnOk result (out.new.items ≡ out.old.items ++ offer_line who entries.now) }
{
    out.extend_from_slice(b"viewer ")?;
    push_decimal(u64::from(who), out)?;
    push_count(" ", offer_count(who, entries) as u64, out)
}

/// Appends a line for each of the viewers, in order.
fn push_viewers(viewers: u8, entries: &[Entry], out: &mut Vec<u8>) -> Result<(), AllocError>
    ensures { OnOk result (out.new.items ≡ out.old.items ++ offers_text viewers entries.now) }
{
    for who in 0..viewers {
        push_offers(who, entries, out)?;
    }
    Ok(())
}

/// Appends the lines of a head.
fn push_head(alloc: Global, head: &Head, out: &mut Vec<u8>) -> Result<(), AllocError>
    ensures { OnOk result (out.new.items ≡ out.old.items ++ head_text head.now) }
{
    push_count("viewers ", u64::from(head.viewers), out)?;
    push_bytes(alloc, "scene ", &head.mark, out)?;
    push_bytes(alloc, "run ", &head.run, out)
}

/// Appends the line of a base, if there is one.
fn push_base(base: &Option<Base>, out: &mut Vec<u8>) -> Result<(), AllocError>
    ensures { OnOk result (out.new.items ≡ out.old.items ++ base_line base.now) }
{
    match base {
        Some(base) => push_count("base ", base.number(), out),
        None => Ok(()),
    }
}

/// Returns how many entries a base stands for; 0 if there is none.
pub(crate) fn below_of(base: &Option<Base>) -> u64
    ensures value { result ≡ below_of base.now }
    ensures few { result ≤ max_inputs }
{
    match base {
        Some(base) => base.number(),
        None => 0,
    }
}

/// Appends the lines of the sizes of a file, and of these entries, which are after this many
/// others.
fn push_sizes(
    size: usize,
    cut: u64,
    below: u64,
    entries: &[Entry],
    out: &mut Vec<u8>,
) -> Result<(), AllocError>
    requires { below ≤ max_inputs }
    ensures { OnOk result
        (out.new.items ≡ out.old.items ++ sizes_text size cut below entries.now) }
{
    push_count("bytes ", size as u64, out)?;
    push_count("cut ", cut, out)?;
    push_count("inputs ", below + entries.len() as u64, out)?;
    push_count("clocks ", clock_count(entries) as u64, out)
}

/// Appends the lines on a log: on its head, its base, its file, and these entries, which are the
/// first after the base. On an error, some lines may be appended.
pub(crate) fn push_info(
    alloc: Global,
    size: usize,
    cut: u64,
    head: &Head,
    base: &Option<Base>,
    entries: &[Entry],
    out: &mut Vec<u8>,
) -> Result<(), AllocError>
    ensures { OnOk result
        (out.new.items ≡ out.old.items ++ info_text size cut head.now base.now entries.now) }
{
    push_head(alloc, head, out)?;
    push_base(base, out)?;
    push_sizes(size, cut, below_of(base), entries, out)?;
    push_times(entries, out)?;
    push_viewers(head.viewers, entries, out)
}
