//! The lines of a schedule: one step of a network each.

ghost use Rattle.std.specs.Prelude.{◌≡◌};
ghost use Rattle.std.specs.Str.{bytes_eq};
ghost use Rattle.app_jobs.specs.Schedule as spec;

use crate::point::{last_vector, vector_of};
use crate::word::{number, number_below};
use share_law::Step;
use share_rules::cut_word;
use x3d_numerals::millionths;
use x3d_values::Point;

/// Returns the step of `T` after `clock `: a numeral of seconds, as a time in microseconds.
#[tactic(auto, using(crate::proofs::Passed::passed), unfolding(crate::specs::Schedule::clock_step))]
fn clock_step(text: &[u8]) -> Option<Step>
    ensures { result ≡ spec.clock_step text.now }
{
    match millionths(text) {
        Ok(time) => Some(Step::HostClock { time }),
        Err(_) => None,
    }
}

/// Returns the step of `P host` or `P V` after `give `.
#[tactic(auto, unfolding(crate::specs::Schedule::give_step))]
fn give_step(text: &[u8]) -> Option<Step>
    ensures { result ≡ spec.give_step text.now }
{
    let (packet, who) = cut_word(text);
    let Some(packet) = number(packet) else {
        return None;
    };
    if who == b"host".as_slice() {
        return Some(Step::HostTake { packet });
    }
    match number(who) {
        Some(viewer) => Some(Step::ViewerTake { viewer, packet }),
        None => None,
    }
}

/// Returns the two numbers of a text.
#[tactic(auto, unfolding(crate::specs::Schedule::two_numbers))]
fn two_numbers(text: &[u8]) -> Option<(u32, u32)>
    ensures { result ≡ spec.two_numbers text.now }
{
    let (first, second) = cut_word(text);
    let Some(first) = number(first) else {
        return None;
    };
    match number(second) {
        Some(second) => Some((first, second)),
        None => None,
    }
}

/// Returns the step of `V S B` after `rewind `.
#[tactic(auto, unfolding(crate::specs::Schedule::rewind_step))]
fn rewind_step(text: &[u8]) -> Option<Step>
    ensures { result ≡ spec.rewind_step text.now }
{
    let (viewer, rest) = cut_word(text);
    let (snapshot, boot) = cut_word(rest);
    let Some(viewer) = number(viewer) else {
        return None;
    };
    let Some(snapshot) = number(snapshot) else {
        return None;
    };
    match number(boot) {
        Some(boot) => Some(Step::ViewerRewind {
            viewer,
            snapshot,
            boot,
        }),
        None => None,
    }
}

/// Returns the point of `D ox oy oz dx dy dz`. Any numerals make a point.
#[tactic(auto, unfolding(crate::specs::Schedule::read_point))]
fn read_point(text: &[u8]) -> Option<Point>
    ensures { result ≡ spec.read_point text.now }
{
    let (down, rest) = cut_word(text);
    let (x, rest) = cut_word(rest);
    let (y, rest) = cut_word(rest);
    let (z, rest) = cut_word(rest);
    let Some(down) = number_below(2, down) else {
        return None;
    };
    let Some(origin) = vector_of(x, y, z) else {
        return None;
    };
    let Some(dir) = last_vector(rest) else {
        return None;
    };
    Some(Point {
        down: down == 1,
        origin,
        dir,
    })
}

/// Returns the step of `V D ox oy oz dx dy dz` after `offer `.
#[tactic(auto, unfolding(crate::specs::Schedule::offer_step))]
fn offer_step(text: &[u8]) -> Option<Step>
    ensures { result ≡ spec.offer_step text.now }
{
    let (viewer, rest) = cut_word(text);
    let Some(viewer) = number(viewer) else {
        return None;
    };
    match read_point(rest) {
        Some(point) => Some(Step::ViewerOffer { viewer, point }),
        None => None,
    }
}

/// Reports whether a name is this word.
fn is(name: &[u8], word: &[u8]) -> bool
    ensures { result ≡ bytes_eq name.now word.now }
{
    name == word
}

/// Returns the step of a name and the words after it, if it is a step of the host or of a packet.
#[tactic(auto, unfolding(crate::specs::Schedule::host_step))]
fn host_step(name: &[u8], text: &[u8]) -> Option<Step>
    ensures { result ≡ spec.host_step name.now text.now }
{
    if is(name, b"clock") {
        clock_step(text)
    } else if is(name, b"packet") {
        number(text).map(|input| Step::HostPacket {
            input: input as u64,
        })
    } else if is(name, b"ack") {
        number(text).map(|viewer| Step::HostAck { viewer })
    } else if is(name, b"give") {
        give_step(text)
    } else if is(name, b"floor") {
        number(text).map(|floor| Step::HostDropBelow {
            floor: floor as u64,
        })
    } else {
        None
    }
}

/// Returns the step of a name and the words after it, if it is a step of a viewer.
#[tactic(auto, unfolding(crate::specs::Schedule::viewer_step))]
fn viewer_step(name: &[u8], text: &[u8]) -> Option<Step>
    ensures { result ≡ spec.viewer_step name.now text.now }
{
    if is(name, b"offer") {
        offer_step(text)
    } else if is(name, b"resend") {
        two_numbers(text).map(|(viewer, place)| Step::ViewerResend { viewer, place })
    } else if is(name, b"ask") {
        number(text).map(|viewer| Step::ViewerAsk { viewer })
    } else if is(name, b"save") {
        number(text).map(|viewer| Step::ViewerSave { viewer })
    } else if is(name, b"rewind") {
        rewind_step(text)
    } else {
        None
    }
}

/// Returns the step of a name and the words after it, if it is about pieces of a snapshot.
#[tactic(auto, unfolding(crate::specs::Schedule::piece_step))]
fn piece_step(name: &[u8], text: &[u8]) -> Option<Step>
    ensures { result ≡ spec.piece_step name.now text.now }
{
    if is(name, b"piece") {
        two_numbers(text).map(|(snapshot, piece)| Step::PiecePacket { snapshot, piece })
    } else if is(name, b"gather") {
        two_numbers(text).map(|(packet, viewer)| Step::ViewerGather { viewer, packet })
    } else if is(name, b"join") {
        two_numbers(text).map(|(viewer, boot)| Step::ViewerJoin { viewer, boot })
    } else if is(name, b"forget") {
        number(text).map(|viewer| Step::ViewerForget { viewer })
    } else {
        None
    }
}

/// Returns the step of a name and the words after it, if there is one.
fn named_step(name: &[u8], text: &[u8]) -> Option<Step>
    ensures { result ≡ spec.named_step name.now text.now }
{
    if let Some(step) = host_step(name, text) {
        return Some(step);
    }
    match viewer_step(name, text) {
        Some(step) => Some(step),
        None => piece_step(name, text),
    }
}

/// Returns the step of a line, or `None` if the line is not a step.
#[tactic(auto, unfolding(crate::specs::Schedule::step_of))]
pub fn step_of(line: &[u8]) -> Option<Step>
    ensures { result ≡ spec.step_of line.now }
{
    if is(line, b"notice") {
        return Some(Step::HostFloorPacket);
    }
    let (name, text) = cut_word(line);
    named_step(name, text)
}
