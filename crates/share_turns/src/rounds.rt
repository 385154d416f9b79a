//! A host and its viewers, each with its own port. Rounds run until all steps are issued and every
//! viewer has applied them.

ghost use Rattle.std.specs.Prelude.{◌≡◌, ◌⊎◌, ◌≤◌, ◌<◌, ◌+◌, ◌++◌, ◌^◌, ◌==◌, ◌&&◌, ◌||◌, IfOk};
ghost use Rattle.std.specs.Prelude.{if◌then◌else◌, IfErr, OnOk, OnErr, length, slice_get, None};
ghost use Rattle.x3d_lists.specs.Extends.{Extends};
ghost use Rattle.share_turns.specs.Agreeing.{AreAgreed, IsAgreeEnd};
ghost use Rattle.share_turns.specs.AgreedTexts.{IsAgreedText};
ghost use Rattle.share_turns.specs.AgreedTexts.{IsAgreedTextFault};
ghost use Rattle.share_turns.specs.Seats.{IsSeatTurn};
ghost use Rattle.share_turns.specs.Round.{IsRoundOf, IsRoundEnd};
ghost use Rattle.share_turns.specs.AgreedTexts.{IsAgreeRunEnd};
ghost use Rattle.share_turns.specs.Seats.{SeatTurns, SeatTurnsEnd};
ghost use Rattle.share_turns.specs.Issuing.{clock_at, clock_of, is_issued};
ghost use Rattle.share_turns.specs.Agreeing.{are_at};
ghost use Rattle.share_turns.specs.AgreedTexts.{agreed_line};
ghost use Rattle.share_turns.specs.Issuing.{offer_of, pointed_by};
ghost use Rattle.share_turns.specs.Seats.{seats_of, ways_of};
ghost use Rattle.share_turns.specs.Round.{meeting};

use crate::fault::{SeriesFault, TurnFault};
use crate::host::host_turn;
use crate::port::Port;
use crate::runs::item_at;
use crate::view::{one_more_if, push_texts};
use crate::viewer::viewer_turn;
use itoa::Buffer;
use script_host::Behaviour;
use share_core::{Host, Viewer};
use share_law::point_of;
use std::alloc::AllocError;
use x3d_values::{Cause, Point, Stamped};

fn clock_at(time: i64, cause: Cause) -> Option<i64>
    ensures { result ≡ clock_at time cause }
{
    match cause {
        Cause::Clock => Some(time),
        Cause::Pointer(_) => None,
    }
}

/// Returns the time of a clock step, which the host numbers itself.
fn clock_of(step: &Option<Stamped>) -> Option<i64>
    ensures { result ≡ clock_of step.now }
{
    match step {
        Some(step) => clock_at(step.time(), step.cause()),
        None => None,
    }
}

fn pointed_by(who: usize, cause: Cause) -> Option<Point>
    ensures { result ≡ pointed_by who cause }
{
    let Cause::Pointer(pointer) = cause else {
        return None;
    };
    if usize::from(pointer.who()) == who {
        Some(point_of(pointer))
    } else {
        None
    }
}

/// Returns the point of a step, if this viewer offers it.
fn offer_of(step: &Option<Stamped>, who: usize) -> Option<Point>
    ensures { result ≡ offer_of step.now who }
{
    match step {
        Some(step) => pointed_by(who, step.cause()),
        None => None,
    }
}

/// Runs a turn of the viewer with this number.
fn seat_turn<B: Behaviour, P: Port>(
    viewers: &mut [Viewer<B>],
    who: usize,
    step: &Option<Stamped>,
    host: u16,
    ports: &mut [P],
) -> Result<bool, TurnFault>
    requires viewer { who < length viewers.old }
    requires port { who < length ports.old }
    ensures { IsSeatTurn (ways_of P.told P.failure_count) step.now host who
        (seats_of viewers.old ports.old) result (seats_of viewers.new ports.new) }
{
    viewer_turn(
        &mut viewers[who],
        offer_of(step, who),
        host,
        &mut ports[who],
    )
}

fn either(one: bool, other: bool) -> bool
    ensures { result ≡ (one || other) }
{
    one || other
}

/// Runs a turn of each viewer. Returns whether one of them offered its point.
fn seat_turns<B: Behaviour, P: Port>(
    viewers: &mut [Viewer<B>],
    step: &Option<Stamped>,
    host: u16,
    ports: &mut [P],
) -> Result<bool, TurnFault>
    requires { length ports.old ≡ length viewers.old }
    ensures ports { length ports.new ≡ length ports.old }
    ensures done { IfOk result (λ offered.
        SeatTurns (ways_of P.told P.failure_count) step.now host (length viewers.old)
        (seats_of viewers.old ports.old) offered (seats_of viewers.new ports.new)) }
    ensures ended { IfErr result (λ fault.
        SeatTurnsEnd (ways_of P.told P.failure_count) step.now host
        (seats_of viewers.old ports.old) fault (seats_of viewers.new ports.new)) }
{
    let mut offered = false;
    for who in 0..viewers.len() {
        let did = seat_turn(viewers, who, step, host, ports)?;
        offered = either(offered, did);
    }
    Ok(offered)
}

/// Reports whether every viewer has applied `count` inputs.
fn are_at<B: Behaviour>(count: u64, viewers: &[Viewer<B>]) -> bool
    ensures { result ≡ are_at count viewers.now }
{
    match viewers {
        [] => true,
        [viewer, others @ ..] => viewer.applied() == count && are_at(count, others),
    }
}

/// Reports whether the host has numbered all issued steps, and every viewer has applied them.
fn is_caught_up<B: Behaviour>(host: &Host, viewers: &[Viewer<B>], issued: u32) -> bool
    ensures { result ≡ (host.now.part.count == issued) && are_at issued viewers.now }
{
    let issued = u64::from(issued);
    host.len() == issued && are_at(issued, viewers)
}

/// Reports whether all `count` steps are issued and every viewer has caught up.
fn is_over(caught_up: bool, issued: u32, count: usize) -> bool
    ensures { result ≡ (caught_up && (issued == count)) }
{
    caught_up && issued as usize == count
}

/// Returns the step to issue now: the next one, if all have caught up.
fn due(steps: &[Stamped], issued: u32, caught_up: bool) -> Option<Stamped>
    ensures { result ≡ if caught_up then slice_get steps.now issued else None }
{
    if caught_up {
        item_at(steps, issued)
    } else {
        None
    }
}

/// Reports whether a step was issued.
fn is_issued(step: &Option<Stamped>, offered: bool) -> bool
    ensures { result ≡ is_issued step.now offered }
{
    offered || clock_of(step).is_some()
}

/// Runs a turn of the host and a turn of each viewer. Returns whether the step was issued.
fn round<B: Behaviour, P: Port>(
    host: &mut Host,
    viewers: &mut [Viewer<B>],
    step: &Option<Stamped>,
    own: u16,
    port: &mut P,
    ports: &mut [P],
) -> Result<bool, TurnFault>
    requires { length ports.old ≡ length viewers.old }
    ensures mark { host.new.mark ≡ host.old.mark }
    ensures viewers { length viewers.new ≡ length viewers.old }
    ensures ports { length ports.new ≡ length ports.old }
    ensures done { IfOk result (λ did.
        IsRoundOf (ways_of P.told P.failure_count) host.old.mark step.now own
        (meeting host.old.part port.old viewers.old ports.old) did
        (meeting host.new.part port.new viewers.new ports.new)) }
    ensures ended { IfErr result (λ fault.
        IsRoundEnd (ways_of P.told P.failure_count) host.old.mark step.now own
        (meeting host.old.part port.old viewers.old ports.old) fault
        (meeting host.new.part port.new viewers.new ports.new)) }
{
    host_turn(host, clock_of(step), port)?;
    let offered = seat_turns(viewers, step, own, ports)?;
    Ok(is_issued(step, offered))
}

/// Runs at most `rounds` rounds, until all steps are issued and every viewer has applied them. A
/// round is a turn of the host and then a turn of each viewer, in the order of their numbers. If
/// all have caught up with the issued steps, the round issues the next one: the host issues a
/// clock, and its viewer a point.
///
/// Fails with `TurnsUsedUp` if steps are missing after the last round. A turn that ends early ends
/// the series.
pub fn agree_until<B: Behaviour, P: Port>(
    host: &mut Host,
    viewers: &mut [Viewer<B>],
    steps: &[Stamped],
    rounds: u32,
    own: u16,
    port: &mut P,
    ports: &mut [P],
) -> Result<(), SeriesFault>
    requires { length ports.old ≡ length viewers.old }
    ensures mark { host.new.mark ≡ host.old.mark }
    ensures viewers { length viewers.new ≡ length viewers.old }
    ensures done { OnOk result (AreAgreed (ways_of P.told P.failure_count)
        host.old.mark steps.now own rounds
        (meeting host.old.part port.old viewers.old ports.old)
        (meeting host.new.part port.new viewers.new ports.new)) }
    ensures ended { IfErr result (λ fault.
        IsAgreeEnd (ways_of P.told P.failure_count) host.old.mark steps.now own rounds
        (meeting host.old.part port.old viewers.old ports.old) fault
        (meeting host.new.part port.new viewers.new ports.new)) }
{
    let mut issued = 0;
    for _round in 0..rounds {
        let caught_up = is_caught_up(host, viewers, issued);
        let over = is_over(caught_up, issued, steps.len());
        if over {
            return Ok(());
        }
        let step = due(steps, issued, caught_up);
        issued = one_more_if(round(host, viewers, &step, own, port, ports)?, issued);
    }
    if is_over(is_caught_up(host, viewers, issued), issued, steps.len()) {
        Ok(())
    } else {
        Err(SeriesFault::TurnsUsedUp)
    }
}

/// Appends the line `agreed` with a count.
fn push_line(count: usize, out: &mut Vec<u8>) -> Result<(), AllocError>
    ensures ok { OnOk result (out.new.items ≡ out.old.items ++ agreed_line count) }
    ensures kept { Extends out.old.items out.new.items }
{
    out.extend_from_slice(b"agreed ")?;
    out.extend_from_slice(Buffer::new().format(count).as_bytes())?;
    out.push(b'\n')?;
    Ok(())
}

fn push_all<B: Behaviour>(
    count: usize,
    viewers: &[Viewer<B>],
    out: &mut Vec<u8>,
) -> Result<(), TurnFault>
    requires { 1 ≤ length viewers.now }
    ensures ok { OnOk result (IsAgreedText count viewers.now out.old.items out.new.items) }
    ensures kept { Extends out.old.items out.new.items }
    ensures fault { IfErr result (IsAgreedTextFault viewers.now) }
{
    push_line(count, out)?;
    push_texts(&viewers[0], out)
}

/// Appends the line, and the texts of viewer 0. On a failure the buffer is unchanged.
fn push_agreed<B: Behaviour>(
    count: usize,
    viewers: &[Viewer<B>],
    out: &mut Vec<u8>,
) -> Result<(), TurnFault>
    requires { 1 ≤ length viewers.now }
    ensures ok { OnOk result (IsAgreedText count viewers.now out.old.items out.new.items) }
    ensures err { OnErr result (out.new.items ≡ out.old.items) }
    ensures fault { IfErr result (IsAgreedTextFault viewers.now) }
{
    let len = out.len();
    let pushed = push_all(count, viewers, out);
    if pushed.is_err() {
        out.truncate(len);
    }
    pushed
}

/// Runs rounds like `agree_until`. Then appends `agreed` with the number of inputs, and the trace
/// and the scene of viewer 0. On a failure the buffer is unchanged.
pub fn agree<B: Behaviour, P: Port>(
    host: &mut Host,
    viewers: &mut [Viewer<B>],
    steps: &[Stamped],
    rounds: u32,
    own: u16,
    port: &mut P,
    ports: &mut [P],
    out: &mut Vec<u8>,
) -> Result<(), SeriesFault>
    requires some { 1 ≤ length viewers.old }
    requires ports { length ports.old ≡ length viewers.old }
    ensures mark { host.new.mark ≡ host.old.mark }
    ensures done { OnOk result (AreAgreed (ways_of P.told P.failure_count)
        host.old.mark steps.now own rounds
        (meeting host.old.part port.old viewers.old ports.old)
        (meeting host.new.part port.new viewers.new ports.new)) }
    ensures texts { OnOk result
        (IsAgreedText (length steps.now) viewers.new out.old.items out.new.items) }
    ensures ended { IfErr result (λ fault.
        IsAgreeRunEnd (ways_of P.told P.failure_count) host.old.mark steps.now own rounds
        (meeting host.old.part port.old viewers.old ports.old) fault
        (meeting host.new.part port.new viewers.new ports.new)) }
    ensures kept { OnErr result (out.new.items ≡ out.old.items) }
{
    agree_until(host, viewers, steps, rounds, own, port, ports)?;
    push_agreed(steps.len(), viewers, out)?;
    Ok(())
}
