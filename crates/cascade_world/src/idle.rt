//! When waiting TimeSensors start next. Before that time, a tick does nothing.

ghost use Rattle.std.specs.Prelude.{◌≡◌, ◌/◌, ◌≤ℤ◌, ◌<ℤ◌, ℕ, ℤ, IfSome, IsTrue, List, Some, false, slice_get, slice_set};
ghost use Rattle.x3d_values.specs.declared.fields.Fields.{Fields as FieldsView};
ghost use Rattle.sensor_core.specs.Ticks.{is_started};
ghost use Rattle.cascade_world.specs.Blocks.{AreOthers};
ghost use Rattle.cascade_world.specs.Idle.{AreIdle, IsIdle, no_time, starts_at};

use crate::watched::WIDTH;
use sensor_core::TimeFields;
use x3d_values::Fields;

/// A time span in microseconds in which an inactive TimeSensor doesn't start: from `from` on, and
/// before `until`.
#[derive(Clone, Copy)]
pub struct Idle {
    pub from: i64,
    pub until: i64,
}

/// Returns the empty time span.
pub(crate) fn no_time() -> Idle
    ensures { result ≡ no_time }
{
    Idle { from: 0, until: 0 }
}

/// Returns the time from which on a TimeSensor doesn't start again, because its only cycle is over
/// or it is stopped. Returns `None` if there is no such time.
fn last_start(timing: &TimeFields) -> Option<i64>
    ensures { IfSome result (λ end. (t : ℤ) → end ≤ℤ t → is_started timing.now t ≡ false) }
{
    let start = timing.start_time();
    if !timing.is_looping() {
        return Some(start + timing.cycle_interval());
    }
    let stop = timing.stop_time();
    if start < stop {
        return Some(stop);
    }
    None
}

/// Returns the time before which a TimeSensor doesn't start, from `now` on.
fn wait_of(timing: &TimeFields, now: i64) -> i64
    ensures { (t : ℤ) → now ≤ℤ t → t <ℤ result → is_started timing.now t ≡ false }
{
    if !timing.is_enabled() {
        return i64::MAX;
    }
    let start = timing.start_time();
    if now < start {
        return start;
    }
    match last_start(timing) {
        Some(end) if end <= now => i64::MAX,
        _ => now,
    }
}

/// Returns the time before which a node with these fields doesn't start, from `now` on. A node that
/// isn't a TimeSensor never starts.
fn start_of(fields: &Fields, now: i64) -> i64
    ensures { (t : ℤ) → now ≤ℤ t → t <ℤ result → starts_at fields.now t ≡ false }
{
    match TimeFields::from_fields(fields) {
        Some(timing) => wait_of(&timing, now),
        None => i64::MAX,
    }
}

/// Returns the earlier of two times.
fn earlier(one: i64, other: i64) -> i64
    ensures first { result ≤ℤ one }
    ensures second { result ≤ℤ other }
{
    if one < other { one } else { other }
}

/// Returns the time before which none of the nodes starts, from `now` on.
fn first_start(nodes: &[Fields], now: i64) -> i64
    ensures { (i : ℕ) (fields : FieldsView) → slice_get nodes.now i ≡ Some fields → (t : ℤ)
        → now ≤ℤ t → t <ℤ result → starts_at fields t ≡ false }
{
    match nodes {
        [] => i64::MAX,
        [first, others @ ..] => earlier(start_of(first, now), first_start(others, now)),
    }
}

/// Returns the time span from `now` on in which none of the nodes starts.
pub(crate) fn idle_of(nodes: &[Fields], now: i64) -> Idle
    ensures { (i : ℕ) (fields : FieldsView) → slice_get nodes.now i ≡ Some fields
        → IsIdle fields result }
{
    Idle {
        from: now,
        until: first_start(nodes, now),
    }
}

/// Reports whether a time is in the time span.
pub(crate) fn is_among(idle: Idle, time: i64) -> bool
    ensures { (fields : FieldsView) → IsIdle fields idle → IsTrue result
        → starts_at fields time ≡ false }
{
    idle.from <= time && time < idle.until
}

/// Reports whether a node may start at some time, with its current fields.
fn may_start(nodes: &[Fields], node: usize) -> bool
    ensures { (fields : FieldsView) (t : ℤ) → result ≡ false
        → slice_get nodes.now node ≡ Some fields → starts_at fields t ≡ false }
{
    match nodes.get(node) {
        Some(fields) => TimeFields::from_fields(fields).is_some(),
        None => false,
    }
}

/// Forgets what is known of the block of a node that has changed, if the node may start now. If it
/// doesn't, what was known still holds.
pub(crate) fn wake_around(idles: &mut Vec<Idle>, nodes: &[Fields], node: usize)
    ensures { (before : List FieldsView) → AreIdle before idles.old.items
        → AreOthers node before nodes.now → AreIdle nodes.now idles.new.items }
{
    if may_start(nodes, node) {
        wake(idles, node / WIDTH);
    }
}

/// Forgets what is known of a block.
pub(crate) fn wake(idles: &mut Vec<Idle>, block: usize)
    ensures { idles.new.items ≡ slice_set idles.old.items block no_time }
{
    if block < idles.len() {
        idles[block] = no_time();
    }
}
