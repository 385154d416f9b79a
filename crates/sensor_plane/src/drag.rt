//! A drag of a PlaneSensor: how it begins, goes on and ends.

ghost use Rattle.std.specs.Prelude.{◌≡◌, ◌+◌, ◌≤◌, IsTrue, [], ◌∷◌, ◌++◌};
ghost use Rattle.arrayvec.specs.ArrayVec.{array_vec_len};
ghost use Rattle.react_core.specs.Reaction.{reply};
ghost use Rattle.x3d_values.specs.declared.value.Value.TheVariants.{SFVec3f};
ghost use Rattle.x3d_values.specs.Ranges.{is_viewer};
ghost use Rattle.sensor_plane.specs.Planes as spec;
ghost use Rattle.sensor_plane.specs.Planes.{is_drag};

use crate::fields::PlaneFields;
use crate::numbers::{IS_ACTIVE, OFFSET, TRACK_POINT_CHANGED, TRANSLATION_CHANGED};
use crate::path::ListPath;
use crate::pointer::{Contact, PlanePointer};
use react_core::{Outbox, SentEvent};
use x3d_values::{Value, Vec3};

/// The largest absolute value of a coordinate, in millionths.
const LIMIT: i128 = x3d_values::MAX_COORDINATE as i128;

/// What is kept while a viewer drags: the viewer that presses, the point where it pressed and the
/// last translation, both in the sensor's coordinates in millionths, and the path to the list that
/// holds the sensor.
#[derive(Clone, Copy, PartialEq, Eq)]
pub struct Drag {
    pub presser: u8,
    pub start: Vec3,
    pub last: Vec3,
    pub path: ListPath,
}

// ---- the translation of a drag

/// Returns the distance of a coordinate from the start plus the offset, clamped to the limit.
fn shifted(offset: i64, start: i64, at: i64) -> i64
    ensures { result ≡ spec.shifted offset start at }
{
    (at as i128 - start as i128 + offset as i128).clamp(-LIMIT, LIMIT) as i64
}

/// Clamps to two positions, if the first isn't above the second.
fn clamped(low: i64, high: i64, at: i64) -> i64
    ensures { result ≡ spec.clamped low high at }
{
    if low > high {
        return at;
    }
    low.max(at.min(high))
}

fn shift(fields: &PlaneFields, start: Vec3, at: Vec3) -> Vec3
    ensures { result ≡ spec.shift fields.now start at }
{
    let offset = fields.offset;
    Vec3 {
        x: shifted(offset.x, start.x, at.x),
        y: shifted(offset.y, start.y, at.y),
        z: shifted(offset.z, start.z, at.z),
    }
}

fn within(fields: &PlaneFields, at: Vec3) -> Vec3
    ensures { result ≡ spec.within fields.now at }
{
    let (low, high) = (fields.min_position, fields.max_position);
    Vec3 {
        x: clamped(low.x, high.x, at.x),
        y: clamped(low.y, high.y, at.y),
        z: at.z,
    }
}

#[tactic(auto, unfolding(crate::specs::Planes::translation))]
fn translation(fields: &PlaneFields, start: Vec3, at: Vec3) -> Vec3
    ensures { result ≡ spec.translation fields.now start at }
{
    within(fields, shift(fields, start, at))
}

// ---- the steps of a drag

pub(crate) fn send(field: u16, value: Value, out: &mut Outbox)
    requires { array_vec_len out.old + 1 ≤ 5 }
    ensures items { out.new.items ≡ out.old.items ++ reply field value ∷ [] }
    ensures len { array_vec_len out.new ≡ array_vec_len out.old + 1 }
{
    out.push(SentEvent { field, value });
}

fn drag_from(contact: &Contact, who: u8, fields: &PlaneFields) -> Drag
    ensures { result ≡ spec.drag_from fields.now who contact.now }
{
    Drag {
        presser: who,
        start: contact.point,
        last: fields.offset,
        path: contact.path,
    }
}

fn presses(pointer: &PlanePointer) -> bool
    ensures { result ≡ spec.presses pointer.now }
{
    pointer.down && !pointer.before
}

/// Begins a drag if the button goes down over the geometry. No viewer drags yet.
fn begin(fields: &PlaneFields, pointer: &PlanePointer, out: &mut Outbox) -> Option<Drag>
    requires viewer { IsTrue (is_viewer pointer.now.who) }
    requires room { array_vec_len out.old + 2 ≤ 5 }
    ensures viewer { IsTrue (is_drag result) }
    ensures drag { result ≡ (spec.begun fields.now pointer.now pointer.now.contact).drag }
    ensures replies { out.new.items
        ≡ out.old.items ++ (spec.begun fields.now pointer.now pointer.now.contact).replies }
{
    let Some(contact) = &pointer.contact else {
        return None;
    };
    if !presses(pointer) {
        return None;
    }
    send(IS_ACTIVE, Value::SFBool(true), out);
    Some(drag_from(contact, pointer.who, fields))
}

/// Moves a drag to the point where the ray meets its plane, if it does.
fn follow(fields: &PlaneFields, drag: &Drag, tracked: Option<Vec3>, out: &mut Outbox) -> Drag
    requires room { array_vec_len out.old + 2 ≤ 5 }
    ensures presser { result.presser ≡ drag.now.presser }
    ensures drag { result ≡ spec.drag_at fields.now drag.now tracked }
    ensures replies { out.new.items
        ≡ out.old.items ++ spec.track_replies fields.now drag.now tracked }
{
    let Some(at) = tracked else {
        return *drag;
    };
    let last = translation(fields, drag.start, at);
    send(TRACK_POINT_CHANGED, Value::SFVec3f(at), out);
    send(TRANSLATION_CHANGED, Value::SFVec3f(last), out);
    Drag { last, ..*drag }
}

/// Sets the offset to the last translation, and sends it.
fn keep_offset(fields: &mut PlaneFields, last: Vec3, out: &mut Outbox)
    requires room { array_vec_len out.old + 1 ≤ 5 }
    ensures fields { fields.new ≡ record fields.old { offset = last } }
    ensures replies { out.new.items ≡ out.old.items ++ reply OFFSET (SFVec3f last) ∷ [] }
{
    fields.offset = last;
    send(OFFSET, Value::SFVec3f(fields.offset), out);
}

/// Ends a drag.
fn end(fields: &mut PlaneFields, drag: &Drag, out: &mut Outbox)
    requires room { array_vec_len out.old + 2 ≤ 5 }
    ensures fields { fields.new ≡ (spec.ended fields.old drag.now).fields }
    ensures replies { out.new.items
        ≡ out.old.items ++ (spec.ended fields.old drag.now).replies }
{
    send(IS_ACTIVE, Value::SFBool(false), out);
    if fields.auto_offset {
        keep_offset(fields, drag.last, out);
    }
}

/// Continues a drag while the button of the viewer that drags is down, and ends it when the button
/// is up.
fn go_on(
    fields: &mut PlaneFields,
    drag: &Drag,
    pointer: &PlanePointer,
    out: &mut Outbox,
) -> Option<Drag>
    requires viewer { IsTrue (is_viewer drag.now.presser) }
    requires room { array_vec_len out.old + 2 ≤ 5 }
    ensures viewer { IsTrue (is_drag result) }
    ensures drag { result ≡ (spec.gone_on fields.old pointer.now drag.now).drag }
    ensures fields { fields.new ≡ (spec.gone_on fields.old pointer.now drag.now).fields }
    ensures replies { out.new.items
        ≡ out.old.items ++ (spec.gone_on fields.old pointer.now drag.now).replies }
{
    if pointer.down {
        return Some(follow(fields, drag, pointer.tracked, out));
    }
    end(fields, drag, out);
    None
}

/// Returns the drag after a pointer, if there is one then.
pub(crate) fn drag_on(
    fields: &mut PlaneFields,
    drag: &Option<Drag>,
    pointer: &PlanePointer,
    out: &mut Outbox,
) -> Option<Drag>
    requires viewer { IsTrue (is_viewer pointer.now.who) }
    requires presser { IsTrue (is_drag drag.now) }
    requires room { array_vec_len out.old + 2 ≤ 5 }
    ensures viewer { IsTrue (is_drag result) }
    ensures drag { result ≡ (spec.dragged fields.old pointer.now drag.now).drag }
    ensures fields { fields.new ≡ (spec.dragged fields.old pointer.now drag.now).fields }
    ensures replies { out.new.items
        ≡ out.old.items ++ (spec.dragged fields.old pointer.now drag.now).replies }
{
    let Some(drag) = drag else {
        return begin(fields, pointer, out);
    };
    if pointer.who != drag.presser {
        return Some(*drag);
    }
    go_on(fields, drag, pointer, out)
}
