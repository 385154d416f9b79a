//! What a TouchSensor does with the pointers of several viewers.

ghost use Rattle.std.specs.Prelude.{◌≡◌, ◌+◌, ◌≤◌, [], ◌∷◌, ◌++◌};
ghost use Rattle.std.specs.List.{list_any};
ghost use Rattle.arrayvec.specs.ArrayVec.{array_vec_len};
ghost use Rattle.react_core.specs.Reaction.{reply};
ghost use Rattle.sensor_core.specs.Touches.{over_replies};

use crate::parts::{TouchParts, VIEWERS, number_of, over_of};
use crate::touch_numbers::{HIT_POINT_CHANGED, IS_OVER, IS_PRESSED, TOUCH_TIME};
use react_core::{Outbox, SentEvent};
use std::marker::Model;
use x3d_values::{MAX_VIEWERS, Value, Vec3};

/// Which viewers' pointers are over a TouchSensor, and which viewer presses it, if one does.
#[derive(Clone, Copy, PartialEq, Eq)]
pub struct TouchState {
    over: [bool; VIEWERS],
    presser: Option<u8>,
}

impl Model for TouchState {
    ghost use Rattle.std.specs.Prelude.{IsTrue, true};
    ghost use Rattle.std.specs.Option.{option_map_or};
    ghost use Rattle.x3d_values.specs.Ranges.{is_viewer};
    ghost use Rattle.sensor_core.specs.Touches.{TouchStateView};

    ghost Value = { TouchStateView };

    ghost view = { λ s. record { over = s.over; presser = s.presser } };

    ghost invariant = { λ s. IsTrue (option_map_or is_viewer s.presser true) };

    ghost inverse = { λ touch. record { over = touch.over; presser = touch.presser } };
}

/// A viewer's pointer: whether its button was down until now, whether the button is down now, and
/// the point over the sensor's geometry, in the sensor's coordinates, if the pointer is over it.
#[derive(Clone, Copy)]
pub struct Pointed {
    pub who: u8,
    pub before: bool,
    pub down: bool,
    pub inside: Option<Vec3>,
}

/// Reports whether any entry is true. Looks at all entries, which costs less than stopping at the
/// first.
pub fn is_any(over: &[bool; VIEWERS]) -> bool
    ensures { result ≡ list_any (λ over. over) over.now }
{
    let mut any = false;
    for one in over {
        any = any | *one;
    }
    any
}

impl TouchState {
    ghost use Rattle.std.specs.Prelude.{◌≡◌, ◌+◌, ◌≤◌, ◌&&◌, [], ◌++◌, is_none, is_some, length, not, IsTrue, Some, true};
    ghost use Rattle.std.specs.Option.{option_map_or};
    ghost use Rattle.arrayvec.specs.ArrayVec.{array_vec_len};
    ghost use Rattle.x3d_values.specs.declared.node_type.NodeType.TheVariants.{TouchSensor};
    ghost use Rattle.x3d_values.specs.Ranges.{is_viewer};
    ghost use Rattle.react_core.specs.Access.{leave_by_outputs};
    ghost use Rattle.sensor_core.specs.Touches.{untouched, is_over, is_pressed_by, presses, releases, presser_after, touch_after, hit_replies, press_replies, point, disable};
    ghost use Rattle.sensor_core.specs.Parts.{parts_of_touch, touch_of_parts};

    /// Returns the state with no pointer over the sensor and no viewer pressing it.
    pub fn untouched() -> TouchState
        ensures { result ≡ untouched }
    {
        TouchState {
            over: [false; VIEWERS],
            presser: None,
        }
    }

    /// Does what an enabled TouchSensor does with a viewer's pointer, at time `t` in microseconds,
    /// and puts what the sensor sends into the outbox.
    #[tactic(auto, unfolding(crate::specs::Touches::point))]
    pub fn point(&mut self, pointed: Pointed, t: i64, out: &mut Outbox)
        requires viewer { IsTrue (is_viewer pointed.who) }
        requires empty { out.old.items ≡ [] }
        ensures touch { self.new ≡ (point self.old pointed t).touch }
        ensures replies { out.new.items ≡ (point self.old pointed t).replies }
        // All events leave by outputs of a TouchSensor.
        ensures outputs { IsTrue (leave_by_outputs TouchSensor out.new.items) }
    {
        let touch = *self;
        *self = touch.after(pointed);
        send_over(touch.is_over(), self.is_over(), out);
        touch.send_hit(pointed, out);
        touch.send_press(pointed, t, out);
    }

    /// Forgets the pointers of a TouchSensor that is disabled, and puts what the sensor sends then
    /// into the outbox.
    #[tactic(auto, unfolding(crate::specs::Touches::disable))]
    pub fn disable(&mut self, out: &mut Outbox)
        requires room { array_vec_len out.old + 2 ≤ 5 }
        ensures touch { self.new ≡ (disable self.old).touch }
        ensures replies { out.new.items ≡ out.old.items ++ (disable self.old).replies }
        // All events leave by outputs of a TouchSensor.
        ensures outputs { IsTrue (leave_by_outputs TouchSensor (disable self.old).replies) }
    {
        let touch = *self;
        *self = TouchState::untouched();
        send_over(touch.is_over(), false, out);
        if touch.presser.is_some() {
            send(IS_PRESSED, Value::SFBool(false), out);
        }
    }

    /// Reports whether any viewer's pointer is over the sensor.
    pub fn is_over(&self) -> bool
        ensures { result ≡ is_over self.now }
    {
        is_any(&self.over)
    }

    /// Reports whether no pointer is over the sensor, and no viewer presses it.
    pub fn is_untouched(&self) -> bool
        ensures value { result ≡ (not (is_over self.now) && is_none self.now.presser) }
        // There is a place for each viewer, and a presser is a viewer.
        ensures places { length self.now.over ≡ MAX_VIEWERS }
        ensures viewer { IsTrue (option_map_or is_viewer self.now.presser true) }
    {
        !self.is_over() && self.presser.is_none()
    }

    /// Reports whether viewer `who` presses the sensor.
    pub fn is_pressed_by(&self, who: u8) -> bool
        ensures { result ≡ is_pressed_by self.now who }
    {
        match self.presser {
            Some(presser) => presser == who,
            None => false,
        }
    }

    /// Returns the state as a snapshot has it.
    #[tactic(auto, unfolding(crate::specs::Parts::parts_of_touch))]
    pub fn parts(&self) -> TouchParts
        ensures { result ≡ parts_of_touch self.now }
    {
        TouchParts {
            over: number_of(&self.over),
            presser: self.presser,
        }
    }

    /// Returns the state with these parts. Returns `None` if the presser isn't below `MAX_VIEWERS`.
    #[tactic(auto, unfolding(crate::specs::Parts::touch_of_parts))]
    pub fn from_parts(parts: TouchParts) -> Option<TouchState>
        ensures { result ≡ touch_of_parts parts }
    {
        if let Some(presser) = parts.presser
            && presser >= MAX_VIEWERS
        {
            return None;
        }
        Some(TouchState {
            over: over_of(parts.over),
            presser: parts.presser,
        })
    }

    fn presses(&self, pointed: Pointed) -> bool
        ensures { result ≡ presses self.now pointed }
    {
        if !pointed.down || pointed.before {
            return false;
        }
        pointed.inside.is_some() && self.presser.is_none()
    }

    fn releases(&self, pointed: Pointed) -> bool
        ensures { result ≡ releases self.now pointed }
    {
        !pointed.down && self.is_pressed_by(pointed.who)
    }

    fn presser_after(&self, pointed: Pointed) -> Option<u8>
        requires { IsTrue (is_viewer pointed.who) }
        ensures value { result ≡ presser_after self.now pointed }
        ensures viewer { IsTrue (option_map_or is_viewer result true) }
    {
        if self.presses(pointed) {
            return Some(pointed.who);
        }
        if self.releases(pointed) {
            return None;
        }
        self.presser
    }

    fn after(&self, pointed: Pointed) -> TouchState
        requires { IsTrue (is_viewer pointed.who) }
        ensures { result ≡ touch_after self.now pointed }
    {
        let presser = self.presser_after(pointed);
        let mut over = self.over;
        over[pointed.who as usize] = pointed.inside.is_some();
        TouchState { over, presser }
    }

    fn send_hit(&self, pointed: Pointed, out: &mut Outbox)
        requires { array_vec_len out.old + 1 ≤ 5 }
        ensures items { out.new.items
            ≡ out.old.items ++ hit_replies self.now pointed pointed.inside }
        ensures len { array_vec_len out.new ≤ array_vec_len out.old + 1 }
    {
        let Some(point) = pointed.inside else {
            return;
        };
        if self.presser.is_none() || self.is_pressed_by(pointed.who) {
            send(HIT_POINT_CHANGED, Value::SFVec3f(point), out);
        }
    }

    fn send_press(&self, pointed: Pointed, t: i64, out: &mut Outbox)
        requires { array_vec_len out.old + 2 ≤ 5 }
        ensures items { out.new.items ≡ out.old.items ++ press_replies self.now pointed t }
        ensures len { array_vec_len out.new ≤ array_vec_len out.old + 2 }
    {
        if self.presses(pointed) {
            send(IS_PRESSED, Value::SFBool(true), out);
            return;
        }
        if !self.releases(pointed) {
            return;
        }
        send(IS_PRESSED, Value::SFBool(false), out);
        if pointed.inside.is_some() {
            send(TOUCH_TIME, Value::SFTime(t), out);
        }
    }
}

/// Sends `isOver` if it changes.
fn send_over(was: bool, is: bool, out: &mut Outbox)
    requires { array_vec_len out.old + 1 ≤ 5 }
    ensures items { out.new.items ≡ out.old.items ++ over_replies was is }
    ensures len { array_vec_len out.new ≤ array_vec_len out.old + 1 }
{
    if was != is {
        send(IS_OVER, Value::SFBool(is), out);
    }
}

fn send(field: u16, value: Value, out: &mut Outbox)
    requires { array_vec_len out.old + 1 ≤ 5 }
    ensures items { out.new.items ≡ out.old.items ++ reply field value ∷ [] }
    ensures len { array_vec_len out.new ≡ array_vec_len out.old + 1 }
{
    out.push(SentEvent { field, value });
}
