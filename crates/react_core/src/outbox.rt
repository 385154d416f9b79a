//! What one node sends at one event.

ghost use Rattle.std.specs.Prelude.{◌≡◌, false};
ghost use Rattle.x3d_values.specs.declared.value.Value.TheVariants.{SFBool};

use arrayvec::ArrayVec;
use x3d_values::Value;

/// The largest number of events that a node sends at once: a starting TimeSensor sends that many.
pub const MAX_REPLIES: usize = 5;

/// An event that a node sends by one of its outputs.
#[derive(Drop, PartialEq, Eq)]
pub struct SentEvent {
    /// The number of the output among the node's fields.
    pub field: u16,
    pub value: Value,
}

/// The content of an unused place of an outbox.
impl Default for SentEvent {
    ghost is_default = { λ reply. reply ≡ record { field = 0; value = SFBool false } };

    fn default() -> SentEvent {
        SentEvent {
            field: 0,
            value: Value::SFBool(false),
        }
    }
}

/// The events that a node sends, in order. `Outbox::new()` takes no memory.
pub type Outbox = ArrayVec<SentEvent, MAX_REPLIES>;
