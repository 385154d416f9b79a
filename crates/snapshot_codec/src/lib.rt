//! The parts of a world as bytes, and back, exactly. A snapshot is made of these parts.
//!
//! Each part is described once by a codec (`specs/`): the bytes that a value is written as, the
//! value that is read from the front of bytes, and the values that are read back unchanged.
//! Functions named `_of` read from the front of the bytes and return the rest. Functions named
//! `push_` append, and leave the buffer unchanged if it can't grow. `open` checks the head and the
//! digest of a whole snapshot. `ranged`, `kept_ranges` and `value_ranges` check which values a
//! field may hold.
#![tactic(auto)]

mod coded;
mod exactness;
mod fault;
mod head;
mod input_number;
mod kept;
mod kept_ranges;
mod numbers;
mod parts;
mod plane;
mod ranged;
mod rest;
mod trace;
mod value;
mod value_ranges;
mod vectors;
mod viewers;

pub use exactness::{nodes_are_exact, worlds_are_exact};
pub use fault::PartFault;
pub use head::{
    HeadFault, Progress, open, progress_of, push_digest, push_front, push_progress, scene_mark,
};
pub use input_number::{Numbers, input_of};
pub use kept::{KeptField, kept_field, kept_fields_of, push_kept_fields};
pub use kept_ranges::{is_moment, kept_fits, place_fits, typed_fits};
pub use parts::{cycle_of, position_of, push_cycle, push_position, push_state, states_of};
pub use plane::{Drag, Path, Plane, plane_of, push_plane};
pub use rest::all_read;
pub use trace::{
    Outputs, SentAt, TakesEntries, TraceEntry, entry_of, push_entry, push_entry_count, trace_of,
};
pub use value::{push_value, value_of};
pub use value_ranges::value_fits;
pub use viewers::{Touch, Viewers, push_touch, push_viewer_set, touch_of, viewer_set_of};
