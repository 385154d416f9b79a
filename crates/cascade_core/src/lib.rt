//! One viewer's world. Inputs start event cascades, which change what the nodes keep and are
//! recorded in a trace (ISO/IEC 19775-1, event model).
//!
//! | Modules | Content |
//! |---|---|
//! | `stage`, `texts`, `series` | a scene with its world, what is written of it, inputs applied |
//! | `forgetting` | old lines of a trace, forgotten |
//! | `input`, `clock`, `pointer`, `pressed`, `walk` | what an input does, node by node |
//! | `course`, `stack`, `tasks`, `sending`, `boxes` | a cascade, as a stack of tasks |
//! | `settle`, `opening` | scripts after the events of a timestamp, and before all inputs |
//! | `routed`, `parts`, `buffers`, `work`, `nodes` | what a stage is made of |
//! | `fault`, `laws` | the faults, and laws |
#![tactic(auto)]

mod boxes;
mod buffers;
mod clock;
mod course;
mod fault;
mod forgetting;
mod input;
mod laws;
mod nodes;
mod opening;
mod parts;
mod pointer;
mod pressed;
mod routed;
mod sending;
mod series;
mod settle;
mod stack;
mod stage;
mod tasks;
mod texts;
mod walk;
mod work;

pub use boxes::{deliver, put_boxes};
pub use buffers::Buffers;
pub use cascade_trace::{LineHead, Trace, TraceLine, WritesLines};
pub use cascade_world::{State, Watched, WorldData};
pub use fault::{ApplyFault, ForgetFault, LoadFault, PlaceFault, StatesFault, TextFault};
pub use laws::{kinds_law, places_law, settling_law, states_law};
pub use nodes::is_clock;
pub use pick_core::is_sensor;
pub use sending::send;
pub use series::run;
pub use stage::Stage;
pub use tasks::{CascadeTask, push_before, push_replies};
pub use work::Work;
