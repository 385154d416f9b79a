//! The `state` of a scene after some inputs, its `world`, and what a node does in it: the `answer`
//! to an event or a clock, what a `pointing` sensor does, also at an `aim` and when it is turned
//! off, and what an `unrun` Script does (ISO/IEC 19775-1, event model). Also which world `fits` a
//! scene.
#![tactic(auto)]

mod aim;
mod answer;
mod event;
mod fits;
mod idle;
mod pointing;
mod state;
mod unrun;
mod watched;
mod world;

pub use aim::{AimedAt, Concerned, Inside, SensorsHit, inside_at, insides};
pub use fits::{all_lead, output_type};
pub use state::State;
pub use watched::{BLOCK, Rests, Watched};
pub use world::{Live, VIEWERS, WorldData};
