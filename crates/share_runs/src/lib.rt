//! How a viewer comes into a run of a world, and when it learns that its run is over.
#![tactic(auto)]

mod arrival;
mod greetings;
mod hello;
mod known;
mod laws;
mod saying;
mod step;
mod view_port;
mod viewer_run;

pub use arrival::{
    Arrival, ArrivalEvent, MAX_AGE, MAX_SILENCE, after_event, bound_viewers_stay, is_over,
};
pub use greetings::{Greetings, PAUSE, next_nonce, with_cookie};
pub use hello::{arrive, met};
pub use known::{KnownList, MAX_STARTS};
pub use laws::{forgetting_keeps_the_list, logs_are_one_list, viewers_know_one_list};
pub use step::{RunStep, step_for};
pub use view_port::{Handing, ViewPort};
pub use viewer_run::{Early, MAX_HELD, ViewerRun};
