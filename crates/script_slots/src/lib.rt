//! One script of a world: the contract of its box, its slot among the others, and whether it counts
//! as initialized. Also what a world asks of the boxes that it takes, and which scripts are to be
//! settled in a timestamp.
#![tactic(auto)]

mod asked;
mod behaviour;
mod boxed;
mod due;
mod fault;
mod reply;
mod slot;

pub use asked::{are_as_many, first_unknown, starts_in};
pub use behaviour::Behaviour;
pub use due::DueScripts;
pub use fault::StateFault;
pub use reply::{MAX_REPLIES, Replies, Reply};
pub use slot::{Slot, receive_at};
