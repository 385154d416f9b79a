//! The faults of an expanded document that a node or a route alone tells: of each field that is
//! given a value, of each root and helper, and of each ROUTE.
//!
//! | Modules | Content |
//! |---|---|
//! | `blame` | a fault, and where it is |
//! | `values`, `nodes` | faults of fields, of declarations, and of roots and helpers |
//! | `ends`, `routes` | what the ends of routes name, and faults of routes |
//! | `faults` | all of them |
//! | `named`, `lists`, `texts` | faults of a text before it is expanded |
//! | `laws` | laws of blames |
#![tactic(auto)]

mod blame;
mod ends;
mod faults;
mod laws;
mod lists;
mod named;
mod nodes;
mod routes;
mod texts;
mod values;

pub use blame::{Blame, Reason};
pub use faults::blames_of;
pub use laws::{children_are_blamed, fields_are_blamed, scenes_without_blames_pass_limits};
pub use texts::text_blames_of;
