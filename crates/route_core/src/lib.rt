//! Routes: which outputs of a scene lead to which inputs (ISO/IEC 19775-1, ROUTE).
//!
//! | Module | Has |
//! |---|---|
//! | `routes` | the routes of a scene, and those from an output |
//! | `resolving`, `ends` | the routes of a document in its scene, and what their ends refer to |
//! | `names`, `named` | fields by name, and tables for nodes that declare many fields |
//! | `outputs`, `grouped` | fields numbered across all nodes, and tables of grouped numbers |
//! | `firsts` | routes without repeats |
//! | `fault` | why a route is refused |
#![tactic(auto)]

mod ends;
mod fault;
mod firsts;
mod grouped;
mod named;
mod names;
mod outputs;
mod resolving;
mod routes;

pub use fault::{RouteFault, RouteFaultKind};
pub use outputs::{firsts_of, number_of};
pub use resolving::field_counts;
pub use routes::Routes;
pub use scene_core::{End, Route};
