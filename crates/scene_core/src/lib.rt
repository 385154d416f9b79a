//! A scene: nodes by number with typed values (ISO/IEC 19775-1, scene graph).
//!
//! | Module | Has |
//! |---|---|
//! | `scene` | the scene and its queries |
//! | `numbering`, `parts` | the number of each node, by the nodes in its fields |
//! | `values`, `given`, `row` | the values of fields, what a node gives them, and a node's fields |
//! | `labels` | the names that nodes keep |
//! | `build` | all parts of a scene together |
//! | `deep`, `places`, `wide` | the limits of a scene |
//! | `sensor_lists` | the pointing sensors in the lists of a scene |
//! | `state` | what nodes keep before any event |
//! | `fault` | why a scene can't be made |
//! | `at`, `behind` | access to lists by number, and lists whose next item may be a fault |
#![tactic(auto)]

mod at;
mod behind;
mod build;
mod deep;
mod fault;
mod given;
mod labels;
mod numbering;
mod parts;
mod places;
mod row;
mod scene;
mod sensor_lists;
mod state;
mod values;
mod wide;

pub use fault::{SceneFault, SceneFaultKind};
pub use parts::inner_nodes;
pub use places::is_pointing;
pub use row::{DeclaredField, NodeField};
pub use scene::{End, Route, Scene, SceneNode};
pub use values::{NumberedNodes, declared_given, given_value, is_taken};
