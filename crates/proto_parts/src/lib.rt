//! The parts that a walk over a text with prototypes is made of, each without the walk.
//!
//! | Modules | Content |
//! |---|---|
//! | `room`, `limit_laws` | how much more may be counted, and the laws of limits |
//! | `names`, `scope` | the names of a scope, and each step that changes it |
//! | `interface`, `fields`, `named` | the interface of a prototype, and its fields by name |
//! | `given`, `inside`, `values`, `closing` | what fields are given between braces |
//! | `put` | the nodes that were added |
//! | `ends`, `wires`, `routes`, `kept` | ROUTEs, put together without copying them |
//! | `joined`, `joins`, `sides`, `join_laws` | what ISs join |
#![tactic(auto)]

mod closing;
mod ends;
mod fields;
mod given;
mod inside;
mod interface;
mod join_laws;
mod joined;
mod joins;
mod kept;
mod limit_laws;
mod named;
mod names;
mod put;
mod room;
mod routes;
mod scope;
mod sides;
mod values;
mod wires;

pub use closing::{declarations, flat_fields};
pub use ends::{End, Ends, both, listed, one};
pub use fields::{Fields, KnownField, add_named};
pub use given::{Given, GivenField};
pub use inside::{Inside, Owner};
pub use interface::Interface;
pub use join_laws::joins_grow;
pub use joined::JoinedEnds;
pub use joins::{Braces, InstanceEnds, Join, Stands, joined_ends};
pub use kept::Branches;
pub use limit_laws::{limits_are_settled, parts_settle_in_turn};
pub use named::{RouteField, source_field, target_field};
pub use names::{Closed, Names};
pub use put::{PlacedNode, PutIn, flat_nodes};
pub use room::Room;
pub use routes::Wire;
pub use scope::Scope;
pub use sides::{Pending, RoutePart, Side, routes_made};
pub use values::{item_count, plain};
pub use wires::{Wires, both_wires, one_wire, routes_of};
