//! The stock: a handler for each kind of script that this core runs, and the boxes for the scripts
//! that a scene asks for.
//!
//! `adder`, `batch`, `counter`, `gate`, `meter` and `mover` are the kinds. `stock` is a script of
//! any one of these kinds. `boxes` creates a box for each script that is asked for. `laws` says
//! that no other stock boxes fit.
#![tactic(auto)]

mod adder;
mod batch;
mod boxes;
mod counter;
mod gate;
mod laws;
mod meter;
mod mover;
mod numbers;
mod replies;
mod stock;

pub use adder::Adder;
pub use batch::Batch;
pub use boxes::{attach_stock, blank_box, boxes_of};
pub use counter::Counter;
pub use gate::Gate;
pub use laws::fitting_boxes_are_one;
pub use meter::Meter;
pub use mover::Mover;
pub use stock::StockScript;
