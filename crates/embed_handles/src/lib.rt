//! Handles for C: each is a struct of one pointer, to a world, a host, a viewer, a log or a part
//! of a text on the heap, or null. `loose` is a box as its raw pointer.
#![tactic(auto)]

pub mod host_handle;
pub mod log_handle;
mod loose;
pub mod part_handle;
pub mod viewer_handle;
pub mod world_handle;

pub use host_handle::HostHandle;
pub use log_handle::LogHandle;
pub use loose::Loose;
pub use part_handle::PartHandle;
pub use viewer_handle::ViewerHandle;
pub use world_handle::WorldHandle;
