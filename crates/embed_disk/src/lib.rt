//! A file of the system as a disk, for programs that have no runtime handle: its bytes are held in
//! memory too, and a lock keeps other programs out of it.
#![tactic(auto)]

mod calls;
mod fault;
mod mirror;
mod mirrored;
mod names;
mod opening;

pub use fault::FileFault;
pub use mirrored::MirroredFile;
pub use opening::{FileUse, open_file};
