//! A host and viewers alone: damaged datagrams and snapshots, growths that are refused, and a port
//! that fails.

mod calls;
mod damaged;
mod drags;
mod dropping;
mod forgetting;
mod gathering;
mod given;
mod hosting;
mod joins;
mod keeping;
mod long;
mod memory;
mod ports;
mod snapshots;
mod turns;
