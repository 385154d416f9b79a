//! Many worlds in one process, each a job of clocks in a folder with its log and its keys, over one
//! socket.
//!
//! | Modules | Content |
//! |---|---|
//! | `serving` | what is served, and how |
//! | `world`, `stack` | a world that runs, and its ports |
//! | `opening`, `starting`, `beginning` | how a world is opened, and how its log begins |
//! | `turning`, `alone`, `shared` | a turn of a world, over the log of a file or of etcd |
//! | `etcd`, `tails` | etcd, and which worlds have changed there |
//! | `basing`, `shots` | bases of logs, and the snapshots there |
//! | `worlds` | the worlds of a folder |
//! | `folder`, `names`, `stamps` | the files of a folder |
//! | `looping` | the loop over the socket |
//! | `end`, `telling` | why a command or a world ends, and what is printed |
//! | `files`, `key_files`, `places` | files of logs and of keys, and where a host is |
#![tactic(auto)]

mod alone;
mod basing;
mod beginning;
mod end;
mod etcd;
mod files;
mod folder;
mod key_files;
mod known;
mod looping;
mod names;
mod opening;
mod places;
mod serving;
mod shared;
mod shots;
mod stack;
mod stamps;
mod starting;
mod tails;
mod telling;
mod turning;
mod world;
mod worlds;

pub use beginning::{gone_on, made};
pub use end::End;
pub use etcd::{Etcd, EtcdWay, etcd_at, world_end};
pub use files::{LogDisk, disk_at, drawn_run};
pub use key_files::{drawn_bytes, host_keys, make_keys, viewer_key};
pub use looping::serve;
pub use places::{Place, addresses_at, may_be_reached, place_of, world_of};
pub use serving::{Serving, VIEWERS};
pub use shots::{stage_at, stage_with};
pub use starting::parts_of;
pub use telling::refuse;
