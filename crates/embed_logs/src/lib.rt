//! A log in a file for a program that embeds a host: the bytes that the host gives are stored as
//! entries, and the bytes that are read make the host again.
#![tactic(auto)]

mod fault;
mod files;
mod held;
mod opening;
mod reading;
mod storing;

pub use fault::{LogFileFault, status_of_log_file, tell_frame};
pub use files::{LogFile, OpenedFile, make_file, open_file};
pub use held::EmbeddedLog;
pub use opening::{OpenedLog, make, open};
