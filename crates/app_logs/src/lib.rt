//! The commands of a host's log: a host that makes a log or goes on with one, and the inputs of a
//! log as the steps of a job.
//!
//! | Modules | Content |
//! |---|---|
//! | `beginning` | a host that makes a log, or goes on with one |
//! | `cutting` | a log that begins with a base |
//! | `clocks` | which clocks of a job are left after a log, and those that a host makes |
//! | `hosting` | turns of a host over a log, until its plan is done |
//! | `recalling`, `steps` | a log's file as the steps of a job |
//! | `restoring` | a log of the first inputs of another |
//! | `info` | what a log has, in lines |
//! | `laws` | that `run` reads these steps as the log's inputs |
//! | `fault`, `refusal` | faults, and what is printed of them |
#![tactic(auto)]

mod beginning;
mod clocks;
mod cutting;
mod fault;
mod hosting;
mod info;
mod laws;
mod recalling;
mod refusal;
mod restoring;
mod steps;

pub use beginning::{Begun, go_on, make_log, resumed};
pub use clocks::{Beat, clock_for, due_after, first_due, times_after};
pub use cutting::{entries_after, make_log_from};
pub use fault::{LogFault, RunFault, append_fault_of};
pub use hosting::{LogPlan, log_run};
pub use laws::logs_run_again;
pub use recalling::{recalled, recalled_info};
pub use refusal::{log_refusal_line, log_status_of};
pub use restoring::restored;
pub use share_entries::{Base, Entry, Head, is_viewer_count};
pub use share_file::{Expected, FileLog};
pub use share_logged::{LoggedFault, LoggedHost, resume};
pub use share_store::{AppendFault, Log, MemoryLog};
