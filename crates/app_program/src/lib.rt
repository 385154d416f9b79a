//! The program's calls on bytes: opening and running a job, checking and formatting a scene, and
//! what a refusal prints.
//!
//! | Modules | Content |
//! |---|---|
//! | `open`, `stages`, `boxes` | from the bytes of a job to a stage with boxes for its scripts |
//! | `runs`, `run_output`, `texts` | runs a job, and writes its texts |
//! | `check`, `format`, `laws` | checks a text, formats it, and a law of formatted texts |
//! | `stream`, `counted` | reads an input whole, and writes an output whole |
//! | `fault`, `run_fault`, `refusal` | faults, and what is printed of them |
#![tactic(auto)]

mod boxes;
mod check;
mod counted;
mod fault;
mod format;
mod laws;
mod open;
mod refusal;
mod run_fault;
mod run_output;
mod runs;
mod stages;
mod stream;
mod texts;

pub use app_jobs::{JobFault, JobInputs, Schedule, Steps, job_of, schedule_of};
pub use boxes::attach;
pub use check::check_text;
pub use fault::ShareFault;
pub use format::format_text;
pub use laws::formatted_texts_stay;
pub use open::{
    Job, OpenedScene, open_document, open_flat, open_job, open_scene, read_job, read_schedule,
};
pub use refusal::{Failure, job_fault_name, refusal_line, status_of};
pub use run_fault::RunFault;
pub use run_output::RunOutput;
pub use runs::{run, run_job, run_stock};
pub use stages::{fresh_stage, stage_of};
pub use stream::{MAX_READS, StreamFault, read_whole, write_whole};
pub use texts::write_made;
