//! The commands that read one input and write one output, and their answers.

use app_program::{Failure, RunOutput, check_text, format_text, refusal_line, run_job, status_of};
use std::alloc::Global;
use std::io::{Read, Write};

/// A command of the program.
#[derive(Clone, Copy)]
pub(super) enum Command {
    Check,
    Format,
    Run,
}

/// Reads the input and writes the output of a command.
pub(super) fn obey<R: Read, W: Write>(
    alloc: Global,
    command: Command,
    reader: &mut R,
    writer: &mut W,
) -> Result<(), Failure> {
    match command {
        Command::Check => Ok(check_text(alloc, reader, writer)?),
        Command::Format => Ok(format_text(alloc, reader, writer)?),
        Command::Run => run_job(alloc, RunOutput::TraceAndScene, reader, writer),
    }
}

/// Reports whether the answer is a refusal with this line and this status.
pub(super) fn is_refused(answer: Option<Failure>, line: &str, status: u8) -> bool {
    match answer {
        Some(failure) => {
            refusal_line(&failure).as_str() == line && status_of(&failure) == status
        }
        None => false,
    }
}
