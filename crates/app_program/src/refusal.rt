//! The line that the program prints for a refusal, and its exit status.

ghost use Rattle.std.specs.Prelude.{◌≡◌, ◌≤◌, length};
ghost use Rattle.app_program.specs.Refusal.{status, attach_status, job_status, run_status, share_status, refusal_text};
ghost use Rattle.app_program.specs.Refusal.{failure_name, job_fault_name, run_fault_name, share_fault_name};
ghost use Rattle.app_program.specs.Refusal.{failure_line};

use crate::fault::ShareFault;
use crate::run_fault::RunFault;
use app_faults::OrderFault;
use app_jobs::JobFault;
use arrayvec::ArrayString;
use classic_text::ReadFaultKind;
use proto_flat::ExpandFaultKind;
use route_core::RouteFaultKind;
use scene_core::SceneFaultKind;
use script_host::AttachFault;
use thiserror::Error;

/// Every fault of the program: of its words, of its job and of its work.
#[derive(Clone, Copy, Debug, PartialEq, Eq, Error)]
pub enum Failure {
    #[error(transparent)]
    Order(#[from] OrderFault),
    #[error(transparent)]
    Job(#[from] JobFault),
    #[error(transparent)]
    Run(#[from] RunFault),
    #[error(transparent)]
    Share(#[from] ShareFault),
}

fn attach_status(fault: AttachFault) -> u8
    ensures { result ≡ attach_status fault }
{
    match fault {
        AttachFault::Memory => 5,
        _ => 1,
    }
}

fn job_status(fault: &JobFault) -> u8
    ensures { result ≡ job_status fault.now }
{
    match fault {
        JobFault::Device => 4,
        JobFault::BadJob(_) => 2,
        JobFault::Read(fault) if fault.kind == ReadFaultKind::Memory => 5,
        JobFault::Expand(fault) if fault.kind == ExpandFaultKind::Memory => 5,
        JobFault::Scene(fault) if fault.kind == SceneFaultKind::Memory => 5,
        JobFault::Route(fault) if fault.kind == RouteFaultKind::Memory => 5,
        JobFault::Read(_) => 1,
        JobFault::Expand(_) => 1,
        JobFault::Scene(_) => 1,
        JobFault::Route(_) => 1,
        JobFault::Attach(fault) => attach_status(*fault),
        JobFault::Memory => 5,
    }
}

fn run_status(fault: RunFault) -> u8
    ensures { result ≡ run_status fault }
{
    match fault {
        RunFault::Attach(fault) => attach_status(fault),
        RunFault::Device => 4,
        RunFault::Memory => 5,
    }
}

fn share_status(fault: ShareFault) -> u8
    ensures { result ≡ share_status fault }
{
    match fault {
        ShareFault::BadSnapshot => 1,
        ShareFault::BootNotNew => 2,
        ShareFault::BootsSpent => 2,
        ShareFault::TurnsUsedUp => 3,
        ShareFault::OtherRun => 3,
        ShareFault::OtherList => 3,
        ShareFault::NoWelcome => 3,
        ShareFault::Port => 4,
        ShareFault::Spoiled => 5,
        ShareFault::Memory => 5,
    }
}

/// Returns the exit status: 1 for a refused scene, its scripts or a snapshot; 2 for words, boots
/// and jobs; 3 for turns that are used up, or a run that a viewer can't be in; 4 for devices; 5 for
/// memory.
pub fn status_of(failure: &Failure) -> u8
    ensures { result ≡ status failure.now }
{
    match failure {
        Failure::Order(OrderFault::Words) => 2,
        Failure::Order(OrderFault::Memory) => 5,
        Failure::Job(fault) => job_status(fault),
        Failure::Run(fault) => run_status(*fault),
        Failure::Share(fault) => share_status(*fault),
    }
}

/// Returns the name of the innermost fault.
pub fn job_fault_name(fault: &JobFault) -> &'static str
    ensures name { result.now ≡ job_fault_name fault.now }
    ensures short { length result.now ≤ 20 }
{
    match fault {
        JobFault::Device => "Device",
        JobFault::BadJob(_) => "BadJob",
        JobFault::Read(fault) => fault.kind.name(),
        JobFault::Expand(fault) => fault.kind.name(),
        JobFault::Scene(fault) => fault.kind.name(),
        JobFault::Route(fault) => fault.kind.name(),
        JobFault::Attach(fault) => fault.name(),
        JobFault::Memory => "Memory",
    }
}

fn run_fault_name(fault: RunFault) -> &'static str
    ensures name { result.now ≡ run_fault_name fault }
    ensures short { length result.now ≤ 20 }
{
    match fault {
        RunFault::Attach(fault) => fault.name(),
        RunFault::Device => "Device",
        RunFault::Memory => "Memory",
    }
}

fn share_fault_name(fault: ShareFault) -> &'static str
    ensures name { result.now ≡ share_fault_name fault }
    ensures short { length result.now ≤ 20 }
{
    match fault {
        ShareFault::Port => "Port",
        ShareFault::TurnsUsedUp => "TurnsUsedUp",
        ShareFault::BootNotNew => "BootNotNew",
        ShareFault::BootsSpent => "BootsSpent",
        ShareFault::BadSnapshot => "BadSnapshot",
        ShareFault::OtherRun => "OtherRun",
        ShareFault::OtherList => "OtherList",
        ShareFault::NoWelcome => "NoWelcome",
        ShareFault::Spoiled => "Spoiled",
        ShareFault::Memory => "Memory",
    }
}

fn name_of(failure: &Failure) -> &'static str
    ensures name { result.now ≡ failure_name failure.now }
    ensures short { length result.now ≤ 20 }
{
    match failure {
        Failure::Order(OrderFault::Words) => "Words",
        Failure::Order(OrderFault::Memory) => "Memory",
        Failure::Job(fault) => job_fault_name(fault),
        Failure::Run(fault) => run_fault_name(*fault),
        Failure::Share(fault) => share_fault_name(*fault),
    }
}

fn line_of(failure: &Failure) -> u64
    ensures { result ≡ failure_line failure.now }
{
    match failure {
        Failure::Job(JobFault::BadJob(line)) => *line,
        Failure::Job(JobFault::Read(fault)) => fault.line as u64,
        Failure::Job(JobFault::Expand(fault)) => fault.line as u64,
        Failure::Job(JobFault::Scene(fault)) => fault.line as u64,
        Failure::Job(JobFault::Route(fault)) => fault.line as u64,
        _ => 0,
    }
}

/// Returns `refused NAME`, followed by ` line N` if the fault has a line other than 0.
pub fn refusal_line(failure: &Failure) -> ArrayString<64>
    ensures { result.bytes ≡ refusal_text failure.now }
{
    let mut text = ArrayString::new();
    text.push_str("refused ");
    text.push_str(name_of(failure));
    let line = line_of(failure);
    if line != 0 {
        text.push_str(" line ");
        let mut buffer = itoa::Buffer::new();
        text.push_str(buffer.format(line));
    }
    text
}
