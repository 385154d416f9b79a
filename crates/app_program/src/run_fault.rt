//! Why a run ends early: the faults of its input, its output and its boxes.

ghost use Rattle.std.specs.Prelude.{◌≡◌};
ghost use Rattle.app_program.specs.Faults.{job_fault_of, run_fault_of, run_fault_of_boxes};
ghost use Rattle.app_program.specs.declared.run_fault.RunFault.TheVariants as run_fault;

use crate::stream::StreamFault;
use app_jobs::JobFault;
use script_host::AttachFault;
use std::alloc::AllocError;
use thiserror::Error;

impl From<StreamFault> for JobFault {
    ghost from_gives = { λ stream fault. fault ≡ job_fault_of stream };

    fn from(fault: StreamFault) -> JobFault {
        match fault {
            StreamFault::Device => JobFault::Device,
            StreamFault::Memory => JobFault::Memory,
        }
    }
}

/// Why a job is not run to its end.
#[derive(Clone, Copy, Debug, PartialEq, Eq, Error)]
pub enum RunFault {
    #[error(transparent)]
    Attach(AttachFault),
    #[error("the output failed")]
    Device,
    #[error("memory was refused")]
    Memory,
}

impl From<StreamFault> for RunFault {
    ghost from_gives = { λ stream fault. fault ≡ run_fault_of stream };

    fn from(fault: StreamFault) -> RunFault {
        match fault {
            StreamFault::Device => RunFault::Device,
            StreamFault::Memory => RunFault::Memory,
        }
    }
}

impl From<AttachFault> for RunFault {
    ghost from_gives = { λ attach_fault fault. fault ≡ run_fault_of_boxes attach_fault };

    fn from(fault: AttachFault) -> RunFault {
        match fault {
            AttachFault::Memory => RunFault::Memory,
            _ => RunFault::Attach(fault),
        }
    }
}

impl From<AllocError> for RunFault {
    ghost from_gives = { λ _ fault. fault ≡ run_fault.Memory };

    fn from(_refused: AllocError) -> RunFault {
        RunFault::Memory
    }
}
