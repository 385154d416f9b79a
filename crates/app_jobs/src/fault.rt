//! Why a job is not run.

ghost use Rattle.std.specs.Prelude.{◌≡◌};
ghost use Rattle.app_jobs.specs.declared.fault.JobFault.TheVariants as job;
ghost use Rattle.app_jobs.specs.Faults.{of_read, of_expand, of_scene, of_route, of_attach};

use classic_text::{ReadFault, ReadFaultKind};
use proto_flat::{ExpandFault, ExpandFaultKind};
use route_core::{RouteFault, RouteFaultKind};
use scene_core::{SceneFault, SceneFaultKind};
use script_host::AttachFault;
use std::alloc::{AllocError, AllocFailed};
use thiserror::Error;

/// Why bytes are not a job or not a scene, or why the scripts of the scene are not run. The
/// variants are in the order of the tests: the whole input is read first, then its lines, then its
/// scene, then its scripts.
#[derive(Clone, Copy, Debug, PartialEq, Eq, Error)]
pub enum JobFault {
    #[error("the input or the output failed, or the input had no end")]
    Device,
    #[error("line {0} is not a step")]
    BadJob(u64),
    #[error(transparent)]
    Read(ReadFault),
    #[error(transparent)]
    Expand(ExpandFault),
    #[error(transparent)]
    Scene(SceneFault),
    #[error(transparent)]
    Route(RouteFault),
    #[error(transparent)]
    Attach(AttachFault),
    #[error("memory was refused")]
    Memory,
}

impl From<ReadFault> for JobFault {
    ghost from_gives = { λ read_fault fault. fault ≡ of_read read_fault };

    fn from(fault: ReadFault) -> JobFault {
        if fault.kind == ReadFaultKind::Memory {
            return JobFault::Memory;
        }
        JobFault::Read(fault)
    }
}

impl From<ExpandFault> for JobFault {
    ghost from_gives = { λ expand_fault fault. fault ≡ of_expand expand_fault };

    fn from(fault: ExpandFault) -> JobFault {
        if fault.kind == ExpandFaultKind::Memory {
            return JobFault::Memory;
        }
        JobFault::Expand(fault)
    }
}

impl From<SceneFault> for JobFault {
    ghost from_gives = { λ scene_fault fault. fault ≡ of_scene scene_fault };

    fn from(fault: SceneFault) -> JobFault {
        if fault.kind == SceneFaultKind::Memory {
            return JobFault::Memory;
        }
        JobFault::Scene(fault)
    }
}

impl From<RouteFault> for JobFault {
    ghost from_gives = { λ route_fault fault. fault ≡ of_route route_fault };

    fn from(fault: RouteFault) -> JobFault {
        if fault.kind == RouteFaultKind::Memory {
            return JobFault::Memory;
        }
        JobFault::Route(fault)
    }
}

impl From<AttachFault> for JobFault {
    ghost from_gives = { λ attach_fault fault. fault ≡ of_attach attach_fault };

    fn from(fault: AttachFault) -> JobFault {
        match fault {
            AttachFault::Memory => JobFault::Memory,
            _ => JobFault::Attach(fault),
        }
    }
}

impl From<AllocError> for JobFault {
    ghost from_gives = { λ _ fault. fault ≡ job.Memory };

    fn from(_refused: AllocError) -> JobFault {
        JobFault::Memory
    }
}

impl<T: Drop> From<AllocFailed<T>> for JobFault {
    ghost from_gives = { λ _ fault. fault ≡ job.Memory };

    fn from(_refused: AllocFailed<T>) -> JobFault {
        JobFault::Memory
    }
}
