//! The fault of words that are no command.

ghost use Rattle.std.specs.Prelude.{◌≡◌};
ghost use Rattle.std.specs.IoError.{error_kind};
ghost use Rattle.app_faults.specs.Faults.{order_fault_of};
ghost use Rattle.app_faults.specs.declared.fault.OrderFault.TheVariants as order_fault;

use std::alloc::AllocError;
use std::io;
use thiserror::Error;

/// Why words ask for nothing.
#[derive(Clone, Copy, Debug, PartialEq, Eq, Error)]
pub enum OrderFault {
    #[error("the words are not a command")]
    Words,
    #[error("memory was refused")]
    Memory,
}

impl From<AllocError> for OrderFault {
    ghost from_gives = { λ _ fault. fault ≡ order_fault.Memory };

    fn from(_refused: AllocError) -> OrderFault {
        OrderFault::Memory
    }
}

/// The fault if the process's own words can't be read.
impl From<io::Error> for OrderFault {
    ghost from_gives = { λ error fault. fault ≡ order_fault_of (error_kind error) };

    fn from(error: io::Error) -> OrderFault {
        match error.kind() {
            io::ErrorKind::OutOfMemory => OrderFault::Memory,
            _ => OrderFault::Words,
        }
    }
}
