//! The faults of saving and loading, each list in the order of precedence.

ghost use Rattle.std.specs.Prelude.{◌≡◌};
ghost use Rattle.snapshot_core.specs.Loading.{fault_of};

use snapshot_codec::HeadFault;
use std::fmt;
use thiserror::Error;

/// Why no snapshot was taken.
#[derive(Clone, Copy, Debug, PartialEq, Eq, Error)]
pub enum SaveFault {
    #[error("memory was refused before")]
    Spoiled,
    #[error("memory was refused")]
    Memory,
}

/// Why no world was made of a snapshot.
#[derive(Clone, Copy, Debug, PartialEq, Eq, Error)]
pub enum SnapFault {
    #[error("the snapshot is not whole")]
    Short,
    #[error("this is not a snapshot")]
    BadMagic,
    #[error("the version of the snapshot is not 1, 2 or 3")]
    BadVersion,
    #[error("the snapshot is of another scene")]
    WrongScene,
    #[error("the snapshot was altered")]
    BadDigest,
    #[error("the snapshot is none that could be written")]
    NotCanonical,
    #[error("the boot is not above the earlier ones")]
    BootNotNew,
    #[error("the state of a script does not fit")]
    ScriptState,
    #[error("memory was refused")]
    Memory,
}

/// Returns the fault for a fault of the head or the digest.
pub(crate) fn fault_of(fault: HeadFault) -> SnapFault
    ensures { result ≡ fault_of fault }
{
    match fault {
        HeadFault::Short => SnapFault::Short,
        HeadFault::BadMagic => SnapFault::BadMagic,
        HeadFault::BadVersion => SnapFault::BadVersion,
        HeadFault::WrongScene => SnapFault::WrongScene,
        HeadFault::BadDigest => SnapFault::BadDigest,
    }
}
