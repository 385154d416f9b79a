//! The numbers that C sees for answers.

ghost use Rattle.std.specs.Prelude.{◌≡◌};
ghost use Rattle.embed_world.specs.Status.{status_of_apply, status_of_look, status_of_place, status_of_save, status_of_snap};

use crate::fault::LookFault;
use cascade_core::{ApplyFault, PlaceFault};
use snapshot_core::{SaveFault, SnapFault};

/// The call succeeded.
pub const DONE: u8 = 0;

/// Memory ran out.
pub const MEMORY: u8 = 5;

/// The handle is empty.
pub const CLOSED: u8 = 10;

/// A number is out of its range; nothing was done.
pub const RANGE: u8 = 11;

/// There was no room for all bytes or numbers; none were copied.
pub const ROOM: u8 = 12;

/// Memory ran out at an earlier input.
pub const SPOILED: u8 = 20;

const NOT_NEXT: u8 = 21;

pub const TIME_NOT_LATER: u8 = 22;

pub const NO_SUCH_NODE: u8 = 23;

pub const NO_SUCH_FIELD: u8 = 24;

const NO_SUCH_SCRIPT: u8 = 26;

const KIND_DIFFERS: u8 = 27;

const NO_VALUE: u8 = 28;

const SHORT: u8 = 30;

const BAD_MAGIC: u8 = 31;

pub const BAD_VERSION: u8 = 32;

pub const WRONG_SCENE: u8 = 33;

const BAD_DIGEST: u8 = 34;

const NOT_CANONICAL: u8 = 35;

const BOOT_NOT_NEW: u8 = 36;

const SCRIPT_STATE: u8 = 37;

/// The number for why an input was not applied.
pub fn status_of_apply(fault: ApplyFault) -> u8
    ensures { result ≡ status_of_apply fault }
{
    match fault {
        ApplyFault::Spoiled => SPOILED,
        ApplyFault::NotNext => NOT_NEXT,
        ApplyFault::TimeNotLater => TIME_NOT_LATER,
        ApplyFault::Memory => MEMORY,
    }
}

/// The number for whether something was read, or why not.
pub fn status_of_look(answer: Result<(), LookFault>) -> u8
    ensures { result ≡ status_of_look answer }
{
    match answer {
        Ok(()) => DONE,
        Err(LookFault::Spoiled) => SPOILED,
        Err(LookFault::NoSuchNode) => NO_SUCH_NODE,
        Err(LookFault::NoSuchField) => NO_SUCH_FIELD,
        Err(LookFault::NoValue) => NO_VALUE,
        Err(LookFault::Memory) => MEMORY,
    }
}

/// The number for whether a script was replaced, or why not.
pub fn status_of_place(answer: Result<(), PlaceFault>) -> u8
    ensures { result ≡ status_of_place answer }
{
    match answer {
        Ok(()) => DONE,
        Err(PlaceFault::Spoiled) => SPOILED,
        Err(PlaceFault::NoSuchScript) => NO_SUCH_SCRIPT,
        Err(PlaceFault::KindDiffers) => KIND_DIFFERS,
        Err(PlaceFault::Memory) => MEMORY,
    }
}

/// The number for whether a snapshot was made, or why not.
pub fn status_of_save(answer: Result<(), SaveFault>) -> u8
    ensures { result ≡ status_of_save answer }
{
    match answer {
        Ok(()) => DONE,
        Err(SaveFault::Spoiled) => SPOILED,
        Err(SaveFault::Memory) => MEMORY,
    }
}

/// The number for why no world was made from a snapshot.
pub fn status_of_snap(fault: SnapFault) -> u8
    ensures { result ≡ status_of_snap fault }
{
    match fault {
        SnapFault::Short => SHORT,
        SnapFault::BadMagic => BAD_MAGIC,
        SnapFault::BadVersion => BAD_VERSION,
        SnapFault::WrongScene => WRONG_SCENE,
        SnapFault::BadDigest => BAD_DIGEST,
        SnapFault::NotCanonical => NOT_CANONICAL,
        SnapFault::BootNotNew => BOOT_NOT_NEW,
        SnapFault::ScriptState => SCRIPT_STATE,
        SnapFault::Memory => MEMORY,
    }
}
