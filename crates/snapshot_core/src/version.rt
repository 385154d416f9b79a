//! The versions of snapshots.

ghost use Rattle.std.specs.Prelude.{◌≡◌};
ghost use Rattle.snapshot_core.specs.Opening.{newest, version_in};

use snapshot_codec::{Numbers, Viewers};

/// A version of snapshots that can be read.
#[derive(Clone, Copy, PartialEq, Eq)]
pub enum Version {
    /// For 16 viewers, and scenes without PlaneSensors.
    One,
    /// For 64 viewers.
    Two,
    /// For up to 2^48 - 1 inputs; the others are for up to 2^20.
    Three,
}

impl Version {
    ghost use Rattle.std.specs.Prelude.{◌≡◌};
    ghost use Rattle.snapshot_core.specs.Opening.{numbers_of, version_number, version_of, viewers_of};

    /// Returns the number of the version: the fifth byte of its snapshots.
    pub fn number(self) -> u8
        ensures { result ≡ version_number self }
    {
        match self {
            Version::One => 1,
            Version::Two => 2,
            Version::Three => 3,
        }
    }

    /// Returns the version of this number, if there is one.
    pub fn of_number(number: u8) -> Option<Version>
        ensures { result ≡ version_of number }
    {
        match number {
            1 => Some(Version::One),
            2 => Some(Version::Two),
            3 => Some(Version::Three),
            _ => None,
        }
    }

    /// Returns the number of viewers that a world has in snapshots of this version.
    pub fn viewers(self) -> Viewers
        ensures { result ≡ viewers_of self }
    {
        match self {
            Version::One => Viewers::Sixteen,
            Version::Two => Viewers::SixtyFour,
            Version::Three => Viewers::SixtyFour,
        }
    }

    /// Returns how many bits the numbers of inputs have in snapshots of this version.
    pub fn numbers(self) -> Numbers
        ensures { result ≡ numbers_of self }
    {
        match self {
            Version::One => Numbers::Short,
            Version::Two => Numbers::Short,
            Version::Three => Numbers::Long,
        }
    }
}

/// Returns the version of the snapshots that are written.
pub fn newest() -> Version
    ensures { result ≡ newest }
{
    Version::Three
}

/// Returns the version that the fifth byte names. Returns the newest version if there is no such
/// byte or it names no version.
pub fn version_in(bytes: &[u8]) -> Version
    ensures { result ≡ version_in bytes.now }
{
    let Some(number) = bytes.get(4) else {
        return newest();
    };
    match Version::of_number(*number) {
        Some(version) => version,
        None => newest(),
    }
}
