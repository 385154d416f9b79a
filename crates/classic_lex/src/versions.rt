//! Versions of X3D.

ghost use Rattle.std.specs.Prelude.{◌≡◌};
ghost use Rattle.classic_lex.specs.Header.{version_text};

/// A version that a header line may name.
#[derive(Clone, Copy, PartialEq, Eq)]
pub enum Version {
    V3_0,
    V3_1,
    V3_2,
    V3_3,
    V4_0,
}

impl Version {
    /// Returns the version as a header names it, such as `3.0`.
    pub fn text(self) -> &'static str
        ensures { result.now ≡ version_text self }
    {
        match self {
            Version::V3_0 => "3.0",
            Version::V3_1 => "3.1",
            Version::V3_2 => "3.2",
            Version::V3_3 => "3.3",
            Version::V4_0 => "4.0",
        }
    }
}
