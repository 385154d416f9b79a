//! Why a text is not a key file.

ghost use Rattle.std.specs.Prelude.{◌≡◌};
ghost use Rattle.share_key_files.specs.Faults.{key_fault_name};

use thiserror::Error;

/// What is wrong with a line of a key file, or with the whole file.
#[derive(Clone, Copy, Debug, PartialEq, Eq, Error)]
pub enum KeyFault {
    #[error("the line is not a viewer's number, a space and 64 hexadecimal digits")]
    BadLine,
    #[error("the viewer has a key already")]
    ViewerTwice,
    #[error("the file has no key")]
    NoKeys,
    #[error("the file has more than one key")]
    TooManyKeys,
}

impl KeyFault {
    /// Returns the name of the variant.
    pub fn name(self) -> &'static str
        ensures { result.now ≡ key_fault_name self }
    {
        match self {
            KeyFault::BadLine => "BadLine",
            KeyFault::ViewerTwice => "ViewerTwice",
            KeyFault::NoKeys => "NoKeys",
            KeyFault::TooManyKeys => "TooManyKeys",
        }
    }
}

/// The first fault of a key file. For `NoKeys` the line is the number of lines.
#[derive(Clone, Copy, Debug, PartialEq, Eq)]
pub struct KeyFileFault {
    /// From 1.
    pub line: usize,
    pub kind: KeyFault,
}
