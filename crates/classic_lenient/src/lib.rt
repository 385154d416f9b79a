//! Reads a text of the Classic VRML encoding (ISO/IEC 19776-2) that has statements which the core
//! doesn't read: those statements are left out, and noted.
//!
//! | Modules | Content |
//! |---|---|
//! | `mark`, `pieces` | what each token is to such statements |
//! | `lengths`, `scan` | how long a statement is, and where one begins |
//! | `blanks`, `header` | the text with spaces for such statements, and under a header of X3D |
//! | `reading`, `laws` | from a text to its document |
#![tactic(auto)]

mod blanks;
mod header;
mod laws;
mod lengths;
mod mark;
mod pieces;
mod reading;
mod scan;

pub use header::as_x3d;
pub use laws::texts_that_are_read_stay;
pub use pieces::bytes_at;
pub use reading::{Lenient, read_lenient};
pub use scan::{Unread, UnreadKind};
