//! The flat form of a document with prototypes: its nodes by number (ISO/IEC 19775-1, 4.4.4,
//! prototypes; 4.4.3, DEF and USE).
#![tactic(auto)]

mod document;
mod rows;
mod whole;

pub use document::expand;
