//! A law of the parts of texts: what stays of a text is as it was there.
#![tactic(auto)]

mod law;

pub use law::what_stays_is_as_it_was;
