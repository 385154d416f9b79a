//! Tests of hosts, viewers, their turns, and snapshots that earlier versions stored, through their
//! public calls. The crate has nothing else.
#![tactic(auto)]

#[cfg(test)]
mod tests;
