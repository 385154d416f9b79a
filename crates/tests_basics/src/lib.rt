//! Tests of the crates below the scene: lists, numerals, bytes, values, tokens, datagrams, parts of
//! snapshots, reactions, sensors, typed values, and prototypes that are resolved. The crate has
//! nothing else.
#![tactic(auto)]

#[cfg(test)]
mod tests;
