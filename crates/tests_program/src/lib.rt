//! Tests of the program's calls, from the bytes of a job or a scene to its texts, and of the
//! scripts, hosts and viewers below them. The crate has nothing else.
#![tactic(auto)]

#[cfg(test)]
mod tests;
