//! Worlds, hosts, viewers and logs for C: an opaque handle for each, and a function for each thing
//! to do with it. include/x3d.h declares them.
//!
//! The functions of a world are in `open`, `inputs`, `scripts`, `shots`, `texts`, `lists`,
//! `changed` and `asks`. Those of a host are in `host` and `lasting`, and those of a viewer in
//! `viewer`, `joining`, `viewer_texts`, `viewer_lists`, `viewer_changed` and `viewer_asks`.
//! `routes` and `forgetting` have a call of a world and one of a viewer each. Those of a log in a
//! file are in `logs`. `datagram` reads a datagram, and `parts` makes the part of a text.
#![tactic(auto)]

mod asks;
mod changed;
mod datagram;
mod forgetting;
mod host;
mod inputs;
mod joining;
mod lasting;
mod lists;
mod logs;
mod open;
mod parts;
mod routes;
mod scripts;
mod shots;
mod texts;
mod viewer;
mod viewer_asks;
mod viewer_changed;
mod viewer_lists;
mod viewer_texts;
