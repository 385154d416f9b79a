//! Runs, sessions, and the datagrams of version 2.
//!
//! A run is 16 bytes that name one list of inputs. A session is 16 bytes that name a run of one
//! scene; each datagram but a Hello and a Welcome begins with it. `encode` returns the datagram of
//! a message, and `decode` the message of a datagram, or the first fault. Neither takes memory.
//! `heard` is what a world hears of a message, and `taken` is the test by which a viewer never
//! applies an input of another list.
#![tactic(auto)]

mod decoding;
mod encoding;
mod fault;
mod following;
mod hearing;
mod laws;
mod message;
mod name;
mod numbers;
mod packet;
mod piece;
mod prefix;
mod reading;
mod run;
mod welcoming;
mod writing;

pub use decoding::decode;
pub use encoding::encode;
pub use fault::DatagramFault;
pub use following::{chains_agree, follows, never_fails, next_chain, taken};
pub use hearing::{heard, lifted};
pub use laws::{datagrams_tell_runs_apart, peers_hear_their_run, welcomes_are_shorter};
pub use message::{Ask2, Body2, Hello, Input2, Message2, Welcome};
pub use name::{WorldName, is_name_byte};
pub use numbers::{MAX_NUMBER, Number, SeatNumber, ViewerCount, is_number};
pub use packet::{MAX_PACKET, Packet2};
pub use piece::{Piece2, PieceHead};
pub use prefix::Prefix;
pub use run::{Run, Session, session_of, sessions_tell_runs_apart};
