//! The commands that go through an input from its front to its end, and write what it comes to: `gateway translate` reads DNP3
//! fragments in hexadecimal, one a line, and writes confirmations and ASDUs; `gateway replay` makes steps and writes the replies;
//! `gateway pcap` makes a capture of packets of a record, which a program that knows the protocols shows in words.
//!
//! The core's record has fragments and APDUs alone. So the packets round them are made anew: addresses are made up, and link
//! frames, the transport function and TCP are such as would carry them. Times are those of the record's moments, on the wall
//! clock as the last poll told it.
#![tactic(auto)]

mod capturing;
mod connection;
mod decision;
pub mod examples;
mod packet;
mod peer;
mod player;
mod showing;
mod streaming;
mod tape;
mod translator;
mod words;

pub use capturing::pcap;
pub use streaming::{replay, translate};
