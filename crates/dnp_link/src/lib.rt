//! The data link layer of DNP3 (IEEE Std 1815-2012, clause 9): frames in a stream of octets, and the
//! answers of a secondary station.
#![tactic(auto)]

mod checksum;
mod event;
pub mod examples;
mod feed;
mod frame;
pub mod laws;
mod reading;
mod secondary;
mod table;
mod writing;

pub use checksum::crc;
pub use event::{LinkEvent, SkipReason};
pub use feed::LinkFeed;
pub use frame::Frame;
pub use secondary::{Answer, Secondary};
pub use writing::{header_block, write_frame};
