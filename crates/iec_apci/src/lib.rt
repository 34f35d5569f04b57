//! The transport interface of IEC 60870-5-104 (clause 5): APDUs in a stream of octets, read and written.
#![tactic(auto)]

mod apdu;
mod apdus;
mod batch;
mod buffer;
pub mod examples;
mod fault;
mod feed;
pub mod laws;
mod reading;
mod why;
mod writing;

pub use apdu::{Apdu, Asdu, Signal};
pub use apdus::Apdus;
pub use batch::{Batch, LONGEST_APDU};
pub use buffer::ApduBuf;
pub use fault::ApciFault;
pub use feed::ApduFeed;
pub use why::Why;
pub use writing::write_apdu;
