//! The path of an outstation's octets through the layers of DNP3 (IEEE Std 1815-2012): frames of the data link
//! layer, fragments of the transport function, and responses of the application layer.
#![tactic(auto)]

mod delivery;
pub mod examples;
mod gathering;
pub mod laws;
mod receiver;

pub use delivery::{fragments_of, replies_of, responses_of};
pub use receiver::{Received, Receiver};
