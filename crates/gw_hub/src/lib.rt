//! The core of the gateway: outstations and clients as one machine, `Hub`, that makes a step at a time
//! and waits for nobody. Each step is the step relation of `gw_steps`, and at each place of every run of it the
//! promises of `law_clients` hold. There are places for eight clients.
#![tactic(auto)]

mod common;
mod hub;
pub mod laws;
mod news;
mod orders;
mod parts;
mod tally;

pub use gw_steps::{
    Accepted, Apdu, ApduBuf, Effects, Fate, Ignored, Judged, Machine, OrderEnd, Outgoing, Reply,
    Signal, Step, StepFault, Verdict, Why,
};
pub use hub::Hub;
pub use tally::Counts;
