//! Connections on TCP sockets, one after another: those to the outstations, and those of the clients at each slot. A
//! connection has a reader and a writer, each in a thread of its own, and ends once both have; an operator is told why.
#![tactic(auto)]

mod beside;
mod client;
mod ending;
mod outstation;
mod passes;
mod periodic_report;
mod server;
mod sockets;
mod system;

pub use client::ClientPasses;
pub use gw_threads::{
    Calls, Closed, Course, Effects, Gate, Observer, OpenGate, Pass, Place, Pumps, Reply, Shared,
    Step, StepFault, StepKind, clock,
};
pub use outstation::OutstationPasses;
pub use passes::{Passes, PollPass, PumpPass};
pub use server::Server;
pub use system::System;
