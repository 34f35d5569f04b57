//! Workers round the shared core: calls on it, the gate that is told of them, and the clock; the writers, which ask the core
//! what goes to a peer and hand it over; and the readers, which take octets from a peer, turn them into steps and make these.
//! The core's lock isn't held while octets are handed over, read or taken apart. Each worker gives its pass back when it ends,
//! and tells why it ended.
#![tactic(auto)]

mod awaited;
mod call;
mod client_reading;
mod client_writing;
pub mod examples;
pub mod laws;
mod link_check;
mod outstation_reading;
mod outstation_writing;
pub mod reading_examples;
pub mod reading_laws;
mod standstill;
mod ticking;
mod worker;

pub use awaited::Awaited;
pub use call::make_call;
pub use client_reading::{ClientReader, client_reader};
pub use client_writing::{ClientWriter, client_writer};
pub use link_check::LinkCheck;
pub use outstation_reading::{OutstationReader, Patience, outstation_reader};
pub use outstation_writing::{OutstationWriter, outstation_writer};
pub use run_clock::Clock;
pub use run_ends::{
    Arrival, Batch, Front, Gathered, Head, Incoming, Line, LineCourse, Outgoing, Put, Sending,
    Source, Unwritten, WorkerEnd, apdu_in, put_out,
};
pub use run_shared::{
    Answer, ApduKind, Bell, Calls, CloseFault, Closed, Core, Course, Effects, Entry, Fate, Figures,
    FrameHeader, Gate, Judged, Kept, KeptStep, Load, Machine, Made, NewsPiece, Observer, OpenGate,
    Opened, OrderCounts, OrderEnd, Pass, Place, PumpRun, Pumped, Pumps, Recorder, Refusal, Reply,
    Reported, Shared, Step, StepFault, StepKind, Task, UnknownAsdu, Verdict, Why, open_course,
    order_accepted, pause,
};
pub use standstill::Turns;
pub use ticking::clock;
pub use worker::Worker;
