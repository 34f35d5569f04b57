//! What tests stand on: steps from the lines of a replay, cores and what they record, and peers in memory, with the workers
//! and lines that are tested. None of it ends a test; where something isn't as it has to be, it gives nothing.
#![tactic(auto)]

mod asking;
mod cores;
mod machine_source;
mod memory;
mod opening;
mod peers;
mod recorded;

pub use asking::{Answer, Turn, replies_of, step_of, steps_of, text_of};
pub use cmd_capture::{has_line, push_reply, push_step};
pub use cores::{Recorder, Shared, TestCore};
pub use gw_hub::{Counts, Hub, Machine};
pub use gw_steps::Verdict;
pub use gw_threads::{
    Arrival, Batch, Calls, Course, Entry, Gate, Incoming, Kept, Line, LineCourse, Load, OpenGate,
    Opened, Outgoing, Pass, Place, Put, Reply, Sending, Step, StepFault, Unwritten, Why, WorkerEnd,
    client_writer, clock, outstation_writer, put_out,
};
pub use machine_source::MachineSource;
pub use memory::{Client, Sent, has_termination, read_client, read_outstation};
pub use opening::{Opening, hub_on, replies_of_run};
pub use peers::{FROM_CLIENT, MASTER, SOURCES, Source, Still, TWO_OUTSTATIONS};
pub use recorded::{entries_since, fragment_of};
pub use run_ends::open_line;
