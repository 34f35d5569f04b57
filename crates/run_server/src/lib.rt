//! The gateway on sockets: it listens for control centres, connects to outstations, and runs the workers round a shared
//! core, each in a thread of its own, until it is to end.
#![tactic(auto)]

mod options;
mod serving;
mod thread_role;

pub use options::Options;
pub use run_clock::{Clock, SystemClock};
pub use run_connections::{
    Closed, Effects, Gate, Observer, OpenGate, Place, Pumps, Reply, Step, StepFault, StepKind,
    System,
};
pub use run_journal::{Journal, JournalEvent};
pub use run_watch::{EventQueue, Identity, ProcessFiles, Values};
pub use serving::{journal_of, serve, serve_as};
