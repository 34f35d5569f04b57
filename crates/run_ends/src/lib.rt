//! What stands between a worker and its peer: the two ends of a connection, batches of APDUs and how they are handed
//! over, the line to an outstation, and how workers end. Nothing here knows the shared core: `put_out` takes replies
//! of whatever gives them.
#![tactic(auto)]

mod ends;
pub mod examples;
pub mod laws;
mod line;
mod putting;
mod sent;
mod wire;
mod worker_end;

pub use ends::{Arrival, Incoming, Outgoing, Unwritten};
pub use gw_steps::apdu_in;
pub use iec_apci::{Batch, LONGEST_APDU};
pub use line::{Line, LineCourse};
pub use putting::{Gathered, Put, Source, put_out};
pub use run_log::{Front, Head, Opened};
pub use sent::{Sending, Sent, open_line};
pub use worker_end::WorkerEnd;
