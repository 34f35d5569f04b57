//! What an operator sees of a server: the journal is told of steps and of controls, what is known of each peer is kept, and
//! the status is served on an address of its own.
#![tactic(auto)]

mod asked_values;
mod controls;
mod event_queue;
mod following;
mod process;
mod status;
mod status_source;
mod values;
mod watched;

pub use event_queue::EventQueue;
pub use following::follow;
pub use process::ProcessFiles;
pub use run_status::Identity;
pub use status::serve_status;
pub use status_source::StatusSource;
pub use values::Values;
pub use watched::Watched;
