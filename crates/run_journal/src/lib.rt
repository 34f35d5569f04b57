//! What an operator is told of the gateway: events as lines of the journal, which a thread of its own writes to
//! standard error.
#![tactic(auto)]

mod command_words;
mod control_event;
mod doubt;
mod event;
mod journal;
mod note_line;
mod reason;
mod waiting;
mod write_trouble;

pub use control_event::{CommandEvent, OrderEvent};
pub use doubt::Doubt;
pub use event::{JournalEvent, Priority};
pub use journal::{AwaitedNote, Journal};
pub use reason::Reason;
pub use run_figures::{
    Cause, ClientFigures, DueNotes, Failure, LineBudget, Loss, Noticed, OutstationFigures,
    Reconnects, Refused, StrayFrame, Throttle, UnknownAsdus, Unreadable, Way,
};
pub use write_trouble::WriteTrouble;
