//! The core under one lock: any thread makes steps on it, each with a pass of its own. A step counts on the pass and
//! under the lock alike, so that whoever has all passes again knows how many steps were made.
//!
//! Beside the machine lie under the lock the recorder: the steps that were made on it, each with its actor and its reply,
//! since a base that is the machine as it was before them (`specs/Recorded.antt`); and what follows from its steps: which
//! workers they serve, whether clients keep up, how requests to outstations follow each other, and what is counted. Who is told
//! of the steps that workers make, with no lock held, is a `Gate`.
#![tactic(auto)]

mod awake_writers;
mod bells;
mod calls;
mod close;
mod course;
mod entry;
pub mod examples;
mod figures;
mod gate;
mod holdback;
mod kept;
pub mod laws;
mod locked;
mod observer;
mod order_counts;
mod pacing;
mod pass;
mod pausing;
mod pumped;
mod recorder;
mod shared;
mod streak;
mod tally;
mod tape;
mod wake_set;

pub use calls::Calls;
pub use close::{CloseFault, Closed};
pub use course::{Course, Made, open_course};
pub use entry::Entry;
pub use figures::Figures;
pub use gate::{FrameHeader, Gate, OpenGate, Place};
pub use gw_control::{Answer, Refusal};
pub use gw_steps::{
    Apdu, ApduBuf, ApduKind, Effects, Fate, Judged, Machine, NewsPiece, OrderEnd, Pumps, Reply,
    Reported, Step, StepFault, StepKind, Task, UnknownAsdu, Verdict, Why,
};
pub use holdback::Load;
pub use kept::{Kept, KeptStep};
pub use locked::Core;
pub use observer::Observer;
pub use order_counts::OrderCounts;
pub use pass::Pass;
pub use pausing::pause;
pub use pumped::{PumpRun, Pumped};
pub use recorder::{Dump, NoRoom, Recorder};
pub use run_clock::Bell;
pub use run_log::Opened;
pub use shared::Shared;
pub use tally::order_accepted;
