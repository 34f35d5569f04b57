//! The core's step relation: steps and replies, the state as its parts' values, what a step is answered and what the
//! state is after it, and runs of steps. `specs/Steps.antt` is the relation; the hub's code meets it, and what stands
//! above the hub knows it as a `Machine`.
#![tactic(auto)]

mod answer;
mod apdu_kind;
mod effects;
mod examples;
mod machine;
mod pumps;
mod step;

pub use answer::apdu_in;
pub use apdu_kind::ApduKind;
pub use dnp_master::{Fate, Ignored, Reported, Task, Verdict};
pub use effects::{Effects, Judged, OrderEnd, fate_answered, only};
pub use examples::{interrogations_by_example, replies_by_example, runs_by_example};
pub use gw_control::{Accepted, Outgoing};
pub use gw_station::NewsPiece;
pub use iec_apci::{Apdu, ApduBuf, Signal, Why};
pub use iec_command::UnknownAsdu;
pub use machine::Machine;
pub use pumps::Pumps;
pub use step::{Reply, Step, StepFault, StepKind};
