//! What is known of the gateway's peers: why connections to them can't be made, and why they end; the figures of
//! outstations and clients; and what of it is due to be told, and how often.
#![tactic(auto)]

mod absence;
mod cause;
mod client_figures;
mod counted;
mod failure;
mod instant;
mod line_budget;
mod loss;
mod minute;
mod outstation_figures;
mod reconnects;
mod stray;
mod throttle;
mod unknown_asdu;
mod unreadable;

pub use absence::Absence;
pub use cause::Cause;
pub use client_figures::ClientFigures;
pub use counted::{AndMore, Counted};
pub use failure::Failure;
pub use line_budget::LineBudget;
pub use loss::Loss;
pub use outstation_figures::{DueNotes, Noticed, OutstationFigures, Refused};
pub use reconnects::Reconnects;
pub use stray::{StrayFrame, StrayFrames, Way};
pub use throttle::Throttle;
pub use unknown_asdu::UnknownAsdus;
pub use unreadable::Unreadable;
