//! What is to be said of an ASDU from a client of the station, by the settings alone.
#![tactic(auto)]

pub mod examples;
mod judging;
pub mod laws;
mod rules;

pub use judging::{Judged, judge};
pub use rules::{ALL_STATIONS, is_execute};
