//! `gateway check`: what a settings file means, or what is wrong with it.
#![tactic(auto)]

mod allowed;
mod document;
mod entries;
mod faults;
mod reading;
mod report;
mod seen;
mod sentence;

pub use cmd_profile::Origin;
pub use reading::{LONGEST_FILE, Unusable, read_settings};
pub use report::CheckReport;
pub use sentence::explain;
