//! What every run of the step relation promises holds of the gateway that runs: of the hub under the lock, and of each
//! call that a worker makes on it.
#![tactic(auto)]

pub mod examples;
mod laws;

pub use laws::{close, core_keeps_promises, courses_keep_promises, orders_go_out_once};
