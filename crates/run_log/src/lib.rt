//! One log for all threads, which exists in proofs alone: its end lies under a lock, where entries are added, and each
//! thread knows a beginning of it, and has a lane, of which the log has just the entries that the thread added.
//! Contracts see logs newest first.
#![tactic(auto)]

pub mod examples;
mod link;
mod log;

pub use log::{Front, Head, Naming, Opened};
