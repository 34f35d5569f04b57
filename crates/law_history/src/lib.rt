//! What a run tells of itself, by steps and replies alone but for what its controls told: which fragments were
//! accepted, the log of their news and of the losses, each client's life with its session, and what is confirmed; and
//! what ties these to the state.
#![tactic(auto)]

mod examples;

pub use examples::{confirmations_by_example, lives_by_example};
