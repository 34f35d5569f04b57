//! What steps tell besides their replies, in every run of the core: nobody who has something to do is left asleep, a
//! request is told unanswered where its time has passed, what the reply to a fragment says of an order is its fate, and the
//! ends of sessions and the reasons of negative confirmations are told where they are.
#![tactic(auto)]

mod examples;
mod laws;
mod reason_examples;

pub use examples::{
    endings_by_example, lateness_by_example, replies_by_example, rousing_by_example,
};
pub use laws::{
    ended_sessions_are_told, negatives_have_reasons, nobody_is_left_asleep, replies_tell_fates,
    unanswered_are_late,
};
pub use reason_examples::{
    answers_by_example, each_fate_by_example, let_go_by_example, refusals_by_example,
    returns_by_example,
};
