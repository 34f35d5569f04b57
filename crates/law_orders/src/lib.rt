//! Laws of what goes to outstations in every run of the core, by steps and replies. Of controls: each request that
//! operates an output is that of one accepted execute (IEEE Std 1815, 4.4), which is operated once and told once
//! (`bonds`); when an order is over, and what its client is told then (`outcomes`); what is said of a command, and
//! which executes are accepted (`commands`). Of all requests: a poll gives the first that is due (`requests`).
#![tactic(auto)]

mod bond_examples;
mod bonds;
mod command_examples;
mod commands;
mod outcome_examples;
mod outcomes;
mod request_examples;
mod requests;

pub use bond_examples::bonds_by_example;
pub use bonds::{
    nothing_is_operated_without_controls, orders_are_operated_once, outcomes_are_of_executes,
    requests_are_bound,
};
pub use command_examples::{answers_by_example, commands_by_example};
pub use commands::commands_are_answered_as_due;
pub use outcome_examples::outcomes_by_example;
pub use outcomes::outcomes_are_told_when_due;
pub use request_examples::{
    orders_by_example, polls_by_example, tasks_by_example, times_by_example,
};
pub use requests::requests_are_as_due;
