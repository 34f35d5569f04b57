//! The DNP3 master's part of the core, for one outstation: what is due, the request that awaits its answer, and what
//! becomes of fragments.
#![tactic(auto)]

mod answered;
mod due;
mod examples;
mod exchange;
mod fate;
mod indications;
mod kept;
mod master;
mod order_examples;
mod reported;
mod task;
mod verdict;

pub use answered::{CommandAnswer, Taken};
pub use examples::{requests_by_example, tasks_by_example, verdicts_by_example};
pub use fate::Fate;
pub use master::Master;
pub use order_examples::{
    answers_by_example, direct_operate_by_example, select_and_operate_by_example,
};
pub use reported::Reported;
pub use task::Task;
pub use verdict::{Ignored, Verdict};
