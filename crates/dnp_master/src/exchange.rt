//! The request that awaits its answer.
ghost use Rattle.std.specs.Prelude.{◌≡◌, ◌<◌, false, option_map};
ghost use Rattle.dnp_master.specs.Answers.{command_answer, is_exchange_late, operation_awaited, task_awaited};
ghost use Rattle.dnp_master.specs.Fragments.{exchange_once_answered};
ghost use Rattle.dnp_master.specs.Master.{ended, following, is_late, order_taken};

use crate::answered::CommandAnswer;
use crate::task::Task;
use dnp_app::{Operation, Response};
use gw_model::{Ended, Order, Poll};

/// A request that awaits its answer, or the next fragment of it.
#[derive(Clone, Copy)]
pub struct Awaited {
    pub task: Task,
    /// The sequence number of the next fragment of the answer.
    pub expected: u8,
    /// A fragment of the answer came already.
    pub begun: bool,
    /// When the request was given, or the last fragment of its answer came.
    pub since: u64,
}

impl Awaited {
    /// The time for an answer has passed at a moment.
    pub fn is_late(&self, moment: u64, poll: &Poll) -> bool
        ensures { result ≡ is_late moment poll.now self.now.since }
    {
        moment.saturating_sub(self.since) >= poll.response_ms
    }
}

/// What goes on between the master and an outstation.
#[derive(Clone, Copy)]
pub enum Exchange {
    /// No request awaits its answer.
    Idle,
    /// A request awaits its answer.
    Waiting(Awaited),
    /// SELECT of an order succeeded, and its OPERATE is due.
    Selected(Order),
}

impl Exchange {
    /// What goes on once the answer to a task ended, which did what was asked for or not.
    pub fn once_answered(task: Task, done: bool) -> Exchange
        ensures { result ≡ exchange_once_answered task done }
    {
        match task {
            Task::Command(Operation::Select, order) if done => Exchange::Selected(order),
            _ => Exchange::Idle,
        }
    }

    /// The task whose request awaits its answer, if one does.
    pub fn task(self) -> Option<Task>
        ensures { result ≡ task_awaited self }
    {
        match self {
            Exchange::Waiting(awaited) => Some(awaited.task),
            Exchange::Idle | Exchange::Selected(_) => None,
        }
    }

    /// The operation that awaits its answer, where the request is of an order.
    pub fn operation(self) -> Option<Operation>
        ensures { result ≡ operation_awaited self }
    {
        match self {
            Exchange::Waiting(awaited) => awaited.task.operation(),
            Exchange::Idle | Exchange::Selected(_) => None,
        }
    }

    /// How a response answers the command that awaits it, if one does.
    pub fn answer(self, response: &Response) -> Option<CommandAnswer>
        ensures { result ≡ command_answer self response.now }
    {
        match self {
            Exchange::Waiting(awaited) => awaited.task.answer(response),
            Exchange::Idle | Exchange::Selected(_) => None,
        }
    }

    /// Whether the time for the answer to a request has passed at a moment.
    pub fn is_late(&self, moment: u64, poll: &Poll) -> bool
        ensures { result ≡ is_exchange_late moment poll.now self.now }
    {
        match self {
            Exchange::Waiting(awaited) => awaited.is_late(moment, poll),
            Exchange::Idle | Exchange::Selected(_) => false,
        }
    }

    /// The order that was taken and has not ended, as one that failed.
    pub fn failure(self) -> Option<Ended>
        ensures { result ≡ option_map (ended false) (order_taken self) }
    {
        match self {
            Exchange::Idle => None,
            Exchange::Waiting(awaited) => awaited.task.failure(),
            Exchange::Selected(order) => Some(Ended {
                number: order.number,
                done: false,
            }),
        }
    }
}

/// The sequence number that follows, of four bits (IEEE Std 1815, 4.2.2.4).
pub fn following(sequence: u8) -> u8
    ensures following { result ≡ following sequence }
    ensures small { result < 16 }
{
    sequence.wrapping_add(1) % 16
}
