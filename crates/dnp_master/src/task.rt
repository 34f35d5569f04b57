//! What the master asks an outstation for.
ghost use Rattle.std.specs.Prelude.{◌≡◌, ◌<◌, false, option_map, IfSome};
ghost use Rattle.dnp_master.specs.Answers.{task_answer, task_operation};
ghost use Rattle.dnp_master.specs.Fragments.{ended_answered, ended_with, is_done};
ghost use Rattle.dnp_master.specs.Master.{ended, order_of, order_task, task_request, MeantBy};

use crate::answered::{CommandAnswer, taken_by};
use dnp_app::{
    Operation, Request, Response, clear_restart, control_request, disable, enable, read_poll,
    record_time, write_time,
};
use gw_model::{Ended, Order};

/// A task of the master towards one outstation. Times are wall times in milliseconds since 1970 in UTC.
#[derive(Clone, Copy)]
pub enum Task {
    /// Clears the internal indication of a restart.
    ClearRestart,
    /// Writes the time at which the recording was asked for.
    WriteTime(u64),
    /// Asks for the recording of the time, at this time.
    RecordTime(u64),
    /// Disables unsolicited responses.
    Disable,
    /// Polls for events and static values.
    Integrity,
    /// Enables unsolicited responses.
    Enable,
    /// Polls for events.
    EventPoll,
    /// Operates an output, as an order wants it.
    Command(Operation, Order),
}

impl Task {
    /// The request of the task.
    pub fn request(self, sequence: u8) -> Request
        requires { sequence < 16 }
        ensures request { result ≡ task_request self sequence }
        ensures intent { IfSome (order_of self) (MeantBy result) }
    {
        match self {
            Task::ClearRestart => clear_restart(sequence),
            Task::WriteTime(time) => write_time(sequence, time),
            Task::RecordTime(_) => record_time(sequence),
            Task::Disable => disable(sequence),
            Task::Integrity => read_poll(sequence, true),
            Task::Enable => enable(sequence),
            Task::EventPoll => read_poll(sequence, false),
            Task::Command(operation, order) => control_request(sequence, operation, order),
        }
    }

    /// The first task of an order.
    pub fn of_order(order: Order) -> Task
        ensures { result ≡ order_task order }
    {
        if order.sbo {
            Task::Command(Operation::Select, order)
        } else {
            Task::Command(Operation::DirectOperate, order)
        }
    }

    /// The order that the task is a part of, as one that failed.
    pub fn failure(self) -> Option<Ended>
        ensures { result ≡ option_map (ended false) (order_of self) }
    {
        match self {
            Task::Command(_, order) => Some(Ended {
                number: order.number,
                done: false,
            }),
            _ => None,
        }
    }

    /// Whether the outstation took the command of the task, by the last fragment of the answer.
    pub fn is_done(self, response: &Response) -> bool
        ensures { result ≡ is_done self response.now }
    {
        match (self, response.echo()) {
            (Task::Command(_, order), Some(echo)) => {
                echo.is_taken(order.intent.index, order.intent.act)
            }
            _ => false,
        }
    }

    /// The operation that the task asks for, where it is of an order.
    pub fn operation(self) -> Option<Operation>
        ensures { result ≡ task_operation self }
    {
        match self {
            Task::Command(operation, _) => Some(operation),
            _ => None,
        }
    }

    /// How the last fragment of its answer answers the task, where it is of an order.
    pub fn answer(self, response: &Response) -> Option<CommandAnswer>
        ensures { result ≡ task_answer self response.now }
    {
        match self {
            Task::Command(operation, order) => Some(CommandAnswer {
                operation,
                taken: taken_by(order.intent.index, order.intent.act, response.echo()),
            }),
            _ => None,
        }
    }

    /// How the order of the task ends with an answer.
    fn order_end(self, done: bool) -> Option<Ended>
        ensures { result ≡ ended_answered self done }
    {
        match self {
            Task::Command(Operation::Select, _) if done => None,
            Task::Command(_, order) => Some(Ended {
                number: order.number,
                done,
            }),
            _ => None,
        }
    }

    /// How the order of the task ends with a fragment of its answer.
    pub fn ended_with(self, response: &Response) -> Option<Ended>
        ensures { result ≡ ended_with self response.now }
    {
        if response.control().fin {
            self.order_end(self.is_done(response))
        } else {
            None
        }
    }
}
