//! The master towards one outstation.
ghost use Rattle.std.specs.Prelude.{◌≡◌, is_some, true, IfOk, IfSome, IsOk, IsTrue, Some};
ghost use Rattle.dnp_app.specs.Operating.{request_intent};
ghost use Rattle.dnp_app.specs.Requests.{octets_of};
ghost use Rattle.dnp_master.specs.Master.{
  ended_by_loss,
  ended_by_tick,
  is_ready,
  master_after_next,
  master_after_order,
  master_after_tick,
  master_after_up,
  master_asking,
  master_down,
  order_of,
  MeantBy,
  request_given,
  request_ordered,
  task_given,
  task_request,
};
ghost use Rattle.dnp_master.specs.Answers.{command_answer, is_unanswered, operation_awaited, task_awaited};
ghost use Rattle.dnp_master.specs.Fragments.{
  accepts,
  indications_in,
  is_acceptance,
  is_last,
  master_after_accepted,
  master_after_answer,
  master_after_fragment,
  master_after_unsolicited,
  verdict_of,
  verdict_of_answer,
  verdict_of_unsolicited,
};

use crate::answered::CommandAnswer;
use crate::due::DueTasks;
use crate::exchange::{Awaited, Exchange, following};
use crate::indications::Indications;
use crate::kept::KeptOctets;
use crate::task::Task;
use crate::verdict::{Ignored, Verdict};
use dnp_app::{Operation, Request, Response};
use gw_model::{Ended, Memory, Order, Poll};
use std::marker::Model;

/// The master towards one outstation (IEEE Std 1815, clause 4). It takes no memory. Moments are in milliseconds; an
/// interval that would begin after it ended counts as 0.
#[derive(Drop)]
pub struct Master {
    poll: Poll,
    up: bool,
    last: Option<KeptOctets>,
    before: Indications,
    sequence: u8,
    exchange: Exchange,
    due: DueTasks,
}

impl Model for Master {
    ghost use Rattle.std.specs.Prelude.{◌<◌};
    ghost use Rattle.dnp_master.specs.Master.{Master as Seen};

    ghost Value = { Seen };

    ghost view = { λ m. record {
      poll = m.poll;
      up = m.up;
      last = m.last;
      before = m.before;
      sequence = m.sequence;
      exchange = m.exchange;
      due = m.due;
    } };

    ghost invariant = { λ m. m.sequence < 16 };
}

impl Master {
    /// Towards an outstation that is down.
    pub fn new(poll: &Poll) -> Master
        ensures { result ≡ master_down poll.now }
    {
        Master {
            poll: *poll,
            up: false,
            last: None,
            before: Indications::none(),
            sequence: 0,
            exchange: Exchange::Idle,
            due: DueTasks::nothing(),
        }
    }

    /// An equal value. It takes no memory, so it never answers `Memory`; the core's other parts, which take some,
    /// are copied by the same form.
    pub fn copy(&self) -> Result<Master, Memory>
        ensures equal { IfOk result (λ copy. copy ≡ self.now) }
        ensures succeeds { IsOk result }
    {
        let last = match &self.last {
            None => None,
            Some(last) => Some(last.copy()),
        };
        Ok(Master { last, ..*self })
    }

    /// Whether the outstation is up.
    pub fn is_up(&self) -> bool
        ensures { result ≡ self.now.up }
    {
        self.up
    }

    /// The outstation comes up at a moment.
    pub fn up(&mut self, moment: u64)
        ensures { self.new ≡ master_after_up moment self.old }
    {
        self.down();
        self.up = true;
        self.due = DueTasks {
            disable: self.poll.unsolicited,
            integrity: true,
            integrity_since: moment,
            enable: self.poll.unsolicited,
            events_since: moment,
            ..DueTasks::nothing()
        };
    }

    /// The outstation is lost: all is as at first. An order that was taken and has not ended has failed.
    pub fn down(&mut self) -> Option<Ended>
        ensures ended { result ≡ ended_by_loss self.old }
        ensures after { self.new ≡ master_down self.old.poll }
    {
        let poll = self.poll;
        let ended = self.ended_by_loss();
        *self = Master::new(&poll);
        ended
    }

    /// The order that would fail if the outstation were lost.
    pub fn ended_by_loss(&self) -> Option<Ended>
        ensures { result ≡ ended_by_loss self.now }
    {
        self.exchange.failure()
    }

    /// Whether an order can be taken: the outstation is up, no request awaits its answer, and no OPERATE is due.
    pub fn ready(&self) -> bool
        ensures { result ≡ is_ready self.now }
    {
        self.up && matches!(self.exchange, Exchange::Idle)
    }

    /// Whether `next` would give a request at a moment; the wall time makes no difference.
    pub fn is_due(&self, moment: u64) -> bool
        ensures { result ≡ is_some (task_given moment 0 self.now) }
    {
        self.task_due(moment, 0).is_some()
    }

    /// The first task that is due at a moment and a wall time, where one can be given: that of the request that `next` would give.
    pub fn task_due(&self, moment: u64, wall: u64) -> Option<Task>
        ensures { result ≡ task_given moment wall self.now }
    {
        if !self.up {
            return None;
        }
        match self.exchange {
            Exchange::Idle => self.due.first(moment, wall, &self.poll),
            Exchange::Waiting(_) => None,
            Exchange::Selected(order) => Some(Task::Command(Operation::Operate, order)),
        }
    }

    /// Gives the request of a task at a moment. It awaits its answer from then on.
    fn ask(&mut self, task: Task, moment: u64) -> Request
        ensures request { result ≡ task_request task self.old.sequence }
        ensures intent { IfSome (order_of task) (MeantBy result) }
        ensures after { self.new ≡ master_asking moment task self.old }
    {
        let request = task.request(self.sequence);
        self.due = self.due.without(moment, task);
        self.exchange = Exchange::Waiting(Awaited {
            task,
            expected: self.sequence,
            begun: false,
            since: moment,
        });
        self.sequence = following(self.sequence);
        request
    }

    /// Takes an order at a moment, and gives its first request: SELECT, after which OPERATE is due once that succeeded,
    /// or DIRECT_OPERATE.
    pub fn order(&mut self, order: Order, moment: u64) -> Request
        requires { IsTrue (is_ready self.old) }
        ensures request { result ≡ request_ordered order self.old }
        ensures intent { request_intent order.intent.outstation (octets_of result) ≡ Some order.intent }
        ensures after { self.new ≡ master_after_order moment order self.old }
    {
        self.ask(Task::of_order(order), moment)
    }

    /// Gives the request of the first task that is due, at a moment and a wall time in milliseconds since 1970 in UTC.
    /// Nothing where a request awaits its answer or none is due.
    pub fn next(&mut self, moment: u64, wall: u64) -> Option<Request>
        ensures request { result ≡ request_given moment wall self.old }
        ensures after { self.new ≡ master_after_next moment wall self.old }
    {
        let task = self.task_due(moment, wall)?;
        Some(self.ask(task, moment))
    }

    /// Whether these are the octets of the last accepted unsolicited response.
    fn is_last(&self, octets: &[u8]) -> bool
        ensures { result ≡ is_last self.now.last octets.now }
    {
        match &self.last {
            None => false,
            Some(last) => last.as_slice() == octets,
        }
    }

    /// What becomes of an unsolicited response.
    fn judge_unsolicited(&self, response: &Response) -> Verdict
        ensures { result ≡ verdict_of_unsolicited self.now.last response.now.octets }
    {
        let confirm = response.confirmation();
        if self.is_last(response.octets()) {
            Verdict::Repeated { confirm }
        } else {
            Verdict::Accepted {
                confirm,
                end: false,
                control: None,
            }
        }
    }

    /// What becomes of a solicited response.
    fn judge_answer(&self, response: &Response) -> Verdict
        ensures { result ≡ verdict_of_answer self.now.exchange response.now }
    {
        let Exchange::Waiting(awaited) = self.exchange else {
            return Verdict::Ignored(Ignored::NoRequest);
        };
        let control = response.control();
        if control.sequence != awaited.expected {
            return Verdict::Ignored(Ignored::WrongSequence);
        }
        if control.fir == awaited.begun {
            return Verdict::Ignored(Ignored::WrongFirst);
        }
        Verdict::Accepted {
            confirm: response.confirmation(),
            end: control.fin,
            control: awaited.task.ended_with(response),
        }
    }

    /// What becomes of a response, which `take` tells too.
    pub fn judge(&self, response: &Response) -> Verdict
        ensures { result ≡ verdict_of self.now response.now }
    {
        if response.is_unsolicited() {
            self.judge_unsolicited(response)
        } else {
            self.judge_answer(response)
        }
    }

    /// Whether `take` would accept a response.
    pub fn accepts(&self, response: &Response) -> bool
        ensures { result ≡ accepts self.now response.now }
    {
        matches!(self.judge(response), Verdict::Accepted { .. })
    }

    /// How a response answers the command that awaits its answer, if one does: it ends that where it is accepted and the
    /// last fragment of the answer.
    pub fn command_answer(&self, response: &Response) -> Option<CommandAnswer>
        ensures { result ≡ command_answer self.now.exchange response.now }
    {
        self.exchange.answer(response)
    }

    /// The task whose request awaits its answer, if one does.
    pub fn task_awaited(&self) -> Option<Task>
        ensures { result ≡ task_awaited self.now.exchange }
    {
        self.exchange.task()
    }

    /// The operation that awaits its answer, where the request is of an order.
    pub fn operation_awaited(&self) -> Option<Operation>
        ensures { result ≡ operation_awaited self.now.exchange }
    {
        self.exchange.operation()
    }

    /// Whether the time for the answer to a request has passed at a moment, so that `tick` ends it.
    pub fn is_unanswered(&self, moment: u64) -> bool
        ensures { result ≡ is_unanswered moment self.now }
    {
        self.exchange.is_late(moment, &self.poll)
    }

    /// Takes a response at a moment. Where it isn't accepted nothing changes.
    pub fn take(&mut self, response: &Response, moment: u64) -> Verdict
        ensures verdict { result ≡ verdict_of self.old response.now }
        ensures after { self.new ≡ master_after_fragment moment response.now self.old }
    {
        let verdict = self.judge(response);
        if let Verdict::Accepted { .. } = verdict {
            self.accept(response, moment);
        }
        verdict
    }

    /// The same of a response that was judged, and is accepted.
    pub fn accept(&mut self, response: &Response, moment: u64)
        requires { accepts self.old response.now ≡ true }
        ensures { self.new ≡ master_after_fragment moment response.now self.old }
    {
        self.change_with(response, moment);
    }

    /// What an accepted response changes.
    fn change_with(&mut self, response: &Response, moment: u64)
        ensures { self.new ≡ master_after_accepted moment response.now self.old }
    {
        if response.is_unsolicited() {
            self.accept_unsolicited(response);
        } else {
            self.accept_answer(response, moment);
        }
    }

    fn accept_unsolicited(&mut self, response: &Response)
        ensures { self.new ≡ master_after_unsolicited response.now self.old }
    {
        let now = Indications::of(response.internal_indications());
        self.last = Some(KeptOctets::of(response.octets()));
        self.due = self.due.with(&self.poll, None, self.before, now);
        self.before = now;
    }

    fn accept_answer(&mut self, response: &Response, moment: u64)
        ensures { self.new ≡ master_after_answer moment response.now self.old.exchange self.old }
    {
        let Exchange::Waiting(awaited) = self.exchange else {
            return;
        };
        let now = Indications::of(response.internal_indications());
        let number = following(awaited.expected);
        let due = self
            .due
            .with(&self.poll, Some(awaited.task), self.before, now);
        self.before = now;
        self.sequence = number;
        if response.control().fin {
            let done = awaited.task.is_done(response);
            self.exchange = Exchange::once_answered(awaited.task, done);
            self.due = due.once_answered(awaited.task);
        } else {
            self.exchange = Exchange::Waiting(Awaited {
                expected: number,
                begun: true,
                since: moment,
                ..awaited
            });
            self.due = due;
        }
    }

    /// The order that fails as time has passed, if one does.
    pub fn ended_by_tick(&self, moment: u64) -> Option<Ended>
        ensures { result ≡ ended_by_tick moment self.now }
    {
        match self.exchange {
            Exchange::Waiting(awaited) if awaited.is_late(moment, &self.poll) => {
                awaited.task.failure()
            }
            _ => None,
        }
    }

    /// A request ends without an answer where its time has passed at a moment. Its order, if it is of one, has failed.
    pub fn tick(&mut self, moment: u64) -> Option<Ended>
        ensures ended { result ≡ ended_by_tick moment self.old }
        ensures after { self.new ≡ master_after_tick moment self.old }
    {
        let Exchange::Waiting(awaited) = self.exchange else {
            return None;
        };
        if !awaited.is_late(moment, &self.poll) {
            return None;
        }
        self.exchange = Exchange::Idle;
        self.due = self.due.once_unanswered(awaited.task);
        awaited.task.failure()
    }
}
