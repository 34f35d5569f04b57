//! What is due towards an outstation.
ghost use Rattle.std.specs.Prelude.{◌≡◌, slice_get};
ghost use Rattle.dnp_master.specs.Master.{
  due_unanswered,
  due_without,
  is_event_poll_due,
  is_integrity_due,
  nothing_due,
  tasks_due,
};
ghost use Rattle.dnp_master.specs.Fragments.{clears_restart, due_once_answered, due_with, is_newly_set, records_time};

use crate::indications::Indications;
use crate::task::Task;
use gw_model::Poll;

/// The tasks that are due, and the moments from which the two periods run.
#[derive(Clone, Copy)]
pub struct DueTasks {
    pub clear_restart: bool,
    /// The time to be written, where it was recorded.
    pub write_time: Option<u64>,
    pub record_time: bool,
    pub disable: bool,
    pub integrity: bool,
    /// When an integrity poll was given last, or the outstation came up.
    pub integrity_since: u64,
    pub enable: bool,
    pub events: bool,
    /// When an event poll was given last, or the outstation came up.
    pub events_since: u64,
}

/// A bit that is set now and wasn't before.
fn is_newly_set(before: bool, now: bool) -> bool
    ensures { result ≡ is_newly_set before now }
{
    now && !before
}

fn clears_restart(answered: Option<Task>) -> bool
    ensures { result ≡ clears_restart answered }
{
    matches!(answered, Some(Task::ClearRestart))
}

fn records_time(answered: Option<Task>) -> bool
    ensures { result ≡ records_time answered }
{
    matches!(answered, Some(Task::RecordTime(_)))
}

impl DueTasks {
    /// Nothing is due.
    pub fn nothing() -> DueTasks
        ensures { result ≡ nothing_due }
    {
        DueTasks {
            clear_restart: false,
            write_time: None,
            record_time: false,
            disable: false,
            integrity: false,
            integrity_since: 0,
            enable: false,
            events: false,
            events_since: 0,
        }
    }

    /// An integrity poll is due at a moment.
    fn is_integrity_due(&self, moment: u64, poll: &Poll) -> bool
        ensures { result ≡ is_integrity_due moment poll.now self.now }
    {
        self.integrity
            || (poll.integrity_ms != 0
                && moment.saturating_sub(self.integrity_since) >= poll.integrity_ms)
    }

    /// An event poll is due at a moment.
    fn is_event_poll_due(&self, moment: u64, poll: &Poll) -> bool
        ensures { result ≡ is_event_poll_due moment poll.now self.now }
    {
        self.events || moment.saturating_sub(self.events_since) >= poll.poll_ms
    }

    /// The first of the tasks that are due at a moment. OPERATE comes before all of them, and an order is given between
    /// that and these.
    pub fn first(&self, moment: u64, wall: u64, poll: &Poll) -> Option<Task>
        ensures { result ≡ slice_get (tasks_due moment wall poll.now self.now) 0 }
    {
        if self.clear_restart {
            return Some(Task::ClearRestart);
        }
        if let Some(time) = self.write_time {
            return Some(Task::WriteTime(time));
        }
        if self.record_time {
            return Some(Task::RecordTime(wall));
        }
        if self.disable {
            return Some(Task::Disable);
        }
        if self.is_integrity_due(moment, poll) {
            return Some(Task::Integrity);
        }
        if self.enable {
            return Some(Task::Enable);
        }
        if self.is_event_poll_due(moment, poll) {
            return Some(Task::EventPoll);
        }
        None
    }

    /// Once a task was given at a moment.
    pub fn without(self, moment: u64, task: Task) -> DueTasks
        ensures { result ≡ due_without moment task self }
    {
        let mut due = self;
        match task {
            Task::ClearRestart => due.clear_restart = false,
            Task::WriteTime(_) => due.write_time = None,
            Task::RecordTime(_) => due.record_time = false,
            Task::Disable => due.disable = false,
            Task::Integrity => {
                due.integrity = false;
                due.integrity_since = moment;
            }
            Task::Enable => due.enable = false,
            Task::EventPoll => {
                due.events = false;
                due.events_since = moment;
            }
            Task::Command(_, _) => {}
        }
        due
    }

    /// Once a task ended without an answer.
    pub fn once_unanswered(self, task: Task) -> DueTasks
        ensures { result ≡ due_unanswered task self }
    {
        let mut due = self;
        match task {
            Task::Integrity => due.integrity = true,
            Task::RecordTime(_) => {
                due.record_time = false;
                due.write_time = None;
            }
            _ => {}
        }
        due
    }

    /// Once a task's answer ended.
    pub fn once_answered(self, task: Task) -> DueTasks
        ensures { result ≡ due_once_answered task self }
    {
        match task {
            Task::RecordTime(wall) => DueTasks {
                write_time: Some(wall),
                ..self
            },
            _ => self,
        }
    }

    /// With what the internal indications of an accepted fragment make due, which answers this task or none.
    pub fn with(
        self,
        poll: &Poll,
        answered: Option<Task>,
        before: Indications,
        now: Indications,
    ) -> DueTasks
        ensures { result ≡ due_with poll.now answered before now self }
    {
        DueTasks {
            clear_restart: self.clear_restart || (now.restart && !clears_restart(answered)),
            record_time: self.record_time
                || (poll.lan_time && (now.need_time && !records_time(answered))),
            integrity: self.integrity
                || (is_newly_set(before.restart, now.restart)
                    || is_newly_set(before.overflow, now.overflow)),
            events: self.events || now.events,
            ..self
        }
    }
}
