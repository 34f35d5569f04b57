//! The figures of an outstation.

use crate::absence::Absence;
use crate::cause::Cause;
use crate::failure::Failure;
use crate::loss::Loss;
use crate::reconnects::Reconnects;
use crate::stray::{StrayFrame, StrayFrames};
use crate::throttle::Throttle;
use crate::unreadable::Unreadable;
use dnp_master::{Reported, Task};
use run_status::{OutstationState, tell_of_trouble};

/// The milliseconds between two tellings of unanswered requests, of skipped octets, and of stray frames.
const MINUTE_MS: u64 = 60_000;

/// The milliseconds between two tellings of objects that were passed over.
const HOUR_MS: u64 = 3_600_000;

/// The milliseconds between two tellings of refused fragments.
const SECOND_MS: u64 = 1000;

/// IIN1.4: the outstation asks for the time.
const NEED_TIME: u16 = 1 << 4;

/// IIN1.7: the outstation restarted.
const RESTART: u16 = 1 << 7;

/// IIN2.3: an event buffer of the outstation overflowed.
const OVERFLOW: u16 = 1 << 11;

/// How it is with an outstation, as the journal and the status tell. Times are milliseconds since 1970 in UTC. The
/// counts go on from one connection to the next.
#[derive(Drop)]
pub struct OutstationFigures {
    /// How it is.
    pub state: OutstationState,
    /// Since when; nothing where it was so from the start.
    pub state_since: Option<u64>,
    /// Why no connection stands, or the last one ended.
    pub absence: Absence,
    /// Since when a connection stands, if one does.
    pub connected_since: Option<u64>,
    /// When a fragment of it was taken last, if one was.
    pub last_answer: Option<u64>,
    /// The requests sent to it.
    pub requests: u64,
    /// Those whose answer didn't come, or didn't end, in time.
    pub unanswered: u64,
    /// The fragments of it that were refused.
    pub refused: u64,
    /// The octets of it that the link skipped.
    pub skipped: u64,
    /// Its objects of kinds that aren't taken.
    pub passed_over: u64,
    /// The internal indications of its last response, IIN1 in the low octet and IIN2 in the high one.
    pub indications: u16,
    /// The events that it reported.
    pub events: u64,
    /// The internal indications of its last response on this connection.
    before: u16,
    /// Whether an answer to a request for all that it has ended.
    has_told_all: bool,
    /// The number of the step of the last fragment on this connection, and of that by which a request on it ended without its
    /// answer; 0 where there is none.
    answered_by: u64,
    unanswered_by: u64,
    /// Whether it still asks for the time after it was written.
    is_clock_not_set: bool,
    unanswered_told: Throttle,
    skipped_told: Throttle,
    passed_over_told: Throttle,
    stray_told: Throttle,
    /// The last stray frame that wasn't told.
    last_stray: Option<StrayFrame>,
    refused_told: Throttle,
    /// Why the last fragment was refused that wasn't told.
    last_refused: Option<Unreadable>,
    /// What is told of its connections.
    reconnects: Reconnects,
    /// Whether the connection that stands was told of.
    is_told: bool,
    /// What was noticed on connections that weren't told of.
    noticed: Noticed,
}

/// What a response of an outstation has that it didn't have before.
#[derive(Clone, Copy)]
pub struct Noticed {
    /// The outstation restarted.
    pub restarted: bool,
    /// An event buffer of it overflowed.
    pub overflowed: bool,
    /// It still asks for the time after it was written.
    pub clock_not_set: bool,
}

impl Noticed {
    /// Nothing.
    const NOTHING: Noticed = Noticed {
        restarted: false,
        overflowed: false,
        clock_not_set: false,
    };

    /// What is noticed here or there.
    fn and(self, other: Noticed) -> Noticed {
        Noticed {
            restarted: self.restarted || other.restarted,
            overflowed: self.overflowed || other.overflowed,
            clock_not_set: self.clock_not_set || other.clock_not_set,
        }
    }
}

/// What is due to be told of an outstation.
#[derive(Clone, Copy)]
pub struct DueNotes {
    /// So many requests weren't answered.
    pub unanswered: Option<u64>,
    /// So many octets were skipped.
    pub skipped: Option<u64>,
    /// So many objects were passed over.
    pub passed_over: Option<u64>,
    /// Frames came that the outstation doesn't send to its master.
    pub strayed: Option<StrayFrames>,
    /// Fragments were refused and not told.
    pub refused: Option<Refused>,
    /// Connections ended and weren't told.
    pub lost: Option<Loss>,
    /// A connection stands that wasn't told of.
    pub connected: bool,
    /// What was noticed on connections that weren't told of.
    pub noticed: Noticed,
}

/// Fragments that were refused.
#[derive(Clone, Copy)]
pub struct Refused {
    /// Why the last one was.
    pub fault: Unreadable,
    /// How many came before it and weren't told.
    pub left_out: u64,
}

/// Whether an internal indication is set now, and wasn't before.
fn rises(indication: u16, before: u16, now: u16) -> bool {
    now & indication != 0 && before & indication == 0
}

impl OutstationFigures {
    /// Of an outstation that was never connected; it is calm where no connection to it has ended for so many
    /// milliseconds (`Reconnects`).
    pub fn new(calm_ms: u64) -> OutstationFigures {
        OutstationFigures {
            state: OutstationState::NotConnected,
            state_since: None,
            absence: Absence::Untried,
            connected_since: None,
            last_answer: None,
            requests: 0,
            unanswered: 0,
            refused: 0,
            skipped: 0,
            passed_over: 0,
            indications: 0,
            events: 0,
            before: 0,
            has_told_all: false,
            answered_by: 0,
            unanswered_by: 0,
            is_clock_not_set: false,
            unanswered_told: Throttle::new(MINUTE_MS),
            skipped_told: Throttle::new(MINUTE_MS),
            passed_over_told: Throttle::new(HOUR_MS),
            stray_told: Throttle::new(MINUTE_MS),
            last_stray: None,
            refused_told: Throttle::new(SECOND_MS),
            last_refused: None,
            reconnects: Reconnects::new(calm_ms),
            is_told: false,
            noticed: Noticed::NOTHING,
        }
    }

    /// A connection stands since now; whether that is told at once. What the outstation indicated on an earlier one
    /// counts as new again.
    pub fn note_connection(&mut self, wall: u64) -> bool {
        self.end();
        self.connected_since = Some(wall);
        self.settle(wall);
        self.is_told = self.reconnects.begin(wall);
        self.is_told
    }

    /// The connection is lost, and why; what is told of that at once, if something is.
    pub fn note_loss(&mut self, wall: u64, cause: Cause) -> Option<Loss> {
        self.end();
        self.absence = Absence::Ended(cause);
        self.settle(wall);
        self.reconnects.end(wall, cause, self.is_told)
    }

    /// No connection could be made. Where that is told, how many more weren't told before.
    pub fn note_unreachable(&mut self, wall: u64, cause: Failure) -> Option<u64> {
        self.absence = Absence::Unreached(cause);
        self.reconnects.note_unreachable(wall, cause)
    }

    /// No connection stands.
    fn end(&mut self) {
        self.connected_since = None;
        self.answered_by = 0;
        self.unanswered_by = 0;
        self.before = 0;
        self.is_clock_not_set = false;
    }

    /// A request is sent.
    pub fn note_request(&mut self) {
        self.requests = self.requests.saturating_add(1);
    }

    /// A fragment that said this was accepted by the step of this number; it ends the answer to a request, or doesn't. Gives
    /// what is new.
    pub fn note_response(
        &mut self,
        step: u64,
        wall: u64,
        reported: &Reported,
        ends: bool,
    ) -> Noticed {
        let now = u16::from_le_bytes(reported.indications);
        let before = self.before;
        let clock_not_set = self.answers_time(now, ends, reported.answers);
        self.has_told_all = self.has_told_all || ends && is_integrity_poll(reported.answers);
        self.answered_by = step;
        self.last_answer = Some(wall);
        self.indications = now;
        self.events = self.events.saturating_add(reported.events as u64);
        self.before = now;
        self.settle(wall);
        self.once_told(Noticed {
            restarted: rises(RESTART, before, now),
            overflowed: rises(OVERFLOW, before, now),
            clock_not_set,
        })
    }

    /// What these indications mean for its clock, in a fragment that ends the answer to a task, or doesn't; whether it is to be
    /// told that the clock isn't set: it was written, and the outstation asks for the time all the same.
    fn answers_time(&mut self, indications: u16, ends: bool, answers: Option<Task>) -> bool {
        if indications & NEED_TIME == 0 {
            self.is_clock_not_set = false;
            return false;
        }
        let is_news = !self.is_clock_not_set && ends && matches!(answers, Some(Task::WriteTime(_)));
        self.is_clock_not_set = self.is_clock_not_set || is_news;
        is_news
    }

    /// What is told at once of what was noticed; it waits where the connection wasn't told of.
    fn once_told(&mut self, noticed: Noticed) -> Noticed {
        if self.is_told {
            return noticed;
        }
        self.noticed = self.noticed.and(noticed);
        Noticed::NOTHING
    }

    /// The last request ended without its answer, by the step of this number.
    pub fn note_timeout(&mut self, step: u64, wall: u64) {
        self.unanswered = self.unanswered.saturating_add(1);
        self.unanswered_told.add(1);
        self.unanswered_by = step;
        self.settle(wall);
    }

    /// Whether it has answered since it connected.
    pub fn has_answered(&self) -> bool {
        self.connected_since.is_some() && self.answered_by != 0
    }

    /// Whether it still asks for the time after it was written, and isn't polled while it does.
    pub fn is_clock_not_set(&self) -> bool {
        self.is_clock_not_set
    }

    /// Whether an answer to a request for all that it has ended.
    pub fn has_told_all(&self) -> bool {
        self.has_told_all
    }

    /// Notes how it is, and since when where that is new.
    fn settle(&mut self, wall: u64) {
        let state = self.judge();
        if state != self.state {
            self.state = state;
            self.state_since = Some(wall);
        }
    }

    /// How it is.
    fn judge(&self) -> OutstationState {
        if self.connected_since.is_none() {
            OutstationState::NotConnected
        } else if self.unanswered_by > self.answered_by {
            OutstationState::NotAnswering
        } else if self.answered_by == 0 {
            OutstationState::NoAnswerYet
        } else if self.is_clock_not_set() {
            OutstationState::ClockNotSet
        } else if tell_of_trouble(self.indications) {
            OutstationState::Trouble
        } else {
            OutstationState::AllRight
        }
    }

    /// A fragment was refused. Where that may be told now, how many more were refused and not told.
    pub fn note_unreadable(&mut self, wall: u64, fault: Unreadable) -> Option<u64> {
        self.refused = self.refused.saturating_add(1);
        let told = self.refused_told.ask(wall);
        self.last_refused = match told {
            Some(_) => None,
            None => Some(fault),
        };
        told
    }

    /// The link skipped octets.
    pub fn note_skipped(&mut self, octets: u64) {
        self.skipped = self.skipped.saturating_add(octets);
        self.skipped_told.add(octets);
    }

    /// A frame came that the outstation doesn't send to its master.
    pub fn note_stray(&mut self, frame: StrayFrame) {
        self.last_stray = Some(frame);
        self.stray_told.add(1);
    }

    /// Objects came of kinds that aren't taken.
    pub fn note_passed_over(&mut self, objects: u64) {
        self.passed_over = self.passed_over.saturating_add(objects);
        self.passed_over_told.add(objects);
    }

    /// What is due to be told, which counts as told then.
    pub fn due(&mut self, wall: u64) -> DueNotes {
        let lost = self.reconnects.due(wall);
        let connected = self.stands(wall);
        DueNotes {
            unanswered: self.unanswered_told.pending(wall),
            skipped: self.skipped_told.pending(wall),
            passed_over: self.passed_over_told.pending(wall),
            strayed: self.stray_due(wall),
            refused: self.refused_due(wall),
            lost,
            connected,
            noticed: self.noticed_due(lost.is_some() || connected),
        }
    }

    /// Whether it is due to be told that a connection stands.
    fn stands(&mut self, wall: u64) -> bool {
        match self.connected_since {
            Some(since) if !self.is_told => {
                self.is_told = self.reconnects.stands(wall, since);
                self.is_told
            }
            _ => false,
        }
    }

    /// What was noticed on connections that weren't told of, where something else is told of them.
    fn noticed_due(&mut self, is_told: bool) -> Noticed {
        if is_told {
            std::mem::replace(&mut self.noticed, Noticed::NOTHING)
        } else {
            Noticed::NOTHING
        }
    }

    /// The stray frames that are due to be told.
    fn stray_due(&mut self, wall: u64) -> Option<StrayFrames> {
        let last = self.last_stray?;
        let count = self.stray_told.pending(wall)?;
        self.last_stray = None;
        Some(StrayFrames {
            last,
            left_out: count.saturating_sub(1),
        })
    }

    /// The refused fragments that are due to be told.
    fn refused_due(&mut self, wall: u64) -> Option<Refused> {
        let fault = self.last_refused?;
        let count = self.refused_told.pending(wall)?;
        self.last_refused = None;
        Some(Refused {
            fault,
            left_out: count.saturating_sub(1),
        })
    }
}

/// Whether a task is a poll for all that an outstation has.
fn is_integrity_poll(task: Option<Task>) -> bool {
    matches!(task, Some(Task::Integrity))
}
