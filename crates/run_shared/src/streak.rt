//! Requests that follow each other.

use gw_steps::Task;

/// How many requests go to an outstation in a streak before it is let rest.
const MOST: u32 = 10;

/// The milliseconds of the shortest rest.
const SHORTEST_REST_MS: u64 = 20;

/// The milliseconds of the longest rest.
const LONGEST_REST_MS: u64 = 1000;

/// IIN1.1 to IIN1.3 and IIN1.7, in IIN1: events wait, and the outstation restarted. Each makes a request due.
const EVENTS_OR_RESTART: u8 = 0x8E;

/// IIN1.4, in IIN1: the outstation asks for the time. That makes a request due where the clock is set from here.
const NEED_TIME: u8 = 0x10;

/// What is asked of an outstation by a request.
#[derive(Clone, Copy)]
pub enum AskedFor {
    /// What a client ordered.
    Order,
    /// To set its clock.
    Time,
    /// Anything else.
    Other,
}

impl AskedFor {
    /// What the request of a task asks for.
    pub fn by(task: Task) -> AskedFor {
        match task {
            Task::Command(..) => AskedFor::Order,
            Task::WriteTime(_) | Task::RecordTime(_) => AskedFor::Time,
            Task::ClearRestart | Task::Disable | Task::Integrity | Task::Enable | Task::EventPoll =>
                AskedFor::Other,
        }
    }

    /// Whether this IIN1 in the answer to it asks for a further request.
    fn is_pressed(self, indications: u8) -> bool {
        match self {
            AskedFor::Order => false,
            AskedFor::Time => indications & (EVENTS_OR_RESTART | NEED_TIME) != 0,
            AskedFor::Other => indications & EVENTS_OR_RESTART != 0,
        }
    }
}

/// The requests to an outstation of which each was due as soon as the one before it was answered, by what that answer
/// indicated, while none brought news. Indications that never clear would have them follow each other as fast as the outstation
/// answers. Moments are in milliseconds.
#[derive(Clone, Copy)]
pub struct RequestStreak {
    count: u32,
    /// What the last request asked for, and when it was given, while its answer hasn't ended.
    asked: Option<(AskedFor, u64)>,
    /// How long the last rest is, and when it ends.
    rest: u64,
    until: u64,
}

impl RequestStreak {
    /// No request yet.
    pub fn new() -> RequestStreak {
        RequestStreak {
            count: 0,
            asked: None,
            rest: 0,
            until: 0,
        }
    }

    /// A request was given at a moment. The streak ends where the one before it was left without an answer.
    pub fn ask(&mut self, asked: AskedFor, moment: u64) {
        if self.asked.is_some() {
            self.end();
        }
        self.asked = Some((asked, moment));
    }

    /// An answer brought news: what follows it is a streak of its own.
    pub fn end(&mut self) {
        self.count = 0;
        self.rest = 0;
        self.until = 0;
    }

    /// The answer to a request has ended at a moment, with this IIN1; a further request is due at once, or none.
    pub fn answer(&mut self, moment: u64, indications: u8, is_due: bool) {
        let Some((asked, since)) = self.asked else {
            return;
        };
        self.asked = None;
        if is_due && asked.is_pressed(indications) {
            self.go_on(moment, moment.saturating_sub(since));
        } else if !matches!(asked, AskedFor::Order) {
            self.end();
        }
    }

    /// One more request was answered at a moment, and its answer took so long. Behind a whole streak the outstation rests: as
    /// long as the answer took, and at least twice as long as it rested before.
    fn go_on(&mut self, moment: u64, took: u64) {
        self.count = self.count.saturating_add(1);
        if self.count >= MOST {
            let rest = self.rest.saturating_mul(2).max(took);
            self.rest = rest.max(SHORTEST_REST_MS).min(LONGEST_REST_MS);
            self.until = moment.saturating_add(self.rest);
        }
    }

    /// How long the rest still is at a moment; 0 where there is none.
    pub fn rest_at(&self, moment: u64) -> u64 {
        self.until.saturating_sub(moment)
    }
}
