//! What is told of a peer whose connections begin and end, also where they do so again and again.

use crate::cause::Cause;
use crate::failure::Failure;
use crate::line_budget::LineBudget;
use crate::loss::Loss;
use crate::throttle::Throttle;

/// The milliseconds from one line about connections that end again and again to the next, and those of the next ones
/// once they have done so for as long as that.
const MINUTE_MS: u64 = 60_000;

const HOUR_MS: u64 = 3_600_000;

/// Behind how many ends of connections the next one that begins isn't told at once.
const RESTLESS: u64 = 2;

/// What is told of a peer whose connections begin and end. Where none has ended for a while the peer is calm. Times are
/// milliseconds since 1970 in UTC.
///
/// | What happens | It is told |
/// |---|---|
/// | a connection begins; the peer is calm | at once |
/// | .. one has ended since it was calm | at once |
/// | .. several have | once the connection has stood, or the peer is calm |
/// | a connection ends that was told of | at once |
/// | .. that wasn't, for another reason than the one before | at once |
/// | .. that wasn't, for the same reason | a minute behind the line before; an hour, where they have ended for an hour |
/// | the peer becomes calm | what wasn't told yet |
/// | no connection could be made, for another reason than was told | at once |
/// | .. for the same reason | an hour behind that line; where a connection was made since, as one that ends again |
/// | the gateway ends a connection since it ends itself | at once |
///
/// But of a peer that isn't calm six lines are told within a minute at most: whatever would be another one waits, and is
/// counted. What ended while another reason was told last is told as a number alone.
#[derive(Drop)]
pub struct Reconnects {
    /// For how long no connection may have ended where the peer is calm.
    calm_ms: u64,
    /// It is several peers, whose connections end for reasons that are never the same.
    is_several: bool,
    /// How many have ended since it was calm.
    ended: u64,
    /// The last that did, with those before it that are told with it.
    latest: Option<Loss>,
    /// When one ended last, as far as the clock wasn't set back since.
    last: u64,
    /// How many ended and weren't told.
    untold: Throttle,
    /// That no connection could be made, as it was told.
    unreached: Option<Unreached>,
    /// How often none could be made that was to be told, and wasn't.
    unreached_untold: u64,
    lines: LineBudget,
}

/// That no connection could be made, as it was told.
#[derive(Clone, Copy)]
struct Unreached {
    /// Why.
    cause: Failure,
    /// When it was told.
    at: u64,
    /// A connection was made since.
    is_past: bool,
}

impl Reconnects {
    /// Of a peer without a connection; it is calm where none has ended for so many milliseconds.
    pub fn new(calm_ms: u64) -> Reconnects {
        Reconnects::of(calm_ms, false)
    }

    /// The same of several peers together: the ends of their connections are never told as one reason's.
    pub fn of_several(calm_ms: u64) -> Reconnects {
        Reconnects::of(calm_ms, true)
    }

    fn of(calm_ms: u64, is_several: bool) -> Reconnects {
        Reconnects {
            calm_ms,
            is_several,
            ended: 0,
            latest: None,
            last: 0,
            untold: Throttle::new(MINUTE_MS),
            unreached: None,
            unreached_untold: 0,
            lines: LineBudget::new(),
        }
    }

    /// Whether no connection has ended for long enough, and all is told.
    pub fn is_calm(&self) -> bool {
        self.ended == 0
    }

    /// A connection begins. Whether that is told at once.
    pub fn begin(&mut self, now: u64) -> bool {
        self.settle(now);
        if self.is_calm() {
            self.unreached = None;
            self.lines.spend(now);
            return true;
        }
        self.unreached = self.unreached.map(|unreached| Unreached {
            is_past: true,
            ..unreached
        });
        self.ended < RESTLESS && self.lines.take(now)
    }

    /// A connection whose beginning wasn't told stands since a time. Whether it is told now.
    pub fn stands(&mut self, now: u64, since: u64) -> bool {
        let has_stood = now.saturating_sub(since) >= self.calm_ms;
        (self.is_calm() || has_stood) && self.lines.take(now)
    }

    /// A connection has ended, whose beginning was told or wasn't. What is told of it at once, if something is.
    pub fn end(&mut self, now: u64, cause: Cause, was_told: bool) -> Option<Loss> {
        if let Cause::GatewayEnds = cause {
            return Some(Loss::of_one(cause, now));
        }
        self.settle(now);
        let is_news = self.note(now, cause) || was_told;
        let told = if is_news { self.tell(now) } else { None };
        if told.is_none() {
            self.untold.add(1);
        }
        told
    }

    /// No connection could be made. Where that is told, how many more weren't told before.
    pub fn note_unreachable(&mut self, now: u64, cause: Failure) -> Option<u64> {
        if !self.is_unreached_anew(now, cause) {
            return None;
        }
        if !self.lines.take(now) {
            self.unreached_untold = self.unreached_untold.saturating_add(1);
            return None;
        }
        self.unreached = Some(Unreached {
            cause,
            at: now,
            is_past: false,
        });
        let left_out = self.unreached_untold;
        self.unreached_untold = 0;
        Some(left_out)
    }

    /// The connections that ended and are due to be told, which count as told then.
    pub fn due(&mut self, now: u64) -> Option<Loss> {
        let is_over = self.is_over(now);
        let interval = self.interval(now);
        self.untold.set_interval(interval);
        let is_due = is_over || self.untold.may_tell(now);
        let told = if is_due && self.untold.left_out() > 0 {
            self.tell(now)
        } else {
            None
        };
        self.settle(now);
        told
    }

    /// Notes that a connection ended; whether for another reason than the one before.
    fn note(&mut self, now: u64, cause: Cause) -> bool {
        self.ended = self.ended.saturating_add(1);
        self.last = now;
        let before = self.latest;
        match before {
            Some(before) if !self.is_several && before.cause.is_like(cause) => {
                self.latest = Some(Loss {
                    cause,
                    count: before.count.saturating_add(1),
                    at: now,
                    ..before
                });
                false
            }
            _ => {
                self.latest = Some(Loss {
                    left_out: self.untold.left_out(),
                    ..Loss::of_one(cause, now)
                });
                true
            }
        }
    }

    /// What is told of the connections that ended, unless too many lines were.
    fn tell(&mut self, now: u64) -> Option<Loss> {
        let told = self.latest?;
        if !self.lines.take(now) {
            return None;
        }
        self.untold.take(now);
        self.latest = Some(Loss {
            left_out: 0,
            ..told
        });
        Some(told)
    }

    /// The peer is calm, where no connection has ended for long enough, and all is told.
    fn settle(&mut self, now: u64) {
        if self.is_over(now) && self.untold.left_out() == 0 {
            self.ended = 0;
            self.latest = None;
            self.untold = Throttle::new(MINUTE_MS);
        }
    }

    /// Whether none has ended for long enough. Where the clock was set back, the last one counts as ended just then.
    fn is_over(&mut self, now: u64) -> bool {
        self.last = self.last.min(now);
        self.ended > 0 && now.saturating_sub(self.last) >= self.calm_ms
    }

    /// How long it takes from one line to the next while connections end for the same reason.
    fn interval(&self, now: u64) -> u64 {
        match self.latest {
            Some(latest) if now.saturating_sub(latest.since) >= HOUR_MS => HOUR_MS,
            _ => MINUTE_MS,
        }
    }

    /// Whether it is to be told that no connection could be made. Where the clock was set back it is.
    fn is_unreached_anew(&self, now: u64, cause: Failure) -> bool {
        match self.unreached {
            Some(told) if told.cause == cause => {
                let interval = if told.is_past {
                    self.interval(now)
                } else {
                    HOUR_MS
                };
                match now.checked_sub(told.at) {
                    Some(passed) => passed >= interval,
                    None => true,
                }
            }
            _ => true,
        }
    }
}
