//! What is told now and then, and counted meanwhile.
ghost use Rattle.std.specs.Prelude.{◌≡◌, ◌+◌, ◌-◌, ◌^◌, ◌<◌, min, IfSome, IfNone, OnSome};

use std::marker::Model;

/// What is told at most once in an interval. What happens in between is left out and counted, and told with the next.
#[derive(Drop)]
pub struct Throttle {
    interval_ms: u64,
    /// When something was told last.
    last: Option<u64>,
    /// How much was left out since.
    left_out: u64,
}

// A contract sees how much was left out and isn't told yet.
impl Model for Throttle {
    ghost use Rattle.std.specs.Prelude.{ℕ};

    ghost Value = { ℕ };

    ghost view = { λ t. t.left_out };
}

impl Throttle {
    /// Nothing was told or left out; how many milliseconds lie between two tellings.
    pub fn new(interval_ms: u64) -> Throttle
        ensures { result ≡ 0 }
    {
        Throttle {
            interval_ms,
            last: None,
            left_out: 0,
        }
    }

    /// Something happens at a moment in milliseconds. Where it may be told now, how much was left out before; else it
    /// is counted.
    pub fn ask(&mut self, now: u64) -> Option<u64>
        ensures told { IfSome result (λ count. count ≡ self.old) }
        ensures taken { OnSome result (self.new ≡ 0) }
        ensures counted { IfNone result (self.new ≡ min (self.old + 1) (2 ^ 64 - 1)) }
    {
        if self.may_tell(now) {
            Some(self.take(now))
        } else {
            self.add(1);
            None
        }
    }

    /// So much is left out.
    pub fn add(&mut self, count: u64)
        ensures { self.new ≡ min (self.old + count) (2 ^ 64 - 1) }
    {
        self.left_out = self.left_out.saturating_add(count);
    }

    /// How much was left out, where there is some and it may be told now.
    pub fn pending(&mut self, now: u64) -> Option<u64>
        ensures told { IfSome result (λ count. count ≡ self.old) }
        ensures some { OnSome result (0 < self.old) }
        ensures taken { OnSome result (self.new ≡ 0) }
        ensures kept { IfNone result (self.new ≡ self.old) }
    {
        if self.left_out > 0 && self.may_tell(now) {
            Some(self.take(now))
        } else {
            None
        }
    }

    /// How much was left out and isn't told yet.
    pub(crate) fn left_out(&self) -> u64
        ensures { result ≡ self.now }
    {
        self.left_out
    }

    /// How many milliseconds lie between two tellings from now on.
    pub(crate) fn set_interval(&mut self, interval_ms: u64)
        ensures { self.new ≡ self.old }
    {
        self.interval_ms = interval_ms;
    }

    /// Whether the interval has passed. It has where the clock was set back.
    pub(crate) fn may_tell(&self, now: u64) -> bool {
        match self.last {
            Some(last) => match now.checked_sub(last) {
                Some(passed) => passed >= self.interval_ms,
                None => true,
            },
            None => true,
        }
    }

    /// Takes how much was left out, to be told now.
    pub(crate) fn take(&mut self, now: u64) -> u64
        ensures told { result ≡ self.old }
        ensures taken { self.new ≡ 0 }
    {
        let count = self.left_out;
        self.left_out = 0;
        self.last = Some(now);
        count
    }
}
