//! What is counted in 64 bits.
ghost use Rattle.std.specs.Prelude.{◌≡◌, IsTrue};
ghost use Rattle.gw_steps.specs.Steps.{can_rise, raised};
ghost use Rattle.gw_hub.specs.Hub.{step_with, tally_of};

use std::marker::Model;

/// Counts that a hub begins with.
#[derive(Clone, Copy)]
pub struct Counts {
    /// The news that there were.
    pub news: u64,
    /// The sessions of all clients.
    pub sessions: u64,
    /// The orders, which are executes of commands that were accepted.
    pub orders: u64,
    /// The steps that were made without a fault.
    pub steps: u64,
}

/// The steps that were made without a fault, the news, and the sessions of all clients.
#[derive(Drop)]
pub struct Tally {
    steps: u64,
    news: u64,
    sessions: u64,
}

impl Model for Tally {
    ghost use Rattle.gw_steps.specs.State.{Counts as Seen};

    ghost Value = { Seen };

    ghost view = { λ c. record { steps = c.steps; news = c.news; sessions = c.sessions } };
}

impl Tally {
    /// So much is counted already.
    pub fn new(counts: &Counts) -> Tally
        ensures { result ≡ tally_of counts.now }
    {
        Tally {
            steps: counts.steps,
            news: counts.news,
            sessions: counts.sessions,
        }
    }

    /// An equal tally.
    pub fn copy(&self) -> Tally
        ensures { result ≡ self.now }
    {
        Tally {
            steps: self.steps,
            news: self.news,
            sessions: self.sessions,
        }
    }

    /// How many sessions there were.
    pub fn sessions(&self) -> u64
        ensures { result ≡ self.now.sessions }
    {
        self.sessions
    }

    /// How many news there were.
    pub fn news(&self) -> u64
        ensures { result ≡ self.now.news }
    {
        self.news
    }

    /// Whether the counts can rise by a step with so many news and sessions that begin.
    pub fn can_rise(&self, news: u64, sessions: u64) -> bool
        ensures { result ≡ can_rise self.now (step_with news sessions) }
    {
        self.steps != u64::MAX
            && self.news.checked_add(news).is_some()
            && self.sessions.checked_add(sessions).is_some()
    }

    /// Counts a step with so many news and sessions that begin.
    pub fn raise(&mut self, news: u64, sessions: u64)
        requires { IsTrue (can_rise self.old (step_with news sessions)) }
        ensures { self.new ≡ raised self.old (step_with news sessions) }
    {
        self.steps += 1;
        self.news += news;
        self.sessions += sessions;
    }
}
