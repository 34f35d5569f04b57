//! Where a client stands in the news.
ghost use Rattle.std.specs.Prelude.{◌≡◌, ◌+◌, ◌≤◌, ◌<◌, ◌^◌, length, Some};
ghost use Rattle.gw_station.specs.Ring.{dropped_in, first_waiting, news_from, older_in, waiting_in, IsWithin};

use crate::ring::NewsRing;

/// Where a client of a session stands in the news, by their numbers.
#[derive(Clone, Copy)]
pub struct Cursor {
    /// The first that it wasn't given. Those before the oldest that is kept are dropped.
    pub first: u64,
    /// The first that came after the act of the interrogation which is pending.
    pub mark: u64,
    /// How many were dropped before `first`.
    pub dropped: u64,
}

impl Cursor {
    /// Of a session that begins: behind all news.
    pub fn behind(news: &NewsRing) -> Cursor
        ensures cursor { result ≡ record { first = news.now.next; mark = 0; dropped = 0 } }
        // What every ring keeps.
        ensures within { length news.now.items ≤ news.now.next }
    {
        Cursor {
            first: news.next(),
            mark: 0,
            dropped: 0,
        }
    }

    /// The number of the first that waits.
    fn first_waiting(&self, news: &NewsRing) -> u64
        ensures first { result ≡ first_waiting news.now self.now }
        // What every ring keeps.
        ensures within { (length news.now.items ≤ news.now.next) × (news.now.next < 2 ^ 64) }
    {
        self.first.max(news.oldest())
    }

    /// How many wait.
    pub fn waiting(&self, news: &NewsRing) -> usize
        ensures { result ≡ length (news_from self.now.first news.now) }
    {
        news.count_from(self.first)
    }

    /// How many were dropped.
    pub fn dropped(&self, news: &NewsRing) -> u64
        requires { IsWithin news.now self.now }
        ensures { result ≡ dropped_in news.now (Some self.now) }
    {
        self.dropped + news.oldest().saturating_sub(self.first)
    }

    /// How many of those that wait came before the act.
    pub fn older(&self, news: &NewsRing) -> u64
        ensures { result ≡ older_in news.now (Some self.now) }
    {
        self.mark.saturating_sub(self.first_waiting(news))
    }

    /// The cursor once so many that waited were given.
    pub fn past(&self, news: &NewsRing, count: usize) -> Cursor
        requires within { IsWithin news.now self.now }
        requires few { count ≤ length (news_from self.now.first news.now) }
        ensures cursor { result ≡ record {
          first = first_waiting news.now self.now + count;
          mark = self.now.mark;
          dropped = dropped_in news.now (Some self.now);
        } }
        ensures within { length news.now.items ≤ news.now.next }
    {
        Cursor {
            first: self.first_waiting(news) + count as u64,
            mark: self.mark,
            dropped: self.dropped(news),
        }
    }
}
