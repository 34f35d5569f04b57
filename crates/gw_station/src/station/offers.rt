//! What a client's station would put out next.
ghost use Rattle.std.specs.Prelude.{◌≡◌, None, Some, ◌&&◌, is_some, slice_get, IfSome};
ghost use Rattle.std.specs.List.{AllByRecursion};
ghost use Rattle.gw_station.specs.Client.{is_started, is_up};
ghost use Rattle.gw_station.specs.Pump.{information};
ghost use Rattle.gw_station.specs.Pump.{information_offered, line, offered, IsNext, IsRoomy};
ghost use Rattle.gw_station.specs.Ring.{seen, waiting_in};
ghost use Rattle.gw_answers.specs.Octets.{IsReturnable};

use crate::ring::NewsRing;
use crate::sending::Sending;
use crate::station::Station;
use gw_model::Observation;

impl Station {
    /// Whether the client is up, and `pump` would give an APDU at a moment.
    pub fn has_offer(&self, moment: u64, news: &NewsRing) -> bool
        ensures { result ≡ (is_up self.now.stage && is_some (offered moment (seen news.now self.now))) }
    {
        self.is_up() && self.next_sending(moment, news).is_some()
    }

    /// What is put out next at a moment, if anything.
    pub(super) fn next_sending(&self, moment: u64, news: &NewsRing) -> Option<Sending>
        ensures sending { result ≡ offered moment (seen news.now self.now) }
        ensures room { IfSome result (IsRoomy self.now.window) }
        ensures next { IfSome result (IsNext (seen news.now self.now)) }
        // What the type keeps.
        ensures answers { AllByRecursion IsReturnable self.now.answers }
    {
        if let Some(signal) = self.confirmations.front() {
            return Some(Sending::Confirm(*signal));
        }
        if self.window.owes_test(moment) {
            return Some(Sending::Test);
        }
        let information = self.information_offered(news);
        if information.is_none() && self.window.owes_ack(moment) {
            return Some(Sending::SFormat);
        }
        information
    }

    /// The first of what waits for an I format, in a session, where one may be sent.
    fn information_offered(&self, news: &NewsRing) -> Option<Sending>
        ensures sending { result ≡ information_offered (seen news.now self.now) }
        ensures room { IfSome result (IsRoomy self.now.window) }
    {
        if self.is_started() && self.window.may_send() {
            self.first_in_line(news)
        } else {
            None
        }
    }

    /// The first of what waits for an I format.
    fn first_in_line(&self, news: &NewsRing) -> Option<Sending>
        ensures { result ≡ slice_get (line (seen news.now self.now)) 0 }
    {
        if let Some(answer) = self.answers.front() {
            return Some(Sending::Answer(*answer));
        }
        let oldest = self.oldest_news(news).map(Sending::News);
        if oldest.is_some() && self.older(news) > 0 {
            return oldest;
        }
        if let Some(part) = self.rest.first() {
            return Some(Sending::Part(part));
        }
        oldest
    }

    fn oldest_news(&self, news: &NewsRing) -> Option<Observation>
        ensures { result ≡ slice_get (waiting_in news.now self.now.cursor) 0 }
    {
        match &self.cursor {
            Some(cursor) => news.first_from(cursor.first),
            None => None,
        }
    }
}
