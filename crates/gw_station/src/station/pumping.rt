//! What a client's station puts out.
ghost use Rattle.std.specs.Prelude.{◌≡◌, ◌<◌, ◌≤◌, ◌+◌, ◌^◌, None, Some, [], ◌++◌};
ghost use Rattle.std.specs.Prelude.{drop, length, option_map, slice_get};
ghost use Rattle.iec_apci.specs.Apdu.{Information};
ghost use Rattle.iec_apci.specs.Buffer.{buffer_of};
ghost use Rattle.iec_window.specs.Counts.{sent_in_all};
ghost use Rattle.iec_window.specs.Sequence.{receive_number, send_number};
ghost use Rattle.iec_window.specs.Steps.{counts_after_sending_i};
ghost use Rattle.gw_station.specs.Answers.{is_pending};
ghost use Rattle.gw_station.specs.Kept.{news_next, parts_octets, parts_together};
ghost use Rattle.gw_station.specs.Pump.{client_after_pump, client_with_sent, client_without_news};
ghost use Rattle.gw_station.specs.Pump.{content_of, given, information};
ghost use Rattle.gw_station.specs.Pump.{offered, packed_information, IsNext, IsRoomy};
ghost use Rattle.gw_station.specs.Ring.{seen, waiting_in, Stands};
ghost use Rattle.gw_station.specs.Sound.{IsReturnableSending};
ghost use Rattle.iec_asdu.specs.Packing.{taken_of};
ghost use Rattle.gw_answers.specs.Octets.{octets_in, packed_octets, IsReturnable};
ghost use Rattle.gw_map.specs.Settings.{station_clocks};

use crate::news::{MOST_PACKED, pack_news};
use crate::ring::NewsRing;
use crate::sending::Sending;
use crate::station::Station;
use gw_answers::{AsduAnswer, OwnAsdu, PackedAsdu, answer_asdu};
use gw_map::Settings;
use gw_model::Observation;
use iec_apci::{Apdu, ApduBuf, Asdu, Signal};

impl Station {
    /// The next APDU for the client at a moment: a confirmation that waits; TESTFR act where t3 has passed; where a
    /// session stands and fewer than k I formats wait for their acknowledgement, an answer to an ASDU, the oldest news
    /// that came before the interrogation that is pending, the next part of its answer, or later news, with as many
    /// news or rows behind it as one ASDU carries; an S format where one is due.
    pub fn pump(&mut self, settings: &Settings, moment: u64, news: &NewsRing) -> Option<ApduBuf>
        requires count { sent_in_all self.old.window + 1 < 2 ^ 64 }
        requires stands { Stands news.now self.old }
        ensures apdu { result ≡ option_map buffer_of
            (given (station_clocks settings.now.station) moment (seen news.now self.old)) }
        ensures client { seen news.now self.new
            ≡ client_after_pump (station_clocks settings.now.station) moment (seen news.now self.old) }
        ensures stands { Stands news.now self.new }
    {
        let sending = self.next_sending(moment, news)?;
        Some(self.send(sending, settings, moment, news))
    }

    /// Puts out what is offered, and what goes out with it.
    fn send(
        &mut self,
        sending: Sending,
        settings: &Settings,
        moment: u64,
        news: &NewsRing,
    ) -> ApduBuf
        requires room { IsRoomy self.old.window sending }
        requires count { sent_in_all self.old.window + 1 < 2 ^ 64 }
        requires answer { IsReturnableSending sending }
        requires next { IsNext (seen news.now self.old) sending }
        requires stands { Stands news.now self.old }
        ensures apdu { result ≡ buffer_of
            (content_of (station_clocks settings.now.station) (seen news.now self.old) sending) }
        ensures client { seen news.now self.new
            ≡ client_with_sent (station_clocks settings.now.station) moment sending (seen news.now self.old) }
        ensures stands { Stands news.now self.new }
    {
        match sending {
            Sending::Confirm(signal) => {
                self.confirmations.pop_front();
                ApduBuf::of(&Apdu::U(signal))
            }
            Sending::Test => {
                self.window.test_sent(moment);
                ApduBuf::of(&Apdu::U(Signal::TestAct))
            }
            Sending::Answer(answer) => {
                self.answers.pop_front();
                self.send_answer(&answer, settings, moment)
            }
            Sending::News(_) => self.send_news(settings, moment, news),
            Sending::Part(part) => self.send_parts(&part, settings, moment),
            Sending::SFormat => {
                let nr = self.window.ack_sent();
                ApduBuf::of(&Apdu::S { nr })
            }
        }
    }

    /// Puts out an answer in an I format.
    fn send_answer(&mut self, answer: &AsduAnswer, settings: &Settings, moment: u64) -> ApduBuf
        requires room { length self.old.window.waiting < self.old.window.limits.k }
        requires count { sent_in_all self.old.window + 1 < 2 ^ 64 }
        requires answer { IsReturnable answer.now }
        ensures apdu { result ≡ buffer_of
            (information (station_clocks settings.now.station) self.old.window answer.now) }
        ensures client { self.new ≡ record self.old { window = counts_after_sending_i moment self.old.window } }
    {
        let asdu = answer_asdu(&settings.zone(), answer);
        self.send_asdu(asdu, moment)
    }

    /// Puts out an ASDU in an I format.
    fn send_asdu(&mut self, asdu: Asdu, moment: u64) -> ApduBuf
        requires room { length self.old.window.waiting < self.old.window.limits.k }
        requires count { sent_in_all self.old.window + 1 < 2 ^ 64 }
        ensures apdu { result ≡ buffer_of (Information (send_number self.old.window)
            (receive_number self.old.window) (octets_in asdu)) }
        ensures client { self.new ≡ record self.old { window = counts_after_sending_i moment self.old.window } }
    {
        let (ns, nr) = self.window.sent(moment);
        ApduBuf::of(&Apdu::I { ns, nr, asdu })
    }

    /// Puts out the oldest news, as many as one ASDU carries.
    fn send_news(&mut self, settings: &Settings, moment: u64, news: &NewsRing) -> ApduBuf
        requires room { length self.old.window.waiting < self.old.window.limits.k }
        requires count { sent_in_all self.old.window + 1 < 2 ^ 64 }
        requires some { 0 < length (news_next (seen news.now self.old)) }
        requires stands { Stands news.now self.old }
        ensures apdu { result ≡ buffer_of (packed_information (station_clocks settings.now.station) self.old.window 3 0
            (news_next (seen news.now self.old))) }
        ensures client { seen news.now self.new ≡ record (client_without_news (taken_of
            (station_clocks settings.now.station) (news_next (seen news.now self.old))) (seen news.now self.old)) {
              window = counts_after_sending_i moment self.old.window;
            } }
        ensures stands { Stands news.now self.new }
    {
        let packed = self.pack_news(settings, news);
        self.forget_news(packed.taken, news);
        self.send_asdu(packed.asdu, moment)
    }

    /// Puts out the next part of an answer, and as many rows behind it as its ASDU carries.
    fn send_parts(&mut self, first: &OwnAsdu, settings: &Settings, moment: u64) -> ApduBuf
        requires room { length self.old.window.waiting < self.old.window.limits.k }
        requires count { sent_in_all self.old.window + 1 < 2 ^ 64 }
        requires first { slice_get self.old.rest 0 ≡ Some first.now }
        ensures apdu { result ≡ buffer_of (Information (send_number self.old.window) (receive_number self.old.window)
            (parts_octets (station_clocks settings.now.station) first.now self.old.rest)) }
        ensures seat { self.new ≡ record self.old {
          window = counts_after_sending_i moment self.old.window;
          rest = drop (parts_together (station_clocks settings.now.station) first.now self.old.rest) self.old.rest;
        } }
    {
        let packed = self.rest.pack(first, settings);
        self.rest.forget(packed.taken);
        self.send_asdu(packed.asdu, moment)
    }

    /// The ASDU of as many as one carries of the news that may go next, and how many these are.
    fn pack_news(&self, settings: &Settings, news: &NewsRing) -> PackedAsdu
        requires { 0 < length (news_next (seen news.now self.now)) }
        ensures asdu { octets_in result.asdu
            ≡ packed_octets (station_clocks settings.now.station) 3 0 (news_next (seen news.now self.now)) }
        ensures taken { result.taken
            ≡ taken_of (station_clocks settings.now.station) (news_next (seen news.now self.now)) }
    {
        let count = self.news_next(news).min(MOST_PACKED);
        let (front, back) = self.news_waiting(news);
        pack_news(front, back, count, settings)
    }

    /// The news that wait, in two slices.
    fn news_waiting<'a>(&self, news: &'a NewsRing) -> (&'a [Observation], &'a [Observation])
        ensures { result.0.now ++ result.1.now ≡ waiting_in news.now self.now.cursor }
    {
        match &self.cursor {
            Some(cursor) => news.slices_from(cursor.first),
            None => (&[], &[]),
        }
    }

    /// How many news may go next: those that came before the interrogation that is pending, or all.
    fn news_next(&self, news: &NewsRing) -> usize
        ensures { result ≡ length (news_next (seen news.now self.now)) }
    {
        let queued = self.queued(news);
        if self.is_pending() {
            (queued as u64).min(self.older(news)) as usize
        } else {
            queued
        }
    }

    /// The oldest news, so many, don't wait any more.
    fn forget_news(&mut self, count: usize, news: &NewsRing)
        requires few { count ≤ length (waiting_in news.now self.old.cursor) }
        requires stands { Stands news.now self.old }
        ensures client { seen news.now self.new ≡ client_without_news count (seen news.now self.old) }
        ensures stands { Stands news.now self.new }
    {
        self.cursor = match &self.cursor {
            Some(cursor) => Some(cursor.past(news, count)),
            None => None,
        };
    }
}
