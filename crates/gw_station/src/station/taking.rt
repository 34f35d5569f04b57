//! What a client's APDUs do to its station.
ghost use Rattle.std.specs.Prelude.{◌≡◌, ◌<◌, ◌+◌, ◌^◌, true, false, None, Some, [], ◌∷◌, ◌++◌, ◌&&◌};
ghost use Rattle.std.specs.Prelude.{is_some, length, nat_le, IfOk, OnErr, OnOk};
ghost use Rattle.std.specs.List.{AllByRecursion};
ghost use Rattle.gw_answers.specs.declared.outgoing.AsduAnswer.TheVariants.{Made};
ghost use Rattle.gw_station.specs.Answers.{client_judging, client_told, is_asking, is_pending, places, CanBeTold};
ghost use Rattle.gw_station.specs.Client.{is_started, most_confirmations};
ghost use Rattle.gw_station.specs.Frames.{asks, begins, client_after_apdu, client_with_session};
ghost use Rattle.gw_station.specs.Frames.{client_with_signal, closes_judged, event_by, event_of};
ghost use Rattle.gw_station.specs.Frames.{floods, given_command, judged_asdu, overfills, HasPlace};
ghost use Rattle.gw_station.specs.Ring.{alone, seat_after_close};
ghost use Rattle.gw_station.specs.Ring.{seen, waiting_in, Ring, Stands};
ghost use Rattle.gw_station.specs.Sound.{CanAnswer, IsWholeEvent};
ghost use Rattle.gw_answers.specs.Meaning.{IsSendable};
ghost use Rattle.gw_answers.specs.Answers.{command_by};
ghost use Rattle.gw_model.specs.First.{first_of};
ghost use Rattle.gw_model.specs.Clocks.{Clocks};
ghost use Rattle.gw_station.specs.declared.event.Event.TheVariants as events;
ghost use Rattle.iec_apci.specs.declared.apdu.Apdu.TheVariants as formats;

use crate::client::Stage;
use crate::cursor::Cursor;
use crate::event::{Event, Said};
use crate::queue::push;
use crate::rest::PartsLeft;
use crate::ring::NewsRing;
use crate::station::{MOST_ANSWERS, MOST_CONFIRMATIONS, Station};
use gw_answers::{
    AsduAnswer, OwnAsdu, answer_at_once, command_by, command_with, confirmation_of,
    is_accepted_act, places_for, sections_of,
};
use gw_judge::{Judged, judge};
use gw_map::Settings;
use gw_model::{Memory, Observation};
use iec_apci::{Apdu, Asdu, Signal, Why};
use iec_command::Command;
use iec_command::causes::ACTIVATION_TERMINATION;

impl Station {
    /// Whether a session would begin by an APDU.
    pub fn begins(&self, apdu: &Apdu) -> bool
        ensures { result ≡ begins apdu.now (alone self.now) }
    {
        match apdu {
            Apdu::U(Signal::StartAct) => !self.is_started() && !self.is_full(),
            _ => false,
        }
    }

    /// The command for a control that `frame` would give for an APDU, if it would.
    pub fn gives(&self, apdu: &Apdu, settings: &Settings) -> Option<Command>
        ensures { result ≡ given_command settings.now apdu.now (alone self.now) }
    {
        match apdu {
            Apdu::I { ns, nr, asdu } => {
                let judged = judge(asdu.as_slice(), settings);
                match self.close_by_information(*ns, *nr, &judged) {
                    Some(_) => None,
                    None => command_by(&judged),
                }
            }
            _ => None,
        }
    }

    /// What `frame` would give for an APDU, where memory isn't refused. It changes nothing.
    pub fn event(&self, apdu: &Apdu, settings: &Settings) -> Event
        ensures { result ≡ event_of settings.now apdu.now (alone self.now) }
    {
        match apdu {
            Apdu::I { ns, nr, asdu } => {
                let judged = judge(asdu.as_slice(), settings);
                self.event_of_information(*ns, *nr, &judged)
            }
            Apdu::S { nr } if !self.window.is_right_receive(*nr) => Event::Closed(Why::Sequence),
            Apdu::U(signal) if self.is_flooded_by(*signal) => Event::Closed(Why::Flooded),
            _ => Event::Taken,
        }
    }

    /// What becomes of an I format.
    fn event_of_information(&self, ns: u16, nr: u16, judged: &Judged) -> Event
        ensures { result
            ≡ event_by (first_of (closes_judged ns nr judged.now (alone self.now))) (command_by judged.now) }
    {
        if let Some(why) = self.close_by_information(ns, nr, judged) {
            return Event::Closed(why);
        }
        match command_by(judged) {
            Some(command) => Event::Command(command),
            None => Event::Taken,
        }
    }

    /// Takes an APDU that came at a moment, or closes the connection. `picture` is what is shown of each row of
    /// `settings`. Memory is wanted for the answer to an interrogation that is accepted.
    pub fn frame(
        &mut self,
        apdu: &Apdu,
        moment: u64,
        settings: &Settings,
        picture: &[Observation],
        news: &NewsRing,
    ) -> Result<Event, Memory>
        requires received { self.old.window.received + 1 < 2 ^ 64 }
        requires stands { Stands news.now self.old }
        ensures event { IfOk result (λ event. event ≡ event_of settings.now apdu.now (seen news.now self.old)) }
        ensures client { OnOk result (seen news.now self.new
            ≡ client_after_apdu settings.now picture.now moment apdu.now (seen news.now self.old)) }
        ensures stands { OnOk result (Stands news.now self.new) }
        ensures place { IfOk result (λ event. HasPlace event (seen news.now self.new)) }
        // Its answers can be sent, where they could before, and the picture's observations can.
        ensures sendable { (clocks : Clocks) → AllByRecursion (IsSendable clocks) picture.now
            → CanAnswer clocks (seen news.now self.old) → OnOk result (CanAnswer clocks (seen news.now self.new)) }
        // A command that is given has fields that fit.
        ensures whole { IfOk result (λ event. IsWholeEvent event) }
        ensures memory { OnErr result (asks settings.now apdu.now (seen news.now self.old) ≡ true) }
        ensures same { OnErr result (self.new ≡ self.old) }
    {
        match apdu {
            Apdu::I { ns, nr, asdu } => {
                self.take_information(*ns, *nr, asdu, moment, settings, picture, news)
            }
            Apdu::S { nr } => match self.window.acknowledged(*nr, moment) {
                Ok(()) => Ok(Event::Taken),
                // A wrong number changes nothing.
                Err(_) => Ok(self.close(Why::Sequence)),
            },
            Apdu::U(signal) if self.is_flooded_by(*signal) => Ok(self.close(Why::Flooded)),
            Apdu::U(signal) => {
                self.take_signal(*signal, moment, news);
                Ok(Event::Taken)
            }
        }
    }

    fn close(&mut self, why: Why) -> Event
        ensures event { result ≡ events.Closed why }
        ensures seat { self.new ≡ seat_after_close self.old }
    {
        self.down();
        Event::Closed(why)
    }

    /// Says something of a command for a control that `frame` gave, or what became of the order that it was.
    pub fn answer(&mut self, command: &Command, said: Said)
        requires { CanBeTold command.now said (alone self.old) }
        ensures client { (r : Ring) → seen r self.new ≡ client_told command.now said (seen r self.old) }
        ensures stands { (r : Ring) → Stands r self.old → Stands r self.new }
    {
        self.held = said.held_with(self.held);
        match said {
            Said::Confirm => self.push_answer(confirmation_of(false, command)),
            Said::Negative | Said::Failed => self.push_answer(confirmation_of(true, command)),
            Said::Ordered => {}
            Said::Done => {
                self.push_answer(confirmation_of(false, command));
                self.push_answer(command_with(ACTIVATION_TERMINATION, false, command));
            }
        }
    }

    /// One more answer waits, for which there is a place.
    fn push_answer(&mut self, answer: OwnAsdu)
        requires { length self.old.answers + self.old.held < places }
        ensures { self.new ≡ record self.old { answers = self.old.answers ++ Made answer ∷ [] } }
    {
        push(&mut self.answers, AsduAnswer::Made(answer));
    }

    /// Whether no further confirmation finds a place.
    fn is_full(&self) -> bool
        ensures { result ≡ nat_le most_confirmations (length self.now.confirmations) }
    {
        self.confirmations.len() >= MOST_CONFIRMATIONS
    }

    /// Whether a confirmation is wanted, for which there is no place.
    fn is_flooded_by(&self, signal: Signal) -> bool
        ensures { result ≡ floods signal (alone self.now) }
    {
        signal.confirmation().is_some() && self.is_full()
    }

    /// Why an I format closes the connection, if it does.
    fn close_by_information(&self, ns: u16, nr: u16, judged: &Judged) -> Option<Why>
        ensures { result ≡ first_of (closes_judged ns nr judged.now (alone self.now)) }
    {
        if !self.is_started() {
            return Some(Why::NotStarted);
        }
        if self.window.check_numbers(ns, nr).is_err() {
            return Some(Why::Sequence);
        }
        if matches!(judged, Judged::Malformed) {
            return Some(Why::Malformed);
        }
        if self.answers.len() + self.held + places_for(self.is_pending(), judged) > MOST_ANSWERS {
            return Some(Why::Flooded);
        }
        None
    }

    /// Takes an I format, or closes the connection.
    fn take_information(
        &mut self,
        ns: u16,
        nr: u16,
        asdu: &Asdu,
        moment: u64,
        settings: &Settings,
        picture: &[Observation],
        news: &NewsRing,
    ) -> Result<Event, Memory>
        requires received { self.old.window.received + 1 < 2 ^ 64 }
        requires stands { Stands news.now self.old }
        ensures event { IfOk result (λ event.
            event ≡ event_of settings.now (formats.I ns nr asdu.now) (seen news.now self.old)) }
        ensures client { OnOk result (seen news.now self.new
            ≡ client_after_apdu settings.now picture.now moment (formats.I ns nr asdu.now) (seen news.now self.old)) }
        ensures stands { OnOk result (Stands news.now self.new) }
        ensures place { IfOk result (λ event. HasPlace event (seen news.now self.new)) }
        // Its answers can be sent, where they could before, and the picture's observations can.
        ensures sendable { (clocks : Clocks) → AllByRecursion (IsSendable clocks) picture.now
            → CanAnswer clocks (seen news.now self.old) → OnOk result (CanAnswer clocks (seen news.now self.new)) }
        // A command that is given has fields that fit.
        ensures whole { IfOk result (λ event. IsWholeEvent event) }
        ensures memory { OnErr result (asks settings.now (formats.I ns nr asdu.now) (seen news.now self.old) ≡ true) }
        ensures same { OnErr result (self.new ≡ self.old) }
    {
        let judged = judge(asdu.as_slice(), settings);
        if let Some(why) = self.close_by_information(ns, nr, &judged) {
            return Ok(self.close(why));
        }
        // Known common addresses have 16 bits, so what is said under them can be sent.
        let _known = settings.known_addresses();
        self.take_asdu(settings, picture, asdu, &judged, news)?;
        self.window.received(ns, nr, moment);
        Ok(match command_by(&judged) {
            Some(command) => Event::Command(command),
            None => Event::Taken,
        })
    }

    /// Takes an ASDU for whose answer there are places: an interrogation that is accepted copies the picture, all else
    /// is answered at once, or waits for what is said of it.
    fn take_asdu(
        &mut self,
        settings: &Settings,
        picture: &[Observation],
        asdu: &Asdu,
        judged: &Judged,
        news: &NewsRing,
    ) -> Result<(), Memory>
        requires judged { judged.now ≡ judged_asdu settings.now asdu.now }
        requires room { overfills judged.now (alone self.old) ≡ false }
        requires stands { Stands news.now self.old }
        ensures client { OnOk result (seen news.now self.new
            ≡ client_judging settings.now picture.now asdu.now judged.now (seen news.now self.old)) }
        ensures stands { OnOk result (Stands news.now self.new) }
        ensures memory { OnErr result (is_asking judged.now (alone self.old) ≡ true) }
        ensures same { OnErr result (self.new ≡ self.old) }
    {
        let pending = self.is_pending();
        if let Judged::Accepted(command) = judged {
            if is_accepted_act(pending, command) {
                let answer = sections_of(self.alloc, command, settings, picture)?;
                self.rest = PartsLeft::of(answer)?;
                self.mark(news);
                return Ok(());
            }
        }
        if let Some(answer) = answer_at_once(settings, picture, pending, asdu, judged) {
            push(&mut self.answers, answer);
        }
        Ok(())
    }

    /// All that wait are older than the interrogation that is accepted.
    fn mark(&mut self, news: &NewsRing)
        requires { Stands news.now self.old }
        ensures client { seen news.now self.new
            ≡ record (seen news.now self.old) { older = length (waiting_in news.now self.old.cursor) } }
        ensures stands { Stands news.now self.new }
        ensures rest { self.new.rest ≡ self.old.rest }
    {
        if let Some(cursor) = &mut self.cursor {
            cursor.mark = news.next();
        }
    }

    /// Takes a control function, for whose confirmation there is a place.
    fn take_signal(&mut self, signal: Signal, moment: u64, news: &NewsRing)
        requires floods { floods signal (alone self.old) ≡ false }
        requires stands { Stands news.now self.old }
        ensures client { seen news.now self.new ≡ client_with_signal moment signal (seen news.now self.old) }
        ensures stands { Stands news.now self.new }
    {
        self.begin_or_end(signal, news);
        match signal {
            Signal::TestCon => self.window.test_confirmed(moment),
            _ => self.window.hear(moment),
        }
        if let Some(confirmation) = signal.confirmation() {
            push(&mut self.confirmations, confirmation);
        }
    }

    /// Begins a session by STARTDT act where none stands, and ends it by STOPDT act.
    fn begin_or_end(&mut self, signal: Signal, news: &NewsRing)
        requires { Stands news.now self.old }
        ensures client { seen news.now self.new ≡ client_with_session signal (seen news.now self.old) }
        ensures stands { Stands news.now self.new }
    {
        let started = self.is_started();
        match signal {
            Signal::StartAct if !started => {
                self.begin_at(Stage::Started, Some(Cursor::behind(news)));
            }
            Signal::StopAct if started => self.begin_at(Stage::Stopped, None),
            _ => {}
        }
    }
}
