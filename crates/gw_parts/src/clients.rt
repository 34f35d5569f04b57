//! All clients, by their position, and the news for all of them.
ghost use Rattle.std.specs.Prelude.{◌≡◌, ◌+◌, ◌<◌, ◌≤◌, ◌^◌, ℕ, ◌||◌, length, [], ◌∷◌, map};
ghost use Rattle.std.specs.Prelude.{option_map, replicate, slice_get, true, if◌then◌else◌, IfOk, IfSome, OnErr, OnOk};
ghost use Rattle.std.specs.List.{AllByRecursion};
ghost use Rattle.gw_model.specs.Places.{change};
ghost use Rattle.gw_map.specs.Settings.{Setup, station_clocks};
ghost use Rattle.gw_station.specs.Client.{client_after_close, client_after_tick, client_after_up};
ghost use Rattle.gw_station.specs.Client.{client_down, client_with_news, is_timed_out, is_up};
ghost use Rattle.gw_station.specs.Answers.{client_told, CanBeTold};
ghost use Rattle.gw_station.specs.Frames.{client_after_apdu, HasPlace};
ghost use Rattle.gw_station.specs.Pump.{client_after_pump};
ghost use Rattle.gw_answers.specs.Meaning.{IsSendable};
ghost use Rattle.gw_station.specs.Sound.{IsSoundClient, IsWholeEvent};
ghost use Rattle.gw_steps.specs.Controls.{controls_after_closes};
ghost use Rattle.gw_steps.specs.Steps.{begun_by, bits_of, command_of, wanted_by};
ghost use Rattle.gw_steps.specs.Queries.{dropped_at, has_offer, queued_at, unacknowledged_at};
ghost use Rattle.gw_steps.specs.State.{client_limit};
ghost use Rattle.gw_steps.specs.Effects.{dropped_of, or_offered};
ghost use Rattle.gw_parts.specs.Clients.{event_at, is_timed_out_at, reply_to_pump, CanCount, CanPump};

use gw_control::Controls;
use gw_map::Settings;
use gw_model::{CLIENTS, Memory, Observation};
use gw_station::{Event, NewsPiece, NewsRing, Said, Station};
use gw_steps::Reply;
use iec_apci::Apdu;
use iec_command::Command;
use iec_window::Limits;
use std::alloc::Global;
use std::marker::Model;

/// For each client its station, and the last news, for all of them.
#[derive(Drop)]
pub struct Clients {
    news: NewsRing,
    stations: Vec<Station>,
}

impl Model for Clients {
    ghost use Rattle.std.specs.Prelude.{length, map, ◌≡◌};
    ghost use Rattle.std.specs.List.{AllByRecursion};
    ghost use Rattle.gw_station.specs.Ring.{seen, Stands};
    ghost use Rattle.gw_parts.specs.Clients.{Clients as Seen};

    ghost Value = { Seen };

    ghost view = { λ c. record { each = map (seen c.news) c.stations.items; news = c.news.next } };

    // A bit of an octet for each.
    ghost invariant = { λ c. (length c.stations.items ≡ 8) × AllByRecursion (Stands c.news) c.stations.items };
}

impl Clients {
    /// All clients down, with the parameters of their connections; `queue` news may wait for each. There were so many
    /// news already.
    pub fn new(alloc: Global, limits: &Limits, queue: u32, news: u64) -> Result<Clients, Memory>
        requires { limits.now.k < 32768 }
        ensures clients { IfOk result (λ clients.
            clients.each ≡ replicate client_limit (client_down limits.now queue)) }
        ensures news { IfOk result (λ clients. clients.news ≡ news) }
    {
        let news = NewsRing::new(alloc, queue, news)?;
        let mut stations = Vec::with_capacity(alloc, usize::from(CLIENTS))?;
        for _ in 0..CLIENTS {
            stations.push(Station::new(alloc, limits)?)?;
        }
        Ok(Clients { news, stations })
    }

    /// An equal value, or `Memory` where there is no room for its stations, what waits in them, and the news.
    pub fn copy(&self) -> Result<Clients, Memory>
        ensures { IfOk result (λ copy. copy ≡ self.now) }
    {
        let news = self.news.copy()?;
        let none = Vec::new(*self.stations.allocator());
        let stations = copied_all(&self.stations, none)?;
        Ok(Clients { news, stations })
    }

    /// The same, in the memory of what isn't needed any more, so that little is asked for where that suffices.
    pub fn copy_over(&self, spare: Clients) -> Result<Clients, Memory>
        ensures { IfOk result (λ copy. copy ≡ self.now) }
    {
        let news = self.news.copy_over(spare.news)?;
        let stations = copied_all(&self.stations, spare.stations)?;
        Ok(Clients { news, stations })
    }

    /// Whether a client is up; none where there is no such client.
    pub fn presence(&self, client: u8) -> Option<bool>
        ensures { result ≡ option_map (λ k. is_up k.stage) (slice_get self.now.each client) }
    {
        Some(self.stations.get(usize::from(client))?.is_up())
    }

    /// Whether a session would begin by an APDU of a client.
    pub fn begins(&self, client: u8, apdu: &Apdu) -> bool
        ensures { result ≡ begun_by apdu.now (slice_get self.now.each client) }
    {
        match self.stations.get(usize::from(client)) {
            Some(station) => station.begins(apdu),
            None => false,
        }
    }

    /// How many news wait for a client; 0 where there is no such client.
    pub fn queued(&self, client: u8) -> usize
        ensures { result ≡ queued_at (slice_get self.now.each client) }
    {
        match self.stations.get(usize::from(client)) {
            Some(station) => station.queued(&self.news),
            None => 0,
        }
    }

    /// How many news of a client's session were dropped; 0 where there is no such client.
    pub fn dropped(&self, client: u8) -> u64
        ensures { result ≡ dropped_at (slice_get self.now.each client) }
    {
        match self.stations.get(usize::from(client)) {
            Some(station) => station.dropped(&self.news),
            None => 0,
        }
    }

    /// What was dropped for a client, if its session ends.
    fn dropped_if(&self, ends: bool, client: u8) -> u64
        ensures { result ≡ (if ends then dropped_at (slice_get self.now.each client) else 0) }
    {
        if ends { self.dropped(client) } else { 0 }
    }

    /// What was dropped for each client whose session ends.
    pub fn dropped_of(&self, ends: &[bool; CLIENTS as usize]) -> [u64; CLIENTS as usize]
        ensures { result ≡ dropped_of ends.now self.now.each }
    {
        let _ = &self.stations;
        let mut dropped = [0; CLIENTS as usize];
        for client in 0..CLIENTS {
            let position = usize::from(client);
            dropped[position] = self.dropped_if(ends[position], client);
        }
        dropped
    }

    /// Copies the news from a number on, as many as find room, and tells which they are.
    pub fn copy_news(&self, number: u64, room: &mut [Observation]) -> NewsPiece
        ensures room { length room.new ≡ length room.old }
        ensures few { result.count ≤ length room.old }
        ensures total { result.total ≡ self.now.news }
        ensures within { result.first + result.count ≤ self.now.news }
    {
        self.news.copy_from(number, room)
    }

    /// Whether the connection of a client is closed as time has passed.
    fn is_timed_out(&self, client: u8, moment: u64) -> bool
        ensures { result ≡ is_timed_out_at moment (slice_get self.now.each client) }
    {
        match self.stations.get(usize::from(client)) {
            Some(station) => station.is_timed_out(moment),
            None => false,
        }
    }

    /// For each client whether its connection is closed as time has passed: those that `tick` closes.
    pub fn leaving(&self, moment: u64) -> [bool; CLIENTS as usize]
        ensures { result ≡ map (is_timed_out moment) self.now.each }
    {
        let _ = &self.stations;
        let mut leaving = [false; CLIENTS as usize];
        for client in 0..CLIENTS {
            let position = usize::from(client);
            leaving[position] = self.is_timed_out(client, moment);
        }
        leaving
    }

    /// How many I formats sent to a client are not acknowledged; 0 where there is no such client.
    pub fn unacknowledged_count(&self, client: u8) -> usize
        ensures { result ≡ unacknowledged_at (slice_get self.now.each client) }
    {
        match self.stations.get(usize::from(client)) {
            Some(station) => station.unacknowledged_count(),
            None => 0,
        }
    }

    /// Whether a client is up, and `pump` would give an APDU at a moment.
    pub fn has_offer(&self, client: u8, moment: u64) -> bool
        ensures { result ≡ has_offer moment (slice_get self.now.each client) }
    {
        match self.stations.get(usize::from(client)) {
            Some(station) => station.has_offer(moment, &self.news),
            None => false,
        }
    }

    /// Whether it is so of a client, or something may be put out to it at a moment.
    fn is_so_or_offered(&self, so: bool, client: u8, moment: u64) -> bool
        ensures { result ≡ (so || has_offer moment (slice_get self.now.each client)) }
    {
        so || self.has_offer(client, moment)
    }

    /// For each client whether it is so already, or something may be put out to it at a moment.
    pub fn or_offered(&self, so: &[bool; CLIENTS as usize], moment: u64) -> [bool; CLIENTS as usize]
        ensures { result ≡ or_offered moment so.now self.now.each }
    {
        let _ = &self.stations;
        let mut offered = [false; CLIENTS as usize];
        for client in 0..CLIENTS {
            let position = usize::from(client);
            offered[position] = self.is_so_or_offered(so[position], client, moment);
        }
        offered
    }

    /// A client comes up at a moment.
    pub fn come_up(&mut self, client: u8, moment: u64)
        ensures clients { self.new.each ≡ change client (client_after_up moment) self.old.each }
        ensures news { self.new.news ≡ self.old.news }
    {
        let Some(station) = self.stations.get_mut(usize::from(client)) else {
            return;
        };
        station.up(moment);
    }

    /// The connection to a client is lost.
    pub fn go_down(&mut self, client: u8)
        ensures clients { self.new.each ≡ change client client_after_close self.old.each }
        ensures news { self.new.news ≡ self.old.news }
    {
        let Some(station) = self.stations.get_mut(usize::from(client)) else {
            return;
        };
        station.down();
    }

    /// The command for a control that an APDU of a client carries, if it would be taken.
    pub fn gives(&self, client: u8, apdu: &Apdu, settings: &Settings) -> Option<Command>
        ensures { result ≡ command_of settings.now apdu.now (slice_get self.now.each client) }
    {
        match self.stations.get(usize::from(client)) {
            Some(station) => station.gives(apdu, settings),
            None => None,
        }
    }

    /// What becomes of an APDU of a client, where memory isn't refused. It changes nothing.
    pub fn event(&self, client: u8, apdu: &Apdu, settings: &Settings) -> Event
        ensures { result ≡ event_at settings.now apdu.now (slice_get self.now.each client) }
    {
        match self.stations.get(usize::from(client)) {
            Some(station) => station.event(apdu, settings),
            None => Event::Taken,
        }
    }

    /// Takes an APDU that came from a client at a moment: what became of it. `picture` is what is shown of each row of
    /// `settings`. Memory is wanted for the copy of the picture that answers an interrogation.
    pub fn frame(
        &mut self,
        client: u8,
        apdu: &Apdu,
        moment: u64,
        settings: &Settings,
        picture: &[Observation],
    ) -> Result<Event, Memory>
        requires { AllByRecursion CanCount self.old.each }
        ensures event { IfOk result (λ event.
            event ≡ event_at settings.now apdu.now (slice_get self.old.each client)) }
        ensures clients { OnOk result (self.new.each
            ≡ change client (client_after_apdu settings.now picture.now moment apdu.now) self.old.each) }
        ensures news { self.new.news ≡ self.old.news }
        ensures memory { OnErr result (wanted_by settings.now apdu.now (slice_get self.old.each client) ≡ true) }
        ensures same { OnErr result (self.new ≡ self.old) }
        // A command that is given has fields that fit, and finds places for what is said of it.
        ensures whole { IfOk result (λ event. IsWholeEvent event) }
        ensures place { IfOk result (λ event. IfSome (slice_get self.new.each client) (HasPlace event)) }
        // Where the picture can be sent, all clients stay sound, one step later.
        ensures sound { (any : Setup) (n i : ℕ)
            → AllByRecursion (IsSendable (station_clocks any.station)) picture.now
            → AllByRecursion (IsSoundClient any.station n i) self.old.each
            → OnOk result (AllByRecursion (IsSoundClient any.station (n + 1) i) self.new.each) }
    {
        let Some(station) = self.stations.get_mut(usize::from(client)) else {
            return Ok(Event::Taken);
        };
        let event = station.frame(apdu, moment, settings, picture, &self.news)?;
        Ok(event)
    }

    /// Says something of a command of a client, or what became of the order that it was.
    pub fn answer(&mut self, client: u8, command: &Command, said: Said)
        requires { IfSome (slice_get self.old.each client) (CanBeTold command.now said) }
        ensures clients { self.new.each ≡ change client (client_told command.now said) self.old.each }
        ensures news { self.new.news ≡ self.old.news }
    {
        let Some(station) = self.stations.get_mut(usize::from(client)) else {
            return;
        };
        station.answer(command, said);
    }

    /// The next APDU for a client.
    pub fn pump(&mut self, client: u8, settings: &Settings, moment: u64) -> Reply
        requires { AllByRecursion CanPump self.old.each }
        ensures reply { result ≡ reply_to_pump settings.now moment (slice_get self.old.each client) }
        ensures clients { self.new.each
            ≡ change client (client_after_pump (station_clocks settings.now.station) moment) self.old.each }
        ensures news { self.new.news ≡ self.old.news }
    {
        let Some(station) = self.stations.get_mut(usize::from(client)) else {
            return Reply::Nothing;
        };
        match station.pump(settings, moment, &self.news) {
            Some(apdu) => Reply::Apdu(apdu),
            None => Reply::Nothing,
        }
    }

    /// Time has passed, for every client: a bit for each whose connection is closed, the lowest for the first. With it
    /// its session ends.
    pub fn tick(&mut self, controls: &mut Controls, moment: u64) -> u8
        ensures closed { result ≡ bits_of (map (is_timed_out moment) self.old.each) }
        ensures clients { self.new.each ≡ map (client_after_tick moment) self.old.each }
        ensures news { self.new.news ≡ self.old.news }
        ensures controls { controls.new
            ≡ controls_after_closes 0 (map (is_timed_out moment) self.old.each) controls.old }
    {
        let mut closed = 0;
        for position in 0..self.stations.len() {
            let is_closed = self.stations[position].tick(moment).is_some();
            closed += u8::from(is_closed) << position;
            if is_closed {
                controls.end(position as u8);
            }
        }
        closed
    }

    /// News came, for every client in a session. Its cost is the same for any number of clients.
    pub fn put(&mut self, news: Observation)
        requires { self.old.news + 1 < 2 ^ 64 }
        ensures clients { self.new.each ≡ map (client_with_news (news ∷ [])) self.old.each }
        ensures news { self.new.news ≡ self.old.news + 1 }
    {
        self.news.push(news);
    }
}

/// Equal stations, in the memory of spare ones as far as these go.
fn copied_all(stations: &Vec<Station>, spare: Vec<Station>) -> Result<Vec<Station>, Memory>
    ensures { IfOk result (λ copy. copy.items ≡ stations.now.items) }
{
    let mut copies = Vec::with_capacity(*stations.allocator(), stations.len())?;
    let mut spares = spare.into_iter();
    for station in stations {
        copies.push(copy_into_spare(station, spares.next())?)?;
    }
    Ok(copies)
}

/// An equal station, in the memory of a spare one if there is one.
fn copy_into_spare(station: &Station, spare: Option<Station>) -> Result<Station, Memory>
    ensures { IfOk result (λ copy. copy ≡ station.now) }
{
    match spare {
        Some(spare) => station.copy_over(spare),
        None => station.copy(),
    }
}
