//! What is known of one client.
ghost use Rattle.std.specs.Prelude.{◌≡◌, ◌<◌, ◌≤◌, ◌-◌, ◌+◌, None};
ghost use Rattle.std.specs.Prelude.{Some, [], ◌&&◌, drop, length};
ghost use Rattle.std.specs.Prelude.{IfOk};
ghost use Rattle.std.specs.List.{AllByRecursion};
ghost use Rattle.gw_station.specs.Answers.{is_pending, places};
ghost use Rattle.gw_station.specs.Client.{client_after_tick, close_by_tick, is_started, is_timed_out, is_up};
ghost use Rattle.gw_station.specs.Ring.{alone, dropped_in, older_in, seat_after_close};
ghost use Rattle.gw_station.specs.Ring.{seat_after_up, seat_down, seen, waiting_in, Ring, Stands};
ghost use Rattle.gw_answers.specs.Octets.{IsReturnable};

use crate::client::Stage;
use crate::cursor::Cursor;
use crate::queue::refill;
use crate::rest::PartsLeft;
use crate::ring::NewsRing;
use circular_buffer::HeapCircularBuffer;
use gw_answers::AsduAnswer;
use gw_model::Memory;
use iec_apci::{Signal, Why};
use iec_window::{Limits, Window};
use std::alloc::Global;
use std::marker::Model;

mod offers;
mod pumping;
mod taking;

/// How many confirmations of U formats may wait.
const MOST_CONFIRMATIONS: usize = 32;

/// How many places there are for answers that wait, and for those of orders.
const MOST_ANSWERS: usize = 32;

/// A client's connection, and what is to be put out to it.
#[derive(Drop)]
pub struct Station {
    alloc: Global,
    stage: Stage,
    window: Window,
    /// Confirmations of U formats that wait, oldest first.
    confirmations: HeapCircularBuffer<Signal>,
    /// The answers to its ASDUs that wait, oldest first.
    answers: HeapCircularBuffer<AsduAnswer>,
    /// How many places for answers its orders hold until their outcomes.
    held: usize,
    /// In a session: where it stands in the news.
    cursor: Option<Cursor>,
    /// What is left of the answer to the interrogation that is pending.
    rest: PartsLeft,
}

impl Model for Station {
    ghost use Rattle.std.specs.Prelude.{◌≡◌, ◌+◌, ◌≤◌, length};
    ghost use Rattle.std.specs.List.{AllByRecursion};
    ghost use Rattle.gw_answers.specs.Octets.{IsReturnable};
    ghost use Rattle.gw_station.specs.Ring.{Seat};

    ghost Value = { Seat };

    ghost view = { λ s. record {
      stage = s.stage;
      window = s.window;
      confirmations = s.confirmations.items;
      answers = s.answers.items;
      held = s.held;
      cursor = s.cursor;
      rest = s.rest;
    } };

    // There is room for 32 confirmations, and for 32 answers and orders, whose answers can be spelled.
    ghost invariant = { λ s. (length s.confirmations.items ≤ 32) × (s.confirmations.capacity ≡ 32)
        × (length s.answers.items + s.held ≤ 32) × (s.answers.capacity ≡ 32)
        × AllByRecursion IsReturnable s.answers.items };
}

impl Station {
    /// A client that is down, with the parameters of its connections.
    pub fn new(alloc: Global, limits: &Limits) -> Result<Station, Memory>
        requires { limits.now.k < 32768 }
        ensures { IfOk result (λ station. station ≡ seat_down limits.now) }
    {
        let window = Window::new(alloc, limits.k, limits.w, limits.t1, limits.t2, limits.t3)?;
        let confirmations = HeapCircularBuffer::with_capacity(alloc, MOST_CONFIRMATIONS)?;
        let answers = HeapCircularBuffer::with_capacity(alloc, MOST_ANSWERS)?;
        Ok(Station {
            alloc,
            stage: Stage::Down,
            window,
            confirmations,
            answers,
            held: 0,
            cursor: None,
            rest: PartsLeft::none(),
        })
    }

    /// An equal value, with the same room for what may wait, or `Memory` where there is none for it.
    pub fn copy(&self) -> Result<Station, Memory>
        ensures { IfOk result (λ copy. copy ≡ self.now) }
    {
        let window = self.window.copy()?;
        let room = HeapCircularBuffer::with_capacity(self.alloc, MOST_CONFIRMATIONS)?;
        let confirmations = refill(room, &self.confirmations);
        let room = HeapCircularBuffer::with_capacity(self.alloc, MOST_ANSWERS)?;
        let answers = refill(room, &self.answers);
        let rest = self.rest.copy()?;
        Ok(Station {
            window,
            confirmations,
            answers,
            rest,
            ..*self
        })
    }

    /// The same, in the memory of a station that isn't needed any more, so that none is asked for where that suffices.
    pub fn copy_over(&self, spare: Station) -> Result<Station, Memory>
        ensures { IfOk result (λ copy. copy ≡ self.now) }
    {
        // Nothing of its answer is used.
        drop(spare.rest);
        let window = self.window.copy_over(spare.window)?;
        let confirmations = refill(spare.confirmations, &self.confirmations);
        let answers = refill(spare.answers, &self.answers);
        let rest = self.rest.copy()?;
        Ok(Station {
            window,
            confirmations,
            answers,
            rest,
            ..*self
        })
    }

    /// Whether the client is up.
    pub fn is_up(&self) -> bool
        ensures { result ≡ is_up self.now.stage }
    {
        self.stage != Stage::Down
    }

    /// How many news wait.
    pub fn queued(&self, news: &NewsRing) -> usize
        ensures { result ≡ length (waiting_in news.now self.now.cursor) }
    {
        match &self.cursor {
            Some(cursor) => cursor.waiting(news),
            None => 0,
        }
    }

    /// How many I formats sent are not acknowledged.
    pub fn unacknowledged_count(&self) -> usize
        ensures { result ≡ length self.now.window.waiting }
    {
        self.window.unacknowledged_count()
    }

    /// How many news of the session were dropped.
    pub fn dropped(&self, news: &NewsRing) -> u64
        requires { Stands news.now self.now }
        ensures { result ≡ dropped_in news.now self.now.cursor }
    {
        match &self.cursor {
            Some(cursor) => cursor.dropped(news),
            None => 0,
        }
    }

    /// The client connects at a moment, in milliseconds.
    pub fn up(&mut self, moment: u64)
        ensures { self.new ≡ seat_after_up moment self.old }
    {
        self.begin_at(Stage::Stopped, None);
        self.window.begin(moment);
        self.confirmations.clear();
    }

    /// The connection is closed, or lost.
    pub fn down(&mut self)
        ensures { self.new ≡ seat_after_close self.old }
    {
        self.begin_at(Stage::Down, None);
    }

    /// Stands at a stage, with this cursor and nothing else of a session.
    fn begin_at(&mut self, stage: Stage, cursor: Option<Cursor>)
        ensures { self.new
            ≡ record self.old { stage = stage; answers = []; held = 0; cursor = cursor; rest = [] } }
    {
        self.stage = stage;
        self.cursor = cursor;
        self.answers.clear();
        self.held = 0;
        self.rest = PartsLeft::none();
    }

    /// Whether `tick` would close the connection at a moment.
    pub fn is_timed_out(&self, moment: u64) -> bool
        ensures { result ≡ is_timed_out moment (alone self.now) }
    {
        self.is_up() && self.window.t1_passed(moment)
    }

    /// Time has passed: why the connection is closed, if it is.
    pub fn tick(&mut self, moment: u64) -> Option<Why>
        ensures closed { result ≡ close_by_tick moment (alone self.old) }
        ensures client { (r : Ring) → seen r self.new ≡ client_after_tick moment (seen r self.old) }
        ensures stands { (r : Ring) → Stands r self.old → Stands r self.new }
    {
        if self.is_timed_out(moment) {
            self.down();
            Some(Why::Timer)
        } else {
            None
        }
    }

    fn is_started(&self) -> bool
        ensures { result ≡ is_started self.now.stage }
    {
        self.stage == Stage::Started
    }

    /// Whether an interrogation is pending: something is left of its answer.
    fn is_pending(&self) -> bool
        ensures { result ≡ is_pending self.now.rest }
    {
        self.rest.is_pending()
    }

    /// How many of the news that wait came before the interrogation that is pending.
    fn older(&self, news: &NewsRing) -> u64
        ensures { result ≡ older_in news.now self.now.cursor }
    {
        match &self.cursor {
            Some(cursor) => cursor.older(news),
            None => 0,
        }
    }
}
