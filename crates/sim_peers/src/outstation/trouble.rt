//! What goes wrong at an outstation: it restarts, gets stuck, sends octet by octet, or repeats itself.

use crate::log::Log;
use crate::outstation::{CON, FIN, FIR, Outstation, Repetition, Sending, Waiting};
use crate::pipe::Pipe;
use crate::scenario::Number;

/// The least and the most milliseconds from one repetition of an unsolicited response to the next, and how many there are at most.
const REPEATS_MS: (u64, u64) = (20, 800);

const MOST_REPEATS: u64 = 3;

/// The least and the most milliseconds from one octet to the next where they trickle, and how many wait at most.
const TRICKLES_MS: (u64, u64) = (5, 1500);

const MOST_TRICKLING: usize = 4096;

impl Outstation {
    /// It restarts: it forgets its events, and mostly loses its connection.
    pub(super) fn restart(&mut self, now: u64, log: &Log<'_>) {
        let period = self.scenario.milliseconds(Number::RestartS);
        self.timers.restart = self.random.next_after(now, period);
        self.is_restarted = true;
        self.wants_time = true;
        self.has_overflowed = false;
        self.is_enabled = false;
        self.events.clear();
        self.forget();
        self.wants_loss = self.random.happens(600);
        log.add("restart", &[self.number]);
    }

    /// It gets stuck until the connection ends.
    pub(super) fn get_stuck(&mut self, now: u64, log: &Log<'_>) {
        self.timers.stuck = u64::MAX;
        let (least, most) = TRICKLES_MS;
        let gap = self.random.between(least, most);
        let (sending, code) = match self.random.below(3) {
            0 => (Sending::LinkAlone, 0),
            1 => (Sending::Nothing, 1),
            _ => (Sending::Trickling(gap), 2),
        };
        self.sending = sending;
        self.timers.trickle = now;
        log.add("stuck", &[self.number, code, gap]);
    }

    /// Sends the next octet of those that trickle.
    pub(super) fn trickle(&mut self, now: u64, way: &mut Pipe) {
        self.timers.trickle = match self.sending {
            Sending::Trickling(gap) if !self.trickling.is_empty() => now.saturating_add(gap),
            _ => u64::MAX,
        };
        if let Some(waiting) = self.trickling.pop_front() {
            way.send(now, &[waiting.octet], waiting.observations);
        }
    }

    /// Repeats an unsolicited response, if that is due.
    pub(super) fn repeat(&mut self, now: u64, way: &mut Pipe, log: &Log<'_>) {
        let Some(repetition) = self.repetition.take() else {
            return;
        };
        if !matches!(self.sending, Sending::Well) {
            return;
        }
        if repetition.at > now {
            self.repetition = Some(repetition);
            return;
        }
        self.owed = self.owed.saturating_add(1);
        log.add("repeat", &[self.number]);
        self.transmit(
            now,
            repetition.fragment.as_slice(),
            repetition.observations,
            way,
        );
        if repetition.left > 1 {
            self.repetition = Some(Repetition {
                left: repetition.left - 1,
                at: now.saturating_add(self.repeats_in()),
                ..repetition
            });
        }
    }

    /// In how many milliseconds a response is repeated.
    fn repeats_in(&mut self) -> u64 {
        let (least, most) = REPEATS_MS;
        self.random.between(least, most)
    }

    /// Octets wait until they are sent one by one, unless too many do.
    pub(super) fn keep(&mut self, at: u64, octets: &[u8], observations: u64) {
        if self.trickling.len() > MOST_TRICKLING {
            return;
        }
        if self.trickling.is_empty() {
            self.timers.trickle = at;
        }
        for octet in octets {
            let _ = self.trickling.push_back(Waiting {
                octet: *octet,
                observations: 0,
            });
        }
        if let Some(last) = self.trickling.back_mut() {
            last.observations = observations;
        }
    }

    /// An unsolicited response was sent, which is perhaps to be repeated. None is while the last one isn't confirmed as often
    /// as it was sent.
    pub(super) fn plan_repetition(
        &mut self,
        now: u64,
        control: u8,
        fragment: Vec<u8>,
        observations: u64,
    ) {
        let often = self.scenario.of(Number::Repeat);
        if often == 0 || self.owed > 0 || !self.random.happens(often) {
            return;
        }
        // Confirmations have the same octet, but for CON, FIR and FIN.
        self.repeated = control & !CON;
        self.repetition = Some(Repetition {
            fragment,
            observations,
            left: self.random.between(1, MOST_REPEATS),
            at: now.saturating_add(self.repeats_in()),
        });
    }
}
