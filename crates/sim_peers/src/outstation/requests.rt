//! What comes from the master: requests and confirmations.

use crate::log::Log;
use crate::outstation::{KEPT_EVENTS, Outstation, RESPONSE, Reading, UNS, WHOLE};
use crate::pipe::Pipe;
use crate::scenario::Number;

/// The milliseconds for which a SELECT stands.
const SELECT_MS: u64 = 10_000;

impl Outstation {
    /// A request comes.
    pub(super) fn request(&mut self, now: u64, fragment: &[u8], way: &mut Pipe, log: &Log<'_>) {
        let (control, function) = match fragment {
            [control, function, ..] => (*control, *function),
            _ => return,
        };
        let sequence = control & 0x0F;
        log.add("request", &[self.number, u64::from(function)]);
        if function == 0 {
            self.take_confirmation(now, control, way, log);
            return;
        }
        if !self.awaits_unsolicited() {
            self.awaited = None;
            self.further = None;
        }
        match function {
            1 => self.read(now, sequence, fragment, way, log),
            3..=5 => self.operate(now, fragment, way, log),
            _ => self.obey(now, fragment, way),
        }
    }

    /// Whether an unsolicited response waits for its confirmation.
    fn awaits_unsolicited(&self) -> bool {
        match self.awaited {
            Some(awaited) => awaited.is_unsolicited,
            None => false,
        }
    }

    /// A confirmation comes.
    fn take_confirmation(&mut self, now: u64, control: u8, way: &mut Pipe, log: &Log<'_>) {
        let Some(awaited) = self.awaited else {
            self.take_confirmation_again(control, log);
            return;
        };
        let is_unsolicited = control & UNS != 0;
        if awaited.sequence != control & 0x0F || awaited.is_unsolicited != is_unsolicited {
            self.take_confirmation_again(control, log);
            return;
        }
        self.awaited = None;
        self.repetition = None;
        self.last = Some(control);
        for _ in 0..awaited.count {
            let _ = self.events.pop_front();
        }
        if self.events.len() < KEPT_EVENTS / 2 {
            self.has_overflowed = false;
        }
        log.add("confirmed", &[self.number, awaited.fragment]);
        self.go_on(now, way, log);
    }

    /// A confirmation comes that isn't awaited: of a repetition, or once too often.
    fn take_confirmation_again(&mut self, control: u8, log: &Log<'_>) {
        if self.owed > 0 && self.repeated == control {
            self.owed -= 1;
            log.add("again", &[self.number]);
        } else if self.last == Some(control) {
            log.add("twice", &[self.number]);
        }
    }

    /// What follows a confirmation, or its time-out: the next fragment, or the answer to a read that waits for that.
    pub(super) fn go_on(&mut self, now: u64, way: &mut Pipe, log: &Log<'_>) {
        if let Some(reading) = self.further {
            self.answer_read(now, reading, false, way, log);
        } else if let Some(reading) = self.deferred {
            self.deferred = None;
            self.answer_read(now, reading, true, way, log);
        }
    }

    /// A read comes: it waits while an unsolicited response isn't confirmed.
    fn read(&mut self, now: u64, sequence: u8, fragment: &[u8], way: &mut Pipe, log: &Log<'_>) {
        let is_integrity = fragment.len() > 11;
        let reading = Reading {
            sequence,
            is_integrity,
            left: self.events.len(),
        };
        if self.awaits_unsolicited() {
            self.deferred = Some(reading);
        } else {
            self.answer_read(now, reading, true, way, log);
        }
    }

    /// SELECT, OPERATE or DIRECT_OPERATE of one object, which is given back.
    fn operate(&mut self, now: u64, fragment: &[u8], way: &mut Pipe, log: &Log<'_>) {
        let (sequence, function, group, index) = match fragment {
            [control, function, group, _, _, _, _, index, ..] => {
                (*control & 0x0F, *function, *group, *index)
            }
            _ => return,
        };
        let object = object_of(fragment);
        let is_ready = self.is_ready(&object, now);
        let is_refused = self.random.happens(self.scenario.of(Number::Wrong))
            || (function == 4 && !is_ready);
        self.selected_until = 0;
        if function == 3 && !is_refused {
            self.selected = object;
            self.selected_until = now.saturating_add(SELECT_MS);
        }
        if function != 3 && !is_refused {
            self.turn_output(now, group, index, fragment, log);
        }
        let Some(at) = self.answering(now, sequence, way) else {
            return;
        };
        let mut objects = Vec::new(self.alloc);
        let _ = objects.extend_from_slice(&fragment[2.min(fragment.len())..]);
        if is_refused {
            if let Some(status) = objects.last_mut() {
                *status = 4;
            }
        }
        let _ = self.send(at, WHOLE | sequence, RESPONSE, objects.as_slice(), 0, way);
    }

    /// An output is operated, and a point shows it.
    fn turn_output(&mut self, now: u64, group: u8, index: u8, fragment: &[u8], log: &Log<'_>) {
        let (low, high) = (fragment_at(fragment, 9), fragment_at(fragment, 10));
        let high = if group == 12 { 0 } else { high };
        let value = u64::from(u16::from_le_bytes([low, high]));
        let index = u64::from(index);
        log.add("operate", &[self.number, u64::from(group), index, value]);
        let point = index.checked_rem(self.scenario.points()).unwrap_or(0);
        self.change_point(point, now);
    }

    /// Whether an object is selected at a moment.
    fn is_ready(&self, object: &[u8; 16], now: u64) -> bool {
        let selected = self.selected;
        now < self.selected_until && selected.as_slice() == object.as_slice()
    }

    /// Any other request.
    fn obey(&mut self, now: u64, fragment: &[u8], way: &mut Pipe) {
        let (sequence, function, group) = match fragment {
            [control, function, group, ..] => (*control & 0x0F, *function, *group),
            [control, function] => (*control & 0x0F, *function, 0),
            _ => return,
        };
        let Some(at) = self.answering(now, sequence, way) else {
            return;
        };
        match (function, group) {
            (2, 80) => self.is_restarted = false,
            (2, 50) => self.wants_time = self.scenario.of(Number::Nag) != 0,
            (20, _) => {
                self.is_enabled = true;
                self.timers.unsolicited = now;
            }
            (21, _) => self.is_enabled = false,
            _ => {}
        }
        let _ = self.send(at, WHOLE | sequence, RESPONSE, &[], 0, way);
    }
}

/// An octet of a fragment, or 0.
fn fragment_at(fragment: &[u8], position: usize) -> u8 {
    fragment.get(position).copied().unwrap_or(0)
}

/// The object of a control request, and zeros.
fn object_of(fragment: &[u8]) -> [u8; 16] {
    let mut object = [0; 16];
    for (octet, given) in object.iter_mut().zip(fragment.iter().skip(2)) {
        *octet = *given;
    }
    object
}
