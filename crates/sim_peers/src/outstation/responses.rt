//! What goes to the master: answers, unsolicited responses, and their way through the layers below.

use crate::log::Log;
use crate::outstation::{
    Awaited, CON, FIN, FIR, Outstation, RESPONSE, Reading, Sending, UNS, WHOLE,
};
use crate::pipe::Pipe;
use crate::scenario::Number;
use crate::site::MASTER;
use dnp_link::write_frame;
use std::alloc::AllocError;

/// The most events of a fragment.
const MOST_EVENTS: usize = 30;

/// The function code of an unsolicited response.
const UNSOLICITED: u8 = 0x82;

/// CONTROL of frames: with user data of the outstation, and with the status of the link.
const USER_DATA: u8 = 0x44;

const LINK_STATUS: u8 = 0x0B;

/// Bits of the transport header.
const FIRST_SEGMENT: u8 = 0x40;

const LAST_SEGMENT: u8 = 0x80;

impl Outstation {
    /// Answers the request for the status of the link.
    pub(super) fn answer_link(&mut self, now: u64, way: &mut Pipe) {
        let mut frame = [0; 292];
        let end = write_frame(LINK_STATUS, MASTER, self.address(), &[], &mut frame);
        match self.sending {
            Sending::LinkAlone => way.send(now, &frame[..end], 0),
            _ => self.put(now, &frame[..end], 0, way),
        }
    }

    /// Octets go on their way, as far as it sends.
    fn put(&mut self, at: u64, octets: &[u8], observations: u64, way: &mut Pipe) {
        match self.sending {
            Sending::Well => way.send(at, octets, observations),
            Sending::LinkAlone | Sending::Nothing => {}
            Sending::Trickling(_) => self.keep(at, octets, observations),
        }
    }

    /// Sends a fragment of the answer to a read.
    pub(super) fn answer_read(
        &mut self,
        now: u64,
        reading: Reading,
        is_first: bool,
        way: &mut Pipe,
        log: &Log<'_>,
    ) {
        let Some(at) = self.answering(now, reading.sequence, way) else {
            return;
        };
        let count = self.events.len().min(reading.left).min(MOST_EVENTS);
        let left = reading.left.saturating_sub(count);
        let is_last = !reading.is_integrity || left == 0;
        self.fragments = self.fragments.wrapping_add(1);
        let mut objects = Vec::new(self.alloc);
        let _ = self.push_events(&mut objects, count, log);
        let mut observations = count as u64;
        if reading.is_integrity && is_last {
            let _ = self.push_values(&mut objects, log);
            observations = observations.saturating_add(self.scenario.points());
        }
        let mut control = reading.sequence | ends_of(is_first, is_last);
        self.further = None;
        if count > 0 || !is_last {
            control |= CON;
            self.await_confirmation(at, reading.sequence, false, count);
        }
        if !is_last {
            self.further = Some(Reading {
                sequence: (reading.sequence & 0x0F).wrapping_add(1) & 0x0F,
                is_integrity: true,
                left,
            });
        }
        let _ = self.send(at, control, RESPONSE, objects.as_slice(), observations, way);
    }

    /// A fragment waits for its confirmation from a moment on.
    fn await_confirmation(&mut self, at: u64, sequence: u8, is_unsolicited: bool, count: usize) {
        let patience = self
            .scenario
            .of(Number::ResponseMs)
            .saturating_mul(2)
            .saturating_add(self.scenario.of(Number::StallMs))
            .saturating_add(2000);
        self.awaited = Some(Awaited {
            sequence,
            is_unsolicited,
            count,
            fragment: self.fragments,
            until: at.saturating_add(patience),
        });
    }

    /// Sends an unsolicited response.
    pub(super) fn send_unsolicited(&mut self, now: u64, way: &mut Pipe, log: &Log<'_>) {
        self.timers.unsolicited = now.saturating_add(10);
        let count = self.events.len().min(MOST_EVENTS);
        self.fragments = self.fragments.wrapping_add(1);
        let mut objects = Vec::new(self.alloc);
        let _ = self.push_events(&mut objects, count, log);
        let sequence = self.unsolicited_sequence & 0x0F;
        self.unsolicited_sequence = sequence.wrapping_add(1);
        self.await_confirmation(now, sequence, true, count);
        let control = WHOLE | CON | UNS | sequence;
        let fragment = self.send(
            now,
            control,
            UNSOLICITED,
            objects.as_slice(),
            count as u64,
            way,
        );
        self.plan_repetition(now, control, fragment, count as u64);
    }

    /// Adds the oldest events: group 32 variation 3, with index and time. One line tells of them: the point and the value of each.
    fn push_events(
        &self,
        objects: &mut Vec<u8>,
        count: usize,
        log: &Log<'_>,
    ) -> Result<(), AllocError> {
        if count == 0 {
            return Ok(());
        }
        let [low, high, ..] = (count as u64).to_le_bytes();
        objects.extend_from_slice(&[32, 3, 0x28, low, high])?;
        let mut told = Vec::new(self.alloc);
        told.extend_from_slice(&[self.number, self.fragments])?;
        for event in self.events.iter().take(count) {
            let [low, high, ..] = event.point.to_le_bytes();
            objects.extend_from_slice(&[low, high, 1])?;
            objects.extend_from_slice(&event.value.to_le_bytes())?;
            let [a, b, c, d, e, f, ..] = event.time.to_le_bytes();
            objects.extend_from_slice(&[a, b, c, d, e, f])?;
            told.extend_from_slice(&[event.point, u64::from(event.value)])?;
        }
        log.add("event", told.as_slice());
        Ok(())
    }

    /// Adds the values of all points: group 30 variation 1.
    fn push_values(&self, objects: &mut Vec<u8>, log: &Log<'_>) -> Result<(), AllocError> {
        let [low, high, ..] = self.scenario.points().saturating_sub(1).to_le_bytes();
        objects.extend_from_slice(&[30, 1, 1, 0, 0, low, high])?;
        for (point, value) in self.values.iter().enumerate() {
            objects.push(1)?;
            objects.extend_from_slice(&value.to_le_bytes())?;
            log.add(
                "static",
                &[self.number, point as u64, u64::from(*value), self.fragments],
            );
        }
        Ok(())
    }

    /// When a request is answered, if it is: mostly at once, sometimes late, or not, or with a wrong sequence number.
    pub(super) fn answering(&mut self, now: u64, sequence: u8, way: &mut Pipe) -> Option<u64> {
        let at = now.saturating_add(self.random.between(1, 20));
        if self.random.happens(self.scenario.of(Number::Late)) {
            if self.random.happens(500) {
                return None;
            }
            let late = self.scenario.of(Number::ResponseMs).saturating_add(500);
            return Some(at.saturating_add(self.random.below(late)));
        }
        if self.random.happens(self.scenario.of(Number::Wrong)) {
            let wrong = sequence.wrapping_add(3) & 0x0F;
            let _ = self.send(at, WHOLE | wrong, RESPONSE, &[], 0, way);
            return None;
        }
        Some(at)
    }

    /// Sends a fragment at a moment, and gives it.
    pub(super) fn send(
        &mut self,
        at: u64,
        control: u8,
        function: u8,
        objects: &[u8],
        observations: u64,
        way: &mut Pipe,
    ) -> Vec<u8> {
        self.last = None;
        let mut fragment = Vec::new(self.alloc);
        let [first, second] = self.indications();
        let _ = fragment.extend_from_slice(&[control, function, first, second]);
        let _ = fragment.extend_from_slice(objects);
        self.transmit(at, fragment.as_slice(), observations, way);
        fragment
    }

    /// IIN1 and IIN2.
    fn indications(&self) -> [u8; 2] {
        let told = match self.awaited {
            Some(awaited) => awaited.count,
            None => 0,
        };
        let mut first = 0;
        if self.events.len() > told {
            first |= 0x02;
        }
        if self.wants_time {
            first |= 0x10;
        }
        if self.is_restarted {
            first |= 0x80;
        }
        let second = if self.has_overflowed { 0x08 } else { 0 };
        [first, second]
    }

    /// Sends the segments of a fragment.
    pub(super) fn transmit(&mut self, at: u64, fragment: &[u8], observations: u64, way: &mut Pipe) {
        let mut rest = fragment;
        let mut header = FIRST_SEGMENT;
        for _ in 0..fragment.len() {
            if rest.is_empty() {
                return;
            }
            let (front, back) = rest.split_at(rest.len().min(249));
            if back.is_empty() {
                header |= LAST_SEGMENT;
            }
            let mut user = [0; 250];
            user[0] = header | (self.transport & 0x3F);
            user[1..1 + front.len()].copy_from_slice(front);
            let mut frame = [0; 292];
            let end = write_frame(
                USER_DATA,
                MASTER,
                self.address(),
                &user[..1 + front.len()],
                &mut frame,
            );
            let brings = if back.is_empty() { observations } else { 0 };
            self.put(at, &frame[..end], brings, way);
            self.transport = self.transport.wrapping_add(1);
            header = 0;
            rest = back;
        }
    }
}

/// FIR and FIN of a fragment.
fn ends_of(is_first: bool, is_last: bool) -> u8 {
    match (is_first, is_last) {
        (true, true) => FIR | FIN,
        (true, false) => FIR,
        (false, true) => FIN,
        (false, false) => 0,
    }
}
