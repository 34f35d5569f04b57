//! The window of one end of a connection.
ghost use Rattle.std.specs.Prelude.{◌≡◌, ℕ, ◌+◌, ◌^◌, ◌<◌, ◌≤◌, ◌↔◌};
ghost use Rattle.std.specs.Prelude.{[], true, IsTrue, IfOk, OnOk, nat_lt, length};
ghost use Rattle.iec_window.specs.Counts.{WindowCounts, sent_in_all};
ghost use Rattle.iec_window.specs.Sequence.{Acknowledges, send_number, receive_number};
ghost use Rattle.iec_window.specs.Sequence.{is_right_send, new_acknowledgements, is_right_receive};
ghost use Rattle.iec_window.specs.Timers.{has_passed, t1_passed, owes_ack, owes_test, due_at};
ghost use Rattle.iec_window.specs.Steps.{counts_at_start, counts_after_frame, answer_to_s, counts_after_s};
ghost use Rattle.iec_window.specs.Steps.{counts_after_right_s, answer_to_i, counts_after_i, counts_after_sending_s};
ghost use Rattle.iec_window.specs.Steps.{counts_after_sending_i, counts_after_sending_test, counts_after_confirmation};

use crate::due::Due;
use crate::fault::WindowFault;
use crate::limits::Limits;
use circular_buffer::HeapCircularBuffer;
use gw_model::Memory;
use std::alloc::Global;
use std::marker::Model;

/// How many sequence numbers there are.
const NUMBERS: u64 = 32_768;

/// One end of a connection: what it sent and received, and since when its timers run
/// (IEC 60870-5-104, 5.1 to 5.5). A contract sees the counts without modulus.
///
/// Moments are milliseconds of any clock. A moment that lies before an earlier one is taken as it is:
/// no time has passed then.
#[derive(Drop)]
pub struct Window {
    limits: Limits,
    // I formats sent: how many are acknowledged, and when each of the others was sent, the oldest first.
    acknowledged: u64,
    waiting: HeapCircularBuffer<u64>,
    // I formats received, how many of these are not acknowledged, and when the oldest of them came.
    received: u64,
    owed: u64,
    owed_since: Option<u64>,
    // When the connection began, or the last frame came.
    last_heard: u64,
    // When the TESTFR act was sent that is not confirmed.
    test: Option<u64>,
}

impl Model for Window {
    ghost use Rattle.iec_window.specs.Counts.{WindowCounts};

    ghost Value = { WindowCounts };

    ghost use Rattle.iec_window.specs.View.{counts_in, IsWindow};

    ghost view = { counts_in };

    ghost invariant = { IsWindow };
}

impl Window {
    /// A window with these parameters, and room for the moments of `k` I formats. `t1`, `t2` and `t3` are
    /// milliseconds. The connection begins at moment 0: see `begin`.
    pub fn new(alloc: Global, k: u16, w: u16, t1: u64, t2: u64, t3: u64) -> Result<Window, Memory>
        requires { k < 32768 }
        ensures { IfOk result (λ v. v ≡ counts_at_start (record { k = k; w = w; t1 = t1; t2 = t2; t3 = t3 }) 0) }
    {
        let waiting = HeapCircularBuffer::with_capacity(alloc, usize::from(k))?;
        Ok(Window {
            limits: Limits { k, w, t1, t2, t3 },
            acknowledged: 0,
            waiting,
            received: 0,
            owed: 0,
            owed_since: None,
            last_heard: 0,
            test: None,
        })
    }

    /// An equal value, with the same room, or `Memory` where there is none for as many moments.
    pub fn copy(&self) -> Result<Window, Memory>
        ensures { IfOk result (λ copy. copy ≡ self.now) }
    {
        let room = HeapCircularBuffer::with_capacity(
            *self.waiting.allocator(),
            self.waiting.capacity(),
        )?;
        Ok(self.copy_into(room))
    }

    /// The same, in the memory of a window that isn't needed any more, so that none is asked for where that suffices.
    pub fn copy_over(&self, spare: Window) -> Result<Window, Memory>
        ensures { IfOk result (λ copy. copy ≡ self.now) }
    {
        let Window {
            waiting: mut room,
            ..
        } = spare;
        if room.capacity() < usize::from(self.limits.k) {
            return self.copy();
        }
        room.clear();
        Ok(self.copy_into(room))
    }

    /// An equal value, with this room for the moments of k I formats.
    fn copy_into(&self, room: HeapCircularBuffer<u64>) -> Window
        requires empty { room.items ≡ [] }
        requires roomy { self.now.limits.k ≤ room.capacity }
        ensures { result ≡ self.now }
    {
        let mut waiting = room;
        let (front, back) = self.waiting.as_slices();
        waiting.extend_from_slice(front);
        waiting.extend_from_slice(back);
        Window { waiting, ..*self }
    }

    /// A connection begins: all counts are 0, nothing waits, and t3 runs from this moment.
    pub fn begin(&mut self, moment: u64)
        ensures { self.new ≡ counts_at_start self.old.limits moment }
    {
        self.acknowledged = 0;
        self.waiting.clear();
        self.received = 0;
        self.owed = 0;
        self.owed_since = None;
        self.test = None;
        self.hear(moment);
    }

    /// A frame came that has no number: a U format other than a TESTFR con. t3 runs anew.
    pub fn hear(&mut self, moment: u64)
        ensures { self.new ≡ counts_after_frame moment self.old }
    {
        self.last_heard = moment;
    }

    /// Whether an I format with this N(S) is the next one.
    pub fn is_right_send(&self, ns: u16) -> bool
        ensures { result ≡ is_right_send ns self.now }
    {
        u64::from(ns) == self.received % NUMBERS
    }

    /// Whether this N(R) acknowledges no fewer I formats than before, and no more than were sent.
    pub fn is_right_receive(&self, nr: u16) -> bool
        ensures value { result ≡ is_right_receive nr self.now }
        ensures meaning { IsTrue result ↔ ((n : ℕ) × Acknowledges nr self.now n) }
    {
        u64::from(nr) < NUMBERS && self.new_acknowledgements(nr) <= self.waiting.len() as u64
    }

    /// What is wrong with the numbers of an I format, if anything: N(S) is judged first.
    pub fn check_numbers(&self, ns: u16, nr: u16) -> Result<(), WindowFault>
        ensures { result ≡ answer_to_i ns nr self.now }
    {
        if !self.is_right_send(ns) {
            return Err(WindowFault::WrongSend);
        }
        self.check_receive(nr)
    }

    /// What is wrong with this N(R), if anything.
    fn check_receive(&self, nr: u16) -> Result<(), WindowFault>
        ensures { result ≡ answer_to_s nr self.now }
    {
        if self.is_right_receive(nr) {
            Ok(())
        } else {
            Err(WindowFault::WrongReceive)
        }
    }

    /// An I format came whose numbers are right.
    pub fn received(&mut self, ns: u16, nr: u16, moment: u64)
        requires send { is_right_send ns self.old ≡ true }
        requires receive { is_right_receive nr self.old ≡ true }
        requires count { self.old.received + 1 < 2 ^ 64 }
        ensures after { self.new ≡ counts_after_i ns nr moment self.old }
        // N(R) names the count that is acknowledged then.
        ensures counted { Acknowledges nr self.old self.new.acknowledged }
    {
        prove!(self.is_right_send(ns));
        self.acknowledge(nr, moment);
        self.received += 1;
        if self.owed == 0 {
            self.owed_since = Some(moment);
        }
        self.owed += 1;
    }

    /// An S format came with this N(R). At `Err` nothing changes.
    pub fn acknowledged(&mut self, nr: u16, moment: u64) -> Result<(), WindowFault>
        ensures answer { result ≡ answer_to_s nr self.old }
        ensures after { self.new ≡ counts_after_s nr moment self.old }
        // N(R) names the count that is acknowledged then.
        ensures counted { OnOk result (Acknowledges nr self.old self.new.acknowledged) }
    {
        self.check_receive(nr)?;
        self.acknowledge(nr, moment);
        Ok(())
    }

    /// A frame came whose N(R) is right.
    fn acknowledge(&mut self, nr: u16, moment: u64)
        requires { is_right_receive nr self.old ≡ true }
        ensures after { self.new ≡ counts_after_right_s nr moment self.old }
        ensures counted { Acknowledges nr self.old self.new.acknowledged }
    {
        let count = self.new_acknowledgements(nr);
        let others = self.waiting.len() - count as usize;
        self.waiting.truncate_front(others);
        self.acknowledged += count;
        self.hear(moment);
    }

    /// How many I formats sent are not acknowledged.
    pub fn unacknowledged_count(&self) -> usize
        ensures { result ≡ length self.now.waiting }
    {
        self.waiting.len()
    }

    /// Whether fewer than k I formats sent are not acknowledged.
    pub fn may_send(&self) -> bool
        ensures value { result ≡ nat_lt (length self.now.waiting) self.now.limits.k }
        ensures bounded { length self.now.waiting ≤ self.now.limits.k }
    {
        self.waiting.len() < usize::from(self.limits.k)
    }

    /// An I format is sent: its N(S) and N(R). It acknowledges all I formats received.
    pub fn sent(&mut self, moment: u64) -> (u16, u16)
        requires room { length self.old.waiting < self.old.limits.k }
        requires count { sent_in_all self.old + 1 < 2 ^ 64 }
        ensures send { result.0 ≡ send_number self.old }
        ensures receive { result.1 ≡ receive_number self.old }
        ensures after { self.new ≡ counts_after_sending_i moment self.old }
    {
        let sent = self.acknowledged + self.waiting.len() as u64;
        self.waiting.push_back(moment);
        let nr = self.ack_sent();
        ((sent % NUMBERS) as u16, nr)
    }

    /// Whether an S format is due: w or more I formats received are not acknowledged, or t2 has passed
    /// since the oldest of them came.
    pub fn owes_ack(&self, moment: u64) -> bool
        ensures { result ≡ owes_ack moment self.now }
    {
        self.owed > 0
            && (self.owed >= u64::from(self.limits.w)
                || has_passed(self.limits.t2, self.owed_since, moment))
    }

    /// An S format is sent: its N(R). It acknowledges all I formats received.
    pub fn ack_sent(&mut self) -> u16
        ensures receive { result ≡ receive_number self.old }
        ensures after { self.new ≡ counts_after_sending_s self.old }
    {
        self.owed = 0;
        self.owed_since = None;
        (self.received % NUMBERS) as u16
    }

    /// A TESTFR act is sent. Where an earlier one isn't confirmed yet, t1 runs on from that one.
    pub fn test_sent(&mut self, moment: u64)
        ensures { self.new ≡ counts_after_sending_test moment self.old }
    {
        if self.test.is_none() {
            self.test = Some(moment);
        }
    }

    /// A TESTFR con came.
    pub fn test_confirmed(&mut self, moment: u64)
        ensures { self.new ≡ counts_after_confirmation moment self.old }
    {
        self.test = None; // Its t1 ends.
        self.hear(moment);
    }

    /// Whether t1 has passed since the oldest I format that isn't acknowledged, or the TESTFR act that isn't
    /// confirmed. Then the connection is to be closed.
    pub fn t1_passed(&self, moment: u64) -> bool
        ensures { result ≡ t1_passed moment self.now }
    {
        has_passed(self.limits.t1, self.waiting.front().copied(), moment)
            || has_passed(self.limits.t1, self.test, moment)
    }

    /// Whether a TESTFR act is due: t3 has passed since the last frame came, and none waits for its con.
    pub fn owes_test(&self, moment: u64) -> bool
        ensures { result ≡ owes_test moment self.now }
    {
        self.test.is_none() && has_passed(self.limits.t3, Some(self.last_heard), moment)
    }

    /// What the timers ask for. It changes nothing: `test_sent` tells that a test was sent.
    pub fn tick(&self, moment: u64) -> Due
        ensures { result ≡ due_at moment self.now }
    {
        if self.t1_passed(moment) {
            Due::Close
        } else if self.owes_test(moment) {
            Due::Test
        } else {
            Due::None
        }
    }

    /// How many I formats this N(R) acknowledges newly, if it is right.
    fn new_acknowledgements(&self, nr: u16) -> u64
        ensures value { result ≡ new_acknowledgements nr self.now }
        ensures bounded { length self.now.waiting < 32768 }
    {
        (u64::from(nr) + NUMBERS - self.acknowledged % NUMBERS) % NUMBERS
    }
}

/// Whether as many milliseconds as the limit have passed since that moment, if there is one.
fn has_passed(limit: u64, since: Option<u64>, moment: u64) -> bool
    ensures { result ≡ has_passed limit since moment }
{
    since.is_some_and(|since| moment >= since && moment - since >= limit)
}
