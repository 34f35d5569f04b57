//! The line to an outstation, which its reader and its writer share.
ghost use Rattle.std.specs.Prelude.{◌≡◌, ◌||◌, is_ok};
ghost use Rattle.run_ends.specs.Sent.{is_cut_off, sendings, IsNew, IsSent, TookAll};
ghost use Rattle.run_ends.specs.declared.sent.Sent.TheVariants as sents;

use crate::ends::{Outgoing, Unwritten};
use crate::sent::{Sending, Sent, put};
use crate::wire::Wire;
use dnp_app::Request;
use run_log::{Front, Head, Naming, Opened};
use std::marker::{Brand, Model};
use std::sync::{Condvar, Mutex, Wait};

/// Which line it is: the name of its history, the link addresses of the master and of the outstation, what its writer had taken
/// at first, and whether a write had failed then. Each call of a program picks it.
pub trait LineCourse: Naming {
    ghost use Rattle.std.specs.Prelude.{ℕ, Bool, List, Option};

    ghost own: { ℕ };

    ghost peer: { ℕ };

    ghost first: { Option (List ℕ) };

    ghost failed: { Bool };
}

impl LineCourse for Brand {
    ghost use Rattle.std.specs.Prelude.{false, None};

    ghost own = { 1 };

    ghost peer = { 10 };

    ghost first = { None };

    ghost failed = { false };
}

/// What lies under the line's lock.
#[derive(Drop)]
struct Held<W: Outgoing, N: LineCourse> {
    wire: Wire<W>,
    head: Head<Sending, N>,
    /// A fragment that asks for a confirmation is on its way through the core.
    owed: bool,
}

// The writer took just what was sent, from the line's address to its peer's, and a write of it failed where that wasn't taken whole;
// the next sequence number of the transport function is how many segments were sent, modulo 64.
impl<W: Outgoing, N: LineCourse> Model for Held<W, N> {
    ghost use Rattle.std.specs.Prelude.{◌≡◌, ◌%◌, ◌||◌, ℕ, List};
    ghost use Rattle.run_ends.specs.declared.sent.Sending.{Sending as SendingSeen};
    ghost use Rattle.run_ends.specs.Sent.{is_cut_off, segments_sent, sendings, TookAll};

    ghost Value = { List (ℕ × SendingSeen) };

    ghost view = { λ h. h.head.log };

    ghost invariant = { λ h. TookAll N.own N.peer N.first (W.contents h.wire.writer) h.head.log
        × (W.has_failed h.wire.writer ≡ (is_cut_off (sendings h.head.log) || N.failed))
        × (h.wire.own ≡ N.own) × (h.wire.peer ≡ N.peer)
        × (h.wire.sequence % 64 ≡ segments_sent h.head.log % 64) };
}

impl<W: Outgoing, N: LineCourse> Held<W, N> {
    /// Its writer, and the end of its history.
    fn into_parts(self) -> (W, Head<Sending, N>)
        ensures took { TookAll N.own N.peer N.first (W.contents result.0) result.1.log }
        ensures failed { W.has_failed result.0 ≡ (is_cut_off (sendings result.1.log) || N.failed) }
    {
        let Held {
            wire,
            head,
            owed: _,
        } = self;
        (wire.into_writer(), head)
    }

    /// What a worker that begins to send has seen of its history.
    fn join(&mut self) -> Front<Sending, N>
        ensures { IsNew result }
    {
        self.head.lane()
    }

    /// Sends, and adds it to the line's history, which whoever sends knows then.
    fn send(&mut self, what: Sent, mine: &mut Front<Sending, N>) -> Result<(), Unwritten>
        ensures sent { IsSent mine.old mine.new what (is_ok result) }
    {
        let sent = put(&mut self.wire, &what);
        let whole = sent.is_ok();
        let _ = self.head.add(Sending { what, whole }, mine);
        sent
    }
}

/// The way to an outstation, on which the reader sends confirmations and the link's replies, and the writer requests. A
/// request waits while a confirmation is owed, so it doesn't overtake the confirmation of a fragment that it followed.
#[derive(Drop)]
pub struct Line<W: Outgoing, N: LineCourse> {
    held: Mutex<Held<W, N>>,
    settled: Condvar,
}

impl<W: Outgoing, N: LineCourse> Line<W, N> {
    /// A line on which nothing was sent: from the master's address to the outstation's.
    pub fn new(writer: W, own: u16, peer: u16, history: Opened<Sending>) -> Line<W, N>
        requires book { history.seen.book ≡ N.book }
        requires addresses { (own ≡ N.own) × (peer ≡ N.peer) }
        requires first { W.contents writer ≡ N.first }
        requires failed { W.has_failed writer ≡ N.failed }
    {
        Line {
            held: Mutex::new(Held {
                wire: Wire::new(writer, own, peer),
                head: history.named::<N>(),
                owed: false,
            }),
            settled: Condvar::new(),
        }
    }

    /// What a worker that begins to send on it has seen of its history.
    pub fn join<R: Wait>(&self, rt: &R) -> Front<Sending, N>
        ensures { IsNew result }
    {
        self.held.lock(rt).join()
    }

    /// Its writer, and the end of its history: the writer took just what was sent, from the line's address to its peer's, of what it
    /// didn't take whole a front.
    pub fn into_parts(self) -> (W, Head<Sending, N>)
        ensures took { TookAll N.own N.peer N.first (W.contents result.0) result.1.log }
        ensures failed { W.has_failed result.0 ≡ (is_cut_off (sendings result.1.log) || N.failed) }
    {
        let Line { held, settled: _ } = self;
        held.into_inner().into_parts()
    }

    /// Sends a reply of the link.
    pub fn reply<R: Wait>(
        &self,
        rt: &R,
        mine: &mut Front<Sending, N>,
        frame: &[u8; 10],
    ) -> Result<(), Unwritten>
        ensures sent { IsSent mine.old mine.new (sents.Reply frame.now) (is_ok result) }
    {
        self.held.lock(rt).send(Sent::Reply(*frame), mine)
    }

    /// Asks for the status of the link.
    pub fn ask_status<R: Wait>(&self, rt: &R, mine: &mut Front<Sending, N>) -> Result<(), Unwritten>
        ensures sent { IsSent mine.old mine.new sents.Status (is_ok result) }
    {
        self.held.lock(rt).send(Sent::Status, mine)
    }

    /// A confirmation may be owed from now on: requests wait.
    pub fn owe<R: Wait>(&self, rt: &R) {
        self.held.lock(rt).owed = true;
    }

    /// Nothing is owed: requests go.
    pub fn settle<R: Wait>(&self, rt: &R) {
        self.held.lock(rt).owed = false;
        self.settled.notify_all();
    }

    /// Sends a confirmation.
    pub fn confirm<R: Wait>(
        &self,
        rt: &R,
        mine: &mut Front<Sending, N>,
        octets: &[u8; 2],
    ) -> Result<(), Unwritten>
        ensures sent { IsSent mine.old mine.new (sents.Confirm octets.now) (is_ok result) }
    {
        self.held.lock(rt).send(Sent::Confirm(*octets), mine)
    }

    /// Sends a request, once no confirmation is owed.
    pub fn request<R: Wait>(
        &self,
        rt: &R,
        mine: &mut Front<Sending, N>,
        request: &Request,
    ) -> Result<(), Unwritten>
        ensures sent { IsSent mine.old mine.new (sents.Request request.now) (is_ok result) }
    {
        let mut held = self
            .settled
            .wait_while(rt, self.held.lock(rt), |held| held.owed);
        held.send(Sent::Request(*request), mine)
    }
}
