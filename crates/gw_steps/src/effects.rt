//! What a step does besides what it replies.
ghost use Rattle.std.specs.Prelude.{◌≡◌, ◌+◌, ◌*◌, ◌≤◌, ◌<◌, ◌++◌, [], ◌∷◌};
ghost use Rattle.std.specs.Prelude.{length, map, slice_get, slice_index, IfOk, Some};
ghost use Rattle.std.specs.List.{filter};
ghost use Rattle.std.specs.Option.{option_to_list};
ghost use Rattle.gw_model.specs.Places.{change};
ghost use Rattle.dnp_master.specs.declared.fate.Fate.TheVariants.{LetGo, Lost};
ghost use Rattle.gw_steps.specs.Effects.{end_at, end_of, event_count, fate_taken, is_of_leaving};
ghost use Rattle.gw_steps.specs.Effects.{is_so, let_go, lost_of, no_effects, only, order_end};
ghost use Rattle.gw_steps.specs.Effects.{reported_by, with_due, with_ends, Telling};

use crate::apdu_kind::ApduKind;
use circular_buffer::HeapCircularBuffer;
use dnp_app::{Operation, Response};
use dnp_master::{CommandAnswer, Fate, Reported, Taken, Task};
use gw_control::{Accepted, Answer, Outgoing, Refusal, UnderWay};
use gw_model::{CLIENTS, Ended, Memory, Report};
use iec_command::Command;
use std::alloc::Global;
use std::marker::Model;

/// How many orders of an outstation may end at once: 16 that wait, and the one that is under way.
const ORDERS: usize = 17;

/// An order that ended.
#[derive(Clone, Copy)]
pub struct OrderEnd {
    /// Its number.
    pub order: u64,
    /// The outstation that it was for.
    pub outstation: usize,
    /// Whose it was.
    pub client: u8,
    /// What became of it.
    pub fate: Fate,
}

/// What was judged of a client's command for a control.
#[derive(Clone, Copy)]
pub struct Judged {
    /// The command.
    pub command: Command,
    /// What is answered to it.
    pub answer: Answer,
    /// Why it is confirmed negatively, if it is.
    pub refusal: Option<Refusal>,
}

/// What the newest step did besides what it replied. There is room for all that a step may do, so it takes no memory.
#[derive(Drop)]
pub struct Effects {
    apdu: Option<ApduKind>,
    command: Option<Judged>,
    task: Option<Task>,
    reported: Option<Reported>,
    ended: HeapCircularBuffer<OrderEnd>,
    unanswered: HeapCircularBuffer<usize>,
    dropped: [u64; CLIENTS as usize],
    news: u64,
    acknowledged: usize,
    due_outstations: HeapCircularBuffer<usize>,
    due_clients: [bool; CLIENTS as usize],
}

impl Model for Effects {
    ghost use Rattle.std.specs.Prelude.{◌≡◌, ◌*◌};
    ghost use Rattle.gw_steps.specs.Effects.{Telling};

    ghost Value = { Telling };

    ghost view = { λ e. record {
      told = record {
        apdu = e.apdu;
        command = e.command;
        task = e.task;
        reported = e.reported;
        ended = e.ended.items;
        unanswered = e.unanswered.items;
        dropped = e.dropped;
        news = e.news;
        acknowledged = e.acknowledged;
        due_outstations = e.due_outstations.items;
        due_clients = e.due_clients;
      };
      room = e.unanswered.capacity;
    } };

    ghost invariant = { λ e. (e.ended.capacity ≡ 17 * e.unanswered.capacity)
        × (e.due_outstations.capacity ≡ e.unanswered.capacity) };
}

impl Effects {
    /// Nothing, with room for what steps do to so many outstations.
    pub fn new(alloc: Global, outstations: u8) -> Result<Effects, Memory>
        ensures { IfOk result (λ effects. effects ≡ record { told = no_effects; room = outstations }) }
    {
        let outstations = usize::from(outstations);
        Ok(Effects {
            apdu: None,
            command: None,
            task: None,
            reported: None,
            ended: HeapCircularBuffer::with_capacity(alloc, ORDERS * outstations)?,
            unanswered: HeapCircularBuffer::with_capacity(alloc, outstations)?,
            dropped: [0; CLIENTS as usize],
            news: 0,
            acknowledged: 0,
            due_outstations: HeapCircularBuffer::with_capacity(alloc, outstations)?,
            due_clients: [false; CLIENTS as usize],
        })
    }

    /// Nothing was done.
    pub fn clear(&mut self)
        ensures { self.new ≡ record self.old { told = no_effects } }
    {
        self.apdu = None;
        self.command = None;
        self.task = None;
        self.reported = None;
        self.ended.clear();
        self.unanswered.clear();
        self.dropped = [0; CLIENTS as usize];
        self.news = 0;
        self.acknowledged = 0;
        self.due_outstations.clear();
        self.due_clients = [false; CLIENTS as usize];
    }

    /// What the APDU was that a client sent, if one did.
    pub fn apdu(&self) -> Option<ApduKind>
        ensures { result ≡ self.now.told.apdu }
    {
        self.apdu
    }

    /// The task of the request that a poll gave, if it gave one.
    pub fn task(&self) -> Option<Task>
        ensures { result ≡ self.now.told.task }
    {
        self.task
    }

    /// What a fragment said, if one was accepted.
    pub fn fragment(&self) -> Option<Reported>
        ensures { result ≡ self.now.told.reported }
    {
        self.reported
    }

    /// How many news it brought.
    pub fn news(&self) -> u64
        ensures { result ≡ self.now.told.news }
    {
        self.news
    }

    /// By how many I formats fewer wait for their acknowledgement than before an APDU of their client.
    pub fn acknowledged_count(&self) -> usize
        ensures { result ≡ self.now.told.acknowledged }
    {
        self.acknowledged
    }

    /// The outstations whose writer may have something to do: to which a request is due, or which came or went.
    pub fn due_outstations(&self) -> &HeapCircularBuffer<usize>
        ensures { result.now.items ≡ self.now.told.due_outstations }
    {
        &self.due_outstations
    }

    /// For each client whether its writer may have something to do: whether something may be put out to it, or it came or
    /// went.
    pub fn due_clients(&self) -> [bool; CLIENTS as usize]
        ensures { result ≡ self.now.told.due_clients }
    {
        self.due_clients
    }

    /// What was judged of a client's command for a control, if one came.
    pub fn command(&self) -> Option<Judged>
        ensures { result ≡ self.now.told.command }
    {
        self.command
    }

    /// The orders that ended.
    pub fn order_ends(&self) -> &HeapCircularBuffer<OrderEnd>
        ensures { result.now.items ≡ self.now.told.ended }
    {
        &self.ended
    }

    /// The outstations whose request ended without an answer.
    pub fn unanswered_outstations(&self) -> &HeapCircularBuffer<usize>
        ensures { result.now.items ≡ self.now.told.unanswered }
    {
        &self.unanswered
    }

    /// For each client how many news were dropped in its session, where that ended.
    pub fn dropped_counts(&self) -> [u64; CLIENTS as usize]
        ensures { result ≡ self.now.told.dropped }
    {
        self.dropped
    }

    /// This was judged of a client's command.
    pub fn judge(&mut self, judged: Judged)
        ensures { self.new ≡ record self.old { told = record self.old.told { command = Some judged } } }
    {
        self.command = Some(judged);
    }

    /// A client sent an APDU of this kind.
    pub fn take_apdu(&mut self, kind: ApduKind)
        ensures { self.new ≡ record self.old { told = record self.old.told { apdu = Some kind } } }
    {
        self.apdu = Some(kind);
    }

    /// A request of this task is given, or none.
    pub fn ask(&mut self, task: Option<Task>)
        ensures { self.new ≡ record self.old { told = record self.old.told { task = task } } }
    {
        self.task = task;
    }

    /// A response was accepted, which answers this task, or none.
    pub fn report(&mut self, response: &Response, answers: Option<Task>)
        ensures { self.new
            ≡ record self.old { told = record self.old.told { reported = Some (reported_by response.now answers) } } }
    {
        self.reported = Some(Reported {
            answers,
            indications: response.internal_indications(),
            is_unsolicited: response.is_unsolicited(),
            observations: response.reports().len(),
            events: event_count(response.reports()),
        });
    }

    /// The step brought so many news, and so many I formats fewer wait for their acknowledgement.
    pub fn count(&mut self, news: u64, acknowledged: usize)
        ensures { self.new ≡ record self.old {
          told = record self.old.told { news = news; acknowledged = acknowledged };
        } }
    {
        self.news = news;
        self.acknowledged = acknowledged;
    }

    /// The writer of this outstation may have something to do.
    pub fn rouse_outstation(&mut self, outstation: usize)
        requires room { length self.old.told.due_outstations < self.old.room }
        ensures { self.new ≡ with_due (outstation ∷ []) self.old }
    {
        let _ = self.due_outstations.try_push_back(outstation);
    }

    /// And those of these clients.
    pub fn rouse_clients(&mut self, clients: [bool; CLIENTS as usize])
        ensures { self.new ≡ record self.old { told = record self.old.told { due_clients = clients } } }
    {
        self.due_clients = clients;
    }

    /// An order ended.
    fn end(&mut self, end: OrderEnd)
        requires room { length self.old.told.ended < 17 * self.old.room }
        ensures { self.new ≡ with_ends (end ∷ []) self.old }
    {
        let _ = self.ended.try_push_back(end);
    }

    /// The request to an outstation ended without an answer.
    pub fn leave_unanswered(&mut self, outstation: usize)
        requires room { length self.old.told.unanswered < self.old.room }
        ensures { self.new ≡ record self.old {
          told = record self.old.told { unanswered = self.old.told.unanswered ++ outstation ∷ [] };
        } }
    {
        let _ = self.unanswered.try_push_back(outstation);
    }

    /// So much was dropped for the clients whose sessions end.
    pub fn drop_news(&mut self, dropped: [u64; CLIENTS as usize])
        ensures { self.new ≡ record self.old { told = record self.old.told { dropped = dropped } } }
    {
        self.dropped = dropped;
    }

    /// So much was dropped for one client, whose session ends.
    pub fn drop_news_of(&mut self, client: u8, count: u64)
        ensures { self.new ≡ record self.old {
          told = record self.old.told { dropped = change client (λ _. count) self.old.told.dropped };
        } }
    {
        change_count(&mut self.dropped, client, count);
    }

    /// The orders that wait for an outstation of clients whose sessions end are let go.
    fn let_go_at(
        &mut self,
        outstation: usize,
        leaving: &[bool; CLIENTS as usize],
        outgoing: &Outgoing,
    )
        requires room { length self.old.told.ended + 16 ≤ 17 * self.old.room }
        ensures told { self.new
            ≡ with_ends (map (order_end outstation LetGo) (filter (is_of_leaving leaving.now) outgoing.now.waiting)) self.old }
        ensures few { length self.new.told.ended ≤ length self.old.told.ended + 16 }
    {
        for place in 0..outgoing.waiting().len() {
            if let Some(accepted) = outgoing.waiting().get(place) {
                self.let_go_order(outstation, leaving, accepted);
            }
        }
    }

    /// An order that waits is let go, where the session of its client ends.
    fn let_go_order(
        &mut self,
        outstation: usize,
        leaving: &[bool; CLIENTS as usize],
        accepted: &Accepted,
    )
        requires room { length self.old.told.ended < 17 * self.old.room }
        ensures { self.new
            ≡ with_ends (map (order_end outstation LetGo) (filter (is_of_leaving leaving.now) (accepted.now ∷ []))) self.old }
    {
        if is_so(leaving, accepted.client) {
            self.end(order_end(outstation, Fate::LetGo, accepted));
        }
    }

    /// The orders that wait of clients whose sessions end are let go.
    pub fn let_go(&mut self, leaving: &[bool; CLIENTS as usize], outgoing: &[Outgoing])
        requires empty { self.old.told.ended ≡ [] }
        requires room { length outgoing.now ≤ self.old.room }
        ensures told { self.new ≡ with_ends (let_go leaving.now 0 outgoing.now) self.old }
        ensures few { length self.new.told.ended ≤ 16 * length outgoing.now }
    {
        for (outstation, outgoing) in outgoing.iter().enumerate() {
            self.let_go_at(outstation, leaving, outgoing);
        }
    }

    /// The order that is under way to an outstation ends so, where it is the one that ended.
    pub fn end_under_way(
        &mut self,
        outstation: usize,
        fate: Option<Fate>,
        ended: Option<Ended>,
        outgoing: &[Outgoing],
    )
        requires room { length self.old.told.ended < 17 * self.old.room }
        ensures { self.new ≡ with_ends (end_at outstation fate ended (slice_get outgoing.now outstation)) self.old }
    {
        let (Some(fate), Some(ended)) = (fate, ended) else {
            return;
        };
        let Some(outgoing) = outgoing.get(outstation) else {
            return;
        };
        if let Some(under_way) = outgoing.under_way() {
            self.end_order(outstation, fate, ended, &under_way);
        }
    }

    /// An order that is under way ends so, where it is the one that ended.
    fn end_order(&mut self, outstation: usize, fate: Fate, ended: Ended, under_way: &UnderWay)
        requires room { length self.old.told.ended < 17 * self.old.room }
        ensures { self.new ≡ with_ends (option_to_list (end_of outstation fate ended (Some under_way.now))) self.old }
    {
        if under_way.accepted.order.number == ended.number {
            self.end(order_end(outstation, fate, &under_way.accepted));
        }
    }

    /// An outstation is lost, and with it the order that is under way to it, which ended so, and those that wait.
    pub fn lose(&mut self, outstation: usize, ended: Option<Ended>, outgoing: &[Outgoing])
        requires empty { self.old.told.ended ≡ [] }
        requires room { 0 < self.old.room }
        ensures { self.new ≡ with_ends (lost_of outstation ended (slice_get outgoing.now outstation)) self.old }
    {
        self.end_under_way(outstation, Some(Fate::Lost), ended, outgoing);
        if let Some(outgoing) = outgoing.get(outstation) {
            self.lose_waiting(outstation, outgoing);
        }
    }

    /// The orders that wait for a lost outstation end.
    fn lose_waiting(&mut self, outstation: usize, outgoing: &Outgoing)
        requires room { length self.old.told.ended + 16 ≤ 17 * self.old.room }
        ensures { self.new ≡ with_ends (map (order_end outstation Lost) outgoing.now.waiting) self.old }
    {
        for place in 0..outgoing.waiting().len() {
            if let Some(accepted) = outgoing.waiting().get(place) {
                self.end(order_end(outstation, Fate::Lost, accepted));
            }
        }
    }
}

/// How many of these are events.
fn event_count(reports: &[Report]) -> usize
    ensures { result ≡ event_count reports.now }
{
    reports.iter().filter(|report| report.event).count()
}

/// A client's count is this.
fn change_count(counts: &mut [u64; CLIENTS as usize], client: u8, count: u64)
    ensures { counts.new ≡ change client (λ _. count) counts.old }
{
    let position = usize::from(client);
    if client < CLIENTS {
        counts[position] = count;
    }
}

/// Whether it is so of a client.
fn is_so(leaving: &[bool; CLIENTS as usize], client: u8) -> bool
    ensures { result ≡ is_so (slice_get leaving.now client) }
{
    match leaving.get(usize::from(client)) {
        Some(leaves) => *leaves,
        None => false,
    }
}

/// The end of an order of an outstation.
fn order_end(outstation: usize, fate: Fate, accepted: &Accepted) -> OrderEnd
    ensures { result ≡ order_end outstation fate accepted.now }
{
    OrderEnd {
        order: accepted.order.number,
        outstation,
        client: accepted.client,
        fate,
    }
}

/// What becomes of an order by the answer to its request.
pub fn fate_answered(answer: CommandAnswer) -> Fate
    ensures { result ≡ fate_taken answer.operation answer.taken }
{
    match answer.taken {
        Taken::Done => Fate::Done,
        Taken::Refused(status) => Fate::Refused(answer.operation, status),
        Taken::Otherwise => Fate::Otherwise(answer.operation),
    }
}

/// This client alone.
pub fn only(client: u8) -> [bool; CLIENTS as usize]
    ensures { result ≡ only client }
{
    let mut clients = [false; CLIENTS as usize];
    let position = usize::from(client);
    if client < CLIENTS {
        clients[position] = true;
    }
    clients
}
