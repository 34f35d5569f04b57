//! What a step does besides what it replies, told from what the hub is before and behind it. It changes nothing of the hub.
ghost use Rattle.std.specs.Prelude.{◌≡◌, ◌-◌, ◌≤◌, [], true, is_some, length, slice_get, IsTrue, Some, if◌then◌else◌};
ghost use Rattle.gw_control.specs.Controls.{refusal_of, CanAnswer};
ghost use Rattle.gw_steps.specs.Controls.{answer_to, asked_by, order_due};
ghost use Rattle.gw_steps.specs.Effects.{all_due, brings, clients_due, done_by, effects_of_apdu};
ghost use Rattle.gw_steps.specs.Effects.{effects_of_fragment, effects_of_tick, ending_of, ends_session};
ghost use Rattle.gw_steps.specs.Effects.{fate_by, is_accepted, lost, no_effects, one_where, outstations_due};
ghost use Rattle.gw_steps.specs.Effects.{task_answered, task_polled, told_unless_fault, waiting_for, with_due};
ghost use Rattle.gw_steps.specs.Queries.{is_poll_due};
ghost use Rattle.gw_hub.specs.Hub.{told_behind, verdict_by, verdict_in};
ghost use Rattle.gw_steps.specs.Steps.{can_be_counted, can_order, command_of, is_ordering, needs};

use crate::hub::Hub;
use crate::orders::is_control_up;
use dnp_app::Response;
use dnp_master::{Master, Verdict};
use gw_control::Answer;
use gw_model::Order;
use gw_station::Event;
use gw_steps::{
    ApduKind, Effects, Fate, Judged, Machine, Reply, Step, StepFault, Task, fate_answered, only,
};
use iec_apci::{Apdu, Signal};
use iec_command::Command;

impl Hub {
    /// What a step will do, if it is made without a fault; of its fragment this becomes, if it is one.
    pub(super) fn tell(&self, step: &Step, verdict: Verdict, effects: &mut Effects)
        requires judged { verdict ≡ verdict_in self.now.state step.now }
        requires nothing { effects.old.told ≡ no_effects }
        requires room { length self.now.setup.outstations ≤ effects.old.room }
        ensures told { can_be_counted self.now.state (needs self.now.setup self.now.state step.now) ≡ true
            → effects.new.told ≡ done_by self.now.setup self.now.state step.now }
        ensures due { effects.new.told.due_outstations ≡ [] }
        ensures room { effects.new.room ≡ effects.old.room }
    {
        match step {
            Step::OutstationDown { outstation, .. } => self.tell_loss(*outstation, effects),
            Step::Fragment { response, .. } => self.tell_answer(response, verdict, effects),
            Step::Poll {
                outstation,
                moment,
                wall,
            } => effects.ask(self.task_polled(*outstation, self.latest(*moment), *wall)),
            Step::ClientUp { client, .. } => effects.rouse_clients(only(*client)),
            Step::ClientDown { client, .. } => self.tell_end(*client, effects),
            Step::Frame {
                client,
                apdu,
                moment,
            } => {
                self.tell_frame(*client, apdu, self.latest(*moment), effects);
                effects.take_apdu(ApduKind::of(apdu));
            }
            Step::Tick { moment } => self.tell_time(self.latest(*moment), effects),
            Step::OutstationUp { .. } | Step::Pump { .. } => {}
        }
    }

    /// The task of the request that a poll of an outstation gives, at a moment that isn't before another.
    fn task_polled(&self, outstation: u8, moment: u64, wall: u64) -> Option<Task>
        ensures { result ≡ task_polled self.now.state outstation moment wall }
    {
        match self.order_due(outstation) {
            Some(order) => Some(Task::of_order(order)),
            None => self.outstations.get(outstation)?.task_due(moment, wall),
        }
    }

    /// The order that is due for an outstation, if one is.
    fn order_due(&self, outstation: u8) -> Option<Order>
        ensures { result ≡ order_due self.now.state outstation }
    {
        if self.outstations.get(outstation)?.ready() {
            self.controls.next_order(outstation)
        } else {
            None
        }
    }

    /// How many I formats wait for their acknowledgement by the client that sends an APDU.
    pub(super) fn waiting_for(&self, step: &Step) -> usize
        ensures { result ≡ waiting_for self.now.state step.now }
    {
        match step {
            Step::Frame { client, .. } => self.clients.unacknowledged_count(*client),
            _ => 0,
        }
    }

    /// What a step did, before which there were so many news, and so many I formats waited for their acknowledgement; nothing,
    /// where it was answered with a fault.
    pub(super) fn tell_behind(
        &self,
        step: &Step,
        reply: &Result<Reply, StepFault>,
        news: u64,
        waiting: usize,
        effects: &mut Effects,
    )
        requires due { effects.old.told.due_outstations ≡ [] }
        requires room { length self.now.setup.outstations ≤ effects.old.room }
        ensures told { effects.new.told ≡ told_unless_fault reply.now
            (told_behind self.now.state step.now news waiting effects.old.told) }
        ensures room { effects.new.room ≡ effects.old.room }
    {
        if reply.is_err() {
            effects.clear();
            return;
        }
        let acknowledged = waiting.saturating_sub(self.waiting_for(step));
        effects.count(self.counts.news().saturating_sub(news), acknowledged);
        self.tell_due(step, effects);
    }

    /// Who may have something to do behind a step.
    fn tell_due(&self, step: &Step, effects: &mut Effects)
        requires due { effects.old.told.due_outstations ≡ [] }
        requires room { length self.now.setup.outstations ≤ effects.old.room }
        ensures { effects.new ≡ record effects.old {
          told = record effects.old.told {
            due_outstations = outstations_due self.now.state step.now effects.old.told;
            due_clients = clients_due self.now.state step.now effects.old.told;
          };
        } }
    {
        if brings(step, effects) {
            let clients = self.clients.or_offered(&effects.due_clients(), self.moment);
            effects.rouse_clients(clients);
        }
        match step {
            Step::OutstationUp { outstation, .. } | Step::OutstationDown { outstation, .. } => {
                let is_there = self.outstations.get(*outstation).is_some();
                rouse_where(is_there, *outstation, effects);
            }
            Step::Fragment { response, .. } => {
                let outstation = response.outstation();
                let is_due = effects.fragment().is_some() && self.is_poll_due(outstation);
                rouse_where(is_due, outstation, effects);
            }
            Step::Frame { .. } => {
                if is_accepted(effects.command()) {
                    self.tell_all_due(effects);
                }
            }
            Step::Tick { .. } => self.tell_all_due(effects),
            Step::Poll { .. }
            | Step::ClientUp { .. }
            | Step::ClientDown { .. }
            | Step::Pump { .. } => {}
        }
    }

    /// To which outstations a request is due.
    fn tell_all_due(&self, effects: &mut Effects)
        requires due { effects.old.told.due_outstations ≡ [] }
        requires room { length self.now.setup.outstations ≤ effects.old.room }
        ensures { effects.new ≡ with_due (all_due self.now.state) effects.old }
    {
        let outgoing = self.controls.outgoing();
        self.outstations.tell_due(self.moment, outgoing, effects);
    }

    /// An outstation is lost: the order under way to it ends, and those that wait.
    fn tell_loss(&self, outstation: u8, effects: &mut Effects)
        requires nothing { effects.old.told ≡ no_effects }
        requires room { length self.now.setup.outstations ≤ effects.old.room }
        ensures told { effects.new.told ≡ record no_effects { ended = lost self.now.state outstation } }
        ensures room { effects.new.room ≡ effects.old.room }
    {
        let Some(master) = self.outstations.get(outstation) else {
            return;
        };
        effects.lose(
            usize::from(outstation),
            master.ended_by_loss(),
            self.controls.outgoing(),
        );
    }

    /// A response comes, of which this becomes, and with which an order may end.
    fn tell_answer(&self, response: &Response, verdict: Verdict, effects: &mut Effects)
        requires judged { verdict ≡ verdict_by response.now (slice_get self.now.state.outstations response.now.outstation) }
        requires nothing { effects.old.told ≡ no_effects }
        requires room { length self.now.setup.outstations ≤ effects.old.room }
        ensures told { effects.new.told ≡ effects_of_fragment self.now.state response.now }
        ensures room { effects.new.room ≡ effects.old.room }
    {
        let outstation = response.outstation();
        let Some(master) = self.outstations.get(outstation) else {
            return;
        };
        let Verdict::Accepted { control, .. } = verdict else {
            return;
        };
        effects.report(response, task_answered(master, response));
        let fate = fate_by(master, response);
        let outgoing = self.controls.outgoing();
        effects.end_under_way(usize::from(outstation), fate, control, outgoing);
    }

    /// The session of a client ends.
    fn tell_end(&self, client: u8, effects: &mut Effects)
        requires nothing { effects.old.told ≡ no_effects }
        requires room { length self.now.setup.outstations ≤ effects.old.room }
        ensures told { effects.new.told ≡ ending_of self.now.state client }
        ensures room { effects.new.room ≡ effects.old.room }
    {
        effects.let_go(&only(client), self.controls.outgoing());
        effects.drop_news_of(client, self.clients.dropped(client));
        effects.rouse_clients(only(client));
    }

    /// An APDU of a client comes, at a moment that isn't before another.
    fn tell_frame(&self, client: u8, apdu: &Apdu, moment: u64, effects: &mut Effects)
        requires nothing { effects.old.told ≡ no_effects }
        requires room { length self.now.setup.outstations ≤ effects.old.room }
        ensures told { can_order (is_ordering self.now.setup self.now.state moment client
            (command_of self.now.setup apdu.now (slice_get self.now.state.clients client))) self.now.state.controls
            ≡ true
            → effects.new.told ≡ effects_of_apdu self.now.setup self.now.state moment client apdu.now
            (slice_get self.now.state.clients client) }
        ensures due { effects.new.told.due_outstations ≡ [] }
        ensures room { effects.new.room ≡ effects.old.room }
    {
        if self.can_order(client, apdu, moment) && self.clients.presence(client).is_some() {
            self.tell_apdu(client, apdu, moment, effects);
        }
    }

    /// The same of a client that there is, where a command for a control in the APDU is no order, or has a number.
    fn tell_apdu(&self, client: u8, apdu: &Apdu, moment: u64, effects: &mut Effects)
        requires nothing { effects.old.told ≡ no_effects }
        requires room { length self.now.setup.outstations ≤ effects.old.room }
        requires client { is_some (slice_get self.now.state.clients client) ≡ true }
        requires order { IsTrue (can_order (is_ordering self.now.setup self.now.state moment client
            (command_of self.now.setup apdu.now (slice_get self.now.state.clients client))) self.now.state.controls) }
        ensures told { effects.new.told ≡ effects_of_apdu self.now.setup self.now.state moment client apdu.now
            (slice_get self.now.state.clients client) }
        ensures room { effects.new.room ≡ effects.old.room }
    {
        let event = self.clients.event(client, apdu, self.settings.get());
        if ends_session(apdu, &event) {
            self.tell_end(client, effects);
        } else if let Event::Command(command) = event {
            self.tell_command(client, &command, moment, effects);
        }
    }

    /// A command for a control comes from a client.
    fn tell_command(&self, client: u8, command: &Command, moment: u64, effects: &mut Effects)
        requires { CanAnswer self.now.setup (asked_by self.now.setup self.now.state moment client command.now)
            self.now.state.controls }
        ensures { effects.new ≡ record effects.old {
          told = record effects.old.told {
            command = Some (record {
              command = command.now;
              answer = answer_to self.now.setup self.now.state moment client command.now;
              refusal = refusal_of self.now.setup (asked_by self.now.setup self.now.state moment client command.now)
                  self.now.state.controls;
            });
          };
        } }
    {
        let settings = self.settings.get();
        let up = is_control_up(&self.outstations, command, settings);
        let session = self.session(client);
        let (answer, refusal) = self
            .controls
            .judge(client, session, command, settings, up, moment);
        effects.judge(Judged {
            command: *command,
            answer,
            refusal,
        });
    }

    /// Time has passed until a moment that isn't before another: it closes clients, and leaves requests unanswered.
    fn tell_time(&self, moment: u64, effects: &mut Effects)
        requires nothing { effects.old.told ≡ no_effects }
        requires room { length self.now.setup.outstations ≤ effects.old.room }
        ensures told { effects.new.told ≡ effects_of_tick self.now.state moment }
        ensures room { effects.new.room ≡ effects.old.room }
    {
        let leaving = self.clients.leaving(moment);
        effects.let_go(&leaving, self.controls.outgoing());
        effects.drop_news(self.clients.dropped_of(&leaving));
        effects.rouse_clients(leaving);
        self.outstations
            .tell_late(moment, self.controls.outgoing(), effects);
    }
}

/// The task whose request an accepted response answers, if it answers one.
fn task_answered(master: &Master, response: &Response) -> Option<Task>
    ensures { result ≡ task_answered response.now (Some master.now) }
{
    if response.is_unsolicited() {
        None
    } else {
        master.task_awaited()
    }
}

/// What becomes of the order whose command a response answers, if it answers one.
fn fate_by(master: &Master, response: &Response) -> Option<Fate>
    ensures { result ≡ fate_by response.now master.now }
{
    match master.command_answer(response) {
        Some(answer) => Some(fate_answered(answer)),
        None => None,
    }
}

/// Whether an APDU of which this becomes ends its client's session.
fn ends_session(apdu: &Apdu, event: &Event) -> bool
    ensures { result ≡ ends_session apdu.now event.now }
{
    match event {
        Event::Taken => matches!(apdu, Apdu::U(Signal::StopAct)),
        Event::Command(_) => false,
        Event::Closed(_) => true,
    }
}

/// The writer of this outstation may have something to do, where it is so.
fn rouse_where(is_so: bool, outstation: u8, effects: &mut Effects)
    requires due { effects.old.told.due_outstations ≡ [] }
    requires room { is_so ≡ true → 1 ≤ effects.old.room }
    ensures { effects.new ≡ with_due (one_where is_so outstation) effects.old }
{
    if is_so {
        effects.rouse_outstation(usize::from(outstation));
    }
}

/// Whether a step that did this may bring clients something.
fn brings(step: &Step, effects: &Effects) -> bool
    ensures { result ≡ brings step.now effects.now.told }
{
    match step {
        Step::Fragment { .. } => effects.fragment().is_some(),
        Step::Poll { .. } | Step::Pump { .. } => false,
        _ => true,
    }
}

/// Whether a command was accepted as an order.
fn is_accepted(command: Option<Judged>) -> bool
    ensures { result ≡ is_accepted command }
{
    match command {
        Some(judged) => matches!(judged.answer, Answer::Ordered(_)),
        None => false,
    }
}
