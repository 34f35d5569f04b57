//! The core as one machine.
ghost use Rattle.std.specs.Prelude.{◌≡◌, ◌<◌, ◌^◌, [], length, true, false, IfOk, IfErr};
ghost use Rattle.std.specs.Prelude.{IsTrue, OnOk, OnErr, Some, if◌then◌else◌, slice_get};
ghost use Rattle.std.specs.List.{AllByRecursion};
ghost use Rattle.gw_entries.specs.Ranges.{IsStation};
ghost use Rattle.gw_map.specs.Settings.{HasSingleAddresses};
ghost use Rattle.gw_steps.specs.declared.step.Step.TheVariants as steps;
ghost use Rattle.gw_steps.specs.declared.step.StepFault.TheVariants.{Spent};
ghost use Rattle.gw_steps.specs.State.{at_first, first_after};
ghost use Rattle.gw_model.specs.Places.{change};
ghost use Rattle.gw_steps.specs.Controls.{order_due};
ghost use Rattle.gw_steps.specs.Steps.{can_order, can_rise, client_up, command_of, is_accepting, is_beginning};
ghost use Rattle.gw_steps.specs.Steps.{is_ordering, latest, one_if, order_ended, reply_of_event};
ghost use Rattle.gw_steps.specs.Runs.{history, state_after, IsRun, KeepsAtEach};
ghost use Rattle.gw_steps.specs.Premises.{HasKnownRows, IsSoundRun, IsSoundSetup};
ghost use Rattle.law_clients.specs.Connections.{Connections};
ghost use Rattle.law_clients.specs.Promises.{Promises};
ghost use Rattle.law_orders.specs.Bonds.{Bonds, HasShortIndex};
ghost use Rattle.law_orders.specs.ToldOnce.{TellsOnce};
ghost use Rattle.law_fates.specs.Fates.{HasOneFateEach};
ghost use Rattle.law_fates.specs.Told.{TellsFates};
ghost use Rattle.law_effects.specs.Tells.{Tells};
ghost use Rattle.law_orders.specs.Outcomes.{TellsDue};
ghost use Rattle.law_orders.specs.Commands.{AnswersCommands};
ghost use Rattle.law_orders.specs.Requests.{Requests};
ghost use Rattle.gw_hub.specs.Hub.{can_count, can_take, controls_polled, state_counting};
ghost use Rattle.gw_hub.specs.Hub.{state_with_response, step_with, tally_of, verdict_by, Answers, IsCounted};

use crate::common::Common;
use crate::news::{lose_rows, take_reports};
use crate::orders::{Sender, end_order, lose_orders, pass_time, settle};
use crate::parts::Parts;
use crate::tally::{Counts, Tally};
use dnp_app::Response;
use dnp_master::Verdict;
use gw_control::Controls;
use gw_map::{Control, Settings, Station};
use gw_model::{CLIENTS, Ended, Memory, Order};
use gw_parts::{Clients, Outstations};
use gw_picture::Picture;
use gw_station::Event;
use gw_steps::{Machine, Reply, Step, StepFault};
use iec_apci::Apdu;
use std::alloc::Global;
use std::marker::Model;

mod machine;
mod queries;
mod telling;

/// Outstations and clients, and what goes from one to the other. It makes one step at a time, and
/// waits for nobody.
#[derive(Drop)]
pub struct Hub {
    alloc: Global,
    settings: Common,
    outstations: Outstations,
    picture: Picture,
    clients: Clients,
    /// For each client the number of its last session: the sessions of all clients are numbered from 1.
    sessions: [u64; CLIENTS as usize],
    /// The clients' selections of controls, and their orders.
    controls: Controls,
    counts: Tally,
    /// The largest moment of a step that was made.
    moment: u64,
}

impl Model for Hub {
    ghost use Rattle.gw_hub.specs.Hub.{IsKept};
    ghost use Rattle.gw_steps.specs.State.{Hub as Seen};

    ghost Value = { Seen };

    ghost use Rattle.gw_hub.specs.View.{state_in};

    ghost view = { λ h. record { setup = h.settings; state = state_in h } };

    ghost invariant = { λ h. IsKept h.settings (state_in h) h.clients.news };
}

impl Hub {
    /// A hub that no step was made on: all outstations and clients are down.
    pub fn new(alloc: Global, settings: Settings) -> Result<Hub, Memory>
        ensures setup { IfOk result (λ hub. hub.setup ≡ settings) }
        ensures state { IfOk result (λ hub. hub.state ≡ at_first settings) }
        ensures settings { HasSingleAddresses settings.rows settings.controls × IsStation settings.station }
        ensures sound { IsSoundSetup settings }
        ensures indices { AllByRecursion HasShortIndex settings.controls }
    {
        let none = Counts {
            news: 0,
            sessions: 0,
            orders: 0,
            steps: 0,
        };
        Hub::with_counts(alloc, settings, none)
    }

    /// The same, where these counts stand already: so it can be tried what comes where one of them can't rise.
    #[tactic(auto, using(crate::proofs::Made::sound_setup))]
    pub fn with_counts(alloc: Global, settings: Settings, counts: Counts) -> Result<Hub, Memory>
        ensures setup { IfOk result (λ hub. hub.setup ≡ settings) }
        ensures state { IfOk result (λ hub. hub.state ≡ first_after settings (tally_of counts) counts.orders) }
        ensures settings { HasSingleAddresses settings.rows settings.controls × IsStation settings.station }
        ensures sound { IsSoundSetup settings }
        ensures indices { AllByRecursion HasShortIndex settings.controls }
    {
        // The contracts of `rows` and `station` tell what all settings keep.
        let _rows = settings.rows();
        let _station = settings.station();
        attest_indices(settings.controls());
        let common = Common::new(alloc, settings)?;
        let parts = Parts::after(alloc, common.get(), &counts)?;
        let counts = Tally::new(&counts);
        Ok(Hub {
            alloc,
            settings: common,
            outstations: parts.outstations,
            picture: parts.picture,
            clients: parts.clients,
            sessions: [0; CLIENTS as usize],
            controls: parts.controls,
            counts,
            moment: 0,
        })
    }

    /// What of it took memory, besides its settings.
    fn into_parts(self) -> Parts {
        Parts {
            outstations: self.outstations,
            picture: self.picture,
            clients: self.clients,
            controls: self.controls,
        }
    }

    /// Makes steps one after the other on a new hub; gives it with a reply for each of them.
    ///
    /// For every interleaving of DNP3 fragments, losses, 104 frames and sends, the observations meant by spontaneous ASDUs put
    /// out since a client's STARTDT, followed by those queued, are the point map's image of the news since then, in order, less
    /// counted overflows; each interrogation's ASDUs mean the picture at its moment; each DNP3 control request means its
    /// command.
    ///
    /// News are the images of events that outstations reported, of static values that differ from what the picture showed,
    /// and of the points of an outstation that was lost. An APDU is put out by the reply to a pump for its client.
    ///
    /// The steps are a run of the step relation, and at each place of the list these promises hold:
    /// - `news`: the picture is that of the log, and for each client's session the observations meant by the
    ///   spontaneous ASDUs put out since its STARTDT, followed by those queued, are the news since then, in order, less
    ///   those dropped. I formats are put out in a session alone, and carry what a station may say.
    /// - `interrogations`: what was put out of the answer to a client's interrogation is the front of it, and all of it
    ///   once its last termination is out: for each common address that was asked, the confirmation, what the picture
    ///   showed at the act of its rows (those of totals by a counter interrogation, all others by a station
    ///   interrogation), and the termination. 65535 asks all known addresses, in the order of their first outstation.
    /// - `line`: each I format put out to a client is the front of what waited for it: answers to its ASDUs, news that
    ///   came before the interrogation that is pending, the rest of its answer, and later news. An answer goes alone;
    ///   of news, and of rows, as many go together as one ASDU carries.
    /// - `mirror`: once a station interrogation was confirmed, and while no news since its act was dropped, the
    ///   observations put out from then on and those that wait have as their last values what the picture shows of the
    ///   rows under the common addresses that were asked, but for totals.
    /// - `numbers`: the nth I format put out since a client came up, counted from 0, has N(S) n modulo 32,768, each
    ///   N(R) is the number of I formats taken, modulo 32,768, and at most k lie beyond the client's last N(R).
    /// - `frames`: an I or S format is taken where it is right, and closes the connection where it isn't.
    /// - `apdus`: what a pump puts out reads as one APDU.
    /// - `confirmations`: a confirmation was given to an outstation only for a fragment that asks for one, with its news
    ///   put into the log, or for a repeated one.
    /// - `meant`: each fragment reports what its octets mean, by the definition of responses.
    /// - `sound`: the picture shows each row of the point map by a value of its type that an ASDU can carry, there is a
    ///   master for each outstation, what waits for a client can be sent and is no more than may wait, and each order
    ///   holds two places of its client until its outcome.
    ///
    /// And of controls:
    /// - `bonds`: each request that operates an output names an execute that was accepted, and asks what its command
    ///   asks of the outstation of its control. For each execute there is at most one DIRECT_OPERATE, or one SELECT,
    ///   and after its success one OPERATE of the same; nothing that is lost or late leads to another.
    /// - `outcomes`: what clients are told of orders is of accepted executes, of each one at most once, the client and
    ///   the command of which it is: done where the outstation took what the newest request asked, and that operates.
    /// - `due`: each order's outcome is told in the step that ends it, while the session of its execute stands: where
    ///   its request was answered to the end, where no answer came in time, or where its outstation is lost.
    /// - `fates`: each accepted order ends in exactly one fate, which is told beside the reply of the step that ends it, of
    ///   its outstation and its client, or it is on its way; no end is told of anything else.
    /// - `told`: a client is told done of an order exactly where its fate is that the outstation did it; nobody is told of
    ///   an order whose session has ended.
    /// - `tells`: what steps tell besides their replies is so: nobody to whom a step brings something to do is left
    ///   asleep; a request is told unanswered exactly where its time has passed by the history; what the reply to a
    ///   fragment says of an order is its fate; ends of sessions are told with what was dropped in them, and a reason
    ///   exactly where a command is confirmed negatively.
    /// - `commands`: an ASDU that is taken is a command for a control exactly where it spells one for this station, and
    ///   for a control of its type. It is confirmed, and an execute accepted, exactly where the history permits it: by
    ///   its value, who selected the control, and whether the outstation is up and how many orders wait there.
    ///
    /// And of outstations:
    /// - `requests`: a request is given by a poll alone, and is the first that is due by the history: an order's, or
    ///   what internal indications, periods and missing answers ask for, in the order of rank, with the next sequence
    ///   number. A poll gives nothing exactly where a request awaits its answer or nothing is due.
    ///
    /// And of each client's connection:
    /// - `connections`: in a step without a fault an APDU closes it for the first cause that holds, or else is taken;
    ///   each STARTDT, STOPDT and TESTFR act that was taken is confirmed at most once, in order; a tick closes it
    ///   exactly where t1 has passed; a pump gives the first that is due of the confirmation that waits longest,
    ///   TESTFR act, an I format and an S format, and nothing exactly where none is. And of each step: its fault is
    ///   the one that is due by the history, and `Memory` comes only for an interrogation that is accepted.
    pub fn run(
        alloc: Global,
        settings: Settings,
        steps: Vec<Step>,
    ) -> Result<(Hub, Vec<Result<Reply, StepFault>>), Memory>
        ensures replies { IfOk result (λ run. length run.1.items ≡ length steps.items) }
        ensures setup { IfOk result (λ run. run.0.setup ≡ settings) }
        ensures run { IfOk result (λ run. IsRun settings (history [] steps.items run.1.items)) }
        ensures state { IfOk result (λ run.
            run.0.state ≡ state_after settings (history [] steps.items run.1.items)) }
        ensures promises { IfOk result (λ run. KeepsAtEach (Promises settings) steps.items run.1.items) }
        ensures bonds { IfOk result (λ run. KeepsAtEach (Bonds settings) steps.items run.1.items) }
        ensures outcomes { IfOk result (λ run. KeepsAtEach (TellsOnce settings) steps.items run.1.items) }
        ensures due { IfOk result (λ run. KeepsAtEach (TellsDue settings) steps.items run.1.items) }
        ensures fates { IfOk result (λ run. KeepsAtEach (HasOneFateEach settings) steps.items run.1.items) }
        ensures told { IfOk result (λ run. KeepsAtEach (TellsFates settings) steps.items run.1.items) }
        ensures tells { IfOk result (λ run. KeepsAtEach (Tells settings) steps.items run.1.items) }
        ensures commands { IfOk result (λ run.
            KeepsAtEach (AnswersCommands settings) steps.items run.1.items) }
        ensures requests { IfOk result (λ run. KeepsAtEach (Requests settings) steps.items run.1.items) }
        ensures connections { IfOk result (λ run.
            KeepsAtEach (Connections settings) steps.items run.1.items) }
    {
        let mut hub = Hub::new(alloc, settings)?;
        let replies = hub.make(&steps)?;
        Ok((hub, replies))
    }

    /// The first steps of a hub.
    fn make(&mut self, steps: &[Step]) -> Result<Vec<Result<Reply, StepFault>>, Memory>
        requires first { self.old.state ≡ at_first self.old.setup }
        requires addresses { HasSingleAddresses self.old.setup.rows self.old.setup.controls }
        requires station { IsStation self.old.setup.station }
        ensures replies { IfOk result (λ replies. length replies.items ≡ length steps.now) }
        ensures run { IfOk result (λ replies. IsSoundRun self.old.setup (history [] steps.now replies.items)) }
        ensures state { IfOk result (λ replies.
            self.new.state ≡ state_after self.old.setup (history [] steps.now replies.items)) }
        ensures setup { self.new.setup ≡ self.old.setup }
    {
        self.attest_rows();
        let mut replies = Vec::with_capacity(self.alloc, steps.len())?;
        for step in steps {
            step.attest();
            replies.push(self.step(step))?;
        }
        Ok(replies)
    }

    /// Tells a proof what the settings keep of their rows. It does nothing.
    fn attest_rows(&self)
        ensures { HasKnownRows self.now.setup }
    {
        let _rows = self.settings.get().rows();
    }

    /// Counts a step that brings no news and begins no session.
    fn count(&mut self, moment: u64) -> Result<(), StepFault>
        ensures ok { OnOk result ((can_count self.old ≡ true)
            × (self.new.state ≡ state_counting moment self.old.state)) }
        ensures counted { OnOk result (IsCounted self.new) }
        ensures err { IfErr result (λ fault. fault ≡ Spent) }
        ensures spent { OnErr result ((can_count self.old ≡ false) × (self.new.state ≡ self.old.state)) }
        ensures setup { self.new.setup ≡ self.old.setup }
    {
        if !self.counts.can_rise(0, 0) {
            return Err(StepFault::Spent);
        }
        self.counts.raise(0, 0);
        self.moment = self.latest(moment);
        Ok(())
    }

    fn outstation_up(&mut self, outstation: u8, moment: u64) -> Result<Reply, StepFault>
        ensures step { Answers self.old (steps.OutstationUp outstation moment) result self.new }
        ensures setup { self.new.setup ≡ self.old.setup }
    {
        match self.outstations.get(outstation) {
            None => return Err(StepFault::NoOutstation),
            Some(master) => {
                if master.is_up() {
                    return Err(StepFault::AlreadyUp);
                }
            }
        }
        self.count(moment)?;
        self.outstations.come_up(outstation, self.moment);
        Ok(Reply::Done)
    }

    /// An outstation is lost.
    fn outstation_down(&mut self, outstation: u8, moment: u64) -> Result<Reply, StepFault>
        ensures step { Answers self.old (steps.OutstationDown outstation moment) result self.new }
        ensures setup { self.new.setup ≡ self.old.setup }
    {
        self.check_outstation(outstation)?;
        let news = self.picture.losses(outstation, self.settings.get());
        if !self.counts.can_rise(news as u64, 0) {
            return Err(StepFault::Spent);
        }
        let moment = self.latest(moment);
        lose_rows(
            &mut self.picture,
            &mut self.clients,
            self.settings.get(),
            outstation,
        );
        let ended = self.outstations.go_down(outstation);
        end_order(
            &mut self.controls,
            &mut self.clients,
            usize::from(outstation),
            ended,
        );
        lose_orders(&mut self.controls, &mut self.clients, outstation);
        self.counts.raise(news as u64, 0);
        self.moment = moment;
        Ok(Reply::Done)
    }

    /// A response comes of which this becomes.
    fn fragment(
        &mut self,
        response: &Response,
        moment: u64,
        verdict: Verdict,
    ) -> Result<Reply, StepFault>
        requires judged { verdict ≡ verdict_by response.now (slice_get self.old.state.outstations response.now.outstation) }
        ensures step { Answers self.old (steps.Fragment response.now moment) result self.new }
        ensures setup { self.new.setup ≡ self.old.setup }
    {
        let Some(master) = self.outstations.get(response.outstation()) else {
            return Err(StepFault::NoOutstation);
        };
        if !master.is_up() {
            return Err(StepFault::NotUp);
        }
        if let Verdict::Accepted { control, .. } = verdict {
            self.accept(response, moment, control)?;
        } else {
            self.count(moment)?;
        }
        Ok(Reply::Verdict(verdict))
    }

    /// Takes an accepted response, with which this order ends, if one does.
    fn accept(
        &mut self,
        response: &Response,
        moment: u64,
        ended: Option<Ended>,
    ) -> Result<(), StepFault>
        requires ended { ended ≡ order_ended self.old.state response.now }
        requires accepts { is_accepting self.old.state response.now ≡ true }
        ensures ok { OnOk result ((can_take self.old response.now.reports ≡ true)
            × (self.new.state ≡ state_with_response self.old moment response.now)) }
        ensures err { IfErr result (λ fault. fault ≡ Spent) }
        ensures spent { OnErr result ((can_take self.old response.now.reports ≡ false)
            × (self.new.state ≡ self.old.state)) }
        ensures setup { self.new.setup ≡ self.old.setup }
    {
        let reports = response.reports();
        if !self.can_rise(reports) {
            return Err(StepFault::Spent);
        }
        let moment = self.latest(moment);
        let news = take_reports(
            &mut self.picture,
            &mut self.clients,
            self.settings.get(),
            reports,
        );
        // The contract of `rows` tells what every picture shows.
        let _shown = self.picture.rows();
        self.outstations.accept(response, moment);
        let position = usize::from(response.outstation());
        end_order(&mut self.controls, &mut self.clients, position, ended);
        self.counts.raise(news, 0);
        self.moment = moment;
        Ok(())
    }

    fn poll(&mut self, outstation: u8, moment: u64, wall: u64) -> Result<Reply, StepFault>
        ensures step { Answers self.old (steps.Poll outstation moment wall) result self.new }
        ensures setup { self.new.setup ≡ self.old.setup }
    {
        self.check_outstation(outstation)?;
        self.count(moment)?;
        let order = self.take_order(outstation);
        Ok(self.outstations.poll(outstation, order, self.moment, wall))
    }

    /// Takes the order that is due for an outstation, if one is.
    fn take_order(&mut self, outstation: u8) -> Option<Order>
        ensures order { result ≡ order_due self.old.state outstation }
        ensures state { self.new.state
            ≡ record self.old.state { controls = controls_polled self.old.state outstation } }
        ensures setup { self.new.setup ≡ self.old.setup }
    {
        if self.outstations.get(outstation)?.ready() {
            self.controls.take_order(outstation)
        } else {
            None
        }
    }

    fn tick(&mut self, moment: u64) -> Result<Reply, StepFault>
        ensures step { Answers self.old (steps.Tick moment) result self.new }
        ensures setup { self.new.setup ≡ self.old.setup }
    {
        self.count(moment)?;
        let closed = self.clients.tick(&mut self.controls, self.moment);
        pass_time(
            &mut self.outstations,
            &mut self.controls,
            &mut self.clients,
            self.moment,
        );
        Ok(Reply::Ticked { closed })
    }

    fn client_up(&mut self, client: u8, moment: u64) -> Result<Reply, StepFault>
        ensures step { Answers self.old (steps.ClientUp client moment) result self.new }
        ensures setup { self.new.setup ≡ self.old.setup }
    {
        match self.clients.presence(client) {
            None => return Err(StepFault::NoClient),
            Some(true) => return Err(StepFault::AlreadyUp),
            Some(false) => {}
        }
        self.count(moment)?;
        self.clients.come_up(client, self.moment);
        Ok(Reply::Done)
    }

    fn client_down(&mut self, client: u8, moment: u64) -> Result<Reply, StepFault>
        ensures step { Answers self.old (steps.ClientDown client moment) result self.new }
        ensures setup { self.new.setup ≡ self.old.setup }
    {
        self.check_client(client)?;
        self.count(moment)?;
        self.clients.go_down(client);
        self.controls.end(client);
        Ok(Reply::Done)
    }

    fn frame(&mut self, client: u8, apdu: &Apdu, moment: u64) -> Result<Reply, StepFault>
        ensures step { Answers self.old (steps.Frame client apdu.now moment) result self.new }
        ensures setup { self.new.setup ≡ self.old.setup }
    {
        self.check_client(client)?;
        let begins = self.clients.begins(client, apdu);
        let moment = self.latest(moment);
        if !self.counts.can_rise(0, u64::from(begins)) || !self.can_order(client, apdu, moment) {
            return Err(StepFault::Spent);
        }
        self.take_apdu(client, apdu, moment, begins)
    }

    /// Takes an APDU of a client that is up, by which a session begins or not, at a moment that isn't before another.
    fn take_apdu(
        &mut self,
        client: u8,
        apdu: &Apdu,
        moment: u64,
        begins: bool,
    ) -> Result<Reply, StepFault>
        requires moment { moment ≡ latest self.old.state moment }
        requires up { client_up self.old.state client ≡ Some true }
        requires begins { begins ≡ is_beginning self.old.state client apdu.now }
        requires counts { IsTrue (can_rise self.old.state.counts (step_with 0 (one_if begins))) }
        requires order { IsTrue (can_order (is_ordering self.old.setup self.old.state moment client
            (command_of self.old.setup apdu.now (slice_get self.old.state.clients client))) self.old.state.controls) }
        ensures step { Answers self.old (steps.Frame client apdu.now moment) result self.new }
        ensures setup { self.new.setup ≡ self.old.setup }
    {
        let sender = Sender {
            client,
            session: self.session(client),
            moment,
        };
        let settings = self.settings.get();
        let picture = self.picture.rows();
        let Ok(event) = self.clients.frame(client, apdu, moment, settings, picture) else {
            return Err(StepFault::Memory);
        };
        settle(
            &mut self.controls,
            &mut self.clients,
            &self.outstations,
            settings,
            &sender,
            apdu,
            &event,
        );
        self.counts.raise(0, u64::from(begins));
        set_session(&mut self.sessions, client, begins, self.counts.sessions());
        self.moment = moment;
        Ok(reply_of(event))
    }

    fn pump(&mut self, client: u8, moment: u64) -> Result<Reply, StepFault>
        ensures step { Answers self.old (steps.Pump client moment) result self.new }
        ensures setup { self.new.setup ≡ self.old.setup }
    {
        self.check_client(client)?;
        self.count(moment)?;
        Ok(self.clients.pump(client, self.settings.get(), self.moment))
    }
}

/// Tells a proof what the type of indices keeps. It does nothing.
fn attest_indices(controls: &[Control])
    ensures { AllByRecursion HasShortIndex controls.now }
{
    for control in controls {
        attest_index(control.index);
    }
}

/// Of one index. It does nothing.
fn attest_index(index: u16)
    ensures { index < 2 ^ 16 }
{}

/// A client's session has this number, where one begins.
fn set_session(sessions: &mut [u64; CLIENTS as usize], client: u8, begins: bool, number: u64)
    ensures { sessions.new ≡ (if begins then change client (λ _. number) sessions.old else sessions.old) }
{
    if begins {
        number_session(sessions, client, number);
    }
}

/// A client's last session has this number.
fn number_session(sessions: &mut [u64; CLIENTS as usize], client: u8, number: u64)
    ensures { sessions.new ≡ change client (λ _. number) sessions.old }
{
    let position = usize::from(client);
    if position < sessions.len() {
        sessions[position] = number;
    }
}

/// The reply to what became of an APDU.
fn reply_of(event: Event) -> Reply
    ensures { result ≡ reply_of_event event }
{
    match event {
        Event::Taken | Event::Command(_) => Reply::Taken,
        Event::Closed(why) => Reply::Closed(why),
    }
}
