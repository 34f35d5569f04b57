//! The hub as the machine that others make steps on.
ghost use Rattle.std.specs.Prelude.{◌≡◌};
ghost use Rattle.gw_steps.specs.Sound.{IsSoundState};
ghost use Rattle.gw_hub.specs.Hub.{verdict_in, Answers};

use crate::hub::Hub;
use crate::hub::queries::copy_rows;
use crate::parts::{clients_over, field_over};
use dnp_master::{Ignored, Verdict};
use gw_control::Outgoing;
use gw_model::{Memory, Observation};
use gw_steps::{Effects, Machine, NewsPiece, Reply, Step, StepFault};

impl Hub {
    /// What becomes of the fragment of a step, if it is one; nothing does where there is no such outstation.
    fn judge(&self, step: &Step) -> Verdict
        ensures { result ≡ verdict_in self.now.state step.now }
    {
        match step {
            Step::Fragment { response, .. } => match self.outstations.get(response.outstation()) {
                Some(master) => master.judge(response),
                None => Verdict::Ignored(Ignored::NoRequest),
            },
            _ => Verdict::Ignored(Ignored::NoRequest),
        }
    }

    /// Makes a step, of whose fragment this becomes, if it is one.
    fn make_step(&mut self, step: &Step, verdict: Verdict) -> Result<Reply, StepFault>
        requires judged { verdict ≡ verdict_in self.old.state step.now }
        ensures step { Answers self.old step.now result self.new }
        ensures setup { self.new.setup ≡ self.old.setup }
        ensures was_sound { IsSoundState self.old.setup self.old.state }
        ensures sound { IsSoundState self.new.setup self.new.state }
    {
        // A function that reads a field may use in its proof what the type keeps: here, and behind the step.
        let _ = &self.clients;
        let reply = match step {
            Step::OutstationUp { outstation, moment } => self.outstation_up(*outstation, *moment),
            Step::OutstationDown { outstation, moment } => {
                self.outstation_down(*outstation, *moment)
            }
            Step::Fragment { response, moment } => self.fragment(response, *moment, verdict),
            Step::Poll {
                outstation,
                moment,
                wall,
            } => self.poll(*outstation, *moment, *wall),
            Step::ClientUp { client, moment } => self.client_up(*client, *moment),
            Step::ClientDown { client, moment } => self.client_down(*client, *moment),
            Step::Frame {
                client,
                apdu,
                moment,
            } => self.frame(*client, apdu, *moment),
            Step::Pump { client, moment } => self.pump(*client, *moment),
            Step::Tick { moment } => self.tick(*moment),
        };
        let _ = &self.clients;
        reply
    }
}

impl Machine for Hub {
    ghost seen = { λ hub. hub };

    fn step(&mut self, step: &Step) -> Result<Reply, StepFault> {
        let verdict = self.judge(step);
        self.make_step(step, verdict)
    }

    // What it will do is told from what the hub is before, and the rest from what it is behind it, so that the steps need know
    // nothing of it.
    fn step_telling(&mut self, step: &Step, effects: &mut Effects) -> Result<Reply, StepFault> {
        effects.clear();
        let verdict = self.judge(step);
        self.tell(step, verdict, effects);
        let (news, waiting) = (self.counts.news(), self.waiting_for(step));
        let reply = self.make_step(step, verdict);
        self.tell_behind(step, &reply, news, waiting, effects);
        reply
    }

    // The settings are shared; what is copied is the picture, what waits for each client, selections and orders, and
    // what is due towards each outstation.
    fn copy(&self) -> Result<Hub, Memory> {
        Ok(Hub {
            alloc: self.alloc,
            settings: self.settings.copy()?,
            outstations: self.outstations.copy()?,
            picture: self.picture.copy()?,
            clients: self.clients.copy()?,
            sessions: self.sessions,
            controls: self.controls.copy()?,
            counts: self.counts.copy(),
            moment: self.moment,
        })
    }

    fn copy_over(&self, spare: Hub) -> Result<Hub, Memory> {
        let parts = spare.into_parts();
        let field = field_over(
            &self.outstations,
            &self.picture,
            (parts.outstations, parts.picture),
        )?;
        let clients = clients_over(
            &self.clients,
            &self.controls,
            (parts.clients, parts.controls),
        )?;
        Ok(Hub {
            alloc: self.alloc,
            settings: self.settings.copy()?,
            outstations: field.0,
            picture: field.1,
            clients: clients.0,
            sessions: self.sessions,
            controls: clients.1,
            counts: self.counts.copy(),
            moment: self.moment,
        })
    }

    fn queued(&self, client: u8) -> usize {
        self.clients.queued(client)
    }

    fn queue_limit(&self) -> u32 {
        self.settings.get().station().queue
    }

    fn dropped(&self, client: u8) -> u64 {
        self.clients.dropped(client)
    }

    fn unacknowledged_count(&self, client: u8) -> usize {
        self.clients.unacknowledged_count(client)
    }

    fn news(&self) -> u64 {
        self.counts.news()
    }

    fn copy_news(&self, number: u64, room: &mut [Observation]) -> NewsPiece {
        self.clients.copy_news(number, room)
    }

    fn copy_picture(&self, position: usize, room: &mut [Observation]) -> usize {
        copy_rows(self.picture(), position, room)
    }

    fn outgoing(&self) -> &[Outgoing] {
        self.controls.outgoing()
    }

    fn stands(&self, client: u8) -> bool {
        self.clients.presence(client) == Some(true)
    }

    fn is_poll_due(&self, outstation: u8) -> bool {
        match self.outstations.get(outstation) {
            Some(master) => {
                master.is_due(self.moment) || (master.ready() && self.controls.waits(outstation))
            }
            None => false,
        }
    }

    fn is_pump_due(&self, client: u8) -> bool {
        self.clients.has_offer(client, self.moment)
    }
}
