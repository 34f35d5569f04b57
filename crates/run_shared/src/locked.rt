//! What lies under the lock.
ghost use Rattle.std.specs.Prelude.{◌≡◌, ◌↔◌, ◌+◌, ◌-◌, ◌<◌, ◌≤◌, [], ◌∷◌, drop, length, min, take};
ghost use Rattle.std.specs.Prelude.{Some, true, false, IfOk, IsTrue};
ghost use Rattle.gw_steps.specs.declared.step.Step.TheVariants as steps;
ghost use Rattle.gw_steps.specs.Sound.{IsSoundState};
ghost use Rattle.gw_steps.specs.Steps.{client_up, Allowed};
ghost use Rattle.run_shared.specs.Recording.{is_tape_full, noted};
ghost use Rattle.run_shared.specs.Made.{IsMadeInto};
ghost use Rattle.run_log.specs.Follows.{Follows};
ghost use Rattle.run_shared.specs.Reached.{entry, IsFirst, IsReached};
ghost use Rattle.run_shared.specs.Roles.{MayMake};
ghost use Rattle.run_shared.specs.Taped.{IsOfHistory};
ghost use Rattle.run_shared.specs.Pumping.{GoesOn, IsPumpedNext, IsPumpedRun, MayGoOn};
ghost use Rattle.run_shared.specs.Turn.{last_call, pass_at, pass_behind, Answers, IsMadeReady, Steps};

use crate::awake_writers::AwakeWriters;
use crate::course::{Course, Made};
use crate::figures::Figures;
use crate::holdback::Load;
use crate::pacing::Pacing;
use crate::pass::Pass;
use crate::pumped::{PumpRun, Pumped};
use crate::recorder::Recorder;
use crate::tally::Tally;
use crate::wake_set::WakeSet;
use gw_model::{Memory, Observation};
use gw_steps::{Machine, NewsPiece, Reply, Step, StepFault, StepKind, apdu_in};
use iec_apci::{Batch, LONGEST_APDU};
use run_log::Head;
use std::alloc::Global;
use std::marker::Model;
use std::sync::ledger::{Book, Share};

/// How many pumps are made at most before others may take the lock.
const MOST_PUMPS: u32 = 64;

/// A machine with its recorder, the count of calls, and the book of all passes' counts; what is counted of its steps, which
/// writers are awake, and how peers keep up, which no contract sees.
#[derive(Drop)]
pub struct Core<L: Course, M: Machine> {
    machine: M,
    recorder: Recorder<M>,
    made: u64,
    book: Book<L>,
    head: Head<Made, L>,
    tally: Tally,
    awake_writers: AwakeWriters,
    pacing: Pacing,
}

impl<L: Course, M: Machine> Model for Core<L, M> {
    ghost use Rattle.std.specs.Prelude.{◌≡◌, length, sum};
    ghost use Rattle.run_shared.specs.Recording.{Replays};
    ghost use Rattle.run_shared.specs.Reached.{IsReached};
    ghost use Rattle.run_shared.specs.Roles.{KeepsRoles};
    ghost use Rattle.run_shared.specs.Taped.{IsOfHistory};
    ghost use Rattle.run_shared.specs.Turn.{Core as Seen};

    ghost Value = { Seen };

    ghost view = { λ c. record { hub = M.seen c.machine; recording = c.recorder; past = c.head.log; made = c.made } };

    // The machine is what the recorder's tape replays to, and came from a run of as many steps as calls were made; all
    // calls are counted in the book, and by actor, and each was made by an actor that may. What the recorder keeps is of that run: its
    // newest calls, and how many each actor made.
    ghost invariant = { λ c. (c.made ≡ c.book.total) × (length c.recorder.counts ≡ L.parts)
        × (sum c.recorder.counts ≡ c.made) × Replays c.recorder.tape (M.seen c.machine)
        × IsReached L.setup (M.seen c.machine) c.head.log c.made × KeepsRoles L.roles c.head.log
        × IsOfHistory c.recorder c.head.log };
}

impl<L: Course, M: Machine> Core<L, M> {
    /// A core on which no call was made.
    pub fn new(
        alloc: Global,
        machine: M,
        book: Book<L>,
        head: Head<Made, L>,
        actors: usize,
        capacity: usize,
    ) -> Result<Core<L, M>, Memory>
        requires fresh { book.total ≡ 0 }
        requires first { IsFirst L.setup (M.seen machine) }
        requires head { head.log ≡ [] }
        requires actors { actors ≡ L.parts }
        requires capacity { 0 < capacity }
        ensures hub { IfOk result (λ core. core.hub ≡ M.seen machine) }
        ensures made { IfOk result (λ core. core.made ≡ 0) }
    {
        let recorder = Recorder::new(alloc, &machine, actors, capacity)?;
        Ok(Core {
            machine,
            recorder,
            made: 0,
            book,
            head,
            tally: Tally::new(),
            awake_writers: AwakeWriters::nobody(),
            pacing: Pacing::new(),
        })
    }

    /// Makes a call: the step is made on the machine and noted with its reply. Gives the call's number, counted over
    /// all passes from 1. Where no further call can be counted nothing is made, the answer is `Spent`, and the pass sees all
    /// calls that were made.
    pub fn step(&mut self, pass: &mut Pass<L>, step: Step) -> (u64, Result<Reply, StepFault>)
        requires may { MayMake L.roles pass.old.actor step }
        ensures step { Steps L.setup self.old self.new pass.old pass.new step result }
        ensures counted { self.old.made ≤ last_call }
    {
        if self.made == u64::MAX {
            self.show(pass);
            return (u64::MAX, Err(StepFault::Spent));
        }
        self.make_ready();
        let answer = self.make(pass, step);
        self.count(pass);
        answer
    }

    /// Lets a pass see all calls that were made.
    fn show(&mut self, pass: &mut Pass<L>)
        ensures same { self.new ≡ self.old }
        ensures follows { Follows pass.old.actor pass.old.seen self.old.past }
        ensures reached { IsReached L.setup self.old.hub self.old.past self.old.made }
        ensures pass { pass.new ≡ pass_at pass.old self.old.past }
    {
        self.head.show(&mut pass.front);
    }

    /// Counts what the newest call of a pass did.
    fn count(&mut self, pass: &Pass<L>)
        ensures { self.new ≡ self.old }
    {
        self.tally.note(pass.effects(), &self.machine);
    }

    /// The same call, of which the lock's taker knows what all calls keep; and who is to be woken.
    pub(crate) fn answer(
        &mut self,
        pass: &mut Pass<L>,
        step: Step,
    ) -> ((u64, Result<Reply, StepFault>), WakeSet)
        requires may { MayMake L.roles pass.old.actor step }
        ensures step { Steps L.setup self.old self.new pass.old pass.new step result.0 }
        ensures answers { Answers L.setup pass.old pass.new step result.0 }
    {
        let (kind, moment) = (step.kind(), step.moment());
        let answer = self.step(pass, step);
        let wake_set = self.wake(pass, kind, moment, &answer.1);
        (answer, wake_set)
    }

    /// Those of the workers to whom the newest call of a pass may bring something for whom the bell has to ring.
    fn wake(
        &mut self,
        pass: &Pass<L>,
        kind: StepKind,
        moment: u64,
        reply: &Result<Reply, StepFault>,
    ) -> WakeSet
        ensures { self.new ≡ self.old }
    {
        self.pacing.settle(kind, moment, reply, pass.effects());
        self.awake_writers.note_step(kind, reply);
        match reply {
            Ok(_) => self.awake_writers.wake(WakeSet::by(pass.effects())),
            Err(_) => WakeSet::nobody(),
        }
    }

    /// Pumps for a client at a moment, one call after another, and puts the APDUs into a batch: until an answer is
    /// none, or there is no room for one more.
    pub fn pump(
        &mut self,
        pass: &mut Pass<L>,
        client: u8,
        moment: u64,
        batch: &mut Batch,
    ) -> PumpRun
        requires may { MayMake L.roles pass.old.actor (steps.Pump client moment) }
        ensures made { IsMadeInto L.setup (steps.Pump client moment) self.old self.new pass.old pass.new batch.old batch.new }
        ensures run { IsPumpedRun L.setup client pass.old pass.new batch.old batch.new result.ended }
        ensures more { MayGoOn pass.old pass.new batch.new result.ended }
        ensures own { pass.new.actor ≡ pass.old.actor }
    {
        let mut first = 0;
        'pumps: for _made in 0..MOST_PUMPS {
            if let Some(ended) = self.pump_next(pass, client, moment, batch, &mut first) {
                return PumpRun { first, ended };
            }
        }
        PumpRun {
            first,
            ended: Pumped::More,
        }
    }

    /// Pumps once; how the run ended, if it did. The first call of a run leaves its number.
    #[tactic(auto, using(crate::proofs::Pumping::pump_laws))]
    fn pump_next(
        &mut self,
        pass: &mut Pass<L>,
        client: u8,
        moment: u64,
        batch: &mut Batch,
        first: &mut u64,
    ) -> Option<Pumped>
        requires may { MayMake L.roles pass.old.actor (steps.Pump client moment) }
        ensures made { IsMadeInto L.setup (steps.Pump client moment) self.old self.new pass.old pass.new batch.old batch.new }
        ensures run { IsPumpedNext L.setup client pass.old pass.new batch.old batch.new result }
        ensures more { GoesOn pass.old pass.new batch.new result }
        ensures own { pass.new.actor ≡ pass.old.actor }
    {
        if !batch.has_room(LONGEST_APDU) {
            return Some(Pumped::More);
        }
        let ((number, answer), _) = self.answer(pass, Step::Pump { client, moment });
        if *first == 0 {
            *first = number;
        }
        match apdu_in(answer) {
            Some(apdu) => {
                batch.add(apdu.as_slice());
                self.pacing.note(client, moment);
                None
            }
            None => Some(Pumped::Ended(answer)),
        }
    }

    /// A full recorder begins anew at the machine as it is now, or goes off where there is no memory for that.
    fn make_ready(&mut self)
        ensures ready { IsMadeReady self.old.hub self.old.recording self.new.recording }
        ensures room { is_tape_full self.new.recording.tape ≡ false }
        ensures hub { self.new.hub ≡ self.old.hub }
        ensures made { self.new.made ≡ self.old.made }
        ensures past { self.new.past ≡ self.old.past }
    {
        if self.recorder.is_full() {
            if let Err(refused) = self.recorder.roll(&self.machine) {
                self.recorder.off(refused);
            }
        }
    }

    /// Makes a call on a recorder that has room for it.
    fn make(&mut self, pass: &mut Pass<L>, step: Step) -> (u64, Result<Reply, StepFault>)
        requires counts { self.old.made < last_call }
        requires room { is_tape_full self.old.recording.tape ≡ false }
        requires may { MayMake L.roles pass.old.actor step }
        ensures step { Allowed self.old.hub.setup self.old.hub.state step result.1 self.new.hub.state }
        ensures sound { IsSoundState self.old.hub.setup self.old.hub.state }
        ensures setup { self.new.hub.setup ≡ self.old.hub.setup }
        ensures noted { self.new.recording ≡ noted self.old.recording pass.old.actor step result.1 }
        ensures made { self.new.made ≡ self.old.made + 1 }
        ensures number { result.0 ≡ self.new.made }
        ensures past { self.new.past ≡ (pass.old.actor, entry step result.1) ∷ self.old.past }
        ensures follows { Follows pass.old.actor pass.old.seen self.old.past }
        ensures reached { IsReached L.setup self.new.hub self.new.past self.new.made }
        ensures above { pass.old.made < result.0 }
        ensures pass { pass.new ≡ pass_behind pass.old self.new.past }
    {
        step.attest();
        self.book.audit(&mut pass.share);
        self.book.add(&mut pass.share, 1);
        let reply = self.machine.step_telling(&step, &mut pass.effects);
        let made = self.head.add(Made { step, reply }, &mut pass.front);
        let Made { step, reply: _ } = made;
        self.recorder.note(pass.actor, step, reply);
        self.made += 1;
        (self.made, reply)
    }

    /// Tells a proof what a core keeps of its hub: a run of as many steps as calls were made led to it, and what its recorder keeps
    /// is of that run. It does nothing.
    pub fn attest(&self)
        ensures reached { IsReached L.setup self.now.hub self.now.past self.now.made }
        ensures recorded { IsOfHistory self.now.recording self.now.past }
    {
        let _made = self.made;
    }

    /// Whether a client is up.
    pub fn stands(&self, client: u8) -> bool
        ensures { IsTrue result ↔ (client_up self.now.hub.state client ≡ Some true) }
    {
        self.machine.stands(client)
    }

    /// Whether a fragment is to wait, since a client that reads has no room for what it brings. Room that is there is kept until
    /// it is taken.
    pub fn is_outrun(&mut self, load: Load, moment: u64) -> bool
        ensures { self.new ≡ self.old }
    {
        self.pacing.is_outrun(load, &self.machine, moment)
    }

    /// For how many milliseconds an outstation isn't to be asked, before this is to be asked again.
    pub fn rest(&mut self, outstation: u8, moment: u64) -> u64
        ensures { self.new ≡ self.old }
    {
        self.pacing.rest(outstation, &self.machine, moment)
    }

    /// What is counted.
    pub fn figures(&self) -> Figures {
        Figures::of(self.made, &self.machine, &self.tally)
    }

    /// Copies the news from a number on, as many as find room, and tells which they are.
    pub fn copy_news(&self, number: u64, room: &mut [Observation]) -> NewsPiece
        ensures room { length room.new ≡ length room.old }
        ensures few { result.count ≤ length room.old }
    {
        self.machine.copy_news(number, room)
    }

    /// Copies what is shown of the rows from a position on, as many as find room; how many these are.
    pub fn copy_picture(&self, position: usize, room: &mut [Observation]) -> usize
        ensures room { length room.new ≡ length room.old }
        ensures count { result ≡ min (length self.now.hub.state.picture - position) (length room.old) }
        ensures shown { take result room.new ≡ take result (drop position self.now.hub.state.picture) }
    {
        self.machine.copy_picture(position, room)
    }

    /// How many calls were made, for whoever has all passes' shares.
    pub(crate) fn total(&mut self, all: &mut Share<L>) -> u64
        requires { all.old.parts ≡ L.parts }
        ensures made { result ≡ self.old.made }
        ensures sum { result ≡ all.old.amount }
        ensures reached { IsReached L.setup self.new.hub self.new.past result }
    {
        self.book.audit(all);
        self.made
    }

    /// The machine and its recorder.
    pub fn into_parts(self) -> (M, Recorder<M>)
        ensures { (M.seen result.0 ≡ self.hub) × (result.1 ≡ self.recording) }
    {
        let Core {
            machine,
            recorder,
            made: _,
            book: _,
            head: _,
            tally: _,
            awake_writers: _,
            pacing: _,
        } = self;
        (machine, recorder)
    }
}
