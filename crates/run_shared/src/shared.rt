//! The core behind its lock.
ghost use Rattle.std.specs.Prelude.{◌≡◌, ◌<◌, ◌≤◌, [], length, IfOk, map};
ghost use Rattle.std.specs.List.{range_with_len};
ghost use Rattle.run_shared.specs.Reached.{CourseOf, IsCourse, IsFirst};
ghost use Rattle.run_shared.specs.Turn.{unused};

use crate::bells::Bells;
use crate::calls::Calls;
use crate::course::{Course, Made};
use crate::figures::Figures;
use crate::holdback::Load;
use crate::locked::Core;
use crate::pass::Pass;
use crate::pumped::PumpRun;
use crate::recorder::Recorder;
use crate::wake_set::WakeSet;
use gw_model::{Memory, Observation};
use gw_steps::{Effects, Machine, NewsPiece, Reply, Step, StepFault};
use iec_apci::Batch;
use run_clock::Bell;
use run_log::{Head, Opened};
use std::alloc::Global;
use std::marker::Model;
use std::sync::atomic::{AtomicBool, Ordering};
use std::sync::ledger::{Blank, Share};
use std::sync::{Mutex, Wait};

/// A core for many threads. Each makes its calls with a pass, of which there are as many as actors.
#[derive(Drop)]
pub struct Shared<L: Course, M: Machine> {
    actors: usize,
    core: Mutex<Core<L, M>>,
    bells: Bells,
    stopping: AtomicBool,
}

// A contract sees how many actors there are.
impl<L: Course, M: Machine> Model for Shared<L, M> {
    ghost use Rattle.std.specs.Prelude.{◌≡◌, ◌<◌, ℕ};

    ghost Value = { ℕ };

    ghost view = { λ s. s.actors };

    ghost invariant = { λ s. (s.actors ≡ L.parts) × (0 < s.actors) };
}

/// A pass for each actor, cut off a share of all parts, with room for what steps do to so many outstations.
fn passes<L: Course>(
    alloc: Global,
    share: Share<L>,
    head: &mut Head<Made, L>,
    actors: usize,
    outstations: u8,
) -> Result<Vec<Pass<L>>, Memory>
    requires lanes { head.old ≡ record { lanes = 0; log = [] } }
    requires outstations { length L.setup.outstations ≤ outstations }
    requires parts { (share.parts ≡ L.parts) × (share.parts ≡ actors) }
    requires amount { share.amount ≡ 0 }
    requires some { 0 < actors }
    requires course { IsCourse L.setup [] }
    ensures passes { IfOk result (λ passes. passes.items
        ≡ map unused (range_with_len 0 actors)) }
    ensures log { head.new.log ≡ [] }
{
    let mut share = share;
    let mut passes = Vec::with_capacity(alloc, actors)?;
    for actor in 0..actors - 1 {
        let effects = Effects::new(alloc, outstations)?;
        passes.push(Pass {
            share: share.split_off(1, 0),
            actor,
            effects,
            front: head.lane(),
        })?;
    }
    let effects = Effects::new(alloc, outstations)?;
    passes.push(Pass {
        share,
        actor: actors - 1,
        effects,
        front: head.lane(),
    })?;
    Ok(passes)
}

/// How many outstations a machine has; there is no room for what steps do to more than 255.
fn outstations_of<M: Machine>(machine: &M) -> Result<u8, Memory>
    ensures { IfOk result (λ count. length (M.seen machine.now).state.controls.outgoing ≤ count) }
{
    u8::try_from(machine.outgoing().len()).map_err(|_| Memory)
}

/// A pass for each actor, and the bells of those who serve.
fn passes_and_bells<L: Course>(
    alloc: Global,
    share: Share<L>,
    head: &mut Head<Made, L>,
    actors: usize,
    outstations: u8,
) -> Result<(Vec<Pass<L>>, Bells), Memory>
    requires lanes { head.old ≡ record { lanes = 0; log = [] } }
    requires outstations { length L.setup.outstations ≤ outstations }
    requires parts { (share.parts ≡ L.parts) × (share.parts ≡ actors) }
    requires amount { share.amount ≡ 0 }
    requires some { 0 < actors }
    requires course { IsCourse L.setup [] }
    ensures passes { IfOk result (λ made. made.0.items ≡ map unused (range_with_len 0 actors)) }
    ensures log { head.new.log ≡ [] }
{
    let passes = passes(alloc, share, head, actors, outstations)?;
    let bells = Bells::new(alloc)?;
    Ok((passes, bells))
}

impl<L: Course, M: Machine> Shared<L, M> {
    /// A machine under its lock, for so many actors; the recorder keeps `capacity` calls at most. Gives a pass for each
    /// actor too, by their positions.
    pub fn new(
        alloc: Global,
        blank: Blank,
        history: Opened<Made>,
        machine: M,
        actors: usize,
        capacity: usize,
    ) -> Result<(Shared<L, M>, Vec<Pass<L>>), Memory>
        requires name { blank.name ≡ L.name }
        requires parts { (blank.parts ≡ L.parts) × (blank.parts ≡ actors) }
        requires actors { 0 < actors }
        requires capacity { 0 < capacity }
        requires book { history.seen.book ≡ L.book }
        requires first { IsFirst L.setup (M.seen machine) }
        ensures { IfOk result (λ made. made.1.items
            ≡ map unused (range_with_len 0 actors)) }
    {
        let (book, share) = blank.open::<L>();
        let mut head = history.named::<L>();
        let outstations = outstations_of(&machine)?;
        let (passes, bells) = passes_and_bells(alloc, share, &mut head, actors, outstations)?;
        let core = Core::new(alloc, machine, book, head, actors, capacity)?;
        let shared = Shared {
            actors,
            core: Mutex::new(core),
            bells,
            stopping: AtomicBool::new(false),
        };
        Ok((shared, passes))
    }

    /// How many actors there are.
    pub fn actors(&self) -> usize
        ensures actors { result ≡ self.now }
        ensures parts { result ≡ L.parts }
        ensures some { 0 < result }
    {
        self.actors
    }

    /// How many calls were made, for whoever has all passes' shares.
    pub(crate) fn total<R: Wait>(&self, rt: &R, all: &mut Share<L>) -> u64
        requires { all.old.parts ≡ L.parts }
        ensures sum { result ≡ all.old.amount }
        ensures course { CourseOf L.setup result }
    {
        self.core.lock(rt).total(all)
    }

    /// The machine and its recorder.
    pub fn into_parts(self) -> (M, Recorder<M>) {
        let Shared {
            actors: _,
            core,
            bells: _,
            stopping: _,
        } = self;
        core.into_inner().into_parts()
    }
}

impl<L: Course, M: Machine> Calls<L> for Shared<L, M> {
    fn step<R: Wait>(
        &self,
        rt: &R,
        pass: &mut Pass<L>,
        step: Step,
    ) -> (u64, Result<Reply, StepFault>) {
        let (answer, wake_set) = self.core.lock(rt).answer(pass, step);
        self.bells.ring(wake_set);
        answer
    }

    fn pump<R: Wait>(
        &self,
        rt: &R,
        pass: &mut Pass<L>,
        client: u8,
        moment: u64,
        batch: &mut Batch,
    ) -> PumpRun {
        self.core.lock(rt).pump(pass, client, moment, batch)
    }

    fn outstation_bell(&self, outstation: u8) -> Option<&Bell> {
        self.bells.of_outstation(outstation)
    }

    fn client_bell(&self, client: u8) -> Option<&Bell> {
        self.bells.of_client(client)
    }

    fn stands<R: Wait>(&self, rt: &R, client: u8) -> bool {
        self.core.lock(rt).stands(client)
    }

    fn is_outrun<R: Wait>(&self, rt: &R, load: Load, moment: u64) -> bool {
        self.core.lock(rt).is_outrun(load, moment)
    }

    fn rest<R: Wait>(&self, rt: &R, outstation: u8, moment: u64) -> u64 {
        self.core.lock(rt).rest(outstation, moment)
    }

    fn figures<R: Wait>(&self, rt: &R) -> Figures {
        self.core.lock(rt).figures()
    }

    fn copy_news<R: Wait>(&self, rt: &R, number: u64, room: &mut [Observation]) -> NewsPiece {
        self.core.lock(rt).copy_news(number, room)
    }

    fn copy_picture<R: Wait>(&self, rt: &R, position: usize, room: &mut [Observation]) -> usize {
        self.core.lock(rt).copy_picture(position, room)
    }

    fn stop(&self) {
        self.stopping.store(true, Ordering::SeqCst);
        self.bells.ring(WakeSet::everybody());
    }

    fn stopping(&self) -> bool {
        self.stopping.load(Ordering::SeqCst)
    }
}
