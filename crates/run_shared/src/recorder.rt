//! The recorder.
ghost use Rattle.std.specs.Prelude.{◌≡◌, ◌+◌, ◌<◌, ◌^◌, ◌↔◌, Some, true, false, IfOk, IfSome};
ghost use Rattle.std.specs.Prelude.{IsSome, OnErr, OnOk, length, option_map, replicate, slice_index};
ghost use Rattle.run_shared.specs.Recorded.{IsNumbered};
ghost use Rattle.run_shared.specs.Recording.{is_tape_full, noted, recording_off, rolled, tape_on, tape_with, HasRoom};

use crate::entry::Entry;
use crate::kept::KeptStep;
use crate::tape::Tape;
use gw_model::Memory;
use gw_steps::{Machine, Reply, Step, StepFault};
use std::alloc::Global;
use std::marker::Model;
use thiserror::Error;

/// Counts the calls of each actor, and keeps the last ones on a tape: a machine as it was, and the calls since. Once
/// memory was refused for a new base it is off for good, and counts alone.
#[derive(Drop)]
pub struct Recorder<M: Machine> {
    counts: Vec<u64>,
    tape: Option<Tape<M>>,
}

impl<M: Machine> Model for Recorder<M> {
    ghost use Rattle.run_shared.specs.Recording.{Recording, IsTapedIfOn};

    ghost Value = { Recording };

    ghost view = { λ r. record { counts = r.counts.items; tape = r.tape } };

    ghost invariant = { λ r. IsTapedIfOn r.counts.items r.tape };
}

/// Memory was refused for a new base.
#[derive(Debug, Drop, Error)]
#[error("no room for a new base: {cause}")]
pub struct NoRoom {
    cause: Memory,
}

/// What a recorder keeps: a machine as it was, how many calls each actor had made then, and the calls since, the oldest
/// first.
#[derive(Drop)]
pub struct Dump<'a, M: Machine> {
    pub base: &'a M,
    pub counts: &'a [u64],
    pub entries: &'a [Entry],
}

impl<M: Machine> Recorder<M> {
    /// A recorder that is on, for so many actors, of which none has made a call. It keeps `capacity` calls at most.
    pub fn new(
        alloc: Global,
        machine: &M,
        actors: usize,
        capacity: usize,
    ) -> Result<Recorder<M>, Memory>
        requires { 0 < capacity }
        ensures counts { IfOk result (λ recorder. recorder.counts ≡ replicate actors 0) }
        ensures tape { IfOk result (λ recorder. recorder.tape
            ≡ Some (tape_on (M.seen machine.now) (replicate actors 0) capacity)) }
    {
        let counts = vec![in alloc; 0; actors]?;
        let tape = Tape::new(alloc, machine, counts.as_slice(), capacity)?;
        Ok(Recorder {
            counts,
            tape: Some(tape),
        })
    }

    /// Whether no further call can be kept until it rolls or goes off.
    pub fn is_full(&self) -> bool
        ensures { result ≡ is_tape_full self.now.tape }
    {
        match &self.tape {
            Some(tape) => tape.is_full(),
            None => false,
        }
    }

    /// Notes a call of an actor, and its reply. It takes no memory.
    pub fn note(&mut self, actor: usize, step: Step, reply: Result<Reply, StepFault>)
        requires room { is_tape_full self.old.tape ≡ false }
        requires actor { actor < length self.old.counts }
        requires rises { slice_index self.old.counts actor + 1 < 2 ^ 64 }
        ensures { self.new ≡ noted self.old actor step reply }
    {
        step.attest();
        let ordinal = self.counts[actor] + 1;
        self.counts[actor] = ordinal;
        keep(
            &mut self.tape,
            Entry {
                actor,
                ordinal,
                step: KeptStep::of(step),
                reply,
            },
        );
    }

    /// Begins anew at the machine as it is now, and forgets the calls. Where memory is refused nothing changes.
    pub fn roll(&mut self, machine: &M) -> Result<(), NoRoom>
        requires { is_tape_full self.old.tape ≡ true }
        ensures ok { OnOk result (self.new ≡ rolled self.old (M.seen machine.now)) }
        ensures room { OnOk result (is_tape_full self.new.tape ≡ false) }
        ensures err { OnErr result (self.new ≡ self.old) }
    {
        if let Some(tape) = &mut self.tape {
            if let Err(cause) = tape.roll(machine, self.counts.as_slice()) {
                return Err(NoRoom { cause });
            }
        }
        Ok(())
    }

    /// Keeps no calls any more, for good.
    pub fn off(&mut self, refused: NoRoom)
        ensures { self.new ≡ recording_off self.old }
    {
        let NoRoom { cause: _ } = refused;
        drop(self.tape.take());
    }

    /// What it keeps; none where it is off.
    pub fn dump(&self) -> Option<Dump<'_, M>>
        ensures on { IsSome result ↔ IsSome self.now.tape }
        ensures kept { IfSome result (λ d. IfSome self.now.tape (λ t.
            (M.seen d.base.now ≡ t.base) × (d.counts.now ≡ t.before) × (d.entries.now ≡ t.entries))) }
        ensures numbered { IfSome result (λ d. IsNumbered d.counts.now d.entries.now) }
    {
        let tape = self.tape.as_ref()?;
        Some(Dump {
            base: tape.base(),
            counts: tape.before(),
            entries: tape.entries(),
        })
    }
}

/// Keeps a call on a tape, if there is one.
fn keep<M: Machine>(tape: &mut Option<Tape<M>>, entry: Entry)
    requires { HasRoom tape.old }
    ensures { tape.new ≡ option_map (tape_with entry) tape.old }
{
    if let Some(tape) = tape {
        tape.push(entry);
    }
}
