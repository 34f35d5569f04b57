//! Handing over what a source of replies gives.
ghost use Rattle.std.specs.Prelude.{◌≡◌, ◌||◌, ℕ, OnErr, OnOk, Option, Result, Some, is_err, take};
ghost use Rattle.std.specs.Io.KnownBytes.{Appends};
ghost use Rattle.gw_steps.specs.declared.step.Reply.{Reply as ReplySeen};
ghost use Rattle.gw_steps.specs.declared.step.StepFault.{StepFault as FaultSeen};
ghost use Rattle.run_ends.specs.PutOut.{is_unwritten, writing_end, IsGathered, IsPut, IsPutNext};

use crate::ends::{Outgoing, Unwritten};
use crate::worker_end::WorkerEnd;
use gw_steps::{Reply, StepFault};
use iec_apci::Batch;

/// How it ended that a source was asked for replies.
#[derive(Clone, Copy)]
pub enum Gathered {
    /// With this, which is no APDU: a reply, or nothing where the source isn't to go on.
    Ended(Option<Result<Reply, StepFault>>),
    /// There may be more.
    More,
}

/// What gives replies of the core, one after another.
pub trait Source {
    /// From this state to that, what was given: a reply, or nothing where it isn't to go on.
    ghost Gives: { Self → Option (Result ReplySeen FaultSeen) → Self → Type 0 };

    /// Asks for replies, and puts the octets of APDUs into a batch, until one is none, or there is no room, or it is
    /// time to hand them over.
    fn gather(&mut self, batch: &mut Batch) -> Gathered
        ensures { IsGathered Gives self.old self.new batch.old batch.new result };

    /// A batch is about to be handed over.
    fn before_write(&self);
}

/// How a run of APDUs ended.
#[derive(Clone, Copy)]
pub enum Put {
    /// With this, which is no APDU.
    Ended(Option<Result<Reply, StepFault>>),
    /// The writer didn't take all of an APDU.
    Unwritten,
    /// It hasn't ended yet.
    More,
}

impl Put {
    /// How a writer ends by it, if it does: where there is nothing more to give, or no further step can be counted, it
    /// is to stop; a reply that is no APDU ends a run and no writer.
    pub fn end(&self) -> Option<WorkerEnd>
        ensures { result ≡ writing_end self.now }
    {
        match self {
            Put::Ended(Some(Ok(_))) | Put::More => None,
            Put::Ended(None | Some(Err(_))) => Some(WorkerEnd::Stopping),
            Put::Unwritten => Some(WorkerEnd::WriteFault),
        }
    }
}

/// Hands one run of APDUs to a writer, as many together as the source gives at once, up to the first reply that is
/// none.
pub fn put_out<S: Source, W: Outgoing>(source: &mut S, writer: &mut W, batch: &mut Batch) -> Put
    ensures put { IsPut S.Gives source.old source.new (W.contents writer.old) (W.contents writer.new) result }
    ensures failed { W.has_failed writer.new ≡ (is_unwritten (Some result) || W.has_failed writer.old) }
{
    'batches: for _ in 0..u32::MAX {
        if let Some(put) = put_next(source, writer, batch) {
            return put;
        }
    }
    Put::More
}

/// Hands the next APDUs to a writer, together; how the run ended, if it did.
fn put_next<S: Source, W: Outgoing>(
    source: &mut S,
    writer: &mut W,
    batch: &mut Batch,
) -> Option<Put>
    ensures put { IsPutNext S.Gives source.old source.new (W.contents writer.old) (W.contents writer.new) result }
    ensures failed { W.has_failed writer.new ≡ (is_unwritten result || W.has_failed writer.old) }
{
    batch.clear();
    let gathered = source.gather(batch);
    if hand_over(source, writer, batch.as_slice()).is_err() {
        return Some(Put::Unwritten);
    }
    match gathered {
        Gathered::Ended(last) => Some(Put::Ended(last)),
        Gathered::More => None,
    }
}

/// Hands octets to a writer, if there are any.
fn hand_over<S: Source, W: Outgoing>(
    source: &S,
    writer: &mut W,
    octets: &[u8],
) -> Result<(), Unwritten>
    ensures ok { OnOk result (Appends (W.contents writer.old) (W.contents writer.new) octets.now) }
    ensures front { OnErr result ((n : ℕ) × Appends (W.contents writer.old) (W.contents writer.new) (take n octets.now)) }
    ensures failed { W.has_failed writer.new ≡ (is_err result || W.has_failed writer.old) }
{
    if octets.is_empty() {
        return Ok(());
    }
    source.before_write();
    writer.hand(octets)
}
