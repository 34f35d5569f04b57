//! What makes steps.
ghost use Rattle.std.specs.Prelude.{◌≡◌, ◌+◌, ◌-◌, ◌≤◌, ◌↔◌, drop, length, min, take};
ghost use Rattle.std.specs.Prelude.{true, false, IfOk, IsTrue, Some, slice_get};
ghost use Rattle.gw_steps.specs.State.{Hub};
ghost use Rattle.gw_steps.specs.Steps.{client_up, Allowed};
ghost use Rattle.gw_steps.specs.Sound.{IsSoundState};
ghost use Rattle.gw_steps.specs.Effects.{effects_with};
ghost use Rattle.gw_steps.specs.Queries.{dropped_at, has_offer, is_poll_due, queued_at, started_at, unacknowledged_at};

use crate::effects::Effects;
use crate::step::{Reply, Step, StepFault};
use gw_control::Outgoing;
use gw_model::{Memory, Observation};
use gw_station::NewsPiece;

/// Outstations and clients as one machine, that makes a step at a time and waits for nobody. What stands above the hub
/// knows it by this trait, so that it rests on the step relation alone.
pub trait Machine: Sized + Drop {
    /// Its settings and its state.
    ghost seen: { Self → Hub };

    /// Makes a step. A step with a fault changes nothing.
    fn step(&mut self, step: &Step) -> Result<Reply, StepFault>
        ensures step { Allowed (seen self.old).setup (seen self.old).state step.now result (seen self.new).state }
        ensures setup { (seen self.new).setup ≡ (seen self.old).setup }
        // What every state keeps, before and after.
        ensures was_sound { IsSoundState (seen self.old).setup (seen self.old).state }
        ensures sound { IsSoundState (seen self.new).setup (seen self.new).state };

    /// Makes a step, and tells what it did besides what it replied. A step with a fault did nothing.
    fn step_telling(&mut self, step: &Step, effects: &mut Effects) -> Result<Reply, StepFault>
        requires room { length (seen self.old).setup.outstations ≤ effects.old.room }
        ensures step { Allowed (seen self.old).setup (seen self.old).state step.now result (seen self.new).state }
        ensures setup { (seen self.new).setup ≡ (seen self.old).setup }
        ensures was_sound { IsSoundState (seen self.old).setup (seen self.old).state }
        ensures sound { IsSoundState (seen self.new).setup (seen self.new).state }
        ensures effects { effects.new.told
            ≡ effects_with (seen self.old).setup (seen self.old).state step.now result }
        ensures room { effects.new.room ≡ effects.old.room };

    /// An equal one.
    fn copy(&self) -> Result<Self, Memory>
        ensures { IfOk result (λ copy. seen copy ≡ seen self.now) };

    /// The same, in the memory of one that isn't needed any more, so that little is asked for where that suffices.
    fn copy_over(&self, spare: Self) -> Result<Self, Memory>
        ensures { IfOk result (λ copy. seen copy ≡ seen self.now) };

    /// How many news wait for a client; 0 where it isn't started, or there is no such client.
    fn queued(&self, client: u8) -> usize
        ensures count { result ≡ queued_at (slice_get (seen self.now).state.clients client) }
        ensures outside { started_at (slice_get (seen self.now).state.clients client) ≡ false → result ≡ 0 };

    /// How many news may wait for a client.
    fn queue_limit(&self) -> u32
        ensures { result ≡ (seen self.now).setup.station.queue };

    /// How many news of a client's session were dropped; 0 where it isn't started, or there is no such client.
    fn dropped(&self, client: u8) -> u64
        ensures count { result ≡ dropped_at (slice_get (seen self.now).state.clients client) }
        ensures outside { started_at (slice_get (seen self.now).state.clients client) ≡ false → result ≡ 0 };

    /// How many I formats sent to a client are not acknowledged; 0 where there is no such client.
    fn unacknowledged_count(&self, client: u8) -> usize
        ensures { result ≡ unacknowledged_at (slice_get (seen self.now).state.clients client) };

    /// How many observations were news since it began.
    fn news(&self) -> u64
        ensures { result ≡ (seen self.now).state.counts.news };

    /// Copies the news from a number on, as many as find room, and tells which they are. Those that aren't kept any more
    /// are passed over.
    fn copy_news(&self, number: u64, room: &mut [Observation]) -> NewsPiece
        ensures room { length room.new ≡ length room.old }
        ensures few { result.count ≤ length room.old }
        ensures total { result.total ≡ (seen self.now).state.counts.news }
        ensures within { result.first + result.count ≤ (seen self.now).state.counts.news };

    /// Copies what is shown of the rows from a position on, as many as find room; how many these are.
    fn copy_picture(&self, position: usize, room: &mut [Observation]) -> usize
        ensures room { length room.new ≡ length room.old }
        ensures count { result ≡ min (length (seen self.now).state.picture - position) (length room.old) }
        ensures shown { take result room.new ≡ take result (drop position (seen self.now).state.picture) };

    /// For each outstation the orders that wait for it, and the one that is under way to it.
    fn outgoing(&self) -> &[Outgoing]
        ensures { result.now ≡ (seen self.now).state.controls.outgoing };

    /// Whether a client is up.
    fn stands(&self, client: u8) -> bool
        ensures { IsTrue result ↔ (client_up (seen self.now).state client ≡ Some true) };

    /// Whether a poll of an outstation would give a request at the largest moment so far.
    fn is_poll_due(&self, outstation: u8) -> bool
        ensures { result ≡ is_poll_due (seen self.now).state outstation };

    /// Whether a pump for a client would give an APDU at the largest moment so far.
    fn is_pump_due(&self, client: u8) -> bool
        ensures { result ≡ has_offer (seen self.now).state.moment (slice_get (seen self.now).state.clients client) };
}
