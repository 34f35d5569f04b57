//! Laws of calls.
ghost use Rattle.std.specs.Prelude.{◌≡◌, ◌+◌, ◌∷◌, ◌++◌, ℕ, List, [], length, slice_index, take, Ok, Result, Some};
ghost use Rattle.gw_map.specs.Settings.{Setup};
ghost use Rattle.gw_steps.specs.declared.step.Reply.{Reply};
ghost use Rattle.gw_steps.specs.declared.step.Step.{Step};
ghost use Rattle.gw_steps.specs.declared.step.StepFault.{StepFault};
ghost use Rattle.gw_steps.specs.Effects.{effects_with, no_effects};
ghost use Rattle.gw_steps.specs.Runs.{state_after};
ghost use Rattle.run_shared.specs.declared.entry.Entry.{Entry};
ghost use Rattle.run_shared.specs.Recording.{Recording, Tape};
ghost use Rattle.run_log.specs.Follows.{of_lane};
ghost use Rattle.run_shared.specs.Reached.{Deed, entries_of, entry};
ghost use Rattle.run_shared.specs.Taped.{IsOfHistory};
ghost use Rattle.run_shared.specs.Told.{newest_effects};
ghost use Rattle.run_shared.specs.Turn.{Answers, Pass};

/// The call of number n is the nth of the one history, so the first has number 1: the history has as many calls as its number
/// tells once it was made, and it is the newest of them.
#[tactic(auto, using(crate::proofs::Numbers::number_counts, crate::proofs::Numbers::newest_is))]
pub fn calls_are_numbered()
    ensures number { (setup : Setup) (mine after : Pass) (step : Step) (number : ℕ) (reply : Result Reply StepFault)
        → Answers setup mine after step (number, reply) → number ≡ length after.seen }
    ensures newest { (setup : Setup) (mine after : Pass) (step : Step) (number : ℕ) (reply : Reply)
        → Answers setup mine after step (number, Ok reply) → take 1 (entries_of after.seen) ≡ entry step (Ok reply) ∷ [] }
{}

/// What an actor is told of its newest call is what that step did on the state before it; before its first call it is nothing.
#[tactic(auto, using(crate::proofs::Telling::effects_then))]
pub fn newest_calls_are_told()
    ensures newest { (setup : Setup) (actor : ℕ) (step : Step) (reply : Result Reply StepFault) (past : List Deed)
        → newest_effects setup actor ((actor, entry step reply) ∷ past)
        ≡ effects_with setup (state_after setup (entries_of past)) step reply }
    ensures first { (setup : Setup) (actor : ℕ) → newest_effects setup actor [] ≡ no_effects }
    ensures others { (setup : Setup) (step : Step) (reply : Result Reply StepFault) (past : List Deed)
        → newest_effects setup 0 ((1, entry step reply) ∷ past) ≡ newest_effects setup 0 past }
{}

/// Behind a call the newest one on the recorder's tape, where it has one, is that call, of the actor that made it; and the recorder
/// has counted one call of this actor more than the history had of it before.
#[tactic(auto, using(crate::proofs::Taping::newest_is, crate::proofs::Taping::one_more))]
pub fn calls_are_recorded_of_their_actors()
    ensures newest { (recording : Recording) (tape : Tape) (entries : List Entry) (e : Entry) (actor : ℕ) (step : Step)
        (reply : Result Reply StepFault) (past : List Deed)
        → IsOfHistory recording ((actor, entry step reply) ∷ past) → recording.tape ≡ Some tape
        → tape.entries ≡ entries ++ e ∷ [] → (e.actor ≡ actor) × (e.step ≡ step) × (e.reply ≡ reply) }
    ensures counted { (recording : Recording) (actor : ℕ) (step : Step) (reply : Result Reply StepFault) (past : List Deed)
        → IsOfHistory recording ((actor, entry step reply) ∷ past)
        → slice_index recording.counts actor ≡ length (of_lane actor past) + 1 }
{}
