//! Laws of what readers step, and of what the reader of an outstation confirms.
ghost use Rattle.std.specs.Prelude.{◌≡◌, ℕ, Bool, List, [], Ok, Option};
ghost use Rattle.std.specs.Io.KnownBytes.{Appends};
ghost use Rattle.dnp_receive.specs.Delivery.{stream_responses};
ghost use Rattle.dnp_receive.specs.Receiver.{HasTaken, Reception};
ghost use Rattle.iec_apci.specs.Stream.{reading};
ghost use Rattle.run_log.specs.Follows.{Known};
ghost use Rattle.gw_map.specs.Settings.{Setup};
ghost use Rattle.gw_steps.specs.declared.step.Step.{Step};
ghost use Rattle.gw_steps.specs.declared.step.Reply.{Reply};
ghost use Rattle.gw_steps.specs.Runs.{Entry};
ghost use Rattle.law_history.specs.Confirmations.{confirmation_due, Confirms};
ghost use Rattle.run_shared.specs.Turn.{Pass};
ghost use Rattle.run_ends.specs.declared.sent.Sending.{Sending};
ghost use Rattle.run_ends.specs.declared.worker_end.WorkerEnd.TheVariants.{EndOfInput};
ghost use Rattle.gw_threads.specs.Calls.{AreCalls, Call, given_by};
ghost use Rattle.gw_threads.specs.Confirmed.{ConfirmedByFragments};
ghost use Rattle.gw_threads.specs.Confirms.{confirmation_given, octets_of, ReadsOn};
ghost use Rattle.gw_threads.specs.Frames.{apdu_in, Frames};
ghost use Rattle.gw_threads.specs.Heard.{Hears, response_in};

/// Where a peer's octets end, its reader has stepped all that they say, each once, in their order, and nothing else: of an
/// outstation the responses, of a client the APDUs.
pub fn all_is_stepped_where_octets_end()
    ensures responses { (setup : Setup) (outstation own peer : ℕ) (receiver : Reception) (mine after : Pass)
        (before now : Option (List ℕ))
        → HasTaken own peer [] receiver → Hears setup outstation receiver mine after before now EndOfInput
        → (octets : List ℕ) × (Appends before now octets × ((calls : List Call) × (AreCalls setup mine calls after
        × (given_by response_in calls ≡ stream_responses outstation own peer octets)))) }
    ensures apdus { (setup : Setup) (client : ℕ) (mine after : Pass) (before now : Option (List ℕ))
        → Frames setup client mine after before now EndOfInput
        → (octets : List ℕ) × (Appends before now octets × ((calls : List Call) × (AreCalls setup mine calls after
        × (given_by apdu_in calls ≡ (reading octets).apdus)))) }
{}

/// What a reader sends for a step is the confirmation that is due by the history before it, and no other: that of a
/// fragment which is accepted or a repeat, and asks for one.
#[tactic(auto, using(crate::proofs::Due::due_given))]
pub fn what_is_due_is_confirmed()
    ensures { (setup : Setup) (past : List Entry) (step : Step) (reply : Reply) → Confirms setup past step reply
        → confirmation_given step (Ok reply) ≡ octets_of (confirmation_due setup past step) }
{}

/// The confirmations that a line's history has of an outstation's reader are those that its fragments were answered with, each
/// once, in their order: it sent none before its first fragment, and no request.
pub fn readers_confirm_what_fragments_give()
    ensures { (setup : Setup) (outstation : ℕ) (mine after : Pass) (front : Known Sending) (cut : Bool)
        → ReadsOn setup outstation mine after front cut → ConfirmedByFragments setup outstation mine after front }
{}
