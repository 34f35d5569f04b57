//! Laws of calls, and of what is sent.
ghost use Rattle.std.specs.Prelude.{◌≡◌, ◌++◌, ℕ, Bool, List, Some, take};
ghost use Rattle.iec_apci.specs.declared.buffer.ApduBuf.{ApduBuf};
ghost use Rattle.run_log.specs.Follows.{Known};
ghost use Rattle.iec_apci.specs.Joined.{joined, octets_in};
ghost use Rattle.run_ends.specs.declared.sent.Sending.{Sending};
ghost use Rattle.run_ends.specs.declared.worker_end.WorkerEnd.TheVariants.{Stopping, WriteFault};
ghost use Rattle.gw_map.specs.Settings.{Setup};
ghost use Rattle.run_shared.specs.Reached.{entries_of};
ghost use Rattle.run_shared.specs.Turn.{Pass};
ghost use Rattle.gw_threads.specs.Sends.{AreSent, SendsAll};
ghost use Rattle.gw_threads.specs.Standing.{SentAlone, StandAlone};
ghost use Rattle.gw_threads.specs.Whole.{IsWhole};
ghost use Rattle.gw_threads.specs.Writers.{SentByPolls};
ghost use Rattle.gw_threads.specs.Written.{apdu_given, AreAll, Asked, is_pump, IsPutOut, Writes};
ghost use Rattle.gw_threads.specs.Calls.{all_given, AreCalls, Call, given_by};

/// Calls that are made with a pass one after another are, since the pass knew a beginning of the one history, all calls of
/// its actor in it, each once, in their order.
#[tactic(auto, using(crate::proofs::Standing::calls_stand))]
pub fn calls_stand_alone()
    ensures { (setup : Setup) (mine after : Pass) (calls : List Call) → AreCalls setup mine calls after
        → StandAlone mine after calls }
{}

/// What a worker sends on a line, one after another, is all that the line's history has of this worker, each once, in its
/// order.
#[tactic(auto, using(crate::proofs::Standing::sends_stand))]
pub fn sends_stand_alone()
    ensures { (old new : Known Sending) (sends : List Sending) → AreSent old sends new → SentAlone old new sends }
{}

/// All that a line's history has of an outstation's writer are the requests that its polls were answered with, each once, in
/// their order: it sent nothing before its first poll.
pub fn writers_send_what_polls_give()
    ensures { (setup : Setup) (outstation : ℕ) (mine after : Pass) (front : Known Sending) (cut : Bool)
        → SendsAll setup outstation mine after front cut → SentByPolls setup outstation mine after front }
{}

/// The octets that a client's writer hands over for an APDU are that one APDU: no octet of it is missing, and nothing comes behind.
#[tactic(auto, using(crate::proofs::Whole::put_out_whole))]
pub fn put_out_apdus_are_whole()
    ensures { (client : ℕ) (apdu : ApduBuf) → IsPutOut client apdu → IsWhole (octets_in apdu) }
{}

/// The octets that a client's writer hands over are those of the APDUs that its pumps were answered with, each once, in their
/// order; where a write fails, a front of them. Where all the client's pumps are its own, these are all that the history has.
pub fn writers_hand_over_what_pumps_give()
    ensures calls { (setup : Setup) (client : ℕ) (mine after : Pass) (before now : List ℕ)
        → Writes (Asked setup client mine after) (Some before) (Some now) Stopping
        → (calls : List Call) × (AreCalls setup mine calls after × (now ≡ before ++ joined (given_by apdu_given calls))) }
    ensures front { (setup : Setup) (client : ℕ) (mine after : Pass) (before now : List ℕ)
        → Writes (Asked setup client mine after) (Some before) (Some now) WriteFault
        → (calls : List Call) × (AreCalls setup mine calls after
        × ((count : ℕ) × (now ≡ before ++ take count (joined (given_by apdu_given calls))))) }
    ensures history { (client : ℕ) (mine after : Pass) (before now : List ℕ)
        → Writes (AreAll client mine after) (Some before) (Some now) Stopping
        → (apdus : List ApduBuf) × ((all_given (is_pump client) apdu_given (entries_of after.seen)
        ≡ all_given (is_pump client) apdu_given (entries_of mine.seen) ++ apdus) × (now ≡ before ++ joined apdus)) }
{}
