//! What calls gave, and for whom workers make them, by examples.
ghost use Rattle.std.specs.Prelude.{◌≡◌, ℕ, [], ◌∷◌, Ok};
ghost use Rattle.iec_apci.specs.declared.buffer.ApduBuf.{ApduBuf};
ghost use Rattle.dnp_app.specs.declared.request.Request.{Request};
ghost use Rattle.gw_steps.specs.declared.step.Step.TheVariants as steps;
ghost use Rattle.gw_steps.specs.declared.step.Reply.TheVariants as replies;
ghost use Rattle.run_shared.specs.Reached.{entry};
ghost use Rattle.gw_threads.specs.Calls.{all_given, given_by};
ghost use Rattle.gw_threads.specs.Sends.{is_poll, IsTowards, request_given};
ghost use Rattle.gw_threads.specs.Ticking.{IsTick};
ghost use Rattle.gw_threads.specs.Written.{apdu_given, is_pump, IsFor};

/// Of two pumps for client 0 each gave an APDU, and one for client 1 between them gave another; the history has the newest
/// first. A poll of outstation 2 gave a request, and one of outstation 1 none.
pub fn given_in_a_history()
    ensures client_0 { (a b c : ApduBuf) → all_given (is_pump 0) apdu_given
        (entry (steps.Pump 0 9) (Ok (replies.Apdu c)) ∷ entry (steps.Pump 1 8) (Ok (replies.Apdu b))
        ∷ entry (steps.Pump 0 7) (Ok (replies.Apdu a)) ∷ []) ≡ a ∷ c ∷ [] }
    ensures outstations { (r : Request) → all_given (is_poll 2) request_given
        (entry (steps.Poll 1 9 0) (Ok replies.Nothing) ∷ entry (steps.Poll 2 8 0) (Ok (replies.Request r)) ∷ []) ≡ r ∷ [] }
    ensures calls { (a b : ApduBuf) → given_by apdu_given (record { step = steps.Pump 0 7; number = 1; reply = Ok (replies.Apdu a) }
        ∷ record { step = steps.ClientDown 0 8; number = 2; reply = Ok replies.Done } ∷ []) ≡ a ∷ [] }
{}

/// The writer of client 0 pumps for it, and tells its loss; for client 1 it does neither, and it makes no other step.
pub fn for_one_client()
    ensures own { (m : ℕ) → IsFor 0 (steps.Pump 0 m) × IsFor 0 (steps.ClientDown 0 m) }
    ensures other_pump { (m : ℕ) → IsFor 0 (steps.Pump 1 m) → ⊥ }
    ensures other_loss { (m : ℕ) → IsFor 0 (steps.ClientDown 1 m) → ⊥ }
    ensures tick { (m : ℕ) → IsFor 0 (steps.Tick m) → ⊥ }
    ensures outstation { (m : ℕ) → IsFor 0 (steps.OutstationDown 0 m) → ⊥ }
{}

/// The writer towards outstation 2 polls it, and tells its loss; of outstation 1 it does neither, and it makes no other step.
pub fn towards_one_outstation()
    ensures own { (m w : ℕ) → IsTowards 2 (steps.Poll 2 m w) × IsTowards 2 (steps.OutstationDown 2 m) }
    ensures other_poll { (m w : ℕ) → IsTowards 2 (steps.Poll 1 m w) → ⊥ }
    ensures other_loss { (m : ℕ) → IsTowards 2 (steps.OutstationDown 1 m) → ⊥ }
    ensures up { (m : ℕ) → IsTowards 2 (steps.OutstationUp 2 m) → ⊥ }
    ensures tick { (m : ℕ) → IsTowards 2 (steps.Tick m) → ⊥ }
{}

/// The clock's worker makes ticks; it tells no loss, and asks for nothing.
pub fn ticks_alone()
    ensures own { (m : ℕ) → IsTick (steps.Tick m) }
    ensures client_loss { (m : ℕ) → IsTick (steps.ClientDown 0 m) → ⊥ }
    ensures outstation_loss { (m : ℕ) → IsTick (steps.OutstationDown 0 m) → ⊥ }
    ensures pump { (m : ℕ) → IsTick (steps.Pump 0 m) → ⊥ }
    ensures poll { (m w : ℕ) → IsTick (steps.Poll 0 m w) → ⊥ }
{}
