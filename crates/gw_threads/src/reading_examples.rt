//! What is confirmed, what is stepped, and for whom, by examples.
ghost use Rattle.std.specs.Prelude.{◌≡◌, ℕ, List, [], ◌∷◌, Ok, Err, Some, None, true, false};
ghost use Rattle.dnp_app.specs.Response.{Fragment, fragment_of};
ghost use Rattle.dnp_app.specs.declared.request.Request.{Request};
ghost use Rattle.dnp_master.specs.declared.verdict.Ignored.TheVariants.{NoRequest};
ghost use Rattle.dnp_master.specs.declared.verdict.Verdict.TheVariants.{Accepted, Ignored, Repeated};
ghost use Rattle.iec_apci.specs.declared.apdu.Apdu.{Apdu};
ghost use Rattle.iec_apci.specs.declared.apdu.Apdu.TheVariants as formats;
ghost use Rattle.iec_apci.specs.Apdu.{Supervisory};
ghost use Rattle.gw_steps.specs.declared.step.Step.TheVariants as steps;
ghost use Rattle.gw_steps.specs.declared.step.Reply.TheVariants as replies;
ghost use Rattle.gw_steps.specs.declared.step.StepFault.TheVariants as faults;
ghost use Rattle.run_ends.specs.declared.sent.Sent.TheVariants as sents;
ghost use Rattle.run_ends.specs.declared.worker_end.WorkerEnd.TheVariants as ends;
ghost use Rattle.gw_threads.specs.Calls.{given_by};
ghost use Rattle.gw_threads.specs.Confirms.{confirmation_given, confirmations_sent, IsRead, IsReaders};
ghost use Rattle.gw_threads.specs.Frames.{apdu_in, IsOf};
ghost use Rattle.gw_threads.specs.Heard.{IsSaid, response_in};

/// A fragment that asks for a confirmation, one that doesn't, one that is ignored, and the first one once more; what is sent for
/// them, with a reply of the link. A client's S format is stepped.
pub fn confirmed_and_stepped()
    ensures given { (f g : Fragment) (a : List ℕ) → given_by confirmation_given
        (record { step = steps.Fragment f 1; number = 1; reply = Ok (replies.Verdict (Accepted (Some a) false None)) }
        ∷ record { step = steps.Fragment g 2; number = 2; reply = Ok (replies.Verdict (Accepted None true None)) }
        ∷ record { step = steps.Fragment g 3; number = 4; reply = Ok (replies.Verdict (Ignored NoRequest)) }
        ∷ record { step = steps.Fragment f 4; number = 5; reply = Ok (replies.Verdict (Repeated (Some a))) } ∷ [])
        ≡ a ∷ a ∷ [] }
    ensures sent { (a frame : List ℕ) → confirmations_sent (record { what = sents.Confirm a; whole = true }
        ∷ record { what = sents.Reply frame; whole = true } ∷ record { what = sents.Confirm a; whole = false } ∷ [])
        ≡ a ∷ a ∷ [] }
    ensures stepped { given_by apdu_in (record { step = steps.Frame 0 (formats.S 4) 1; number = 1; reply = Ok replies.Taken } ∷ [])
        ≡ Supervisory 4 ∷ [] }
{}

/// Of three fragments the last wasn't counted, so two were heard, whatever the core said of them. Where the reader is to stop
/// one may be left, and where its octets end none.
#[tactic(auto, using(crate::proofs::Worked::one_left, crate::proofs::Worked::none_left))]
pub fn heard_and_left()
    ensures heard { (f g h : Fragment) → given_by response_in
        (record { step = steps.Fragment f 1; number = 1; reply = Ok (replies.Verdict (Repeated None)) }
        ∷ record { step = steps.Fragment g 2; number = 2; reply = Err faults.NotUp }
        ∷ record { step = steps.Fragment h 3; number = 3; reply = Err faults.Spent }
        ∷ record { step = steps.OutstationDown 0 4; number = 4; reply = Ok replies.Done } ∷ [])
        ≡ f ∷ g ∷ [] }
    ensures stopping { (f g h : Fragment) → IsSaid (f ∷ g ∷ h ∷ []) (f ∷ g ∷ []) (Some ends.Stopping) }
    ensures ended { (f g h : Fragment) → IsSaid (f ∷ g ∷ h ∷ []) (f ∷ g ∷ []) (Some ends.EndOfInput) → ⊥ }
{}

/// The reader of client 0 steps its APDUs, and tells its loss; of client 1 it does neither, and it makes no other step.
pub fn of_one_client()
    ensures own { (a : Apdu) (m : ℕ) → IsOf 0 (steps.Frame 0 a m) × IsOf 0 (steps.ClientDown 0 m) }
    ensures other_apdu { (a : Apdu) (m : ℕ) → IsOf 0 (steps.Frame 1 a m) → ⊥ }
    ensures other_loss { (m : ℕ) → IsOf 0 (steps.ClientDown 1 m) → ⊥ }
    ensures pump { (m : ℕ) → IsOf 0 (steps.Pump 0 m) → ⊥ }
{}

/// The reader of outstation 0 steps its fragments, and tells its loss; of outstation 1 it does neither. It polls nothing, and
/// sends no request.
pub fn reads_alone()
    ensures own { (a : List ℕ) (m : ℕ) → IsRead 0 (steps.Fragment (fragment_of 0 a []) m) × IsRead 0 (steps.OutstationDown 0 m) }
    ensures other_fragment { (a : List ℕ) (m : ℕ) → IsRead 0 (steps.Fragment (fragment_of 1 a []) m) → ⊥ }
    ensures other_loss { (m : ℕ) → IsRead 0 (steps.OutstationDown 1 m) → ⊥ }
    ensures poll { (m w : ℕ) → IsRead 2 (steps.Poll 2 m w) → ⊥ }
    ensures sends { (a frame : List ℕ) → IsReaders (sents.Confirm a) × IsReaders (sents.Reply frame) × IsReaders sents.Status }
    ensures no_request { (r : Request) → IsReaders (sents.Request r) → ⊥ }
{}
