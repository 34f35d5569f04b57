//! Worked runs, told by the definitions. A moment that goes back counts as the largest so far.
ghost use Rattle.std.specs.Prelude.{◌≡◌, ◌^◌, ◌-◌, ◌++◌, [], ◌∷◌, map, true, false, Some, None};
ghost use Rattle.iec_apci.specs.declared.apdu.Apdu.TheVariants.{I, S, U};
ghost use Rattle.iec_apci.specs.declared.apdu.Signal.TheVariants.{StartAct, StartCon, StopAct, StopCon, TestAct, TestCon};
ghost use Rattle.iec_apci.specs.declared.why.Why.TheVariants.{Sequence, NotStarted, Malformed, Flooded};
ghost use Rattle.gw_station.specs.Example.{cut, interrogation, reading};
ghost use Rattle.gw_steps.specs.declared.step.Step.TheVariants as steps;
ghost use Rattle.gw_steps.specs.declared.step.StepFault.TheVariants.{AlreadyUp, NoClient, NoOutstation, NotUp};
ghost use Rattle.gw_steps.specs.Example.{event, outstation_up};
ghost use Rattle.law_history.specs.Up.{is_outstation_up};
ghost use Rattle.law_clients.specs.Connection.{connection, is_so, turns};
ghost use Rattle.law_clients.specs.Closes.{acknowledged};
ghost use Rattle.law_clients.specs.Faults.{count, is_spent_of, news_added, one_step, orders_added, sessions_added, wants_memory};
ghost use Rattle.law_clients.specs.Signals.{given, waiting, wanted};
ghost use Rattle.law_clients.specs.Times.{ToAcknowledge, ToInform, ToSignal, due, heard_at, is_late};
ghost use Rattle.law_clients.specs.Times.{is_receipt_due, tested_at, unacknowledged, unreceipted};
ghost use Rattle.law_clients.specs.ConnectionExample.{closes_then, comes, connected, fault_then, flooded};
ghost use Rattle.law_clients.specs.ConnectionExample.{full, passed, pump, pumps, reached, read_twice, refused};
ghost use Rattle.law_clients.specs.ConnectionExample.{set_to_seven, setup, started, tested, told_twice};

/// Nothing comes from a client, before STARTDT.
#[tactic(auto, unfolding(iec_apci::specs::Stream::reading, iec_apci::specs::Stream::answer_at_front, iec_apci::specs::Stream::content_of))]
pub fn tests_by_example()
    // TESTFR act is due when t3 has passed, and not again while it is unconfirmed.
    ensures due { map (λ now. due setup now (reached connected)) (9499 ∷ 9500 ∷ [])
        ≡ None ∷ Some (ToSignal TestAct) ∷ [] }
    ensures once { map (λ now. due setup now (reached tested)) (9500 ∷ 30000 ∷ []) ≡ None ∷ None ∷ [] }
    // Its t1 runs from when it was put out.
    ensures late { map (λ now. is_late setup.station now (reached tested)) (16499 ∷ 16500 ∷ []) ≡ false ∷ true ∷ [] }
    // A tick closes that connection then, and no other.
    ensures ticked { map (λ c. is_so (is_late setup.station 16500) (connection setup c (passed tested)))
        (0 ∷ 1 ∷ 8 ∷ []) ≡ true ∷ false ∷ false ∷ [] }
    // TESTFR con ends it, and t3 runs anew.
    ensures confirmed { map (λ now. is_late setup.station now (reached (tested ++ comes (U TestCon) 16499 ∷ [])))
        (16500 ∷ 90000 ∷ []) ≡ false ∷ false ∷ [] }
    ensures anew { map (λ now. due setup now (reached (tested ++ comes (U TestCon) 16499 ∷ [])))
        (25498 ∷ 25499 ∷ []) ≡ None ∷ Some (ToSignal TestAct) ∷ [] }
    ensures back { map (λ now. due setup now (reached (tested ++ comes (U TestCon) 9000 ∷ [])))
        (18499 ∷ 18500 ∷ []) ≡ None ∷ Some (ToSignal TestAct) ∷ [] }
    // STARTDT con is ignored, but t3 runs anew from it.
    ensures ignored { map (λ now. due setup now (reached (connected ++ comes (U StartCon) 800 ∷ [])))
        (9799 ∷ 9800 ∷ []) ≡ None ∷ Some (ToSignal TestAct) ∷ [] }
{}

/// I formats come, and some are put out.
#[tactic(auto, unfolding(iec_command::specs::Commands::command_of, iec_apci::specs::Stream::reading, iec_apci::specs::Stream::answer_at_front, iec_apci::specs::Stream::content_of, iec_asdu::specs::Asdu::asdu_meaning, iec_asdu::specs::Asdu::objects_of, iec_asdu::specs::Asdu::objects_apart, iec_asdu::specs::Spelling::list_spelling, iec_asdu::specs::Packing::packed_spelling, iec_asdu::specs::Packing::taken_of, iec_asdu::specs::Packing::is_in_sequence, iec_asdu::specs::Packing::in_sequence_count, iec_asdu::specs::Packing::apart_count, iec_asdu::specs::Packing::alike_count, iec_asdu::specs::Packing::consecutive_count))]
pub fn receipts_by_example()
    // A receipt is due for the first when t2 has passed, and at once when there are w.
    ensures first { map (λ now. is_receipt_due setup.station now
        (unreceipted (reached (started ++ comes (I 0 0 reading) 1000 ∷ [])).timed)) (3999 ∷ 4000 ∷ [])
        ≡ false ∷ true ∷ [] }
    ensures many { unreceipted (reached read_twice).timed ≡ 1000 ∷ 1500 ∷ [] }
    ensures at_once { is_receipt_due setup.station 1500 (unreceipted (reached read_twice).timed) ≡ true }
    // An I format that is put out acknowledges them too.
    ensures none { unreceipted (reached (read_twice ++ pump 1500 ∷ [])).timed ≡ [] }
    // t1 runs from the oldest that isn't acknowledged.
    ensures since { unacknowledged (reached told_twice).timed ≡ 2000 ∷ 2500 ∷ [] }
    ensures late { map (λ now. is_late setup.station now (reached told_twice)) (8999 ∷ 9000 ∷ []) ≡ false ∷ true ∷ [] }
    ensures next { map (λ now. is_late setup.station now (reached (told_twice ++ comes (S 1) 2600 ∷ [])))
        (9000 ∷ 9499 ∷ 9500 ∷ []) ≡ false ∷ false ∷ true ∷ [] }
    ensures all { map (λ now. is_late setup.station now (reached (told_twice ++ comes (S 2) 2600 ∷ [])))
        (9500 ∷ 90000 ∷ []) ≡ false ∷ false ∷ [] }
{}

/// What a pump gives, in order.
#[tactic(auto, unfolding(iec_command::specs::Commands::command_of, iec_apci::specs::Stream::reading, iec_apci::specs::Stream::answer_at_front, iec_apci::specs::Stream::content_of, iec_asdu::specs::Asdu::asdu_meaning, iec_asdu::specs::Asdu::objects_of, iec_asdu::specs::Asdu::objects_apart, iec_asdu::specs::Spelling::list_spelling, iec_asdu::specs::Packing::packed_spelling, iec_asdu::specs::Packing::taken_of, iec_asdu::specs::Packing::is_in_sequence, iec_asdu::specs::Packing::in_sequence_count, iec_asdu::specs::Packing::apart_count, iec_asdu::specs::Packing::alike_count, iec_asdu::specs::Packing::consecutive_count))]
pub fn pumps_by_example()
    // The confirmation that waits, TESTFR act, the answers to two reads, which acknowledge them, and nothing.
    ensures order { map (λ n. due setup 11000 (reached (read_twice ++ comes (U TestAct) 1600 ∷ pumps n 11000)))
        (0 ∷ 1 ∷ 2 ∷ 3 ∷ 4 ∷ [])
        ≡ Some (ToSignal TestCon) ∷ Some (ToSignal TestAct) ∷ Some ToInform ∷ Some ToInform ∷ None ∷ [] }
    // An I format goes in a session alone, where something is in line.
    ensures stopped { due setup 2000 (reached (connected ++ outstation_up ∷ steps.Fragment event 2000 ∷ [])) ≡ None }
    ensures idle { due setup 2000 (reached started) ≡ None }
    ensures news { due setup 2000 (reached (started ++ steps.Fragment event 2000 ∷ [])) ≡ Some ToInform }
    // Where k aren't acknowledged an S format goes when it is due, by t2 or w; once one is, the next I format.
    ensures full { map (λ now. due setup now (reached full)) (2700 ∷ 5699 ∷ 5700 ∷ [])
        ≡ None ∷ None ∷ Some ToAcknowledge ∷ [] }
    ensures many { due setup 2800 (reached (full ++ comes (I 2 0 reading) 2800 ∷ [])) ≡ Some ToAcknowledge }
    ensures room { due setup 5700 (reached (full ++ comes (S 1) 2800 ∷ [])) ≡ Some ToInform }
{}

/// Why APDUs close a connection, and what is confirmed.
#[tactic(auto, unfolding(iec_command::specs::Commands::command_of, iec_apci::specs::Stream::reading, iec_apci::specs::Stream::answer_at_front, iec_apci::specs::Stream::content_of, iec_asdu::specs::Asdu::asdu_meaning, iec_asdu::specs::Asdu::objects_of, iec_asdu::specs::Asdu::objects_apart, iec_asdu::specs::Spelling::list_spelling, iec_asdu::specs::Packing::packed_spelling, iec_asdu::specs::Packing::taken_of, iec_asdu::specs::Packing::is_in_sequence, iec_asdu::specs::Packing::in_sequence_count, iec_asdu::specs::Packing::apart_count, iec_asdu::specs::Packing::alike_count, iec_asdu::specs::Packing::consecutive_count))]
pub fn closes_by_example()
    // The first cause counts: that no session stands, then a wrong number, then a malformed ASDU.
    ensures stopped { closes_then connected (I 5 5 cut) ≡ Some NotStarted }
    ensures numbers { closes_then started (I 5 0 cut) ≡ Some Sequence }
    ensures malformed { closes_then started (I 0 0 cut) ≡ Some Malformed }
    ensures taken { closes_then started (I 0 0 reading) ≡ None }
    // N(R) names no fewer than the last one did, and no more than were put out.
    ensures ahead { map (λ nr. closes_then told_twice (S nr)) (0 ∷ 1 ∷ 2 ∷ 3 ∷ 32767 ∷ [])
        ≡ None ∷ None ∷ None ∷ Some Sequence ∷ Some Sequence ∷ [] }
    ensures behind { map (λ nr. closes_then (told_twice ++ comes (S 1) 2600 ∷ []) (S nr)) (0 ∷ 1 ∷ 2 ∷ [])
        ≡ Some Sequence ∷ None ∷ None ∷ [] }
    // Confirmations wait in order.
    ensures order { waiting (turns (reached (connected ++ comes (U TestAct) 600 ∷ comes (U StartAct) 600
        ∷ comes (U StartCon) 600 ∷ comes (U StopAct) 600 ∷ pump 600 ∷ []))) ≡ StartCon ∷ StopCon ∷ [] }
    // The 33rd that would wait closes, and what wants none doesn't.
    ensures full { map (λ n. closes_then (flooded n) (U TestAct)) (31 ∷ 32 ∷ []) ≡ None ∷ Some Flooded ∷ [] }
    ensures ignored { closes_then (flooded 32) (U TestCon) ≡ None }
{}

/// Why steps aren't made.
#[tactic(auto, unfolding(iec_command::specs::Commands::command_of, iec_apci::specs::Stream::reading, iec_apci::specs::Stream::answer_at_front, iec_apci::specs::Stream::content_of, iec_asdu::specs::Asdu::asdu_meaning, iec_asdu::specs::Asdu::objects_of, iec_asdu::specs::Asdu::objects_apart, iec_asdu::specs::Spelling::list_spelling, iec_asdu::specs::Packing::packed_spelling, iec_asdu::specs::Packing::taken_of, iec_asdu::specs::Packing::is_in_sequence, iec_asdu::specs::Packing::in_sequence_count, iec_asdu::specs::Packing::apart_count, iec_asdu::specs::Packing::alike_count, iec_asdu::specs::Packing::consecutive_count))]
pub fn faults_by_example()
    // There is one outstation, and there are places for eight clients.
    ensures outstations { map (λ o. fault_then started (steps.OutstationUp o 700)) (0 ∷ 1 ∷ [])
        ≡ Some AlreadyUp ∷ Some NoOutstation ∷ [] }
    ensures clients { map (λ c. fault_then connected (steps.ClientUp c 700)) (0 ∷ 1 ∷ 7 ∷ 8 ∷ [])
        ≡ Some AlreadyUp ∷ None ∷ None ∷ Some NoClient ∷ [] }
    // An outstation is up until it is lost.
    ensures polled { map (λ o. fault_then started (steps.Poll o 700 0)) (0 ∷ 1 ∷ []) ≡ None ∷ Some NoOutstation ∷ [] }
    ensures lost { map (fault_then (started ++ steps.OutstationDown 0 700 ∷ []))
        (steps.Fragment event 800 ∷ steps.OutstationDown 0 800 ∷ steps.OutstationUp 0 800 ∷ [])
        ≡ Some NotUp ∷ Some NotUp ∷ None ∷ [] }
    // A step with a fault brings it up no more than none.
    ensures refused { is_outstation_up 0 refused ≡ false }
    // A client is up until it is lost, an APDU closes its connection, or t1 passes.
    ensures ended { map (λ ss. fault_then (tested ++ ss) (pump 20000)) ([] ∷ (steps.ClientDown 0 9600 ∷ [])
        ∷ (comes (S 1) 9600 ∷ []) ∷ (comes (S 0) 9600 ∷ []) ∷ (steps.Tick 16499 ∷ []) ∷ (steps.Tick 16500 ∷ []) ∷ [])
        ≡ None ∷ Some NotUp ∷ Some NotUp ∷ None ∷ None ∷ Some NotUp ∷ [] }
    ensures others { map (λ c. fault_then tested (steps.Pump c 9600)) (0 ∷ 1 ∷ 8 ∷ [])
        ≡ None ∷ Some NotUp ∷ Some NoClient ∷ [] }
    // Memory is wanted for an interrogation that is accepted, and not for a session that begins.
    ensures session { map (wants_memory setup (passed connected))
        (comes (U StartAct) 700 ∷ comes (U StopAct) 700 ∷ comes (I 0 0 interrogation) 700 ∷ [])
        ≡ false ∷ false ∷ false ∷ [] }
    ensures interrogation { map (wants_memory setup (passed started))
        (comes (I 0 0 interrogation) 700 ∷ comes (I 1 0 interrogation) 700 ∷ comes (I 0 0 reading) 700
        ∷ comes (U StartAct) 700 ∷ []) ≡ true ∷ false ∷ false ∷ false ∷ [] }
    ensures pending { wants_memory setup (passed (started ++ comes (I 0 0 interrogation) 700 ∷ []))
        (comes (I 1 0 interrogation) 700) ≡ false }
    // What is counted: steps, news and losses, sessions, orders.
    ensures made { count one_step setup (passed started) ≡ 4 }
    ensures not_made { count one_step setup refused ≡ 0 }
    ensures news { count news_added setup (passed told_twice) ≡ 2 }
    ensures sessions { count sessions_added setup (passed (started ++ comes (U StartAct) 700 ∷ comes (U StopAct) 700
        ∷ comes (U StartAct) 700 ∷ [])) ≡ 2 }
    ensures orders { count orders_added setup (passed (started ++ comes (I 0 0 set_to_seven) 700
        ∷ comes (I 1 0 reading) 700 ∷ [])) ≡ 1 }
    // The last count of 64 bits can be reached.
    ensures last { map (λ n. is_spent_of (λ setup past step. n) setup (passed connected) (pump 700))
        ((2 ^ 63 - 1) ∷ (2 ^ 63) ∷ []) ≡ false ∷ true ∷ [] }
{}
