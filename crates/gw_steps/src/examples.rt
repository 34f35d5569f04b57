//! Worked runs, computed by the step relation itself.
ghost use Rattle.std.specs.Prelude.{◌≡◌, ◌-◌, ◌++◌, [], ◌∷◌, map, pos, replicate, Some, None, true, false, Ok, Err};
ghost use Rattle.gw_steps.specs.declared.step.Step.TheVariants as steps;
ghost use Rattle.gw_steps.specs.declared.step.Reply.TheVariants as replies;
ghost use Rattle.gw_steps.specs.declared.step.StepFault.TheVariants.{NoOutstation, NoClient, NotUp, AlreadyUp, Spent};
ghost use Rattle.dnp_master.specs.declared.verdict.Verdict.TheVariants as verdicts;
ghost use Rattle.dnp_master.specs.declared.verdict.Ignored.TheVariants.{NoRequest};
ghost use Rattle.iec_apci.specs.declared.why.Why.TheVariants.{Flooded};
ghost use Rattle.dnp_app.specs.Requests.{read_octets, request};
ghost use Rattle.iec_apci.specs.Buffer.{buffer};
ghost use Rattle.iec_apci.specs.declared.apdu.Apdu.TheVariants.{S, U};
ghost use Rattle.iec_apci.specs.declared.apdu.Signal.TheVariants.{StartAct};
ghost use Rattle.gw_control.specs.Example.{after as ordered, sets, setup as with_controls, told};
ghost use Rattle.gw_control.specs.Orders.{nothing_outgoing};
ghost use Rattle.gw_station.specs.declared.event.Said.TheVariants as saids;
ghost use Rattle.gw_steps.specs.Controls.{is_control_up, said_of_outcome};
ghost use Rattle.gw_steps.specs.State.{at_first};
ghost use Rattle.gw_steps.specs.Steps.{needs, outcome, outcomes_of_loss, parts_after_loss};
ghost use Rattle.dnp_app.specs.declared.operation.Operation.TheVariants.{DirectOperate, Select};
ghost use Rattle.dnp_master.specs.declared.task.Task.TheVariants as tasks;
ghost use Rattle.gw_steps.specs.declared.apdu_kind.ApduKind.TheVariants as kinds;
ghost use Rattle.dnp_master.specs.declared.fate.Fate.TheVariants as fates;
ghost use Rattle.gw_steps.specs.Effects.{effects_of, no_client};
ghost use Rattle.gw_steps.specs.Kinds.{kind_in};
ghost use Rattle.gw_steps.specs.Example.{after_steps, ahead, answer, beginning, connect, control_of, counting, down};
ghost use Rattle.gw_steps.specs.Example.{echo, ends, event, first_order, fragment_of, integrity_answer, interrogate};
ghost use Rattle.gw_steps.specs.Example.{interrogated};
ghost use Rattle.gw_steps.specs.Example.{last_count, next_reading, operate, outstation_down, outstation_up, poll};
ghost use Rattle.gw_steps.specs.Example.{pump, pumps, reached, reading, returned, setup, solicited, start, started};
ghost use Rattle.gw_steps.specs.Example.{starting, starts, three_orders, timed, two_clients, unanswered, up};

/// Replies to single steps, with faults before them.
pub fn replies_by_example()
    // Before anything is up.
    ensures no_outstation { outcome setup (at_first setup) (steps.OutstationUp 1 0) ≡ Err NoOutstation }
    ensures no_client { outcome setup (at_first setup) (steps.Pump 8 0) ≡ Err NoClient }
    ensures not_up { outcome setup (at_first setup) (fragment_of event) ≡ Err NotUp }
    ensures client_down { outcome setup (at_first setup) pump ≡ Err NotUp }
    ensures poll_down { outcome setup (at_first setup) poll ≡ Err NotUp }
    ensures down_already { outcome setup (at_first setup) outstation_down ≡ Err NotUp }
    ensures no_poll { outcome setup (at_first setup) (steps.Poll 1 0 0) ≡ Err NoOutstation }
    ensures no_loss { outcome setup (at_first setup) (steps.OutstationDown 1 0) ≡ Err NoOutstation }
    ensures time_passes { outcome setup (at_first setup) (steps.Tick 0) ≡ Ok (replies.Ticked 0) }
    // An outstation can't come up twice.
    ensures twice { outcome setup (reached started) outstation_up ≡ Err AlreadyUp }
    // A count of steps or of news that can't rise; a fault of the actor comes before it.
    ensures last_step { outcome setup (counting last_count 0 (reached started)) pump ≡ Err Spent }
    ensures step_left { outcome setup (counting (last_count - 1) 0 (reached started)) pump ≡ Ok replies.Nothing }
    ensures last_news { outcome setup (counting 0 last_count (reached started)) (fragment_of event) ≡ Err Spent }
    ensures news_left { outcome setup (counting 0 (last_count - 1) (reached started)) (fragment_of event)
        ≡ Ok (replies.Verdict (verdicts.Accepted (Some (0xD0 ∷ 0 ∷ [])) false None)) }
    ensures no_news { outcome setup (counting 0 last_count (reached started)) (fragment_of solicited)
        ≡ Ok (replies.Verdict (verdicts.Ignored NoRequest)) }
    ensures last_loss { outcome setup (counting 0 last_count (reached (started ++ fragment_of event ∷ [])))
        outstation_down ≡ Err Spent }
    ensures nothing_lost { outcome setup (counting 0 last_count (reached started)) outstation_down ≡ Ok replies.Done }
    ensures last_tick { outcome setup (counting last_count 0 (reached started)) (steps.Tick 0) ≡ Err Spent }
    ensures last_session { outcome setup (beginning last_count (reached (connect ∷ []))) start ≡ Err Spent }
    ensures session_goes_on { outcome setup (beginning last_count (reached started)) start ≡ Ok replies.Taken }
    ensures fault_first { outcome setup (counting last_count 0 (reached started)) (steps.Pump 8 0) ≡ Err NoClient }
    // 32 confirmations may wait; a further STARTDT act closes the connection, and the client may connect again.
    ensures most { outcome setup (reached (connect ∷ starts 31)) start ≡ Ok replies.Taken }
    ensures flooded { outcome setup (reached (connect ∷ starts 32)) start ≡ Ok (replies.Closed Flooded) }
    ensures closed { outcome setup (reached (connect ∷ starts 33)) pump ≡ Err NotUp }
    ensures again { outcome setup (reached (connect ∷ starts 33)) connect ≡ Ok replies.Done }
    // A connection that is lost, or closed since t1 ran out; the others stay.
    ensures lost { outcome setup (reached (starting ++ steps.ClientDown 0 0 ∷ [])) pump ≡ Err NotUp }
    ensures lost_twice { outcome setup (reached (connect ∷ steps.ClientDown 0 0 ∷ [])) (steps.ClientDown 0 0)
        ≡ Err NotUp }
    ensures eighth { outcome setup (at_first setup) (steps.ClientUp 7 0) ≡ Ok replies.Done }
    ensures ninth { outcome setup (at_first setup) (steps.ClientUp 8 0) ≡ Err NoClient }
    ensures in_time { outcome setup (reached two_clients) (steps.Tick 14999) ≡ Ok (replies.Ticked 0) }
    ensures run_out { outcome setup (reached two_clients) (steps.Tick 15000) ≡ Ok (replies.Ticked 5) }
    ensures one_runs_out { outcome setup (reached (two_clients ++ steps.Frame 0 (S 1) 0 ∷ [])) (steps.Tick 15000)
        ≡ Ok (replies.Ticked 4) }
    ensures timer { outcome setup (reached (two_clients ++ steps.Tick 15000 ∷ [])) (steps.Pump 2 15000) ≡ Err NotUp }
    // A moment before an earlier one counts as that one.
    ensures moment { (reached (steps.ClientUp 0 9 ∷ steps.Frame 0 (U StartAct) 5 ∷ [])).moment ≡ 9 }
    ensures later_moment { (reached (steps.ClientUp 0 9 ∷ steps.Frame 0 (U StartAct) 12 ∷ [])).moment ≡ 12 }
{}

/// Memory is wanted for an interrogation, and for no other step than an APDU: those that come up and are lost, a
/// fragment, a poll, a pump and a tick want none, at any moment; nor does the STARTDT act that begins a session.
#[tactic(auto, unfolding(iec_command::specs::Commands::command_of))]
pub fn memory_by_example()
    ensures asks { (needs setup (reached started) (interrogate 0)).memory ≡ true }
    ensures begins { (needs setup (reached (steps.ClientUp 0 7 ∷ [])) (steps.Frame 0 (U StartAct) 9)).memory ≡ false }
    ensures goes_on { (needs setup (reached started) (steps.Frame 0 (U StartAct) 9)).memory ≡ false }
    ensures receipt { (needs setup (reached returned) (steps.Frame 0 (S 2) 9)).memory ≡ false }
    ensures others { map (λ step. (needs setup (reached (started ++ fragment_of event ∷ [])) step).memory)
        (steps.Pump 0 9 ∷ steps.Poll 0 9 1700000000000 ∷ steps.Tick 15009 ∷ steps.Fragment reading 9
        ∷ steps.OutstationDown 0 9 ∷ steps.ClientDown 0 9 ∷ steps.ClientUp 1 9 ∷ [])
        ≡ false ∷ false ∷ false ∷ false ∷ false ∷ false ∷ false ∷ [] }
    ensures comes_up { (needs setup (at_first setup) (steps.OutstationUp 0 9)).memory ≡ false }
{}

/// What is put out in runs, and what becomes of their fragments.
#[tactic(auto, unfolding(gw_map::specs::Settings::station_clocks, gw_time::specs::Spelling::tag_showing, gw_time::specs::Spelling::date_after, iec_asdu::specs::Spelling::list_spelling, iec_asdu::specs::Packing::packed_spelling, iec_asdu::specs::Packing::taken_of, iec_asdu::specs::Packing::is_in_sequence, iec_asdu::specs::Packing::in_sequence_count, iec_asdu::specs::Packing::apart_count, iec_asdu::specs::Packing::alike_count, iec_asdu::specs::Packing::consecutive_count))]
pub fn runs_by_example()
    // STARTDT con comes first; a second STARTDT act is confirmed too.
    ensures confirmation { outcome setup (reached starting) pump
        ≡ Ok (replies.Apdu (buffer (0x68 ∷ 4 ∷ 0x0B ∷ 0 ∷ 0 ∷ 0 ∷ []))) }
    ensures second_start { outcome setup (reached (started ++ fragment_of event ∷ start ∷ [])) pump
        ≡ Ok (replies.Apdu (buffer (0x68 ∷ 4 ∷ 0x0B ∷ 0 ∷ 0 ∷ 0 ∷ []))) }
    // The event is accepted and confirmed, its repeat is confirmed again, a solicited response is ignored.
    ensures accepted { outcome setup (reached started) (fragment_of event)
        ≡ Ok (replies.Verdict (verdicts.Accepted (Some (0xD0 ∷ 0 ∷ [])) false None)) }
    ensures repeated { outcome setup (reached (started ++ fragment_of event ∷ [])) (fragment_of event)
        ≡ Ok (replies.Verdict (verdicts.Repeated (Some (0xD0 ∷ 0 ∷ [])))) }
    ensures ignored { outcome setup (reached started) (fragment_of solicited)
        ≡ Ok (replies.Verdict (verdicts.Ignored NoRequest)) }
    // Its one news is put out once, with N(S) 0, and then nothing.
    ensures news { outcome setup (reached (started ++ fragment_of event ∷ fragment_of event ∷ [])) pump
        ≡ Ok (replies.Apdu (buffer (0x68 ∷ 0x0E ∷ 0 ∷ 0 ∷ 0 ∷ 0
        ∷ 1 ∷ 1 ∷ 3 ∷ 0 ∷ 1 ∷ 0 ∷ 0x05 ∷ 0x10 ∷ 0 ∷ 0x01 ∷ []))) }
    ensures nothing { outcome setup (reached (started ++ fragment_of event ∷ fragment_of event ∷ pump ∷ [])) pump
        ≡ Ok replies.Nothing }
    // A static analog value that differs from what was shown is put out as a scaled value, with N(S) 1 behind other
    // news; the same in the next fragment is no news.
    ensures reading { outcome setup (reached (started ++ fragment_of event ∷ fragment_of reading ∷ pump ∷ [])) pump
        ≡ Ok (replies.Apdu (buffer (0x68 ∷ 0x10 ∷ 2 ∷ 0 ∷ 0 ∷ 0
        ∷ 0x0B ∷ 1 ∷ 3 ∷ 0 ∷ 1 ∷ 0 ∷ 0x69 ∷ 0x10 ∷ 0 ∷ 7 ∷ 0 ∷ 0 ∷ []))) }
    ensures same_reading { outcome setup
        (reached (started ++ fragment_of reading ∷ fragment_of next_reading ∷ pump ∷ [])) pump ≡ Ok replies.Nothing }
    // A second STARTDT act keeps the queue; a connection that was closed doesn't.
    ensures goes_on { outcome setup (reached (started ++ fragment_of event ∷ start ∷ pump ∷ [])) pump
        ≡ Ok (replies.Apdu (buffer (0x68 ∷ 0x0E ∷ 0 ∷ 0 ∷ 0 ∷ 0
        ∷ 1 ∷ 1 ∷ 3 ∷ 0 ∷ 1 ∷ 0 ∷ 0x05 ∷ 0x10 ∷ 0 ∷ 0x01 ∷ []))) }
    ensures starts_anew { outcome setup
        (reached (started ++ fragment_of event ∷ starts 33 ++ connect ∷ start ∷ pump ∷ [])) pump ≡ Ok replies.Nothing }
    // A loss is told of what was shown good, once; then the outstation comes up and is polled, and what it answers is
    // told.
    ensures lost { outcome setup (reached (started ++ fragment_of event ∷ pump ∷ outstation_down ∷ [])) pump
        ≡ Ok (replies.Apdu (buffer (0x68 ∷ 0x0E ∷ 2 ∷ 0 ∷ 0 ∷ 0
        ∷ 1 ∷ 1 ∷ 3 ∷ 0 ∷ 1 ∷ 0 ∷ 0x05 ∷ 0x10 ∷ 0 ∷ 0x41 ∷ []))) }
    ensures lost_once { outcome setup (reached returned) pump ≡ Ok replies.Nothing }
    ensures polled { outcome setup (reached returned) poll ≡ Ok (replies.Request (request (read_octets true 0))) }
    ensures polled_once { outcome setup (reached (returned ++ poll ∷ [])) poll ≡ Ok replies.Nothing }
    ensures answered { outcome setup (reached (returned ++ poll ∷ [])) (fragment_of integrity_answer)
        ≡ Ok (replies.Verdict (verdicts.Accepted None true None)) }
    ensures back { outcome setup (reached (returned ++ poll ∷ fragment_of integrity_answer ∷ [])) pump
        ≡ Ok (replies.Apdu (buffer (0x68 ∷ 0x0E ∷ 4 ∷ 0 ∷ 0 ∷ 0
        ∷ 1 ∷ 1 ∷ 3 ∷ 0 ∷ 1 ∷ 0 ∷ 0x05 ∷ 0x10 ∷ 0 ∷ 0x01 ∷ []))) }
    // A moment that goes back counts as the largest so far: 5 seconds after 9 the request is late, not before.
    ensures late { outcome setup (reached (outstation_up ∷ steps.Tick 9 ∷ poll ∷ steps.Tick 5008 ∷ []))
        (fragment_of integrity_answer) ≡ Ok (replies.Verdict (verdicts.Accepted None true None)) }
    ensures too_late { outcome setup (reached (outstation_up ∷ steps.Tick 9 ∷ poll ∷ steps.Tick 5009 ∷ []))
        (fragment_of integrity_answer) ≡ Ok (replies.Verdict (verdicts.Ignored NoRequest)) }
    // An event's time, at a station whose clocks are an hour ahead of UTC: 23:13:20 on 14 November 2023.
    ensures timed { outcome ahead (after_steps ahead (at_first ahead) (started ++ fragment_of timed ∷ [])) pump
        ≡ Ok (replies.Apdu (buffer (0x68 ∷ 0x15 ∷ 0 ∷ 0 ∷ 0 ∷ 0
        ∷ 0x1E ∷ 1 ∷ 3 ∷ 0 ∷ 1 ∷ 0 ∷ 0x05 ∷ 0x10 ∷ 0 ∷ 0x01
        ∷ 0x20 ∷ 0x4E ∷ 0x0D ∷ 0x17 ∷ 0x0E ∷ 0x0B ∷ 0x17 ∷ []))) }
{}

/// A station interrogation while news wait: older news, its confirmation, the picture of its moment, its termination,
/// and then later news.
#[tactic(auto, unfolding(iec_command::specs::Commands::command_of, iec_asdu::specs::Spelling::list_spelling, iec_asdu::specs::Packing::packed_spelling, iec_asdu::specs::Packing::taken_of, iec_asdu::specs::Packing::is_in_sequence, iec_asdu::specs::Packing::in_sequence_count, iec_asdu::specs::Packing::apart_count, iec_asdu::specs::Packing::alike_count, iec_asdu::specs::Packing::consecutive_count))]
pub fn interrogations_by_example()
    ensures taken { outcome setup (reached (started ++ fragment_of event ∷ [])) (interrogate 0) ≡ Ok replies.Taken }
    ensures older { outcome setup (reached interrogated) pump ≡ Ok (replies.Apdu (buffer (0x68 ∷ 0x0E ∷ 0 ∷ 0 ∷ 2 ∷ 0
        ∷ 1 ∷ 1 ∷ 3 ∷ 0 ∷ 1 ∷ 0 ∷ 0x05 ∷ 0x10 ∷ 0 ∷ 0x01 ∷ []))) }
    ensures confirmed { outcome setup (reached (interrogated ++ pumps 1)) pump
        ≡ Ok (replies.Apdu (buffer (0x68 ∷ 0x0E ∷ 2 ∷ 0 ∷ 2 ∷ 0
        ∷ 0x64 ∷ 1 ∷ 7 ∷ 0 ∷ 1 ∷ 0 ∷ 0 ∷ 0 ∷ 0 ∷ 0x14 ∷ []))) }
    ensures first_row { outcome setup (reached (interrogated ++ pumps 2)) pump
        ≡ Ok (replies.Apdu (buffer (0x68 ∷ 0x0E ∷ 4 ∷ 0 ∷ 2 ∷ 0
        ∷ 1 ∷ 1 ∷ 0x14 ∷ 0 ∷ 1 ∷ 0 ∷ 0x05 ∷ 0x10 ∷ 0 ∷ 0x01 ∷ []))) }
    // As it was shown at the act, before the reading came.
    ensures second_row { outcome setup (reached (interrogated ++ pumps 3)) pump
        ≡ Ok (replies.Apdu (buffer (0x68 ∷ 0x10 ∷ 6 ∷ 0 ∷ 2 ∷ 0
        ∷ 0x0B ∷ 1 ∷ 0x14 ∷ 0 ∷ 1 ∷ 0 ∷ 0x69 ∷ 0x10 ∷ 0 ∷ 0 ∷ 0 ∷ 0xC0 ∷ []))) }
    ensures terminated { outcome setup (reached (interrogated ++ pumps 4)) pump
        ≡ Ok (replies.Apdu (buffer (0x68 ∷ 0x0E ∷ 8 ∷ 0 ∷ 2 ∷ 0
        ∷ 0x64 ∷ 1 ∷ 0x0A ∷ 0 ∷ 1 ∷ 0 ∷ 0 ∷ 0 ∷ 0 ∷ 0x14 ∷ []))) }
    ensures later { outcome setup (reached (interrogated ++ pumps 5)) pump
        ≡ Ok (replies.Apdu (buffer (0x68 ∷ 0x10 ∷ 0x0A ∷ 0 ∷ 2 ∷ 0
        ∷ 0x0B ∷ 1 ∷ 3 ∷ 0 ∷ 1 ∷ 0 ∷ 0x69 ∷ 0x10 ∷ 0 ∷ 7 ∷ 0 ∷ 0 ∷ []))) }
    ensures nothing { outcome setup (reached (interrogated ++ pumps 6)) pump ≡ Ok replies.Nothing }
    // A second one meanwhile is confirmed negatively, and a command without a control comes back.
    ensures second { outcome setup (reached (started ++ interrogate 0 ∷ interrogate 1 ∷ [])) pump
        ≡ Ok (replies.Apdu (buffer (0x68 ∷ 0x0E ∷ 0 ∷ 0 ∷ 4 ∷ 0
        ∷ 0x64 ∷ 1 ∷ 0x47 ∷ 0 ∷ 1 ∷ 0 ∷ 0 ∷ 0 ∷ 0 ∷ 0x14 ∷ []))) }
    ensures unknown { outcome setup (reached (started ++ operate ∷ [])) pump
        ≡ Ok (replies.Apdu (buffer (0x68 ∷ 0x0E ∷ 0 ∷ 0 ∷ 2 ∷ 0
        ∷ 0x2D ∷ 1 ∷ 0x6F ∷ 0 ∷ 1 ∷ 0 ∷ 0x89 ∷ 0x13 ∷ 0 ∷ 0x81 ∷ []))) }
    // Memory is wanted for the act alone that is accepted.
    ensures memory { (needs setup (reached started) (interrogate 0)).memory ≡ true }
    ensures no_memory { (needs setup (reached (started ++ interrogate 0 ∷ [])) (interrogate 1)).memory ≡ false }
{}

/// Commands for controls and their orders.
pub fn controls_by_example()
    // Of two outstations the second one is up.
    ensures up { map (λ o. is_control_up (down ∷ up ∷ []) (Some (0, control_of o))) (0 ∷ 1 ∷ 2 ∷ [])
        ≡ false ∷ true ∷ false ∷ [] }
    // What a client is told of its order, done or failed.
    ensures outcomes { map said_of_outcome (told 0 (pos 1) true ∷ told 0 (pos 1) false ∷ [])
        ≡ saids.Done ∷ saids.Failed ∷ [] }
    // The outstation is lost: the order under way fails, and then all that wait, the oldest first.
    ensures lost { outcomes_of_loss three_orders 0
        ≡ told 0 (pos 1) false ∷ told 1 (pos 2) false ∷ told 1 (pos 3) false ∷ [] }
    ensures none_left { (parts_after_loss with_controls three_orders 0).controls.outgoing ≡ nothing_outgoing ∷ [] }
{}

/// What becomes of orders: the one of client 0 that is under way, and two of client 1 that wait.
#[tactic(auto, unfolding(dnp_objects::specs::Headers::headers_from, dnp_objects::specs::Library::object_of))]
pub fn fates_by_example()
    ensures done { ends false (answer (echo 0)) ≡ (1, (0, fates.Done)) ∷ [] }
    ensures refused { ends false (answer (echo 7)) ≡ (1, (0, fates.Refused DirectOperate 7)) ∷ [] }
    ensures otherwise { ends false (answer []) ≡ (1, (0, fates.Otherwise DirectOperate)) ∷ [] }
    // SELECT that succeeds ends nothing; one that fails ends the order.
    ensures selected { ends true (answer (echo 0)) ≡ [] }
    ensures not_selected { ends true (answer (echo 4)) ≡ (1, (0, fates.Refused Select 4)) ∷ [] }
    // Answers are awaited for 5 seconds.
    ensures in_time { ends true (steps.Tick 4999) ≡ [] }
    ensures late { ends true (steps.Tick 5000) ≡ (1, (0, fates.Unanswered Select)) ∷ [] }
    ensures unanswered { map unanswered (steps.Tick 4999 ∷ steps.Tick 5000 ∷ []) ≡ [] ∷ (0 ∷ []) ∷ [] }
    ensures lost { ends true outstation_down
        ≡ (1, (0, fates.Lost)) ∷ (2, (1, fates.Lost)) ∷ (3, (1, fates.Lost)) ∷ [] }
    // What is under way goes on where its client leaves; of another outstation nothing ends.
    ensures let_go { ends true (steps.ClientDown 1 0) ≡ (2, (1, fates.LetGo)) ∷ (3, (1, fates.LetGo)) ∷ [] }
    ensures goes_on { ends true (steps.ClientDown 0 0) ≡ [] }
    ensures of_another { ends true (steps.OutstationDown 1 0) ≡ [] }
{}

/// What comes by steps: what an APDU is, the task of a request, and what a fragment says.
#[tactic(auto, unfolding(iec_command::specs::Commands::command_of))]
pub fn comings_by_example()
    ensures start { (effects_of setup (reached (connect ∷ [])) start).apdu ≡ Some (kinds.UFormat StartAct) }
    // Clock synchronization, which isn't taken, without an address.
    ensures unknown { kind_in (103 ∷ 1 ∷ 6 ∷ 0 ∷ 1 ∷ 0 ∷ [])
        ≡ kinds.Unknown (record { identification = 103; common_address = 1; address = None }) }
    ensures interrogates { kind_in (100 ∷ 1 ∷ 6 ∷ 0 ∷ 1 ∷ 0 ∷ 0 ∷ 0 ∷ 0 ∷ 20 ∷ []) ≡ kinds.Other }
    ensures polled { (effects_of setup (reached returned) poll).task ≡ Some tasks.Integrity }
    // An order that waits is given before the integrity poll that is due.
    ensures ordered { (effects_of with_controls (record (at_first with_controls) {
      outstations = up ∷ [];
      controls = ordered (sets 0 (pos 1) ∷ []);
    }) poll).task ≡ Some (tasks.Command Select (first_order true)) }
    ensures answered { (effects_of setup (reached (returned ++ poll ∷ [])) (fragment_of integrity_answer)).reported
        ≡ Some (record {
          answers = Some tasks.Integrity;
          indications = 0 ∷ 0 ∷ [];
          is_unsolicited = false;
          observations = 1;
          events = 0;
        }) }
    ensures news { (effects_of setup (reached started) (fragment_of event)).news ≡ 1 }
    ensures repeated { (effects_of setup (reached (started ++ fragment_of event ∷ [])) (fragment_of event)).reported ≡ None }
{}

/// Who may have something to do: client 0 behind an event, and nobody behind its repetition; the outstation once it comes up,
/// and as time passes while a request is due to it, but not while it is asked.
pub fn rousing_by_example()
    ensures event { (effects_of setup (reached started) (fragment_of event)).due_clients ≡ true ∷ replicate 7 false }
    ensures repeated { (effects_of setup (reached (started ++ fragment_of event ∷ [])) (fragment_of event)).due_clients
        ≡ no_client }
    ensures pump { (effects_of setup (reached (started ++ fragment_of event ∷ [])) pump).due_clients ≡ no_client }
    ensures comes_up { (effects_of setup (at_first setup) outstation_up).due_outstations ≡ 0 ∷ [] }
    ensures due { (effects_of setup (reached (outstation_up ∷ [])) (steps.Tick 0)).due_outstations ≡ 0 ∷ [] }
    ensures asked { (effects_of setup (reached (outstation_up ∷ poll ∷ [])) (steps.Tick 0)).due_outstations ≡ [] }
{}
