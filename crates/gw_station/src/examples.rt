//! Worked examples, computed by the definitions.
ghost use Rattle.std.specs.Prelude.{◌≡◌, [], ◌∷◌, map, length, true, false, Some, None};
ghost use Rattle.gw_model.specs.Clocks.{utc};
ghost use Rattle.iec_apci.specs.declared.apdu.Apdu.TheVariants.{I, S, U};
ghost use Rattle.iec_apci.specs.declared.apdu.Signal.TheVariants.{StartAct, StartCon, StopAct, StopCon, TestAct, TestCon};
ghost use Rattle.iec_apci.specs.Apdu.{Information, Supervisory, Unnumbered};
ghost use Rattle.iec_window.specs.Examples.{usual};
ghost use Rattle.gw_station.specs.declared.client.Stage.TheVariants.{Down, Started, Stopped};
ghost use Rattle.gw_station.specs.declared.event.Event.TheVariants.{Closed, Taken};
ghost use Rattle.iec_apci.specs.declared.why.Why.TheVariants.{Flooded, Malformed, NotStarted, Sequence};
ghost use Rattle.gw_station.specs.Client.{client_after_close, client_after_tick, client_after_up};
ghost use Rattle.gw_station.specs.Client.{client_down, client_with_news, is_timed_out};
ghost use Rattle.gw_station.specs.Frames.{begins, client_after_apdu, close_of, event_of};
ghost use Rattle.gw_station.specs.Pump.{given};
ghost use Rattle.iec_command.specs.declared.command.Action.{Action};
ghost use Rattle.iec_command.specs.Example.{command as command_for};
ghost use Rattle.gw_judge.specs.Example.{of_none, setup};
ghost use Rattle.gw_answers.specs.Outgoing.{command_with};
ghost use Rattle.gw_station.specs.declared.event.Said.TheVariants as said;
ghost use Rattle.gw_station.specs.Answers.{held_with, told};
ghost use Rattle.gw_station.specs.Example.{acknowledged, all_asked, command, connected, cut, execute, header_alone};
ghost use Rattle.gw_station.specs.Example.{interrogated, interrogation, interrogation_of_all, interrogation_of_second};
ghost use Rattle.gw_station.specs.Example.{reading, reads, pushed_out, second_on, narrow, narrow_full, narrowest};
ghost use Rattle.gw_station.specs.Example.{overflown, pumped, started, started_from, switched_off, switched_on};
ghost use Rattle.gw_station.specs.Example.{taking, taking_in, taking_of_two, tested, waiting, execute_unknown};

/// STARTDT, STOPDT and TESTFR.
#[tactic(auto, unfolding(iec_asdu::specs::Spelling::list_spelling, iec_asdu::specs::Packing::packed_spelling, iec_asdu::specs::Packing::taken_of, iec_asdu::specs::Packing::is_in_sequence, iec_asdu::specs::Packing::in_sequence_count, iec_asdu::specs::Packing::apart_count, iec_asdu::specs::Packing::alike_count, iec_asdu::specs::Packing::consecutive_count))]
pub fn control_functions()
    // Nothing before STARTDT act; then its confirmation; then nothing, or what waits.
    ensures stopped { given utc 0 connected ≡ None }
    ensures confirmation { given utc 0 (taking 0 (U StartAct ∷ []) connected) ≡ Some (Unnumbered StartCon) }
    ensures nothing { given utc 0 started ≡ None }
    // A second STARTDT act is confirmed before the news, and the session goes on.
    ensures twice { given utc 0 (taking 0 (U StartAct ∷ []) waiting) ≡ Some (Unnumbered StartCon) }
    ensures goes_on { (taking 0 (U StartAct ∷ []) waiting).queue ≡ switched_on ∷ [] }
    ensures begins { map (begins (U StartAct)) (connected ∷ started ∷ tested 32 connected ∷ [])
        ≡ true ∷ false ∷ false ∷ [] }
    // News that come before STARTDT act aren't kept.
    ensures unheard { (client_with_news (switched_on ∷ []) connected).queue ≡ [] }
    // STOPDT act is confirmed and ends the session: what waits is gone, and its numbers go on. Without a session it is
    // confirmed too.
    ensures stop { given utc 0 (taking 0 (U StopAct ∷ []) waiting) ≡ Some (Unnumbered StopCon) }
    ensures stops { (taking 0 (U StopAct ∷ []) waiting).queue ≡ [] }
    ensures numbers { given utc 0 (client_with_news (switched_on ∷ [])
        (pumped 0 2 (taking 0 (U StopAct ∷ U StartAct ∷ []) (pumped 0 1 waiting))))
        ≡ Some (Information 1 0 (1 ∷ 1 ∷ 3 ∷ 0 ∷ 1 ∷ 0 ∷ 0x05 ∷ 0x10 ∷ 0 ∷ 1 ∷ [])) }
    ensures not_started { (taking 0 (U StopAct ∷ []) connected).stage ≡ Stopped }
    ensures stop_twice { given utc 0 (taking 0 (U StopAct ∷ []) connected) ≡ Some (Unnumbered StopCon) }
    // Confirmations wait in order, over STOPDT too.
    ensures in_order { (taking 0 (U TestAct ∷ U StopAct ∷ U StartAct ∷ []) started).confirmations
        ≡ TestCon ∷ StopCon ∷ StartCon ∷ [] }
    // Confirmations from the client are taken, and change nothing but t3.
    ensures ignored { (taking 0 (U StartCon ∷ U StopCon ∷ U TestCon ∷ []) started) ≡ started }
    // 32 confirmations may wait.
    ensures most { event_of setup (U TestAct) (tested 31 started) ≡ Taken }
    ensures flooded { event_of setup (U TestAct) (tested 32 started) ≡ Closed Flooded }
    ensures not_flooded { event_of setup (U TestCon) (tested 32 started) ≡ Taken }
    ensures closed { (tested 33 started).stage ≡ Down }
{}

/// Two news may wait: of three the first is dropped and counted, and those that wait are put out in order. A session
/// that begins anew has none of it.
#[tactic(auto, unfolding(iec_asdu::specs::Spelling::list_spelling, iec_asdu::specs::Packing::packed_spelling, iec_asdu::specs::Packing::taken_of, iec_asdu::specs::Packing::is_in_sequence, iec_asdu::specs::Packing::in_sequence_count, iec_asdu::specs::Packing::apart_count, iec_asdu::specs::Packing::alike_count, iec_asdu::specs::Packing::consecutive_count))]
pub fn overflows()
    ensures keeps_last { overflown.queue ≡ switched_off ∷ switched_off ∷ [] }
    ensures counts { overflown.dropped ≡ 1 }
    ensures in_turn { client_with_news (switched_off ∷ [])
        (client_with_news (switched_on ∷ switched_off ∷ []) (started_from (client_down usual 2))) ≡ overflown }
    ensures room { (client_with_news (switched_on ∷ []) (pumped 0 1 overflown)).queue ≡ switched_on ∷ [] }
    ensures dropped_once { (client_with_news (switched_on ∷ []) (pumped 0 1 overflown)).dropped ≡ 1 }
    ensures more_than_fit { (client_with_news (switched_on ∷ switched_on ∷ switched_on ∷ []) overflown).dropped ≡ 4 }
    ensures anew { (taking 0 (U StopAct ∷ U StartAct ∷ []) overflown).queue ≡ [] }
    ensures none_dropped { (taking 0 (U StopAct ∷ U StartAct ∷ []) overflown).dropped ≡ 0 }
{}

/// I and S formats.
#[tactic(auto, unfolding(iec_command::specs::Commands::command_of, iec_asdu::specs::Spelling::list_spelling, iec_asdu::specs::Packing::packed_spelling, iec_asdu::specs::Packing::taken_of, iec_asdu::specs::Packing::is_in_sequence, iec_asdu::specs::Packing::in_sequence_count, iec_asdu::specs::Packing::apart_count, iec_asdu::specs::Packing::alike_count, iec_asdu::specs::Packing::consecutive_count))]
pub fn numbered_formats()
    // News with N(S) 0, then 1; N(R) counts what came.
    ensures news { given utc 0 waiting ≡ Some (Information 0 0 (1 ∷ 1 ∷ 3 ∷ 0 ∷ 1 ∷ 0 ∷ 0x05 ∷ 0x10 ∷ 0 ∷ 1 ∷ [])) }
    ensures more_news { given utc 0
        (taking 0 (I 0 1 command ∷ []) (client_with_news (switched_on ∷ []) (pumped 0 1 waiting)))
        ≡ Some (Information 1 1 (1 ∷ 1 ∷ 3 ∷ 0 ∷ 1 ∷ 0 ∷ 0x05 ∷ 0x10 ∷ 0 ∷ 1 ∷ [])) }
    // Two news in one ASDU; those behind an interrogation go apart from those before it.
    ensures packed { given utc 0 (client_with_news (switched_off ∷ []) waiting)
        ≡ Some (Information 0 0 (1 ∷ 2 ∷ 3 ∷ 0 ∷ 1 ∷ 0 ∷ 0x05 ∷ 0x10 ∷ 0 ∷ 1 ∷ 0x05 ∷ 0x10 ∷ 0 ∷ 0 ∷ [])) }
    ensures all_gone { (pumped 0 1 (client_with_news (switched_off ∷ []) waiting)).queue ≡ [] }
    ensures apart { (pumped 0 1 (client_with_news (switched_off ∷ []) (interrogated waiting))).queue
        ≡ switched_off ∷ [] }
    // So do those of another common address.
    ensures by_address { given utc 0 (client_with_news (second_on ∷ []) waiting)
        ≡ Some (Information 0 0 (1 ∷ 1 ∷ 3 ∷ 0 ∷ 1 ∷ 0 ∷ 0x05 ∷ 0x10 ∷ 0 ∷ 1 ∷ [])) }
    ensures other_address { given utc 0 (pumped 0 1 (client_with_news (second_on ∷ []) waiting))
        ≡ Some (Information 1 0 (1 ∷ 1 ∷ 3 ∷ 0 ∷ 2 ∷ 0 ∷ 0x05 ∷ 0x10 ∷ 0 ∷ 1 ∷ [])) }
    // An I format closes: without a session; with a wrong number; with fewer than 6 octets. In that order.
    ensures first { close_of setup (I 1 1 cut) connected ≡ Some NotStarted }
    ensures second { close_of setup (I 1 0 cut) started ≡ Some Sequence }
    ensures second_receive { close_of setup (I 0 1 cut) started ≡ Some Sequence }
    ensures third { close_of setup (I 0 0 cut) started ≡ Some Malformed }
    ensures none { close_of setup (I 0 0 header_alone) started ≡ None }
    ensures repeated { close_of setup (I 0 0 header_alone) (taking 0 (I 0 0 header_alone ∷ []) started)
        ≡ Some Sequence }
    // An S format is judged by its number alone, started or not.
    ensures receipt { close_of setup (S 0) connected ≡ None }
    ensures beyond { close_of setup (S 1) connected ≡ Some Sequence }
    ensures acknowledged { close_of setup (S 1) (pumped 0 1 waiting) ≡ None }
    ensures closes { taking 0 (S 1 ∷ []) started ≡ client_after_close started }
{}

/// The windows k and w, and the timers.
#[tactic(auto, unfolding(iec_command::specs::Commands::command_of, iec_asdu::specs::Spelling::list_spelling, iec_asdu::specs::Packing::packed_spelling, iec_asdu::specs::Packing::taken_of, iec_asdu::specs::Packing::is_in_sequence, iec_asdu::specs::Packing::in_sequence_count, iec_asdu::specs::Packing::apart_count, iec_asdu::specs::Packing::alike_count, iec_asdu::specs::Packing::consecutive_count))]
pub fn windows_and_timers()
    // t3: TESTFR act once, before news; t1 runs from it, and ends by its confirmation.
    ensures quiet { given utc 19999 started ≡ None }
    ensures test { given utc 20000 waiting ≡ Some (Unnumbered TestAct) }
    ensures test_once { given utc 20000 (pumped 20000 1 started) ≡ None }
    ensures t1 { map (λ moment. is_timed_out moment (pumped 20000 1 started)) (34999 ∷ 35000 ∷ [])
        ≡ false ∷ true ∷ [] }
    ensures answered { is_timed_out 35000 (taking 34000 (U TestCon ∷ []) (pumped 20000 1 started)) ≡ false }
    ensures unanswered { is_timed_out 35000 (taking 34000 (U TestAct ∷ []) (pumped 20000 1 started)) ≡ true }
    ensures timer { (client_after_tick 35000 (pumped 20000 1 started)).stage ≡ Down }
    ensures down { is_timed_out 35000 (client_after_close (pumped 20000 1 started)) ≡ false }
    // k: two wait, so the third isn't put out; w: one I format isn't enough for an S format, but t2 is.
    ensures full { map (λ moment. given utc moment narrow_full) (0 ∷ 9999 ∷ 10000 ∷ [])
        ≡ None ∷ None ∷ Some (Supervisory 1) ∷ [] }
    ensures full_w { given utc 0 (taking 0 (I 1 0 command ∷ []) narrow_full) ≡ Some (Supervisory 2) }
    ensures room { given utc 0 (taking 0 (S 1 ∷ []) narrow_full)
        ≡ Some (Information 2 1 (1 ∷ 1 ∷ 3 ∷ 0 ∷ 1 ∷ 0 ∷ 0x05 ∷ 0x10 ∷ 0 ∷ 1 ∷ [])) }
    ensures receipted { given utc 10000 (pumped 10000 1 narrow_full) ≡ None }
    ensures runs_out { map (λ moment. is_timed_out moment narrow_full) (14999 ∷ 15000 ∷ []) ≡ false ∷ true ∷ [] }
    // A connection begins with nothing of the one before.
    ensures anew { client_after_up 0 (client_after_close narrow_full) ≡ client_after_up 0 narrow }
{}

/// The answer to an interrogation, with N(R) 1: confirmation, rows, termination.
#[tactic(auto, unfolding(iec_command::specs::Commands::command_of, iec_asdu::specs::Spelling::list_spelling, iec_asdu::specs::Packing::packed_spelling, iec_asdu::specs::Packing::taken_of, iec_asdu::specs::Packing::is_in_sequence, iec_asdu::specs::Packing::in_sequence_count, iec_asdu::specs::Packing::apart_count, iec_asdu::specs::Packing::alike_count, iec_asdu::specs::Packing::consecutive_count))]
pub fn interrogations()
    ensures confirmation { given utc 0 (interrogated started)
        ≡ Some (Information 0 1 (0x64 ∷ 1 ∷ 7 ∷ 0 ∷ 1 ∷ 0 ∷ 0 ∷ 0 ∷ 0 ∷ 0x14 ∷ [])) }
    ensures first_row { given utc 0 (pumped 0 1 (interrogated started))
        ≡ Some (Information 1 1 (1 ∷ 1 ∷ 0x14 ∷ 0 ∷ 1 ∷ 0 ∷ 5 ∷ 0x10 ∷ 0 ∷ 0xC0 ∷ [])) }
    ensures second_row { given utc 0 (pumped 0 2 (interrogated started))
        ≡ Some (Information 2 1 (0x0B ∷ 1 ∷ 0x14 ∷ 0 ∷ 1 ∷ 0 ∷ 0x69 ∷ 0x10 ∷ 0 ∷ 0 ∷ 0 ∷ 0xC0 ∷ [])) }
    ensures termination { given utc 0 (pumped 0 3 (interrogated started))
        ≡ Some (Information 3 1 (0x64 ∷ 1 ∷ 0x0A ∷ 0 ∷ 1 ∷ 0 ∷ 0 ∷ 0 ∷ 0 ∷ 0x14 ∷ [])) }
    ensures nothing { given utc 0 (pumped 0 4 (interrogated started)) ≡ None }
    // A second one is refused, before the parts that are left; behind the termination it is accepted.
    ensures second { given utc 0 (taking 0 (I 1 1 interrogation ∷ []) (pumped 0 1 (interrogated started)))
        ≡ Some (Information 1 2 (0x64 ∷ 1 ∷ 0x47 ∷ 0 ∷ 1 ∷ 0 ∷ 0 ∷ 0 ∷ 0 ∷ 0x14 ∷ [])) }
    ensures again { given utc 0 (taking 0 (I 1 4 interrogation ∷ []) (pumped 0 4 (interrogated started)))
        ≡ Some (Information 4 2 (0x64 ∷ 1 ∷ 7 ∷ 0 ∷ 1 ∷ 0 ∷ 0 ∷ 0 ∷ 0 ∷ 0x14 ∷ [])) }
    // News that came before it come first, later ones last.
    ensures older_first { given utc 0 (client_with_news (switched_off ∷ []) (interrogated waiting))
        ≡ Some (Information 0 1 (1 ∷ 1 ∷ 3 ∷ 0 ∷ 1 ∷ 0 ∷ 5 ∷ 0x10 ∷ 0 ∷ 1 ∷ [])) }
    ensures then_answer { given utc 0 (pumped 0 1 (client_with_news (switched_off ∷ []) (interrogated waiting)))
        ≡ Some (Information 1 1 (0x64 ∷ 1 ∷ 7 ∷ 0 ∷ 1 ∷ 0 ∷ 0 ∷ 0 ∷ 0 ∷ 0x14 ∷ [])) }
    ensures later_last { given utc 0 (pumped 0 5 (client_with_news (switched_off ∷ []) (interrogated waiting)))
        ≡ Some (Information 5 1 (1 ∷ 1 ∷ 3 ∷ 0 ∷ 1 ∷ 0 ∷ 5 ∷ 0x10 ∷ 0 ∷ 0 ∷ [])) }
    // Of two older ones the first was pushed out.
    ensures pushed_out { given utc 0 pushed_out
        ≡ Some (Information 0 1 (1 ∷ 1 ∷ 3 ∷ 0 ∷ 1 ∷ 0 ∷ 5 ∷ 0x10 ∷ 0 ∷ 0 ∷ [])) }
    ensures not_another { given utc 0 (pumped 0 1 pushed_out)
        ≡ Some (Information 1 1 (0x64 ∷ 1 ∷ 7 ∷ 0 ∷ 1 ∷ 0 ∷ 0 ∷ 0 ∷ 0 ∷ 0x14 ∷ [])) }
    // STOPDT ends it.
    ensures stopped { (taking 0 (U StopAct ∷ []) (interrogated started)).rest ≡ [] }
    ensures closed { (client_after_close (interrogated started)).rest ≡ [] }
{}

/// Two outstations have the common addresses 1 and 2, and each has a single-point information 4101. The answer to an
/// interrogation of all stations (65535) has a confirmation, the rows and a termination for each, with N(R) 1.
#[tactic(auto, unfolding(iec_command::specs::Commands::command_of, iec_asdu::specs::Spelling::list_spelling, iec_asdu::specs::Packing::packed_spelling, iec_asdu::specs::Packing::taken_of, iec_asdu::specs::Packing::is_in_sequence, iec_asdu::specs::Packing::in_sequence_count, iec_asdu::specs::Packing::apart_count, iec_asdu::specs::Packing::alike_count, iec_asdu::specs::Packing::consecutive_count))]
pub fn interrogations_of_all()
    ensures first_confirmation { given utc 0 (all_asked started)
        ≡ Some (Information 0 1 (0x64 ∷ 1 ∷ 7 ∷ 0 ∷ 1 ∷ 0 ∷ 0 ∷ 0 ∷ 0 ∷ 0x14 ∷ [])) }
    ensures first_row { given utc 0 (pumped 0 1 (all_asked started))
        ≡ Some (Information 1 1 (1 ∷ 1 ∷ 0x14 ∷ 0 ∷ 1 ∷ 0 ∷ 5 ∷ 0x10 ∷ 0 ∷ 0xC0 ∷ [])) }
    ensures first_termination { given utc 0 (pumped 0 2 (all_asked started))
        ≡ Some (Information 2 1 (0x64 ∷ 1 ∷ 0x0A ∷ 0 ∷ 1 ∷ 0 ∷ 0 ∷ 0 ∷ 0 ∷ 0x14 ∷ [])) }
    ensures second_confirmation { given utc 0 (pumped 0 3 (all_asked started))
        ≡ Some (Information 3 1 (0x64 ∷ 1 ∷ 7 ∷ 0 ∷ 2 ∷ 0 ∷ 0 ∷ 0 ∷ 0 ∷ 0x14 ∷ [])) }
    ensures second_row { given utc 0 (pumped 0 4 (all_asked started))
        ≡ Some (Information 4 1 (1 ∷ 1 ∷ 0x14 ∷ 0 ∷ 2 ∷ 0 ∷ 5 ∷ 0x10 ∷ 0 ∷ 0xC0 ∷ [])) }
    ensures second_termination { given utc 0 (pumped 0 5 (all_asked started))
        ≡ Some (Information 5 1 (0x64 ∷ 1 ∷ 0x0A ∷ 0 ∷ 2 ∷ 0 ∷ 0 ∷ 0 ∷ 0 ∷ 0x14 ∷ [])) }
    ensures nothing { given utc 0 (pumped 0 6 (all_asked started)) ≡ None }
    // A second act, to whichever address, is refused until the last termination, behind the first one too: by its address,
    // and where it is for all stations by the first known one. Behind the last termination it is accepted.
    ensures second_act { given utc 0 (taking_of_two (I 1 3 interrogation_of_all ∷ []) (pumped 0 3 (all_asked started)))
        ≡ Some (Information 3 2 (0x64 ∷ 1 ∷ 0x47 ∷ 0 ∷ 1 ∷ 0 ∷ 0 ∷ 0 ∷ 0 ∷ 0x14 ∷ [])) }
    ensures act_of_second { given utc 0
        (taking_of_two (I 1 3 interrogation_of_second ∷ []) (pumped 0 3 (all_asked started)))
        ≡ Some (Information 3 2 (0x64 ∷ 1 ∷ 0x47 ∷ 0 ∷ 2 ∷ 0 ∷ 0 ∷ 0 ∷ 0 ∷ 0x14 ∷ [])) }
    ensures again { given utc 0
        (taking_of_two (I 1 6 interrogation_of_second ∷ []) (pumped 0 6 (all_asked started)))
        ≡ Some (Information 6 2 (0x64 ∷ 1 ∷ 7 ∷ 0 ∷ 2 ∷ 0 ∷ 0 ∷ 0 ∷ 0 ∷ 0x14 ∷ [])) }
    // News that come between stay behind the last termination.
    ensures not_between { given utc 0
        (pumped 0 1 (client_with_news (switched_off ∷ []) (pumped 0 2 (all_asked started))))
        ≡ Some (Information 3 1 (0x64 ∷ 1 ∷ 7 ∷ 0 ∷ 2 ∷ 0 ∷ 0 ∷ 0 ∷ 0 ∷ 0x14 ∷ [])) }
    ensures news_last { given utc 0 (pumped 0 4 (client_with_news (switched_off ∷ []) (pumped 0 2 (all_asked started))))
        ≡ Some (Information 6 1 (1 ∷ 1 ∷ 3 ∷ 0 ∷ 1 ∷ 0 ∷ 5 ∷ 0x10 ∷ 0 ∷ 0 ∷ [])) }
    // With k = 1 it goes on when the last one is acknowledged.
    ensures waits { given utc 0 (pumped 0 1 (acknowledged 2 (all_asked (started_from narrowest)))) ≡ None }
    ensures goes_on { given utc 0 (acknowledged 3 (all_asked (started_from narrowest)))
        ≡ Some (Information 3 1 (0x64 ∷ 1 ∷ 7 ∷ 0 ∷ 2 ∷ 0 ∷ 0 ∷ 0 ∷ 0 ∷ 0x14 ∷ [])) }
    // An act to one address asks its rows alone.
    ensures of_second { given utc 0 (pumped 0 1 (taking_of_two (I 0 0 interrogation_of_second ∷ []) started))
        ≡ Some (Information 1 1 (1 ∷ 1 ∷ 0x14 ∷ 0 ∷ 2 ∷ 0 ∷ 5 ∷ 0x10 ∷ 0 ∷ 0xC0 ∷ [])) }
    ensures none_of_first { given utc 0 (pumped 0 3 (taking_of_two (I 0 0 interrogation_of_second ∷ []) started))
        ≡ None }
    // Without an outstation there is the station's address, which has no rows.
    ensures no_rows { given utc 0 (pumped 0 1 (taking_in of_none [] 0 (I 0 0 interrogation_of_all ∷ []) started))
        ≡ Some (Information 1 1 (0x64 ∷ 1 ∷ 0x0A ∷ 0 ∷ 1 ∷ 0 ∷ 0 ∷ 0 ∷ 0 ∷ 0x14 ∷ [])) }
{}

/// Reads and commands, and the places for their answers.
#[tactic(auto, unfolding(iec_command::specs::Commands::command_of, iec_asdu::specs::Spelling::list_spelling, iec_asdu::specs::Packing::packed_spelling, iec_asdu::specs::Packing::taken_of, iec_asdu::specs::Packing::is_in_sequence, iec_asdu::specs::Packing::in_sequence_count, iec_asdu::specs::Packing::apart_count, iec_asdu::specs::Packing::alike_count, iec_asdu::specs::Packing::consecutive_count))]
pub fn answers()
    // A read is answered before older news and before the answer to an interrogation.
    ensures read { given utc 0 (taking 0 (I 1 0 reading ∷ []) (interrogated waiting))
        ≡ Some (Information 0 2 (1 ∷ 1 ∷ 5 ∷ 0 ∷ 1 ∷ 0 ∷ 5 ∷ 0x10 ∷ 0 ∷ 0xC0 ∷ [])) }
    // 32 may wait; an interrogation wants no place, a command to be executed two.
    ensures most { event_of setup (I 31 0 reading) (reads 31 started) ≡ Taken }
    ensures flooded { event_of setup (I 32 0 reading) (reads 32 started) ≡ Closed Flooded }
    ensures interrogation { event_of setup (I 32 0 interrogation) (reads 32 started) ≡ Taken }
    ensures execute { close_of setup (I 30 0 execute) (reads 30 started) ≡ None }
    ensures execute_flooded { event_of setup (I 31 0 execute) (reads 31 started) ≡ Closed Flooded }
    ensures select { close_of setup (I 31 0 command) (reads 31 started) ≡ None }
    // So does one of which only the object is unknown.
    ensures unknown { event_of setup (I 30 0 execute_unknown) (reads 30 started) ≡ Taken }
    ensures unknown_flooded { event_of setup (I 31 0 execute_unknown) (reads 31 started) ≡ Closed Flooded }
    // A command waits for what is said of it.
    ensures waits { (taking 0 (I 0 0 command ∷ []) started).answers ≡ [] }
    // STOPDT leaves no answer.
    ensures stopped { (taking 0 (U StopAct ∷ []) (reads 2 started)).answers ≡ [] }
{}

/// What a client is told of a command for a control, and of the order that it became, whatever its type.
pub fn told_by_example()
    // An activation (6): 7 confirms it, with P/N negatively, and 10 terminates it.
    ensures confirmed { (x : Action) → told (command_for 6 1 5001 x) said.Confirm
        ≡ command_with 7 false (command_for 6 1 5001 x) ∷ [] }
    ensures refused { (x : Action) → told (command_for 6 1 5001 x) said.Negative
        ≡ command_with 7 true (command_for 6 1 5001 x) ∷ [] }
    ensures ordered { (x : Action) → told (command_for 6 1 5001 x) said.Ordered ≡ [] }
    ensures done { (x : Action) → told (command_for 6 1 5001 x) said.Done
        ≡ command_with 7 false (command_for 6 1 5001 x) ∷ command_with 10 false (command_for 6 1 5001 x) ∷ [] }
    ensures failed { (x : Action) → told (command_for 6 1 5001 x) said.Failed
        ≡ command_with 7 true (command_for 6 1 5001 x) ∷ [] }
    // An order holds two places until its outcome.
    ensures held { map (λ x. held_with x 4) (said.Confirm ∷ said.Negative ∷ said.Ordered ∷ said.Done ∷ said.Failed ∷ [])
        ≡ 4 ∷ 4 ∷ 6 ∷ 2 ∷ 2 ∷ [] }
    // A deactivation (8): 9 confirms it.
    ensures taken_back { (x : Action) → told (command_for 8 1 5001 x) said.Confirm
        ≡ command_with 9 false (command_for 8 1 5001 x) ∷ [] }
    ensures not_taken_back { (x : Action) → told (command_for 8 1 5001 x) said.Negative
        ≡ command_with 9 true (command_for 8 1 5001 x) ∷ [] }
{}
