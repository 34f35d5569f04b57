//! Worked examples, computed by the definitions: station 1, single-point 4101, scaled value 4201, integrated total
//! 4301, of which nothing was reported yet.
ghost use Rattle.std.specs.Prelude.{◌≡◌, [], ◌∷◌, is_some, map, pos, true, false, Some, None};
ghost use Rattle.std.proofs.Common.{lit≤};
ghost use Rattle.iec_command.specs.declared.command.Action.TheVariants.{CounterInterrogation, Interrogation, Read};
ghost use Rattle.iec_command.specs.Example.{double, setpoint, single};
ghost use Rattle.gw_judge.specs.declared.judging.Judged.TheVariants.{Accepted};
ghost use Rattle.gw_answers.specs.Answers.{command_by, places_for};
ghost use Rattle.gw_answers.specs.Example.{act, replies, replies_of_two, reply};

/// The answer to an interrogation: confirmation, rows, termination.
pub fn interrogations()
    ensures station { replies (act (Interrogation 20)) ≡
        (0x64 ∷ 1 ∷ 7 ∷ 0 ∷ 1 ∷ 0 ∷ 0 ∷ 0 ∷ 0 ∷ 0x14 ∷ [])
        ∷ (1 ∷ 1 ∷ 0x14 ∷ 0 ∷ 1 ∷ 0 ∷ 5 ∷ 0x10 ∷ 0 ∷ 0xC0 ∷ [])
        ∷ (0x0B ∷ 1 ∷ 0x14 ∷ 0 ∷ 1 ∷ 0 ∷ 0x69 ∷ 0x10 ∷ 0 ∷ 0 ∷ 0 ∷ 0xC0 ∷ [])
        ∷ (0x64 ∷ 1 ∷ 0x0A ∷ 0 ∷ 1 ∷ 0 ∷ 0 ∷ 0 ∷ 0 ∷ 0x14 ∷ []) ∷ [] }
    ensures counters { replies (act (CounterInterrogation 5)) ≡
        (0x65 ∷ 1 ∷ 7 ∷ 0 ∷ 1 ∷ 0 ∷ 0 ∷ 0 ∷ 0 ∷ 5 ∷ [])
        ∷ (0x0F ∷ 1 ∷ 0x25 ∷ 0 ∷ 1 ∷ 0 ∷ 0xCD ∷ 0x10 ∷ 0 ∷ 0 ∷ 0 ∷ 0 ∷ 0 ∷ 0x80 ∷ [])
        ∷ (0x65 ∷ 1 ∷ 0x0A ∷ 0 ∷ 1 ∷ 0 ∷ 0 ∷ 0 ∷ 0 ∷ 5 ∷ []) ∷ [] }
    // The originator of the request, and the one known address where the request was for all stations.
    ensures all_stations { replies (record (act (CounterInterrogation 5)) { originator = 9; common_address = 65535 }) ≡
        (0x65 ∷ 1 ∷ 7 ∷ 9 ∷ 1 ∷ 0 ∷ 0 ∷ 0 ∷ 0 ∷ 5 ∷ [])
        ∷ (0x0F ∷ 1 ∷ 0x25 ∷ 0 ∷ 1 ∷ 0 ∷ 0xCD ∷ 0x10 ∷ 0 ∷ 0 ∷ 0 ∷ 0 ∷ 0 ∷ 0x80 ∷ [])
        ∷ (0x65 ∷ 1 ∷ 0x0A ∷ 9 ∷ 1 ∷ 0 ∷ 0 ∷ 0 ∷ 0 ∷ 5 ∷ []) ∷ [] }
    // Address 258, of which the low octet comes first, alone.
    ensures of_258 { replies_of_two (258 ∷ []) (act (Interrogation 20)) ≡
        (0x64 ∷ 1 ∷ 7 ∷ 0 ∷ 2 ∷ 1 ∷ 0 ∷ 0 ∷ 0 ∷ 0x14 ∷ [])
        ∷ (1 ∷ 1 ∷ 0x14 ∷ 0 ∷ 2 ∷ 1 ∷ 5 ∷ 0x10 ∷ 0 ∷ 0xC0 ∷ [])
        ∷ (1 ∷ 1 ∷ 0x14 ∷ 0 ∷ 2 ∷ 1 ∷ 6 ∷ 0x10 ∷ 0 ∷ 0xC1 ∷ [])
        ∷ (0x64 ∷ 1 ∷ 0x0A ∷ 0 ∷ 2 ∷ 1 ∷ 0 ∷ 0 ∷ 0 ∷ 0x14 ∷ []) ∷ [] }
    // Each address has its confirmation, its rows and its termination, also the one that has no rows.
    ensures of_three { replies_of_two (1 ∷ 3 ∷ 258 ∷ []) (act (Interrogation 20)) ≡
        (0x64 ∷ 1 ∷ 7 ∷ 0 ∷ 1 ∷ 0 ∷ 0 ∷ 0 ∷ 0 ∷ 0x14 ∷ [])
        ∷ (1 ∷ 1 ∷ 0x14 ∷ 0 ∷ 1 ∷ 0 ∷ 5 ∷ 0x10 ∷ 0 ∷ 0xC0 ∷ [])
        ∷ (0x64 ∷ 1 ∷ 0x0A ∷ 0 ∷ 1 ∷ 0 ∷ 0 ∷ 0 ∷ 0 ∷ 0x14 ∷ [])
        ∷ (0x64 ∷ 1 ∷ 7 ∷ 0 ∷ 3 ∷ 0 ∷ 0 ∷ 0 ∷ 0 ∷ 0x14 ∷ [])
        ∷ (0x64 ∷ 1 ∷ 0x0A ∷ 0 ∷ 3 ∷ 0 ∷ 0 ∷ 0 ∷ 0 ∷ 0x14 ∷ [])
        ∷ (0x64 ∷ 1 ∷ 7 ∷ 0 ∷ 2 ∷ 1 ∷ 0 ∷ 0 ∷ 0 ∷ 0x14 ∷ [])
        ∷ (1 ∷ 1 ∷ 0x14 ∷ 0 ∷ 2 ∷ 1 ∷ 5 ∷ 0x10 ∷ 0 ∷ 0xC0 ∷ [])
        ∷ (1 ∷ 1 ∷ 0x14 ∷ 0 ∷ 2 ∷ 1 ∷ 6 ∷ 0x10 ∷ 0 ∷ 0xC1 ∷ [])
        ∷ (0x64 ∷ 1 ∷ 0x0A ∷ 0 ∷ 2 ∷ 1 ∷ 0 ∷ 0 ∷ 0 ∷ 0x14 ∷ []) ∷ [] }
{}

/// What isn't accepted is confirmed negatively.
#[tactic(auto, unfolding(iec_command::specs::Commands::command_of))]
pub fn refused_acts()
    ensures accepted { reply false (0x64 ∷ 1 ∷ 6 ∷ 0 ∷ 1 ∷ 0 ∷ 0 ∷ 0 ∷ 0 ∷ 0x14 ∷ []) (lit≤ tt) ≡ None }
    ensures pending { reply true (0x64 ∷ 1 ∷ 6 ∷ 0 ∷ 1 ∷ 0 ∷ 0 ∷ 0 ∷ 0 ∷ 0x14 ∷ []) (lit≤ tt)
        ≡ Some (0x64 ∷ 1 ∷ 0x47 ∷ 0 ∷ 1 ∷ 0 ∷ 0 ∷ 0 ∷ 0 ∷ 0x14 ∷ []) }
    ensures group { reply false (0x64 ∷ 1 ∷ 6 ∷ 0 ∷ 1 ∷ 0 ∷ 0 ∷ 0 ∷ 0 ∷ 0x15 ∷ []) (lit≤ tt)
        ≡ Some (0x64 ∷ 1 ∷ 0x47 ∷ 0 ∷ 1 ∷ 0 ∷ 0 ∷ 0 ∷ 0 ∷ 0x15 ∷ []) }
    ensures group_below { reply false (0x64 ∷ 1 ∷ 6 ∷ 0 ∷ 1 ∷ 0 ∷ 0 ∷ 0 ∷ 0 ∷ 0x13 ∷ []) (lit≤ tt)
        ≡ Some (0x64 ∷ 1 ∷ 0x47 ∷ 0 ∷ 1 ∷ 0 ∷ 0 ∷ 0 ∷ 0 ∷ 0x13 ∷ []) }
    ensures deactivation { reply false (0x64 ∷ 1 ∷ 8 ∷ 0 ∷ 1 ∷ 0 ∷ 0 ∷ 0 ∷ 0 ∷ 0x14 ∷ []) (lit≤ tt)
        ≡ Some (0x64 ∷ 1 ∷ 0x49 ∷ 0 ∷ 1 ∷ 0 ∷ 0 ∷ 0 ∷ 0 ∷ 0x14 ∷ []) }
    ensures freeze { reply false (0x65 ∷ 1 ∷ 6 ∷ 0 ∷ 1 ∷ 0 ∷ 0 ∷ 0 ∷ 0 ∷ 0x45 ∷ []) (lit≤ tt)
        ≡ Some (0x65 ∷ 1 ∷ 0x47 ∷ 0 ∷ 1 ∷ 0 ∷ 0 ∷ 0 ∷ 0 ∷ 0x45 ∷ []) }
    // The counters of groups 1 and 4, and no counter.
    ensures counter_group { reply false (0x65 ∷ 1 ∷ 6 ∷ 0 ∷ 1 ∷ 0 ∷ 0 ∷ 0 ∷ 0 ∷ 1 ∷ []) (lit≤ tt)
        ≡ Some (0x65 ∷ 1 ∷ 0x47 ∷ 0 ∷ 1 ∷ 0 ∷ 0 ∷ 0 ∷ 0 ∷ 1 ∷ []) }
    ensures last_counter_group { reply false (0x65 ∷ 1 ∷ 6 ∷ 0 ∷ 1 ∷ 0 ∷ 0 ∷ 0 ∷ 0 ∷ 4 ∷ []) (lit≤ tt)
        ≡ Some (0x65 ∷ 1 ∷ 0x47 ∷ 0 ∷ 1 ∷ 0 ∷ 0 ∷ 0 ∷ 0 ∷ 4 ∷ []) }
    ensures no_counter { reply false (0x65 ∷ 1 ∷ 6 ∷ 0 ∷ 1 ∷ 0 ∷ 0 ∷ 0 ∷ 0 ∷ 0 ∷ []) (lit≤ tt)
        ≡ Some (0x65 ∷ 1 ∷ 0x47 ∷ 0 ∷ 1 ∷ 0 ∷ 0 ∷ 0 ∷ 0 ∷ 0 ∷ []) }
    // For all stations, by the first known address.
    ensures all_stations { reply true (0x65 ∷ 1 ∷ 6 ∷ 7 ∷ 0xFF ∷ 0xFF ∷ 0 ∷ 0 ∷ 0 ∷ 5 ∷ []) (lit≤ tt)
        ≡ Some (0x65 ∷ 1 ∷ 0x47 ∷ 7 ∷ 1 ∷ 0 ∷ 0 ∷ 0 ∷ 0 ∷ 5 ∷ []) }
{}

/// Reads, and what is unknown.
#[tactic(auto, unfolding(iec_command::specs::Commands::command_of))]
pub fn reads_and_refusals()
    ensures read { reply false (0x66 ∷ 1 ∷ 5 ∷ 0 ∷ 1 ∷ 0 ∷ 5 ∷ 0x10 ∷ 0 ∷ []) (lit≤ tt)
        ≡ Some (1 ∷ 1 ∷ 5 ∷ 0 ∷ 1 ∷ 0 ∷ 5 ∷ 0x10 ∷ 0 ∷ 0xC0 ∷ []) }
    ensures read_while_pending { reply true (0x66 ∷ 1 ∷ 5 ∷ 0xFE ∷ 1 ∷ 0 ∷ 0x69 ∷ 0x10 ∷ 0 ∷ []) (lit≤ tt)
        ≡ Some (0x0B ∷ 1 ∷ 5 ∷ 0xFE ∷ 1 ∷ 0 ∷ 0x69 ∷ 0x10 ∷ 0 ∷ 0 ∷ 0 ∷ 0xC0 ∷ []) }
    ensures unknown_type { reply false (0x67 ∷ 1 ∷ 3 ∷ 0 ∷ 9 ∷ 0 ∷ 1 ∷ 0 ∷ 0 ∷ 1 ∷ []) (lit≤ tt)
        ≡ Some (0x67 ∷ 1 ∷ 0x6C ∷ 0 ∷ 9 ∷ 0 ∷ 1 ∷ 0 ∷ 0 ∷ 1 ∷ []) }
    ensures unknown_cause { reply false (0x2D ∷ 1 ∷ 3 ∷ 0 ∷ 9 ∷ 0 ∷ 1 ∷ 0 ∷ 0 ∷ 1 ∷ []) (lit≤ tt)
        ≡ Some (0x2D ∷ 1 ∷ 0x6D ∷ 0 ∷ 9 ∷ 0 ∷ 1 ∷ 0 ∷ 0 ∷ 1 ∷ []) }
    ensures unknown_station { reply false (0x2D ∷ 1 ∷ 6 ∷ 0 ∷ 9 ∷ 0 ∷ 1 ∷ 0 ∷ 0 ∷ 1 ∷ []) (lit≤ tt)
        ≡ Some (0x2D ∷ 1 ∷ 0x6E ∷ 0 ∷ 9 ∷ 0 ∷ 1 ∷ 0 ∷ 0 ∷ 1 ∷ []) }
    ensures unknown_object { reply false (0x2D ∷ 1 ∷ 6 ∷ 0 ∷ 1 ∷ 0 ∷ 1 ∷ 0 ∷ 0 ∷ 1 ∷ []) (lit≤ tt)
        ≡ Some (0x2D ∷ 1 ∷ 0x6F ∷ 0 ∷ 1 ∷ 0 ∷ 1 ∷ 0 ∷ 0 ∷ 1 ∷ []) }
    ensures total { reply false (0x66 ∷ 1 ∷ 5 ∷ 0 ∷ 1 ∷ 0 ∷ 0xCD ∷ 0x10 ∷ 0 ∷ []) (lit≤ tt)
        ≡ Some (0x66 ∷ 1 ∷ 0x6F ∷ 0 ∷ 1 ∷ 0 ∷ 0xCD ∷ 0x10 ∷ 0 ∷ []) }
    // T stays as it came; where all stations are meant the address comes back as it came.
    ensures test { reply false (0x64 ∷ 1 ∷ 0x86 ∷ 3 ∷ 0xFF ∷ 0xFF ∷ 0 ∷ 0 ∷ 0 ∷ 0x14 ∷ []) (lit≤ tt)
        ≡ Some (0x64 ∷ 1 ∷ 0xED ∷ 3 ∷ 0xFF ∷ 0xFF ∷ 0 ∷ 0 ∷ 0 ∷ 0x14 ∷ []) }
    ensures header_alone { reply false (0x67 ∷ 0 ∷ 0 ∷ 0 ∷ 0 ∷ 0 ∷ []) (lit≤ tt)
        ≡ Some (0x67 ∷ 0 ∷ 0x6C ∷ 0 ∷ 0 ∷ 0 ∷ []) }
    // An execute wants two places, whoever originates it, a select one, and an interrogation that is accepted none.
    ensures places { map (λ c. places_for false (Accepted c))
        (record (act (single true false 0 false)) { originator = 9 } ∷ act (single true false 0 true)
        ∷ act (Interrogation 20) ∷ []) ≡ 2 ∷ 1 ∷ 0 ∷ [] }
    // A command for a control waits for what is said of it.
    ensures command { reply false (0x2D ∷ 1 ∷ 6 ∷ 0 ∷ 1 ∷ 0 ∷ 0x89 ∷ 0x13 ∷ 0 ∷ 0x81 ∷ []) (lit≤ tt) ≡ None }
{}

/// Which commands are for controls: single and double commands and set points.
pub fn commands()
    ensures { map (λ action. is_some (command_by (Accepted (act action)))) (single true false 0 false
        ∷ double 1 0 false ∷ setpoint (pos 1) 0 false ∷ Interrogation 20 ∷ CounterInterrogation 5 ∷ Read ∷ [])
        ≡ true ∷ true ∷ true ∷ false ∷ false ∷ false ∷ [] }
{}
