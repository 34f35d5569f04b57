//! Worked runs, told by the definitions.
ghost use Rattle.std.specs.Prelude.{◌≡◌, [], ◌∷◌, ◌++◌, map, take, true, false, Some, None};
ghost use Rattle.gw_model.specs.Keys.{object_of};
ghost use Rattle.gw_model.specs.declared.observation.Value.TheVariants.{Total};
ghost use Rattle.iec_command.specs.declared.command.Action.TheVariants.{CounterInterrogation, Interrogation};
ghost use Rattle.gw_judge.specs.Example.{of_two, setup as with_controls};
ghost use Rattle.gw_answers.specs.declared.outgoing.AsduAnswer.TheVariants.{Made};
ghost use Rattle.gw_answers.specs.declared.outgoing.OwnAsdu.TheVariants.{Command as Commanded, Observation as Told};
ghost use Rattle.gw_answers.specs.Example.{invalid, picture, shown};
ghost use Rattle.gw_answers.specs.Outgoing.{command_with, under};
ghost use Rattle.gw_station.specs.declared.sending.Sending.TheVariants.{News, Part};
ghost use Rattle.gw_station.specs.Example.{switched_on};
ghost use Rattle.gw_steps.specs.Example.{setup};
ghost use Rattle.law_history.specs.Life.{life};
ghost use Rattle.law_history.specs.Example.{pumped};
ghost use Rattle.law_clients.specs.Numbers.{sent, taken, last_receive_number};
ghost use Rattle.law_clients.specs.Interrogations.{interrogation, is_pending, rows_due};
ghost use Rattle.law_clients.specs.Frames.{held};
ghost use Rattle.law_clients.specs.Line.{line, owed};
ghost use Rattle.law_clients.specs.Mirror.{asked_in, known_of, last_value, told};
ghost use Rattle.law_clients.specs.Example.{all_asked, analog_at_first, analog_read, answered_all};
ghost use Rattle.law_clients.specs.Example.{answered_with, command, ended, executed, known_after};
ghost use Rattle.law_clients.specs.Example.{ordered, row_under, said_of, session_after, told_after};

/// News wait, a client interrogates the station, and other news come.
#[tactic(auto, unfolding(iec_command::specs::Commands::command_of, iec_apci::specs::Stream::reading, iec_apci::specs::Stream::answer_at_front, iec_apci::specs::Stream::content_of, iec_asdu::specs::Asdu::asdu_meaning, iec_asdu::specs::Asdu::objects_of, iec_asdu::specs::Asdu::objects_apart, iec_asdu::specs::Spelling::list_spelling, iec_asdu::specs::Packing::packed_spelling, iec_asdu::specs::Packing::taken_of, iec_asdu::specs::Packing::is_in_sequence, iec_asdu::specs::Packing::in_sequence_count, iec_asdu::specs::Packing::apart_count, iec_asdu::specs::Packing::alike_count, iec_asdu::specs::Packing::consecutive_count))]
pub fn promises_by_example()
    // In line are the older news, the answer as the picture was at the act, and the later news.
    ensures line { line setup (session_after 0) ≡ News switched_on
        ∷ Part (command_with 7 false command) ∷ Part (Told 20 0 switched_on) ∷ Part (Told 20 0 analog_at_first)
        ∷ Part (command_with 10 false command) ∷ News analog_read ∷ [] }
    // What was put out of the answer, and how long it is pending.
    ensures said { said_of (interrogation setup (session_after 3)) ≡ command_with 7 false (under 1 command)
        ∷ Told 20 0 switched_on ∷ [] }
    ensures pending { map (λ n. is_pending (interrogation setup (session_after n))) (0 ∷ 4 ∷ 5 ∷ [])
        ≡ true ∷ true ∷ false ∷ [] }
    // How many I formats were put out and taken, and the last N(R).
    ensures sent { map (λ n. sent (life setup 0 (pumped n))) (0 ∷ 3 ∷ []) ≡ 0 ∷ 3 ∷ [] }
    ensures taken { taken (life setup 0 (pumped 3)) ≡ 1 }
    ensures receive { last_receive_number (life setup 0 (pumped 3)) ≡ 0 }
    // What was told counts from the first confirmation on.
    ensures unheard { told_after 1 ≡ None }
    ensures heard { told_after 5 ≡ Some (switched_on ∷ analog_at_first ∷ []) }
    // What was told and what waits agree with the picture.
    ensures binary { last_value (object_of switched_on) (known_after 2) ≡ Some (known_of switched_on) }
    ensures analog { map (λ n. last_value (object_of analog_read) (known_after n)) (2 ∷ 5 ∷ 6 ∷ [])
        ≡ Some (known_of analog_read) ∷ Some (known_of analog_read) ∷ Some (known_of analog_read) ∷ [] }
{}

/// Which rows answer an interrogation: of single-point 4101, scaled value 4201 and integrated total 4301 of station 1.
pub fn rows_by_example()
    ensures totals { map (rows_due (CounterInterrogation 5) with_controls.rows picture) (1 ∷ 2 ∷ [])
        ≡ (shown 4301 (Total 0) (invalid false) ∷ []) ∷ [] ∷ [] }
    ensures others { map (rows_due (Interrogation 20) with_controls.rows picture) (1 ∷ 2 ∷ [])
        ≡ take 2 picture ∷ [] ∷ [] }
    // A group of counters, and one of the station's points.
    ensures group_of_totals { rows_due (CounterInterrogation 1) with_controls.rows picture 1 ≡ [] }
    ensures group { rows_due (Interrogation 21) with_controls.rows picture 1 ≡ [] }
{}

/// A client interrogates all stations, which are two common addresses.
#[tactic(auto, unfolding(iec_command::specs::Commands::command_of))]
pub fn all_stations_by_example()
    ensures asked { asked_in of_two all_asked [] ≡ Some (1 ∷ 2 ∷ []) }
    // Each has its confirmation, its rows and its termination.
    ensures line { line of_two (all_asked ∷ []) ≡ Part (Commanded (answered_with 7 1)) ∷ Part (Told 20 0 (row_under 1))
        ∷ Part (Commanded (answered_with 10 1)) ∷ Part (Commanded (answered_with 7 2)) ∷ Part (Told 20 0 (row_under 2))
        ∷ Part (Commanded (answered_with 10 2)) ∷ [] }
    ensures left { line of_two (answered_all 4 ++ all_asked ∷ [])
        ≡ Part (Told 20 0 (row_under 2)) ∷ Part (Commanded (answered_with 10 2)) ∷ [] }
    // It is pending until both terminations are put out.
    ensures pending { map (λ n. is_pending (interrogation of_two (answered_all n ++ all_asked ∷ [])))
        (0 ∷ 3 ∷ 5 ∷ 6 ∷ []) ≡ true ∷ true ∷ true ∷ false ∷ [] }
    // What was told counts from the first confirmation on, and goes on at the second.
    ensures told { map (λ n. told (answered_all n)) (0 ∷ 1 ∷ 4 ∷ 6 ∷ [])
        ≡ None ∷ Some [] ∷ Some (row_under 1 ∷ []) ∷ Some (row_under 1 ∷ row_under 2 ∷ []) ∷ [] }
{}

/// An execute is an order, which is done or fails.
#[tactic(auto, unfolding(iec_command::specs::Commands::command_of))]
pub fn orders_by_example()
    // It holds two places until then.
    ensures held { map (held with_controls) (ordered ∷ ended true ∷ ended false ∷ []) ≡ 2 ∷ 0 ∷ 0 ∷ [] }
    // It is told what became of it, and nothing before.
    ensures ordered { owed with_controls ordered ≡ [] }
    ensures done { owed with_controls (ended true)
        ≡ Made (command_with 7 false executed) ∷ Made (command_with 10 false executed) ∷ [] }
    ensures failed { owed with_controls (ended false) ≡ Made (command_with 7 true executed) ∷ [] }
{}
