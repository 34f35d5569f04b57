//! Worked runs of what steps tell of commands and of orders, computed by the step relation itself.
ghost use Rattle.std.specs.Prelude.{◌≡◌, ◌++◌, [], ◌∷◌, map, replicate, Some, None, true, false};
ghost use Rattle.dnp_app.specs.declared.operation.Operation.TheVariants.{DirectOperate, Operate, Select};
ghost use Rattle.gw_control.specs.declared.answer.Answer.TheVariants.{Confirm, Negative, Ordered, Unknown};
ghost use Rattle.gw_control.specs.declared.refusal.Refusal.TheVariants.{Qualifier, NoState, OutOfRange};
ghost use Rattle.gw_control.specs.declared.refusal.Refusal.TheVariants.{OutstationDown, SelectedByAnother};
ghost use Rattle.gw_control.specs.declared.refusal.Refusal.TheVariants.{NotSelected, UnlikeSelect, NoPlace};
ghost use Rattle.gw_control.specs.Example.{doubled, setup as with_controls, setup_with};
ghost use Rattle.gw_steps.specs.declared.apdu_kind.ApduKind.TheVariants as kinds;
ghost use Rattle.dnp_master.specs.declared.fate.Fate.TheVariants as fates;
ghost use Rattle.gw_steps.specs.declared.step.Step.TheVariants as steps;
ghost use Rattle.gw_steps.specs.Example.{answer, echo, ends, outstation_down, poll};
ghost use Rattle.law_effects.specs.Refusals.{is_negative};
ghost use Rattle.law_effects.specs.Reasons.{
  acknowledges,
  answer_behind,
  answer_to_operate,
  breaker,
  command_of_octets,
  ends_behind,
  ends_in,
  ends_then,
  first_fragment,
  judged_in,
  kind_told,
  last_fragment,
  operated,
  put_out,
  refusal_behind,
  refusal_in,
  selected,
  sends,
  sends_at,
  sent_back,
  set,
  set_point,
  sixteen,
  stops,
  switch,
  switch_no_more,
  unknown,
};

/// Why commands for controls are refused.
#[tactic(auto, unfolding(iec_command::specs::Commands::command_of))]
pub fn refusals_by_example()
    // A DCS of 0 and of 3; QU 4 of both types, QL 1: executed and selected.
    ensures no_state { map (λ element. refusal_behind [] (sends 0 0 (breaker element))) (0 ∷ 3 ∷ 0x80 ∷ 0x83 ∷ [])
        ≡ replicate 4 (Some NoState) }
    ensures qualifier { map (λ asdu. refusal_behind [] (sends 0 0 asdu)) (switch 0x11 ∷ switch 0x91 ∷ breaker 0x11
        ∷ set_point 1 0 1 ∷ set_point 1 0 0x81 ∷ []) ≡ replicate 5 (Some Qualifier) }
    // 16384, which is doubled, and 16383.
    ensures out_of_range { map (λ asdu. refusal_in (setup_with doubled) [] (sends 0 0 asdu)) (set_point 0 0x40 0
        ∷ set_point 0 0x40 0x80 ∷ set_point 0xFF 0x3F 0 ∷ []) ≡ Some OutOfRange ∷ Some OutOfRange ∷ None ∷ [] }
    // A select is confirmed also while the outstation is down.
    ensures down { map (λ asdu. refusal_behind (outstation_down ∷ []) (sends 0 0 asdu)) (breaker 1 ∷ breaker 0x81 ∷ [])
        ≡ Some OutstationDown ∷ None ∷ [] }
    // Client 1 has the control selected.
    ensures by_another { map (λ asdu. refusal_behind (sends 1 0 (switch 0x81) ∷ []) (sends 0 0 asdu)) (switch 0x81
        ∷ switch 1 ∷ switch_no_more ∷ []) ≡ Some SelectedByAnother ∷ Some SelectedByAnother ∷ Some NotSelected ∷ [] }
    ensures not_selected { map (λ asdu. refusal_behind [] (sends 0 0 asdu)) (switch 1 ∷ switch_no_more ∷ [])
        ≡ replicate 2 (Some NotSelected) }
    ensures not_any_more { map (λ moment. refusal_behind (sends 0 0 (switch 0x81) ∷ []) (sends_at moment 0 1 (switch 1)))
        (9999 ∷ 10000 ∷ []) ≡ None ∷ Some NotSelected ∷ [] }
    // Off, and on with QU 1; as it was selected, and selected anew.
    ensures unlike { map (λ asdu. refusal_behind (sends 0 0 (switch 0x81) ∷ []) (sends 0 1 asdu)) (switch 0 ∷ switch 5
        ∷ switch 1 ∷ switch 0x80 ∷ []) ≡ Some UnlikeSelect ∷ Some UnlikeSelect ∷ None ∷ None ∷ [] }
    // 16 orders wait; or 15 do, and then 16 again besides the one under way.
    ensures no_place { refusal_behind sixteen (sends 1 8 set) ≡ Some NoPlace }
    ensures place { refusal_behind (sixteen ++ poll ∷ []) (sends 1 8 set) ≡ None }
    ensures no_place_again { refusal_behind (sixteen ++ poll ∷ sends 1 8 set ∷ []) (sends 0 8 set) ≡ Some NoPlace }
    ensures before_no_place { refusal_behind sixteen (sends 1 8 (switch 1)) ≡ Some NotSelected }
    ensures negative { map is_negative (Confirm ∷ Negative ∷ Ordered 1 ∷ Unknown ∷ [])
        ≡ false ∷ true ∷ false ∷ false ∷ [] }
    // A reason is told where the answer is negative, and nowhere else.
    ensures answers { map (λ asdu. answer_behind [] (sends 0 0 asdu)) (switch 0x81 ∷ switch 1 ∷ set ∷ [])
        ≡ Some Confirm ∷ Some Negative ∷ Some (Ordered 1) ∷ [] }
{}

/// What comes back with a cause from 44 to 47 is no command for a control.
#[tactic(auto, unfolding(iec_command::specs::Commands::command_of))]
pub fn returns_by_example()
    ensures none { map (λ asdu. judged_in with_controls [] (sends 0 0 asdu)) unknown ≡ replicate 4 None }
    ensures kind { kind_told (command_of_octets 47 6 1 0x89 1)
        ≡ Some (kinds.Unknown (record { identification = 47; common_address = 1; address = Some 5001 })) }
    ensures causes { map put_out unknown ≡ sent_back 47 0x6C 1 0x89 ∷ sent_back 0x2D 0x6D 1 0x89
        ∷ sent_back 0x2D 0x6E 9 0x89 ∷ sent_back 0x2D 0x6F 1 0x8C ∷ [] }
{}

/// Each fate of an order, by each request: the first of three orders, of which the other two wait.
#[tactic(auto, unfolding(dnp_objects::specs::Headers::headers_from, dnp_objects::specs::Library::object_of))]
pub fn each_fate_by_example()
    // DIRECT_OPERATE: an answer that doesn't come, and a loss; the status is one octet.
    ensures direct { map (ends false) (steps.Tick 5000 ∷ outstation_down ∷ []) ≡ ((1, (0, fates.Unanswered DirectOperate))
        ∷ []) ∷ ((1, (0, fates.Lost)) ∷ (2, (1, fates.Lost)) ∷ (3, (1, fates.Lost)) ∷ []) ∷ [] }
    ensures statuses { map (λ status. ends false (answer (echo status))) (1 ∷ 127 ∷ 128 ∷ 255 ∷ [])
        ≡ map (λ status. (1, (0, fates.Refused DirectOperate status)) ∷ []) (1 ∷ 127 ∷ 128 ∷ 255 ∷ []) }
    // SELECT: an answer that doesn't give it back.
    ensures select_otherwise { ends true (answer []) ≡ (1, (0, fates.Otherwise Select)) ∷ [] }
    // OPERATE that is due has no time of its own, and ends with a loss.
    ensures due { map (ends_in selected) (steps.Tick 5000 ∷ outstation_down ∷ []) ≡ [] ∷ ((1, (0, fates.Lost))
        ∷ (2, (1, fates.Lost)) ∷ (3, (1, fates.Lost)) ∷ []) ∷ [] }
    // OPERATE that was given.
    ensures operate { map (λ objects. ends_in operated (answer_to_operate objects)) (echo 0 ∷ echo 7 ∷ [] ∷ [])
        ≡ map (λ fate. (1, (0, fate)) ∷ []) (fates.Done ∷ fates.Refused Operate 7 ∷ fates.Otherwise Operate ∷ []) }
    ensures operate_late { map (ends_in operated) (steps.Tick 4999 ∷ steps.Tick 5000 ∷ [])
        ≡ [] ∷ ((1, (0, fates.Unanswered Operate)) ∷ []) ∷ [] }
    ensures operate_lost { ends_in operated outstation_down
        ≡ (1, (0, fates.Lost)) ∷ (2, (1, fates.Lost)) ∷ (3, (1, fates.Lost)) ∷ [] }
{}

/// Answers that come late, twice, or in two fragments, of which the last one counts.
#[tactic(auto, unfolding(dnp_objects::specs::Headers::headers_from, dnp_objects::specs::Library::object_of))]
pub fn answers_by_example()
    ensures late { ends_behind (steps.Tick 5000 ∷ []) (answer (echo 0)) ≡ [] }
    ensures twice { ends_behind (answer (echo 0) ∷ []) (answer (echo 0)) ≡ [] }
    ensures first { ends_behind [] (first_fragment (echo 0)) ≡ [] }
    ensures last { ends_behind (first_fragment (echo 4) ∷ []) (last_fragment (echo 0)) ≡ (1, (0, fates.Done)) ∷ [] }
    ensures last_fails { map (λ objects. ends_behind (first_fragment (echo 0) ∷ []) (last_fragment objects))
        (echo 4 ∷ [] ∷ []) ≡ ((1, (0, fates.Refused DirectOperate 4)) ∷ [])
        ∷ ((1, (0, fates.Otherwise DirectOperate)) ∷ []) ∷ [] }
{}

/// Sessions that end: what waits is let go. One tick may end them and find an answer late.
#[tactic(auto, unfolding(iec_command::specs::Commands::command_of))]
pub fn let_go_by_example()
    ensures stops { map (λ client. ends_then [] (stops client)) (0 ∷ 1 ∷ [])
        ≡ ((3, (0, fates.LetGo)) ∷ []) ∷ ((2, (1, fates.LetGo)) ∷ []) ∷ [] }
    // The connection is lost; or it is closed, since the number of an I format is wrong.
    ensures leaves { map (ends_then []) (steps.ClientDown 1 10000 ∷ sends 1 9 set ∷ []) ≡ replicate 2 ((2, (1, fates.LetGo)) ∷ []) }
    // t1 passes, and the time for the answer.
    ensures in_time { ends_then [] (steps.Tick 14999) ≡ [] }
    ensures at_once { ends_then [] (steps.Tick 15000)
        ≡ (2, (1, fates.LetGo)) ∷ (3, (0, fates.LetGo)) ∷ (1, (0, fates.Unanswered Select)) ∷ [] }
    ensures late_alone { ends_then (acknowledges 0 ∷ acknowledges 1 ∷ []) (steps.Tick 15000)
        ≡ (1, (0, fates.Unanswered Select)) ∷ [] }
    ensures of_one { ends_then (acknowledges 1 ∷ []) (steps.Tick 15000)
        ≡ (3, (0, fates.LetGo)) ∷ (1, (0, fates.Unanswered Select)) ∷ [] }
    // A session that ended before has no more to let go, and its order under way ends as any other.
    ensures left { ends_then (stops 0 ∷ []) (steps.Tick 15000)
        ≡ (2, (1, fates.LetGo)) ∷ (1, (0, fates.Unanswered Select)) ∷ [] }
{}
