//! Worked runs: which control is selected, what is said of commands, and which executes are accepted.
ghost use Rattle.std.specs.Prelude.{◌≡◌, ◌++◌, [], ◌∷◌, Some, None, true, is_some, option_map};
ghost use Rattle.gw_control.specs.Example.{setup};
ghost use Rattle.gw_station.specs.declared.event.Said.TheVariants.{Confirm, Negative, Ordered};
ghost use Rattle.gw_station.specs.Example.{command, execute};
ghost use Rattle.gw_steps.specs.Example.{outstation_down, outstation_up, poll};
ghost use Rattle.law_orders.specs.BondExample.{made, sends, set};
ghost use Rattle.law_orders.specs.OutcomeExample.{joining, leaves, sends_by, stops};
ghost use Rattle.law_orders.specs.CommandExample.{deactivation, execute_off, newly_accepted, newly_said, sets, then_sent};
ghost use Rattle.law_orders.specs.Selections.{selected, standing};

/// What becomes of the control at position 0.
#[tactic(auto, unfolding(iec_command::specs::Commands::command_of, dnp_objects::specs::Headers::headers_from, dnp_objects::specs::Library::object_of))]
pub fn commands_by_example()
    ensures selects { option_map (λ x. x.client) (selected setup 0 (made (sends 0 command ∷ []))) ≡ Some 0 }
    // An execute ends the selection, and is accepted; a second one isn't.
    ensures executed { selected setup 0 (made (sends 0 command ∷ sends 1 execute ∷ [])) ≡ None }
    ensures accepted { is_some (newly_accepted (made (sends 0 command ∷ sends 1 execute ∷ []))) ≡ true }
    ensures once { newly_accepted (made (sends 0 command ∷ sends 1 execute ∷ sends 2 execute ∷ [])) ≡ None }
    ensures unselected { newly_accepted (made (sends 0 execute ∷ [])) ≡ None }
    // A selection stands for 10 seconds, and ends with its session.
    ensures stands { is_some (standing setup 0 9999 (made (sends 0 command ∷ []))) ≡ true }
    ensures old { standing setup 0 10000 (made (sends 0 command ∷ [])) ≡ None }
    ensures stopped { selected setup 0 (made (sends 0 command ∷ stops ∷ [])) ≡ None }
    ensures left { selected setup 0 (made (sends 0 command ∷ leaves ∷ [])) ≡ None }
    // The outstation is lost in between, and is there again.
    ensures lost { newly_accepted (made (sends 0 command ∷ outstation_down ∷ sends 1 execute ∷ [])) ≡ None }
    ensures again { is_some (newly_accepted (made (sends 0 command ∷ outstation_down ∷ outstation_up ∷ sends 1 execute
        ∷ []))) ≡ true }
{}

/// What is said of commands for it, which client 0 selected at moment 0.
#[tactic(auto, unfolding(iec_command::specs::Commands::command_of, dnp_objects::specs::Headers::headers_from, dnp_objects::specs::Library::object_of))]
pub fn answers_by_example()
    ensures executes { newly_said (then_sent 0 execute 9999) ≡ Some Ordered }
    ensures too_late { newly_said (then_sent 0 execute 10000) ≡ Some Negative }
    ensures other_value { newly_said (then_sent 0 execute_off 0) ≡ Some Negative }
    ensures taken_back { newly_said (then_sent 0 deactivation 0) ≡ Some Confirm }
    // Another client can't use it, nor take it back, nor select the control for itself before it is old.
    ensures others_execute { newly_said (then_sent 1 execute 0) ≡ Some Negative }
    ensures others_take_back { newly_said (then_sent 1 deactivation 0) ≡ Some Negative }
    ensures others_select { newly_said (then_sent 1 command 9999) ≡ Some Negative }
    ensures others_later { newly_said (then_sent 1 command 10000) ≡ Some Confirm }
    // 16 orders of two clients wait, and no more.
    ensures sixteenth { newly_said (made (joining ++ sets 0 0 8 ++ sets 1 0 8)) ≡ Some Ordered }
    ensures seventeenth { newly_said (made (joining ++ sets 0 0 8 ++ sets 1 0 8 ++ sends_by 1 8 set 0 ∷ []))
        ≡ Some Negative }
    // One that is under way takes no place.
    ensures under_way { newly_said (made (joining ++ sets 0 0 8 ++ sets 1 0 8 ++ poll ∷ sends_by 1 8 set 0 ∷ []))
        ≡ Some Ordered }
{}
