//! Worked examples, computed by the definitions.
ghost use Rattle.std.specs.Prelude.{◌≡◌, ◌-◌, ◌^◌, [], ◌∷◌, ◌++◌, Some, None, pos, negsuc, map, true, false};
ghost use Rattle.gw_model.specs.declared.control.Act.TheVariants.{Set, Switch};
ghost use Rattle.gw_model.specs.declared.control.Shape.TheVariants.{Latch, Pulse};
ghost use Rattle.iec_command.specs.declared.command.Action.TheVariants.{Read};
ghost use Rattle.iec_command.specs.Example.{command, double, setpoint, single};
ghost use Rattle.gw_control.specs.declared.answer.Answer.TheVariants.{Confirm, Negative, Ordered, Unknown};
ghost use Rattle.gw_control.specs.declared.refusal.Refusal.TheVariants.{Qualifier, NoState, OutOfRange};
ghost use Rattle.gw_control.specs.declared.refusal.Refusal.TheVariants.{OutstationDown, SelectedByAnother};
ghost use Rattle.gw_control.specs.declared.refusal.Refusal.TheVariants.{NotSelected, UnlikeSelect, NoPlace};
ghost use Rattle.gw_control.specs.Controls.{answer_of, controls_after_command, controls_after_end};
ghost use Rattle.gw_control.specs.Controls.{controls_after_ended, controls_after_lost, no_controls};
ghost use Rattle.gw_control.specs.Controls.{no_controls_after, refusal_of};
ghost use Rattle.gw_control.specs.Example.{
  after,
  after_end,
  answered,
  brief,
  cancels,
  done,
  doubled,
  ended,
  executes,
  in_session,
  loss,
  next,
  next_of_each,
  of_client,
  operates,
  order,
  outcome,
  refused,
  selects,
  selects_value,
  sent,
  sets,
  setup,
  setup_with,
  sixteen,
  taking,
  told,
  two_outstations,
  two_thirds,
  while_down,
  under_2,
};
ghost use Rattle.gw_control.specs.Held.{orders_of};
ghost use Rattle.gw_control.specs.Selections.{asks_same};

/// Selections, and executes that need one.
pub fn selections_by_example()
    // Client 0 selects and executes; the execute ends the selection.
    ensures select { answered [] (selects 0 true 0 0) ≡ Confirm }
    ensures execute { answered (selects 0 true 0 0 ∷ []) (executes 0 true 0 0) ≡ Ordered 1 }
    ensures execute_again { answered (selects 0 true 0 0 ∷ executes 0 true 0 0 ∷ []) (executes 0 true 0 0) ≡ Negative }
    ensures not_selected { answered [] (executes 0 true 0 0) ≡ Negative }
    // It keeps client 1 out, who changes nothing by that.
    ensures select_of_another { answered (selects 0 true 0 0 ∷ []) (selects 1 true 0 0) ≡ Negative }
    ensures execute_of_another { answered (selects 0 true 0 0 ∷ []) (executes 1 true 0 0) ≡ Negative }
    ensures still_there { answered (selects 0 true 0 0 ∷ selects 1 true 0 0 ∷ executes 1 true 0 0 ∷ [])
        (executes 0 true 0 0) ≡ Ordered 1 }
    ensures also_without_select { answered (selects_value 1 (pos 1) 0 ∷ []) (sets 0 (pos 1)) ≡ Negative }
    // Another QU, or another state, is another command; it ends the selection too.
    ensures other_qualifier { answered (selects 0 true 0 0 ∷ []) (executes 0 true 1 0) ≡ Negative }
    ensures other_state { answered (selects 0 true 0 0 ∷ []) (executes 0 false 0 0) ≡ Negative }
    ensures then_selected_no_more { answered (selects 0 true 0 0 ∷ executes 0 true 1 0 ∷ []) (executes 0 true 0 0)
        ≡ Negative }
    // The reserved bit of an SCO is neither read nor compared.
    ensures reserved { answered (of_client 0 6 5001 (single true true 0 true) 0 ∷ []) (executes 0 true 0 0)
        ≡ Ordered 1 }
    // A select of the same client replaces and renews its selection.
    ensures replaced { answered (selects 0 true 0 0 ∷ selects 0 false 0 0 ∷ []) (executes 0 true 0 0) ≡ Negative }
    ensures renewed { answered (selects 0 true 0 0 ∷ selects 0 true 0 9999 ∷ []) (executes 0 true 0 19998) ≡ Ordered 1 }
    // It stands for 10,000 ms.
    ensures stands { answered (selects 0 true 0 0 ∷ []) (executes 0 true 0 9999) ≡ Ordered 1 }
    ensures lapsed { answered (selects 0 true 0 0 ∷ []) (executes 0 true 0 10000) ≡ Negative }
    ensures still_taken { answered (selects 0 true 0 0 ∷ []) (selects 1 true 0 9999) ≡ Negative }
    ensures free { answered (selects 0 true 0 0 ∷ []) (selects 1 true 0 10000) ≡ Confirm }
    ensures late { answered (selects 0 true 0 (2 ^ 64 - 5000) ∷ []) (executes 0 true 0 (2 ^ 64 - 1)) ≡ Ordered 1 }
    // Or as long as the settings tell.
    ensures brief { map (λ moment. answer_of brief (executes 0 true 0 moment) (controls_after_command brief
        (selects 0 true 0 0) (no_controls brief))) (2999 ∷ 3000 ∷ []) ≡ Ordered 1 ∷ Negative ∷ [] }
    // Cause 8 ends it, whatever S/E, and is confirmed once, for the client alone that selected.
    ensures cancel { answered (selects 0 true 0 0 ∷ []) (cancels 0 0) ≡ Confirm }
    ensures cancel_by_execute { answered (selects 0 true 0 0 ∷ []) (of_client 0 8 5001 (single true false 0 false) 0)
        ≡ Confirm }
    ensures cancel_again { answered (selects 0 true 0 0 ∷ cancels 0 0 ∷ []) (cancels 0 0) ≡ Negative }
    ensures cancelled { answered (selects 0 true 0 0 ∷ cancels 0 0 ∷ []) (executes 0 true 0 0) ≡ Negative }
    ensures cancel_of_another { answered (selects 0 true 0 0 ∷ []) (cancels 1 0) ≡ Negative }
    ensures not_cancelled { answered (selects 0 true 0 0 ∷ cancels 1 0 ∷ []) (executes 0 true 0 0) ≡ Ordered 1 }
    // Its session's end ends it, also where the next one selects another control; another one's doesn't.
    ensures session_ended { answer_of setup (executes 0 true 0 0) (after_end 0 (selects 0 true 0 0 ∷ []))
        ≡ Negative }
    ensures free_again { answer_of setup (selects 1 true 0 0) (after_end 0 (selects 0 true 0 0 ∷ []))
        ≡ Confirm }
    ensures next_session { answer_of setup (in_session 12 (executes 0 true 0 0))
        (taking (in_session 12 (selects_value 0 (pos 1) 0) ∷ []) (after_end 0 (selects 0 true 0 0 ∷ []))) ≡ Negative }
    ensures other_session_ended { answer_of setup (executes 0 true 0 0) (after_end 1 (selects 0 true 0 0 ∷ []))
        ≡ Ordered 1 }
{}

/// Which commands ask for the same: type, value and qualifier, but not S/E, nor the reserved bit of an SCO.
pub fn sameness_by_example()
    ensures single { map (asks_same (single true false 1 true)) (single true true 1 false ∷ single false false 1 false
        ∷ single true false 2 false ∷ double 2 1 false ∷ []) ≡ true ∷ false ∷ false ∷ false ∷ [] }
    ensures double { map (asks_same (double 2 1 true)) (double 2 1 false ∷ double 1 1 false ∷ double 2 0 false
        ∷ single true false 1 false ∷ []) ≡ true ∷ false ∷ false ∷ false ∷ [] }
    ensures setpoint { map (asks_same (setpoint (pos 5) 0 true)) (setpoint (pos 5) 0 false ∷ setpoint (pos 6) 0 false
        ∷ setpoint (negsuc 4) 0 false ∷ setpoint (pos 5) 1 false ∷ []) ≡ true ∷ false ∷ false ∷ false ∷ [] }
{}

/// What is refused whoever selected, and what is unknown.
pub fn refusals_by_example()
    // QU 4, a DCS of 0 and of 3, QL 1: of a select and of an execute.
    ensures qualifier { map (answered []) (selects 0 true 4 0 ∷ operates 1 4 false ∷ []) ≡ Negative ∷ Negative ∷ [] }
    ensures intermediate { map (answered []) (operates 0 0 true ∷ operates 0 0 false ∷ []) ≡ Negative ∷ Negative ∷ [] }
    ensures indeterminate { map (answered []) (operates 3 0 true ∷ operates 3 0 false ∷ []) ≡ Negative ∷ Negative ∷ [] }
    ensures states { map (answered []) (operates 1 0 true ∷ operates 1 0 false ∷ operates 2 0 false ∷ [])
        ≡ Confirm ∷ Ordered 1 ∷ Ordered 1 ∷ [] }
    ensures level { map (answered []) (selects_value 0 (pos 1) 1 ∷ of_client 0 6 5002 (setpoint (pos 1) 1 false) 0 ∷ [])
        ≡ Negative ∷ Negative ∷ [] }
    // A set point that leaves 16 bits.
    ensures too_large { answer_of (setup_with doubled) (sets 0 (pos 20000)) (no_controls setup) ≡ Negative }
    ensures too_large_selected { answer_of (setup_with doubled) (selects_value 0 (pos 20000) 0) (no_controls setup)
        ≡ Negative }
    ensures too_small { map (λ z. answer_of (setup_with doubled) (sets 0 z) (no_controls setup))
        (negsuc 16384 ∷ negsuc 16383 ∷ []) ≡ Negative ∷ Ordered 1 ∷ [] }
    // An outstation that is down can be selected for, and not commanded.
    ensures down { map (λ a. answered [] (while_down a)) (operates 1 0 true ∷ operates 1 0 false ∷ [])
        ≡ Confirm ∷ Negative ∷ [] }
    // 16 orders wait, eight of each of two clients; a seventeenth is refused, as long as none is taken.
    ensures sixteenth { answered (sets 0 (pos 1) ∷ []) (sets 1 (pos 1)) ≡ Ordered 2 }
    ensures seventeenth { answered sixteen (sets 1 (pos 1)) ≡ Negative }
    ensures one_taken { answer_of setup (sets 1 (pos 1)) (sent (after sixteen)) ≡ Ordered 17 }
    // No control of its type has the address, or it has another common address.
    ensures other_type { answered [] (of_client 0 6 5001 (double 1 0 false) 0) ≡ Unknown }
    ensures other_address { answered [] (of_client 0 6 5004 (double 1 0 false) 0) ≡ Unknown }
    ensures other_common_address { answered [] (under_2 (of_client 0 6 5003 (double 1 0 false) 0)) ≡ Unknown }
    ensures no_command { answered [] (of_client 0 5 5001 Read 0) ≡ Unknown }
    ensures unknown_changes_nothing { answered (selects 0 true 0 0 ∷ of_client 0 6 5001 (double 1 0 false) 0 ∷ [])
        (executes 0 true 0 0) ≡ Ordered 1 }
{}

/// Why commands are refused: one of each kind, and the first one where several hold.
pub fn reasons_by_example()
    ensures qualifier { refused [] (selects 0 true 4 0) ≡ Some Qualifier }
    ensures level { refused [] (selects_value 0 (pos 1) 1) ≡ Some Qualifier }
    ensures no_state { refused [] (operates 3 4 false) ≡ Some NoState }
    ensures out_of_range { refusal_of (setup_with doubled) (sets 0 (pos 16384)) (no_controls (setup_with doubled))
        ≡ Some OutOfRange }
    ensures down { refused (selects_value 1 (pos 1) 0 ∷ []) (while_down (sets 0 (pos 1))) ≡ Some OutstationDown }
    ensures by_another { refused (selects 0 true 0 0 ∷ []) (executes 1 true 0 0) ≡ Some SelectedByAnother }
    ensures not_selected { refused [] (executes 0 true 0 0) ≡ Some NotSelected }
    ensures not_any_more { refused (selects 0 true 0 0 ∷ []) (executes 0 true 0 10000) ≡ Some NotSelected }
    ensures unlike { refused (selects 0 true 0 0 ∷ []) (executes 0 false 0 0) ≡ Some UnlikeSelect }
    ensures no_place { refused sixteen (sets 0 (pos 1)) ≡ Some NoPlace }
    // A deactivation needs a selection of its client; a select may come again.
    ensures deactivation { refused [] (cancels 0 0) ≡ Some NotSelected }
    ensures own_deactivation { refused (selects 0 true 0 0 ∷ []) (cancels 0 0) ≡ None }
    ensures again { refused (selects 0 true 0 0 ∷ []) (selects 0 false 0 0) ≡ None }
    ensures accepted { refused [] (sets 0 (pos 1)) ≡ None }
{}

/// What orders ask of the outstation.
pub fn intents_by_example()
    // SCO: QU 0 at rest, here a latch; 1 a short pulse, 2 a long one, 3 a latch.
    ensures rest { next (after (selects 0 true 0 0 ∷ executes 0 true 0 0 ∷ []))
        ≡ Some (order 1 3 (Switch true Latch) false) }
    ensures short { next (after (selects 0 true 1 0 ∷ executes 0 true 1 0 ∷ []))
        ≡ Some (order 1 3 (Switch true (Pulse 500)) false) }
    ensures long { next (after (selects 0 false 2 0 ∷ executes 0 false 2 0 ∷ []))
        ≡ Some (order 1 3 (Switch false (Pulse 2000)) false) }
    ensures persistent { next (after (selects 0 false 3 0 ∷ executes 0 false 3 0 ∷ []))
        ≡ Some (order 1 3 (Switch false Latch) false) }
    // DCO: 1 off, 2 on; here a pulse at rest.
    ensures off { next (after (operates 1 0 false ∷ []))
        ≡ Some (order 1 5 (Switch false (Pulse 500)) false) }
    ensures on { next (after (operates 2 0 false ∷ []))
        ≡ Some (order 1 5 (Switch true (Pulse 500)) false) }
    // A set point, which is selected before it is operated.
    ensures value { next (after (sets 0 (pos 1000) ∷ []))
        ≡ Some (order 1 4 (Set (pos 1000)) true) }
    ensures scaled { next (controls_after_command (setup_with two_thirds) (sets 0 (negsuc 7)) (no_controls setup))
        ≡ Some (order 1 4 (Set (negsuc 4)) true) }
{}

/// Orders on their way.
pub fn orders_by_example()
    // Oldest first, one at a time; each has its outcome once.
    ensures one_at_a_time { next (sent (after (sets 0 (pos 1) ∷ sets 1 (pos 2) ∷ []))) ≡ None }
    ensures then_next { next (done 1 (sent (after (sets 0 (pos 1) ∷ sets 1 (pos 2) ∷ []))))
        ≡ Some (order 2 4 (Set (pos 2)) true) }
    ensures not_yet { outcome 1 true (after (sets 0 (pos 1) ∷ [])) ≡ None }
    ensures outcomes { map (λ is_done. outcome 1 is_done (sent (after (sets 0 (pos 1) ∷ [])))) (true ∷ false ∷ [])
        ≡ Some (told 0 (pos 1) true) ∷ Some (told 0 (pos 1) false) ∷ [] }
    ensures of_another { outcome 2 true (sent (after (sets 0 (pos 1) ∷ sets 0 (pos 2) ∷ []))) ≡ None }
    ensures elsewhere { outcome 1 true (controls_after_ended 1 (ended 1 true) (sent (after (sets 0 (pos 1) ∷ []))))
        ≡ Some (told 0 (pos 1) true) }
    ensures once { outcome 1 true (done 1 (sent (after (sets 0 (pos 1) ∷ [])))) ≡ None }
    // Of two outstations each gets its own.
    ensures own_outstation { next_of_each (controls_after_command two_outstations (operates 1 0 false)
        (no_controls two_outstations)) ≡ None ∷ Some 1 ∷ [] }
    // The outstation is lost: those that wait fail, oldest first.
    ensures lost { loss (after (sets 0 (pos 1) ∷ sets 1 (pos 2) ∷ [])) ≡ Some (told 0 (pos 1) false) }
    ensures lost_next { loss (controls_after_lost 0 (after (sets 0 (pos 1) ∷ sets 1 (pos 2) ∷ [])))
        ≡ Some (told 1 (pos 2) false) }
    ensures under_way_stays { loss (sent (after (sets 0 (pos 1) ∷ []))) ≡ None }
    // A session ends: its orders that wait go, and the outcome of the one under way is told nobody.
    ensures others_stay { next (after_end 0 (sets 0 (pos 1) ∷ sets 1 (pos 2) ∷ []))
        ≡ Some (order 2 4 (Set (pos 2)) true) }
    ensures discarded { outcome 1 true (controls_after_end 0 (sent (after (sets 0 (pos 1) ∷ [])))) ≡ None }
    ensures other_ended { outcome 1 true (controls_after_end 1 (sent (after (sets 0 (pos 1) ∷ []))))
        ≡ Some (told 0 (pos 1) true) }
    ensures still_under_way { next (controls_after_end 0 (sent (after (sets 0 (pos 1) ∷ sets 1 (pos 2) ∷ [])))) ≡ None }
    // Numbers go on.
    ensures number { answer_of setup (sets 0 (pos 3)) (after_end 0 (sets 0 (pos 1) ∷ sets 0 (pos 2) ∷ [])) ≡ Ordered 3 }
    ensures begun_behind { answer_of setup (sets 0 (pos 3)) (no_controls_after 7 setup) ≡ Ordered 8 }
{}

/// How many orders of a client hold places.
pub fn places_by_example()
    // Those that wait do, each client's for itself; what is refused holds none.
    ensures waiting { map (λ client. orders_of client (after (sets 0 (pos 1) ∷ sets 0 (pos 2) ∷ sets 1 (pos 3) ∷ [])))
        (0 ∷ 1 ∷ 2 ∷ []) ≡ 2 ∷ 1 ∷ 0 ∷ [] }
    ensures refused { orders_of 1 (after (sixteen ++ sets 1 (pos 1) ∷ [])) ≡ 8 }
    // The one under way does, until it ends.
    ensures under_way { orders_of 0 (sent (after (sets 0 (pos 1) ∷ sets 0 (pos 2) ∷ []))) ≡ 2 }
    ensures over { orders_of 0 (done 1 (sent (after (sets 0 (pos 1) ∷ sets 0 (pos 2) ∷ [])))) ≡ 1 }
    ensures lost { orders_of 0 (controls_after_lost 0 (after (sets 0 (pos 1) ∷ sets 0 (pos 2) ∷ []))) ≡ 1 }
    // None does once its session ended.
    ensures left { map (λ client. orders_of client (controls_after_end 0 (sent (after (sets 0 (pos 1) ∷ sets 1 (pos 2)
        ∷ []))))) (0 ∷ 1 ∷ []) ≡ 0 ∷ 1 ∷ [] }
{}
