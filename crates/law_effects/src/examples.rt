//! Worked runs: what the last step brought, and what it told.
#![tactic(auto, unfolding(iec_command::specs::Commands::command_of, dnp_objects::specs::Headers::headers_from, dnp_objects::specs::Library::object_of))]

ghost use Rattle.std.specs.Prelude.{◌≡◌, [], ◌∷◌, ◌++◌, false, map, Some, None, true};
ghost use Rattle.gw_steps.specs.declared.step.Step.TheVariants as steps;
ghost use Rattle.gw_steps.specs.declared.step.Reply.TheVariants as replies;
ghost use Rattle.gw_steps.specs.Example.{event, fragment_of, outstation_down, outstation_up, poll, pump};
ghost use Rattle.gw_steps.specs.Example.{setup as with_points, started};
ghost use Rattle.law_history.specs.Example.{history_of};
ghost use Rattle.law_effects.specs.Endings.{dropped_by};
ghost use Rattle.law_effects.specs.Replies.{ended_by_fate};
ghost use Rattle.law_fates.specs.Example.{answers, done, refused, sets, stops};
ghost use Rattle.law_effects.specs.Example.{
  answer,
  closed_by_tick,
  is_client_told,
  is_late,
  is_newly_due,
  is_newly_offered,
  replied,
  tick,
  told,
};

/// Who has something to do, and who is told.
pub fn rousing_by_example()
    // The outstation comes up: its integrity poll is due.
    ensures up { is_newly_due [] ≡ true }
    ensures told { (told []).due_outstations ≡ 0 ∷ [] }
    // After a poll nothing is due until the answer ends; an order is due at once.
    ensures polled { (told (poll ∷ [])).due_outstations ≡ [] }
    ensures answered { is_newly_due (poll ∷ answer ∷ []) ≡ false }
    ensures ordered { is_newly_due (poll ∷ answer ∷ sets 0 ∷ []) ≡ true }
    ensures of_order { (told (poll ∷ answer ∷ sets 0 ∷ [])).due_outstations ≡ 0 ∷ [] }
    // Time makes the next poll due: a tick tells of it, whether it was due before or not.
    ensures early { (told (poll ∷ answer ∷ tick 1999 ∷ [])).due_outstations ≡ [] }
    ensures period { (told (poll ∷ answer ∷ tick 2000 ∷ [])).due_outstations ≡ 0 ∷ [] }
    ensures again { (told (poll ∷ answer ∷ tick 2000 ∷ tick 2000 ∷ [])).due_outstations ≡ 0 ∷ [] }
    // An order that comes while the integrity poll is due makes nothing due that wasn't.
    ensures due_before { is_newly_due (sets 0 ∷ []) ≡ false }
    // The outcome of an order may be put out to its client.
    ensures outcome { is_newly_offered (pump ∷ done) ≡ true }
    ensures client { is_client_told (pump ∷ done) ≡ true }
    ensures put_out { is_client_told (pump ∷ done ++ pump ∷ []) ≡ false }
{}

/// A request is late when the time for its answer has passed.
pub fn lateness_by_example()
    ensures in_time { (told (poll ∷ tick 4999 ∷ [])).unanswered ≡ [] }
    ensures not_yet { is_late (poll ∷ tick 4999 ∷ []) ≡ false }
    ensures late { (told (poll ∷ tick 5000 ∷ [])).unanswered ≡ 0 ∷ [] }
    ensures by_history { is_late (poll ∷ tick 5000 ∷ []) ≡ true }
    // A step at a later moment came before the tick.
    ensures by_another { is_late (poll ∷ steps.Poll 0 5000 0 ∷ tick 0 ∷ []) ≡ true }
    ensures once { (told (poll ∷ tick 5000 ∷ tick 5000 ∷ [])).unanswered ≡ [] }
    ensures lost { (told (poll ∷ outstation_down ∷ tick 5000 ∷ [])).unanswered ≡ [] }
{}

/// What the reply says of an order is its fate.
pub fn replies_by_example()
    ensures done { replied done ≡ Some (record { number = 1; done = true }) }
    ensures refused { replied refused ≡ Some (record { number = 2; done = false }) }
    ensures told { map ended_by_fate (told refused).ended ≡ record { number = 2; done = false } ∷ [] }
    // After a SELECT that succeeded the order goes on.
    ensures selected { replied (sets 0 ∷ poll ∷ answers 0xC0 0 ∷ []) ≡ None }
    ensures none { (told (sets 0 ∷ poll ∷ answers 0xC0 0 ∷ [])).ended ≡ [] }
{}

/// Sessions that end: a client is told of the end of its own.
pub fn endings_by_example()
    // With its pumps done nothing is left to be put out; STOPDT act ends the session.
    ensures stands { is_client_told (pump ∷ poll ∷ []) ≡ false }
    ensures stops { is_client_told (pump ∷ stops ∷ []) ≡ true }
    // What was sent is to be acknowledged in 15 seconds: then a tick closes the connection.
    ensures in_time { closed_by_tick (pump ∷ done ++ pump ∷ pump ∷ tick 14999 ∷ []) ≡ false }
    ensures passed { closed_by_tick (pump ∷ done ++ pump ∷ pump ∷ tick 15000 ∷ []) ≡ true }
    ensures told { is_client_told (pump ∷ done ++ pump ∷ pump ∷ tick 15000 ∷ []) ≡ true }
    // Of two news one may wait, so one was dropped: it is told where STOPDT act ends the session, not where it stands.
    ensures dropped { let narrow = record with_points { station = record with_points.station { queue = 1 } } in
        let past = history_of narrow (started ++ fragment_of event ∷ outstation_down ∷ []) in
        dropped_by narrow past stops replies.Taken 0 ∷ dropped_by narrow past poll replies.Nothing 0 ∷ []
        ≡ 1 ∷ 0 ∷ [] }
{}
