//! The laws of every run of the step relation. Their premise: the run is sound; and where orders are spoken of, the index of
//! each control of the settings has 16 bits. A hub keeps both by its type.
ghost use Rattle.std.specs.Prelude.{List};
ghost use Rattle.std.specs.List.{AllByRecursion};
ghost use Rattle.gw_map.specs.Settings.{Setup};
ghost use Rattle.gw_steps.specs.Runs.{AtEach, Entry};
ghost use Rattle.gw_steps.specs.Premises.{IsSoundRun};
ghost use Rattle.law_orders.specs.Bonds.{HasShortIndex};
ghost use Rattle.law_effects.specs.Rousing.{LeavesNobodyAsleep};
ghost use Rattle.law_effects.specs.Lateness.{TellsLate};
ghost use Rattle.law_effects.specs.Endings.{TellsEnds};
ghost use Rattle.law_effects.specs.Refusals.{TellsReason};
ghost use Rattle.law_effects.specs.Replies.{RepliesFate};

/// At each point of a run: the last step told of each outstation to which a request is due now and wasn't without the step,
/// and of each client for which something may be put out now and mightn't without it. A tick told of all for which there
/// is something.
pub fn nobody_is_left_asleep()
    ensures { (setup : Setup) (past : List Entry) → IsSoundRun setup past → AtEach (LeavesNobodyAsleep setup) past }
{}

/// At each point of a run: the last step told that a request of an outstation ended unanswered exactly where it is a tick,
/// and by the history the time for the answer has passed.
pub fn unanswered_are_late()
    ensures { (setup : Setup) (past : List Entry) → IsSoundRun setup past → AtEach (TellsLate setup) past }
{}

/// At each point of a run: where the last reply says of a fragment that an order ended with it, by its number and whether it
/// was done, the step told the end of that order and of no other, and its fate is that it was done exactly where the reply
/// says so. Where the reply says of no order, none ended.
pub fn replies_tell_fates()
    ensures { (setup : Setup) (past : List Entry) → IsSoundRun setup past → AllByRecursion HasShortIndex setup.controls
        → AtEach (RepliesFate setup) past }
{}

/// At each point of a run: where the last step ended the session of a client, it told of that client, and how many news were
/// dropped in the session. Of dropped news it told no other. Which sessions a step ends its reply tells: that of a tick has
/// a bit for each client that t1 closes.
pub fn ended_sessions_are_told()
    ensures { (setup : Setup) (past : List Entry) → IsSoundRun setup past → AtEach (TellsEnds setup) past }
{}

/// At each point of a run: where the last step judged a client's command for a control, it told a reason exactly where the
/// command is confirmed negatively.
pub fn negatives_have_reasons()
    ensures { (setup : Setup) (past : List Entry) → IsSoundRun setup past → AtEach (TellsReason setup) past }
{}
