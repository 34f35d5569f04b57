//! Laws of selections and orders, whatever comes.
ghost use Rattle.std.specs.Prelude.{◌≡◌, ◌+◌, ◌≤◌, ◌==◌, ◌&&◌, ℕ, List, Option, Some, None, slice_get, IfSome};
ghost use Rattle.gw_model.specs.declared.control.Act.{Act};
ghost use Rattle.gw_model.specs.declared.control.Ended.{Ended};
ghost use Rattle.gw_entries.specs.declared.control.Control.{Control};
ghost use Rattle.gw_map.specs.Settings.{Setup};
ghost use Rattle.gw_control.specs.declared.asked.AskedCommand.{AskedCommand};
ghost use Rattle.gw_control.specs.declared.selection.Selection.{Selection};
ghost use Rattle.gw_control.specs.Orders.{places};
ghost use Rattle.gw_control.specs.Controls.{act_accepted, answer_of, controls_after_command, controls_after_end};
ghost use Rattle.gw_control.specs.Controls.{controls_after_ended, controls_after_lost, controls_after_taking};
ghost use Rattle.gw_control.specs.Controls.{is_order, no_controls, no_controls_after, outcome_ended_at};
ghost use Rattle.gw_control.specs.Controls.{outcome_lost_at, standing_at, Controls, IsAccepted};
ghost use Rattle.gw_control.specs.Held.{controls_after_losses, orders_of, outcomes_to};
ghost use Rattle.gw_control.specs.Moves.{after_move, one_if, outcomes_told, HasWholeCommands};
ghost use Rattle.gw_control.specs.Moves.{IsSoundControls, IsWholeMove, IsWholeOrder, Move, Spares};

/// A selection ends by time, by its client's commands for the control, or with its session, and by nothing else: it
/// stands at a moment after whatever else came before.
pub fn selections_stand()
    ensures { (setup : Setup) (moment position : ℕ) (s : Selection) (move : Move) (v : Controls)
        → standing_at setup moment position v ≡ Some s → Spares setup moment position s move
        → standing_at setup moment position (after_move setup move v) ≡ Some s }
{}

/// An execute that is accepted asks what its command asks, of an outstation that is up and has a place for it; no other
/// client has the control selected, and where the control wants it this one has, in its session and for the same.
pub fn accepted_executes()
    ensures { (a : AskedCommand) (control : Control) (standing : Option Selection) (v : Controls) (act : Act)
        → act_accepted a control standing v ≡ Some act → IsAccepted a control standing v act }
{}

/// An order has at most one outcome: each number is told of at most once.
pub fn outcomes_come_once()
    ensures { (setup : Setup) (n : ℕ) (moves : List Move) → outcomes_told setup n moves (no_controls setup) ≤ 1 }
{}

/// There is always a place for each client, control and outstation, and the orders stay in order.
pub fn controls_stay_sound()
    ensures first { (setup : Setup) (n : ℕ) → IsSoundControls setup (no_controls_after n setup) }
    ensures kept { (setup : Setup) (move : Move) (v : Controls)
        → IsSoundControls setup v → IsSoundControls setup (after_move setup move v) }
{}

/// The commands of orders, and so of outcomes, have the bits of their places, where all that came had, and types that
/// operate controls.
pub fn commands_stay_whole()
    ensures first { (setup : Setup) (n : ℕ) → HasWholeCommands (no_controls_after n setup) }
    ensures kept { (setup : Setup) (move : Move) (v : Controls)
        → IsWholeMove move → HasWholeCommands v → HasWholeCommands (after_move setup move v) }
    ensures ended { (outstation : ℕ) (ended : Ended) (v : Controls)
        → HasWholeCommands v
        → IfSome (outcome_ended_at ended (slice_get v.outgoing outstation)) (λ outcome. IsWholeOrder outcome.command) }
    ensures lost { (outstation : ℕ) (v : Controls)
        → HasWholeCommands v
        → IfSome (outcome_lost_at (slice_get v.outgoing outstation)) (λ outcome. IsWholeOrder outcome.command) }
{}

/// What is accepted holds its places until its outcome, or until its session ends.
pub fn places_are_held()
    ensures first { (setup : Setup) (n c : ℕ) → orders_of c (no_controls_after n setup) ≡ 0 }
    // One more where a command of the client is an order.
    ensures command { (setup : Setup) (c : ℕ) (a : AskedCommand) (v : Controls)
        → orders_of c (controls_after_command setup a v)
        ≡ orders_of c v + one_if ((a.client == c) && is_order (answer_of setup a v)) }
    ensures taking { (c outstation : ℕ) (v : Controls)
        → orders_of c (controls_after_taking outstation v) ≡ orders_of c v }
    // One less for each outcome that it is told.
    ensures ended { (c outstation : ℕ) (ended : Ended) (v : Controls)
        → orders_of c v ≡ orders_of c (controls_after_ended outstation ended v)
        + outcomes_to c (outcome_ended_at ended (slice_get v.outgoing outstation)) }
    ensures lost { (c outstation : ℕ) (v : Controls)
        → orders_of c v ≡ orders_of c (controls_after_lost outstation v)
        + outcomes_to c (outcome_lost_at (slice_get v.outgoing outstation)) }
    // None when its session ends, and nothing to others.
    ensures end { (c : ℕ) (v : Controls) → orders_of c (controls_after_end c v) ≡ 0 }
    ensures others { (c d : ℕ) → (c ≡ d → ⊥) → (v : Controls)
        → orders_of d (controls_after_end c v) ≡ orders_of d v }
{}

/// Once as many orders of a lost outstation failed as may wait, none waits for it.
pub fn losses_end()
    ensures { (setup : Setup) (outstation : ℕ) (v : Controls)
        → IsSoundControls setup v
        → outcome_lost_at (slice_get (controls_after_losses places outstation v).outgoing outstation) ≡ None }
{}
