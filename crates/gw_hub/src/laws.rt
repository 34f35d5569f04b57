//! What the hub's questions tell of its steps.
ghost use Rattle.std.specs.Prelude.{◌≡◌, ℕ, true, is_some, slice_get, Some};
ghost use Rattle.gw_map.specs.Settings.{Setup};
ghost use Rattle.law_orders.specs.Marks.{request_of};
ghost use Rattle.gw_steps.specs.declared.step.Step.TheVariants as steps;
ghost use Rattle.gw_steps.specs.State.{State};
ghost use Rattle.gw_steps.specs.Steps.{client_up, reply_to};
ghost use Rattle.gw_steps.specs.Queries.{gives_apdu, has_offer, is_poll_due};

/// A poll of an outstation is due exactly where it would be answered with a request, also with that of an order,
/// whatever its wall time is.
pub fn polls_are_due()
    ensures { (setup : Setup) (s : State) (outstation wall : ℕ) → is_poll_due s outstation
        ≡ is_some (request_of (reply_to setup s (steps.Poll outstation s.moment wall))) }
{}

/// A pump for a client that is up is due exactly where it would be answered with an APDU.
pub fn pumps_are_due()
    ensures { (setup : Setup) (s : State) (client : ℕ) → client_up s client ≡ Some true
        → has_offer s.moment (slice_get s.clients client) ≡ gives_apdu (reply_to setup s (steps.Pump client s.moment)) }
{}
