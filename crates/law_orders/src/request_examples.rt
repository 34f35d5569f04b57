//! Worked runs: what is due of an outstation, and with which sequence number.
ghost use Rattle.std.specs.Prelude.{◌≡◌, [], ◌∷◌, Some, None};
ghost use Rattle.dnp_app.specs.Asking.{RecordTime};
ghost use Rattle.gw_control.specs.Example.{setup};
ghost use Rattle.law_orders.specs.BondExample.{made as made_of_orders, selected, sends, set};
ghost use Rattle.law_orders.specs.Due.{clear_restart, disable, enable, event_poll, integrity_poll};
ghost use Rattle.law_orders.specs.Requests.{due_at, to_write, OfOrder, ToAsk};
ghost use Rattle.law_orders.specs.RequestExample.{
  answer,
  answered,
  comes,
  due_after,
  number_after,
  polled,
  polled_once,
  polls,
  recording,
  ticks,
  unsolicited,
  with_time,
  with_unsolicited,
};

/// Polls, by their periods and without an answer.
pub fn polls_by_example()
    // First an integrity poll. While it awaits its answer nothing is due; then event polls, 3 seconds after the
    // outstation came up, and 3 seconds after the one before.
    ensures first { due_after polled [] 5000 ≡ Some (ToAsk integrity_poll) }
    ensures awaits { due_after polled (polls 5100 ∷ []) 9000 ≡ None }
    ensures none { due_after polled (answered 0 0 []) 7999 ≡ None }
    ensures events { due_after polled (answered 0 0 []) 8000 ≡ Some (ToAsk event_poll) }
    ensures not_yet { due_after polled (answered 0 0 (polls 8500 ∷ answer 8600 1 0 0 ∷ [])) 11499 ≡ None }
    ensures again { due_after polled (answered 0 0 (polls 8500 ∷ answer 8600 1 0 0 ∷ [])) 11500
        ≡ Some (ToAsk event_poll) }
    // 40 seconds after it was given the integrity poll comes before the event poll; with the period 0 it doesn't.
    ensures before { due_after polled (answered 0 0 []) 45099 ≡ Some (ToAsk event_poll) }
    ensures period { due_after polled (answered 0 0 []) 45100 ≡ Some (ToAsk integrity_poll) }
    ensures no_period { due_after polled_once (answered 0 0 []) 45100 ≡ Some (ToAsk event_poll) }
    // No answer in 0.7 seconds: the integrity poll is due again, an event poll isn't.
    ensures in_time { due_after polled (polls 5100 ∷ ticks 5799 ∷ []) 5800 ≡ None }
    ensures late { due_after polled (polls 5100 ∷ ticks 5800 ∷ []) 5800 ≡ Some (ToAsk integrity_poll) }
    ensures given_up { due_after polled (answered 0 0 (polls 8000 ∷ ticks 8700 ∷ [])) 10999 ≡ None }
    ensures polled_again { due_after polled (answered 0 0 (polls 8000 ∷ ticks 8700 ∷ [])) 11000
        ≡ Some (ToAsk event_poll) }
    // The number goes on behind that of a request without an answer, and behind the last fragment of an answer.
    ensures at_first { number_after polled [] ≡ 0 }
    ensures behind_request { number_after polled (polls 5100 ∷ ticks 5800 ∷ []) ≡ 1 }
    ensures behind_answer { number_after polled (polls 5100 ∷ comes 5200 (0x80 ∷ 0x81 ∷ 0 ∷ 0 ∷ [])
        ∷ comes 5300 (0x41 ∷ 0x81 ∷ 0 ∷ 0 ∷ []) ∷ []) ≡ 2 }
    ensures not_unsolicited { number_after polled (unsolicited 5050 0 0 ∷ []) ≡ 0 }
{}

/// What internal indications make due, and the habits of unsolicited responses.
pub fn tasks_by_example()
    // A restart, IIN1.7, in an answer or unsolicited: it is cleared, and an integrity poll is due once. The answer to
    // the clearing makes it due no more, any other fragment with the bit does.
    ensures restart { due_after polled (answered 0x80 0 []) 5200 ≡ Some (ToAsk clear_restart) }
    ensures restart_told { due_after polled (unsolicited 5050 0x80 0 ∷ []) 5050 ≡ Some (ToAsk clear_restart) }
    ensures cleared { due_after polled (answered 0x80 0 (polls 5300 ∷ answer 5400 1 0x80 0 ∷ [])) 5400
        ≡ Some (ToAsk integrity_poll) }
    ensures still_there { due_after polled (answered 0x80 0 (polls 5300 ∷ answer 5400 1 0x80 0
        ∷ polls 5500 ∷ answer 5600 2 0x80 0 ∷ [])) 5600 ≡ Some (ToAsk clear_restart) }
    ensures once { due_after polled (answered 0x80 0 (polls 5300 ∷ answer 5400 1 0x80 0
        ∷ polls 5500 ∷ answer 5600 2 0 0 ∷ [])) 5600 ≡ None }
    // An overflow, IIN2.3, and neither IIN2.4 nor IIN2.5: an integrity poll, once as long as it stays.
    ensures overflow { due_after polled (answered 0 0x08 []) 5200 ≡ Some (ToAsk integrity_poll) }
    ensures overflow_stays { due_after polled (answered 0 0x08 (polls 5300 ∷ answer 5400 1 0 0x08 ∷ [])) 5400 ≡ None }
    ensures no_overflow { due_after polled (answered 0 0x30 []) 5200 ≡ None }
    // Events of class 1, 2 or 3: an event poll at once; other bits of IIN1 make nothing due.
    ensures class_1 { due_after polled (answered 0x02 0 []) 5200 ≡ Some (ToAsk event_poll) }
    ensures class_2 { due_after polled (unsolicited 5050 0x04 0 ∷ answered 0 0 []) 5200 ≡ Some (ToAsk event_poll) }
    ensures class_3 { due_after polled (answered 0x08 0 []) 5200 ≡ Some (ToAsk event_poll) }
    ensures other_bits { due_after polled (answered 0x71 0 []) 5200 ≡ None }
    // Unsolicited responses are disabled before the integrity poll and enabled after it; a request that is given up
    // isn't due again.
    ensures disable { due_after with_unsolicited [] 5000 ≡ Some (ToAsk disable) }
    ensures disable_once { due_after with_unsolicited (polls 5100 ∷ ticks 5800 ∷ []) 5800
        ≡ Some (ToAsk integrity_poll) }
    ensures enable { due_after with_unsolicited (answered 0 0 (polls 5300 ∷ answer 5400 1 0 0 ∷ [])) 5400
        ≡ Some (ToAsk enable) }
    ensures enabled { due_after with_unsolicited (answered 0 0 (polls 5300 ∷ answer 5400 1 0 0
        ∷ polls 5500 ∷ answer 5600 2 0 0 ∷ [])) 5600 ≡ None }
{}

/// The clock of an outstation.
pub fn times_by_example()
    // IIN1.4, where the clock is set: the time is recorded, and then the wall time of that request is written.
    ensures unset { due_after polled (answered 0x10 0 []) 5200 ≡ None }
    ensures record { due_after with_time (answered 0x10 0 []) 5200 ≡ Some (ToAsk RecordTime) }
    ensures write { due_after with_time (recording (answer 5400 1 0x10 0 ∷ [])) 5900 ≡ Some (to_write 1700000005300) }
    ensures written { due_after with_time (recording (answer 5400 1 0x10 0 ∷ polls 5500 ∷ answer 5600 2 0 0 ∷ [])) 5600
        ≡ None }
    // An answer in two fragments; no answer; and a clock that needs the time again.
    ensures half { due_after with_time (recording (comes 5400 (0x81 ∷ 0x81 ∷ 0x10 ∷ 0 ∷ []) ∷ [])) 5400 ≡ None }
    ensures given_up { due_after with_time (recording (ticks 6000 ∷ [])) 6000 ≡ None }
    ensures needed_again { due_after with_time (recording (answer 5400 1 0x10 0 ∷ polls 5500 ∷ answer 5600 2 0x10 0
        ∷ [])) 5600 ≡ Some (ToAsk RecordTime) }
{}

/// Orders come first.
#[tactic(auto, unfolding(iec_command::specs::Commands::command_of, dnp_objects::specs::Headers::headers_from, dnp_objects::specs::Library::object_of))]
pub fn orders_by_example()
    // An order that waits, then OPERATE once its SELECT was taken, before the event poll that is due as well.
    ensures waits { due_at setup 0 (made_of_orders (sends 0 set ∷ [])) 2000 ≡ Some (OfOrder 1) }
    ensures operate { due_at setup 0 (made_of_orders (selected 0 [])) 2000 ≡ Some (OfOrder 1) }
    ensures refused { due_at setup 0 (made_of_orders (selected 4 [])) 2000 ≡ Some (ToAsk event_poll) }
    // OPERATE comes before an order that waits.
    ensures operate_first { due_at setup 0 (made_of_orders (selected 0 (sends 1 set ∷ []))) 2000 ≡ Some (OfOrder 1) }
{}
