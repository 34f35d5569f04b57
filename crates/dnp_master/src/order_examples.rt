//! Worked examples of orders, computed by the definitions.
ghost use Rattle.std.specs.Prelude.{◌≡◌, [], ◌∷◌, ◌++◌, Some, None, true, false};
ghost use Rattle.dnp_app.specs.Requests.{clear_restart_octets, read_octets, record_time_octets};
ghost use Rattle.dnp_master.specs.declared.verdict.Verdict.TheVariants.{Accepted, Ignored};
ghost use Rattle.dnp_master.specs.declared.verdict.Ignored.TheVariants.{NoRequest, WrongSequence};
ghost use Rattle.dnp_app.specs.declared.operation.Operation.TheVariants.{DirectOperate, Select};
ghost use Rattle.dnp_master.specs.declared.answered.Taken.TheVariants.{Done, Otherwise, Refused};
ghost use Rattle.dnp_master.specs.Master.{is_ready};
ghost use Rattle.dnp_master.specs.Example.{
  after,
  answered,
  failed,
  given,
  judged,
  late,
  latch,
  latch_answer,
  latch_object,
  latched,
  lost,
  operating,
  ordered,
  plain,
  polled,
  selected,
  selecting,
  setpoint,
  setpoint_answer,
  setpoint_object,
  succeeded,
  with_time,
  Comes,
  Polls,
  Ticks,
};

/// An output is switched at once, by DIRECT_OPERATE.
#[tactic(auto, unfolding(dnp_objects::specs::Headers::headers_from, dnp_objects::specs::Library::object_of))]
pub fn direct_operate_by_example()
    ensures request { ordered plain polled latch ≡ 0xC1 ∷ 0x05 ∷ latch_object 0 }
    // Nothing is given while it awaits its answer, and no other order taken; once it was answered, the next request has
    // the number that follows.
    ensures awaits { given plain latched 4999 0 ≡ None }
    ensures busy { is_ready (after plain latched) ≡ false }
    ensures taken { judged plain latched (latch_answer (0xC1 ∷ 0x81 ∷ 0 ∷ 0 ∷ []) 0)
        ≡ Accepted None true (Some succeeded) }
    ensures after_it { given plain (latched ++ Comes 0 (latch_answer (0xC1 ∷ 0x81 ∷ 0 ∷ 0 ∷ []) 0) ∷ []) 2000 0
        ≡ Some (read_octets false 2) }
    // A status of 4 (control operation not supported).
    ensures refused { judged plain latched (latch_answer (0xC1 ∷ 0x81 ∷ 0 ∷ 0 ∷ []) 4)
        ≡ Accepted None true (Some failed) }
    // An echo of another output, of a latch off, of two operations, of a set point; none; two; beside another object.
    ensures other_index { judged plain latched (0xC1 ∷ 0x81 ∷ 0 ∷ 0 ∷ 0x0C ∷ 0x01 ∷ 0x28 ∷ 0x01 ∷ 0x00 ∷ 0x04 ∷ 0x00
        ∷ 0x03 ∷ 0x01 ∷ 0 ∷ 0 ∷ 0 ∷ 0 ∷ 0 ∷ 0 ∷ 0 ∷ 0 ∷ 0 ∷ []) ≡ Accepted None true (Some failed) }
    ensures other_code { judged plain latched (0xC1 ∷ 0x81 ∷ 0 ∷ 0 ∷ 0x0C ∷ 0x01 ∷ 0x28 ∷ 0x01 ∷ 0x00 ∷ 0x03 ∷ 0x00
        ∷ 0x04 ∷ 0x01 ∷ 0 ∷ 0 ∷ 0 ∷ 0 ∷ 0 ∷ 0 ∷ 0 ∷ 0 ∷ 0 ∷ []) ≡ Accepted None true (Some failed) }
    ensures other_count { judged plain latched (0xC1 ∷ 0x81 ∷ 0 ∷ 0 ∷ 0x0C ∷ 0x01 ∷ 0x28 ∷ 0x01 ∷ 0x00 ∷ 0x03 ∷ 0x00
        ∷ 0x03 ∷ 0x02 ∷ 0 ∷ 0 ∷ 0 ∷ 0 ∷ 0 ∷ 0 ∷ 0 ∷ 0 ∷ 0 ∷ []) ≡ Accepted None true (Some failed) }
    ensures other_group { judged plain latched (0xC1 ∷ 0x81 ∷ 0 ∷ 0 ∷ 0x29 ∷ 0x02 ∷ 0x28 ∷ 0x01 ∷ 0x00 ∷ 0x03 ∷ 0x00
        ∷ 0x03 ∷ 0x01 ∷ 0 ∷ []) ≡ Accepted None true (Some failed) }
    ensures no_echo { judged plain latched (0xC1 ∷ 0x81 ∷ 0 ∷ 0 ∷ []) ≡ Accepted None true (Some failed) }
    ensures two_echoes { judged plain latched (latch_answer (latch_answer (0xC1 ∷ 0x81 ∷ 0 ∷ 0 ∷ []) 0) 0)
        ≡ Accepted None true (Some failed) }
    ensures beside { judged plain latched (latch_answer (0xE1 ∷ 0x81 ∷ 0 ∷ 0 ∷ 0x02 ∷ 0x01 ∷ 0x17 ∷ 0x01 ∷ 0x05 ∷ 0x81
        ∷ []) 0) ≡ Accepted (Some (0xC1 ∷ 0 ∷ [])) true (Some succeeded) }
    // An index of one octet gives the same echo.
    ensures short_index { judged plain latched (0xC1 ∷ 0x81 ∷ 0 ∷ 0 ∷ 0x0C ∷ 0x01 ∷ 0x17 ∷ 0x01 ∷ 0x03
        ∷ 0x03 ∷ 0x01 ∷ 0 ∷ 0 ∷ 0 ∷ 0 ∷ 0 ∷ 0 ∷ 0 ∷ 0 ∷ 0 ∷ []) ≡ Accepted None true (Some succeeded) }
    // The last fragment of an answer counts, and no other one.
    ensures first_part { judged plain latched (latch_answer (0x81 ∷ 0x81 ∷ 0 ∷ 0 ∷ []) 0) ≡ Accepted None false None }
    ensures in_the_first { judged plain (latched ++ Comes 0 (latch_answer (0x81 ∷ 0x81 ∷ 0 ∷ 0 ∷ []) 0) ∷ [])
        (0x42 ∷ 0x81 ∷ 0 ∷ 0 ∷ []) ≡ Accepted None true (Some failed) }
    ensures in_the_last { judged plain (latched ++ Comes 0 (0x81 ∷ 0x81 ∷ 0 ∷ 0 ∷ []) ∷ [])
        (latch_answer (0x42 ∷ 0x81 ∷ 0 ∷ 0 ∷ []) 0) ≡ Accepted None true (Some succeeded) }
    // No answer in 5 seconds: it failed. It is not repeated, and its echo comes too late.
    ensures patient { late plain latched 4999 ≡ None }
    ensures unanswered { late plain latched 5000 ≡ Some failed }
    ensures once { late plain (latched ++ Ticks 5000 ∷ []) 6000 ≡ None }
    ensures not_repeated { given plain (latched ++ Ticks 5000 ∷ []) 5000 0 ≡ Some (read_octets false 2) }
    ensures too_late { judged plain (latched ++ Ticks 5000 ∷ []) (latch_answer (0xC1 ∷ 0x81 ∷ 0 ∷ 0 ∷ []) 0)
        ≡ Ignored NoRequest }
    // A poll that isn't answered in time ends no order.
    ensures poll_late { late plain (Polls 0 0 ∷ []) 5000 ≡ None }
    // The outstation is lost before, meanwhile and after.
    ensures lost_before { lost plain polled ≡ None }
    ensures lost_polling { lost plain (Polls 0 0 ∷ []) ≡ None }
    ensures lost_meanwhile { lost plain latched ≡ Some failed }
    ensures lost_after { lost plain (latched ++ Comes 0 (latch_answer (0xC1 ∷ 0x81 ∷ 0 ∷ 0 ∷ []) 0) ∷ []) ≡ None }
{}

/// An output is set by SELECT and then OPERATE.
#[tactic(auto, unfolding(dnp_objects::specs::Headers::headers_from, dnp_objects::specs::Library::object_of))]
pub fn select_and_operate_by_example()
    ensures request { ordered plain polled setpoint ≡ 0xC1 ∷ 0x03 ∷ setpoint_object 0 }
    // SELECT succeeded: OPERATE follows, of the same object under the next number, and no order is taken before.
    ensures select { judged plain selecting (setpoint_answer (0xC1 ∷ 0x81 ∷ 0 ∷ 0 ∷ []) 0) ≡ Accepted None true None }
    ensures operate { given plain selected 0 0 ≡ Some (0xC2 ∷ 0x04 ∷ setpoint_object 0) }
    ensures busy { is_ready (after plain selected) ≡ false }
    ensures taken { judged plain operating (setpoint_answer (0xC2 ∷ 0x81 ∷ 0 ∷ 0 ∷ []) 0)
        ≡ Accepted None true (Some succeeded) }
    ensures once { given plain operating 4999 0 ≡ None }
    ensures over { given plain (operating ++ Comes 0 (setpoint_answer (0xC2 ∷ 0x81 ∷ 0 ∷ 0 ∷ []) 0) ∷ []) 1999 0
        ≡ None }
    // A status of 4 to SELECT: no OPERATE; to OPERATE.
    ensures refused { judged plain selecting (setpoint_answer (0xC1 ∷ 0x81 ∷ 0 ∷ 0 ∷ []) 4)
        ≡ Accepted None true (Some failed) }
    ensures no_operate { given plain (selecting ++ Comes 0 (setpoint_answer (0xC1 ∷ 0x81 ∷ 0 ∷ 0 ∷ []) 4) ∷ []) 0 0
        ≡ None }
    ensures operate_refused { judged plain operating (setpoint_answer (0xC2 ∷ 0x81 ∷ 0 ∷ 0 ∷ []) 4)
        ≡ Accepted None true (Some failed) }
    // Another value; a status of 4 that comes first, before the object as it was sent.
    ensures other_value { judged plain selecting (0xC1 ∷ 0x81 ∷ 0 ∷ 0 ∷ 0x29 ∷ 0x02 ∷ 0x28 ∷ 0x01 ∷ 0x00 ∷ 0x04 ∷ 0x00
        ∷ 0xE8 ∷ 0x04 ∷ 0x00 ∷ []) ≡ Accepted None true (Some failed) }
    ensures two_answers { judged plain selecting (setpoint_answer (setpoint_answer (0xC1 ∷ 0x81 ∷ 0 ∷ 0 ∷ []) 4) 0)
        ≡ Accepted None true (Some failed) }
    // OPERATE comes before what the indications of the answer ask for: a restart, a time, events.
    ensures restarted { given with_time
        (selecting ++ Comes 0 (setpoint_answer (0xC1 ∷ 0x81 ∷ 0x92 ∷ 0 ∷ []) 0) ∷ []) 0 0
        ≡ Some (0xC2 ∷ 0x04 ∷ setpoint_object 0) }
    ensures then_restart { given with_time (selecting ++ Comes 0 (setpoint_answer (0xC1 ∷ 0x81 ∷ 0x92 ∷ 0 ∷ []) 0)
        ∷ Polls 0 0 ∷ Comes 0 (setpoint_answer (0xC2 ∷ 0x81 ∷ 0x92 ∷ 0 ∷ []) 0) ∷ []) 0 0
        ≡ Some (clear_restart_octets 3) }
    ensures then_time { given with_time (selecting ++ Comes 0 (setpoint_answer (0xC1 ∷ 0x81 ∷ 0x12 ∷ 0 ∷ []) 0)
        ∷ Polls 0 0 ∷ Comes 0 (setpoint_answer (0xC2 ∷ 0x81 ∷ 0x12 ∷ 0 ∷ []) 0) ∷ []) 0 0
        ≡ Some (record_time_octets 3) }
    // An unsolicited response echoes nothing for it, before the answer and between SELECT and OPERATE.
    ensures unsolicited { judged plain selecting (setpoint_answer (0xD0 ∷ 0x82 ∷ 0 ∷ 0 ∷ []) 4)
        ≡ Accepted None false None }
    ensures still_awaits { judged plain (selecting ++ Comes 0 (setpoint_answer (0xD0 ∷ 0x82 ∷ 0 ∷ 0 ∷ []) 4) ∷ [])
        (setpoint_answer (0xC1 ∷ 0x81 ∷ 0 ∷ 0 ∷ []) 0) ≡ Accepted None true None }
    ensures still_due { given plain (selected ++ Comes 0 (setpoint_answer (0xF0 ∷ 0x82 ∷ 0x80 ∷ 0 ∷ []) 4) ∷ []) 0 0
        ≡ Some (0xC2 ∷ 0x04 ∷ setpoint_object 0) }
    // The answer to SELECT comes again, while OPERATE is due and while it awaits its answer.
    ensures select_again { judged plain selected (setpoint_answer (0xC1 ∷ 0x81 ∷ 0 ∷ 0 ∷ []) 0) ≡ Ignored NoRequest }
    ensures again { judged plain operating (setpoint_answer (0xC1 ∷ 0x81 ∷ 0 ∷ 0 ∷ []) 0) ≡ Ignored WrongSequence }
    // SELECT isn't answered in 5 seconds; its echo comes too late, and no OPERATE follows.
    ensures unanswered { late plain selecting 5000 ≡ Some failed }
    ensures too_late { judged plain (selecting ++ Ticks 5000 ∷ []) (setpoint_answer (0xC1 ∷ 0x81 ∷ 0 ∷ 0 ∷ []) 0)
        ≡ Ignored NoRequest }
    ensures none_follows { given plain (selecting ++ Ticks 5000
        ∷ Comes 5000 (setpoint_answer (0xC1 ∷ 0x81 ∷ 0 ∷ 0 ∷ []) 0) ∷ []) 5000 0 ≡ Some (read_octets false 2) }
    // OPERATE that is due has no time of its own; given, it has.
    ensures no_time { late plain selected 1000000 ≡ None }
    ensures operate_unanswered { late plain operating 5000 ≡ Some failed }
    // The outstation is lost while SELECT awaits its answer, while OPERATE is due, while that awaits its own, and
    // after it.
    ensures lost_selecting { lost plain selecting ≡ Some failed }
    ensures lost_selected { lost plain selected ≡ Some failed }
    ensures lost_operating { lost plain operating ≡ Some failed }
    ensures lost_after { lost plain (operating ++ Comes 0 (setpoint_answer (0xC2 ∷ 0x81 ∷ 0 ∷ 0 ∷ []) 0) ∷ []) ≡ None }
{}

/// How an outstation takes a command, by its echo.
#[tactic(auto, unfolding(dnp_objects::specs::Headers::headers_from, dnp_objects::specs::Library::object_of))]
pub fn answers_by_example()
    ensures done { answered plain latched (latch_answer (0xC1 ∷ 0x81 ∷ 0 ∷ 0 ∷ []) 0)
        ≡ Some (record { operation = DirectOperate; taken = Done }) }
    // Local control (status 7), and a status that no table has.
    ensures local { answered plain latched (latch_answer (0xC1 ∷ 0x81 ∷ 0 ∷ 0 ∷ []) 7)
        ≡ Some (record { operation = DirectOperate; taken = Refused 7 }) }
    ensures largest { answered plain latched (latch_answer (0xC1 ∷ 0x81 ∷ 0 ∷ 0 ∷ []) 255)
        ≡ Some (record { operation = DirectOperate; taken = Refused 255 }) }
    // None, and one of another output, with whatever status.
    ensures none { answered plain latched (0xC1 ∷ 0x81 ∷ 0 ∷ 0 ∷ [])
        ≡ Some (record { operation = DirectOperate; taken = Otherwise }) }
    ensures other_index { answered plain latched (0xC1 ∷ 0x81 ∷ 0 ∷ 0 ∷ 0x0C ∷ 0x01 ∷ 0x28 ∷ 0x01 ∷ 0x00 ∷ 0x04 ∷ 0x00
        ∷ 0x03 ∷ 0x01 ∷ 0 ∷ 0 ∷ 0 ∷ 0 ∷ 0 ∷ 0 ∷ 0 ∷ 0 ∷ 7 ∷ [])
        ≡ Some (record { operation = DirectOperate; taken = Otherwise }) }
    // Of the requests of an order with SELECT the one that awaits its answer counts; of a poll there is nothing to take.
    ensures select { answered plain selecting (0xC1 ∷ 0x81 ∷ 0 ∷ 0 ∷ [])
        ≡ Some (record { operation = Select; taken = Otherwise }) }
    ensures poll { answered plain (Polls 0 0 ∷ []) (0xC0 ∷ 0x81 ∷ 0 ∷ 0 ∷ []) ≡ None }
{}
