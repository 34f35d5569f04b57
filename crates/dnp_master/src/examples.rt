//! Worked examples, computed by the definitions.
ghost use Rattle.std.specs.Prelude.{◌≡◌, [], ◌∷◌, Some, None, true, false};
ghost use Rattle.dnp_app.specs.Requests.{clear_restart_octets, disable_octets, enable_octets, read_octets, record_time_octets};
ghost use Rattle.dnp_master.specs.declared.verdict.Verdict.TheVariants.{Accepted, Repeated, Ignored};
ghost use Rattle.dnp_master.specs.declared.verdict.Ignored.TheVariants.{NoRequest, WrongSequence, WrongFirst};
ghost use Rattle.dnp_master.specs.Master.{master_after_up, master_down, request_given};
ghost use Rattle.dnp_master.specs.Fragments.{verdict_of};
ghost use Rattle.dnp_master.specs.Example.{after, given, hasty, judged, plain, response, with_time, with_unsolicited, Comes, Polls, Ticks};

/// What becomes of fragments.
pub fn verdicts_by_example()
    // F0 82: unsolicited, asks for a confirmation; D1 82: unsolicited, asks for none. The same octets again are a
    // repeat; other indications, another one in between or a connection that came up again, and it is accepted.
    ensures unsolicited { judged plain [] (0xF0 ∷ 0x82 ∷ 0 ∷ 0 ∷ []) ≡ Accepted (Some (0xD0 ∷ 0 ∷ [])) false None }
    ensures unconfirmed { judged plain [] (0xD1 ∷ 0x82 ∷ 0 ∷ 0 ∷ []) ≡ Accepted None false None }
    ensures repeated { judged plain (Comes 0 (0xF0 ∷ 0x82 ∷ 0 ∷ 0 ∷ []) ∷ []) (0xF0 ∷ 0x82 ∷ 0 ∷ 0 ∷ [])
        ≡ Repeated (Some (0xD0 ∷ 0 ∷ [])) }
    ensures other_body { judged plain (Comes 0 (0xF0 ∷ 0x82 ∷ 0 ∷ 0 ∷ []) ∷ []) (0xF0 ∷ 0x82 ∷ 0 ∷ 1 ∷ [])
        ≡ Accepted (Some (0xD0 ∷ 0 ∷ [])) false None }
    ensures another { judged plain
        (Comes 0 (0xF0 ∷ 0x82 ∷ 0 ∷ 0 ∷ []) ∷ Comes 0 (0xD1 ∷ 0x82 ∷ 0 ∷ 0 ∷ []) ∷ [])
        (0xF0 ∷ 0x82 ∷ 0 ∷ 0 ∷ []) ≡ Accepted (Some (0xD0 ∷ 0 ∷ [])) false None }
    ensures again_up { verdict_of (master_after_up 7 (after plain (Comes 0 (0xF0 ∷ 0x82 ∷ 0 ∷ 0 ∷ []) ∷ [])))
        (response (0xF0 ∷ 0x82 ∷ 0 ∷ 0 ∷ [])) ≡ Accepted (Some (0xD0 ∷ 0 ∷ [])) false None }
    // No request awaits an answer, before a poll and after the answer's end.
    ensures no_request { judged plain [] (0xC0 ∷ 0x81 ∷ 0 ∷ 0 ∷ []) ≡ Ignored NoRequest }
    ensures answered_already { judged plain (Polls 0 0 ∷ Comes 0 (0xC0 ∷ 0x81 ∷ 0 ∷ 0 ∷ []) ∷ [])
        (0xC0 ∷ 0x81 ∷ 0 ∷ 0 ∷ []) ≡ Ignored NoRequest }
    // An answer in two fragments; one that begins without FIR, and one whose second fragment has it.
    ensures wrong_sequence { judged plain (Polls 0 0 ∷ []) (0xC1 ∷ 0x81 ∷ 0 ∷ 0 ∷ []) ≡ Ignored WrongSequence }
    ensures wrong_first { judged plain (Polls 0 0 ∷ []) (0x40 ∷ 0x81 ∷ 0 ∷ 0 ∷ []) ≡ Ignored WrongFirst }
    ensures wrong_both { judged plain (Polls 0 0 ∷ []) (0x41 ∷ 0x81 ∷ 0 ∷ 0 ∷ []) ≡ Ignored WrongSequence }
    ensures first_part { judged plain (Polls 0 0 ∷ []) (0x80 ∷ 0x81 ∷ 0 ∷ 0 ∷ []) ≡ Accepted None false None }
    ensures next_part { judged plain (Polls 0 0 ∷ Comes 0 (0x80 ∷ 0x81 ∷ 0 ∷ 0 ∷ []) ∷ [])
        (0x61 ∷ 0x81 ∷ 0 ∷ 0 ∷ []) ≡ Accepted (Some (0xC1 ∷ 0 ∷ [])) true None }
    ensures first_again { judged plain (Polls 0 0 ∷ Comes 0 (0x80 ∷ 0x81 ∷ 0 ∷ 0 ∷ []) ∷ [])
        (0xC1 ∷ 0x81 ∷ 0 ∷ 0 ∷ []) ≡ Ignored WrongFirst }
    ensures same_again { judged plain (Polls 0 0 ∷ Comes 0 (0x80 ∷ 0x81 ∷ 0 ∷ 0 ∷ []) ∷ [])
        (0x80 ∷ 0x81 ∷ 0 ∷ 0 ∷ []) ≡ Ignored WrongSequence }
    // An unsolicited response between the fragments of an answer changes nothing for it.
    ensures between { judged plain (Polls 0 0 ∷ Comes 0 (0x80 ∷ 0x81 ∷ 0 ∷ 0 ∷ [])
        ∷ Comes 0 (0xF0 ∷ 0x82 ∷ 0 ∷ 0 ∷ []) ∷ []) (0x41 ∷ 0x81 ∷ 0 ∷ 0 ∷ []) ≡ Accepted None true None }
    // The first fragment was accepted 4,999 ms after the request, so the time for the next one is not over at 5,000.
    ensures patient { judged plain (Polls 0 0 ∷ Comes 4999 (0x80 ∷ 0x81 ∷ 0 ∷ 0 ∷ []) ∷ Ticks 9998 ∷ [])
        (0x41 ∷ 0x81 ∷ 0 ∷ 0 ∷ []) ≡ Accepted None true None }
    ensures too_late { judged plain (Polls 0 0 ∷ Comes 4999 (0x80 ∷ 0x81 ∷ 0 ∷ 0 ∷ []) ∷ Ticks 9999 ∷ [])
        (0x41 ∷ 0x81 ∷ 0 ∷ 0 ∷ []) ≡ Ignored NoRequest }
{}

/// What polls give.
pub fn requests_by_example()
    // First an integrity poll. While it awaits its answer nothing is given; then event polls, 2 seconds after the
    // outstation came up, and 2 seconds after the one before.
    ensures integrity { given plain [] 0 0 ≡ Some (read_octets true 0) }
    ensures awaits { given plain (Polls 0 0 ∷ []) 4000 0 ≡ None }
    ensures none_due { given plain (Polls 0 0 ∷ Comes 0 (0xC0 ∷ 0x81 ∷ 0 ∷ 0 ∷ []) ∷ []) 1999 0 ≡ None }
    ensures events { given plain (Polls 0 0 ∷ Comes 0 (0xC0 ∷ 0x81 ∷ 0 ∷ 0 ∷ []) ∷ []) 2000 0
        ≡ Some (read_octets false 1) }
    ensures events_again { given plain (Polls 0 0 ∷ Comes 0 (0xC0 ∷ 0x81 ∷ 0 ∷ 0 ∷ []) ∷ Polls 2500 0
        ∷ Comes 2600 (0xC1 ∷ 0x81 ∷ 0 ∷ 0 ∷ []) ∷ []) 4499 0 ≡ None }
    ensures events_then { given plain (Polls 0 0 ∷ Comes 0 (0xC0 ∷ 0x81 ∷ 0 ∷ 0 ∷ []) ∷ Polls 2500 0
        ∷ Comes 2600 (0xC1 ∷ 0x81 ∷ 0 ∷ 0 ∷ []) ∷ []) 4500 0 ≡ Some (read_octets false 2) }
    // An hour after it was given an integrity poll comes before an event poll, which stays due.
    ensures hourly { given plain (Polls 0 0 ∷ Comes 0 (0xC0 ∷ 0x81 ∷ 0 ∷ 0 ∷ []) ∷ []) 3600000 0
        ≡ Some (read_octets true 1) }
    ensures then_events { given plain (Polls 0 0 ∷ Comes 0 (0xC0 ∷ 0x81 ∷ 0 ∷ 0 ∷ []) ∷ Polls 3600000 0
        ∷ Comes 3600000 (0xC1 ∷ 0x81 ∷ 0 ∷ 0 ∷ []) ∷ []) 3600000 0 ≡ Some (read_octets false 2) }
    // The sequence number goes on behind that of the last fragment of an answer, from 15 to 0.
    ensures behind_answer { given plain (Polls 0 0 ∷ Comes 0 (0x80 ∷ 0x81 ∷ 0 ∷ 0 ∷ [])
        ∷ Comes 0 (0x41 ∷ 0x81 ∷ 0 ∷ 0 ∷ []) ∷ []) 2000 0 ≡ Some (read_octets false 2) }
    // Events are told of, IIN1.1: an event poll at once.
    ensures told_of_events { given plain (Polls 0 0 ∷ Comes 0 (0xC0 ∷ 0x81 ∷ 2 ∷ 0 ∷ []) ∷ []) 0 0
        ≡ Some (read_octets false 1) }
    // No answer in 5 seconds: an integrity poll again; an event poll is given up.
    ensures unanswered { given plain (Polls 0 0 ∷ Ticks 4999 ∷ []) 5000 0 ≡ None }
    ensures once_more { given plain (Polls 0 0 ∷ Ticks 5000 ∷ []) 5000 0 ≡ Some (read_octets true 1) }
    ensures given_up { given hasty (Polls 0 0 ∷ Comes 0 (0xC0 ∷ 0x81 ∷ 2 ∷ 0 ∷ []) ∷ Polls 0 0 ∷ Ticks 1000 ∷ [])
        1999 0 ≡ None }
    ensures polled_again { given hasty (Polls 0 0 ∷ Comes 0 (0xC0 ∷ 0x81 ∷ 2 ∷ 0 ∷ []) ∷ Polls 0 0 ∷ Ticks 1000 ∷ [])
        2000 0 ≡ Some (read_octets false 2) }
    // Nothing is given to an outstation that is down.
    ensures down { request_given 10000 0 (master_down plain) ≡ None }
    // A restart, IIN1.7: it is cleared, and an integrity poll is due, once as long as the bit stays; the answer to the
    // clearing makes it due no more. The same for an overflow, IIN2.3, but for the clearing.
    ensures restart { given plain (Polls 0 0 ∷ Comes 0 (0xC0 ∷ 0x81 ∷ 0x80 ∷ 0 ∷ []) ∷ []) 0 0
        ≡ Some (clear_restart_octets 1) }
    ensures restarted { given plain (Polls 0 0 ∷ Comes 0 (0xC0 ∷ 0x81 ∷ 0x80 ∷ 0 ∷ []) ∷ Polls 0 0
        ∷ Comes 0 (0xC1 ∷ 0x81 ∷ 0x80 ∷ 0 ∷ []) ∷ []) 0 0 ≡ Some (read_octets true 2) }
    ensures restart_stays { given plain (Polls 0 0 ∷ Comes 0 (0xC0 ∷ 0x81 ∷ 0x80 ∷ 0 ∷ []) ∷ Polls 0 0
        ∷ Comes 0 (0xC1 ∷ 0x81 ∷ 0x80 ∷ 0 ∷ []) ∷ Polls 0 0 ∷ Comes 0 (0xC2 ∷ 0x81 ∷ 0x80 ∷ 0 ∷ [])
        ∷ Polls 0 0 ∷ Comes 0 (0xC3 ∷ 0x81 ∷ 0 ∷ 0 ∷ []) ∷ []) 0 0 ≡ None }
    ensures overflow { given plain (Polls 0 0 ∷ Comes 0 (0xC0 ∷ 0x81 ∷ 0 ∷ 8 ∷ []) ∷ []) 0 0
        ≡ Some (read_octets true 1) }
    ensures overflow_stays { given plain (Polls 0 0 ∷ Comes 0 (0xC0 ∷ 0x81 ∷ 0 ∷ 8 ∷ []) ∷ Polls 0 0
        ∷ Comes 0 (0xC1 ∷ 0x81 ∷ 0 ∷ 8 ∷ []) ∷ []) 0 0 ≡ None }
{}

/// The tasks of an outstation that uses unsolicited responses, and of one whose clock is set.
pub fn tasks_by_example()
    // Unsolicited responses are disabled before the integrity poll, and enabled after it.
    ensures disable { given with_unsolicited [] 0 0 ≡ Some (disable_octets 0) }
    ensures then_integrity { given with_unsolicited (Polls 0 0 ∷ Comes 0 (0xC0 ∷ 0x81 ∷ 0 ∷ 0 ∷ []) ∷ []) 0 0
        ≡ Some (read_octets true 1) }
    ensures then_enable { given with_unsolicited (Polls 0 0 ∷ Comes 0 (0xC0 ∷ 0x81 ∷ 0 ∷ 0 ∷ []) ∷ Polls 0 0
        ∷ Comes 0 (0xC1 ∷ 0x81 ∷ 0 ∷ 0 ∷ []) ∷ []) 0 0 ≡ Some (enable_octets 2) }
    ensures disable_unanswered { given with_unsolicited (Polls 0 0 ∷ Ticks 5000 ∷ []) 5000 0
        ≡ Some (read_octets true 1) }
    // A clock that needs the time, IIN1.4: the outstation records it, and then the wall time of that request is
    // written, 00 68 E5 CF 8B 01. The answer to the recording asks for no other one; any other fragment does.
    ensures record { given with_time (Polls 0 0 ∷ Comes 0 (0xC0 ∷ 0x81 ∷ 0x10 ∷ 0 ∷ []) ∷ []) 0 1700000000000
        ≡ Some (record_time_octets 1) }
    ensures write { given with_time (Polls 0 0 ∷ Comes 0 (0xC0 ∷ 0x81 ∷ 0x10 ∷ 0 ∷ []) ∷ Polls 0 1700000000000
        ∷ Comes 0 (0xC1 ∷ 0x81 ∷ 0x10 ∷ 0 ∷ []) ∷ []) 5 1700000000005
        ≡ Some (0xC2 ∷ 2 ∷ 0x32 ∷ 3 ∷ 7 ∷ 1 ∷ 0 ∷ 0x68 ∷ 0xE5 ∷ 0xCF ∷ 0x8B ∷ 1 ∷ []) }
    ensures written { given with_time (Polls 0 0 ∷ Comes 0 (0xC0 ∷ 0x81 ∷ 0x10 ∷ 0 ∷ []) ∷ Polls 0 1700000000000
        ∷ Comes 0 (0xC1 ∷ 0x81 ∷ 0x10 ∷ 0 ∷ []) ∷ Polls 5 1700000000005
        ∷ Comes 5 (0xC2 ∷ 0x81 ∷ 0 ∷ 0 ∷ []) ∷ []) 5 1700000000005 ≡ None }
    ensures still_needed { given with_time (Polls 0 0 ∷ Comes 0 (0xC0 ∷ 0x81 ∷ 0x10 ∷ 0 ∷ []) ∷ Polls 0 1700000000000
        ∷ Comes 0 (0xC1 ∷ 0x81 ∷ 0x10 ∷ 0 ∷ []) ∷ Polls 5 1700000000005
        ∷ Comes 5 (0xC2 ∷ 0x81 ∷ 0x10 ∷ 0 ∷ []) ∷ []) 5 1700000000005 ≡ Some (record_time_octets 3) }
    ensures unrecorded { given hasty (Polls 0 0 ∷ Comes 0 (0xC0 ∷ 0x81 ∷ 0x10 ∷ 0 ∷ []) ∷ Polls 0 0
        ∷ Ticks 1000 ∷ []) 1999 0 ≡ None }
    // Without `lan_time` the bit is not acted on.
    ensures no_time { given plain (Polls 0 0 ∷ Comes 0 (0xC0 ∷ 0x81 ∷ 0x10 ∷ 0 ∷ []) ∷ []) 0 0 ≡ None }
{}
