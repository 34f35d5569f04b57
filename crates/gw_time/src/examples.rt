//! Worked examples of the definitions that the contracts cite.
ghost use Rattle.std.specs.Prelude.{◌≡◌, pos, negsuc, [], ◌∷◌, Some, None, Ok, Err};
ghost use Rattle.gw_model.specs.declared.point.Stamp.TheVariants.{Untimed, At, Doubtful};
ghost use Rattle.gw_model.specs.Clocks.{always_ahead, utc};
ghost use Rattle.gw_time.specs.declared.fault.TagFault.TheVariants.{Field, Date};
ghost use Rattle.gw_time.specs.Tag.{tag_meaning, plain};
ghost use Rattle.gw_time.specs.Window.{HasTag};
ghost use Rattle.gw_time.specs.Spelling.{tag_of};
ghost use Rattle.gw_time.specs.Example.{IsFirst, IsLast};

/// What some tags mean.
pub fn tag_examples()
    // 14 November 2023, 22:13:20, in UTC; in doubt; and the same with all bits set that are not looked at.
    ensures at { tag_meaning utc (0x20 ∷ 0x4E ∷ 0x0D ∷ 0x16 ∷ 0x0E ∷ 0x0B ∷ 0x17 ∷ []) ≡ Ok (At 1700000000000) }
    ensures doubtful { tag_meaning utc (0x20 ∷ 0x4E ∷ 0x8D ∷ 0x16 ∷ 0x0E ∷ 0x0B ∷ 0x17 ∷ [])
        ≡ Ok (Doubtful 1700000000000) }
    ensures unused { tag_meaning utc (0x20 ∷ 0x4E ∷ 0x4D ∷ 0xF6 ∷ 0xEE ∷ 0xFB ∷ 0x97 ∷ []) ≡ Ok (At 1700000000000) }
    ensures plain { plain utc (0x20 ∷ 0x4E ∷ 0xCD ∷ 0xF6 ∷ 0xEE ∷ 0xFB ∷ 0x97 ∷ [])
        ≡ 0x20 ∷ 0x4E ∷ 0x8D ∷ 0x16 ∷ 0x0E ∷ 0x0B ∷ 0x17 ∷ [] }
    // The clocks are 60 minutes ahead of UTC, and 90 minutes behind it.
    ensures east { tag_meaning (always_ahead (pos 60)) (0x20 ∷ 0x4E ∷ 0x0D ∷ 0x17 ∷ 0x0E ∷ 0x0B ∷ 0x17 ∷ [])
        ≡ Ok (At 1700000000000) }
    ensures west { tag_meaning (always_ahead (negsuc 89)) (0x20 ∷ 0x4E ∷ 0x2B ∷ 0x14 ∷ 0x0E ∷ 0x0B ∷ 0x17 ∷ [])
        ≡ Ok (At 1700000000000) }
    // 29 February of 2000, 0:00; of 2024, 12:34:56.789; of 2096, in its last millisecond.
    ensures leap_2000 { tag_meaning utc (0x00 ∷ 0x00 ∷ 0x00 ∷ 0x00 ∷ 0x1D ∷ 0x02 ∷ 0x00 ∷ []) ≡ Ok (At 951782400000) }
    ensures leap_2024 { tag_meaning utc (0xD5 ∷ 0xDD ∷ 0x22 ∷ 0x0C ∷ 0x1D ∷ 0x02 ∷ 0x18 ∷ []) ≡ Ok (At 1709210096789) }
    ensures leap_2096 { tag_meaning utc (0x5F ∷ 0xEA ∷ 0x3B ∷ 0x17 ∷ 0x1D ∷ 0x02 ∷ 0x60 ∷ []) ≡ Ok (At 3981398399999) }
    // No day: 29 February of 2099 and of 2023, 30 February, 31 April, day 0.
    ensures no_leap_2099 { tag_meaning utc (0x00 ∷ 0x00 ∷ 0x00 ∷ 0x00 ∷ 0x1D ∷ 0x02 ∷ 0x63 ∷ []) ≡ Err Date }
    ensures no_leap_2023 { tag_meaning utc (0x00 ∷ 0x00 ∷ 0x00 ∷ 0x00 ∷ 0x1D ∷ 0x02 ∷ 0x17 ∷ []) ≡ Err Date }
    ensures february_30 { tag_meaning utc (0x00 ∷ 0x00 ∷ 0x00 ∷ 0x00 ∷ 0x1E ∷ 0x02 ∷ 0x18 ∷ []) ≡ Err Date }
    ensures april_31 { tag_meaning utc (0x00 ∷ 0x00 ∷ 0x00 ∷ 0x00 ∷ 0x1F ∷ 0x04 ∷ 0x17 ∷ []) ≡ Err Date }
    ensures day_0 { tag_meaning utc (0x00 ∷ 0x00 ∷ 0x00 ∷ 0x00 ∷ 0x00 ∷ 0x01 ∷ 0x17 ∷ []) ≡ Err Date }
    // Out of range: 60,000 milliseconds, minute 60, hour 24, months 0 and 13, year 100; also on a day that the
    // month lacks.
    ensures milliseconds { tag_meaning utc (0x60 ∷ 0xEA ∷ 0x00 ∷ 0x00 ∷ 0x01 ∷ 0x01 ∷ 0x17 ∷ []) ≡ Err Field }
    ensures minute { tag_meaning utc (0x00 ∷ 0x00 ∷ 0x3C ∷ 0x00 ∷ 0x01 ∷ 0x01 ∷ 0x17 ∷ []) ≡ Err Field }
    ensures hour { tag_meaning utc (0x00 ∷ 0x00 ∷ 0x00 ∷ 0x18 ∷ 0x01 ∷ 0x01 ∷ 0x17 ∷ []) ≡ Err Field }
    ensures month_0 { tag_meaning utc (0x00 ∷ 0x00 ∷ 0x00 ∷ 0x00 ∷ 0x01 ∷ 0x00 ∷ 0x17 ∷ []) ≡ Err Field }
    ensures month_13 { tag_meaning utc (0x00 ∷ 0x00 ∷ 0x00 ∷ 0x00 ∷ 0x01 ∷ 0x0D ∷ 0x17 ∷ []) ≡ Err Field }
    ensures year { tag_meaning utc (0x00 ∷ 0x00 ∷ 0x00 ∷ 0x00 ∷ 0x1C ∷ 0x02 ∷ 0x64 ∷ []) ≡ Err Field }
    ensures field_first { tag_meaning utc (0x60 ∷ 0xEA ∷ 0x00 ∷ 0x00 ∷ 0x1E ∷ 0x02 ∷ 0x17 ∷ []) ≡ Err Field }
{}

/// The first and the last instant with a tag, at some offsets, and some others without one.
pub fn window_examples()
    ensures first_west { IsFirst (always_ahead (negsuc 839)) 946735200000
        (0x00 ∷ 0x00 ∷ 0x00 ∷ 0x00 ∷ 0x01 ∷ 0x01 ∷ 0x00 ∷ []) }
    ensures first_utc { IsFirst utc 946684800000 (0x00 ∷ 0x00 ∷ 0x00 ∷ 0x00 ∷ 0x01 ∷ 0x01 ∷ 0x00 ∷ []) }
    ensures first_60 { IsFirst (always_ahead (pos 60)) 946681200000
        (0x00 ∷ 0x00 ∷ 0x00 ∷ 0x00 ∷ 0x01 ∷ 0x01 ∷ 0x00 ∷ []) }
    ensures first_east { IsFirst (always_ahead (pos 840)) 946634400000
        (0x00 ∷ 0x00 ∷ 0x00 ∷ 0x00 ∷ 0x01 ∷ 0x01 ∷ 0x00 ∷ []) }
    ensures last_west { IsLast (always_ahead (negsuc 839)) 4102495199999
        (0x5F ∷ 0xEA ∷ 0x3B ∷ 0x17 ∷ 0x1F ∷ 0x0C ∷ 0x63 ∷ []) }
    ensures last_utc { IsLast utc 4102444799999 (0x5F ∷ 0xEA ∷ 0x3B ∷ 0x17 ∷ 0x1F ∷ 0x0C ∷ 0x63 ∷ []) }
    ensures last_60 { IsLast (always_ahead (pos 60)) 4102441199999
        (0x5F ∷ 0xEA ∷ 0x3B ∷ 0x17 ∷ 0x1F ∷ 0x0C ∷ 0x63 ∷ []) }
    ensures last_east { IsLast (always_ahead (pos 840)) 4102394399999
        (0x5F ∷ 0xEA ∷ 0x3B ∷ 0x17 ∷ 0x1F ∷ 0x0C ∷ 0x63 ∷ []) }
    // 28 February 2100; the epoch; no time.
    ensures february_2100 { ¬ HasTag utc (At 4107456000000) }
    ensures doubtful_2100 { ¬ HasTag utc (Doubtful 4107456000000) }
    ensures epoch { ¬ HasTag utc (At 0) }
    ensures untimed { ¬ HasTag utc Untimed }
{}

/// The tags of some stamps.
#[tactic(auto, unfolding(crate::specs::Spelling::tag_showing, crate::specs::Spelling::date_after))]
pub fn spelling_examples()
    // 14 November 2023, 22:13:20, in UTC; in doubt; 60 minutes ahead of UTC, and 90 minutes behind it.
    ensures at { tag_of utc (At 1700000000000) ≡ Some (0x20 ∷ 0x4E ∷ 0x0D ∷ 0x16 ∷ 0x0E ∷ 0x0B ∷ 0x17 ∷ []) }
    ensures doubtful { tag_of utc (Doubtful 1700000000000)
        ≡ Some (0x20 ∷ 0x4E ∷ 0x8D ∷ 0x16 ∷ 0x0E ∷ 0x0B ∷ 0x17 ∷ []) }
    ensures east { tag_of (always_ahead (pos 60)) (At 1700000000000)
        ≡ Some (0x20 ∷ 0x4E ∷ 0x0D ∷ 0x17 ∷ 0x0E ∷ 0x0B ∷ 0x17 ∷ []) }
    ensures west { tag_of (always_ahead (negsuc 89)) (At 1700000000000)
        ≡ Some (0x20 ∷ 0x4E ∷ 0x2B ∷ 0x14 ∷ 0x0E ∷ 0x0B ∷ 0x17 ∷ []) }
    // 29 February of 2000, 0:00; of 2024, 12:34:56.789; of 2096, in its last millisecond.
    ensures leap_2000 { tag_of utc (At 951782400000) ≡ Some (0x00 ∷ 0x00 ∷ 0x00 ∷ 0x00 ∷ 0x1D ∷ 0x02 ∷ 0x00 ∷ []) }
    ensures leap_2024 { tag_of utc (At 1709210096789) ≡ Some (0xD5 ∷ 0xDD ∷ 0x22 ∷ 0x0C ∷ 0x1D ∷ 0x02 ∷ 0x18 ∷ []) }
    ensures leap_2096 { tag_of utc (At 3981398399999) ≡ Some (0x5F ∷ 0xEA ∷ 0x3B ∷ 0x17 ∷ 0x1D ∷ 0x02 ∷ 0x60 ∷ []) }
    // Both ends of the window, in UTC and 60 minutes before it; and the milliseconds beyond.
    ensures last { tag_of utc (At 4102444799999) ≡ Some (0x5F ∷ 0xEA ∷ 0x3B ∷ 0x17 ∷ 0x1F ∷ 0x0C ∷ 0x63 ∷ []) }
    ensures first { tag_of utc (At 946684800000) ≡ Some (0x00 ∷ 0x00 ∷ 0x00 ∷ 0x00 ∷ 0x01 ∷ 0x01 ∷ 0x00 ∷ []) }
    ensures first_60 { tag_of (always_ahead (pos 60)) (At 946681200000)
        ≡ Some (0x00 ∷ 0x00 ∷ 0x00 ∷ 0x00 ∷ 0x01 ∷ 0x01 ∷ 0x00 ∷ []) }
    ensures year_2100 { tag_of utc (At 4102444800000) ≡ None }
    ensures year_1999 { tag_of utc (At 946684799999) ≡ None }
    ensures far { tag_of utc (At 281474976776190) ≡ None }
    ensures epoch_west { tag_of (always_ahead (negsuc 839)) (At 0) ≡ None }
    ensures untimed { tag_of utc Untimed ≡ None }
{}
