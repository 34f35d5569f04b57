//! Worked examples of the definitions, computed by the definitions themselves.
ghost use Rattle.std.specs.Prelude.{◌≡◌, pos, [], ◌∷◌, map, true, false};
ghost use Rattle.gw_model.specs.declared.point.Stamp.TheVariants.{At};
ghost use Rattle.gw_model.specs.declared.observation.Value.TheVariants.{Single, Double, Scaled, Word, Total};
ghost use Rattle.gw_model.specs.Clocks.{utc};
ghost use Rattle.gw_translate.specs.Example.{binary, output, static_value, timed_event, double_row};
ghost use Rattle.gw_translate.specs.Example.{word_row, counter_row, observation, good, invalid, overflow};
ghost use Rattle.gw_picture.specs.Example.{analog_value, forced_and_over, not_topical, not_valid, observation_at};
ghost use Rattle.gw_picture.specs.Example.{picture_with, rolled_over, rows, rows_of_two, substituted, unknown};
ghost use Rattle.gw_picture.specs.Log.{picture_of};
ghost use Rattle.gw_picture.specs.Loss.{losses_of, losses_of_row, picture_after_loss};
ghost use Rattle.gw_picture.specs.Picture.{news_of, picture_after};
ghost use Rattle.gw_picture.specs.Opening.{opening};

/// Opening pictures, and the news of some fragments by the picture of three rows.
#[tactic(auto, unfolding(gw_time::specs::Spelling::tag_showing, gw_time::specs::Spelling::date_after))]
pub fn pictures_by_example()
    // Before anything was reported.
    ensures opening { map opening rows
        ≡ picture_with (observation (Single false) unknown) (observation_at 4201 (Scaled (pos 0)) unknown) }
    ensures double { opening double_row ≡ observation (Double 0) unknown }
    ensures word { opening word_row ≡ observation (Word 0) unknown }
    ensures total { opening counter_row ≡ observation (Total 0) invalid }
    // A static value whose value or quality changed is news, the same again is none.
    ensures quality { news_of utc rows (map opening rows) (static_value 0x01 false ∷ static_value 0x01 false ∷ [])
        ≡ observation (Single false) good ∷ [] }
    ensures value { news_of utc rows (map opening rows)
        (analog_value 0x01 (pos 7) ∷ analog_value 0x01 (pos 7) ∷ analog_value 0x01 (pos 8) ∷ [])
        ≡ observation_at 4201 (Scaled (pos 7)) good ∷ observation_at 4201 (Scaled (pos 8)) good ∷ [] }
    // An event always is.
    ensures event { news_of utc rows (map opening rows) (binary 0x81 true ∷ binary 0x81 true ∷ [])
        ≡ observation (Single true) good ∷ observation (Single true) good ∷ [] }
    // With its time, of 14 November 2023, which isn't shown; so the same value again without time is none.
    ensures timed { news_of utc rows (map opening rows)
        (timed_event 0x81 true (At 1700000000000) ∷ static_value 0x81 true ∷ [])
        ≡ record (observation (Single true) good) { stamp = At 1700000000000 } ∷ [] }
    ensures timed_shown { picture_after utc rows (map opening rows) (timed_event 0x81 true (At 1700000000000) ∷ [])
        ≡ picture_with (observation (Single true) good) (observation_at 4201 (Scaled (pos 0)) unknown) }
    // In one fragment the second report of a point is judged by the picture after the first: on and off again is two
    // news where off was shown, and on by an event and then static is one.
    ensures turned { news_of utc rows
        (picture_with (observation (Single false) good) (observation_at 4201 (Scaled (pos 0)) unknown))
        (static_value 0x81 true ∷ static_value 0x01 false ∷ [])
        ≡ observation (Single true) good ∷ observation (Single false) good ∷ [] }
    ensures settled { news_of utc rows (map opening rows) (binary 0x81 true ∷ static_value 0x81 true ∷ [])
        ≡ observation (Single true) good ∷ [] }
    // A point without a row is no news, and nothing of it is shown.
    ensures unmapped { news_of utc rows (map opening rows) (output 0x81 true ∷ []) ≡ [] }
    ensures unmapped_shown { picture_after utc rows (map opening rows) (output 0x81 true ∷ []) ≡ map opening rows }
    // What is shown after reports of two points, and of a log: each row shows what came last.
    ensures shown { picture_after utc rows (map opening rows)
        (binary 0x81 true ∷ analog_value 0x01 (pos 40000) ∷ static_value 0x01 false ∷ [])
        ≡ picture_with (observation (Single false) good) (observation_at 4201 (Scaled (pos 32767)) overflow) }
    ensures log { picture_of rows
        (observation (Single true) good ∷ observation_at 4201 (Scaled (pos 7)) good
        ∷ observation (Single false) good ∷ [])
        ≡ picture_with (observation (Single false) good) (observation_at 4201 (Scaled (pos 7)) good) }
{}

/// The loss of an outstation by the picture of three rows of outstation 0, and of a row of each of two.
#[tactic(auto, unfolding(gw_time::specs::Spelling::tag_showing, gw_time::specs::Spelling::date_after))]
pub fn losses_by_example()
    // Single-point information and a scaled value get NT, a total IV; SB, OV and CY stay. They come in the order of
    // the rows.
    ensures lost { losses_of 0 rows (picture_after utc rows (map opening rows) forced_and_over)
        ≡ observation (Single true) (not_topical substituted)
        ∷ observation_at 4201 (Scaled (pos 32767)) (not_topical overflow)
        ∷ observation_at 4301 (Total 12) (not_valid rolled_over) ∷ [] }
    ensures shown { picture_after_loss 0 rows (picture_after utc rows (map opening rows) forced_and_over)
        ≡ observation (Single true) (not_topical substituted)
        ∷ observation_at 4201 (Scaled (pos 32767)) (not_topical overflow)
        ∷ observation_at 4301 (Total 12) (not_valid rolled_over) ∷ [] }
    // So do double-point information and a bit string.
    ensures double { losses_of_row 0 double_row (observation (Double 2) good)
        ≡ observation (Double 2) (not_topical good) ∷ [] }
    ensures word { losses_of_row 0 word_row (observation (Word 7) invalid)
        ≡ observation (Word 7) (not_topical invalid) ∷ [] }
    // To lose it a second time is no news, and changes nothing.
    ensures again { losses_of 0 rows (picture_after_loss 0 rows
        (picture_after utc rows (map opening rows) forced_and_over)) ≡ [] }
    // Nor is it news where nothing was reported: what is shown then is not topical, and of a total invalid.
    ensures opening { losses_of 0 rows (map opening rows) ≡ [] }
    ensures opening_shown { picture_after_loss 0 rows (map opening rows) ≡ map opening rows }
    // What was not topical already isn't told again beside what was.
    ensures beside { losses_of 0 rows
        (picture_with (observation (Single true) good) (observation_at 4201 (Scaled (pos 7)) (not_topical good)))
        ≡ observation (Single true) (not_topical good) ∷ [] }
    // The rows of another outstation are left as they are.
    ensures first { losses_of 0 rows_of_two
        (observation (Single true) good ∷ observation_at 4202 (Scaled (pos 7)) good ∷ [])
        ≡ observation (Single true) (not_topical good) ∷ [] }
    ensures first_shown { picture_after_loss 0 rows_of_two
        (observation (Single true) good ∷ observation_at 4202 (Scaled (pos 7)) good ∷ [])
        ≡ observation (Single true) (not_topical good) ∷ observation_at 4202 (Scaled (pos 7)) good ∷ [] }
    ensures second { losses_of 1 rows_of_two
        (observation (Single true) good ∷ observation_at 4202 (Scaled (pos 7)) good ∷ [])
        ≡ observation_at 4202 (Scaled (pos 7)) (not_topical good) ∷ [] }
{}
