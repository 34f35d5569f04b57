//! Worked examples of the definitions, computed by the definitions themselves.
ghost use Rattle.std.specs.Prelude.{◌≡◌, pos, negsuc, [], ◌∷◌, map, Some, None, true, false};
ghost use Rattle.gw_model.specs.declared.point.Kind.TheVariants as kinds;
ghost use Rattle.gw_model.specs.declared.point.Stamp.TheVariants.{At, Doubtful};
ghost use Rattle.gw_model.specs.declared.observation.Value.TheVariants.{Single, Double, Scaled, Word, Total};
ghost use Rattle.gw_model.specs.Point.{is_stamped};
ghost use Rattle.gw_model.specs.Clocks.{always_ahead, utc};
ghost use Rattle.gw_entries.specs.Shown.{is_shown_by};
ghost use Rattle.gw_translate.specs.Quality.{quality_of};
ghost use Rattle.gw_translate.specs.Image.{image_of, image_in, is_news_of};
ghost use Rattle.gw_translate.specs.Example.{binary, output, counter, analog, intermediate_input};
ghost use Rattle.gw_translate.specs.Example.{timed_event, static_value, binary_row, output_row};
ghost use Rattle.gw_translate.specs.Example.{double_row, scaled_row, halved_row, enlarged_row, word_row};
ghost use Rattle.gw_translate.specs.Example.{counter_row, types, observation, good, invalid, overflow};

/// Which quality some flags give.
pub fn qualities_by_example()
    // Of a binary input: online; each of bits 1 to 5 beside it; all of them, with the state at bit 7; none.
    ensures online { quality_of kinds.Binary 0x01 ≡ good }
    ensures restart { quality_of kinds.Binary 0x03 ≡ invalid }
    ensures comm_lost { quality_of kinds.Binary 0x05 ≡ record good { nt = true } }
    ensures remote_forced { quality_of kinds.Binary 0x09 ≡ record good { sb = true } }
    ensures local_forced { quality_of kinds.Binary 0x11 ≡ record good { sb = true } }
    ensures chatter_filter { quality_of kinds.Binary 0x21 ≡ record good { bl = true } }
    ensures reserved { quality_of kinds.Binary 0x41 ≡ good }
    ensures every { quality_of kinds.Binary 0xFF ≡ record good { iv = true; nt = true; sb = true; bl = true } }
    ensures offline { quality_of kinds.Binary 0x00 ≡ invalid }
    // Bits 5 and 6 of the other kinds.
    ensures double { quality_of kinds.Double 0xE1 ≡ record good { bl = true } }
    ensures output { quality_of kinds.Output 0x61 ≡ good }
    ensures over_range { quality_of kinds.Analog 0x21 ≡ overflow }
    ensures reference_error { quality_of kinds.Analog 0x41 ≡ invalid }
    ensures rollover { quality_of kinds.Counter 0x21 ≡ record good { cy = true } }
    ensures discontinuity { quality_of kinds.Counter 0x41 ≡ record good { ca = true } }
    // Two flags together, and all of them, of the other kinds.
    ensures forced_and_lost { quality_of kinds.Analog 0x0D ≡ record good { nt = true; sb = true } }
    ensures every_of_double { quality_of kinds.Double 0xFF
        ≡ record good { iv = true; nt = true; sb = true; bl = true } }
    ensures every_of_output { quality_of kinds.Output 0xFF ≡ record good { iv = true; nt = true; sb = true } }
    ensures every_of_analog { quality_of kinds.Analog 0xFF
        ≡ record good { iv = true; nt = true; sb = true; ov = true } }
    ensures every_of_counter { quality_of kinds.Counter 0xFF ≡ record good { iv = true; cy = true; ca = true } }
    // A counter that isn't online, that restarted, or whose source is lost is invalid, and is never not topical or
    // substituted.
    ensures counter_offline { quality_of kinds.Counter 0x00 ≡ invalid }
    ensures counter_restart { quality_of kinds.Counter 0x03 ≡ invalid }
    ensures counter_lost { quality_of kinds.Counter 0x05 ≡ invalid }
    ensures counter_forced { quality_of kinds.Counter 0x19 ≡ good }
{}

/// The images of some reports.
#[tactic(auto, unfolding(gw_time::specs::Spelling::tag_showing, gw_time::specs::Spelling::date_after))]
pub fn images_by_example()
    // Flags 81, FF and 00 of a binary input.
    ensures on { image_of utc binary_row (binary 0x81 true) ≡ observation (Single true) good }
    ensures doubtful { image_of utc binary_row (binary 0xFF true)
        ≡ observation (Single true) (record good { iv = true; nt = true; sb = true; bl = true }) }
    ensures off { image_of utc binary_row (binary 0x00 false) ≡ observation (Single false) invalid }
    ensures output { image_of utc output_row (output 0xA1 true) ≡ observation (Single true) good }
    ensures double { image_of utc double_row (intermediate_input 0x01) ≡ observation (Double 0) good }
    // Analog values as scaled ones: the ends of 16 bits, and one beyond each.
    ensures highest { image_of utc scaled_row (analog 0x01 (pos 32767)) ≡ observation (Scaled (pos 32767)) good }
    ensures lowest { image_of utc scaled_row (analog 0x01 (negsuc 32767)) ≡ observation (Scaled (negsuc 32767)) good }
    ensures above { image_of utc scaled_row (analog 0x01 (pos 32768)) ≡ observation (Scaled (pos 32767)) overflow }
    ensures below { image_of utc scaled_row (analog 0x01 (negsuc 32768))
        ≡ observation (Scaled (negsuc 32767)) overflow }
    ensures far_above { image_of utc scaled_row (analog 0x01 (pos 40000)) ≡ observation (Scaled (pos 32767)) overflow }
    ensures far_below { image_of utc scaled_row (analog 0x01 (negsuc 39999))
        ≡ observation (Scaled (negsuc 32767)) overflow }
    // Halved: truncated toward zero on both sides, and clamped only then. Enlarged as far as it goes.
    ensures halved { image_of utc halved_row (analog 0x01 (pos 7)) ≡ observation (Scaled (pos 3)) good }
    ensures halved_below { image_of utc halved_row (analog 0x01 (negsuc 6)) ≡ observation (Scaled (negsuc 2)) good }
    ensures halved_to_zero { image_of utc halved_row (analog 0x01 (negsuc 0)) ≡ observation (Scaled (pos 0)) good }
    ensures halved_first { image_of utc halved_row (analog 0x01 (pos 65535)) ≡ observation (Scaled (pos 32767)) good }
    ensures halved_above { image_of utc halved_row (analog 0x01 (pos 65536))
        ≡ observation (Scaled (pos 32767)) overflow }
    ensures enlarged { image_of utc enlarged_row (analog 0x01 (negsuc 0)) ≡ observation (Scaled (negsuc 32766)) good }
    ensures enlarged_lowest { image_of utc enlarged_row (analog 0x01 (negsuc 2147483647))
        ≡ observation (Scaled (negsuc 32767)) overflow }
    // Over range by the outstation's own word.
    ensures over_range { image_of utc scaled_row (analog 0x21 (pos 7)) ≡ observation (Scaled (pos 7)) overflow }
    // As words: two's complement, without overflow.
    ensures word { image_of utc word_row (analog 0x01 (negsuc 0)) ≡ observation (Word 0xFFFFFFFF) good }
    ensures least_word { image_of utc word_row (analog 0x01 (negsuc 2147483647)) ≡ observation (Word 0x80000000) good }
    ensures large_word { image_of utc word_row (analog 0x01 (pos 40000)) ≡ observation (Word 40000) good }
    ensures word_over_range { image_of utc word_row (analog 0x21 (pos 7)) ≡ observation (Word 7) overflow }
    // A counter that rolled over, and one whose source is lost.
    ensures rollover { image_of utc counter_row (counter 0x21 0xFFFFFFFF)
        ≡ observation (Total 0xFFFFFFFF) (record good { cy = true }) }
    ensures lost { image_of utc counter_row (counter 0x05 7) ≡ observation (Total 7) invalid }
    // An event of 14 November 2023; one in doubt; one of 1970, and the first of 2000 where clocks are 60 minutes
    // ahead of UTC.
    ensures timed { image_of utc binary_row (timed_event 0x81 true (At 1700000000000))
        ≡ record (observation (Single true) good) { stamp = At 1700000000000 } }
    ensures in_doubt { image_of utc binary_row (timed_event 0x81 true (Doubtful 1700000000000))
        ≡ record (observation (Single true) good) { stamp = Doubtful 1700000000000 } }
    ensures long_ago { image_of utc binary_row (timed_event 0x81 true (At 1)) ≡ observation (Single true) good }
    ensures first { image_of (always_ahead (pos 60)) binary_row (timed_event 0x81 true (At 946681200000))
        ≡ record (observation (Single true) good) { stamp = At 946681200000 } }
    ensures before_first { image_of (always_ahead (pos 60)) binary_row (timed_event 0x81 true (At 946681199999))
        ≡ observation (Single true) good }
    ensures year_2100 { image_of utc binary_row (timed_event 0x81 true (At 4102444800000))
        ≡ observation (Single true) good }
    // By a point map: none for a point without a row.
    ensures mapped { image_in utc (binary_row ∷ []) (binary 0x81 true) ≡ Some (observation (Single true) good) }
    ensures unmapped { image_in utc (binary_row ∷ []) (output 0x81 true) ≡ None }
{}

/// By which types each kind of point may be shown: single, double, scaled, word, total; and an event alone may have a
/// time.
pub fn shows_by_example()
    ensures binary { map (is_shown_by kinds.Binary) types ≡ true ∷ false ∷ false ∷ false ∷ false ∷ [] }
    ensures output { map (is_shown_by kinds.Output) types ≡ true ∷ false ∷ false ∷ false ∷ false ∷ [] }
    ensures double { map (is_shown_by kinds.Double) types ≡ false ∷ true ∷ false ∷ false ∷ false ∷ [] }
    ensures analog { map (is_shown_by kinds.Analog) types ≡ false ∷ false ∷ true ∷ true ∷ false ∷ [] }
    ensures counter { map (is_shown_by kinds.Counter) types ≡ false ∷ false ∷ false ∷ false ∷ true ∷ [] }
    ensures timed { is_stamped true (At 1) ≡ true }
    ensures static_value { is_stamped false (At 1) ≡ false }
    ensures doubtful { is_stamped false (Doubtful 1) ≡ false }
{}

/// An event is news always, a static value where value or quality differs.
pub fn news_by_example()
    ensures event { let on = observation (Single true) good in is_news_of (binary 0x81 true) on on ≡ true }
    ensures invalid_event { let off = observation (Single false) invalid in
        is_news_of (binary 0x00 false) off off ≡ true }
    ensures same { let on = observation (Single true) good in is_news_of (static_value 0x81 true) on on ≡ false }
    ensures value { let off = observation (Single false) good in
        is_news_of (static_value 0x81 true) off (observation (Single true) good) ≡ true }
    ensures quality { let doubtful = observation (Single true) invalid in
        is_news_of (static_value 0x81 true) doubtful (observation (Single true) good) ≡ true }
    ensures other_type { let total = observation (Total 1) good in
        is_news_of (static_value 0x81 true) total (observation (Single true) good) ≡ true }
{}
