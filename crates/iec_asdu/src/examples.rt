//! Worked examples of what ASDUs mean, computed by the definitions.
ghost use Rattle.std.specs.Prelude.{◌≡◌, pos, negsuc, true, false, [], ◌∷◌, ◌++◌, None, Some, Err};
ghost use Rattle.gw_model.specs.declared.observation.Value.TheVariants.{Single, Double, Scaled, Word, Total};
ghost use Rattle.gw_model.specs.Clocks.{always_ahead, utc};
ghost use Rattle.iec_asdu.specs.declared.fault.AsduFault.TheVariants.{Short, Long, UnknownType, ZeroObjects, Reserved, Tag};
ghost use Rattle.iec_asdu.specs.Asdu.{monitor_types, asdu_meaning};
ghost use Rattle.iec_asdu.specs.Packing.{apart_count, in_sequence_count, packed_spelling};
ghost use Rattle.iec_asdu.specs.Spelling.{spelling};
ghost use Rattle.iec_asdu.specs.Example.{meaning, reading, good, invalid, all_flags, invalid_not_topical};
ghost use Rattle.iec_asdu.specs.Example.{overflow, carry, not_topical, asdu, untimed_observation, under};
ghost use Rattle.iec_asdu.specs.Example.{timed_observation, doubtful_observation, single_on, double_on};
ghost use Rattle.iec_asdu.specs.Example.{event_front, single_event, packing, rooms_apart, rooms_in_sequence};

/// What the octets of some ASDUs mean.
#[tactic(auto, unfolding(crate::specs::Asdu::asdu_meaning, crate::specs::Asdu::objects_of, crate::specs::Asdu::objects_apart, crate::specs::Asdu::objects_in_sequence))]
pub fn asdu_examples()
    // Single-point 4101, spontaneous: on; off and invalid; on with IV, NT, SB and BL.
    ensures on { meaning
        (0x01 ∷ 0x01 ∷ 0x03 ∷ 0x00 ∷ 0x01 ∷ 0x00 ∷ 0x05 ∷ 0x10 ∷ 0x00 ∷ 0x01 ∷ [])
        ≡ Some (asdu 1 3 1 (untimed_observation 4101 (Single true) good ∷ [])) }
    ensures off { meaning
        (0x01 ∷ 0x01 ∷ 0x03 ∷ 0x00 ∷ 0x01 ∷ 0x00 ∷ 0x05 ∷ 0x10 ∷ 0x00 ∷ 0x80 ∷ [])
        ≡ Some (asdu 1 3 1 (untimed_observation 4101 (Single false) invalid ∷ [])) }
    ensures doubtful { meaning
        (0x01 ∷ 0x01 ∷ 0x03 ∷ 0x00 ∷ 0x01 ∷ 0x00 ∷ 0x05 ∷ 0x10 ∷ 0x00 ∷ 0xF1 ∷ [])
        ≡ Some (asdu 1 3 1 (untimed_observation 4101 (Single true) all_flags ∷ [])) }
    // Three single-points at consecutive addresses, interrogated.
    ensures in_sequence { meaning
        (0x01 ∷ 0x83 ∷ 0x14 ∷ 0x00 ∷ 0x01 ∷ 0x00 ∷ 0x05 ∷ 0x10 ∷ 0x00 ∷ 0x01 ∷ 0x00 ∷ 0xC0 ∷ [])
        ≡ Some (asdu 1 20 1
        (untimed_observation 4101 (Single true) good ∷ untimed_observation 4102 (Single false) good
        ∷ untimed_observation 4103 (Single false) invalid_not_topical ∷ [])) }
    // Two double-points, each with its address, for common address 258 and originator 0.
    ensures apart { meaning
        (0x03 ∷ 0x02 ∷ 0x03 ∷ 0x00 ∷ 0x02 ∷ 0x01 ∷ 0x05 ∷ 0x10 ∷ 0x00 ∷ 0x02 ∷ 0x01 ∷ 0x02 ∷ 0x03 ∷ 0x40 ∷ [])
        ≡ Some (asdu 3 3 258
        (under 258 (untimed_observation 4101 (Double 2) good)
        ∷ under 258 (untimed_observation 197121 (Double 0) not_topical) ∷ [])) }
    // Two single-points under common address 65535, which is all stations, and one under 0, which isn't used: as spelt.
    ensures all_stations { meaning
        (0x01 ∷ 0x82 ∷ 0x03 ∷ 0x00 ∷ 0xFF ∷ 0xFF ∷ 0x05 ∷ 0x10 ∷ 0x00 ∷ 0x01 ∷ 0x01 ∷ [])
        ≡ Some (asdu 1 3 65535 (under 65535 (single_on 4101) ∷ under 65535 (single_on 4102) ∷ [])) }
    ensures unused { meaning
        (0x01 ∷ 0x01 ∷ 0x03 ∷ 0x00 ∷ 0x00 ∷ 0x00 ∷ 0x05 ∷ 0x10 ∷ 0x00 ∷ 0x01 ∷ [])
        ≡ Some (asdu 1 3 0 (under 0 (single_on 4101) ∷ [])) }
    // A scaled value of 32767 with OV, and one of -2.
    ensures scaled { meaning
        (0x0B ∷ 0x01 ∷ 0x03 ∷ 0x00 ∷ 0x01 ∷ 0x00 ∷ 0x69 ∷ 0x10 ∷ 0x00 ∷ 0xFF ∷ 0x7F ∷ 0x01 ∷ [])
        ≡ Some (asdu 11 3 1 (untimed_observation 4201 (Scaled (pos 32767)) overflow ∷ [])) }
    ensures negative { meaning
        (0x0B ∷ 0x01 ∷ 0x03 ∷ 0x00 ∷ 0x01 ∷ 0x00 ∷ 0x69 ∷ 0x10 ∷ 0x00 ∷ 0xFE ∷ 0xFF ∷ 0x00 ∷ [])
        ≡ Some (asdu 11 3 1 (untimed_observation 4201 (Scaled (negsuc 1)) good ∷ [])) }
    // A bit string with every bit set, and an integrated total with CY, whatever its sequence number.
    ensures word { meaning
        (0x07 ∷ 0x01 ∷ 0x03 ∷ 0x00 ∷ 0x01 ∷ 0x00 ∷ 0x69 ∷ 0x10 ∷ 0x00 ∷ 0xFF ∷ 0xFF ∷ 0xFF ∷ 0xFF ∷ 0x00 ∷ [])
        ≡ Some (asdu 7 3 1 (untimed_observation 4201 (Word 4294967295) good ∷ [])) }
    ensures total { meaning
        (0x0F ∷ 0x01 ∷ 0x03 ∷ 0x00 ∷ 0x01 ∷ 0x00 ∷ 0xCD ∷ 0x10 ∷ 0x00 ∷ 0xFF ∷ 0xFF ∷ 0xFF ∷ 0xFF ∷ 0x20 ∷ [])
        ≡ Some (asdu 15 3 1 (untimed_observation 4301 (Total 4294967295) carry ∷ [])) }
    ensures sequence_number { meaning
        (0x0F ∷ 0x01 ∷ 0x25 ∷ 0x00 ∷ 0x01 ∷ 0x00 ∷ 0xCD ∷ 0x10 ∷ 0x00 ∷ 0x00 ∷ 0x01 ∷ 0x00 ∷ 0x00 ∷ 0x3F ∷ [])
        ≡ Some (asdu 15 37 1 (untimed_observation 4301 (Total 256) carry ∷ [])) }
    // No meaning: a reserved bit of SIQ, of DIQ and of QDS; an octet too few, and one too many; no object; a type that
    // isn't there.
    ensures reserved_single { meaning
        (0x01 ∷ 0x01 ∷ 0x03 ∷ 0x00 ∷ 0x01 ∷ 0x00 ∷ 0x05 ∷ 0x10 ∷ 0x00 ∷ 0x03 ∷ [])
        ≡ None }
    ensures reserved_double { meaning
        (0x03 ∷ 0x01 ∷ 0x03 ∷ 0x00 ∷ 0x01 ∷ 0x00 ∷ 0x05 ∷ 0x10 ∷ 0x00 ∷ 0x09 ∷ [])
        ≡ None }
    ensures reserved_scaled { meaning
        (0x0B ∷ 0x01 ∷ 0x03 ∷ 0x00 ∷ 0x01 ∷ 0x00 ∷ 0x69 ∷ 0x10 ∷ 0x00 ∷ 0xFF ∷ 0x7F ∷ 0x02 ∷ [])
        ≡ None }
    ensures short { meaning (0x01 ∷ 0x01 ∷ 0x03 ∷ 0x00 ∷ 0x01 ∷ 0x00 ∷ 0x05 ∷ 0x10 ∷ 0x00 ∷ []) ≡ None }
    ensures long { meaning
        (0x01 ∷ 0x01 ∷ 0x03 ∷ 0x00 ∷ 0x01 ∷ 0x00 ∷ 0x05 ∷ 0x10 ∷ 0x00 ∷ 0x01 ∷ 0x00 ∷ [])
        ≡ None }
    ensures no_object { meaning (0x01 ∷ 0x00 ∷ 0x03 ∷ 0x00 ∷ 0x01 ∷ 0x00 ∷ []) ≡ None }
    ensures unknown_type { meaning
        (0x02 ∷ 0x01 ∷ 0x03 ∷ 0x00 ∷ 0x01 ∷ 0x00 ∷ 0x05 ∷ 0x10 ∷ 0x00 ∷ 0x01 ∷ [])
        ≡ None }
{}

/// ASDUs with time: what is written of an observation, and what octets mean.
pub fn timed_examples()
    // Single-point 4101 on at 22:13:20 on 14 November 2023, and in doubt 65,535 milliseconds later, in UTC.
    ensures event { spelling utc 3 (timed_observation 4101 (Single true) good 1700000000000)
        ≡ event_front ++ 0x01 ∷ 0x20 ∷ 0x4E ∷ 0x0D ∷ 0x16 ∷ 0x0E ∷ 0x0B ∷ 0x17 ∷ [] }
    ensures doubtful { spelling utc 3 (doubtful_observation 4101 (Single true) good 1700000065535)
        ≡ event_front ++ 0x01 ∷ 0xBF ∷ 0x63 ∷ 0x8E ∷ 0x16 ∷ 0x0E ∷ 0x0B ∷ 0x17 ∷ [] }
    // A total in the last millisecond of 2099, with clocks 60 minutes ahead of UTC; a millisecond later without time.
    ensures last { spelling (always_ahead (pos 60)) 37 (timed_observation 4301 (Total 256) carry 4102441199999)
        ≡ 0x25 ∷ 0x01 ∷ 0x25 ∷ 0x00 ∷ 0x01 ∷ 0x00 ∷ 0xCD ∷ 0x10 ∷ 0x00 ∷ 0x00 ∷ 0x01 ∷ 0x00 ∷ 0x00 ∷ 0x20
        ∷ 0x5F ∷ 0xEA ∷ 0x3B ∷ 0x17 ∷ 0x1F ∷ 0x0C ∷ 0x63 ∷ [] }
    ensures later { spelling (always_ahead (pos 60)) 37 (timed_observation 4301 (Total 256) carry 4102441200000)
        ≡ 0x0F ∷ 0x01 ∷ 0x25 ∷ 0x00 ∷ 0x01 ∷ 0x00
        ∷ 0xCD ∷ 0x10 ∷ 0x00 ∷ 0x00 ∷ 0x01 ∷ 0x00 ∷ 0x00 ∷ 0x20 ∷ [] }
    ensures untimed { spelling (always_ahead (pos 60)) 20 (untimed_observation 4101 (Single true) good)
        ≡ 0x01 ∷ 0x01 ∷ 0x14 ∷ 0x00 ∷ 0x01 ∷ 0x00 ∷ 0x05 ∷ 0x10 ∷ 0x00 ∷ 0x01 ∷ [] }
    // The same under common address 258.
    ensures elsewhere { spelling (always_ahead (pos 60)) 20 (under 258 (single_on 4101))
        ≡ 0x01 ∷ 0x01 ∷ 0x14 ∷ 0x00 ∷ 0x02 ∷ 0x01 ∷ 0x05 ∷ 0x10 ∷ 0x00 ∷ 0x01 ∷ [] }
    // Two scaled values at consecutive addresses, the second in doubt, with clocks 90 minutes behind UTC.
    ensures in_sequence { asdu_meaning (monitor_types (always_ahead (negsuc 89)))
        (0x23 ∷ 0x82 ∷ 0x03 ∷ 0x00 ∷ 0x01 ∷ 0x00 ∷ 0x69 ∷ 0x10 ∷ 0x00
        ∷ 0xFE ∷ 0xFF ∷ 0x00 ∷ 0x20 ∷ 0x4E ∷ 0x2B ∷ 0x14 ∷ 0x0E ∷ 0x0B ∷ 0x17
        ∷ 0xFF ∷ 0x7F ∷ 0x01 ∷ 0x20 ∷ 0x4E ∷ 0xAB ∷ 0x14 ∷ 0x0E ∷ 0x0B ∷ 0x17 ∷ [])
        ≡ Some (asdu 35 3 1
        (timed_observation 4201 (Scaled (negsuc 1)) good 1700000000000
        ∷ doubtful_observation 4202 (Scaled (pos 32767)) overflow 1700000000000 ∷ [])) }
    // No meaning: 60,000 milliseconds, and 30 February.
    ensures no_millisecond { meaning
        (event_front ++ 0x01 ∷ 0x60 ∷ 0xEA ∷ 0x00 ∷ 0x00 ∷ 0x01 ∷ 0x01 ∷ 0x17 ∷ [])
        ≡ None }
    ensures no_day { meaning
        (event_front ++ 0x01 ∷ 0x00 ∷ 0x00 ∷ 0x00 ∷ 0x00 ∷ 0x1E ∷ 0x02 ∷ 0x17 ∷ [])
        ≡ None }
{}

/// What one ASDU carries of a list, and how it is spelled.
#[tactic(auto, unfolding(crate::specs::Packing::is_in_sequence, crate::specs::Packing::taken_of, crate::specs::Packing::apart_count, crate::specs::Packing::in_sequence_count, crate::specs::Packing::alike_count, crate::specs::Packing::consecutive_count, crate::specs::Packing::packed_spelling, crate::specs::Spelling::list_spelling, gw_time::specs::Spelling::tag_showing))]
pub fn packing_examples()
    // How many fit: single-points, double-points, bit strings, scaled values and totals.
    ensures most_apart { rooms_apart false ≡ 60 ∷ 60 ∷ 30 ∷ 40 ∷ 30 ∷ [] }
    ensures most_timed { rooms_apart true ≡ 22 ∷ 22 ∷ 16 ∷ 18 ∷ 16 ∷ [] }
    ensures most_in_sequence { rooms_in_sequence ≡ 127 ∷ 127 ∷ 48 ∷ 80 ∷ 48 ∷ [] }
    // One observation; two at consecutive addresses, up to the last; an address twice; descending addresses; a gap.
    ensures one { packing (single_on 4101 ∷ []) ≡ (false, 1) }
    ensures two { packing (single_on 4101 ∷ single_on 4102 ∷ []) ≡ (true, 2) }
    ensures last { packing (single_on 16777214 ∷ single_on 16777215 ∷ []) ≡ (true, 2) }
    ensures twice { packing (single_on 4101 ∷ single_on 4101 ∷ []) ≡ (false, 2) }
    ensures descending { packing (single_on 4102 ∷ single_on 4101 ∷ []) ≡ (false, 2) }
    ensures gap { packing (single_on 4101 ∷ single_on 4102 ∷ single_on 4104 ∷ []) ≡ (false, 3) }
    // Another type ends the prefix, and so does an observation with time behind one without, and without behind one
    // with.
    ensures mixed { packing (single_on 4101 ∷ single_on 4102 ∷ double_on 4103 ∷ []) ≡ (true, 2) }
    ensures ahead { packing (single_on 4101 ∷ double_on 4102 ∷ single_on 4103 ∷ []) ≡ (false, 1) }
    ensures then_timed { packing (single_on 4101 ∷ single_event 4102 ∷ []) ≡ (false, 1) }
    ensures then_untimed { packing (single_event 4101 ∷ single_event 4102 ∷ single_on 4103 ∷ []) ≡ (false, 2) }
    // So does another common address: of two at consecutive addresses the first goes alone, under SQ 0 and under SQ 1;
    // of three whose common address changes behind the second, two.
    ensures other_apart { apart_count utc (single_on 4101 ∷ under 2 (single_on 4102) ∷ []) ≡ 1 }
    ensures other_in_sequence { in_sequence_count utc (single_on 4101 ∷ under 2 (single_on 4102) ∷ []) ≡ 1 }
    ensures other { packing (single_on 4101 ∷ under 2 (single_on 4102) ∷ []) ≡ (false, 1) }
    ensures then_other { packing (single_on 4101 ∷ single_on 4102 ∷ under 2 (single_on 4103) ∷ []) ≡ (true, 2) }
    ensures twice_then_other { packing (single_on 4101 ∷ single_on 4101 ∷ under 2 (single_on 4101) ∷ []) ≡ (false, 2) }
    ensures timed_then_other { packing (single_event 4101 ∷ under 2 (single_event 4102) ∷ []) ≡ (false, 1) }
    ensures other_spelled { packed_spelling utc 3
        (under 258 (single_on 4101) ∷ under 258 (single_on 4102) ∷ single_on 4103 ∷ [])
        ≡ 0x01 ∷ 0x82 ∷ 0x03 ∷ 0x00 ∷ 0x02 ∷ 0x01 ∷ 0x05 ∷ 0x10 ∷ 0x00 ∷ 0x01 ∷ 0x01 ∷ [] }
    // Three single-points at consecutive addresses, interrogated, under SQ 1; an address twice, under SQ 0.
    ensures in_sequence { packed_spelling utc 20
        (untimed_observation 4101 (Single true) good ∷ untimed_observation 4102 (Single false) good
        ∷ untimed_observation 4103 (Single false) invalid_not_topical ∷ [])
        ≡ 0x01 ∷ 0x83 ∷ 0x14 ∷ 0x00 ∷ 0x01 ∷ 0x00 ∷ 0x05 ∷ 0x10 ∷ 0x00 ∷ 0x01 ∷ 0x00 ∷ 0xC0 ∷ [] }
    ensures apart { packed_spelling utc 3 (single_on 4101 ∷ untimed_observation 4101 (Single false) good ∷ [])
        ≡ 0x01 ∷ 0x02 ∷ 0x03 ∷ 0x00 ∷ 0x01 ∷ 0x00
        ∷ 0x05 ∷ 0x10 ∷ 0x00 ∷ 0x01 ∷ 0x05 ∷ 0x10 ∷ 0x00 ∷ 0x00 ∷ [] }
{}

/// The first fault of octets that mean nothing.
#[tactic(auto, unfolding(crate::specs::Reading::asdu_read, crate::specs::Reading::objects_read, crate::specs::Reading::read_apart, crate::specs::Reading::read_in_sequence, gw_time::specs::Tag::tag_meaning))]
pub fn fault_examples()
    ensures header { reading (0x01 ∷ 0x01 ∷ 0x03 ∷ []) ≡ Err Short }
    // Another type, whatever the number of objects; no object, whatever follows.
    ensures unknown_type { reading (0x2D ∷ 0x00 ∷ 0x03 ∷ 0x00 ∷ 0x01 ∷ 0x00 ∷ []) ≡ Err UnknownType }
    ensures zero_objects { reading (0x01 ∷ 0x80 ∷ 0x03 ∷ 0x00 ∷ 0x01 ∷ 0x00 ∷ 0x05 ∷ []) ≡ Err ZeroObjects }
    // An octet too few and one too many, whatever the octets are.
    ensures short { reading (0x01 ∷ 0x82 ∷ 0x03 ∷ 0x00 ∷ 0x01 ∷ 0x00 ∷ 0x05 ∷ 0x10 ∷ 0x00 ∷ 0x02 ∷ []) ≡ Err Short }
    ensures long { reading
        (0x01 ∷ 0x01 ∷ 0x03 ∷ 0x00 ∷ 0x01 ∷ 0x00 ∷ 0x05 ∷ 0x10 ∷ 0x00 ∷ 0x02 ∷ 0x00 ∷ [])
        ≡ Err Long }
    // A reserved bit and a tag that means nothing: in one object, and in the first of two.
    ensures reserved { reading
        (event_front ++ 0x03 ∷ 0x60 ∷ 0xEA ∷ 0x00 ∷ 0x00 ∷ 0x01 ∷ 0x01 ∷ 0x17 ∷ [])
        ≡ Err Reserved }
    ensures tag { reading
        (0x1E ∷ 0x82 ∷ 0x03 ∷ 0x00 ∷ 0x01 ∷ 0x00 ∷ 0x05 ∷ 0x10 ∷ 0x00 ∷ 0x01 ∷ 0x60 ∷ 0xEA ∷ 0x00 ∷ 0x00 ∷ 0x01
        ∷ 0x01 ∷ 0x17 ∷ 0x03 ∷ 0x20 ∷ 0x4E ∷ 0x0D ∷ 0x16 ∷ 0x0E ∷ 0x0B ∷ 0x17 ∷ [])
        ≡ Err Tag }
{}
