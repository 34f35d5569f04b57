//! Worked examples of the definitions, computed by the definitions themselves.
#![tactic(auto, unfolding(dnp_objects::specs::Headers::headers_from, dnp_objects::specs::Library::object_of, crate::specs::Objects::point_report))]

ghost use Rattle.std.specs.Prelude.{◌≡◌, ℕ, pos, negsuc, [], ◌∷◌, Ok, true, false};
ghost use Rattle.gw_model.specs.declared.point.Kind.TheVariants.{Binary, Double, Output, Counter, Analog};
ghost use Rattle.gw_model.specs.declared.point.Raw.TheVariants.{Bit, Two, Count, Number};
ghost use Rattle.gw_model.specs.declared.point.Stamp.TheVariants.{Untimed, At, Doubtful};
ghost use Rattle.dnp_objects.specs.declared.fault.HeaderFault.TheVariants.{UnknownObject, UnknownQualifier, ShortRange, ShortData};
ghost use Rattle.dnp_objects.specs.Headers.{fault_at};
ghost use Rattle.dnp_points.specs.Objects.{binary_report};
ghost use Rattle.dnp_points.specs.Meaning.{meaning_of};
ghost use Rattle.dnp_points.specs.Fields.{fields_of_part, static_fields, event_fields};

/// What some object parts mean for outstation 0, and which fault others have.
pub fn object_parts_by_example()
    // 02 01 17 01 05 81: input 5 is on, online.
    ensures on { meaning_of 0 (0x02 ∷ 0x01 ∷ 0x17 ∷ 0x01 ∷ 0x05 ∷ 0x81 ∷ []) ≡ Ok (binary_report 0 5 0x81 ∷ []) }
    ensures bit { ((binary_report 0 5 0x81).raw ≡ Bit true) × ((binary_report 0 5 0x7F).raw ≡ Bit false) }
    ensures key { (binary_report 0 5 0x81).key ≡ record { outstation = 0; kind = Binary; index = 5 } }
    // Two objects under one header.
    ensures two { meaning_of 0 (0x02 ∷ 0x01 ∷ 0x17 ∷ 0x02 ∷ 0x05 ∷ 0xFF ∷ 0x06 ∷ 0x81 ∷ [])
        ≡ Ok (binary_report 0 5 0xFF ∷ binary_report 0 6 0x81 ∷ []) }
    // No objects, and no headers.
    ensures none { meaning_of 0 (0x02 ∷ 0x01 ∷ 0x17 ∷ 0x00 ∷ []) ≡ Ok [] }
    ensures empty { meaning_of 0 [] ≡ Ok [] }
    // What is cut short, unknown, or under another qualifier; the second header is at place 6.
    ensures short { meaning_of 0 (0x02 ∷ 0x01 ∷ 0x17 ∷ 0x01 ∷ 0x05 ∷ []) ≡ fault_at 0 ShortData }
    ensures cut { meaning_of 0 (0x02 ∷ 0x01 ∷ 0x17 ∷ []) ≡ fault_at 0 ShortRange }
    ensures unknown { meaning_of 0 (0x02 ∷ 0x01 ∷ 0x17 ∷ 0x01 ∷ 0x05 ∷ 0x81 ∷ 0xC8 ∷ 0x01 ∷ 0x06 ∷ [])
        ≡ fault_at 6 UnknownObject }
    ensures qualifier { meaning_of 0 (0x02 ∷ 0x01 ∷ 0x06 ∷ []) ≡ fault_at 0 UnknownQualifier }
{}

/// What packed objects mean, and indexes of two octets.
pub fn states_by_example()
    // Inputs 3 to 12 are 1, 0, 1, 0, 1, 0, 1, 0, 0, 1; the six bits above fill the octet up.
    ensures packed_inputs { fields_of_part 0 (0x01 ∷ 0x01 ∷ 0x00 ∷ 0x03 ∷ 0x0C ∷ 0x55 ∷ 0xFE ∷ [])
        ≡ Ok (static_fields 0 Binary 3 (Bit true) 1 ∷ static_fields 0 Binary 4 (Bit false) 1
        ∷ static_fields 0 Binary 5 (Bit true) 1 ∷ static_fields 0 Binary 6 (Bit false) 1
        ∷ static_fields 0 Binary 7 (Bit true) 1 ∷ static_fields 0 Binary 8 (Bit false) 1
        ∷ static_fields 0 Binary 9 (Bit true) 1 ∷ static_fields 0 Binary 10 (Bit false) 1
        ∷ static_fields 0 Binary 11 (Bit false) 1 ∷ static_fields 0 Binary 12 (Bit true) 1 ∷ []) }
    // Double-bit inputs 0 to 3 are 0, 1, 2, 3.
    ensures packed_doubles { fields_of_part 0 (0x03 ∷ 0x01 ∷ 0x00 ∷ 0x00 ∷ 0x03 ∷ 0xE4 ∷ [])
        ≡ Ok (static_fields 0 Double 0 (Two 0) 1 ∷ static_fields 0 Double 1 (Two 1) 1
        ∷ static_fields 0 Double 2 (Two 2) 1 ∷ static_fields 0 Double 3 (Two 3) 1 ∷ []) }
    // A double-bit input event of index 7: state 2.
    ensures double { fields_of_part 0 (0x04 ∷ 0x01 ∷ 0x28 ∷ 0x01 ∷ 0x00 ∷ 0x07 ∷ 0x00 ∷ 0x81 ∷ [])
        ≡ Ok (event_fields 0 Double 7 (Two 2) 0x81 Untimed ∷ []) }
    // Output status 258, counted on from a range's start; and 259, off.
    ensures outputs { fields_of_part 0 (0x0A ∷ 0x02 ∷ 0x01 ∷ 0x02 ∷ 0x01 ∷ 0x03 ∷ 0x01 ∷ 0x81 ∷ 0x01 ∷ [])
        ≡ Ok (static_fields 0 Output 258 (Bit true) 0x81 ∷ static_fields 0 Output 259 (Bit false) 0x01 ∷ []) }
{}

/// What counts and numbers mean, and objects that mean no report.
pub fn numbers_by_example()
    // A counter event of 32 bits whose flags tell a rollover.
    ensures counter { fields_of_part 0 (0x16 ∷ 0x01 ∷ 0x17 ∷ 0x01 ∷ 0x00 ∷ 0x21 ∷ 0xFF ∷ 0xFF ∷ 0xFF ∷ 0xFF ∷ [])
        ≡ Ok (event_fields 0 Counter 0 (Count 4294967295) 0x21 Untimed ∷ []) }
    // A counter of 16 bits without flags: low octet first, online.
    ensures low_octet_first { fields_of_part 0 (0x14 ∷ 0x06 ∷ 0x00 ∷ 0x09 ∷ 0x09 ∷ 0x34 ∷ 0x12 ∷ [])
        ≡ Ok (static_fields 0 Counter 9 (Count 0x1234) 1 ∷ []) }
    // FFFF of 16 bits is -1, and so is FFFFFFFF of 32; 8000 is -32768, and 7FFF 32767.
    ensures minus_one { fields_of_part 0 (0x1E ∷ 0x04 ∷ 0x00 ∷ 0x00 ∷ 0x00 ∷ 0xFF ∷ 0xFF ∷ [])
        ≡ Ok (static_fields 0 Analog 0 (Number (negsuc 0)) 1 ∷ []) }
    ensures minus_one_long { fields_of_part 0 (0x1E ∷ 0x03 ∷ 0x00 ∷ 0x00 ∷ 0x00 ∷ 0xFF ∷ 0xFF ∷ 0xFF ∷ 0xFF ∷ [])
        ≡ Ok (static_fields 0 Analog 0 (Number (negsuc 0)) 1 ∷ []) }
    ensures ends { fields_of_part 0 (0x1E ∷ 0x02 ∷ 0x00 ∷ 0x00 ∷ 0x01 ∷ 0x01 ∷ 0x00 ∷ 0x80 ∷ 0x21 ∷ 0xFF ∷ 0x7F ∷ [])
        ≡ Ok (static_fields 0 Analog 0 (Number (negsuc 32767)) 1
        ∷ static_fields 0 Analog 1 (Number (pos 32767)) 0x21 ∷ []) }
    // Stepped over: an analog input in floating point, an octet string, and a command's echo.
    ensures stepped_over { fields_of_part 0 (0x1E ∷ 0x05 ∷ 0x00 ∷ 0x01 ∷ 0x01 ∷ 0x01 ∷ 0x00 ∷ 0x00 ∷ 0x80 ∷ 0x3F ∷ [])
        ≡ Ok [] }
    ensures string { fields_of_part 0 (0x6E ∷ 0x02 ∷ 0x00 ∷ 0x01 ∷ 0x01 ∷ 0x41 ∷ 0x42 ∷ []) ≡ Ok [] }
    ensures echo { fields_of_part 0 (0x29 ∷ 0x02 ∷ 0x28 ∷ 0x01 ∷ 0x00 ∷ 0x04 ∷ 0x00 ∷ 0xE8 ∷ 0x03 ∷ 0x00 ∷ [])
        ≡ Ok [] }
{}

/// What times mean.
pub fn times_by_example()
    // An event with its own time.
    ensures absolute { fields_of_part 0 (0x02 ∷ 0x02 ∷ 0x17 ∷ 0x01 ∷ 0x05 ∷ 0x81 ∷ 0x00 ∷ 0x68 ∷ 0xE5 ∷ 0xCF ∷ 0x8B
        ∷ 0x01 ∷ [])
        ≡ Ok (event_fields 0 Binary 5 (Bit true) 0x81 (At 1700000000000) ∷ []) }
    // An event 65535 milliseconds after the common time of a clock that isn't synchronized.
    ensures doubtful { fields_of_part 0 (0x33 ∷ 0x02 ∷ 0x07 ∷ 0x01 ∷ 0x00 ∷ 0x68 ∷ 0xE5 ∷ 0xCF ∷ 0x8B ∷ 0x01 ∷ 0x02
        ∷ 0x03 ∷ 0x17 ∷ 0x01 ∷ 0x05 ∷ 0x81 ∷ 0xFF ∷ 0xFF ∷ [])
        ≡ Ok (event_fields 0 Binary 5 (Bit true) 0x81 (Doubtful 1700000065535) ∷ []) }
    ensures synchronized { fields_of_part 0 (0x33 ∷ 0x01 ∷ 0x07 ∷ 0x01 ∷ 0x00 ∷ 0x68 ∷ 0xE5 ∷ 0xCF ∷ 0x8B ∷ 0x01
        ∷ 0x04 ∷ 0x03 ∷ 0x17 ∷ 0x01 ∷ 0x05 ∷ 0x41 ∷ 0x01 ∷ 0x00 ∷ [])
        ≡ Ok (event_fields 0 Double 5 (Two 1) 0x41 (At 1700000000001) ∷ []) }
    // No common time before it.
    ensures no_common_time { fields_of_part 0 (0x02 ∷ 0x03 ∷ 0x17 ∷ 0x01 ∷ 0x05 ∷ 0x81 ∷ 0xFF ∷ 0xFF ∷ [])
        ≡ Ok (event_fields 0 Binary 5 (Bit true) 0x81 Untimed ∷ []) }
    // Of two common times, the last counts; so it does of two under one header.
    ensures last { fields_of_part 0 (0x33 ∷ 0x01 ∷ 0x07 ∷ 0x01 ∷ 0x09 ∷ 0x00 ∷ 0x00 ∷ 0x00 ∷ 0x00 ∷ 0x00
        ∷ 0x33 ∷ 0x02 ∷ 0x07 ∷ 0x01 ∷ 0x05 ∷ 0x00 ∷ 0x00 ∷ 0x00 ∷ 0x00 ∷ 0x00
        ∷ 0x02 ∷ 0x03 ∷ 0x17 ∷ 0x01 ∷ 0x05 ∷ 0x81 ∷ 0x02 ∷ 0x00 ∷ [])
        ≡ Ok (event_fields 0 Binary 5 (Bit true) 0x81 (Doubtful 7) ∷ []) }
    ensures last_of_two { fields_of_part 0 (0x33 ∷ 0x01 ∷ 0x07 ∷ 0x02 ∷ 0x09 ∷ 0x00 ∷ 0x00 ∷ 0x00 ∷ 0x00 ∷ 0x00
        ∷ 0x05 ∷ 0x00 ∷ 0x00 ∷ 0x00 ∷ 0x00 ∷ 0x00
        ∷ 0x02 ∷ 0x03 ∷ 0x17 ∷ 0x01 ∷ 0x05 ∷ 0x81 ∷ 0x02 ∷ 0x00 ∷ [])
        ≡ Ok (event_fields 0 Binary 5 (Bit true) 0x81 (At 7) ∷ []) }
    // A header without common times leaves the one before; a common time behind an event gives it nothing.
    ensures none_counted { fields_of_part 0 (0x33 ∷ 0x01 ∷ 0x07 ∷ 0x01 ∷ 0x09 ∷ 0x00 ∷ 0x00 ∷ 0x00 ∷ 0x00 ∷ 0x00
        ∷ 0x33 ∷ 0x02 ∷ 0x07 ∷ 0x00 ∷ 0x02 ∷ 0x03 ∷ 0x17 ∷ 0x01 ∷ 0x05 ∷ 0x81 ∷ 0x02 ∷ 0x00 ∷ [])
        ≡ Ok (event_fields 0 Binary 5 (Bit true) 0x81 (At 11) ∷ []) }
    ensures behind { fields_of_part 0 (0x02 ∷ 0x03 ∷ 0x17 ∷ 0x01 ∷ 0x05 ∷ 0x81 ∷ 0x02 ∷ 0x00 ∷ 0x33 ∷ 0x01 ∷ 0x07
        ∷ 0x01 ∷ 0x09 ∷ 0x00 ∷ 0x00 ∷ 0x00 ∷ 0x00 ∷ 0x00 ∷ [])
        ≡ Ok (event_fields 0 Binary 5 (Bit true) 0x81 Untimed ∷ []) }
{}
