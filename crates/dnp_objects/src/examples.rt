//! Worked examples of the definitions, computed by the definitions themselves.
ghost use Rattle.std.specs.Prelude.{◌≡◌, [], ◌∷◌, Ok, Some, None, true, replicate};
ghost use Rattle.std.specs.List.{concat};
ghost use Rattle.std.specs.Option.{option_map};
ghost use Rattle.dnp_objects.specs.declared.fault.HeaderFault.TheVariants.{UnknownObject, UnknownQualifier, ShortRange};
ghost use Rattle.dnp_objects.specs.declared.fault.HeaderFault.TheVariants.{StopBeforeStart, ShortData, TooMany};
ghost use Rattle.dnp_objects.specs.declared.object.Size.TheVariants.{Octets, Bits};
ghost use Rattle.dnp_objects.specs.Library.{objects, object_of, size_of, sizes, is_table};
ghost use Rattle.dnp_objects.specs.Headers.{headers_from, headers_of, header_with, fault_at};

/// The group, the number and the size of each variation, and octet strings. No two rows have one group and number.
#[tactic(auto, unfolding(crate::specs::Library::object_of))]
pub fn sizes_by_example()
    ensures sizes { sizes objects
        ≡ (1, 1, Bits 1) ∷ (1, 2, Octets 1)
        ∷ (2, 1, Octets 1) ∷ (2, 2, Octets 7) ∷ (2, 3, Octets 3)
        ∷ (3, 1, Bits 2) ∷ (3, 2, Octets 1)
        ∷ (4, 1, Octets 1) ∷ (4, 2, Octets 7) ∷ (4, 3, Octets 3)
        ∷ (10, 1, Bits 1) ∷ (10, 2, Octets 1)
        ∷ (11, 1, Octets 1) ∷ (11, 2, Octets 7)
        ∷ (12, 1, Octets 11)
        ∷ (13, 1, Octets 1) ∷ (13, 2, Octets 7)
        ∷ (20, 1, Octets 5) ∷ (20, 2, Octets 3) ∷ (20, 5, Octets 4) ∷ (20, 6, Octets 2)
        ∷ (21, 1, Octets 5) ∷ (21, 2, Octets 3) ∷ (21, 5, Octets 11) ∷ (21, 6, Octets 9) ∷ (21, 9, Octets 4)
        ∷ (21, 10, Octets 2)
        ∷ (22, 1, Octets 5) ∷ (22, 2, Octets 3) ∷ (22, 5, Octets 11) ∷ (22, 6, Octets 9)
        ∷ (23, 1, Octets 5) ∷ (23, 2, Octets 3) ∷ (23, 5, Octets 11) ∷ (23, 6, Octets 9)
        ∷ (30, 1, Octets 5) ∷ (30, 2, Octets 3) ∷ (30, 3, Octets 4) ∷ (30, 4, Octets 2) ∷ (30, 5, Octets 5)
        ∷ (30, 6, Octets 9)
        ∷ (32, 1, Octets 5) ∷ (32, 2, Octets 3) ∷ (32, 3, Octets 11) ∷ (32, 4, Octets 9) ∷ (32, 5, Octets 5)
        ∷ (32, 6, Octets 9) ∷ (32, 7, Octets 11) ∷ (32, 8, Octets 15)
        ∷ (40, 1, Octets 5) ∷ (40, 2, Octets 3) ∷ (40, 3, Octets 5) ∷ (40, 4, Octets 9)
        ∷ (41, 2, Octets 3)
        ∷ (42, 1, Octets 5) ∷ (42, 2, Octets 3) ∷ (42, 3, Octets 11) ∷ (42, 4, Octets 9) ∷ (42, 5, Octets 5)
        ∷ (42, 6, Octets 9) ∷ (42, 7, Octets 11) ∷ (42, 8, Octets 15)
        ∷ (51, 1, Octets 6) ∷ (51, 2, Octets 6) ∷ [] }
    ensures unique { is_table objects ≡ true }
    ensures string { option_map size_of (object_of 110 7) ≡ Some (Octets 7) }
    ensures string_event { option_map size_of (object_of 111 255) ≡ Some (Octets 255) }
    ensures no_string { object_of 110 0 ≡ None }
    ensures other_group { object_of 200 1 ≡ None }
    ensures other_number { object_of 20 3 ≡ None }
{}

/// The headers of some object parts: group, variation, first index, count, octets of index, place, and the place
/// of the objects.
#[tactic(auto, unfolding(crate::specs::Headers::headers_from, crate::specs::Library::object_of))]
pub fn headers_by_example()
    // Inputs 3 to 12, packed into two octets; and four double-bit inputs in one.
    ensures packed { headers_of (0x01 ∷ 0x01 ∷ 0x00 ∷ 0x03 ∷ 0x0C ∷ 0x55 ∷ 0xFE ∷ [])
        ≡ Ok (header_with 1 1 3 10 0 0 5 ∷ []) }
    ensures packed_double { headers_of (0x03 ∷ 0x01 ∷ 0x00 ∷ 0x00 ∷ 0x03 ∷ 0xE4 ∷ [])
        ≡ Ok (header_with 3 1 0 4 0 0 5 ∷ []) }
    // A first and a last index of 16 bits: 261 and 262.
    ensures range_of_16_bits { headers_of (0x0A ∷ 0x02 ∷ 0x01 ∷ 0x05 ∷ 0x01 ∷ 0x06 ∷ 0x01 ∷ 0x01 ∷ 0x81 ∷ [])
        ≡ Ok (header_with 10 2 261 2 0 0 7 ∷ []) }
    // A common time under a count, and an event behind it after an index of one octet.
    ensures time { headers_of (0x33 ∷ 0x02 ∷ 0x07 ∷ 0x01 ∷ 0x00 ∷ 0x68 ∷ 0xE5 ∷ 0xCF ∷ 0x8B ∷ 0x01 ∷ 0x02 ∷ 0x03
        ∷ 0x17 ∷ 0x01 ∷ 0x05 ∷ 0x81 ∷ 0xFF ∷ 0xFF ∷ [])
        ≡ Ok (header_with 51 2 0 1 0 0 4 ∷ header_with 2 3 0 1 1 10 14 ∷ []) }
    ensures count_of_16_bits { headers_of (0x33 ∷ 0x01 ∷ 0x08 ∷ 0x01 ∷ 0x00 ∷ 0x00 ∷ 0x68 ∷ 0xE5 ∷ 0xCF ∷ 0x8B
        ∷ 0x01 ∷ [])
        ≡ Ok (header_with 51 1 0 1 0 0 5 ∷ []) }
    ensures prefixed { headers_of (0x16 ∷ 0x01 ∷ 0x17 ∷ 0x01 ∷ 0x00 ∷ 0x21 ∷ 0xFF ∷ 0xFF ∷ 0xFF ∷ 0xFF ∷ [])
        ≡ Ok (header_with 22 1 0 1 1 0 4 ∷ []) }
    ensures prefixed_16_bits { headers_of (0x20 ∷ 0x01 ∷ 0x18 ∷ 0x01 ∷ 0x00 ∷ 0x00 ∷ 0x01 ∷ 0x40 ∷ 0x9C ∷ 0x00
        ∷ 0x00 ∷ [])
        ≡ Ok (header_with 32 1 0 1 1 0 5 ∷ []) }
    // Indexes of two octets.
    ensures two_octets_of_index { headers_of (0x29 ∷ 0x02 ∷ 0x27 ∷ 0x01 ∷ 0x04 ∷ 0x00 ∷ 0xE8 ∷ 0x03 ∷ 0x00 ∷ [])
        ≡ Ok (header_with 41 2 0 1 2 0 4 ∷ []) }
    ensures two_octets_16_bits { headers_of (0x04 ∷ 0x01 ∷ 0x28 ∷ 0x01 ∷ 0x00 ∷ 0x07 ∷ 0x00 ∷ 0x81 ∷ [])
        ≡ Ok (header_with 4 1 0 1 2 0 5 ∷ []) }
    // An analog input, and one in floating point.
    ensures stepped_over { headers_of (0x1E ∷ 0x01 ∷ 0x00 ∷ 0x00 ∷ 0x00 ∷ 0x01 ∷ 0x0A ∷ 0x00 ∷ 0x00 ∷ 0x00 ∷ 0x1E
        ∷ 0x05 ∷ 0x00 ∷ 0x01 ∷ 0x01 ∷ 0x01 ∷ 0x00 ∷ 0x00 ∷ 0x80 ∷ 0x3F ∷ [])
        ≡ Ok (header_with 30 1 0 1 0 0 5 ∷ header_with 30 5 1 1 0 10 15 ∷ []) }
    // No objects, and no headers.
    ensures no_objects { headers_of (0x02 ∷ 0x01 ∷ 0x17 ∷ 0x00 ∷ []) ≡ Ok (header_with 2 1 0 0 1 0 4 ∷ []) }
    ensures no_headers { headers_of ([]) ≡ Ok [] }
{}

/// The first faults of some object parts.
#[tactic(auto, unfolding(crate::specs::Headers::headers_from, crate::specs::Library::object_of))]
pub fn faults_by_example()
    // A header that ends before its qualifier, even where the object is unknown.
    ensures cut { headers_of (0x02 ∷ 0x01 ∷ []) ≡ fault_at 0 ShortRange }
    ensures cut_unknown { headers_of (0xC8 ∷ 0x01 ∷ []) ≡ fault_at 0 ShortRange }
    // An unknown object is told before an unknown qualifier.
    ensures unknown { headers_of (0xC8 ∷ 0x01 ∷ 0x06 ∷ []) ≡ fault_at 0 UnknownObject }
    // The place is that of the header at fault.
    ensures unknown_behind { headers_of (0x1E ∷ 0x01 ∷ 0x00 ∷ 0x00 ∷ 0x00 ∷ 0x01 ∷ 0x0A ∷ 0x00 ∷ 0x00 ∷ 0x00
        ∷ 0x1E ∷ 0x05 ∷ 0x00 ∷ 0x01 ∷ 0x01 ∷ 0x01 ∷ 0x00 ∷ 0x00 ∷ 0x80 ∷ 0x3F
        ∷ 0xC8 ∷ 0x01 ∷ 0x00 ∷ 0x00 ∷ 0x00 ∷ 0x00 ∷ []) ≡ fault_at 20 UnknownObject }
    // A qualifier that isn't known, or not for the object, is told before a range that is cut.
    ensures qualifier { headers_of (0x02 ∷ 0x01 ∷ 0x06 ∷ []) ≡ fault_at 0 UnknownQualifier }
    ensures time_prefixed { headers_of (0x33 ∷ 0x01 ∷ 0x17 ∷ 0x00 ∷ []) ≡ fault_at 0 UnknownQualifier }
    ensures packed_prefixed { headers_of (0x01 ∷ 0x01 ∷ 0x17 ∷ 0x00 ∷ []) ≡ fault_at 0 UnknownQualifier }
    ensures counted { headers_of (0x02 ∷ 0x01 ∷ 0x07 ∷ 0x01 ∷ 0x81 ∷ []) ≡ fault_at 0 UnknownQualifier }
    ensures command_in_range { headers_of (0x0C ∷ 0x01 ∷ 0x00 ∷ 0x00 ∷ 0x00 ∷ []) ≡ fault_at 0 UnknownQualifier }
    ensures range { headers_of (0x02 ∷ 0x01 ∷ 0x17 ∷ []) ≡ fault_at 0 ShortRange }
    ensures range_of_16_bits { headers_of (0x01 ∷ 0x02 ∷ 0x01 ∷ 0x05 ∷ 0x00 ∷ 0x06 ∷ []) ≡ fault_at 0 ShortRange }
    ensures order { headers_of (0x01 ∷ 0x02 ∷ 0x00 ∷ 0x05 ∷ 0x04 ∷ []) ≡ fault_at 0 StopBeforeStart }
    ensures data { headers_of (0x01 ∷ 0x02 ∷ 0x00 ∷ 0x05 ∷ 0x06 ∷ 0x81 ∷ []) ≡ fault_at 0 ShortData }
    // Ten bits are two octets.
    ensures packed_data { headers_of (0x01 ∷ 0x01 ∷ 0x00 ∷ 0x03 ∷ 0x0C ∷ 0x55 ∷ []) ≡ fault_at 0 ShortData }
    // One header more than there may be, before its other faults; and a part that ends there.
    ensures too_many { headers_from 4 0 (0xC8 ∷ []) ≡ fault_at 3 TooMany }
    ensures as_many { headers_from 4 0 [] ≡ Ok [] }
{}

/// One header more than a part may have: the 513th is told, at its place.
#[tactic(auto, unfolding(crate::specs::Headers::headers_from, crate::specs::Library::object_of))]
pub fn most_headers_by_example()
    ensures { headers_of (concat (replicate 513 (0x33 ∷ 0x02 ∷ 0x07 ∷ 0x00 ∷ []))) ≡ fault_at 2048 TooMany }
{}
