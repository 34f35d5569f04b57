//! Worked examples of the definitions, computed by the definitions themselves.
ghost use Rattle.std.specs.Prelude.{◌≡◌, ℕ, pos, negsuc, [], ◌∷◌, ◌++◌, map, Ok, Err, Some, None, true, false};
ghost use Rattle.dnp_objects.specs.Headers.{number};
ghost use Rattle.dnp_objects.specs.declared.fault.HeaderFault.TheVariants.{UnknownObject, ShortData};
ghost use Rattle.dnp_points.specs.Objects.{binary_report};
ghost use Rattle.dnp_app.specs.declared.fault.AppFault.TheVariants.{Short, NotResponse, Object};
ghost use Rattle.dnp_app.specs.Control.{control_of, confirmation_of, confirm_of};
ghost use Rattle.dnp_app.specs.Echo.{echo_of};
ghost use Rattle.dnp_app.specs.Response.{response_of, fragment_of, is_unsolicited};
ghost use Rattle.dnp_app.specs.SteppedOver.{stepped_over_count_of};
ghost use Rattle.dnp_app.specs.Requests.{clear_restart_octets, disable_octets, enable_octets};
ghost use Rattle.dnp_app.specs.Requests.{read_octets, record_time_octets, write_time_octets};
ghost use Rattle.dnp_app.specs.Asking.{asking_of, asks_for, Read, WriteIndication};
ghost use Rattle.gw_model.specs.declared.control.Act.TheVariants.{Switch, Set};
ghost use Rattle.gw_model.specs.declared.control.Shape.TheVariants.{Latch, Pulse};
ghost use Rattle.dnp_app.specs.declared.operation.Operation.TheVariants.{Select, Operate, DirectOperate};
ghost use Rattle.dnp_app.specs.Requests.{control_octets};
ghost use Rattle.dnp_app.specs.Operating.{operates_for, operating_of};
ghost use Rattle.dnp_app.specs.Example.{relay_header, response_front};

/// What some fragments are, read for an outstation, and which fault others have.
#[tactic(auto, unfolding(dnp_objects::specs::Headers::headers_from, dnp_objects::specs::Library::object_of, dnp_points::specs::Objects::point_report))]
pub fn fragments_by_example()
    // E3 81 00 00 02 01 17 01 05 81: a response that reports input 5 on, as a point of the outstation that it is
    // read for.
    ensures response { response_of 0 (0xE3 ∷ 0x81 ∷ 0x00 ∷ 0x00 ∷ 0x02 ∷ 0x01 ∷ 0x17 ∷ 0x01 ∷ 0x05 ∷ 0x81 ∷ [])
        ≡ Ok (fragment_of 0 (0xE3 ∷ 0x81 ∷ 0x00 ∷ 0x00 ∷ 0x02 ∷ 0x01 ∷ 0x17 ∷ 0x01 ∷ 0x05 ∷ 0x81 ∷ [])
        (binary_report 0 5 0x81 ∷ [])) }
    ensures other { response_of 7 (0xC0 ∷ 0x81 ∷ 0x00 ∷ 0x00 ∷ 0x02 ∷ 0x01 ∷ 0x17 ∷ 0x01 ∷ 0x05 ∷ 0x81 ∷ [])
        ≡ Ok (fragment_of 7 (0xC0 ∷ 0x81 ∷ 0x00 ∷ 0x00 ∷ 0x02 ∷ 0x01 ∷ 0x17 ∷ 0x01 ∷ 0x05 ∷ 0x81 ∷ [])
        (binary_report 7 5 0x81 ∷ [])) }
    // F0 82 90 08: an unsolicited response with internal indications and an empty object part.
    ensures unsolicited { response_of 0 (0xF0 ∷ 0x82 ∷ 0x90 ∷ 0x08 ∷ [])
        ≡ Ok (fragment_of 0 (0xF0 ∷ 0x82 ∷ 0x90 ∷ 0x08 ∷ []) []) }
    // Function 130 makes it one, whatever UNS says.
    ensures by_function { map (λ octets. is_unsolicited (fragment_of 7 octets []))
        ((0xE3 ∷ 0x82 ∷ 0x00 ∷ 0x00 ∷ []) ∷ (0xF3 ∷ 0x82 ∷ 0x00 ∷ 0x00 ∷ []) ∷ (0xF3 ∷ 0x81 ∷ 0x00 ∷ 0x00 ∷ [])
        ∷ (0xE3 ∷ 0x81 ∷ 0x00 ∷ 0x00 ∷ []) ∷ []) ≡ true ∷ true ∷ false ∷ false ∷ [] }
    ensures empty { response_of 0 (0xC0 ∷ 0x81 ∷ 0x00 ∷ 0x00 ∷ [])
        ≡ Ok (fragment_of 0 (0xC0 ∷ 0x81 ∷ 0x00 ∷ 0x00 ∷ []) []) }
    // Fewer than four octets, whatever the function; then other functions: WRITE and 131 (an authentication
    // response), whatever follows.
    ensures short { response_of 0 (0xC0 ∷ 0x81 ∷ 0x00 ∷ []) ≡ Err Short }
    ensures short_first { response_of 0 (0xC0 ∷ 0x02 ∷ 0x00 ∷ []) ≡ Err Short }
    ensures nothing { response_of 0 [] ≡ Err Short }
    ensures request { response_of 0 (0xC0 ∷ 0x02 ∷ 0x00 ∷ 0x00 ∷ []) ≡ Err NotResponse }
    ensures authentication { response_of 0 (0xC0 ∷ 0x83 ∷ 0x00 ∷ 0x00 ∷ 0x02 ∷ 0x01 ∷ 0x17 ∷ 0x01 ∷ 0x05 ∷ [])
        ≡ Err NotResponse }
    // An object part at fault: places count in the part.
    ensures data { response_of 0 (0xC0 ∷ 0x81 ∷ 0x00 ∷ 0x00 ∷ 0x02 ∷ 0x01 ∷ 0x17 ∷ 0x01 ∷ 0x05 ∷ [])
        ≡ Err (Object (record { why = ShortData; place = 0 })) }
    ensures second { response_of 0 (0xC0 ∷ 0x81 ∷ 0x00 ∷ 0x00 ∷ 0x02 ∷ 0x01 ∷ 0x17 ∷ 0x01 ∷ 0x05 ∷ 0x81 ∷ 0xC8
        ∷ 0x01 ∷ 0x00 ∷ []) ≡ Err (Object (record { why = UnknownObject; place = 6 })) }
{}

/// What some application control octets say, and which octets confirm a fragment.
pub fn controls_by_example()
    // E3: first and last, to be confirmed, sequence number 3; F0: an unsolicited one; 40 and 8F: a last fragment, and
    // a first one.
    ensures e3 { control_of 0xE3 ≡ record { fir = true; fin = true; con = true; uns = false; sequence = 3 } }
    ensures f0 { control_of 0xF0 ≡ record { fir = true; fin = true; con = true; uns = true; sequence = 0 } }
    ensures last { control_of 0x40 ≡ record { fir = false; fin = true; con = false; uns = false; sequence = 0 } }
    ensures first { control_of 0x8F ≡ record { fir = true; fin = false; con = false; uns = false; sequence = 15 } }
    ensures confirmed { confirmation_of 3 false ≡ 0xC3 ∷ 0x00 ∷ [] }
    ensures confirmed_unsolicited { confirmation_of 5 true ≡ 0xD5 ∷ 0x00 ∷ [] }
    // Where CON is set and not elsewhere, with the fragment's own UNS bit, whatever its function.
    ensures asked { confirm_of (0xE3 ∷ 0x81 ∷ 0x00 ∷ 0x00 ∷ []) ≡ Some (0xC3 ∷ 0x00 ∷ []) }
    ensures asked_unsolicited { confirm_of (0xF3 ∷ 0x82 ∷ 0x00 ∷ 0x00 ∷ []) ≡ Some (0xD3 ∷ 0x00 ∷ []) }
    ensures uns_of_a_response { confirm_of (0xF3 ∷ 0x81 ∷ 0x00 ∷ 0x00 ∷ []) ≡ Some (0xD3 ∷ 0x00 ∷ []) }
    ensures unsolicited_without_uns { confirm_of (0xE3 ∷ 0x82 ∷ 0x00 ∷ 0x00 ∷ []) ≡ Some (0xC3 ∷ 0x00 ∷ []) }
    ensures not_asked { confirm_of (0xD3 ∷ 0x82 ∷ 0x00 ∷ 0x00 ∷ []) ≡ None }
    // A fragment that isn't the last one of its message asks like any other: the first, one between, and one that doesn't.
    ensures first_asked { confirm_of (0xA3 ∷ 0x81 ∷ 0x00 ∷ 0x00 ∷ []) ≡ Some (0xC3 ∷ 0x00 ∷ []) }
    ensures between_asked { confirm_of (0x2F ∷ 0x81 ∷ 0x00 ∷ 0x00 ∷ []) ≡ Some (0xCF ∷ 0x00 ∷ []) }
    ensures first_not_asked { confirm_of (0x83 ∷ 0x81 ∷ 0x00 ∷ 0x00 ∷ []) ≡ None }
{}

/// Which command some fragments echo.
#[tactic(auto, unfolding(dnp_objects::specs::Headers::headers_from, dnp_objects::specs::Library::object_of))]
pub fn echoes_by_example()
    // A control relay output block under 28, whatever its octets are: index of two octets, code, count, on-time,
    // off-time and status.
    ensures relay { (low high code count on₀ on₁ on₂ on₃ off₀ off₁ off₂ off₃ status : ℕ)
        → echo_of (response_front 0xC1 ++ relay_header ++ low ∷ high
        ∷ code ∷ count ∷ on₀ ∷ on₁ ∷ on₂ ∷ on₃ ∷ off₀ ∷ off₁ ∷ off₂ ∷ off₃ ∷ status ∷ [])
        ≡ Some (record {
          index = number (low ∷ high ∷ []);
          group = 12;
          body = code ∷ count ∷ on₀ ∷ on₁ ∷ on₂ ∷ on₃ ∷ off₀ ∷ off₁ ∷ off₂ ∷ off₃ ∷ 0 ∷ [];
          status = status;
        }) }
    // A 16-bit analog output under 28, and under 17: its value, and zeros.
    ensures setpoint { (low high value₀ value₁ status : ℕ)
        → echo_of (response_front 0xC1 ++ 0x29 ∷ 0x02 ∷ 0x28 ∷ 0x01 ∷ 0x00 ∷ low ∷ high
        ∷ value₀ ∷ value₁ ∷ status ∷ [])
        ≡ Some (record {
          index = number (low ∷ high ∷ []);
          group = 41;
          body = value₀ ∷ value₁ ∷ 0 ∷ 0 ∷ 0 ∷ 0 ∷ 0 ∷ 0 ∷ 0 ∷ 0 ∷ 0 ∷ [];
          status = status;
        }) }
    ensures one_octet_of_index { echo_of (response_front 0xC0 ++ 0x29 ∷ 0x02 ∷ 0x17 ∷ 0x01 ∷ 0xFF
        ∷ 0xE8 ∷ 0x03 ∷ 0x04 ∷ [])
        ≡ Some (record {
          index = 255;
          group = 41;
          body = 0xE8 ∷ 0x03 ∷ 0 ∷ 0 ∷ 0 ∷ 0 ∷ 0 ∷ 0 ∷ 0 ∷ 0 ∷ 0 ∷ [];
          status = 4;
        }) }
    // Two such headers are no echo, though they are alike; nor are two commands under one header, nor none.
    ensures two_headers { echo_of (response_front 0xC0 ++ 0x29 ∷ 0x02 ∷ 0x17 ∷ 0x01 ∷ 0x04 ∷ 0xE8 ∷ 0x03 ∷ 0x00
        ∷ 0x29 ∷ 0x02 ∷ 0x17 ∷ 0x01 ∷ 0x04 ∷ 0xE8 ∷ 0x03 ∷ 0x00 ∷ []) ≡ None }
    ensures two_commands { echo_of (response_front 0xC0 ++ 0x29 ∷ 0x02 ∷ 0x17 ∷ 0x02 ∷ 0x04 ∷ 0xE8 ∷ 0x03 ∷ 0x00
        ∷ 0x05 ∷ 0xE8 ∷ 0x03 ∷ 0x00 ∷ []) ≡ None }
    ensures no_command { echo_of (response_front 0xC0 ++ 0x29 ∷ 0x02 ∷ 0x17 ∷ 0x00 ∷ []) ≡ None }
    // Headers with no command or with two, and those of other objects, don't matter beside one that has one.
    ensures beside_others { echo_of (response_front 0xC0 ++ 0x0C ∷ 0x01 ∷ 0x28 ∷ 0x00 ∷ 0x00
        ∷ 0x29 ∷ 0x02 ∷ 0x17 ∷ 0x02 ∷ 0x04 ∷ 0xE8 ∷ 0x03 ∷ 0x00 ∷ 0x05 ∷ 0xE8 ∷ 0x03 ∷ 0x00
        ∷ 0x29 ∷ 0x02 ∷ 0x27 ∷ 0x01 ∷ 0x05 ∷ 0x01 ∷ 0x18 ∷ 0xFC ∷ 0x01
        ∷ 0x02 ∷ 0x01 ∷ 0x17 ∷ 0x01 ∷ 0x05 ∷ 0x81 ∷ [])
        ≡ Some (record {
          index = 261;
          group = 41;
          body = 0x18 ∷ 0xFC ∷ 0 ∷ 0 ∷ 0 ∷ 0 ∷ 0 ∷ 0 ∷ 0 ∷ 0 ∷ 0 ∷ [];
          status = 1;
        }) }
    // An event of an analog output tells what was commanded, and is no echo.
    ensures output_event { echo_of (response_front 0xC0 ++ 0x2A ∷ 0x02 ∷ 0x17 ∷ 0x01 ∷ 0x04 ∷ 0x01 ∷ 0x07 ∷ 0x00 ∷ [])
        ≡ None }
    ensures reports_alone { echo_of (response_front 0xC0 ++ 0x02 ∷ 0x01 ∷ 0x17 ∷ 0x01 ∷ 0x05 ∷ 0x81 ∷ []) ≡ None }
{}

/// How many objects of some fragments are stepped over.
#[tactic(auto, unfolding(dnp_objects::specs::Headers::headers_from, dnp_objects::specs::Library::object_of))]
pub fn stepped_over_by_example()
    // An analog input is reported, and one in floating point behind it is stepped over.
    ensures one { stepped_over_count_of (0xE1 ∷ 0x81 ∷ 0x00 ∷ 0x00
        ∷ 0x1E ∷ 0x01 ∷ 0x00 ∷ 0x00 ∷ 0x00 ∷ 0x01 ∷ 0x0A ∷ 0x00 ∷ 0x00 ∷ 0x00
        ∷ 0x1E ∷ 0x05 ∷ 0x00 ∷ 0x01 ∷ 0x01 ∷ 0x01 ∷ 0x00 ∷ 0x00 ∷ 0x80 ∷ 0x3F ∷ []) ≡ 1 }
    // Each object counts: three frozen counters under one header, and an octet string.
    ensures four { stepped_over_count_of (0xC0 ∷ 0x81 ∷ 0x00 ∷ 0x00
        ∷ 0x15 ∷ 0x0A ∷ 0x00 ∷ 0x00 ∷ 0x02 ∷ 0x01 ∷ 0x00 ∷ 0x02 ∷ 0x00 ∷ 0x03 ∷ 0x00
        ∷ 0x6E ∷ 0x02 ∷ 0x17 ∷ 0x01 ∷ 0x00 ∷ 0x48 ∷ 0x69 ∷ []) ≡ 4 }
    // Events of commands, frozen counters, floating point, analog outputs and octet strings.
    ensures events { stepped_over_count_of (0xC0 ∷ 0x81 ∷ 0x00 ∷ 0x00
        ∷ 0x0D ∷ 0x01 ∷ 0x17 ∷ 0x01 ∷ 0x00 ∷ 0x80
        ∷ 0x17 ∷ 0x02 ∷ 0x17 ∷ 0x01 ∷ 0x00 ∷ 0x01 ∷ 0x00 ∷ 0x00
        ∷ 0x20 ∷ 0x05 ∷ 0x17 ∷ 0x01 ∷ 0x00 ∷ 0x01 ∷ 0x00 ∷ 0x00 ∷ 0x80 ∷ 0x3F
        ∷ 0x2A ∷ 0x02 ∷ 0x17 ∷ 0x01 ∷ 0x00 ∷ 0x01 ∷ 0x07 ∷ 0x00
        ∷ 0x6F ∷ 0x01 ∷ 0x17 ∷ 0x01 ∷ 0x00 ∷ 0x48 ∷ []) ≡ 5 }
    // An analog output's status.
    ensures status { stepped_over_count_of (0xC0 ∷ 0x81 ∷ 0x00 ∷ 0x00
        ∷ 0x28 ∷ 0x02 ∷ 0x00 ∷ 0x00 ∷ 0x00 ∷ 0x01 ∷ 0x07 ∷ 0x00 ∷ []) ≡ 1 }
    // A common time, a command and an event are not stepped over.
    ensures none { stepped_over_count_of (0xC0 ∷ 0x81 ∷ 0x00 ∷ 0x00
        ∷ 0x33 ∷ 0x01 ∷ 0x07 ∷ 0x01 ∷ 0x00 ∷ 0x68 ∷ 0xE5 ∷ 0xCF ∷ 0x8B ∷ 0x01
        ∷ 0x29 ∷ 0x02 ∷ 0x17 ∷ 0x01 ∷ 0x04 ∷ 0xE8 ∷ 0x03 ∷ 0x00
        ∷ 0x02 ∷ 0x03 ∷ 0x17 ∷ 0x01 ∷ 0x05 ∷ 0x81 ∷ 0xFF ∷ 0xFF ∷ []) ≡ 0 }
    ensures empty { stepped_over_count_of (0xC0 ∷ 0x81 ∷ 0x00 ∷ 0x00 ∷ []) ≡ 0 }
{}

/// The octets of requests, and what octets ask for that this master doesn't write.
pub fn requests_by_example()
    ensures integrity { read_octets true 0
        ≡ 0xC0 ∷ 0x01 ∷ 0x3C ∷ 0x02 ∷ 0x06 ∷ 0x3C ∷ 0x03 ∷ 0x06 ∷ 0x3C ∷ 0x04 ∷ 0x06
        ∷ 0x3C ∷ 0x01 ∷ 0x06 ∷ [] }
    ensures events { read_octets false 2
        ≡ 0xC2 ∷ 0x01 ∷ 0x3C ∷ 0x02 ∷ 0x06 ∷ 0x3C ∷ 0x03 ∷ 0x06 ∷ 0x3C ∷ 0x04 ∷ 0x06 ∷ [] }
    ensures disable { disable_octets 0
        ≡ 0xC0 ∷ 0x15 ∷ 0x3C ∷ 0x02 ∷ 0x06 ∷ 0x3C ∷ 0x03 ∷ 0x06 ∷ 0x3C ∷ 0x04 ∷ 0x06 ∷ [] }
    ensures enable { enable_octets 15
        ≡ 0xCF ∷ 0x14 ∷ 0x3C ∷ 0x02 ∷ 0x06 ∷ 0x3C ∷ 0x03 ∷ 0x06 ∷ 0x3C ∷ 0x04 ∷ 0x06 ∷ [] }
    ensures clear_restart { clear_restart_octets 1 ≡ 0xC1 ∷ 0x02 ∷ 0x50 ∷ 0x01 ∷ 0x00 ∷ 0x07 ∷ 0x07 ∷ 0x00 ∷ [] }
    ensures record_time { record_time_octets 1 ≡ 0xC1 ∷ 0x18 ∷ [] }
    // 22:13:20 on 14 November 2023; and a time of more than 48 bits, of which the low ones are written.
    ensures write_time { write_time_octets 1700000000000 2
        ≡ 0xC2 ∷ 0x02 ∷ 0x32 ∷ 0x03 ∷ 0x07 ∷ 0x01 ∷ 0x00 ∷ 0x68 ∷ 0xE5 ∷ 0xCF ∷ 0x8B ∷ 0x01 ∷ [] }
    ensures write_late { write_time_octets 18446744073709551615 2
        ≡ 0xC2 ∷ 0x02 ∷ 0x32 ∷ 0x03 ∷ 0x07 ∷ 0x01 ∷ 0xFF ∷ 0xFF ∷ 0xFF ∷ 0xFF ∷ 0xFF ∷ 0xFF ∷ [] }
    // Class 0 alone; a variation that is no class; a count in place of all objects; a header cut short; an indication
    // that is set; two indications; an octet behind RECORD_CURRENT_TIME; no function.
    ensures static_alone { asking_of (0xC3 ∷ 1 ∷ 0x3C ∷ 1 ∷ 6 ∷ []) ≡ asks_for 3 (Read (0 ∷ [])) }
    ensures no_class { asking_of (0xC0 ∷ 1 ∷ 0x3C ∷ 5 ∷ 6 ∷ []) ≡ None }
    ensures counted { asking_of (0xC0 ∷ 1 ∷ 0x3C ∷ 2 ∷ 7 ∷ []) ≡ None }
    ensures cut { asking_of (0xC0 ∷ 1 ∷ 0x3C ∷ 2 ∷ []) ≡ None }
    ensures sets { asking_of (0xC0 ∷ 2 ∷ 0x50 ∷ 1 ∷ 0 ∷ 4 ∷ 4 ∷ 1 ∷ []) ≡ asks_for 0 (WriteIndication 4 true) }
    ensures two { asking_of (0xC0 ∷ 2 ∷ 0x50 ∷ 1 ∷ 0 ∷ 4 ∷ 7 ∷ 0 ∷ []) ≡ None }
    ensures recorded_more { asking_of (0xC0 ∷ 24 ∷ 0 ∷ []) ≡ None }
    ensures no_function { asking_of (0xC0 ∷ []) ≡ None }
{}

/// The octets of requests that operate an output, and what octets operate that this master doesn't write.
pub fn control_requests_by_example()
    // A latch on of output 3; pulses of half a second on and of two seconds off.
    ensures latch { control_octets DirectOperate 3 (Switch true Latch) 1
        ≡ 0xC1 ∷ 0x05 ∷ relay_header ++ 0x03 ∷ 0x00
        ∷ 0x03 ∷ 0x01 ∷ 0x00 ∷ 0x00 ∷ 0x00 ∷ 0x00 ∷ 0x00 ∷ 0x00 ∷ 0x00 ∷ 0x00 ∷ 0x00 ∷ [] }
    ensures pulse_on { control_octets DirectOperate 3 (Switch true (Pulse 500)) 1
        ≡ 0xC1 ∷ 0x05 ∷ relay_header ++ 0x03 ∷ 0x00
        ∷ 0x41 ∷ 0x01 ∷ 0xF4 ∷ 0x01 ∷ 0x00 ∷ 0x00 ∷ 0x00 ∷ 0x00 ∷ 0x00 ∷ 0x00 ∷ 0x00 ∷ [] }
    ensures pulse_off { control_octets Select 3 (Switch false (Pulse 2000)) 15
        ≡ 0xCF ∷ 0x03 ∷ relay_header ++ 0x03 ∷ 0x00
        ∷ 0x81 ∷ 0x01 ∷ 0xD0 ∷ 0x07 ∷ 0x00 ∷ 0x00 ∷ 0x00 ∷ 0x00 ∷ 0x00 ∷ 0x00 ∷ 0x00 ∷ [] }
    // Output 4 set to 1000, and output 258 to -2.
    ensures setpoint { control_octets Select 4 (Set (pos 1000)) 1
        ≡ 0xC1 ∷ 0x03 ∷ 0x29 ∷ 0x02 ∷ 0x28 ∷ 0x01 ∷ 0x00 ∷ 0x04 ∷ 0x00 ∷ 0xE8 ∷ 0x03 ∷ 0x00 ∷ [] }
    ensures negative { control_octets Operate 258 (Set (negsuc 1)) 2
        ≡ 0xC2 ∷ 0x04 ∷ 0x29 ∷ 0x02 ∷ 0x28 ∷ 0x01 ∷ 0x00 ∷ 0x02 ∷ 0x01 ∷ 0xFE ∷ 0xFF ∷ 0x00 ∷ [] }
    // Read from octets alone: a latch off, and the least value that there is.
    ensures latch_off { operating_of (0xC1 ∷ 0x04 ∷ relay_header ++ 0x03 ∷ 0x00
        ∷ 0x04 ∷ 0x01 ∷ 0 ∷ 0 ∷ 0 ∷ 0 ∷ 0 ∷ 0 ∷ 0 ∷ 0 ∷ 0 ∷ []) ≡ operates_for 1 Operate 3 (Switch false Latch) }
    ensures least { operating_of (0xC0 ∷ 0x03 ∷ 0x29 ∷ 0x02 ∷ 0x28 ∷ 0x01 ∷ 0x00 ∷ 0x00 ∷ 0x01 ∷ 0x00 ∷ 0x80 ∷ 0x00
        ∷ []) ≡ operates_for 0 Select 256 (Set (negsuc 32767)) }
    // CLOSE without PULSE_ON; a latch with an on-time; twice; an off-time; a status; two outputs; an index of an octet;
    // DIRECT_OPERATE without acknowledgement; a request that reads.
    ensures other_code { operating_of (0xC0 ∷ 0x05 ∷ relay_header ++ 0x03 ∷ 0x00
        ∷ 0x40 ∷ 0x01 ∷ 1 ∷ 0 ∷ 0 ∷ 0 ∷ 0 ∷ 0 ∷ 0 ∷ 0 ∷ 0 ∷ []) ≡ None }
    ensures timed_latch { operating_of (0xC0 ∷ 0x05 ∷ relay_header ++ 0x03 ∷ 0x00
        ∷ 0x03 ∷ 0x01 ∷ 1 ∷ 0 ∷ 0 ∷ 0 ∷ 0 ∷ 0 ∷ 0 ∷ 0 ∷ 0 ∷ []) ≡ None }
    ensures twice { operating_of (0xC0 ∷ 0x05 ∷ relay_header ++ 0x03 ∷ 0x00
        ∷ 0x41 ∷ 0x02 ∷ 1 ∷ 0 ∷ 0 ∷ 0 ∷ 0 ∷ 0 ∷ 0 ∷ 0 ∷ 0 ∷ []) ≡ None }
    ensures off_time { operating_of (0xC0 ∷ 0x05 ∷ relay_header ++ 0x03 ∷ 0x00
        ∷ 0x41 ∷ 0x01 ∷ 1 ∷ 0 ∷ 0 ∷ 0 ∷ 0 ∷ 0 ∷ 0 ∷ 1 ∷ 0 ∷ []) ≡ None }
    ensures with_status { operating_of (0xC0 ∷ 0x05 ∷ 0x29 ∷ 0x02 ∷ 0x28 ∷ 0x01 ∷ 0x00 ∷ 0x04 ∷ 0x00 ∷ 0xE8 ∷ 0x03
        ∷ 0x04 ∷ []) ≡ None }
    ensures two_outputs { operating_of (0xC0 ∷ 0x05 ∷ 0x29 ∷ 0x02 ∷ 0x28 ∷ 0x02 ∷ 0x00 ∷ 0x04 ∷ 0x00 ∷ 0xE8 ∷ 0x03
        ∷ 0x00 ∷ 0x05 ∷ 0x00 ∷ 0xE8 ∷ 0x03 ∷ 0x00 ∷ []) ≡ None }
    ensures short_index { operating_of (0xC0 ∷ 0x05 ∷ 0x29 ∷ 0x02 ∷ 0x17 ∷ 0x01 ∷ 0x04 ∷ 0xE8 ∷ 0x03 ∷ 0x00 ∷ [])
        ≡ None }
    ensures unanswered { operating_of (0xC0 ∷ 0x06 ∷ 0x29 ∷ 0x02 ∷ 0x28 ∷ 0x01 ∷ 0x00 ∷ 0x04 ∷ 0x00 ∷ 0xE8 ∷ 0x03
        ∷ 0x00 ∷ []) ≡ None }
    ensures reads { operating_of (0xC0 ∷ 0x01 ∷ 0x3C ∷ 0x02 ∷ 0x06 ∷ []) ≡ None }
{}
