//! Worked examples of the definitions, computed by the definitions themselves.
#![tactic(auto, unfolding(gw_entries::specs::Values::value_or, gw_entries::specs::Values::kind_in, gw_entries::specs::Values::show_in, gw_entries::specs::Values::control_show_in, gw_entries::specs::Values::mode_in, gw_entries::specs::Values::rest_in, gw_entries::specs::Values::station_of, gw_entries::specs::Values::outstation_of, gw_entries::specs::Values::row_of, gw_entries::specs::Values::control_of, gw_entries::specs::Complaints::wrong_by, gw_entries::specs::Complaints::rules_wrongs, gw_entries::specs::Complaints::unknown_keys, gw_entries::specs::Complaints::point_mismatches, gw_entries::specs::Complaints::control_mismatches, gw_entries::specs::Complaints::key_wrongs, gw_entries::specs::Complaints::table_wrongs, crate::specs::Sections::each_from, crate::specs::Sections::section_complaints, crate::specs::Sections::station_complaints, crate::specs::Sections::repeated))]

ghost use Rattle.std.specs.Prelude.{◌≡◌, pos, true, false, [], ◌∷◌, map, Ok, Err, Some, codes};
ghost use Rattle.toml.specs.Data.{boolean, no_members};
ghost use Rattle.gw_model.specs.declared.point.Kind.TheVariants as kind;
ghost use Rattle.gw_entries.specs.declared.row.Show.TheVariants as show;
ghost use Rattle.gw_entries.specs.Complaints.{complaint};
ghost use Rattle.gw_map.specs.Sections.{complaints_of, list_complaints};
ghost use Rattle.gw_entries.specs.Example.{station as usual_station, outstation as usual_outstation};
ghost use Rattle.gw_map.specs.Example.{is, whole, text, station, outstation, point, binary, analog, counter, switch};
ghost use Rattle.gw_map.specs.Example.{setpoint, settings, several, alike, own_outstation, usual, with_common};
ghost use Rattle.gw_map.specs.Meaning.{setup_of, reading_of};
ghost use Rattle.gw_map.specs.Settings.{known_in, is_among};
ghost use Rattle.gw_entries.specs.Faults.{refused};
ghost use Rattle.gw_entries.specs.Setup.{single, setpoint as by_setpoint};
ghost use Rattle.gw_entries.specs.Values.{row_of};
ghost use Rattle.gw_entries.specs.declared.control.Mode.TheVariants.{Direct, Sbo};
ghost use Rattle.gw_entries.specs.declared.control.Rest.TheVariants.{Latch};
ghost use Rattle.gw_entries.specs.declared.fault.Fault.TheVariants.{Missing, WrongType, OutOfRange, UnknownKey};
ghost use Rattle.gw_entries.specs.declared.fault.Fault.TheVariants.{DoubleSource, DoubleAddress, KindMismatch};
ghost use Rattle.gw_entries.specs.declared.fault.Section.TheVariants.{Top, Station, Outstation, Point, Control};

/// What the usual settings mean.
pub fn settings_by_example()
    ensures fine { complaints_of usual ≡ [] }
    ensures station { (setup_of usual).station ≡ usual_station }
    ensures outstations { (setup_of usual).outstations ≡ usual_outstation ∷ [] }
    ensures rows { (setup_of usual).rows
        ≡ record {
          key = record { outstation = 0; kind = kind.Binary; index = 5 };
          common_address = 1;
          address = 4101;
          show = show.Single;
          num = 1;
          den = 1;
        }
        ∷ record {
          key = record { outstation = 0; kind = kind.Analog; index = 0 };
          common_address = 1;
          address = 4201;
          show = show.Scaled;
          num = 1;
          den = 1;
        }
        ∷ record {
          key = record { outstation = 0; kind = kind.Counter; index = 0 };
          common_address = 1;
          address = 4301;
          show = show.Total;
          num = 1;
          den = 1;
        }
        ∷ [] }
    ensures controls { (setup_of usual).controls
        ≡ record {
          outstation = 0;
          index = 3;
          common_address = 1;
          address = 5001;
          select = true;
          mode = Direct;
          operates = single Latch 500 2000;
        }
        ∷ record {
          outstation = 0;
          index = 4;
          common_address = 1;
          address = 5002;
          select = false;
          mode = Sbo;
          operates = by_setpoint 1 1;
        }
        ∷ [] }
{}

/// How each kind is shown where nothing else is said.
pub fn usual_types_by_example()
    ensures binary { (row_of [] (point 1 0 "binary")).show ≡ show.Single }
    ensures output { (row_of [] (point 1 0 "output")).show ≡ show.Single }
    ensures double { (row_of [] (point 1 0 "double")).show ≡ show.Double }
    ensures counter { (row_of [] (point 1 0 "counter")).show ≡ show.Total }
    ensures analog { (row_of [] (point 1 0 "analog")).show ≡ show.Scaled }
{}

/// Complaints of stations. No number may be above or below what another one or its default allows.
pub fn stations_by_example()
    ensures none { complaints_of no_members ≡ complaint Top 0 (Missing, codes "station") ∷ [] }
    ensures no_table { complaints_of (is "station" (whole 1) no_members)
        ≡ complaint Top 0 (WrongType, codes "station") ∷ [] }
    ensures zero { complaints_of (settings (is "common_address" (whole 0) no_members) (binary ∷ analog ∷ counter ∷ []))
        ≡ complaint Station 0 (OutOfRange, codes "common_address") ∷ [] }
    ensures a_text { complaints_of
        (settings (is "common_address" (text "1") no_members) (binary ∷ analog ∷ counter ∷ []))
        ≡ complaint Station 0 (WrongType, codes "common_address") ∷ [] }
    ensures w_above_k { complaints_of (settings (is "common_address" (whole 1) (is "w" (whole 13) no_members)) [])
        ≡ complaint Station 0 (OutOfRange, codes "w") ∷ [] }
    ensures k_below_w { complaints_of (settings (is "common_address" (whole 1) (is "k" (whole 5) no_members)) [])
        ≡ complaint Station 0 (OutOfRange, codes "w") ∷ [] }
    ensures t1_below_t2 { complaints_of
        (settings (is "common_address" (whole 1) (is "t1_ms" (whole 9000) no_members)) [])
        ≡ complaint Station 0 (OutOfRange, codes "t2_ms") ∷ [] }
    ensures unknown { complaints_of
        (settings (is "common_address" (whole 1) (is "floats" (boolean true) no_members)) [])
        ≡ complaint Station 0 (UnknownKey, codes "floats") ∷ [] }
{}

/// Complaints of points.
pub fn points_by_example()
    ensures same_source { complaints_of (settings station (binary ∷ analog ∷ counter ∷ point 4401 5 "binary" ∷ []))
        ≡ complaint Point 3 (DoubleSource, codes "index") ∷ [] }
    ensures same_address { complaints_of (settings station (binary ∷ point 4101 0 "analog" ∷ counter ∷ []))
        ≡ complaint Point 1 (DoubleAddress, codes "address") ∷ [] }
    ensures scaled_counter { complaints_of (settings station (binary ∷ analog ∷ is "den" (whole 2) counter ∷ []))
        ≡ complaint Point 2 (KindMismatch, codes "den") ∷ [] }
    ensures scaled_by_one { complaints_of (settings station (binary ∷ analog ∷ is "num" (whole 1) counter ∷ []))
        ≡ complaint Point 2 (KindMismatch, codes "num") ∷ [] }
    ensures no_outstation { complaints_of (settings station (is "address" (whole 4101) (is "index" (whole 5)
        (is "kind" (text "binary") (is "outstation" (whole 1) no_members))) ∷ []))
        ≡ complaint Point 0 (OutOfRange, codes "outstation") ∷ [] }
    ensures no_kind { complaints_of (settings station (point 4101 5 "bit" ∷ []))
        ≡ complaint Point 0 (OutOfRange, codes "kind") ∷ [] }
    ensures double_counter { complaints_of (settings station (is "show" (text "double") counter ∷ []))
        ≡ complaint Point 0 (KindMismatch, codes "show") ∷ [] }
{}

/// Complaints of lists and of controls.
pub fn lists_by_example()
    ensures too_many { list_complaints Outstation (codes "outstation") 1 (Some (outstation ∷ outstation ∷ []))
        ≡ complaint Outstation 0 (OutOfRange, codes "count") ∷ [] }
    ensures enough { list_complaints Outstation (codes "outstation") 2 (Some (outstation ∷ outstation ∷ [])) ≡ [] }
    ensures no_list { complaints_of (is "point" (whole 1) (is "station" (boolean true) no_members))
        ≡ complaint Top 0 (WrongType, codes "station") ∷ complaint Top 0 (WrongType, codes "point") ∷ [] }
    ensures address_of_a_control { complaints_of (settings station (point 5002 5 "binary" ∷ []))
        ≡ complaint Control 1 (DoubleAddress, codes "address") ∷ [] }
{}

/// Common addresses of outstations. One address under two common addresses is two information objects.
pub fn outstations_by_example()
    ensures its_own { (setup_of (alike (own_outstation (whole 3)) outstation)).outstations
        ≡ with_common usual_outstation 3 ∷ usual_outstation ∷ [] }
    ensures of_points { map (λ row. row.common_address) (setup_of (alike (own_outstation (whole 3)) outstation)).rows
        ≡ 3 ∷ 1 ∷ [] }
    ensures two { complaints_of (alike (own_outstation (whole 3)) (own_outstation (whole 2))) ≡ [] }
    ensures one { complaints_of (alike (own_outstation (whole 3)) (own_outstation (whole 3)))
        ≡ complaint Point 1 (DoubleAddress, codes "address") ∷ [] }
    ensures the_stations { complaints_of (alike (own_outstation (whole 1)) outstation)
        ≡ complaint Point 1 (DoubleAddress, codes "address") ∷ [] }
    ensures last { complaints_of (several (own_outstation (whole 65534) ∷ []) []) ≡ [] }
    ensures zero { complaints_of (several (own_outstation (whole 0) ∷ []) [])
        ≡ complaint Outstation 0 (OutOfRange, codes "common_address") ∷ [] }
    ensures all_stations { complaints_of (several (outstation ∷ own_outstation (whole 65535) ∷ []) [])
        ≡ complaint Outstation 1 (OutOfRange, codes "common_address") ∷ [] }
    ensures beyond { complaints_of (several (own_outstation (whole 65536) ∷ []) [])
        ≡ complaint Outstation 0 (OutOfRange, codes "common_address") ∷ [] }
    ensures a_text { complaints_of (several (own_outstation (text "2") ∷ []) [])
        ≡ complaint Outstation 0 (WrongType, codes "common_address") ∷ [] }
{}

/// Known common addresses: each once, in the order of its first outstation; without an outstation the station's.
pub fn known_by_example()
    ensures each_once { known_in usual_station (map (with_common usual_outstation) (3 ∷ 2 ∷ 3 ∷ 9 ∷ []))
        ≡ 3 ∷ 2 ∷ 9 ∷ [] }
    ensures none { known_in usual_station [] ≡ 1 ∷ [] }
    ensures not_the_stations { map (is_among (known_in usual_station (with_common usual_outstation 2 ∷ []))) (1 ∷ 2 ∷ [])
        ≡ false ∷ true ∷ [] }
{}

/// Texts. Of two unknown keys the one with the least octets is told.
pub fn texts_by_example()
    ensures empty { reading_of [] ≡ Err (refused (complaint Top 0 (Missing, codes "station"))) }
    ensures least { reading_of (codes "b = 1\na = 2\n") ≡ Err (refused (complaint Top 0 (UnknownKey, codes "a"))) }
{}
