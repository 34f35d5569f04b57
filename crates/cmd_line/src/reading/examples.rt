//! What some lines come to by the definitions alone: `clap`'s rules for the program, as a function
//! of the words.

ghost use Rattle.std.specs.Prelude.{◌≡◌, [], ◌∷◌, codes, None, Some, false, true};
ghost use Rattle.clap.specs.Words.{fault_of};
ghost use Rattle.clap.specs.declared.error.ErrorKind.TheVariants.{DisplayHelp, InvalidSubcommand};
ghost use Rattle.clap.specs.declared.error.ErrorKind.TheVariants.{MissingRequiredArgument, MissingSubcommand};
ghost use Rattle.clap.specs.declared.error.ErrorKind.TheVariants.{UnknownArgument, ValueValidation};
ghost use Rattle.cmd_line.specs.CommandLine.{gateway, no_options, spelled, to_check, to_pcap};
ghost use Rattle.cmd_line.specs.CommandLine.{to_points, to_replay, to_run, to_translate};

/// Five lines that ask for something, and five that are refused, with the kinds of error that may
/// say so. A word that is no subcommand may be called an unknown argument too.
#[tactic(auto, unfolding(clap::proofs::OnLiterals::clap_on_literals))]
pub fn lines()
    ensures taken { fault_of gateway (codes "gateway" ∷ codes "translate" ∷ []) ≡ [] }
    ensures spelled { spelled (codes "gateway" ∷ codes "translate" ∷ []) ≡ Some (to_translate None) }
    ensures settings_taken { fault_of gateway
        (codes "gateway" ∷ codes "translate" ∷ codes "--settings" ∷ codes "a" ∷ []) ≡ [] }
    ensures settings_spelled { spelled (codes "gateway" ∷ codes "translate" ∷ codes "--settings" ∷ codes "a" ∷ [])
        ≡ Some (to_translate (Some (codes "a"))) }
    ensures replay_taken { fault_of gateway (codes "gateway" ∷ codes "replay" ∷ codes "a" ∷ []) ≡ [] }
    ensures replay_spelled { spelled (codes "gateway" ∷ codes "replay" ∷ codes "a" ∷ [])
        ≡ Some (to_replay (codes "a")) }
    ensures check_taken { fault_of gateway (codes "gateway" ∷ codes "check" ∷ codes "a" ∷ []) ≡ [] }
    ensures check_spelled { spelled (codes "gateway" ∷ codes "check" ∷ codes "a" ∷ [])
        ≡ Some (to_check (codes "a") false false None) }
    ensures profile_taken { fault_of gateway (codes "gateway" ∷ codes "check" ∷ codes "a" ∷ codes "--profile" ∷ [])
        ≡ [] }
    ensures profile_spelled { spelled (codes "gateway" ∷ codes "check" ∷ codes "a" ∷ codes "--profile" ∷ [])
        ≡ Some (to_check (codes "a") true false None) }
    ensures html_taken { fault_of gateway
        (codes "gateway" ∷ codes "check" ∷ codes "a" ∷ codes "--profile-html" ∷ []) ≡ [] }
    ensures html_spelled { spelled (codes "gateway" ∷ codes "check" ∷ codes "a" ∷ codes "--profile-html" ∷ [])
        ≡ Some (to_check (codes "a") false true None) }
    ensures no_file { fault_of gateway (codes "gateway" ∷ codes "check" ∷ []) ≡ MissingRequiredArgument ∷ [] }
    ensures alone { fault_of gateway (codes "gateway" ∷ []) ≡ MissingSubcommand ∷ [] }
    ensures unknown { fault_of gateway (codes "gateway" ∷ codes "nonsense" ∷ [])
        ≡ UnknownArgument ∷ InvalidSubcommand ∷ [] }
    ensures extra { fault_of gateway (codes "gateway" ∷ codes "translate" ∷ codes "extra" ∷ [])
        ≡ UnknownArgument ∷ [] }
    ensures help { fault_of gateway (codes "gateway" ∷ codes "--help" ∷ []) ≡ DisplayHelp ∷ [] }
{}

/// Lines with lists of points: the settings of a list, the list of settings, and a check with names.
#[tactic(auto, unfolding(clap::proofs::OnLiterals::clap_on_literals))]
pub fn list_lines()
    ensures site_taken { fault_of gateway
        (codes "gateway" ∷ codes "points" ∷ codes "a" ∷ codes "--site" ∷ codes "b" ∷ []) ≡ [] }
    ensures site_spelled { spelled (codes "gateway" ∷ codes "points" ∷ codes "a" ∷ codes "--site" ∷ codes "b" ∷ [])
        ≡ Some (to_points (codes "a") (Some (codes "b")) false None) }
    ensures csv_taken { fault_of gateway (codes "gateway" ∷ codes "points" ∷ codes "--csv" ∷ codes "a" ∷ []) ≡ [] }
    ensures csv_spelled { spelled (codes "gateway" ∷ codes "points" ∷ codes "--csv" ∷ codes "a" ∷ [])
        ≡ Some (to_points (codes "a") None true None) }
    ensures names_taken { fault_of gateway
        (codes "gateway" ∷ codes "check" ∷ codes "a" ∷ codes "--names" ∷ codes "b" ∷ []) ≡ [] }
    ensures names_spelled { spelled (codes "gateway" ∷ codes "check" ∷ codes "a" ∷ codes "--names" ∷ codes "b" ∷ [])
        ≡ Some (to_check (codes "a") false false (Some (codes "b"))) }
{}

/// Lines of `gateway run`: two that ask for something, and two that are refused.
#[tactic(auto, unfolding(clap::proofs::OnLiterals::clap_on_literals))]
pub fn run_lines()
    ensures taken { fault_of gateway (codes "gateway" ∷ codes "run" ∷ codes "a" ∷ []) ≡ [] }
    ensures spelled { spelled (codes "gateway" ∷ codes "run" ∷ codes "a" ∷ [])
        ≡ Some (to_run (codes "a") None no_options) }
    ensures sessions_taken { fault_of gateway
        (codes "gateway" ∷ codes "run" ∷ codes "a" ∷ codes "--sessions" ∷ codes "1000000" ∷ []) ≡ [] }
    ensures sessions_spelled { spelled
        (codes "gateway" ∷ codes "run" ∷ codes "a" ∷ codes "--sessions" ∷ codes "1000000" ∷ [])
        ≡ Some (to_run (codes "a") (Some 1000000) no_options) }
    ensures no_sessions { fault_of gateway
        (codes "gateway" ∷ codes "run" ∷ codes "a" ∷ codes "--sessions" ∷ codes "0" ∷ []) ≡ ValueValidation ∷ [] }
    ensures many_sessions { fault_of gateway
        (codes "gateway" ∷ codes "run" ∷ codes "a" ∷ codes "--sessions" ∷ codes "1000001" ∷ []) ≡ ValueValidation ∷ [] }
{}

/// Lines of `gateway run` with its options: two addresses in their order, the end by standard input alone, and where a
/// status page and a record go, with the record's size; and a size that is refused.
#[tactic(auto, unfolding(clap::proofs::OnLiterals::clap_on_literals))]
pub fn option_lines()
    ensures allow_taken { fault_of gateway (codes "gateway" ∷ codes "run" ∷ codes "--allow" ∷ codes "::1" ∷ codes "a"
        ∷ codes "--allow" ∷ codes "10.0.0.0/8" ∷ []) ≡ [] }
    ensures allow_spelled { spelled (codes "gateway" ∷ codes "run" ∷ codes "--allow" ∷ codes "::1" ∷ codes "a"
        ∷ codes "--allow" ∷ codes "10.0.0.0/8" ∷ [])
        ≡ Some (to_run (codes "a") None (record no_options { allow = codes "::1" ∷ codes "10.0.0.0/8" ∷ [] })) }
    ensures until_eof_taken { fault_of gateway (codes "gateway" ∷ codes "run" ∷ codes "a" ∷ codes "--until-eof" ∷ [])
        ≡ [] }
    ensures until_eof_spelled { spelled (codes "gateway" ∷ codes "run" ∷ codes "a" ∷ codes "--until-eof" ∷ [])
        ≡ Some (to_run (codes "a") None (record no_options { until_eof = true })) }
    ensures record_taken { fault_of gateway (codes "gateway" ∷ codes "run" ∷ codes "a" ∷ codes "--status" ∷ codes "b"
        ∷ codes "--record" ∷ codes "c" ∷ codes "--record-size" ∷ codes "1" ∷ []) ≡ [] }
    ensures record_spelled { spelled (codes "gateway" ∷ codes "run" ∷ codes "a" ∷ codes "--status" ∷ codes "b"
        ∷ codes "--record" ∷ codes "c" ∷ codes "--record-size" ∷ codes "1" ∷ [])
        ≡ Some (to_run (codes "a") None
        (record no_options { status = Some (codes "b"); «record» = Some (codes "c"); record_size = 1 })) }
    ensures names_taken { fault_of gateway (codes "gateway" ∷ codes "run" ∷ codes "a" ∷ codes "--names" ∷ codes "b" ∷ [])
        ≡ [] }
    ensures names_spelled { spelled (codes "gateway" ∷ codes "run" ∷ codes "a" ∷ codes "--names" ∷ codes "b" ∷ [])
        ≡ Some (to_run (codes "a") None (record no_options { names = Some (codes "b") })) }
    ensures no_size { fault_of gateway
        (codes "gateway" ∷ codes "run" ∷ codes "a" ∷ codes "--record-size" ∷ codes "0" ∷ []) ≡ ValueValidation ∷ [] }
{}

/// Lines of `gateway run` that say what the status shows: the name of the site, and that the health needs a control centre; and
/// a name that is left out.
#[tactic(auto, unfolding(clap::proofs::OnLiterals::clap_on_literals))]
pub fn shown_lines()
    ensures site_taken { fault_of gateway (codes "gateway" ∷ codes "run" ∷ codes "a" ∷ codes "--site" ∷ codes "b c"
        ∷ codes "--health-needs-centre" ∷ []) ≡ [] }
    ensures site_spelled { spelled (codes "gateway" ∷ codes "run" ∷ codes "a" ∷ codes "--site" ∷ codes "b c"
        ∷ codes "--health-needs-centre" ∷ [])
        ≡ Some (to_run (codes "a") None (record no_options { site = Some (codes "b c"); needs_centre = true })) }
    ensures flag_taken { fault_of gateway
        (codes "gateway" ∷ codes "run" ∷ codes "a" ∷ codes "--health-needs-centre" ∷ []) ≡ [] }
    ensures flag_spelled { spelled (codes "gateway" ∷ codes "run" ∷ codes "a" ∷ codes "--health-needs-centre" ∷ [])
        ≡ Some (to_run (codes "a") None (record no_options { needs_centre = true })) }
{}

/// Lines with a folder of records and how much it keeps; and lines of `gateway pcap`, of which the last doesn't say where the
/// capture goes.
#[tactic(auto, unfolding(clap::proofs::OnLiterals::clap_on_literals))]
pub fn record_lines()
    ensures folder_taken { fault_of gateway (codes "gateway" ∷ codes "run" ∷ codes "a" ∷ codes "--record-folder"
        ∷ codes "b" ∷ codes "--record-keep" ∷ codes "1" ∷ []) ≡ [] }
    ensures folder_spelled { spelled (codes "gateway" ∷ codes "run" ∷ codes "a" ∷ codes "--record-folder"
        ∷ codes "b" ∷ codes "--record-keep" ∷ codes "1" ∷ [])
        ≡ Some (to_run (codes "a") None
        (record no_options { record_folder = Some (codes "b"); record_keep = Some 1 })) }
    ensures pcap_taken { fault_of gateway (codes "gateway" ∷ codes "pcap" ∷ codes "a" ∷ codes "b" ∷ []) ≡ [] }
    ensures pcap_spelled { spelled (codes "gateway" ∷ codes "pcap" ∷ codes "a" ∷ codes "b" ∷ [])
        ≡ Some (to_pcap (codes "a") (codes "b")) }
    ensures no_out { fault_of gateway (codes "gateway" ∷ codes "pcap" ∷ codes "a" ∷ []) ≡ MissingRequiredArgument ∷ [] }
{}
