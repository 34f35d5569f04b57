//! Worked examples, computed by the definitions.
#![tactic(auto, unfolding(iec_command::specs::Commands::command_of))]

ghost use Rattle.std.specs.Prelude.{◌≡◌, [], ◌∷◌, pos, map, true, false};
ghost use Rattle.iec_command.specs.declared.command.Action.TheVariants.{Interrogation, CounterInterrogation, Read};
ghost use Rattle.iec_command.specs.Example.{command, single, double, setpoint};
ghost use Rattle.gw_judge.specs.declared.judging.Judged.TheVariants.{Accepted, Malformed, Refuse};
ghost use Rattle.gw_judge.specs.Judging.{is_execute, judged};
ghost use Rattle.gw_judge.specs.Example.{at_258, by_double, judgements, of_none, of_two, setup};

/// What is sent back: the first cause counts.
pub fn refusals_by_example()
    // To station 9, with cause 3: an unknown type; a single command for object 1.
    ensures unknown_type { judged setup (0x67 ∷ 1 ∷ 3 ∷ 0 ∷ 9 ∷ 0 ∷ 1 ∷ 0 ∷ 0 ∷ 1 ∷ []) ≡ Refuse 44 false }
    ensures cause { judged setup (0x2D ∷ 1 ∷ 3 ∷ 0 ∷ 9 ∷ 0 ∷ 1 ∷ 0 ∷ 0 ∷ 1 ∷ []) ≡ Refuse 45 false }
    // Activated; then for a known address; then as a selection, and as a deactivation.
    ensures station { judged setup (0x2D ∷ 1 ∷ 6 ∷ 0 ∷ 9 ∷ 0 ∷ 1 ∷ 0 ∷ 0 ∷ 1 ∷ []) ≡ Refuse 46 false }
    ensures object { judged setup (0x2D ∷ 1 ∷ 6 ∷ 0 ∷ 1 ∷ 0 ∷ 1 ∷ 0 ∷ 0 ∷ 1 ∷ []) ≡ Refuse 47 true }
    ensures select { judged setup (0x2D ∷ 1 ∷ 6 ∷ 0 ∷ 1 ∷ 0 ∷ 1 ∷ 0 ∷ 0 ∷ 0x81 ∷ []) ≡ Refuse 47 false }
    ensures cancel { judged setup (0x2D ∷ 1 ∷ 8 ∷ 0 ∷ 1 ∷ 0 ∷ 1 ∷ 0 ∷ 0 ∷ 1 ∷ []) ≡ Refuse 47 false }
    // P/N or T is set; a read is deactivated, an interrogation requested, a command requested.
    ensures causes { judgements (
        (0x2D ∷ 1 ∷ 0x46 ∷ 0 ∷ 1 ∷ 0 ∷ 0x89 ∷ 0x13 ∷ 0 ∷ 1 ∷ [])
        ∷ (0x2D ∷ 1 ∷ 0x86 ∷ 0 ∷ 1 ∷ 0 ∷ 0x89 ∷ 0x13 ∷ 0 ∷ 1 ∷ [])
        ∷ (0x66 ∷ 1 ∷ 8 ∷ 0 ∷ 1 ∷ 0 ∷ 0x05 ∷ 0x10 ∷ 0 ∷ [])
        ∷ (0x64 ∷ 1 ∷ 5 ∷ 0 ∷ 1 ∷ 0 ∷ 0 ∷ 0 ∷ 0 ∷ 0x14 ∷ [])
        ∷ (0x2D ∷ 1 ∷ 5 ∷ 0 ∷ 1 ∷ 0 ∷ 0x89 ∷ 0x13 ∷ 0 ∷ 1 ∷ []) ∷ [])
        ≡ Refuse 45 false ∷ Refuse 45 false ∷ Refuse 45 false ∷ Refuse 45 false ∷ Refuse 45 false ∷ [] }
{}

/// Interrogations and reads.
pub fn requests_by_example()
    // 4101 and 4201 are read; 4301 is a total, 4999 nothing, 5001 a control.
    ensures read { judgements (
        (0x66 ∷ 1 ∷ 5 ∷ 0 ∷ 1 ∷ 0 ∷ 0x05 ∷ 0x10 ∷ 0 ∷ [])
        ∷ (0x66 ∷ 1 ∷ 5 ∷ 0 ∷ 1 ∷ 0 ∷ 0x69 ∷ 0x10 ∷ 0 ∷ []) ∷ [])
        ≡ Accepted (command 5 1 4101 Read) ∷ Accepted (command 5 1 4201 Read) ∷ [] }
    ensures not_read { judgements (
        (0x66 ∷ 1 ∷ 5 ∷ 0 ∷ 1 ∷ 0 ∷ 0xCD ∷ 0x10 ∷ 0 ∷ [])
        ∷ (0x66 ∷ 1 ∷ 5 ∷ 0 ∷ 1 ∷ 0 ∷ 0x87 ∷ 0x13 ∷ 0 ∷ [])
        ∷ (0x66 ∷ 1 ∷ 5 ∷ 0 ∷ 1 ∷ 0 ∷ 0x89 ∷ 0x13 ∷ 0 ∷ []) ∷ [])
        ≡ Refuse 47 false ∷ Refuse 47 false ∷ Refuse 47 false ∷ [] }
    // All stations are interrogated, but not read or commanded.
    ensures for_all { judged setup (0x64 ∷ 1 ∷ 6 ∷ 0 ∷ 0xFF ∷ 0xFF ∷ 0 ∷ 0 ∷ 0 ∷ 0x14 ∷ [])
        ≡ Accepted (command 6 65535 0 (Interrogation 20)) }
    ensures counters_for_all { judged setup (0x65 ∷ 1 ∷ 6 ∷ 0 ∷ 0xFF ∷ 0xFF ∷ 0 ∷ 0 ∷ 0 ∷ 0x05 ∷ [])
        ≡ Accepted (command 6 65535 0 (CounterInterrogation 5)) }
    ensures not_for_all { judgements (
        (0x66 ∷ 1 ∷ 5 ∷ 0 ∷ 0xFF ∷ 0xFF ∷ 0x05 ∷ 0x10 ∷ 0 ∷ [])
        ∷ (0x2D ∷ 1 ∷ 6 ∷ 0 ∷ 0xFF ∷ 0xFF ∷ 0x89 ∷ 0x13 ∷ 0 ∷ 1 ∷ []) ∷ [])
        ≡ Refuse 46 false ∷ Refuse 46 false ∷ [] }
    // Of two outstations each has its own objects: what one has alone isn't there under the other's address.
    ensures of_two { map (judged of_two) (
        (0x66 ∷ 1 ∷ 5 ∷ 0 ∷ 2 ∷ 0 ∷ 0x05 ∷ 0x10 ∷ 0 ∷ [])
        ∷ (0x64 ∷ 1 ∷ 6 ∷ 0 ∷ 2 ∷ 0 ∷ 0 ∷ 0 ∷ 0 ∷ 0x14 ∷ [])
        ∷ (0x2D ∷ 1 ∷ 6 ∷ 0 ∷ 1 ∷ 0 ∷ 0x89 ∷ 0x13 ∷ 0 ∷ 1 ∷ [])
        ∷ (0x2D ∷ 1 ∷ 6 ∷ 0 ∷ 2 ∷ 0 ∷ 0x89 ∷ 0x13 ∷ 0 ∷ 1 ∷ [])
        ∷ (0x66 ∷ 1 ∷ 5 ∷ 0 ∷ 3 ∷ 0 ∷ 0x05 ∷ 0x10 ∷ 0 ∷ []) ∷ [])
        ≡ Accepted (command 5 2 4101 Read) ∷ Accepted (command 6 2 0 (Interrogation 20))
        ∷ Accepted (command 6 1 5001 (single true false 0 false)) ∷ Refuse 47 true ∷ Refuse 46 false ∷ [] }
    // Without an outstation the station's own address is known.
    ensures of_none { map (judged of_none) (
        (0x66 ∷ 1 ∷ 5 ∷ 0 ∷ 1 ∷ 0 ∷ 0x05 ∷ 0x10 ∷ 0 ∷ [])
        ∷ (0x66 ∷ 1 ∷ 5 ∷ 0 ∷ 2 ∷ 0 ∷ 0x05 ∷ 0x10 ∷ 0 ∷ []) ∷ [])
        ≡ Refuse 47 false ∷ Refuse 46 false ∷ [] }
    // A common address has two octets: a read and an interrogation of outstation 258, and of others with one of them.
    ensures two_octets { map (judged at_258) (
        (0x66 ∷ 1 ∷ 5 ∷ 0 ∷ 2 ∷ 1 ∷ 0x05 ∷ 0x10 ∷ 0 ∷ [])
        ∷ (0x65 ∷ 1 ∷ 6 ∷ 0 ∷ 2 ∷ 1 ∷ 0 ∷ 0 ∷ 0 ∷ 0x05 ∷ []) ∷ [])
        ≡ Accepted (command 5 258 4101 Read) ∷ Accepted (command 6 258 0 (CounterInterrogation 5)) ∷ [] }
    ensures one_octet { map (judged at_258) (
        (0x66 ∷ 1 ∷ 5 ∷ 0 ∷ 2 ∷ 0 ∷ 0x05 ∷ 0x10 ∷ 0 ∷ [])
        ∷ (0x65 ∷ 1 ∷ 6 ∷ 0 ∷ 0xFF ∷ 1 ∷ 0 ∷ 0 ∷ 0 ∷ 0x05 ∷ [])
        ∷ (0x65 ∷ 1 ∷ 6 ∷ 0 ∷ 1 ∷ 0 ∷ 0 ∷ 0 ∷ 0 ∷ 0x05 ∷ []) ∷ [])
        ≡ Refuse 46 false ∷ Refuse 46 false ∷ Refuse 46 false ∷ [] }
    // An interrogation has no object; it may be deactivated.
    ensures object { judgements (
        (0x64 ∷ 1 ∷ 6 ∷ 0 ∷ 1 ∷ 0 ∷ 1 ∷ 0 ∷ 0 ∷ 0x14 ∷ [])
        ∷ (0x65 ∷ 1 ∷ 6 ∷ 0 ∷ 1 ∷ 0 ∷ 1 ∷ 0 ∷ 0 ∷ 0x05 ∷ []) ∷ [])
        ≡ Refuse 47 false ∷ Refuse 47 false ∷ [] }
    ensures cancel { judged setup (0x64 ∷ 1 ∷ 8 ∷ 0 ∷ 1 ∷ 0 ∷ 0 ∷ 0 ∷ 0 ∷ 0x14 ∷ [])
        ≡ Accepted (command 8 1 0 (Interrogation 20)) }
{}

/// Commands.
pub fn commands_by_example()
    // A single command at 5001 and a set-point command at 5002, but not the other way round, nor a double command.
    ensures single { judged setup (0x2D ∷ 1 ∷ 6 ∷ 0 ∷ 1 ∷ 0 ∷ 0x89 ∷ 0x13 ∷ 0 ∷ 1 ∷ [])
        ≡ Accepted (command 6 1 5001 (single true false 0 false)) }
    ensures setpoint { judged setup (0x31 ∷ 1 ∷ 6 ∷ 0 ∷ 1 ∷ 0 ∷ 0x8A ∷ 0x13 ∷ 0 ∷ 7 ∷ 0 ∷ 0x80 ∷ [])
        ≡ Accepted (command 6 1 5002 (setpoint (pos 7) 0 true)) }
    ensures exchanged { judgements (
        (0x2D ∷ 1 ∷ 6 ∷ 0 ∷ 1 ∷ 0 ∷ 0x8A ∷ 0x13 ∷ 0 ∷ 1 ∷ [])
        ∷ (0x31 ∷ 1 ∷ 6 ∷ 0 ∷ 1 ∷ 0 ∷ 0x89 ∷ 0x13 ∷ 0 ∷ 7 ∷ 0 ∷ 0x80 ∷ [])
        ∷ (0x2E ∷ 1 ∷ 6 ∷ 0 ∷ 1 ∷ 0 ∷ 0x89 ∷ 0x13 ∷ 0 ∷ 2 ∷ []) ∷ [])
        ≡ Refuse 47 true ∷ Refuse 47 false ∷ Refuse 47 true ∷ [] }
    // Where a double command operates 5001.
    ensures double { judged by_double (0x2E ∷ 1 ∷ 8 ∷ 0 ∷ 1 ∷ 0 ∷ 0x89 ∷ 0x13 ∷ 0 ∷ 2 ∷ [])
        ≡ Accepted (command 8 1 5001 (double 2 0 false)) }
    ensures not_single { judged by_double (0x2D ∷ 1 ∷ 6 ∷ 0 ∷ 1 ∷ 0 ∷ 0x89 ∷ 0x13 ∷ 0 ∷ 1 ∷ []) ≡ Refuse 47 true }
    // A point isn't commanded.
    ensures point { judged setup (0x2D ∷ 1 ∷ 6 ∷ 0 ∷ 1 ∷ 0 ∷ 0x05 ∷ 0x10 ∷ 0 ∷ 1 ∷ []) ≡ Refuse 47 true }
    // An execute is an activation whose S/E is 0; nothing else is one.
    ensures executes { map is_execute (
        command 6 1 5001 (single true false 0 false) ∷ command 6 1 5001 (double 2 0 false)
        ∷ command 6 1 5002 (setpoint (pos 7) 0 false) ∷ []) ≡ true ∷ true ∷ true ∷ [] }
    ensures executes_not { map is_execute (
        command 6 1 5001 (single true false 0 true) ∷ command 6 1 5001 (double 2 0 true)
        ∷ command 6 1 5002 (setpoint (pos 7) 0 true) ∷ command 8 1 5001 (single true false 0 false)
        ∷ command 6 1 0 (Interrogation 20) ∷ command 6 1 0 (CounterInterrogation 5) ∷ command 6 1 4101 Read ∷ [])
        ≡ false ∷ false ∷ false ∷ false ∷ false ∷ false ∷ false ∷ [] }
{}

/// What closes the connection.
pub fn closes_by_example()
    // Fewer than 6 octets, whatever the type; with 6, an unknown type is sent back.
    ensures cut { judgements ((0x2D ∷ 1 ∷ 6 ∷ 0 ∷ 1 ∷ []) ∷ (0x67 ∷ 1 ∷ 6 ∷ 0 ∷ 1 ∷ []) ∷ [] ∷ [])
        ≡ Malformed ∷ Malformed ∷ Malformed ∷ [] }
    ensures header { judged setup (0x67 ∷ 1 ∷ 6 ∷ 0 ∷ 1 ∷ 0 ∷ []) ≡ Refuse 44 false }
    // A count of 2, a count of 0, and SQ.
    ensures count { judgements (
        (0x64 ∷ 2 ∷ 6 ∷ 0 ∷ 1 ∷ 0 ∷ 0 ∷ 0 ∷ 0 ∷ 0x14 ∷ [])
        ∷ (0x64 ∷ 0 ∷ 6 ∷ 0 ∷ 1 ∷ 0 ∷ 0 ∷ 0 ∷ 0 ∷ 0x14 ∷ [])
        ∷ (0x64 ∷ 0x81 ∷ 6 ∷ 0 ∷ 1 ∷ 0 ∷ 0 ∷ 0 ∷ 0 ∷ 0x14 ∷ []) ∷ [])
        ≡ Malformed ∷ Malformed ∷ Malformed ∷ [] }
    // One octet less, and one more; also where a command of the right length would be sent back.
    ensures length { judgements (
        (0x64 ∷ 1 ∷ 6 ∷ 0 ∷ 1 ∷ 0 ∷ 0 ∷ 0 ∷ 0 ∷ [])
        ∷ (0x64 ∷ 1 ∷ 6 ∷ 0 ∷ 1 ∷ 0 ∷ 0 ∷ 0 ∷ 0 ∷ 0x14 ∷ 0 ∷ [])
        ∷ (0x2D ∷ 1 ∷ 3 ∷ 0 ∷ 9 ∷ 0 ∷ 1 ∷ 0 ∷ 0 ∷ [])
        ∷ (0x2D ∷ 1 ∷ 3 ∷ 0 ∷ 9 ∷ 0 ∷ 1 ∷ 0 ∷ 0 ∷ 1 ∷ 0 ∷ []) ∷ [])
        ≡ Malformed ∷ Malformed ∷ Malformed ∷ Malformed ∷ [] }
{}
