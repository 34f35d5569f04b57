//! Worked examples of commands, computed by the definitions.
ghost use Rattle.std.specs.Prelude.{◌≡◌, pos, negsuc, true, false, [], ◌∷◌, Ok, Err};
ghost use Rattle.iec_command.specs.declared.command.Action.TheVariants.{Interrogation, CounterInterrogation, Read};
ghost use Rattle.iec_command.specs.declared.fault.CommandFault.TheVariants.{Short, Long, UnknownType, Count};
ghost use Rattle.iec_command.specs.Commands.{spelling, command_of, mirrored};
ghost use Rattle.iec_command.specs.Example.{single, double, setpoint, command, sent_single, sent_double, sent_setpoint};

/// What the octets of some commands tell.
#[tactic(auto, unfolding(crate::specs::Commands::command_of))]
pub fn command_examples()
    // Activation of station interrogation and of counter interrogation, and a request of object 4101.
    ensures interrogation { command_of
        (0x64 ∷ 0x01 ∷ 0x06 ∷ 0x00 ∷ 0x01 ∷ 0x00 ∷ 0x00 ∷ 0x00 ∷ 0x00 ∷ 0x14 ∷ [])
        ≡ Ok (command 6 1 0 (Interrogation 20)) }
    ensures counters { command_of
        (0x65 ∷ 0x01 ∷ 0x06 ∷ 0x00 ∷ 0x01 ∷ 0x00 ∷ 0x00 ∷ 0x00 ∷ 0x00 ∷ 0x05 ∷ [])
        ≡ Ok (command 6 1 0 (CounterInterrogation 5)) }
    ensures request { command_of
        (0x66 ∷ 0x01 ∷ 0x05 ∷ 0x00 ∷ 0x01 ∷ 0x00 ∷ 0x05 ∷ 0x10 ∷ 0x00 ∷ [])
        ≡ Ok (command 5 1 4101 Read) }
    // Selection of single command 5001, on; double command 5003, off with QU 1; set point 5002 of 1000.
    ensures single_command { command_of
        (0x2D ∷ 0x01 ∷ 0x06 ∷ 0x00 ∷ 0x01 ∷ 0x00 ∷ 0x89 ∷ 0x13 ∷ 0x00 ∷ 0x81 ∷ [])
        ≡ Ok (command 6 1 5001 (single true false 0 true)) }
    ensures double_command { command_of
        (0x2E ∷ 0x01 ∷ 0x06 ∷ 0x00 ∷ 0x01 ∷ 0x00 ∷ 0x8B ∷ 0x13 ∷ 0x00 ∷ 0x05 ∷ [])
        ≡ Ok (command 6 1 5003 (double 1 1 false)) }
    ensures set_point { command_of
        (0x31 ∷ 0x01 ∷ 0x06 ∷ 0x00 ∷ 0x01 ∷ 0x00 ∷ 0x8A ∷ 0x13 ∷ 0x00 ∷ 0xE8 ∷ 0x03 ∷ 0x00 ∷ [])
        ≡ Ok (command 6 1 5002 (setpoint (pos 1000) 0 false)) }
    // P/N alone and T alone, the originator, the highest common address, and an address of three octets.
    ensures negative { command_of
        (0x64 ∷ 0x01 ∷ 0x46 ∷ 0x00 ∷ 0x01 ∷ 0x00 ∷ 0x00 ∷ 0x00 ∷ 0x00 ∷ 0x14 ∷ [])
        ≡ Ok (record (command 6 1 0 (Interrogation 20)) { negative = true }) }
    ensures test { command_of
        (0x64 ∷ 0x01 ∷ 0x86 ∷ 0x00 ∷ 0x01 ∷ 0x00 ∷ 0x00 ∷ 0x00 ∷ 0x00 ∷ 0x14 ∷ [])
        ≡ Ok (record (command 6 1 0 (Interrogation 20)) { test = true }) }
    ensures originator { command_of
        (0x64 ∷ 0x01 ∷ 0x06 ∷ 0x07 ∷ 0x01 ∷ 0x00 ∷ 0x00 ∷ 0x00 ∷ 0x00 ∷ 0x14 ∷ [])
        ≡ Ok (record (command 6 1 0 (Interrogation 20)) { originator = 7 }) }
    ensures every_station { command_of
        (0x64 ∷ 0x01 ∷ 0x06 ∷ 0x00 ∷ 0xFF ∷ 0xFF ∷ 0x00 ∷ 0x00 ∷ 0x00 ∷ 0x14 ∷ [])
        ≡ Ok (command 6 65535 0 (Interrogation 20)) }
    ensures far_object { command_of
        (0x66 ∷ 0x01 ∷ 0x05 ∷ 0x00 ∷ 0x02 ∷ 0x01 ∷ 0x01 ∷ 0x02 ∷ 0x03 ∷ [])
        ≡ Ok (command 5 258 197121 Read) }
{}

/// What each bit of an element tells alone.
#[tactic(auto, unfolding(crate::specs::Commands::command_of))]
pub fn bit_examples()
    // SCO: the state, the reserved bit, the lowest bit of QU and the highest, S/E; none.
    ensures single_on { command_of (sent_single 0x01) ≡ Ok (command 6 1 5001 (single true false 0 false)) }
    ensures single_reserved { command_of (sent_single 0x02) ≡ Ok (command 6 1 5001 (single false true 0 false)) }
    ensures single_lowest { command_of (sent_single 0x04) ≡ Ok (command 6 1 5001 (single false false 1 false)) }
    ensures single_highest { command_of (sent_single 0x40) ≡ Ok (command 6 1 5001 (single false false 16 false)) }
    ensures single_select { command_of (sent_single 0x80) ≡ Ok (command 6 1 5001 (single false false 0 true)) }
    ensures single_off { command_of (sent_single 0x00) ≡ Ok (command 6 1 5001 (single false false 0 false)) }
    // DCO: off, on, neither and both; the lowest bit of QU and the highest, S/E.
    ensures double_off { command_of (sent_double 0x01) ≡ Ok (command 6 1 5003 (double 1 0 false)) }
    ensures double_on { command_of (sent_double 0x02) ≡ Ok (command 6 1 5003 (double 2 0 false)) }
    ensures double_neither { command_of (sent_double 0x00) ≡ Ok (command 6 1 5003 (double 0 0 false)) }
    ensures double_both { command_of (sent_double 0x03) ≡ Ok (command 6 1 5003 (double 3 0 false)) }
    ensures double_lowest { command_of (sent_double 0x04) ≡ Ok (command 6 1 5003 (double 0 1 false)) }
    ensures double_highest { command_of (sent_double 0x40) ≡ Ok (command 6 1 5003 (double 0 16 false)) }
    ensures double_select { command_of (sent_double 0x80) ≡ Ok (command 6 1 5003 (double 0 0 true)) }
    // SVA: -1, the lowest and the highest; QOS: the lowest bit of QL and the highest, S/E.
    ensures setpoint_negative { command_of (sent_setpoint 0xFF 0xFF 0x00)
        ≡ Ok (command 6 1 5002 (setpoint (negsuc 0) 0 false)) }
    ensures setpoint_least { command_of (sent_setpoint 0x00 0x80 0x00)
        ≡ Ok (command 6 1 5002 (setpoint (negsuc 32767) 0 false)) }
    ensures setpoint_greatest { command_of (sent_setpoint 0xFF 0x7F 0x00)
        ≡ Ok (command 6 1 5002 (setpoint (pos 32767) 0 false)) }
    ensures setpoint_lowest { command_of (sent_setpoint 0x00 0x00 0x01)
        ≡ Ok (command 6 1 5002 (setpoint (pos 0) 1 false)) }
    ensures setpoint_highest { command_of (sent_setpoint 0x00 0x00 0x40)
        ≡ Ok (command 6 1 5002 (setpoint (pos 0) 64 false)) }
    ensures setpoint_select { command_of (sent_setpoint 0x00 0x00 0x80)
        ≡ Ok (command 6 1 5002 (setpoint (pos 0) 0 true)) }
{}

/// The first fault of octets that spell no command.
#[tactic(auto, unfolding(crate::specs::Commands::command_of))]
pub fn fault_examples()
    // No octet; five octets of another type.
    ensures empty { command_of [] ≡ Err Short }
    ensures header { command_of (0x67 ∷ 0x01 ∷ 0x06 ∷ 0x00 ∷ 0x01 ∷ []) ≡ Err Short }
    // Another type, 103: with its header alone, and with two objects.
    ensures unknown_type { command_of (0x67 ∷ 0x01 ∷ 0x06 ∷ 0x00 ∷ 0x01 ∷ 0x00 ∷ []) ≡ Err UnknownType }
    ensures unknown_objects { command_of (0x67 ∷ 0x02 ∷ 0x06 ∷ 0x00 ∷ 0x01 ∷ 0x00 ∷ []) ≡ Err UnknownType }
    // Two objects, of which there are too few octets; no object, 127, and one under SQ 1.
    ensures two { command_of (0x64 ∷ 0x02 ∷ 0x06 ∷ 0x00 ∷ 0x01 ∷ 0x00 ∷ 0x00 ∷ []) ≡ Err Count }
    ensures none { command_of
        (0x64 ∷ 0x00 ∷ 0x06 ∷ 0x00 ∷ 0x01 ∷ 0x00 ∷ 0x00 ∷ 0x00 ∷ 0x00 ∷ 0x14 ∷ []) ≡ Err Count }
    ensures most { command_of
        (0x64 ∷ 0x7F ∷ 0x06 ∷ 0x00 ∷ 0x01 ∷ 0x00 ∷ 0x00 ∷ 0x00 ∷ 0x00 ∷ 0x14 ∷ []) ≡ Err Count }
    ensures in_sequence { command_of
        (0x64 ∷ 0x81 ∷ 0x06 ∷ 0x00 ∷ 0x01 ∷ 0x00 ∷ 0x00 ∷ 0x00 ∷ 0x00 ∷ 0x14 ∷ []) ≡ Err Count }
    // An octet too few and one too many: of an interrogation, of a set point, of a read command.
    ensures short { command_of
        (0x64 ∷ 0x01 ∷ 0x06 ∷ 0x00 ∷ 0x01 ∷ 0x00 ∷ 0x00 ∷ 0x00 ∷ 0x00 ∷ []) ≡ Err Short }
    ensures long { command_of
        (0x64 ∷ 0x01 ∷ 0x06 ∷ 0x00 ∷ 0x01 ∷ 0x00 ∷ 0x00 ∷ 0x00 ∷ 0x00 ∷ 0x14 ∷ 0x00 ∷ []) ≡ Err Long }
    ensures short_setpoint { command_of
        (0x31 ∷ 0x01 ∷ 0x06 ∷ 0x00 ∷ 0x01 ∷ 0x00 ∷ 0x8A ∷ 0x13 ∷ 0x00 ∷ 0xE8 ∷ 0x03 ∷ []) ≡ Err Short }
    ensures long_setpoint { command_of
        (0x31 ∷ 0x01 ∷ 0x06 ∷ 0x00 ∷ 0x01 ∷ 0x00 ∷ 0x8A ∷ 0x13 ∷ 0x00 ∷ 0xE8 ∷ 0x03 ∷ 0x00 ∷ 0x00 ∷ [])
        ≡ Err Long }
    ensures short_request { command_of
        (0x66 ∷ 0x01 ∷ 0x05 ∷ 0x00 ∷ 0x01 ∷ 0x00 ∷ 0x05 ∷ 0x10 ∷ []) ≡ Err Short }
    ensures long_request { command_of
        (0x66 ∷ 0x01 ∷ 0x05 ∷ 0x00 ∷ 0x01 ∷ 0x00 ∷ 0x05 ∷ 0x10 ∷ 0x00 ∷ 0x00 ∷ []) ≡ Err Long }
{}

/// How some commands are spelled, and what is mirrored.
pub fn spelling_examples()
    // Termination of an interrogation, and a negative confirmation of a set point.
    ensures termination { spelling (command 10 1 0 (Interrogation 20))
        ≡ 0x64 ∷ 0x01 ∷ 0x0A ∷ 0x00 ∷ 0x01 ∷ 0x00 ∷ 0x00 ∷ 0x00 ∷ 0x00 ∷ 0x14 ∷ [] }
    ensures refusal { spelling (record (command 7 1 5002 (setpoint (negsuc 0) 0 false)) { negative = true })
        ≡ 0x31 ∷ 0x01 ∷ 0x47 ∷ 0x00 ∷ 0x01 ∷ 0x00 ∷ 0x8A ∷ 0x13 ∷ 0x00 ∷ 0xFF ∷ 0xFF ∷ 0x00 ∷ [] }
    // The confirmation of an interrogation, and of a test of one.
    ensures confirmation { mirrored 7 false
        (0x64 ∷ 0x01 ∷ 0x06 ∷ 0x07 ∷ 0x01 ∷ 0x00 ∷ 0x00 ∷ 0x00 ∷ 0x00 ∷ 0x14 ∷ [])
        ≡ 0x64 ∷ 0x01 ∷ 0x07 ∷ 0x07 ∷ 0x01 ∷ 0x00 ∷ 0x00 ∷ 0x00 ∷ 0x00 ∷ 0x14 ∷ [] }
    ensures test { mirrored 7 false
        (0x64 ∷ 0x01 ∷ 0x86 ∷ 0x07 ∷ 0x01 ∷ 0x00 ∷ 0x00 ∷ 0x00 ∷ 0x00 ∷ 0x14 ∷ [])
        ≡ 0x64 ∷ 0x01 ∷ 0x87 ∷ 0x07 ∷ 0x01 ∷ 0x00 ∷ 0x00 ∷ 0x00 ∷ 0x00 ∷ 0x14 ∷ [] }
    // An ASDU of another type, 103, with two objects, is refused; P/N doesn't stay.
    ensures unknown_type { mirrored 44 true
        (0x67 ∷ 0x02 ∷ 0x06 ∷ 0x00 ∷ 0x01 ∷ 0x00 ∷ []) ≡ 0x67 ∷ 0x02 ∷ 0x6C ∷ 0x00 ∷ 0x01 ∷ 0x00 ∷ [] }
    ensures positive { mirrored 10 false
        (0x64 ∷ 0x01 ∷ 0x46 ∷ 0x00 ∷ 0x01 ∷ 0x00 ∷ []) ≡ 0x64 ∷ 0x01 ∷ 0x0A ∷ 0x00 ∷ 0x01 ∷ 0x00 ∷ [] }
{}
