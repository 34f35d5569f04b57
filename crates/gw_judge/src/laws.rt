//! What holds of every judgement.
ghost use Rattle.std.specs.Prelude.{◌≡◌, ◌≤◌, ◌↔◌, ℕ, Bool, false, List, length, Ok};
ghost use Rattle.gw_map.specs.Settings.{Setup, HasSingleAddresses};
ghost use Rattle.iec_command.specs.declared.command.Command.{Command};
ghost use Rattle.iec_command.specs.Commands.{command_of};
ghost use Rattle.gw_judge.specs.declared.judging.Judged.TheVariants.{Accepted, Malformed, Refuse};
ghost use Rattle.gw_judge.specs.Acceptable.{IsAcceptable};
ghost use Rattle.gw_judge.specs.Refusals.{HasUnknownCause, HasUnknownObject, HasUnknownStation, HasUnknownType, IsMalformed};
ghost use Rattle.gw_judge.specs.Judging.{is_execute, judged};

/// An ASDU is accepted as a command exactly where it spells that command, and the command is acceptable.
pub fn acceptable_commands()
    ensures { (setup : Setup) (octets : List ℕ) (c : Command) → HasSingleAddresses setup.rows setup.controls
        → (judged setup octets ≡ Accepted c) ↔ ((command_of octets ≡ Ok c) × IsAcceptable setup c) }
{}

/// What is sent back has its header, and gets a cause of transmission from 44 to 47.
pub fn refused_asdus()
    ensures header { (setup : Setup) (octets : List ℕ) (cause : ℕ) (execute : Bool)
        → judged setup octets ≡ Refuse cause execute → 6 ≤ length octets }
    ensures cause { (setup : Setup) (octets : List ℕ) (cause : ℕ) (execute : Bool)
        → judged setup octets ≡ Refuse cause execute → (44 ≤ cause) × (cause ≤ 47) }
{}

/// What is sent back, each cause apart: 44 exactly where the header is whole and the type is no command's; 45 where a
/// command is spelled whose cause of transmission isn't known; 46 where its cause is known, and its common address isn't;
/// 47 where both are known, and its object isn't there. An execute is told apart under 47 alone.
pub fn refusals_are_due()
    ensures unknown_type { (setup : Setup) (octets : List ℕ) (execute : Bool)
        → (judged setup octets ≡ Refuse 44 execute) ↔ (HasUnknownType octets × (execute ≡ false)) }
    ensures unknown_cause { (setup : Setup) (octets : List ℕ) (execute : Bool) → (judged setup octets ≡ Refuse 45 execute)
        ↔ ((c : Command) × HasUnknownCause octets c × (execute ≡ false)) }
    ensures unknown_station { (setup : Setup) (octets : List ℕ) (execute : Bool)
        → (judged setup octets ≡ Refuse 46 execute)
        ↔ ((c : Command) × HasUnknownStation setup octets c × (execute ≡ false)) }
    ensures unknown_object { (setup : Setup) (octets : List ℕ) (execute : Bool)
        → HasSingleAddresses setup.rows setup.controls → (judged setup octets ≡ Refuse 47 execute)
        ↔ ((c : Command) × HasUnknownObject setup octets c × (execute ≡ is_execute c)) }
{}

/// The connection is closed exactly where an ASDU is shorter than its header, or has a command's type and spells none.
pub fn malformed_asdus()
    ensures { (setup : Setup) (octets : List ℕ) → (judged setup octets ≡ Malformed) ↔ IsMalformed octets }
{}
