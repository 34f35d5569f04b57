//! What holds of every command.
ghost use Rattle.std.specs.Prelude.{◌≡◌, ℕ, Bool, Ok};
ghost use Rattle.iec_command.specs.declared.command.Command.{Command};
ghost use Rattle.iec_command.specs.Commands.{spelling, command_of, IsWhole, mirrored};

/// A command whose fields have the bits of their places is read again from its octets.
pub fn written_is_read()
    ensures { (c : Command) → IsWhole c → command_of (spelling c) ≡ Ok c }
{}

/// The octets of a command with another cause and P/N are those of the command with that cause and P/N.
pub fn mirrored_is_spelled()
    ensures { (c : Command) (cause : ℕ) (negative : Bool) →
        mirrored cause negative (spelling c) ≡ spelling (record c { cause = cause; negative = negative }) }
{}
