//! Reading commands.
ghost use Rattle.std.specs.Prelude.{◌≡◌, ◌+◌, ◌≤◌, length, slice_index, IfOk};
ghost use Rattle.iec_command.specs.Commands.{spelling, is_known, element_length, action_of};
ghost use Rattle.iec_command.specs.Commands.{command_in, command_of, IsWhole};

use crate::command::{
    Action, C_CI_NA_1, C_DC_NA_1, C_IC_NA_1, C_RD_NA_1, C_SC_NA_1, C_SE_NB_1, Command,
    DoubleCommand, SetpointCommand, SingleCommand,
};
use crate::fault::CommandFault;

/// How many octets the header of an ASDU has: type, variable structure qualifier, cause, originator and
/// common address.
const HEADER_OCTETS: usize = 6;

/// How many octets an information object address has.
const ADDRESS_OCTETS: usize = 3;

/// The variable structure qualifier of one object under SQ 0.
const ONE_OBJECT: u8 = 1;

/// Whether a type is known.
fn is_known(identification: u8) -> bool
    ensures { result ≡ is_known identification }
{
    matches!(
        identification,
        C_SC_NA_1 | C_DC_NA_1 | C_SE_NB_1 | C_IC_NA_1 | C_CI_NA_1 | C_RD_NA_1
    )
}

/// How many octets the element of a known type has.
fn element_octets(identification: u8) -> usize
    ensures exact { result ≡ element_length identification }
    ensures small { result ≤ 3 }
{
    match identification {
        C_SE_NB_1 => 3,
        C_RD_NA_1 => 0,
        _ => 1,
    }
}

/// What the element of a known type asks for.
fn action_of(identification: u8, element: &[u8]) -> Action
    requires { element_length identification ≤ length element.now }
    ensures { result ≡ action_of identification element.now }
{
    match identification {
        C_SC_NA_1 => Action::Single(SingleCommand::of(element[0])),
        C_DC_NA_1 => Action::Double(DoubleCommand::of(element[0])),
        C_SE_NB_1 => Action::Setpoint(SetpointCommand::of(element)),
        C_IC_NA_1 => Action::Interrogation {
            qualifier: element[0],
        },
        C_CI_NA_1 => Action::CounterInterrogation {
            qualifier: element[0],
        },
        _ => Action::Read,
    }
}

/// What the octets of a whole command tell.
fn command_in(octets: &[u8]) -> Command
    requires { 9 + element_length (slice_index octets.now 0) ≤ length octets.now }
    ensures { result ≡ command_in octets.now }
{
    let cause = octets[2];
    Command {
        cause: cause % 64,
        negative: cause / 64 % 2 == 1,
        test: cause / 128 % 2 == 1,
        originator: octets[3],
        common_address: u16::from_le_bytes([octets[4], octets[5]]),
        address: u32::from_le_bytes([octets[6], octets[7], octets[8], 0]),
        action: action_of(octets[0], &octets[9..]),
    }
}

/// The whole command.
#[tactic(auto, unfolding(crate::specs::Commands::command_of))]
fn read_whole(octets: &[u8]) -> Result<Command, CommandFault>
    ensures { result ≡ command_of octets.now }
{
    if octets.len() < HEADER_OCTETS {
        return Err(CommandFault::Short);
    }
    let identification = octets[0];
    if !is_known(identification) {
        return Err(CommandFault::UnknownType);
    }
    if octets[1] != ONE_OBJECT {
        return Err(CommandFault::Count);
    }
    let whole = HEADER_OCTETS + ADDRESS_OCTETS + element_octets(identification);
    if octets.len() < whole {
        return Err(CommandFault::Short);
    }
    if octets.len() > whole {
        return Err(CommandFault::Long);
    }
    Ok(command_in(octets))
}

/// The command that the octets spell: one information object, of a type that is known.
///
/// A fault is the first one: a header that isn't whole, the type, the number of objects, and then too few
/// octets or too many. Reserved bits and qualifiers are no fault.
pub fn read_command(octets: &[u8]) -> Result<Command, CommandFault>
    // What is read is spelled so, each octet of it.
    ensures found { IfOk result (λ c. spelling c ≡ octets.now) }
    ensures whole { IfOk result IsWhole }
    // Which command it is, or which fault.
    ensures exact { result ≡ command_of octets.now }
{
    read_whole(octets)
}
