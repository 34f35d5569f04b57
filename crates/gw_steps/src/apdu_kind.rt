//! What an APDU of a client is, as far as its operator is told.
ghost use Rattle.std.specs.Prelude.{◌≡◌, slice_get};
ghost use Rattle.gw_steps.specs.Kinds.{kind_in, kind_of, kind_read, object_address, operates, unknown_in};

use iec_apci::{Apdu, Signal};
use iec_command::{Action, Command, CommandFault, UnknownAsdu, read_command};

/// What an APDU of a client is.
#[derive(Clone, Copy)]
pub enum ApduKind {
    /// A function of the U format.
    UFormat(Signal),
    /// An S format.
    SFormat,
    /// An I format with a command that operates a control, known or not: a single command, a double command or a set point.
    Command(Command),
    /// An I format with an ASDU of a type that isn't known in control direction.
    Unknown(UnknownAsdu),
    /// Any other I format.
    Other,
}

impl ApduKind {
    /// What an APDU is.
    pub fn of(apdu: &Apdu) -> ApduKind
        ensures { result ≡ kind_of apdu.now }
    {
        match apdu {
            Apdu::I { asdu, .. } => ApduKind::of_asdu(asdu.as_slice()),
            Apdu::S { .. } => ApduKind::SFormat,
            Apdu::U(signal) => ApduKind::UFormat(*signal),
        }
    }

    /// What an I format with these octets of an ASDU is.
    pub fn of_asdu(octets: &[u8]) -> ApduKind
        ensures { result ≡ kind_in octets.now }
    {
        kind_read(octets, read_command(octets))
    }
}

/// The same, where the octets were read so.
fn kind_read(octets: &[u8], read: Result<Command, CommandFault>) -> ApduKind
    ensures { result ≡ kind_read octets.now read }
{
    match read {
        Ok(command) => {
            if operates(command.action) {
                ApduKind::Command(command)
            } else {
                ApduKind::Other
            }
        }
        Err(CommandFault::UnknownType) => unknown_in(octets),
        Err(_) => ApduKind::Other,
    }
}

/// Whether a command is one that operates a control.
fn operates(action: Action) -> bool
    ensures { result ≡ operates action }
{
    match action {
        Action::Single(_) | Action::Double(_) | Action::Setpoint(_) => true,
        Action::Interrogation { .. } | Action::CounterInterrogation { .. } | Action::Read => false,
    }
}

/// What an I format is whose ASDU has an unknown type (IEC 60870-5-101, 7.1): behind its type stand qualifier, cause, originator
/// and common address, and then the address of its first object.
fn unknown_in(octets: &[u8]) -> ApduKind
    ensures { result ≡ unknown_in octets.now }
{
    let (Some(identification), Some(low), Some(high)) = (
        octets.first(),
        octets.get(4),
        octets.get(5),
    ) else {
        return ApduKind::Other;
    };
    ApduKind::Unknown(UnknownAsdu {
        identification: *identification,
        common_address: u16::from_le_bytes([*low, *high]),
        address: object_address(octets),
    })
}

/// The address of the first object of an ASDU, where its octets have one.
fn object_address(octets: &[u8]) -> Option<u32>
    ensures { result ≡ object_address (slice_get octets.now 6) (slice_get octets.now 7) (slice_get octets.now 8) }
{
    let (Some(low), Some(middle), Some(high)) = (octets.get(6), octets.get(7), octets.get(8)) else {
        return None;
    };
    Some(u32::from_le_bytes([*low, *middle, *high, 0]))
}
