//! Commands as values, and their octets.
ghost use Rattle.std.specs.Prelude.{◌≡◌, ◌+◌, ◌≤◌, length, take, drop};
ghost use Rattle.iec_command.specs.Commands.{cause_octet};

/// Single command, type C_SC_NA_1.
pub const C_SC_NA_1: u8 = 45;

/// Double command, type C_DC_NA_1.
pub const C_DC_NA_1: u8 = 46;

/// Set-point command, scaled value, type C_SE_NB_1.
pub const C_SE_NB_1: u8 = 49;

/// Interrogation command, type C_IC_NA_1.
pub const C_IC_NA_1: u8 = 100;

/// Counter interrogation command, type C_CI_NA_1.
pub const C_CI_NA_1: u8 = 101;

/// Read command, type C_RD_NA_1.
pub const C_RD_NA_1: u8 = 102;

/// A single command, SCO (IEC 60870-5-101, 7.2.6.15).
#[derive(Clone, Copy)]
pub struct SingleCommand {
    /// On, or else off: bit 0.
    pub on: bool,
    /// The reserved bit 1, as it came.
    pub reserved: bool,
    /// QU, 0 to 31: bits 2 to 6.
    pub qualifier: u8,
    /// S/E, select or else execute: bit 7.
    pub select: bool,
}

/// A double command, DCO (IEC 60870-5-101, 7.2.6.16).
#[derive(Clone, Copy)]
pub struct DoubleCommand {
    /// 1 off, 2 on, 0 and 3 not permitted: bits 0 and 1.
    pub state: u8,
    /// QU, 0 to 31: bits 2 to 6.
    pub qualifier: u8,
    /// S/E, select or else execute: bit 7.
    pub select: bool,
}

/// A set point as a scaled value, SVA and QOS (IEC 60870-5-101, 7.2.6.7 and 7.2.6.39).
#[derive(Clone, Copy)]
pub struct SetpointCommand {
    pub value: i16,
    /// QL, 0 to 127: bits 0 to 6 of QOS.
    pub qualifier: u8,
    /// S/E, select or else execute: bit 7 of QOS.
    pub select: bool,
}

/// What a command asks for, by its type (IEC 60870-5-101, 7.3.2 and 7.3.4).
#[derive(Clone, Copy)]
pub enum Action {
    /// C_SC_NA_1.
    Single(SingleCommand),
    /// C_DC_NA_1.
    Double(DoubleCommand),
    /// C_SE_NB_1.
    Setpoint(SetpointCommand),
    /// C_IC_NA_1, with QOI (7.2.6.22).
    Interrogation { qualifier: u8 },
    /// C_CI_NA_1, with QCC (7.2.6.23).
    CounterInterrogation { qualifier: u8 },
    /// C_RD_NA_1.
    Read,
}

/// An ASDU in control direction, of one information object.
#[derive(Clone, Copy)]
pub struct Command {
    /// Cause of transmission, 0 to 63: bits 0 to 5 of its octet (7.2.3).
    pub cause: u8,
    /// P/N, a negative confirmation: bit 6.
    pub negative: bool,
    /// T, a test: bit 7.
    pub test: bool,
    /// Originator address.
    pub originator: u8,
    /// Common address (7.2.4).
    pub common_address: u16,
    /// Information object address, 24 bits (7.2.5).
    pub address: u32,
    pub action: Action,
}

/// The octet of a cause of transmission.
pub(crate) fn cause_octet(cause: u8, negative: bool, test: bool) -> u8
    ensures { result ≡ cause_octet cause negative test }
{
    cause % 64 + u8::from(negative) * 64 + u8::from(test) * 128
}

impl SingleCommand {
    ghost use Rattle.iec_command.specs.Commands.{single_octet, single_of};

    fn octet(self) -> u8
        ensures { result ≡ single_octet self }
    {
        let bits = u8::from(self.on) + u8::from(self.reserved) * 2;
        bits + self.qualifier % 32 * 4 + u8::from(self.select) * 128
    }

    /// The command that an octet tells.
    pub(crate) fn of(octet: u8) -> SingleCommand
        ensures { result ≡ single_of octet }
    {
        SingleCommand {
            on: octet % 2 == 1,
            reserved: octet / 2 % 2 == 1,
            qualifier: octet / 4 % 32,
            select: octet / 128 % 2 == 1,
        }
    }
}

impl DoubleCommand {
    ghost use Rattle.iec_command.specs.Commands.{double_octet, double_of};

    fn octet(self) -> u8
        ensures { result ≡ double_octet self }
    {
        self.state % 4 + self.qualifier % 32 * 4 + u8::from(self.select) * 128
    }

    /// The command that an octet tells.
    pub(crate) fn of(octet: u8) -> DoubleCommand
        ensures { result ≡ double_of octet }
    {
        DoubleCommand {
            state: octet % 4,
            qualifier: octet / 4 % 32,
            select: octet / 128 % 2 == 1,
        }
    }
}

impl SetpointCommand {
    ghost use Rattle.iec_command.specs.Commands.{setpoint_octets, setpoint_of};

    fn octets(self) -> [u8; 3]
        ensures { result ≡ setpoint_octets self }
    {
        let [low, high] = self.value.to_le_bytes();
        let qos = self.qualifier % 128 + u8::from(self.select) * 128;
        [low, high, qos]
    }

    /// The command that three octets tell.
    pub(crate) fn of(octets: &[u8]) -> SetpointCommand
        requires { 3 ≤ length octets.now }
        ensures { result ≡ setpoint_of octets.now }
    {
        let qos = octets[2];
        SetpointCommand {
            value: i16::from_le_bytes([octets[0], octets[1]]),
            qualifier: qos % 128,
            select: qos / 128 % 2 == 1,
        }
    }
}

impl Action {
    ghost use Rattle.iec_command.specs.Commands.{type_of, element_of};

    /// The type identification (IEC 60870-5-101, 7.2.1).
    fn identification(self) -> u8
        ensures { result ≡ type_of self }
    {
        match self {
            Action::Single(_) => C_SC_NA_1,
            Action::Double(_) => C_DC_NA_1,
            Action::Setpoint(_) => C_SE_NB_1,
            Action::Interrogation { .. } => C_IC_NA_1,
            Action::CounterInterrogation { .. } => C_CI_NA_1,
            Action::Read => C_RD_NA_1,
        }
    }

    /// Writes the element behind the nine octets of the header and of an address. Answers where it ends.
    #[tactic(auto, using(crate::proofs::Changed::octet_put))]
    fn write_element(self, out: &mut [u8; 249]) -> usize
        ensures end { result ≡ 9 + length (element_of self) }
        ensures room { result ≤ 12 }
        ensures element { take (length (element_of self)) (drop 9 out.new) ≡ element_of self }
        ensures rest { drop result out.new ≡ drop result out.old }
    {
        match self {
            Action::Single(command) => out[9] = command.octet(),
            Action::Double(command) => out[9] = command.octet(),
            Action::Setpoint(command) => {
                out[9..12].copy_from_slice(&command.octets());
                return 12;
            }
            Action::Interrogation { qualifier } => out[9] = qualifier,
            Action::CounterInterrogation { qualifier } => out[9] = qualifier,
            Action::Read => return 9,
        }
        10
    }
}

impl Command {
    ghost use Rattle.iec_command.specs.Commands.{spelling};

    /// Writes the command at the front of `out`, and answers how many octets it has. Of a field that has
    /// more bits than its place the low ones are written.
    pub fn write(&self, out: &mut [u8; 249]) -> usize
        ensures length { result ≡ length (spelling self.now) }
        ensures room { result ≤ 12 }
        ensures spelled { take result out.new ≡ spelling self.now }
        ensures rest { drop result out.new ≡ drop result out.old }
    {
        let end = self.action.write_element(out);
        let identification = self.action.identification();
        let cause = cause_octet(self.cause, self.negative, self.test);
        let originator = self.originator;
        let [low, high] = self.common_address.to_le_bytes();
        let [a, b, c, _] = self.address.to_le_bytes();
        out[..9].copy_from_slice(&[identification, 1, cause, originator, low, high, a, b, c]);
        end
    }
}
