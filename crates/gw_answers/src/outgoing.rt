//! What goes out to a client in an I format.

ghost use Rattle.std.specs.Prelude.{◌≡◌};
ghost use Rattle.gw_answers.specs.Outgoing.{news};

use gw_model::Observation;
use iec_apci::Asdu;
use iec_asdu::SPONTANEOUS;
use iec_command::Command;

/// An ASDU of the station's own, whole when it is made.
#[derive(Clone, Copy)]
pub enum OwnAsdu {
    /// A command with the cause of transmission and P/N of its confirmation or termination.
    Command(Command),
    /// An observation, with its cause of transmission and the originator of the request that it answers, or 0.
    Observation {
        cause: u8,
        originator: u8,
        observation: Observation,
    },
}

impl OwnAsdu {
    /// News: spontaneous.
    pub fn news(observation: Observation) -> OwnAsdu
        ensures { result ≡ news observation }
    {
        OwnAsdu::Observation {
            cause: SPONTANEOUS,
            originator: 0,
            observation,
        }
    }
}

/// What answers an ASDU of the client. What comes back stays apart from `OwnAsdu`, since its octets would widen each
/// row of the answer to an interrogation.
#[derive(Clone, Copy)]
pub enum AsduAnswer {
    /// The ASDU as it came, with the cause of transmission that tells what of it is unknown (44 to 47) and P/N set.
    Returned { asdu: Asdu, cause: u8 },
    /// A confirmation, a termination, or what the picture showed of a row that was read.
    Made(OwnAsdu),
}
