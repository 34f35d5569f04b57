//! What is doubtful in the settings.

/// Something in the settings that reads like a slip.
#[derive(Clone, Copy)]
pub enum Doubt {
    /// The address of an outstation has no port.
    ConnectWithoutPort {
        /// The outstation.
        outstation: u8,
    },
    /// Two outstations have the same address of connection and the same link address.
    SamePlace {
        /// The one.
        first: u8,
        /// The other.
        second: u8,
    },
}

impl Doubt {
    /// The outstation that it is of, the later one of two.
    pub(crate) fn outstation(self) -> u8 {
        match self {
            Doubt::ConnectWithoutPort { outstation } => outstation,
            Doubt::SamePlace { second, .. } => second,
        }
    }
}
