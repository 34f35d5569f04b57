//! APDUs as values.
ghost use Rattle.std.specs.Prelude.{◌≡◌, ◌+◌, ◌≤◌, take};
ghost use Rattle.iec_apci.specs.Apdu.{confirmation_of};

/// The octet that each APDU begins with (IEC 60870-5-104, clause 5).
pub const START: u8 = 0x68;

/// A function of the U format (IEC 60870-5-104, 5.2 and 5.3), numbered by its first control octet.
#[derive(Clone, Copy)]
pub enum Signal {
    /// STARTDT act: data transfer is to start.
    StartAct = 0x07,
    /// STARTDT con.
    StartCon = 0x0B,
    /// STOPDT act: data transfer is to stop.
    StopAct = 0x13,
    /// STOPDT con.
    StopCon = 0x23,
    /// TESTFR act: is the connection alive?
    TestAct = 0x43,
    /// TESTFR con.
    TestCon = 0x83,
}

impl Signal {
    /// The con that confirms an act; none where this is a con.
    pub fn confirmation(self) -> Option<Signal>
        ensures { result ≡ confirmation_of self }
    {
        match self {
            Signal::StartAct => Some(Signal::StartCon),
            Signal::StopAct => Some(Signal::StopCon),
            Signal::TestAct => Some(Signal::TestCon),
            Signal::StartCon | Signal::StopCon | Signal::TestCon => None,
        }
    }
}

/// An ASDU, whatever it means: 0 to 249 octets.
#[derive(Clone, Copy)]
pub struct Asdu {
    /// The ASDU, in the first `len` octets.
    pub octets: [u8; 249],
    /// How many octets it has.
    pub len: u8,
    pub ghost fits: { len ≤ 249 },
}

impl Asdu {
    /// The octets of the ASDU.
    pub fn as_slice(&self) -> &[u8]
        ensures { result.now ≡ take self.now.len self.now.octets }
    {
        &self.octets[..usize::from(self.len)]
    }
}

/// An APDU (IEC 60870-5-104, clause 5). Numbers have 15 bits.
#[derive(Clone, Copy)]
pub enum Apdu {
    /// Numbered information transfer: N(S), N(R) and an ASDU.
    I {
        /// The send sequence number N(S).
        ns: u16,
        /// The receive sequence number N(R).
        nr: u16,
        /// What is transferred.
        asdu: Asdu,
    },
    /// Numbered supervisory function: N(R) alone.
    S {
        /// The receive sequence number N(R).
        nr: u16,
    },
    /// Unnumbered control function.
    U(Signal),
}
