//! ASDUs of clients of types that aren't known in control direction.

use crate::counted::AndMore;
use iec_command::UnknownAsdu;
use std::fmt;

/// Such ASDUs, as they are told.
#[derive(Clone, Copy)]
pub struct UnknownAsdus {
    /// The last one.
    pub last: UnknownAsdu,
    /// How many came before it and weren't told.
    pub left_out: u64,
}

impl fmt::Display for UnknownAsdus {
    fn fmt<W: fmt::Write>(&self, f: &mut fmt::Formatter<W>) -> fmt::Result {
        let UnknownAsdu {
            identification,
            common_address,
            address,
        } = self.last;
        let (name, place) = (Name(identification), Place(address));
        let more = AndMore(self.left_out);
        write!(
            f,
            "asks: type {identification}{name}{place}, station {common_address}: unknown type{more}"
        )
    }
}

/// The standard's short name of a type, in brackets, if it has one.
#[derive(Clone, Copy)]
struct Name(u8);

impl fmt::Display for Name {
    fn fmt<W: fmt::Write>(&self, f: &mut fmt::Formatter<W>) -> fmt::Result {
        match short_name(self.0) {
            Some(name) => write!(f, " ({name})"),
            None => Ok(()),
        }
    }
}

/// The object, if there is one.
#[derive(Clone, Copy)]
struct Place(Option<u32>);

impl fmt::Display for Place {
    fn fmt<W: fmt::Write>(&self, f: &mut fmt::Formatter<W>) -> fmt::Result {
        match self.0 {
            Some(address) => write!(f, " {address}"),
            None => Ok(()),
        }
    }
}

/// The short name of a type in control direction that the gateway doesn't take (IEC 60870-5-101, 7.2.1; -104, 8).
fn short_name(identification: u8) -> Option<&'static str> {
    Some(match identification {
        47 => "C_RC_NA_1",
        48 => "C_SE_NA_1",
        50 => "C_SE_NC_1",
        51 => "C_BO_NA_1",
        58 => "C_SC_TA_1",
        59 => "C_DC_TA_1",
        60 => "C_RC_TA_1",
        61 => "C_SE_TA_1",
        62 => "C_SE_TB_1",
        63 => "C_SE_TC_1",
        64 => "C_BO_TA_1",
        103 => "C_CS_NA_1",
        104 => "C_TS_NA_1",
        105 => "C_RP_NA_1",
        106 => "C_CD_NA_1",
        107 => "C_TS_TA_1",
        110 => "P_ME_NA_1",
        111 => "P_ME_NB_1",
        112 => "P_ME_NC_1",
        113 => "P_AC_NA_1",
        _ => return None,
    })
}
