//! Frames of the link that no outstation sends to its master.

use crate::counted::AndMore;
use std::fmt;

/// The bit DIR of a CONTROL octet: the frame is one of a master to an outstation.
const DIRECTION: u8 = 0x80;

/// The bit PRM of a CONTROL octet: the frame is one of a primary station to a secondary one.
const PRIMARY: u8 = 0x40;

/// From which link address to which a frame goes.
#[derive(Clone, Copy)]
pub struct Way {
    pub source: u16,
    pub destination: u16,
}

/// Why a frame of the link is none of an outstation to its master (IEEE Std 1815-2012, clause 9.2.4). Where several reasons
/// hold, the first one is told.
#[derive(Clone, Copy)]
pub enum StrayFrame {
    /// DIR is 1: the frame goes in the direction of an outstation.
    ToOutstation(Way),
    /// A link address is another one than the settings say.
    OtherWay {
        /// The way of the frame.
        way: Way,
        /// That of frames of the outstation to its master.
        expected: Way,
    },
    /// PRM isn't what this function goes with.
    WrongPrimary {
        /// The function code.
        function: u8,
        /// PRM, as it came.
        is_primary: bool,
    },
}

/// Stray frames that are due to be told.
#[derive(Clone, Copy)]
pub struct StrayFrames {
    /// The last one.
    pub last: StrayFrame,
    /// How many came before it and weren't told.
    pub left_out: u64,
}

impl StrayFrame {
    /// Why a frame with this CONTROL octet on this way is none of an outstation whose frames go the expected way; nothing
    /// where it is one.
    pub fn of(control: u8, way: Way, expected: Way) -> Option<StrayFrame> {
        if control & DIRECTION != 0 {
            return Some(StrayFrame::ToOutstation(way));
        }
        if way.source != expected.source || way.destination != expected.destination {
            return Some(StrayFrame::OtherWay { way, expected });
        }
        let (function, is_primary) = (control % 16, control & PRIMARY != 0);
        if fits(function, is_primary) {
            None
        } else {
            Some(StrayFrame::WrongPrimary {
                function,
                is_primary,
            })
        }
    }
}

/// Whether a frame of this function may have this PRM.
fn fits(function: u8, is_primary: bool) -> bool {
    match function {
        // RESET_LINK_STATES and ACK; a function that is out of use and NACK.
        0 | 1 => true,
        // LINK_STATUS, NOT_SUPPORTED
        11 | 15 => !is_primary,
        // Functions of primary stations, and those that nobody has, which a secondary station answers by NOT_SUPPORTED.
        _ => is_primary,
    }
}

impl fmt::Display for StrayFrames {
    fn fmt<W: fmt::Write>(&self, f: &mut fmt::Formatter<W>) -> fmt::Result {
        let more = AndMore(self.left_out);
        match self.last {
            StrayFrame::ToOutstation(way) => write_to_outstation(f, way, more),
            StrayFrame::OtherWay { way, expected } => write_other_way(f, way, expected, more),
            StrayFrame::WrongPrimary {
                function,
                is_primary,
            } => write_wrong_primary(f, function, is_primary, more),
        }
    }
}

/// Writes that a frame went in the direction of an outstation.
fn write_to_outstation<W: fmt::Write>(
    f: &mut fmt::Formatter<W>,
    way: Way,
    more: AndMore,
) -> fmt::Result {
    let Way {
        source,
        destination,
    } = way;
    write!(
        f,
        "a frame from link address {source} to {destination} came in the direction of an outstation (DIR 1){more}; \
         the peer is a master, or sends back what it gets"
    )
}

/// Writes that a frame had another link address.
fn write_other_way<W: fmt::Write>(
    f: &mut fmt::Formatter<W>,
    way: Way,
    expected: Way,
    more: AndMore,
) -> fmt::Result {
    write!(
        f,
        "a frame from link address {} to {} came{more}; from {} to {} is expected",
        way.source, way.destination, expected.source, expected.destination
    )
}

/// Writes that PRM of a frame doesn't fit its function.
fn write_wrong_primary<W: fmt::Write>(
    f: &mut fmt::Formatter<W>,
    function: u8,
    is_primary: bool,
    more: AndMore,
) -> fmt::Result {
    let (came, expected) = if is_primary { (1, 0) } else { (0, 1) };
    write!(
        f,
        "a frame of function {function} with PRM {came} came{more}; PRM {expected} is expected"
    )
}
