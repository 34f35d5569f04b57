//! Why a fragment of an outstation couldn't be read.

use dnp_app::AppFault;
use dnp_objects::{HeaderFault, ObjectFault};
use std::fmt;
use thiserror::Error;

/// How many octets stand before the object part of a response.
const BEFORE_OBJECTS: usize = 4;

/// Why a fragment couldn't be read, with what of its octets tells an operator where. Places are counted in its object
/// part, from 0.
#[derive(Clone, Copy, Debug, Error)]
pub enum Unreadable {
    /// It has fewer than four octets.
    #[error("fewer than four octets")]
    Short,
    /// Its function is neither 129 (response) nor 130 (unsolicited response).
    #[error("function {function}, which is no response")]
    NotResponse {
        /// Its function.
        function: u8,
    },
    /// An object header is too short to name an object and a qualifier.
    #[error("a header of fewer than three octets at {place}")]
    ShortHeader {
        /// Where the header begins.
        place: usize,
    },
    /// An object header, or its objects, can't be read.
    #[error("group {group} variation {variation} at {place} {}", Why(*.why, *.qualifier))]
    Object {
        /// The object group.
        group: u8,
        /// The variation of the group.
        variation: u8,
        /// The qualifier.
        qualifier: u8,
        /// Where the header begins.
        place: usize,
        /// What is wrong.
        why: HeaderFault,
    },
    /// Memory ran out.
    #[error("no memory")]
    Memory,
}

impl Unreadable {
    /// Why a fragment of these octets was refused.
    pub fn of(fault: &AppFault, octets: &[u8]) -> Unreadable {
        match *fault {
            AppFault::Short => Unreadable::Short,
            AppFault::NotResponse => match octets.get(1) {
                Some(function) => Unreadable::NotResponse {
                    function: *function,
                },
                None => Unreadable::Short,
            },
            AppFault::Object(fault) => Unreadable::of_object(fault, octets),
            AppFault::Memory => Unreadable::Memory,
        }
    }

    /// Why the object part of a fragment of these octets was refused.
    fn of_object(fault: ObjectFault, octets: &[u8]) -> Unreadable {
        let place = fault.place;
        match octets.get(place.saturating_add(BEFORE_OBJECTS)..) {
            Some([group, variation, qualifier, ..]) => Unreadable::Object {
                group: *group,
                variation: *variation,
                qualifier: *qualifier,
                place,
                why: fault.why,
            },
            _ => Unreadable::ShortHeader { place },
        }
    }
}

/// What is wrong with an object header of some qualifier, or its objects.
#[derive(Clone, Copy)]
struct Why(HeaderFault, u8);

impl fmt::Display for Why {
    fn fmt<W: fmt::Write>(&self, f: &mut fmt::Formatter<W>) -> fmt::Result {
        let Why(why, qualifier) = *self;
        let words = match why {
            HeaderFault::UnknownObject => "is unknown",
            HeaderFault::UnknownQualifier => return write!(f, "has qualifier 0x{qualifier:02X}"),
            HeaderFault::ShortRange => "is cut off in its range",
            HeaderFault::StopBeforeStart => "stops before it starts",
            HeaderFault::ShortData => "is cut off in its objects",
            HeaderFault::TooMany => "comes after 512 other headers",
            HeaderFault::Memory => "finds no memory",
        };
        f.write_str(words)
    }
}
