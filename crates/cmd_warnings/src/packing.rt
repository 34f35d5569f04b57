//! How many ASDUs points fill that are told one behind the other without time: each goes with those in front as long as one
//! ASDU carries them (IEC 60870-5-101, 7.2.2).

use cmd_profile::{Row, Show};

/// What decides with which others a point of an outstation goes: the type by which it is shown, and its address.
#[derive(Clone, Copy)]
pub(crate) struct PointPlace {
    show: Show,
    address: u32,
}

impl PointPlace {
    /// That of a row.
    pub(crate) fn of(row: &Row) -> PointPlace {
        PointPlace {
            show: row.show,
            address: row.address,
        }
    }

    /// The identification of its type without time, and its address: by these points are sorted.
    pub(crate) fn rank(&self) -> (u8, u32) {
        (identification(self.show), self.address)
    }
}

/// The type without time by which points are shown (IEC 60870-5-101, 7.2.1.1).
fn identification(show: Show) -> u8 {
    match show {
        Show::Single => 1,
        Show::Double => 3,
        Show::Word => 7,
        Show::Scaled => 11,
        Show::Total => 15,
    }
}

/// How many objects of a type one ASDU carries, of whose 249 octets the header has six: each with its address of three
/// octets (SQ 0).
fn room_apart(show: Show) -> usize {
    match show {
        Show::Single | Show::Double => 60,
        Show::Scaled => 40,
        Show::Word | Show::Total => 30,
    }
}

/// How many it carries at consecutive addresses, behind one of them (SQ 1): 127 is the most that it can tell.
fn room_in_sequence(show: Show) -> usize {
    match show {
        Show::Single | Show::Double => 127,
        Show::Scaled => 80,
        Show::Word | Show::Total => 48,
    }
}

/// An ASDU that is filled point by point.
#[derive(Clone, Copy)]
struct FilledAsdu {
    last: PointPlace,
    count: usize,
    /// All of its points stand at consecutive addresses.
    is_sequence: bool,
}

impl FilledAsdu {
    /// With one point.
    fn of(point: PointPlace) -> FilledAsdu {
        FilledAsdu {
            last: point,
            count: 1,
            is_sequence: true,
        }
    }

    /// With one more point, if that goes with the others.
    fn with(self, point: PointPlace) -> Option<FilledAsdu> {
        let is_next = u64::from(point.address) == u64::from(self.last.address) + 1;
        let is_sequence = self.is_sequence && is_next;
        let room = if is_sequence {
            room_in_sequence(self.last.show)
        } else {
            room_apart(self.last.show)
        };
        if point.show != self.last.show || self.count >= room {
            return None;
        }
        Some(FilledAsdu {
            last: point,
            count: self.count + 1,
            is_sequence,
        })
    }
}

/// How many ASDUs points of one common address fill, in their order.
pub(crate) fn count_asdus(points: &[PointPlace]) -> usize {
    let Some((first, others)) = points.split_first() else {
        return 0;
    };
    let mut asdus = 1;
    let mut filled = FilledAsdu::of(*first);
    for point in others {
        match filled.with(*point) {
            Some(more) => filled = more,
            None => {
                filled = FilledAsdu::of(*point);
                asdus += 1;
            }
        }
    }
    asdus
}
