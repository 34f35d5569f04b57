//! Reading a header's objects one after the other.
ghost use Rattle.std.specs.Prelude.{◌≡◌, ◌≤◌, ◌<◌, ◌*◌, Some, length};
ghost use Rattle.dnp_objects.specs.Library.{object_of};
ghost use Rattle.dnp_points.specs.Objects.{index_of};
ghost use Rattle.dnp_points.specs.Meaning.{octets_of_objects, AreFound, Adds};

use crate::object::Object;
use crate::packed::{PackedObject, bits_at};
use dnp_objects::{Header, number};
use gw_model::{Memory, Report, Stamp};

/// The index of an object: that before it, where one stands there, and else it counts on.
fn index_of(next: u32, octets: &[u8]) -> u16
    requires next { next < 65536 }
    requires octets { length octets.now ≤ 2 }
    ensures { result ≡ index_of next octets.now }
{
    match octets {
        [] => next as u16,
        _ => number(octets) as u16,
    }
}

/// The objects of one header in a part, and what their reports need besides.
#[derive(Clone, Copy)]
pub struct Objects<'a> {
    pub header: &'a Header,
    pub part: &'a [u8],
    pub outstation: u8,
    /// The common time before them.
    pub common: Stamp,
}

impl Objects<'_> {
    /// Adds what they report, each of whole octets.
    pub fn push_whole<O: Object>(&self, found: &mut Vec<Report>) -> Result<(), Memory>
        requires known { object_of self.now.header.now.group self.now.header.now.variation ≡ Some O.variation }
        requires inside { AreFound self.now }
        ensures { Adds self.now found.old.items found.new.items result }
    {
        let header = self.header;
        let prefix = usize::from(header.prefix);
        let first = u32::from(header.first);
        let octets = header.count as usize * (prefix + O::LENGTH);
        let mut rest = &self.part[header.start..header.start + octets];
        for n in 0..header.count {
            let (index, behind) = rest.split_at(prefix);
            let (object, after) = behind.split_at(O::LENGTH);
            let index = index_of(first + n, index);
            found.push(O::report(object, self.outstation, index, self.common))?;
            rest = after;
        }
        Ok(())
    }

    /// The octets of packed objects.
    fn packed_octets<P: PackedObject>(&self) -> &[u8]
        requires known { object_of self.now.header.now.group self.now.header.now.variation ≡ Some P.variation }
        requires inside { AreFound self.now }
        ensures all { result.now ≡ octets_of_objects self.now.part.now P.variation self.now.header.now }
        ensures long { self.now.header.now.count * P.BITS ≤ 8 * length result.now }
    {
        let header = self.header;
        let octets = (header.count as usize * P::BITS + 7) / 8;
        &self.part[header.start..header.start + octets]
    }

    /// Adds what they report, packed into octets.
    pub fn push_packed<P: PackedObject>(&self, found: &mut Vec<Report>) -> Result<(), Memory>
        requires known { object_of self.now.header.now.group self.now.header.now.variation ≡ Some P.variation }
        requires inside { AreFound self.now }
        ensures { Adds self.now found.old.items found.new.items result }
    {
        let header = self.header;
        let first = u32::from(header.first);
        let width = P::BITS;
        let body = self.packed_octets::<P>();
        for n in 0..header.count {
            let state = bits_at(body, n as usize * width, width);
            let index = (first + n) as u16;
            found.push(P::report(state, self.outstation, index))?;
        }
        Ok(())
    }
}
