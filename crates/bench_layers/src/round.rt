//! APDUs written into octets, and read back from these in pieces.
ghost use Rattle.std.specs.Prelude.{◌≤◌};
ghost use Rattle.iec_apci.specs.ApduContent.{IsNumbered};

use gw_model::Memory;
use iec_apci::{Apdu, ApduFeed, Asdu, write_apdu};
use std::alloc::Global;
use std::fmt;

/// How many APDUs are written before they are read back.
const BATCH: u32 = 1_000;
/// How many octets a feed is given at once: what a segment of TCP carries on an Ethernet.
const PIECE: usize = 1_460;

/// What is to be written and read back.
#[derive(Clone, Copy)]
pub struct Load {
    /// How many APDUs.
    pub count: u32,
    /// How many octets the ASDU of an I format has.
    pub length: u8,
    ghost fits: { length ≤ 249 },
}

/// What came back.
#[derive(Clone, Copy)]
pub struct Tally {
    /// How many APDUs.
    apdus: u64,
    /// How many octets their ASDUs have.
    octets: u64,
    /// The sum of all N(S), all N(R) and the last octet of each ASDU.
    sum: u64,
}

impl Tally {
    fn add(&mut self, apdu: &Apdu) {
        self.apdus = self.apdus.wrapping_add(1);
        let (numbers, asdu): (u64, &[u8]) = match apdu {
            Apdu::I { ns, nr, asdu } => (u64::from(*ns) + u64::from(*nr), asdu.as_slice()),
            Apdu::S { nr } => (u64::from(*nr), &[]),
            Apdu::U(_) => (0, &[]),
        };
        let last = asdu.last().copied().unwrap_or(0);
        self.octets = self.octets.wrapping_add(asdu.len() as u64);
        self.sum = self.sum.wrapping_add(numbers).wrapping_add(u64::from(last));
    }
}

impl fmt::Display for Tally {
    fn fmt<W: fmt::Write>(&self, f: &mut fmt::Formatter<W>) -> fmt::Result {
        write!(
            f,
            "{} APDUs with {} octets, sum {}",
            self.apdus, self.octets, self.sum
        )
    }
}

/// The APDU at this place of the stream.
fn apdu_at(place: u32, asdu: &Asdu) -> Apdu
    ensures { IsNumbered result }
{
    let nr = (place / 2 % 32_768) as u16;
    if place % 8 == 7 {
        return Apdu::S { nr };
    }
    Apdu::I {
        ns: (place % 32_768) as u16,
        nr,
        asdu: *asdu,
    }
}

/// Writes the APDUs at these places, in place of what the octets were.
fn write_batch(octets: &mut Vec<u8>, first: u32, end: u32, asdu: &Asdu) -> Result<(), Memory> {
    let mut out = [0; 255];
    octets.clear();
    for place in first..end {
        let length = write_apdu(&apdu_at(place, asdu), &mut out);
        octets.extend_from_slice(&out[..length])?;
    }
    Ok(())
}

/// Counts the APDUs that a feed shows.
fn read_batch(feed: &mut ApduFeed, tally: &mut Tally) {
    for _ in 0..u64::MAX {
        let Some(answer) = feed.next() else {
            return;
        };
        match answer {
            Ok(apdu) => tally.add(&apdu),
            Err(_) => return,
        }
    }
}

/// Writes APDUs and reads them back.
pub fn round(alloc: Global, load: Load) -> Result<Tally, Memory> {
    let mut asdu = Asdu {
        octets: [0; 249],
        len: load.length,
    };
    for (octet, value) in asdu.octets.iter_mut().zip(1..=249u8) {
        *octet = value;
    }
    let mut octets = Vec::new(alloc);
    let mut feed = ApduFeed::new(alloc);
    let mut tally = Tally {
        apdus: 0,
        octets: 0,
        sum: 0,
    };
    let mut first = 0;
    while first < load.count {
        let end = first + BATCH.min(load.count - first);
        write_batch(&mut octets, first, end, &asdu)?;
        for piece in octets.chunks(PIECE) {
            feed.feed(piece)?;
            read_batch(&mut feed, &mut tally);
        }
        first = end;
    }
    Ok(tally)
}
