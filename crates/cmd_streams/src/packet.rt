//! IPv4 packets with a TCP segment.

use gw_model::Memory;
use std::alloc::Global;

/// Flags of a segment.
pub const FIN: u8 = 0x01;

pub const SYN: u8 = 0x02;

pub const PSH: u8 = 0x08;

pub const ACK: u8 = 0x10;

/// The options of a segment that begins a connection: at most 1,460 octets a segment, and a window of 2^14 times the field, so
/// that it is never full.
const OPTIONS: [u8; 8] = [2, 4, 0x05, 0xB4, 1, 3, 3, 14];

/// How many octets a header has without options.
const HEADER: u16 = 20;

/// The protocol number of TCP.
const TCP: u8 = 6;

/// One end of a connection.
#[derive(Clone, Copy)]
pub struct End {
    pub address: [u8; 4],
    pub port: u16,
}

/// What a segment says.
#[derive(Clone, Copy)]
pub struct Segment<'a> {
    pub from: End,
    pub to: End,
    pub sequence: u32,
    pub acknowledged: u32,
    pub flags: u8,
    pub payload: &'a [u8],
}

impl<'a> Segment<'a> {
    /// The packet that carries it.
    pub fn packet(&self, alloc: Global) -> Result<Vec<u8>, Memory> {
        let header = self.ip_header(complement(words(0, &self.ip_header(0))));
        let mut packet = Vec::from_slice(alloc, header.as_slice())?;
        packet.extend_from_slice(&self.tcp_header(self.tcp_checksum()))?;
        packet.extend_from_slice(self.options())?;
        packet.extend_from_slice(self.payload)?;
        Ok(packet)
    }

    fn options(&self) -> &'static [u8] {
        if self.flags & SYN == 0 { &[] } else { &OPTIONS }
    }

    /// How many octets the segment has.
    fn length(&self) -> u16 {
        let behind = self.options().len().saturating_add(self.payload.len());
        u16::try_from(behind)
            .unwrap_or(u16::MAX)
            .saturating_add(HEADER)
    }

    fn ip_header(&self, checksum: u16) -> [u8; 20] {
        let [length_high, length_low] = self.length().saturating_add(HEADER).to_be_bytes();
        let [check_high, check_low] = checksum.to_be_bytes();
        let ([a, b, c, d], [e, f, g, h]) = (self.from.address, self.to.address);
        [
            0x45,
            0,
            length_high,
            length_low,
            0,
            0,
            0x40,
            0,
            64,
            TCP,
            check_high,
            check_low,
            a,
            b,
            c,
            d,
            e,
            f,
            g,
            h,
        ]
    }

    fn tcp_header(&self, checksum: u16) -> [u8; 20] {
        let [from_high, from_low] = self.from.port.to_be_bytes();
        let [to_high, to_low] = self.to.port.to_be_bytes();
        let [a, b, c, d] = self.sequence.to_be_bytes();
        let [e, f, g, h] = self.acknowledged.to_be_bytes();
        let words = if self.options().is_empty() {
            0x50
        } else {
            0x70
        };
        let [check_high, check_low] = checksum.to_be_bytes();
        [
            from_high, from_low, to_high, to_low, a, b, c, d, e, f, g, h, words, self.flags, 0xFF,
            0xFF, check_high, check_low, 0, 0,
        ]
    }

    /// The checksum of the segment with its addresses, protocol and length.
    fn tcp_checksum(&self) -> u16 {
        let [high, low] = self.length().to_be_bytes();
        let sum = words(0, &self.from.address);
        let sum = words(sum, &self.to.address);
        let sum = words(sum, &[0, TCP, high, low]);
        let sum = words(sum, &self.tcp_header(0));
        let sum = words(sum, self.options());
        complement(words(sum, self.payload))
    }
}

/// A sum with the words of 16 bits that octets are, in one's complement; behind an odd one stands 0.
fn words(sum: u16, octets: &[u8]) -> u16 {
    let mut sum = sum;
    for pair in octets.chunks(2) {
        sum = sum_of(sum, word(pair));
    }
    sum
}

/// The word that one or two octets are.
fn word(pair: &[u8]) -> u16 {
    match pair {
        [high, low] => u16::from_be_bytes([*high, *low]),
        [high] => u16::from_be_bytes([*high, 0]),
        _ => 0,
    }
}

/// The sum of two words in one's complement.
fn sum_of(one: u16, other: u16) -> u16 {
    let sum = one.wrapping_add(other);
    sum.wrapping_add(u16::from(sum < one))
}

fn complement(sum: u16) -> u16 {
    !sum
}
