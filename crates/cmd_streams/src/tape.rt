//! The octets of a capture file, in the format pcap: little endian, times in microseconds, IP packets without a link layer.

use gw_model::Memory;
use std::alloc::Global;

/// The front of the file: the magic number 0xA1B2C3D4, version 2.4, no zone and no accuracy, 65,535 as the most octets of a
/// packet, and 101: each packet begins with its IP header.
const FRONT: [[u8; 4]; 6] = [
    [0xD4, 0xC3, 0xB2, 0xA1],
    [2, 0, 4, 0],
    [0; 4],
    [0; 4],
    [0xFF, 0xFF, 0, 0],
    [101, 0, 0, 0],
];

/// A moment of the record, and what the wall clock showed then, in milliseconds.
#[derive(Clone, Copy)]
struct Wall {
    moment: u64,
    wall: u64,
}

impl Wall {
    /// That of a record without a poll, whose times count from 1970 on.
    const UNKNOWN: Wall = Wall { moment: 0, wall: 0 };

    /// What the wall clock shows at a moment.
    fn at(self, moment: u64) -> u64 {
        if moment < self.moment {
            self.wall.saturating_sub(self.moment - moment)
        } else {
            self.wall.saturating_add(moment - self.moment)
        }
    }
}

/// A packet whose time isn't known yet.
#[derive(Drop)]
struct Held {
    moment: u64,
    packet: Vec<u8>,
}

/// The octets of the file that weren't taken yet. Packets before the first poll are held until that tells the time.
#[derive(Drop)]
pub struct Tape {
    alloc: Global,
    octets: Vec<u8>,
    held: Vec<Held>,
    wall: Option<Wall>,
    packets: u64,
}

impl Tape {
    /// A file without packets.
    pub fn new(alloc: Global) -> Result<Tape, Memory> {
        let mut octets = Vec::new(alloc);
        for field in FRONT {
            octets.extend_from_slice(&field)?;
        }
        Ok(Tape {
            alloc,
            octets,
            held: Vec::new(alloc),
            wall: None,
            packets: 0,
        })
    }

    /// Where memory comes from.
    pub fn alloc(&self) -> Global {
        self.alloc
    }

    /// How many packets there are.
    pub fn packets(&self) -> u64 {
        self.packets
    }

    /// Adds a packet of a moment.
    pub fn put(&mut self, moment: u64, packet: Vec<u8>) -> Result<(), Memory> {
        self.packets = self.packets.saturating_add(1);
        match self.wall {
            Some(wall) => push_packet(&mut self.octets, wall.at(moment), packet.as_slice()),
            None => {
                self.held.push(Held { moment, packet })?;
                Ok(())
            }
        }
    }

    /// Takes note of what the wall clock shows at a moment.
    pub fn tell_wall(&mut self, moment: u64, wall: u64) -> Result<(), Memory> {
        self.set(Wall { moment, wall })
    }

    /// Ends the file.
    pub fn end(&mut self) -> Result<(), Memory> {
        self.set(self.wall.unwrap_or(Wall::UNKNOWN))
    }

    /// From now on this is what the wall clock shows, and it was so before the first time that this is told.
    fn set(&mut self, wall: Wall) -> Result<(), Memory> {
        self.wall = Some(wall);
        for held in &self.held {
            push_packet(
                &mut self.octets,
                wall.at(held.moment),
                held.packet.as_slice(),
            )?;
        }
        self.held.clear();
        Ok(())
    }

    /// The octets that are ready.
    pub fn ready(&self) -> &[u8] {
        self.octets.as_slice()
    }

    /// Those were written.
    pub fn clear(&mut self) {
        self.octets.clear();
    }
}

/// Adds a packet: when it was, in seconds and microseconds, how many octets it has, twice, and these.
fn push_packet(octets: &mut Vec<u8>, wall: u64, packet: &[u8]) -> Result<(), Memory> {
    let seconds = narrow(wall / 1000);
    let microseconds = narrow(wall % 1000 * 1000);
    let length = narrow(packet.len() as u64);
    for field in [seconds, microseconds, length, length] {
        octets.extend_from_slice(&field.to_le_bytes())?;
    }
    octets.extend_from_slice(packet)?;
    Ok(())
}

/// A number as a field has it, or the largest one.
fn narrow(number: u64) -> u32 {
    u32::try_from(number).unwrap_or(u32::MAX)
}
