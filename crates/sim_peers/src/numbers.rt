//! Numbers that a seed draws.

use crate::log::Log;
use crate::random::Random;

/// What a number is called, its least and its largest value, and how often in a thousand it is 0 instead.
pub type Range = (&'static str, u64, u64, u64);

/// How many numbers there are at most.
const MOST: usize = 40;

/// Numbers, each from its range, of which there are forty at most. (The ranges are handed in again, so that no type names the time
/// for which they live.)
#[derive(Clone, Copy)]
pub struct Numbers {
    values: [u64; MOST],
}

impl Numbers {
    /// Those that are drawn.
    pub fn draw(ranges: &[Range], random: &mut Random) -> Numbers {
        let mut values = [0; MOST];
        for (value, (_, least, most, zero)) in values.iter_mut().zip(ranges) {
            let drawn = random.between(*least, *most);
            *value = if random.happens(*zero) { 0 } else { drawn };
        }
        Numbers { values }
    }

    /// The word `NAME=NUMBER` gives the number of that name its value; whether there is one.
    pub fn force(&mut self, ranges: &[Range], word: &str) -> bool {
        self.try_force(ranges, word).is_some()
    }

    fn try_force(&mut self, ranges: &[Range], word: &str) -> Option<()> {
        let (name, number) = word.split_once('=')?;
        let forced = number.parse::<u64>().ok()?;
        let position = ranges.iter().position(|(known, ..)| *known == name)?;
        self.set(position, forced);
        Some(())
    }

    /// The number at a position.
    pub fn at(&self, position: usize) -> u64 {
        self.values.get(position).copied().unwrap_or(0)
    }

    /// The number at a position has this value.
    pub fn set(&mut self, position: usize, value: u64) {
        if let Some(number) = self.values.get_mut(position) {
            *number = value;
        }
    }

    /// Tells them.
    pub fn tell(&self, ranges: &[Range], log: &Log<'_>) {
        for (value, (name, ..)) in self.values.iter().zip(ranges) {
            log.add(*name, &[*value]);
        }
    }
}
