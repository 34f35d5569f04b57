//! The lines that are judged.

use crate::virtual_clock::VirtualClock;
use run_clock::Clock;
use std::alloc::{AllocError, Global};
use std::cell::RefCell;
use std::io::{self, Write};

/// How many octets are written at once.
const AT_ONCE: usize = 60_000;

/// The most digits of a number.
const DIGITS: usize = 20;

/// The lines that weren't written yet.
#[derive(Drop)]
pub struct Log<'a> {
    clock: &'a VirtualClock,
    text: RefCell<Vec<u8>>,
}

impl<'a> Log<'a> {
    /// None.
    pub fn new(alloc: Global, clock: &'a VirtualClock) -> Log<'a> {
        Log {
            clock,
            text: RefCell::new(Vec::new(alloc)),
        }
    }

    /// Adds a line: the moment, a word, and numbers.
    pub fn add(&self, word: &str, numbers: &[u64]) {
        if let Ok(mut text) = self.text.try_borrow_mut() {
            let _ = push_line(&mut text, self.clock.moment(), word, numbers);
        }
    }

    /// Writes the lines, if they are many.
    pub fn write_many<W: Write>(&self, writer: &mut W) -> io::Result<()> {
        self.write_if(writer, AT_ONCE)
    }

    /// Writes the lines.
    pub fn write<W: Write>(&self, writer: &mut W) -> io::Result<()> {
        self.write_if(writer, 1)
    }

    /// Writes the lines, if they have so many octets.
    fn write_if<W: Write>(&self, writer: &mut W, least: usize) -> io::Result<()> {
        if let Ok(mut text) = self.text.try_borrow_mut() {
            if text.len() >= least {
                writer.write_all(text.as_slice())?;
                text.clear();
            }
        }
        Ok(())
    }
}

/// Adds a line to a text.
fn push_line(
    text: &mut Vec<u8>,
    moment: u64,
    word: &str,
    numbers: &[u64],
) -> Result<(), AllocError> {
    push_number(text, moment)?;
    text.push(b' ')?;
    text.extend_from_slice(word.as_bytes())?;
    for number in numbers {
        text.push(b' ')?;
        push_number(text, *number)?;
    }
    text.push(b'\n')?;
    Ok(())
}

/// Adds the digits of a number to a text.
fn push_number(text: &mut Vec<u8>, number: u64) -> Result<(), AllocError> {
    let mut digits = [b'0'; DIGITS];
    let mut used: usize = 0;
    let mut rest = number;
    for digit in digits.iter_mut().rev() {
        *digit = digit_of(rest);
        rest /= 10;
        used = used.saturating_add(1);
        if rest == 0 {
            break;
        }
    }
    text.extend_from_slice(&digits[DIGITS.saturating_sub(used)..])
}

/// The last digit of a number.
fn digit_of(number: u64) -> u8 {
    b'0' + (number % 10) as u8
}
