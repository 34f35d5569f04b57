//! Octets as text: two hexadecimal digits each, with one space between two octets.
ghost use Rattle.std.specs.Prelude.{◌≡◌, ◌*◌, ◌<◌, ◌≤◌, ◌++◌, [], IfOk, IfSome, OnOk, ℕ, List};
ghost use Rattle.std.specs.Prelude.{◌+◌, length, take, Some, None, vec_capacity, if◌then◌else◌};
ghost use Rattle.std.specs.Option.{option_map};
ghost use Rattle.cmd_text.specs.Hex.{digit, line_octets, octet, octets_of, spaced_digits, upper_digit};

use gw_model::Memory;
use std::alloc::Global;

/// The most octets that a line may spell.
const MOST_OCTETS: usize = 2048;

/// The value of a hexadecimal digit, in either case.
fn digit_value(character: u8) -> Option<u8>
    ensures { result ≡ digit character }
{
    match character {
        b'0'..=b'9' => Some(character - b'0'),
        b'A'..=b'F' => Some(character - b'A' + 10),
        b'a'..=b'f' => Some(character - b'a' + 10),
        _ => None,
    }
}

/// The octet of two digits.
fn octet_value(high: u8, low: u8) -> Option<u8>
    ensures { result ≡ octet high low }
{
    match (digit_value(high), digit_value(low)) {
        (Some(high), Some(low)) => Some(high * 16 + low),
        _ => None,
    }
}

/// The longest line that can be right: 2,048 octets.
pub const LONGEST_LINE: usize = 3 * MOST_OCTETS - 1;

/// Reads the octets that a text is into a vector that has room for them; false where it is none.
fn fill(octets: &mut Vec<u8>, text: &[u8]) -> bool
    requires empty { octets.old.items ≡ [] }
    requires room { length text.now ≤ 3 * vec_capacity octets.old }
    ensures { octets_of text.now ≡ (if result then Some octets.new.items else None) }
{
    let mut rest = text;
    loop {
        if rest.len() < 2 {
            return false;
        }
        let Some(octet) = octet_value(rest[0], rest[1]) else {
            return false;
        };
        octets.push_reserved(octet);
        if rest.len() == 2 {
            return true;
        }
        if rest[2] != b' ' {
            return false;
        }
        let (_, after) = rest.split_at(3);
        rest = after;
    }
}

/// The octets that a line is, or none where it is no such text or has more than 2,048 octets.
pub fn line_octets(alloc: Global, line: &[u8]) -> Result<Option<Vec<u8>>, Memory>
    ensures octets { IfOk result (λ found. option_map (λ v. v.items) found ≡ line_octets line.now) }
    ensures few { IfOk result (λ found. IfSome found (λ v. length v.items ≤ 2048)) }
{
    if line.len() > LONGEST_LINE {
        return Ok(None);
    }
    let mut octets = Vec::with_capacity(alloc, line.len() / 3 + 1)?;
    if fill(&mut octets, line) {
        Ok(Some(octets))
    } else {
        Ok(None)
    }
}

/// What is kept of a line decides which octets the line is, where that is one octet more than the longest line that
/// can be right.
pub fn kept_is_enough()
    ensures { (line : List ℕ) → line_octets (take (LONGEST_LINE + 1) line) ≡ line_octets line }
{}

/// Writes octets as text, each after a space, in upper case.
pub fn push_spaced(text: &mut Vec<u8>, octets: &[u8]) -> Result<(), Memory>
    ensures { OnOk result (text.new.items ≡ text.old.items ++ spaced_digits octets.now) }
{
    for octet in octets {
        text.extend_from_slice(&[b' ', upper(*octet / 16), upper(*octet % 16)])?;
    }
    Ok(())
}

/// The digit of a value below 16, in upper case.
fn upper(value: u8) -> u8
    requires { value < 16 }
    ensures { result ≡ upper_digit value }
{
    if value < 10 {
        b'0' + value
    } else {
        b'A' - 10 + value
    }
}
