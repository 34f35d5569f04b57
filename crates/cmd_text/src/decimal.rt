//! Numbers in decimal digits, leading zeros allowed.
ghost use Rattle.std.specs.Prelude.{◌≡◌, ◌^◌, [], ◌∷◌};
ghost use Rattle.cmd_text.specs.Decimal.{if_below, decimal_after, number};

/// The number of 64 bits that a text is.
pub fn number_64(text: &[u8]) -> Option<u64>
    ensures { result ≡ number (2 ^ 64) text.now }
{
    if text.is_empty() {
        return None;
    }
    let mut value: u64 = 0;
    for character in text {
        value = with_digit(value, *character)?;
    }
    Some(value)
}

/// A number with one digit more.
fn with_digit(value: u64, character: u8) -> Option<u64>
    ensures { result ≡ if_below (2 ^ 64) (decimal_after value (character ∷ [])) }
{
    if !character.is_ascii_digit() {
        return None;
    }
    value
        .checked_mul(10)?
        .checked_add(u64::from(character - b'0'))
}

/// The number of 8 bits that a text is.
pub fn number_8(text: &[u8]) -> Option<u8>
    ensures { result ≡ number (2 ^ 8) text.now }
{
    u8::try_from(number_64(text)?).ok()
}
