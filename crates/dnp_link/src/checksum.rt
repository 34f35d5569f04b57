//! The CRC that guards the blocks of a frame.
ghost use Rattle.std.specs.Prelude.{◌≡◌, List, ℕ, ◌++◌, ◌∷◌, []};
ghost use Rattle.dnp_link.specs.Crc.{crc_of, message, number};
ghost use Rattle.dnp_link.specs.Polynomial.{remainder};

use crate::table::TABLE;

/// The CRC of octets (IEEE Std 1815-2012, clause 9), transmitted low octet first.
#[tactic(auto, unfolding(crate::specs::Crc::crc_of, crate::specs::Polynomial::remainder, crate::specs::Polynomial::long_division))]
pub fn crc(octets: &[u8]) -> u16
    ensures { result ≡ crc_of octets.now }
{
    let mut register = 0;
    for octet in octets {
        register = shift(register, *octet);
    }
    !register
}

/// The register after one more octet.
#[inline(always)]
fn shift(register: u16, octet: u8) -> u16
    ensures { (before : List ℕ) → register ≡ number (remainder (message before))
        → result ≡ number (remainder (message (before ++ octet ∷ []))) }
{
    (register >> 8) ^ TABLE[((register ^ u16::from(octet)) & 0xFF) as usize]
}
