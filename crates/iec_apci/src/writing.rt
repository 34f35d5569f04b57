//! Writing APDUs.
ghost use Rattle.std.specs.Prelude.{◌≡◌, ◌++◌, List, ℕ, length, take, drop};
ghost use Rattle.iec_apci.specs.Apdu.{body, apdu as apdu_octets};
ghost use Rattle.iec_apci.specs.Stream.{reading, reading_with_first};
ghost use Rattle.iec_apci.specs.ApduContent.{content, IsNumbered};

use crate::apdu::{Apdu, START};

/// The control field: two numbers, the low octet of each first.
fn control_field(apdu: &Apdu) -> [u8; 4]
    requires { IsNumbered apdu.now }
    ensures { result ≡ take 4 (body (content apdu.now)) }
{
    let (first, second) = match apdu {
        Apdu::I { ns, nr, .. } => (2 * *ns, 2 * *nr),
        Apdu::S { nr } => (1, 2 * *nr),
        Apdu::U(signal) => (u16::from(*signal as u8), 0),
    };
    let [first_low, first_high] = first.to_le_bytes();
    let [second_low, second_high] = second.to_le_bytes();
    [first_low, first_high, second_low, second_high]
}

/// Writes the octets of an APDU.
fn put(apdu: &Apdu, out: &mut [u8; 255]) -> usize
    requires { IsNumbered apdu.now }
    ensures length { result ≡ length (apdu_octets (content apdu.now)) }
    ensures written { out.new ≡ apdu_octets (content apdu.now) ++ drop result out.old }
{
    let asdu: &[u8] = match apdu {
        Apdu::I { asdu, .. } => asdu.as_slice(),
        Apdu::S { .. } | Apdu::U(_) => &[],
    };
    let [a, b, c, d] = control_field(apdu);
    out[..6].copy_from_slice(&[START, 4 + asdu.len() as u8, a, b, c, d]);
    out[6..6 + asdu.len()].copy_from_slice(asdu);
    6 + asdu.len()
}

/// Writes an APDU at the front of `out`, and answers how many octets it has.
pub fn write_apdu(apdu: &Apdu, out: &mut [u8; 255]) -> usize
    requires { IsNumbered apdu.now }
    ensures length { result ≡ length (apdu_octets (content apdu.now)) }
    ensures written { out.new ≡ apdu_octets (content apdu.now) ++ drop result out.old }

    // It is read back, whatever follows it.
    ensures read_back { (behind : List ℕ)
        → reading (take result out.new ++ behind) ≡ reading_with_first (content apdu.now) (reading behind) }
{
    put(apdu, out)
}
