//! APDUs in buffers of their own.
ghost use Rattle.std.specs.Prelude.{◌≡◌, ◌++◌, List, ℕ, take};
ghost use Rattle.iec_apci.specs.Apdu.{apdu as apdu_octets};
ghost use Rattle.iec_apci.specs.Stream.{reading, reading_with_first};
ghost use Rattle.iec_apci.specs.ApduContent.{content, IsNumbered};

use crate::apdu::Apdu;
use crate::writing::write_apdu;

/// The octets of an APDU at the front of a buffer of zeros.
#[derive(Clone, Copy)]
pub struct ApduBuf {
    /// The APDU, in the first `len` octets.
    pub octets: [u8; 255],
    /// How many octets it has.
    pub len: u8,
}

impl ApduBuf {
    ghost use Rattle.iec_apci.specs.Buffer.{buffer};

    /// The octets of this APDU.
    pub fn of(apdu: &Apdu) -> ApduBuf
        requires { IsNumbered apdu.now }
        ensures octets { result ≡ buffer (apdu_octets (content apdu.now)) }

        // It is read back, whatever follows it.
        ensures read_back { (behind : List ℕ)
            → reading (take result.len result.octets ++ behind)
            ≡ reading_with_first (content apdu.now) (reading behind) }
    {
        let mut octets = [0; 255];
        let len = write_apdu(apdu, &mut octets);
        ApduBuf {
            octets,
            len: len as u8,
        }
    }

    /// The octets, without the zeros behind them.
    pub fn as_slice(&self) -> &[u8]
        ensures { result.now ≡ take self.now.len self.now.octets }
    {
        &self.octets[..usize::from(self.len)]
    }
}
