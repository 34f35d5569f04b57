//! Numbers in an object part.
ghost use Rattle.std.specs.Prelude.{◌≡◌, ◌≤◌, ◌<◌, ◌^◌, length};
ghost use Rattle.dnp_objects.specs.Headers.{number};

/// The number that octets give, low octet first (IEEE Std 1815, Annex A): at most eight octets.
#[inline]
pub fn number(octets: &[u8]) -> u64
    requires { length octets.now ≤ 8 }
    ensures value { result ≡ number octets.now }
    ensures small { result < 256 ^ length octets.now }
{
    let mut value = 0;
    for i in (0..octets.len()).rev() {
        value = 256 * value + u64::from(octets[i]);
    }
    value
}
