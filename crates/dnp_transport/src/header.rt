//! The header octet of a segment.
ghost use Rattle.std.specs.Prelude.{◌≡◌, ◌<◌, IsTrue};
ghost use Rattle.dnp_transport.specs.Segment.{is_final, is_first, sequence, carried_octets, is_whole};

/// FIN: the fragment ends with this segment.
pub fn is_final(segment: &[u8]) -> bool
    requires { IsTrue (is_whole segment.now) }
    ensures { result ≡ is_final segment.now }
{
    (segment[0] >> 7) & 1 == 1
}

/// FIR: the fragment begins with this segment.
pub fn is_first(segment: &[u8]) -> bool
    requires { IsTrue (is_whole segment.now) }
    ensures { result ≡ is_first segment.now }
{
    (segment[0] >> 6) & 1 == 1
}

/// The sequence number.
pub fn sequence(segment: &[u8]) -> u8
    requires { IsTrue (is_whole segment.now) }
    ensures value { result ≡ sequence segment.now }
    ensures below { result < 64 }
{
    segment[0] & 0x3F
}

/// The octets of the fragment that the segment carries.
pub fn carried_octets(segment: &[u8]) -> &[u8]
    requires { IsTrue (is_whole segment.now) }
    ensures { result.now ≡ carried_octets segment.now }
{
    &segment[1..]
}
