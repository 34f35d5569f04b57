//! Answers that are a command's own octets with another cause of transmission.
ghost use Rattle.std.specs.Prelude.{◌≡◌, ◌≤◌, ◌<◌, length, take, drop};
ghost use Rattle.iec_command.specs.Commands.{mirrored};

use crate::command::cause_octet;

/// Where the octet of the cause of transmission stands in an ASDU (IEC 60870-5-101, 7.1).
const CAUSE: usize = 2;

/// Writes the same ASDU with this cause and P/N at the front of `out`, and answers how many octets it has.
/// T is kept, whatever else the octets are.
pub fn mirror(octets: &[u8], cause: u8, negative: bool, out: &mut [u8; 249]) -> usize
    requires header { 6 ≤ length octets.now }
    requires fits { length octets.now ≤ 249 }
    requires cause { cause < 64 }
    ensures length { result ≡ length octets.now }
    ensures mirrored { take result out.new ≡ mirrored cause negative octets.now }
    ensures rest { drop result out.new ≡ drop result out.old }
{
    let test = octets[CAUSE] / 128 % 2 == 1;
    out[..octets.len()].copy_from_slice(octets);
    out[CAUSE] = cause_octet(cause, negative, test);
    octets.len()
}
