//! The objects that a response steps over.
ghost use Rattle.std.specs.Prelude.{◌≡◌, ◌≤◌, length};
ghost use Rattle.dnp_app.specs.SteppedOver.{is_stepped_over, stepped_over_count};

use dnp_objects::{Header, length_of};

/// Whether the objects of a variation are stepped over.
#[tactic(auto, unfolding(dnp_objects::specs::Library::object_of))]
fn is_stepped_over(group: u8, variation: u8) -> bool
    ensures { result ≡ is_stepped_over group variation }
{
    match group {
        // Events of commands, frozen counters, analog output status with its events, and octet strings.
        13 | 21 | 23 | 40 | 42 | 110 | 111 => length_of(group, variation).is_some(),
        // Analog inputs in floating point, and their events.
        30 => variation == 5 || variation == 6,
        32 => (5..=8).contains(&variation),
        _ => false,
    }
}

/// How many objects under these headers are stepped over.
pub fn count_stepped_over(headers: &[Header]) -> usize
    requires { length headers.now ≤ 512 }
    ensures { result ≡ stepped_over_count headers.now }
{
    headers
        .iter()
        .filter(|header| is_stepped_over(header.group, header.variation))
        .map(|header| header.count as usize)
        .sum()
}
