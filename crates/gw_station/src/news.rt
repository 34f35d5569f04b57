//! News that go out together.
ghost use Rattle.std.specs.Prelude.{◌≡◌, ◌+◌, ◌<◌, ◌≤◌, ◌++◌, length, take};
ghost use Rattle.gw_map.specs.Settings.{station_clocks};
ghost use Rattle.iec_asdu.specs.Packing.{taken_of};
ghost use Rattle.gw_answers.specs.Octets.{octets_in, packed_octets};

use gw_answers::{PackedAsdu, pack};
use gw_map::Settings;
use gw_model::Observation;
use iec_asdu::SPONTANEOUS;

/// How many observations an ASDU carries at most (IEC 60870-5-101, 7.2.2).
pub(crate) const MOST_PACKED: usize = 127;

/// The ASDU of as many news as one carries, of so many that stand in two slices, and how many these are.
pub(crate) fn pack_news(
    front: &[Observation],
    back: &[Observation],
    count: usize,
    settings: &Settings,
) -> PackedAsdu
    requires some { 0 < count }
    requires within { count ≤ length front.now + length back.now }
    requires few { count ≤ 127 }
    ensures asdu { octets_in result.asdu
        ≡ packed_octets (station_clocks settings.now.station) 3 0 (take count (front.now ++ back.now)) }
    ensures taken { result.taken
        ≡ taken_of (station_clocks settings.now.station) (take count (front.now ++ back.now)) }
{
    if count <= front.len() {
        pack_slice(&front[..count], settings)
    } else {
        pack_over_seam(front, back, count, settings)
    }
}

/// The same where the news go on in the second slice: these few are copied.
fn pack_over_seam(
    front: &[Observation],
    back: &[Observation],
    count: usize,
    settings: &Settings,
) -> PackedAsdu
    requires over { length front.now < count }
    requires within { count ≤ length front.now + length back.now }
    requires few { count ≤ 127 }
    ensures asdu { octets_in result.asdu
        ≡ packed_octets (station_clocks settings.now.station) 3 0 (take count (front.now ++ back.now)) }
    ensures taken { result.taken
        ≡ taken_of (station_clocks settings.now.station) (take count (front.now ++ back.now)) }
{
    let mut both = [back[0]; MOST_PACKED];
    both[..front.len()].copy_from_slice(front);
    both[front.len()..count].copy_from_slice(&back[..count - front.len()]);
    pack_slice(&both[..count], settings)
}

fn pack_slice(news: &[Observation], settings: &Settings) -> PackedAsdu
    requires { 0 < length news.now }
    ensures asdu { octets_in result.asdu ≡ packed_octets (station_clocks settings.now.station) 3 0 news.now }
    ensures taken { result.taken ≡ taken_of (station_clocks settings.now.station) news.now }
{
    pack(SPONTANEOUS, 0, &settings.zone(), news)
}
