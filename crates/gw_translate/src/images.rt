//! The image of a report: the observation that clients are shown.
ghost use Rattle.std.specs.Prelude.{◌≡◌, not};
ghost use Rattle.std.specs.Ordering.{int_eq};
ghost use Rattle.gw_model.specs.Fit.{IsFit, IsInWindow};
ghost use Rattle.gw_time.specs.Rule.{clocks_of};
ghost use Rattle.gw_translate.specs.Quality.{quality_of};
ghost use Rattle.gw_entries.specs.Scaling.{scaled_by};
ghost use Rattle.gw_translate.specs.Image.{nearest_scaled_value, image_of, stamp_image};

use gw_entries::{Row, Scale, Show};
use gw_model::{Kind, Observation, Quality, Raw, Report, Stamp, Value};
use gw_time::{Zone, has_tag};

/// The quality of a point of a kind, from the flags of its object.
pub fn quality(kind: Kind, flags: u8) -> Quality
    ensures { result ≡ quality_of kind flags }
{
    let online = flags % 2 == 1;
    let restart = flags / 2 % 2 == 1;
    let comm_lost = flags / 4 % 2 == 1;
    let forced = flags / 8 % 2 == 1 || flags / 16 % 2 == 1;
    let bit_5 = flags / 32 % 2 == 1;
    let bit_6 = flags / 64 % 2 == 1;
    let quality = Quality {
        iv: !online || restart,
        nt: comm_lost,
        sb: forced,
        ..Quality::GOOD
    };
    match kind {
        Kind::Binary | Kind::Double => Quality {
            bl: bit_5,
            ..quality
        },
        Kind::Output => quality,
        Kind::Analog => Quality {
            iv: quality.iv || bit_6,
            ov: bit_5,
            ..quality
        },
        Kind::Counter => Quality {
            iv: quality.iv || comm_lost,
            cy: bit_5,
            ca: bit_6,
            ..Quality::GOOD
        },
    }
}

/// The nearest value of 16 bits.
fn clamp(number: i64) -> i16
    ensures { result ≡ nearest_scaled_value number }
{
    number.max(-32768).min(32767) as i16
}

/// The scaled value that is nearest to a value by a scale, and whether it isn't the value itself.
fn nearest(number: i32, scale: Scale) -> (i16, bool)
    ensures nearest { result.0 ≡ nearest_scaled_value (scaled_by scale number) }
    ensures overflow { result.1
        ≡ not (int_eq (nearest_scaled_value (scaled_by scale number)) (scaled_by scale number)) }
{
    let scaled = scale.apply(number);
    let nearest = clamp(scaled);
    (nearest, i64::from(nearest) != scaled)
}

/// The time that clients are shown: none where a time tag can't show it.
#[tactic(auto, using(gw_time::proofs::Spelled::window_of_tag, gw_time::proofs::Century::has_tag_is_in_window))]
fn shown_stamp(stamp: Stamp, zone: &Zone) -> Stamp
    ensures image { result ≡ stamp_image (clocks_of zone.now) stamp }
    ensures window { IsInWindow (clocks_of zone.now) result }
{
    if has_tag(stamp, zone) {
        stamp
    } else {
        Stamp::Untimed
    }
}

/// The image of a report by the row of its own point, at a station with these clocks.
pub fn image(report: &Report, row: &Row, zone: &Zone) -> Observation
    ensures image { result ≡ image_of (clocks_of zone.now) row.now report.now }
    ensures fit { IsFit (clocks_of zone.now) result }
{
    let quality = quality(report.key.kind, report.flags);
    let (value, quality) = match (report.raw, row.show) {
        (Raw::Bit(on), _) => (Value::Single(on), quality),
        (Raw::Two(state), _) => (Value::Double(state), quality),
        (Raw::Count(count), _) => (Value::Total(count), quality),
        (Raw::Number(number), Show::Word) => (Value::Word(number.cast_unsigned()), quality),
        (Raw::Number(number), _) => {
            let (nearest, overflow) = nearest(number, row.scale);
            let ov = quality.ov || overflow;
            (Value::Scaled(nearest), Quality { ov, ..quality })
        }
    };
    Observation {
        common: row.common_address,
        address: row.address,
        value,
        quality,
        stamp: shown_stamp(report.stamp, zone),
    }
}
