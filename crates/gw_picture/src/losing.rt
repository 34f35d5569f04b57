//! What is shown of an outstation's points once it is lost.
ghost use Rattle.std.specs.Prelude.{◌≡◌, ◌<◌, length, IfSome};
ghost use Rattle.std.specs.Option.{option_to_list};
ghost use Rattle.gw_picture.specs.Loss.{is_lost_with, losses_at, losses_of, lost, picture_losing_at, quality_lost, tells_loss};

use gw_map::Row;
use gw_model::{Observation, Quality, Stamp, Value};

/// The quality of a value whose outstation is lost: not topical; of a total, which has no NT, invalid.
fn quality_lost(value: Value, quality: Quality) -> Quality
    ensures { result ≡ quality_lost value quality }
{
    if value.is_total() {
        Quality {
            iv: true,
            ..quality
        }
    } else {
        Quality {
            nt: true,
            ..quality
        }
    }
}

/// Whether the quality of a value says already that its outstation is lost.
fn tells_loss(value: Value, quality: Quality) -> bool
    ensures { result ≡ tells_loss value quality }
{
    if value.is_total() {
        quality.iv
    } else {
        quality.nt
    }
}

/// An observation as it is shown once its outstation is lost.
fn observation_lost(shown: Observation) -> Observation
    ensures { result ≡ lost shown }
{
    Observation {
        quality: quality_lost(shown.value, shown.quality),
        stamp: Stamp::Untimed,
        ..shown
    }
}

/// Whether a row is the lost outstation's, and what is shown of it does not say so yet.
fn is_lost_with(outstation: u8, row: &Row, shown: Observation) -> bool
    ensures { result ≡ is_lost_with outstation row.now shown }
{
    row.key.outstation == outstation && !tells_loss(shown.value, shown.quality)
}

/// What the loss of an outstation is for the row at a position, if anything.
fn loss_at(
    shown: &[Observation],
    position: usize,
    outstation: u8,
    rows: &[Row],
) -> Option<Observation>
    ensures loss { option_to_list result ≡ losses_at outstation rows.now shown.now position }
    ensures within { IfSome result (λ _. position < length shown.now) }
{
    let row = rows.get(position)?;
    let before = *shown.get(position)?;
    if is_lost_with(outstation, row, before) {
        Some(observation_lost(before))
    } else {
        None
    }
}

/// How many observations the loss of an outstation is for the row at a position: 0 or 1.
fn count_at(shown: &[Observation], position: usize, outstation: u8, rows: &[Row]) -> usize
    ensures { result ≡ length (losses_at outstation rows.now shown.now position) }
{
    match loss_at(shown, position, outstation, rows) {
        Some(_) => 1,
        None => 0,
    }
}

/// How many observations the loss of an outstation is.
pub fn count_losses(shown: &[Observation], outstation: u8, rows: &[Row]) -> usize
    ensures { result ≡ length (losses_of outstation rows.now shown.now) }
{
    let mut losses = 0;
    for position in 0..shown.len() {
        losses += count_at(shown, position, outstation, rows);
    }
    losses
}

/// Shows that the row at a position is lost, where it is the outstation's and isn't shown so; gives
/// what is shown then.
pub fn lose_at(
    shown: &mut Vec<Observation>,
    position: usize,
    outstation: u8,
    rows: &[Row],
) -> Option<Observation>
    ensures news { option_to_list result ≡ losses_at outstation rows.now shown.old.items position }
    ensures shown { shown.new.items ≡ picture_losing_at outstation rows.now shown.old.items position }
{
    let after = loss_at(shown.as_slice(), position, outstation, rows)?;
    shown[position] = after;
    Some(after)
}
