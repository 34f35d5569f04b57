//! What is shown before anything was reported.
ghost use Rattle.std.specs.Prelude.{◌≡◌, map, IfOk};
ghost use Rattle.gw_picture.specs.Opening.{opening};

use gw_map::{Row, Show};
use gw_model::{Memory, Observation, Quality, Stamp, Value};
use std::alloc::Global;

/// What is shown of a row before anything was reported.
fn opening_row(row: &Row) -> Observation
    ensures { result ≡ opening row.now }
{
    let quality = Quality {
        iv: true,
        nt: row.show != Show::Total,
        ..Quality::GOOD
    };
    let value = match row.show {
        Show::Single => Value::Single(false),
        Show::Double => Value::Double(0),
        Show::Scaled => Value::Scaled(0),
        Show::Word => Value::Word(0),
        Show::Total => Value::Total(0),
    };
    Observation {
        common: row.common_address,
        address: row.address,
        value,
        quality,
        stamp: Stamp::Untimed,
    }
}

/// What is shown of rows before anything was reported.
pub fn opening_of(alloc: Global, rows: &[Row]) -> Result<Vec<Observation>, Memory>
    ensures { IfOk result (λ v. v.items ≡ map opening rows.now) }
{
    let mut shown = Vec::new(alloc);
    for row in rows {
        shown.push(opening_row(row))?;
    }
    Ok(shown)
}
