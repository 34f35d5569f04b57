//! The common addresses that clients may use.
ghost use Rattle.std.specs.Prelude.{◌≡◌, IfOk};
ghost use Rattle.std.specs.List.{AllByRecursion};
ghost use Rattle.gw_entries.specs.Ranges.{IsWithin};
ghost use Rattle.gw_map.specs.Settings.{known_in};

use gw_entries::{Outstation, Station};
use std::alloc::{AllocError, Global};

/// Those of the outstations, each once, in the order of their first outstation; without an outstation the station's
/// alone.
pub(crate) fn known_addresses(
    alloc: Global,
    station: &Station,
    outstations: &[Outstation],
) -> Result<Vec<u16>, AllocError>
    ensures known { IfOk result (λ known. known.items ≡ known_in station.now outstations.now) }
    ensures within { IfOk result (λ known. AllByRecursion (IsWithin 1 65534) known.items) }
{
    let mut known = Vec::with_capacity(alloc, outstations.len())?;
    for outstation in outstations {
        let common_address = outstation.common_address;
        if !known.contains(&common_address) {
            known.push(common_address)?;
        }
    }
    if known.is_empty() {
        known.push(station.common_address)?;
    }
    Ok(known)
}
