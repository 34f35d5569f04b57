//! The parts of a hub, made and copied a few at a time, so that little has to be given up where memory is refused.
ghost use Rattle.std.specs.Prelude.{◌≡◌, IfOk};
ghost use Rattle.gw_station.specs.Client.{limits_of};
ghost use Rattle.gw_steps.specs.State.{first_after};
ghost use Rattle.gw_hub.specs.Hub.{tally_of};

use crate::tally::Counts;
use gw_control::Controls;
use gw_map::{Settings, Station};
use gw_model::Memory;
use gw_parts::{Clients, Outstations};
use gw_picture::Picture;
use iec_window::Limits;
use std::alloc::Global;

/// What of a hub takes memory, besides its settings.
#[derive(Drop)]
pub struct Parts {
    pub outstations: Outstations,
    pub picture: Picture,
    pub clients: Clients,
    pub controls: Controls,
}

impl Parts {
    /// Those that a hub with these settings begins with, where these counts stand already.
    pub fn after(alloc: Global, settings: &Settings, counts: &Counts) -> Result<Parts, Memory>
        ensures outstations { IfOk result (λ parts. parts.outstations
            ≡ (first_after settings.now (tally_of counts.now) counts.now.orders).outstations) }
        ensures picture { IfOk result (λ parts. parts.picture
            ≡ (first_after settings.now (tally_of counts.now) counts.now.orders).picture) }
        ensures clients { IfOk result (λ parts. parts.clients.each
            ≡ (first_after settings.now (tally_of counts.now) counts.now.orders).clients) }
        ensures news { IfOk result (λ parts. parts.clients.news ≡ counts.now.news) }
        ensures controls { IfOk result (λ parts. parts.controls
            ≡ (first_after settings.now (tally_of counts.now) counts.now.orders).controls) }
    {
        let station = settings.station();
        Ok(Parts {
            outstations: Outstations::new(alloc, settings.outstations())?,
            picture: Picture::new(alloc, settings)?,
            clients: Clients::new(alloc, &limits_of(station), station.queue, counts.news)?,
            controls: Controls::after(alloc, settings, counts.orders)?,
        })
    }
}

/// The parameters of the clients' connections.
fn limits_of(station: &Station) -> Limits
    ensures { result ≡ limits_of station.now }
{
    Limits {
        k: station.k,
        w: station.w,
        t1: u64::from(station.t1_ms),
        t2: u64::from(station.t2_ms),
        t3: u64::from(station.t3_ms),
    }
}

/// Copies of outstations and of a picture, in the memory of others that aren't needed any more.
pub fn field_over(
    outstations: &Outstations,
    picture: &Picture,
    spare: (Outstations, Picture),
) -> Result<(Outstations, Picture), Memory>
    ensures { IfOk result (λ copies. (copies.0 ≡ outstations.now) × (copies.1 ≡ picture.now)) }
{
    let outstations = outstations.copy_over(spare.0)?;
    let picture = picture.copy_over(spare.1)?;
    Ok((outstations, picture))
}

/// Copies of clients and of controls, likewise.
pub fn clients_over(
    clients: &Clients,
    controls: &Controls,
    spare: (Clients, Controls),
) -> Result<(Clients, Controls), Memory>
    ensures { IfOk result (λ copies. (copies.0 ≡ clients.now) × (copies.1 ≡ controls.now)) }
{
    let clients = clients.copy_over(spare.0)?;
    let controls = controls.copy_over(spare.1)?;
    Ok((clients, controls))
}
