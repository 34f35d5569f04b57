//! Where connections are accepted.

use crate::obstacle::{Obstacle, failure_at};
use crate::unserved::Unserved;
use cmd_line::RunOptions;
use gw_map::Settings;
use run_admission::Network;
use std::alloc::Global;
use std::net::{Net, TcpListener, TcpStream};

/// Where connections are accepted, and from whom.
#[derive(Drop)]
pub struct Entrances {
    pub allow: Vec<Network>,
    pub status: Option<TcpListener>,
    pub listener: TcpListener,
}

impl Entrances {
    /// Listens for control centres, and for those who ask for the status.
    pub fn open<'a, N: Net<Listener = TcpListener, Stream = TcpStream>>(
        alloc: Global,
        system: &N,
        settings: &Settings,
        asked: &RunOptions<'a>,
    ) -> Result<Entrances, Unserved<'a>> {
        let allow = networks_of(alloc, &asked.allow)?;
        let status = status_listener(system, asked.status)?;
        let listener = listener_of(alloc, system, settings)?;
        Ok(Entrances {
            allow,
            status,
            listener,
        })
    }
}

/// Listens for control centres.
fn listener_of<'a, N: Net<Listener = TcpListener, Stream = TcpStream>>(
    alloc: Global,
    system: &N,
    settings: &Settings,
) -> Result<TcpListener, Unserved<'a>> {
    match TcpListener::bind(system, settings.station().listen.as_str()) {
        Ok(listener) => Ok(listener),
        Err(error) => {
            let place = String::from_str(alloc, settings.station().listen.as_str())?;
            let failure = failure_at(place.as_str(), error.kind());
            Err(Unserved::Hindered(Obstacle::Listen(place, failure)))
        }
    }
}

/// The networks that are allowed.
fn networks_of<'a>(alloc: Global, texts: &[&str]) -> Result<Vec<Network>, Unserved<'a>> {
    let mut networks = Vec::with_capacity(alloc, texts.len())?;
    for text in texts {
        match Network::read(text) {
            Some(network) => networks.push(network)?,
            None => return Err(Unserved::Allow),
        }
    }
    Ok(networks)
}

/// Listens where the status is to be served, if it is.
fn status_listener<'a, N: Net<Listener = TcpListener, Stream = TcpStream>>(
    system: &N,
    place: Option<&'a str>,
) -> Result<Option<TcpListener>, Unserved<'a>> {
    match place {
        Some(place) => match TcpListener::bind(system, place) {
            Ok(listener) => Ok(Some(listener)),
            Err(error) => {
                let failure = failure_at(place, error.kind());
                Err(Unserved::Hindered(Obstacle::Status(place, failure)))
            }
        },
        None => Ok(None),
    }
}
