//! What the lines of a replay, and the replies to them, show as packets.

use crate::connection::Sender;
use crate::peer::{Link, Peer};
use crate::tape::Tape;
use crate::words::{Told, confirmation, octets_behind, split_word};
use cmd_text::{line_octets, number_8, number_64};
use gw_map::Settings;
use gw_model::{CLIENTS, Memory};
use std::alloc::Global;

/// The first port from which somebody calls, and how many there are.
const FIRST_PORT: u16 = 32_768;

const PORTS: u16 = 28_232;

/// The packets of a record.
#[derive(Drop)]
pub struct Capture {
    alloc: Global,
    tape: Tape,
    outstations: Vec<Peer>,
    clients: Vec<Peer>,
    /// How many ports were called from, modulo all that there are.
    called: u16,
}

impl Capture {
    /// One without packets, for a station with these settings.
    pub fn new(alloc: Global, settings: &Settings) -> Result<Capture, Memory> {
        let master = settings.station().master_address;
        let mut outstations = Vec::new(alloc);
        for (place, outstation) in (0_u8..).zip(settings.outstations()) {
            let link = Link {
                master,
                outstation: outstation.address,
            };
            outstations.push(Peer::outstation(place, link))?;
        }
        let mut clients = Vec::new(alloc);
        for place in 0..CLIENTS {
            clients.push(Peer::client(place))?;
        }
        Ok(Capture {
            alloc,
            tape: Tape::new(alloc)?,
            outstations,
            clients,
            called: 0,
        })
    }

    /// The file, as far as it isn't written yet.
    pub fn tape(&mut self) -> &mut Tape {
        &mut self.tape
    }

    /// Adds what a line and the reply to it show.
    pub fn show(&mut self, line: &[u8], reply: &[u8]) -> Result<(), Memory> {
        let reply = reply.strip_suffix(b"\n".as_slice()).unwrap_or(reply);
        let (verb, text) = split_word(line);
        if verb == b"tick".as_slice() {
            return self.show_tick(text, reply);
        }
        let Some(told) = Told::read(text) else {
            return Ok(());
        };
        match verb {
            b"up" | b"down" | b"frag" | b"poll" => self.show_outstation(verb, told, reply),
            b"open" | b"close" | b"frame" | b"pump" => self.show_client(verb, told, reply),
            _ => Ok(()),
        }
    }

    /// `tick M`: the clients that were closed by it are let go.
    fn show_tick(&mut self, text: &[u8], reply: &[u8]) -> Result<(), Memory> {
        let (verdict, closed) = split_word(reply);
        let Some(moment) = number_64(text) else {
            return Ok(());
        };
        if verdict != b"ticked".as_slice() {
            return Ok(());
        }
        for word in closed.split(|character| *character == b' ') {
            let Some(place) = number_8(word) else {
                continue;
            };
            if let Some(client) = self.clients.get_mut(usize::from(place)) {
                client.disconnect(&mut self.tape, moment, Sender::Gateway)?;
            }
        }
        Ok(())
    }

    /// `up O M`, `down O M`, `frag O M HEX` and `poll O M W`.
    fn show_outstation(&mut self, verb: &[u8], told: Told<'_>, reply: &[u8]) -> Result<(), Memory> {
        let port = self.next_port(verb == b"up".as_slice());
        let (alloc, tape) = (self.alloc, &mut self.tape);
        let Some(outstation) = self.outstations.get_mut(usize::from(told.place)) else {
            return Ok(());
        };
        match verb {
            b"up" if is_done(reply) => outstation.connect(tape, told.moment, port),
            b"down" if is_done(reply) => outstation.disconnect(tape, told.moment, Sender::Peer),
            b"frag" => show_fragment(alloc, tape, outstation, told, reply),
            b"poll" => show_poll(alloc, tape, outstation, told, reply),
            _ => Ok(()),
        }
    }

    /// `open C M`, `close C M`, `frame C M HEX` and `pump C M`.
    fn show_client(&mut self, verb: &[u8], told: Told<'_>, reply: &[u8]) -> Result<(), Memory> {
        let port = self.next_port(verb == b"open".as_slice());
        let (alloc, tape) = (self.alloc, &mut self.tape);
        let Some(client) = self.clients.get_mut(usize::from(told.place)) else {
            return Ok(());
        };
        match verb {
            b"open" if is_done(reply) => client.connect(tape, told.moment, port),
            b"close" if is_done(reply) => client.disconnect(tape, told.moment, Sender::Peer),
            b"frame" => show_frame(alloc, tape, client, told, reply),
            b"pump" => match octets_behind(alloc, reply, b"apdu ")? {
                Some(apdu) => client.send(tape, told.moment, Sender::Gateway, apdu.as_slice()),
                None => Ok(()),
            },
            _ => Ok(()),
        }
    }

    /// The next port from which somebody calls; it is gone where somebody does.
    fn next_port(&mut self, is_called: bool) -> u16 {
        let port = FIRST_PORT.saturating_add(self.called);
        if is_called {
            self.called = self.called.wrapping_add(1) % PORTS;
        }
        port
    }
}

/// Whether a step was made of which nothing more is told.
fn is_done(reply: &[u8]) -> bool {
    reply == b"ok".as_slice()
}

/// A fragment of an outstation, and its confirmation where there is one.
fn show_fragment(
    alloc: Global,
    tape: &mut Tape,
    outstation: &mut Peer,
    told: Told<'_>,
    reply: &[u8],
) -> Result<(), Memory> {
    if !matches!(split_word(reply).0, b"accepted" | b"repeated" | b"ignored") {
        return Ok(());
    }
    if let Some(fragment) = line_octets(alloc, told.rest)? {
        outstation.send_fragment(tape, told.moment, Sender::Peer, fragment.as_slice())?;
    }
    if let Some(confirmation) = confirmation(alloc, reply)? {
        outstation.send_fragment(tape, told.moment, Sender::Gateway, confirmation.as_slice())?;
    }
    Ok(())
}

/// A request to an outstation, where there is one; the line tells the wall clock.
fn show_poll(
    alloc: Global,
    tape: &mut Tape,
    outstation: &mut Peer,
    told: Told<'_>,
    reply: &[u8],
) -> Result<(), Memory> {
    if let Some(wall) = number_64(told.rest) {
        tape.tell_wall(told.moment, wall)?;
    }
    match octets_behind(alloc, reply, b"request ")? {
        Some(request) => outstation.send_fragment(
            tape,
            told.moment,
            Sender::Gateway,
            request.as_slice(),
        ),
        None => Ok(()),
    }
}

/// An APDU of a client, which may be let go for it.
fn show_frame(
    alloc: Global,
    tape: &mut Tape,
    client: &mut Peer,
    told: Told<'_>,
    reply: &[u8],
) -> Result<(), Memory> {
    let is_closed = reply.starts_with(b"closed ".as_slice());
    if !is_closed && reply != b"taken".as_slice() {
        return Ok(());
    }
    if let Some(apdu) = line_octets(alloc, told.rest)? {
        client.send(tape, told.moment, Sender::Peer, apdu.as_slice())?;
    }
    if is_closed {
        client.disconnect(tape, told.moment, Sender::Gateway)?;
    }
    Ok(())
}
