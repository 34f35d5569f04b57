//! The peers of the gateway, at made-up addresses, which are among those that documents may use for examples.

use crate::connection::{Connection, Sender};
use crate::packet::End;
use crate::tape::Tape;
use dnp_link::write_frame;
use dnp_transport::{FRAGMENT_LIMIT, segments};
use gw_model::Memory;

/// The gateway's address, and the front of those of outstations and of clients.
const GATEWAY: [u8; 4] = [192, 0, 2, 1];

const OUTSTATIONS: [u8; 3] = [198, 51, 100];

const CLIENTS: [u8; 3] = [203, 0, 113];

/// The ports at which outstations and the gateway are called.
const DNP3: u16 = 20_000;

const IEC_104: u16 = 2404;

/// The CONTROL octet of unconfirmed user data, from a master and from an outstation.
const FROM_MASTER: u8 = 0xC4;

const FROM_OUTSTATION: u8 = 0x44;

/// How many sequence numbers the transport function has.
const SEQUENCES: u8 = 64;

/// The DNP3 link to an outstation.
#[derive(Clone, Copy)]
pub struct Link {
    /// The link addresses of the master and of the outstation.
    pub master: u16,
    pub outstation: u16,
}

/// The numbers of the next segment of a fragment from the gateway and from the outstation.
#[derive(Clone, Copy)]
struct Numbers {
    gateway: u8,
    peer: u8,
}

impl Numbers {
    const FIRST: Numbers = Numbers {
        gateway: 0,
        peer: 0,
    };
}

/// An outstation, or a client, which has no link; and its connection while one stands.
#[derive(Clone, Copy)]
pub struct Peer {
    address: [u8; 4],
    link: Option<Link>,
    numbers: Numbers,
    connection: Option<Connection>,
}

impl Peer {
    /// The outstation at this place.
    pub fn outstation(place: u8, link: Link) -> Peer {
        Peer::new(OUTSTATIONS, place, Some(link))
    }

    /// The client at this place.
    pub fn client(place: u8) -> Peer {
        Peer::new(CLIENTS, place, None)
    }

    fn new(front: [u8; 3], place: u8, link: Option<Link>) -> Peer {
        let [a, b, c] = front;
        Peer {
            address: [a, b, c, place.saturating_add(1)],
            link,
            numbers: Numbers::FIRST,
            connection: None,
        }
    }

    /// Makes a connection: the gateway calls an outstation, and a client calls the gateway. Who calls does so from this port.
    pub fn connect(&mut self, tape: &mut Tape, moment: u64, port: u16) -> Result<(), Memory> {
        let (caller, gateway_port, peer_port) = match self.link {
            Some(_) => (Sender::Gateway, port, DNP3),
            None => (Sender::Peer, IEC_104, port),
        };
        let gateway = End {
            address: GATEWAY,
            port: gateway_port,
        };
        let peer = End {
            address: self.address,
            port: peer_port,
        };
        let mut connection = Connection::new(gateway, peer);
        connection.open(tape, moment, caller)?;
        self.connection = Some(connection);
        self.numbers = Numbers::FIRST;
        Ok(())
    }

    /// Sends octets as they are, where a connection stands.
    pub fn send(
        &mut self,
        tape: &mut Tape,
        moment: u64,
        sender: Sender,
        octets: &[u8],
    ) -> Result<(), Memory> {
        match &mut self.connection {
            Some(connection) => connection.send(tape, moment, sender, octets),
            None => Ok(()),
        }
    }

    /// Sends a fragment of at most 2,048 octets, a frame for each segment, where a connection stands.
    pub fn send_fragment(
        &mut self,
        tape: &mut Tape,
        moment: u64,
        sender: Sender,
        fragment: &[u8],
    ) -> Result<(), Memory> {
        let Some(link) = self.link else {
            return Ok(());
        };
        if fragment.len() > FRAGMENT_LIMIT {
            return Ok(());
        }
        let (control, to, from) = link.front(sender);
        for segment in segments(fragment, self.number(sender) % SEQUENCES) {
            let mut frame = [0; 292];
            let end = write_frame(control, to, from, segment.octets(), &mut frame);
            self.send(tape, moment, sender, &frame[..end])?;
            self.go_on(sender);
        }
        Ok(())
    }

    /// Ends the connection, where one stands.
    pub fn disconnect(
        &mut self,
        tape: &mut Tape,
        moment: u64,
        first: Sender,
    ) -> Result<(), Memory> {
        match self.connection.take() {
            Some(mut connection) => connection.close(tape, moment, first),
            None => Ok(()),
        }
    }

    /// The number of the next segment from this one.
    fn number(&self, sender: Sender) -> u8 {
        match sender {
            Sender::Gateway => self.numbers.gateway,
            Sender::Peer => self.numbers.peer,
        }
    }

    /// A segment was sent.
    fn go_on(&mut self, sender: Sender) {
        let next = self.number(sender).wrapping_add(1) % SEQUENCES;
        match sender {
            Sender::Gateway => self.numbers.gateway = next,
            Sender::Peer => self.numbers.peer = next,
        }
    }
}

impl Link {
    /// CONTROL, the destination and the source of a frame.
    fn front(self, sender: Sender) -> (u8, u16, u16) {
        match sender {
            Sender::Gateway => (FROM_MASTER, self.outstation, self.master),
            Sender::Peer => (FROM_OUTSTATION, self.master, self.outstation),
        }
    }
}
