//! What is known of each peer, outside the core's lock.

use crate::callers::Callers;
use crate::client_connection::ClientConnection;
use crate::last_tick::LastTick;
use crate::outstation_link::OutstationLink;
use crate::points::Points;
use crate::reasons::Reasons;
use crate::sequence::Sequence;
use gw_map::Settings;
use gw_model::{Memory, Report};
use run_journal::{ClientFigures, DueNotes, OutstationFigures, StrayFrame, UnknownAsdus, Way};
use run_status::PointStatus;
use std::alloc::Global;
use std::net::{IpAddr, SocketAddr};
use std::sync::atomic::{AtomicU64, Ordering};
use std::sync::{Mutex, Wait};

/// The milliseconds of a minute.
const MINUTE_MS: u64 = 60_000;

/// What is known of an outstation.
#[derive(Drop)]
pub struct OutstationRecord {
    pub figures: Mutex<OutstationFigures>,
    /// Which of its points were told, where anybody may ask for that.
    points: Option<Mutex<Points>>,
    /// From which link address to which its frames go.
    way: Way,
}

impl OutstationRecord {
    /// Nothing is known of an outstation that is reached over this link, and has these points.
    fn new(link: &OutstationLink, points: Option<Points>) -> OutstationRecord {
        OutstationRecord {
            figures: Mutex::new(OutstationFigures::new(calm_ms(link.silence_ms()))),
            points: points.map(|points| Mutex::new(points)),
            way: link.way(),
        }
    }

    /// A fragment of it has these reports, and is about to be taken or refused.
    pub fn reports<R: Wait>(&self, rt: &R, reports: &[Report]) {
        if let Some(points) = &self.points {
            points.lock(rt).note(reports);
        }
    }

    /// The fragment was taken, by the step of this number.
    pub fn takes_reports<R: Wait>(&self, rt: &R, step: u64) {
        if let Some(points) = &self.points {
            points.lock(rt).take(step);
        }
    }

    /// The core counts it as lost, by the step of this number.
    pub fn loses_points<R: Wait>(&self, rt: &R, step: u64) {
        if let Some(points) = &self.points {
            points.lock(rt).lose(step);
        }
    }

    /// How many of its points were told; those that were never count where all were asked for.
    pub fn point_status<R: Wait>(&self, rt: &R, were_asked_for: bool) -> PointStatus {
        match &self.points {
            Some(points) => points.lock(rt).status(were_asked_for),
            None => PointStatus {
                all: 0,
                not_topical: 0,
                never_told: 0,
            },
        }
    }

    /// A frame of the link came on its connection, with this CONTROL octet. It is noted where the outstation doesn't send
    /// such a frame to its master.
    pub fn note_frame<R: Wait>(&self, rt: &R, control: u8, way: Way) {
        if let Some(frame) = StrayFrame::of(control, way, self.way) {
            self.figures.lock(rt).note_stray(frame);
        }
    }

    /// What is due to be told of it.
    pub fn due<R: Wait>(&self, rt: &R, wall: u64) -> DueNotes {
        self.figures.lock(rt).due(wall)
    }
}

/// What is known of a slot for clients.
#[derive(Drop)]
pub struct ClientRecord {
    pub figures: Mutex<ClientFigures>,
    /// Why commands of it were refused, and orders of it ended, of which it wasn't told.
    pub reasons: Mutex<Reasons>,
    connection: Mutex<ClientConnection>,
}

impl ClientRecord {
    /// A client is given the slot.
    pub fn assign<R: Wait>(&self, rt: &R, connection: ClientConnection) {
        self.reasons.lock(rt).clear();
        *self.connection.lock(rt) = connection;
    }

    /// Nobody has the slot any more.
    pub fn free<R: Wait>(&self, rt: &R) {
        *self.connection.lock(rt) = ClientConnection::none();
    }

    /// The client asks for data transfer: it keeps its slot from now on.
    pub fn keeps_slot<R: Wait>(&self, rt: &R) {
        self.connection.lock(rt).start();
    }

    /// Whether the client was made to leave.
    pub fn leaves<R: Wait>(&self, rt: &R) -> bool {
        self.connection.lock(rt).leaves()
    }

    /// A tick closed the client's connection, since t1 had expired.
    pub fn note_expiry<R: Wait>(&self, rt: &R) {
        self.connection.lock(rt).expire();
    }

    /// Whether a tick closed the client's connection.
    pub fn has_expired<R: Wait>(&self, rt: &R) -> bool {
        self.connection.lock(rt).has_expired()
    }

    /// An APDU of the client was taken at a moment, which confirms a test or doesn't.
    pub fn hears<R: Wait>(&self, rt: &R, moment: u64, confirms_test: bool) {
        self.connection.lock(rt).hear(moment, confirms_test);
    }

    /// The client was sent a TESTFR act at a moment.
    pub fn tests<R: Wait>(&self, rt: &R, moment: u64) {
        self.connection.lock(rt).test(moment);
    }

    /// How many had connected before the client, where it may have to give way to one from this address
    /// (`ClientConnection::gives_way`).
    fn gives_way<R: Wait>(
        &self,
        rt: &R,
        address: IpAddr,
        moment: u64,
        silence_ms: u64,
    ) -> Option<u64> {
        self.connection
            .lock(rt)
            .gives_way(address, moment, silence_ms)
    }

    /// The client is made to leave.
    fn dismiss<R: Wait>(&self, rt: &R) {
        self.connection.lock(rt).leave();
    }

    /// The client is made to leave, if it still may have to give way; whether it is.
    fn make_room<R: Wait>(&self, rt: &R, address: IpAddr, moment: u64, silence_ms: u64) -> bool {
        let mut connection = self.connection.lock(rt);
        let gives_way = connection.gives_way(address, moment, silence_ms).is_some();
        if gives_way {
            connection.leave();
        }
        gives_way
    }

    /// So many observations were dropped at this slot by now. Where that is to be told, where its client connects
    /// from, and how many weren't told yet.
    pub fn note_drops<R: Wait>(&self, rt: &R, wall: u64, total: u64) -> Option<(SocketAddr, u64)> {
        let mut figures = self.figures.lock(rt);
        let address = figures.address?;
        let count = figures.note_drops(wall, total)?;
        Some((address, count))
    }

    /// The ASDUs of unknown types that are due to be told, and where the client connects from.
    pub fn unknown_due<R: Wait>(&self, rt: &R, wall: u64) -> Option<(SocketAddr, UnknownAsdus)> {
        self.figures.lock(rt).unknown_due(wall)
    }

    /// The client has started data transfer; where it connects from, if that is to be told.
    pub fn starts<R: Wait>(&self, rt: &R, wall: u64) -> Option<SocketAddr> {
        self.connection.lock(rt).start();
        self.transfers(rt, wall, true)
    }

    /// The client has stopped data transfer at a moment; where it connects from, if that is to be told.
    pub fn stops<R: Wait>(&self, rt: &R, wall: u64, moment: u64) -> Option<SocketAddr> {
        self.connection.lock(rt).stop(moment);
        self.transfers(rt, wall, false)
    }

    /// The client transfers data from now on, or doesn't any more; where it connects from, if that is to be told.
    fn transfers<R: Wait>(&self, rt: &R, wall: u64, starts: bool) -> Option<SocketAddr> {
        self.reasons.lock(rt).clear();
        self.figures.lock(rt).transfers(wall, starts)
    }

    /// A look, a second behind the one before, finds that so many observations were dropped at this slot by now.
    pub fn look<R: Wait>(&self, rt: &R, dropped: u64) {
        self.figures.lock(rt).look(dropped);
    }
}

/// What is known of all.
#[derive(Drop)]
pub struct Peers {
    outstations: Vec<OutstationRecord>,
    clients: Vec<ClientRecord>,
    /// What is told of the clients of each address.
    pub callers: Mutex<Callers>,
    /// Of which steps it was told.
    pub sequence: Sequence,
    /// When the core made its last tick.
    pub last_tick: LastTick,
    /// How many connections weren't allowed.
    not_allowed: AtomicU64,
    /// For how many milliseconds nothing comes from a client before it is tested (t3).
    silence_ms: u64,
}

impl Peers {
    /// Nothing is known at a moment of the outstations that are reached over these links, and of so many clients. Their points
    /// are known where that is shown.
    pub fn new(
        alloc: Global,
        settings: &Settings,
        links: &[OutstationLink],
        clients: u8,
        is_shown: bool,
        moment: u64,
    ) -> Result<Peers, Memory> {
        let (t1_ms, t3_ms) = client_times(settings);
        let callers = Callers::new(alloc, calm_ms(t3_ms.saturating_add(t1_ms)));
        Ok(Peers {
            outstations: outstation_records(alloc, settings, links, is_shown)?,
            clients: client_records(alloc, clients)?,
            callers: Mutex::new(callers),
            sequence: Sequence::new(alloc, links.len(), usize::from(clients))?,
            last_tick: LastTick::new(moment),
            not_allowed: AtomicU64::new(0),
            silence_ms: t3_ms,
        })
    }

    /// One more connection wasn't allowed.
    pub fn refuse_connection(&self) {
        self.not_allowed.fetch_add(1, Ordering::SeqCst);
    }

    /// How many connections weren't allowed.
    pub fn not_allowed(&self) -> u64 {
        self.not_allowed.load(Ordering::SeqCst)
    }

    /// The outstations, by their positions.
    pub fn outstations(&self) -> &[OutstationRecord] {
        &self.outstations
    }

    /// The slots for clients, by their positions.
    pub fn clients(&self) -> &[ClientRecord] {
        &self.clients
    }

    /// An outstation.
    pub fn outstation(&self, outstation: u8) -> Option<&OutstationRecord> {
        self.outstations.get(usize::from(outstation))
    }

    /// A slot for clients.
    pub fn client(&self, client: u8) -> Option<&ClientRecord> {
        self.clients.get(usize::from(client))
    }

    /// All clients are made to leave: whoever has their connections shuts them.
    pub fn dismiss_all<R: Wait>(&self, rt: &R) {
        for record in &self.clients {
            record.dismiss(rt);
        }
    }

    /// Of the clients from an address that may have to give way at a moment, the one that connected first is made to
    /// leave its slot: whoever has its connection shuts that. Which slot it is, if there is one.
    pub fn make_room<R: Wait>(&self, rt: &R, address: IpAddr, moment: u64) -> Option<u8> {
        let mut oldest: Option<(u64, u8)> = None;
        for (slot, record) in (0u8..).zip(&self.clients) {
            if let Some(order) = record.gives_way(rt, address, moment, self.silence_ms) {
                match oldest {
                    Some((before, _)) if before < order => {}
                    _ => oldest = Some((order, slot)),
                }
            }
        }
        let (_, slot) = oldest?;
        let gives_way = self
            .client(slot)?
            .make_room(rt, address, moment, self.silence_ms);
        gives_way.then_some(slot)
    }
}

/// For how many milliseconds no connection to a peer may have ended where it is calm: a minute, or twice the time in which
/// one that says nothing is found to be dead, where that is longer. So no connection stands for so long to a peer that
/// takes connections and then says nothing.
fn calm_ms(silence_ms: u64) -> u64 {
    MINUTE_MS.max(silence_ms.saturating_mul(2))
}

/// t1 and t3, in milliseconds.
fn client_times(settings: &Settings) -> (u64, u64) {
    let station = settings.station();
    (u64::from(station.t1_ms), u64::from(station.t3_ms))
}

/// The outstations that are reached over these links, of which nothing is known.
fn outstation_records(
    alloc: Global,
    settings: &Settings,
    links: &[OutstationLink],
    is_shown: bool,
) -> Result<Vec<OutstationRecord>, Memory> {
    let mut records = Vec::with_capacity(alloc, links.len())?;
    for (position, link) in links.iter().enumerate() {
        let points = if is_shown {
            Some(Points::of(alloc, settings, position)?)
        } else {
            None
        };
        records.push(OutstationRecord::new(link, points))?;
    }
    Ok(records)
}

/// So many slots of which nothing is known.
fn client_records(alloc: Global, count: u8) -> Result<Vec<ClientRecord>, Memory> {
    let mut records = Vec::with_capacity(alloc, usize::from(count))?;
    for _ in 0..count {
        records.push(ClientRecord {
            figures: Mutex::new(ClientFigures::new()),
            reasons: Mutex::new(Reasons::new()),
            connection: Mutex::new(ClientConnection::none()),
        })?;
    }
    Ok(records)
}
