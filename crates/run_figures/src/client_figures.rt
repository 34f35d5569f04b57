//! The figures of a place for a client.

use crate::cause::Cause;
use crate::minute::LastMinute;
use crate::throttle::Throttle;
use crate::unknown_asdu::UnknownAsdus;
use gw_control::Refusal;
use iec_apci::Why;
use iec_command::UnknownAsdu;
use run_status::{ClientState, Closes, Refusals};
use std::net::SocketAddr;

/// The milliseconds between two tellings of dropped observations, and of ASDUs of unknown types.
const MINUTE_MS: u64 = 60_000;

/// How it is with a place for a client, as the journal and the status tell. The counts go on from one client to the
/// next.
#[derive(Drop)]
pub struct ClientFigures {
    /// Who is connected; nobody where the place is free.
    pub address: Option<SocketAddr>,
    /// Since when the connection stands, if one does, in milliseconds since 1970 in UTC.
    pub connected_since: Option<u64>,
    /// Since when data transfer is started (STARTDT), if it is.
    pub transfers_since: Option<u64>,
    /// Why connections of this place ended.
    pub closes: Closes,
    /// Why commands from this place were refused.
    pub refusals: Refusals,
    /// Whether the connection was told of.
    is_told: bool,
    /// How many observations were dropped when that was noted last.
    dropped: u64,
    /// How many were before the client had the place.
    dropped_before: u64,
    /// How many were by the looks of the last minute.
    lately: LastMinute,
    dropped_told: Throttle,
    unknown_told: Throttle,
    /// The last ASDU of an unknown type that wasn't told.
    last_unknown: Option<UnknownAsdu>,
}

/// One more.
fn add_one(count: &mut u64) {
    *count = count.saturating_add(1);
}

impl ClientFigures {
    /// Of a place that no client had yet.
    pub fn new() -> ClientFigures {
        ClientFigures {
            address: None,
            connected_since: None,
            transfers_since: None,
            closes: Closes {
                timer: 0,
                sequence: 0,
                not_started: 0,
                malformed: 0,
                flooded: 0,
                lost: 0,
            },
            refusals: Refusals::NOTHING,
            is_told: false,
            dropped: 0,
            dropped_before: 0,
            lately: LastMinute::new(),
            dropped_told: Throttle::new(MINUTE_MS),
            unknown_told: Throttle::new(MINUTE_MS),
            last_unknown: None,
        }
    }

    /// A client has the place since now, which is told at once or isn't.
    pub fn note_connection(&mut self, address: SocketAddr, wall: u64, is_told: bool) {
        self.address = Some(address);
        self.connected_since = Some(wall);
        self.transfers_since = None;
        self.dropped_before = self.dropped;
        self.is_told = is_told;
        self.dropped_told = Throttle::new(MINUTE_MS);
        self.unknown_told = Throttle::new(MINUTE_MS);
        self.last_unknown = None;
    }

    /// Its connection ended; whether it was told of.
    pub fn note_end(&mut self, cause: &Cause) -> bool {
        self.address = None;
        self.connected_since = None;
        self.transfers_since = None;
        self.count(cause);
        self.is_told
    }

    /// Where a client connects from, and since when, of whose connection it wasn't told.
    pub fn untold(&self) -> Option<(SocketAddr, u64)> {
        if self.is_told {
            return None;
        }
        Some((self.address?, self.connected_since?))
    }

    /// The connection is told of from now on.
    pub fn note_told(&mut self) {
        self.is_told = true;
    }

    /// The client transfers data from now on, or doesn't any more. Where it connects from, if that is new, and its
    /// connection was told of.
    pub fn transfers(&mut self, wall: u64, starts: bool) -> Option<SocketAddr> {
        let is_new = self.transfers_since.is_some() != starts;
        if is_new {
            self.transfers_since = starts.then_some(wall);
        }
        if is_new && self.is_told {
            self.address
        } else {
            None
        }
    }

    /// An ASDU of an unknown type came. Where the client connects from, and how many came before and weren't told, if that is
    /// told now.
    pub fn note_unknown(
        &mut self,
        wall: u64,
        asdu: UnknownAsdu,
    ) -> Option<(SocketAddr, UnknownAsdus)> {
        self.last_unknown = Some(asdu);
        self.unknown_told.add(1);
        self.unknown_due(wall)
    }

    /// Where the client connects from, and the ASDUs of unknown types that are due to be told, which count as told then.
    pub fn unknown_due(&mut self, wall: u64) -> Option<(SocketAddr, UnknownAsdus)> {
        let (address, last) = (self.address?, self.last_unknown?);
        let count = self.unknown_told.pending(wall)?;
        self.last_unknown = None;
        let left_out = count.saturating_sub(1);
        Some((address, UnknownAsdus { last, left_out }))
    }

    /// How it is, where so many observations were dropped at this place by now.
    pub fn state(&self, dropped: u64) -> ClientState {
        if self.address.is_none() {
            return ClientState::Free;
        }
        match (self.transfers_since, self.dropped_of_client(dropped)) {
            (None, _) => ClientState::ConnectedOnly,
            (Some(_), 0) => ClientState::TransfersData,
            (Some(_), count) => ClientState::ReadsTooSlowly(count),
        }
    }

    /// How many observations were dropped in the last minute, where so many were by now.
    pub fn dropped_lately(&self, dropped: u64) -> u64 {
        self.lately.rise(dropped)
    }

    /// How many of these were of the client that is connected.
    pub fn dropped_of_client(&self, dropped: u64) -> u64 {
        let of_client = if self.address.is_some() {
            dropped.saturating_sub(self.dropped_before)
        } else {
            0
        };
        of_client.min(self.dropped_lately(dropped))
    }

    /// A look, a second behind the one before, finds that so many observations were dropped at this place by now.
    pub fn look(&mut self, dropped: u64) {
        self.lately.look(dropped);
    }

    /// Counts why a command was refused.
    pub fn note_refusal(&mut self, refusal: Refusal) {
        match refusal {
            Refusal::NoState => add_one(&mut self.refusals.no_state),
            Refusal::Qualifier => add_one(&mut self.refusals.qualifier),
            Refusal::OutOfRange => add_one(&mut self.refusals.out_of_range),
            Refusal::OutstationDown => add_one(&mut self.refusals.outstation_down),
            Refusal::SelectedByAnother => add_one(&mut self.refusals.selected_by_another),
            Refusal::NotSelected => add_one(&mut self.refusals.not_selected),
            Refusal::UnlikeSelect => add_one(&mut self.refusals.unlike_select),
            Refusal::NoPlace => add_one(&mut self.refusals.no_place),
        }
    }

    /// Counts why a connection ended.
    fn count(&mut self, cause: &Cause) {
        match *cause {
            Cause::Closed(why) => self.count_closed(why),
            Cause::EndOfInput
            | Cause::Silent { .. }
            | Cause::Unanswered
            | Cause::LinkUnanswered
            | Cause::Slow { .. }
            | Cause::NotRead(_)
            | Cause::NotWritten(_)
            | Cause::NotApdus(_)
            | Cause::Memory
            | Cause::GaveWay
            | Cause::GatewayEnds => add_one(&mut self.closes.lost),
        }
    }

    /// Counts why the core closed a connection.
    fn count_closed(&mut self, why: Why) {
        match why {
            Why::Timer => add_one(&mut self.closes.timer),
            Why::Sequence => add_one(&mut self.closes.sequence),
            Why::NotStarted => add_one(&mut self.closes.not_started),
            Why::Malformed => add_one(&mut self.closes.malformed),
            Why::Flooded => add_one(&mut self.closes.flooded),
        }
    }

    /// So many observations were dropped at this place by now. Where that is to be told, how many weren't told yet. It
    /// isn't told of a connection that wasn't.
    pub fn note_drops(&mut self, wall: u64, total: u64) -> Option<u64> {
        self.dropped_told.add(total.saturating_sub(self.dropped));
        self.dropped = self.dropped.max(total);
        if self.is_told {
            self.dropped_told.pending(wall)
        } else {
            None
        }
    }
}
