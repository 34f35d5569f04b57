//! What is told of the gateway.

use crate::state::{ClientState, OutstationState};
use std::net::SocketAddr;

/// How the gateway is at some moment. Times are milliseconds since 1970 in UTC.
#[derive(Drop)]
pub struct Status<'a> {
    /// Which gateway this is.
    pub identity: Identity<'a>,
    /// The moment.
    pub now: u64,
    /// When the gateway started.
    pub started: u64,
    /// For how many milliseconds the core has made no tick.
    pub tickless_ms: u64,
    /// The steps of the core.
    pub steps: u64,
    /// The observations that were news.
    pub news: u64,
    /// The outstations, in the order of the settings.
    pub outstations: Vec<OutstationStatus>,
    /// The places for clients.
    pub clients: Vec<ClientStatus>,
    /// Whether it is wrong that no client transfers data.
    pub needs_centre: bool,
    /// Whether steps are taken down; nothing where that isn't asked for.
    pub records: Option<bool>,
    /// The connections that weren't allowed.
    pub not_allowed: u64,
    /// The lines of the log that were left out.
    pub left_out: LeftOut,
    /// What the process takes, if the system tells.
    pub process: Option<ProcessStatus>,
    /// How many changes the values of points passed over; nothing where they aren't shown.
    pub passed_over: Option<u64>,
    /// How many events weren't written; nothing where that isn't asked for.
    pub events_left_out: Option<u64>,
}

impl<'a> Status<'a> {
    /// For how many milliseconds the gateway has run.
    pub fn uptime(&self) -> u64 {
        self.now.saturating_sub(self.started)
    }
}

/// Which gateway this is.
#[derive(Clone, Copy)]
pub struct Identity<'a> {
    /// The name of the site, if it was given one.
    pub site: Option<&'a str>,
    /// The settings file, as it was named.
    pub file: &'a str,
    /// The SHA-256 of its octets.
    pub digest: [u8; 32],
    /// Where clients connect, if the system tells.
    pub listen: Option<SocketAddr>,
    /// The gateway's version.
    pub version: &'static str,
    /// The commit that it was built from, if that is known.
    pub commit: Option<&'a str>,
}

/// How many lines of the log were left out.
#[derive(Clone, Copy)]
pub struct LeftOut {
    /// Those of controls.
    pub of_controls: u64,
    /// All others.
    pub others: u64,
}

/// What the process takes.
#[derive(Clone, Copy)]
pub struct ProcessStatus {
    /// The octets of memory that are resident.
    pub resident: u64,
    /// The milliseconds of a processor that it took.
    pub processor_ms: u64,
}

/// How it is with an outstation.
#[derive(Drop)]
pub struct OutstationStatus {
    /// What it is called; empty where it has no name.
    pub name: String,
    /// Where it is reached, as the settings say.
    pub place: String,
    /// Its link address.
    pub address: u16,
    /// The common address of its points.
    pub common_address: u16,
    /// Whether it is given the time where it asks for it.
    pub is_given_time: bool,
    /// How it is.
    pub state: OutstationState,
    /// Since when.
    pub state_since: u64,
    /// Why no connection stands, or the last one ended; nothing where none ended.
    pub reason: String,
    /// Since when a connection stands, if one does.
    pub connected_since: Option<u64>,
    /// Whether it has answered since.
    pub has_answered: bool,
    /// When it answered last, if it did.
    pub last_answer: Option<u64>,
    /// The requests sent to it.
    pub requests: u64,
    /// Those that weren't answered in time.
    pub unanswered: u64,
    /// The fragments of it that were refused.
    pub refused: u64,
    /// The octets of it that the link skipped.
    pub skipped: u64,
    /// Its objects of kinds that aren't taken.
    pub passed_over: u64,
    /// The internal indications of its last response, IIN1 in the low octet and IIN2 in the high one.
    pub indications: u16,
    /// Whether its clock can't be set.
    pub is_clock_not_set: bool,
    /// The events that it reported.
    pub events: u64,
    /// Its points.
    pub points: PointStatus,
    /// The orders for it.
    pub orders: OrderStatus,
}

/// How many points an outstation has.
#[derive(Clone, Copy)]
pub struct PointStatus {
    /// All that the settings name.
    pub all: u64,
    /// Those whose last value isn't topical.
    pub not_topical: u64,
    /// Those that no response had, though all were asked for; none where they weren't asked for yet.
    pub never_told: u64,
}

/// How many commands were accepted as orders for an outstation, and what became of them.
#[derive(Clone, Copy)]
pub struct OrderStatus {
    /// Those that were accepted.
    pub accepted: u64,
    /// Those that the outstation did.
    pub done: u64,
    /// Those that failed.
    pub failed: u64,
    /// Those that were let go, since their client's session ended before they were given.
    pub let_go: u64,
    /// Those that wait for the outstation, or for its answer.
    pub waiting: u64,
}

impl OrderStatus {
    /// What became of them in a word each, with its number.
    pub fn by_fate(self) -> [(&'static str, u64); 4] {
        [
            ("done", self.done),
            ("failed", self.failed),
            ("let go", self.let_go),
            ("waiting", self.waiting),
        ]
    }

    /// How they ended, in a word each for a figure, with its number.
    pub fn by_outcome(self) -> [(&'static str, u64); 3] {
        [
            ("done", self.done),
            ("failed", self.failed),
            ("let_go", self.let_go),
        ]
    }
}

/// How it is with a place for a client.
#[derive(Drop)]
pub struct ClientStatus {
    /// Who is connected; nobody where the place is free.
    pub address: Option<SocketAddr>,
    /// How it is.
    pub state: ClientState,
    /// Since when the connection stands, if one does.
    pub connected_since: Option<u64>,
    /// Since when data transfer is started (STARTDT), if it is.
    pub transfers_since: Option<u64>,
    /// The I formats that were sent and aren't acknowledged; none where the place is free.
    pub unacknowledged: u64,
    /// The observations that wait; none where the place is free.
    pub queued: u64,
    /// The observations that were dropped since too many waited.
    pub dropped: u64,
    /// Those of the last minute, also of clients that have left.
    pub dropped_lately: u64,
    /// Those of the last minute of the client that is connected.
    pub dropped_of_client: u64,
    /// Why connections of this place ended.
    pub closes: Closes,
    /// Why commands from this place were refused.
    pub refusals: Refusals,
}

/// How many connections ended, for each cause.
#[derive(Clone, Copy)]
pub struct Closes {
    /// t1 expired.
    pub timer: u64,
    /// A wrong sequence number.
    pub sequence: u64,
    /// An I format before STARTDT.
    pub not_started: u64,
    /// An ASDU of a wrong length or number of objects.
    pub malformed: u64,
    /// Too many answers would wait.
    pub flooded: u64,
    /// The connection was lost.
    pub lost: u64,
}

impl Closes {
    /// Each cause in a word, with its number.
    pub fn by_cause(self) -> [(&'static str, u64); 6] {
        [
            ("t1", self.timer),
            ("sequence", self.sequence),
            ("not_started", self.not_started),
            ("malformed", self.malformed),
            ("flooded", self.flooded),
            ("lost", self.lost),
        ]
    }
}

/// How many commands for controls were refused, for each cause.
#[derive(Clone, Copy)]
pub struct Refusals {
    /// A double command to no state.
    pub no_state: u64,
    /// A qualifier that isn't known.
    pub qualifier: u64,
    /// A value that leaves 16 bits.
    pub out_of_range: u64,
    /// The outstation is down.
    pub outstation_down: u64,
    /// Another client has selected the control.
    pub selected_by_another: u64,
    /// The control isn't selected.
    pub not_selected: u64,
    /// The execute is unlike its select.
    pub unlike_select: u64,
    /// As many orders wait for the outstation as may.
    pub no_place: u64,
}

impl Refusals {
    /// None.
    pub const NOTHING: Refusals = Refusals {
        no_state: 0,
        qualifier: 0,
        out_of_range: 0,
        outstation_down: 0,
        selected_by_another: 0,
        not_selected: 0,
        unlike_select: 0,
        no_place: 0,
    };

    /// Each cause in a word, with its number.
    pub fn by_cause(self) -> [(&'static str, u64); 8] {
        [
            ("no_state", self.no_state),
            ("qualifier", self.qualifier),
            ("out_of_range", self.out_of_range),
            ("outstation_down", self.outstation_down),
            ("selected_by_another", self.selected_by_another),
            ("not_selected", self.not_selected),
            ("unlike_select", self.unlike_select),
            ("no_place", self.no_place),
        ]
    }
}
