//! The status, served on an address of its own.
ghost use Rattle.std.specs.Prelude.{None};

use crate::asked_values::{AskedValues, answer_values, refuse_values};
use crate::status_source::StatusSource;
use crate::values::Values;
use gw_model::Memory;
use run_admission::look_up_from_accept;
use run_clock::Clock;
use run_http::{HttpRequest, Query, RequestFault, Resource, answer, receive, refuse};
use run_peers::{ClientRecord, OutstationLink, OutstationRecord, Reporter, shut};
use run_shared::{Calls, Course, Figures, OrderCounts, pause};
use run_status::{
    ClientState, ClientStatus, Health, Life, Metrics, OrderStatus, OutstationStatus, Page,
    ProcessStatus, Status, Verdict, is_alive,
};
use std::alloc::Global;
use std::io::{self, ErrorKind, Read, Write};
use std::net::{TcpListener, TcpStream};
use std::rt::Clock as Sleeps;
use std::sync::Wait;
use std::time::Duration;

/// The milliseconds that a request may take to come, and those that its answer may take to be sent.
const LONGEST_MS: u64 = 2000;

/// The milliseconds that an answer with values of points may take to be sent.
const LONGEST_VALUES_MS: u64 = 10_000;

/// The milliseconds of one wait for octets of a request, or until octets of an answer are taken.
const LOOK_MS: u64 = 200;

/// How many such waits a read or a write has at most.
const LOOKS: u32 = 10;

/// The milliseconds in which the first octets of a request have to come: browsers also connect without a request.
const FIRST_MS: u64 = 500;

/// A connection that gives octets, or takes them, up to a moment.
#[derive(Drop)]
struct Punctual<'a, C> {
    stream: &'a TcpStream,
    clock: &'a C,
    began: u64,
    has_begun: bool,
    /// For how many milliseconds it is waited for once it has begun.
    longest_ms: u64,
}

impl<'a, C: Clock> Punctual<'a, C> {
    /// One that gives a request, and is waited for from now on.
    fn giving(stream: &'a TcpStream, clock: &'a C) -> Punctual<'a, C> {
        Punctual {
            stream,
            clock,
            began: clock.moment(),
            has_begun: false,
            longest_ms: LONGEST_MS,
        }
    }

    /// One that takes an answer, and is waited for so many milliseconds from now on.
    fn taking(stream: &'a TcpStream, clock: &'a C, longest_ms: u64) -> Punctual<'a, C> {
        Punctual {
            stream,
            clock,
            began: clock.moment(),
            has_begun: true,
            longest_ms,
        }
    }

    /// Whether it may be waited on.
    fn is_in_time(&self) -> bool {
        let passed = self.clock.moment().saturating_sub(self.began);
        passed
            < if self.has_begun {
                self.longest_ms
            } else {
                FIRST_MS
            }
    }
}

impl<'a, C: Clock> Read for Punctual<'a, C> {
    ghost remaining = { λ _. None };

    fn read(&mut self, buffer: &mut [u8]) -> io::Result<usize> {
        let mut stream = self.stream;
        for _ in 0..LOOKS {
            if !self.is_in_time() {
                break;
            }
            match stream.read(buffer) {
                Err(error) if error.kind() == ErrorKind::WouldBlock => {}
                other => {
                    self.has_begun = true;
                    return other;
                }
            }
        }
        Err(io::Error::from(ErrorKind::TimedOut))
    }
}

impl<'a, C: Clock> Write for Punctual<'a, C> {
    fn write(&mut self, octets: &[u8]) -> io::Result<usize> {
        let mut stream = self.stream;
        for _ in 0..LOOKS {
            if !self.is_in_time() {
                break;
            }
            match stream.write(octets) {
                Err(error) if error.kind() == ErrorKind::WouldBlock => {}
                other => return other,
            }
        }
        Err(io::Error::from(ErrorKind::TimedOut))
    }

    fn flush(&mut self) -> io::Result<()> {
        Ok(())
    }
}

/// Answers requests, one after another, until the server ends, where the status is served.
pub fn serve_status<L: Course, S: Calls<L>, R: Wait + Sleeps, C: Clock>(
    reporter: &Reporter<'_, R, C>,
    shared: &S,
    source: &StatusSource<'_>,
) {
    let Some(listener) = source.status else {
        return;
    };
    let mut looks_up = false;
    for _ in reporter.rt.forever() {
        if shared.stopping() {
            return;
        }
        // It may not wait where it can't come back.
        looks_up = looks_up || look_up_from_accept(listener);
        if looks_up {
            serve_next::<L, S, R, C>(reporter, shared, source, listener);
        } else {
            pause::<L, S, R>(reporter.rt, shared);
        }
    }
}

/// Answers the next request, if one comes in time.
fn serve_next<L: Course, S: Calls<L>, R: Wait + Sleeps, C: Clock>(
    reporter: &Reporter<'_, R, C>,
    shared: &S,
    source: &StatusSource<'_>,
    listener: &TcpListener,
) {
    match listener.accept() {
        Ok((stream, _)) => serve_request::<L, S, R, C>(reporter, shared, source, &stream),
        Err(error) if error.kind() == ErrorKind::WouldBlock => {}
        Err(_) => pause::<L, S, R>(reporter.rt, shared),
    }
}

/// Answers the request that comes on a connection, if one comes in time.
fn serve_request<L: Course, S: Calls<L>, R: Wait, C: Clock>(
    reporter: &Reporter<'_, R, C>,
    shared: &S,
    source: &StatusSource<'_>,
    stream: &TcpStream,
) {
    let _ = stream.set_read_timeout(Some(Duration::from_millis(LOOK_MS)));
    let _ = stream.set_write_timeout(Some(Duration::from_millis(LOOK_MS)));
    let mut query = Query::none();
    if let Some(request) = receive(&mut Punctual::giving(stream, reporter.clock), &mut query) {
        match (source.values, AskedValues::of(&request, &query)) {
            (Some(values), Some(asked)) => {
                serve_values(reporter, source, stream, values, asked, request.is_head);
            }
            _ => {
                if let Ok(text) = answer_to::<L, S, R, C>(reporter, shared, source, request) {
                    send(stream, reporter.clock, LONGEST_MS, text.as_str());
                }
            }
        }
    }
    shut(stream);
}

/// Answers a request for values of points. Only some are answered at a time, so that one who takes them slowly keeps nobody from
/// the rest of the status.
fn serve_values<R: Wait, C: Clock>(
    reporter: &Reporter<'_, R, C>,
    source: &StatusSource<'_>,
    stream: &TcpStream,
    values: &Values<'_>,
    asked: Result<AskedValues, RequestFault>,
    is_head: bool,
) {
    if !values.begin_asking() {
        if let Ok(text) = refuse_values(reporter.alloc, is_head) {
            send(stream, reporter.clock, LONGEST_MS, text.as_str());
        }
        return;
    }
    if let Ok(text) = answer_values(reporter, source, values, asked, is_head) {
        send(stream, reporter.clock, LONGEST_VALUES_MS, text.as_str());
    }
    values.end_asking();
}

/// Sends an answer, as far as it is taken within so many milliseconds.
fn send<C: Clock>(stream: &TcpStream, clock: &C, longest_ms: u64, text: &str) {
    let _ = Punctual::taking(stream, clock, longest_ms).write_all(text.as_bytes());
}

/// The answer to a request.
fn answer_to<L: Course, S: Calls<L>, R: Wait, C: Clock>(
    reporter: &Reporter<'_, R, C>,
    shared: &S,
    source: &StatusSource<'_>,
    request: HttpRequest,
) -> Result<String, Memory> {
    let tickless_ms = reporter.peers.last_tick.age(reporter.clock.moment());
    match request.asked {
        Err(refusal) => refuse(reporter.alloc, refusal, request.is_head),
        Ok(Resource::Points | Resource::PointsCsv | Resource::PointsJson) => {
            refuse(reporter.alloc, RequestFault::NotFound, request.is_head)
        }
        Ok(asked) if is_of_life(asked, tickless_ms) => {
            answer_life(reporter.alloc, asked, request.is_head, tickless_ms)
        }
        Ok(asked) => {
            let status = status_of(reporter, source, &shared.figures(reporter.rt), tickless_ms)?;
            answer_with(reporter.alloc, asked, request.is_head, &status)
        }
    }
}

/// Whether a request for something is answered by whether the core lives alone, which has made no tick for so many
/// milliseconds: its lock isn't waited for then.
fn is_of_life(asked: Resource, tickless_ms: u64) -> bool {
    match asked {
        Resource::Alive => true,
        Resource::Health => !is_alive(tickless_ms),
        _ => false,
    }
}

/// The answer to a request for something, by whether the core lives, which has made no tick for so many milliseconds.
fn answer_life(
    alloc: Global,
    asked: Resource,
    is_head: bool,
    tickless_ms: u64,
) -> Result<String, Memory> {
    let body = format!(in alloc; "{}", Life(tickless_ms))?;
    answer(
        alloc,
        asked,
        is_head,
        is_alive(tickless_ms),
        "",
        body.as_str(),
    )
}

/// The answer to a request for something, with a status.
fn answer_with(
    alloc: Global,
    asked: Resource,
    is_head: bool,
    status: &Status<'_>,
) -> Result<String, Memory> {
    let verdict = Verdict::of(alloc, status)?;
    let body = match asked {
        Resource::Metrics => format!(in alloc; "{}", Metrics(&*status))?,
        Resource::Page => page_of(alloc, status, &verdict)?,
        _ => health_of(alloc, status, &verdict)?,
    };
    let is_well = match asked {
        Resource::Health => verdict.is_without_alarm(),
        _ => true,
    };
    answer(alloc, asked, is_head, is_well, "", body.as_str())
}

/// The page of a status.
fn page_of(alloc: Global, status: &Status<'_>, verdict: &Verdict) -> Result<String, Memory> {
    let page = Page {
        status: &*status,
        verdict: &*verdict,
    };
    Ok(format!(in alloc; "{page}")?)
}

/// The health of a status.
fn health_of(alloc: Global, status: &Status<'_>, verdict: &Verdict) -> Result<String, Memory> {
    let health = Health {
        status: &*status,
        verdict: &*verdict,
    };
    Ok(format!(in alloc; "{health}")?)
}

/// How the gateway is now, with what is counted, where the core has made no tick for so many milliseconds.
fn status_of<'a, R: Wait, C: Clock>(
    reporter: &Reporter<'_, R, C>,
    source: &StatusSource<'a>,
    counted: &Figures,
    tickless_ms: u64,
) -> Result<Status<'a>, Memory> {
    let records = if source.is_recorded {
        Some(!reporter.journal.has_record_ended())
    } else {
        None
    };
    Ok(Status {
        identity: source.identity,
        now: reporter.clock.wall(),
        started: source.started,
        tickless_ms,
        steps: counted.calls,
        news: counted.news,
        outstations: outstations_of(reporter, source, counted)?,
        clients: clients_of(reporter, counted)?,
        needs_centre: source.needs_centre,
        records,
        not_allowed: reporter.peers.not_allowed(),
        left_out: reporter.journal.left_out(reporter.rt),
        process: process_of(source),
        passed_over: source
            .values
            .map(|values| values.head(reporter.rt).passed_over),
        events_left_out: source.events.map(|events| events.left_out()),
    })
}

/// What the process takes, if the system tells.
fn process_of(source: &StatusSource<'_>) -> Option<ProcessStatus> {
    source.process?.read()
}

/// How it is with each outstation.
fn outstations_of<R: Wait, C: Clock>(
    reporter: &Reporter<'_, R, C>,
    source: &StatusSource<'_>,
    counted: &Figures,
) -> Result<Vec<OutstationStatus>, Memory> {
    let records = reporter.peers.outstations();
    let mut outstations = Vec::with_capacity(reporter.alloc, records.len())?;
    for (position, record) in records.iter().enumerate() {
        if let (Some(link), Some(orders)) = (
            source.links.get(position),
            counted.orders.get(position),
        ) {
            let name = name_at(reporter, position)?;
            outstations.push(outstation_status(reporter, source, record, link, name, *orders)?)?;
        }
    }
    Ok(outstations)
}

/// What the outstation at a position is called; nothing where it has no name.
fn name_at<R: Wait, C: Clock>(
    reporter: &Reporter<'_, R, C>,
    position: usize,
) -> Result<String, Memory> {
    let outstation = u8::try_from(position).unwrap_or(u8::MAX);
    let name = reporter.journal.name_of(outstation).unwrap_or("");
    Ok(String::from_str(reporter.alloc, name)?)
}

/// How it is with each slot for a client.
fn clients_of<R: Wait, C: Clock>(
    reporter: &Reporter<'_, R, C>,
    counted: &Figures,
) -> Result<Vec<ClientStatus>, Memory> {
    let records = reporter.peers.clients();
    let mut clients = Vec::with_capacity(reporter.alloc, records.len())?;
    for (slot, record) in records.iter().enumerate() {
        clients.push(client_status(reporter.rt, record, counted, slot))?;
    }
    Ok(clients)
}

/// How it is with an outstation of a name that is reached over this link, and with its orders.
fn outstation_status<R: Wait, C: Clock>(
    reporter: &Reporter<'_, R, C>,
    source: &StatusSource<'_>,
    record: &OutstationRecord,
    link: &OutstationLink,
    name: String,
    orders: OrderCounts,
) -> Result<OutstationStatus, Memory> {
    let place = link.connect.clone()?;
    let figures = record.figures.lock(reporter.rt);
    let reason = format!(in reporter.alloc; "{}", figures.absence)?;
    Ok(OutstationStatus {
        name,
        place,
        address: link.peer,
        common_address: link.common_address,
        is_given_time: link.is_given_time,
        state: figures.state,
        state_since: figures.state_since.unwrap_or(source.started),
        reason,
        connected_since: figures.connected_since,
        has_answered: figures.has_answered(),
        last_answer: figures.last_answer,
        requests: figures.requests,
        unanswered: figures.unanswered,
        refused: figures.refused,
        skipped: figures.skipped,
        passed_over: figures.passed_over,
        indications: figures.indications,
        is_clock_not_set: figures.is_clock_not_set(),
        events: figures.events,
        points: record.point_status(reporter.rt, figures.has_told_all()),
        orders: orders_of(orders),
    })
}

/// The orders of an outstation.
fn orders_of(counts: OrderCounts) -> OrderStatus {
    OrderStatus {
        accepted: counts.accepted,
        done: counts.done,
        failed: counts.failed,
        let_go: counts.let_go,
        waiting: counts.waiting(),
    }
}

/// How it is with the slot at a position. What is said of the client that has it isn't said where nobody has.
fn client_status<R: Wait>(
    rt: &R,
    record: &ClientRecord,
    counted: &Figures,
    slot: usize,
) -> ClientStatus {
    let dropped = counted.dropped.get(slot).copied().unwrap_or(0);
    let figures = record.figures.lock(rt);
    let state = figures.state(dropped);
    let (unacknowledged, queued) = match state {
        ClientState::Free => (0, 0),
        _ => (
            number_at(&counted.unacknowledged, slot),
            number_at(&counted.queued, slot),
        ),
    };
    ClientStatus {
        address: figures.address,
        state,
        connected_since: figures.connected_since,
        transfers_since: figures.transfers_since,
        unacknowledged,
        queued,
        dropped,
        dropped_lately: figures.dropped_lately(dropped),
        dropped_of_client: figures.dropped_of_client(dropped),
        closes: figures.closes,
        refusals: figures.refusals,
    }
}

/// The number at a position; 0 behind the last one.
fn number_at(numbers: &[usize], position: usize) -> u64 {
    match numbers.get(position) {
        Some(number) => *number as u64,
        None => 0,
    }
}
