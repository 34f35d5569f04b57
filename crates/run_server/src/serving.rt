//! The whole server.
ghost use Rattle.std.specs.Prelude.{◌≡◌, ◌<◌, IfOk, IfSome, vec_len};
ghost use Rattle.std.specs.Thread.{IsSend, IsSync};
ghost use Rattle.law_running.specs.Kept.{IsKeptRun};
ghost use Rattle.run_shared.specs.Reached.{IsFirst};
ghost use Rattle.run_server.specs.Roles.{actors_of, roles_of, AreFirst};

use crate::options::Options;
use crate::thread_role::{ReturnedPasses, Serving, ThreadRole, add_roles};
use gw_hub::Hub;
use gw_map::Settings;
use gw_model::{CLIENTS, Memory};
use law_running::close;
use run_admission::{Slots, accept};
use run_clock::Clock;
use run_connections::{Calls, Closed, Course, Gate, Pass, Server, Shared, System};
use run_journal::Journal;
use run_peers::{OutstationLink, Peers, Reporter, links_of};
use run_shared::{Machine, Made, Opened, open_course};
use run_watch::{Identity, StatusSource, Watched};
use std::alloc::Global;
use std::marker::Brand;
use std::net::TcpListener;
use std::sync::ledger::Blank;
use std::thread::{self, JoinHandle, Scope, Threads};

/// Which gateway it is where that isn't said.
const NOBODY: Identity<'static> = Identity {
    site: None,
    file: "",
    digest: [0; 32],
    listen: None,
    version: "",
    commit: None,
};

/// Serves control centres on a listener, and outstations, as settings say: until so many connections of control centres
/// have ended, or for ever. Gives how many calls were made on the core: in one history of steps, from the first state,
/// at each place of which all promises hold that `Hub::run` makes. What happens is told on standard error.
///
/// # Errors
///
/// `Memory` where memory, or a thread, is refused before the first connection is accepted.
pub fn serve<R: System, C: Clock + Sync, G: Gate + Sync>(
    alloc: Global,
    rt: &R,
    settings: Settings,
    listener: &TcpListener,
    sessions: Option<u32>,
    clock: &C,
    gate: &G,
) -> Result<Closed, Memory>
    ensures { IfOk result (λ closed. IsKeptRun settings closed.total) }
{
    // Lent, so that what may fail doesn't own them.
    let mut settings = Some(settings);
    serve_lent(alloc, rt, &mut settings, listener, sessions, clock, gate)
}

/// The same, with settings that are taken once all else is there.
fn serve_lent<R: System, C: Clock + Sync, G: Gate + Sync>(
    alloc: Global,
    rt: &R,
    settings: &mut Option<Settings>,
    listener: &TcpListener,
    sessions: Option<u32>,
    clock: &C,
    gate: &G,
) -> Result<Closed, Memory>
    ensures { IfOk result (λ closed. IfSome settings.old (λ lent. IsKeptRun lent closed.total)) }
{
    let journal = match settings {
        Some(lent) => journal_of(alloc, lent, false)?,
        None => return Err(Memory),
    };
    let options = Options {
        identity: NOBODY,
        sessions,
        allow: &[],
        until_eof: None,
        status: None,
        needs_centre: false,
        is_recorded: false,
        process: None,
        values: None,
        events: None,
    };
    match settings.take() {
        Some(taken) => serve_as(alloc, rt, taken, listener, options, &journal, clock, gate),
        None => Err(Memory),
    }
}

/// A journal for a run with these settings; with priorities where each line is to begin with one.
pub fn journal_of(
    alloc: Global,
    settings: &Settings,
    with_priority: bool,
) -> Result<Journal, Memory> {
    let mut places = Vec::with_capacity(alloc, settings.outstations().len())?;
    for outstation in settings.outstations() {
        places.push(outstation.connect.clone()?)?;
    }
    Journal::new(alloc, places, with_priority)
}

/// The same, with options; what happens is told to a journal.
///
/// # Errors
///
/// `Memory` where memory, or a thread, is refused before the first connection is accepted.
pub fn serve_as<R: System, C: Clock + Sync, G: Gate + Sync>(
    alloc: Global,
    rt: &R,
    settings: Settings,
    listener: &TcpListener,
    options: Options<'_>,
    journal: &Journal,
    clock: &C,
    gate: &G,
) -> Result<Closed, Memory>
    ensures { IfOk result (λ closed. IsKeptRun settings closed.total) }
{
    let (links, peers) = links_and_peers(
        alloc,
        &settings,
        options.status.is_some(),
        clock.moment(),
    )?;
    let source = options.status_source(listener, &links, clock.wall());
    let reporter = Reporter {
        alloc,
        rt,
        clock,
        peers: &peers,
        journal,
    };
    serve_settings(&reporter, &source, settings, gate)
}

/// The same, with what is known of peers.
fn serve_settings<R: System, C: Clock + Sync, G: Gate + Sync>(
    reporter: &Reporter<'_, R, C>,
    source: &StatusSource<'_>,
    settings: Settings,
    gate: &G,
) -> Result<Closed, Memory>
    ensures { IfOk result (λ closed. IsKeptRun settings closed.total) }
{
    let opening = opening_of(reporter.alloc, settings, source.outstations())?;
    let blank = Blank::new(opening.actors as u64);
    match open_course() {
        Some(history) => {
            serve_with::<Brand, Hub, R, C, G>(reporter, source, blank, history, opening, gate)
        }
        None => Err(Memory),
    }
}

/// The links to the outstations, and what is known of each of them and of each client, at a moment; with the points where
/// it is shown.
fn links_and_peers(
    alloc: Global,
    settings: &Settings,
    is_shown: bool,
    moment: u64,
) -> Result<(Vec<OutstationLink>, Peers), Memory> {
    let links = links_of(alloc, settings)?;
    let peers = Peers::new(alloc, settings, &links, CLIENTS, is_shown, moment)?;
    Ok((links, peers))
}

/// What a shared core is made of. The functions below know the hub as a `Machine` alone, so they are proved without its parts.
#[derive(Drop)]
struct Opening<M: Machine> {
    machine: M,
    outstations: u8,
    actors: usize,
    capacity: usize,
}

/// That of settings, with so many outstations.
fn opening_of(alloc: Global, settings: Settings, outstations: u8) -> Result<Opening<Hub>, Memory>
    ensures some { IfOk result (λ opening. 0 < opening.capacity) }
    ensures actors { IfOk result (λ opening. opening.actors ≡ actors_of opening.outstations) }
    ensures first { IfOk result (λ opening. IsFirst settings opening.machine) }
{
    let capacity = (settings.station().recorder as usize).max(1);
    let actors = 2 * (usize::from(outstations) + usize::from(CLIENTS)) + 1;
    let machine = Hub::new(alloc, settings)?;
    Ok(Opening {
        machine,
        outstations,
        actors,
        capacity,
    })
}

/// The same on a ledger of its own.
fn serve_with<
    L: Course + Send + Sync,
    M: Machine + Send + Sync,
    R: System,
    C: Clock + Sync,
    G: Gate + Sync,
>(
    reporter: &Reporter<'_, R, C>,
    source: &StatusSource<'_>,
    blank: Blank,
    history: Opened<Made>,
    opening: Opening<M>,
    gate: &G,
) -> Result<Closed, Memory>
    requires book { history.seen.book ≡ L.book }
    requires name { blank.name ≡ L.name }
    requires parts { (blank.parts ≡ L.parts) × (blank.parts ≡ opening.actors) }
    requires actors { opening.actors ≡ actors_of opening.outstations }
    requires some { 0 < opening.capacity }
    requires first { IsFirst L.setup (M.seen opening.machine) }
    requires roles { L.roles ≡ roles_of opening.outstations }
    ensures { IfOk result (λ closed. IsKeptRun L.setup closed.total) }
{
    let Opening {
        machine,
        outstations,
        actors,
        capacity,
    } = opening;
    let (shared, passes) = Shared::<L, M>::new(
        reporter.alloc,
        blank,
        history,
        machine,
        actors,
        capacity,
    )?;
    let watched = Watched { reporter, gate };
    let server = Server {
        reporter,
        shared: &shared,
        gate: &watched,
    };
    serve_in(&server, source, outstations, passes)
}

/// Serves with these passes, which come back and are counted together.
fn serve_in<
    'a,
    L: Course + Send + Sync,
    M: Machine + Send + Sync,
    R: System,
    C: Clock + Sync,
    G: Gate + Sync,
>(
    server: &'a Server<'a, Shared<L, M>, R, C, G>,
    source: &'a StatusSource<'a>,
    outstations: u8,
    passes: Vec<Pass<L>>,
) -> Result<Closed, Memory>
    requires passes { AreFirst passes.items }
    requires all { vec_len passes ≡ actors_of outstations }
    requires roles { L.roles ≡ roles_of outstations }
    ensures { IfOk result (λ closed. IsKeptRun L.setup closed.total) }
{
    let mut passes = passes;
    let mut roles = Vec::new(server.reporter.alloc);
    add_roles(&mut roles, &mut passes, outstations, source)?;
    let slots = Slots::new(server.reporter.alloc, CLIENTS)?;
    let serving = Serving {
        server,
        slots: &slots,
        source,
    };
    serving.perform_all(&mut roles, &mut passes)?;
    match close(server.shared, server.reporter.rt, passes) {
        Ok(closed) => Ok(closed),
        Err(_) => Err(Memory),
    }
}

impl<'a, 'b, S: Sync, R: System, C: Clock + Sync, G: Gate + Sync> Serving<'a, 'b, S, R, C, G> {
    /// Runs a thread for each role, the last one first, while clients are accepted; the passes come back.
    fn perform_all<L: Course + Send + Sync>(
        &self,
        roles: &mut Vec<ThreadRole<L>>,
        passes: &mut Vec<Pass<L>>,
    ) -> Result<(), Memory>
    where
        S: Calls<L>,
    {
        let reporter = self.server.reporter;
        let mut threads = Vec::with_capacity(reporter.alloc, roles.len())?;
        let is_complete = thread::scope(
            thread::scope_env(),
            reporter.rt,
            |scope| -> bool
                requires { IsSend L.row × IsSync L.row × IsSync S.row × IsSync R.row × IsSync C.row × IsSync G.row }
            {
                let is_complete = self.start_all(scope, roles, &mut threads);
                if is_complete {
                    accept(reporter, self.slots, &self.source.acceptor);
                } else {
                    self.server.shared.stop();
                    reporter.journal.close(reporter.rt);
                }
                self.end_all(&mut threads, passes);
                is_complete
            },
        );
        if is_complete { Ok(()) } else { Err(Memory) }
    }

    /// Starts a thread for each role, the last one first, until one can't be; whether all were.
    fn start_all<'s, E, L: Course + Send + Sync + 's>(
        &'s self,
        scope: &Scope<'s, E>,
        roles: &mut Vec<ThreadRole<L>>,
        threads: &mut Vec<JoinHandle<ReturnedPasses<L>>>,
    ) -> bool
    where
        S: Calls<L>,
    {
        for _ in 0..roles.len() {
            let Some(role) = roles.pop() else {
                break;
            };
            match scope.spawn(move || self.perform(role)) {
                Ok(thread) => {
                    let _ = threads.push(thread);
                }
                Err(_) => return false,
            }
        }
        true
    }

    /// Lets the threads end once no further client is accepted: those of the slots, then the others, and behind what still
    /// waited to be told the journal's. The passes come back. The thread that reads standard input was started last, behind
    /// those of the slots, and the journal's first.
    fn end_all<L: Course>(
        &self,
        threads: &mut Vec<JoinHandle<ReturnedPasses<L>>>,
        passes: &mut Vec<Pass<L>>,
    )
    where
        S: Calls<L>,
    {
        let (reporter, shared) = (self.server.reporter, self.server.shared);
        self.slots.close(reporter.rt);
        if self.source.acceptor.until_eof.is_some() {
            join_last(reporter.rt, threads, 1, passes);
            shared.stop();
            reporter.peers.dismiss_all(reporter.rt);
            self.slots.shut_all(reporter.rt);
        }
        join_last(reporter.rt, threads, usize::from(CLIENTS), passes);
        shared.stop();
        let others = threads.len().saturating_sub(1);
        join_last(reporter.rt, threads, others, passes);
        reporter.close();
        join_last(reporter.rt, threads, 1, passes);
    }
}

/// Waits for the ends of those threads that were started last, so many of them; their passes come back.
fn join_last<L: Course, R: Threads>(
    rt: &R,
    threads: &mut Vec<JoinHandle<ReturnedPasses<L>>>,
    count: usize,
    passes: &mut Vec<Pass<L>>,
) {
    for _ in 0..count {
        if let Some(thread) = threads.pop() {
            thread.join(rt).give(passes);
        }
    }
}
