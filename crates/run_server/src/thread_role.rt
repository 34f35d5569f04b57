//! What the server's threads do.
ghost use Rattle.std.specs.Prelude.{◌≡◌, ◌+◌, ◌*◌, ◌≤◌, IfOk, vec_len};
ghost use Rattle.run_server.specs.Roles.{actors_of, roles_of, AreFirst};

use gw_model::{CLIENTS, Memory};
use run_admission::{Slots, await_end};
use run_clock::Clock;
use run_connections::{
    Calls, ClientPasses, Course, Gate, OutstationPasses, Pass, Passes, PollPass, PumpPass, Server,
    System, clock,
};
use run_watch::{StatusSource, follow, serve_status};

/// How many threads serve the status: a request that comes slowly, or whose answer is taken slowly, keeps one of them.
const STATUS_THREADS: u8 = 4;

/// What one thread does, until the server ends.
#[derive(Drop)]
pub enum ThreadRole<L: Course> {
    /// Writes the journal.
    Journal,
    /// Tells what is due once in a while.
    PeriodicReport,
    /// Serves the status, beside others.
    Status,
    /// Follows the news.
    Follower,
    /// Makes the ticks.
    Clock(Pass<L>),
    /// Keeps the connection to an outstation.
    Outstation(OutstationPasses<L>),
    /// Serves the clients of a slot.
    Slot(ClientPasses<L>),
    /// Waits for the end of standard input.
    Input,
}

/// The passes that a thread gives back.
#[derive(Drop)]
pub enum ReturnedPasses<L: Course> {
    Nothing,
    One(Pass<L>),
    Both { reader: Pass<L>, writer: Pass<L> },
}

/// What all threads of a server share.
#[derive(Drop)]
pub struct Serving<'a, 'b, S, R, C, G> {
    pub server: &'a Server<'a, S, R, C, G>,
    pub slots: &'b Slots,
    pub source: &'a StatusSource<'a>,
}

impl<'a, 'b, S: Sync, R: System, C: Clock + Sync, G: Gate + Sync> Serving<'a, 'b, S, R, C, G> {
    /// Does what a thread has to do.
    pub fn perform<L: Course + Send + Sync>(&self, role: ThreadRole<L>) -> ReturnedPasses<L>
    where
        S: Calls<L>,
    {
        let (server, source) = (self.server, self.source);
        let reporter = server.reporter;
        match role {
            ThreadRole::Journal => reporter.journal.write_on(reporter.rt),
            ThreadRole::PeriodicReport => server.report_periodically::<L>(),
            ThreadRole::Status => serve_status::<L, S, R, C>(reporter, server.shared, source),
            ThreadRole::Follower => follow::<L, S, R, C>(reporter, server.shared, source),
            ThreadRole::Input => await_end(reporter.rt, self.slots, &source.acceptor),
            ThreadRole::Clock(pass) => {
                let (pass, _) = clock(
                    reporter.rt,
                    server.shared,
                    pass,
                    reporter.clock,
                    server.gate,
                );
                return ReturnedPasses::One(pass);
            }
            ThreadRole::Outstation(passes) => {
                let link = source.links.get(usize::from(passes.writer.outstation()));
                let Passes { reader, writer } = match link {
                    Some(link) => server.serve_outstation(link, passes),
                    None => passes,
                };
                let (writer, _) = writer.into_parts();
                return ReturnedPasses::Both { reader, writer };
            }
            ThreadRole::Slot(passes) => {
                let Passes { reader, writer } = server.serve_slot(self.slots, passes);
                let (writer, _) = writer.into_parts();
                return ReturnedPasses::Both { reader, writer };
            }
        }
        ReturnedPasses::Nothing
    }
}

impl<L: Course> ReturnedPasses<L> {
    /// Puts them among others.
    pub fn give(self, passes: &mut Vec<Pass<L>>) {
        match self {
            ReturnedPasses::Nothing => {}
            ReturnedPasses::One(pass) => {
                let _ = passes.push(pass);
            }
            ReturnedPasses::Both { reader, writer } => {
                let _ = passes.push(reader);
                let _ = passes.push(writer);
            }
        }
    }
}

/// Adds a role for each thread, in the order in which they end: that of standard input, where its end is awaited,
/// those of the slots and of the outstations, the last ones first, the clock's, that of the status, where it is
/// served, that of who follows the news, where anybody does, the periodic report's and the journal's. `passes` are
/// those of all actors; they are used up.
pub fn add_roles<L: Course>(
    roles: &mut Vec<ThreadRole<L>>,
    passes: &mut Vec<Pass<L>>,
    outstations: u8,
    source: &StatusSource<'_>,
) -> Result<(), Memory>
    requires passes { AreFirst passes.old.items }
    requires all { vec_len passes.old ≡ actors_of outstations }
    requires roles { L.roles ≡ roles_of outstations }
{
    let clock = last(passes)?;
    if source.acceptor.until_eof.is_some() {
        add(roles, ThreadRole::Input)?;
    }
    add_slots(roles, passes, outstations)?;
    add_outstations(roles, passes, outstations)?;
    add(roles, ThreadRole::Clock(clock))?;
    add_others(roles, source)
}

/// Adds the roles of the slots for clients.
fn add_slots<L: Course>(
    roles: &mut Vec<ThreadRole<L>>,
    passes: &mut Vec<Pass<L>>,
    outstations: u8,
) -> Result<(), Memory>
    requires passes { AreFirst passes.old.items }
    requires all { vec_len passes.old ≡ 2 * (outstations + 8) }
    requires roles { L.roles ≡ roles_of outstations }
    ensures passes { IfOk result (λ done. AreFirst passes.new.items) }
    ensures rest { IfOk result (λ done. vec_len passes.new ≡ 2 * outstations) }
{
    let mut slot = CLIENTS;
    'slots: while slot > 0 {
        slot -= 1;
        let writer = last(passes)?;
        let reader = last(passes)?;
        let writer = PumpPass::new(writer, slot);
        add(roles, ThreadRole::Slot(Passes { reader, writer }))?;
    }
    Ok(())
}

/// Adds the roles of the outstations.
fn add_outstations<L: Course>(
    roles: &mut Vec<ThreadRole<L>>,
    passes: &mut Vec<Pass<L>>,
    outstations: u8,
) -> Result<(), Memory>
    requires passes { AreFirst passes.old.items }
    requires all { vec_len passes.old ≡ 2 * outstations }
    requires roles { L.roles ≡ roles_of outstations }
{
    let mut outstation = outstations;
    'outstations: while outstation > 0 {
        outstation -= 1;
        let writer = last(passes)?;
        let reader = last(passes)?;
        let writer = PollPass::new(writer, outstation);
        add(roles, ThreadRole::Outstation(Passes { reader, writer }))?;
    }
    Ok(())
}

/// Adds the roles of the status, of following the news, the periodic report and the journal.
fn add_others<L: Course>(
    roles: &mut Vec<ThreadRole<L>>,
    source: &StatusSource<'_>,
) -> Result<(), Memory> {
    if source.status.is_some() {
        for _ in 0..STATUS_THREADS {
            add(roles, ThreadRole::Status)?;
        }
    }
    if source.values.is_some() || source.events.is_some() {
        add(roles, ThreadRole::Follower)?;
    }
    add(roles, ThreadRole::PeriodicReport)?;
    add(roles, ThreadRole::Journal)
}

/// Adds a role.
fn add<L: Course>(roles: &mut Vec<ThreadRole<L>>, role: ThreadRole<L>) -> Result<(), Memory> {
    roles.push(role)?;
    Ok(())
}

/// The last pass, which is that of the last actor.
fn last<L: Course>(passes: &mut Vec<Pass<L>>) -> Result<Pass<L>, Memory>
    requires { AreFirst passes.old.items }
    ensures passes { AreFirst passes.new.items }
    ensures count { IfOk result (λ pass. vec_len passes.old ≡ vec_len passes.new + 1) }
    ensures actor { IfOk result (λ pass. pass.actor ≡ vec_len passes.new) }
{
    match passes.pop() {
        Some(pass) => Ok(pass),
        None => Err(Memory),
    }
}
