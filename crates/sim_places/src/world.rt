//! All that is played.

use crate::accepting_thread::{AcceptingThread, code_of};
use crate::centre::Centre;
use crate::connection::Wire;
use crate::registry::Registry;
use crate::scenario::{Number, Scenario};
use crate::stage::Stage;
use crate::worker::{SLOTS, Worker};
use gw_map::Settings;
use run_admission::{Network, Slots};
use run_clock::Clock;
use run_journal::Journal;
use run_peers::{Peers, Reporter, links_of};
use sim_peers::{Log, VirtualClock};
use std::alloc::{AllocError, Global};
use std::io::{self, BufWriter, Write};
use std::sync::Wait;

/// How often something may be done at one moment, before that is told as a fault.
const ROUNDS: u64 = 100_000;

/// The milliseconds in which all that still waits is served, once nobody comes any more.
const ENDING_MS: u64 = 600_000;

/// The networks from which centres connect, one for each of their addresses.
const NETWORKS: [&str; 8] = [
    "10.0.0.0/24",
    "10.0.1.0/24",
    "10.0.2.0/24",
    "10.0.3.0/24",
    "10.0.4.0/24",
    "10.0.5.0/24",
    "10.0.6.0/24",
    "10.0.7.0/24",
];

/// All that moves.
#[derive(Drop)]
struct World {
    centres: Vec<Centre>,
    accepting: AcceptingThread,
    workers: Vec<Worker>,
    registry: Registry,
}

impl World {
    /// When something is due.
    fn due<R: Wait>(&self, stage: &Stage<'_, R>) -> u64 {
        let mut due = self.accepting.due();
        for centre in &self.centres {
            due = due.min(centre.due());
        }
        for worker in &self.workers {
            due = due.min(worker.due(stage));
        }
        due
    }

    /// Does something of what is due at a moment.
    fn act<R: Wait>(&mut self, now: u64, stage: &Stage<'_, R>) {
        for centre in self.centres.iter_mut() {
            if centre.due() <= now {
                if let Some(client) = centre.act(now, &mut self.registry, stage.log) {
                    self.accepting.add(client);
                }
            }
        }
        if self.accepting.due() <= now {
            self.accept(now, stage);
        }
        self.work(now, stage);
    }

    /// Accepts clients.
    fn accept<R: Wait>(&mut self, now: u64, stage: &Stage<'_, R>) {
        let turned = self.accepting.act(now, stage);
        let mut has_changed = self.accepting.is_closed();
        for worker in self.workers.iter_mut() {
            has_changed = worker.notices_given(stage) || has_changed;
        }
        self.registry.tell_shut(stage.log);
        if let Some(awaited) = turned {
            stage.log.add("turned", &[code_of(awaited)]);
        }
        if has_changed {
            self.wake(now, stage);
        }
    }

    /// The workers look what has changed.
    fn wake<R: Wait>(&mut self, now: u64, stage: &Stage<'_, R>) {
        for worker in self.workers.iter_mut() {
            worker.wake(now, stage);
        }
    }

    /// The workers of all slots do what is due.
    fn work<R: Wait>(&mut self, now: u64, stage: &Stage<'_, R>) {
        let (is_closed, is_stopping) = (self.accepting.is_closed(), self.accepting.is_dismissed());
        let mut is_freed = false;
        for worker in self.workers.iter_mut() {
            if worker.due(stage) <= now {
                is_freed = worker.act(now, stage, is_closed, is_stopping) || is_freed;
            }
        }
        if is_freed {
            self.wake(now, stage);
        }
    }

    /// Nobody connects any more, and whoever is connected leaves.
    fn stop(&mut self) {
        for centre in self.centres.iter_mut() {
            centre.retire();
        }
        self.registry.leave_all();
    }

    /// Tells how many slots aren't free, and of how many connections the gateway has a handle, once all have left.
    fn tell_left(&mut self, log: &Log<'_>) {
        let mut busy: u64 = 0;
        for worker in &self.workers {
            busy = busy.saturating_add(u64::from(worker.is_busy()));
        }
        let backlog = self.accepting.forget();
        log.add("remaining", &[busy, self.registry.count_handled(), backlog]);
    }
}

/// Plays a scenario for so many milliseconds, and writes its lines; whether it could be played.
pub fn play_scenario<R: Wait + Print + AllocGlobal>(
    rt: &R,
    scenario: &Scenario,
    until: u64,
) -> io::Result<bool> {
    match peers_of(rt.alloc(), scenario) {
        Some(peers) => play_among(rt, scenario, until, &peers),
        None => Ok(false),
    }
}

/// What is known of the peers of a gateway with the settings of a scenario, where there is memory: nothing.
fn peers_of(alloc: Global, scenario: &Scenario) -> Option<Peers> {
    let settings = settings_of(alloc, scenario)?;
    peers_with(alloc, &settings)
}

/// The settings of a scenario.
fn settings_of(alloc: Global, scenario: &Scenario) -> Option<Settings> {
    let (t1_ms, t3_ms) = (scenario.of(Number::T1Ms), scenario.of(Number::T3Ms));
    let t2_ms = (t1_ms / 2).max(1);
    let text = format!(in alloc;
        "[station]
common_address = 1
t1_ms = {t1_ms}
t2_ms = {t2_ms}
t3_ms = {t3_ms}
[[outstation]]
address = 1
"
    )
    .ok()?;
    Settings::read(alloc, text.as_str()).ok()
}

/// The same, by settings.
fn peers_with(alloc: Global, settings: &Settings) -> Option<Peers> {
    let links = links_of(alloc, settings).ok()?;
    Peers::new(alloc, settings, &links, SLOTS, false, 0).ok()
}

/// The same, with what is known of peers.
fn play_among<R: Wait + Print + AllocGlobal>(
    rt: &R,
    scenario: &Scenario,
    until: u64,
    peers: &Peers,
) -> io::Result<bool> {
    let alloc = rt.alloc();
    match Journal::new(alloc, Vec::new(alloc), false) {
        Ok(journal) => play_told(rt, scenario, until, peers, &journal),
        Err(_) => Ok(false),
    }
}

/// The same, with a journal.
fn play_told<R: Wait + Print + AllocGlobal>(
    rt: &R,
    scenario: &Scenario,
    until: u64,
    peers: &Peers,
    journal: &Journal,
) -> io::Result<bool> {
    let clock = VirtualClock::new();
    let reporter = Reporter {
        alloc: rt.alloc(),
        rt,
        clock: &clock,
        peers,
        journal,
    };
    match Slots::<Wire>::new(rt.alloc(), SLOTS) {
        Ok(slots) => play_at(&reporter, scenario, until, &slots),
        Err(_) => Ok(false),
    }
}

/// The same, with the slots.
fn play_at<R: Wait + Print>(
    reporter: &Reporter<'_, R, VirtualClock>,
    scenario: &Scenario,
    until: u64,
    slots: &Slots<Wire>,
) -> io::Result<bool> {
    let allowed = allowed_by(reporter.alloc, scenario)?;
    let log = Log::new(reporter.alloc, reporter.clock);
    scenario.tell(&log);
    let stage = Stage {
        alloc: reporter.alloc,
        rt: reporter.rt,
        clock: reporter.clock,
        reporter,
        slots,
        allow: &allowed,
        log: &log,
        scenario,
    };
    play_on(&stage, until)?;
    Ok(true)
}

/// The networks that are allowed, where any is named.
fn allowed_by(alloc: Global, scenario: &Scenario) -> Result<Vec<Network>, AllocError> {
    let mut networks = Vec::new(alloc);
    let count = scenario.allowed_addresses().unwrap_or(0);
    for (number, text) in (0u64..).zip(&NETWORKS) {
        if number < count {
            if let Some(network) = Network::read(*text) {
                networks.push(network)?;
            }
        }
    }
    Ok(networks)
}

/// The same, on a stage.
fn play_on<R: Wait + Print>(stage: &Stage<'_, R>, until: u64) -> io::Result<()> {
    let mut writer = BufWriter::new(stage.alloc, io::writer(stage.rt))?;
    let mut world = World {
        centres: Vec::new(stage.alloc),
        accepting: AcceptingThread::new(stage),
        workers: Vec::new(stage.alloc),
        registry: Registry::new(stage.alloc),
    };
    fill(&mut world, stage)?;
    move_on(stage, &mut world, until, &mut writer)?;
    stage.log.add("stopping", &[]);
    world.stop();
    let end = until.saturating_add(ENDING_MS);
    move_on(stage, &mut world, end, &mut writer)?;
    world.tell_left(stage.log);
    stage.log.write(&mut writer)
}

/// The centres and the workers come.
fn fill<R: Wait>(world: &mut World, stage: &Stage<'_, R>) -> Result<(), AllocError> {
    for number in 0..stage.scenario.centres() {
        world.centres.push(Centre::new(stage.scenario, number))?;
    }
    for slot in 0..SLOTS {
        world.workers.push(Worker::new(stage, slot))?;
    }
    Ok(())
}

/// Lets all do what is due, moment by moment, until one comes.
fn move_on<R: Wait, W: Write>(
    stage: &Stage<'_, R>,
    world: &mut World,
    until: u64,
    writer: &mut W,
) -> io::Result<()> {
    let mut now = stage.clock.moment();
    let mut rounds: u64 = 0;
    for _ in 0..u64::MAX {
        let due = world.due(stage);
        if due > until || rounds > ROUNDS {
            break;
        }
        if due > now {
            now = due;
            rounds = 0;
            stage.clock.set(now);
            stage.log.write_many(writer)?;
        }
        rounds = rounds.saturating_add(1);
        world.act(now, stage);
    }
    if rounds > ROUNDS {
        stage.log.add("livelock", &[]);
    }
    Ok(())
}
