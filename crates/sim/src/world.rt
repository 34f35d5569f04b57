//! The core that is played on.
ghost use Rattle.std.specs.Prelude.{◌≡◌, IfSome};
ghost use Rattle.run_shared.specs.Roles.{anybody};
ghost use Rattle.run_shared.specs.Reached.{IsFirst};

use crate::play::{Nobody, OneMore, play};
use crate::scene::{Scene, Stage};
use crate::witness::Witness;
use gw_hub::Hub;
use gw_map::Settings;
use run_shared::{Course, Made, Opened, Pass, Shared, open_course};
use sim_peers::{Log, Scenario, VirtualClock, settings_of};
use std::alloc::Global;
use std::io::{self, BufWriter};
use std::marker::{Brand, PhantomData};
use std::sync::Wait;
use std::sync::ledger::Blank;

/// Two more outstations than of a type, and eight more.
type TwoMore<O> = OneMore<OneMore<O>>;

type EightMore<O> = TwoMore<TwoMore<TwoMore<TwoMore<O>>>>;

/// As many outstations as a gateway has at most.
type ThirtyTwo = EightMore<EightMore<EightMore<EightMore<Nobody>>>>;

/// How many actors there are: two for each of 32 outstations and eight control centres, and the clock.
const ACTORS: usize = 81;

/// How many calls the recorder keeps.
const RECORDED: usize = 256;

/// What the core is made of: a ledger for its actors, a history without calls, and a hub on which no step was made.
pub struct Opening {
    pub blank: Blank,
    pub history: Opened<Made>,
    pub hub: Hub,
}

/// Plays a scenario for so many milliseconds, and writes its lines; whether it could be played.
pub fn play_scenario<R: Wait + Print + AllocGlobal>(
    rt: &R,
    scenario: &Scenario,
    until: u64,
) -> io::Result<bool> {
    match opening_of(rt.alloc(), scenario) {
        Some(opening) => play_on::<Brand, R>(rt, scenario, opening, until),
        None => Ok(false),
    }
}

/// A hub with the settings of a scenario, where there is memory.
fn hub_of(alloc: Global, scenario: &Scenario) -> Option<Hub>
    ensures { IfSome result (λ hub. IsFirst hub.setup hub) }
{
    let text = settings_of(alloc, scenario).ok()?;
    let settings = Settings::read(alloc, text.as_str()).ok()?;
    match Hub::new(alloc, settings) {
        Ok(hub) => Some(hub),
        Err(_) => None,
    }
}

/// What the core of a scenario is made of.
fn opening_of(alloc: Global, scenario: &Scenario) -> Option<Opening>
    ensures parts { IfSome result (λ opening. opening.blank.parts ≡ 81) }
    ensures first { IfSome result (λ opening. IsFirst opening.hub.setup opening.hub) }
{
    let hub = hub_of(alloc, scenario)?;
    let history = open_course()?;
    Some(Opening {
        blank: Blank::new(ACTORS as u64),
        history,
        hub,
    })
}

/// The same, on a core.
fn play_on<L: Course, R: Wait + Print + AllocGlobal>(
    rt: &R,
    scenario: &Scenario,
    opening: Opening,
    until: u64,
) -> io::Result<bool>
    requires name { opening.blank.name ≡ L.name }
    requires parts { (opening.blank.parts ≡ L.parts) × (opening.blank.parts ≡ 81) }
    requires book { opening.history.seen.book ≡ L.book }
    requires first { IsFirst L.setup opening.hub }
    requires roles { L.roles ≡ anybody }
{
    let Opening {
        blank,
        history,
        hub,
    } = opening;
    match Shared::<L, Hub>::new(rt.alloc(), blank, history, hub, ACTORS, RECORDED) {
        Ok((shared, passes)) => play_with(rt, scenario, &shared, passes, until),
        Err(_) => Ok(false),
    }
}

/// The same, with the passes of all actors.
fn play_with<L: Course, R: Wait + Print + AllocGlobal>(
    rt: &R,
    scenario: &Scenario,
    shared: &Shared<L, Hub>,
    passes: Vec<Pass<L>>,
    until: u64,
) -> io::Result<bool>
    requires roles { L.roles ≡ anybody }
{
    let clock = VirtualClock::new();
    play_by(rt, scenario, shared, passes, until, &clock)
}

/// The same, by a clock.
fn play_by<L: Course, R: Wait + Print + AllocGlobal>(
    rt: &R,
    scenario: &Scenario,
    shared: &Shared<L, Hub>,
    passes: Vec<Pass<L>>,
    until: u64,
    clock: &VirtualClock,
) -> io::Result<bool>
    requires roles { L.roles ≡ anybody }
{
    let log = Log::new(rt.alloc(), clock);
    let stage = Stage::new(rt.alloc(), scenario.outstations(), scenario.centres())?;
    scenario.tell(&log);
    play_told(rt, scenario, shared, passes, until, clock, &log, &stage)
}

/// The same, told to a log.
fn play_told<L: Course, R: Wait + Print + AllocGlobal>(
    rt: &R,
    scenario: &Scenario,
    shared: &Shared<L, Hub>,
    passes: Vec<Pass<L>>,
    until: u64,
    clock: &VirtualClock,
    log: &Log<'_>,
    stage: &Stage,
) -> io::Result<bool>
    requires roles { L.roles ≡ anybody }
{
    let gate = Witness::new(log);
    play_in(
        rt, scenario, shared, passes, until, clock, log, stage, &gate,
    )
}

/// The same, in a scene.
fn play_in<'x, L: Course, R: Wait + Print + AllocGlobal>(
    rt: &'x R,
    scenario: &'x Scenario,
    shared: &'x Shared<L, Hub>,
    passes: Vec<Pass<L>>,
    until: u64,
    clock: &'x VirtualClock,
    log: &'x Log<'x>,
    stage: &'x Stage,
    gate: &'x Witness<'x>,
) -> io::Result<bool>
    requires roles { L.roles ≡ anybody }
{
    let scene = Scene {
        alloc: rt.alloc(),
        rt,
        shared,
        clock,
        gate,
        log,
        scenario,
        stage,
        until,
        of: PhantomData,
    };
    let mut writer = BufWriter::new(rt.alloc(), io::writer(rt))?;
    let mut passes = passes;
    play::<ThirtyTwo, L, _, _, _, _>(&scene, &mut passes, &mut writer)?;
    let count = passes.len() as u64;
    if let Ok(closed) = shared.close(rt, passes) {
        log.add("total", &[count, closed.total]);
    }
    log.write(&mut writer)?;
    Ok(true)
}
