//! The whole gateway and its peers in one thread of virtual time.
ghost use Rattle.std.specs.Prelude.{◌≡◌, ◌+◌, false, None};

use crate::centres::{Centres, Gathers};
use crate::ends::{Outbox, Outlet};
use crate::outstation_part::OutstationPart;
use crate::passes::{Workers, two_of};
use crate::scene::{Lent, Pair, Part, Scene};
use crate::ticker::Ticker;
use gw_threads::{Clock, Gate};
use run_ends::{Line, LineCourse, Opened, Sending, open_line};
use run_shared::{Calls, Course, Pass};
use sim_peers::{FIRST_LINK, MASTER, Outstation};
use std::io::{self, Write};
use std::marker::Brand;
use std::sync::Wait;

/// How often something may be done at one moment, before that is told as a fault.
const ROUNDS: u64 = 100_000;

/// The milliseconds in which all workers end, once they are asked to.
const ENDING_MS: u64 = 10_000;

/// So many outstations at most: each has a line of a type of its own, so a type tells how many they are.
pub trait Outstations {
    /// Adds the outstations from a number on, and plays with them and the rest.
    fn add<L: Course, S: Calls<L>, R: Wait, G: Gate, P: Part, W: Write>(
        scene: &Scene<'_, L, S, R, G>,
        number: u8,
        rest: &mut P,
        passes: &mut Vec<Pass<L>>,
        writer: &mut W,
    ) -> io::Result<()>;
}

/// None.
pub struct Nobody;

/// One more than others.
pub struct OneMore<O> {
    others: O,
}

impl Outstations for Nobody {
    fn add<L: Course, S: Calls<L>, R: Wait, G: Gate, P: Part, W: Write>(
        scene: &Scene<'_, L, S, R, G>,
        _number: u8,
        rest: &mut P,
        _passes: &mut Vec<Pass<L>>,
        writer: &mut W,
    ) -> io::Result<()> {
        play_all::<L, S, R, G, P, W>(scene, rest, writer)
    }
}

impl<O: Outstations> Outstations for OneMore<O> {
    fn add<L: Course, S: Calls<L>, R: Wait, G: Gate, P: Part, W: Write>(
        scene: &Scene<'_, L, S, R, G>,
        number: u8,
        rest: &mut P,
        passes: &mut Vec<Pass<L>>,
        writer: &mut W,
    ) -> io::Result<()> {
        match scene.stage.outstations.get(usize::from(number)) {
            Some(outbox) => add_next::<O, L, S, R, G, P, W>(
                scene, number, outbox, rest, passes, writer,
            ),
            None => play_all::<L, S, R, G, P, W>(scene, rest, writer),
        }
    }
}

/// Opens the line of an outstation, and adds that.
fn add_next<'a, O: Outstations, L: Course, S: Calls<L>, R: Wait, G: Gate, P: Part, W: Write>(
    scene: &Scene<'a, L, S, R, G>,
    number: u8,
    outbox: &'a Outbox,
    rest: &mut P,
    passes: &mut Vec<Pass<L>>,
    writer: &mut W,
) -> io::Result<()> {
    match open_line() {
        Some(history) => add_one::<O, L, Brand, S, R, G, P, W>(
            scene, number, outbox, history, rest, passes, writer,
        ),
        None => Ok(()),
    }
}

/// Adds an outstation and those behind it, and plays with them and the rest.
fn add_one<
    'a,
    O: Outstations,
    L: Course,
    N: LineCourse,
    S: Calls<L>,
    R: Wait,
    G: Gate,
    P: Part,
    W: Write,
>(
    scene: &Scene<'a, L, S, R, G>,
    number: u8,
    outbox: &'a Outbox,
    history: Opened<Sending>,
    rest: &mut P,
    passes: &mut Vec<Pass<L>>,
    writer: &mut W,
) -> io::Result<()>
    requires book { history.seen.book ≡ N.book }
    requires addresses { (N.own ≡ 1024) × (N.peer ≡ 10 + number) }
    requires first { (N.first ≡ None) × (N.failed ≡ false) }
{
    let address = FIRST_LINK + u16::from(number);
    let line: Line<Outlet<'_>, N> = Line::new(Outlet::new(outbox), MASTER, address, history);
    let peer = Outstation::new(scene.alloc, scene.scenario, u64::from(number))?;
    let Some(two) = two_of(passes) else {
        return Ok(());
    };
    let mut part = OutstationPart::new(scene, number, peer, outbox, &line, two);
    let played = add_behind::<O, L, S, R, G, _, P, W>(
        scene, number, &mut part, rest, passes, writer,
    );
    part.give(passes);
    played
}

/// Adds the outstations behind one, and plays with it, them and the rest.
fn add_behind<O: Outstations, L: Course, S: Calls<L>, R: Wait, G: Gate, A: Part, P: Part, W: Write>(
    scene: &Scene<'_, L, S, R, G>,
    number: u8,
    part: &mut A,
    rest: &mut P,
    passes: &mut Vec<Pass<L>>,
    writer: &mut W,
) -> io::Result<()> {
    let mut all = Lent {
        first: part,
        second: rest,
    };
    let next = number.saturating_add(1);
    O::add::<L, S, R, G, _, W>(scene, next, &mut all, passes, writer)
}

/// Plays with the clock and the control centres, and such outstations. The passes come back.
pub fn play<O: Outstations, L: Course, S: Calls<L>, R: Wait, G: Gate, W: Write>(
    scene: &Scene<'_, L, S, R, G>,
    passes: &mut Vec<Pass<L>>,
    writer: &mut W,
) -> io::Result<()> {
    let Some(pass) = passes.pop() else {
        return Ok(());
    };
    add_clock::<O, L, S, R, G, _, W>(scene, pass, Centres::new(scene), passes, writer)
}

/// Adds the clock, and plays with it, such outstations and the rest.
fn add_clock<
    O: Outstations,
    L: Course,
    S: Calls<L>,
    R: Wait,
    G: Gate,
    P: Gathers<L> + Drop,
    W: Write,
>(
    scene: &Scene<'_, L, S, R, G>,
    pass: Pass<L>,
    rest: P,
    passes: &mut Vec<Pass<L>>,
    writer: &mut W,
) -> io::Result<()> {
    let mut centres = rest;
    centres.gather(passes)?;
    let mut all = Pair {
        first: Ticker::new(scene, pass),
        second: centres,
    };
    let played = O::add::<L, S, R, G, _, W>(scene, 0, &mut all, passes, writer);
    all.give(passes);
    played
}

/// Plays with all parts, until the workers have ended.
fn play_all<L: Course, S: Calls<L>, R: Wait, G: Gate, P: Part, W: Write>(
    scene: &Scene<'_, L, S, R, G>,
    all: &mut P,
    writer: &mut W,
) -> io::Result<()> {
    move_on(scene, all, scene.until, writer)?;
    scene.log.add("stopping", &[]);
    scene.shared.stop();
    let end = scene.until.saturating_add(ENDING_MS);
    move_on(scene, all, end, writer)?;
    scene.log.add("left", &[all.at_work()]);
    Ok(())
}

/// Lets all do what is due, moment by moment, until one comes.
fn move_on<L: Course, S, R, G, P: Part, W: Write>(
    scene: &Scene<'_, L, S, R, G>,
    all: &mut P,
    until: u64,
    writer: &mut W,
) -> io::Result<()> {
    let mut now = scene.clock.moment();
    let mut rounds: u64 = 0;
    for _ in 0..u64::MAX {
        let due = all.due();
        if due > until || rounds > ROUNDS {
            break;
        }
        if due > now {
            now = due;
            rounds = 0;
            scene.clock.set(now);
            scene.log.write_many(writer)?;
        }
        rounds = rounds.saturating_add(1);
        all.act(now);
    }
    if rounds > ROUNDS {
        scene.log.add("livelock", &[]);
    }
    Ok(())
}
