//! Tests of the workers over memory: two outstations and two clients at once, some of whose workers are held while the
//! others go on.
ghost use Rattle.std.specs.Prelude.{◌≡◌, false, None};
ghost use Rattle.run_shared.specs.Roles.{anybody};
ghost use Rattle.test_tools.specs.Opening.{IsFor};

use crate::checks::same;
use crate::held::{
    CLIENT_0_READER, CLIENT_0_WRITER, CLIENT_1_READER, CLIENT_1_WRITER, Held, OUTSTATION_0_READER,
    OUTSTATION_1_READER,
};
use crate::kept::{check_client, check_outstations, is_answered_first};
use crate::sent::{Taker, check_sent};
use std::marker::{Brand, PhantomData};
use std::process::Abort;
use std::rt::Clock as Sleeps;
use std::sync::atomic::{AtomicBool, AtomicU64, Ordering};
use std::sync::{Mutex, Wait};
use std::thread::{self, Threads};
use test_tools::{
    Calls, Client, Course, Entry, FROM_CLIENT, Line, LineCourse, MASTER, Opened, Opening, Pass,
    SOURCES, Sending, Sent, Still, TWO_OUTSTATIONS, TestCore, Turn, WorkerEnd, client_writer,
    clock, entries_since, open_line, outstation_writer, read_client, read_outstation,
};

/// How many calls the recorder keeps: more than the workers make.
const ROOM: usize = 4096;

/// What workers wait, sleep and end with.
trait Host: Threads + Wait + Sleeps + Abort + AllocGlobal + Sync {}

impl<R: Threads + Wait + Sleeps + Abort + AllocGlobal + Sync> Host for R {}

/// What a worker does: for a peer, by its position among the outstations or clients; or the ticks.
#[derive(Clone, Copy)]
enum Role {
    ReadOutstation(u8),
    WriteOutstation(u8),
    ReadClient(u8),
    WriteClient(u8),
    Tick,
}

/// The workers, by the positions of their actors, and how they end.
const WORKERS: &[(Role, WorkerEnd)] = &[
    (Role::ReadOutstation(0), WorkerEnd::EndOfInput),
    (Role::WriteOutstation(0), WorkerEnd::Stopping),
    (Role::ReadOutstation(1), WorkerEnd::EndOfInput),
    (Role::WriteOutstation(1), WorkerEnd::Stopping),
    (Role::ReadClient(0), WorkerEnd::EndOfInput),
    (Role::WriteClient(0), WorkerEnd::Stopping),
    (Role::ReadClient(1), WorkerEnd::EndOfInput),
    (Role::WriteClient(1), WorkerEnd::Stopping),
    (Role::Tick, WorkerEnd::Stopping),
];

/// What all workers share.
#[derive(Drop)]
struct Scene<'a, 'b, L: Course, S: Calls<L>, M: LineCourse, N: LineCourse, R: Wait> {
    rt: &'a R,
    shared: &'a S,
    gate: &'a Held<'a, R>,
    first: &'a Line<Taker<'b, R>, M>,
    second: &'a Line<Taker<'b, R>, N>,
    taken: &'a AllTaken,
    /// How many workers have not ended.
    at_work: AtomicU64,
    of: PhantomData<L>,
    ghost roles_are: { L.roles ≡ anybody },
}

/// What the peers took.
#[derive(Drop)]
struct AllTaken {
    outstations: [Mutex<Vec<u8>>; 2],
    clients: [Taken; 2],
}

/// What a client took, and whether an interrogation's termination was among it.
#[derive(Drop)]
struct Taken {
    octets: Mutex<Vec<u8>>,
    has_ended: AtomicBool,
}

impl Taken {
    fn nothing<R: AllocGlobal>(rt: &R) -> Taken {
        Taken {
            octets: Mutex::new(Vec::new(rt.alloc())),
            has_ended: AtomicBool::new(false),
        }
    }
}

/// The steps by which peers come up, and who makes them.
const UPS: &str = "up 0 0
up 1 0
open 0 0
open 1 0";

const UP_TURNS: &[Turn] = &[
    (OUTSTATION_0_READER, 1),
    (OUTSTATION_1_READER, 1),
    (CLIENT_0_READER, 1),
    (CLIENT_1_READER, 1),
];

#[test]
fn workers(rt: HostRuntime) {
    let opening = Opening::of(rt.alloc(), 9, TWO_OUTSTATIONS).expect(&rt, "an opening");
    work::<Brand, _>(&rt, opening);
}

/// Lets the workers of all peers and the clock work until the peers' octets end.
fn work<L: Course + Send + Sync, R: Host>(rt: &R, opening: Opening)
    requires { IsFor L.name L.parts L.book L.setup L.roles 9 opening }
{
    let mut core = TestCore::<L>::new(rt.alloc(), opening, 9, ROOM).expect(rt, "a core");
    assert!(rt; core.answers_so(rt, UP_TURNS, UPS, "ok\nok\nok\nok\n"));
    let taken = AllTaken {
        outstations: [
            Mutex::new(Vec::new(rt.alloc())),
            Mutex::new(Vec::new(rt.alloc())),
        ],
        clients: [Taken::nothing(rt), Taken::nothing(rt)],
    };
    let TestCore { shared, passes } = core;
    let passes = serve(rt, &shared, &taken, passes);
    let (total, recorder) = TestCore { shared, passes }.end(rt).expect(rt, "all passes");
    let entries = entries_since(rt.alloc(), &recorder, &[0; 9]).expect(rt, "calls answered alike");
    same(rt, &(entries.len() as u64), &total);
    check(rt, entries, &taken);
    drop(recorder);
}

/// Serves the peers with these passes, which are those that come back. None of the held workers is held for too long.
fn serve<L: Course + Send + Sync, S: Calls<L> + Sync, R: Host>(
    rt: &R,
    shared: &S,
    taken: &AllTaken,
    passes: Vec<Pass<L>>,
) -> Vec<Pass<L>>
    requires roles { L.roles ≡ anybody }
{
    let [client_0, client_1] = &taken.clients;
    let gate = Held::new(rt, &client_0.has_ended, &client_1.has_ended);
    let first = open_line().expect(rt, "a history");
    let second = open_line().expect(rt, "a history");
    let passes = serve_on::<L, S, Brand, Brand, R>(rt, shared, taken, &gate, passes, first, second);
    assert!(rt;
        !gate.is_late.load(Ordering::SeqCst),
        "a worker was held for 10 seconds"
    );
    passes
}

/// The same, on lines with these histories.
fn serve_on<
    L: Course + Send + Sync,
    S: Calls<L> + Sync,
    M: LineCourse + Send + Sync,
    N: LineCourse + Send + Sync,
    R: Host,
>(
    rt: &R,
    shared: &S,
    taken: &AllTaken,
    gate: &Held<'_, R>,
    passes: Vec<Pass<L>>,
    first: Opened<Sending>,
    second: Opened<Sending>,
) -> Vec<Pass<L>>
    requires books { (first.seen.book ≡ M.book) × (second.seen.book ≡ N.book) }
    requires own { (M.own ≡ 1024) × (N.own ≡ 1024) }
    requires peers { (M.peer ≡ 1) × (N.peer ≡ 2) }
    requires first { (M.first ≡ None) × (N.first ≡ None) }
    requires failed { (M.failed ≡ false) × (N.failed ≡ false) }
    requires roles { L.roles ≡ anybody }
{
    let [source_0, source_1] = SOURCES;
    let [octets_0, octets_1] = &taken.outstations;
    let line_0: Line<Taker<'_, R>, M> = Line::new(
        Taker::new(rt, octets_0),
        MASTER,
        source_0.address,
        first,
    );
    let line_1: Line<Taker<'_, R>, N> = Line::new(
        Taker::new(rt, octets_1),
        MASTER,
        source_1.address,
        second,
    );
    let scene = Scene {
        rt,
        shared,
        gate,
        first: &line_0,
        second: &line_1,
        taken,
        at_work: AtomicU64::new(9),
        of: PhantomData,
    };
    perform_all(&scene, passes)
}

/// Runs each worker in a thread of its own.
fn perform_all<
    L: Course + Send + Sync,
    S: Calls<L> + Sync,
    M: LineCourse + Send + Sync,
    N: LineCourse + Send + Sync,
    R: Host,
>(scene: &Scene<'_, '_, L, S, M, N, R>, passes: Vec<Pass<L>>) -> Vec<Pass<L>> {
    thread::map_vec(scene.rt, passes, &|pass| perform(scene, pass)).expect(scene.rt, "memory")
}

/// Works with a pass until the worker ends, as it is to end. The last one of the peers' workers asks the clock to end.
fn perform<L: Course, S: Calls<L>, M: LineCourse, N: LineCourse, R: Host>(
    scene: &Scene<'_, '_, L, S, M, N, R>,
    pass: Pass<L>,
) -> Pass<L> {
    let (role, wanted) = *WORKERS.get(pass.actor()).expect(scene.rt, "a worker");
    let (pass, end) = perform_as(scene, role, pass);
    assert!(scene.rt; end == wanted);
    // The clock and this one were at work.
    if scene.at_work.fetch_sub(1, Ordering::SeqCst) == 2 {
        assert!(scene.rt; !scene.shared.stopping());
        scene.shared.stop();
        assert!(scene.rt; scene.shared.stopping());
    }
    pass
}

/// Works in a role.
fn perform_as<L: Course, S: Calls<L>, M: LineCourse, N: LineCourse, R: Host>(
    scene: &Scene<'_, '_, L, S, M, N, R>,
    role: Role,
    pass: Pass<L>,
) -> (Pass<L>, WorkerEnd) {
    match role {
        Role::ReadOutstation(outstation) => read_source(scene, outstation, pass),
        Role::WriteOutstation(outstation) => write_outstation(scene, outstation, pass),
        Role::ReadClient(client) => {
            let mut input = Sent { rest: FROM_CLIENT };
            read_client(scene.rt, scene.shared, pass, client, &mut input, scene.gate)
        }
        Role::WriteClient(client) => write_client(scene, client, pass),
        Role::Tick => clock(scene.rt, scene.shared, pass, &Still, scene.gate),
    }
}

fn read_source<L: Course, S: Calls<L>, M: LineCourse, N: LineCourse, R: Host>(
    scene: &Scene<'_, '_, L, S, M, N, R>,
    outstation: u8,
    pass: Pass<L>,
) -> (Pass<L>, WorkerEnd) {
    let source = SOURCES
        .get(usize::from(outstation))
        .expect(scene.rt, "an outstation");
    let mut input = Sent {
        rest: source.octets,
    };
    let (rt, shared, gate) = (scene.rt, scene.shared, scene.gate);
    if outstation == 0 {
        read_outstation(rt, shared, pass, source, &mut input, scene.first, gate)
    } else {
        read_outstation(rt, shared, pass, source, &mut input, scene.second, gate)
    }
}

fn write_outstation<L: Course, S: Calls<L>, M: LineCourse, N: LineCourse, R: Host>(
    scene: &Scene<'_, '_, L, S, M, N, R>,
    outstation: u8,
    pass: Pass<L>,
) -> (Pass<L>, WorkerEnd) {
    if outstation == 0 {
        write_on(scene, outstation, pass, scene.first)
    } else {
        write_on(scene, outstation, pass, scene.second)
    }
}

#[tactic(auto, using(test_tools::proofs::Anybody::anybody_polls))]
fn write_on<'b, L: Course, S: Calls<L>, M: LineCourse, N: LineCourse, O: LineCourse, R: Host>(
    scene: &Scene<'_, 'b, L, S, M, N, R>,
    outstation: u8,
    pass: Pass<L>,
    line: &Line<Taker<'b, R>, O>,
) -> (Pass<L>, WorkerEnd) {
    let (pass, _front, end) = outstation_writer(
        scene.rt,
        scene.shared,
        pass,
        outstation,
        line,
        &Still,
        scene.gate,
    );
    (pass, end)
}

#[tactic(auto, using(test_tools::proofs::Anybody::anybody_pumps))]
fn write_client<L: Course, S: Calls<L>, M: LineCourse, N: LineCourse, R: Host>(
    scene: &Scene<'_, '_, L, S, M, N, R>,
    client: u8,
    pass: Pass<L>,
) -> (Pass<L>, WorkerEnd) {
    let taken = scene
        .taken
        .clients
        .get(usize::from(client))
        .expect(scene.rt, "a client");
    let mut writer = Client::new(scene.rt.alloc(), usize::MAX, &taken.has_ended);
    let ended = client_writer(
        scene.rt,
        scene.shared,
        pass,
        client,
        &mut writer,
        &Still,
        scene.gate,
    );
    let Client { octets, .. } = writer;
    *taken.octets.lock(scene.rt) = octets;
    ended
}

/// The peers' workers took and gave what was stepped by these calls, which are all.
fn check<R: Host>(rt: &R, entries: &[Entry], taken: &AllTaken) {
    assert!(rt; is_answered_first(entries));
    check_outstations(rt, entries);
    check_sent(rt, entries, &taken.outstations);
    let [first, second] = &taken.clients;
    check_client(rt, entries, CLIENT_0_WRITER, &first.octets);
    check_client(rt, entries, CLIENT_1_WRITER, &second.octets);
}
