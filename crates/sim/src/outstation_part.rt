//! An outstation, and the gateway's workers for it.
use crate::duty::Duty;
use crate::ends::{Coming, Inlet, Outbox, Outlet};
use crate::feeds::LinkRest;
use crate::passes::{TwoPasses, Workers};
use crate::scene::{Part, Scene, code_of};
use gw_threads::{
    Awaited, Gate, LinkCheck, OutstationReader, OutstationWriter, Patience, WorkerEnd,
};
use run_ends::{Line, LineCourse};
use run_shared::{Calls, Course, Load, Pass, Step};
use sim_peers::{FIRST_LINK, MASTER, Number, Outstation, Pipe, Random, Scenario, VirtualClock};
use std::cell::Cell;
use std::sync::Wait;

/// The milliseconds that a reader waits at most before it looks at the link, and behind which it looks again whether clients
/// have room.
const LONGEST_WAIT_MS: u64 = 4000;

const NAP_MS: u64 = 5;

/// The milliseconds from the end of a connection to the next.
const PAUSE_MS: u64 = 1000;

/// What the gateway knows of how long it waits for an outstation, in milliseconds.
#[derive(Clone, Copy)]
struct Waits {
    patience: u64,
    /// One wait for octets, and how many may follow each other.
    wait: u64,
    count: u64,
}

impl Waits {
    /// Those of a scenario.
    fn of(scenario: &Scenario) -> Waits {
        let silence = silence_of(scenario);
        let count = (silence / LONGEST_WAIT_MS).saturating_add(1);
        Waits {
            patience: scenario.of(Number::ResponseMs) / 4,
            wait: silence.checked_div(count).unwrap_or(silence),
            count,
        }
    }
}

/// How many milliseconds an outstation may be silent.
fn silence_of(scenario: &Scenario) -> u64 {
    scenario
        .of(Number::ResponseMs)
        .saturating_mul(3)
        .saturating_add(scenario.poll_ms())
}

/// A connection.
#[derive(Clone, Copy)]
struct Connection {
    is_read: bool,
    is_written: bool,
    /// Nothing more comes behind what is on its way.
    is_cut: bool,
    /// When the reader looks at the link, and how many waits may still follow.
    look: u64,
    waits: u64,
    /// Since when a fragment waits for clients, and when they are looked at again.
    held: Option<u64>,
    nap: u64,
    /// When the next one is made, and when this one is lost.
    next: u64,
    loss: u64,
}

impl Connection {
    /// None, before the next is made.
    fn none(next: u64) -> Connection {
        Connection {
            is_read: false,
            is_written: false,
            is_cut: true,
            look: u64::MAX,
            waits: 0,
            held: None,
            nap: 0,
            next,
            loss: u64::MAX,
        }
    }

    /// One that is made at a moment, and is lost at another one.
    fn new(now: u64, waits: Waits, loss: u64) -> Connection {
        Connection {
            is_read: true,
            is_written: true,
            is_cut: false,
            look: now.saturating_add(waits.wait),
            waits: waits.count,
            loss,
            ..Connection::none(u64::MAX)
        }
    }
}

/// An outstation, its connection, and the gateway's workers for it.
#[derive(Drop)]
pub struct OutstationPart<'a, 'b, 'c, L: Course, N: LineCourse, S: Calls<L>, R: Wait, G: Gate> {
    scene: &'c Scene<'a, L, S, R, G>,
    number: u8,
    random: Random,
    peer: Outstation,
    outbox: &'a Outbox,
    reader: OutstationReader<'a, 'b, L, N, S, R, Outlet<'a>, VirtualClock, G>,
    writer: OutstationWriter<'a, 'b, L, N, S, R, Outlet<'a>, VirtualClock, G>,
    rest: LinkRest,
    duty: Duty,
    up: Pipe,
    down: Pipe,
    waits: Waits,
    connection: Connection,
}

impl<'a, 'b, 'c, L: Course, N: LineCourse, S: Calls<L>, R: Wait, G: Gate> OutstationPart<
    'a,
    'b,
    'c,
    L,
    N,
    S,
    R,
    G,
> {
    /// One that isn't connected yet.
    pub fn new(
        scene: &'c Scene<'a, L, S, R, G>,
        number: u8,
        peer: Outstation,
        outbox: &'a Outbox,
        line: &'b Line<Outlet<'a>, N>,
        passes: TwoPasses<L>,
    ) -> OutstationPart<'a, 'b, 'c, L, N, S, R, G> {
        let TwoPasses { reader, writer } = passes;
        let address = FIRST_LINK.saturating_add(u16::from(number));
        let stream = u64::from(number).saturating_mul(3);
        OutstationPart {
            scene,
            number,
            random: scene.random(stream),
            peer,
            outbox,
            reader: reader_of(scene, number, line, reader),
            writer: writer_of(scene, number, line, writer),
            rest: LinkRest::new(scene.alloc, MASTER, address),
            duty: Duty::new(0),
            up: scene.pipe(stream.saturating_add(1)),
            down: scene.pipe(stream.saturating_add(2)),
            waits: Waits::of(scene.scenario),
            connection: Connection::none(u64::from(number).saturating_mul(7)),
        }
    }

    /// Whether a worker has not ended.
    fn is_at_work(&self) -> bool {
        self.connection.is_read || self.connection.is_written
    }

    /// Makes a connection.
    #[tactic(auto, using(crate::proofs::Anybody::anybody_may))]
    fn connect(&mut self, now: u64) {
        let scene = self.scene;
        self.connection.next = now.saturating_add(PAUSE_MS);
        if scene.shared.stopping() {
            self.connection.next = u64::MAX;
            return;
        }
        let step = Step::OutstationUp {
            outstation: self.number,
            moment: now,
        };
        if self.reader.worker.make(step).is_err() {
            return;
        }
        scene.log.add("opened", &[0, u64::from(self.number)]);
        self.peer.connect(now);
        self.outbox.open();
        self.up.clear();
        self.down.clear();
        self.begin(now);
        let period = scene.scenario.milliseconds(Number::LoseS);
        let loss = self.random.next_after(now, period);
        self.connection = Connection::new(now, self.waits, loss);
    }

    /// The workers begin.
    fn begin(&mut self, now: u64) {
        let address = FIRST_LINK.saturating_add(u16::from(self.number));
        self.rest.begin(MASTER, address);
        self.reader.heard = now;
        let response = self.scene.scenario.of(Number::ResponseMs);
        self.reader.link.set(LinkCheck::new(response, now));
        self.duty.begin(now);
    }

    /// The connection is lost on its way.
    fn cut_off(&mut self) {
        self.scene.log.add("cut", &[u64::from(self.number)]);
        self.up.cut_off();
        self.end_of_connection();
    }

    /// Nothing more goes to the outstation, and nothing comes behind what is on its way.
    fn end_of_connection(&mut self) {
        self.connection.loss = u64::MAX;
        self.connection.is_cut = true;
        self.outbox.shut();
        self.down.clear();
        self.peer.disconnect();
    }

    /// A worker has ended: the socket is shut, which ends the other.
    fn shut(&mut self, now: u64, worker: u64, end: WorkerEnd) {
        let number = u64::from(self.number);
        self.scene
            .log
            .add("ended", &[0, number, worker, code_of(end)]);
        self.up.clear();
        self.end_of_connection();
        if !self.is_at_work() {
            self.scene.log.add("closed", &[0, number]);
            self.connection.next = now.saturating_add(PAUSE_MS);
        }
    }

    /// When the reader has something to do.
    fn reader_due(&self) -> u64 {
        let connection = &self.connection;
        if !connection.is_read {
            return u64::MAX;
        }
        let arrives = self.up.due();
        if connection.is_cut && arrives == u64::MAX {
            return 0;
        }
        if arrives == u64::MAX {
            return connection.look;
        }
        arrives.max(connection.nap).min(connection.look)
    }

    /// Whether the next fragment waits for clients that have no room for it: at most for its patience.
    fn is_held(&mut self, now: u64) -> bool {
        let size = self.up.observations();
        let began = self.connection.held.unwrap_or(now);
        let waited = now.saturating_sub(began);
        self.connection.held = None;
        if size == 0 || waited >= self.waits.patience || self.scene.shared.stopping() {
            return false;
        }
        let load = Load {
            outstation: self.number,
            size,
            waited,
            patience: self.waits.patience,
        };
        if !self.scene.shared.is_outrun(self.scene.rt, load, now) {
            return false;
        }
        self.connection.held = Some(began);
        self.connection.nap = now.saturating_add(NAP_MS);
        // It doesn't look at the link meanwhile.
        self.connection.look = self.connection.look.max(self.connection.nap);
        true
    }

    /// The reader's turn, if it has something to do.
    fn read(&mut self, now: u64) {
        if self.reader_due() > now {
            return;
        }
        if self.up.due() <= now {
            if self.connection.nap <= now && !self.is_held(now) {
                if let Some(piece) = self.up.take(now) {
                    self.connection.look = now.saturating_add(self.waits.wait);
                    self.connection.waits = self.waits.count;
                    self.tell_octets();
                    self.read_turn(now, Coming::Octets(piece.octets.as_slice()));
                }
            }
        } else if self.connection.is_cut && self.up.count() == 0 {
            let coming = if self.random.happens(300) {
                Coming::Fault
            } else {
                Coming::End
            };
            self.read_turn(now, coming);
        } else if self.connection.look <= now {
            self.connection.look = now.saturating_add(self.waits.wait);
            self.connection.waits = self.connection.waits.saturating_sub(1);
            let coming = if self.connection.waits == 0 {
                Coming::Fault
            } else {
                Coming::Later
            };
            self.read_turn(now, coming);
        }
    }

    /// Tells that octets come, where these mostly are no whole frames.
    fn tell_octets(&self) {
        if self.peer.trickles() {
            self.scene.log.add("octets", &[u64::from(self.number)]);
        }
    }

    /// A turn of the reader.
    fn read_turn(&mut self, now: u64, coming: Coming<'_>) {
        let mut inlet = Inlet::new(coming);
        let ended = self.rest.turn(&mut self.reader, &mut inlet);
        // What it writes if nothing came asks for the status of the link.
        if self.deliver(now) && matches!(coming, Coming::Later) {
            self.scene.log.add("checks", &[u64::from(self.number)]);
        }
        if let Some(end) = ended {
            self.connection.is_read = false;
            self.reader.worker.lose_outstation(self.number);
            self.shut(now, 0, end);
        }
    }

    /// The writer's turn, if it has something to do.
    #[tactic(auto, using(crate::proofs::Anybody::anybody_polls))]
    fn write(&mut self, now: u64) {
        if !self.connection.is_written {
            return;
        }
        let hold = self.scene.scenario.of(Number::HoldMs);
        let (awaits, rings) = (self.writer.awaits, self.writer.ring_count());
        if !self
            .duty
            .goes_on(now, awaits, rings, &mut self.random, hold)
        {
            return;
        }
        let ended = self.writer.turn();
        self.duty.wait(now);
        let _ = self.deliver(now);
        match ended {
            Some(end) => {
                self.connection.is_written = false;
                self.shut(now, 1, end);
            }
            None => self.tell_rest(),
        }
    }

    /// Tells for how long the outstation isn't asked, if it rests.
    fn tell_rest(&self) {
        if let Awaited::RingOrTime { milliseconds, .. } = self.writer.awaits {
            if milliseconds > 0 {
                self.scene
                    .log
                    .add("rests", &[u64::from(self.number), milliseconds]);
            }
        }
    }

    /// What the gateway has written goes on its way; whether it has written something.
    fn deliver(&mut self, now: u64) -> bool {
        let octets = self.outbox.take(self.scene.alloc);
        self.down.send(now, octets.as_slice(), 0);
        !octets.is_empty()
    }

    /// The outstation does what is due.
    fn act_peer(&mut self, now: u64) {
        let log = self.scene.log;
        if self.peer.due() <= now {
            self.peer.act(now, &mut self.up, log);
        }
        if self.peer.takes_loss() && self.is_at_work() {
            self.cut_off();
        }
        if let Some(piece) = self.down.take(now) {
            self.peer
                .take(now, piece.octets.as_slice(), &mut self.up, log);
        }
    }
}

impl<'a, 'b, 'c, L: Course, N: LineCourse, S: Calls<L>, R: Wait, G: Gate> Part
    for OutstationPart<'a, 'b, 'c, L, N, S, R, G> {
    fn due(&self) -> u64 {
        if u64::from(self.number) >= self.scene.scenario.outstations() {
            return u64::MAX;
        }
        let connection = &self.connection;
        let mut due = self.peer.due().min(self.down.due()).min(connection.loss);
        if !self.is_at_work() {
            due = due.min(connection.next);
        }
        if connection.is_written {
            due = due.min(self.duty.due(self.writer.awaits, self.writer.ring_count()));
        }
        due.min(self.reader_due())
    }

    fn act(&mut self, now: u64) {
        if self.due() > now || self.random.happens(250) {
            return;
        }
        self.act_peer(now);
        if !self.is_at_work() {
            if self.connection.next <= now {
                self.connect(now);
            }
            return;
        }
        if self.connection.loss <= now {
            self.cut_off();
        }
        if self.random.happens(500) {
            self.read(now);
            self.write(now);
        } else {
            self.write(now);
            self.read(now);
        }
    }

    fn at_work(&self) -> u64 {
        u64::from(self.connection.is_read).saturating_add(u64::from(self.connection.is_written))
    }
}

impl<'a, 'b, 'c, L: Course, N: LineCourse, S: Calls<L>, R: Wait, G: Gate> Workers<L>
    for OutstationPart<'a, 'b, 'c, L, N, S, R, G> {
    fn give(self, passes: &mut Vec<Pass<L>>) {
        let OutstationPart { reader, writer, .. } = self;
        let OutstationReader { worker: reader, .. } = reader;
        let OutstationWriter { worker: writer, .. } = writer;
        TwoPasses {
            reader: reader.pass,
            writer: writer.pass,
        }
        .give(passes);
    }
}

/// The reader of an outstation, which waits for clients in no turn of its own.
fn reader_of<'a, 'b, L: Course, N: LineCourse, S: Calls<L>, R: Wait, G: Gate>(
    scene: &Scene<'a, L, S, R, G>,
    number: u8,
    line: &'b Line<Outlet<'a>, N>,
    pass: Pass<L>,
) -> OutstationReader<'a, 'b, L, N, S, R, Outlet<'a>, VirtualClock, G> {
    let response = scene.scenario.of(Number::ResponseMs);
    OutstationReader {
        worker: scene.worker(pass),
        alloc: scene.alloc,
        outstation: number,
        line,
        front: line.join(scene.rt),
        patience: Patience {
            for_clients: 0,
            for_answers: silence_of(scene.scenario),
            for_status: response,
        },
        heard: 0,
        link: Cell::new(LinkCheck::new(response, 0)),
        recent: [0; 2048],
    }
}

/// The writer towards an outstation.
fn writer_of<'a, 'b, L: Course, N: LineCourse, S: Calls<L>, R: Wait, G: Gate>(
    scene: &Scene<'a, L, S, R, G>,
    number: u8,
    line: &'b Line<Outlet<'a>, N>,
    pass: Pass<L>,
) -> OutstationWriter<'a, 'b, L, N, S, R, Outlet<'a>, VirtualClock, G> {
    OutstationWriter {
        worker: scene.worker(pass),
        outstation: number,
        line,
        front: line.join(scene.rt),
        awaits: Awaited::Nothing,
    }
}
