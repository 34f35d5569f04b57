//! A control centre, and the gateway's workers for it.

use crate::duty::Duty;
use crate::ends::{Coming, Inlet, Outbox, Outlet};
use crate::feeds::ApduRest;
use crate::passes::{TwoPasses, Workers};
use crate::scene::{Part, Scene, code_of};
use gw_threads::{ClientReader, ClientWriter, Gate, WorkerEnd};
use run_ends::Batch;
use run_shared::{Calls, Course, Pass, Step};
use sim_peers::{Centre, Number, Pipe, Random, VirtualClock};
use std::sync::Wait;

/// The milliseconds that a reader waits before it looks whether its client still stands.
const LOOK_MS: u64 = 250;

/// How many pieces may be on their way before a write waits.
const ROOM: u64 = 3;

/// A connection.
#[derive(Clone, Copy)]
struct Connection {
    is_read: bool,
    is_written: bool,
    /// Nothing more comes behind what is on its way.
    is_cut: bool,
    /// Whether it was told that a write would wait.
    is_blocked: bool,
    /// When the reader looks whether the client stands.
    look: u64,
    /// When the next one is made.
    next: u64,
}

impl Connection {
    /// None, before the next is made.
    fn none(next: u64) -> Connection {
        Connection {
            is_read: false,
            is_written: false,
            is_cut: true,
            is_blocked: false,
            look: u64::MAX,
            next,
        }
    }
}

/// A control centre, its connection, and the gateway's workers for it.
#[derive(Drop)]
pub struct CentrePart<'a, 'b, L: Course, S: Calls<L>, R: Wait, G: Gate> {
    scene: &'b Scene<'a, L, S, R, G>,
    number: u8,
    random: Random,
    peer: Centre,
    outbox: &'a Outbox,
    outlet: Outlet<'a>,
    reader: ClientReader<'a, L, S, R, VirtualClock, G>,
    writer: ClientWriter<'a, L, S, R, VirtualClock, G>,
    rest: ApduRest,
    batch: Batch,
    duty: Duty,
    up: Pipe,
    down: Pipe,
    connection: Connection,
}

impl<'a, 'b, L: Course, S: Calls<L>, R: Wait, G: Gate> CentrePart<'a, 'b, L, S, R, G> {
    /// One that isn't connected yet.
    #[tactic(auto, using(crate::proofs::Anybody::anybody_pumps))]
    pub fn new(
        scene: &'b Scene<'a, L, S, R, G>,
        number: u8,
        outbox: &'a Outbox,
        passes: TwoPasses<L>,
    ) -> CentrePart<'a, 'b, L, S, R, G> {
        let TwoPasses { reader, writer } = passes;
        let alloc = scene.alloc;
        let stream = u64::from(number).saturating_mul(3).saturating_add(200);
        CentrePart {
            scene,
            number,
            random: scene.random(stream),
            peer: Centre::new(alloc, scene.scenario, u64::from(number)),
            outbox,
            outlet: Outlet::new(outbox),
            reader: ClientReader {
                worker: scene.worker(reader),
                client: number,
            },
            writer: ClientWriter::new(scene.worker(writer), number),
            rest: ApduRest::new(alloc),
            batch: Batch::new(),
            duty: Duty::new(0),
            up: scene.pipe(stream.saturating_add(1)),
            down: scene.pipe(stream.saturating_add(2)),
            connection: Connection::none(u64::from(number).saturating_mul(13)),
        }
    }

    /// Whether a worker has not ended.
    fn is_at_work(&self) -> bool {
        self.connection.is_read || self.connection.is_written
    }

    /// Makes a connection.
    #[tactic(auto, using(crate::proofs::Anybody::anybody_may))]
    fn connect(&mut self, now: u64) {
        let scene = self.scene;
        self.connection.next = now.saturating_add(self.random.between(500, 5000));
        if scene.shared.stopping() {
            self.connection.next = u64::MAX;
            return;
        }
        let step = Step::ClientUp {
            client: self.number,
            moment: now,
        };
        if self.reader.worker.make(step).is_err() {
            return;
        }
        scene.log.add("opened", &[1, u64::from(self.number)]);
        self.outbox.open();
        self.up.clear();
        self.down.clear();
        self.rest.begin();
        self.duty.begin(now);
        self.peer.connect(now, &mut self.up);
        self.connection = Connection {
            is_read: true,
            is_written: true,
            is_cut: false,
            look: now.saturating_add(LOOK_MS),
            ..Connection::none(u64::MAX)
        };
    }

    /// Nothing more goes to the centre, and nothing comes behind what is on its way.
    fn end_of_connection(&mut self) {
        self.connection.is_cut = true;
        self.outbox.shut();
        self.down.clear();
        self.peer.disconnect();
    }

    /// A worker has ended: the socket is shut, which ends the other.
    fn shut(&mut self, now: u64, worker: u64, end: WorkerEnd) {
        let number = u64::from(self.number);
        self.scene
            .log
            .add("ended", &[1, number, worker, code_of(end)]);
        self.up.clear();
        self.end_of_connection();
        if !self.is_at_work() {
            self.scene.log.add("closed", &[1, number]);
            self.connection.next = now.saturating_add(self.random.between(500, 5000));
        }
    }

    /// When the reader has something to do.
    fn reader_due(&self) -> u64 {
        if !self.connection.is_read {
            return u64::MAX;
        }
        if self.connection.is_cut && self.up.count() == 0 {
            return 0;
        }
        self.up.due().min(self.connection.look)
    }

    /// The reader's turn, if it has something to do.
    fn read(&mut self, now: u64) {
        if self.reader_due() > now {
            return;
        }
        if let Some(piece) = self.up.take(now) {
            self.connection.look = now.saturating_add(LOOK_MS);
            self.read_turn(now, Coming::Octets(piece.octets.as_slice()));
        } else if self.connection.is_cut && self.up.count() == 0 {
            self.read_turn(now, Coming::End);
        } else if self.connection.look <= now {
            self.connection.look = now.saturating_add(LOOK_MS);
            self.read_turn(now, Coming::Later);
        }
    }

    /// A turn of the reader.
    fn read_turn(&mut self, now: u64, coming: Coming<'_>) {
        let mut inlet = Inlet::new(coming);
        if let Some(end) = self.rest.turn(&mut self.reader, &mut inlet) {
            self.connection.is_read = false;
            self.reader.lose(end);
            self.shut(now, 0, end);
        }
    }

    /// Whether a write would wait: the centre doesn't read.
    fn is_blocked(&self) -> bool {
        let is_ended = self.connection.is_cut || self.scene.shared.stopping();
        self.down.count() >= ROOM && !is_ended
    }

    /// Tells whether a write would wait, if that has changed.
    fn tell_room(&mut self) {
        let is_blocked = self.connection.is_written && self.is_blocked();
        if is_blocked != self.connection.is_blocked {
            self.connection.is_blocked = is_blocked;
            let word = if is_blocked { "blocked" } else { "unblocked" };
            self.scene.log.add(word, &[u64::from(self.number)]);
        }
    }

    /// The writer's turn, if it has something to do.
    fn write(&mut self, now: u64) {
        if !self.connection.is_written || self.is_blocked() {
            return;
        }
        let hold = self.scene.scenario.of(Number::HoldMs);
        let (awaits, rings) = (self.writer.awaits(), self.writer.ring_count());
        if !self
            .duty
            .goes_on(now, awaits, rings, &mut self.random, hold)
        {
            return;
        }
        let ended = self.writer.turn(&mut self.outlet, &mut self.batch);
        self.duty.wait(now);
        let octets = self.outbox.take(self.scene.alloc);
        self.down.send(now, octets.as_slice(), 0);
        if let Some(end) = ended {
            self.connection.is_written = false;
            self.shut(now, 1, end);
        }
    }

    /// When the centre reads what has come.
    fn peer_reads(&self) -> u64 {
        self.down.due().max(self.peer.reads_at())
    }

    /// The centre does what is due.
    fn act_peer(&mut self, now: u64) {
        let log = self.scene.log;
        if self.peer.due() <= now {
            self.peer.act(now, &mut self.up, log);
        }
        if self.peer.takes_end() && self.is_at_work() {
            log.add("leave", &[u64::from(self.number)]);
            if self.random.happens(300) {
                self.up.cut_off();
            }
            self.end_of_connection();
        }
        if self.peer_reads() <= now {
            if let Some(piece) = self.down.take(now) {
                self.peer
                    .take(now, piece.octets.as_slice(), &mut self.up, log);
            }
        }
    }
}

impl<'a, 'b, L: Course, S: Calls<L>, R: Wait, G: Gate> Part for CentrePart<'a, 'b, L, S, R, G> {
    fn due(&self) -> u64 {
        let mut due = self.peer.due().min(self.peer_reads());
        if !self.is_at_work() {
            due = due.min(self.connection.next);
        }
        if self.connection.is_written && !self.is_blocked() {
            let awaits = self.writer.awaits();
            due = due.min(self.duty.due(awaits, self.writer.ring_count()));
        }
        due.min(self.reader_due())
    }

    fn act(&mut self, now: u64) {
        if self.due() > now || self.random.happens(250) {
            return;
        }
        self.act_peer(now);
        self.tell_room();
        if !self.is_at_work() {
            if self.connection.next <= now {
                self.connect(now);
            }
            return;
        }
        if self.random.happens(500) {
            self.read(now);
            self.write(now);
        } else {
            self.write(now);
            self.read(now);
        }
        self.tell_room();
    }

    fn at_work(&self) -> u64 {
        u64::from(self.connection.is_read).saturating_add(u64::from(self.connection.is_written))
    }
}

impl<'a, 'b, L: Course, S: Calls<L>, R: Wait, G: Gate> Workers<L>
    for CentrePart<'a, 'b, L, S, R, G> {
    fn give(self, passes: &mut Vec<Pass<L>>) {
        let CentrePart { reader, writer, .. } = self;
        let ClientReader { worker, .. } = reader;
        TwoPasses {
            reader: worker.pass,
            writer: writer.into_pass(),
        }
        .give(passes);
    }
}
