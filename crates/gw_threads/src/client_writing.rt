//! The writer of a client.
ghost use Rattle.std.specs.Prelude.{◌≡◌, ◌||◌, true, IfSome, Some};
ghost use Rattle.run_ends.specs.Ends.{is_write_fault, MayEndWriting};
ghost use Rattle.run_ends.specs.PutOut.{is_unwritten};
ghost use Rattle.run_shared.specs.Roles.{IsOne};
ghost use Rattle.run_shared.specs.Turn.{Pass as Seen};
ghost use Rattle.gw_threads.specs.Written.{AreAll, Asked, Settles, TellsLoss, Writes, WritesIfEnded, WritesPut};
ghost use Rattle.gw_threads.specs.Written.{gathered_by, GivesTo};

use crate::awaited::Awaited;
use crate::worker::Worker;
use run_clock::Clock;
use run_ends::{Batch, Gathered, Outgoing, Put, Source, WorkerEnd, put_out};
use run_shared::{Calls, Course, Gate, Pass, Place, Pumped, Pumps};
use std::marker::Model;
use std::sync::Wait;

/// The writer of a client: the shared core, pumped for one client.
#[derive(Drop)]
pub struct ClientWriter<'a, L: Course, S: Calls<L>, R: Wait, C: Clock, G: Gate> {
    worker: Worker<'a, L, S, R, C, G>,
    client: u8,
    awaits: Awaited,
}

impl<'a, L: Course, S: Calls<L>, R: Wait, C: Clock, G: Gate> Model
    for ClientWriter<'a, L, S, R, C, G> {
    ghost use Rattle.run_shared.specs.Roles.{IsOne};
    ghost use Rattle.gw_threads.specs.Written.{Asking};

    ghost Value = { Asking };

    ghost view = { λ s. record { client = s.client; pass = s.worker.pass } };

    ghost invariant = { λ s. IsOne (L.roles.pumper s.client) s.worker.pass.actor };
}

/// Hands over what the core puts out to a client, until the client isn't up any more, writing fails, or it is asked
/// to end. Where nothing waits it sleeps until a step may bring something.
pub fn client_writer<'a, L: Course, S: Calls<L>, R: Wait, W: Outgoing, C: Clock, G: Gate>(
    rt: &'a R,
    shared: &'a S,
    pass: Pass<L>,
    client: u8,
    writer: &mut W,
    clock: &'a C,
    gate: &'a G,
) -> (Pass<L>, WorkerEnd)
    requires may { IsOne (L.roles.pumper client) pass.actor }
    ensures own { result.0.actor ≡ pass.actor }
    ensures written { Writes (Asked L.setup client pass result.0)
        (W.contents writer.old) (W.contents writer.new) result.1 }
    // Where the client's pumps are left to this actor, these APDUs are all that they were answered with in that time.
    ensures all { L.roles.pumper client ≡ Some pass.actor
        → Writes (AreAll client pass result.0) (W.contents writer.old) (W.contents writer.new) result.1 }
    // Where it ended by a failed write, its last call told that the client is lost.
    ensures lost { is_write_fault (Some result.1) ≡ true → (mid : Seen) × TellsLoss L.setup client mid result.0 }
    ensures end { MayEndWriting result.1 }
    // It ended by a failed write exactly where one failed, unless one had before.
    ensures failed { W.has_failed writer.new ≡ (is_write_fault (Some result.1) || W.has_failed writer.old) }
{
    pass.attest();
    let worker = Worker {
        rt,
        shared,
        pass,
        clock,
        gate,
    };
    let mut source = ClientWriter::new(worker, client);
    let mut batch = Batch::new();
    let end = source.write_on(writer, &mut batch);
    let pass = source.into_pass();
    pass.attest();
    (pass, end)
}

impl<'a, L: Course, S: Calls<L>, R: Wait, C: Clock, G: Gate> ClientWriter<'a, L, S, R, C, G> {
    /// One that writes to a client with this worker's pass.
    pub fn new(worker: Worker<'a, L, S, R, C, G>, client: u8) -> ClientWriter<'a, L, S, R, C, G>
        requires { IsOne (L.roles.pumper client) worker.pass.actor }
        ensures { result ≡ record { client = client; pass = worker.entry.pass } }
    {
        ClientWriter {
            worker,
            client,
            awaits: Awaited::Nothing,
        }
    }

    /// Its pass.
    pub fn into_pass(self) -> Pass<L>
        ensures { result ≡ self.entry.pass }
    {
        let ClientWriter { worker, .. } = self;
        worker.pass
    }

    /// Turn after turn, until the worker is to end.
    fn write_on<W: Outgoing>(&mut self, writer: &mut W, batch: &mut Batch) -> WorkerEnd
        ensures client { self.new.client ≡ self.old.client }
        ensures written { Writes (Asked L.setup self.old.client self.old.pass self.new.pass)
            (W.contents writer.old) (W.contents writer.new) result }
        ensures lost { is_write_fault (Some result) ≡ true
            → (mid : Seen) × TellsLoss L.setup self.old.client mid self.new.pass }
        ensures end { MayEndWriting result }
        ensures failed { W.has_failed writer.new ≡ (is_write_fault (Some result) || W.has_failed writer.old) }
    {
        'runs: for _ in self.worker.rt.forever() {
            if let Some(end) = self.turn(writer, batch) {
                return end;
            }
            self.wait();
        }
        unreachable!()
    }

    /// One turn: a run of what the core puts out, or the loss of the client. How the worker ends, if it does; else it waits
    /// for what it awaits then.
    pub fn turn<W: Outgoing>(&mut self, writer: &mut W, batch: &mut Batch) -> Option<WorkerEnd>
        ensures client { self.new.client ≡ self.old.client }
        ensures written { WritesIfEnded (Asked L.setup self.old.client self.old.pass self.new.pass)
            (W.contents writer.old) (W.contents writer.new) result }
        ensures lost { is_write_fault result ≡ true → (mid : Seen) × TellsLoss L.setup self.old.client mid self.new.pass }
        ensures end { IfSome result MayEndWriting }
        ensures failed { W.has_failed writer.new ≡ (is_write_fault result || W.has_failed writer.old) }
    {
        let rung = self.ring_count();
        let put = self.put_run(writer, batch);
        self.settle(&put, rung);
        put.end()
    }

    /// How often the client's bell was rung.
    pub fn ring_count(&self) -> u64 {
        match self.worker.shared.client_bell(self.client) {
            Some(bell) => bell.ring_count(),
            None => 0,
        }
    }

    /// What it waits for before its next turn.
    pub fn awaits(&self) -> Awaited {
        self.awaits
    }

    /// It waits for this before its next turn.
    fn set_awaits(&mut self, awaits: Awaited)
        ensures { self.new ≡ self.old }
    {
        self.awaits = awaits;
    }

    /// Waits for that.
    fn wait(&self) {
        let bell = self.worker.shared.client_bell(self.client);
        self.awaits.wait(self.worker.rt, bell);
    }

    /// Hands over one run of what the core puts out to the client.
    fn put_run<W: Outgoing>(&mut self, writer: &mut W, batch: &mut Batch) -> Put
        ensures client { self.new.client ≡ self.old.client }
        ensures written { WritesPut (Asked L.setup self.old.client self.old.pass self.new.pass)
            (W.contents writer.old) (W.contents writer.new) result }
        ensures failed { W.has_failed writer.new ≡ (is_unwritten (Some result) || W.has_failed writer.old) }
    {
        put_out(self, writer, batch)
    }

    /// What follows a run: the loss of the client if it wasn't taken; a wait until the bell was rung more often if no more is
    /// to be put out.
    fn settle(&mut self, put: &Put, rung: u64)
        ensures client { self.new.client ≡ self.old.client }
        ensures settles { Settles L.setup self.old.client self.old.pass self.new.pass put.now }
    {
        self.set_awaits(Awaited::Nothing);
        match put {
            Put::Ended(Some(Ok(_))) => self.set_awaits(Awaited::Ring(rung)),
            Put::Ended(Some(Err(_))) | Put::Unwritten => self.lose(),
            Put::Ended(None) | Put::More => {}
        }
    }

    /// The connection is lost.
    fn lose(&mut self)
        ensures client { self.new.client ≡ self.old.client }
        ensures told { TellsLoss L.setup self.old.client self.old.pass self.new.pass }
    {
        self.worker.lose_client(self.client);
    }
}

impl<'a, L: Course, S: Calls<L>, R: Wait, C: Clock, G: Gate> Source
    for ClientWriter<'a, L, S, R, C, G> {
    ghost Gives = { GivesTo L.setup };

    fn gather(&mut self, batch: &mut Batch) -> Gathered {
        let worker = &mut self.worker;
        if worker.shared.stopping() {
            return Gathered::Ended(None);
        }
        let moment = worker.clock.moment();
        let run = worker
            .shared
            .pump(worker.rt, &mut worker.pass, self.client, moment, batch);
        worker.gate.pumps(&Pumps {
            first: run.first,
            client: self.client,
            moment,
            apdus: batch.as_slice(),
            end: run.ended.end(),
        });
        gathered_by(run.ended)
    }

    fn before_write(&self) {
        self.worker.come_to(Place::BeforeWrite);
    }
}

/// How gathering ended, by how the run of pumps did.
fn gathered_by(pumped: Pumped) -> Gathered
    ensures { result ≡ gathered_by pumped }
{
    match pumped {
        Pumped::Ended(reply) => Gathered::Ended(Some(reply)),
        Pumped::More => Gathered::More,
    }
}
