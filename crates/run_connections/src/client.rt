//! One slot for clients: its workers, client after client.

use crate::beside::beside;
use crate::ending::Ending;
use crate::passes::{Passes, PumpPass};
use crate::server::Server;
use crate::sockets::ClientSocket;
use crate::system::System;
use gw_threads::{
    Calls, Clock, Course, Gate, Pass, Step, Why, WorkerEnd, client_reader, client_writer,
};
use run_admission::{AcceptedClient, Slots};
use run_journal::Cause;
use run_peers::{Reporter, shut};
use std::net::TcpStream;
use std::sync::Wait;

/// The passes of the workers of a slot for clients.
pub type ClientPasses<L> = Passes<L, PumpPass<L>>;

/// A connection to the client at a slot.
#[derive(Drop)]
struct Connection<'b> {
    stream: &'b TcpStream,
    ending: &'b Ending,
    client: u8,
    socket: ClientSocket<'b>,
}

impl<'a, S: Sync, R: System, C: Clock + Sync, G: Gate + Sync> Server<'a, S, R, C, G> {
    /// Serves the clients that get this slot, until no further one comes.
    pub fn serve_slot<L: Course + Send + Sync>(
        &self,
        slots: &Slots,
        passes: ClientPasses<L>,
    ) -> ClientPasses<L>
    where
        S: Calls<L>,
    {
        let mut passes = passes;
        let (reporter, slot) = (self.reporter, passes.writer.client());
        for _ in reporter.rt.forever() {
            let Some(accepted) = slots.next(reporter.rt, slot) else {
                break;
            };
            passes = self.serve_client(slot, passes, accepted);
            slots.free(reporter, slot);
        }
        passes
    }

    /// Serves one client.
    fn serve_client<L: Course + Send + Sync>(
        &self,
        client: u8,
        passes: ClientPasses<L>,
        accepted: AcceptedClient,
    ) -> ClientPasses<L>
    where
        S: Calls<L>,
    {
        let mut passes = passes;
        let reporter = self.reporter;
        let moment = reporter.clock.moment();
        if !self.make_step(&mut passes.reader, Step::ClientUp { client, moment }) {
            shut(&accepted.stream);
            reporter.forget_client(client);
            return passes;
        }
        reporter.client_connected(client, accepted.address);
        let (passes, met) = self.serve_client_on(client, passes, &accepted.stream);
        // What became of it by the steps of others is told before.
        reporter.peers.sequence.settle(reporter.rt);
        let cause = cause_of(reporter, client, self.shared.stopping(), met);
        let dropped = self.shared.figures(reporter.rt).dropped;
        reporter.client_lost(client, accepted.address, cause, &dropped);
        passes
    }

    /// Serves one client on its connection, until that ends; why it ended.
    fn serve_client_on<L: Course + Send + Sync>(
        &self,
        client: u8,
        passes: ClientPasses<L>,
        stream: &TcpStream,
    ) -> (ClientPasses<L>, Cause)
    where
        S: Calls<L>,
    {
        let ending = Ending::new();
        let socket = ClientSocket::new(stream, &ending);
        let connection = Connection {
            stream,
            ending: &ending,
            client,
            socket,
        };
        self.exchange_with_client(&connection, passes)
    }

    /// Both workers of a connection, the writer in a thread of its own, until both have ended; why it ended.
    fn exchange_with_client<L: Course + Send + Sync>(
        &self,
        connection: &Connection<'_>,
        passes: ClientPasses<L>,
    ) -> (ClientPasses<L>, Cause)
    where
        S: Calls<L>,
    {
        let Passes { reader, writer } = passes;
        let ((writer, written), (reader, read), is_begun) = beside(
            self.reporter.rt,
            move || self.write_client(connection, writer),
            // The reader finds the connection shut, and the writer its peer down.
            || connection.ending.end_writer(connection.stream),
            move || self.read_client(connection, reader),
        );
        let written = if is_begun { written } else { WorkerEnd::Memory };
        let cause = connection.ending.cause(read, written);
        (Passes { reader, writer }, cause)
    }

    /// The reader of a connection, and its end.
    fn read_client<L: Course>(
        &self,
        connection: &Connection<'_>,
        pass: Pass<L>,
    ) -> (Pass<L>, WorkerEnd)
    where
        S: Calls<L>,
    {
        let mut input = connection.socket;
        let ended = client_reader(
            self.reporter.alloc,
            self.reporter.rt,
            self.shared,
            pass,
            connection.client,
            &mut input,
            self.reporter.clock,
            self.gate,
        );
        connection.ending.end_reader(connection.stream);
        ended
    }

    /// The writer of a connection, and its end.
    fn write_client<L: Course>(
        &self,
        connection: &Connection<'_>,
        pass: PumpPass<L>,
    ) -> (PumpPass<L>, WorkerEnd)
    where
        S: Calls<L>,
    {
        let mut output = connection.socket;
        let (pass, client) = pass.into_parts();
        let (pass, end) = client_writer(
            self.reporter.rt,
            self.shared,
            pass,
            client,
            &mut output,
            self.reporter.clock,
            self.gate,
        );
        connection.ending.end_writer(connection.stream);
        (PumpPass::new(pass, client), end)
    }
}

/// Why a connection ended, by what its workers met, and by what became of its client: it was made to leave, a tick closed it, or
/// the server is to end.
fn cause_of<R: Wait, C>(
    reporter: &Reporter<'_, R, C>,
    client: u8,
    stopping: bool,
    met: Cause,
) -> Cause {
    let Some(record) = reporter.peers.client(client) else {
        return met;
    };
    match met {
        _ if stopping => Cause::GatewayEnds,
        Cause::GatewayEnds if record.has_expired(reporter.rt) => Cause::Closed(Why::Timer),
        Cause::EndOfInput | Cause::NotRead(_) | Cause::NotWritten(_)
            if record.leaves(reporter.rt) => { Cause::GaveWay }
        other => other,
    }
}
