//! One outstation: its workers, connection after connection.
ghost use Rattle.std.specs.Prelude.{◌≡◌, false, None};

use crate::beside::beside;
use crate::ending::Ending;
use crate::passes::{Passes, PollPass};
use crate::server::Server;
use crate::sockets::OutstationSocket;
use crate::system::System;
use dnp_receive::Receiver;
use gw_threads::{
    Calls, Clock, Course, Gate, Line, Pass, Patience, Step, WorkerEnd, outstation_reader,
    outstation_writer, pause,
};
use run_ends::{LineCourse, Opened, Sending, open_line};
use run_journal::{Cause, Failure};
use run_peers::{OutstationLink, shut};
use std::marker::Brand;
use std::net::{TcpStream, ToSocketAddrs};

/// The passes of an outstation's workers.
pub type OutstationPasses<L> = Passes<L, PollPass<L>>;

/// A connection to an outstation.
#[derive(Drop)]
struct Connection<'a, 'b, N: LineCourse> {
    stream: &'b TcpStream,
    ending: &'b Ending,
    outstation: u8,
    /// The link address of the master.
    own: u16,
    /// The link address of the outstation.
    peer: u16,
    /// How long its reader waits at most.
    patience: Patience,
    socket: OutstationSocket<'b>,
    line: &'a Line<OutstationSocket<'b>, N>,
}

impl<'a, S: Sync, R: System, C: Clock + Sync, G: Gate + Sync> Server<'a, S, R, C, G> {
    /// Keeps a connection to an outstation, until the server ends.
    pub fn serve_outstation<L: Course + Send + Sync>(
        &self,
        link: &OutstationLink,
        passes: OutstationPasses<L>,
    ) -> OutstationPasses<L>
    where
        S: Calls<L>,
    {
        let mut passes = passes;
        let outstation = passes.writer.outstation();
        for _ in self.reporter.rt.forever() {
            if self.shared.stopping() {
                break;
            }
            match connect(self.reporter.rt, link) {
                Ok(stream) => {
                    passes = self.serve_connection(outstation, link, passes, &stream);
                }
                Err(cause) => self.reporter.outstation_unreachable(outstation, cause),
            }
            pause::<L, S, R>(self.reporter.rt, self.shared);
        }
        passes
    }

    /// One connection, from its up step to its end.
    fn serve_connection<L: Course + Send + Sync>(
        &self,
        outstation: u8,
        link: &OutstationLink,
        passes: OutstationPasses<L>,
        stream: &TcpStream,
    ) -> OutstationPasses<L>
    where
        S: Calls<L>,
    {
        let mut passes = passes;
        let moment = self.reporter.clock.moment();
        if !self.make_step(
            &mut passes.reader,
            Step::OutstationUp { outstation, moment },
        ) {
            shut(stream);
            return passes;
        }
        self.reporter.outstation_connected(outstation);
        let (passes, met) = self.serve_outstation_on(outstation, link, passes, stream);
        let cause = if self.shared.stopping() {
            Cause::GatewayEnds
        } else {
            link.in_words(met)
        };
        self.reporter.outstation_lost(outstation, cause);
        passes
    }

    /// Serves an outstation on its connection, until that ends; why it ended.
    fn serve_outstation_on<L: Course + Send + Sync>(
        &self,
        outstation: u8,
        link: &OutstationLink,
        passes: OutstationPasses<L>,
        stream: &TcpStream,
    ) -> (OutstationPasses<L>, Cause)
    where
        S: Calls<L>,
    {
        match open_line() {
            Some(history) => {
                self.serve_line::<L, Brand>(outstation, link, passes, stream, history)
            }
            None => (passes, Cause::Memory),
        }
    }

    /// The same, with a history of its line.
    fn serve_line<L: Course + Send + Sync, N: LineCourse + Send + Sync>(
        &self,
        outstation: u8,
        link: &OutstationLink,
        passes: OutstationPasses<L>,
        stream: &TcpStream,
        history: Opened<Sending>,
    ) -> (OutstationPasses<L>, Cause)
    where
        S: Calls<L>,
        requires book { history.seen.book ≡ N.book }
        requires addresses { (N.own ≡ link.now.own) × (N.peer ≡ link.now.peer) }
        requires first { N.first ≡ None }
        requires failed { N.failed ≡ false }
    {
        let ending = Ending::new();
        let socket = OutstationSocket::new(stream, &ending, link);
        let line: Line<OutstationSocket<'_>, N> = Line::new(socket, link.own, link.peer, history);
        let connection = Connection {
            stream,
            ending: &ending,
            outstation,
            own: link.own,
            peer: link.peer,
            patience: Patience {
                for_clients: link.patience_ms(),
                for_answers: link.silence_ms(),
                for_status: link.response_ms(),
            },
            socket,
            line: &line,
        };
        self.exchange_with_outstation(&connection, passes)
    }

    /// Both workers of a connection, the writer in a thread of its own, until both have ended; why it ended.
    fn exchange_with_outstation<L: Course + Send + Sync, N: LineCourse + Send + Sync>(
        &self,
        connection: &Connection<'_, '_, N>,
        passes: OutstationPasses<L>,
    ) -> (OutstationPasses<L>, Cause)
    where
        S: Calls<L>,
    {
        let Passes { reader, writer } = passes;
        let ((writer, written), (reader, read), is_begun) = beside(
            self.reporter.rt,
            move || self.write_outstation(connection, writer),
            // The reader finds the connection shut, and the writer its peer down.
            || connection.ending.end_writer(connection.stream),
            move || self.read_outstation(connection, reader),
        );
        let written = if is_begun { written } else { WorkerEnd::Memory };
        let cause = connection.ending.cause(read, written);
        (Passes { reader, writer }, cause)
    }

    /// The reader of a connection, and its end.
    fn read_outstation<L: Course, N: LineCourse>(
        &self,
        connection: &Connection<'_, '_, N>,
        pass: Pass<L>,
    ) -> (Pass<L>, WorkerEnd)
    where
        S: Calls<L>,
    {
        let mut input = connection.socket;
        let alloc = self.reporter.alloc;
        let (pass, _, end) = outstation_reader(
            alloc,
            self.reporter.rt,
            self.shared,
            pass,
            connection.outstation,
            Receiver::new(alloc, connection.own, connection.peer),
            &mut input,
            connection.line,
            self.reporter.clock,
            self.gate,
            connection.patience,
        );
        connection.ending.end_reader(connection.stream);
        (pass, end)
    }

    /// The writer of a connection, and its end.
    fn write_outstation<L: Course, N: LineCourse>(
        &self,
        connection: &Connection<'_, '_, N>,
        pass: PollPass<L>,
    ) -> (PollPass<L>, WorkerEnd)
    where
        S: Calls<L>,
    {
        let (pass, outstation) = pass.into_parts();
        let (pass, _, end) = outstation_writer(
            self.reporter.rt,
            self.shared,
            pass,
            outstation,
            connection.line,
            self.reporter.clock,
            self.gate,
        );
        connection.ending.end_writer(connection.stream);
        (PollPass::new(pass, outstation), end)
    }
}

/// Connects to an outstation: to the first of its addresses that answers.
fn connect<R: System>(rt: &R, link: &OutstationLink) -> Result<TcpStream, Failure> {
    let addresses = match link.connect.as_str().to_socket_addrs(rt) {
        Ok(addresses) => addresses,
        Err(error) => return Err(Failure::of_look_up(error.kind())),
    };
    let mut last = Failure::NoSuchHost;
    for address in addresses {
        match TcpStream::connect_timeout(rt, &address, link.connecting()) {
            Ok(stream) => return Ok(stream),
            Err(error) => last = Failure::from(error.kind()),
        }
    }
    Err(last)
}
