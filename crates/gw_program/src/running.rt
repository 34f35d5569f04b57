//! `gateway run`.

use crate::following::{Followed, event_file};
use crate::recording::{Recording, tell_end};
use crate::shown::Shown;
use cmd_capture::{Capture, OnePiece, Pieces};
use cmd_line::RunOptions;
use cmd_programs::{Named, Names};
use gw_map::Settings;
use gw_model::Memory;
use run_event_file::{EventFile, EventWriter};
use run_server::{
    Clock, Closed, Gate, Journal, OpenGate, Options, System, SystemClock, journal_of, serve_as,
};
use run_startup::{
    Entrances, PieceFiles, Source, Unserved, check_followers, check_records, folder_files,
    is_journal, read_source, record_files, refuse_run, tell_start,
};
use std::alloc::Global;
use std::fs::File;
use std::net::TcpListener;
use std::{io, thread};

/// Serves control centres and outstations as a settings file says, until so many connections of control centres have
/// ended, or standard input has, or for ever; gives the status.
pub fn run<R: System>(
    rt: &HostRuntime,
    system: &R,
    file: &str,
    sessions: Option<u32>,
    asked: &RunOptions<'_>,
) -> io::Result<u8> {
    match serve_file(rt, system, file, sessions, asked) {
        Ok(closed) => {
            println!(rt; "steps {}", closed.total)?;
            Ok(0)
        }
        Err(why) => refuse_run(rt, &why),
    }
}

/// Reads the settings file, listens, and serves. (Each function below owns what it makes, and lends it to the next one, so that
/// hardly one owns something where it may fail.)
fn serve_file<'a, R: System>(
    rt: &'a HostRuntime,
    system: &R,
    file: &'a str,
    sessions: Option<u32>,
    asked: &RunOptions<'a>,
) -> Result<Closed, Unserved<'a>> {
    check_records(file, asked)?;
    check_followers(file, asked)?;
    let (settings, source) = read_source(rt, file)?;
    let mut settings = Some(settings);
    let request = RunRequest {
        rt,
        system,
        source,
        sessions,
        asked,
    };
    request.serve_source(&mut settings)
}

/// What a run is asked for, and the system that it has.
#[derive(Drop)]
struct RunRequest<'a, 'b, R> {
    rt: &'a HostRuntime,
    system: &'b R,
    source: Source<'b>,
    sessions: Option<u32>,
    asked: &'b RunOptions<'a>,
}

/// What is there before anything is served.
#[derive(Clone, Copy)]
struct Begun<'a, R> {
    entrances: &'a Entrances,
    journal: &'a Journal,
    clock: &'a SystemClock<'a, R>,
    followed: &'a Followed,
}

impl<'a, 'b, R: System> RunRequest<'a, 'b, R> {
    /// Reads the names, and serves by settings, which are there.
    fn serve_source(&self, settings: &mut Option<Settings>) -> Result<Closed, Unserved<'a>> {
        let known = lend(settings)?;
        let Named { names, .. } = Named::read(self.rt, known, self.asked.names)?;
        let followed = Followed::of(self.rt.alloc(), known, &names, self.asked)?;
        self.serve_followed(settings, names, &followed)
    }

    /// Opens the file of events, listens, and serves, with what is followed.
    fn serve_followed(
        &self,
        settings: &mut Option<Settings>,
        names: Names,
        followed: &Followed,
    ) -> Result<Closed, Unserved<'a>> {
        let events = event_file(self.rt, self.asked).map_err(Unserved::Hindered)?;
        let clock = SystemClock::new(self.system);
        let (entrances, journal) = self.begin(&clock, lend(settings)?, names)?;
        let begun = Begun {
            entrances: &entrances,
            journal: &journal,
            clock: &clock,
            followed,
        };
        self.serve_begun(settings, begun, events)
    }

    /// Listens, and begins the journal.
    fn begin(
        &self,
        clock: &SystemClock<'_, R>,
        settings: &Settings,
        names: Names,
    ) -> Result<(Entrances, Journal), Unserved<'a>> {
        let entrances = Entrances::open(self.rt.alloc(), self.system, settings, self.asked)?;
        let journal = self.begin_journal(clock, settings, names)?;
        Ok((entrances, journal))
    }

    /// The journal, which is told that the gateway starts.
    fn begin_journal(
        &self,
        clock: &SystemClock<'_, R>,
        settings: &Settings,
        names: Names,
    ) -> Result<Journal, Unserved<'a>> {
        let alloc = self.rt.alloc();
        let journal = journal_of(alloc, settings, is_journal(self.rt))?.with_names(names);
        tell_start(
            alloc,
            self.system,
            &journal,
            clock.wall(),
            settings,
            self.source,
            self.asked.values,
        )?;
        Ok(journal)
    }

    /// Serves, with all that is there, by settings that are taken.
    fn serve_begun(
        &self,
        settings: &mut Option<Settings>,
        begun: Begun<'_, R>,
        events: Option<EventFile<'_, HostRuntime>>,
    ) -> Result<Closed, Unserved<'a>> {
        let (rt, asked) = (self.rt, self.asked);
        let shown = Shown::of(rt, asked.status.is_some());
        let values = begun.followed.values(rt.alloc())?;
        let Some(settings) = settings.take() else {
            return Err(Memory.into());
        };
        let gateway = GatewayRun {
            alloc: rt.alloc(),
            system: self.system,
            listener: &begun.entrances.listener,
            options: Options {
                identity: shown.identity(asked.site, self.source.file, self.source.digest),
                sessions: self.sessions,
                allow: &begun.entrances.allow,
                until_eof: asked.until_eof.then_some(rt.stdin()),
                status: begun.entrances.status.as_ref(),
                needs_centre: asked.needs_centre,
                is_recorded: asked.record.is_some() || asked.record_folder.is_some(),
                process: shown.process(),
                values: values.as_ref(),
                events: begun.followed.queue.as_ref(),
            },
            journal: begun.journal,
            clock: begun.clock,
        };
        match events {
            Some(events) => {
                gateway.serve_writing(rt, settings, self.source, asked, begun.followed, events)
            }
            None => gateway.serve_asked(rt, settings, self.source, asked),
        }
    }
}

/// Settings that are lent, which are there until they are taken.
fn lend<'a>(settings: &Option<Settings>) -> Result<&Settings, Unserved<'a>> {
    match settings {
        Some(known) => Ok(known),
        None => Err(Memory.into()),
    }
}

/// What is served, and what is told of it.
#[derive(Clone, Copy)]
struct GatewayRun<'a, R> {
    alloc: Global,
    system: &'a R,
    listener: &'a TcpListener,
    options: Options<'a>,
    journal: &'a Journal,
    clock: &'a SystemClock<'a, R>,
}

impl<'a, R: System> GatewayRun<'a, R> {
    /// Serves, and takes each step down where that is asked for.
    fn serve_asked<'b>(
        &self,
        rt: &HostRuntime,
        settings: Settings,
        source: Source<'_>,
        asked: &RunOptions<'b>,
    ) -> Result<Closed, Unserved<'b>> {
        let megabytes = u64::from(asked.record_size);
        match (asked.record, asked.record_folder) {
            (Some(path), _) => {
                let files = record_files(rt, path)?;
                Ok(self.serve_recorded(settings, files, OnePiece { megabytes }, megabytes)?)
            }
            (None, Some(folder)) => {
                let (files, pieces) = folder_files(rt, folder, self.clock.wall(), source, asked)?;
                Ok(self.serve_recorded(settings, files, pieces, megabytes)?)
            }
            (None, None) => Ok(self.serve(settings, &OpenGate)?),
        }
    }

    /// Serves, and writes spontaneous observations to a file, in a thread of its own.
    fn serve_writing<'b>(
        &self,
        rt: &HostRuntime,
        settings: Settings,
        source: Source<'_>,
        asked: &RunOptions<'b>,
        followed: &Followed,
        file: EventFile<'_, HostRuntime>,
    ) -> Result<Closed, Unserved<'b>> {
        let Some(queue) = &followed.queue else {
            return self.serve_asked(rt, settings, source, asked);
        };
        let writer = EventWriter::new(
            self.alloc,
            self.system,
            self.clock,
            &followed.points,
            queue,
            self.journal,
            file,
        );
        let (_, closed) = thread::join(
            self.system,
            move || writer.write_all(),
            move || {
                let closed = self.serve_asked(rt, settings, source, asked);
                queue.close(self.system);
                closed
            },
        );
        self.journal.close(self.system);
        self.journal.write_on(self.system);
        closed
    }

    /// Serves, with a gate.
    fn serve<G: Gate + Sync>(&self, settings: Settings, gate: &G) -> Result<Closed, Memory> {
        serve_as(
            self.alloc,
            self.system,
            settings,
            self.listener,
            self.options,
            self.journal,
            self.clock,
            gate,
        )
    }

    /// Serves, and takes each step down in files of so many megabytes at most, and in what follows them.
    fn serve_recorded<P: Pieces<File> + Send + Drop>(
        &self,
        settings: Settings,
        files: PieceFiles,
        pieces: P,
        megabytes: u64,
    ) -> Result<Closed, Memory> {
        let capture = Capture::new(self.alloc, megabytes)?;
        let kept = &capture;
        let (_, closed) = thread::join(
            self.system,
            move || self.write_record(kept, files, pieces),
            move || self.serve_into(kept, settings),
        );
        // The journal's thread has ended before the capture did.
        self.journal.close(self.system);
        self.journal.write_on(self.system);
        closed
    }

    /// Serves, and hands each step to a capture, which is closed behind the last one.
    fn serve_into(&self, capture: &Capture, settings: Settings) -> Result<Closed, Memory> {
        let gate = Recording {
            rt: self.system,
            capture,
        };
        let closed = self.serve(settings, &gate);
        capture.close(self.system);
        closed
    }

    /// Writes what is captured, and tells where that ends before the gateway does.
    fn write_record<P: Pieces<File> + Drop>(
        &self,
        capture: &Capture,
        files: PieceFiles,
        pieces: P,
    ) {
        let PieceFiles { steps, answers } = files;
        let ended = capture.write_pieces(self.system, steps, answers, pieces);
        tell_end(self.system, self.journal, self.clock.wall(), ended);
    }
}
