//! Spontaneous observations as lines of a file, written by a thread of its own.

use crate::file::EventFile;
use run_clock::Clock;
use run_journal::{Journal, JournalEvent, WriteTrouble};
use run_values::{Entry, Event, EventLine, Gap, GapLine, Points};
use run_watch::EventQueue;
use std::alloc::{AllocError, Global};
use std::fs::File;
use std::rt::{Clock as Sleeps, Files};
use std::sync::Wait;
use std::time::Duration;
use std::{io, thread};

/// How many events are written at once.
const AT_ONCE: usize = 512;

/// The milliseconds between two tellings of what was left out.
const TELLING_MS: u64 = 60_000;

/// The milliseconds of a piece of a pause, and how many pieces one has, after a write that failed.
const PIECE_MS: u64 = 100;

const PIECES: u32 = 10;

/// Writes events to a file as they come.
#[derive(Drop)]
pub struct EventWriter<'a, S, R, C> {
    alloc: Global,
    system: &'a R,
    clock: &'a C,
    points: &'a Points,
    queue: &'a EventQueue,
    journal: &'a Journal,
    file: EventFile<'a, S>,
    text: String,
    /// What was left out in front of the next line, which the file doesn't tell yet.
    gap: Gap,
    /// Whether the last write failed.
    is_hindered: bool,
    /// How many that were left out were told, and at which moment.
    told: u64,
    told_at: Option<u64>,
}

impl<'a, S: Files<File = File> + AllocGlobal, R: Wait + Sleeps, C: Clock> EventWriter<'a, S, R, C> {
    /// Nothing is written yet.
    pub fn new(
        alloc: Global,
        system: &'a R,
        clock: &'a C,
        points: &'a Points,
        queue: &'a EventQueue,
        journal: &'a Journal,
        file: EventFile<'a, S>,
    ) -> EventWriter<'a, S, R, C> {
        EventWriter {
            alloc,
            system,
            clock,
            points,
            queue,
            journal,
            file,
            text: String::new(alloc),
            gap: Gap::NONE,
            is_hindered: false,
            told: 0,
            told_at: None,
        }
    }

    /// Writes until no more come and all are written.
    pub fn write_all(self) {
        let mut writer = self;
        for _ in writer.system.forever() {
            if !writer.write_next() {
                break;
            }
        }
        writer.tell_left_out(0);
    }

    /// Writes what waited longest, or waits for something; whether more may come.
    fn write_next(&mut self) -> bool {
        let rung = self.queue.bell().ring_count();
        let Ok((entries, is_end)) = self.take_next() else {
            self.pause();
            return !self.queue.is_closed(self.system);
        };
        if !entries.is_empty() {
            self.write(&entries);
        } else if !is_end {
            self.queue
                .bell()
                .wait_for(self.system, rung, Duration::from_secs(1));
        }
        self.tell_left_out(TELLING_MS);
        !is_end
    }

    /// Takes what waited longest; whether nothing waits any more, and nothing will. There is room for all of it, and for a gap
    /// after it, before anything is taken, so that nothing is lost without memory.
    fn take_next(&self) -> Result<(Vec<Entry>, bool), AllocError> {
        let mut entries = Vec::with_capacity(self.alloc, AT_ONCE + 1)?;
        let is_end = self.queue.take(self.system, AT_ONCE, &mut entries)?;
        Ok((entries, is_end))
    }

    /// Writes events, and what was left out between them.
    fn write(&mut self, entries: &[Entry]) {
        let written = match self.put(entries) {
            Ok(()) => self.hand_over(),
            Err(error) => Err(error.into()),
        };
        match written {
            Ok(()) => {
                self.gap = Gap::NONE;
                if self.is_hindered {
                    self.is_hindered = false;
                    self.tell(JournalEvent::EventsResumed);
                }
            }
            Err(error) => self.fail(&error, entries),
        }
    }

    /// Writes the lines that are made. Where they go to a pipe that nobody reads, they wait until somebody does, or no more come.
    fn hand_over(&mut self) -> io::Result<()> {
        for _ in self.system.forever() {
            if !self.file.awaits_reader() || self.queue.is_closed(self.system) {
                break;
            }
            self.pause();
        }
        self.file.write(self.text.as_str())
    }

    /// A write of these failed.
    fn fail(&mut self, error: &io::Error, entries: &[Entry]) {
        let mut events: u64 = 0;
        for entry in entries {
            match entry {
                Entry::Event(event) => {
                    self.gap = self.gap.with(event.wall, 1);
                    events = events.saturating_add(1);
                }
                Entry::Gap(gap) => self.gap = self.gap.with(gap.wall, gap.count),
            }
        }
        self.queue.note_unwritten(events);
        if !self.is_hindered {
            self.is_hindered = true;
            self.tell(JournalEvent::EventsHindered(WriteTrouble::of(error.kind())));
        }
        self.pause();
    }

    /// Lets a second pass, or less where no more come.
    fn pause(&self) {
        for _ in 0..PIECES {
            if self.queue.is_closed(self.system) {
                return;
            }
            thread::sleep(self.system, Duration::from_millis(PIECE_MS));
        }
    }

    /// Makes the lines of events, with what was left out in front of them.
    fn put(&mut self, entries: &[Entry]) -> Result<(), AllocError> {
        self.text.clear();
        self.put_gap(self.gap)?;
        for entry in entries {
            match entry {
                Entry::Event(event) => self.put_event(event)?,
                Entry::Gap(gap) => self.put_gap(*gap)?,
            }
        }
        Ok(())
    }

    fn put_event(&mut self, event: &Event) -> Result<(), AllocError> {
        let line = EventLine {
            points: self.points,
            event,
        };
        write!(self.text, "{line}")
    }

    fn put_gap(&mut self, gap: Gap) -> Result<(), AllocError> {
        if gap.count == 0 {
            return Ok(());
        }
        let line = GapLine(gap);
        write!(self.text, "{line}")
    }

    /// Tells how many were left out and weren't told yet, if there are some and it was told so long ago.
    fn tell_left_out(&mut self, interval_ms: u64) {
        let count = self.queue.left_out().saturating_sub(self.told);
        let moment = self.clock.moment();
        let is_due = match self.told_at {
            Some(told_at) => moment.saturating_sub(told_at) >= interval_ms,
            None => true,
        };
        if count > 0 && is_due {
            self.told = self.told.saturating_add(count);
            self.told_at = Some(moment);
            self.tell(JournalEvent::EventsLeftOut(count));
        }
    }

    fn tell(&self, event: JournalEvent) {
        self.journal.tell(self.system, self.clock.wall(), event);
    }
}
