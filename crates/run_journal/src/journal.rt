//! What an operator is told, written by a thread of its own.

use crate::event::JournalEvent;
use crate::note_line::{Note, NoteLine};
use crate::waiting::{Next, WaitingNotes};
use cmd_text::Names;
use gw_model::Memory;
use run_clock::Bell;
use run_status::LeftOut;
use std::alloc::Global;
use std::sync::atomic::{AtomicBool, Ordering};
use std::sync::{Mutex, Wait};

/// What the thread that writes waits for before its next turn.
#[derive(Clone, Copy)]
pub enum AwaitedNote {
    /// Nothing.
    Nothing,
    /// That the journal's bell is rung more often than so.
    Ring(u64),
    /// Nothing any more: the journal is closed, and all is written.
    Never,
}

/// Notes on their way to standard error. Whoever tells something doesn't wait for it to be written: at most 1,024 notes
/// wait, or 4,096 if the next one tells of a control, and of more the newest are left out and counted. How many is told before
/// the next note that finds room.
#[derive(Drop)]
pub struct Journal {
    waiting: Mutex<WaitingNotes>,
    bell: Bell,
    /// Whether it was told that the record has ended.
    has_record_ended: AtomicBool,
    /// Where the outstations are reached.
    places: Vec<String>,
    /// Whether each line has its priority in front.
    with_priority: bool,
    /// What stands behind the lines of what has a name.
    names: Names,
}

impl Journal {
    /// An empty journal: where the outstations are reached, in the order of the settings, and whether each line has its
    /// priority in front, as journald reads it.
    pub fn new(alloc: Global, places: Vec<String>, with_priority: bool) -> Result<Journal, Memory> {
        Ok(Journal {
            waiting: Mutex::new(WaitingNotes::new(alloc)?),
            bell: Bell::new(),
            has_record_ended: AtomicBool::new(false),
            places,
            with_priority,
            names: Names::new(alloc),
        })
    }

    /// The same, with names behind the lines of what has one.
    pub fn with_names(self, names: Names) -> Journal {
        let mut named = self;
        named.names = names;
        named
    }

    /// What an outstation is called, if it has a name.
    pub fn name_of(&self, outstation: u8) -> Option<&str> {
        self.names.of_outstation(outstation)
    }

    /// Tells what happened, and when, in milliseconds since 1970 in UTC.
    pub fn tell<R: Wait>(&self, rt: &R, wall: u64, event: JournalEvent) {
        if let JournalEvent::RecordingEnded(_) = event {
            self.has_record_ended.store(true, Ordering::SeqCst);
        }
        self.waiting.lock(rt).add(Note { wall, event });
        self.bell.ring();
    }

    /// Whether it was told that the record has ended.
    pub fn has_record_ended(&self) -> bool {
        self.has_record_ended.load(Ordering::SeqCst)
    }

    /// How many notes found no room.
    pub fn left_out<R: Wait>(&self, rt: &R) -> LeftOut {
        self.waiting.lock(rt).left_out()
    }

    /// Nothing more is told.
    pub fn close<R: Wait>(&self, rt: &R) {
        self.waiting.lock(rt).close();
        self.bell.ring();
    }

    /// Writes notes to standard error as they come, until the journal is closed and all are written.
    pub fn write_on<R: Wait + Eprint>(&self, rt: &R) {
        for _ in rt.forever() {
            match self.turn(rt) {
                AwaitedNote::Nothing => {}
                AwaitedNote::Ring(rung) => self.bell.wait(rt, rung),
                AwaitedNote::Never => return,
            }
        }
    }

    /// One turn of the thread that writes: writes the next note, if one waits. What it waits for then.
    pub fn turn<R: Wait + Eprint>(&self, rt: &R) -> AwaitedNote {
        let rung = self.bell.ring_count();
        match self.next(rt) {
            Next::Note(note) => {
                self.write(rt, &note);
                AwaitedNote::Nothing
            }
            Next::Nothing => AwaitedNote::Ring(rung),
            Next::End => AwaitedNote::Never,
        }
    }

    /// The next note.
    fn next<R: Wait>(&self, rt: &R) -> Next {
        self.waiting.lock(rt).next()
    }

    /// Writes a note. Where standard error can't be written there is nobody to tell.
    fn write<R: Eprint>(&self, rt: &R, note: &Note) {
        let line = NoteLine {
            note,
            places: &self.places,
            with_priority: self.with_priority,
            names: &self.names,
        };
        let _ = eprintln!(rt; "{line}");
    }
}
