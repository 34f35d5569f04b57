//! Notes on their way to standard error.

use crate::event::JournalEvent;
use crate::note_line::Note;
use circular_buffer::HeapCircularBuffer;
use gw_model::Memory;
use run_status::LeftOut;
use std::alloc::Global;

/// How many notes may wait.
pub const MOST: usize = 1024;

/// How many may where the next one tells of a control, so that other notes never keep one of these from being told.
pub const MOST_OF_CONTROLS: usize = 4096;

/// Notes that wait to be written. Where too many do the newest are left out and counted.
#[derive(Drop)]
pub struct WaitingNotes {
    /// Room for `MOST_OF_CONTROLS`, and for one that tells how many were left out.
    notes: HeapCircularBuffer<Note>,
    others: Untold,
    of_controls: Untold,
    closed: bool,
}

/// The notes that found no room since the last one that did: how many, and when the last of them was.
#[derive(Clone, Copy)]
struct Untold {
    count: u64,
    at: u64,
    /// How many found none in all.
    in_all: u64,
}

impl Untold {
    /// None.
    fn nothing() -> Untold {
        Untold {
            count: 0,
            at: 0,
            in_all: 0,
        }
    }

    /// One more, at a time.
    fn add(&mut self, wall: u64) {
        self.count = self.count.saturating_add(1);
        self.in_all = self.in_all.saturating_add(1);
        self.at = wall;
    }

    /// How many there are and when the last of them was, if there is one; then there is none.
    fn take(&mut self) -> Option<(u64, u64)> {
        let Untold { count, at, .. } = *self;
        self.count = 0;
        if count == 0 { None } else { Some((count, at)) }
    }
}

/// What is written next.
#[derive(Drop)]
pub enum Next {
    /// This note.
    Note(Note),
    /// Nothing yet.
    Nothing,
    /// Nothing ever.
    End,
}

impl WaitingNotes {
    /// No note waits.
    pub fn new(alloc: Global) -> Result<WaitingNotes, Memory> {
        let notes = HeapCircularBuffer::with_capacity(alloc, MOST_OF_CONTROLS + 1)?;
        Ok(WaitingNotes {
            notes,
            others: Untold::nothing(),
            of_controls: Untold::nothing(),
            closed: false,
        })
    }

    /// One more note, where there is room, behind one that tells how many found none before it.
    pub fn add(&mut self, note: Note) {
        if note.event.is_of_control() {
            self.add_of_control(note);
        } else {
            self.add_other(note);
        }
    }

    /// One more note that isn't of a control.
    fn add_other(&mut self, note: Note) {
        if self.notes.len() < MOST {
            let left_out = self.take_left_out();
            self.push_behind(left_out, note);
        } else {
            self.others.add(note.wall);
        }
    }

    /// One more note of a control.
    fn add_of_control(&mut self, note: Note) {
        if self.notes.len() < MOST_OF_CONTROLS {
            let left_out = self.take_controls_left_out();
            self.push_behind(left_out, note);
        } else {
            self.of_controls.add(note.wall);
        }
    }

    /// Puts a note behind all others, and one before it, if there is one. There is room for both.
    fn push_behind(&mut self, left_out: Option<Note>, note: Note) {
        if let Some(left_out) = left_out {
            self.notes.push_back(left_out);
        }
        self.notes.push_back(note);
    }

    /// How many found no room in all.
    pub fn left_out(&self) -> LeftOut {
        LeftOut {
            of_controls: self.of_controls.in_all,
            others: self.others.in_all,
        }
    }

    /// No further note comes.
    pub fn close(&mut self) {
        self.closed = true;
    }

    /// Takes the oldest note; where none waits, that which tells how many found no room.
    pub fn next(&mut self) -> Next {
        if let Some(note) = self.notes.pop_front() {
            return Next::Note(note);
        }
        if let Some(note) = self.take_controls_left_out() {
            return Next::Note(note);
        }
        match self.take_left_out() {
            Some(note) => Next::Note(note),
            None if self.closed => Next::End,
            None => Next::Nothing,
        }
    }

    /// Takes the note that tells how many found no room, if some didn't.
    fn take_left_out(&mut self) -> Option<Note> {
        let (count, wall) = self.others.take()?;
        let event = JournalEvent::LeftOut(count);
        Some(Note { wall, event })
    }

    /// Takes the note that tells how many notes of controls found no room, if some didn't.
    fn take_controls_left_out(&mut self) -> Option<Note> {
        let (count, wall) = self.of_controls.take()?;
        let event = JournalEvent::ControlsLeftOut(count);
        Some(Note { wall, event })
    }
}
