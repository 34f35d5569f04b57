//! The run under way.

use crate::folder_listing::Listing;
use crate::piece_name::{
    ABOUT, ANSWERS, MOST_PIECES, STEPS, path_of, piece_name, run_name, with_start,
};
use std::alloc::Global;
use std::fs::{self, File, OpenOptions, TryLockError};
use std::io::{self, ErrorKind, Write};
use std::rt::Files;

/// The octets of a megabyte.
const MEGABYTE: u64 = 1_000_000;

/// How many seconds later than it began a run is named where the names before are taken.
const MOST_SECONDS_LATER: u64 = 1_000;

/// The files of a piece.
#[derive(Drop)]
pub struct PieceFiles {
    /// That of the steps.
    pub steps: File,
    /// That of the replies.
    pub answers: File,
}

/// The run under way, whose pieces stand in a folder beside those of earlier runs.
#[derive(Drop)]
pub struct RunUnderWay<'a, R> {
    rt: &'a R,
    alloc: Global,
    folder: String,
    name: String,
    /// The first `.about`, whose lock is held as long as this is.
    held: File,
    /// The lines that each `.about` begins with.
    about: String,
    /// The most megabytes that all runs of the folder may have together, where that is bounded.
    megabytes: Option<u64>,
    /// How many octets the files of this run have got, or are to get.
    octets: u64,
    /// How many octets more it may get before the folder is looked at again.
    room: u64,
    /// The number of its last piece, and the name of the piece before the next one.
    number: u32,
    before: Option<String>,
    /// The paths of the last piece's files of steps and of replies.
    steps: String,
    answers: String,
}

impl<'a, R: Files<File = File> + AllocGlobal + Clone + Drop> RunUnderWay<'a, R> {
    /// Begins a run in a folder, which is made where it isn't there, by the name of a wall time in milliseconds since 1970; where
    /// a run has that already, by the next that is free. All runs of the folder may have so many megabytes together.
    ///
    /// # Errors
    ///
    /// What the system says where the folder can't be made or read, or the first file can't be made or locked;
    /// `AlreadyExists` where no second is free for long.
    pub fn begin(
        rt: &'a R,
        folder: &str,
        wall: u64,
        about: &str,
        megabytes: Option<u64>,
    ) -> io::Result<RunUnderWay<'a, R>> {
        let about = with_start(rt.alloc(), about, wall)?;
        make_folder(rt, folder)?;
        let listing = Listing::read(rt, folder)?;
        let (name, held) = free_name(rt, folder, wall / 1000, &listing)?;
        Ok(RunUnderWay {
            rt,
            alloc: rt.alloc(),
            folder: String::from_str(rt.alloc(), folder)?,
            name,
            held,
            about,
            megabytes,
            octets: 0,
            room: 0,
            number: 0,
            before: listing.into_last(),
            steps: String::new(rt.alloc()),
            answers: String::new(rt.alloc()),
        })
    }

    /// The files of the next piece; none where there is no room for it, or the run has as many as it may.
    ///
    /// # Errors
    ///
    /// What the system says where one can't be made or written, or the folder can't be read.
    pub fn next_piece(&mut self) -> io::Result<Option<PieceFiles>> {
        if self.number >= MOST_PIECES {
            return Ok(None);
        }
        self.number += 1;
        let piece = piece_name(self.alloc, self.name.as_str(), self.number)?;
        let text = self.about_text()?;
        // What others put into the folder meanwhile is to count.
        self.room = 0;
        if !self.make_room(text.len() as u64)? {
            return Ok(None);
        }
        self.write_about(piece.as_str(), text.as_str())?;
        self.steps = self.path(piece.as_str(), STEPS)?;
        self.answers = self.path(piece.as_str(), ANSWERS)?;
        let steps = new_file(self.rt, self.steps.as_str())?;
        let answers = new_file(self.rt, self.answers.as_str())?;
        self.before = Some(piece);
        Ok(Some(PieceFiles { steps, answers }))
    }

    /// Sees to it that so many octets more may be written, by taking away older runs where they would be too many; whether they
    /// may.
    ///
    /// # Errors
    ///
    /// What the system says where the folder can't be read.
    pub fn make_room(&mut self, octets: u64) -> io::Result<bool> {
        if let Some(megabytes) = self.megabytes {
            if self.room < octets {
                self.room = self.room_in(megabytes.saturating_mul(MEGABYTE), octets)?;
            }
            if self.room < octets {
                return Ok(false);
            }
            self.room = self.room.saturating_sub(octets);
        }
        self.octets = self.octets.saturating_add(octets);
        Ok(true)
    }

    /// Whether the files of the last piece stand where they were made.
    ///
    /// # Errors
    ///
    /// What the system says where that can't be told.
    pub fn stands(&self) -> io::Result<bool> {
        Ok(fs::exists(self.rt, self.steps.as_str())? && fs::exists(self.rt, self.answers.as_str())?)
    }

    /// How many octets more this run may get where all runs may have so many. Where there is no room for as many as these, older
    /// runs make some: for a megabyte, where they can.
    fn room_in(&self, most: u64, octets: u64) -> io::Result<u64> {
        let (folder, name) = (self.folder.as_str(), self.name.as_str());
        let left = most.saturating_sub(self.octets);
        let listing = Listing::read(self.rt, folder)?;
        let beside = listing.octets_beside(name);
        let kept = if beside.saturating_add(octets) <= left {
            beside
        } else {
            let most_beside = left.saturating_sub(octets.max(MEGABYTE));
            listing.take_away_beside(self.rt, folder, name, most_beside)?
        };
        Ok(left.saturating_sub(kept))
    }

    /// What the `.about` of the piece tells that has come to its turn.
    fn about_text(&self) -> io::Result<String> {
        let (about, number) = (self.about.as_str(), self.number);
        match &self.before {
            Some(before) => Ok(format!(in self.alloc;
                "{about}piece: {number}\nbefore: {before}\n"
            )?),
            None => Ok(format!(in self.alloc; "{about}piece: {number}\n")?),
        }
    }

    /// Writes the `.about` of a piece: the first stands already.
    fn write_about(&mut self, piece: &str, text: &str) -> io::Result<()> {
        if self.number == 1 {
            return self.held.write_all(text.as_bytes());
        }
        let path = self.path(piece, ABOUT)?;
        new_file(self.rt, path.as_str())?.write_all(text.as_bytes())
    }

    /// The path of a piece's file that ends so.
    fn path(&self, piece: &str, ending: &str) -> io::Result<String> {
        Ok(path_of(self.alloc, self.folder.as_str(), piece, ending)?)
    }
}

/// A file that is made and may be written.
fn new_file<R: Files>(rt: &R, path: &str) -> io::Result<R::File> {
    OpenOptions::new()
        .write(true)
        .create_new(true)
        .open(rt, path)
}

/// Makes a folder, unless it is there.
fn make_folder<R: Files>(rt: &R, folder: &str) -> io::Result<()> {
    match fs::create_dir(rt, folder) {
        Err(error) if error.kind() != ErrorKind::AlreadyExists => Err(error),
        _ => Ok(()),
    }
}

/// The first name from a second on that no run has, and the first `.about` of it, which is locked.
fn free_name<R: Files<File = File> + AllocGlobal>(
    rt: &R,
    folder: &str,
    second: u64,
    listing: &Listing,
) -> io::Result<(String, File)> {
    for later in 0..MOST_SECONDS_LATER {
        let name = run_name(rt.alloc(), second.saturating_add(later))?;
        if listing.has(name.as_str()) {
            continue;
        }
        if let Some(file) = take_name(rt, folder, name.as_str())? {
            return Ok((name, file));
        }
    }
    Err(ErrorKind::AlreadyExists.into())
}

/// The first `.about` of a run of this name, which is made and locked; none where another gateway was faster.
fn take_name<R: Files<File = File> + AllocGlobal>(
    rt: &R,
    folder: &str,
    name: &str,
) -> io::Result<Option<File>> {
    let piece = piece_name(rt.alloc(), name, 1)?;
    let path = path_of(rt.alloc(), folder, piece.as_str(), ABOUT)?;
    let file = match new_file(rt, path.as_str()) {
        Ok(file) => file,
        Err(error) if error.kind() == ErrorKind::AlreadyExists => return Ok(None),
        Err(error) => return Err(error),
    };
    match file.try_lock() {
        // Between these two calls another gateway may have locked it, and taken it away.
        Ok(()) if fs::exists(rt, path.as_str())? => Ok(Some(file)),
        Ok(()) | Err(TryLockError::WouldBlock) => Ok(None),
        Err(TryLockError::Error(error)) => Err(error),
    }
}
