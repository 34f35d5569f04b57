//! The file, or the named pipe, that `gateway run --events` writes.

use cmd_programs::FileFailure;
use run_values::EVENT_COLUMNS;
use std::fs::{self, File, OpenOptions};
use std::io::{self, ErrorKind, Write};
use std::os::unix::fs::{FileExt, FileTypeExt};
use std::rt::Files;

/// How many files there are at most where what they may have together is bounded.
const FILES: u64 = 8;

/// The octets of a megabyte.
const MEGABYTE: u64 = 1_000_000;

/// A file to which lines are added, or a named pipe.
#[derive(Drop)]
pub struct EventFile<'a, S> {
    rt: &'a S,
    path: &'a str,
    is_pipe: bool,
    /// The most octets that one of the files may have, where that is bounded.
    share: Option<u64>,
    file: Option<File>,
    /// Whether lines may be added to it: it is open, and what stands in front of them is written.
    is_ready: bool,
    /// How many octets it has.
    octets: u64,
    /// Whether its last line may have no end.
    is_torn: bool,
}

/// What stands at the name of the file.
#[derive(Clone, Copy)]
enum Standing {
    File(u64),
    Pipe,
}

impl<'a, S: Files<File = File> + AllocGlobal> EventFile<'a, S> {
    /// The file at a path, which is made where it isn't there; all of its files may have so many megabytes together. A pipe is
    /// opened once there is something to write.
    ///
    /// # Errors
    ///
    /// Why no lines can be added to what stands at the path, or nothing can be made there.
    pub fn open(
        rt: &'a S,
        path: &'a str,
        megabytes: Option<u32>,
    ) -> Result<EventFile<'a, S>, FileFailure> {
        let standing = standing_at(rt, path)?;
        let mut file = EventFile {
            rt,
            path,
            is_pipe: matches!(standing, Standing::Pipe),
            share: megabytes.map(|megabytes| u64::from(megabytes) * MEGABYTE / FILES),
            file: None,
            is_ready: false,
            octets: match standing {
                Standing::File(octets) => octets,
                Standing::Pipe => 0,
            },
            is_torn: match standing {
                Standing::File(octets) => is_cut(rt, path, octets),
                Standing::Pipe => false,
            },
        };
        if !file.is_pipe {
            file.ready()
                .map_err(|error| FileFailure::of(error.kind(), "folder"))?;
        }
        Ok(file)
    }

    /// Whether it is a pipe that nobody reads. Whoever comes to read it meanwhile stays, and gets what is written next.
    pub fn awaits_reader(&mut self) -> bool {
        if !self.is_pipe {
            return false;
        }
        match self.ready() {
            Ok(()) => false,
            Err(error) => error.kind() == ErrorKind::BrokenPipe,
        }
    }

    /// Writes whole lines. Where that fails the file is opened anew with the next ones.
    pub fn write(&mut self, text: &str) -> io::Result<()> {
        self.make_room(text.len() as u64)?;
        self.ready()?;
        let written = self.write_octets(text);
        if written.is_err() {
            self.is_ready = false;
            if !self.is_pipe {
                self.file = None;
                self.is_torn = true;
            }
        }
        written
    }

    fn write_octets(&mut self, text: &str) -> io::Result<()> {
        let Some(file) = &mut self.file else {
            return Err(ErrorKind::NotFound.into());
        };
        file.write_all(text.as_bytes())?;
        self.octets = self.octets.saturating_add(text.len() as u64);
        Ok(())
    }

    /// Opens it where it isn't, and writes the names of the columns where nothing stands before them. A pipe that was open
    /// is closed behind that, so that its reader finds no end between the two.
    fn ready(&mut self) -> io::Result<()> {
        if self.is_ready {
            return Ok(());
        }
        let file = if self.is_pipe {
            open_pipe(self.rt, self.path)?
        } else {
            open_file(self.rt, self.path)?
        };
        self.file = Some(file);
        let written = self.write_front();
        self.is_torn = written.is_err() && !self.is_pipe;
        self.is_ready = written.is_ok();
        written
    }

    /// Writes what stands in front of lines: the end of one that was cut, and the names of the columns if nothing stands there.
    fn write_front(&mut self) -> io::Result<()> {
        let octets = self.octets;
        if self.is_torn {
            self.write_octets("\n")?;
            self.octets = octets;
        }
        if octets == 0 || self.is_pipe {
            self.write_octets(EVENT_COLUMNS)?;
        }
        Ok(())
    }

    /// Begins a new file where this one has no room for so many octets more. Those before it get the next number each, and the
    /// last one goes.
    fn make_room(&mut self, octets: u64) -> io::Result<()> {
        let Some(share) = self.share else {
            return Ok(());
        };
        if self.is_pipe || self.octets == 0 || self.octets.saturating_add(octets) <= share {
            return Ok(());
        }
        self.file = None;
        self.is_ready = false;
        self.is_torn = false;
        for number in (1..FILES - 1).rev() {
            self.rename(number, number + 1)?;
        }
        self.rename(0, 1)?;
        self.octets = 0;
        Ok(())
    }

    /// Gives the file of a number another one, where it is there; 0 is the file itself.
    fn rename(&self, from: u64, to: u64) -> io::Result<()> {
        let (from, to) = (self.name(from)?, self.name(to)?);
        match fs::rename(self.rt, from.as_str(), to.as_str()) {
            Err(error) if error.kind() != ErrorKind::NotFound => Err(error),
            _ => Ok(()),
        }
    }

    /// The name of the file of a number.
    fn name(&self, number: u64) -> io::Result<String> {
        let path = self.path;
        match number {
            0 => Ok(String::from_str(self.rt.alloc(), path)?),
            number => Ok(format!(in self.rt.alloc(); "{path}.{number}")?),
        }
    }
}

/// What stands at a path, if lines can be added to it: nothing is a file without any.
fn standing_at<S: Files<File = File>>(rt: &S, path: &str) -> Result<Standing, FileFailure> {
    match fs::metadata(rt, path) {
        Ok(metadata) if metadata.is_file() => Ok(Standing::File(metadata.len())),
        Ok(metadata) if metadata.file_type().is_fifo() => Ok(Standing::Pipe),
        Ok(metadata) if metadata.is_dir() => Err(FileFailure::Folder),
        Ok(_) => Err(FileFailure::Device),
        Err(error) if error.kind() == ErrorKind::NotFound => Ok(Standing::File(0)),
        Err(error) => Err(FileFailure::of(error.kind(), "file")),
    }
}

/// Whether the last line of a file of so many octets has no end; one that can't be read counts as whole.
fn is_cut<S: Files<File = File>>(rt: &S, path: &str, octets: u64) -> bool {
    let mut last = [b'\n'];
    if let Some(before) = octets.checked_sub(1) {
        if let Ok(file) = OpenOptions::new().read(true).open(rt, path) {
            let _ = file.read_at(&mut last, before);
        }
    }
    last != [b'\n']
}

/// A file to which is added, and which is made where it isn't there.
fn open_file<S: Files<File = File>>(rt: &S, path: &str) -> io::Result<File> {
    OpenOptions::new().append(true).create(true).open(rt, path)
}

/// A pipe that is written. Whoever only writes a pipe waits for its reader while it is opened, but not whoever reads it too: so
/// it is opened for both first. Nobody reads one that was deleted.
fn open_pipe<S: Files<File = File>>(rt: &S, path: &str) -> io::Result<File> {
    let _both = OpenOptions::new().read(true).write(true).open(rt, path);
    match OpenOptions::new().append(true).open(rt, path) {
        Err(error) if error.kind() == ErrorKind::NotFound => Err(ErrorKind::BrokenPipe.into()),
        opened => opened,
    }
}
