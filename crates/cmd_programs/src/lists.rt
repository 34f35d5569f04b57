//! Lists of points and controls: the settings of one, that of settings, and the names that one gives.

use crate::refusal::{USAGE, complain, refuse_file, refuse_for, refuse_octets, write_text};
use crate::settings_file::{BadFile, read_octets, settings_of};
use crate::system::System;
use cmd_check::{Unusable, read_settings};
use cmd_points::{
    BadList, List, ListFault, NameDoubt, Names, Outstations, Told, list_text, name_doubts,
    names_of, read_list, settings_text,
};
use gw_map::Settings;
use std::alloc::{AllocError, Global};
use std::io::{self, Write};
use std::str;
use thiserror::Error;

/// What is wrong with a command line of `gateway points` that `clap` takes.
const WRONG_WORDS: &str =
    "error: points takes a list with --site SETTINGS, or a settings file with --csv and maybe --names LIST";

/// Why a list can't be used, or can't be written.
#[derive(Debug, Drop, Error)]
pub enum Unlisted<'a> {
    /// A settings file can't be used, or a file can't be read.
    #[error(transparent)]
    File(#[from] BadFile<'a>),
    /// What stands in the list is wrong.
    #[error(transparent)]
    List(#[from] BadList),
    /// Its settings are refused: their text, and why.
    #[error("{1}")]
    Settings(String, Unusable),
    /// Its settings wouldn't be those of its rows.
    #[error("The settings of the list would say something else than its rows.")]
    Otherwise,
    /// Memory ran out.
    #[error("no memory")]
    Memory(#[from(alloc)] AllocError),
}

/// What a list calls the points, the controls and the outstations of settings, and what reads like a slip in that.
#[derive(Drop)]
pub struct Named {
    pub names: Names,
    doubts: Told<NameDoubt>,
}

impl Named {
    /// What a list calls them; nothing without one.
    pub fn read<'a, S: System>(
        rt: &S,
        settings: &Settings,
        file: Option<&'a str>,
    ) -> Result<Named, Unlisted<'a>> {
        let Some(file) = file else {
            return Ok(Named {
                names: Names::new(rt.alloc()),
                doubts: Told::new(rt.alloc()),
            });
        };
        let list = list_in(rt, settings, file, false)?;
        Ok(Named::of(rt.alloc(), &list, settings)?)
    }

    /// What this list calls them.
    fn of(alloc: Global, list: &List, settings: &Settings) -> Result<Named, AllocError> {
        let names = names_of(alloc, list, settings)?;
        let doubts = name_doubts(alloc, list, &names, settings)?;
        Ok(Named { names, doubts })
    }

    /// Writes a line for each thing that reads like a slip in the names.
    pub fn write_doubts<W: Write>(&self, writer: &mut W) -> io::Result<()> {
        for doubt in self.doubts.first() {
            writeln!(writer, "warning: {doubt}")?;
        }
        match self.doubts.more() {
            0 => Ok(()),
            more => writeln!(writer, "warning: and {more} more of the names"),
        }
    }
}

/// `gateway points`; gives the status.
pub fn points<'a, S: System>(
    rt: &S,
    file: &'a str,
    site: Option<&'a str>,
    csv: bool,
    names: Option<&'a str>,
) -> io::Result<u8> {
    let text = match (csv, site, names) {
        (true, None, names) => list_of(rt, file, names),
        (false, Some(site), None) => settings_of_list(rt, file, site),
        _ => {
            eprintln!(rt; "{WRONG_WORDS}")?;
            return Ok(USAGE);
        }
    };
    match text {
        Ok(text) => write_text(rt, text.as_slice()),
        Err(why) => refuse_list(rt, "", &why),
    }
}

/// The list of a file, for these settings. Where it is to be `whole`, it may have nothing that isn't of their outstations.
fn list_in<'a, S: System>(
    rt: &S,
    settings: &Settings,
    file: &'a str,
    whole: bool,
) -> Result<List, Unlisted<'a>> {
    let octets = read_octets(rt, file)?;
    let outstations = Outstations {
        known: settings.outstations(),
        are_all: whole,
    };
    Ok(read_list(rt.alloc(), octets.as_slice(), &outstations)?)
}

/// The list of a settings file, with the names of another list.
fn list_of<'a, S: System>(
    rt: &S,
    file: &'a str,
    names: Option<&'a str>,
) -> Result<Vec<u8>, Unlisted<'a>> {
    let settings = settings_of(rt, file)?;
    match names {
        Some(names) => named_list_of(rt, &settings, names),
        None => Ok(list_text(rt.alloc(), &settings, None)?),
    }
}

/// The list of settings, with the names of the list in a file.
fn named_list_of<'a, S: System>(
    rt: &S,
    settings: &Settings,
    names: &'a str,
) -> Result<Vec<u8>, Unlisted<'a>> {
    let named = list_in(rt, settings, names, false)?;
    Ok(list_text(rt.alloc(), settings, Some(&named))?)
}

/// The settings of a list, for the station and the outstations of a settings file: a text that reads back as the list's
/// rows.
fn settings_of_list<'a, S: System>(
    rt: &S,
    file: &'a str,
    site: &'a str,
) -> Result<Vec<u8>, Unlisted<'a>> {
    let octets = read_octets(rt, site)?;
    match read_settings(rt.alloc(), octets.as_slice()) {
        Ok(settings) => settings_at(rt, file, octets.as_slice(), &settings),
        Err(why) => Err(Unlisted::File(BadFile::Refused(octets, why))),
    }
}

/// The settings of a list, for the site whose settings these octets are.
fn settings_at<'a, S: System>(
    rt: &S,
    file: &'a str,
    site: &[u8],
    settings: &Settings,
) -> Result<Vec<u8>, Unlisted<'a>> {
    let list = list_in(rt, settings, file, true)?;
    let site = str::from_utf8(site).unwrap_or("");
    let text = settings_text(rt.alloc(), site, &list)?;
    read_back(rt.alloc(), text, &list)
}

/// The octets of a settings text, if it reads back as the rows of a list.
fn read_back<'a>(alloc: Global, text: String, list: &List) -> Result<Vec<u8>, Unlisted<'a>> {
    match read_settings(alloc, text.as_bytes()) {
        Ok(read) if list.is_of(&read) => Ok(text.into_bytes()),
        Ok(_) => Err(Unlisted::Otherwise),
        Err(why) => Err(Unlisted::Settings(text, why)),
    }
}

/// Writes why a list can't be used, with what stands in front of each sentence; gives the status.
pub fn refuse_list<S: System>(rt: &S, front: &str, why: &Unlisted<'_>) -> io::Result<u8> {
    match why {
        Unlisted::File(bad) => refuse_file(rt, front, bad),
        Unlisted::List(BadList::Refused(faults)) => refuse_faults(rt, front, faults),
        Unlisted::List(BadList::Memory(_)) | Unlisted::Memory(_) => refuse_for(rt, "memory"),
        Unlisted::Settings(text, why) => refuse_octets(rt, front, text.as_bytes(), why),
        Unlisted::Otherwise => {
            let status = refuse_for(rt, "list")?;
            complain(rt, front, why);
            Ok(status)
        }
    }
}

/// Writes all that is wrong with a list; gives the status.
fn refuse_faults<S: System>(rt: &S, front: &str, faults: &Told<ListFault>) -> io::Result<u8> {
    let status = refuse_for(rt, "list")?;
    for fault in faults.first() {
        complain(rt, front, fault);
    }
    if faults.more() != 0 {
        complain(rt, front, &format_args!("and {} more", faults.more()));
    }
    Ok(status)
}
