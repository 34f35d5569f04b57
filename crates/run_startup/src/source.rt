//! The settings file of a run, and what may be asked for beside it.

use crate::files_of_record::ANSWERS;
use crate::obstacle::Obstacle;
use crate::unserved::Unserved;
use cmd_check::read_settings;
use cmd_line::RunOptions;
use cmd_programs::{BadFile, System, read_octets};
use gw_map::Settings;
use sha2::{Digest, Sha256};

/// The names of standard output.
const OUTPUTS: &[&str] = &["-", "/dev/stdout", "/dev/fd/1", "/proc/self/fd/1"];

/// A settings file: its name, and the SHA-256 of its octets.
#[derive(Clone, Copy)]
pub struct Source<'a> {
    pub file: &'a str,
    pub digest: [u8; 32],
}

/// The settings of a file.
pub fn read_source<'a, S: System>(
    rt: &S,
    file: &'a str,
) -> Result<(Settings, Source<'a>), Unserved<'a>> {
    let octets = read_octets(rt, file)?;
    match read_settings(rt.alloc(), octets.as_slice()) {
        Ok(settings) => {
            let digest = Sha256::digest(octets.as_slice());
            Ok((settings, Source { file, digest }))
        }
        Err(why) => Err(Unserved::Settings(BadFile::Refused(octets, why))),
    }
}

/// Whether a record can be taken as it is asked for, by the options alone.
pub fn check_records<'a>(file: &str, asked: &RunOptions<'_>) -> Result<(), Unserved<'a>> {
    if is_overwritten(file, asked.record) {
        return Err(Unserved::Hindered(Obstacle::Overwriting));
    }
    match (asked.record, asked.record_folder, asked.record_keep) {
        (Some(_), Some(_), _) => Err(Unserved::TwoRecords),
        (_, None, Some(_)) => Err(Unserved::KeptNowhere),
        _ => Ok(()),
    }
}

/// Whether values can be shown and events be written as it is asked for, by the options alone.
pub fn check_followers<'a>(file: &str, asked: &RunOptions<'_>) -> Result<(), Unserved<'a>> {
    if asked.values && asked.status.is_none() {
        return Err(Unserved::ShownNowhere);
    }
    match asked.events {
        None if asked.events_keep.is_some() => Err(Unserved::NoEvents),
        Some(events) if is_output(events) => Err(Unserved::EventsOnOutput),
        Some(events)
            if events == file || asked.names == Some(events) || asked.record == Some(events) => {
            Err(Unserved::EventsOverwriting)
        }
        _ => Ok(()),
    }
}

/// Whether a file is standard output, by its name.
fn is_output(file: &str) -> bool {
    OUTPUTS.contains(&file)
}

/// Whether a record would be written into the settings file, by their names.
fn is_overwritten(file: &str, record: Option<&str>) -> bool {
    match record {
        Some(record) => match file.strip_prefix(record) {
            Some(rest) => rest.is_empty() || rest == ANSWERS,
            None => false,
        },
        None => false,
    }
}
