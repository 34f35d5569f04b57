//! `gateway translate` and `gateway replay`: from standard input to standard output.

use crate::translator::translate as translate_lines;
use cmd_check::read_settings;
use cmd_programs::{System, refuse, refuse_file, settings_of};
use cmd_replay::replay as play;
use gw_map::{DEFAULT_SETTINGS, Settings};
use std::io::{self, BufReader, BufWriter, Printer};

/// Standard input and standard output, buffered.
type Streams<'a, S> = (BufReader<<S as Input>::Reader>, BufWriter<Printer<'a, S>>);

/// Buffers standard input and standard output.
fn streams<S: System>(rt: &S) -> io::Result<Streams<'_, S>> {
    let reader = BufReader::new(rt.alloc(), rt.reader())?;
    let writer = BufWriter::new(rt.alloc(), io::writer(rt))?;
    Ok((reader, writer))
}

/// `gateway translate`, with the settings of a file, or those that are used where none is named; gives the status.
pub fn translate<S: System>(rt: &S, file: Option<&str>) -> io::Result<u8> {
    match file {
        Some(file) => match settings_of(rt, file) {
            Ok(settings) => translate_input(rt, settings),
            Err(bad) => refuse_file(rt, "", &bad),
        },
        None => match read_settings(rt.alloc(), DEFAULT_SETTINGS.as_bytes()) {
            Ok(settings) => translate_input(rt, settings),
            Err(why) => refuse(rt, &why),
        },
    }
}

/// Translates from standard input to standard output; gives the status.
fn translate_input<S: System>(rt: &S, settings: Settings) -> io::Result<u8> {
    let (reader, writer) = streams(rt)?;
    Ok(translate_lines(rt.alloc(), settings, reader, writer))
}

/// `gateway replay`, with the settings of a file; gives the status.
pub fn replay<S: System>(rt: &S, file: &str) -> io::Result<u8> {
    match settings_of(rt, file) {
        Ok(settings) => replay_input(rt, settings),
        Err(bad) => refuse_file(rt, "", &bad),
    }
}

/// Replays from standard input to standard output; gives the status.
fn replay_input<S: System>(rt: &S, settings: Settings) -> io::Result<u8> {
    let (reader, writer) = streams(rt)?;
    Ok(play(rt.alloc(), settings, reader, writer))
}
