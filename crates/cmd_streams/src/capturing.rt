//! `gateway pcap`: a record as a capture of packets.

use crate::player::{Captured, capture};
use cmd_programs::{FileFailure, REFUSED, System, complain, refuse_file, refuse_for, settings_of};
use cmd_text::{Plain, Stop};
use gw_map::Settings;
use std::fmt::Display;
use std::fs::File;
use std::io::{self, BufReader, BufWriter, Write};

/// What whoever makes a capture is told.
const MADE_ANEW: &str =
    "addresses, link frames, transport and TCP are made anew: this isn't what was on the wire";

/// What whoever makes one of a record that was cut is told too.
const CUT: &str = "the last line has no end, and is left out";

/// `gateway pcap`, from standard input to a file that is made; gives the status.
pub fn pcap<S: System>(rt: &S, file: &str, out: &str) -> io::Result<u8> {
    match settings_of(rt, file) {
        Ok(settings) => make_capture(rt, settings, out),
        Err(bad) => refuse_file(rt, "", &bad),
    }
}

/// Makes a file of what standard input shows; gives the status.
fn make_capture<S: System>(rt: &S, settings: Settings, out: &str) -> io::Result<u8> {
    let out_name = Plain(out);
    let made = match File::create_new(rt, out) {
        Ok(made) => made,
        Err(error) => {
            let why = FileFailure::of(error.kind(), "folder");
            return refuse_capture(
                rt,
                &format_args!("can't write the capture {out_name}: {why}"),
            );
        }
    };
    match write_capture(rt, settings, made) {
        Ok(captured) => tell_captured(rt, captured),
        Err(Stop::Memory) => refuse_for(rt, "memory"),
        Err(why) => refuse_capture(
            rt,
            &format_args!("the capture {out_name} isn't whole: {why}"),
        ),
    }
}

/// Writes what standard input shows.
fn write_capture<S: System>(rt: &S, settings: Settings, made: File) -> Result<Captured, Stop> {
    let mut reader = BufReader::new(rt.alloc(), rt.reader())?;
    let mut writer = BufWriter::new(rt.alloc(), made)?;
    let captured = capture(rt.alloc(), settings, &mut reader, &mut writer)?;
    writer.flush()?;
    Ok(captured)
}

/// Tells how many packets were written, and of what; gives the status.
fn tell_captured<S: System>(rt: &S, captured: Captured) -> io::Result<u8> {
    if let Some(line) = captured.refused {
        println!(rt; "refused line {line}")?;
    }
    println!(rt; "packets {}", captured.packets)?;
    if captured.is_cut {
        complain(rt, "", &CUT);
    }
    complain(rt, "", &MADE_ANEW);
    Ok(if captured.refused.is_some() {
        REFUSED
    } else {
        0
    })
}

/// Tells why there is no capture, or no whole one; gives the status.
fn refuse_capture<S: System, D: Display>(rt: &S, why: &D) -> io::Result<u8> {
    let status = refuse_for(rt, "capture")?;
    complain(rt, "", why);
    Ok(status)
}
