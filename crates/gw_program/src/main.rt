//! The gateway's programs.
#![tactic(auto)]

mod following;
mod recording;
mod running;
mod shown;

use crate::running::run;
use clap::error::ErrorKind;
use cmd_line::{Asked, LineFault, VERSION, command_line as read_words};
use cmd_programs::{CheckForm, USAGE, check, commit_of, points, refuse_for};
use cmd_streams::{pcap, replay, translate};
use run_server::System;
use std::net::{Net, TcpListener, TcpStream};
use std::process::ExitCode;
use std::rt::Clock;
use std::sync::Wait;
use std::thread::Threads;
use std::{env, io};

fn main(rt: HostRuntime) -> io::Result<ExitCode> {
    let status = match program(&rt, &rt) {
        Err(error) if error.kind() == io::ErrorKind::OutOfMemory => refuse_for(&rt, "memory")?,
        told => told?,
    };
    Ok(ExitCode::from(status))
}

/// Does what the words of the command line ask for; gives the status. `system` is that of `rt`, as what serves on it sees
/// it: `main` alone has its threads and sockets. (Its bounds are those of `System`, spelled out for `main`'s proof.)
fn program<
    R: Net<Listener = TcpListener, Stream = TcpStream> + Threads + Wait + Clock + Eprint + Sync,
>(rt: &HostRuntime, system: &R) -> io::Result<u8> {
    let arguments: Vec<String> = env::args(rt)?.collect(rt.alloc())?;
    let mut words = Vec::new(rt.alloc());
    for argument in &arguments {
        words.push(argument.as_str())?;
    }
    match read_words(rt.alloc(), words.as_slice()) {
        Ok(asked) => answer(rt, system, asked),
        Err(fault) => tell(rt, &fault),
    }
}

/// Does what a command line asks for; gives the status.
fn answer<R: System>(rt: &HostRuntime, system: &R, asked: Asked) -> io::Result<u8> {
    match asked {
        Asked::Check {
            file,
            profile,
            profile_html,
            names,
        } => check(rt, file, CheckForm::of(profile, profile_html), names),
        Asked::Points {
            file,
            site,
            csv,
            names,
        } => points(rt, file, site, csv, names),
        Asked::Translate { settings } => translate(rt, settings),
        Asked::Replay { file } => replay(rt, file),
        Asked::Pcap { file, out } => pcap(rt, file, out),
        Asked::Run {
            file,
            sessions,
            options,
        } => run(rt, system, file, sessions, &options),
    }
}

/// Writes the version where a command line asks for it, or why it asks for nothing; gives the status.
fn tell(rt: &HostRuntime, fault: &LineFault) -> io::Result<u8> {
    match fault {
        LineFault::Clap(error) if error.kind() == ErrorKind::DisplayVersion => {
            tell_version(rt)?;
            Ok(0)
        }
        LineFault::Clap(error) => {
            eprint!(rt; "{error}")?;
            Ok(USAGE)
        }
        LineFault::Memory => refuse_for(rt, "memory"),
    }
}

/// Writes the version, and the commit where it is known.
fn tell_version(rt: &HostRuntime) -> io::Result<()> {
    match commit_of(rt) {
        Some(commit) => println!(rt; "gateway {VERSION} (commit {})", commit.as_str().trim()),
        None => println!(rt; "gateway {VERSION}"),
    }
}
