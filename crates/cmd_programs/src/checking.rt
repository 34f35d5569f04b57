//! `gateway check`: what a settings file means, or what is wrong with it.

use crate::commit::commit_of;
use crate::lists::{Named, refuse_list};
use crate::refusal::{refuse_file, refuse_octets, tell_texts, write_text};
use crate::settings_file::read_octets;
use crate::system::System;
use cmd_check::{CheckReport, Origin, read_settings};
use cmd_line::VERSION;
use cmd_warnings::write_warnings;
use gw_map::Settings;
use sha2::{Digest, Sha256};
use std::io;

/// In which form settings are told.
#[derive(Clone, Copy)]
pub enum CheckForm {
    /// A line for each point and each control.
    Listing,
    /// The sheet that is signed.
    Profile,
    /// The same in HTML.
    HtmlProfile,
}

impl CheckForm {
    /// That which a command line asks for.
    pub fn of(profile: bool, profile_html: bool) -> CheckForm {
        if profile_html {
            CheckForm::HtmlProfile
        } else if profile {
            CheckForm::Profile
        } else {
            CheckForm::Listing
        }
    }
}

/// `gateway check`, in a form, with the names of a list; gives the status.
pub fn check<S: System>(
    rt: &S,
    file: &str,
    form: CheckForm,
    names: Option<&str>,
) -> io::Result<u8> {
    match read_octets(rt, file) {
        Ok(octets) => {
            let source = Source {
                file,
                octets: octets.as_slice(),
                names,
            };
            check_source(rt, source, form)
        }
        Err(bad) => refuse_file(rt, "", &bad),
    }
}

/// Where settings and names are from.
#[derive(Clone, Copy)]
struct Source<'a> {
    file: &'a str,
    octets: &'a [u8],
    names: Option<&'a str>,
}

/// Writes what the settings mean whose octets were read; gives the status.
fn check_source<S: System>(rt: &S, source: Source<'_>, form: CheckForm) -> io::Result<u8> {
    match read_settings(rt.alloc(), source.octets) {
        Ok(settings) => check_settings(rt, source, &settings, form),
        Err(why) => refuse_octets(rt, "", source.octets, &why),
    }
}

/// Writes what the settings of a file mean, with the names of its list; gives the status.
fn check_settings<S: System>(
    rt: &S,
    source: Source<'_>,
    settings: &Settings,
    form: CheckForm,
) -> io::Result<u8> {
    match Named::read(rt, settings, source.names) {
        Ok(named) => check_named(rt, source, settings, &named, form),
        Err(why) => refuse_list(rt, "", &why),
    }
}

/// Writes what the settings of a file mean; gives the status.
fn check_named<S: System>(
    rt: &S,
    source: Source<'_>,
    settings: &Settings,
    named: &Named,
    form: CheckForm,
) -> io::Result<u8> {
    let digest = hex::encode(rt.alloc(), Sha256::digest(source.octets).as_slice())?;
    let commit = commit_of(rt);
    let origin = Origin {
        file: source.file,
        names: source.names,
        digest: digest.as_str(),
        version: VERSION,
        commit: commit.as_ref().map(|commit| commit.as_str().trim()),
        second: rt.since_1970().map_or(0, |time| time.as_secs()),
    };
    match form {
        CheckForm::Listing => write_report(rt, settings, named, CheckReport::Listing),
        CheckForm::Profile => write_report(rt, settings, named, CheckReport::Profile(origin)),
        CheckForm::HtmlProfile => {
            write_report(rt, settings, named, CheckReport::HtmlProfile(origin))
        }
    }
}

/// Writes what settings mean, once the whole text is made, and on standard error what reads like a slip; gives the status.
fn write_report<S: System>(
    rt: &S,
    settings: &Settings,
    named: &Named,
    report: CheckReport<'_>,
) -> io::Result<u8> {
    let mut text = Vec::new(rt.alloc());
    report.write(rt.alloc(), settings, &named.names, &mut text)?;
    let status = write_text(rt, text.as_slice())?;
    if status == 0 {
        warn(rt, settings, named);
    }
    Ok(status)
}

/// Tells what reads like a slip in settings and in the names. The settings are right, also where nobody can be warned.
fn warn<S: System>(rt: &S, settings: &Settings, named: &Named) {
    let mut warnings = Vec::new(rt.alloc());
    if write_warnings(rt.alloc(), settings, &named.names, &mut warnings).is_ok()
        && named.write_doubts(&mut warnings).is_ok()
    {
        tell_texts(rt, "", warnings.as_slice());
    }
}
