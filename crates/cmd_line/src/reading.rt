//! The program's command line: what its words ask for, or why they ask for nothing.
//!
//! `clap` reads the words. Its rules for them stand in `specs/CommandLine.antt`: the program and
//! its subcommands as values, and what each subcommand asks for.

ghost use Rattle.std.specs.Prelude.{◌≡◌, [], IfErr, IfOk, Some, false, map, option_map};
ghost use Rattle.clap.specs.Words.{App, Rule, app_of, fault_of, first_of, found_of, rows_of};
ghost use Rattle.clap.specs.Words.{rule_of, subcommand_rows_of, with_rule, with_subcommand};
ghost use Rattle.clap.specs.Walk.{texts};
ghost use Rattle.clap.specs.declared.builder.command.Command.TheViews.{out-Command as fields_of};
ghost use Rattle.cmd_line.specs.CommandLine.{IsRefusal, alone, as_fault, asked_of, check, check_in};
ghost use Rattle.cmd_line.specs.CommandLine.{file_app, file_in, file_rule, flag_rule, following, gateway};
ghost use Rattle.cmd_line.specs.CommandLine.{is_used, number_from, number_in, number_of, number_rule};
ghost use Rattle.cmd_line.specs.CommandLine.{options_in, options_of, out_in, out_rule, pcap, points};
ghost use Rattle.cmd_line.specs.CommandLine.{points_in, recording, request_of, run, run_in, serve, shown};
ghost use Rattle.cmd_line.specs.CommandLine.{spelled, text_rule, texts_in, texts_rule, translate};
ghost use Rattle.cmd_line.specs.declared.reading.LineFault.TheVariants.{Memory};

use clap::error::ErrorKind;
use clap::{Arg, ArgAction, ArgMatches, Command, Error, value_parser};
use std::alloc::{AllocError, Global};
use std::num::ParseIntError;

pub mod examples;

/// The gateway's version, as the file VERSION has it.
pub const VERSION: &str = "0.1.0";

/// The most that an option with a number may ask for: connections of control centres, or megabytes.
const LARGEST_NUMBER: u32 = 1_000_000;

/// The most megabytes that a file of a record may have, where none are said.
const DEFAULT_RECORD_SIZE: u32 = 256;

/// What a command line asks for.
#[derive(Drop)]
pub enum Asked<'a> {
    /// `gateway check FILE [--profile] [--profile-html] [--names FILE]`: tells what a settings file means, or what is wrong
    /// with it; with `--profile` as the sheet that is signed, with `--profile-html` as the same in HTML, and with `--names` with
    /// the names of a list.
    Check {
        file: &'a str,
        profile: bool,
        profile_html: bool,
        names: Option<&'a str>,
    },
    /// `gateway points FILE --site FILE`: writes the settings of a list, for the station and the outstations of a
    /// settings file. `gateway points --csv FILE [--names FILE]`: writes the list of a settings file.
    Points {
        file: &'a str,
        site: Option<&'a str>,
        csv: bool,
        names: Option<&'a str>,
    },
    /// `gateway translate [--settings FILE]`: reads DNP3 fragments in hexadecimal, one a line, and
    /// writes what they bring as ASDUs.
    Translate {
        settings: Option<&'a str>,
    },
    /// `gateway replay FILE`: makes the steps that lines ask for, and writes the replies.
    Replay {
        file: &'a str,
    },
    /// `gateway pcap FILE OUT`: plays the lines of a record, and writes what they and the replies show as packets into OUT.
    Pcap {
        file: &'a str,
        out: &'a str,
    },
    /// `gateway run FILE [--sessions N] [OPTIONS]`: serves control centres and outstations as the options say, until N
    /// connections of control centres have ended, where N is given.
    Run {
        file: &'a str,
        sessions: Option<u32>,
        options: RunOptions<'a>,
    },
}

/// How `gateway run` serves.
#[derive(Drop)]
pub struct RunOptions<'a> {
    /// `--allow ADDRESS`, as often as it is used, in this order: only clients from these addresses are served. Where
    /// it isn't used, any client is.
    pub allow: Vec<&'a str>,
    /// `--until-eof`: the gateway ends in order when standard input ends.
    pub until_eof: bool,
    /// `--site NAME`: the name of the site, which the status shows.
    pub site: Option<&'a str>,
    /// `--health-needs-centre`: the health is bad while no control centre transfers data.
    pub needs_centre: bool,
    /// `--status ADDRESS:PORT`: where a status page is served.
    pub status: Option<&'a str>,
    /// `--record FILE`: the file to which the run is written as lines of a replay.
    pub record: Option<&'a str>,
    /// `--record-size MB`: the most megabytes that this file may have, or a file of a piece.
    pub record_size: u32,
    /// `--names FILE`: the list whose names stand behind lines of the log, and on the status page.
    pub names: Option<&'a str>,
    /// `--record-folder DIR`: the folder that keeps the run in pieces, beside earlier ones.
    pub record_folder: Option<&'a str>,
    /// `--record-keep MB`: the most megabytes that the runs of this folder may have together.
    pub record_keep: Option<u32>,
    /// `--values`: the status shows the values of points.
    pub values: bool,
    /// `--events FILE`: the file or the named pipe to which each spontaneous observation is written as a line.
    pub events: Option<&'a str>,
    /// `--events-keep MB`: the most megabytes that this file and those before it may have together.
    pub events_keep: Option<u32>,
}

/// Why a command line asks for nothing.
#[derive(Drop)]
pub enum LineFault {
    /// `clap` refuses the words, or answers them with help. The error's `Display` is the text for the
    /// user.
    Clap(Error),
    /// Memory ran out.
    Memory,
}

impl From<AllocError> for LineFault {
    ghost from_gives = { λ _ fault. fault ≡ Memory };

    fn from(_error: AllocError) -> LineFault {
        LineFault::Memory
    }
}

impl From<Error> for LineFault {
    ghost from_gives = { λ error fault. fault ≡ as_fault error };

    fn from(error: Error) -> LineFault {
        match error.kind() {
            ErrorKind::OutOfMemory => LineFault::Memory,
            _ => LineFault::Clap(error),
        }
    }
}

/// What the words of a command line ask for, of which the first is the program's own name.
///
/// # Errors
///
/// `Clap` where `clap` refuses the words or answers them with help, and `Memory` where memory runs
/// out.
pub fn command_line<'a>(alloc: Global, words: &'a [&'a str]) -> Result<Asked<'a>, LineFault>
    ensures spelled { IfOk result (λ asked. spelled (texts words.now) ≡ Some (request_of asked)) }
    ensures taken { IfOk result (λ _. fault_of gateway (texts words.now) ≡ []) }
    ensures refused { IfErr result (IsRefusal (fault_of gateway (texts words.now))) }
{
    let matches = gateway_command(alloc)?.try_get_matches_from(words)?;
    let asked = asked_by(alloc, &matches)?;
    Ok(asked.unwrap())
}

/// The program without its subcommands, of which one has to be named.
fn gateway_alone<'a>(alloc: Global) -> Command<'a>
    ensures { app_of result ≡ alone }
{
    Command::new(alloc, "gateway")
        .version(VERSION)
        .about("Carries points of DNP3 outstations to IEC 60870-5-104 clients")
        .subcommand_required(true)
}

/// The program.
fn gateway_command<'a>(alloc: Global) -> Result<Command<'a>, AllocError>
    ensures { IfOk result (λ command. app_of command ≡ gateway) }
{
    let replay = file_command(
        alloc,
        "replay",
        "Makes steps of the core, and writes its replies",
    );
    let program = with_subcommand(Ok(gateway_alone(alloc)), check_command(alloc));
    let program = with_subcommand(program, points_command(alloc));
    let program = with_subcommand(program, translate_command(alloc));
    let program = with_subcommand(program, replay);
    let program = with_subcommand(program, pcap_command(alloc));
    with_subcommand(program, following_command(alloc))
}

/// The program with a subcommand more.
fn with_subcommand<'a>(
    program: Result<Command<'a>, AllocError>,
    subcommand: Result<Command<'a>, AllocError>,
) -> Result<Command<'a>, AllocError>
    ensures { (app below : App) → IfOk program.entry (λ command. app_of command ≡ app)
        → IfOk subcommand.entry (λ command. app_of command ≡ below)
        → IfOk subcommand.entry (λ command. (fields_of command).has_globals ≡ false)
        → IfOk result (λ command. app_of command ≡ with_subcommand app below.top) }
{
    program?.subcommand(subcommand?)
}

/// A command with an argument more, which is not global.
fn with_argument<'a>(
    command: Result<Command<'a>, AllocError>,
    argument: Arg<'a>,
) -> Result<Command<'a>, AllocError>
    requires { argument.global ≡ false }
    ensures app { (app : App) (rule : Rule) → IfOk command.entry (λ old. app_of old ≡ app)
        → rule_of argument.entry ≡ rule
        → IfOk result (λ new. app_of new ≡ with_rule app rule) }
    ensures local { IfOk command.entry (λ old. (fields_of old).has_globals ≡ false)
        → IfOk result (λ new. (fields_of new).has_globals ≡ false) }
{
    command?.arg(argument)
}

/// `gateway NAME FILE`, of a settings file.
fn file_command<'a>(alloc: Global, name: &'a str, about: &'a str) -> Result<Command<'a>, AllocError>
    ensures app { IfOk result (λ command. app_of command ≡ file_app name.now) }
    ensures local { IfOk result (λ command. (fields_of command).has_globals ≡ false) }
{
    named_command(alloc, name, about, "The settings file")
}

/// `gateway NAME FILE`, with what the file is.
fn named_command<'a>(
    alloc: Global,
    name: &'a str,
    about: &'a str,
    file: &'a str,
) -> Result<Command<'a>, AllocError>
    ensures app { IfOk result (λ command. app_of command ≡ file_app name.now) }
    ensures local { IfOk result (λ command. (fields_of command).has_globals ≡ false) }
{
    Command::new(alloc, name)
        .about(about)
        .arg(file_argument(alloc, file))
}

/// `gateway check`.
fn check_command<'a>(alloc: Global) -> Result<Command<'a>, AllocError>
    ensures app { IfOk result (λ command. app_of command ≡ check) }
    ensures local { IfOk result (λ command. (fields_of command).has_globals ≡ false) }
{
    let profile = flag_argument(
        alloc,
        "profile",
        "Writes the sheet that is signed instead: interoperability list, outstations, signals",
    );
    let profile_html = flag_argument(alloc, "profile-html", "Writes the same as an HTML document");
    let names = text_argument(alloc, "names", "FILE", "The list with the names to write");
    let command = file_command(
        alloc,
        "check",
        "Tells what a settings file means, or what is wrong with it",
    );
    let command = with_argument(command, profile);
    let command = with_argument(command, profile_html);
    with_argument(command, names)
}

/// `gateway points`.
fn points_command<'a>(alloc: Global) -> Result<Command<'a>, AllocError>
    ensures app { IfOk result (λ command. app_of command ≡ points) }
    ensures local { IfOk result (λ command. (fields_of command).has_globals ≡ false) }
{
    let site = text_argument(
        alloc,
        "site",
        "FILE",
        "The settings file with the station and the outstations of the list",
    );
    let csv = flag_argument(alloc, "csv", "Writes the list of a settings file instead");
    let names = text_argument(alloc, "names", "FILE", "The list with the names to write");
    let command = named_command(
        alloc,
        "points",
        "Writes the settings of a list of points and controls in CSV",
        "The list, or with --csv the settings file",
    );
    let command = with_argument(command, site);
    let command = with_argument(command, csv);
    with_argument(command, names)
}

/// `gateway translate`.
fn translate_command<'a>(alloc: Global) -> Result<Command<'a>, AllocError>
    ensures app { IfOk result (λ command. app_of command ≡ translate) }
    ensures local { IfOk result (λ command. (fields_of command).has_globals ≡ false) }
{
    Command::new(alloc, "translate")
        .about("Reads DNP3 fragments in hexadecimal, and writes what they bring as ASDUs")
        .arg(text_argument(alloc, "settings", "FILE", "The settings file"))
}

/// `gateway pcap`.
fn pcap_command<'a>(alloc: Global) -> Result<Command<'a>, AllocError>
    ensures app { IfOk result (λ command. app_of command ≡ pcap) }
    ensures local { IfOk result (λ command. (fields_of command).has_globals ≡ false) }
{
    let out = out_argument(alloc);
    let command = file_command(
        alloc,
        "pcap",
        "Plays a record, and writes it as packets that are made anew round its fragments and APDUs",
    );
    with_argument(command, out)
}

/// `gateway run`, with the options that say whom it serves, and how long.
fn serve_command<'a>(alloc: Global) -> Result<Command<'a>, AllocError>
    ensures app { IfOk result (λ command. app_of command ≡ serve) }
    ensures local { IfOk result (λ command. (fields_of command).has_globals ≡ false) }
{
    let sessions = number_argument(
        alloc,
        "sessions",
        "N",
        "Ends after so many connections of control centres, 1 to 1000000",
    );
    let allow = texts_argument(
        alloc,
        "allow",
        "ADDRESS",
        "Serves only clients from this IP address, or from ADDRESS/BITS; may be used several times",
    );
    let until_eof = flag_argument(alloc, "until-eof", "Ends in order when standard input ends");
    let command = file_command(
        alloc,
        "run",
        "Serves control centres, and outstations for them",
    );
    let command = with_argument(command, sessions);
    let command = with_argument(command, allow);
    with_argument(command, until_eof)
}

/// `gateway run`, with the options besides that say what the status shows.
fn shown_command<'a>(alloc: Global) -> Result<Command<'a>, AllocError>
    ensures app { IfOk result (λ command. app_of command ≡ shown) }
    ensures local { IfOk result (λ command. (fields_of command).has_globals ≡ false) }
{
    let site = text_argument(
        alloc,
        "site",
        "NAME",
        "The name of the site, which the status shows",
    );
    let needs_centre = flag_argument(
        alloc,
        "health-needs-centre",
        "The health is bad while no control centre transfers data",
    );
    let command = with_argument(serve_command(alloc), site);
    with_argument(command, needs_centre)
}

/// `gateway run`, with the options that say where its status and its record are.
fn run_command<'a>(alloc: Global) -> Result<Command<'a>, AllocError>
    ensures app { IfOk result (λ command. app_of command ≡ run) }
    ensures local { IfOk result (λ command. (fields_of command).has_globals ≡ false) }
{
    let status = text_argument(
        alloc,
        "status",
        "ADDRESS:PORT",
        "Serves a status page there",
    );
    let record = text_argument(
        alloc,
        "record",
        "FILE",
        "Writes the run to this file, as lines of a replay",
    );
    let record_size = number_argument(
        alloc,
        "record-size",
        "MB",
        "The most megabytes that a file of the record may have, 1 to 1000000; 256 where none are said",
    );
    let names = text_argument(alloc, "names", "FILE", "The list with the names to tell");
    let command = with_argument(shown_command(alloc), status);
    let command = with_argument(command, record);
    let command = with_argument(command, record_size);
    with_argument(command, names)
}

/// `gateway run`, with the options that say which records it keeps.
fn recording_command<'a>(alloc: Global) -> Result<Command<'a>, AllocError>
    ensures app { IfOk result (λ command. app_of command ≡ recording) }
    ensures local { IfOk result (λ command. (fields_of command).has_globals ≡ false) }
{
    let folder = text_argument(
        alloc,
        "record-folder",
        "DIR",
        "Keeps the run in this folder, in pieces of --record-size, beside earlier runs",
    );
    let keep = number_argument(
        alloc,
        "record-keep",
        "MB",
        "The most megabytes that the runs of --record-folder may have together, 1 to 1000000; the oldest go first",
    );
    let command = with_argument(run_command(alloc), folder);
    with_argument(command, keep)
}

/// `gateway run`, with all its options: those besides that say who may follow the values of points.
fn following_command<'a>(alloc: Global) -> Result<Command<'a>, AllocError>
    ensures app { IfOk result (λ command. app_of command ≡ following) }
    ensures local { IfOk result (λ command. (fields_of command).has_globals ≡ false) }
{
    let values = flag_argument(alloc, "values", "The status shows the values of points");
    let events = text_argument(
        alloc,
        "events",
        "FILE",
        "Writes each spontaneous observation to this file or named pipe, as a line of CSV",
    );
    let keep = number_argument(
        alloc,
        "events-keep",
        "MB",
        "The most megabytes that FILE of --events, FILE.1 and so on may have together, 1 to 1000000",
    );
    let command = with_argument(recording_command(alloc), values);
    let command = with_argument(command, events);
    with_argument(command, keep)
}

/// The file that has to be named, with what it is.
fn file_argument<'a>(alloc: Global, help: &'a str) -> Arg<'a>
    ensures rule { rule_of result ≡ file_rule }
    ensures local { result.global ≡ false }
{
    Arg::new(alloc, "file")
        .help(help)
        .value_name("FILE")
        .required(true)
        .action(ArgAction::Set)
}

/// The file that is made, which has to be named behind the settings file.
fn out_argument<'a>(alloc: Global) -> Arg<'a>
    ensures rule { rule_of result ≡ out_rule }
    ensures local { result.global ≡ false }
{
    Arg::new(alloc, "out")
        .help("The capture file, which is made")
        .value_name("OUT")
        .required(true)
        .action(ArgAction::Set)
}

/// `--NAME VALUE`, which may be used once.
fn text_argument<'a>(alloc: Global, name: &'a str, value_name: &'a str, help: &'a str) -> Arg<'a>
    ensures rule { rule_of result ≡ text_rule name.now }
    ensures local { result.global ≡ false }
{
    Arg::new(alloc, name)
        .help(help)
        .long(name)
        .value_name(value_name)
        .action(ArgAction::Set)
}

/// `--NAME VALUE`, which may be used several times.
fn texts_argument<'a>(alloc: Global, name: &'a str, value_name: &'a str, help: &'a str) -> Arg<'a>
    ensures rule { rule_of result ≡ texts_rule name.now }
    ensures local { result.global ≡ false }
{
    text_argument(alloc, name, value_name, help).action(ArgAction::Append)
}

/// `--NAME VALUE`, which may be used once, with a number from 1 to 1000000.
fn number_argument<'a>(alloc: Global, name: &'a str, value_name: &'a str, help: &'a str) -> Arg<'a>
    ensures rule { rule_of result ≡ number_rule name.now }
    ensures local { result.global ≡ false }
{
    text_argument(alloc, name, value_name, help).value_parser(value_parser!(u32).range(
        1..=i64::from(LARGEST_NUMBER),
    ))
}

/// `--NAME`, which may be used once.
fn flag_argument<'a>(alloc: Global, name: &'a str, help: &'a str) -> Arg<'a>
    ensures rule { rule_of result ≡ flag_rule name.now }
    ensures local { result.global ≡ false }
{
    Arg::new(alloc, name)
        .help(help)
        .long(name)
        .action(ArgAction::SetTrue)
}

/// The file that was named; `clap` sees to it that there is one.
fn file_named<'a>(matches: &ArgMatches<'a>) -> &'a str
    ensures { result.now ≡ file_in (rows_of (found_of matches.now)) }
{
    match text_named(matches, "file") {
        Some(file) => file,
        None => "",
    }
}

/// The file that is to be made; `clap` sees to it that there is one.
fn out_named<'a>(matches: &ArgMatches<'a>) -> &'a str
    ensures { result.now ≡ out_in (rows_of (found_of matches.now)) }
{
    match text_named(matches, "out") {
        Some(out) => out,
        None => "",
    }
}

/// The text that was named for an option, if any.
#[tactic(auto, using(crate::proofs::LineLemmas::value_in_rows))]
fn text_named<'a>(matches: &ArgMatches<'a>, name: &str) -> Option<&'a str>
    ensures { option_map (λ text. text.now) result ≡ first_of name.now (rows_of (found_of matches.now)) }
{
    matches.get_str(name)
}

/// The texts that were named for an option, in their order.
#[tactic(auto, using(crate::proofs::LineLemmas::values_in_rows))]
fn texts_named<'a>(
    alloc: Global,
    matches: &ArgMatches<'a>,
    name: &str,
) -> Result<Vec<&'a str>, AllocError>
    ensures { IfOk result (λ named. map (λ text. text.now) named.items
        ≡ texts_in name.now (rows_of (found_of matches.now))) }
{
    match matches.get_strs(name) {
        Some(named) => Vec::from_slice(alloc, named),
        None => Ok(Vec::new(alloc)),
    }
}

/// The number that was named for an option, if any.
fn number_named(matches: &ArgMatches, name: &str) -> Option<u32>
    ensures { result ≡ number_in name.now (rows_of (found_of matches.now)) }
{
    number_of(text_named(matches, name)?)
}

/// The number that a text says, if it is one that an option may ask for; `clap` takes no other.
#[tactic(auto, using(crate::proofs::LineLemmas::number_parsed))]
fn number_of(text: &str) -> Option<u32>
    ensures { result ≡ number_of text.now }
{
    within_bounds(text.parse())
}

/// The number that was read, if it is one that an option may ask for.
fn within_bounds(read: Result<u32, ParseIntError>) -> Option<u32>
    ensures { result ≡ number_from read }
{
    match read {
        Ok(number) if 1 <= number && number <= LARGEST_NUMBER => Some(number),
        _ => None,
    }
}

/// Whether a flag was used: `clap` has the text "true" for it then, and "false" else.
fn flag_named(matches: &ArgMatches, name: &str) -> bool
    ensures { result ≡ is_used name.now (rows_of (found_of matches.now)) }
{
    match text_named(matches, name) {
        Some(text) => text == "true",
        None => false,
    }
}

/// The options of `gateway run` that were used.
fn options_named<'a>(alloc: Global, matches: &ArgMatches<'a>) -> Result<RunOptions<'a>, AllocError>
    ensures { IfOk result (λ options. options_of options ≡ options_in (rows_of (found_of matches.now))) }
{
    Ok(RunOptions {
        allow: texts_named(alloc, matches, "allow")?,
        until_eof: flag_named(matches, "until-eof"),
        site: text_named(matches, "site"),
        needs_centre: flag_named(matches, "health-needs-centre"),
        status: text_named(matches, "status"),
        record: text_named(matches, "record"),
        record_size: number_named(matches, "record-size").unwrap_or(DEFAULT_RECORD_SIZE),
        names: text_named(matches, "names"),
        record_folder: text_named(matches, "record-folder"),
        record_keep: number_named(matches, "record-keep"),
        values: flag_named(matches, "values"),
        events: text_named(matches, "events"),
        events_keep: number_named(matches, "events-keep"),
    })
}

/// What `gateway check` asks for.
fn check_named<'a>(matches: &ArgMatches<'a>) -> Asked<'a>
    ensures { request_of result ≡ check_in (rows_of (found_of matches.now)) }
{
    Asked::Check {
        file: file_named(matches),
        profile: flag_named(matches, "profile"),
        profile_html: flag_named(matches, "profile-html"),
        names: text_named(matches, "names"),
    }
}

/// What `gateway points` asks for.
fn points_named<'a>(matches: &ArgMatches<'a>) -> Asked<'a>
    ensures { request_of result ≡ points_in (rows_of (found_of matches.now)) }
{
    Asked::Points {
        file: file_named(matches),
        site: text_named(matches, "site"),
        csv: flag_named(matches, "csv"),
        names: text_named(matches, "names"),
    }
}

/// What `gateway run` asks for.
fn run_named<'a>(alloc: Global, matches: &ArgMatches<'a>) -> Result<Asked<'a>, AllocError>
    ensures { IfOk result (λ asked. request_of asked ≡ run_in (rows_of (found_of matches.now))) }
{
    Ok(Asked::Run {
        file: file_named(matches),
        sessions: number_named(matches, "sessions"),
        options: options_named(alloc, matches)?,
    })
}

/// What the matches ask for, if they met a subcommand.
fn asked_by<'a>(alloc: Global, matches: &ArgMatches<'a>) -> Result<Option<Asked<'a>>, AllocError>
    ensures { IfOk result (λ asked. option_map request_of asked ≡ asked_of (subcommand_rows_of matches.now)) }
{
    let Some((name, found)) = matches.subcommand() else {
        return Ok(None);
    };
    match name {
        "check" => Ok(Some(check_named(found))),
        "points" => Ok(Some(points_named(found))),
        "translate" => Ok(Some(Asked::Translate {
            settings: text_named(found, "settings"),
        })),
        "replay" => Ok(Some(Asked::Replay {
            file: file_named(found),
        })),
        "pcap" => Ok(Some(Asked::Pcap {
            file: file_named(found),
            out: out_named(found),
        })),
        "run" => Ok(Some(run_named(alloc, found)?)),
        _ => Ok(None),
    }
}
