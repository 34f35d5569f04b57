//! Interrogations.
ghost use Rattle.std.specs.List.{list_any};
ghost use Rattle.gw_model.specs.declared.observation.Observation.{Observation as Shown};
ghost use Rattle.std.specs.Prelude.{◌≡◌, ◌==◌, false, List, [], ◌∷◌, ◌++◌, map, slice_get, None, IfOk, IfSome, OnOk};
ghost use Rattle.gw_model.specs.Places.{change};
ghost use Rattle.gw_answers.specs.Answers.{first_asked};
ghost use Rattle.gw_answers.specs.Interrogations.{answer_under, asked_addresses, cause_for};
ghost use Rattle.gw_answers.specs.Interrogations.{is_accepted_act, is_asked_by, is_general, rows_under};
ghost use Rattle.gw_answers.specs.Outgoing.{under};
ghost use Rattle.gw_map.specs.Settings.{AreDistinct};
ghost use Rattle.gw_answers.specs.Sections.{commands_in, parts_of, rows_in};

use crate::answering::under;
use gw_judge::ALL_STATIONS;
use gw_map::Settings;
use gw_model::{Memory, Observation};
use iec_command::causes::{ACTIVATION, COUNTER_INTERROGATION, STATION_INTERROGATION};
use iec_command::{Action, Command};
use std::alloc::Global;

/// The qualifier of a station interrogation (IEC 60870-5-101, 7.2.6.22).
const STATION: u8 = 20;

/// The qualifier of a general request of counters, without freeze (IEC 60870-5-101, 7.2.6.23).
const GENERAL_COUNTERS: u8 = 5;

/// Whether a command asks for all rows, or for all counters.
fn is_general(action: Action) -> bool
    ensures { result ≡ is_general action }
{
    match action {
        Action::Interrogation { qualifier } => qualifier == STATION,
        Action::CounterInterrogation { qualifier } => qualifier == GENERAL_COUNTERS,
        _ => false,
    }
}

/// Whether a command is the activation of an interrogation that is accepted: none is pending.
pub fn is_accepted_act(pending: bool, command: &Command) -> bool
    ensures { result ≡ is_accepted_act pending command.now }
{
    command.cause == ACTIVATION && is_general(command.action) && !pending
}

/// Whether a row answers an interrogation: totals a counter interrogation, all else a station interrogation.
fn is_asked_by(action: Action, observation: &Observation) -> bool
    ensures { result ≡ is_asked_by action observation.now }
{
    match action {
        Action::CounterInterrogation { .. } => observation.value.is_total(),
        _ => !observation.value.is_total(),
    }
}

/// The cause of transmission of the rows that answer an interrogation.
pub fn cause_for(action: Action) -> u8
    ensures { result ≡ cause_for action }
{
    match action {
        Action::CounterInterrogation { .. } => COUNTER_INTERROGATION,
        _ => STATION_INTERROGATION,
    }
}

/// The first common address that is asked: the one, or the first known one, where all stations are (65535).
pub(crate) fn first_asked(settings: &Settings, common_address: u16) -> u16
    ensures { result ≡ first_asked (asked_addresses settings.now common_address) common_address }
{
    if common_address != ALL_STATIONS {
        return common_address;
    }
    match settings.known_addresses().first() {
        Some(first) => *first,
        None => common_address,
    }
}

/// The answer to an interrogation under one common address.
#[derive(Drop)]
pub struct AnswerSection {
    /// The act, under this common address.
    pub command: Command,
    /// What stands between its confirmation and its termination.
    pub rows: Vec<Observation>,
}

/// The answer to an interrogation that is accepted, a section for each common address that it asks, while `picture` shows
/// the rows of `settings`.
pub fn sections_of(
    alloc: Global,
    command: &Command,
    settings: &Settings,
    picture: &[Observation],
) -> Result<Vec<AnswerSection>, Memory>
    ensures { IfOk result (λ sections. parts_of sections.items ≡ map (answer_under command.now picture.now)
        (asked_addresses settings.now command.now.common_address)) }
{
    if command.common_address == ALL_STATIONS {
        sections_under(alloc, command, settings.known_addresses(), picture)
    } else {
        section_of_one(alloc, command, picture)
    }
}

/// The one section under the common address of an act.
fn section_of_one(
    alloc: Global,
    command: &Command,
    picture: &[Observation],
) -> Result<Vec<AnswerSection>, Memory>
    ensures { IfOk result (λ sections. parts_of sections.items
        ≡ answer_under command.now picture.now command.now.common_address ∷ []) }
{
    let mut sections = Vec::with_capacity(alloc, 1)?;
    sections.push_reserved(AnswerSection {
        command: *command,
        rows: rows_under(alloc, command.action, command.common_address, picture)?,
    });
    Ok(sections)
}

/// The sections under common addresses none of which stands twice.
fn sections_under(
    alloc: Global,
    command: &Command,
    addresses: &[u16],
    picture: &[Observation],
) -> Result<Vec<AnswerSection>, Memory>
    requires { AreDistinct addresses.now }
    ensures { IfOk result (λ sections.
        parts_of sections.items ≡ map (answer_under command.now picture.now) addresses.now) }
{
    let mut sections = empty_sections(alloc, command, addresses)?;
    let mut place = 0;
    for observation in picture {
        place = arrange(&mut sections, addresses, command.action, observation, place)?;
    }
    Ok(sections)
}

/// Adds a row that is asked to the section of its common address, which may be where the one before was added. Answers
/// the place.
fn arrange(
    sections: &mut Vec<AnswerSection>,
    addresses: &[u16],
    action: Action,
    row: &Observation,
    near: usize,
) -> Result<usize, Memory>
    requires { AreDistinct addresses.now }
    ensures commands { OnOk result (commands_in sections.new.items ≡ commands_in sections.old.items) }
    ensures rows { (before : List Shown) → rows_in sections.old.items ≡ map (rows_under action before) addresses.now
        → OnOk result
        (rows_in sections.new.items ≡ map (rows_under action (before ++ row.now ∷ [])) addresses.now) }
{
    if !is_asked_by(action, row) {
        return Ok(near);
    }
    let Some(place) = place_of(row.common, addresses, near) else {
        return Ok(near);
    };
    add_row(sections, place, row)?;
    Ok(place)
}

/// Sections under common addresses, without rows.
fn empty_sections(
    alloc: Global,
    command: &Command,
    addresses: &[u16],
) -> Result<Vec<AnswerSection>, Memory>
    ensures commands { IfOk result (λ sections.
        commands_in sections.items ≡ map (λ common. under common command.now) addresses.now) }
    ensures rows { IfOk result (λ sections. rows_in sections.items ≡ map (λ _. []) addresses.now) }
{
    let mut sections = Vec::with_capacity(alloc, addresses.len())?;
    for address in addresses {
        sections.push_reserved(AnswerSection {
            command: under(*address, command),
            rows: Vec::new(alloc),
        });
    }
    Ok(sections)
}

/// The place of a common address among some, which may be where the one before was found.
fn place_of(common_address: u16, addresses: &[u16], near: usize) -> Option<usize>
    ensures there { IfSome result (λ place. slice_get addresses.now place ≡ Some common_address) }
    ensures nowhere { result ≡ None → list_any (λ address. address == common_address) addresses.now ≡ false }
{
    if let Some(address) = addresses.get(near) {
        if *address == common_address {
            return Some(near);
        }
    }
    for (place, address) in addresses.iter().enumerate() {
        if *address == common_address {
            return Some(place);
        }
    }
    None
}

/// Adds a row to the section at a place.
fn add_row(sections: &mut Vec<AnswerSection>, place: usize, row: &Observation) -> Result<(), Memory>
    ensures commands { OnOk result (commands_in sections.new.items ≡ commands_in sections.old.items) }
    ensures rows { OnOk result
        (rows_in sections.new.items ≡ change place (λ rows. rows ++ row.now ∷ []) (rows_in sections.old.items)) }
{
    if let Some(section) = sections.get_mut(place) {
        section.rows.push(*row)?;
    }
    Ok(())
}

/// What the picture shows of what an interrogation asks under a common address, in the order of its rows.
fn rows_under(
    alloc: Global,
    action: Action,
    common_address: u16,
    picture: &[Observation],
) -> Result<Vec<Observation>, Memory>
    ensures { IfOk result (λ rows. rows.items ≡ rows_under action picture.now common_address) }
{
    let mut rows = Vec::new(alloc);
    for observation in picture {
        if observation.common == common_address && is_asked_by(action, observation) {
            rows.push(*observation)?;
        }
    }
    Ok(rows)
}
