//! What is left of the answer to an interrogation.
ghost use Rattle.std.specs.Prelude.{◌≡◌, ℕ, ◌+◌, ◌-◌, ◌<◌, [], drop, length, slice_get, IfOk, IfSome, Some};
ghost use Rattle.gw_model.specs.declared.observation.Observation.{Observation as Row};
ghost use Rattle.gw_map.specs.Settings.{station_clocks};
ghost use Rattle.gw_answers.specs.declared.outgoing.OwnAsdu.TheVariants.{Observation as Told};
ghost use Rattle.gw_answers.specs.Interrogations.{answer_with};
ghost use Rattle.gw_answers.specs.Octets.{octets_in};
ghost use Rattle.gw_answers.specs.Sections.{joined, parts_of};
ghost use Rattle.gw_station.specs.Answers.{is_pending};
ghost use Rattle.gw_station.specs.Kept.{parts_at, parts_front, parts_left, parts_octets, parts_together, rows_at, HasPart};

use gw_answers::{
    AnswerSection, AsduAnswer, OwnAsdu, PackedAsdu, answer_asdu, cause_for, command_with, pack,
};
use gw_map::Settings;
use gw_model::{Memory, Observation};
use iec_command::Command;
use iec_command::causes::{ACTIVATION_CONFIRMATION, ACTIVATION_TERMINATION};
use std::marker::Model;
use std::sync::ArcSlice;

/// The parts of a section that are no rows: its confirmation and its termination.
const COMMANDS: usize = 2;

/// The parts of an answer that aren't put out yet.
#[derive(Drop)]
pub struct PartsLeft {
    /// The answer, a section for each common address, as long as a part of it is left. Copies share it, for it never
    /// changes.
    answer: Option<ArcSlice<AnswerSection>>,
    /// How many sections were put out.
    section: usize,
    /// How many parts of the next one were put out.
    done: usize,
}

impl Model for PartsLeft {
    ghost use Rattle.std.specs.Prelude.{List, option_map, IfSome};
    ghost use Rattle.std.specs.Arc.{arc_slice_items};
    ghost use Rattle.gw_answers.specs.declared.outgoing.OwnAsdu.{OwnAsdu as Left};
    ghost use Rattle.gw_answers.specs.Sections.{parts_of};
    ghost use Rattle.gw_station.specs.Kept.{parts_left, HasPart};

    ghost Value = { List Left };

    ghost view = { λ r. parts_left r.section r.done (option_map (λ answer. parts_of (arc_slice_items answer)) r.answer) };

    // As long as there is an answer, a part of it is left.
    ghost invariant = { λ r. IfSome r.answer (λ answer. HasPart r.section r.done (parts_of (arc_slice_items answer))) };
}

impl PartsLeft {
    /// No answer is pending.
    pub fn none() -> PartsLeft
        ensures { result ≡ [] }
    {
        PartsLeft {
            answer: None,
            section: 0,
            done: 0,
        }
    }

    /// All parts of an answer.
    pub fn of(answer: Vec<AnswerSection>) -> Result<PartsLeft, Memory>
        ensures { IfOk result (λ rest. rest ≡ joined (parts_of answer.items)) }
    {
        if answer.is_empty() {
            return Ok(PartsLeft::none());
        }
        Ok(PartsLeft {
            answer: Some(ArcSlice::from_vec(answer)?),
            section: 0,
            done: 0,
        })
    }

    /// The same parts.
    pub fn copy(&self) -> Result<PartsLeft, Memory>
        ensures { IfOk result (λ rest. rest ≡ self.now) }
    {
        let answer = match &self.answer {
            None => None,
            Some(answer) => Some(answer.clone()?),
        };
        Ok(PartsLeft {
            answer,
            section: self.section,
            done: self.done,
        })
    }

    /// Whether an interrogation is pending: a part is left.
    pub fn is_pending(&self) -> bool
        ensures { result ≡ is_pending self.now }
    {
        self.answer.is_some()
    }

    /// The first that is left.
    pub fn first(&self) -> Option<OwnAsdu>
        ensures { result ≡ slice_get self.now 0 }
    {
        let answer = self.answer.as_ref()?;
        let section = answer.as_slice().get(self.section)?;
        Some(part_at(&section.command, section.rows.as_slice(), self.done))
    }

    /// The ASDU of the first part that is left, with as many rows behind it as it carries; and how many parts these are.
    pub fn pack(&self, first: &OwnAsdu, settings: &Settings) -> PackedAsdu
        requires { slice_get self.now 0 ≡ Some first.now }
        ensures asdu { octets_in result.asdu
            ≡ parts_octets (station_clocks settings.now.station) first.now self.now }
        ensures taken { result.taken ≡ parts_together (station_clocks settings.now.station) first.now self.now }
    {
        let zone = settings.zone();
        match first {
            OwnAsdu::Command(_) => PackedAsdu {
                asdu: answer_asdu(&zone, &AsduAnswer::Made(*first)),
                taken: 1,
            },
            OwnAsdu::Observation {
                cause,
                originator,
                ..
            } => pack(*cause, *originator, &zone, self.rows()),
        }
    }

    /// The rows that are left, where one is first.
    fn rows(&self) -> &[Observation]
        ensures { (cause originator : ℕ) (x : Row) → slice_get self.now 0 ≡ Some (Told cause originator x)
            → (result.now ≡ parts_front cause originator self.now) × (0 < length result.now) }
    {
        match &self.answer {
            None => &[],
            Some(answer) => rows_left(answer.as_slice(), self.section, self.done),
        }
    }

    /// So many don't wait any more; behind the last one the memory is given back.
    pub fn forget(&mut self, count: usize)
        ensures { self.new ≡ drop count self.old }
    {
        let Some(answer) = &self.answer else {
            return;
        };
        match place_behind(answer.as_slice(), self.section, self.done, count) {
            Some((section, done)) => {
                self.section = section;
                self.done = done;
            }
            None => *self = PartsLeft::none(),
        }
    }
}

/// Where an answer of which so many sections, and so many parts of the next, were put out goes on behind so many more
/// parts; nothing where none is left.
fn place_behind(
    answer: &[AnswerSection],
    section: usize,
    done: usize,
    count: usize,
) -> Option<(usize, usize)>
    requires { HasPart section done (parts_of answer.now) }
    ensures place { IfSome result (λ place. HasPart place.0 place.1 (parts_of answer.now)) }
    ensures left { parts_at result (parts_of answer.now)
        ≡ drop count (parts_left section done (Some (parts_of answer.now))) }
{
    let mut done = done;
    let mut left = count;
    for next in section..answer.len() {
        let here = answer[next].rows.len() + COMMANDS - done;
        if left < here {
            return Some((next, done + left));
        }
        left -= here;
        done = 0;
    }
    None
}

/// The rows that are left of a section.
fn rows_left(answer: &[AnswerSection], section: usize, done: usize) -> &[Observation]
    ensures { result.now ≡ rows_at section done answer.now }
{
    match answer.get(section) {
        Some(section) => rows_behind(section.rows.as_slice(), done),
        None => &[],
    }
}

/// The part of a section with these rows at a place.
fn part_at(command: &Command, rows: &[Observation], place: usize) -> OwnAsdu
    requires { place < length rows.now + 2 }
    ensures { Some result ≡ slice_get (answer_with command.now rows.now) place }
{
    if place == 0 {
        return command_with(ACTIVATION_CONFIRMATION, false, command);
    }
    match row_at(rows, place - 1) {
        Some(observation) => OwnAsdu::Observation {
            cause: cause_for(command.action),
            originator: 0,
            observation,
        },
        None => command_with(ACTIVATION_TERMINATION, false, command),
    }
}

fn row_at(rows: &[Observation], place: usize) -> Option<Observation>
    ensures { result ≡ slice_get rows.now place }
{
    rows.get(place).copied()
}

/// The rows of a section of which so many parts were put out, the confirmation first.
fn rows_behind(rows: &[Observation], done: usize) -> &[Observation]
    ensures { result.now ≡ drop (done - 1) rows.now }
{
    let start = done.saturating_sub(1);
    if start < rows.len() {
        &rows[start..]
    } else {
        &[]
    }
}
