//! `gateway translate`: DNP3 fragments in, one a line; confirmations and ASDUs out.
ghost use Rattle.std.specs.Prelude.{◌≡◌, ◌≤◌, ◌≢◌, true, IfOk, IfSome, OnOk, OnSome};
ghost use Rattle.std.specs.Io.KnownBytes.{Appends, IsAtEnd};
ghost use Rattle.cmd_streams.specs.Answers.{AnswersInput, all_accepted, beginning, finding_after_decision, finding_of, text_of};
ghost use Rattle.cmd_streams.specs.Translation.{decision_text};

use crate::decision::{Decision, decide};
use cmd_replay::{push_accepted, write_refusal};
use cmd_text::{AnswersLines, LONGEST_LINE, Stop, answer_lines, finish};
use dnp_app::AppFault;
use gw_map::Settings;
use gw_model::{Memory, Observation};
use gw_picture::Picture;
use std::alloc::Global;
use std::io::{BufRead, Write};
use std::marker::Model;

/// What became of the lines so far.
#[derive(Clone, Copy)]
pub enum Finding {
    /// Each was empty or accepted.
    Fine,
    /// One was refused.
    Refused,
    /// For one there was no memory to read its objects.
    ShortOfMemory,
}

impl Finding {
    /// What became of the lines with one more.
    fn after(self, decision: Decision) -> Finding
        ensures { result ≡ finding_after_decision self decision }
    {
        match (self, decision) {
            (_, Decision::Empty | Decision::Accepted(_)) => self,
            (Finding::ShortOfMemory, _) | (_, Decision::Refused(AppFault::Memory)) => {
                Finding::ShortOfMemory
            }
            (_, Decision::NotHex | Decision::Refused(_)) => Finding::Refused,
        }
    }
}

/// What is kept from line to line: what was shown of each row, what became of the lines so far, and room.
#[derive(Drop)]
pub struct Translator {
    alloc: Global,
    settings: Settings,
    picture: Picture,
    news: Vec<Observation>,
    text: Vec<u8>,
    asdu: [u8; 249],
    finding: Finding,
}

impl Model for Translator {
    ghost use Rattle.cmd_streams.specs.Standing.{Standing};

    ghost Value = { Standing };

    ghost view = { λ t. record { setup = t.settings; finding = t.finding; picture = t.picture } };
}

impl Translator {
    /// A translator that was given no line yet.
    pub fn new(alloc: Global, settings: Settings) -> Result<Translator, Memory>
        ensures { IfOk result (λ translator. translator ≡ beginning settings) }
    {
        Ok(Translator {
            alloc,
            picture: Picture::new(alloc, &settings)?,
            settings,
            news: Vec::new(alloc),
            text: Vec::new(alloc),
            asdu: [0; 249],
            finding: Finding::Fine,
        })
    }

    /// What became of the lines so far.
    pub fn finding(&self) -> Finding
        ensures { result ≡ self.now.finding }
    {
        self.finding
    }
}

impl AnswersLines for Translator {
    ghost use Rattle.cmd_streams.specs.Answers.{AnswersLine};
    ghost use Rattle.cmd_streams.specs.KeptLaws.{kept_decides};

    const KEPT: usize = LONGEST_LINE + 1;

    ghost KEPT = { 6144 };

    ghost Answers = { AnswersLine };

    fn answer<W: Write>(
        &mut self,
        _number: u64,
        line: &[u8],
        writer: &mut W,
    ) -> Result<bool, Stop> {
        let decision = decide(
            self.alloc,
            &self.settings,
            line,
            &mut self.picture,
            &mut self.news,
        )?;
        self.finding = self.finding.after(decision);
        write_decision(
            &self.settings,
            decision,
            self.news.as_slice(),
            &mut self.text,
            &mut self.asdu,
            writer,
        )?;
        Ok(true)
    }

    ghost front_decides = { kept_decides };
}

/// Writes what was decided of a line, with its news, of which the lines are made as text first.
fn write_decision<W: Write>(
    settings: &Settings,
    decision: Decision,
    news: &[Observation],
    text: &mut Vec<u8>,
    asdu: &mut [u8; 249],
    writer: &mut W,
) -> Result<(), Stop>
    ensures { OnOk result (Appends (W.contents writer.old) (W.contents writer.new)
        (decision_text settings.now decision news.now)) }
{
    match decision {
        Decision::Empty => {}
        Decision::NotHex => writer.write_all(b"refused 0 Hex\n")?,
        Decision::Refused(fault) => write_refusal(writer, fault)?,
        Decision::Accepted(confirm) => {
            text.clear();
            push_accepted(text, settings, confirm, news, asdu)?;
            writer.write_all(text.as_slice())?;
        }
    }
    Ok(())
}

/// Answers the lines of a reader to its end.
fn run<R: BufRead, W: Write>(
    alloc: Global,
    settings: Settings,
    reader: &mut R,
    writer: &mut W,
) -> Result<Finding, Stop>
    ensures end { OnOk result (OnSome (R.remaining reader.old) (IsAtEnd (R.remaining reader.new))) }
    ensures answers { IfOk result (λ finding. IfSome (R.remaining reader.old) (λ input.
        AnswersInput settings input finding (W.contents writer.old) (W.contents writer.new))) }

    // Where there was memory for each line.
    ensures finding { IfOk result (λ finding. finding ≢ Finding.ShortOfMemory
        → IfSome (R.remaining reader.old) (λ input. finding ≡ finding_of input)) }
    ensures text { IfOk result (λ finding. finding ≢ Finding.ShortOfMemory
        → IfSome (R.remaining reader.old) (λ input.
        Appends (W.contents writer.old) (W.contents writer.new) (text_of settings input))) }
{
    let mut translator = Translator::new(alloc, settings)?;
    match answer_lines(alloc, &mut translator, reader, writer) {
        Ok(_) => Ok(translator.finding()),
        Err(stop) => Err(stop),
    }
}

/// Reads fragments of outstation 0 in hexadecimal, one a line, and writes for each its confirmation,
/// where it asks for one, and an ASDU for each of its news: events of points with a row, and static values
/// that differ from what was shown of their row before.
///
/// The status is 0, or 1 where a line was refused, reading or writing failed, memory ran out
/// (`refused memory`) or 4,294,967,295 reads didn't reach the end of the input.
pub fn translate<R: BufRead + Drop, W: Write + Drop>(
    alloc: Global,
    settings: Settings,
    reader: R,
    writer: W,
) -> u8
    ensures few { result ≤ 1 }
    ensures accepted { IfSome (R.remaining reader)
        (λ input. result ≡ 0 → all_accepted input ≡ true) }
{
    let mut reader = reader;
    let mut writer = writer;
    let outcome = run(alloc, settings, &mut reader, &mut writer);
    finish(outcome.map(|finding| finding == Finding::Fine), writer)
}
