//! `gateway replay`: steps of the core in, one a line; its replies out.
ghost use Rattle.std.specs.Prelude.{◌≡◌, ◌≤◌, IfOk, IfSome, OnOk};
ghost use Rattle.std.specs.Io.KnownBytes.{Appends};
ghost use Rattle.cmd_replay.specs.Replay.{AnswersInput, IsFine, IsFound, Plays, beginning, played_text, refused_after};

use crate::instruction::{Instruction, read_instruction};
use crate::refusal::{StepRefusal, write_refused};
use crate::reply_text::push_reply;
use cmd_text::{AnswersLines, Stop, answer_lines, finish};
use gw_hub::{Hub, Machine, Reply, StepFault};
use gw_map::Settings;
use gw_model::Memory;
use std::alloc::Global;
use std::io::{BufRead, Write};
use std::marker::Model;

/// How much of a line is kept: more than the longest fragment needs, so that a number may begin with many zeros. A
/// longer line is refused.
const KEPT: usize = 8192;

/// What came of an instruction.
#[derive(Clone, Copy)]
pub enum Played {
    /// A step was made, or not for a fault.
    Replied(Result<Reply, StepFault>),
    /// The octets are no response or no APDU, and no step was made.
    Refused(StepRefusal),
    /// How many news wait, and how many were dropped.
    Waiting { queued: usize, dropped: u64 },
}

/// Makes the step that an instruction asks for.
pub fn play(hub: &mut Hub, instruction: Instruction) -> Played
    ensures { Plays hub.old instruction result hub.new }
{
    match instruction {
        Instruction::Make(step) => Played::Replied(hub.step(&step)),
        Instruction::Refused(refusal) => Played::Refused(refusal),
        Instruction::Queue(client) => Played::Waiting {
            queued: hub.queued(client),
            dropped: hub.dropped(client),
        },
    }
}

/// What a line asks for. Of a line that is longer than what is kept the end isn't known, and it asks for
/// nothing.
fn instruction_in(alloc: Global, line: &[u8]) -> Result<Option<Instruction>, Memory>
    ensures { IfOk result (IsFound line.now) }
{
    if line.len() < KEPT {
        read_instruction(alloc, line)
    } else {
        Ok(None)
    }
}

/// Whether a line was refused, with one more.
fn refused_after(has_refused: bool, played: Played) -> bool
    ensures { result ≡ refused_after has_refused played }
{
    match played {
        Played::Refused(_) => true,
        Played::Replied(_) | Played::Waiting { .. } => has_refused,
    }
}

/// Writes what came of an instruction; the text of a reply is made first.
fn write_played<W: Write>(played: Played, text: &mut Vec<u8>, writer: &mut W) -> Result<(), Stop>
    ensures { OnOk result (Appends (W.contents writer.old) (W.contents writer.new) (played_text played)) }
{
    match played {
        Played::Replied(reply) => {
            text.clear();
            push_reply(text, reply)?;
            writer.write_all(text.as_slice())?;
        }
        Played::Refused(refusal) => write_refused(writer, refusal)?,
        Played::Waiting { queued, dropped } => {
            writeln!(writer, "queued {queued} dropped {dropped}")?;
        }
    }
    Ok(())
}

/// What is kept from line to line: the hub, whether a line was refused, and room for text.
#[derive(Drop)]
pub struct Player {
    alloc: Global,
    hub: Hub,
    has_refused: bool,
    text: Vec<u8>,
}

impl Model for Player {
    ghost use Rattle.cmd_replay.specs.Place.{Place};

    ghost Value = { Place };

    ghost view = { λ p. record { hub = p.hub; has_refused = p.has_refused } };
}

impl Player {
    /// A player on a new hub.
    pub fn new(alloc: Global, settings: Settings) -> Result<Player, Memory>
        ensures { IfOk result (λ player. player ≡ beginning settings) }
    {
        Ok(Player {
            alloc,
            hub: Hub::new(alloc, settings)?,
            has_refused: false,
            text: Vec::new(alloc),
        })
    }

    /// Whether a line was refused.
    pub fn has_refused(&self) -> bool
        ensures { result ≡ self.now.has_refused }
    {
        self.has_refused
    }
}

impl AnswersLines for Player {
    ghost use Rattle.cmd_replay.specs.Replay.{AnswersLine};
    ghost use Rattle.cmd_replay.specs.KeptLaws.{kept_decides};

    const KEPT: usize = KEPT;

    ghost KEPT = { 8192 };

    ghost Answers = { AnswersLine };

    fn answer<W: Write>(&mut self, number: u64, line: &[u8], writer: &mut W) -> Result<bool, Stop> {
        if line.is_empty() {
            return Ok(true);
        }
        let Some(instruction) = instruction_in(self.alloc, line)? else {
            self.has_refused = true;
            writeln!(writer, "refused line {number}")?;
            return Ok(false);
        };
        let played = play(&mut self.hub, instruction);
        self.has_refused = refused_after(self.has_refused, played);
        write_played(played, &mut self.text, writer)?;
        Ok(true)
    }

    ghost front_decides = { kept_decides };
}

/// Answers the lines of a reader, to its end or to the first line that is no instruction; whether none was refused.
fn run<R: BufRead, W: Write>(
    alloc: Global,
    settings: Settings,
    reader: &mut R,
    writer: &mut W,
) -> Result<bool, Stop>
    ensures { IfOk result (λ is_fine. IfSome (R.remaining reader.old) (λ input.
        AnswersInput settings input is_fine (W.contents writer.old) (W.contents writer.new))) }
{
    let mut player = Player::new(alloc, settings)?;
    match answer_lines(alloc, &mut player, reader, writer) {
        Ok(_) => Ok(!player.has_refused()),
        Err(stop) => Err(stop),
    }
}

/// Makes the steps that lines ask for, and writes the reply to each.
///
/// The status is 0, or 1 where a fragment or a frame was refused, a line was no instruction (`refused line N`,
/// which ends it), reading or writing failed, memory ran out (`refused memory`) or 4,294,967,295 reads
/// didn't reach the end of the input. A fault or a close is no refusal.
pub fn replay<R: BufRead + Drop, W: Write + Drop>(
    alloc: Global,
    settings: Settings,
    reader: R,
    writer: W,
) -> u8
    ensures few { result ≤ 1 }
    ensures fine { IfSome (R.remaining reader) (λ input. result ≡ 0 → IsFine settings input) }
{
    let mut reader = reader;
    let mut writer = writer;
    let outcome = run(alloc, settings, &mut reader, &mut writer);
    finish(outcome, writer)
}
