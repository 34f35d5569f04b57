//! The lines of a replay.
ghost use Rattle.std.specs.Prelude.{◌≡◌, ◌≤◌, IfOk, IfSome, length, option_map};
ghost use Rattle.cmd_replay.specs.Instructions.{IsFragmentRead, IsFrameRead, IsRead, IsReadWith, first_word};
ghost use Rattle.cmd_replay.specs.Instructions.{numbers_and_octets, rest_of, short_with, space_in};
ghost use Rattle.cmd_replay.specs.Instructions.{paired_with, step_at, step_with, three_numbers, two_numbers};

use crate::frame::read_apdu;
use crate::refusal::StepRefusal;
use cmd_text::{line_octets, number_8, number_64};
use dnp_app::read_response;
use gw_hub::Step;
use gw_model::Memory;
use std::alloc::Global;

/// What a line of a replay asks for. Outstations and clients go by their position, moments are in
/// milliseconds.
#[derive(Drop)]
pub enum Instruction {
    /// `up O M`: an outstation comes up. `down O M`: it is lost. `poll O M W`: its writer asks for the next request at
    /// a wall time. `open C M`: a client comes up. `close C M`: it is lost. `pump C M`: a client's writer asks for the
    /// next APDU. `tick M`: time has passed. `frag O M HEX`, with the octets of a response: a fragment of an
    /// outstation. `frame C M HEX`, with the octets of one APDU: a client sends it.
    Make(Step),
    /// `frag O M HEX` or `frame C M HEX`, with other octets: they are refused.
    Refused(StepRefusal),
    /// `queue C`: how many news wait for a client, and how many were dropped.
    Queue(u8),
}

/// Where the first space is.
fn space_in(text: &[u8]) -> Option<usize>
    ensures { result ≡ space_in text.now }
{
    text.iter().position(|character| *character == b' ')
}

/// The text before the first space, and what follows that.
fn split_word(text: &[u8]) -> (&[u8], Option<&[u8]>)
    ensures word { result.0.now ≡ first_word text.now }
    ensures rest { option_map (λ rest. rest.now) result.1 ≡ rest_of text.now }
{
    match space_in(text) {
        None => (text, None),
        Some(end) => {
            let (word, _) = text.split_at(end);
            let (_, rest) = text.split_at(end + 1);
            (word, Some(rest))
        }
    }
}

/// `O M` or `C M`.
fn two_numbers(text: &[u8]) -> Option<(u8, u64)>
    ensures { result ≡ two_numbers text.now }
{
    let (place, rest) = split_word(text);
    Some((number_8(place)?, number_64(rest?)?))
}

/// `O M W`.
fn three_numbers(text: &[u8]) -> Option<(u8, u64, u64)>
    ensures { result ≡ three_numbers text.now }
{
    let (place, rest) = split_word(text);
    let (moment, wall) = split_word(rest?);
    Some((number_8(place)?, number_64(moment)?, number_64(wall?)?))
}

/// `O M HEX` or `C M HEX`.
fn numbers_and_octets(alloc: Global, text: &[u8]) -> Result<Option<(u8, u64, Vec<u8>)>, Memory>
    ensures octets { IfOk result (λ found.
        option_map (λ p. (p.0, p.1, p.2.items)) found ≡ numbers_and_octets text.now) }
    ensures short { IfOk result (λ found. IfSome found (λ p. length p.2.items ≤ 2048)) }
{
    let (place, Some(rest)) = split_word(text) else {
        return Ok(None);
    };
    let (moment, Some(hex)) = split_word(rest) else {
        return Ok(None);
    };
    let (Some(place), Some(moment)) = (number_8(place), number_64(moment)) else {
        return Ok(None);
    };
    match line_octets(alloc, hex)? {
        Some(octets) => Ok(Some((place, moment, octets))),
        None => Ok(None),
    }
}

/// What a line asks for; none where it is no such line.
pub fn read_instruction(alloc: Global, line: &[u8]) -> Result<Option<Instruction>, Memory>
    ensures { IfOk result (IsRead line.now) }
{
    match split_word(line) {
        (verb, Some(text)) => instruction_with(alloc, verb, text),
        (_, None) => Ok(None),
    }
}

/// What a verb asks for, with the text after it.
fn instruction_with(alloc: Global, verb: &[u8], text: &[u8]) -> Result<Option<Instruction>, Memory>
    ensures { IfOk result (IsReadWith verb.now text.now) }
{
    match verb {
        b"frag" => fragment(alloc, text),
        b"frame" => frame(alloc, text),
        _ => Ok(short_instruction(verb, text)),
    }
}

/// A fragment, with the text after the verb: its response, or why its octets are none.
fn fragment(alloc: Global, text: &[u8]) -> Result<Option<Instruction>, Memory>
    ensures { IfOk result (IsFragmentRead text.now) }
{
    let Some((outstation, moment, octets)) = numbers_and_octets(alloc, text)? else {
        return Ok(None);
    };
    match read_response(alloc, outstation, octets) {
        Ok(response) => Ok(Some(Instruction::Make(Step::Fragment { response, moment }))),
        Err(fault) => Ok(Some(Instruction::Refused(StepRefusal::Fragment(fault)))),
    }
}

/// A frame of a client, with the text after the verb: its APDU, or why its octets are none.
fn frame(alloc: Global, text: &[u8]) -> Result<Option<Instruction>, Memory>
    ensures { IfOk result (IsFrameRead text.now) }
{
    let Some((client, moment, octets)) = numbers_and_octets(alloc, text)? else {
        return Ok(None);
    };
    match read_apdu(alloc, octets.as_slice())? {
        Ok(apdu) => Ok(Some(Instruction::Make(Step::Frame {
            client,
            apdu,
            moment,
        }))),
        Err(refusal) => Ok(Some(Instruction::Refused(refusal))),
    }
}

/// What the other verbs ask for.
fn short_instruction(verb: &[u8], text: &[u8]) -> Option<Instruction>
    ensures { result ≡ short_with verb.now text.now }
{
    if verb == b"queue".as_slice() {
        return Some(Instruction::Queue(number_8(text)?));
    }
    Some(Instruction::Make(short_step(verb, text)?))
}

/// The step of a verb without octets.
fn short_step(verb: &[u8], text: &[u8]) -> Option<Step>
    ensures { result ≡ step_with verb.now text.now }
{
    if verb == b"tick".as_slice() {
        let moment = number_64(text)?;
        return Some(Step::Tick { moment });
    }
    if verb == b"poll".as_slice() {
        let (outstation, moment, wall) = three_numbers(text)?;
        return Some(Step::Poll {
            outstation,
            moment,
            wall,
        });
    }
    paired_step(verb, text)
}

/// The step of a verb with the number of an outstation or client, and a moment.
fn paired_step(verb: &[u8], text: &[u8]) -> Option<Step>
    ensures { result ≡ paired_with verb.now text.now }
{
    let (place, moment) = two_numbers(text)?;
    step_at(verb, place, moment)
}

/// The step of a verb for an outstation or a client at a moment.
fn step_at(verb: &[u8], place: u8, moment: u64) -> Option<Step>
    ensures { result ≡ step_at verb.now place moment }
{
    match verb {
        b"up" => Some(Step::OutstationUp {
            outstation: place,
            moment,
        }),
        b"down" => Some(Step::OutstationDown {
            outstation: place,
            moment,
        }),
        b"open" => Some(Step::ClientUp {
            client: place,
            moment,
        }),
        b"close" => Some(Step::ClientDown {
            client: place,
            moment,
        }),
        b"pump" => Some(Step::Pump {
            client: place,
            moment,
        }),
        _ => None,
    }
}
