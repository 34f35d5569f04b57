//! The lines of `gateway replay` that make steps.
ghost use Rattle.std.specs.Prelude.{◌≡◌, ◌++◌, ◌↔◌, IsTrue, OnOk};
ghost use Rattle.iec_apci.specs.ApduContent.{IsNumbered};
ghost use Rattle.cmd_capture.specs.StepLines.{step_line, words_at, words_of_tick, words_of_wall, HasLine};

use cmd_text::push_spaced;
use gw_model::Memory;
use gw_steps::Step;
use iec_apci::{Apdu, ApduBuf};
use std::io::Write;

/// Whether a line makes this step: the numbers of an APDU have 15 bits.
pub fn has_line(step: &Step) -> bool
    ensures { IsTrue result ↔ HasLine step.now }
{
    match step {
        Step::Frame { apdu, .. } => is_numbered(apdu),
        _ => true,
    }
}

/// Whether the numbers of an APDU have 15 bits.
fn is_numbered(apdu: &Apdu) -> bool
    ensures { IsTrue result ↔ IsNumbered apdu.now }
{
    match apdu {
        Apdu::I { ns, nr, .. } => *ns < 0x8000 && *nr < 0x8000,
        Apdu::S { nr } => *nr < 0x8000,
        Apdu::U(_) => true,
    }
}

/// Adds the line that makes a step.
pub fn push_step(text: &mut Vec<u8>, step: &Step) -> Result<(), Memory>
    requires { HasLine step.now }
    ensures { OnOk result (text.new.items ≡ text.old.items ++ step_line step.now) }
{
    match step {
        Step::OutstationUp { outstation, moment } => push_at(text, "up", *outstation, *moment)?,
        Step::OutstationDown { outstation, moment } => {
            push_at(text, "down", *outstation, *moment)?;
        }
        Step::Fragment { response, moment } => {
            push_at(text, "frag", response.outstation(), *moment)?;
            push_spaced(text, response.octets())?;
        }
        Step::Poll {
            outstation,
            moment,
            wall,
        } => {
            push_at(text, "poll", *outstation, *moment)?;
            push_wall(text, *wall)?;
        }
        Step::ClientUp { client, moment } => push_at(text, "open", *client, *moment)?,
        Step::ClientDown { client, moment } => push_at(text, "close", *client, *moment)?,
        Step::Frame {
            client,
            apdu,
            moment,
        } => {
            push_at(text, "frame", *client, *moment)?;
            push_spaced(text, ApduBuf::of(apdu).as_slice())?;
        }
        Step::Pump { client, moment } => push_at(text, "pump", *client, *moment)?,
        Step::Tick { moment } => push_tick(text, *moment)?,
    }
    text.push(b'\n')?;
    Ok(())
}

/// Adds a verb, an outstation or a client, and a moment.
fn push_at(text: &mut Vec<u8>, verb: &str, place: u8, moment: u64) -> Result<(), Memory>
    ensures { OnOk result (text.new.items ≡ text.old.items ++ words_at verb.now place moment) }
{
    write!(text, "{verb} {place} {moment}").map_err(|_| Memory)
}

/// Adds a wall time.
fn push_wall(text: &mut Vec<u8>, wall: u64) -> Result<(), Memory>
    ensures { OnOk result (text.new.items ≡ text.old.items ++ words_of_wall wall) }
{
    write!(text, " {wall}").map_err(|_| Memory)
}

/// Adds the verb of a tick, and its moment.
fn push_tick(text: &mut Vec<u8>, moment: u64) -> Result<(), Memory>
    ensures { OnOk result (text.new.items ≡ text.old.items ++ words_of_tick moment) }
{
    write!(text, "tick {moment}").map_err(|_| Memory)
}
