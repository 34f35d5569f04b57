//! The lines that are written for a fragment: accepted, or refused.
ghost use Rattle.std.specs.Prelude.{◌≡◌, ◌++◌, OnOk};
ghost use Rattle.std.specs.Io.KnownBytes.{Appends};
ghost use Rattle.cmd_replay.specs.FragmentText.{accepted_text, asdu_line, asdu_lines, line_of, refusal_text, why_text};

use cmd_text::push_spaced;
use dnp_app::AppFault;
use dnp_objects::HeaderFault;
use gw_map::Settings;
use gw_model::{Memory, Observation};
use iec_asdu::{SPONTANEOUS, write_monitor};
use std::io::{self, Write};

/// Adds a line: a word, and octets in hexadecimal.
fn push_line(text: &mut Vec<u8>, word: &[u8], octets: &[u8]) -> Result<(), Memory>
    ensures { OnOk result (text.new.items ≡ text.old.items ++ line_of word.now octets.now) }
{
    text.extend_from_slice(word)?;
    push_spaced(text, octets)?;
    text.push(b'\n')?;
    Ok(())
}

/// Adds the line of an observation's ASDU, which is written into a buffer first.
fn push_asdu(
    text: &mut Vec<u8>,
    settings: &Settings,
    image: &Observation,
    buffer: &mut [u8; 249],
) -> Result<(), Memory>
    ensures { OnOk result (text.new.items ≡ text.old.items ++ asdu_line settings.now image.now) }
{
    let written = write_monitor(&[*image], SPONTANEOUS, &settings.zone(), buffer);
    push_line(text, b"asdu", &buffer[..written.octets])
}

/// Adds the lines of an accepted fragment: its confirmation, where it asks for one, and an ASDU for each
/// of its images.
pub fn push_accepted(
    text: &mut Vec<u8>,
    settings: &Settings,
    confirm: Option<[u8; 2]>,
    images: &[Observation],
    buffer: &mut [u8; 249],
) -> Result<(), Memory>
    ensures { OnOk result (text.new.items ≡ text.old.items ++ accepted_text settings.now confirm images.now) }
{
    if let Some(octets) = confirm {
        push_line(text, b"confirm", &octets)?;
    }
    push_asdus(text, settings, images, buffer)
}

/// Adds a line for each image.
fn push_asdus(
    text: &mut Vec<u8>,
    settings: &Settings,
    images: &[Observation],
    buffer: &mut [u8; 249],
) -> Result<(), Memory>
    ensures { OnOk result (text.new.items ≡ text.old.items ++ asdu_lines settings.now images.now) }
{
    for image in images {
        push_asdu(text, settings, image, buffer)?;
    }
    Ok(())
}

/// What is wrong with a header or its objects, in words.
fn words_of(why: HeaderFault) -> &'static str
    ensures { result.now ≡ why_text why }
{
    match why {
        HeaderFault::UnknownObject => "1 UnknownObject",
        HeaderFault::UnknownQualifier => "2 UnknownQualifier",
        HeaderFault::ShortRange => "3 ShortRange",
        HeaderFault::StopBeforeStart => "4 StopBeforeStart",
        HeaderFault::ShortData => "5 ShortData",
        HeaderFault::TooMany => "6 TooMany",
        HeaderFault::Memory => "7 Memory",
    }
}

/// Writes the line of a refused fragment.
pub fn write_refusal<W: Write>(writer: &mut W, fault: AppFault) -> io::Result<()>
    ensures { OnOk result
        (Appends (W.contents writer.old) (W.contents writer.new) (refusal_text fault)) }
{
    match fault {
        AppFault::Short => writer.write_all(b"refused 1 Short\n"),
        AppFault::NotResponse => writer.write_all(b"refused 2 NotResponse\n"),
        AppFault::Object(fault) => {
            let words = words_of(fault.why);
            writeln!(writer, "refused 3 Object {words} at {}", fault.place)
        }
        AppFault::Memory => writer.write_all(b"refused 4 Memory\n"),
    }
}
