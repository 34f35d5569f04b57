//! Octets that make no step.
ghost use Rattle.std.specs.Prelude.{◌≡◌, OnOk};
ghost use Rattle.std.specs.Io.KnownBytes.{Appends};
ghost use Rattle.cmd_replay.specs.Refusals.{apci_line, refused_line};

use crate::fragment_text::write_refusal;
use dnp_app::AppFault;
use iec_apci::ApciFault;
use std::io::{self, Write};
use thiserror::Error;

/// Why octets make no step.
#[derive(Clone, Copy, Debug, Error)]
pub enum StepRefusal {
    /// Those of a fragment are no response.
    #[error(transparent)]
    Fragment(AppFault),
    /// Those of a frame don't begin with an APDU.
    #[error("apci {0}")]
    Frame(ApciFault),
    /// Those of a frame end before an APDU does, or go on behind it.
    #[error("apci 0 Partial")]
    Partial,
}

/// Writes the line of octets that make no step.
pub fn write_refused<W: Write>(writer: &mut W, refusal: StepRefusal) -> io::Result<()>
    ensures { OnOk result
        (Appends (W.contents writer.old) (W.contents writer.new) (refused_line refusal)) }
{
    match refusal {
        StepRefusal::Fragment(fault) => write_refusal(writer, fault),
        StepRefusal::Frame(fault) => writer.write_all(apci_line(fault)),
        StepRefusal::Partial => writer.write_all(b"refused apci 0 Partial\n"),
    }
}

/// The line of octets that don't begin with an APDU.
fn apci_line(fault: ApciFault) -> &'static [u8]
    ensures { result.now ≡ apci_line fault }
{
    match fault {
        ApciFault::Start => b"refused apci 1 Start\n",
        ApciFault::Length => b"refused apci 2 Length\n",
        ApciFault::Control => b"refused apci 3 Control\n",
    }
}
