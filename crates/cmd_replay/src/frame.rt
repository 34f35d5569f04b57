//! The octets of frames.
ghost use Rattle.std.specs.Prelude.{◌≡◌, IfOk, IfSome};
ghost use Rattle.std.specs.Str.{bytes_eq};
ghost use Rattle.iec_apci.specs.Apdu.{apdu as spelling};
ghost use Rattle.iec_apci.specs.ApduContent.{content, content_if, IsNumbered, IsPadded};
ghost use Rattle.cmd_replay.specs.Frames.{IsApduRead, IsReadBy};

use crate::refusal::StepRefusal;
use gw_model::Memory;
use iec_apci::{ApciFault, Apdu, ApduFeed, write_apdu};
use std::alloc::Global;

/// The one APDU that octets are, or why they are none.
pub fn read_apdu(alloc: Global, octets: &[u8]) -> Result<Result<Apdu, StepRefusal>, Memory>
    ensures { IfOk result (IsApduRead octets.now) }
{
    let mut feed = ApduFeed::new(alloc);
    feed.feed(octets)?;
    Ok(judge(feed.next(), octets))
}

/// What octets are, by the first answer of a feed that they were given to.
fn judge(answer: Option<Result<Apdu, ApciFault>>, octets: &[u8]) -> Result<Apdu, StepRefusal>
    requires numbered { IfSome answer (λ r. IfOk r IsNumbered) }
    requires padded { IfSome answer (λ r. IfOk r IsPadded) }
    ensures { IsReadBy (content_if answer) octets.now result }
{
    let Some(front) = answer else {
        return Err(StepRefusal::Partial);
    };
    match front {
        Err(fault) => Err(StepRefusal::Frame(fault)),
        Ok(apdu) => {
            if is_whole(&apdu, octets) {
                Ok(apdu)
            } else {
                Err(StepRefusal::Partial)
            }
        }
    }
}

/// Whether octets are an APDU's, and no more.
fn is_whole(apdu: &Apdu, octets: &[u8]) -> bool
    requires { IsNumbered apdu.now }
    ensures { result ≡ bytes_eq octets.now (spelling (content apdu.now)) }
{
    let mut buffer = [0; 255];
    let end = write_apdu(apdu, &mut buffer);
    octets == &buffer[..end]
}
