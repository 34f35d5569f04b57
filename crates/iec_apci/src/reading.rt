//! Reading the front of a stream.
ghost use Rattle.std.specs.Prelude.{◌≡◌, ◌+◌, ◌≤◌, ◌<◌, length, IfNone, IfSome, IfOk, option_map};
ghost use Rattle.iec_apci.specs.Apdu.{apdu as apdu_octets};
ghost use Rattle.iec_apci.specs.Stream.{answer_at_front, content_of, signal_of as signal_of_lem};
ghost use Rattle.iec_apci.specs.ApduContent.{octets_of, content, content_if, IsNumbered, IsPadded};

use crate::apdu::{Apdu, Asdu, START, Signal};
use crate::fault::ApciFault;

/// The control function with this first control octet.
fn signal_of(code: u16) -> Option<Signal>
    ensures { result ≡ signal_of_lem code }
{
    if code == Signal::StartAct as u16 {
        Some(Signal::StartAct)
    } else if code == Signal::StartCon as u16 {
        Some(Signal::StartCon)
    } else if code == Signal::StopAct as u16 {
        Some(Signal::StopAct)
    } else if code == Signal::StopCon as u16 {
        Some(Signal::StopCon)
    } else if code == Signal::TestAct as u16 {
        Some(Signal::TestAct)
    } else if code == Signal::TestCon as u16 {
        Some(Signal::TestCon)
    } else {
        None
    }
}

/// An ASDU of these octets.
#[tactic(auto, using(crate::proofs::Padding::written))]
fn asdu_of(octets: &[u8]) -> Asdu
    requires { length octets.now ≤ 249 }
    ensures carried { octets_of result ≡ octets.now }
    ensures padded { IsPadded (Apdu.I 0 0 result) }
{
    let mut padded = [0; 249];
    padded[..octets.len()].copy_from_slice(octets);
    Asdu {
        octets: padded,
        len: octets.len() as u8,
    }
}

/// The APDU with this control field and ASDU, if the control field is right.
#[tactic(auto, unfolding(crate::specs::Stream::content_of))]
fn apdu_of(octets: &[u8]) -> Option<Apdu>
    requires control_field { 4 ≤ length octets.now }
    requires longest { length octets.now ≤ 253 }
    ensures carried { option_map content result ≡ content_of octets.now }
    ensures numbered { IfSome result IsNumbered }
    ensures padded { IfSome result IsPadded }
{
    let first = u16::from_le_bytes([octets[0], octets[1]]);
    let second = u16::from_le_bytes([octets[2], octets[3]]);
    let asdu = &octets[4..];
    if second % 2 == 1 {
        return None;
    }
    if first % 2 == 0 {
        return Some(Apdu::I {
            ns: first / 2,
            nr: second / 2,
            asdu: asdu_of(asdu),
        });
    }
    if octets.len() != 4 {
        return None;
    }
    if first == 1 {
        return Some(Apdu::S { nr: second / 2 });
    }
    if second != 0 {
        return None;
    }
    signal_of(first).map(Apdu::U)
}

/// What the front of octets shows: nothing yet, an APDU, or the first fault.
#[tactic(auto, unfolding(crate::specs::Stream::answer_at_front))]
pub fn apdu_at(octets: &[u8]) -> Option<Result<Apdu, ApciFault>>
    ensures shown { content_if result ≡ answer_at_front octets.now }
    ensures numbered { IfSome result (λ r. IfOk r IsNumbered) }
    ensures padded { IfSome result (λ r. IfOk r IsPadded) }
    ensures held { IfNone result (length octets.now < 255) }
{
    let (start, behind) = octets.split_first()?;
    if *start != START {
        return Some(Err(ApciFault::Start));
    }
    let (size, behind) = behind.split_first()?;
    if *size < 4 || *size > 253 {
        return Some(Err(ApciFault::Length));
    }
    let size = usize::from(*size);
    if behind.len() < size {
        return None;
    }
    Some(apdu_of(&behind[..size]).ok_or(ApciFault::Control))
}

/// How many octets an APDU has.
pub fn size_of(apdu: &Apdu) -> usize
    ensures { result ≡ length (apdu_octets (content apdu.now)) }
{
    match apdu {
        Apdu::I { asdu, .. } => 6 + asdu.as_slice().len(),
        Apdu::S { .. } | Apdu::U(_) => 6,
    }
}
