//! The texts of replies.
ghost use Rattle.std.specs.Prelude.{◌≡◌, ◌<◌, ◌++◌, OnOk};
ghost use Rattle.cmd_replay.specs.Replies.{client_word, closed_words, fault_name, ignored_name};
ghost use Rattle.cmd_replay.specs.Replies.{reply_line, reply_words, verdict_words, why_name, with_confirm};

use cmd_text::push_spaced;
use gw_hub::{Ignored, Reply, StepFault, Verdict, Why};
use gw_model::Memory;

/// Adds the line that tells a reply.
pub fn push_reply(text: &mut Vec<u8>, reply: Result<Reply, StepFault>) -> Result<(), Memory>
    ensures { OnOk result (text.new.items ≡ text.old.items ++ reply_line reply) }
{
    match reply {
        Ok(reply) => push_reply_words(text, &reply)?,
        Err(fault) => {
            text.extend_from_slice(b"fault ")?;
            text.extend_from_slice(fault_name(fault))?;
        }
    }
    text.push(b'\n')?;
    Ok(())
}

fn push_reply_words(text: &mut Vec<u8>, reply: &Reply) -> Result<(), Memory>
    ensures { OnOk result (text.new.items ≡ text.old.items ++ reply_words reply.now) }
{
    match reply {
        Reply::Done => text.extend_from_slice(b"ok")?,
        Reply::Verdict(verdict) => push_verdict(text, verdict)?,
        Reply::Apdu(apdu) => {
            text.extend_from_slice(b"apdu")?;
            push_spaced(text, &apdu.octets[..usize::from(apdu.len)])?;
        }
        Reply::Taken => text.extend_from_slice(b"taken")?,
        Reply::Closed(why) => {
            text.extend_from_slice(b"closed ")?;
            text.extend_from_slice(why_name(*why))?;
        }
        Reply::Nothing => text.extend_from_slice(b"nothing")?,
        Reply::Request(request) => {
            text.extend_from_slice(b"request")?;
            push_spaced(text, request.as_slice())?;
        }
        Reply::Ticked { closed } => {
            text.extend_from_slice(b"ticked")?;
            push_closed(text, *closed)?;
        }
    }
    Ok(())
}

/// Adds the number of a client, below 10, where it was closed.
fn push_client(text: &mut Vec<u8>, client: u8, is_closed: bool) -> Result<(), Memory>
    requires { client < 10 }
    ensures { OnOk result (text.new.items ≡ text.old.items ++ client_word client is_closed) }
{
    if is_closed {
        text.extend_from_slice(&[b' ', b'0' + client])?;
    }
    Ok(())
}

/// Adds the numbers of the clients whose bit is set.
fn push_closed(text: &mut Vec<u8>, closed: u8) -> Result<(), Memory>
    ensures { OnOk result (text.new.items ≡ text.old.items ++ closed_words 0 8 closed) }
{
    let mut rest = closed;
    for client in 0..8 {
        push_client(text, client, rest % 2 == 1)?;
        rest /= 2;
    }
    Ok(())
}

fn push_verdict(text: &mut Vec<u8>, verdict: &Verdict) -> Result<(), Memory>
    ensures { OnOk result (text.new.items ≡ text.old.items ++ verdict_words verdict.now) }
{
    match verdict {
        Verdict::Accepted { confirm, end, .. } => {
            push_confirmed(text, b"accepted", *confirm)?;
            text.extend_from_slice(if *end { b" end" } else { b"" })?;
            Ok(())
        }
        Verdict::Repeated { confirm } => push_confirmed(text, b"repeated", *confirm),
        Verdict::Ignored(why) => {
            text.extend_from_slice(b"ignored ")?;
            text.extend_from_slice(ignored_name(*why))?;
            Ok(())
        }
    }
}

/// Adds a verdict with the confirmation that is to be sent, where there is one.
fn push_confirmed(
    text: &mut Vec<u8>,
    verdict: &[u8],
    confirm: Option<[u8; 2]>,
) -> Result<(), Memory>
    ensures { OnOk result (text.new.items ≡ text.old.items ++ with_confirm verdict.now confirm) }
{
    text.extend_from_slice(verdict)?;
    if let Some(octets) = confirm {
        text.extend_from_slice(b" confirm")?;
        push_spaced(text, &octets)?;
    }
    Ok(())
}

/// Why a fragment isn't taken, by its name.
fn ignored_name(why: Ignored) -> &'static [u8]
    ensures { result.now ≡ ignored_name why }
{
    match why {
        Ignored::NoRequest => b"NoRequest",
        Ignored::WrongSequence => b"WrongSequence",
        Ignored::WrongFirst => b"WrongFirst",
    }
}

/// Why a client is closed, by its name.
fn why_name(why: Why) -> &'static [u8]
    ensures { result.now ≡ why_name why }
{
    match why {
        Why::Sequence => b"Sequence",
        Why::NotStarted => b"NotStarted",
        Why::Malformed => b"Malformed",
        Why::Flooded => b"Flooded",
        Why::Timer => b"Timer",
    }
}

/// A fault, by its number and name.
fn fault_name(fault: StepFault) -> &'static [u8]
    ensures { result.now ≡ fault_name fault }
{
    match fault {
        StepFault::NoOutstation => b"1 NoOutstation",
        StepFault::NoClient => b"2 NoClient",
        StepFault::NotUp => b"3 NotUp",
        StepFault::AlreadyUp => b"4 AlreadyUp",
        StepFault::Memory => b"5 Memory",
        StepFault::Spent => b"6 Spent",
    }
}
