//! The command that a response echoes.
ghost use Rattle.std.specs.Prelude.{◌≡◌, ◌≤◌, ◌<◌, length, IfSome};
ghost use Rattle.dnp_objects.specs.Headers.{number, IsPart};
ghost use Rattle.dnp_app.specs.Echo.{command_length, echo_with, lone_echo, lone_echoes, only_one, HasCommandsWithin};

use dnp_objects::{Header, number};

/// A command object that a response gives back: a control relay output block (group 12, variation 1) or a
/// 16-bit analog output (group 41, variation 2).
#[derive(Clone, Copy)]
pub struct Echo {
    /// The index of the output.
    pub index: u16,
    /// The group, 12 or 41.
    pub group: u8,
    /// The octets of the object before its status, and zeros.
    pub body: [u8; 11],
    /// The last octet: how the outstation took the command, 0 where it did it.
    pub status: u8,
}

/// How many octets a command object has.
#[tactic(auto, unfolding(dnp_objects::specs::Library::object_of))]
fn command_length(group: u8, variation: u8) -> Option<usize>
    ensures length { result ≡ command_length group variation }
    ensures short { IfSome result (λ octets. (0 < octets) × (octets ≤ 11)) }
{
    match (group, variation) {
        (12, 1) => Some(11),
        (41, 2) => Some(3),
        _ => None,
    }
}

/// The index before an object, low octet first.
fn index_in(octets: &[u8]) -> u16
    requires { length octets.now ≤ 2 }
    ensures { result ≡ number octets.now }
{
    number(octets) as u16
}

/// A command object of a group behind its index.
fn echo_with(group: u8, index: &[u8], object: &[u8]) -> Echo
    requires index { length index.now ≤ 2 }
    requires some { 0 < length object.now }
    requires short { length object.now ≤ 11 }
    ensures { result ≡ echo_with group index.now object.now }
{
    let last = object.len() - 1;
    let mut body = [0; 11];
    body[..last].copy_from_slice(&object[..last]);
    Echo {
        index: index_in(index),
        group,
        body,
        status: object[last],
    }
}

/// The command object that stands alone under a header, where there is one.
fn lone_echo(header: &Header, part: &[u8]) -> Option<Echo>
    requires { HasCommandsWithin part.now header.now }
    ensures { result ≡ lone_echo part.now header.now }
{
    if header.count != 1 {
        return None;
    }
    let octets = command_length(header.group, header.variation)?;
    let (index, object) = part[header.start..].split_at(usize::from(header.prefix));
    Some(echo_with(header.group, index, &object[..octets]))
}

/// The one command object that stands alone under its header.
pub fn only_echo(headers: &[Header], part: &[u8]) -> Option<Echo>
    requires { IsPart part.now headers.now }
    ensures { result ≡ only_one (lone_echoes part.now headers.now) }
{
    let mut found = None;
    for header in headers {
        if let Some(echo) = lone_echo(header, part) {
            if found.is_some() {
                return None;
            }
            found = Some(echo);
        }
    }
    found
}
