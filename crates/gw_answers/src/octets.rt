//! The octets of what goes out (IEC 60870-5-101, 7.1 to 7.3).
ghost use Rattle.std.specs.Prelude.{◌≡◌, ◌<◌, ◌≤◌, true, length, slice_set};
ghost use Rattle.gw_time.specs.Rule.{clocks_of};
ghost use Rattle.iec_asdu.specs.Packing.{taken_of};
ghost use Rattle.iec_asdu.specs.Spelling.{spelling};
ghost use Rattle.iec_command.specs.Commands.{mirrored, spelling as command_spelling};
ghost use Rattle.gw_answers.specs.Octets.{IsReturnable, answer_octets, octets_in, outgoing_octets, packed_octets};

use crate::outgoing::{AsduAnswer, OwnAsdu};
use gw_model::Observation;
use gw_time::Zone;
use iec_apci::Asdu;
use iec_asdu::write_monitor;
use iec_command::{Command, mirror};

/// Where the originator stands in an ASDU.
const ORIGINATOR: usize = 3;

/// An ASDU of observations, and how many it carries.
#[derive(Clone, Copy)]
pub struct PackedAsdu {
    pub asdu: Asdu,
    /// How many observations it carries, from the front of the list.
    pub taken: usize,
}

/// The ASDU of as many observations from the front as one carries, with their cause of transmission and originator.
pub fn pack(cause: u8, originator: u8, zone: &Zone, observations: &[Observation]) -> PackedAsdu
    requires { 0 < length observations.now }
    ensures octets { octets_in result.asdu
        ≡ packed_octets (clocks_of zone.now) cause originator observations.now }
    ensures taken { result.taken ≡ taken_of (clocks_of zone.now) observations.now }
{
    let mut octets = [0; 249];
    let written = write_monitor(observations, cause, zone, &mut octets);
    octets[ORIGINATOR] = originator;
    PackedAsdu {
        asdu: Asdu {
            octets,
            len: written.octets as u8,
        },
        taken: written.taken,
    }
}

/// The ASDU of an observation with its cause of transmission and originator.
fn observation_asdu(cause: u8, originator: u8, zone: &Zone, observation: &Observation) -> Asdu
    ensures { octets_in result ≡ slice_set (spelling (clocks_of zone.now) cause observation.now) 3 originator }
{
    pack(cause, originator, zone, &[*observation]).asdu
}

/// The ASDU of a command.
fn command_asdu(command: &Command) -> Asdu
    ensures { octets_in result ≡ command_spelling command.now }
{
    let mut octets = [0; 249];
    let len = command.write(&mut octets);
    Asdu {
        octets,
        len: len as u8,
    }
}

/// An ASDU of the client with another cause of transmission, and P/N set.
fn returned_asdu(asdu: &Asdu, cause: u8) -> Asdu
    requires header { 6 ≤ length (octets_in asdu.now) }
    requires cause { cause < 64 }
    ensures { octets_in result ≡ mirrored cause true (octets_in asdu.now) }
{
    let mut octets = [0; 249];
    let len = mirror(asdu.as_slice(), cause, true, &mut octets);
    Asdu {
        octets,
        len: len as u8,
    }
}

fn outgoing_asdu(zone: &Zone, outgoing: &OwnAsdu) -> Asdu
    ensures { octets_in result ≡ outgoing_octets (clocks_of zone.now) outgoing.now }
{
    match outgoing {
        OwnAsdu::Command(command) => command_asdu(command),
        OwnAsdu::Observation {
            cause,
            originator,
            observation,
        } => observation_asdu(*cause, *originator, zone, observation),
    }
}

/// The ASDU of an answer.
pub fn answer_asdu(zone: &Zone, answer: &AsduAnswer) -> Asdu
    requires { IsReturnable answer.now }
    ensures { octets_in result ≡ answer_octets (clocks_of zone.now) answer.now }
{
    match answer {
        AsduAnswer::Returned { asdu, cause } => returned_asdu(asdu, *cause),
        AsduAnswer::Made(outgoing) => outgoing_asdu(zone, outgoing),
    }
}
