//! Responses of an outstation.
ghost use Rattle.std.specs.Prelude.{◌≡◌, ◌≤◌, ◌<◌, length, drop, List, [], ◌∷◌, Ok};
ghost use Rattle.std.specs.Prelude.{Some, IfOk, IfErr, IfSome, IsErrOf, slice_index, true};
ghost use Rattle.gw_model.specs.Outcome.{Gives};
ghost use Rattle.dnp_app.specs.declared.echoed.Echo.{Echo as Echoed};
ghost use Rattle.dnp_app.specs.Response.{Fragment, IsResponse, IsRefused, StoresHeader, is_unsolicited, response_of, is_memory};

use crate::confirmation::confirm;
use crate::echoed::{Echo, only_echo};
use crate::fault::AppFault;
use crate::skipped::count_stepped_over;
use dnp_objects::{HeaderFault, headers};
use dnp_points::reports;
use gw_model::Report;
use std::alloc::Global;
use std::marker::Model;

/// The application control octet of a fragment (IEEE Std 1815, 4.2.2.4).
#[derive(Clone, Copy)]
pub struct ApplicationControl {
    /// The first fragment of a message.
    pub fir: bool,
    /// The last fragment of a message.
    pub fin: bool,
    /// A confirmation is asked for.
    pub con: bool,
    /// The message is an unsolicited response, or confirms one.
    pub uns: bool,
    /// The sequence number, below 16.
    pub sequence: u8,
}

/// A response fragment, read for an outstation: at most 2,048 octets, and what they report.
#[derive(Drop)]
pub struct Response {
    outstation: u8,
    octets: Vec<u8>,
    reports: Vec<Report>,
    echo: Option<Echo>,
    stepped_over: usize,
}

impl Model for Response {
    ghost use Rattle.std.specs.Prelude.{◌≡◌, ◌≤◌, length};
    ghost use Rattle.dnp_app.specs.Response.{Fragment, IsResponse, fragment_of};
    ghost use Rattle.dnp_app.specs.Echo.{echo_of};
    ghost use Rattle.dnp_app.specs.SteppedOver.{stepped_over_count_of};

    ghost Value = { Fragment };

    ghost view = { λ r. fragment_of r.outstation r.octets.items r.reports.items };

    ghost invariant = { λ r. IsResponse (fragment_of r.outstation r.octets.items r.reports.items)
        × (length r.octets.items ≤ 2048)
        × (r.echo ≡ echo_of r.octets.items) × (r.stepped_over ≡ stepped_over_count_of r.octets.items) };
}

impl Response {
    ghost use Rattle.dnp_app.specs.Control.{confirm_of, control_of};
    ghost use Rattle.dnp_app.specs.Echo.{echo_of, IsEcho};
    ghost use Rattle.dnp_app.specs.SteppedOver.{stepped_over_count_of};

    /// The outstation that the fragment was read for, by its position in the settings.
    pub fn outstation(&self) -> u8
        ensures { result ≡ self.now.outstation }
    {
        self.outstation
    }

    /// The octets of the fragment.
    pub fn octets(&self) -> &[u8]
        ensures octets { result.now ≡ self.now.octets }
        ensures response { IsResponse self.now }
        ensures short { length self.now.octets ≤ 2048 }
    {
        self.octets.as_slice()
    }

    /// The octets alone.
    pub(crate) fn into_octets(self) -> Vec<u8>
        ensures octets { result.items ≡ self.octets }
        ensures response { IsResponse self }
        ensures short { length result.items ≤ 2048 }
    {
        self.octets
    }

    /// What the fragment reports, in order.
    pub fn reports(&self) -> &[Report]
        ensures { result.now ≡ self.now.reports }
    {
        self.reports.as_slice()
    }

    /// The command that the fragment echoes: the one object of group 12 variation 1 or group 41 variation 2
    /// that stands alone under its header.
    pub fn echo(&self) -> Option<Echo>
        ensures found { IfSome result (IsEcho (drop 4 self.now.octets)) }
        ensures only { (e : Echoed) → IsEcho (drop 4 self.now.octets) e → result ≡ Some e }
        ensures exact { result ≡ echo_of self.now.octets }
    {
        self.echo
    }

    /// How many objects of the fragment were stepped over, since they are of no point.
    pub fn stepped_over(&self) -> usize
        ensures { result ≡ stepped_over_count_of self.now.octets }
    {
        self.stepped_over
    }

    /// The application control octet.
    pub fn control(&self) -> ApplicationControl
        ensures control { result ≡ control_of (slice_index self.now.octets 0) }
        ensures sequence { result.sequence < 16 }
    {
        let octet = self.octets[0];
        ApplicationControl {
            fir: octet >= 0x80,
            fin: octet / 64 % 2 == 1,
            con: octet / 32 % 2 == 1,
            uns: octet / 16 % 2 == 1,
            sequence: octet % 16,
        }
    }

    /// The confirmation of the fragment, where it asks for one.
    pub fn confirmation(&self) -> Option<[u8; 2]>
        ensures { result ≡ confirm_of self.now.octets }
    {
        let control = self.control();
        if control.con {
            Some(confirm(control.sequence, control.uns))
        } else {
            None
        }
    }

    /// Whether the fragment is an unsolicited response (function 130).
    pub fn is_unsolicited(&self) -> bool
        ensures { result ≡ is_unsolicited self.now }
    {
        self.octets[1] == 130
    }

    /// The two octets of internal indications (IEEE Std 1815, 4.2.2.6).
    pub fn internal_indications(&self) -> [u8; 2]
        ensures { result ≡ slice_index self.now.octets 2 ∷ slice_index self.now.octets 3 ∷ [] }
    {
        [self.octets[2], self.octets[3]]
    }
}

/// Reads a response fragment of an outstation, of at most 2,048 octets.
///
/// The faults are tried in their order: `Short`, `NotResponse`, `Object`; `Memory` comes where it was met.
pub fn read_response(alloc: Global, outstation: u8, octets: Vec<u8>) -> Result<Response, AppFault>
    requires { length octets.items ≤ 2048 }
    // What is read is a response of these octets.
    ensures found { IfOk result (λ r. IsResponse r × (r.octets ≡ octets.items) × (r.outstation ≡ outstation)) }
    // A response is read, unless memory runs out.
    ensures only { (f : Fragment) → IsResponse f → f.octets ≡ octets.items → f.outstation ≡ outstation
        → Gives is_memory (λ r. r) result (Ok f) }
    // Which fault it is.
    ensures exact { Gives is_memory (λ r. r) result (response_of outstation octets.items) }
    // Memory runs out only where a header of the object part of a response is stored.
    ensures memory { IsErrOf result AppFault.Memory → StoresHeader octets.items }
    // Each refusal is of what reading meets first.
    ensures refused { IfErr result (λ fault. IsRefused outstation fault octets.items) }
{
    read(alloc, outstation, octets)
}

fn read(alloc: Global, outstation: u8, octets: Vec<u8>) -> Result<Response, AppFault>
    requires { length octets.items ≤ 2048 }
    ensures found { IfOk result (λ r. IsResponse r × (r.octets ≡ octets.items) × (r.outstation ≡ outstation)) }
    ensures exact { Gives is_memory (λ r. r) result (response_of outstation octets.items) }
    ensures memory { IsErrOf result AppFault.Memory → StoresHeader octets.items }
{
    if octets.len() < 4 {
        return Err(AppFault::Short);
    }
    if octets[1] != 129 && octets[1] != 130 {
        return Err(AppFault::NotResponse);
    }
    let part = &octets[4..];
    let headers = match headers(alloc, part) {
        Ok(headers) => headers,
        Err(fault) if fault.why == HeaderFault::Memory => return Err(AppFault::Memory),
        Err(fault) => return Err(AppFault::Object(fault)),
    };
    let Ok(reports) = reports(alloc, outstation, &headers, part) else {
        return Err(AppFault::Memory);
    };
    let echo = only_echo(&headers, part);
    let stepped_over = count_stepped_over(&headers);
    Ok(Response {
        outstation,
        octets,
        reports,
        echo,
        stepped_over,
    })
}
