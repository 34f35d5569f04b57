//! A response that is kept for later by its octets alone.
ghost use Rattle.std.specs.Prelude.{◌≡◌, IfOk};

use crate::response::{Response, read_response};
use gw_model::Memory;
use std::alloc::Global;
use std::marker::Model;

/// A response that was read, kept by its octets alone: at most 2,048 octets, where what they report may take 1.3 MB.
#[derive(Drop)]
pub struct KeptResponse {
    outstation: u8,
    octets: Vec<u8>,
}

impl Model for KeptResponse {
    ghost use Rattle.std.specs.Prelude.{◌≤◌, length};
    ghost use Rattle.dnp_app.specs.Response.{Fragment, IsResponse, fragment_spelt};

    ghost Value = { Fragment };

    ghost view = { λ r. fragment_spelt r.outstation r.octets.items };

    ghost invariant = { λ r. IsResponse (fragment_spelt r.outstation r.octets.items) × (length r.octets.items ≤ 2048) };
}

impl KeptResponse {
    /// The response, without what it reports.
    pub fn of(response: Response) -> KeptResponse
        ensures { result ≡ response }
    {
        let outstation = response.outstation();
        KeptResponse {
            outstation,
            octets: response.into_octets(),
        }
    }

    /// The outstation that the fragment was read for, by its position in the settings.
    pub fn outstation(&self) -> u8
        ensures { result ≡ self.now.outstation }
    {
        self.outstation
    }

    /// The octets of the fragment.
    pub fn octets(&self) -> &[u8]
        ensures { result.now ≡ self.now.octets }
    {
        self.octets.as_slice()
    }

    /// The response, with what it reports.
    pub fn response(&self) -> Result<Response, Memory>
        ensures { IfOk result (λ response. response ≡ self.now) }
    {
        let octets = self.octets.clone()?;
        match read_response(*self.octets.allocator(), self.outstation, octets) {
            Ok(response) => Ok(response),
            Err(_) => Err(Memory),
        }
    }
}
