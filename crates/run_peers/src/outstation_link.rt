//! What the settings say of the connections.
ghost use Rattle.std.specs.Prelude.{◌<◌};

use gw_map::Settings;
use gw_model::Memory;
use run_journal::{Cause, Failure, Way};
use std::alloc::Global;
use std::time::Duration;

/// The milliseconds that connecting may take at most.
const LONGEST_CONNECTING_MS: u64 = 5000;

/// The milliseconds that its reader waits at most for octets before it looks at the link. Each look wakes a thread, so a gateway
/// at rest with many outstations takes more of a processor where it is shorter.
const LONGEST_WAIT_MS: u64 = 4000;

/// The link to an outstation.
#[derive(Drop)]
pub struct OutstationLink {
    /// Where it is reached: a host and a port.
    pub connect: String,
    /// The link address of the master.
    pub own: u16,
    /// The link address of the outstation.
    pub peer: u16,
    /// The common address of its points.
    pub common_address: u16,
    /// Whether it is given the time where it asks for it.
    pub is_given_time: bool,
    /// How long it may be silent while it is polled.
    pub silence: Duration,
    /// How long a response may take, and so a write.
    pub response: Duration,
}

/// A duration in milliseconds, or the most that there can be.
fn milliseconds(duration: Duration) -> u64 {
    u64::try_from(duration.as_millis()).unwrap_or(u64::MAX)
}

impl OutstationLink {
    /// From which link address to which the outstation's frames go.
    pub fn way(&self) -> Way {
        Way {
            source: self.peer,
            destination: self.own,
        }
    }

    /// How long connecting may take.
    pub fn connecting(&self) -> Duration {
        self.response
            .min(Duration::from_millis(LONGEST_CONNECTING_MS))
    }

    /// How long its reader waits at most before it takes a fragment, for clients that have no room for that, in
    /// milliseconds: so short that an answer which waits meanwhile still comes in time.
    pub fn patience_ms(&self) -> u64 {
        self.response_ms() / 4
    }

    /// How long it may be silent, or answer nothing, in milliseconds.
    pub fn silence_ms(&self) -> u64 {
        milliseconds(self.silence)
    }

    /// How long a response may take, in milliseconds.
    pub fn response_ms(&self) -> u64 {
        milliseconds(self.response)
    }

    /// In how many waits for octets, each of which is as long, it may be silent.
    pub fn waits(&self) -> u32
        ensures { 0 < result }
    {
        u32::try_from(self.silence_ms() / LONGEST_WAIT_MS)
            .unwrap_or(u32::MAX)
            .saturating_add(1)
    }

    /// How long its reader waits for octets before it looks at the link.
    pub fn wait(&self) -> Duration {
        self.silence / self.waits()
    }

    /// Why a connection ended: where a wait took too long, how long it was.
    pub fn in_words(&self, cause: Cause) -> Cause {
        match cause {
            Cause::NotRead(Failure::NoAnswer) => Cause::Silent {
                seconds: self.silence.as_secs(),
            },
            Cause::NotWritten(Failure::NoAnswer) => Cause::Slow {
                milliseconds: self.response_ms(),
            },
            other => other,
        }
    }
}

/// The links to the outstations of settings.
pub fn links_of(alloc: Global, settings: &Settings) -> Result<Vec<OutstationLink>, Memory> {
    let own = settings.station().master_address;
    let mut links = Vec::with_capacity(alloc, settings.outstations().len())?;
    for outstation in settings.outstations() {
        let poll = &outstation.poll;
        let silence = poll
            .poll_ms
            .saturating_add(poll.response_ms.saturating_mul(3));
        links.push(OutstationLink {
            connect: outstation.connect.clone()?,
            own,
            peer: outstation.address,
            common_address: outstation.common_address,
            is_given_time: poll.lan_time,
            silence: Duration::from_millis(silence),
            response: Duration::from_millis(poll.response_ms),
        })?;
    }
    Ok(links)
}
