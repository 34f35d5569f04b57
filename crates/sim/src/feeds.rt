//! What readers keep from turn to turn of a connection.
ghost use Rattle.std.specs.Prelude.{◌≡◌, []};
ghost use Rattle.iec_apci.specs.Calls.{reading_of_ending};
ghost use Rattle.gw_threads.specs.Heard.{IsDrained};

use crate::ends::{Inlet, Outlet};
use dnp_link::LinkFeed;
use dnp_receive::Receiver;
use gw_threads::{ClientReader, Gate, OutstationReader, WorkerEnd};
use iec_apci::ApduFeed;
use run_ends::LineCourse;
use run_shared::{Calls, Course};
use sim_peers::VirtualClock;
use std::alloc::Global;
use std::sync::Wait;

/// How many octets a reader reads at once.
const PIECE: usize = 4096;

/// The octets of an outstation that are no whole frame yet, and what its reader reads into.
#[derive(Drop)]
pub struct LinkRest {
    alloc: Global,
    feed: LinkFeed,
    receiver: Receiver,
    buffer: [u8; PIECE],
    ghost drained: { IsDrained feed },
}

impl LinkRest {
    /// None, between two link addresses.
    #[tactic(auto, using(crate::proofs::Rests::link_none))]
    pub fn new(alloc: Global, own: u16, peer: u16) -> LinkRest {
        LinkRest {
            alloc,
            feed: LinkFeed::new(alloc),
            receiver: Receiver::new(alloc, own, peer),
            buffer: [0; PIECE],
        }
    }

    /// A connection begins.
    #[tactic(auto, using(crate::proofs::Rests::link_none))]
    pub fn begin(&mut self, own: u16, peer: u16) {
        self.feed = LinkFeed::new(self.alloc);
        self.receiver = Receiver::new(self.alloc, own, peer);
    }

    /// A turn of the reader, at which something comes. How it ends, if it does.
    #[tactic(auto, using(gw_threads::proofs::Hearing::octets_drained, crate::proofs::Rests::link_none))]
    pub fn turn<L: Course, N: LineCourse, S: Calls<L>, R: Wait, G: Gate>(
        &mut self,
        reader: &mut OutstationReader<'_, '_, L, N, S, R, Outlet<'_>, VirtualClock, G>,
        inlet: &mut Inlet<'_>,
    ) -> Option<WorkerEnd> {
        match reader.turn(&mut self.feed, &mut self.receiver, inlet, &mut self.buffer) {
            None => None,
            end => {
                self.feed = LinkFeed::new(self.alloc);
                end
            }
        }
    }
}

/// The octets of a client that are no whole APDU yet, and what its reader reads into.
#[derive(Drop)]
pub struct ApduRest {
    alloc: Global,
    feed: ApduFeed,
    buffer: [u8; PIECE],
    ghost drained: { (reading_of_ending feed).apdus ≡ [] },
}

impl ApduRest {
    /// None.
    #[tactic(auto, using(crate::proofs::Rests::apdus_none))]
    pub fn new(alloc: Global) -> ApduRest {
        ApduRest {
            alloc,
            feed: ApduFeed::new(alloc),
            buffer: [0; PIECE],
        }
    }

    /// A connection begins.
    #[tactic(auto, using(crate::proofs::Rests::apdus_none))]
    pub fn begin(&mut self) {
        self.feed = ApduFeed::new(self.alloc);
    }

    /// A turn of the reader, at which something comes. How it ends, if it does.
    #[tactic(auto, using(crate::proofs::Rests::apdus_none))]
    pub fn turn<L: Course, S: Calls<L>, R: Wait, G: Gate>(
        &mut self,
        reader: &mut ClientReader<'_, L, S, R, VirtualClock, G>,
        inlet: &mut Inlet<'_>,
    ) -> Option<WorkerEnd> {
        let ended = reader.turn(&mut self.feed, inlet, &mut self.buffer);
        if ended.is_some() {
            self.feed = ApduFeed::new(self.alloc);
        }
        ended
    }
}
