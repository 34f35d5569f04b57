//! What all parts of the play share.

use crate::connection::Wire;
use crate::scenario::{Number, Scenario};
use run_admission::{Network, Slots};
use run_peers::{ClientRecord, Reporter};
use sim_peers::{Log, Random, VirtualClock};
use std::alloc::Global;
use std::sync::Wait;

/// What all parts of the play share.
#[derive(Drop)]
pub struct Stage<'a, R> {
    pub alloc: Global,
    pub rt: &'a R,
    pub clock: &'a VirtualClock,
    pub reporter: &'a Reporter<'a, R, VirtualClock>,
    pub slots: &'a Slots<Wire>,
    /// Where centres may connect from; from everywhere where none is named.
    pub allow: &'a [Network],
    pub log: &'a Log<'a>,
    pub scenario: &'a Scenario,
}

impl<'a, R: Wait> Stage<'a, R> {
    /// Random numbers of a part, by its number.
    pub fn random(&self, number: u64) -> Random {
        Random::new(self.scenario.seed, number.saturating_add(1000))
    }

    /// By how many milliseconds a thread of the gateway is late.
    pub fn hold(&self, random: &mut Random) -> u64 {
        random.below(self.scenario.of(Number::HoldMs).saturating_add(1))
    }

    /// The record of a slot, with which something is done.
    pub fn record(&self, slot: u8) -> Option<&'a ClientRecord> {
        self.reporter.peers.client(slot)
    }
}
