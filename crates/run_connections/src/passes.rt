//! The passes of a connection's workers.
ghost use Rattle.std.proofs.Props.{props};
ghost use Rattle.run_shared.specs.Roles.{IsOne};

use gw_threads::{Course, Pass};

/// The passes of a connection's reader and writer. The writer's is that of an actor that may write to the peer.
#[derive(Drop)]
pub struct Passes<L: Course, W> {
    pub reader: Pass<L>,
    pub writer: W,
}

/// The pass of an actor that may pump for a client.
#[derive(Drop)]
pub struct PumpPass<L: Course> {
    pass: Pass<L>,
    client: u8,
    ghost may: { IsOne (L.roles.pumper client) pass.actor } by { Prim.hlevel props },
}

impl<L: Course> PumpPass<L> {
    /// A pass with which a client is pumped.
    pub fn new(pass: Pass<L>, client: u8) -> PumpPass<L>
        requires { IsOne (L.roles.pumper client) pass.actor }
    {
        PumpPass { pass, client }
    }

    /// Which client.
    pub fn client(&self) -> u8 {
        self.client
    }

    /// The pass, and which client.
    pub fn into_parts(self) -> (Pass<L>, u8)
        ensures { IsOne (L.roles.pumper result.1) result.0.actor }
    {
        let PumpPass { pass, client } = self;
        (pass, client)
    }
}

/// The pass of an actor that may poll an outstation.
#[derive(Drop)]
pub struct PollPass<L: Course> {
    pass: Pass<L>,
    outstation: u8,
    ghost may: { IsOne (L.roles.poller outstation) pass.actor } by { Prim.hlevel props },
}

impl<L: Course> PollPass<L> {
    /// A pass with which an outstation is polled.
    pub fn new(pass: Pass<L>, outstation: u8) -> PollPass<L>
        requires { IsOne (L.roles.poller outstation) pass.actor }
    {
        PollPass { pass, outstation }
    }

    /// Which outstation.
    pub fn outstation(&self) -> u8 {
        self.outstation
    }

    /// The pass, and which outstation.
    pub fn into_parts(self) -> (Pass<L>, u8)
        ensures { IsOne (L.roles.poller result.1) result.0.actor }
    {
        let PollPass { pass, outstation } = self;
        (pass, outstation)
    }
}
