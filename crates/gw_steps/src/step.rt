//! The steps of the core, and what it replies.
ghost use Rattle.std.specs.Prelude.{◌≡◌};
ghost use Rattle.gw_steps.specs.Carried.{IsMeant};
ghost use Rattle.gw_steps.specs.Kinds.{step_kind};
ghost use Rattle.gw_steps.specs.Steps.{moment_of};

use dnp_app::{Request, Response};
use dnp_master::Verdict;
use iec_apci::{Apdu, ApduBuf, Why};

/// One event. Outstations and clients go by their position in the settings, moments are in
/// milliseconds.
#[derive(Drop)]
pub enum Step {
    /// The connection to an outstation stands.
    OutstationUp {
        outstation: u8,
        moment: u64,
    },
    /// The connection to an outstation is lost.
    OutstationDown {
        outstation: u8,
        moment: u64,
    },
    /// A fragment of the outstation that the response was read for.
    Fragment {
        response: Response,
        moment: u64,
    },
    /// An outstation's writer asks for the next request, at a wall time in milliseconds since 1970 in UTC: that of an
    /// order that waits, where the outstation is ready for it, or of what is due first.
    Poll {
        outstation: u8,
        moment: u64,
        wall: u64,
    },
    /// A client connected.
    ClientUp {
        client: u8,
        moment: u64,
    },
    /// The connection to a client is lost.
    ClientDown {
        client: u8,
        moment: u64,
    },
    /// A client sent an APDU. A command for a control in it is answered: a select or a deactivation at once, also
    /// negatively; an execute that is accepted is an order, which is answered by what becomes of it.
    Frame {
        client: u8,
        apdu: Apdu,
        moment: u64,
    },
    /// A client's writer asks for the next APDU.
    Pump {
        client: u8,
        moment: u64,
    },
    /// Time has passed.
    Tick {
        moment: u64,
    },
}

/// What a step is about: the outstation or client, by its position.
#[derive(Clone, Copy)]
pub enum StepKind {
    /// The connection to an outstation stands.
    OutstationUp(u8),
    /// The connection to an outstation is lost.
    OutstationDown(u8),
    /// A fragment of an outstation.
    Fragment(u8),
    /// A request for an outstation is asked for.
    Poll(u8),
    /// A client connected.
    ClientUp(u8),
    /// The connection to a client is lost.
    ClientDown(u8),
    /// An APDU of a client.
    Frame(u8),
    /// An APDU for a client is asked for.
    Pump(u8),
    /// Time has passed.
    Tick,
}

impl Step {
    /// What it is about.
    pub fn kind(&self) -> StepKind
        ensures { result ≡ step_kind self.now }
    {
        match self {
            Step::OutstationUp { outstation, .. } => StepKind::OutstationUp(*outstation),
            Step::OutstationDown { outstation, .. } => StepKind::OutstationDown(*outstation),
            Step::Fragment { response, .. } => StepKind::Fragment(response.outstation()),
            Step::Poll { outstation, .. } => StepKind::Poll(*outstation),
            Step::ClientUp { client, .. } => StepKind::ClientUp(*client),
            Step::ClientDown { client, .. } => StepKind::ClientDown(*client),
            Step::Frame { client, .. } => StepKind::Frame(*client),
            Step::Pump { client, .. } => StepKind::Pump(*client),
            Step::Tick { .. } => StepKind::Tick,
        }
    }

    /// Its moment.
    pub fn moment(&self) -> u64
        ensures { result ≡ moment_of self.now }
    {
        match self {
            Step::OutstationUp { moment, .. }
            | Step::OutstationDown { moment, .. }
            | Step::Fragment { moment, .. }
            | Step::Poll { moment, .. }
            | Step::ClientUp { moment, .. }
            | Step::ClientDown { moment, .. }
            | Step::Frame { moment, .. }
            | Step::Pump { moment, .. }
            | Step::Tick { moment } => *moment,
        }
    }

    /// Tells a proof what the type of responses keeps of a fragment that the step carries. It does nothing.
    pub fn attest(&self)
        ensures { IsMeant self.now }
    {
        if let Step::Fragment { response, .. } = self {
            let _octets = response.octets();
        }
    }
}

/// The reply to a step.
#[derive(Clone, Copy)]
pub enum Reply {
    /// The outstation or client is up now, or down.
    Done,
    /// What became of a fragment.
    Verdict(Verdict),
    /// The request that goes to the outstation next.
    Request(Request),
    /// The APDU that goes to the client next.
    Apdu(ApduBuf),
    /// The client's APDU was taken.
    Taken,
    /// The client's connection is closed.
    Closed(Why),
    /// No APDU waits for the client; or a request of the outstation awaits its answer, or none is due.
    Nothing,
    /// Time has passed; bit c of `closed` is set where the connection of client c was closed by that.
    Ticked { closed: u8 },
}

/// Why a step was not made; nothing changed. The first of these in this order, but `Memory` last.
#[derive(Clone, Copy)]
pub enum StepFault {
    /// No such outstation.
    NoOutstation = 1,
    /// No such client.
    NoClient = 2,
    /// The outstation or client is down.
    NotUp = 3,
    /// The outstation or client is up already.
    AlreadyUp = 4,
    /// Memory ran out.
    Memory = 5,
    /// A 64-bit count of steps, news, sessions or orders can't rise by what the step needs.
    Spent = 6,
}
