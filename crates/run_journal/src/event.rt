//! What an operator is told.

use crate::control_event::{CommandEvent, OrderEvent};
use crate::doubt::Doubt;
use crate::write_trouble::WriteTrouble;
use cmd_text::{Names, RecordEnd};
use iec_command::Command;
use run_figures::{Failure, Loss, StrayFrames, UnknownAsdus, Unreadable};
use std::net::{IpAddr, SocketAddr};

/// How much an event matters. Its number is the priority that journald reads in front of a line, as in `<4>`.
#[derive(Clone, Copy)]
pub enum Priority {
    /// The gateway can't do its work towards a peer.
    Error = 3,
    /// Something is wrong, or is lost.
    Warning = 4,
    /// All is as it should be.
    Information = 6,
}

/// What happened. Outstations and clients go by their positions.
#[derive(Drop)]
pub enum JournalEvent {
    /// The gateway starts.
    Started {
        /// Its version.
        version: &'static str,
        /// The settings file, as it was named.
        file: String,
        /// The SHA-256 of its octets.
        digest: [u8; 32],
        /// How many points there are.
        rows: usize,
        /// How many controls.
        controls: usize,
        /// How many outstations.
        outstations: usize,
        /// Whether the status shows the values of points.
        shows_values: bool,
    },
    /// Something in the settings reads like a slip.
    Doubtful(Doubt),
    /// Control centres can connect here.
    Listening(SocketAddr),
    /// A connection to an outstation stands.
    OutstationConnected {
        /// The outstation.
        outstation: u8,
    },
    /// It couldn't be made.
    OutstationUnreachable {
        /// The outstation.
        outstation: u8,
        /// Why.
        cause: Failure,
        /// How many more couldn't be and weren't told.
        left_out: u64,
    },
    /// It is lost.
    OutstationLost {
        /// The outstation.
        outstation: u8,
        /// Why, and how often.
        loss: Loss,
    },
    /// The outstation restarted: IIN1.7.
    OutstationRestarted {
        /// The outstation.
        outstation: u8,
    },
    /// An event buffer of the outstation overflowed: IIN2.3.
    EventsOverflowed {
        /// The outstation.
        outstation: u8,
    },
    /// The outstation still asks for the time after it was written: IIN1.4.
    ClockNotSet {
        /// The outstation.
        outstation: u8,
    },
    /// Requests weren't answered in time.
    Unanswered {
        /// The outstation.
        outstation: u8,
        /// How many, since they were told last.
        count: u64,
    },
    /// A fragment of the outstation was refused.
    FragmentRefused {
        /// The outstation.
        outstation: u8,
        /// Why.
        fault: Unreadable,
        /// How many more were refused and not told.
        left_out: u64,
    },
    /// The link skipped octets of the outstation, which are of no frame.
    OctetsSkipped {
        /// The outstation.
        outstation: u8,
        /// How many, since they were told last.
        count: u64,
    },
    /// The outstation doesn't answer the request for the status of its link.
    LinkStatusUnanswered {
        /// The outstation.
        outstation: u8,
    },
    /// Frames came on the outstation's connection that it doesn't send to its master.
    FramesStrayed {
        /// The outstation.
        outstation: u8,
        /// The last one, and how many more.
        frames: StrayFrames,
    },
    /// Objects of kinds that aren't taken came of the outstation.
    ObjectsPassedOver {
        /// The outstation.
        outstation: u8,
        /// How many, since they were told last.
        count: u64,
    },
    /// Something happened with an order to the outstation.
    Order {
        /// The outstation.
        outstation: u8,
        /// The number of the order.
        order: u64,
        /// What.
        what: OrderEvent,
    },
    /// A control centre connected.
    ClientConnected {
        /// Its place.
        client: u8,
        /// Where it connects from.
        address: SocketAddr,
    },
    /// It started data transfer: STARTDT.
    TransferStarted {
        /// Its place.
        client: u8,
        /// Where it connects from.
        address: SocketAddr,
    },
    /// It stopped data transfer: STOPDT.
    TransferStopped {
        /// Its place.
        client: u8,
        /// Where it connects from.
        address: SocketAddr,
    },
    /// Its connection ended.
    ClientLost {
        /// Its place.
        client: u8,
        /// Where it connected from.
        address: SocketAddr,
        /// Why, and how often.
        loss: Loss,
    },
    /// Observations for it were dropped, since too many waited.
    NewsDropped {
        /// Its place.
        client: u8,
        /// Where it connects from.
        address: SocketAddr,
        /// How many, since they were told last.
        count: u64,
    },
    /// It sent ASDUs of types that aren't known in control direction.
    UnknownTypes {
        /// Its place.
        client: u8,
        /// Where it connects from.
        address: SocketAddr,
        /// The last one, and how many more.
        asdus: UnknownAsdus,
    },
    /// Something happened with a command of it for a control.
    Command {
        /// Its place.
        client: u8,
        /// Where it connects from.
        address: SocketAddr,
        /// The command, as it came or as it goes back.
        command: Command,
        /// What.
        what: CommandEvent,
    },
    /// Further control centres have to wait.
    AllPlacesTaken {
        /// How many more times it was so and wasn't told.
        left_out: u64,
    },
    /// The next control centre is served again.
    PlaceFree,
    /// Somebody connected who isn't allowed to.
    NotAllowed {
        /// Who.
        address: IpAddr,
        /// How many more did and weren't told.
        left_out: u64,
    },
    /// A connection of a control centre couldn't be accepted.
    NotAccepted(Failure),
    /// The recording ended.
    RecordingEnded(RecordEnd),
    /// Spontaneous observations can't be written.
    EventsHindered(WriteTrouble),
    /// They are written again.
    EventsResumed,
    /// So many of them weren't written.
    EventsLeftOut(u64),
    /// The host stood still, as far as the gateway's clock tells.
    HostStoodStill {
        /// How long no tick was made.
        milliseconds: u64,
    },
    /// So many events weren't told, since they came faster than they were written.
    LeftOut(u64),
    /// So many events of controls weren't.
    ControlsLeftOut(u64),
    /// All workers have ended.
    Stopped,
}

/// Whom an event is of.
#[derive(Clone, Copy)]
pub(crate) enum Subject {
    /// The gateway as a whole.
    Gateway,
    /// An outstation.
    Outstation(u8),
    /// The client at a place, and where it connects from.
    Client(u8, SocketAddr),
}

impl JournalEvent {
    /// How much it matters.
    pub fn priority(&self) -> Priority {
        match self {
            JournalEvent::OutstationLost { loss, .. } => loss_priority(loss, Priority::Error),
            JournalEvent::ClientLost { loss, .. } => loss_priority(loss, Priority::Warning),
            JournalEvent::OutstationUnreachable { .. }
            | JournalEvent::NotAccepted(_)
            | JournalEvent::ControlsLeftOut(_) => Priority::Error,
            JournalEvent::Command { command, what, .. } => what.priority(command),
            JournalEvent::Order { what, .. } => what.priority(),
            JournalEvent::Started { .. }
            | JournalEvent::Listening(_)
            | JournalEvent::OutstationConnected { .. }
            | JournalEvent::ClientConnected { .. }
            | JournalEvent::TransferStarted { .. }
            | JournalEvent::TransferStopped { .. }
            | JournalEvent::PlaceFree
            | JournalEvent::EventsResumed
            | JournalEvent::Stopped => Priority::Information,
            JournalEvent::Doubtful(_)
            | JournalEvent::OutstationRestarted { .. }
            | JournalEvent::EventsOverflowed { .. }
            | JournalEvent::ClockNotSet { .. }
            | JournalEvent::Unanswered { .. }
            | JournalEvent::FragmentRefused { .. }
            | JournalEvent::OctetsSkipped { .. }
            | JournalEvent::LinkStatusUnanswered { .. }
            | JournalEvent::FramesStrayed { .. }
            | JournalEvent::ObjectsPassedOver { .. }
            | JournalEvent::NewsDropped { .. }
            | JournalEvent::UnknownTypes { .. }
            | JournalEvent::AllPlacesTaken { .. }
            | JournalEvent::NotAllowed { .. }
            | JournalEvent::RecordingEnded(_)
            | JournalEvent::EventsHindered(_)
            | JournalEvent::EventsLeftOut(_)
            | JournalEvent::HostStoodStill { .. }
            | JournalEvent::LeftOut(_) => Priority::Warning,
        }
    }

    /// Whom it is of.
    pub(crate) fn subject(&self) -> Subject {
        match self {
            JournalEvent::OutstationConnected { outstation }
            | JournalEvent::OutstationUnreachable { outstation, .. }
            | JournalEvent::OutstationLost { outstation, .. }
            | JournalEvent::OutstationRestarted { outstation }
            | JournalEvent::EventsOverflowed { outstation }
            | JournalEvent::ClockNotSet { outstation }
            | JournalEvent::Unanswered { outstation, .. }
            | JournalEvent::FragmentRefused { outstation, .. }
            | JournalEvent::OctetsSkipped { outstation, .. }
            | JournalEvent::LinkStatusUnanswered { outstation }
            | JournalEvent::FramesStrayed { outstation, .. }
            | JournalEvent::ObjectsPassedOver { outstation, .. }
            | JournalEvent::Order { outstation, .. } => Subject::Outstation(*outstation),
            JournalEvent::ClientConnected { .. }
            | JournalEvent::TransferStarted { .. }
            | JournalEvent::TransferStopped { .. }
            | JournalEvent::ClientLost { .. }
            | JournalEvent::NewsDropped { .. }
            | JournalEvent::UnknownTypes { .. }
            | JournalEvent::Command { .. } => self.client_subject(),
            JournalEvent::Started { .. }
            | JournalEvent::Doubtful(_)
            | JournalEvent::Listening(_)
            | JournalEvent::AllPlacesTaken { .. }
            | JournalEvent::PlaceFree
            | JournalEvent::NotAllowed { .. }
            | JournalEvent::NotAccepted(_)
            | JournalEvent::RecordingEnded(_)
            | JournalEvent::EventsHindered(_)
            | JournalEvent::EventsResumed
            | JournalEvent::EventsLeftOut(_)
            | JournalEvent::HostStoodStill { .. }
            | JournalEvent::LeftOut(_)
            | JournalEvent::ControlsLeftOut(_)
            | JournalEvent::Stopped => Subject::Gateway,
        }
    }

    /// The client that it is of, where it is of one.
    fn client_subject(&self) -> Subject {
        match self {
            JournalEvent::ClientConnected { client, address }
            | JournalEvent::TransferStarted { client, address }
            | JournalEvent::TransferStopped { client, address }
            | JournalEvent::ClientLost {
                client,
                address,
                ..
            }
            | JournalEvent::NewsDropped {
                client,
                address,
                ..
            }
            | JournalEvent::UnknownTypes {
                client,
                address,
                ..
            }
            | JournalEvent::Command {
                client,
                address,
                ..
            } => Subject::Client(*client, *address),
            _ => Subject::Gateway,
        }
    }

    /// What the outstation or the control that it is of is called, if that has a name.
    pub(crate) fn name<'a>(&self, names: &'a Names) -> Option<&'a str> {
        match self {
            JournalEvent::Command { command, .. } => {
                names.of_object(command.common_address, command.address)
            }
            JournalEvent::Doubtful(doubt) => names.of_outstation(doubt.outstation()),
            other => match other.subject() {
                Subject::Outstation(outstation) => names.of_outstation(outstation),
                Subject::Gateway | Subject::Client(..) => None,
            },
        }
    }

    /// Whether it tells of a control.
    pub(crate) fn is_of_control(&self) -> bool {
        match self {
            JournalEvent::Command { .. } | JournalEvent::Order { .. } => true,
            _ => false,
        }
    }
}

/// How much the end of a connection matters: as much as this, unless the gateway itself ended it.
fn loss_priority(loss: &Loss, priority: Priority) -> Priority {
    if loss.cause.is_own() {
        Priority::Information
    } else {
        priority
    }
}
