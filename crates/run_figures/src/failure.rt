//! Why a call to the system failed.
ghost use Rattle.std.specs.Prelude.{◌≡◌};
ghost use Rattle.run_figures.specs.Failures.{failure_at};

use std::io::ErrorKind;
use thiserror::Error;

/// Why a call to the system failed, as far as it makes a difference to an operator. Its number is above 0.
#[derive(Clone, Copy, Debug, Error)]
pub enum Failure {
    /// The host takes no connection at this port.
    #[error("connection refused")]
    ConnectionRefused = 1,
    /// The peer reset the connection.
    #[error("reset by peer")]
    ConnectionReset = 2,
    /// The connection was aborted.
    #[error("connection aborted")]
    ConnectionAborted = 3,
    /// The peer takes nothing more.
    #[error("broken pipe")]
    BrokenPipe = 4,
    /// There is no connection.
    #[error("not connected")]
    NotConnected = 5,
    /// No answer came in time.
    #[error("no answer in time")]
    NoAnswer = 6,
    /// There is no way to the host.
    #[error("host unreachable")]
    HostUnreachable = 7,
    /// There is no way to the network.
    #[error("network unreachable")]
    NetworkUnreachable = 8,
    /// The network is down.
    #[error("network down")]
    NetworkDown = 9,
    /// No host has this name.
    #[error("no such host")]
    NoSuchHost = 10,
    /// This is no address of a host and a port.
    #[error("no address of a host and a port")]
    NoAddress = 11,
    /// Another program listens here.
    #[error("address in use")]
    AddressInUse = 12,
    /// This machine hasn't this address.
    #[error("no address of this machine")]
    ForeignAddress = 13,
    /// The system doesn't permit it.
    #[error("permission denied")]
    PermissionDenied = 14,
    /// Memory ran out.
    #[error("no memory")]
    Memory = 15,
    /// Anything else.
    #[error("the system refuses")]
    Other = 16,
}

impl Failure {
    /// Its number.
    pub fn code(self) -> u64
        ensures { failure_at result ≡ self }
    {
        self as u64
    }

    /// The failure of this number; `Other` where none has it.
    pub fn from_code(code: u64) -> Failure
        ensures { result ≡ failure_at code }
    {
        match code {
            1 => Failure::ConnectionRefused,
            2 => Failure::ConnectionReset,
            3 => Failure::ConnectionAborted,
            4 => Failure::BrokenPipe,
            5 => Failure::NotConnected,
            6 => Failure::NoAnswer,
            7 => Failure::HostUnreachable,
            8 => Failure::NetworkUnreachable,
            9 => Failure::NetworkDown,
            10 => Failure::NoSuchHost,
            11 => Failure::NoAddress,
            12 => Failure::AddressInUse,
            13 => Failure::ForeignAddress,
            14 => Failure::PermissionDenied,
            15 => Failure::Memory,
            _ => Failure::Other,
        }
    }

    /// Why a host's name couldn't be looked up. The system's resolver tells of a name that no host has as of what it
    /// has no word for.
    pub fn of_look_up(kind: ErrorKind) -> Failure {
        match Failure::from(kind) {
            Failure::Other => Failure::NoSuchHost,
            failure => failure,
        }
    }

    /// Whether the peer, or something between, ended the connection.
    pub(crate) fn is_of_peer(self) -> bool {
        matches!(
            self,
            Failure::ConnectionReset
                | Failure::ConnectionAborted
                | Failure::BrokenPipe
                | Failure::NotConnected
        )
    }

    /// Whether it says of itself that a connection has ended.
    pub(crate) fn ends_connection(self) -> bool {
        match self {
            Failure::ConnectionReset
            | Failure::ConnectionAborted
            | Failure::BrokenPipe
            | Failure::NoAnswer
            | Failure::HostUnreachable
            | Failure::NetworkUnreachable
            | Failure::NetworkDown => true,
            Failure::ConnectionRefused
            | Failure::NotConnected
            | Failure::NoSuchHost
            | Failure::NoAddress
            | Failure::AddressInUse
            | Failure::ForeignAddress
            | Failure::PermissionDenied
            | Failure::Memory
            | Failure::Other => false,
        }
    }
}

impl From<ErrorKind> for Failure {
    fn from(kind: ErrorKind) -> Failure {
        match kind {
            ErrorKind::ConnectionRefused => Failure::ConnectionRefused,
            ErrorKind::ConnectionReset => Failure::ConnectionReset,
            ErrorKind::ConnectionAborted => Failure::ConnectionAborted,
            ErrorKind::BrokenPipe => Failure::BrokenPipe,
            ErrorKind::NotConnected => Failure::NotConnected,
            ErrorKind::TimedOut | ErrorKind::WouldBlock => Failure::NoAnswer,
            ErrorKind::HostUnreachable => Failure::HostUnreachable,
            ErrorKind::NetworkUnreachable => Failure::NetworkUnreachable,
            ErrorKind::NetworkDown => Failure::NetworkDown,
            ErrorKind::NotFound => Failure::NoSuchHost,
            ErrorKind::InvalidInput => Failure::NoAddress,
            ErrorKind::AddrInUse => Failure::AddressInUse,
            ErrorKind::AddrNotAvailable => Failure::ForeignAddress,
            ErrorKind::PermissionDenied => Failure::PermissionDenied,
            ErrorKind::OutOfMemory => Failure::Memory,
            _ => Failure::Other,
        }
    }
}
