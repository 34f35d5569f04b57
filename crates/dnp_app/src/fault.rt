//! Why a fragment was refused.
use dnp_objects::ObjectFault;
use thiserror::Error;

/// What is wrong with a fragment that should be a response.
#[derive(Clone, Copy, Debug, PartialEq, Error)]
pub enum AppFault {
    /// It has fewer than four octets.
    #[error("1 Short")]
    Short,
    /// Its function isn't 129 (response) or 130 (unsolicited response).
    #[error("2 NotResponse")]
    NotResponse,
    /// Its object part is at fault.
    #[error("3 Object {0}")]
    Object(ObjectFault),
    /// Memory ran out.
    #[error("4 Memory")]
    Memory,
}
