//! Where a client's connection stands.

/// Where a client's connection stands (IEC 60870-5-104, 5.3).
#[derive(Clone, Copy)]
pub enum Stage {
    /// There is no connection.
    Down,
    /// The connection stands, and data transfer is stopped.
    Stopped,
    /// Data transfer is started: a session.
    Started,
}
