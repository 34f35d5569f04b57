//! What a TCP listener is told.

use std::net::{TcpListener, TcpStream};
use std::os::fd::OwnedFd;
use std::time::Duration;

/// The milliseconds behind which a listener comes back from a wait for a client.
const LOOK_MS: u64 = 100;

/// Lets a listener come back from a wait for a client every 100 milliseconds: a listener has no option for that, but
/// those of its socket are shared by its handles. Whether it does now: without a handle to spare it waits as before.
pub fn look_up_from_accept(listener: &TcpListener) -> bool {
    set_accept_timeout(listener, Some(Duration::from_millis(LOOK_MS)))
}

/// Lets a listener come back from a wait for a client only with one; whether it does now.
pub(crate) fn stay_in_accept(listener: &TcpListener) -> bool {
    set_accept_timeout(listener, None)
}

/// How long a listener waits for a client at most, if it does; whether that is so now.
fn set_accept_timeout(listener: &TcpListener, time: Option<Duration>) -> bool {
    match listener.try_clone() {
        Ok(handle) => TcpStream::from(OwnedFd::from(handle))
            .set_read_timeout(time)
            .is_ok(),
        Err(_) => false,
    }
}
