//! What is told once in a while.

use crate::server::Server;
use gw_threads::{Calls, Clock, Course, pause};
use std::rt::Clock as Sleeps;
use std::sync::Wait;

impl<'a, S, R: Wait + Sleeps, C: Clock, G> Server<'a, S, R, C, G> {
    /// Looks at what is known of all peers each second, and tells what is due, until the server ends.
    pub fn report_periodically<L: Course>(&self)
    where
        S: Calls<L>,
    {
        let (reporter, shared) = (self.reporter, self.shared);
        for _ in reporter.rt.forever() {
            pause::<L, S, R>(reporter.rt, shared);
            if shared.stopping() {
                return;
            }
            let wall = reporter.clock.wall();
            reporter.look_at_outstations(wall);
            reporter.look_at_callers(wall);
            reporter.look_at_clients(&shared.figures(reporter.rt).dropped, wall);
        }
    }
}
