//! What is counted under the lock.

use crate::order_counts::OrderCounts;
use crate::tally::Tally;
use gw_model::{CLIENTS, OUTSTATIONS};
use gw_steps::Machine;

/// How many calls were made, how many observations were news, what waits for clients, and what became of orders.
#[derive(Clone, Copy)]
pub struct Figures {
    /// The calls.
    pub calls: u64,
    /// The observations that were news.
    pub news: u64,
    /// For each client the news that wait.
    pub queued: [usize; 8],
    /// For each client the I formats sent that are not acknowledged.
    pub unacknowledged: [usize; 8],
    /// For each client the news that were dropped, in all its data transfers and those of the clients before it.
    pub dropped: [u64; 8],
    /// For each outstation its orders.
    pub orders: [OrderCounts; OUTSTATIONS as usize],
}

impl Figures {
    /// Those of a machine on which so many calls were made, of which this was counted.
    pub fn of<M: Machine>(calls: u64, machine: &M, tally: &Tally) -> Figures {
        let mut queued = [0; 8];
        let mut unacknowledged = [0; 8];
        for client in 0..CLIENTS {
            queued[usize::from(client)] = machine.queued(client);
            unacknowledged[usize::from(client)] = machine.unacknowledged_count(client);
        }
        Figures {
            calls,
            news: machine.news(),
            queued,
            unacknowledged,
            dropped: tally.dropped_in_all(machine),
            orders: tally.orders(),
        }
    }
}
