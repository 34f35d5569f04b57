//! What became of orders, and how many observations were dropped, over all steps.
ghost use Rattle.std.specs.Prelude.{◌≡◌};
ghost use Rattle.run_shared.specs.Accepting.{number_in, order_accepted};

use crate::order_counts::OrderCounts;
use gw_control::Answer;
use gw_model::{CLIENTS, OUTSTATIONS};
use gw_steps::{Effects, Machine, OrderEnd, Outgoing};

/// For each outstation how many orders there were, and what became of them; for each client how many observations were
/// dropped in those data transfers that have ended, which a machine forgets.
#[derive(Clone, Copy)]
pub struct Tally {
    orders: [OrderCounts; OUTSTATIONS as usize],
    dropped: [u64; CLIENTS as usize],
}

impl Tally {
    /// Of no step.
    pub fn new() -> Tally {
        Tally {
            orders: [OrderCounts::nothing(); OUTSTATIONS as usize],
            dropped: [0; CLIENTS as usize],
        }
    }

    /// How many orders there were for each outstation.
    pub fn orders(&self) -> [OrderCounts; OUTSTATIONS as usize] {
        self.orders
    }

    /// What was dropped for each client, with that of the data transfer that stands.
    pub fn dropped_in_all<M: Machine>(&self, machine: &M) -> [u64; CLIENTS as usize] {
        let mut counts = self.dropped;
        for (client, count) in (0..CLIENTS).zip(counts.iter_mut()) {
            *count = count.saturating_add(machine.dropped(client));
        }
        counts
    }

    /// A step did this, and left the machine so.
    pub fn note<M: Machine>(&mut self, effects: &Effects, machine: &M) {
        if let Some(order) = order_accepted(effects) {
            self.accept(order, machine);
        }
        for end in effects.order_ends() {
            self.end(end);
        }
        let dropped = effects.dropped_counts();
        for (count, dropped) in self.dropped.iter_mut().zip(&dropped) {
            *count = count.saturating_add(*dropped);
        }
    }

    /// An order of this number was accepted: it is the last that waits for its outstation.
    fn accept<M: Machine>(&mut self, order: u64, machine: &M) {
        for (counts, outgoing) in self.orders.iter_mut().zip(machine.outgoing()) {
            if is_last(order, outgoing) {
                counts.accept();
            }
        }
    }

    /// An order ended.
    fn end(&mut self, end: &OrderEnd) {
        if let Some(counts) = self.orders.get_mut(end.outstation) {
            counts.end(end.fate);
        }
    }
}

/// The number of the order as which a step accepted a command, if it did.
pub fn order_accepted(effects: &Effects) -> Option<u64>
    ensures { result ≡ order_accepted effects.now.told }
{
    number_in(effects.command()?.answer)
}

/// The number of the order that an answer tells of, if it does.
fn number_in(answer: Answer) -> Option<u64>
    ensures { result ≡ number_in answer }
{
    match answer {
        Answer::Ordered(number) => Some(number),
        Answer::Confirm | Answer::Negative | Answer::Unknown => None,
    }
}

/// Whether an order is the last that waits for an outstation.
fn is_last(order: u64, outgoing: &Outgoing) -> bool {
    match outgoing.waiting().back() {
        Some(accepted) => accepted.order.number == order,
        None => false,
    }
}
