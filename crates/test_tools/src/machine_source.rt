//! A machine alone, as a source of replies.
ghost use Rattle.std.specs.Prelude.{◌≡◌, IfSome};
ghost use Rattle.gw_steps.specs.declared.step.Step.TheVariants as steps;
ghost use Rattle.gw_steps.specs.Steps.{Allowed};

use gw_hub::{Machine, Step};
use run_ends::{Batch, Gathered, LONGEST_APDU, Source, apdu_in};

/// A machine alone, pumped for one client at one moment.
#[derive(Drop)]
pub struct MachineSource<M: Machine> {
    pub machine: M,
    pub client: u8,
    pub moment: u64,
}

impl<M: Machine> Source for MachineSource<M> {
    ghost Gives = { λ old given new. (new.client ≡ old.client) × (new.moment ≡ old.moment) × IfSome given (λ reply.
        Allowed (M.seen old.machine).setup (M.seen old.machine).state (steps.Pump old.client old.moment) reply
        (M.seen new.machine).state) };

    fn gather(&mut self, batch: &mut Batch) -> Gathered {
        if !batch.has_room(LONGEST_APDU) {
            return Gathered::More;
        }
        let (client, moment) = (self.client, self.moment);
        let reply = self.machine.step(&Step::Pump { client, moment });
        match apdu_in(reply) {
            Some(apdu) => {
                batch.add(apdu.as_slice());
                Gathered::More
            }
            None => Gathered::Ended(Some(reply)),
        }
    }

    fn before_write(&self) {}
}
