//! How many orders there were, and how they ended.
ghost use Rattle.std.specs.Prelude.{◌≡◌, ◌-◌};
ghost use Rattle.run_shared.specs.Counts.{counting_accepted, counting_ended, no_orders, one_more};

use gw_steps::Fate;

/// How many orders for an outstation were accepted, and what became of them.
#[derive(Clone, Copy)]
pub struct OrderCounts {
    /// Those that were accepted.
    pub accepted: u64,
    /// Those that the outstation did.
    pub done: u64,
    /// Those that failed.
    pub failed: u64,
    /// Those that were let go.
    pub let_go: u64,
}

/// One more, or the most that there can be.
fn add_one(count: &mut u64)
    ensures { count.new ≡ one_more count.old }
{
    *count = count.saturating_add(1);
}

impl OrderCounts {
    /// None.
    pub fn nothing() -> OrderCounts
        ensures { result ≡ no_orders }
    {
        OrderCounts {
            accepted: 0,
            done: 0,
            failed: 0,
            let_go: 0,
        }
    }

    /// How many have not ended: they wait for the outstation, or for its answer.
    pub fn waiting(self) -> u64
        ensures { result ≡ self.accepted - self.done - self.failed - self.let_go }
    {
        self.accepted
            .saturating_sub(self.done)
            .saturating_sub(self.failed)
            .saturating_sub(self.let_go)
    }

    /// One more was accepted.
    pub fn accept(&mut self)
        ensures { self.new ≡ counting_accepted self.old }
    {
        add_one(&mut self.accepted);
    }

    /// One ended so.
    pub fn end(&mut self, fate: Fate)
        ensures { self.new ≡ counting_ended fate self.old }
    {
        match fate {
            Fate::Done => add_one(&mut self.done),
            Fate::LetGo => add_one(&mut self.let_go),
            Fate::Refused(..) | Fate::Otherwise(_) | Fate::Unanswered(_) | Fate::Lost => {
                add_one(&mut self.failed);
            }
        }
    }
}
