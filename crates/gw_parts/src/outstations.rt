//! All outstations, by their position.
ghost use Rattle.std.specs.Prelude.{◌≡◌, ◌*◌, ◌<◌, ◌≤◌, [], ◌∷◌, is_some, length, map, option_and_then};
ghost use Rattle.std.specs.Prelude.{option_copied, option_map, slice_get, true, IfOk, IfSome, None, Some, ℕ};
ghost use Rattle.std.specs.Borrow.{sem};
ghost use Rattle.std.specs.Option.{option_copied_mut};
ghost use Rattle.gw_model.specs.Places.{change};
ghost use Rattle.dnp_master.specs.Master.{ended_by_tick, is_ready, master_after_next, master_after_order};
ghost use Rattle.dnp_master.specs.Master.{master_after_tick, master_after_up, master_down};
ghost use Rattle.dnp_master.specs.Fragments.{master_after_fragment};
ghost use Rattle.gw_parts.specs.Lending.{LendsMaster};
ghost use Rattle.dnp_master.specs.Answers.{is_unanswered, operation_awaited};
ghost use Rattle.gw_steps.specs.Controls.{ended_lost};
ghost use Rattle.dnp_master.specs.declared.fate.Fate.TheVariants.{Unanswered};
ghost use Rattle.gw_control.specs.Controls.{order_at};
ghost use Rattle.gw_steps.specs.Effects.{due_from, late, one_where, where_so, with_due};
ghost use Rattle.gw_steps.specs.Queries.{is_poll_due_of};
ghost use Rattle.gw_steps.specs.Steps.{accepted_by};
ghost use Rattle.gw_parts.specs.Late.{late_at, with_late};
ghost use Rattle.gw_parts.specs.Outstations.{master_polled, reply_to_poll};

use dnp_app::Response;
use dnp_master::Master;
use gw_map::Outstation;
use gw_model::{Ended, Memory, Order};
use gw_steps::{Effects, Fate, Outgoing, Reply};
use std::alloc::Global;
use std::marker::Model;

/// The master towards each outstation.
#[derive(Drop)]
pub struct Outstations {
    masters: Vec<Master>,
}

impl Model for Outstations {
    ghost use Rattle.std.specs.Prelude.{List};
    ghost use Rattle.dnp_master.specs.Master.{Master as Known};

    ghost Value = { List Known };

    ghost view = { λ o. o.masters.items };
}

impl Outstations {
    /// The outstations of settings, all down.
    pub fn new(alloc: Global, outstations: &[Outstation]) -> Result<Outstations, Memory>
        ensures { IfOk result (λ masters. masters ≡ map (λ outstation. master_down outstation.poll) outstations.now) }
    {
        let mut masters = Vec::with_capacity(alloc, outstations.len())?;
        for outstation in outstations {
            masters.push(Master::new(&outstation.poll))?;
        }
        Ok(Outstations { masters })
    }

    /// An equal value, or `Memory` where there is no room for its masters.
    pub fn copy(&self) -> Result<Outstations, Memory>
        ensures { IfOk result (λ copy. copy ≡ self.now) }
    {
        let masters = Vec::new(*self.masters.allocator());
        self.copy_over(Outstations { masters })
    }

    /// The same, in the memory of what isn't needed any more, so that none is asked for where that suffices.
    pub fn copy_over(&self, spare: Outstations) -> Result<Outstations, Memory>
        ensures { IfOk result (λ copy. copy ≡ self.now) }
    {
        let mut masters = spare.masters;
        masters.clear();
        masters.reserve(self.masters.len())?;
        for master in &self.masters {
            masters.push(master.copy()?)?;
        }
        Ok(Outstations { masters })
    }

    /// How many outstations there are.
    pub fn len(&self) -> usize
        ensures { result ≡ length self.now }
    {
        self.masters.len()
    }

    /// The master towards an outstation; none where there is no such outstation.
    pub fn get(&self, outstation: u8) -> Option<&Master>
        ensures { option_copied result ≡ slice_get self.now outstation }
    {
        self.masters.get(usize::from(outstation))
    }

    /// The master towards an outstation, to be changed.
    fn get_mut(&mut self, outstation: u8) -> Option<&mut Master>
        ensures* lent { sem 𝓛 (LendsMaster self.entry outstation result) }
        ensures value { option_copied_mut result ≡ slice_get self.old outstation }
    {
        self.masters.get_mut(usize::from(outstation))
    }

    /// An outstation comes up at a moment.
    pub fn come_up(&mut self, outstation: u8, moment: u64)
        ensures { self.new ≡ change outstation (master_after_up moment) self.old }
    {
        if let Some(master) = self.get_mut(outstation) {
            master.up(moment);
        }
    }

    /// An outstation is lost: the order that was given to it and has not ended fails.
    pub fn go_down(&mut self, outstation: u8) -> Option<Ended>
        ensures ended { result ≡ ended_lost (slice_get self.old outstation) }
        ensures masters { self.new ≡ change outstation (λ master. master_down master.poll) self.old }
    {
        match self.get_mut(outstation) {
            Some(master) => master.down(),
            None => None,
        }
    }

    /// A response of its outstation comes at a moment, which is accepted there.
    pub fn accept(&mut self, response: &Response, moment: u64)
        requires { accepted_by response.now (slice_get self.old response.now.outstation) ≡ true }
        ensures { self.new ≡ change response.now.outstation (master_after_fragment moment response.now) self.old }
    {
        if let Some(master) = self.get_mut(response.outstation()) {
            master.accept(response, moment);
        }
    }

    /// The next request of an outstation, at a moment and a wall time: that of an order, where one is given to it,
    /// which is ready then, or else of what is due first.
    pub fn poll(&mut self, outstation: u8, order: Option<Order>, moment: u64, wall: u64) -> Reply
        requires { IfSome order (λ _. IfSome (slice_get self.old outstation) (λ m. is_ready m ≡ true)) }
        ensures reply { result ≡ reply_to_poll order moment wall (slice_get self.old outstation) }
        ensures masters { self.new ≡ change outstation (master_polled order moment wall) self.old }
    {
        match order {
            Some(order) => self.order(outstation, order, moment),
            None => self.next(outstation, moment, wall),
        }
    }

    /// The request of what is due first.
    fn next(&mut self, outstation: u8, moment: u64, wall: u64) -> Reply
        ensures reply { result ≡ reply_to_poll None moment wall (slice_get self.old outstation) }
        ensures masters { self.new ≡ change outstation (master_after_next moment wall) self.old }
    {
        let Some(master) = self.get_mut(outstation) else {
            return Reply::Nothing;
        };
        match master.next(moment, wall) {
            Some(request) => Reply::Request(request),
            None => Reply::Nothing,
        }
    }

    /// The request of an order.
    fn order(&mut self, outstation: u8, order: Order, moment: u64) -> Reply
        requires { IfSome (slice_get self.old outstation) (λ m. is_ready m ≡ true) }
        ensures reply { (wall : ℕ)
            → result ≡ reply_to_poll (Some order) moment wall (slice_get self.old outstation) }
        ensures masters { self.new ≡ change outstation (master_after_order moment order) self.old }
    {
        match self.get_mut(outstation) {
            Some(master) => Reply::Request(master.order(order, moment)),
            None => Reply::Nothing,
        }
    }

    /// Time has passed for the outstation at a position: the order that fails with it.
    pub fn tick(&mut self, position: usize, moment: u64) -> Option<Ended>
        requires { position < length self.old }
        ensures ended { result ≡ option_and_then (ended_by_tick moment) (slice_get self.old position) }
        ensures masters { self.new ≡ change position (master_after_tick moment) self.old }
    {
        self.masters[position].tick(moment)
    }

    /// Tells what becomes of orders as time has passed, and which requests it leaves unanswered: what `tick` will do.
    pub fn tell_late(&self, moment: u64, outgoing: &[Outgoing], effects: &mut Effects)
        requires ended { length effects.old.told.ended ≤ 16 * length self.now }
        requires unanswered { effects.old.told.unanswered ≡ [] }
        requires room { length self.now ≤ effects.old.room }
        ensures { effects.new ≡ with_late (late 0 self.now (map (ended_by_tick moment) self.now) outgoing.now)
            (where_so 0 (map (is_unanswered moment) self.now)) effects.old }
    {
        for (position, master) in self.masters.iter().enumerate() {
            tell_late_at(position, master, moment, outgoing, effects);
        }
    }

    /// Tells to which outstations a request is due at a moment.
    pub fn tell_due(&self, moment: u64, outgoing: &[Outgoing], effects: &mut Effects)
        requires nothing { effects.old.told.due_outstations ≡ [] }
        requires room { length self.now ≤ effects.old.room }
        ensures { effects.new ≡ with_due (due_from moment outgoing.now 0 self.now) effects.old }
    {
        for (position, master) in self.masters.iter().enumerate() {
            tell_due_at(position, master, moment, outgoing, effects);
        }
    }
}

/// The same of the outstation at a position.
fn tell_due_at(
    position: usize,
    master: &Master,
    moment: u64,
    outgoing: &[Outgoing],
    effects: &mut Effects,
)
    requires room { length effects.old.told.due_outstations < effects.old.room }
    ensures { effects.new ≡ with_due (one_where
        (is_poll_due_of moment (slice_get outgoing.now position) (Some master.now)) position) effects.old }
{
    if is_due_at(position, master, moment, outgoing) {
        effects.rouse_outstation(position);
    }
}

/// Whether a request is due to the outstation at a position: of an order, or of what is due there.
fn is_due_at(position: usize, master: &Master, moment: u64, outgoing: &[Outgoing]) -> bool
    ensures { result ≡ is_poll_due_of moment (slice_get outgoing.now position) (Some master.now) }
{
    master.is_due(moment) || (master.ready() && waits_at(position, outgoing))
}

/// Whether an order may be given to the outstation at a position.
fn waits_at(position: usize, outgoing: &[Outgoing]) -> bool
    ensures { result ≡ is_some (order_at (slice_get outgoing.now position)) }
{
    match outgoing.get(position) {
        Some(orders) => orders.waits(),
        None => false,
    }
}

/// The same of the outstation at a position.
fn tell_late_at(
    position: usize,
    master: &Master,
    moment: u64,
    outgoing: &[Outgoing],
    effects: &mut Effects,
)
    requires ended { length effects.old.told.ended < 17 * effects.old.room }
    requires unanswered { length effects.old.told.unanswered < effects.old.room }
    ensures { effects.new ≡ with_late (late_at moment position master.now (slice_get outgoing.now position))
        (where_so position (is_unanswered moment master.now ∷ [])) effects.old }
{
    let fate = fate_awaited(master);
    effects.end_under_way(position, fate, master.ended_by_tick(moment), outgoing);
    if master.is_unanswered(moment) {
        effects.leave_unanswered(position);
    }
}

/// What becomes of an order whose request is left unanswered.
fn fate_awaited(master: &Master) -> Option<Fate>
    ensures { result ≡ option_map Unanswered (operation_awaited master.now.exchange) }
{
    match master.operation_awaited() {
        Some(operation) => Some(Fate::Unanswered(operation)),
        None => None,
    }
}
