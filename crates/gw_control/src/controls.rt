//! Selections and orders of all clients.
ghost use Rattle.std.specs.Prelude.{◌≡◌, ◌<◌, ◌+◌, ◌^◌, true, false, is_none};
ghost use Rattle.std.specs.Prelude.{is_some, map, not, replicate, slice_get, IfOk};
ghost use Rattle.gw_model.specs.First.{first_of, when};
ghost use Rattle.gw_control.specs.declared.refusal.Refusal.TheVariants.{NotSelected};
ghost use Rattle.gw_model.specs.Places.{change};
ghost use Rattle.gw_control.specs.Orders.{nothing_outgoing, outgoing_after_end, outgoing_after_ended};
ghost use Rattle.gw_control.specs.Orders.{outgoing_after_lost, outgoing_after_taking, outgoing_with};
ghost use Rattle.gw_control.specs.Selections.{asked, is_own, unselected_by};
ghost use Rattle.gw_control.specs.Controls.{
  act_accepted,
  act_by,
  act_unless,
  accepted_by,
  answer_for,
  answer_of,
  confirmed_if,
  controls_after_command,
  controls_after_end,
  controls_after_ended,
  controls_after_for,
  controls_after_lost,
  controls_after_taking,
  controls_ordering,
  controls_selecting,
  controls_unselecting,
  is_full_at,
  is_order,
  no_controls,
  no_controls_after,
  order_at,
  outcome_ended_at,
  outcome_lost_at,
  refusal_for,
  refusal_of,
  refusals_of_execute,
  refusals_of_select,
  standing_at,
  CanAnswer,
};

use crate::accepted::Accepted;
use crate::answer::{Answer, Outcome};
use crate::asked::{AskedCommand, is_select};
use crate::intent::{act_of, control_for, element_refusal};
use crate::outgoing::Outgoing;
use crate::refusal::Refusal;
use crate::selection::{Selection, is_own, is_selected, is_taken, selection_refusal};
use gw_map::{Control, Mode, Settings};
use gw_model::{Act, CLIENTS, Ended, Intent, Memory, Order};
use iec_command::Command;
use iec_command::causes::DEACTIVATION;
use std::alloc::Global;
use std::marker::Model;

/// The clients' selections of controls, and their orders on the way to outstations. Only `new`, `copy` and `copy_over`
/// take memory. Moments are in milliseconds; an interval that would begin after it ended counts as 0.
#[derive(Drop)]
pub struct Controls {
    /// For each client the session that stands, where a control was selected in it.
    sessions: [Option<u64>; CLIENTS as usize],
    /// For each control, by its position, the last selection: it stands as long as its client's session does, and for
    /// as long as the settings tell.
    selections: Vec<Option<Selection>>,
    /// For each outstation its orders.
    outgoing: Vec<Outgoing>,
    /// How many orders there were.
    ordered: u64,
}

impl Model for Controls {
    ghost use Rattle.gw_control.specs.Controls.{Controls as Seen, AreInOrder};

    ghost Value = { Seen };

    ghost view = { λ c. record {
      sessions = c.sessions;
      selections = c.selections.items;
      outgoing = c.outgoing.items;
      ordered = c.ordered;
    } };

    // At most 16 orders wait for each outstation, and their numbers rise.
    ghost invariant = { λ c. AreInOrder c.ordered c.outgoing.items };
}

impl Controls {
    /// No selection, and no order.
    pub fn new(alloc: Global, settings: &Settings) -> Result<Controls, Memory>
        ensures { IfOk result (λ controls. controls ≡ no_controls settings.now) }
    {
        Controls::after(alloc, settings, 0)
    }

    /// No selection, and no order that waits, after so many orders.
    pub fn after(alloc: Global, settings: &Settings, ordered: u64) -> Result<Controls, Memory>
        ensures { IfOk result (λ controls. controls ≡ no_controls_after ordered settings.now) }
    {
        let selections = no_selections(alloc, settings.controls().len())?;
        let outgoing = nothing_outgoing(alloc, settings.outstations().len())?;
        Ok(Controls {
            sessions: [None; CLIENTS as usize],
            selections,
            outgoing,
            ordered,
        })
    }

    /// An equal value, or `Memory` where there is no room for its selections and orders.
    pub fn copy(&self) -> Result<Controls, Memory>
        ensures { IfOk result (λ copy. copy ≡ self.now) }
    {
        let selections = Vec::new(*self.selections.allocator());
        let outgoing = Vec::new(*self.outgoing.allocator());
        self.copy_over(Controls {
            sessions: [None; CLIENTS as usize],
            selections,
            outgoing,
            ordered: 0,
        })
    }

    /// The same, in the memory of what isn't needed any more, so that little is asked for where that suffices.
    pub fn copy_over(&self, spare: Controls) -> Result<Controls, Memory>
        ensures { IfOk result (λ copy. copy ≡ self.now) }
    {
        let mut selections = spare.selections;
        selections.clear();
        selections.extend_from_slice(self.selections.as_slice())?;
        let outgoing = copied_over(spare.outgoing, self.outgoing.as_slice())?;
        Ok(Controls {
            sessions: self.sessions,
            selections,
            outgoing,
            ordered: self.ordered,
        })
    }

    /// How many orders there were.
    pub fn ordered(&self) -> u64
        ensures { result ≡ self.now.ordered }
    {
        self.ordered
    }

    /// For each outstation its orders.
    pub fn outgoing(&self) -> &[Outgoing]
        ensures { result.now ≡ self.now.outgoing }
    {
        &self.outgoing
    }

    /// Whether a command would be an order: what `command` would answer.
    #[tactic(auto, using(crate::proofs::Keeps::confirmed_no_order))]
    pub fn orders(
        &self,
        client: u8,
        session: u64,
        command: &Command,
        settings: &Settings,
        up: bool,
        moment: u64,
    ) -> bool
        ensures { result ≡ is_order (answer_of settings.now (asked client session command.now up moment) self.now) }
    {
        let Some((position, control)) = control_for(command, settings) else {
            return false;
        };
        let asked = AskedCommand {
            client,
            session,
            command: *command,
            up,
            moment,
        };
        if command.cause == DEACTIVATION {
            return false;
        }
        if is_select(&command.action) {
            return false;
        }
        let standing = self.standing(position, settings, moment);
        self.act_accepted(&asked, &control, &standing).is_some()
    }

    /// Takes a command of a client in a session, at a moment; `up` tells whether its outstation is.
    pub fn command(
        &mut self,
        client: u8,
        session: u64,
        command: &Command,
        settings: &Settings,
        up: bool,
        moment: u64,
    ) -> Answer
        requires { CanAnswer settings.now (asked client session command.now up moment) self.old }
        ensures answer { result ≡ answer_of settings.now (asked client session command.now up moment) self.old }
        ensures after { self.new
            ≡ controls_after_command settings.now (asked client session command.now up moment) self.old }
    {
        let Some((position, control)) = control_for(command, settings) else {
            return Answer::Unknown;
        };
        let asked = AskedCommand {
            client,
            session,
            command: *command,
            up,
            moment,
        };
        let standing = self.standing(position, settings, moment);
        self.answer(&asked, position, &control, &standing)
    }

    /// What `command` would answer, and why it would confirm the command negatively, if it would. It changes nothing.
    pub fn judge(
        &self,
        client: u8,
        session: u64,
        command: &Command,
        settings: &Settings,
        up: bool,
        moment: u64,
    ) -> (Answer, Option<Refusal>)
        requires { CanAnswer settings.now (asked client session command.now up moment) self.now }
        ensures answer { result.0 ≡ answer_of settings.now (asked client session command.now up moment) self.now }
        ensures refusal { result.1 ≡ refusal_of settings.now (asked client session command.now up moment) self.now }
    {
        let Some((position, control)) = control_for(command, settings) else {
            return (Answer::Unknown, None);
        };
        let asked = AskedCommand {
            client,
            session,
            command: *command,
            up,
            moment,
        };
        let standing = self.standing(position, settings, moment);
        self.judge_for(&asked, &control, &standing)
    }

    /// The same of a command for a control, of which this selection stands.
    fn judge_for(
        &self,
        asked: &AskedCommand,
        control: &Control,
        standing: &Option<Selection>,
    ) -> (Answer, Option<Refusal>)
        requires { is_order (answer_for asked.now control.now standing.now self.now) ≡ true
            → self.now.ordered + 1 < 2 ^ 64 }
        ensures answer { result.0 ≡ answer_for asked.now control.now standing.now self.now }
        ensures refusal { result.1 ≡ refusal_for asked.now control.now standing.now self.now }
    {
        if asked.command.cause == DEACTIVATION {
            let refusal = deactivation_refusal(asked, standing);
            return (confirmed_unless(refusal), refusal);
        }
        if is_select(&asked.command.action) {
            let refusal = select_refusal(asked, control, standing);
            return (confirmed_unless(refusal), refusal);
        }
        let refusal = self.execute_refusal(asked, control, standing);
        match act_unless(refusal, asked, control) {
            Some(_) => (Answer::Ordered(self.ordered + 1), refusal),
            None => (Answer::Negative, refusal),
        }
    }

    /// Takes a command for a control, of which this selection stands.
    fn answer(
        &mut self,
        asked: &AskedCommand,
        position: usize,
        control: &Control,
        standing: &Option<Selection>,
    ) -> Answer
        requires { is_order (answer_for asked.now control.now standing.now self.old) ≡ true
            → self.old.ordered + 1 < 2 ^ 64 }
        ensures answer { result ≡ answer_for asked.now control.now standing.now self.old }
        ensures after { self.new ≡ controls_after_for asked.now position control.now standing.now self.old }
    {
        if asked.command.cause == DEACTIVATION {
            self.unselect(asked, position);
            return confirmed_unless(deactivation_refusal(asked, standing));
        }
        if is_select(&asked.command.action) {
            let refusal = select_refusal(asked, control, standing);
            if refusal.is_none() {
                self.select(asked, position);
            }
            return confirmed_unless(refusal);
        }
        let act = self.act_accepted(asked, control, standing);
        self.unselect(asked, position);
        match act {
            Some(act) => Answer::Ordered(self.order(asked, control, act)),
            None => Answer::Negative,
        }
    }

    /// The selection of a control that stands at a moment.
    fn standing(&self, position: usize, settings: &Settings, moment: u64) -> Option<Selection>
        ensures { result ≡ standing_at settings.now moment position self.now }
    {
        let selection = (*self.selections.get(position)?)?;
        let session = *self.sessions.get(usize::from(selection.client))?;
        if session == Some(selection.session)
            && selection.is_fresh(settings.station().select_ms, moment)
        {
            Some(selection)
        } else {
            None
        }
    }

    /// What an execute does to its control, where it is accepted.
    fn act_accepted(
        &self,
        asked: &AskedCommand,
        control: &Control,
        standing: &Option<Selection>,
    ) -> Option<Act>
        ensures { result ≡ act_accepted asked.now control.now standing.now self.now }
    {
        let refusal = self.execute_refusal(asked, control, standing);
        act_unless(refusal, asked, control)
    }

    /// Why an execute isn't accepted, if it isn't.
    fn execute_refusal(
        &self,
        asked: &AskedCommand,
        control: &Control,
        standing: &Option<Selection>,
    ) -> Option<Refusal>
        ensures { result ≡ first_of (refusals_of_execute asked.now control.now standing.now self.now) }
    {
        if act_by(asked, control).is_none() {
            return Some(element_refusal(&asked.command.action, &control.operates));
        }
        if !asked.up {
            return Some(Refusal::OutstationDown);
        }
        if is_taken(asked, standing) {
            return Some(Refusal::SelectedByAnother);
        }
        if control.select && !is_selected(asked, standing) {
            return Some(selection_refusal(asked, standing));
        }
        if is_full_at(self.outgoing.as_slice(), control.outstation) {
            return Some(Refusal::NoPlace);
        }
        None
    }

    /// The client has a control selected no more.
    fn unselect(&mut self, asked: &AskedCommand, position: usize)
        ensures { self.new ≡ controls_unselecting asked.now position self.old }
    {
        unselect_at(&mut self.selections, position, asked.client);
    }

    /// The client selects a control.
    fn select(&mut self, asked: &AskedCommand, position: usize)
        ensures { self.new ≡ controls_selecting asked.now position self.old }
    {
        set_session(&mut self.sessions, asked.client, Some(asked.session));
        select_at(
            &mut self.selections,
            position,
            Selection {
                client: asked.client,
                session: asked.session,
                action: asked.command.action,
                since: asked.moment,
            },
        );
    }

    /// An execute that was accepted is an order, with this number.
    fn order(&mut self, asked: &AskedCommand, control: &Control, act: Act) -> u64
        requires count { self.old.ordered + 1 < 2 ^ 64 }
        requires place { is_full_at (slice_get self.old.outgoing control.now.outstation) ≡ false }
        ensures number { result ≡ self.old.ordered + 1 }
        ensures after { self.new ≡ controls_ordering asked.now control.now (Some act) self.old }
    {
        self.ordered += 1;
        let accepted = accepted_by(asked, control, act, self.ordered);
        push_at(&mut self.outgoing, control.outstation, accepted);
        self.ordered
    }

    /// Whether `take_order` would give an order for an outstation.
    pub fn waits(&self, outstation: u8) -> bool
        ensures { result ≡ is_some (order_at (slice_get self.now.outgoing outstation)) }
    {
        match self.outgoing.get(usize::from(outstation)) {
            Some(orders) => orders.waits(),
            None => false,
        }
    }

    /// The order that `take_order` would give.
    pub fn next_order(&self, outstation: u8) -> Option<Order>
        ensures { result ≡ order_at (slice_get self.now.outgoing outstation) }
    {
        self.outgoing.get(usize::from(outstation))?.next()
    }

    /// Gives the oldest order that waits for an outstation, where none is under way to it; then it is.
    pub fn take_order(&mut self, outstation: u8) -> Option<Order>
        ensures order { result ≡ order_at (slice_get self.old.outgoing outstation) }
        ensures after { self.new ≡ controls_after_taking outstation self.old }
    {
        take_at(&mut self.outgoing, outstation)
    }

    /// The order that was under way to the outstation at a position ended: its outcome, where its session stands.
    pub fn outcome(&mut self, position: usize, ended: Ended) -> Option<Outcome>
        ensures outcome { result ≡ outcome_ended_at ended (slice_get self.old.outgoing position) }
        ensures after { self.new ≡ controls_after_ended position ended self.old }
    {
        end_at(&mut self.outgoing, position, ended)
    }

    /// An outstation is lost: the oldest order that waits for it fails. None waits any more where nothing is answered.
    pub fn lost(&mut self, outstation: u8) -> Option<Outcome>
        ensures outcome { result ≡ outcome_lost_at (slice_get self.old.outgoing outstation) }
        ensures after { self.new ≡ controls_after_lost outstation self.old }
    {
        lose_at(&mut self.outgoing, outstation)
    }

    /// A client's session ends: its selections and its orders that wait go, and nobody is told what becomes of those
    /// that are under way.
    pub fn end(&mut self, client: u8)
        ensures { self.new ≡ controls_after_end client self.old }
    {
        set_session(&mut self.sessions, client, None);
        end_session(&mut self.outgoing, client);
    }
}

/// So many controls that nobody has selected.
fn no_selections(alloc: Global, count: usize) -> Result<Vec<Option<Selection>>, Memory>
    ensures { IfOk result (λ selections. selections.items ≡ replicate count None) }
{
    Ok(vec![in alloc; None; count]?)
}

/// So many outstations without orders.
fn nothing_outgoing(alloc: Global, count: usize) -> Result<Vec<Outgoing>, Memory>
    ensures { IfOk result (λ outgoing. outgoing.items ≡ replicate count nothing_outgoing) }
{
    let mut outgoing = Vec::with_capacity(alloc, count)?;
    for _ in 0..count {
        outgoing.push(Outgoing::new(alloc)?)?;
    }
    Ok(outgoing)
}

/// The orders of all outstations, in the memory of spare ones as far as they go.
fn copied_over(spare: Vec<Outgoing>, outgoing: &[Outgoing]) -> Result<Vec<Outgoing>, Memory>
    ensures { IfOk result (λ copy. copy.items ≡ outgoing.now) }
{
    let mut copy = Vec::with_capacity(*spare.allocator(), outgoing.len())?;
    let mut spares = spare.into_iter();
    for one in outgoing {
        copy.push(copy_into_spare(one, spares.next())?)?;
    }
    Ok(copy)
}

/// Equal orders of an outstation, in the memory of spare ones if there are any.
fn copy_into_spare(outgoing: &Outgoing, spare: Option<Outgoing>) -> Result<Outgoing, Memory>
    ensures { IfOk result (λ copy. copy ≡ outgoing.now) }
{
    match spare {
        Some(spare) => outgoing.copy_over(spare),
        None => outgoing.copy(),
    }
}

/// What is answered to a command that is no order, which is refused for this or isn't.
fn confirmed_unless(refusal: Option<Refusal>) -> Answer
    ensures { result ≡ confirmed_if (is_none refusal) }
{
    match refusal {
        None => Answer::Confirm,
        Some(_) => Answer::Negative,
    }
}

/// What a command does to its control.
fn act_by(asked: &AskedCommand, control: &Control) -> Option<Act>
    ensures { result ≡ act_by asked.now control.now }
{
    act_of(&asked.command.action, &control.operates)
}

/// The same, where it isn't refused.
fn act_unless(refusal: Option<Refusal>, asked: &AskedCommand, control: &Control) -> Option<Act>
    ensures { result ≡ act_unless refusal (act_by asked.now control.now) }
{
    match refusal {
        None => act_by(asked, control),
        Some(_) => None,
    }
}

/// Why a deactivation is confirmed negatively, if it is.
fn deactivation_refusal(asked: &AskedCommand, standing: &Option<Selection>) -> Option<Refusal>
    ensures { result ≡ when (not (is_own asked.now standing.now)) NotSelected }
{
    if is_own(asked, standing) {
        None
    } else {
        Some(Refusal::NotSelected)
    }
}

/// Why a select is confirmed negatively, if it is.
fn select_refusal(
    asked: &AskedCommand,
    control: &Control,
    standing: &Option<Selection>,
) -> Option<Refusal>
    ensures { result ≡ first_of (refusals_of_select asked.now control.now standing.now) }
{
    if act_by(asked, control).is_none() {
        return Some(element_refusal(&asked.command.action, &control.operates));
    }
    if is_taken(asked, standing) {
        Some(Refusal::SelectedByAnother)
    } else {
        None
    }
}

/// An execute that is accepted, with its number.
fn accepted_by(asked: &AskedCommand, control: &Control, act: Act, number: u64) -> Accepted
    ensures { result ≡ accepted_by asked.now control.now act number }
{
    let intent = Intent {
        outstation: control.outstation,
        index: control.index,
        act,
    };
    let sbo = matches!(control.mode, Mode::Sbo);
    Accepted {
        order: Order {
            number,
            intent,
            sbo,
        },
        client: asked.client,
        session: asked.session,
        command: asked.command,
    }
}

/// The session that stands for a client.
fn set_session(sessions: &mut [Option<u64>; CLIENTS as usize], client: u8, session: Option<u64>)
    ensures { sessions.new ≡ change client (λ _. session) sessions.old }
{
    let position = usize::from(client);
    if client < CLIENTS {
        sessions[position] = session;
    }
}

fn unselect_at(selections: &mut [Option<Selection>], position: usize, client: u8)
    ensures { selections.new ≡ change position (unselected_by client) selections.old }
{
    if position < selections.len() {
        selections[position] = unselected_by(client, selections[position]);
    }
}

/// What is left of a selection once a client has its control selected no more.
fn unselected_by(client: u8, selection: Option<Selection>) -> Option<Selection>
    ensures { result ≡ unselected_by client selection }
{
    match selection {
        Some(selection) if selection.client != client => Some(selection),
        _ => None,
    }
}

fn select_at(selections: &mut [Option<Selection>], position: usize, selection: Selection)
    ensures { selections.new ≡ change position (λ _. Some selection) selections.old }
{
    if position < selections.len() {
        selections[position] = Some(selection);
    }
}

/// Whether no further order may wait for an outstation; none may where there is no such one.
fn is_full_at(outgoing: &[Outgoing], outstation: u8) -> bool
    ensures { result ≡ is_full_at (slice_get outgoing.now outstation) }
{
    match outgoing.get(usize::from(outstation)) {
        Some(orders) => orders.is_full(),
        None => true,
    }
}

fn push_at(outgoing: &mut [Outgoing], outstation: u8, accepted: Accepted)
    requires { is_full_at (slice_get outgoing.old outstation) ≡ false }
    ensures { outgoing.new ≡ change outstation (outgoing_with accepted) outgoing.old }
{
    let position = usize::from(outstation);
    if position < outgoing.len() {
        outgoing[position].push(accepted);
    }
}

fn take_at(outgoing: &mut [Outgoing], outstation: u8) -> Option<Order>
    ensures order { result ≡ order_at (slice_get outgoing.old outstation) }
    ensures after { outgoing.new ≡ change outstation outgoing_after_taking outgoing.old }
{
    let position = usize::from(outstation);
    if position < outgoing.len() {
        outgoing[position].take()
    } else {
        None
    }
}

fn end_at(outgoing: &mut [Outgoing], position: usize, ended: Ended) -> Option<Outcome>
    ensures outcome { result ≡ outcome_ended_at ended (slice_get outgoing.old position) }
    ensures after { outgoing.new ≡ change position (outgoing_after_ended ended) outgoing.old }
{
    if position < outgoing.len() {
        outgoing[position].end_order(ended)
    } else {
        None
    }
}

fn lose_at(outgoing: &mut [Outgoing], outstation: u8) -> Option<Outcome>
    ensures outcome { result ≡ outcome_lost_at (slice_get outgoing.old outstation) }
    ensures after { outgoing.new ≡ change outstation outgoing_after_lost outgoing.old }
{
    let position = usize::from(outstation);
    if position < outgoing.len() {
        outgoing[position].lose()
    } else {
        None
    }
}

fn end_session(outgoing: &mut [Outgoing], client: u8)
    ensures { outgoing.new ≡ map (outgoing_after_end client) outgoing.old }
{
    for position in 0..outgoing.len() {
        outgoing[position].end_session(client);
    }
}
