//! Selections of controls.
ghost use Rattle.std.specs.Prelude.{◌≡◌};
ghost use Rattle.gw_control.specs.Controls.{selection_refusal};
ghost use Rattle.gw_control.specs.Selections.{asks_same, is_fresh, is_own, is_selected, is_taken};

use crate::asked::AskedCommand;
use crate::refusal::Refusal;
use iec_command::Action;

/// A client's selection of a control.
#[derive(Clone, Copy)]
pub struct Selection {
    pub client: u8,
    pub session: u64,
    /// What it was selected for.
    pub action: Action,
    /// When it was made or renewed, in milliseconds.
    pub since: u64,
}

impl Selection {
    /// Whether less than so many milliseconds passed at a moment.
    pub fn is_fresh(&self, limit: u32, moment: u64) -> bool
        ensures { result ≡ is_fresh limit moment self.now }
    {
        moment.saturating_sub(self.since) < u64::from(limit)
    }
}

/// Whether two commands ask for the same: type, value and QU. S/E and the reserved bit of an SCO don't count.
fn asks_same(one: &Action, other: &Action) -> bool
    ensures { result ≡ asks_same one.now other.now }
{
    match (one, other) {
        (Action::Single(a), Action::Single(b)) => a.on == b.on && a.qualifier == b.qualifier,
        (Action::Double(a), Action::Double(b)) => {
            a.state == b.state && a.qualifier == b.qualifier
        }
        (Action::Setpoint(a), Action::Setpoint(b)) => {
            a.value == b.value && a.qualifier == b.qualifier
        }
        _ => false,
    }
}

/// Whether a control is selected by another client.
pub(crate) fn is_taken(asked: &AskedCommand, standing: &Option<Selection>) -> bool
    ensures { result ≡ is_taken asked.now standing.now }
{
    match standing {
        Some(selection) => selection.client != asked.client,
        None => false,
    }
}

/// Whether a control is selected by the client, in its session.
pub(crate) fn is_own(asked: &AskedCommand, standing: &Option<Selection>) -> bool
    ensures { result ≡ is_own asked.now standing.now }
{
    match standing {
        Some(selection) => {
            selection.client == asked.client && selection.session == asked.session
        }
        None => false,
    }
}

/// Whether a control is selected by the client, in its session, for what a command asks.
pub(crate) fn is_selected(asked: &AskedCommand, standing: &Option<Selection>) -> bool
    ensures { result ≡ is_selected asked.now standing.now }
{
    match standing {
        Some(selection) => {
            is_own(asked, standing) && asks_same(&selection.action, &asked.command.action)
        }
        None => false,
    }
}

/// Why an execute is refused that wants a selection of the control and hasn't its own.
pub(crate) fn selection_refusal(asked: &AskedCommand, standing: &Option<Selection>) -> Refusal
    ensures { result ≡ selection_refusal asked.now standing.now }
{
    if is_own(asked, standing) {
        Refusal::UnlikeSelect
    } else {
        Refusal::NotSelected
    }
}
