//! What a hub looks up in its state. It changes nothing.
ghost use Rattle.std.specs.Prelude.{◌≡◌, ◌-◌, drop, length, min, slice_get, slice_index, take};
ghost use Rattle.gw_steps.specs.declared.step.StepFault.TheVariants.{NoClient, NoOutstation};
ghost use Rattle.gw_steps.specs.Steps.{can_order, client_up, command_of, fault_unless_up, is_ordering, latest, outstation_up};
ghost use Rattle.gw_hub.specs.Hub.{can_take, unless};

use crate::hub::Hub;
use crate::orders::is_control_up;
use gw_model::{Observation, Report};
use gw_steps::StepFault;
use iec_apci::Apdu;

impl Hub {
    /// For each row of the point map its value and quality as last shown.
    pub fn picture(&self) -> &[Observation]
        ensures { result.now ≡ self.now.state.picture }
    {
        self.picture.rows()
    }

    /// The largest moment so far, this one included.
    pub(super) fn latest(&self, moment: u64) -> u64
        ensures { result ≡ latest self.now.state moment }
    {
        if self.moment < moment {
            moment
        } else {
            self.moment
        }
    }

    /// Whether the counts can rise by a step, and by the news that these reports would be.
    pub(super) fn can_rise(&self, reports: &[Report]) -> bool
        ensures { result ≡ can_take self.now reports.now }
    {
        if self.counts.can_rise(reports.len() as u64, 0) {
            return true;
        }
        let settings = self.settings.get();
        let news = self.picture.news(reports, settings);
        self.counts.can_rise(news, 0)
    }

    /// Whether an outstation is up, or why it isn't.
    pub(super) fn check_outstation(&self, outstation: u8) -> Result<(), StepFault>
        ensures { result ≡ unless (fault_unless_up NoOutstation (outstation_up self.now.state outstation)) }
    {
        match self.outstations.get(outstation) {
            None => Err(StepFault::NoOutstation),
            Some(master) => {
                if master.is_up() {
                    Ok(())
                } else {
                    Err(StepFault::NotUp)
                }
            }
        }
    }

    /// Whether a client is up, or why it isn't.
    pub(super) fn check_client(&self, client: u8) -> Result<(), StepFault>
        ensures { result ≡ unless (fault_unless_up NoClient (client_up self.now.state client)) }
    {
        match self.clients.presence(client) {
            None => Err(StepFault::NoClient),
            Some(false) => Err(StepFault::NotUp),
            Some(true) => Ok(()),
        }
    }

    /// Whether the command for a control in an APDU of a client is no order, or one more order has a number.
    pub(super) fn can_order(&self, client: u8, apdu: &Apdu, moment: u64) -> bool
        ensures { result ≡ can_order (is_ordering self.now.setup self.now.state moment client
            (command_of self.now.setup apdu.now (slice_get self.now.state.clients client))) self.now.state.controls }
    {
        if self.controls.ordered() != u64::MAX {
            return true;
        }
        let settings = self.settings.get();
        match self.clients.gives(client, apdu, settings) {
            None => true,
            Some(command) => !self.controls.orders(
                client,
                self.session(client),
                &command,
                settings,
                is_control_up(&self.outstations, &command, settings),
                moment,
            ),
        }
    }

    /// The number of a client's last session.
    pub(super) fn session(&self, client: u8) -> u64
        ensures { result ≡ slice_index self.now.state.sessions client }
    {
        match self.sessions.get(usize::from(client)) {
            Some(session) => *session,
            None => 0,
        }
    }
}

/// Copies what is shown of the rows from a position on, as many as find room; how many these are.
pub(super) fn copy_rows(picture: &[Observation], position: usize, room: &mut [Observation]) -> usize
    ensures room { length room.new ≡ length room.old }
    ensures count { result ≡ min (length picture.now - position) (length room.old) }
    ensures shown { take result room.new ≡ take result (drop position picture.now) }
{
    if picture.len() <= position {
        return 0;
    }
    let count = (picture.len() - position).min(room.len());
    room[..count].copy_from_slice(&picture[position..position + count]);
    count
}
