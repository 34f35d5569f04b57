//! What becomes of orders, and the clients that are told.
ghost use Rattle.std.specs.Prelude.{◌≡◌, map, slice_get, IfSome};
ghost use Rattle.std.specs.Option.{option_to_list};
ghost use Rattle.dnp_master.specs.Master.{ended_by_tick, master_after_tick};
ghost use Rattle.gw_control.specs.Held.{controls_after_losses};
ghost use Rattle.gw_control.specs.Orders.{places};
ghost use Rattle.gw_control.specs.Intents.{control_for};
ghost use Rattle.gw_steps.specs.Controls.{clients_told, controls_after_all_ended};
ghost use Rattle.gw_steps.specs.Controls.{controls_after_taken, controls_with_ended, is_control_up};
ghost use Rattle.gw_steps.specs.Controls.{outcome_ended, outcomes_ended, outcomes_lost, said_by};
ghost use Rattle.gw_model.specs.Places.{change};
ghost use Rattle.gw_station.specs.Frames.{HasPlace};
ghost use Rattle.gw_steps.specs.Steps.{client_answered};
ghost use Rattle.gw_hub.specs.Hub.{controls_settled, said_to_sender, CanOrder, CanTell, HoldsPlaces, IsActEvent};

use gw_control::{Answer, Controls, MOST_WAITING, Outcome, control_for};
use gw_map::Settings;
use gw_model::Ended;
use gw_parts::{Clients, Outstations};
use gw_station::{Event, Said};
use iec_apci::{Apdu, Signal};
use iec_command::Command;

/// What is said of a command, by what the controls answer to it. A station gives no command for an address without a
/// control of its type: it has sent it back.
fn said_by(answer: Answer) -> Said
    ensures { result ≡ said_by answer }
{
    match answer {
        Answer::Confirm => Said::Confirm,
        Answer::Negative | Answer::Unknown => Said::Negative,
        Answer::Ordered(_) => Said::Ordered,
    }
}

/// Whether the outstation of the control that a command is for is up.
pub fn is_control_up(outstations: &Outstations, command: &Command, settings: &Settings) -> bool
    ensures { result ≡ is_control_up outstations.now (control_for settings.now command.now) }
{
    let Some((_, control)) = control_for(command, settings) else {
        return false;
    };
    match outstations.get(control.outstation) {
        Some(master) => master.is_up(),
        None => false,
    }
}

/// An APDU of a client that was taken, and carries no command for a control, ends its session where it is STOPDT act.
fn end_by(controls: &mut Controls, client: u8, apdu: &Apdu)
    ensures { controls.new ≡ controls_after_taken client apdu.now controls.old }
{
    if let Apdu::U(Signal::StopAct) = apdu {
        controls.end(client);
    }
}

/// Whose APDU came, in which of its sessions, and when, in milliseconds.
#[derive(Clone, Copy)]
pub struct Sender {
    pub client: u8,
    pub session: u64,
    pub moment: u64,
}

/// Takes up with the controls what became of an APDU: a command for a control is answered, and STOPDT act or a close
/// ends the session.
pub fn settle(
    controls: &mut Controls,
    clients: &mut Clients,
    outstations: &Outstations,
    settings: &Settings,
    sender: &Sender,
    apdu: &Apdu,
    event: &Event,
)
    requires place { IfSome (slice_get clients.old.each sender.now.client) (HasPlace event.now) }
    requires acts { IsActEvent event.now }
    requires number { CanOrder settings.now outstations.now sender.now event.now controls.old }
    ensures clients { clients.new.each ≡ change sender.now.client (client_answered
        (said_to_sender settings.now outstations.now sender.now controls.old) event.now) clients.old.each }
    ensures news { clients.new.news ≡ clients.old.news }
    ensures controls { controls.new
        ≡ controls_settled settings.now outstations.now sender.now apdu.now event.now controls.old }
{
    match event {
        Event::Taken => end_by(controls, sender.client, apdu),
        Event::Command(command) => {
            let up = is_control_up(outstations, command, settings);
            let (client, session) = (sender.client, sender.session);
            let answer = controls.command(client, session, command, settings, up, sender.moment);
            clients.answer(client, command, said_by(answer));
        }
        Event::Closed(_) => controls.end(sender.client),
    }
}

/// Tells a client what became of its order, if something did.
fn tell(clients: &mut Clients, outcome: Option<Outcome>)
    requires { IfSome outcome (CanTell clients.old.each) }
    ensures clients { clients.new.each ≡ clients_told (option_to_list outcome) clients.old.each }
    ensures news { clients.new.news ≡ clients.old.news }
{
    let Some(outcome) = outcome else {
        return;
    };
    let said = if outcome.done {
        Said::Done
    } else {
        Said::Failed
    };
    clients.answer(outcome.client, &outcome.command, said);
}

/// The order under way to the outstation at a position ended, if one did.
pub fn end_order(
    controls: &mut Controls,
    clients: &mut Clients,
    position: usize,
    ended: Option<Ended>,
)
    requires { HoldsPlaces clients.old.each controls.old }
    ensures controls { controls.new ≡ controls_with_ended position ended controls.old }
    ensures clients { clients.new.each
        ≡ clients_told (option_to_list (outcome_ended position ended controls.old)) clients.old.each }
    ensures news { clients.new.news ≡ clients.old.news }
{
    if let Some(ended) = ended {
        let outcome = controls.outcome(position, ended);
        tell(clients, outcome);
    }
}

/// The oldest order that waits for a lost outstation fails.
fn lose_order(controls: &mut Controls, clients: &mut Clients, outstation: u8)
    requires { HoldsPlaces clients.old.each controls.old }
    ensures controls { controls.new ≡ controls_after_losses 1 outstation controls.old }
    ensures clients { clients.new.each ≡ clients_told (outcomes_lost 1 outstation controls.old) clients.old.each }
    ensures news { clients.new.news ≡ clients.old.news }
{
    let outcome = controls.lost(outstation);
    tell(clients, outcome);
}

/// All orders that wait for a lost outstation fail, the oldest first.
pub fn lose_orders(controls: &mut Controls, clients: &mut Clients, outstation: u8)
    requires { HoldsPlaces clients.old.each controls.old }
    ensures controls { controls.new ≡ controls_after_losses places outstation controls.old }
    ensures clients { clients.new.each
        ≡ clients_told (outcomes_lost places outstation controls.old) clients.old.each }
    ensures news { clients.new.news ≡ clients.old.news }
{
    for _ in 0..MOST_WAITING {
        lose_order(controls, clients, outstation);
    }
}

/// Time has passed: orders that weren't answered in time fail, outstation by outstation.
pub fn pass_time(
    outstations: &mut Outstations,
    controls: &mut Controls,
    clients: &mut Clients,
    moment: u64,
)
    requires { HoldsPlaces clients.old.each controls.old }
    ensures outstations { outstations.new ≡ map (master_after_tick moment) outstations.old }
    ensures controls { controls.new
        ≡ controls_after_all_ended 0 (map (ended_by_tick moment) outstations.old) controls.old }
    ensures clients { clients.new.each
        ≡ clients_told (outcomes_ended 0 (map (ended_by_tick moment) outstations.old) controls.old) clients.old.each }
    ensures news { clients.new.news ≡ clients.old.news }
{
    for position in 0..outstations.len() {
        let ended = outstations.tick(position, moment);
        end_order(controls, clients, position, ended);
    }
}
