//! What an ASDU gets for an answer at once.
ghost use Rattle.std.specs.Prelude.{◌≡◌};
ghost use Rattle.gw_answers.specs.Answers.{answered, answered_action, command_by, places_for, shown_at};
ghost use Rattle.gw_answers.specs.Outgoing.{command_with, confirmed, under};
ghost use Rattle.gw_judge.specs.Acceptable.{object_for};

use crate::interrogation::{first_asked, is_accepted_act};
use crate::outgoing::{AsduAnswer, OwnAsdu};
use gw_judge::{Judged, is_execute};
use gw_map::Settings;
use gw_model::Observation;
use iec_apci::Asdu;
use iec_command::causes::{
    ACTIVATION_CONFIRMATION, DEACTIVATION, DEACTIVATION_CONFIRMATION, REQUEST,
};
use iec_command::{Action, Command};

/// A command as it goes out with a cause of transmission and P/N.
pub fn command_with(cause: u8, negative: bool, command: &Command) -> OwnAsdu
    ensures { result ≡ command_with cause negative command.now }
{
    OwnAsdu::Command(Command {
        cause,
        negative,
        ..*command
    })
}

/// A command under a common address.
pub fn under(common_address: u16, command: &Command) -> Command
    ensures { result ≡ under common_address command.now }
{
    Command {
        common_address,
        ..*command
    }
}

/// The confirmation of a command's activation or deactivation.
pub fn confirmation_of(negative: bool, command: &Command) -> OwnAsdu
    ensures { result ≡ confirmed negative command.now }
{
    let cause = if command.cause == DEACTIVATION {
        DEACTIVATION_CONFIRMATION
    } else {
        ACTIVATION_CONFIRMATION
    };
    command_with(cause, negative, command)
}

/// How many places have to be free for the answer to an ASDU, where an interrogation is pending or not: none for an
/// interrogation that is accepted, two for a command to be executed, one for all else.
pub fn places_for(pending: bool, judged: &Judged) -> usize
    ensures { result ≡ places_for pending judged.now }
{
    match judged {
        Judged::Malformed => 0,
        Judged::Refuse { execute, .. } => { if *execute { 2 } else { 1 } }
        Judged::Accepted(command) => {
            if is_accepted_act(pending, command) {
                0
            } else if is_execute(command) {
                2
            } else {
                1
            }
        }
    }
}

/// The answer that an ASDU gets at once, if any, while `picture` shows the rows of `settings`, and an interrogation is
/// pending or not.
pub fn answer_at_once(
    settings: &Settings,
    picture: &[Observation],
    pending: bool,
    asdu: &Asdu,
    judged: &Judged,
) -> Option<AsduAnswer>
    ensures { result ≡ answered settings.now picture.now pending asdu.now judged.now }
{
    match judged {
        Judged::Malformed => None,
        Judged::Refuse { cause, .. } => Some(AsduAnswer::Returned {
            asdu: *asdu,
            cause: *cause,
        }),
        Judged::Accepted(command) => answered_action(settings, picture, pending, command),
    }
}

fn answered_action(
    settings: &Settings,
    picture: &[Observation],
    pending: bool,
    command: &Command,
) -> Option<AsduAnswer>
    ensures { result ≡ answered_action settings.now picture.now pending command.now command.now.action }
{
    match command.action {
        Action::Interrogation { .. } | Action::CounterInterrogation { .. } => {
            if is_accepted_act(pending, command) {
                None
            } else {
                let first = first_asked(settings, command.common_address);
                Some(AsduAnswer::Made(confirmation_of(true, &under(first, command))))
            }
        }
        Action::Read => shown_at(settings, picture, command).map(|observation| {
            AsduAnswer::Made(OwnAsdu::Observation {
                cause: REQUEST,
                originator: command.originator,
                observation,
            })
        }),
        Action::Single(_) | Action::Double(_) | Action::Setpoint(_) => None,
    }
}

/// What the picture shows of the row that a command is for, if there is one.
fn shown_at(settings: &Settings, picture: &[Observation], command: &Command) -> Option<Observation>
    ensures { result ≡ shown_at settings.now picture.now (object_for command.now) }
{
    let (position, _) = settings.row_at(command.common_address, command.address)?;
    picture.get(position).copied()
}

/// The command for a control that an ASDU is, if it is one.
pub fn command_by(judged: &Judged) -> Option<Command>
    ensures { result ≡ command_by judged.now }
{
    match judged {
        Judged::Accepted(command) => match command.action {
            Action::Single(_) | Action::Double(_) | Action::Setpoint(_) => Some(*command),
            Action::Interrogation { .. } | Action::CounterInterrogation { .. } | Action::Read => {
                None
            }
        },
        Judged::Malformed | Judged::Refuse { .. } => None,
    }
}
