//! The rules for commands, one by one.
ghost use Rattle.std.specs.Prelude.{◌≡◌};
ghost use Rattle.gw_map.specs.Settings.{row_at_from, control_at_from};
ghost use Rattle.gw_judge.specs.Judging.{executes, has_known_cause, has_object, is_addressed, is_execute};
ghost use Rattle.gw_judge.specs.Judging.{is_for_all, is_known_cause, is_operated_by, is_operated, is_readable};

use gw_map::{Operates, Settings, Show};
use iec_command::causes::{ACTIVATION, DEACTIVATION, REQUEST};
use iec_command::{Action, Command};

/// The common address of all stations (IEC 60870-5-101, 7.2.4).
pub const ALL_STATIONS: u16 = 65535;

/// The object address of what concerns a whole station (IEC 60870-5-101, 7.2.5).
const WHOLE_STATION: u32 = 0;

/// Whether neither P/N nor T is set, and the cause of transmission is one of the type's (IEC 60870-5-101, 7.2.3).
pub(crate) fn has_known_cause(command: &Command) -> bool
    ensures { result ≡ has_known_cause command.now }
{
    !command.negative && !command.test && is_known_cause(&command.action, command.cause)
}

/// Whether a cause of transmission is one of a type's.
fn is_known_cause(action: &Action, cause: u8) -> bool
    ensures { result ≡ is_known_cause action.now cause }
{
    match action {
        Action::Read => cause == REQUEST,
        _ => cause == ACTIVATION || cause == DEACTIVATION,
    }
}

/// Whether the common address is a known one, or that of all stations where the type may have it
/// (IEC 60870-5-101, 7.2.4).
pub(crate) fn is_addressed(command: &Command, settings: &Settings) -> bool
    ensures { result ≡ is_addressed settings.now command.now }
{
    settings.is_known(command.common_address)
        || (is_for_all(&command.action) && command.common_address == ALL_STATIONS)
}

/// Whether a type may be for all stations: interrogations may.
fn is_for_all(action: &Action) -> bool
    ensures { result ≡ is_for_all action.now }
{
    matches!(
        action,
        Action::Interrogation { .. } | Action::CounterInterrogation { .. }
    )
}

/// Whether the information object is there for the type (IEC 60870-5-101, 7.2.5 and 7.3).
pub(crate) fn has_object(command: &Command, settings: &Settings) -> bool
    ensures { result ≡ has_object settings.now command.now }
{
    match command.action {
        Action::Interrogation { .. } => command.address == WHOLE_STATION,
        Action::CounterInterrogation { .. } => command.address == WHOLE_STATION,
        Action::Read => is_readable(command, settings),
        _ => is_operated(command, settings),
    }
}

/// Whether a row has the addresses of a command, and isn't shown as a total.
fn is_readable(command: &Command, settings: &Settings) -> bool
    ensures { result ≡ is_readable (row_at_from 0 command.now.common_address command.now.address settings.now.rows) }
{
    match settings.row_at(command.common_address, command.address) {
        None => false,
        Some((_, row)) => !matches!(row.show, Show::Total),
    }
}

/// Whether a control has the addresses of a command, and is operated by its type.
fn is_operated(command: &Command, settings: &Settings) -> bool
    ensures { result ≡ is_operated command.now.action
        (control_at_from 0 command.now.common_address command.now.address settings.now.controls) }
{
    match settings.control_at(command.common_address, command.address) {
        None => false,
        Some((_, control)) => is_operated_by(&command.action, &control.operates),
    }
}

/// Whether a control that is operated so is operated by a type.
fn is_operated_by(action: &Action, operates: &Operates) -> bool
    ensures { result ≡ is_operated_by action.now operates.now }
{
    match (action, operates) {
        (Action::Single(_), Operates::Single(_)) => true,
        (Action::Double(_), Operates::Double(_)) => true,
        (Action::Setpoint(_), Operates::Setpoint(_)) => true,
        _ => false,
    }
}

/// Whether a command is an execute: of type 45, 46 or 49, an activation, and no selection (S/E is 0;
/// IEC 60870-5-101, 7.2.6.26 and 7.2.6.39).
pub fn is_execute(command: &Command) -> bool
    ensures { result ≡ is_execute command.now }
{
    command.cause == ACTIVATION && executes(&command.action)
}

/// Whether a type commands a control, and S/E is 0.
fn executes(action: &Action) -> bool
    ensures { result ≡ executes action.now }
{
    match action {
        Action::Single(command) => !command.select,
        Action::Double(command) => !command.select,
        Action::Setpoint(command) => !command.select,
        _ => false,
    }
}
