//! Commands of clients.
ghost use Rattle.std.specs.Prelude.{◌≡◌};
ghost use Rattle.gw_control.specs.Selections.{is_select};

use iec_command::{Action, Command};

/// A command of a client.
#[derive(Clone, Copy)]
pub struct AskedCommand {
    /// Whose it is, in which session.
    pub client: u8,
    pub session: u64,
    pub command: Command,
    /// Its outstation is up.
    pub up: bool,
    /// When it came, in milliseconds.
    pub moment: u64,
}

/// Whether a command selects, or else executes (S/E; IEC 60870-5-101, 7.2.6.26 and 7.2.6.39).
pub(crate) fn is_select(action: &Action) -> bool
    ensures { result ≡ is_select action.now }
{
    match action {
        Action::Single(command) => command.select,
        Action::Double(command) => command.select,
        Action::Setpoint(command) => command.select,
        _ => false,
    }
}
