//! Why a client's commands for controls are confirmed negatively, until it is told of it.

use iec_command::causes::{DEACTIVATION, DEACTIVATION_CONFIRMATION};
use iec_command::{Action, Command};
use run_journal::Reason;

/// How many reasons are kept. A client has 32 answers that wait at most, and reads what it is told of orders before that.
const MOST: usize = 64;

/// The first order, of a client that had none.
const NO_ORDER: u64 = 0;

/// What tells a command from others, as it comes and as it goes back.
#[derive(Clone, Copy, PartialEq)]
struct Asked {
    common_address: u16,
    address: u32,
    action: Kind,
    is_deactivation: bool,
}

/// What a command asks for, without its values.
#[derive(Clone, Copy, PartialEq)]
enum Kind {
    Single { select: bool },
    Double { select: bool },
    Setpoint { select: bool },
    Other,
}

impl Asked {
    fn of(command: &Command) -> Asked {
        Asked {
            common_address: command.common_address,
            address: command.address,
            action: Kind::of(&command.action),
            is_deactivation: matches!(command.cause, DEACTIVATION | DEACTIVATION_CONFIRMATION),
        }
    }

    /// Whether a control is to be operated.
    fn is_execute(self) -> bool {
        self.action.is_execute() && !self.is_deactivation
    }
}

impl Kind {
    fn is_execute(self) -> bool {
        match self {
            Kind::Single { select } | Kind::Double { select } | Kind::Setpoint { select } =>
                !select,
            Kind::Other => false,
        }
    }

    fn of(action: &Action) -> Kind {
        match action {
            Action::Single(single) => Kind::Single {
                select: single.select,
            },
            Action::Double(double) => Kind::Double {
                select: double.select,
            },
            Action::Setpoint(setpoint) => Kind::Setpoint {
                select: setpoint.select,
            },
            Action::Interrogation { .. } | Action::CounterInterrogation { .. } | Action::Read =>
                Kind::Other,
        }
    }
}

/// A reason of which the client wasn't told.
#[derive(Clone, Copy)]
struct Untold {
    /// The number of the step that is the cause, and of this reason among all.
    step: u64,
    number: u64,
    /// The command that was refused; none where an order ended.
    asked: Option<Asked>,
    reason: Reason,
}

impl Untold {
    /// Whether it comes before another one.
    fn is_before(&self, other: &Untold) -> bool {
        self.step < other.step || self.step == other.step && self.number < other.number
    }

    /// Whether it may be why this is confirmed negatively: what became of an order may, where this is an execute.
    fn fits(&self, told: Asked) -> bool {
        match self.asked {
            Some(asked) => asked == told,
            None => told.is_execute(),
        }
    }
}

/// The reasons of which a client wasn't told in this session.
#[derive(Clone, Copy)]
pub struct Reasons {
    untold: [Option<Untold>; MOST],
    /// How many reasons there were.
    count: u64,
    /// The last order of the client.
    last: u64,
    /// The last one before this session: what becomes of it isn't told.
    before: u64,
}

impl Reasons {
    /// Of a client that was never connected.
    pub fn new() -> Reasons {
        Reasons {
            untold: [None; MOST],
            count: 0,
            last: NO_ORDER,
            before: NO_ORDER,
        }
    }

    /// A session begins, or ends: nothing is owed to the client.
    pub fn clear(&mut self) {
        self.untold = [None; MOST];
        self.before = self.last;
    }

    /// A command was accepted as this order.
    pub fn accept(&mut self, order: u64) {
        self.last = self.last.max(order);
    }

    /// A command was refused by a step.
    pub fn refuse(&mut self, step: u64, command: &Command, reason: Reason) {
        self.add(step, Some(Asked::of(command)), reason);
    }

    /// An order of the client ended by a step, and wasn't done.
    pub fn fail(&mut self, step: u64, order: u64, reason: Reason) {
        if order > self.before {
            self.add(step, None, reason);
        }
    }

    /// One more; where there is no room the oldest goes.
    fn add(&mut self, step: u64, asked: Option<Asked>, reason: Reason) {
        self.count = self.count.saturating_add(1);
        let Some(place) = self.free().or(self.oldest()) else {
            return;
        };
        if let Some(untold) = self.untold.get_mut(place) {
            *untold = Some(Untold {
                step,
                number: self.count,
                asked,
                reason,
            });
        }
    }

    /// A place that is free.
    fn free(&self) -> Option<usize> {
        self.untold.iter().position(|untold| untold.is_none())
    }

    /// The place of the oldest one; of those of one step that of the first.
    fn oldest(&self) -> Option<usize> {
        let mut found: Option<(usize, Untold)> = None;
        for (place, untold) in self.untold.iter().enumerate() {
            let Some(untold) = untold else {
                continue;
            };
            match found {
                Some((_, older)) if older.is_before(untold) => {}
                _ => found = Some((place, *untold)),
            }
        }
        let (place, _) = found?;
        Some(place)
    }

    /// Why a command was confirmed negatively, of which the client is told now. The confirmations of a client go out in the
    /// order of the steps that are their causes; older ones that weren't told are forgotten.
    pub fn take(&mut self, command: &Command) -> Option<Reason> {
        let asked = Asked::of(command);
        for _ in 0..MOST {
            let place = self.oldest()?;
            let untold = self.untold.get_mut(place)?.take()?;
            if untold.fits(asked) {
                return Some(untold.reason);
            }
        }
        None
    }
}
