//! What a command asks of an outstation, by its control.
ghost use Rattle.std.specs.Prelude.{◌≡◌};
ghost use Rattle.gw_control.specs.Controls.{element_refusal};
ghost use Rattle.gw_control.specs.Intents.{act_of, control_for, is_of_type, shape_of, state_of, switched, value_of};

use crate::refusal::Refusal;
use gw_map::{Control, Operates, Pulses, Rest, Scale, Settings};
use gw_model::{Act, Shape};
use iec_command::{Action, Command};

/// The control that a command is for, with its position: it has the addresses, and is operated by the type.
pub fn control_for(command: &Command, settings: &Settings) -> Option<(usize, Control)>
    ensures { result ≡ control_for settings.now command.now }
{
    let (position, control) = settings.control_at(command.common_address, command.address)?;
    if is_of_type(&command.action, &control.operates) {
        Some((position, *control))
    } else {
        None
    }
}

/// Whether a control that operates so is operated by a type.
fn is_of_type(action: &Action, operates: &Operates) -> bool
    ensures { result ≡ is_of_type action.now operates.now }
{
    match (action, operates) {
        (Action::Single(_), Operates::Single(_)) => true,
        (Action::Double(_), Operates::Double(_)) => true,
        (Action::Setpoint(_), Operates::Setpoint(_)) => true,
        _ => false,
    }
}

/// What a command does to a control that operates so; nothing where its element isn't permitted, or where a set point
/// leaves 16 bits.
pub(crate) fn act_of(action: &Action, operates: &Operates) -> Option<Act>
    ensures { result ≡ act_of action.now operates.now }
{
    match (action, operates) {
        (Action::Single(command), Operates::Single(pulses)) => {
            switch_of(command.on, command.qualifier, pulses)
        }
        (Action::Double(command), Operates::Double(pulses)) => {
            switch_of(state_of(command.state)?, command.qualifier, pulses)
        }
        (Action::Setpoint(command), Operates::Setpoint(scale)) if command.qualifier == 0 => {
            Some(Act::Set(value_of(command.value, scale)?))
        }
        _ => None,
    }
}

/// Why a command does nothing to a control that operates so.
pub(crate) fn element_refusal(action: &Action, operates: &Operates) -> Refusal
    ensures { result ≡ element_refusal action.now operates.now }
{
    match (action, operates) {
        (Action::Double(command), Operates::Double(_)) if state_of(command.state).is_none() => {
            Refusal::NoState
        }
        (Action::Setpoint(command), Operates::Setpoint(_)) if command.qualifier == 0 => {
            Refusal::OutOfRange
        }
        _ => Refusal::Qualifier,
    }
}

fn switch_of(on: bool, qualifier: u8, pulses: &Pulses) -> Option<Act>
    ensures { result ≡ switched on qualifier pulses.now }
{
    let shape = shape_of(qualifier, pulses)?;
    Some(Act::Switch { on, shape })
}

/// The state that a DCS asks for: 1 off, 2 on (IEC 60870-5-101, 7.2.6.16).
fn state_of(state: u8) -> Option<bool>
    ensures { result ≡ state_of state }
{
    match state {
        1 => Some(false),
        2 => Some(true),
        _ => None,
    }
}

/// How a switch is operated by a QU (IEC 60870-5-101, 7.2.6.26).
fn shape_of(qualifier: u8, pulses: &Pulses) -> Option<Shape>
    ensures { result ≡ shape_of qualifier pulses.now }
{
    match (qualifier, pulses.rest) {
        (0, Rest::Latch) => Some(Shape::Latch),
        (0, Rest::Short) => Some(Shape::Pulse(pulses.short_ms)),
        (1, _) => Some(Shape::Pulse(pulses.short_ms)),
        (2, _) => Some(Shape::Pulse(pulses.long_ms)),
        (3, _) => Some(Shape::Latch),
        _ => None,
    }
}

/// A set point multiplied by a scale, if that has 16 bits.
#[tactic(auto, using(crate::proofs::Bits::fitting, crate::proofs::Bits::unfitting))]
fn value_of(value: i16, scale: &Scale) -> Option<i16>
    ensures { result ≡ value_of value scale.now }
{
    let scaled = scale.apply(i32::from(value));
    if scaled < -32768 || scaled > 32767 {
        None
    } else {
        Some(scaled as i16)
    }
}
