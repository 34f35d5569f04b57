//! The requests that operate an output, and the echoes that say that it was done (IEEE Std 1815, 4.4 and Annex A).
ghost use Rattle.std.specs.Prelude.{◌≡◌, ◌<◌, Some};
ghost use Rattle.dnp_app.specs.Requests.{bound_request, command_object, control_octets, function_code};
ghost use Rattle.dnp_app.specs.Requests.{group_of, octets_of, on_time, relay_code, request as request_of};
ghost use Rattle.dnp_app.specs.Operating.{operates_for, operating_of, request_intent};
ghost use Rattle.dnp_app.specs.Echo.{body_of, is_taken};

use crate::echoed::Echo;
use crate::request::{Request, control, request_from};
use gw_model::{Act, Order, Shape};

/// By which function an output is operated.
#[derive(Clone, Copy)]
pub enum Operation {
    /// SELECT: the outstation is made ready for the OPERATE that follows.
    Select,
    /// OPERATE, after a SELECT.
    Operate,
    /// DIRECT_OPERATE, alone.
    DirectOperate,
}

fn function_code(operation: Operation) -> u8
    ensures { result ≡ function_code operation }
{
    match operation {
        Operation::Select => 3,
        Operation::Operate => 4,
        Operation::DirectOperate => 5,
    }
}

fn group_of(act: Act) -> u8
    ensures { result ≡ group_of act }
{
    match act {
        Act::Switch { .. } => 12,
        Act::Set(_) => 41,
    }
}

/// The control code of a relay: LATCH_ON or LATCH_OFF, CLOSE or TRIP with PULSE_ON.
fn relay_code(on: bool, shape: Shape) -> u8
    ensures { result ≡ relay_code on shape }
{
    match shape {
        Shape::Latch => { if on { 0x03 } else { 0x04 } }
        Shape::Pulse(_) => { if on { 0x41 } else { 0x81 } }
    }
}

/// The on-time of a relay in milliseconds.
fn on_time(shape: Shape) -> u32
    ensures { result ≡ on_time shape }
{
    match shape {
        Shape::Latch => 0,
        Shape::Pulse(milliseconds) => milliseconds,
    }
}

/// A request of an operation under the sequence number that carries the control of an order.
pub fn control_request(sequence: u8, operation: Operation, order: Order) -> Request
    requires { sequence < 16 }
    ensures octets { result
        ≡ bound_request order.number (control_octets operation order.intent.index order.intent.act sequence) }
    ensures operates { operating_of (octets_of result)
        ≡ operates_for sequence operation order.intent.index order.intent.act }
    ensures intent { request_intent order.intent.outstation (octets_of result) ≡ Some order.intent }
{
    Request {
        bond: Some(order.number),
        ..request_of_act(sequence, operation, order.intent.index, order.intent.act)
    }
}

/// The request of an operation, without a number.
fn request_of_act(sequence: u8, operation: Operation, index: u16, act: Act) -> Request
    requires { sequence < 16 }
    ensures octets { result ≡ request_of (control_octets operation index act sequence) }
    ensures operates { operating_of (octets_of result) ≡ operates_for sequence operation index act }
{
    let control = control(sequence);
    let function = function_code(operation);
    let [low, high] = index.to_le_bytes();
    match act {
        Act::Switch { on, shape } => {
            let code = relay_code(on, shape);
            let [a, b, c, d] = on_time(shape).to_le_bytes();
            request_from(&[
                control, function, 12, 1, 0x28, 1, 0, low, high, code, 1, a, b, c, d, 0, 0, 0, 0, 0,
            ])
        }
        Act::Set(value) => {
            let [a, b] = value.to_le_bytes();
            request_from(&[control, function, 41, 2, 0x28, 1, 0, low, high, a, b, 0])
        }
    }
}

/// The octets of a command's object, and zeros.
fn body_of(act: Act) -> [u8; 11]
    ensures { result ≡ body_of (command_object act) }
{
    match act {
        Act::Switch { on, shape } => {
            let [a, b, c, d] = on_time(shape).to_le_bytes();
            [relay_code(on, shape), 1, a, b, c, d, 0, 0, 0, 0, 0]
        }
        Act::Set(value) => {
            let [a, b] = value.to_le_bytes();
            [a, b, 0, 0, 0, 0, 0, 0, 0, 0, 0]
        }
    }
}

impl Echo {
    /// Whether the outstation took an act on the output of an index: it gives the object back as it was sent, with
    /// status 0.
    pub fn is_taken(&self, index: u16, act: Act) -> bool
        ensures { result ≡ is_taken index act (Some self.now) }
    {
        let body = body_of(act);
        self.index == index
            && self.group == group_of(act)
            && self.status == 0
            && self.body[..] == body[..]
    }
}
