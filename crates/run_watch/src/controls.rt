//! What an operator is told of controls: each command that comes, what the client is told of it, each request that is
//! given for it, and what becomes of it.

use iec_apci::Apdus;
use iec_command::Command;
use iec_command::causes::{ACTIVATION_CONFIRMATION, DEACTIVATION_CONFIRMATION};
use run_clock::Clock;
use run_journal::{CommandEvent, JournalEvent, OrderEvent, Reason};
use run_peers::Reporter;
use run_shared::{ApduKind, Effects, Fate, OrderEnd, Pumps, Reply, StepKind, order_accepted};
use std::sync::Wait;

/// The octets in front of an ASDU in its APDU.
const FRONT: usize = 6;

/// Tells what a step did with a control, if it did something.
pub fn tell_of_controls<R: Wait, C: Clock>(
    reporter: &Reporter<'_, R, C>,
    kind: StepKind,
    reply: &Reply,
    effects: &Effects,
) {
    match (kind, reply) {
        (StepKind::Frame(client), _) => {
            if let Some(ApduKind::Command(command)) = effects.apdu() {
                let order = order_accepted(effects);
                tell_command(reporter, client, command, CommandEvent::Came { order });
            }
        }
        (StepKind::Poll(outstation), Reply::Request(request)) => {
            if let Some(order) = request.bond {
                // The command comes first, and what became of the order before.
                reporter.peers.sequence.settle(reporter.rt);
                tell_order(reporter, outstation, order, OrderEvent::Given(*request));
            }
        }
        _ => {}
    }
}

/// Notes what a client is to be told of the command that came by the step of this number, if one did: that it is an order, or
/// why it is refused.
pub fn note_refusal<R: Wait, C: Clock>(
    reporter: &Reporter<'_, R, C>,
    step: u64,
    client: u8,
    effects: &Effects,
) {
    let (Some(record), Some(judged)) = (reporter.peers.client(client), effects.command()) else {
        return;
    };
    if let Some(order) = order_accepted(effects) {
        record.reasons.lock(reporter.rt).accept(order);
    } else if let Some(refusal) = judged.refusal {
        record.figures.lock(reporter.rt).note_refusal(refusal);
        let (mut reasons, reason) = (record.reasons.lock(reporter.rt), Reason::Refused(refusal));
        reasons.refuse(step, &judged.command, reason);
    }
}

/// Notes why an order failed, for when its client is told.
fn note_failure<R: Wait, C: Clock>(reporter: &Reporter<'_, R, C>, step: u64, end: &OrderEnd) {
    if let Fate::Done | Fate::LetGo = end.fate {
        return;
    }
    if let Some(record) = reporter.peers.client(end.client) {
        let (mut reasons, reason) = (record.reasons.lock(reporter.rt), Reason::Ended(end.fate));
        reasons.fail(step, end.order, reason);
    }
}

/// Tells what a client is told of its commands for controls by pumps, behind what led to that.
pub fn tell_of_commands<R: Wait, C: Clock>(reporter: &Reporter<'_, R, C>, pumps: &Pumps<'_>) {
    let mut is_settled = false;
    for apdu in Apdus(pumps.apdus) {
        if let Some(command) = command_in(apdu) {
            if !is_settled {
                reporter.peers.sequence.settle(reporter.rt);
                is_settled = true;
            }
            let reason = reason_of(reporter, pumps.client, &command);
            tell_command(
                reporter,
                pumps.client,
                command,
                CommandEvent::Told { reason },
            );
        }
    }
}

/// Why a command is confirmed negatively to a client, if it is, and if that is known.
fn reason_of<R: Wait, C: Clock>(
    reporter: &Reporter<'_, R, C>,
    client: u8,
    told: &Command,
) -> Option<Reason> {
    match told.cause {
        ACTIVATION_CONFIRMATION | DEACTIVATION_CONFIRMATION if told.negative => {}
        _ => return None,
    }
    reporter
        .peers
        .client(client)?
        .reasons
        .lock(reporter.rt)
        .take(told)
}

/// Tells what happened with a command of a client.
fn tell_command<R: Wait, C: Clock>(
    reporter: &Reporter<'_, R, C>,
    client: u8,
    command: Command,
    what: CommandEvent,
) {
    let Some(record) = reporter.peers.client(client) else {
        return;
    };
    let address = record.figures.lock(reporter.rt).address;
    if let Some(address) = address {
        reporter.tell(JournalEvent::Command {
            client,
            address,
            command,
            what,
        });
    }
}

/// Tells what happened with an order to an outstation.
fn tell_order<R: Wait, C: Clock>(
    reporter: &Reporter<'_, R, C>,
    outstation: u8,
    order: u64,
    what: OrderEvent,
) {
    reporter.tell(JournalEvent::Order {
        outstation,
        order,
        what,
    });
}

/// Tells how an order ended by the step of this number.
pub fn tell_end<R: Wait, C: Clock>(reporter: &Reporter<'_, R, C>, step: u64, end: &OrderEnd) {
    note_failure(reporter, step, end);
    let outstation = u8::try_from(end.outstation).unwrap_or(u8::MAX);
    tell_order(reporter, outstation, end.order, OrderEvent::Ended(end.fate));
}

/// The command for a control in an APDU, if there is one.
fn command_in(apdu: &[u8]) -> Option<Command> {
    match ApduKind::of_asdu(apdu.get(FRONT..)?) {
        ApduKind::Command(command) => Some(command),
        _ => None,
    }
}
