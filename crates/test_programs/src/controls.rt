//! The core's part for controls, where there is memory: copies of hubs with orders go on as these do.
use crate::checks::{same, same_list};
use cmd_capture::{Instruction, push_reply, read_instruction};
use gw_control::Controls;
use gw_hub::{Hub, Machine};
use gw_map::{DEFAULT_SETTINGS, Settings};
use std::alloc::Global;
use std::fmt::Write;
use std::process::Abort;
use std::test::Fail;

/// Settings with as many controls as there may be.
fn settings_of_all(alloc: Global) -> Result<Settings, Fail> {
    let mut text = String::new(alloc);
    write!(
        text,
        "[station]\ncommon_address = 1\n[[outstation]]\naddress = 1\n"
    )?;
    for n in 1..20_001_u32 {
        write_control(&mut text, n)?;
    }
    Ok(Settings::read(alloc, text.as_str())?)
}

/// Adds a control with this index and address.
fn write_control(text: &mut String, n: u32) -> Result<(), Fail> {
    write!(
        text,
        "[[control]]\noutstation = 0\nshow = \"single\"\nindex = {n}\naddress = {n}\n"
    )?;
    Ok(())
}

/// How many orders a copy of new controls has taken.
fn orders_of_a_copy(alloc: Global) -> Result<u64, Fail> {
    let settings = settings_of_all(alloc)?;
    let controls = Controls::new(alloc, &settings)?;
    Ok(controls.copy()?.ordered())
}

#[test]
fn controls_find_room(rt: HostRuntime) -> Result<(), Fail> {
    same(&rt, &orders_of_a_copy(rt.alloc())?, &0);
    Ok(())
}

/// A client sets 5002 twice: SELECT for the first order is under way, and the second one waits.
const ORDERED: &str = "up 0 0
poll 0 0 0
frag 0 0 C0 81 00 00
open 0 0
frame 0 0 68 04 07 00 00 00
frame 0 0 68 10 00 00 00 00 31 01 06 00 01 00 8A 13 00 E8 03 00
poll 0 0 0
frame 0 0 68 10 02 00 00 00 31 01 06 00 01 00 8A 13 00 E9 03 00";

/// OPERATE follows, and then SELECT for the second order.
const NEXT: &str = "frag 0 0 C1 81 00 00 29 02 28 01 00 04 00 E8 03 00
poll 0 0 0
frag 0 0 C2 81 00 00 29 02 28 01 00 04 00 E8 03 00
poll 0 0 0";

const REPLIES: &str = "accepted end
request C2 04 29 02 28 01 00 04 00 E8 03 00
accepted end
request C3 03 29 02 28 01 00 04 00 E9 03 00
";

/// A hub as it is at first.
fn hub_at_first<R: Abort + AllocGlobal>(rt: &R) -> Hub {
    let settings = Settings::read(rt.alloc(), DEFAULT_SETTINGS).expect(rt, "settings");
    Hub::new(rt.alloc(), settings).expect(rt, "memory")
}

/// Makes the step that a line asks for, and adds the reply as a line.
fn make<R: Abort + AllocGlobal>(rt: &R, hub: &mut Hub, line: &str, text: &mut Vec<u8>) {
    match read_instruction(rt.alloc(), line.as_bytes()) {
        Ok(Some(Instruction::Make(step))) => {
            push_reply(text, hub.step(&step)).expect(rt, "memory");
        }
        _ => rt.panic("a line is no step"),
    }
}

/// What the steps of these lines are answered, a line each.
fn replies_of<R: Abort + AllocGlobal>(rt: &R, hub: &mut Hub, lines: &str) -> Vec<u8> {
    let mut text = Vec::new(rt.alloc());
    for line in lines.lines() {
        make(rt, hub, line, &mut text);
    }
    text
}

/// A hub with an order under way, and one that waits.
fn hub_with_orders<R: Abort + AllocGlobal>(rt: &R) -> Hub {
    let mut hub = hub_at_first(rt);
    replies_of(rt, &mut hub, ORDERED);
    hub
}

/// A copy of a hub with orders goes on as that does.
fn check_next<R: Abort + AllocGlobal>(rt: &R, copy: Hub) {
    let mut copy = copy;
    let replies = replies_of(rt, &mut copy, NEXT);
    same_list(rt, replies.as_slice(), REPLIES.as_bytes());
    drop(copy);
}

#[test]
fn a_copy_keeps_orders(rt: HostRuntime) {
    let hub = hub_with_orders(&rt);
    check_next(&rt, hub.copy().expect(&rt, "memory"));
    drop(hub);
}

/// A hub with orders is copied over a spare one.
fn check_copy_over<R: Abort + AllocGlobal>(rt: &R, spare: Hub) {
    let hub = hub_with_orders(rt);
    check_next(rt, hub.copy_over(spare).expect(rt, "memory"));
    drop(hub);
}

#[test]
fn a_copy_over_another_hub_keeps_orders(rt: HostRuntime) {
    check_copy_over(&rt, hub_at_first(&rt));
}

#[test]
fn a_copy_over_a_hub_with_orders_keeps_orders(rt: HostRuntime) {
    check_copy_over(&rt, hub_with_orders(&rt));
}
