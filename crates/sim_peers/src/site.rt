//! The settings of the gateway that is played.

use crate::scenario::{Number, Scenario};
use std::alloc::{AllocError, Global};
use std::fmt::Write;

/// The link address of the master.
pub const MASTER: u16 = 1024;

/// The link address of the first outstation, and the common address of its points. Those of the others follow.
pub const FIRST_LINK: u16 = 10;

pub const FIRST_COMMON: u16 = 101;

/// The object addresses of the first point and of the first control of each outstation.
pub const FIRST_POINT: u64 = 1000;

pub const FIRST_CONTROL: u64 = 5000;

/// The text of the settings. All outstations have the same object addresses, each under a common address of its own.
pub fn settings_of(alloc: Global, scenario: &Scenario) -> Result<String, AllocError> {
    let mut text = String::new(alloc);
    push_station(&mut text, scenario)?;
    for outstation in 0..scenario.outstations() {
        push_outstation(&mut text, scenario, outstation)?;
    }
    for outstation in 0..scenario.outstations() {
        for point in 0..scenario.points() {
            push_point(&mut text, outstation, point)?;
        }
        for control in 0..scenario.controls() {
            push_control(&mut text, scenario, outstation, control)?;
        }
    }
    Ok(text)
}

/// A key with a number.
fn push_key(text: &mut String, key: &str, number: u64) -> Result<(), AllocError> {
    writeln!(text, "{key} = {number}")
}

/// A key with a word.
fn push_word(text: &mut String, key: &str, word: &str) -> Result<(), AllocError> {
    writeln!(text, "{key} = {word}")
}

/// A key that is true or false.
fn push_flag(text: &mut String, key: &str, number: u64) -> Result<(), AllocError> {
    push_word(text, key, if number == 0 { "false" } else { "true" })
}

fn push_station(text: &mut String, scenario: &Scenario) -> Result<(), AllocError> {
    text.push_str("[station]\n")?;
    push_key(text, "common_address", 100)?;
    push_key(text, "k", scenario.of(Number::K))?;
    push_key(text, "w", scenario.w())?;
    push_key(text, "t1_ms", scenario.of(Number::T1Ms))?;
    push_key(text, "t2_ms", scenario.t2_ms())?;
    push_key(text, "t3_ms", scenario.of(Number::T3Ms))?;
    push_key(text, "queue", scenario.of(Number::Queue))
}

fn push_outstation(
    text: &mut String,
    scenario: &Scenario,
    outstation: u64,
) -> Result<(), AllocError> {
    text.push_str("[[outstation]]\n")?;
    push_key(
        text,
        "address",
        u64::from(FIRST_LINK).saturating_add(outstation),
    )?;
    push_key(
        text,
        "common_address",
        u64::from(FIRST_COMMON).saturating_add(outstation),
    )?;
    push_key(text, "poll_ms", scenario.poll_ms())?;
    push_key(text, "integrity_ms", scenario.of(Number::IntegrityMs))?;
    push_key(text, "response_ms", scenario.of(Number::ResponseMs))?;
    push_flag(text, "unsolicited", scenario.of(Number::Unsolicited))?;
    push_flag(text, "lan_time", 1)
}

fn push_point(text: &mut String, outstation: u64, point: u64) -> Result<(), AllocError> {
    text.push_str("[[point]]\n")?;
    push_key(text, "outstation", outstation)?;
    push_word(text, "kind", "\"analog\"")?;
    push_word(text, "show", "\"word\"")?;
    push_key(text, "index", point)?;
    push_key(text, "address", FIRST_POINT.saturating_add(point))
}

fn push_control(
    text: &mut String,
    scenario: &Scenario,
    outstation: u64,
    control: u64,
) -> Result<(), AllocError> {
    text.push_str("[[control]]\n")?;
    push_key(text, "outstation", outstation)?;
    push_word(text, "show", show_of(control))?;
    push_key(text, "index", control)?;
    push_key(text, "address", FIRST_CONTROL.saturating_add(control))?;
    push_flag(text, "select", scenario.of(Number::Select))?;
    let mode = if scenario.of(Number::Sbo) == 0 {
        "\"direct\""
    } else {
        "\"sbo\""
    };
    push_word(text, "mode", mode)
}

/// How a control is shown: every third is a single command, a double command, a set point.
fn show_of(control: u64) -> &'static str {
    match control % 3 {
        0 => "\"single\"",
        1 => "\"double\"",
        _ => "\"setpoint\"",
    }
}
