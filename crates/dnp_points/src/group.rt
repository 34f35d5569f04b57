//! What the objects of each group report.
ghost use Rattle.std.specs.Prelude.{◌≡◌};
ghost use Rattle.dnp_points.specs.Meaning.{AreFound, Adds};

use crate::analog::*;
use crate::binary::*;
use crate::counter::*;
use crate::objects::Objects;
use crate::packed::{PackedBinary, PackedDouble, PackedOutput};
use gw_model::{Memory, Report};

/// Adds what binary inputs report.
#[tactic(auto, unfolding(dnp_objects::specs::Library::object_of))]
fn push_binary_inputs(objects: &Objects<'_>, found: &mut Vec<Report>) -> Result<(), Memory>
    requires group { objects.now.header.now.group ≡ 1 }
    requires inside { AreFound objects.now }
    ensures { Adds objects.now found.old.items found.new.items result }
{
    match objects.header.variation {
        1 => objects.push_packed::<PackedBinary>(found),
        2 => objects.push_whole::<BinaryWithFlags>(found),
        _ => Ok(()),
    }
}

/// Adds what binary input events report.
#[tactic(auto, unfolding(dnp_objects::specs::Library::object_of))]
fn push_binary_events(objects: &Objects<'_>, found: &mut Vec<Report>) -> Result<(), Memory>
    requires group { objects.now.header.now.group ≡ 2 }
    requires inside { AreFound objects.now }
    ensures { Adds objects.now found.old.items found.new.items result }
{
    match objects.header.variation {
        1 => objects.push_whole::<BinaryEvent>(found),
        2 => objects.push_whole::<BinaryEventWithTime>(found),
        3 => objects.push_whole::<BinaryEventWithRelativeTime>(found),
        _ => Ok(()),
    }
}

/// Adds what double-bit binary inputs report.
#[tactic(auto, unfolding(dnp_objects::specs::Library::object_of))]
fn push_double_inputs(objects: &Objects<'_>, found: &mut Vec<Report>) -> Result<(), Memory>
    requires group { objects.now.header.now.group ≡ 3 }
    requires inside { AreFound objects.now }
    ensures { Adds objects.now found.old.items found.new.items result }
{
    match objects.header.variation {
        1 => objects.push_packed::<PackedDouble>(found),
        2 => objects.push_whole::<DoubleWithFlags>(found),
        _ => Ok(()),
    }
}

/// Adds what double-bit binary input events report.
#[tactic(auto, unfolding(dnp_objects::specs::Library::object_of))]
fn push_double_events(objects: &Objects<'_>, found: &mut Vec<Report>) -> Result<(), Memory>
    requires group { objects.now.header.now.group ≡ 4 }
    requires inside { AreFound objects.now }
    ensures { Adds objects.now found.old.items found.new.items result }
{
    match objects.header.variation {
        1 => objects.push_whole::<DoubleEvent>(found),
        2 => objects.push_whole::<DoubleEventWithTime>(found),
        3 => objects.push_whole::<DoubleEventWithRelativeTime>(found),
        _ => Ok(()),
    }
}

/// Adds what binary output status report.
#[tactic(auto, unfolding(dnp_objects::specs::Library::object_of))]
fn push_outputs(objects: &Objects<'_>, found: &mut Vec<Report>) -> Result<(), Memory>
    requires group { objects.now.header.now.group ≡ 10 }
    requires inside { AreFound objects.now }
    ensures { Adds objects.now found.old.items found.new.items result }
{
    match objects.header.variation {
        1 => objects.push_packed::<PackedOutput>(found),
        2 => objects.push_whole::<OutputWithFlags>(found),
        _ => Ok(()),
    }
}

/// Adds what binary output events report.
#[tactic(auto, unfolding(dnp_objects::specs::Library::object_of))]
fn push_output_events(objects: &Objects<'_>, found: &mut Vec<Report>) -> Result<(), Memory>
    requires group { objects.now.header.now.group ≡ 11 }
    requires inside { AreFound objects.now }
    ensures { Adds objects.now found.old.items found.new.items result }
{
    match objects.header.variation {
        1 => objects.push_whole::<OutputEvent>(found),
        2 => objects.push_whole::<OutputEventWithTime>(found),
        _ => Ok(()),
    }
}

/// Adds what counters report.
#[tactic(auto, unfolding(dnp_objects::specs::Library::object_of))]
fn push_counters(objects: &Objects<'_>, found: &mut Vec<Report>) -> Result<(), Memory>
    requires group { objects.now.header.now.group ≡ 20 }
    requires inside { AreFound objects.now }
    ensures { Adds objects.now found.old.items found.new.items result }
{
    match objects.header.variation {
        1 => objects.push_whole::<Counter32WithFlag>(found),
        2 => objects.push_whole::<Counter16WithFlag>(found),
        5 => objects.push_whole::<Counter32WithoutFlag>(found),
        6 => objects.push_whole::<Counter16WithoutFlag>(found),
        _ => Ok(()),
    }
}

/// Adds what counter events report.
#[tactic(auto, unfolding(dnp_objects::specs::Library::object_of))]
fn push_counter_events(objects: &Objects<'_>, found: &mut Vec<Report>) -> Result<(), Memory>
    requires group { objects.now.header.now.group ≡ 22 }
    requires inside { AreFound objects.now }
    ensures { Adds objects.now found.old.items found.new.items result }
{
    match objects.header.variation {
        1 => objects.push_whole::<CounterEvent32>(found),
        2 => objects.push_whole::<CounterEvent16>(found),
        5 => objects.push_whole::<CounterEvent32WithTime>(found),
        6 => objects.push_whole::<CounterEvent16WithTime>(found),
        _ => Ok(()),
    }
}

/// Adds what analog inputs report.
#[tactic(auto, unfolding(dnp_objects::specs::Library::object_of))]
fn push_analogs(objects: &Objects<'_>, found: &mut Vec<Report>) -> Result<(), Memory>
    requires group { objects.now.header.now.group ≡ 30 }
    requires inside { AreFound objects.now }
    ensures { Adds objects.now found.old.items found.new.items result }
{
    match objects.header.variation {
        1 => objects.push_whole::<Analog32WithFlag>(found),
        2 => objects.push_whole::<Analog16WithFlag>(found),
        3 => objects.push_whole::<Analog32WithoutFlag>(found),
        4 => objects.push_whole::<Analog16WithoutFlag>(found),
        _ => Ok(()),
    }
}

/// Adds what analog input events report.
#[tactic(auto, unfolding(dnp_objects::specs::Library::object_of))]
fn push_analog_events(objects: &Objects<'_>, found: &mut Vec<Report>) -> Result<(), Memory>
    requires group { objects.now.header.now.group ≡ 32 }
    requires inside { AreFound objects.now }
    ensures { Adds objects.now found.old.items found.new.items result }
{
    match objects.header.variation {
        1 => objects.push_whole::<AnalogEvent32>(found),
        2 => objects.push_whole::<AnalogEvent16>(found),
        3 => objects.push_whole::<AnalogEvent32WithTime>(found),
        4 => objects.push_whole::<AnalogEvent16WithTime>(found),
        _ => Ok(()),
    }
}

/// Adds what the objects of a header report.
#[tactic(auto, using(crate::proofs::Table::no_points))]
pub fn push_reports(objects: &Objects<'_>, found: &mut Vec<Report>) -> Result<(), Memory>
    requires inside { AreFound objects.now }
    ensures { Adds objects.now found.old.items found.new.items result }
{
    match objects.header.group {
        1 => push_binary_inputs(objects, found),
        2 => push_binary_events(objects, found),
        3 => push_double_inputs(objects, found),
        4 => push_double_events(objects, found),
        10 => push_outputs(objects, found),
        11 => push_output_events(objects, found),
        20 => push_counters(objects, found),
        22 => push_counter_events(objects, found),
        30 => push_analogs(objects, found),
        32 => push_analog_events(objects, found),
        _ => Ok(()),
    }
}
