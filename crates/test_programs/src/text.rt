//! Tests of cmd_text.
use crate::checks::{same_list, same_text};
use cmd_replay::write_refusal;
use dnp_app::AppFault;
use dnp_objects::{HeaderFault, ObjectFault};
use gw_model::Memory;
use std::process::Abort;
use std::test::Fail;

const FAULTS: &[AppFault] = &[AppFault::Short, AppFault::NotResponse, AppFault::Memory];

const WHYS: &[HeaderFault] = &[
    HeaderFault::UnknownObject,
    HeaderFault::UnknownQualifier,
    HeaderFault::ShortRange,
    HeaderFault::StopBeforeStart,
    HeaderFault::ShortData,
    HeaderFault::TooMany,
    HeaderFault::Memory,
];

/// The words of a refusal are those that the fault itself is shown with.
fn check_refusal(rt: &(impl Abort + AllocGlobal), fault: AppFault) -> Result<(), Fail> {
    let mut output = Vec::new(rt.alloc());
    write_refusal(&mut output, fault)?;
    let shown = format!(in rt.alloc(); "refused {fault}\n")?;
    same_list(rt, output.as_slice(), shown.as_str().as_bytes());
    Ok(())
}

#[test]
fn refusals(rt: HostRuntime) -> Result<(), Fail> {
    for fault in FAULTS {
        check_refusal(&rt, *fault)?;
    }
    for why in WHYS {
        let fault = ObjectFault {
            why: *why,
            place: 2044,
        };
        check_refusal(&rt, AppFault::Object(fault))?;
    }
    same_text(&rt, Memory.to_string(rt.alloc())?.as_str(), "Memory");
    Ok(())
}
