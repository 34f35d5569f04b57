//! The numbers and words of faults.
use crate::checks::{same, same_text};
use dnp_app::AppFault;
use dnp_link::SkipReason;
use dnp_objects::{HeaderFault, ObjectFault};
use iec_apci::ApciFault;
use iec_asdu::AsduFault;
use iec_window::WindowFault;
use std::fmt::Display;
use std::process::Abort;
use std::test::Fail;

/// A fault is shown so.
fn check_words<F: Display>(
    rt: &(impl Abort + AllocGlobal),
    fault: &F,
    wanted: &str,
) -> Result<(), Fail> {
    let shown = format!(in rt.alloc(); "{fault}")?;
    same_text(rt, shown.as_str(), wanted);
    Ok(())
}

const OBJECT_FAULTS: &[(HeaderFault, &str)] = &[
    (
        HeaderFault::UnknownObject,
        "3 Object 1 UnknownObject at 2044",
    ),
    (
        HeaderFault::UnknownQualifier,
        "3 Object 2 UnknownQualifier at 2044",
    ),
    (HeaderFault::ShortRange, "3 Object 3 ShortRange at 2044"),
    (
        HeaderFault::StopBeforeStart,
        "3 Object 4 StopBeforeStart at 2044",
    ),
    (HeaderFault::ShortData, "3 Object 5 ShortData at 2044"),
    (HeaderFault::TooMany, "3 Object 6 TooMany at 2044"),
    (HeaderFault::Memory, "3 Object 7 Memory at 2044"),
];

const APP_FAULTS: &[(AppFault, &str)] = &[
    (AppFault::Short, "1 Short"),
    (AppFault::NotResponse, "2 NotResponse"),
    (AppFault::Memory, "4 Memory"),
];

const ASDU_FAULTS: &[(AsduFault, u8, &str)] = &[
    (AsduFault::Short, 1, "1 Short"),
    (AsduFault::Long, 2, "2 Long"),
    (AsduFault::UnknownType, 3, "3 UnknownType"),
    (AsduFault::ZeroObjects, 4, "4 ZeroObjects"),
    (AsduFault::Reserved, 5, "5 Reserved"),
    (AsduFault::Tag, 6, "6 Tag"),
    (AsduFault::Memory, 7, "7 Memory"),
];

const APCI_FAULTS: &[(ApciFault, u8, &str)] = &[
    (ApciFault::Start, 1, "1 Start"),
    (ApciFault::Length, 2, "2 Length"),
    (ApciFault::Control, 3, "3 Control"),
];

const WINDOW_FAULTS: &[(WindowFault, &str)] = &[
    (WindowFault::WrongSend, "1 WrongSend"),
    (WindowFault::WrongReceive, "2 WrongReceive"),
];

/// Each reason to skip an octet of a link has its number.
const REASONS: &[(SkipReason, u8)] = &[
    (SkipReason::BadStart, 1),
    (SkipReason::BadLength, 2),
    (SkipReason::BadHeaderCrc, 3),
    (SkipReason::BadBlockCrc, 4),
];

#[test]
fn words_of_faults_of_fragments(rt: HostRuntime) -> Result<(), Fail> {
    for (why, text) in OBJECT_FAULTS {
        let fault = ObjectFault {
            why: *why,
            place: 2044,
        };
        check_words(&rt, &AppFault::Object(fault), text)?;
    }
    for (fault, text) in APP_FAULTS {
        check_words(&rt, fault, text)?;
    }
    Ok(())
}

#[test]
fn words_and_numbers_of_faults_of_apdus(rt: HostRuntime) -> Result<(), Fail> {
    for (fault, number, text) in ASDU_FAULTS {
        same(&rt, &(*fault as u8), number);
        check_words(&rt, fault, text)?;
    }
    for (fault, number, text) in APCI_FAULTS {
        same(&rt, &(*fault as u8), number);
        check_words(&rt, fault, text)?;
    }
    Ok(())
}

#[test]
fn words_of_faults_of_windows_and_numbers_of_reasons(rt: HostRuntime) -> Result<(), Fail> {
    for (fault, text) in WINDOW_FAULTS {
        check_words(&rt, fault, text)?;
    }
    for (why, number) in REASONS {
        same(&rt, &(*why as u8), number);
    }
    Ok(())
}
