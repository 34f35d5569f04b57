//! What a link drops of a frame whose header is wrong, octet by octet.

use crate::checks::same_list;
use dnp_link::LinkEvent;
use dnp_link::laws::events_of;
use std::process::Abort;
use std::test::Fail;

/// CONTROL C0 to address 1 from 1024, with LENGTH 4.
const SHORT_LENGTH: &[u8] = &[0x05, 0x64, 0x04, 0xC0, 0x01, 0x00, 0x00, 0x04, 0xE9, 0x21];

/// The numbers of reasons: LENGTH is below 5, and behind that no frame begins.
const REASONS: &[u8] = &[2, 1, 1, 1, 1, 1, 1, 1, 1, 1];

#[test]
fn length_below_five(rt: HostRuntime) -> Result<(), Fail> {
    let mut reasons = Vec::new(rt.alloc());
    for event in &events_of(rt.alloc(), &[SHORT_LENGTH])? {
        match event {
            LinkEvent::Skipped(reason) => reasons.push(*reason as u8)?,
            LinkEvent::Frame(_) => rt.panic("a frame"),
        }
    }
    same_list(&rt, reasons.as_slice(), REASONS);
    Ok(())
}
