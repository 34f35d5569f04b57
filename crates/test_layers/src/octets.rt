//! A response that comes octet by octet, through all layers.

use crate::checks::{same, same_list};
use dnp_receive::responses_of;
use std::test::Fail;

/// A frame from address 1 to 1024, with a response in one segment: a binary input event with its time.
const FRAME: &[u8] = &[
    0x05, 0x64, 0x16, 0x44, 0x00, 0x04, 0x01, 0x00, 0x2A, 0xF1, //
    0xC0, 0xE3, 0x81, 0x02, 0x00, 0x02, 0x02, 0x17, 0x01, 0x05, 0x81, 0x00, 0x68, 0xE5, 0xCF, 0x8B,
    0x94, 0x03, //
    0x01, 0xA1, 0xC9,
];

const RESPONSE: &[u8] = &[
    0xE3, 0x81, 0x02, 0x00, 0x02, 0x02, 0x17, 0x01, 0x05, 0x81, 0x00, 0x68, 0xE5, 0xCF, 0x8B, 0x01,
];

#[test]
fn octet_by_octet(rt: HostRuntime) -> Result<(), Fail> {
    let mut pieces = Vec::new(rt.alloc());
    for octet in FRAME.chunks(1) {
        pieces.push(octet)?;
    }
    let responses = responses_of(rt.alloc(), 7, pieces.as_slice(), 1024, 1)?;
    same(&rt, &responses.len(), &1);
    for response in &responses {
        same(&rt, &response.outstation(), &7);
        same_list(&rt, response.octets(), RESPONSE);
        same(&rt, &response.reports().len(), &1);
    }
    Ok(())
}
