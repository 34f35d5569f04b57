//! Tests of cmd_replay: words and numbers that no transcript shows.
use crate::checks::same_list;
use cmd_capture::push_reply;
use run_shared::{Reply, StepFault, Why};
use std::test::Fail;

#[test]
fn replies(rt: HostRuntime) -> Result<(), Fail> {
    let replies = [
        Ok(Reply::Closed(Why::Timer)),
        Ok(Reply::Ticked { closed: 0x91 }),
        Err(StepFault::Memory),
        Err(StepFault::Spent),
    ];
    let mut text = Vec::new(rt.alloc());
    for reply in replies {
        push_reply(&mut text, reply)?;
    }
    let want = b"closed Timer\nticked 0 4 7\nfault 5 Memory\nfault 6 Spent\n";
    same_list(&rt, text.as_slice(), want.as_slice());
    Ok(())
}
