//! Tests of cmd_text: what a program writes at last, and its status, at ends that no run of it is sure to show.
use crate::checks::{same, same_list};
use cmd_text::{Stop, finish};
use std::test::Fail;

/// Why a program ended before its input did, and what it writes then.
const ENDS: &[(Stop, &str)] = &[(Stop::Memory, "refused memory\n"), (Stop::TooManyReads, "")];

#[test]
fn ends(rt: HostRuntime) -> Result<(), Fail> {
    for (stop, text) in ENDS {
        let mut output = Vec::new(rt.alloc());
        let status = finish(Err(*stop), &mut output);
        same_list(&rt, output.as_slice(), text.as_bytes());
        same(&rt, &status, &1);
    }
    Ok(())
}
