//! The status that a program ends with.
ghost use Rattle.std.specs.Prelude.{◌≡◌, ◌≤◌, Ok, true};
ghost use Rattle.cmd_text.specs.Status.{last_line, status};

use crate::reading::Stop;
use std::io::Write;

/// Ends a program, by whether no line was refused or why it ended before its input did: writes `refused memory` where
/// memory ran out, and flushes the writer. The status is 0 where no line was refused and all was written, else 1.
pub fn finish<W: Write + Drop>(outcome: Result<bool, Stop>, writer: W) -> u8
    ensures few { result ≤ 1 }
    ensures fine { result ≡ 0 → outcome ≡ Ok true }
{
    let mut writer = writer;
    let _ = writer.write_all(last_line(outcome));
    status_of(outcome, writer.flush().is_ok())
}

/// The line that is written at last, if any.
fn last_line(outcome: Result<bool, Stop>) -> &'static [u8]
    ensures { result.now ≡ last_line outcome }
{
    match outcome {
        Err(Stop::Memory) => b"refused memory\n",
        _ => b"",
    }
}

/// The status that a run ends with, where the writer took all of its output or not.
fn status_of(outcome: Result<bool, Stop>, is_written: bool) -> u8
    ensures { result ≡ status outcome is_written }
{
    match outcome {
        Ok(true) if is_written => 0,
        _ => 1,
    }
}
