//! Two at once.
ghost use Rattle.std.specs.Thread.{IsSend};

use std::sync::Wait;
use std::thread::{self, Threads};

/// Does both at once, the first in a thread of its own, until both have ended. If no thread can be made, `refused` is told, and
/// then the second is done before the first. What they gave, and whether a thread was made.
pub fn beside<
    R: Threads + Wait,
    X: Send + Drop,
    Y: Drop,
    F: FnOnce() -> X + Send + Drop,
    E: FnOnce(),
    H: FnOnce() -> Y,
>(rt: &R, first: F, refused: E, second: H) -> (X, Y, bool)
    requires first { F.pre first }
    requires refused { E.pre refused }
    requires second { H.pre second }
{
    thread::scope(
        thread::scope_env(),
        rt,
        move |scope| -> (X, Y, bool)
            requires { IsSend X.row × IsSend F.row × F.pre first × E.pre refused × H.pre second }
        {
            match scope.spawn(first) {
                Ok(thread) => {
                    let given = second();
                    (thread.join(rt), given, true)
                }
                Err(none) => {
                    refused();
                    let given = second();
                    ((none.value)(), given, false)
                }
            }
        },
    )
}
