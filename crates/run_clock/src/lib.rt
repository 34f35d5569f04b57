//! What threads go by: the time, for them and of the system; and a bell, which tells how often it was rung and on which a
//! thread can wait.
#![tactic(auto)]

mod bell;
mod system_clock;
mod times;

pub use bell::Bell;
pub use system_clock::SystemClock;
pub use times::Clock;
