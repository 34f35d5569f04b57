//! Numbered information transfer of IEC 60870-5-104 for one end of a connection: the sequence numbers
//! N(S) and N(R), the windows k and w, and the timers t1, t2 and t3.
#![tactic(auto)]

mod due;
pub mod examples;
mod fault;
pub mod laws;
mod limits;
mod window;

pub use due::Due;
pub use fault::WindowFault;
pub use limits::Limits;
pub use window::Window;
