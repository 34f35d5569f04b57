//! Tests of the server: as a whole over the loopback, through its public calls, that it serves, and ends; and that what it tells
//! is in order. `checks/serve` has what the built program does.
#![tactic(auto)]

#[cfg(test)]
mod loopback;
#[cfg(test)]
mod seen;
#[cfg(test)]
mod sequence;
