//! Tests of the layers of DNP3 and IEC 60870-5-104 through their public calls, of what neither a clause nor a program
//! shows. Worked examples stand with the definitions; `checks/layers` has streams and windows at their limits.
#![tactic(auto)]

#[cfg(test)]
mod asdus;
#[cfg(test)]
mod checks;
#[cfg(test)]
mod largest;
#[cfg(test)]
mod octets;
#[cfg(test)]
mod skipped;
#[cfg(test)]
mod summer_time;
#[cfg(test)]
mod words;
