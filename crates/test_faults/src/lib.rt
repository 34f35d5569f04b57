//! Tests of what is refused, fails or is at its end, through public calls: memory, a read, a write, a count. Those of
//! `refusals` and `cores` hold with memory and with one allocation refused, as `checks/refused_allocations` runs them.
#![tactic(auto)]

#[cfg(test)]
mod checks;
#[cfg(test)]
mod cores;
#[cfg(test)]
mod putting;
#[cfg(test)]
mod reading;
#[cfg(test)]
mod reading_ends;
#[cfg(test)]
mod refusals;
#[cfg(test)]
mod spent;
#[cfg(test)]
mod watched;
#[cfg(test)]
mod writing_ends;
