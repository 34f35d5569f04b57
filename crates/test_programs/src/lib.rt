//! Tests of the programs' crates through their public calls: words, numbers, ends and sizes that no run of the program
//! shows, what becomes of orders, and what a run is captured as. `transcripts/` and the scripts of `checks/` have what the
//! programs write for lines.
#![tactic(auto)]

#[cfg(test)]
mod capture;
#[cfg(test)]
mod checks;
#[cfg(test)]
mod controls;
#[cfg(test)]
mod ends;
#[cfg(test)]
mod hub;
#[cfg(test)]
mod orders;
#[cfg(test)]
mod replies;
#[cfg(test)]
mod text;
