//! Tests of the shared core, its recorder and the workers round it, through their public calls: what steps of several actors
//! are answered, how they are kept, whom they wake, and when a fragment is too much; that workers end, what they hand over,
//! and that they go on beside one another. No contract tells of these.
#![tactic(auto)]

#[cfg(test)]
mod checks;
#[cfg(test)]
mod conversations;
#[cfg(test)]
mod held;
#[cfg(test)]
mod kept;
#[cfg(test)]
mod recorder;
#[cfg(test)]
mod sent;
#[cfg(test)]
mod served;
#[cfg(test)]
mod telling;
#[cfg(test)]
mod workers;
