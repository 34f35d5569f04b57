//! Between which lines allocations are refused to a test, and how often a call told of it.

use std::io::Print;
use std::process::Abort;

/// From here on allocations count.
pub fn begin<R: Print + Abort>(rt: &R) {
    println!(rt; "begins").expect(rt, "standard output");
}

/// From here on they count no more; so many calls were refused memory.
pub fn end<R: Print + Abort>(rt: &R, refused: usize) {
    println!(rt; "ends, {refused} refused").expect(rt, "standard output");
}
