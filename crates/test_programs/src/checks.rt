//! What tests compare with. A call is proved in a moment, where all that `assert_eq!` writes out would be proved anew at
//! each place.

use std::fmt::Debug;
use std::process::Abort;

/// What was found is what was wanted; else the test ends, and shows both.
pub fn same<T: PartialEq + Debug>(rt: &impl Abort, found: &T, wanted: &T) {
    assert_eq!(rt; found, wanted);
}

/// What was found is what was wanted, of a type that has no words for a test to show.
pub fn alike<T: PartialEq>(rt: &impl Abort, found: &T, wanted: &T) {
    assert!(rt; found == wanted);
}

/// The text that was found is the one that was wanted.
pub fn same_text(rt: &impl Abort, found: &str, wanted: &str) {
    assert_eq!(rt; found, wanted);
}

/// The list that was found is the one that was wanted.
pub fn same_list<T: PartialEq + Debug>(rt: &impl Abort, found: &[T], wanted: &[T]) {
    assert_eq!(rt; found, wanted);
}
