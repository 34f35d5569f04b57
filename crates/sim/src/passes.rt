//! The passes of workers.

use crate::scene::{Pair, Part};
use run_shared::{Course, Pass};

/// The passes of a connection's workers.
#[derive(Drop)]
pub struct TwoPasses<L: Course> {
    pub reader: Pass<L>,
    pub writer: Pass<L>,
}

impl<L: Course> TwoPasses<L> {
    /// Adds them to others.
    pub fn give(self, passes: &mut Vec<Pass<L>>) {
        let TwoPasses { reader, writer } = self;
        let _ = passes.push(reader);
        let _ = passes.push(writer);
    }
}

/// The last two passes, if there are as many.
pub fn two_of<L: Course>(passes: &mut Vec<Pass<L>>) -> Option<TwoPasses<L>> {
    let reader = passes.pop()?;
    let writer = passes.pop()?;
    Some(TwoPasses { reader, writer })
}

/// Workers that give their passes back.
pub trait Workers<L: Course>: Part {
    /// Adds the passes to others.
    fn give(self, passes: &mut Vec<Pass<L>>);
}

impl<L: Course, A: Workers<L>, B: Workers<L>> Workers<L> for Pair<A, B> {
    fn give(self, passes: &mut Vec<Pass<L>>) {
        let Pair { first, second } = self;
        first.give(passes);
        second.give(passes);
    }
}

impl<L: Course, P: Workers<L> + Drop> Workers<L> for Vec<P> {
    fn give(self, passes: &mut Vec<Pass<L>>) {
        for part in self {
            part.give(passes);
        }
    }
}
