//! What a capture is written into.

use crate::record_end::RecordEndCause;

/// What a capture goes on in where its two files have as much as they may.
pub trait Pieces<W> {
    /// Two empty files in place of those: for the lines of steps, and for those of the replies.
    fn next(&mut self) -> Result<(W, W), RecordEndCause>;

    /// Sees to it that so many octets more may be written.
    fn make_room(&mut self, octets: u64) -> Result<(), RecordEndCause>;

    /// Sees to it that what was written can still be found.
    fn look(&mut self) -> Result<(), RecordEndCause>;
}

/// Nothing: the capture ends with its first two files, of so many megabytes at most.
#[derive(Clone, Copy)]
pub struct OnePiece {
    pub megabytes: u64,
}

impl<W> Pieces<W> for OnePiece {
    fn next(&mut self) -> Result<(W, W), RecordEndCause> {
        Err(RecordEndCause::Full {
            megabytes: self.megabytes,
        })
    }

    fn make_room(&mut self, _octets: u64) -> Result<(), RecordEndCause> {
        Ok(())
    }

    fn look(&mut self) -> Result<(), RecordEndCause> {
        Ok(())
    }
}
