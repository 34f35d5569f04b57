//! What an assembler answers to a segment.

/// Why a segment was dropped.
#[derive(Clone, Copy)]
pub enum DropCause {
    /// It has no FIR, and no fragment has begun.
    Lone,
    /// It doesn't carry the next sequence number. The fragment that had begun is lost.
    Gap,
    /// With it the fragment has more than 2,048 octets. The fragment is lost.
    TooLong,
    /// It has no header, or no octet after it. A fragment that has begun stays.
    Empty,
}

/// What a segment gave.
#[derive(Drop)]
pub enum Taken {
    /// The fragment that ends with it, of 1 to 2,048 octets.
    Fragment(Vec<u8>),
    /// Its fragment goes on.
    More,
    /// Nothing.
    Dropped(DropCause),
}
