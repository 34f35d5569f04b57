//! What the log is made of.

/// A step in the log. Cells go by their keys.
pub enum Link<E> {
    /// A lane was begun: its number, its first cell, and the cell that the end's next step brings home.
    Begun(u64, u64, u64),
    /// A lane may visit the end once more: its number, and the cell that its next turn brings home.
    Turn(u64, u64),
    /// A lane visited the end: its number, the entry that it added, if any, and the cell that the end's next step
    /// brings home.
    Visited(u64, Option<E>, u64),
}
