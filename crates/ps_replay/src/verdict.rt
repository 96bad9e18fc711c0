//! What the entries of a journal are judged to be.

/// What a journal is judged to be.
#[derive(Clone, Copy)]
pub enum Verdict {
    /// A whole history.
    Legal,
    /// None. So many of its first entries are a prefix of a history, and no more are: the number of all where they are one, but cancels are due
    /// after them, lines are left, or a run is open.
    Illegal { at: usize },
}
