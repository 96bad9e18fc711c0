//! The states of acts, and the statuses of nodes of a plan's tree.

/// How an act fares.
#[derive(Clone, Copy, PartialEq, Eq, Debug)]
pub enum ActState {
    /// It has not begun.
    Waiting,
    /// It has begun.
    Active,
    /// It has ended well.
    Done,
    /// It has failed.
    Failed,
    /// It was cancelled.
    Cancelled,
}

/// How a node of a tree fares.
#[derive(Clone, Copy, PartialEq, Eq, Debug)]
pub enum Status {
    /// An act that waits.
    Idle,
    /// Neither a success nor a failure yet.
    Running,
    /// It has ended well.
    Success,
    /// It has failed.
    Failure,
}
