//! The planning machine of one thread: what it knows and its journal, to which each call appends one legal block or nothing.
#![tactic(auto)]

mod blocks;
mod board;
mod commands;
mod submits;
mod ticks;
mod touched;
mod turns;
mod watching;
mod whole;
mod works;

pub use board::{Board, GrantBack, Shown};
pub use commands::Next;
pub use submits::Submitted;
pub use ticks::{Snapshot, Ticked};
pub use turns::Step;
pub use whole::Parts;
pub use works::{Grant, Turn};
