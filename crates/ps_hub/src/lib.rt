//! Reports beside the turn: each performer sends what it does over a belt, without waiting for its turn, and one tray gathers it.
//!
//! The belt is a queue of reports. Five kinds of step change it, and no others: it is opened with its tray; a desk is dealt from the
//! tray; a desk pushes a report; the tray pops the oldest; a desk is joined to the tray. While desks send and the tray drains, each from
//! a thread of its own, no report is lost, doubled or changed. Nothing is promised of progress, nor that a report is sent at all.
#![tactic(auto)]

mod belt;
mod closing;
mod desk;
mod locked;
mod look;
mod opening;
mod report;
mod rule;
mod tray;
mod view;

pub use belt::Belt;
pub use desk::{Desk, Sent};
pub use locked::{Pile, Post, posts};
pub use look::{Look, NoLook};
pub use report::Report;
pub use tray::Tray;
