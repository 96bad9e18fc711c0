//! The ground actions of a problem, prepared over its atoms, without those that lead nowhere.
#![tactic(auto)]

mod acts;
mod atoms;
mod fits;
mod fixed;
mod footprints;
mod grounds;
mod light;
mod prepared;
mod useful;

pub use atoms::Atoms;
pub use footprints::Footprint;
pub use grounds::Grounds;
pub use prepared::{Change, Prepared, Test, prepare_goal};
