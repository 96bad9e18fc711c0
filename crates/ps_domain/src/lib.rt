//! The domain expert: what a session looks up in its domain.
#![tactic(auto)]

mod choosing;
mod counting;
mod declared;
mod expert;
mod grounding;
mod index;
mod laws;
mod listing;
mod putting;
mod refusals;

pub use counting::MOST_GROUND;
pub use declared::Declared;
pub use expert::Expert;
pub use laws::ground_actions_are_all;
pub use refusals::GroundAllRefusal;
