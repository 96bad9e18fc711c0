//! What may happen while the solver is asked for a plan: laws of histories for who takes its answer later.
#![tactic(auto)]

mod laws;

pub use laws::{
    asked_for_good, edits_are_made, knowledge_decides, only_edits_count, others_leave, still_asked,
};
