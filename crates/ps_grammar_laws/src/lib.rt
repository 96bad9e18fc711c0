//! That lines of scripts and of members' texts have one grammar over nested lists, which stands on the grammar of conditions: laws above the
//! definitions of what lines are judged by.
#![tactic(auto)]

mod laws;

pub use laws::{
    grammatical_lines_are_judged, grammatical_member_lines_are_judged,
    judged_lines_are_grammatical, judged_member_lines_are_grammatical,
};
