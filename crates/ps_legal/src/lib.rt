//! The table of events, decided over what is kept of a session.
#![tactic(auto)]

mod causes;
mod lines;
mod plans;
mod same;
mod table;

pub use lines::{accepts, acts_of, line_refusal, make_edit, refusal_of_query, refusal_of_steps};
pub use plans::{
    can_ground, ending, ground_refusal, is_good, is_plan, lacks_goal, plan_refusal, refusal_of_goal,
};
pub use same::same_unit;
pub use table::{answers_line, has_hand, is_legal};
