//! Reasons, for people: why edits, acts, plans and members are refused, which part of a condition is false, and why there is no plan.
#![tactic(auto)]

mod answers;
mod causes;
mod conditions;
mod members;
mod plans;
mod spots;

pub use answers::say_no_answer;
pub use causes::{
    Kind, blamed_by_act, edit_of, kind_of_edit, say_edit, say_effect, say_ground, say_how_set,
    say_meant,
};
pub use conditions::say_false_of;
pub use members::{may_be_asked, name_of, say_idle, say_member_fault, say_performers};
pub use plans::{PlanText, ground_of, make, say_act, say_plan_fault, say_text_fault};
pub use spots::{spot_of_act, spot_of_edit};
