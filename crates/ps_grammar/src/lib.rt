//! The language of planning domains: what their texts may be.
#![tactic(auto)]

mod faults;
mod laws;
mod marks;
mod rules;
mod shape;
mod symbols;
mod turns;
mod wanted;

pub use faults::{Form, ShapeFault};
pub use laws::{
    faults_are_first, faults_are_real, faults_are_told, first_faults_are_one, first_faults_are_real,
};
pub use marks::Mark;
pub use rules::MOST_NAMES;
pub use shape::{first_fault, judge};
pub use symbols::{
    ActionPart, ConditionPart, EffectPart, GoalPart, ListPart, Reach, Seen, Symbol, TextPart,
    ValuePart,
};
