//! What actions are: grounding, conditions, effects and plans, and the functions on any knowledge that equal the definitions.
#![tactic(auto)]

mod acts;
mod answers;
mod arcs;
mod effects;
mod faultless;
mod goals;
mod known;
mod laws;
mod misfits;
mod places;
mod putting;
mod refusals;
mod states;
mod touched;
mod truth;
mod unfolding;
mod values;

pub use acts::{Act, GroundAction, PlanStep};
pub use answers::Answer;
pub use arcs::Arcs;
pub use effects::{fault_of_flat, fault_of_flat_with, first_clash, values_of_flat};
pub use faultless::is_faultless;
pub use goals::cond_fault;
pub use known::{Declares, Instances, Known, Types};
pub use misfits::{fact_fault, first_misfit, value_fault};
pub use places::{Holes, Place};
pub use putting::{put_boxed_expr, put_effect, put_expr, put_lifted, put_term};
pub use refusals::{EffectRefusal, GroundRefusal, Misfit, PlanRefusal, PlanTextRefusal};
pub use states::{ActState, Status};
pub use touched::Touched;
pub use truth::{all_true, is_true};
pub use unfolding::unfold;
pub use values::{duration_of, value_of};
