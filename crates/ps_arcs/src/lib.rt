//! Arcs between ground actions: which of them keep their order.
#![tactic(auto)]

mod arcs;
mod index;
mod laws;
mod touching;

pub use arcs::arcs_of;
pub use laws::{
    arcs_are_listed, beginnings_go_well, conditions_read_things, effects_leave_others,
    effects_read_things, judged_is_good, judged_is_grounded, no_arc_leaves_alone, orders_go_well,
    truth_reads_what_is_told,
};
