//! What the rules of the planning machine come to: laws of whole histories that stand above the rules.
#![tactic(auto)]

mod laws;

pub use laws::{
    engaged_on_one, idle_has_no_work, no_dead_end, older_has_no_work, one_work, somebody_goes_on,
    who_works_can_record,
};
