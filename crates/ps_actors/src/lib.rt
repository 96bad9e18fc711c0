//! What the ticker and a performer do in their turns.
#![tactic(auto)]

mod acts;
mod answers;
mod choice;
mod heard;
mod laws;
mod overs;
mod rejects;
mod requests;
mod ticks;
mod turns;
mod work;

pub use choice::{Choice, Chosen};
pub use heard::heard_upto;
pub use laws::hearing_stays;
pub use overs::wants_plan;
pub use ticks::ticked;
pub use turns::performed;
pub use work::work_of;
