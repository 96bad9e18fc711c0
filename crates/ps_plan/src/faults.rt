//! The first fault of a plan's text.
ghost use Rattle.std.specs.Prelude.{◌≡◌};
ghost use Rattle.ps_plan.specs.PlanText.{plan_fault};

use super::lines::{first_line, is_skipped, line_of};
use ps_action::PlanTextRefusal;

/// The most steps of a plan.
pub const MOST_STEPS: usize = 256;

/// The first line of a text that is out of the grammar, or has one step too many. It takes no memory.
#[tactic(auto, unfolding(crate::specs::PlanText::plan_fault))]
pub fn plan_fault(bytes: &[u8]) -> Option<PlanTextRefusal>
    ensures { result ≡ plan_fault bytes.now }
{
    let mut rest = bytes;
    let mut n = 1;
    let mut count = 0;
    while !rest.is_empty() {
        let (line, after) = first_line(rest);
        if !is_skipped(line) {
            if line_of(line).is_none() {
                return Some(PlanTextRefusal::Line { n });
            }
            if count >= MOST_STEPS {
                return Some(PlanTextRefusal::Long { n });
            }
            count += 1;
        }
        n += 1;
        rest = after;
    }
    None
}
