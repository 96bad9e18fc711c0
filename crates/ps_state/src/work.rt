//! The work on requests.
ghost use Rattle.std.specs.Prelude.{◌≡◌};
ghost use Rattle.ps_machine.specs.declared.journal.Event.TheVariants.{Begin, Feedback, Finish, Stopped, UnitWork};
ghost use Rattle.ps_rules.specs.Legal.{row_allows, same_flag};
ghost use Rattle.ps_state.specs.State.{Says, SaysFor};

use super::state::State;
use ps_machine::{Input, Unit};
use ps_world::{Name, Seq};

/// Whether two flags are the same.
pub fn same_flag(one: bool, other: bool) -> bool
    ensures { result ≡ same_flag one other }
{
    if one { other } else { !other }
}

impl State {
    /// Whether a performer may begin on a request.
    pub fn may_begin(&self, r: u64, by: Name) -> bool
        ensures { Says self.now result (λ i es. row_allows i es (Begin r by)) }
    {
        let confirmed = self.ledger.work.is_confirmed(r, by);
        let begun = self.ledger.work.has_begun(r, by);
        let active = self.ledger.is_for_active(r);
        confirmed && (!begun && active)
    }

    /// Whether some work is the next unit of a performer on a request.
    pub fn may_work(&self, input: &Input, r: u64, by: Name) -> bool
        ensures { SaysFor input.now self.now result (λ es. row_allows input.now es (UnitWork r by)) }
    {
        match self.next_unit(input, r, by) {
            Some(Unit::Work) => true,
            _ => false,
        }
    }

    /// Whether this feedback is the next unit of a performer on a request.
    pub fn may_report(&self, input: &Input, r: u64, by: Name, percent: u8, text: &Seq<u8>) -> bool
        ensures { SaysFor input.now self.now result
            (λ es. row_allows input.now es (Feedback r by percent text.now)) }
    {
        match self.next_unit(input, r, by) {
            Some(Unit::Feedback(share, note)) => percent == *share && text == note,
            _ => false,
        }
    }

    /// Whether an end of this kind is the next unit of a performer on a request.
    pub fn may_finish(&self, input: &Input, r: u64, by: Name, ok: bool) -> bool
        ensures { SaysFor input.now self.now result (λ es. row_allows input.now es (Finish r by ok)) }
    {
        match self.next_unit(input, r, by) {
            Some(Unit::Finish(well)) => same_flag(ok, *well),
            _ => false,
        }
    }

    /// Whether a performer may stop the work on a request.
    pub fn may_stop(&self, r: u64, by: Name) -> bool
        ensures { Says self.now result (λ i es. row_allows i es (Stopped r by)) }
    {
        let confirmed = self.ledger.work.is_confirmed(r, by);
        let through = self.ledger.work.is_through(r, by);
        let cancelled = self.ledger.is_for_cancelled(r);
        confirmed && (!through && cancelled)
    }
}
