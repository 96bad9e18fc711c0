//! Requests and the answers to them.
ghost use Rattle.std.specs.Prelude.{◌≡◌, List};
ghost use Rattle.ps_machine.specs.declared.journal.Event.TheVariants.{Request, Offer, Pass, Confirm, Reject, Unserved};
ghost use Rattle.ps_machine.specs.declared.journal.Entry.{Entry};
ghost use Rattle.ps_ledger.specs.Ledger.{TellsAll};
ghost use Rattle.ps_rules.specs.Legal.{is_pass, is_passed, is_wanted, may_be_put_up, pass_reason, row_allows, same_pass, was_busy};
ghost use Rattle.ps_state.specs.Names.{all_passed, any_busy, can_serve, is_at_hand};
ghost use Rattle.ps_state.specs.State.{Says, SaysFor};

use super::members::performer_of;
use super::state::State;
use ps_ledger::Ledger;
use ps_machine::{Input, Member, PassWhy, Performer};
use ps_world::Name;

fn same_pass(why: PassWhy, other: PassWhy) -> bool
    ensures { result ≡ same_pass why other }
{
    match (why, other) {
        (PassWhy::Other, PassWhy::Other) => true,
        (PassWhy::Busy, PassWhy::Busy) => true,
        (PassWhy::Late, PassWhy::Late) => true,
        _ => false,
    }
}

fn is_pass(why: PassWhy, given: Option<PassWhy>) -> bool
    ensures { result ≡ is_pass why given }
{
    match given {
        Some(reason) => same_pass(why, reason),
        None => false,
    }
}

/// Whether each performer of the ledger passed a request.
fn all_passed(ledger: &Ledger, r: u64) -> bool
    ensures { (es : List Entry) → TellsAll es ledger.now
        → result ≡ all_passed r es ledger.now.performers.names.items }
{
    for name in &ledger.performers.names {
        if ledger.pass_of(r, *name).is_none() {
            return false;
        }
    }
    true
}

/// Whether some performer of the ledger passed a request since it was engaged.
fn any_busy(ledger: &Ledger, r: u64) -> bool
    ensures { (es : List Entry) → TellsAll es ledger.now
        → result ≡ any_busy r es ledger.now.performers.names.items }
{
    for name in &ledger.performers.names {
        if is_pass(PassWhy::Busy, ledger.pass_of(r, *name)) {
            return true;
        }
    }
    false
}

impl State {
    /// Why a performer would pass a request; nothing where it would offer.
    pub fn pass_reason(&self, performer: &Performer, r: u64) -> Option<PassWhy>
        ensures { Says self.now result (λ i es. pass_reason performer.now r es) }
    {
        let matches = self.matches_request(performer, r);
        self.ledger.pass_reason(r, performer.name, matches)
    }

    /// Whether a request is open and every performer passed it.
    pub fn is_passed(&self, r: u64) -> bool
        ensures { Says self.now result (λ i es. is_passed i r es) }
    {
        let open = self.ledger.is_open(r);
        let passed = all_passed(&self.ledger, r);
        open && passed
    }

    /// Whether some performer passed a request since it was engaged.
    pub fn was_busy(&self, r: u64) -> bool
        ensures { Says self.now result (λ i es. was_busy i r es) }
    {
        any_busy(&self.ledger, r)
    }

    /// Whether a performer does this act, and isn't engaged.
    fn is_at_hand(&self, performer: &Performer, act: u32) -> bool
        ensures { Says self.now result (λ i es. is_at_hand performer.now act es) }
    {
        let matches = self.matches_act(performer, act);
        let engaged = self.ledger.performers.is_engaged(performer.name);
        matches && !engaged
    }

    /// Whether a member is a performer that does this act, and isn't engaged.
    fn can_serve(&self, member: &Member, act: u32) -> bool
        ensures { Says self.now result (λ i es. can_serve act es member.now) }
    {
        match member {
            Member::Performer(performer) => self.is_at_hand(performer, act),
            Member::Observer(_) => false,
        }
    }

    /// Whether some performer that does this act isn't engaged.
    pub fn is_wanted(&self, input: &Input, act: u32) -> bool
        ensures { SaysFor input.now self.now result (λ es. is_wanted input.now es act) }
    {
        for member in input.members.as_slice() {
            if self.can_serve(member, act) {
                return true;
            }
        }
        false
    }

    /// Whether a performer may be asked for an act, where this is its last request.
    fn may_be_put_up(&self, input: &Input, act: u32, last: Option<u64>) -> bool
        ensures { SaysFor input.now self.now result (λ es. may_be_put_up input.now es act last) }
    {
        match last {
            None => true,
            Some(r) => {
                let unserved = self.ledger.requests.is_unserved(r);
                let wanted = self.is_wanted(input, act);
                unserved && wanted
            }
        }
    }

    /// Whether a performer may be asked for an act, by the request with this number.
    pub fn may_request(&self, input: &Input, r: u64, act: u32) -> bool
        ensures { SaysFor input.now self.now result (λ es. row_allows input.now es (Request r act)) }
    {
        let count = self.ledger.requests.count();
        let active = self.ledger.acts.is_active(act);
        let last = self.ledger.acts.request_of(act);
        let may = self.may_be_put_up(input, act, last);
        r == count && (active && may)
    }

    /// Whether a performer may offer on a request.
    pub fn may_offer(&self, input: &Input, r: u64, by: Name) -> bool
        ensures { SaysFor input.now self.now result (λ es. row_allows input.now es (Offer r by)) }
    {
        match performer_of(input, by) {
            Some(performer) => {
                let answered = self.ledger.has_answered(r, by);
                let why = self.pass_reason(performer, r);
                !answered && why.is_none()
            }
            None => false,
        }
    }

    /// Whether a performer may pass a request for this reason.
    pub fn may_pass(&self, input: &Input, r: u64, by: Name, why: PassWhy) -> bool
        ensures { SaysFor input.now self.now result (λ es. row_allows input.now es (Pass r by why)) }
    {
        match performer_of(input, by) {
            Some(performer) => {
                let of_run = self.ledger.requests.is_of_run(r);
                let answered = self.ledger.has_answered(r, by);
                let reason = self.pass_reason(performer, r);
                let same = is_pass(why, reason);
                of_run && (!answered && same)
            }
            None => false,
        }
    }

    /// Whether a performer may be confirmed on a request.
    pub fn may_confirm(&self, r: u64, by: Name) -> bool
        ensures { Says self.now result (λ i es. row_allows i es (Confirm r by)) }
    {
        let open = self.ledger.is_open(r);
        let first = match self.ledger.requests.first_offer(r) {
            Some(first) => by == first,
            None => false,
        };
        open && first
    }

    /// Whether a performer may be rejected on a request.
    pub fn may_reject(&self, r: u64, by: Name) -> bool
        ensures { Says self.now result (λ i es. row_allows i es (Reject r by)) }
    {
        let offered = self.ledger.has_offered(r, by);
        let rejected = self.ledger.is_rejected(r, by);
        let is_confirmed = self.ledger.work.is_confirmed(r, by);
        let confirmed = self.ledger.requests.confirmed(r);
        let cancelled = self.ledger.is_for_cancelled(r);
        offered && (!rejected && (!is_confirmed && (confirmed.is_some() || cancelled)))
    }

    /// Whether a request may be left unserved.
    pub fn may_leave(&self, r: u64) -> bool
        ensures { Says self.now result (λ i es. row_allows i es (Unserved r)) }
    {
        let passed = self.is_passed(r);
        let busy = self.was_busy(r);
        passed && busy
    }
}
