//! Performers and observers, and what each does next.
ghost use Rattle.std.specs.Prelude.{◌≡◌, length, slice_get};
ghost use Rattle.std.specs.List.{list_all, zip};
ghost use Rattle.std.specs.Option.{option_copied};
ghost use Rattle.ps_rules.specs.Legal.{matches_act};
ghost use Rattle.ps_rules.specs.Members.{edit_where, job, matches, matches_request, may_stand, next_edit, next_seen, next_unit, observer_of, performer_of, seen_by, unit_of};
ghost use Rattle.ps_state.specs.State.{Says, SaysFor};

use super::state::State;
use ps_action::Act;
use ps_eval::holds;
use ps_machine::{Input, Member, Observer, Performer, Unit};
use ps_world::{Cond, Edit, Name, Seq};

/// The performer of this name.
pub fn performer_of(input: &Input, name: Name) -> Option<&Performer>
    ensures { option_copied result ≡ performer_of input.now name }
{
    for member in input.members.as_slice() {
        if let Member::Performer(performer) = member {
            if name == performer.name {
                return Some(performer);
            }
        }
    }
    None
}

/// The observer of this name.
fn observer_of(input: &Input, name: Name) -> Option<&Observer>
    ensures { option_copied result ≡ observer_of input.now name }
{
    for member in input.members.as_slice() {
        if let Member::Observer(observer) = member {
            if name == observer.name {
                return Some(observer);
            }
        }
    }
    None
}

/// Whether a name may stand at a place of a pattern.
fn may_stand(want: Option<Name>, name: Name) -> bool
    ensures { result ≡ may_stand (want, name) }
{
    match want {
        None => true,
        Some(want) => want == name,
    }
}

/// Whether each of these arguments may stand at its place of a pattern.
fn may_all_stand(pattern: &[Option<Name>], args: &[Name]) -> bool
    requires { length pattern.now ≡ length args.now }
    ensures { result ≡ list_all may_stand (zip pattern.now args.now) }
{
    for at in 0..pattern.len() {
        if !may_stand(pattern[at], args[at]) {
            return false;
        }
    }
    true
}

/// Whether a performer does this act.
pub fn matches(performer: &Performer, act: &Act) -> bool
    ensures { result ≡ matches performer.now act.now }
{
    let pattern = performer.pattern.as_slice();
    let args = act.args.as_slice();
    performer.action == act.action && (pattern.len() == args.len() && may_all_stand(pattern, args))
}

/// The job of a performer at its beginning with this number.
fn job(performer: &Performer, begins: u64) -> Option<&Seq<Unit>>
    ensures { option_copied result ≡ job performer.now begins }
{
    let jobs = performer.jobs.as_slice();
    let last = begins.min(jobs.len() as u64);
    jobs.get(last.saturating_sub(1) as usize)
}

/// The unit at a place of a job.
fn unit_at(units: &Seq<Unit>, done: u64) -> Option<&Unit>
    ensures { option_copied result ≡ slice_get units.now done }
{
    units.as_slice().get(done as usize)
}

/// The unit at a place of an observer's list.
fn item_at(observer: &Observer, done: u64) -> Option<&(Option<Cond>, Edit)>
    ensures { option_copied result ≡ slice_get observer.now.units done }
{
    observer.units.as_slice().get(done as usize)
}

impl State {
    /// Whether a performer does the act at this place of the plan.
    pub fn matches_act(&self, performer: &Performer, act: u32) -> bool
        ensures { Says self.now result (λ i es. matches_act performer.now act es) }
    {
        match self.ledger.acts.plan().get(act as usize) {
            Some(act) => matches(performer, act),
            None => false,
        }
    }

    /// Whether a performer does the act of a request.
    pub fn matches_request(&self, performer: &Performer, r: u64) -> bool
        ensures { Says self.now result (λ i es. matches_request performer.now r es) }
    {
        match self.ledger.requests.act_of(r) {
            Some(act) => self.matches_act(performer, act),
            None => false,
        }
    }

    /// The unit that stands next in the job of a performer's last beginning.
    pub fn unit_of<'a>(&self, performer: &'a Performer, r: u64, by: Name) -> Option<&'a Unit>
        ensures { Says self.now (option_copied result) (λ i es. unit_of performer.now r by es) }
    {
        let begins = self.ledger.performers.begins(by);
        let done = self.ledger.work.units_done(r, by);
        match job(performer, begins) {
            Some(units) => unit_at(units, done),
            None => None,
        }
    }

    /// The next unit of a performer on a request.
    pub fn next_unit<'a>(&self, input: &'a Input, r: u64, by: Name) -> Option<&'a Unit>
        ensures { SaysFor input.now self.now (option_copied result)
            (λ es. next_unit input.now r by es) }
    {
        let works = self.ledger.work.is_working(r, by);
        let active = self.ledger.is_for_active(r);
        if works && active {
            match performer_of(input, by) {
                Some(performer) => self.unit_of(performer, r, by),
                None => None,
            }
        } else {
            None
        }
    }

    /// The next unit of a performer on a request, where it is an edit.
    pub fn next_edit<'a>(&self, input: &'a Input, r: u64, by: Name) -> Option<&'a Edit>
        ensures { SaysFor input.now self.now (option_copied result)
            (λ es. next_edit input.now r by es) }
    {
        match self.next_unit(input, r, by) {
            Some(Unit::Edit(edit)) => Some(edit),
            _ => None,
        }
    }

    /// The edit of a unit of an observer, where its condition holds.
    fn edit_where<'a>(&self, item: &'a (Option<Cond>, Edit)) -> Option<&'a Edit>
        ensures { option_copied result
            ≡ edit_where self.now.expert self.now.problem item.now }
    {
        match &item.0 {
            None => Some(&item.1),
            Some(when) => {
                if holds(&self.problem, &self.expert, when) {
                    Some(&item.1)
                } else {
                    None
                }
            }
        }
    }

    /// The edit that an observer makes next, where it may be made now.
    pub fn seen_by<'a>(&self, observer: &'a Observer) -> Option<&'a Edit>
        ensures { Says self.now (option_copied result) (λ i es. seen_by i observer.now es) }
    {
        let done = self.ledger.observers.observed(observer.name);
        match item_at(observer, done) {
            Some(item) => self.edit_where(item),
            None => None,
        }
    }

    /// The edit that the observer of this name makes next, where it may be made now.
    pub fn next_seen<'a>(&self, input: &'a Input, name: Name) -> Option<&'a Edit>
        ensures { SaysFor input.now self.now (option_copied result)
            (λ es. next_seen input.now name es) }
    {
        match observer_of(input, name) {
            Some(observer) => self.seen_by(observer),
            None => None,
        }
    }
}
