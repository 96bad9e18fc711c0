//! What counts as the same.
ghost use Rattle.std.specs.Prelude.{◌≡◌, [], ◌∷◌};
ghost use Rattle.std.specs.Option.{option_copied};
ghost use Rattle.ps_rules.specs.Legal.{is_cause, is_edit, is_outcome};
ghost use Rattle.ps_rules.specs.Lines.{acts_of};
ghost use Rattle.ps_rules.specs.Same.{first_alike, same_acts, same_cause, same_edit, same_outcome, same_query};
ghost use Rattle.ps_world.specs.Knowledge.{same_fact};
ghost use Rattle.ps_legal.specs.Same.{same_cond, same_unit};

use super::causes::equal_causes;
use ps_action::{Act, GroundRefusal, PlanStep};
use ps_machine::{Outcome, Query, Refusal, Unit};
use ps_state::same_flag;
use ps_world::{Cond, Edit, EditRefusal, Fact};

/// Whether two facts are the same.
fn same_fact(fact: &Fact, other: &Fact) -> bool
    ensures { result ≡ same_fact fact.now other.now }
{
    fact.cmp(other).is_eq()
}

/// Whether two conditions are the same.
fn same_cond(cond: &Cond, other: &Cond) -> bool
    ensures { result ≡ same_cond cond.now other.now }
{
    cond == other
}

/// Whether two edits are the same.
fn same_edit(edit: &Edit, other: &Edit) -> bool
    ensures { result ≡ same_edit edit.now other.now }
{
    match edit {
        Edit::AddInstance(name, kind) => match other {
            Edit::AddInstance(n, t) => *name == *n && *kind == *t,
            _ => false,
        },
        Edit::RemoveInstance(name) => match other {
            Edit::RemoveInstance(n) => *name == *n,
            _ => false,
        },
        Edit::AddFact(fact) => match other {
            Edit::AddFact(f) => same_fact(fact, f),
            _ => false,
        },
        Edit::RemoveFact(fact) => match other {
            Edit::RemoveFact(f) => same_fact(fact, f),
            _ => false,
        },
        Edit::SetValue(fact, number) => match other {
            Edit::SetValue(f, x) => {
                let same = same_fact(fact, f);
                same && *number == *x
            }
            _ => false,
        },
        Edit::RemoveValue(fact) => match other {
            Edit::RemoveValue(f) => same_fact(fact, f),
            _ => false,
        },
        Edit::SetGoal(goal) => match other {
            Edit::SetGoal(c) => same_cond(goal.get(), c.get()),
            _ => false,
        },
        Edit::RemoveGoal => match other {
            Edit::RemoveGoal => true,
            _ => false,
        },
    }
}

/// Whether this is the edit that is said, if one is.
pub fn is_edit(edit: &Edit, said: Option<&Edit>) -> bool
    ensures { result ≡ is_edit edit.now (option_copied said.entry) }
{
    match said {
        Some(other) => same_edit(edit, other),
        None => false,
    }
}

/// Whether two units are the same.
pub fn same_unit(unit: &Unit, other: &Unit) -> bool
    ensures { result ≡ same_unit unit.now other.now }
{
    match unit {
        Unit::Work => match other {
            Unit::Work => true,
            _ => false,
        },
        Unit::Feedback(percent, text) => match other {
            Unit::Feedback(p, t) => *percent == *p && text == t,
            _ => false,
        },
        Unit::Edit(edit) => match other {
            Unit::Edit(e) => same_edit(edit, e),
            _ => false,
        },
        Unit::Finish(ok) => match other {
            Unit::Finish(b) => same_flag(*ok, *b),
            _ => false,
        },
    }
}

/// Whether two queries are the same.
pub fn same_query(query: Query, other: Query) -> bool
    ensures { result ≡ same_query query other }
{
    query == other
}

fn same_outcome(how: Outcome, other: Outcome) -> bool
    ensures { result ≡ same_outcome how other }
{
    how == other
}

/// Whether this is the outcome that is given, if one is.
pub fn is_outcome(how: Outcome, given: Option<Outcome>) -> bool
    ensures { result ≡ is_outcome how given }
{
    match given {
        Some(other) => same_outcome(how, other),
        None => false,
    }
}

/// Of the causes that print as this one does, the one that stands first among all causes.
fn first_alike(why: Refusal) -> Refusal
    ensures { result ≡ first_alike why }
{
    match why {
        Refusal::Ground(GroundRefusal::NoInstance(name)) => {
            Refusal::Edit(EditRefusal::NoInstance(name))
        }
        Refusal::Ground(GroundRefusal::Arity { want, got }) => {
            Refusal::Edit(EditRefusal::Arity { want, got })
        }
        Refusal::Ground(GroundRefusal::WrongType { at }) => {
            Refusal::Edit(EditRefusal::WrongType { at })
        }
        Refusal::NoGoal => Refusal::Edit(EditRefusal::NoGoal),
        Refusal::NoPredicate => Refusal::Edit(EditRefusal::NoPredicate),
        Refusal::NoAction => Refusal::Ground(GroundRefusal::NoAction),
        _ => why,
    }
}

fn same_cause(why: Refusal, other: Refusal) -> bool
    ensures { result ≡ same_cause why other }
{
    let first = first_alike(why);
    let second = first_alike(other);
    equal_causes(first, second)
}

/// Whether this is the cause that is given, if one is.
pub fn is_cause(why: Refusal, given: Option<Refusal>) -> bool
    ensures { result ≡ is_cause why given }
{
    match given {
        Some(other) => same_cause(why, other),
        None => false,
    }
}

/// Whether these are the acts of a plan's steps.
pub fn are_acts_of(acts: &[Act], steps: &[PlanStep]) -> bool
    ensures { result ≡ same_acts acts.now (acts_of steps.now) }
{
    if acts.len() != steps.len() {
        return false;
    }
    for at in 0..acts.len() {
        if acts[at] != steps[at].act {
            return false;
        }
    }
    true
}

/// Whether this act is the only one.
pub fn is_only_act(acts: &[Act], act: &Act) -> bool
    ensures { result ≡ same_acts acts.now (act.now ∷ []) }
{
    match acts {
        [only] => only == act,
        _ => false,
    }
}
